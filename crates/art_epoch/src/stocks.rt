//! The numbers that a pass has in hand, and how it takes one.
ghost use Rattle.std.specs.Prelude.{◌≡◌, ◌<◌, ◌^◌, true, ◌+◌, ◌*◌, ◌≤◌, IfSome, Some, None};
ghost use Rattle.art_epoch.specs.Stocks.{ComesLast, first_hints, first_word, is_before, nothing, rank_after, with_leaf, with_node};
ghost use Rattle.art_step.specs.Acting.{Answers, IsAllowed};
ghost use Rattle.art_epoch.specs.Taking.{Fits, IsSearch, MadeFew, OnlyTakes, Takes, after_clear, after_look, around, asks, search_after};
ghost use Rattle.art_step.specs.WordPlaces.{free_words, pool_size};

use art_cell::{Layout, Link, Node, Pool};
use art_step::{Action, Answer, EpochSteps, Number, Sizes, free_words, perform};

/// The word of free numbers of each pool at which a pass begins to search it: that of the number that it took or gave back last. So
/// what comes back is taken again at once, and the words in use stay few.
#[derive(Clone, Copy)]
pub struct Hints {
    leaves: u32,
    n4: u32,
    n16: u32,
    n48: u32,
    n256: u32,
}

/// The number of a node in hand. Of two the one that was taken first has the smaller rank.
#[derive(Clone, Copy)]
pub struct RankedNode {
    number: u32,
    rank: u32,
}

/// The numbers that a pass has in hand: of a leaf, and of a node of each layout, one at most. They stay in hand where an attempt
/// begins anew, and are used again.
#[derive(Clone, Copy)]
pub struct Stock {
    leaf: Option<u32>,
    /// The leaf has its words.
    written: bool,
    node4: Option<RankedNode>,
    node16: Option<RankedNode>,
    node48: Option<RankedNode>,
    node256: Option<RankedNode>,
    hints: Hints,
}

impl Stock {
    ghost use Rattle.art_epoch.specs.Stocks.{earlier, first_in, first_layout, first_node, has_node, hint_in, hinted_at, next_rank, node_in, node_link, ranked_node, set_node, without, without_leaf, without_node};

    /// Of the pass `own`, with nothing in hand: the first searches of the passes are spread over the words of a pool.
    pub fn new(own: u32, sizes: &Sizes) -> Stock
        ensures { result ≡ nothing (first_hints sizes.now own) }
    {
        Stock {
            leaf: None,
            written: false,
            node4: None,
            node16: None,
            node48: None,
            node256: None,
            hints: first_hints(own, sizes),
        }
    }

    /// The word of free numbers of the pool at which a search begins.
    pub fn hint(&self, pool: Pool) -> u32
        ensures { result ≡ hint_in self.now pool }
    {
        match pool {
            Pool::Leaves => self.hints.leaves,
            Pool::N4 => self.hints.n4,
            Pool::N16 => self.hints.n16,
            Pool::N48 => self.hints.n48,
            Pool::N256 => self.hints.n256,
        }
    }

    /// The number of a leaf.
    pub fn leaf(&self) -> Option<u32>
        ensures { result ≡ self.now.leaf }
    {
        self.leaf
    }

    /// Whether the leaf has its words.
    pub fn is_written(&self) -> bool
        ensures { result ≡ self.now.written }
    {
        self.written
    }

    /// The number of a node of the layout.
    pub fn node(&self, layout: Layout) -> Option<u32>
        ensures { result ≡ node_in self.now layout }
    {
        Some(self.ranked_node(layout)?.number)
    }

    /// The node of the layout, with its rank.
    fn ranked_node(&self, layout: Layout) -> Option<RankedNode>
        ensures { result ≡ ranked_node self.now layout }
    {
        match layout {
            Layout::Node4 => self.node4,
            Layout::Node16 => self.node16,
            Layout::Node48 => self.node48,
            Layout::Node256 => self.node256,
        }
    }

    /// A leaf comes in, whose words are still to be written.
    pub fn add_leaf(&mut self, leaf: u32)
        ensures { self.new ≡ with_leaf leaf self.old }
    {
        self.start_at(Link::Leaf(leaf));
        self.leaf = Some(leaf);
        self.written = false;
    }

    /// The leaf has its words now.
    pub fn set_written(&mut self)
        ensures { self.new ≡ record self.old { written = true } }
    {
        self.written = true;
    }

    /// A node comes in, behind all that are in hand.
    pub fn add_node(&mut self, node: Node)
        ensures node { self.new ≡ with_node node self.old }
        ensures last { ComesLast self.old self.new node.layout }
    {
        let ranked = RankedNode {
            number: node.number,
            rank: self.next_rank(),
        };
        self.start_at(Link::Node(node));
        self.set_node(node.layout, Some(ranked));
    }

    /// The rank of a node that comes in.
    fn next_rank(&self) -> u32
        ensures { result ≡ next_rank self.now }
    {
        let small = rank_after(self.node4).max(rank_after(self.node16));
        let large = rank_after(self.node48).max(rank_after(self.node256));
        small.max(large)
    }

    /// The node of the layout is this one, or there is none.
    fn set_node(&mut self, layout: Layout, node: Option<RankedNode>)
        ensures { self.new ≡ set_node layout node self.old }
    {
        match layout {
            Layout::Node4 => self.node4 = node,
            Layout::Node16 => self.node16 = node,
            Layout::Node48 => self.node48 = node,
            Layout::Node256 => self.node256 = node,
        }
    }

    /// The number was found in its pool, or went back to it: the next search of that pool begins at its word.
    pub fn start_at(&mut self, link: Link)
        ensures { self.new ≡ hinted_at link self.old }
    {
        match link {
            Link::Leaf(number) => self.hints.leaves = number / 64,
            Link::Node(node) => {
                let hint = node.number / 64;
                match node.layout {
                    Layout::Node4 => self.hints.n4 = hint,
                    Layout::Node16 => self.hints.n16 = hint,
                    Layout::Node48 => self.hints.n48 = hint,
                    Layout::Node256 => self.hints.n256 = hint,
                }
            }
        }
    }

    /// The leaf left the hand: it was linked by a commit, or given back.
    pub fn spend_leaf(&mut self)
        ensures { self.new ≡ without_leaf self.old }
    {
        self.leaf = None;
        self.written = false;
    }

    /// The node of the layout left the hand.
    pub fn spend_node(&mut self, layout: Layout)
        ensures { self.new ≡ without_node layout self.old }
    {
        self.set_node(layout, None);
    }

    /// The first of them: the leaf, and then the nodes in the order in which they were taken.
    #[inline(always)]
    pub(crate) fn first(&self) -> Option<Link>
        ensures { result ≡ first_in self.now }
    {
        match self.leaf {
            Some(leaf) => Some(Link::Leaf(leaf)),
            None => self.first_node(),
        }
    }

    /// The node that was taken first.
    fn first_node(&self) -> Option<Link>
        ensures { result ≡ first_node self.now }
    {
        // A write mostly has none in hand by then.
        if self.has_node() {
            self.link(self.first_layout())
        } else {
            None
        }
    }

    /// A node is in hand.
    fn has_node(&self) -> bool
        ensures { result ≡ has_node self.now }
    {
        self.node4.is_some()
            || self.node16.is_some()
            || self.node48.is_some()
            || self.node256.is_some()
    }

    /// The layout whose node was taken first, if a node is in hand.
    fn first_layout(&self) -> Layout
        ensures { result ≡ first_layout self.now }
    {
        let large = self.earlier(Layout::Node48, Layout::Node256);
        self.earlier(Layout::Node4, self.earlier(Layout::Node16, large))
    }

    /// Of two layouts that whose node was taken first, or that of which there is one.
    fn earlier(&self, one: Layout, other: Layout) -> Layout
        ensures { result ≡ earlier self.now one other }
    {
        if is_before(self.ranked_node(other), self.ranked_node(one)) {
            other
        } else {
            one
        }
    }

    /// The node of the layout.
    fn link(&self, layout: Layout) -> Option<Link>
        ensures { result ≡ node_link self.now layout }
    {
        let number = self.node(layout)?;
        Some(Link::Node(Node { layout, number }))
    }

    /// This number left the hand.
    pub(crate) fn spend(&mut self, link: Link)
        ensures { self.new ≡ without link self.old }
    {
        match link {
            Link::Leaf(_) => self.spend_leaf(),
            Link::Node(node) => self.spend_node(node.layout),
        }
    }
}

/// The rank behind that of the node, as long as there is one.
fn rank_after(node: Option<RankedNode>) -> u32
    ensures { result ≡ rank_after node }
{
    match node {
        Some(node) => node.rank.saturating_add(1),
        None => 0,
    }
}

/// The node is there, and was taken before the other, if that is there.
fn is_before(node: Option<RankedNode>, other: Option<RankedNode>) -> bool
    ensures { result ≡ is_before node other }
{
    match (node, other) {
        (None, _) => false,
        (Some(_), None) => true,
        (Some(node), Some(other)) => node.rank < other.rank,
    }
}

/// Where a pass begins to search each pool.
fn first_hints(own: u32, sizes: &Sizes) -> Hints
    ensures { result ≡ first_hints sizes.now own }
{
    let word = |numbers: u32| first_word(own, sizes.passes, free_words(numbers) as u32);
    Hints {
        leaves: word(sizes.leaves),
        n4: word(sizes.n4),
        n16: word(sizes.n16),
        n48: word(sizes.n48),
        n256: word(sizes.n256),
    }
}

/// The word of free numbers at which a pass, of so many, looks first in a pool of so many words: passes begin apart.
fn first_word(own: u32, passes: u32, words: u32) -> u32
    ensures { result ≡ first_word own passes words }
{
    if own >= passes {
        return 0;
    }
    (u64::from(own) * u64::from(words) / u64::from(passes)) as u32
}

/// How far a search for a number has come.
#[derive(Clone, Copy)]
pub enum Search {
    /// So many words gave none.
    Looking(u32),
    /// The word after so many was found with this bit, its lowest.
    Clearing { index: u32, bit: u32 },
    /// The number with this bit of that word is in hand.
    Took { index: u32, bit: u32 },
}

/// Takes a number of a pool: it looks at the words of free numbers in their order, from one on and all around, and of one with a
/// bit it takes the lowest. A bit that another pass took in between sends it to the next word.
#[derive(Clone, Copy)]
pub struct Taking {
    pool: Pool,
    words: u32,
    /// The index of the word that it looks at first.
    first: u32,
    search: Search,
}

impl Taking {
    ghost use Rattle.std.specs.Prelude.{ℕ};
    ghost use Rattle.art_step.specs.declared.views.Sizes.{Sizes};
    ghost use Rattle.art_step.specs.declared.views.View.{View};
    ghost use Rattle.art_step.specs.declared.actions.Action.{Action as ActionOf};

    /// A number of this pool, from its first word on.
    pub fn new(pool: Pool, sizes: Sizes) -> Taking
        ensures pool { result.pool ≡ pool }
        ensures first { result.first ≡ 0 }
        ensures fits { (v : View) → Fits sizes v result v }
    {
        Taking::from_word(pool, sizes, 0)
    }

    /// A number of this pool, from the word with an index on, and all around.
    pub fn from_word(pool: Pool, sizes: Sizes, first: u32) -> Taking
        ensures pool { result.pool ≡ pool }
        ensures first { result.first ≡ first }
        ensures fits { (v : View) → Fits sizes v result v }
    {
        Taking {
            pool,
            words: free_words(sizes.pool_size(pool)) as u32,
            first,
            search: Search::Looking(0),
        }
    }

    /// The next step, or none where it has ended.
    #[inline(always)]
    pub fn next(&self) -> Option<Action>
        ensures asks { result ≡ asks self.now }
        ensures allowed { (z : Sizes) (v0 v : View) → Fits z v0 self.now v → IfSome result (IsAllowed z None v) }
    {
        match self.search {
            Search::Looking(passed) if passed < self.words => Some(Action::ClearBit {
                pool: self.pool,
                index: around(self.words, self.first, passed),
                bit: None,
            }),
            Search::Clearing { index: passed, bit } => Some(Action::ClearBit {
                pool: self.pool,
                index: around(self.words, self.first, passed),
                bit: Some(bit),
            }),
            _ => None,
        }
    }

    /// The step that it asked for was made, and answered so.
    #[inline(always)]
    pub fn told(&mut self, answer: Answer)
        requires { (z : Sizes) × (v0 : View) × (v : View) × (w : View) × (action : ActionOf) × Fits z v0 self.old v ×
            (asks self.old ≡ Some action) × Answers z None action answer v w }
        ensures pool { self.new.pool ≡ self.old.pool }
        ensures words { self.new.words ≡ self.old.words }
        ensures first { self.new.first ≡ self.old.first }
        ensures fits { (z : Sizes) (v0 v w : View) (action : ActionOf) → Fits z v0 self.old v → asks self.old ≡ Some action →
            Answers z None action answer v w → Fits z v0 self.new w }
    {
        self.search = after(self.search, answer.word());
    }

    /// The number that it took, or none.
    #[inline(always)]
    pub fn number(&self) -> Option<Number>
        requires { (z : Sizes) × (v0 : View) × (v : View) × Fits z v0 self.now v × (asks self.now ≡ None) }
        ensures { (z : Sizes) (v0 v : View) → Fits z v0 self.now v → Takes z v0 v self.now.pool self.now.first result }
    {
        match self.search {
            Search::Took { index: passed, bit } => {
                let index = around(self.words, self.first, passed);
                Some(Number::in_pool(self.pool, 64 * index + bit))
            }
            _ => None,
        }
    }
}

/// The index of the word that comes after so many others, where the words go round from the first one on.
#[inline(always)]
fn around(words: u32, first: u32, passed: u32) -> u32
    ensures { result ≡ around words first passed }
{
    let ahead = words.saturating_sub(first);
    if passed < ahead {
        first + passed
    } else {
        passed - ahead
    }
}

/// How far the search has come once this word was found.
#[inline(always)]
fn after(search: Search, word: u64) -> Search
    requires { IsSearch search }
    ensures { result ≡ search_after word search }
{
    match search {
        Search::Looking(passed) => looked(passed, word),
        Search::Clearing { index: passed, bit } => cleared(passed, bit, word),
        Search::Took { index: passed, bit } => Search::Took { index: passed, bit },
    }
}

/// The word after so many was looked at.
#[inline(always)]
fn looked(passed: u32, word: u64) -> Search
    requires { passed + 1 < 2 ^ 32 }
    ensures { result ≡ after_look passed word }
{
    if word == 0 {
        return Search::Looking(passed + 1);
    }
    Search::Clearing {
        index: passed,
        bit: word.trailing_zeros(),
    }
}

/// The word lost the bit, or did not have it.
#[inline(always)]
fn cleared(passed: u32, bit: u32, word: u64) -> Search
    requires inside { passed + 1 < 2 ^ 32 }
    requires low { bit < 64 }
    ensures { result ≡ after_clear passed bit word }
{
    if (word >> bit) % 2 == 1 {
        return Search::Took { index: passed, bit };
    }
    Search::Looking(passed + 1)
}

/// A number of the pool comes into the hand of the pass: the lowest of the first word of free numbers that is found with a bit
/// which nobody takes in between. None where each word of the pool was found without a bit, or its lowest bit was lost.
pub fn take<S: EpochSteps>(steps: &mut S, pool: Pool) -> Option<Number>
    ensures only { S.only steps.old steps.new }
    ensures same { OnlyTakes (S.view steps.old) (S.view steps.new) }
    ensures steps { (S.view steps.new).steps ≤ (S.view steps.old).steps + 2 * free_words (pool_size (S.sizes steps.old) pool) }
    ensures counted { MadeFew (S.view steps.old) (S.view steps.new) (free_words (pool_size (S.sizes steps.old) pool) + 1) }
    ensures failed { (S.view steps.old).failures ≤ (S.view steps.new).failures }
    ensures takes { Takes (S.sizes steps.old) (S.view steps.old) (S.view steps.new) pool 0 result }
{
    let mut taking = Taking::new(pool, steps.pool_sizes());
    while let Some(action) = taking.next() {
        let answer = perform(steps, action, None);
        taking.told(answer);
    }
    taking.number()
}
