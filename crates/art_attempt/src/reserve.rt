//! Numbers come into the hand, and the leaf gets its words.
ghost use Rattle.std.specs.Prelude.{◌≡◌, ◌⊎◌, ℕ, ◌<◌, ◌≤◌, List, length, Some, None, true};
ghost use Rattle.art_cell.specs.Children.{number_of};
ghost use Rattle.art_cell.specs.declared.cells.Pool.TheVariants.{Leaves as leaves};
ghost use Rattle.art_epoch.specs.Taking.{Fits as TakingFits};
ghost use Rattle.art_epoch.specs.Stocks.{HasStock, node_in};
ghost use Rattle.art_step.specs.Acting.{Answers, IsAllowed};
ghost use Rattle.art_attempt.specs.Reserve.{Fits, HasLeafWords, IsSoon, IsSought, OnlySupplies, asks, leaf_looks};
ghost use Rattle.art_attempt.specs.Reserve.{leaf_steps};
ghost use Rattle.art_step.specs.Turns.{Spends};
ghost use Rattle.art_step.specs.declared.actions.Action.{Action as ActionOf};
ghost use Rattle.art_step.specs.declared.actions.Answer.{Answer as AnswerOf};
ghost use Rattle.art_attempt.specs.declared.reserve.Reserve.TheVariants.{Leaf as leaf_sought, LeafWriter as packed, Node as node_sought};
ghost use Rattle.art_attempt.specs.declared.reserve.Demand.{Demand as DemandOf};
ghost use Rattle.art_step.specs.Views.{pool_of_layout};
ghost use Rattle.art_step.specs.declared.views.Sizes.{Sizes as SizesOf};
ghost use Rattle.art_step.specs.declared.views.View.{View};

use art_cell::{Layout, Link, Node, Pool};
use art_epoch::{LeafWriter, Stock, Taking};
use art_step::{Action, Answer, EpochSteps, Sizes, perform, pool_of_layout, spent};

/// What a change wants to have in hand.
#[derive(Clone, Copy)]
pub struct Demand {
    /// A leaf, with its words.
    pub leaf: bool,
    /// A node of this layout.
    pub node: Option<Layout>,
    pub sizes: Sizes,
}

/// How a reserve ended.
#[derive(Clone, Copy)]
pub enum Reserved {
    /// All that is wanted is in hand.
    Ready,
    /// No number of the pool was found.
    Full(Pool),
}

/// Where a reserve stands between two of its steps.
#[derive(Clone, Copy)]
pub enum Reserve {
    /// The number of a leaf is sought.
    Leaf(Taking),
    /// The leaf gets its words.
    LeafWriter(LeafWriter),
    /// The number of a node is sought.
    Node(Taking),
    Ended(Reserved),
}

impl Reserve {
    ghost use Rattle.std.specs.Prelude.{IfSome};
    ghost use Rattle.art_attempt.specs.Reserve.{ended_at};
    ghost use Rattle.art_attempt.specs.declared.reserve.Reserved.{Reserved as ReservedOf};

    /// At its beginning.
    #[inline(always)]
    pub(crate) fn new(demand: &Demand, stock: &mut Stock) -> Reserve
        requires { (k : List ℕ) × (value : ℕ) × (u : View) × HasStock demand.now.sizes k value u stock.old }
        ensures keeps { HasLeafWords stock.old → HasLeafWords stock.new }
        ensures fits { (k : List ℕ) (value : ℕ) (u : View) → HasStock demand.now.sizes k value u stock.old →
            Fits demand.now.sizes demand.now k value result stock.new u u }
    {
        if !demand.leaf {
            return node_wanted(demand, stock);
        }
        match stock.leaf() {
            Some(_) => {}
            None => {
                let hint = stock.hint(Pool::Leaves);
                let taking = Taking::from_word(Pool::Leaves, demand.sizes, hint);
                return leaf_sought(stock, taking);
            }
        }
        if stock.is_written() {
            return node_wanted(demand, stock);
        }
        Reserve::LeafWriter(LeafWriter::new())
    }

    /// The next step, or none where it has ended.
    #[inline(always)]
    pub(crate) fn next(&self, key: &[u8], value: u64, stock: &Stock) -> Option<Action>
        requires few { length key.now ≤ 64 }
        ensures asks { result ≡ asks key.now value stock.now self.now }
        ensures allowed { (z : SizesOf) (u v : View) → (demand : DemandOf) → Fits z demand key.now value self.now stock.now u v →
            IfSome result (IsAllowed z None v) }
        ensures going { (z : SizesOf) (u v : View) → (demand : DemandOf) → Fits z demand key.now value self.now stock.now u v →
            ended_at self.now ≡ None → (a : ActionOf) × (result ≡ Some a) }
    {
        self.asked(key, value, stock)
    }

    /// The step that it asked for was made, and answered so.
    #[inline(always)]
    pub(crate) fn told(&mut self, demand: &Demand, stock: &mut Stock, answer: Answer)
        requires { (z : SizesOf) × (k : List ℕ) × (value : ℕ) × (u : View) × (v : View) × (w : View) × (asked : ActionOf) ×
            Fits z demand.now k value self.old stock.old u v × (asks k value stock.old self.old ≡ Some asked) ×
            Answers z None asked answer v w }
        ensures keeps { HasLeafWords stock.old → HasLeafWords stock.new }
        ensures fits { (z : SizesOf) (k : List ℕ) (value : ℕ) (u v w : View) (asked : ActionOf) →
            Fits z demand.now k value self.old stock.old u v → asks k value stock.old self.old ≡ Some asked →
            Answers z None asked answer v w → Fits z demand.now k value self.new stock.new u w }
    {
        *self = match *self {
            Reserve::Leaf(taking) => leaf_told(stock, taking, answer),
            Reserve::LeafWriter(leaf_writer) => leaf_packed(demand, stock, leaf_writer),
            Reserve::Node(taking) => node_told(demand, stock, taking, answer),
            Reserve::Ended(reserved) => Reserve::Ended(reserved),
        };
    }

    /// Writes words of the leaf, as long as more than one is to be written and more than one turn is left.
    #[inline(always)]
    fn pack_on<S: EpochSteps>(
        &mut self,
        steps: &mut S,
        key: &[u8],
        value: u64,
        stock: &Stock,
        left: &mut u32,
    )
        requires few { length key.now ≤ 64 }
        requires some { 0 < left.old }
        requires fits { (demand : DemandOf) × (u : View) ×
            Fits (S.sizes steps.old) demand key.now value self.old stock.now u (S.view steps.old) }
        ensures only { S.only steps.old steps.new }
        ensures turns { Spends (S.view steps.old) (S.view steps.new) left.old left.new }
        ensures fits { (demand : DemandOf) (u : View) →
            Fits (S.sizes steps.old) demand key.now value self.old stock.now u (S.view steps.old) →
            Fits (S.sizes steps.old) demand key.now value self.new stock.now u (S.view steps.new) }
    {
        let Reserve::LeafWriter(mut leaf_writer) = *self else {
            return;
        };
        let Some(leaf) = stock.leaf() else {
            unreachable!();
        };
        while *left > 1 {
            // what follows the last word is left to the machine
            if leaf_writer.is_at_last() {
                break;
            }
            let Some(action) = leaf_writer.next(leaf, key, value) else {
                break;
            };
            perform(steps, action, None);
            leaf_writer.told();
            *left -= 1;
        }
        *self = Reserve::LeafWriter(leaf_writer);
    }

    /// Makes its steps, one after another, as long as more than one turn is left.
    #[inline(always)]
    pub(crate) fn run<S: EpochSteps>(
        &mut self,
        steps: &mut S,
        demand: &Demand,
        key: &[u8],
        value: u64,
        stock: &mut Stock,
        left: &mut u32,
    )
        requires few { length key.now ≤ 64 }
        requires some { 0 < left.old }
        requires fits { (u : View) × Fits (S.sizes steps.old) demand.now key.now value self.old stock.old u (S.view steps.old) }
        ensures only { S.only steps.old steps.new }
        ensures turns { Spends (S.view steps.old) (S.view steps.new) left.old left.new }
        ensures last { ((r : ReservedOf) × (ended_at self.new ≡ Some r)) ⊎ (left.new ≡ 1) }
        ensures keeps { HasLeafWords stock.old → HasLeafWords stock.new }
        ensures fits { (u : View) → Fits (S.sizes steps.old) demand.now key.now value self.old stock.old u (S.view steps.old) →
            Fits (S.sizes steps.old) demand.now key.now value self.new stock.new u (S.view steps.new) }
    {
        while *left > 1 {
            self.pack_on(steps, key, value, stock, left);
            if *left == 1 {
                return;
            }
            let Some(asked) = self.next(key, value, stock) else {
                return;
            };
            let answer = perform(steps, asked, None);
            *left -= 1;
            self.told(demand, stock, answer);
        }
    }

    /// How it ended, if it has.
    pub(crate) fn ended(&self) -> Option<Reserved>
        ensures at { result ≡ ended_at self.now }
    {
        match *self {
            Reserve::Ended(reserved) => Some(reserved),
            _ => None,
        }
    }

    /// The next step, by the stage alone.
    #[inline(always)]
    fn asked(&self, key: &[u8], value: u64, stock: &Stock) -> Option<Action>
        requires few { length key.now ≤ 64 }
        ensures { result ≡ asks key.now value stock.now self.now }
    {
        match *self {
            Reserve::Leaf(taking) => taking.next(),
            Reserve::LeafWriter(leaf_writer) => leaf_writer.next(stock.leaf()?, key, value),
            Reserve::Node(taking) => taking.next(),
            Reserve::Ended(_) => None,
        }
    }
}

/// The search for the number of a leaf was answered so.
#[inline(always)]
fn leaf_told(stock: &mut Stock, taking: Taking, answer: Answer) -> Reserve
    requires { (z : SizesOf) × (demand : DemandOf) × (k : List ℕ) × (value : ℕ) × (u : View) × (v : View) × (w : View) ×
        (asked : ActionOf) × Fits z demand k value (leaf_sought taking) stock.old u v ×
        (asks k value stock.old (leaf_sought taking) ≡ Some asked) × Answers z None asked answer v w }
    ensures { (z : SizesOf) (demand : DemandOf) (k : List ℕ) (value : ℕ) (u v w : View) (asked : ActionOf) →
        Fits z demand k value (leaf_sought taking) stock.old u v → asks k value stock.old (leaf_sought taking) ≡ Some asked →
        Answers z None asked answer v w → Fits z demand k value result stock.new u w }
{
    let mut taking = taking;
    taking.told(answer);
    leaf_sought(stock, taking)
}

/// The number of a leaf is sought on; or it was found, and the leaf gets its words; or there is none.
#[inline(always)]
fn leaf_sought(stock: &mut Stock, taking: Taking) -> Reserve
    requires { (z : SizesOf) × (early : View) × (v : View) × TakingFits z early taking v }
    ensures { (z : SizesOf) (demand : DemandOf) (k : List ℕ) (value : ℕ) (u v : View) → demand.sizes ≡ z → demand.leaf ≡ true →
        stock.old.leaf ≡ None → IsSought z k value stock.old u taking leaves v → Fits z demand k value result stock.new u v }
{
    match taking.next() {
        Some(_) => return Reserve::Leaf(taking),
        None => {}
    }
    let Some(link) = spent(taking.number()) else {
        return Reserve::Ended(Reserved::Full(Pool::Leaves));
    };
    stock.add_leaf(number_of(link));
    Reserve::LeafWriter(LeafWriter::new())
}

/// A word of the leaf was written.
#[inline(always)]
fn leaf_packed(demand: &Demand, stock: &mut Stock, leaf_writer: LeafWriter) -> Reserve
    requires { (z : SizesOf) × (k : List ℕ) × (value : ℕ) × (u : View) × (v : View) × (w : View) × (asked : ActionOf) ×
        (answer : AnswerOf) ×
        Fits z demand.now k value (packed leaf_writer) stock.old u v × (asks k value stock.old (packed leaf_writer) ≡ Some asked) ×
        Answers z None asked answer v w }
    ensures keeps { HasLeafWords stock.old → HasLeafWords stock.new }
    ensures fits { (z : SizesOf) (k : List ℕ) (value : ℕ) (u v w : View) (asked : ActionOf) (answer : AnswerOf) →
        Fits z demand.now k value (packed leaf_writer) stock.old u v → asks k value stock.old (packed leaf_writer) ≡ Some asked →
        Answers z None asked answer v w → Fits z demand.now k value result stock.new u w }
{
    let mut leaf_writer = leaf_writer;
    leaf_writer.told();
    if leaf_writer.is_over() {
        stock.set_written();
        return node_wanted(demand, stock);
    }
    Reserve::LeafWriter(leaf_writer)
}

/// What there is to do once the leaf is there, where one is wanted.
#[inline(always)]
fn node_wanted(demand: &Demand, stock: &mut Stock) -> Reserve
    requires { (z : SizesOf) × (v : View) × (k : List ℕ) × (value : ℕ) × (demand.now.sizes ≡ z) × HasStock z k value v stock.old }
    ensures keeps { HasLeafWords stock.old → HasLeafWords stock.new }
    ensures fits { (z : SizesOf) (k : List ℕ) (value : ℕ) (u v : View) → demand.now.sizes ≡ z → OnlySupplies z k value stock.old u v →
        IsSoon u v (leaf_steps z) (leaf_looks z) → (demand.now.leaf ≡ true → HasLeafWords stock.old) →
        Fits z demand.now k value result stock.new u v }
{
    let Some(layout) = demand.node else {
        return Reserve::Ended(Reserved::Ready);
    };
    match stock.node(layout) {
        Some(_) => Reserve::Ended(Reserved::Ready),
        None => {
            let pool = pool_of_layout(layout);
            let taking = Taking::from_word(pool, demand.sizes, stock.hint(pool));
            node_sought(layout, stock, taking)
        }
    }
}

/// The search for the number of a node was answered so.
#[inline(always)]
fn node_told(demand: &Demand, stock: &mut Stock, taking: Taking, answer: Answer) -> Reserve
    requires { (z : SizesOf) × (k : List ℕ) × (value : ℕ) × (u : View) × (v : View) × (w : View) × (asked : ActionOf) ×
        Fits z demand.now k value (node_sought taking) stock.old u v ×
        (asks k value stock.old (node_sought taking) ≡ Some asked) × Answers z None asked answer v w }
    ensures keeps { HasLeafWords stock.old → HasLeafWords stock.new }
    ensures fits { (z : SizesOf) (k : List ℕ) (value : ℕ) (u v w : View) (asked : ActionOf) →
        Fits z demand.now k value (node_sought taking) stock.old u v → asks k value stock.old (node_sought taking) ≡ Some asked →
        Answers z None asked answer v w → Fits z demand.now k value result stock.new u w }
{
    let mut taking = taking;
    taking.told(answer);
    let Some(layout) = demand.node else {
        unreachable!();
    };
    node_sought(layout, stock, taking)
}

/// The number of a node of the layout is sought on; or it was found; or there is none.
#[inline(always)]
fn node_sought(layout: Layout, stock: &mut Stock, taking: Taking) -> Reserve
    requires { (z : SizesOf) × (early : View) × (v : View) × TakingFits z early taking v }
    ensures keeps { HasLeafWords stock.old → HasLeafWords stock.new }
    ensures fits { (z : SizesOf) (demand : DemandOf) (k : List ℕ) (value : ℕ) (u v : View) → demand.sizes ≡ z →
        demand.node ≡ Some layout → node_in stock.old layout ≡ None → (demand.leaf ≡ true → HasLeafWords stock.old) →
        IsSought z k value stock.old u taking (pool_of_layout layout) v → Fits z demand k value result stock.new u v }
{
    match taking.next() {
        Some(_) => return Reserve::Node(taking),
        None => {}
    }
    let Some(link) = spent(taking.number()) else {
        return Reserve::Ended(Reserved::Full(pool_of_layout(layout)));
    };
    let number = number_of(link);
    stock.add_node(Node { layout, number });
    Reserve::Ended(Reserved::Ready)
}

/// The number of a leaf or of a node.
fn number_of(link: Link) -> u32
    ensures { result ≡ number_of link }
{
    match link {
        Link::Leaf(number) => number,
        Link::Node(node) => node.number,
    }
}
