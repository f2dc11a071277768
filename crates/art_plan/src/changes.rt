//! What a change does, as values, and what it goes by: the words of the cells that it writes, and where its child words stand.
ghost use Rattle.std.specs.Prelude.{◌≡◌, ◌+◌, ◌-◌, ◌^◌, ◌<◌, ◌≤◌, ◌∷◌, ◌++◌, ℕ, [], None, Some, get_or, length, slice_index};
ghost use Rattle.art_cell.specs.Reads.{word_of, most_writes};
ghost use Rattle.art_plan.specs.Changes.{no_effects, node_made, put_at, target_at};
ghost use Rattle.art_plan.specs.Whole.{made_at, made_word, node_copied};
ghost use Rattle.art_plan.specs.Puts.{change_of, puts_of, IsDropPlan, IsFree, IsSitePlan, IsTaken};
ghost use Rattle.art_plan.specs.Seen.{site_stamp};
ghost use Rattle.art_cell.specs.declared.cells.Cell.TheVariants as cells;
ghost use Rattle.art_cell.specs.declared.cells.Node.{Node as NodeOf};
ghost use Rattle.art_plan.specs.ChooseInsert.Bodies.{IsFilled, blank, site_in};
ghost use Rattle.art_plan.specs.declared.changes.Site.TheVariants.{Slot};

use arrayvec::ArrayVec;
use art_cell::{Body, Cell, Layout, Node, Reads, Write, Writes};
use art_key::{Bound, Key};
use art_node::{plan_add, plan_drop, plan_set};
use art_step::{Deed, Effects, Stamp};

/// A cell that a change locks under its stamp, and whether it becomes obsolete when it is released.
#[derive(Clone, Copy)]
pub struct Target {
    pub stamp: Stamp,
    pub obsolete: bool,
}

impl Default for Target {
    fn default() -> Target {
        Target {
            stamp: Stamp {
                cell: Cell::Anchor,
                version: 0,
                first: 0,
            },
            obsolete: false,
        }
    }
}

/// A word that the target with this index gets at a place.
#[derive(Clone, Copy, Default)]
pub struct Put {
    pub target: usize,
    pub place: usize,
    pub value: u64,
}

/// A node that takes the place of a worn one: its number, its layout and all its words.
#[derive(Clone, Copy)]
pub struct Twin {
    pub number: u32,
    pub body: Body,
}

/// What is done at one commit.
#[derive(Drop)]
pub struct Change {
    /// The cells that it locks, from the top down.
    pub targets: ArrayVec<Target, 5>,
    /// The words that they get, in the order in which they are written.
    pub puts: ArrayVec<Put, 33>,
    /// Room for the words of one of them, from when they are planned until they are put.
    pub writes: Writes,
    /// The number of the node that it makes, if it makes one; its layout and its words are those of the body.
    pub node: Option<u32>,
    pub body: Body,
    /// The copy that it makes of a node that is worn, if it renews one.
    pub copy: Option<Twin>,
    /// What it does, the leaf that it links, and what it unlinks.
    pub effects: Effects,
}

impl Change {
    /// One that does nothing yet.
    pub fn new() -> Change
        ensures locks { result.targets.items ≡ [] }
        ensures puts { result.puts.items ≡ [] }
        ensures makes { (result.node ≡ None) × (result.copy ≡ None) }
        ensures effects { result.effects ≡ no_effects }
    {
        Change {
            targets: ArrayVec::new(),
            puts: ArrayVec::new(),
            writes: Writes::new(),
            node: None,
            body: blank(),
            copy: None,
            effects: Effects::telling(Deed::Look(Key::new(), Bound::End, None)),
        }
    }

    /// The target with an index, if there is one.
    #[inline(always)]
    pub fn target(&self, index: usize) -> Option<Target>
        ensures { result ≡ target_at self.now index }
    {
        self.targets.get(index).copied()
    }

    /// The word with an index, if there is one.
    #[inline(always)]
    pub fn put(&self, index: usize) -> Option<Put>
        ensures { result ≡ put_at self.now index }
    {
        self.puts.get(index).copied()
    }

    /// The word at a place of the node that it makes.
    #[inline(always)]
    pub fn word(&self, place: usize) -> u64
        ensures { result ≡ word_of self.now.body place }
    {
        self.body.words.get(place).copied().unwrap_or(0)
    }

    /// The copy that it makes of a worn node, if it renews one.
    #[inline(always)]
    pub fn copied(&self) -> Option<Node>
        ensures { result ≡ node_copied self.now }
    {
        match &self.copy {
            Some(twin) => Some(Node {
                layout: twin.body.layout,
                number: twin.number,
            }),
            None => None,
        }
    }

    /// Of the two nodes that it may make the copy, or the other.
    #[inline(always)]
    pub fn made_at(&self, copy: bool) -> Option<Node>
        ensures { result ≡ made_at copy self.now }
    {
        if copy { self.copied() } else { self.made() }
    }

    /// The word at a place of this node.
    #[inline(always)]
    pub fn made_word(&self, copy: bool, place: usize) -> u64
        ensures { result ≡ made_word copy self.now place }
    {
        if !copy {
            return self.word(place);
        }
        match &self.copy {
            Some(twin) => twin.body.words.get(place).copied().unwrap_or(0),
            None => 0,
        }
    }

    /// The node that it makes, if it makes one.
    #[inline(always)]
    pub fn made(&self) -> Option<Node>
        ensures { result ≡ node_made self.now }
    {
        Some(Node {
            layout: self.body.layout,
            number: self.node?,
        })
    }
}

/// The node at a site, which was read whole under a stamp.
#[derive(Clone, Copy)]
pub struct Below<'a> {
    pub node: Node,
    pub stamp: Stamp,
    pub body: &'a Body,
}

/// Makes it a change that does the deed and links this leaf, or none; it locks, writes, makes and unlinks nothing yet.
pub(crate) fn begin(change: &mut Change, deed: Deed, leaf: Option<u32>)
    ensures { change.new ≡ change_of [] [] change.old.writes.items None change.old.body leaf [] deed }
{
    change.targets.clear();
    change.puts.clear();
    change.node = None;
    // a copy is large, and there is none but after a renewal
    if change.copy.is_some() {
        change.copy = None;
    }
    change.effects.leaf = leaf;
    change.effects.unlinked.clear();
    change.effects.deed = deed;
}

/// Locks one more cell, below the others.
pub(crate) fn lock(change: &mut Change, stamp: Stamp, obsolete: bool)
    requires { length change.old.targets.items < 3 }
    ensures { change.new ≡ record change.old {
      targets = record { items = change.old.targets.items ++ record { stamp = stamp; obsolete = obsolete } ∷ [] };
    } }
{
    change.targets.push(Target { stamp, obsolete });
}

/// Unlinks one more cell, by its child word.
pub(crate) fn unlink(change: &mut Change, child: u64)
    requires { length change.old.effects.unlinked.items < 3 }
    ensures { change.new ≡ record change.old {
      effects = record change.old.effects { unlinked = record { items = change.old.effects.unlinked.items ++ child ∷ [] } };
    } }
{
    change.effects.unlinked.push(child);
}

/// Makes a node with this number, of which the body has all words.
pub(crate) fn make(change: &mut Change, number: u32)
    ensures { change.new ≡ record change.old { node = Some number } }
{
    change.node = Some(number);
}

/// Writes the words that were planned into the target with an index, after those of before.
pub(crate) fn put_writes(change: &mut Change, target: usize)
    requires { length change.old.puts.items + length change.old.writes.items ≤ 32 }
    ensures { change.new ≡ record change.old {
      puts = record { items = change.old.puts.items ++ puts_of target change.old.writes.items };
    } }
{
    let Change { puts, writes, .. } = change;
    for write in writes.as_slice() {
        puts.push(Put {
            target,
            place: write.place,
            value: write.value,
        });
    }
}

/// The place of a child word, in a cell that was read whole under a stamp.
#[derive(Clone, Copy)]
pub enum Site<'a> {
    /// In the anchor.
    Root(Stamp),
    /// In a node with these words, at a byte.
    Slot {
        stamp: Stamp,
        body: &'a Body,
        byte: u8,
    },
}

impl Site<'_> {
    /// The stamp of its cell.
    pub fn stamp(&self) -> Stamp
        ensures { result ≡ site_stamp self.now }
    {
        match *self {
            Site::Root(stamp) | Site::Slot { stamp, .. } => stamp,
        }
    }
}

/// Makes the writes the words by which the site, which is free, gets this child.
pub(crate) fn added(site: &Site, child: u64, writes: &mut Writes)
    requires free { IsFree site.now }
    requires child { 0 < child }
    ensures plan { IsSitePlan site.now child writes.new.items }
    ensures few { length writes.new.items ≤ most_writes }
{
    match *site {
        Site::Root(_) => root_word(child, writes),
        Site::Slot { body, byte, .. } => {
            plan_add(body, byte, child, writes);
        }
    }
}

/// Makes the writes the words by which the site, which has a child, gets this one.
pub(crate) fn replaced(site: &Site, child: u64, writes: &mut Writes)
    requires taken { IsTaken site.now }
    requires child { 0 < child }
    ensures plan { IsSitePlan site.now child writes.new.items }
    ensures one { length writes.new.items ≤ 1 }
{
    match *site {
        Site::Root(_) => root_word(child, writes),
        Site::Slot { body, byte, .. } => plan_set(body, byte, child, writes),
    }
}

/// Makes the writes the words by which the site, which has a child, loses it.
pub(crate) fn dropped(site: &Site, writes: &mut Writes)
    requires { IsTaken site.now }
    ensures plan { IsDropPlan site.now writes.new.items }
    ensures few { length writes.new.items ≤ most_writes }
{
    match *site {
        Site::Root(_) => root_word(0, writes),
        Site::Slot { body, byte, .. } => plan_drop(body, byte, writes),
    }
}

/// The child word of the anchor.
fn root_word(child: u64, writes: &mut Writes)
    ensures { writes.new.items ≡ record { place = 1; value = child } ∷ [] }
{
    writes.clear();
    writes.push(Write {
        place: 1,
        value: child,
    });
}

/// The words of the two cells that a change may write: where its key stands, and above.
///
/// They are many, so they stand beside the plan and are filled in place.
#[derive(Drop)]
pub struct Bodies {
    pub node: Body,
    pub above: Body,
}

impl Bodies {
    /// With words of 0.
    pub fn new() -> Bodies
        ensures node { result.node ≡ blank }
        ensures above { result.above ≡ blank }
    {
        Bodies {
            node: blank(),
            above: blank(),
        }
    }
}

/// A body with words of 0.
pub fn blank() -> Body
    ensures { result ≡ blank }
{
    Body {
        layout: Layout::Node4,
        words: [0; 266],
    }
}

/// Fills the body with the words of the cell that were read, if it is a node. What stands behind those of its layout stays.
#[inline(always)]
pub(crate) fn fill(body: &mut Body, cell: Cell, reads: &Reads)
    ensures { IsFilled cell reads.now body.new }
{
    let Cell::Node(node) = cell else {
        return;
    };
    body.layout = node.layout;
    reads.copy_to(&mut body.words, node.layout.size());
    are_words(&body.words);
}

/// Each number is a word of 64 bits: what their type says.
fn are_words(words: &[u64])
    ensures { (place : ℕ) → get_or words.now place 0 < 2 ^ 64 }
{}

/// Where the child word stands in the stamp's cell to which the first bytes of the key lead, so many. The body has the words of the
/// cell, if it is a node.
pub(crate) fn site_at<'a>(stamp: Stamp, body: &'a Body, key: &[u8], depth: usize) -> Site<'a>
    requires deep { depth ≤ length key.now }
    requires some { (n : NodeOf) → stamp.cell ≡ cells.Node n → 0 < depth }
    ensures site { result ≡ site_in stamp body.entry (slice_index key.now (depth - 1)) }
    ensures low { slice_index key.now (depth - 1) < 256 }
{
    match stamp.cell {
        Cell::Node(_) => slot_at(stamp, body, key, depth - 1),
        Cell::Anchor | Cell::Leaf(_) => Site::Root(stamp),
    }
}

/// Where the child word stands, in the node with these words, of the key's byte with this index.
pub(crate) fn slot_at<'a>(stamp: Stamp, body: &'a Body, key: &[u8], index: usize) -> Site<'a>
    requires { index < length key.now }
    ensures slot { result ≡ Slot stamp body.entry (slice_index key.now index) }
    ensures byte { slice_index key.now index < 256 }
{
    Site::Slot {
        stamp,
        body,
        byte: byte_at(key, index),
    }
}

/// The byte of the key with this index.
pub(crate) fn byte_at(key: &[u8], index: usize) -> u8
    requires { index < length key.now }
    ensures byte { result ≡ slice_index key.now index }
    ensures low { result < 256 }
{
    key[index]
}
