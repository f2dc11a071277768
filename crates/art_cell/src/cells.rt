//! Cells, the links by which they name one another, and the layouts of nodes.
ghost use Rattle.std.specs.Prelude.{◌≡◌};
ghost use Rattle.art_cell.specs.Children.{link_of};
ghost use Rattle.art_cell.specs.Reads.{word_of, changes};

use arrayvec::ArrayVec;

/// An inner node: its layout, and its number among the nodes of that layout.
#[derive(Clone, Copy, Debug, PartialEq, Eq)]
pub struct Node {
    pub layout: Layout,
    pub number: u32,
}

/// What a child word names.
#[derive(Clone, Copy, Debug, PartialEq, Eq)]
pub enum Link {
    /// The leaf with this number.
    Leaf(u32),
    /// An inner node.
    Node(Node),
}

/// A cell of the index.
#[derive(Clone, Copy, Debug, PartialEq, Eq)]
pub enum Cell {
    /// What names the root.
    Anchor,
    /// The leaf with this number.
    Leaf(u32),
    /// An inner node.
    Node(Node),
}

impl Link {
    /// The leaf or the node that the child word names, if it names one.
    #[inline(always)]
    pub fn named_by(word: u64) -> Option<Link>
        ensures { result ≡ link_of word }
    {
        let number = u32::try_from(word / 8).ok()?;
        let layout = match word % 8 {
            1 => return Some(Link::Leaf(number)),
            2 => Layout::Node4,
            3 => Layout::Node16,
            4 => Layout::Node48,
            5 => Layout::Node256,
            _ => return None,
        };
        Some(Link::Node(Node { layout, number }))
    }
}

/// How the children of a node lie in its words.
#[derive(Clone, Copy, Debug, PartialEq, Eq)]
pub enum Layout {
    /// At most 4 children, in ascending order of their bytes.
    Node4,
    /// At most 16 children, in ascending order of their bytes.
    Node16,
    /// At most 48 children, and an index of 256 entries.
    Node48,
    /// A place for each byte.
    Node256,
}

impl Layout {
    ghost use Rattle.art_cell.specs.Words.{size, places};

    /// How many words a cell has, its version included.
    pub fn size(self) -> usize
        ensures { result ≡ size self }
    {
        match self {
            Layout::Node4 => 15,
            Layout::Node16 => 28,
            Layout::Node48 => 90,
            Layout::Node256 => 266,
        }
    }

    /// How many children a node has at most.
    pub fn places(self) -> usize
        ensures { result ≡ places self }
    {
        match self {
            Layout::Node4 => 4,
            Layout::Node16 => 16,
            Layout::Node48 => 48,
            Layout::Node256 => 256,
        }
    }
}

/// The pools that numbers come from.
#[derive(Clone, Copy, Debug, PartialEq, Eq)]
pub enum Pool {
    Leaves,
    N4,
    N16,
    N48,
    N256,
}

/// As many words as the largest cell has.
pub(crate) const WORDS: usize = 266;

/// The words of a node by their places. Place 0 is the version's, and is no part of the body.
#[derive(Clone, Copy, PartialEq)]
pub struct Body {
    pub layout: Layout,
    pub words: [u64; WORDS],
}

/// A word, and the place that it goes to.
#[derive(Clone, Copy, Debug, Default, PartialEq)]
pub struct Write {
    pub place: usize,
    pub value: u64,
}

/// The words that a change writes, in ascending place, each place once.
pub type Writes = ArrayVec<Write, WORDS>;

/// Makes the writes the words of `after` that differ from those of `body`, in ascending place.
pub fn changes(body: &Body, after: &Body, writes: &mut Writes)
    ensures { writes.new.items ≡ changes body.now.layout (word_of body.now) (word_of after.now) }
{
    writes.clear();
    for place in 1..body.layout.size() {
        if body.words[place] != after.words[place] {
            writes.push(Write {
                place,
                value: after.words[place],
            });
        }
    }
}
