//! The cells of a closed table, read from its words.
ghost use Rattle.art_closed.specs.Cells.{HasAllWords};

use art_cell::{Body, Cell, Entries, Node, Pool};
use art_key::Key;
use art_node::list;
use art_shared::Ended;
use art_step::Sizes;

/// As many words as the largest cell has.
const WORDS: usize = 266;

/// The place of a leaf's value.
const VALUE: usize = 0;

/// The place of the length of a leaf's key.
const KEY_LENGTH: usize = 1;

/// The place of the first bytes of a leaf's key.
const KEY_BYTES: usize = 2;

/// A table that is closed, and its sizes, by which the cells stand in its words.
#[derive(Drop)]
pub(crate) struct Reader<'a> {
    pub(crate) words: &'a Ended,
    pub(crate) sizes: Sizes,
    ghost whole: { HasAllWords sizes words.now },
}

impl<'a> Reader<'a> {
    ghost use Rattle.std.specs.Prelude.{◌≡◌, ◌<◌, ◌≤◌};
    ghost use Rattle.art_cell.specs.declared.cells.Link.TheVariants.{Node as node_link};
    ghost use Rattle.art_cell.specs.declared.cells.Cell.TheVariants as cells;
    ghost use Rattle.art_cell.specs.Bodies.{IsBody};
    ghost use Rattle.art_cell.specs.Children.{link_in_pool};
    ghost use Rattle.art_cell.specs.Leaves.{leaf_key};
    ghost use Rattle.art_cell.specs.Words.{entries};
    ghost use Rattle.art_step.specs.Views.{IsNumber, is_free, size_of};
    ghost use Rattle.art_step.specs.WordPlaces.{IsInside, first_place, pool_size};
    ghost use Rattle.art_closed.specs.Cells.{cells_in, memory_in};

    /// The word at a place of a cell, after its version word.
    pub(crate) fn word(&self, cell: Cell, place: usize) -> u64
        requires inside { IsInside self.now.sizes cell }
        requires from { first_place cell ≤ place }
        requires within { place < size_of cell }
        ensures { result ≡ cells_in self.now.sizes self.now.words.now cell place }
    {
        self.words.word(self.sizes.place_of(cell) + place)
    }

    /// The value of a leaf.
    pub(crate) fn value(&self, number: u32) -> u64
        requires { number < self.now.sizes.leaves }
        ensures { result ≡ cells_in self.now.sizes self.now.words.now (cells.Leaf number) 0 }
    {
        self.word(Cell::Leaf(number), VALUE)
    }

    /// The key of a leaf.
    pub(crate) fn key(&self, number: u32) -> Key
        requires there { number < self.now.sizes.leaves }
        requires short { cells_in self.now.sizes self.now.words.now (cells.Leaf number) 1 ≤ 64 }
        ensures { result.items ≡ leaf_key (cells_in self.now.sizes self.now.words.now (cells.Leaf number)) }
    {
        let leaf = Cell::Leaf(number);
        let length = self.word(leaf, KEY_LENGTH) as usize;
        let mut key = Key::new();
        for at in 0..length {
            let word = self.word(leaf, KEY_BYTES + at / 8);
            key.push(word.to_be_bytes()[at % 8]);
        }
        key
    }

    /// The children of a node, in ascending order of their bytes.
    pub(crate) fn children(&self, node: Node) -> Entries
        requires there { IsNumber self.now.sizes (node_link node) }
        requires body { IsBody node.layout (cells_in self.now.sizes self.now.words.now (cells.Node node)) }
        ensures { result.items ≡ entries node.layout (cells_in self.now.sizes self.now.words.now (cells.Node node)) }
    {
        let mut body = Body {
            layout: node.layout,
            words: [0; WORDS],
        };
        for place in 1..node.layout.size() {
            body.words[place] = self.word(Cell::Node(node), place);
        }
        list(&body)
    }

    /// Whether the number of the pool is free.
    pub(crate) fn is_free(&self, pool: Pool, number: u32) -> bool
        requires { number < pool_size self.now.sizes pool }
        ensures { result ≡ is_free (memory_in self.now.sizes self.now.words.now) (link_in_pool pool number) }
    {
        let place = self.sizes.first_free_word(pool) + number as usize / 64;
        (self.words.word(place) >> (number % 64)) % 2 == 1
    }
}
