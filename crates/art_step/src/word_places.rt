//! Where the words of a world stand: the anchor's, the leaves', the nodes' layout by layout, the words of free numbers pool
//! by pool, the epoch, and the words of the passes. Each of those that passes write often has cache lines of its own.
ghost use Rattle.std.specs.Prelude.{◌≡◌, ◌+◌, ◌*◌, ◌<◌, ◌≤◌};
ghost use Rattle.art_cell.specs.declared.cells.Pool.TheVariants.{Leaves as leaf_pool, N4 as n4_pool};
ghost use Rattle.art_cell.specs.Words.{size};
ghost use Rattle.art_step.specs.Views.{pool_of_layout};
ghost use Rattle.art_step.specs.WordPlaces.{cells_end, epoch_place, first_cell, first_free_word, free_words, free_words_end, pass_place, place_of, pool_size, word_count};

use crate::Sizes;
use art_cell::{Cell, Layout, Pool};

/// How many words from one word that passes write often to the next: two cache lines of 64 bytes, as processors fetch lines in pairs.
const LINE_GAP: usize = 16;

/// The pool that nodes of the layout come from.
#[inline(always)]
pub fn pool_of_layout(layout: Layout) -> Pool
    ensures { result ≡ pool_of_layout layout }
{
    match layout {
        Layout::Node4 => Pool::N4,
        Layout::Node16 => Pool::N16,
        Layout::Node48 => Pool::N48,
        Layout::Node256 => Pool::N256,
    }
}

impl Sizes {
    /// How many numbers the pool has.
    #[inline(always)]
    pub fn pool_size(self, pool: Pool) -> u32
        ensures { result ≡ pool_size self pool }
    {
        match pool {
            Pool::Leaves => self.leaves,
            Pool::N4 => self.n4,
            Pool::N16 => self.n16,
            Pool::N48 => self.n48,
            Pool::N256 => self.n256,
        }
    }

    /// The place of the first word of the pool's cells.
    #[inline(always)]
    pub(crate) fn first_cell(self, pool: Pool) -> usize
        ensures { result ≡ first_cell self pool }
    {
        let n4 = LINE_GAP + 10 * self.leaves as usize;
        let n16 = n4 + 15 * self.n4 as usize;
        let n48 = n16 + 28 * self.n16 as usize;
        match pool {
            Pool::Leaves => LINE_GAP,
            Pool::N4 => n4,
            Pool::N16 => n16,
            Pool::N48 => n48,
            Pool::N256 => n48 + 90 * self.n48 as usize,
        }
    }

    /// The place after the last cell.
    pub(crate) fn cells_end(self) -> usize
        ensures { result ≡ cells_end self }
    {
        self.first_cell(Pool::N256) + 266 * self.n256 as usize
    }

    /// The layout of the node whose word stands at the place.
    pub(crate) fn layout_of_place(self, place: usize) -> Layout
        requires from { first_cell self n4_pool ≤ place }
        requires before { place < cells_end self }
        ensures from { first_cell self (pool_of_layout result) ≤ place }
        ensures before { place < first_cell self (pool_of_layout result) + size result * pool_size self (pool_of_layout result) }
    {
        if place < self.first_cell(Pool::N16) {
            Layout::Node4
        } else if place < self.first_cell(Pool::N48) {
            Layout::Node16
        } else if place < self.first_cell(Pool::N256) {
            Layout::Node48
        } else {
            Layout::Node256
        }
    }

    /// The place of a cell's first word.
    #[inline(always)]
    pub fn place_of(self, cell: Cell) -> usize
        ensures { result ≡ place_of self cell }
    {
        match cell {
            Cell::Anchor => 0,
            Cell::Leaf(number) => LINE_GAP + 10 * number as usize,
            Cell::Node(node) => {
                let pool = pool_of_layout(node.layout);
                self.first_cell(pool) + node.layout.size() * node.number as usize
            }
        }
    }

    /// The place of the first word of the pool's free numbers.
    #[inline(always)]
    pub fn first_free_word(self, pool: Pool) -> usize
        ensures { result ≡ first_free_word self pool }
    {
        let n4 = self.cells_end() + free_words(self.leaves);
        let n16 = n4 + free_words(self.n4);
        let n48 = n16 + free_words(self.n16);
        match pool {
            Pool::Leaves => self.cells_end(),
            Pool::N4 => n4,
            Pool::N16 => n16,
            Pool::N48 => n48,
            Pool::N256 => n48 + free_words(self.n48),
        }
    }

    /// The pool whose free numbers have a bit in the word at the place.
    pub(crate) fn pool_of_free_place(self, place: usize) -> Pool
        requires from { first_free_word self leaf_pool ≤ place }
        requires before { place < free_words_end self }
        ensures from { first_free_word self result ≤ place }
        ensures before { place < first_free_word self result + free_words (pool_size self result) }
    {
        if place < self.first_free_word(Pool::N4) {
            Pool::Leaves
        } else if place < self.first_free_word(Pool::N16) {
            Pool::N4
        } else if place < self.first_free_word(Pool::N48) {
            Pool::N16
        } else if place < self.first_free_word(Pool::N256) {
            Pool::N48
        } else {
            Pool::N256
        }
    }

    /// The place after the last word of free numbers.
    pub(crate) fn free_words_end(self) -> usize
        ensures { result ≡ free_words_end self }
    {
        self.first_free_word(Pool::N256) + free_words(self.n256)
    }

    /// The place of the epoch.
    pub fn epoch_place(self) -> usize
        ensures { result ≡ epoch_place self }
    {
        self.free_words_end() + LINE_GAP
    }

    /// The place of a pass's word.
    pub fn pass_place(self, pass: usize) -> usize
        requires { pass < self.passes }
        ensures { result ≡ pass_place self pass }
    {
        self.epoch_place() + LINE_GAP * (1 + pass)
    }

    /// How many words there are.
    pub fn word_count(self) -> usize
        ensures { result ≡ word_count self }
    {
        self.epoch_place() + LINE_GAP * (1 + self.passes as usize)
    }
}

/// How many words have the bits of so many numbers.
#[inline(always)]
pub fn free_words(numbers: u32) -> usize
    ensures { result ≡ free_words numbers }
{
    (numbers as usize + 63) / 64
}
