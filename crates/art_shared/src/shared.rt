//! The table of all words, which threads share.
ghost use Rattle.std.specs.Prelude.{◌≡◌, ◌<◌};
ghost use Rattle.art_step.specs.WordPlaces.{epoch_place, first_free_word, pass_place, place_of, word_count};
ghost use Rattle.art_shared.specs.FirstPlaces.{first_free_words as first_free_words_of, first_nodes as first_nodes_of};

use crate::first_places::{index_of, node_place, order_of};
use crate::law::{Basis, Known, Law};
use art_cell::{Cell, Pool};
use art_key::Schema;
use art_step::Sizes;
use atomic_table::Table;
use std::alloc::Global;

/// How many words from the word of one pass to that of the next, as `art_step` lays them out.
const LINE_GAP: usize = 16;

/// The words of all cells, of free numbers, of the epoch and of the passes, in one table.
#[derive(Drop)]
pub struct Shared {
    pub(crate) table: Table<(), Known, Basis, Law, Global>,
    pub(crate) basis: Basis,
    /// The place of the first word of each layout's first node, which the sizes determine: steps find their words by it.
    pub(crate) first_nodes: [usize; 4],
    /// The place of the first word of each pool's free numbers, which they determine too.
    pub(crate) first_free_words: [usize; 5],
    /// The place of the epoch, which they determine too.
    pub(crate) epoch_at: usize,
    ghost key: { table.shared.key ≡ basis },
    ghost wide: { table.shared.table_id.words ≡ word_count basis.sizes },
    ghost plain: { table.shared.table_id.slots ≡ 0 },
    ghost nodes: { first_nodes ≡ first_nodes_of basis.sizes },
    ghost free: { first_free_words ≡ first_free_words_of basis.sizes },
    ghost epoch: { epoch_at ≡ epoch_place basis.sizes },
}

impl Shared {
    /// How many numbers each pool has, and how many passes there are.
    pub fn sizes(&self) -> Sizes
        ensures { result ≡ self.now.basis.sizes }
    {
        self.basis.sizes
    }

    /// What spells the keys of all commands.
    pub fn schema(&self) -> &Schema
        ensures { result.now ≡ self.now.basis.schema }
    {
        &self.basis.schema
    }

    /// The place of a cell's first word.
    #[inline(always)]
    pub(crate) fn place_of(&self, cell: Cell) -> usize
        ensures { result ≡ place_of self.now.basis.sizes cell }
    {
        let sizes = self.basis.sizes;
        match cell {
            Cell::Node(node) => node_place(sizes, self.first_nodes[order_of(node.layout)], node),
            Cell::Anchor | Cell::Leaf(_) => sizes.place_of(cell),
        }
    }

    /// The place of the first word of the pool's free numbers.
    #[inline(always)]
    pub(crate) fn first_free_word(&self, pool: Pool) -> usize
        ensures { result ≡ first_free_word self.now.basis.sizes pool }
    {
        self.first_free_words[index_of(pool)]
    }

    /// The place of the epoch.
    #[inline(always)]
    pub(crate) fn epoch_place(&self) -> usize
        ensures { result ≡ epoch_place self.now.basis.sizes }
    {
        self.epoch_at
    }

    /// The place of a pass's word.
    #[inline(always)]
    pub(crate) fn pass_place(&self, pass: usize) -> usize
        requires { pass < self.now.basis.sizes.passes }
        ensures { result ≡ pass_place self.now.basis.sizes pass }
    {
        pass_after(self.basis.sizes, self.epoch_at, pass)
    }
}

/// The place of a pass's word, where the epoch stands at this place.
#[inline(always)]
fn pass_after(sizes: Sizes, epoch: usize, pass: usize) -> usize
    requires epoch { epoch ≡ epoch_place sizes }
    requires pass { pass < sizes.passes }
    ensures { result ≡ pass_place sizes pass }
{
    let _ = sizes.passes;
    epoch + LINE_GAP * (1 + pass)
}
