//! The words of all cells in one row, with what each pass knows.
mod epoch_steps;
mod moves;
mod opening;
mod run;
mod steps;

ghost use Rattle.std.specs.Prelude.{◌≡◌, ◌+◌, ◌<◌, ◌≤◌, length, slice_index};
ghost use Rattle.art_step.specs.Sound.{IsSound};
ghost use Rattle.art_step.specs.Views.{size_of};
ghost use Rattle.art_step.specs.WordPlaces.{HasFreeWord, IsInside, first_place, word_count};
ghost use Rattle.art_step.specs.WordRows.{views_of};
ghost use Rattle.art_world.specs.Contents.{memory_now};
ghost use Rattle.art_world.specs.Lasting.{IsLasting};

use art_cell::{Cell, Pool};
use art_ghosts::Ghost;
use art_step::{Sizes, Version, View};
pub use run::Actor;
use std::collections::LinkedList;
use std::marker::Model;

/// All words, and, for proofs alone, the view of each pass.
///
/// Between any two steps there is a legal history whose replay the tree of the cells shows, each cell has one holder at
/// most, unchanged stamps vouch for what was noted under them, each number is in one place, words have their forms, no cell of
/// the tree is obsolete, and each pass found what it has found at its own steps: that is the invariant of this type.
#[derive(Drop)]
pub struct World {
    pub(crate) sizes: Sizes,
    pub(crate) words: Vec<u64>,
    pub(crate) views: Ghost<LinkedList<View>>,
}

/// A world, in which one pass makes its steps.
#[derive(Drop)]
pub struct Stepper<'a> {
    pub world: &'a mut World,
    pub(crate) pass: usize,
    ghost inside: { pass < length world.now.views },
}

impl Model for World {
    ghost use Rattle.art_world.specs.Contents.{Contents, IsSoundWorld};

    ghost Value = { Contents };

    ghost view = { λ w. record { sizes = w.sizes; words = w.words.items; views = w.views.value } };

    ghost invariant = { λ w. IsSoundWorld (record { sizes = w.sizes; words = w.words.items; views = w.views.value }) };
}

impl World {
    /// What always holds of a world, between any two steps.
    pub fn stays_sound(&self)
        ensures words { length self.now.words ≡ word_count self.now.sizes }
        ensures passes { length self.now.views ≡ self.now.sizes.passes }
        ensures sound { IsSound self.now.sizes (memory_now self.now) (views_of self.now.views) }
        ensures lasting { IsLasting self.now.sizes (memory_now self.now) (views_of self.now.views) }
    {
        let _ = &self.sizes;
    }

    /// How many numbers each pool has, and how many passes there are.
    pub fn sizes(&self) -> Sizes
        ensures { result ≡ self.now.sizes }
    {
        self.sizes
    }

    /// All words, in their order.
    pub fn words(&self) -> &[u64]
        ensures { result.now ≡ self.now.words }
    {
        self.words.as_slice()
    }

    /// The word at a place after the first word of a cell.
    pub(crate) fn load(&self, first: usize, place: usize) -> u64
        requires { first + place < length self.now.words }
        ensures { result ≡ slice_index self.now.words (first + place) }
    {
        self.words[first + place]
    }

    /// The version word of a cell. A leaf has none, and counts as obsolete.
    pub fn version(&self, cell: Cell) -> Version
        requires { IsInside self.now.sizes cell }
        ensures { result.word ≡ (memory_now self.now).version cell }
    {
        let word = match cell {
            Cell::Leaf(_) => 1,
            _ => self.words[self.sizes.place_of(cell)],
        };
        Version { word }
    }

    /// The word at a place of a cell that is no version word.
    pub fn word(&self, cell: Cell, place: usize) -> u64
        requires inside { IsInside self.now.sizes cell }
        requires first { first_place cell ≤ place }
        requires place { place < size_of cell }
        ensures { result ≡ (memory_now self.now).words cell place }
    {
        self.words[self.sizes.place_of(cell) + place]
    }

    /// The word of free numbers at an index of the pool.
    pub fn free_word(&self, pool: Pool, index: usize) -> u64
        requires { HasFreeWord self.now.sizes pool index }
        ensures { result ≡ (memory_now self.now).free_word pool index }
    {
        self.words[self.sizes.first_free_word(pool) + index]
    }

    /// The epoch.
    pub fn epoch(&self) -> u64
        ensures { result ≡ (memory_now self.now).epoch }
    {
        self.words[self.sizes.epoch_place()]
    }

    /// The word of a pass: the epoch that it is pinned to, or 0.
    pub fn pass_word(&self, pass: usize) -> u64
        requires { pass < self.now.sizes.passes }
        ensures { result ≡ (memory_now self.now).pass_word pass }
    {
        self.words[self.sizes.pass_place(pass)]
    }
}
