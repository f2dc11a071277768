//! A table that is closed: its words, and what it was opened with.
ghost use Rattle.std.specs.Prelude.{◌≡◌};
ghost use Rattle.std.specs.Mem.Slots.{IsFull, slots_len};

use crate::law::Basis;
use art_key::Schema;
use art_step::Sizes;
use atomic_table::Closed;
use std::alloc::Global;

/// What is left of a table that is closed: all words, in their places, and what it was opened with.
pub struct Ended {
    pub(crate) closed: Closed<(), Global>,
    pub(crate) basis: Basis,
    ghost full: { IsFull closed.words },
    ghost plain: { slots_len closed.slots ≡ 0 },
}

impl Ended {
    ghost use Rattle.std.specs.Prelude.{◌<◌, length, get_or};
    ghost use Rattle.art_shared.specs.Ended.{basis_left, words_of};

    /// The word at a place.
    pub fn word(&self, place: usize) -> u64
        requires { place < length (words_of self.now) }
        ensures { result ≡ get_or (words_of self.now) place 0 }
    {
        self.closed.word(place)
    }

    /// How many numbers each pool had, and how many passes there were.
    pub fn sizes(&self) -> Sizes
        ensures { result ≡ (basis_left self.now).sizes }
    {
        self.basis.sizes
    }

    /// What spelled the keys of all commands.
    pub fn schema(&self) -> &Schema
        ensures { result.now ≡ (basis_left self.now).schema }
    {
        &self.basis.schema
    }
}

impl Drop for Ended {
    fn drop(self) {
        let Ended { closed, basis: _ } = self;
        closed.free();
    }
}
