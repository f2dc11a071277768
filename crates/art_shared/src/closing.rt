//! A table that closes.
ghost use Rattle.std.specs.Prelude.{◌≡◌, ℕ, Some};
ghost use Rattle.std.specs.List.{slice_get};
ghost use Rattle.art_shared.specs.Closing.{Closes};
ghost use Rattle.art_shared.specs.Ended.{basis_left, words_of};
ghost use Rattle.art_shared.specs.Tables.{IsPassOf, basis_in};

use crate::ended::Ended;
use crate::law::Known;
use crate::pass::Pass;
use crate::shared::Shared;
use atomic_table::{Join, Play};

/// A seat takes in what another knows.
pub(crate) struct Glue;

impl Join<Known> for Glue {
    ghost use Rattle.art_shared.specs.Passes.{glued, nobody};

    ghost both = { λ a b. glued a b };

    ghost spent = { nobody };
}

/// A new seat has no pass.
pub(crate) struct Nobody;

impl Play<(), Known> for Nobody {
    ghost use Rattle.std.specs.Prelude.{◌≡◌};
    ghost use Rattle.art_shared.specs.Passes.{nobody};

    ghost then = { λ s me n w. w.0 ≡ nobody };
}

impl Shared {
    /// All words, when no thread makes a step any more. What the passes know then, each of them knew at its last step. There is
    /// one history of what they did; where all passes of the table are closed, and none holds a cell, the words are the tree with
    /// its rows; and where none has a number in hand, each number is linked, free, or in one limbo. This takes no memory.
    pub fn close(self, passes: Vec<Pass>) -> Ended
        requires { (p : ℕ) (a : Pass) → slice_get passes.items p ≡ Some a → IsPassOf self a }
        ensures closes { Closes (basis_in self) (words_of result) passes.items }
        ensures basis { basis_left result ≡ basis_in self }
    {
        let (_, mut seat) = self.table.shared.load_new_seat::<Nobody>(0);
        let mut passes = passes;
        while let Some(pass) = passes.pop() {
            let Pass {
                seat: other,
                number: _,
            } = pass;
            self.table.shared.join_seat::<Glue>(&mut seat, other);
        }
        let Shared {
            table,
            basis,
            first_nodes: _,
            first_free_words: _,
            epoch_at: _,
        } = self;
        Ended {
            closed: table.close_with(seat),
            basis,
        }
    }
}
