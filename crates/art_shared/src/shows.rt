//! What a step tells the seat that makes it.
use crate::law::Known;
use atomic_table::Play;
use std::marker::{Brand, PhantomData};

/// What a step shows: the view of its pass before it and after it, and what happens at it, where this is the word that is
/// found, or stored. A call picks both.
pub(crate) trait Shows {
    ghost use Rattle.std.specs.Prelude.{ℕ};
    ghost use Rattle.art_step.specs.declared.views.View.{View};
    ghost use Rattle.art_step.specs.Effects.{Instant};

    ghost shown: { ℕ → View → View → Type 0 };

    ghost happens: { ℕ → Instant };
}

impl Shows for Brand {
    ghost shown = { λ _ _ _. Unit {0} };

    ghost happens = { λ _ _ _ _ _. Unit {0} };
}

/// A step tells what it shows.
pub(crate) struct Told<K> {
    of: PhantomData<K>,
}

impl<K: Shows> Play<(), Known> for Told<K> {
    ghost use Rattle.std.specs.Prelude.{◌≡◌};
    ghost use Rattle.art_shared.specs.Turns.{Turn};

    ghost then = { λ s me n w. Turn me.0.basis me.0 w.0 (K.happens n) (K.shown n) × (w.1 ≡ me.1) };
}
