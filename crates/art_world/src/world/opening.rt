//! A world at its opening.
ghost use Rattle.std.specs.Prelude.{◌≡◌, ◌≤◌, IfOk};
ghost use Rattle.art_world.specs.Opening.{OpensAt};
ghost use Rattle.art_step.specs.Views.{last_counter};
ghost use Rattle.art_step.specs.WordRows.{newcomers};

use super::World;
use art_ghosts::{Choice, Ghost};
use art_model::NoMemory;
use art_step::{Sizes, View, opening_words};
use std::alloc::Global;
use std::collections::LinkedList;
use std::marker::{Brand, PhantomData};

/// How many passes there are. A call picks it.
trait PassCount {
    ghost use Rattle.std.specs.Prelude.{ℕ};

    ghost passes: { ℕ };
}

impl PassCount for Brand {
    ghost passes = { 0 };
}

struct Newcomers<K> {
    of: PhantomData<K>,
}

impl<K: PassCount> Choice<LinkedList<View>> for Newcomers<K> {
    ghost use Rattle.art_step.specs.WordRows.{newcomers};

    ghost value = { newcomers 0 K.passes };
}

/// The views of passes that know nothing.
fn first_views<K: PassCount>(passes: u32) -> Ghost<LinkedList<View>>
    requires { passes ≡ K.passes }
    ensures { result.value ≡ newcomers 0 passes }
{
    Ghost::chosen::<Newcomers<K>>()
}

impl World {
    /// Words for these cells and passes. The anchor names no root, its counter and those of all nodes begin at
    /// `counter_start`, all numbers are free, and each pass knows nothing.
    pub fn open(alloc: Global, sizes: &Sizes, counter_start: u64) -> Result<World, NoMemory>
        requires { counter_start ≤ last_counter }
        ensures { IfOk result (λ w. OpensAt sizes.now counter_start w) }
    {
        let sizes = *sizes;
        let words = opening_words(alloc, sizes, counter_start)?;
        Ok(World {
            sizes,
            words,
            views: first_views::<Brand>(sizes.passes),
        })
    }
}
