//! What a step does to a world: it writes one word or none, and changes the view of its pass. Both happen here alone.
ghost use Rattle.std.specs.Prelude.{◌≡◌, ◌<◌, length, slice_set};
ghost use Rattle.art_step.proofs.Moves.{Moves};
ghost use Rattle.art_step.specs.WordRows.{view_at, views_of};
ghost use Rattle.art_world.specs.Contents.{IsSoundWorld, IsStepped};

use super::World;
use art_ghosts::{Change, Choice, Ghost};
use art_step::{Sizes, View};
use std::collections::LinkedList;
use std::marker::{Brand, PhantomData};

/// What a step shows: the view of its pass before it and after it, and what happens at it. A call picks both.
pub(crate) trait Shows {
    ghost use Rattle.art_step.specs.declared.views.View.{View};
    ghost use Rattle.art_step.specs.Effects.{Instant};

    ghost shown: { View → View → Type 0 };

    ghost happens: { Instant };
}

impl Shows for Brand {
    ghost shown = { λ _ _. Unit {0} };

    ghost happens = { λ _ _ _ _. Unit {0} };
}

/// Copies words into the data that only proofs read.
#[derive(Drop)]
struct Copies;

impl Choice<LinkedList<u64>> for Copies {
    ghost use Rattle.std.specs.Prelude.{[]};

    ghost value = { [] };
}

impl Change<Vec<u64>, Copies, LinkedList<u64>> for Copies {
    ghost use Rattle.std.specs.Prelude.{◌≡◌};

    ghost then = { λ ws t old new. new ≡ ws.items };
}

/// The words as they are, for proofs alone.
fn copied(words: &Vec<u64>) -> Ghost<LinkedList<u64>>
    ensures { result.value ≡ words.now.items }
{
    let nothing = Ghost::<LinkedList<u64>>::chosen::<Copies>();
    nothing.changed::<Vec<u64>, Copies, Copies>(words, &Copies)
}

/// A step of the pass, by which the words became what they are.
#[derive(Drop)]
struct Step<K> {
    sizes: Sizes,
    pass: usize,
    before: Ghost<LinkedList<u64>>,
    shows: PhantomData<K>,
}

impl<K: Shows> Change<Vec<u64>, Step<K>, LinkedList<View>> for Step<K> {
    ghost use Rattle.art_world.specs.Contents.{StepBy};

    ghost then = { λ ws t old new. StepBy t.sizes t.before.value ws.items t.pass K.shown K.happens old new };
}

impl World {
    /// A step that writes no word.
    pub(crate) fn find<K: Shows, A>(&mut self, pass: usize, _about: &A)
        requires pass { pass < length self.old.views }
        requires moves { IsSoundWorld self.old → Moves self.old.sizes self.old.words (views_of self.old.views) pass
            (view_at self.old.views pass) self.old.words K.shown K.happens }
        ensures { IsStepped pass self.old self.new K.shown K.happens }
    {
        let step = Step::<K> {
            sizes: self.sizes,
            pass,
            before: copied(&self.words),
            shows: PhantomData,
        };
        self.views = self
            .views
            .changed::<Vec<u64>, Step<K>, Step<K>>(&self.words, &step);
    }

    /// A step that writes the word at a place.
    pub(crate) fn put<K: Shows, A>(&mut self, pass: usize, place: usize, word: u64, _about: &A)
        requires pass { pass < length self.old.views }
        requires place { IsSoundWorld self.old → place < length self.old.words }
        requires moves { IsSoundWorld self.old → Moves self.old.sizes self.old.words (views_of self.old.views) pass
            (view_at self.old.views pass) (slice_set self.old.words place word) K.shown K.happens }
        ensures { IsStepped pass self.old self.new K.shown K.happens }
    {
        let step = Step::<K> {
            sizes: self.sizes,
            pass,
            before: copied(&self.words),
            shows: PhantomData,
        };
        self.words[place] = word;
        self.views = self
            .views
            .changed::<Vec<u64>, Step<K>, Step<K>>(&self.words, &step);
    }
}
