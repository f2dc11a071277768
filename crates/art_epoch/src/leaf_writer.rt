//! The words of a leaf in hand are written.
ghost use Rattle.std.specs.Prelude.{◌≡◌, ◌<◌, ◌≤◌, ℕ, length};

use art_node::leaf_word;
use art_step::Action;

/// Writes the ten words of a leaf in hand, one after another; so many are written.
#[derive(Clone, Copy)]
pub struct LeafWriter {
    place: usize,
}

impl LeafWriter {
    ghost use Rattle.std.specs.Prelude.{List, None, Some, IfSome, ◌+◌, ◌==◌};
    ghost use Rattle.art_plan.specs.ArtCommit.CommitLaws.{HasLeaf};
    ghost use Rattle.art_epoch.specs.LeafWriter.{LeafWriterFits, word_asked};
    ghost use Rattle.art_step.specs.Acting.{Answers, IsLeafInHand};
    ghost use Rattle.art_step.specs.declared.actions.Action.{Action as ActionOf};
    ghost use Rattle.art_step.specs.declared.actions.Answer.{Answer as AnswerOf};
    ghost use Rattle.art_step.specs.declared.views.Sizes.{Sizes};
    ghost use Rattle.art_step.specs.declared.views.View.{View};

    /// At its beginning: no word is written.
    pub fn new() -> LeafWriter
        ensures place { result.place ≡ 0 }
        ensures fits { (z : Sizes) (l : ℕ) (k : List ℕ) (value : ℕ) (u : View) → IsLeafInHand z u l →
            LeafWriterFits z l k value result u u }
    {
        LeafWriter { place: 0 }
    }

    /// The next word of the leaf, or none where all are written.
    #[inline(always)]
    pub fn next(&self, leaf: u32, key: &[u8], value: u64) -> Option<Action>
        requires few { length key.now ≤ 64 }
        ensures asks { result ≡ word_asked leaf key.now value self.now.place }
        ensures ended { (z : Sizes) (u v : View) → LeafWriterFits z leaf key.now value self.now u v → result ≡ None →
            HasLeaf z v leaf key.now value }
    {
        if self.place < 10 {
            Some(Action::WriteLeaf {
                leaf,
                place: self.place,
                word: leaf_word(key, value, self.place),
            })
        } else {
            None
        }
    }

    /// Whether all words but the last are written.
    #[inline(always)]
    pub fn is_at_last(&self) -> bool
        ensures { result ≡ (self.now.place == 9) }
    {
        self.place == 9
    }

    /// Whether all words are written.
    #[inline(always)]
    pub fn is_over(&self) -> bool
        ensures { result ≡ (self.now.place == 10) }
    {
        self.place == 10
    }

    /// The word was written.
    #[inline(always)]
    pub fn told(&mut self)
        requires { self.old.place < 10 }
        ensures place { self.new.place ≡ self.old.place + 1 }
        ensures fits { (z : Sizes) (l : ℕ) (k : List ℕ) (value : ℕ) (u v w : View) (action : ActionOf) (answer : AnswerOf) →
            LeafWriterFits z l k value self.old u v → word_asked l k value self.old.place ≡ Some action →
            Answers z None action answer v w → LeafWriterFits z l k value self.new u w }
    {
        self.place += 1;
    }
}
