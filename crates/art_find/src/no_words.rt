//! The sink of a get, which keeps no word.
ghost use Rattle.std.specs.Prelude.{◌≡◌, None, Some, replicate, set};

use crate::ReadSet;
use crate::read_sets::Sink;
use art_ghosts::{Change, Choice, Ghost};

/// Keeps nothing: what was handed to it stands in proofs alone.
#[derive(Drop)]
pub(crate) struct NoWords {
    kept: Ghost<ReadSet>,
}

impl NoWords {
    /// With nothing handed to it.
    pub(crate) fn new() -> NoWords {
        NoWords {
            kept: Ghost::<ReadSet>::chosen::<Unread>(),
        }
    }
}

impl Sink for NoWords {
    ghost kept = { λ s. s.kept.value };

    #[inline(always)]
    fn note(&mut self, place: usize, word: u64) {
        self.kept = self.kept.changed::<usize, u64, NotesWord>(&place, &word);
    }

    #[inline(always)]
    fn clear(&mut self) {
        self.kept = self.kept.changed::<(), (), Clears>(&(), &());
    }

    #[inline(always)]
    fn go_down(&mut self) {
        self.kept = self.kept.changed::<(), (), GoesDown>(&(), &());
    }
}

/// No word was read, of any cell.
struct Unread;

impl Choice<ReadSet> for Unread {
    ghost use Rattle.art_find.specs.ReadSets.{no_words};

    ghost value = { no_words };
}

/// One word more was read.
struct NotesWord;

impl Change<usize, u64, ReadSet> for NotesWord {
    ghost use Rattle.art_find.specs.ReadSets.{above_of, node_of};

    ghost then = { λ place word old new. (node_of new ≡ set (node_of old) place (Some word)) × (above_of new ≡ above_of old) };
}

/// No word was read of the cell where the descent stands.
struct Clears;

impl Change<(), (), ReadSet> for Clears {
    ghost use Rattle.art_find.specs.ReadSets.{above_of, node_of};

    ghost then = { λ _ _ old new. (node_of new ≡ replicate 266 None) × (above_of new ≡ above_of old) };
}

/// The descent went one cell down.
struct GoesDown;

impl Change<(), (), ReadSet> for GoesDown {
    ghost use Rattle.art_find.specs.ReadSets.{above_of, node_of};

    ghost then = { λ _ _ old new. (node_of new ≡ replicate 266 None) × (above_of new ≡ node_of old) };
}
