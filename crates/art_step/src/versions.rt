//! Version words.
ghost use Rattle.std.specs.Prelude.{◌≡◌, ◌+◌, ◌*◌, ◌^◌, ◌<◌, ◌≤◌, ◌↔◌, IsTrue};
ghost use Rattle.art_step.specs.Effects.{claimed_word, released_word};
ghost use Rattle.art_step.specs.Views.{IsClear, last_counter};

/// The version word of the anchor or of a node (DaMoN 2016): bit 0 says obsolete, bit 1 locked, and the others are a counter.
#[derive(Clone, Copy, Debug, PartialEq, Eq)]
pub struct Version {
    pub word: u64,
}

/// No counter that is this or more goes on by an upgrade.
const LAST_COUNTER: u64 = (1 << 62) - 8;

impl Version {
    /// Neither locked nor obsolete: such a word gives a stamp.
    pub fn is_clear(self) -> bool
        ensures { IsTrue result ↔ IsClear self.word }
    {
        self.word % 4 == 0
    }

    /// The counter is at its end: no upgrade goes on from here.
    pub fn is_last(self) -> bool
        ensures { IsTrue result ↔ (4 * last_counter ≤ self.word) }
    {
        self.word / 4 >= LAST_COUNTER
    }

    /// What an upgrade makes of a clear word.
    pub fn locked(self) -> Version
        requires { self.word + 2 < 2 ^ 64 }
        ensures { result.word ≡ self.word + 2 }
    {
        Version {
            word: self.word + 2,
        }
    }

    /// What a claim stores, whatever the word was: locked, with the counter 0.
    pub fn claimed() -> Version
        ensures { result.word ≡ claimed_word }
    {
        Version { word: 2 }
    }

    /// What a release makes of a locked word.
    pub fn released(self, obsolete: bool) -> Version
        requires { self.word + 3 < 2 ^ 64 }
        ensures { result.word ≡ released_word self.word obsolete }
    {
        Version {
            word: self.word + if obsolete { 3 } else { 2 },
        }
    }
}
