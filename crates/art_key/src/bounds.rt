//! Bounds of ranges of keys.
ghost use Rattle.std.specs.Prelude.{◌≡◌};
ghost use Rattle.art_key.specs.Bounds.{is_before};

use crate::Key;

/// Where a range of keys begins or ends.
#[derive(Clone, Debug, PartialEq, Eq, Drop)]
pub enum Bound {
    /// At a key.
    At(Key),
    /// After every key.
    End,
}

impl Bound {
    /// Whether this bound stands before the other one: keys by their bytes, and each key before the end.
    pub fn before(&self, other: &Bound) -> bool
        ensures { result ≡ is_before self.now other.now }
    {
        match (self, other) {
            (Bound::At(key), Bound::At(other)) => key.as_slice().cmp(other.as_slice()).is_lt(),
            (Bound::At(_), Bound::End) => true,
            (Bound::End, _) => false,
        }
    }
}
