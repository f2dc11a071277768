//! A value of one column, and the order of values.
ghost use Rattle.std.specs.Prelude.{◌≡◌, ◌≤◌, length, nat_eq, IsSome, IfSome, ◌↔◌};
ghost use Rattle.std.specs.Ordering.{nat_cmp, as_partial_cmp};
ghost use Rattle.std.specs.Cmp.Lexicographic.{pointwise, slice_cmp};
ghost use Rattle.std.specs.Cmp.Rules.{comparing};
ghost use Rattle.std.proofs.Common.{rules};

use arrayvec::ArrayString;
use std::cmp::Ordering;
use std::marker::Model;

/// The longest text, in bytes of UTF-8.
pub const TEXT_BYTES: usize = 24;

/// A text of at most 24 bytes of UTF-8, which lie in the value itself.
#[derive(Clone, Debug, Drop)]
pub struct Text {
    text: ArrayString<TEXT_BYTES>,
}

impl Model for Text {
    ghost use Rattle.std.specs.Prelude.{ℕ, List};

    ghost Value = { List ℕ };

    ghost view = { λ t. t.text.bytes };
}

impl Text {
    /// The text, if it has at most 24 bytes.
    pub fn new(text: &str) -> Option<Self>
        ensures fits { IsSome result ↔ (length text.now ≤ 24) }
        ensures value { IfSome result (λ t. t ≡ text.now) }
    {
        match ArrayString::from(text) {
            Ok(text) => Some(Text { text }),
            Err(_) => None,
        }
    }

    pub fn as_str(&self) -> &str
        ensures value { result.now ≡ self.now }
        ensures fits { length result.now ≤ 24 }
    {
        self.text.as_str()
    }
}

impl PartialEq for Text {
    ghost eq = { pointwise nat_eq };

    ghost laws = { Prim.search (comparing, rules) };

    fn eq(&self, other: &Text) -> bool {
        self.as_str() == other.as_str()
    }
}

impl Eq for Text {
    ghost laws = { Prim.search (comparing, rules) };
}

impl PartialOrd for Text {
    ghost partial_cmp = { as_partial_cmp (slice_cmp nat_cmp) };

    ghost laws = { Prim.search (comparing, rules) };

    fn partial_cmp(&self, other: &Text) -> Option<Ordering> {
        Some(self.cmp(other))
    }
}

impl Ord for Text {
    ghost cmp = { slice_cmp nat_cmp };

    ghost total = { Prim.search (comparing, rules) };

    ghost matches_partial_cmp = { Prim.search (comparing, rules) };

    ghost matches_eq = { Prim.search (comparing, rules) };

    fn cmp(&self, other: &Text) -> Ordering {
        self.as_str().cmp(other.as_str())
    }
}

/// A value of a column. Values of one kind stand in their own order, and a truth value before a number, a number before a text.
#[derive(Clone, Debug, PartialEq, Eq, PartialOrd, Ord, Drop)]
pub enum Value {
    Bool(bool),
    Int(i128),
    Text(Text),
}

impl Default for Value {
    ghost use Rattle.std.specs.Prelude.{◌≡◌, false};
    ghost use Rattle.art_model.specs.declared.values.Value.TheVariants.{Bool};

    ghost is_default = { λ v. v ≡ Bool false };

    fn default() -> Self {
        Value::Bool(false)
    }
}
