//! Columns: the kind of the values, and whether they descend.
ghost use Rattle.std.specs.Prelude.{◌≡◌, ◌≢◌, ℕ, ◌≤◌, ◌+◌, ◌++◌, OnOk, IfErr, IfSome, MatchOption, decimal, length};
ghost use Rattle.std.specs.Option.{option_map};
ghost use Rattle.arrayvec.specs.ArrayVec.{array_vec_len};
ghost use Rattle.art_key.specs.Columns.{IsColumn, IsKind};
ghost use Rattle.art_key.specs.Kinds.{complement, front_in};
ghost use Rattle.art_key.specs.Schemas.{column_of, kind_among, kinds, text_kinds};

use crate::kinds::{Codes, Texts, Truths, Wholes};
use crate::{Key, ValueFault};
use art_model::Value;

/// The kind of values that a column has.
#[derive(Clone, Copy, Debug, Default, PartialEq, Eq)]
pub enum Kind {
    /// False and true.
    #[default]
    Bool,
    /// Whole numbers from 0 to 2^8 - 1.
    U8,
    /// Whole numbers from 0 to 2^16 - 1.
    U16,
    /// Whole numbers from 0 to 2^32 - 1.
    U32,
    /// Whole numbers from 0 to 2^64 - 1.
    U64,
    /// Whole numbers from -2^7 to 2^7 - 1.
    I8,
    /// Whole numbers from -2^15 to 2^15 - 1.
    I16,
    /// Whole numbers from -2^31 to 2^31 - 1.
    I32,
    /// Whole numbers from -2^63 to 2^63 - 1.
    I64,
    /// Texts of at most so many bytes of UTF-8, 1 to 24.
    Text(u8),
}

/// A column of a tuple.
#[derive(Clone, Copy, Debug, Default, PartialEq, Eq)]
pub struct Column {
    pub kind: Kind,
    /// Whether the values stand in reverse order.
    pub descends: bool,
}

/// Makes a call on the values of a kind.
macro_rules! of_kind {
    ($kind:expr, $values:ident => $call:expr) => {
        match $kind {
            Kind::Bool => {
                let $values = Truths;
                $call
            }
            Kind::U8 => {
                let $values = Wholes::new(1, 0, i128::from(u8::MAX));
                $call
            }
            Kind::U16 => {
                let $values = Wholes::new(2, 0, i128::from(u16::MAX));
                $call
            }
            Kind::U32 => {
                let $values = Wholes::new(4, 0, i128::from(u32::MAX));
                $call
            }
            Kind::U64 => {
                let $values = Wholes::new(8, 0, i128::from(u64::MAX));
                $call
            }
            Kind::I8 => {
                let $values = Wholes::new(1, i128::from(i8::MIN), i128::from(i8::MAX));
                $call
            }
            Kind::I16 => {
                let $values = Wholes::new(2, i128::from(i16::MIN), i128::from(i16::MAX));
                $call
            }
            Kind::I32 => {
                let $values = Wholes::new(4, i128::from(i32::MIN), i128::from(i32::MAX));
                $call
            }
            Kind::I64 => {
                let $values = Wholes::new(8, i128::from(i64::MIN), i128::from(i64::MAX));
                $call
            }
            Kind::Text(longest) => {
                let $values = Texts::up_to(longest);
                $call
            }
        }
    };
}

impl Kind {
    ghost use Rattle.std.specs.Prelude.{true};
    ghost use Rattle.art_key.specs.Columns.{kind_coding};

    /// The kind of this name.
    fn named(name: &str) -> Option<Kind>
        ensures kind { result ≡ kind_among kinds name.now }
        ensures known { IfSome result IsKind }
    {
        match name {
            "bool" => Some(Kind::Bool),
            "u8" => Some(Kind::U8),
            "u16" => Some(Kind::U16),
            "u32" => Some(Kind::U32),
            "u64" => Some(Kind::U64),
            "i8" => Some(Kind::I8),
            "i16" => Some(Kind::I16),
            "i32" => Some(Kind::I32),
            "i64" => Some(Kind::I64),
            _ => text_kind(name),
        }
    }

    /// How many bytes a value has at most.
    fn width(self) -> usize
        requires { IsKind self }
        ensures { result ≡ (kind_coding self).width }
    {
        of_kind!(self, values => values.width())
    }

    /// Appends the bytes that spell the value at this place.
    #[inline(always)]
    fn append(self, place: usize, value: &Value, key: &mut Key) -> Result<(), ValueFault>
        requires known { IsKind self }
        requires room { array_vec_len key.old + (kind_coding self).width ≤ 64 }
        ensures stands { OnOk result ((kind_coding self).fault place value.now ≡ None) }
        ensures bytes { OnOk result (key.new.items ≡ key.old.items ++ (kind_coding self).spelling value.now) }
        ensures fault { IfErr result (λ f. (kind_coding self).fault place value.now ≡ Some f) }
    {
        of_kind!(self, values => values.append(place, value, key))
    }

    /// Appends the complement of each byte that spells the value at this place.
    fn append_reversed(self, place: usize, value: &Value, key: &mut Key) -> Result<(), ValueFault>
        requires known { IsKind self }
        requires room { array_vec_len key.old + (kind_coding self).width ≤ 64 }
        ensures stands { OnOk result ((kind_coding self).fault place value.now ≡ None) }
        ensures bytes { OnOk result (key.new.items ≡ key.old.items ++ complement ((kind_coding self).spelling value.now)) }
        ensures fault { IfErr result (λ f. (kind_coding self).fault place value.now ≡ Some f) }
    {
        let mut spelled = Key::new();
        self.append(place, value, &mut spelled)?;
        append_complements(key, spelled.as_slice());
        Ok(())
    }

    /// The value that the bytes at the front spell, and the bytes after it.
    #[inline(always)]
    fn front(self, bytes: &[u8]) -> Option<(Value, &[u8])>
        requires { IsKind self }
        ensures { option_map (λ x. (x.0, x.1.now)) result ≡ (kind_coding self).front bytes.now }
    {
        of_kind!(self, values => values.front(bytes))
    }

    /// The value that the complements of the bytes at the front spell, and the bytes after it.
    fn front_reversed(self, bytes: &[u8]) -> Option<(Value, &[u8])>
        requires { IsKind self }
        ensures { option_map (λ x. (x.0, x.1.now)) result ≡ front_in true (kind_coding self) bytes.now }
    {
        // no spelling is longer than a key
        let mut complements = Key::new();
        append_complements(&mut complements, &bytes[..bytes.len().min(64)]);
        let (value, rest) = self.front(complements.as_slice())?;
        let spelled = complements.len() - rest.len();
        Some((value, &bytes[spelled..]))
    }
}

impl Column {
    ghost use Rattle.art_key.specs.Columns.{width, value_fault};
    ghost use Rattle.art_key.specs.Spelling.{value_spelling, front_value};

    /// The column of this name: a kind's, and one `-` after it where the values descend.
    pub(crate) fn named(name: &str) -> Option<Column>
        ensures column { result ≡ column_of name.now }
        ensures known { IfSome result IsColumn }
    {
        match name.strip_suffix('-') {
            Some(kind) => Some(Column {
                kind: Kind::named(kind)?,
                descends: true,
            }),
            None => Some(Column {
                kind: Kind::named(name)?,
                descends: false,
            }),
        }
    }

    /// How many bytes a value has at most.
    pub(crate) fn width(self) -> usize
        requires { IsColumn self }
        ensures { result ≡ width self }
    {
        self.kind.width()
    }

    /// Appends the bytes that spell the value at this place.
    #[inline(always)]
    pub(crate) fn append(self, place: usize, value: &Value, key: &mut Key) -> Result<(), ValueFault>
        requires known { IsColumn self }
        requires room { array_vec_len key.old + width self ≤ 64 }
        ensures stands { OnOk result (value_fault place self value.now ≡ None) }
        ensures bytes { OnOk result (key.new.items ≡ key.old.items ++ value_spelling self value.now) }
        ensures fault { IfErr result (λ f. value_fault place self value.now ≡ Some f) }
    {
        if self.descends {
            self.kind.append_reversed(place, value, key)
        } else {
            self.kind.append(place, value, key)
        }
    }

    /// The value that the bytes at the front spell, and the bytes after it.
    pub(crate) fn front(self, bytes: &[u8]) -> Option<(Value, &[u8])>
        requires { IsColumn self }
        ensures { option_map (λ x. (x.0, x.1.now)) result ≡ front_value self bytes.now }
    {
        if self.descends {
            self.kind.front_reversed(bytes)
        } else {
            self.kind.front(bytes)
        }
    }
}

/// Appends the complement of each byte, for which there is room.
fn append_complements(key: &mut Key, bytes: &[u8])
    requires { array_vec_len key.old + length bytes.now ≤ 64 }
    ensures { key.new.items ≡ key.old.items ++ complement bytes.now }
{
    for byte in bytes {
        key.push(!*byte);
    }
}

/// The kind of texts of this name: `text` and the most bytes, from 1 to 24.
fn text_kind(name: &str) -> Option<Kind>
    ensures kind { result ≡ kind_among text_kinds name.now }
    ensures known { IfSome result IsKind }
{
    let longest = longest_of(name.strip_prefix("text")?.as_bytes())?;
    Some(Kind::Text(longest))
}

/// The number from 1 to 24 that these are the decimal digits of.
#[tactic(auto, using(crate::proofs::Names::decimal_tells))]
fn longest_of(digits: &[u8]) -> Option<u8>
    ensures { MatchOption
        result
        ((n : ℕ) → 1 ≤ n → n ≤ 24 → digits.now ≢ decimal n)
        (λ n. (1 ≤ n) × (n ≤ 24) × (digits.now ≡ decimal n)) }
{
    match digits {
        [ones @ b'1'..=b'9'] => Some(ones - b'0'),
        [b'1', ones @ b'0'..=b'9'] => Some(10 + (ones - b'0')),
        [b'2', ones @ b'0'..=b'4'] => Some(20 + (ones - b'0')),
        _ => None,
    }
}
