//! The kinds of column: which values stand in one, and how it spells them.
ghost use Rattle.std.specs.Prelude.{◌≡◌, ℕ, List, ◌<◌, ◌≤◌, ◌+◌, ◌-◌, ◌*◌, ◌^◌, ◌++◌, pos, neg_ℤ, ◌+ℤ◌, ◌-ℤ◌, ◌≤ℤ◌, length, flat_map, Some, None, OnOk, IfErr, IfSome, IfNone};
ghost use Rattle.std.specs.Option.{option_map};
ghost use Rattle.arrayvec.specs.ArrayVec.{array_vec_len};
ghost use Rattle.art_key.specs.Kinds.{number_of, escaped, unescaped};
ghost use Rattle.art_key.specs.Parts.{IsFrontPart};

use crate::{Key, ValueFault};
use arrayvec::ArrayVec;
use art_model::{TEXT_BYTES, Text, Value};

/// A kind of values, and how it spells them.
pub(crate) trait Codes: Copy {
    ghost use Rattle.std.specs.Prelude.{false};
    ghost use Rattle.art_key.specs.Kinds.{Coding, IsCoding};

    ghost coding: { Self → Coding };

    /// How many bytes a value has at most.
    fn width(self) -> usize
        ensures { result ≡ (coding self).width };

    /// Appends the bytes that spell the value at this place.
    fn append(self, place: usize, value: &Value, key: &mut Key) -> Result<(), ValueFault>
        requires { array_vec_len key.old + (coding self).width ≤ 64 }
        ensures stands { OnOk result ((coding self).fault place value.now ≡ None) }
        ensures bytes { OnOk result (key.new.items ≡ key.old.items ++ (coding self).spelling value.now) }
        ensures fault { IfErr result (λ f. (coding self).fault place value.now ≡ Some f) };

    /// The value that the bytes at the front spell, and the bytes after it.
    fn front(self, bytes: &[u8]) -> Option<(Value, &[u8])>
        ensures { option_map (λ x. (x.0, x.1.now)) result ≡ (coding self).front bytes.now };

    ghost lawful: { (k : Self) → IsCoding false (coding k) };
}

/// False and true.
#[derive(Clone, Copy)]
pub(crate) struct Truths;

impl Codes for Truths {
    ghost use Rattle.art_key.specs.Kinds.{truth};
    ghost use Rattle.art_key.specs.KindLaws.{truth_is_coding};

    ghost coding = { λ _. truth };

    fn width(self) -> usize {
        1
    }

    fn append(self, place: usize, value: &Value, key: &mut Key) -> Result<(), ValueFault> {
        let Value::Bool(truth) = value else {
            return Err(ValueFault::WrongType(place));
        };
        key.push(u8::from(*truth));
        Ok(())
    }

    fn front(self, bytes: &[u8]) -> Option<(Value, &[u8])> {
        match bytes {
            [0, rest @ ..] => Some((Value::Bool(false), rest)),
            [1, rest @ ..] => Some((Value::Bool(true), rest)),
            _ => None,
        }
    }

    ghost lawful = { λ _. truth_is_coding };
}

/// Whole numbers from a least to a greatest one, as many as so many bytes tell apart.
#[derive(Clone, Copy)]
pub(crate) struct Wholes {
    bytes: usize,
    least: i128,
    greatest: i128,
    ghost few: { bytes ≤ 8 },
    ghost low: { neg_ℤ (pos (2 ^ 63)) ≤ℤ least },
    ghost high: { least ≤ℤ pos 0 },
    ghost all: { greatest ≡ least +ℤ pos (256 ^ bytes - 1) },
}

impl Wholes {
    /// The whole numbers from `least` to `greatest`, which are 256 ^ `bytes`.
    pub(crate) fn new(bytes: usize, least: i128, greatest: i128) -> Self
        requires few { bytes ≤ 8 }
        requires low { neg_ℤ (pos (2 ^ 63)) ≤ℤ least }
        requires high { least ≤ℤ pos 0 }
        requires all { greatest ≡ least +ℤ pos (256 ^ bytes - 1) }
        ensures bytes { result.bytes ≡ bytes }
        ensures least { result.least ≡ least }
    {
        Wholes {
            bytes,
            least,
            greatest,
        }
    }
}

impl Codes for Wholes {
    ghost use Rattle.art_key.specs.Kinds.{whole};
    ghost use Rattle.art_key.specs.KindLaws.{whole_is_coding};

    ghost coding = { λ k. whole k.bytes k.least };

    fn width(self) -> usize {
        self.bytes
    }

    fn append(self, place: usize, value: &Value, key: &mut Key) -> Result<(), ValueFault> {
        let Value::Int(number) = value else {
            return Err(ValueFault::WrongType(place));
        };
        if *number < self.least || self.greatest < *number {
            return Err(ValueFault::OutOfRange(place));
        }
        let above = (*number - self.least) as u64;
        append_bytes(key, &above.to_be_bytes()[8 - self.bytes..]);
        Ok(())
    }

    fn front(self, bytes: &[u8]) -> Option<(Value, &[u8])> {
        let (front, rest) = bytes.split_at_checked(self.bytes)?;
        let number = self.least + i128::from(number_of(front));
        Some((Value::Int(number), rest))
    }

    ghost lawful = { λ k. whole_is_coding k.bytes k.least };
}

/// The number that the bytes are, highest byte first.
fn number_of(bytes: &[u8]) -> u64
    requires { length bytes.now ≤ 8 }
    ensures value { result ≡ number_of bytes.now }
{
    let mut number = 0;
    for byte in bytes {
        number = number * 256 + u64::from(*byte);
    }
    number
}

/// Texts of at most so many bytes.
#[derive(Clone, Copy)]
pub(crate) struct Texts {
    longest: u8,
    ghost short: { longest ≤ 24 },
}

impl Texts {
    /// Texts of at most `longest` bytes.
    pub(crate) fn up_to(longest: u8) -> Self
        requires { longest ≤ 24 }
        ensures { result.longest ≡ longest }
    {
        Texts { longest }
    }
}

impl Codes for Texts {
    ghost use Rattle.art_key.specs.Kinds.{text};
    ghost use Rattle.art_key.specs.TextLaws.{text_is_coding};

    ghost coding = { λ k. text k.longest };

    fn width(self) -> usize {
        2 * usize::from(self.longest) + 2
    }

    fn append(self, place: usize, value: &Value, key: &mut Key) -> Result<(), ValueFault> {
        let Value::Text(text) = value else {
            return Err(ValueFault::WrongType(place));
        };
        let text = text.as_str();
        if text.len() > usize::from(self.longest) {
            return Err(ValueFault::TextTooLong(place));
        }
        append_escaped(key, text.as_bytes());
        append_bytes(key, &[0, 0]);
        Ok(())
    }

    fn front(self, bytes: &[u8]) -> Option<(Value, &[u8])> {
        let (text, rest) = unescaped(bytes)?;
        if text.len() > usize::from(self.longest) {
            return None;
        }
        let Ok(text) = std::str::from_utf8(text.as_slice()) else {
            return None;
        };
        Some((Value::Text(Text::new(text)?), rest))
    }

    ghost lawful = { λ k. text_is_coding k.longest };
}

/// Appends the bytes, with 255 after each 0.
fn append_escaped(key: &mut Key, bytes: &[u8])
    requires { array_vec_len key.old + 2 * length bytes.now ≤ 64 }
    ensures { key.new.items ≡ key.old.items ++ flat_map escaped bytes.now }
{
    for byte in bytes {
        key.push(*byte);
        if *byte == 0 {
            key.push(255);
        }
    }
}

/// Appends bytes, for which there is room.
fn append_bytes(key: &mut Key, bytes: &[u8])
    requires { array_vec_len key.old + length bytes.now ≤ 64 }
    ensures { key.new.items ≡ key.old.items ++ bytes.now }
{
    for byte in bytes {
        key.push(*byte);
    }
}

/// What the bytes at the front of a spelled text are.
enum Part<'a> {
    /// A byte of the text, and the bytes after it.
    Byte(u8, &'a [u8]),
    /// The end of the text, and the bytes after it.
    End(&'a [u8]),
}

/// What the bytes at the front are, unless no text is spelled.
fn front_part(bytes: &[u8]) -> Option<Part<'_>>
    ensures part { IfSome result (IsFrontPart bytes.now) }
    ensures none { IfNone result (unescaped bytes.now ≡ None) }
{
    match bytes {
        [0, 0, rest @ ..] => Some(Part::End(rest)),
        [0, 255, rest @ ..] => Some(Part::Byte(0, rest)),
        [0, ..] | [] => None,
        [byte, rest @ ..] => Some(Part::Byte(*byte, rest)),
    }
}

/// The text that the bytes at the front spell, and the bytes after it; none where it has more than 24 bytes.
fn unescaped(bytes: &[u8]) -> Option<(ArrayVec<u8, TEXT_BYTES>, &[u8])>
    ensures some { IfSome result (λ t. unescaped bytes.now ≡ Some (t.0.items, t.1.now)) }
    ensures none { IfNone result ((t : List ℕ) (rest : List ℕ) → unescaped bytes.now ≡ Some (t, rest) → 24 < length t) }
{
    let mut text = ArrayVec::new();
    let mut rest = bytes;
    while !rest.is_empty() {
        match front_part(rest)? {
            Part::End(after) => return Some((text, after)),
            Part::Byte(byte, after) => {
                if text.is_full() {
                    return None;
                }
                text.push(byte);
                rest = after;
            }
        }
    }
    None
}
