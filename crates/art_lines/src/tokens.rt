//! From the tokens of a line to its command: how each line that says one is read. No memory is taken.
//!
//! Whatever says no command is answered with nothing, and not with its fault: that is found in the tree of its values, by `lines`. So is
//! the command of a line with an escape in it.
ghost use Rattle.std.specs.Prelude.{◌≡◌, [], ℕ, ◌<◌, ◌==◌, length, slice_index, Some, Ok, IfSome, IsTrue, IsUtf8};
ghost use Rattle.json.specs.Json.{after_end_array};
ghost use Rattle.serde_json.specs.Data.{Num, unsigned, negative, Data, Items, number, string, array};
ghost use Rattle.serde_json.specs.Read.{number_of, read};
ghost use Rattle.art_lines.specs.Lines.{number_said, value_said, tuple_said, tuple_alone, insert_said, scan_said, word_said, command_said};
ghost use Rattle.art_model.specs.declared.commands.Command.TheVariants as commands;
ghost use Rattle.art_lines.specs.Verbs.{command_of};
ghost use Rattle.art_lines.specs.Cursors.{tokens_left};
ghost use Rattle.art_lines.specs.Tokens.{Begins, Closes};

use crate::cursors::Cursor;
use art_model::{Text, Tuple, Value};
use fast_float::Numeral;
use std::str;

/// What a command asks beside its tuples.
#[derive(Clone, Copy, Debug, PartialEq, Eq, Drop)]
pub enum Verb {
    /// To add a row with this value.
    Insert(u64),
    /// To take a row out.
    Remove,
    /// To look for a row.
    Get,
    /// To list rows, so many at most.
    Scan(u64),
}

/// What the command asks that a line says, or nothing where it says none, or has an escape in it.
///
/// The tuples are left where the caller wants them, since a tuple is too long to be handed on from call to call. Where the command
/// has only one, that is `lo`.
pub(crate) fn verb_in_tokens(line: &[u8], lo: &mut Tuple, hi: &mut Tuple) -> Option<Verb>
    ensures text { IfSome result (λ _. IsUtf8 line.now) }
    ensures said { IfSome result (λ verb. (d : Data) × (read line.now ≡ Some d)
        × (command_said d ≡ Ok (command_of verb lo.new hi.new))) }
{
    let text = str::from_utf8(line).ok()?;
    let mut cursor = Cursor::new(text.as_bytes());
    let verb = next_command(&mut cursor, lo, hi)?;
    if cursor.is_at_end() { Some(verb) } else { None }
}

fn next_command(cursor: &mut Cursor<'_>, lo: &mut Tuple, hi: &mut Tuple) -> Option<Verb>
    ensures { IfSome result (λ verb. (d : Data) × Begins 127 (tokens_left cursor.old) d (tokens_left cursor.new)
        × (command_said d ≡ Ok (command_of verb lo.new hi.new))) }
{
    if !cursor.take_begin_array() {
        return None;
    }
    let word = cursor.take_text()?;
    command_after(word, cursor, lo, hi)
}

fn command_after(
    word: &[u8],
    cursor: &mut Cursor<'_>,
    lo: &mut Tuple,
    hi: &mut Tuple,
) -> Option<Verb>
    ensures { IfSome result (λ verb. (ds : Items) × Closes 126 (tokens_left cursor.old) ds (tokens_left cursor.new)
        × (word_said word.now ds ≡ Ok (command_of verb lo.new hi.new))) }
{
    match word {
        b"insert" => Some(Verb::Insert(insert_after(cursor, lo)?)),
        b"remove" => {
            lone_tuple(cursor, lo)?;
            Some(Verb::Remove)
        }
        b"get" => {
            lone_tuple(cursor, lo)?;
            Some(Verb::Get)
        }
        b"scan" => Some(Verb::Scan(scan_after(cursor, lo, hi)?)),
        _ => None,
    }
}

/// The value to store; the tuple is left where the caller wants it.
fn insert_after(cursor: &mut Cursor<'_>, tuple: &mut Tuple) -> Option<u64>
    ensures { IfSome result (λ value. (ds : Items) × Closes 126 (tokens_left cursor.old) ds (tokens_left cursor.new)
        × (insert_said ds ≡ Ok (commands.Insert tuple.new value))) }
{
    next_tuple(cursor, tuple)?;
    let value = next_number(cursor)?;
    close(cursor)?;
    Some(value)
}

/// The limit; the tuples are left where the caller wants them.
fn scan_after(cursor: &mut Cursor<'_>, lo: &mut Tuple, hi: &mut Tuple) -> Option<u64>
    ensures { IfSome result (λ limit. (ds : Items) × Closes 126 (tokens_left cursor.old) ds (tokens_left cursor.new)
        × (scan_said ds ≡ Ok (commands.Scan lo.new hi.new limit))) }
{
    next_tuple(cursor, lo)?;
    next_tuple(cursor, hi)?;
    let limit = next_number(cursor)?;
    close(cursor)?;
    Some(limit)
}

fn lone_tuple(cursor: &mut Cursor<'_>, tuple: &mut Tuple) -> Option<()>
    ensures { IfSome result (λ _. (ds : Items) × Closes 126 (tokens_left cursor.old) ds (tokens_left cursor.new)
        × (tuple_alone ds ≡ Ok tuple.new)) }
{
    next_tuple(cursor, tuple)?;
    close(cursor)
}

/// The bracket that closes an array.
fn close(cursor: &mut Cursor<'_>) -> Option<()>
    ensures { IfSome result (λ _. after_end_array (tokens_left cursor.old) ≡ Some (tokens_left cursor.new)) }
{
    if cursor.take_end_array() {
        Some(())
    } else {
        None
    }
}

fn next_number(cursor: &mut Cursor<'_>) -> Option<u64>
    ensures { IfSome result (λ whole. (d : Data) × Begins 126 (tokens_left cursor.old) d (tokens_left cursor.new)
        × (number_said d ≡ Ok whole)) }
{
    let text = cursor.take_number()?;
    unsigned(text)
}

fn next_tuple(cursor: &mut Cursor<'_>, tuple: &mut Tuple) -> Option<()>
    ensures { IfSome result (λ _. (ds : Items) × Begins 126 (tokens_left cursor.old) (array ds) (tokens_left cursor.new)
        × (tuple_said ds ≡ Ok tuple.new)) }
{
    if !cursor.take_begin_array() {
        return None;
    }
    tuple.clear();
    'elements: while !cursor.take_end_array() {
        if tuple.is_full() {
            return None;
        }
        tuple.push(next_value(cursor)?);
    }
    Some(())
}

fn next_value(cursor: &mut Cursor<'_>) -> Option<Value>
    ensures { IfSome result (λ value. (d : Data) × Begins 125 (tokens_left cursor.old) d (tokens_left cursor.new)
        × ((place : ℕ) → value_said place d ≡ Ok value)) }
{
    match cursor.peek() {
        Some(b'"') => text_value(cursor.take_text()?),
        Some(b't' | b'f') => Some(Value::Bool(cursor.take_bool()?)),
        _ => whole_value(cursor.take_number()?),
    }
}

/// A text of at most 24 bytes.
fn text_value(text: &[u8]) -> Option<Value>
    ensures { IfSome result (λ value. (place : ℕ) → value_said place (string text.now) ≡ Ok value) }
{
    let text = str::from_utf8(text).ok()?;
    Some(Value::Text(Text::new(text)?))
}

/// A whole number from -2^63 to 2^64 - 1.
fn whole_value(text: &[u8]) -> Option<Value>
    ensures { IfSome result (λ value. (n : Num) × (number_of text.now ≡ Some n)
        × ((place : ℕ) → value_said place (number n) ≡ Ok value)) }
{
    match unsigned(text) {
        Some(whole) => Some(Value::Int(i128::from(whole))),
        None => Some(Value::Int(i128::from(negative(text)?))),
    }
}

/// A whole number from 0 to 2^64 - 1.
fn unsigned(text: &[u8]) -> Option<u64>
    ensures { IfSome result (λ whole. number_of text.now ≡ Some (unsigned whole)) }
{
    if has_minus(text) {
        return None;
    }
    Numeral::scan(text).to_u64()
}

/// A whole number from -2^63 to -1.
fn negative(text: &[u8]) -> Option<i64>
    ensures { IfSome result (λ whole. number_of text.now ≡ Some (negative whole)) }
{
    if !has_minus(text) {
        return None;
    }
    let whole = Numeral::scan(&text[1..]).to_i64(true)?;
    if whole < 0 { Some(whole) } else { None }
}

fn has_minus(bytes: &[u8]) -> bool
    ensures value { result ≡ (slice_index bytes.now 0 == 45) }
    ensures some { IsTrue result → 0 < length bytes.now }
{
    !bytes.is_empty() && bytes[0] == b'-'
}
