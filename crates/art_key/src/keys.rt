//! Keys: the bytes that spell a tuple under a schema.
ghost use Rattle.std.specs.Prelude.{◌≡◌, ◌≤◌, All, length, List, [], None, Some, IfSome, IfNone, IfOk, IfErr, OnOk, if◌then◌else◌, is_some, unwrap_or};
ghost use Rattle.std.specs.Option.{option_map};
ghost use Rattle.art_model.specs.declared.values.Value.{Value};
ghost use Rattle.art_key.specs.Columns.{IsColumn, total_width, first_fault, tuple_fault};
ghost use Rattle.art_key.specs.Spelling.{spelling, IsSpelling, tuple_spelled};

use crate::{Column, Schema, ValueFault};
use arrayvec::ArrayVec;
use art_model::{Tuple, Value};

/// The bytes of a tuple, at most 64.
pub type Key = ArrayVec<u8, 64>;

/// The key of the tuple. Where a column is at fault, the first such column is told.
#[inline(always)]
pub fn encode(schema: &Schema, tuple: &Tuple) -> Result<Key, ValueFault>
    ensures key { IfOk result (λ key. IsSpelling schema.now tuple.now.items key.items) }
    ensures fault { IfErr result (λ f. tuple_fault schema.now tuple.now.items ≡ Some f) }
{
    let columns = schema.columns();
    let values = tuple.as_slice();
    if columns.len() != values.len() {
        return Err(ValueFault::WrongColumns);
    }
    let mut key = Key::new();
    spell(columns, values, &mut key)?;
    Ok(key)
}

/// The spellings of the values, one for each column, one after another, into an empty key.
#[inline(always)]
fn spell(columns: &[Column], values: &[Value], key: &mut Key) -> Result<(), ValueFault>
    requires empty { key.old.items ≡ [] }
    requires same_length { length columns.now ≡ length values.now }
    requires known { All IsColumn columns.now }
    requires narrow { total_width columns.now ≤ 64 }
    ensures stands { OnOk result (first_fault 0 columns.now values.now ≡ None) }
    ensures bytes { OnOk result (key.new.items ≡ spelling columns.now values.now) }
    ensures fault { IfErr result (λ f. first_fault 0 columns.now values.now ≡ Some f) }
{
    for (place, column) in columns.iter().enumerate() {
        column.append(place, &values[place], key)?;
    }
    Ok(())
}

/// The tuple that the bytes spell, all of the bytes.
pub fn decode(schema: &Schema, bytes: &[u8]) -> Option<Tuple>
    ensures exact { option_map (λ t. t.items) result ≡ tuple_spelled schema.now bytes.now }
    ensures found { IfSome result (λ t. IsSpelling schema.now t.items bytes.now) }
    ensures none { IfNone result ((t : List Value) → IsSpelling schema.now t bytes.now → ⊥) }
{
    let mut tuple = Tuple::new();
    if decode_into(schema, bytes, &mut tuple) {
        Some(tuple)
    } else {
        None
    }
}

/// Puts the tuple that the bytes spell, all of the bytes, into this one's place, where it need not be moved. Where they spell none, the
/// answer is false, and no values stand there.
#[inline]
pub fn decode_into(schema: &Schema, bytes: &[u8], tuple: &mut Tuple) -> bool
    ensures known { result ≡ is_some (tuple_spelled schema.now bytes.now) }
    ensures read { tuple.new.items ≡ unwrap_or (tuple_spelled schema.now bytes.now) [] }
{
    tuple.clear();
    let known = read(schema.columns(), bytes, tuple);
    if !known {
        tuple.clear();
    }
    known
}

/// Whether the bytes spell values, one for each column, and no bytes are left: then the tuple has these values.
fn read(columns: &[Column], bytes: &[u8], tuple: &mut Tuple) -> bool
    requires known { All IsColumn columns.now }
    requires few { length columns.now ≤ 8 }
    requires empty { tuple.old.items ≡ [] }
    ensures { (if result then Some tuple.new.items else None) ≡ tuple_spelled columns.now bytes.now }
{
    let mut rest = bytes;
    for column in columns {
        let Some((value, after)) = column.front(rest) else {
            return false;
        };
        tuple.push(value);
        rest = after;
    }
    rest.is_empty()
}
