//! Columns as C has them.
ghost use Rattle.std.specs.Prelude.{◌≡◌, ◌≤◌, [], length};
ghost use Rattle.art_index_c.specs.Columns.{column_of, column_with, low_bits, text_of, tuple_of, value_of};
ghost use Rattle.art_model.specs.declared.values.Value.TheVariants.{Int as IntOf};

use art_key::ValueFault;
use art_model::{Text, Tuple, Value};

/// The value of one column. `kind` says what it is of: 0 a truth value, which is false where `number` is 0; 1 a whole number; 2 a
/// whole number with a sign, in two's complement; 3 a text, of the first `length` bytes of `text`, which are UTF-8.
#[repr(C)]
#[derive(Clone, Copy, Debug, Default, PartialEq, Drop)]
pub struct Column {
    pub kind: u32,
    pub length: u32,
    pub number: u64,
    pub text: [u8; 24],
}

/// The tuple of the columns, or what is wrong with the first bad one.
pub(crate) fn tuple_of(columns: &[Column]) -> Result<Tuple, ValueFault>
    ensures { result ≡ tuple_of columns.now }
{
    if columns.len() > 8 {
        return Err(ValueFault::WrongColumns);
    }
    let mut tuple = Tuple::new();
    for (place, column) in columns.iter().enumerate() {
        let value = column.value(place)?;
        tuple.push(value);
    }
    Ok(tuple)
}

impl Column {
    /// The value of the column at a place, or what is wrong with it.
    fn value(&self, place: usize) -> Result<Value, ValueFault>
        ensures { result ≡ value_of place self.now }
    {
        match self.kind {
            0 => Ok(Value::Bool(self.number != 0)),
            1 => Ok(Value::Int(i128::from(self.number))),
            2 => Ok(Value::Int(i128::from(self.number.cast_signed()))),
            3 => text_of(place, self.length, &self.text),
            _ => Err(ValueFault::WrongType(place)),
        }
    }

    /// The column of a value.
    pub(crate) fn of(value: &Value) -> Column
        ensures { result ≡ column_of value.now }
    {
        match value {
            Value::Bool(truth) => Column::with(0, u64::from(*truth), &[]),
            Value::Int(number) => Column::of_number(*number),
            Value::Text(text) => Column::with(3, 0, text.as_str().as_bytes()),
        }
    }

    /// The column of a whole number.
    fn of_number(number: i128) -> Column
        ensures { result ≡ column_of (IntOf number) }
    {
        let kind = if number < 0 { 2 } else { 1 };
        Column::with(kind, low_bits(number), &[])
    }

    /// A column of nothing.
    pub(crate) fn none() -> Column
        ensures { result ≡ column_with 0 0 0 [] }
    {
        Column::with(0, 0, &[])
    }

    /// A column of this kind, number and text.
    fn with(kind: u32, number: u64, bytes: &[u8]) -> Column
        requires { length bytes.now ≤ 24 }
        ensures { result ≡ column_with kind number (length bytes.now) bytes.now }
    {
        let mut text = [0; 24];
        for (place, byte) in bytes.iter().enumerate() {
            text[place] = *byte;
        }
        Column {
            kind,
            length: bytes.len() as u32,
            number,
            text,
        }
    }
}

/// The text of the first bytes, or what is wrong with them.
fn text_of(place: usize, count: u32, bytes: &[u8; 24]) -> Result<Value, ValueFault>
    ensures { result ≡ text_of place count bytes.now }
{
    let Some(bytes) = bytes.get(..count as usize) else {
        return Err(ValueFault::TextTooLong(place));
    };
    let Ok(text) = str::from_utf8(bytes) else {
        return Err(ValueFault::WrongType(place));
    };
    match Text::new(text) {
        Some(text) => Ok(Value::Text(text)),
        None => Err(ValueFault::TextTooLong(place)),
    }
}

/// The low 64 bits of a whole number in two's complement.
fn low_bits(number: i128) -> u64
    ensures { result ≡ low_bits number }
{
    (number.cast_unsigned() % (1 << 64)) as u64
}
