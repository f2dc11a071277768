//! What passes are to do, over twenty rows.
use art_key::{Key, Schema, encode};
use art_model::{Text, Tuple, Value};
use rand_pcg::Pcg32;
use rand_pcg::rand_core::Rng;
use std::process::Abort;

/// How many rows there are to draw.
const ROWS: u32 = 20;

/// What a pass is to do, with the row of a number.
#[derive(Clone, Copy)]
pub(crate) enum Wish {
    Insert(u32, u64),
    Remove(u32),
    Get(u32),
    /// From the row of a number on, before that of another one, where that stands after it.
    Look(u32, u32),
}

/// A drawn wish: mostly an insert, or mostly a removal.
pub(crate) fn draw(numbers: &mut Pcg32, fills: bool) -> Wish {
    let number = numbers.next_u32() % ROWS;
    match numbers.next_u32() % 8 {
        0 => Wish::Get(number),
        1 => Wish::Look(number, numbers.next_u32() % ROWS),
        kind => {
            if fills == (kind > 2) {
                Wish::Insert(number, numbers.next_u64())
            } else {
                Wish::Remove(number)
            }
        }
    }
}

/// A text and a number.
pub(crate) fn schema_of_rows(rt: &impl Abort) -> Schema {
    Schema::parse("text24,u8").expect(rt, "a schema")
}

/// The row of a number: ten have the same long text, four a longer one that begins with it, three none, and three a short one.
pub(crate) fn tuple_of(rt: &impl Abort, number: u32) -> Tuple {
    let text = match number {
        0..=9 => "a front that is long",
        10..=13 => "a front that is longer",
        14..=16 => "",
        _ => "short",
    };
    let mut tuple = Tuple::new();
    tuple.push(Value::Text(Text::new(text).expect(rt, "a text of the column")));
    tuple.push(Value::Int(i128::from(number)));
    tuple
}

/// The key of the row of a number.
pub(crate) fn key_of(rt: &impl Abort, schema: &Schema, number: u32) -> Key {
    encode(schema, &tuple_of(rt, number)).expect(rt, "a row of the schema")
}
