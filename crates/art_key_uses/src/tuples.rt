//! Tuples of one number.
use art_model::{Tuple, Value};

pub(crate) fn tuple_of(number: i128) -> Tuple {
    let mut tuple = Tuple::new();
    tuple.push(Value::Int(number));
    tuple
}
