//! Keys of worked examples, and bytes that are no key.
use art_key::{Bound, Schema, SchemaFault, ValueFault, decode, encode};
use art_model::{Text, Tuple, Value};
use std::process::Abort;
use std::test::*;

const FIVE: [u8; 8] = [0, 0, 0, 0, 0, 0, 0, 5];

fn schema_of(rt: &impl Abort, text: &str) -> Schema {
    Schema::parse(text).ok().expect(rt, "a schema")
}

fn tuple_of(value: Value) -> Tuple {
    let mut tuple = Tuple::new();
    tuple.push(value);
    tuple
}

fn pair_of(first: Value, second: Value) -> Tuple {
    let mut tuple = Tuple::new();
    tuple.push(first);
    tuple.push(second);
    tuple
}

fn triple_of(first: Value, second: Value, third: Value) -> Tuple {
    let mut tuple = Tuple::new();
    tuple.push(first);
    tuple.push(second);
    tuple.push(third);
    tuple
}

fn text_of(rt: &impl Abort, text: &str) -> Value {
    Value::Text(Text::new(text).expect(rt, "a short text"))
}

/// The bytes are the key of the tuple, and the tuple is what they spell.
fn check_key(rt: &impl Abort, schema: &str, tuple: &Tuple, bytes: &[u8]) {
    let schema = schema_of(rt, schema);
    let key = encode(&schema, tuple).ok().expect(rt, "a key");
    assert_eq!(rt; key.as_slice(), bytes);
    let back = decode(&schema, bytes).expect(rt, "a tuple");
    assert!(rt; back == *tuple);
}

fn fault_of(rt: &impl Abort, schema: &str, tuple: &Tuple) -> ValueFault {
    let schema = schema_of(rt, schema);
    encode(&schema, tuple).err().expect(rt, "a fault")
}

fn spells_nothing(rt: &impl Abort, schema: &str, bytes: &[u8]) -> bool {
    decode(&schema_of(rt, schema), bytes).is_none()
}

#[test]
fn five_is_eight_bytes(rt: HostRuntime) {
    check_key(&rt, "u64", &tuple_of(Value::Int(5)), &FIVE);
}

#[test]
fn signed_numbers_have_the_highest_bit_flipped(rt: HostRuntime) {
    check_key(&rt, "i16", &tuple_of(Value::Int(-32768)), &[0, 0]);
    check_key(&rt, "i16", &tuple_of(Value::Int(-1)), &[0x7F, 0xFF]);
    check_key(&rt, "i16", &tuple_of(Value::Int(0)), &[0x80, 0]);
    check_key(&rt, "i16", &tuple_of(Value::Int(32767)), &[0xFF, 0xFF]);
}

#[test]
fn least_and_greatest_numbers(rt: HostRuntime) {
    check_key(&rt, "u8", &tuple_of(Value::Int(255)), &[255]);
    check_key(&rt, "i8", &tuple_of(Value::Int(-128)), &[0]);
    check_key(&rt, "i8", &tuple_of(Value::Int(127)), &[255]);
    check_key(&rt, "u16", &tuple_of(Value::Int(257)), &[1, 1]);
    check_key(&rt, "u32", &tuple_of(Value::Int(1 << 24)), &[1, 0, 0, 0]);
    check_key(&rt, "i32", &tuple_of(Value::Int(-1)), &[127, 255, 255, 255]);
    let greatest = (1 << 64) - 1;
    check_key(&rt, "u64", &tuple_of(Value::Int(greatest)), &[255; 8]);
    let least = -(1 << 63);
    check_key(&rt, "i64", &tuple_of(Value::Int(least)), &[0; 8]);
}

#[test]
fn texts_are_escaped_and_ended(rt: HostRuntime) {
    let none = tuple_of(text_of(&rt, ""));
    check_key(&rt, "text8", &none, &[0, 0]);
    let one = tuple_of(text_of(&rt, "a"));
    check_key(&rt, "text8", &one, &[0x61, 0, 0]);
    let with_zero = tuple_of(text_of(&rt, "a\0"));
    check_key(&rt, "text8", &with_zero, &[0x61, 0, 0xFF, 0, 0]);
}

#[test]
fn truths_are_one_byte(rt: HostRuntime) {
    check_key(&rt, "bool", &tuple_of(Value::Bool(false)), &[0]);
    check_key(&rt, "bool", &tuple_of(Value::Bool(true)), &[1]);
}

#[test]
fn columns_stand_one_after_another(rt: HostRuntime) {
    let tuple = triple_of(Value::Int(1), Value::Int(-1), text_of(&rt, "a"));
    let bytes = [0, 0, 0, 1, 0x7F, 0xFF, 0x61, 0, 0];
    check_key(&rt, "u32,i16,text8", &tuple, &bytes);
}

#[test]
fn bytes_of_a_column_that_descends_are_complements(rt: HostRuntime) {
    let one = tuple_of(Value::Int(1));
    check_key(&rt, "u32-", &one, &[0xFF, 0xFF, 0xFF, 0xFE]);
    check_key(&rt, "i16-", &tuple_of(Value::Int(-1)), &[0x80, 0]);
    check_key(&rt, "bool-", &tuple_of(Value::Bool(true)), &[0xFE]);
    let none = tuple_of(text_of(&rt, ""));
    check_key(&rt, "text8-", &none, &[0xFF, 0xFF]);
    let letter = tuple_of(text_of(&rt, "a"));
    check_key(&rt, "text8-", &letter, &[0x9E, 0xFF, 0xFF]);
    let with_zero = tuple_of(text_of(&rt, "a\0"));
    check_key(&rt, "text8-", &with_zero, &[0x9E, 0xFF, 0, 0xFF, 0xFF]);
    let two = pair_of(Value::Int(1), Value::Int(2));
    check_key(&rt, "u8,u8-", &two, &[0x01, 0xFD]);
}

fn check_fault(rt: &impl Abort, schema: &str, tuple: &Tuple, wanted: ValueFault) {
    assert_eq!(rt; fault_of(rt, schema, tuple), wanted);
}

#[test]
fn the_number_of_values_is_looked_at_first(rt: HostRuntime) {
    check_fault(&rt, "u64", &Tuple::new(), ValueFault::WrongColumns);
    let one = tuple_of(Value::Bool(true));
    check_fault(&rt, "u64,u64", &one, ValueFault::WrongColumns);
}

#[test]
fn the_first_column_at_fault_decides(rt: HostRuntime) {
    let tuple = triple_of(Value::Int(1), Value::Int(256), Value::Bool(true));
    check_fault(&rt, "u8,u8,u8", &tuple, ValueFault::OutOfRange(1));
    check_fault(&rt, "u8,u16,u8", &tuple, ValueFault::WrongType(2));
    check_fault(&rt, "bool,u8,u8", &tuple, ValueFault::WrongType(0));
}

#[test]
fn values_that_stand_in_no_column(rt: HostRuntime) {
    for number in [-1, 1 << 64] {
        let tuple = tuple_of(Value::Int(number));
        check_fault(&rt, "u64", &tuple, ValueFault::OutOfRange(0));
    }
    let low = tuple_of(Value::Int(-129));
    check_fault(&rt, "i8", &low, ValueFault::OutOfRange(0));
    check_fault(&rt, "text8", &low, ValueFault::WrongType(0));
    let nine = tuple_of(text_of(&rt, "aaaaaaaaa"));
    check_fault(&rt, "text8", &nine, ValueFault::TextTooLong(0));
    check_fault(&rt, "u8", &nine, ValueFault::WrongType(0));
    let four_bytes = tuple_of(text_of(&rt, "\u{1F600}"));
    check_fault(&rt, "text3", &four_bytes, ValueFault::TextTooLong(0));
}

#[test]
fn bytes_of_no_tuple(rt: HostRuntime) {
    assert!(rt; spells_nothing(&rt, "u64", &[0; 7]));
    assert!(rt; spells_nothing(&rt, "u64", &[0; 9]));
    assert!(rt; spells_nothing(&rt, "bool", &[2]));
    assert!(rt; spells_nothing(&rt, "bool", &[]));
    assert!(rt; spells_nothing(&rt, "text8", &[0x61]));
    assert!(rt; spells_nothing(&rt, "text8", &[0x61, 0]));
    assert!(rt; spells_nothing(&rt, "text8", &[0x61, 0, 1]));
    assert!(rt; spells_nothing(&rt, "text8", &[0xFF, 0, 0]));
    assert!(rt; spells_nothing(&rt, "text1", &[0x61, 0x61, 0, 0]));
    assert!(rt; spells_nothing(&rt, "u8-", &[]));
    assert!(rt; spells_nothing(&rt, "u8-", &[0, 0]));
    assert!(rt; spells_nothing(&rt, "bool-", &[1]));
    assert!(rt; spells_nothing(&rt, "text8-", &[0x9E, 0, 0]));
    assert!(rt; spells_nothing(&rt, "text8-", &[0x9E, 0xFF]));
    let long = [0x61; 40];
    assert!(rt; spells_nothing(&rt, "text24", &long));
}

#[test]
fn keys_stand_before_one_another_and_the_end(rt: HostRuntime) {
    let schema = schema_of(&rt, "u8");
    let one = encode(&schema, &tuple_of(Value::Int(1)));
    let two = encode(&schema, &tuple_of(Value::Int(2)));
    let one = Bound::At(one.ok().expect(&rt, "a key"));
    let two = Bound::At(two.ok().expect(&rt, "a key"));
    assert!(rt; one.before(&two));
    assert!(rt; !two.before(&one));
    assert!(rt; !one.before(&one));
    assert!(rt; two.before(&Bound::End));
    assert!(rt; !Bound::End.before(&two));
    assert!(rt; !Bound::End.before(&Bound::End));
}

#[test]
fn faults_in_words(rt: HostRuntime) -> Result<(), Fail> {
    let schema_fault = SchemaFault::BadColumn(0).to_string(rt.alloc())?;
    assert_eq!(rt; schema_fault.as_str(), "column 0 is of no known kind");
    let value_fault = ValueFault::OutOfRange(2).to_string(rt.alloc())?;
    assert_eq!(rt;
        value_fault.as_str(),
        "the number of column 2 is out of range"
    );
    Ok(())
}
