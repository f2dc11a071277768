//! The texts that clients see.
ghost use Rattle.art_server.specs.Replies.{IsPrintable, IsPrintableRow};

use arrayvec::ArrayVec;
use art_key::{SchemaFault, ValueFault};
use art_lines::LineFault;
use art_model::{Reply, Row, Text, Tuple, Value};
use art_server::{Refusal, print_reply};
use std::alloc::Global;
use std::fmt::Display;
use std::process::Abort;

/// The reply is printed so.
fn check_text(rt: &impl Abort, alloc: Global, reply: Result<Reply, Refusal>, expected: &str)
    requires { IsPrintable reply }
{
    let text = print_reply(alloc, &reply).expect(rt, "room for a reply");
    assert!(rt; text.as_slice() == expected.as_bytes());
}

#[test]
fn prints_short_replies(rt: HostRuntime) {
    let alloc = rt.alloc();
    check_text(&rt, alloc, Ok(Reply::Inserted), "[\"inserted\"]\n");
    check_text(&rt, alloc, Ok(Reply::Present(7)), "[\"present\",7]\n");
    check_text(&rt, alloc, Ok(Reply::Removed(0)), "[\"removed\",0]\n");
    check_text(&rt, alloc, Ok(Reply::Absent), "[\"absent\"]\n");
    let most = "[\"found\",18446744073709551615]\n";
    check_text(&rt, alloc, Ok(Reply::Found(u64::MAX)), most);
    let refused = "[\"refused\",3,\"BadCommand\"]\n";
    check_text(&rt, alloc, Err(Refusal::BadCommand), refused);
}

fn row_of(first: bool, second: i8, value: u64) -> Row
    ensures { IsPrintableRow result }
{
    let mut tuple = Tuple::new();
    tuple.push(Value::Bool(first));
    tuple.push(Value::Int(i128::from(second)));
    Row { tuple, value }
}

fn numbered(number: u64, value: u64) -> Row
    ensures { IsPrintableRow result }
{
    let mut tuple = Tuple::new();
    tuple.push(Value::Int(i128::from(number)));
    Row { tuple, value }
}

#[test]
fn prints_rows(rt: HostRuntime) {
    let alloc = rt.alloc();
    let mut rows = ArrayVec::new();
    rows.push(row_of(false, 127, 2));
    rows.push(row_of(true, -128, 1));
    let pairs = "[\"rows\",[[[false,127],2],[[true,-128],1]],false]\n";
    check_text(&rt, alloc, Ok(Reply::Rows(rows, false)), pairs);
    let mut rows = ArrayVec::new();
    rows.push(numbered(1, 1));
    rows.push(numbered(2, 2));
    let more = "[\"rows\",[[[1],1],[[2],2]],true]\n";
    check_text(&rt, alloc, Ok(Reply::Rows(rows, true)), more);
    let none = Ok(Reply::Rows(ArrayVec::new(), false));
    check_text(&rt, alloc, none, "[\"rows\",[],false]\n");
}

#[test]
fn prints_texts(rt: HostRuntime) {
    let mut tuple = Tuple::new();
    if let Some(text) = Text::new("a\"b") {
        tuple.push(Value::Text(text));
    }
    let mut rows = ArrayVec::new();
    rows.push(Row { tuple, value: 4 });
    let wanted = "[\"rows\",[[[\"a\\\"b\"],4]],false]\n";
    check_text(&rt, rt.alloc(), Ok(Reply::Rows(rows, false)), wanted);
}

/// The refusal has this number and this name.
fn check_name(rt: &impl Abort, refusal: Refusal, number: u8, name: &str) {
    assert_eq!(rt; refusal.number(), number);
    assert!(rt; refusal.name() == name);
}

/// It is shown so.
fn check_shown<T: Display>(rt: &impl Abort, alloc: Global, told: &T, expected: &str) {
    let text = format!(in alloc; "{}", told).expect(rt, "room for a text");
    assert!(rt; text.as_str() == expected);
}

#[test]
fn names_refusals(rt: HostRuntime) {
    check_name(&rt, Refusal::PassesMissing, 25, "PassesMissing");
    let alloc = rt.alloc();
    check_shown(&rt, alloc, &Refusal::BadConfig, "refused 24 BadConfig");
    check_shown(&rt, alloc, &LineFault::LineTooLong, "line too long");
    let wrong = LineFault::Value(ValueFault::WrongColumns);
    let expected = "the tuple has not one value for each column";
    check_shown(&rt, alloc, &wrong, expected);
}

/// The refusal is this one.
fn check_refusal(rt: &impl Abort, refusal: Refusal, expected: Refusal) {
    assert_eq!(rt; refusal, expected);
}

#[test]
fn faults_have_refusals(rt: HostRuntime) {
    let of_line = LineFault::from(ValueFault::WrongColumns);
    for (refusal, expected) in [
        (Refusal::from(LineFault::NoMemory), Refusal::NoMemory),
        (Refusal::from(of_line), Refusal::WrongColumns),
        (
            Refusal::from(ValueFault::TextTooLong(3)),
            Refusal::TextTooLong,
        ),
        (Refusal::from(SchemaFault::BadColumn(2)), Refusal::BadColumn),
    ] {
        check_refusal(&rt, refusal, expected);
    }
}
