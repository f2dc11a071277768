//! Lines as clients write them.
use art_key::ValueFault;
use art_lines::{LineFault, long_lines_are_alike, parse_line};
use art_model::{Command, Text, Tuple, Value};
use art_server::lines_are_read_back;
use std::alloc::Global;
use std::process::Abort;

/// The line gives this command.
fn check_command(rt: &impl Abort, alloc: Global, line: &[u8], command: Command) {
    assert_eq!(rt; parse_line(alloc, line), Ok(command));
}

/// The line gives no command, for this fault.
fn check_refused(rt: &impl Abort, alloc: Global, line: &[u8], fault: LineFault) {
    assert_eq!(rt; parse_line(alloc, line), Err(fault));
}

fn one(number: u64) -> Tuple {
    let mut tuple = Tuple::new();
    tuple.push(Value::Int(i128::from(number)));
    tuple
}

#[test]
fn reads_commands(rt: HostRuntime) {
    let most = "[\"insert\",[5],18446744073709551615]";
    for (line, command) in [
        ("[\"get\",[5]]", Command::Get(one(5))),
        ("\t[ \"get\" ,\t[ 5 ] ] \r", Command::Get(one(5))),
        ("[\"remove\",[5]]", Command::Remove(one(5))),
        (most, Command::Insert(one(5), u64::MAX)),
        ("[\"insert\",[],0]", Command::Insert(Tuple::new(), 0)),
        ("[\"scan\",[1],[2],3]", Command::Scan(one(1), one(2), 3)),
    ] {
        check_command(&rt, rt.alloc(), line.as_bytes(), command);
    }
}

#[test]
fn reads_values(rt: HostRuntime) {
    let mut tuple = Tuple::new();
    tuple.push(Value::Bool(true));
    tuple.push(Value::Bool(false));
    tuple.push(Value::Int(-9_223_372_036_854_775_808));
    tuple.push(Value::Int(18_446_744_073_709_551_615));
    let line = "[\"get\",[true,false,-9223372036854775808,18446744073709551615]]";
    check_command(&rt, rt.alloc(), line.as_bytes(), Command::Get(tuple));
}

fn text_tuple(rt: &impl Abort, text: &str) -> Tuple {
    let mut tuple = Tuple::new();
    tuple.push(Value::Text(Text::new(text).expect(rt, "a text")));
    tuple
}

#[test]
fn reads_texts_of_at_most_twenty_four_bytes(rt: HostRuntime) {
    for (line, text) in [
        ("[\"get\",[\"\"]]", ""),
        ("[\"get\",[\"\\u0000\"]]", "\0"),
        (
            "[\"get\",[\"abcdefghijklmnopqrstuvwx\"]]",
            "abcdefghijklmnopqrstuvwx",
        ),
        ("[\"get\",[\"😀😀😀😀😀\\ud83d\\ude00\"]]", "😀😀😀😀😀😀"),
    ] {
        let command = Command::Get(text_tuple(&rt, text));
        check_command(&rt, rt.alloc(), line.as_bytes(), command);
    }
}

#[test]
fn an_element_that_is_no_value_is_told(rt: HostRuntime) {
    for (line, fault) in [
        ("[\"get\",[1.0]]", ValueFault::WrongType(0)),
        ("[\"get\",[1e2]]", ValueFault::WrongType(0)),
        ("[\"get\",[-0.5]]", ValueFault::WrongType(0)),
        ("[\"get\",[-0]]", ValueFault::WrongType(0)),
        ("[\"get\",[18446744073709551616]]", ValueFault::WrongType(0)),
        ("[\"get\",[-9223372036854775809]]", ValueFault::WrongType(0)),
        ("[\"insert\",[null],1]", ValueFault::WrongType(0)),
        ("[\"remove\",[1,[2]]]", ValueFault::WrongType(1)),
        ("[\"get\",[1,true,{}]]", ValueFault::WrongType(2)),
        (
            "[\"get\",[1,null,\"abcdefghijklmnopqrstuvwxy\"]]",
            ValueFault::WrongType(1),
        ),
        (
            "[\"get\",[1,\"abcdefghijklmnopqrstuvwxy\",null]]",
            ValueFault::TextTooLong(1),
        ),
        ("[\"get\",[\"😀😀😀😀😀😀a\"]]", ValueFault::TextTooLong(0)),
        ("[\"get\",[1,2,3,4,5,6,7,8,9]]", ValueFault::WrongColumns),
        ("[\"get\",[null,2,3,4,5,6,7,8,9]]", ValueFault::WrongColumns),
        ("[\"get\",[1,2,3,4,5,6,7,null]]", ValueFault::WrongType(7)),
        (
            "[\"scan\",[1,null],[\"abcdefghijklmnopqrstuvwxy\"],5]",
            ValueFault::WrongType(1),
        ),
        (
            "[\"scan\",[1],[\"abcdefghijklmnopqrstuvwxy\"],5]",
            ValueFault::TextTooLong(0),
        ),
    ] {
        let fault = LineFault::Value(fault);
        check_refused(&rt, rt.alloc(), line.as_bytes(), fault);
    }
}

#[test]
fn refuses_other_shapes(rt: HostRuntime) {
    for line in [
        "[]",
        "\"get\"",
        "{\"get\":[5]}",
        "[1,[5]]",
        "[\"remove\"]",
        "[\"remove\",1]",
        "[\"get\",[5],1]",
        "[\"get\",{}]",
        "[\"Get\",[5]]",
        "[\"scan\"]",
        "[\"scan\",[0],[9]]",
        "[\"scan\",[0],[9],1,1]",
        "[\"scan\",0,[9],1]",
        "[\"scan\",[0],9,1]",
        "[\"scan\",[0],[9],[1]]",
        "[\"scan\",[0],[9],18446744073709551616]",
        "[\"scan\",[null],9,1]",
        "[\"scan\",[null],[9],-1]",
        "[\"insert\",[5]]",
        "[\"insert\",5,1]",
        "[\"insert\",[5],-1]",
        "[\"insert\",[5],1.0]",
        "[\"insert\",[5],18446744073709551616]",
        "[\"insert\",[null],-1]",
    ] {
        check_refused(&rt, rt.alloc(), line.as_bytes(), LineFault::BadCommand);
    }
}

#[test]
fn refuses_what_is_no_json_text(rt: HostRuntime) {
    let alloc = rt.alloc();
    for line in [
        "",
        "{",
        "[\"get\",[5]] x",
        "[\"get\",[5]]]",
        "[\"get\",[05]]",
        "[\"get\",[1e999]]",
        "[\"get\",[\"\\ud800\"]]",
    ] {
        check_refused(&rt, alloc, line.as_bytes(), LineFault::BadLine);
    }
    let no_text = b"[\"get\",[\"\xff\"]]";
    check_refused(&rt, alloc, no_text, LineFault::BadLine);
    check_refused(&rt, alloc, &[b'x'; 4096], LineFault::BadLine);
    check_refused(&rt, alloc, &[b'x'; 4097], LineFault::LineTooLong);
}

/// A text, so many arrays that are opened, and so many brackets that close.
fn nested(rt: &impl Abort, alloc: Global, text: &str, opened: usize, closed: usize) -> Vec<u8> {
    let mut line = Vec::new(alloc);
    let front = line.extend_from_slice(text.as_bytes());
    front.expect(rt, "room for a line");
    for _ in 0..opened {
        line.push(b'[').expect(rt, "room for a line");
    }
    for _ in 0..closed {
        line.push(b']').expect(rt, "room for a line");
    }
    line
}

/// A text, so many arrays that are opened, and so many brackets that close, are refused so.
fn check_nested(
    rt: &impl Abort,
    alloc: Global,
    text: &str,
    opened: usize,
    closed: usize,
    fault: LineFault,
) {
    let line = nested(rt, alloc, text, opened, closed);
    check_refused(rt, alloc, line.as_slice(), fault);
}

#[test]
fn arrays_nest_up_to_the_limit_of_the_reader(rt: HostRuntime) {
    let element = LineFault::Value(ValueFault::WrongType(0));
    for (text, opened, closed, fault) in [
        ("", 127, 127, LineFault::BadCommand),
        ("", 128, 128, LineFault::BadLine),
        ("[\"get\",", 126, 127, element),
    ] {
        check_nested(&rt, rt.alloc(), text, opened, closed, fault);
    }
}

#[test]
fn laws_can_be_called() {
    long_lines_are_alike();
    lines_are_read_back();
}
