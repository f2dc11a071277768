//! Histories of typed rows: which are legal.
use crate::tuples::tuple_of;
use arrayvec::ArrayVec;
use art_key::{Bound, Deed, Event, Key, Schema, encode, legal};
use art_model::{Command, NoMemory, Reply, Row, Tuple};
use std::alloc::Global;
use std::process::Abort;
use std::test::Fail;

fn schema(rt: &impl Abort) -> Schema {
    Schema::parse("u64").expect(rt, "a schema")
}

/// The bound at the key of the number.
fn at(rt: &impl Abort, number: i128) -> Bound {
    let key = encode(&schema(rt), &tuple_of(number));
    Bound::At(key.expect(rt, "a key"))
}

fn done(command: Command, reply: Reply) -> Event {
    Event {
        pass: 0,
        what: Deed::Done(command, reply),
    }
}

/// The row of the number was inserted, with the value 7.
fn inserted(number: i128) -> Event {
    done(Command::Insert(tuple_of(number), 7), Reply::Inserted)
}

fn looked(lo: Bound, hi: Bound, found: Option<Row>) -> Event {
    Event {
        pass: 1,
        what: Deed::Look(lo, hi, found),
    }
}

fn row_of(number: i128, value: u64) -> Option<Row> {
    let tuple = tuple_of(number);
    Some(Row { tuple, value })
}

fn is_legal(rt: &impl Abort, alloc: Global, events: &[Event]) -> Result<bool, NoMemory> {
    legal(alloc, &schema(rt), events)
}

/// Whether the look is right where the rows of 1 and 3 stand.
fn is_right(rt: &impl Abort, alloc: Global, look: Event) -> Result<bool, NoMemory> {
    is_legal(rt, alloc, &[inserted(1), inserted(3), look])
}

#[test]
fn no_event_is_legal(rt: HostRuntime) -> Result<(), Fail> {
    assert!(rt; is_legal(&rt, rt.alloc(), &[])?);
    Ok(())
}

#[test]
fn an_inserted_row_is_found(rt: HostRuntime) -> Result<(), Fail> {
    for (reply, wanted) in [
        (Reply::Found(7), true),
        (Reply::Found(8), false),
        (Reply::Present(7), false),
        (Reply::Absent, false),
    ] {
        let got = done(Command::Get(tuple_of(1)), reply);
        assert_eq!(rt; is_legal(&rt, rt.alloc(), &[inserted(1), got])?, wanted);
    }
    Ok(())
}

#[test]
fn a_row_that_stands_keeps_its_value(rt: HostRuntime) -> Result<(), Fail> {
    let again = done(Command::Insert(tuple_of(1), 9), Reply::Present(7));
    let got = done(Command::Get(tuple_of(1)), Reply::Found(7));
    assert!(rt; is_legal(&rt, rt.alloc(), &[inserted(1), again, got])?);
    assert!(rt; !is_legal(&rt, rt.alloc(), &[inserted(1), inserted(1)])?);
    Ok(())
}

#[test]
fn what_is_absent_is_not_removed(rt: HostRuntime) -> Result<(), Fail> {
    for (reply, wanted) in [(Reply::Absent, true), (Reply::Removed(7), false)] {
        let removed = done(Command::Remove(tuple_of(1)), reply);
        assert_eq!(rt; is_legal(&rt, rt.alloc(), &[removed])?, wanted);
    }
    Ok(())
}

#[test]
fn what_was_removed_is_absent(rt: HostRuntime) -> Result<(), Fail> {
    let removed = done(Command::Remove(tuple_of(1)), Reply::Removed(7));
    let none = looked(at(&rt, 0), Bound::End, None);
    assert!(rt; is_legal(&rt, rt.alloc(), &[inserted(1), removed, none, inserted(1)])?);
    Ok(())
}

fn check_look(
    rt: &impl Abort,
    alloc: Global,
    lo: Bound,
    hi: Bound,
    found: Option<Row>,
    wanted: bool,
) {
    let right = is_right(rt, alloc, looked(lo, hi, found)).expect(rt, "room for the rows");
    assert_eq!(rt; right, wanted);
}

#[test]
fn a_look_finds_the_one_row_of_its_range(rt: HostRuntime) {
    let alloc = rt.alloc();
    check_look(&rt, alloc, at(&rt, 0), at(&rt, 2), row_of(1, 7), true);
    check_look(&rt, alloc, at(&rt, 1), at(&rt, 3), row_of(1, 7), true);
    check_look(&rt, alloc, at(&rt, 2), Bound::End, row_of(3, 7), true);
    check_look(&rt, alloc, at(&rt, 2), at(&rt, 3), None, true);
    check_look(&rt, alloc, Bound::End, Bound::End, None, true);
    check_look(&rt, alloc, at(&rt, 4), at(&rt, 1), None, true);
}

#[test]
fn a_look_finds_no_other_rows(rt: HostRuntime) {
    let alloc = rt.alloc();
    check_look(&rt, alloc, at(&rt, 0), at(&rt, 2), None, false);
    check_look(&rt, alloc, at(&rt, 0), at(&rt, 1), row_of(1, 7), false);
    check_look(&rt, alloc, at(&rt, 2), at(&rt, 3), row_of(1, 7), false);
    check_look(&rt, alloc, at(&rt, 0), at(&rt, 2), row_of(1, 8), false);
    check_look(&rt, alloc, at(&rt, 0), at(&rt, 2), row_of(0, 7), false);
    check_look(&rt, alloc, at(&rt, 0), Bound::End, row_of(1, 7), false);
    check_look(&rt, alloc, at(&rt, 4), Bound::End, row_of(-1, 7), false);
}

/// A bound need not be the key of a tuple.
#[test]
fn a_look_ends_between_keys(rt: HostRuntime) -> Result<(), Fail> {
    let mut between = Key::new();
    for byte in [0, 0, 0, 0, 0, 0, 0, 1, 0] {
        assert!(rt; !between.is_full());
        between.push(byte);
    }
    let up_to = looked(
        Bound::At(Key::new()),
        Bound::At(between.clone()?),
        row_of(1, 7),
    );
    assert!(rt; is_right(&rt, rt.alloc(), up_to)?);
    let from = looked(Bound::At(between), Bound::End, row_of(3, 7));
    assert!(rt; is_right(&rt, rt.alloc(), from)?);
    Ok(())
}

#[test]
fn a_scan_is_not_legal(rt: HostRuntime) -> Result<(), Fail> {
    let scan = Command::Scan(tuple_of(0), tuple_of(9), 5);
    let scanned = done(scan, Reply::Rows(ArrayVec::new(), false));
    assert!(rt; !is_legal(&rt, rt.alloc(), &[scanned])?);
    Ok(())
}

#[test]
fn a_tuple_with_a_fault_is_not_legal(rt: HostRuntime) -> Result<(), Fail> {
    assert!(rt; !is_legal(&rt, rt.alloc(), &[inserted(-1)])?);
    for command in [Command::Get(tuple_of(-1)), Command::Remove(Tuple::new())] {
        let event = done(command, Reply::Absent);
        assert!(rt; !is_legal(&rt, rt.alloc(), &[event])?);
    }
    Ok(())
}
