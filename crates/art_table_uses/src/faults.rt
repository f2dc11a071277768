//! The refusals that faults are, and the words that people read.
use art_cell::{Cell, Layout, Node, Pool};
use art_epoch::Blocker;
use art_key::ValueFault;
use art_refusal::Refusal;
use art_scan::ScanFault;
use art_table::{CloseRefusal, Fault, OpenFault};
use std::alloc::Global;
use std::fmt::Display;
use std::process::Abort;

/// The refusal is this one.
fn check_refusal(rt: &impl Abort, refusal: Refusal, expected: Refusal) {
    assert_eq!(rt; refusal, expected);
}

#[test]
fn faults_have_refusals(rt: HostRuntime) {
    let of_table = Fault::Value(ValueFault::OutOfRange(0));
    let of_scan = ScanFault::Value(ValueFault::WrongType(1));
    let of_limbo = Fault::Crowded(Blocker { pass: 1, epoch: 2 });
    let of_cell = Fault::Exhausted(Cell::Anchor);
    let of_close = CloseRefusal::PassesMissing;
    for (refusal, expected) in [
        (Refusal::from(of_table), Refusal::OutOfRange),
        (Refusal::from(Fault::Busy), Refusal::Busy),
        (Refusal::from(Fault::Full(Pool::N4)), Refusal::Full),
        (Refusal::from(of_limbo), Refusal::Crowded),
        (Refusal::from(of_cell), Refusal::Exhausted),
        (Refusal::from(of_scan), Refusal::WrongType),
        (Refusal::from(ScanFault::BadRange), Refusal::BadRange),
        (Refusal::from(ScanFault::BadLimit), Refusal::BadLimit),
        (Refusal::from(ScanFault::Busy), Refusal::Busy),
        (Refusal::from(OpenFault::BadConfig), Refusal::BadConfig),
        (Refusal::from(of_close), Refusal::PassesMissing),
    ] {
        check_refusal(&rt, refusal, expected);
    }
}

/// It is told in these words.
fn check_told<T: Display>(rt: &impl Abort, alloc: Global, told: &T, expected: &str) {
    let text = format!(in alloc; "{}", told).expect(rt, "room for a text");
    assert!(rt; text.as_str() == expected);
}

#[test]
fn faults_are_told_in_words(rt: HostRuntime) {
    let alloc = rt.alloc();
    let wrong = Fault::Value(ValueFault::WrongType(2));
    let blocked = Fault::Crowded(Blocker { pass: 3, epoch: 9 });
    for (fault, expected) in [
        (wrong, "the value of column 2 is of another kind"),
        (Fault::Busy, "all turns are used up"),
        (blocked, "pass 3 blocks the limbo of this pass"),
    ] {
        check_told(&rt, alloc, &fault, expected);
    }
    let limit = ScanFault::BadLimit;
    check_told(&rt, alloc, &limit, "the limit is not 1 to 100");
    let missing = CloseRefusal::PassesMissing;
    check_told(&rt, alloc, &missing, "a pass of the table is missing");
}

#[test]
fn pools_and_cells_are_told_in_words(rt: HostRuntime) {
    let alloc = rt.alloc();
    let leaves = "the pool of leaves has no free number";
    let nodes = "the pool of nodes of 48 places has no free number";
    let anchor = "the counter of the anchor is at its end";
    let leaf = "the counter of leaf 5 is at its end";
    let node = "the counter of node 7 of 16 places is at its end";
    let (layout, number) = (Layout::Node16, 7);
    let worn = Cell::Node(Node { layout, number });
    for (fault, expected) in [
        (Fault::Full(Pool::Leaves), leaves),
        (Fault::Full(Pool::N48), nodes),
        (Fault::Exhausted(Cell::Anchor), anchor),
        (Fault::Exhausted(Cell::Leaf(5)), leaf),
        (Fault::Exhausted(worn), node),
    ] {
        check_told(&rt, alloc, &fault, expected);
    }
}
