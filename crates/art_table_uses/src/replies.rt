//! What a map of rows replies where the table answers, and calls that answer as it does.
ghost use Rattle.art_table.specs.Tables.{IsPassOf};

use crate::tables::TURNS;
use art_model::{Command, Reply, SortedRows, Tuple};
use art_table::{Fault, Inserted, Pass, Table, get, insert, remove};
use std::process::Abort;

/// What the map replies where an insert answered so.
pub(crate) fn reply_of_insert(told: Inserted) -> Reply {
    match told {
        Inserted::New => Reply::Inserted,
        Inserted::Present(value) => Reply::Present(value),
    }
}

/// What the map replies where a removal answered so.
pub(crate) fn reply_of_remove(told: Option<u64>) -> Reply {
    match told {
        Some(value) => Reply::Removed(value),
        None => Reply::Absent,
    }
}

/// What the map replies where a get answered so.
pub(crate) fn reply_of_get(told: Option<u64>) -> Reply {
    match told {
        Some(value) => Reply::Found(value),
        None => Reply::Absent,
    }
}

/// What the map replies to the command, of which no scan lists more rows than one may.
pub(crate) fn reply(rt: &impl Abort, rows: &mut SortedRows, command: &Command) -> Reply {
    if let Command::Scan(_, _, limit) = command {
        assert!(rt; *limit <= 100);
    }
    rows.apply(command).expect(rt, "memory")
}

/// The map replies so to the command.
pub(crate) fn check_reply(
    rt: &impl Abort,
    rows: &mut SortedRows,
    command: &Command,
    wanted: Reply,
) {
    assert_eq!(rt; reply(rt, rows, command), wanted);
}

/// An insert that is refused finds no number, and is one of a row that is not there: whether it was refused.
fn check_insert(
    rt: &impl Abort,
    rows: &mut SortedRows,
    tuple: Tuple,
    value: u64,
    told: Result<Inserted, Fault>,
) -> bool {
    match told {
        Ok(told) => {
            let wanted = reply_of_insert(told);
            check_reply(rt, rows, &Command::Insert(tuple, value), wanted);
            false
        }
        Err(fault) => {
            assert!(rt; matches!(fault, Fault::Full(_)));
            check_reply(rt, rows, &Command::Get(tuple), Reply::Absent);
            true
        }
    }
}

/// An insert answers as the map does, or is refused: whether it was.
pub(crate) fn inserts(
    rt: &impl Abort,
    table: &Table,
    pass: &mut Pass,
    rows: &mut SortedRows,
    tuple: Tuple,
    value: u64,
) -> bool
    requires { IsPassOf table.now pass.old }
    ensures { IsPassOf table.now pass.new }
{
    let told = insert(table, pass, &tuple, value, TURNS);
    check_insert(rt, rows, tuple, value, told)
}

/// A removal is never refused for want of a number.
pub(crate) fn removes(
    rt: &impl Abort,
    table: &Table,
    pass: &mut Pass,
    rows: &mut SortedRows,
    tuple: Tuple,
)
    requires { IsPassOf table.now pass.old }
    ensures { IsPassOf table.now pass.new }
{
    let told = remove(table, pass, &tuple, TURNS).expect(rt, "an answer");
    check_reply(rt, rows, &Command::Remove(tuple), reply_of_remove(told));
}

/// A get finds what the map has.
pub(crate) fn gets(
    rt: &impl Abort,
    table: &Table,
    pass: &mut Pass,
    rows: &mut SortedRows,
    tuple: Tuple,
)
    requires { IsPassOf table.now pass.old }
    ensures { IsPassOf table.now pass.new }
{
    let told = get(table, pass, &tuple, TURNS).expect(rt, "an answer");
    check_reply(rt, rows, &Command::Get(tuple), reply_of_get(told));
}
