//! Four threads, each with a pass of its own, insert rows, and all of them stand at the close.
ghost use Rattle.art_table.specs.Tables.{AreOf, IsPassOf};

use crate::tables::{closed, opened, puts, row_of};
use art_table::{Closed, Config, Fault, Inserted, Pass, Table};
use std::process::Abort;
use std::thread;
use std::thread::Threads;

/// Many words of free numbers in each pool, since four threads take numbers at once.
const MANY: Config = Config {
    leaves: 4096,
    n4: 1024,
    n16: 1024,
    n48: 1024,
    n256: 1024,
    passes: 4,
    counter_start: 0,
};

/// How many rows each thread inserts.
const ROWS: u64 = 250;

/// Tries to insert the row until a thread that lost its processor no longer holds a cell on the way.
fn puts_in_time(table: &Table, pass: &mut Pass, number: u64) -> Result<Inserted, Fault>
    requires { IsPassOf table.now pass.old }
    ensures { IsPassOf table.now pass.new }
{
    let mut told = puts(table, pass, number, number);
    for _ in 0..1_000_000 {
        if told != Err(Fault::Busy) {
            break;
        }
        told = puts(table, pass, number, number);
    }
    told
}

/// The row is new.
fn check_new(rt: &impl Abort, table: &Table, pass: &mut Pass, number: u64)
    requires { IsPassOf table.now pass.old }
    ensures { IsPassOf table.now pass.new }
{
    assert_eq!(rt; puts_in_time(table, pass, number), Ok(Inserted::New));
}

/// Inserts the rows of one thread, each of which is new.
fn inserts(rt: &impl Abort, table: &Table, mut pass: Pass) -> Pass
    requires { IsPassOf table.now pass }
    ensures { IsPassOf table.now result }
{
    let first = u64::from(pass.number()).wrapping_mul(ROWS);
    for row in 0..ROWS {
        check_new(rt, table, &mut pass, first.wrapping_add(row));
    }
    pass
}

/// Each pass inserts its rows, in a thread of its own.
fn all_insert<R: Threads + Abort + Sync>(rt: &R, table: &Table, passes: Vec<Pass>) -> Vec<Pass>
    requires { AreOf table.now passes.items }
    ensures { AreOf table.now result.items }
{
    let passes = thread::map_vec(
        rt,
        passes,
        &|pass: Pass| -> Pass
            requires { IsPassOf table.now pass }
            ensures { IsPassOf table.entry.now result }
        { inserts(rt, table, pass) },
    );
    passes.expect(rt, "room for the passes")
}

/// The rows of all threads stood at the close.
fn check_all(rt: &impl Abort, end: &Closed) {
    assert_eq!(rt; end.rows.len(), 1000);
    for (number, row) in (0..1000).zip(end.rows.iter()) {
        assert_eq!(rt; row, &row_of(number, number));
    }
    assert_eq!(rt; end.leaves.linked, 1000);
}

#[test]
fn four_threads_insert_two_hundred_and_fifty_rows_each(rt: HostRuntime) {
    let (table, passes) = opened(&rt, rt.alloc(), "u16", MANY);
    let passes = all_insert(&rt, &table, passes);
    let end = closed(&rt, rt.alloc(), table, passes);
    check_all(&rt, &end);
}
