//! Loads of commands by threads.
ghost use Rattle.std.specs.Prelude.{◌≤◌, length};
ghost use Rattle.art_server.specs.ArtTable.Tables.{AreOf};

use crate::clients::opened;
use art_load::{Counts, LoadFault, load};
use art_server::art_table::{Config, Pass, Table, close};
use std::alloc::Global;
use std::process::Abort;
use std::sync::Wait;
use std::thread::Threads;

/// Room for all rows of a load of a hundred keys, by eight passes.
const EIGHT: Config = Config {
    leaves: 4096,
    n4: 512,
    n16: 512,
    n48: 512,
    n256: 512,
    passes: 8,
    counter_start: 0,
};

/// At most 32 passes.
fn check_few(rt: &impl Abort, passes: &Vec<Pass>)
    ensures { length passes.now.items ≤ 32 }
{
    assert!(rt; passes.len() <= 32);
}

/// Counts that add up.
fn check_counts(rt: &impl Abort, told: Result<Counts, LoadFault>, all: u64, left: u64) {
    let counts = told.ok().expect(rt, "a load");
    let written = counts
        .inserted
        .wrapping_add(counts.present)
        .wrapping_add(counts.removed);
    let others = counts
        .absent
        .wrapping_add(counts.found)
        .wrapping_add(counts.refused);
    assert_eq!(rt; written.wrapping_add(others), all);
    assert_eq!(rt; counts.inserted.wrapping_sub(counts.removed), left);
}

/// A load by all passes of a table, from no row on. The rows at the close are those inserted less those removed.
fn check_load<R: Threads + Wait + Abort + Sync>(
    rt: &R,
    alloc: Global,
    table: Table,
    passes: Vec<Pass>,
    ops: u32,
)
    requires { AreOf table passes.items }
{
    check_few(rt, &passes);
    let all = (passes.len() as u64).wrapping_mul(u64::from(ops));
    let (passes, told) = load(rt, alloc, &table, passes, ops, 1, 100);
    let closed = close(alloc, table, passes).ok().expect(rt, "a close");
    check_counts(rt, told, all, closed.rows.len() as u64);
}

/// A load of a new table, by eight threads.
fn load_eight<R: Threads + Wait + Abort + Sync>(rt: &R, alloc: Global, ops: u32) {
    let (table, passes) = opened(rt, alloc, "u64", EIGHT);
    check_load(rt, alloc, table, passes, ops);
}

#[test]
fn a_load_of_eight_threads_adds_up(rt: HostRuntime) {
    for ops in [0, 1, 10_000] {
        load_eight(&rt, rt.alloc(), ops);
    }
}
