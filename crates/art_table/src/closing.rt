//! Closing a table: its rows, and what became of its numbers.
ghost use Rattle.std.specs.Prelude.{◌≡◌, ◌↔◌, ◌<◌, ◌≤◌, [], ℕ, IfErr, IfOk, IsTrue, OnOk, Some, length, vec_capacity};
ghost use Rattle.std.specs.List.{slice_get};
ghost use Rattle.art_cell.specs.declared.cells.Pool.{Pool as PoolOf};
ghost use Rattle.art_table.specs.Closing.{AreAllPasses, Explains, IsClosed, IsHere, limbos_of, seats_of, waits};
ghost use Rattle.art_table.specs.Tables.{AreOf, number_of, sizes_in};
ghost use Rattle.art_closed.specs.Counts.{waiting_in_all};

use crate::{Pass, Table};
use art_cell::Pool;
use art_closed::{PoolCount, count, list_rows, waiting_in};
use art_model::Row;
use art_refusal::Refusal;
use std::alloc::Global;
use std::error::Error;
use std::fmt;

/// What a table held: its rows in order, and the counts of each pool.
#[derive(Debug, PartialEq, Drop)]
pub struct Closed {
    pub rows: Vec<Row>,
    pub leaves: PoolCount,
    pub n4: PoolCount,
    pub n16: PoolCount,
    pub n48: PoolCount,
    pub n256: PoolCount,
}

/// Why a table was not closed.
#[derive(Clone, Copy, Debug, PartialEq, Eq)]
pub enum CloseRefusal {
    /// A pass of the table is missing.
    PassesMissing,
    /// An allocation was refused.
    NoMemory,
}

impl fmt::Display for CloseRefusal {
    fn fmt<W: fmt::Write>(&self, f: &mut fmt::Formatter<W>) -> fmt::Result {
        match self {
            CloseRefusal::PassesMissing => f.write_str("a pass of the table is missing"),
            CloseRefusal::NoMemory => f.write_str("no memory for the rows of the table"),
        }
    }
}

impl Error for CloseRefusal {}

impl From<CloseRefusal> for Refusal {
    ghost use Rattle.std.specs.Prelude.{◌≡◌};
    ghost use Rattle.art_table.specs.Refusals.{close_refusal};

    ghost from_gives = { λ fault refusal. refusal ≡ close_refusal fault };

    fn from(fault: CloseRefusal) -> Refusal {
        match fault {
            CloseRefusal::PassesMissing => Refusal::PassesMissing,
            CloseRefusal::NoMemory => Refusal::NoMemory,
        }
    }
}

/// A table that was not closed: it and the passes come back as they were.
#[derive(Drop)]
pub struct CloseFault {
    pub table: Table,
    pub passes: Vec<Pass>,
    pub why: CloseRefusal,
}

/// Tells why alone: the table and the passes have more words than anyone reads.
impl fmt::Debug for CloseFault {
    fn fmt<W: fmt::Write>(&self, f: &mut fmt::Formatter<W>) -> fmt::Result {
        f.debug_struct("CloseFault")
            .field("why", &self.why)
            .finish_non_exhaustive()
    }
}

impl fmt::Display for CloseFault {
    fn fmt<W: fmt::Write>(&self, f: &mut fmt::Formatter<W>) -> fmt::Result {
        write!(f, "{}", self.why)
    }
}

impl Error for CloseFault {}

/// Ends the table, for whoever has all of its passes.
pub fn close(alloc: Global, table: Table, passes: Vec<Pass>) -> Result<Closed, CloseFault>
    requires { AreOf table passes.items }
    ensures closed { IfOk result (IsClosed table passes.items) }
    ensures whole { OnOk result (AreAllPasses (sizes_in table).passes passes.items) }
    ensures why { IfErr result (λ fault. Explains table passes.items fault.why) }
    ensures back { IfErr result (λ fault. (fault.table ≡ table) × (fault.passes.items ≡ passes.items)) }
{
    let sizes = table.shared.sizes();
    if !are_all(&passes, sizes.passes) {
        let why = CloseRefusal::PassesMissing;
        return Err(CloseFault { table, passes, why });
    }
    let why = CloseRefusal::NoMemory;
    let Ok(rows) = Vec::with_capacity(alloc, sizes.leaves as usize) else {
        return Err(CloseFault { table, passes, why });
    };
    let Ok(seats) = Vec::with_capacity(alloc, passes.len()) else {
        return Err(CloseFault { table, passes, why });
    };
    Ok(ended(table, passes, rows, seats))
}

/// What the table held, for which there is room.
fn ended(table: Table, passes: Vec<Pass>, rows: Vec<Row>, seats: Vec<art_shared::Pass>) -> Closed
    requires of { AreOf table passes.items }
    requires all { AreAllPasses (sizes_in table).passes passes.items }
    requires empty { (rows.items ≡ []) × (seats.items ≡ []) }
    requires rows { (sizes_in table).leaves ≤ vec_capacity rows }
    requires seats { length passes.items ≤ vec_capacity seats }
    ensures { IsClosed table passes.items result }
{
    let waiting = Waiting::of(&passes);
    let mut rows = rows;
    let words = table.shared.close(seats_of(passes, seats));
    list_rows(&words, &mut rows);
    Closed {
        rows,
        leaves: count(&words, Pool::Leaves, waiting.leaves),
        n4: count(&words, Pool::N4, waiting.n4),
        n16: count(&words, Pool::N16, waiting.n16),
        n48: count(&words, Pool::N48, waiting.n48),
        n256: count(&words, Pool::N256, waiting.n256),
    }
}

/// The passes as the table below has them, for which there is room.
fn seats_of(passes: Vec<Pass>, seats: Vec<art_shared::Pass>) -> Vec<art_shared::Pass>
    requires empty { seats.items ≡ [] }
    requires room { length passes.items ≤ vec_capacity seats }
    ensures { result.items ≡ seats_of passes.items }
{
    let mut seats = seats;
    for pass in passes {
        let Pass { seat, caller: _ } = pass;
        seats.push_reserved(seat);
    }
    seats
}

/// How many numbers of each pool wait in limbos.
#[derive(Clone, Copy)]
struct Waiting {
    leaves: u32,
    n4: u32,
    n16: u32,
    n48: u32,
    n256: u32,
}

impl Waiting {
    /// In those of these passes.
    fn of(passes: &[Pass]) -> Waiting
        requires { length passes.now ≤ 32 }
        ensures leaves { result.leaves ≡ waits PoolOf.Leaves passes.now }
        ensures n4 { result.n4 ≡ waits PoolOf.N4 passes.now }
        ensures n16 { result.n16 ≡ waits PoolOf.N16 passes.now }
        ensures n48 { result.n48 ≡ waits PoolOf.N48 passes.now }
        ensures n256 { result.n256 ≡ waits PoolOf.N256 passes.now }
    {
        Waiting {
            leaves: waiting_of(passes, Pool::Leaves),
            n4: waiting_of(passes, Pool::N4),
            n16: waiting_of(passes, Pool::N16),
            n48: waiting_of(passes, Pool::N48),
            n256: waiting_of(passes, Pool::N256),
        }
    }
}

/// How many numbers of the pool wait in the limbos of the passes.
fn waiting_of(passes: &[Pass], pool: Pool) -> u32
    requires { length passes.now ≤ 32 }
    ensures { result ≡ waits pool passes.now }
{
    let mut waiting = 0;
    for pass in passes {
        let limbo = pass.caller.limbo();
        prove!(limbo.room() <= 64);
        waiting += waiting_in(limbo, pool);
    }
    waiting
}

/// Whether these are as many passes as the table has, and each number is that of one.
fn are_all(passes: &[Pass], count: u32) -> bool
    ensures { IsTrue result ↔ AreAllPasses count passes.now }
{
    if passes.len() != count as usize {
        return false;
    }
    for number in 0..count {
        if !is_here(passes, number) {
            return false;
        }
    }
    true
}

fn is_here(passes: &[Pass], number: u32) -> bool
    ensures { IsTrue result ↔ IsHere number passes.now }
{
    for pass in passes {
        if pass.number() == number {
            return true;
        }
    }
    false
}
