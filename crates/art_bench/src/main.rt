//! Makes typed calls over a table of rows, for whoever counts or times them: `art_bench CASE GROUPS CHILDREN CALLS THREADS`.
//!
//! The rows are those of GROUPS nodes with CHILDREN children each, under the schema `u64`: the first two bytes of a key are the group,
//! and the third is the child, so that a row stands below three nodes with no prefixes. The rows come in first; then so many calls are
//! made, call n by the thread n % THREADS.
//!
//! | CASE | call n |
//! |---|---|
//! | `gets` | a get of a row that is drawn |
//! | `adds` | an insert of one more child of group n |
//! | `removes` | a removal of the last child of group n |
//! | `renews` | a removal of a row that is drawn, or an insert of it again, in turn |
//! | `scans` | a scan of up to a hundred rows, from the first of group n on |
//!
//! It prints how many calls had the answer that they should, and how many were refused, by why; and on the standard error how long
//! they took. A row that is refused while the rows come in, since the limbo of its pass is crowded, is tried again. docs/PERFORMANCE.md
//! says how instructions are counted with it.
#![tactic(auto)]

ghost use Rattle.std.specs.Prelude.{IfOk};
ghost use Rattle.art_table.specs.Tables.{AreOf, IsPassOf};

use arrayvec::ArrayVec;
use art_key::Schema;
use art_model::{Row, Tuple, Value};
use art_scan::{ScanFault, scan};
use art_table::{Config, Fault, Inserted, Pass, Table, get, insert, open, remove};
use std::alloc::AllocError;
use std::process::ExitCode;
use std::sync::atomic::{AtomicU64, Ordering};
use std::thread::Threads;
use std::time::Instant;
use std::{env, io, thread};

/// The most turns of a call.
const TURNS: u32 = 1_000_000;

/// How often a row that finds the limbo crowded is tried again while the rows come in.
const TRIES: u32 = 100_000;

/// Which calls are made.
#[derive(Clone, Copy)]
enum Case {
    Gets,
    Adds,
    Removes,
    Renews,
    Scans,
}

/// What is measured.
#[derive(Clone, Copy)]
struct Plan {
    case: Case,
    groups: u64,
    children: u64,
    calls: u64,
    threads: u64,
}

impl Case {
    fn named(word: &str) -> Option<Case> {
        match word {
            "gets" => Some(Case::Gets),
            "adds" => Some(Case::Adds),
            "removes" => Some(Case::Removes),
            "renews" => Some(Case::Renews),
            "scans" => Some(Case::Scans),
            _ => None,
        }
    }
}

impl Plan {
    fn of(words: &[&str]) -> Option<Plan> {
        let [_, case, groups, children, calls, threads] = words else {
            return None;
        };
        Some(Plan {
            case: Case::named(case)?,
            groups: number_in(groups)?.max(1),
            children: number_in(children)?.max(1),
            calls: number_in(calls)?,
            threads: number_in(threads)?.clamp(1, 32),
        })
    }

    /// The key of a row: other numbers give other rows, scattered, until all were given.
    fn drawn(self, number: u64) -> u64 {
        let rows = self.groups.saturating_mul(self.children);
        let index = modulo(number.wrapping_mul(480_007), rows);
        key_of(
            modulo(index, self.groups),
            index.checked_div(self.groups).unwrap_or(0),
        )
    }
}

fn number_in(word: &str) -> Option<u64> {
    word.parse::<u64>().ok()
}

/// The rest of a division, and 0 where it is by 0.
fn modulo(number: u64, of: u64) -> u64 {
    number.checked_rem(of).unwrap_or(0)
}

fn key_of(group: u64, child: u64) -> u64 {
    (group.wrapping_mul(256).wrapping_add(child) % (1 << 24)) << 40
}

fn tuple_of(key: u64) -> Tuple {
    let mut tuple = Tuple::new();
    tuple.push(Value::Int(i128::from(key)));
    tuple
}

/// What is kept from call to call, as whoever makes many calls would keep it.
#[derive(Drop)]
struct Kept {
    tuple: Tuple,
    rows: ArrayVec<Row, 100>,
}

impl Kept {
    fn new() -> Kept {
        Kept {
            tuple: tuple_of(0),
            rows: ArrayVec::new(),
        }
    }

    /// The tuple of the key, where the one before stood.
    fn tuple_of(&mut self, key: u64) -> &Tuple {
        if let Some(value) = self.tuple.first_mut() {
            *value = Value::Int(i128::from(key));
        }
        &self.tuple
    }
}

/// How many calls ended how.
#[derive(Clone, Copy)]
struct Counts {
    /// With the answer that they should have.
    right: u64,
    /// With another.
    other: u64,
    busy: u64,
    full: u64,
    crowded: u64,
    exhausted: u64,
}

impl Counts {
    fn new() -> Counts {
        Counts {
            right: 0,
            other: 0,
            busy: 0,
            full: 0,
            crowded: 0,
            exhausted: 0,
        }
    }

    /// One more call ended, with the answer that it should have or with another, or refused.
    fn add(&mut self, outcome: Result<bool, Fault>) {
        let count = match outcome {
            Ok(true) => &mut self.right,
            Ok(false) | Err(Fault::Value(_)) => &mut self.other,
            Err(Fault::Busy) => &mut self.busy,
            Err(Fault::Full(_)) => &mut self.full,
            Err(Fault::Crowded(_)) => &mut self.crowded,
            Err(Fault::Exhausted(_)) => &mut self.exhausted,
        };
        *count = count.wrapping_add(1);
    }
}

/// What the passes counted, added up.
#[derive(Drop)]
struct Totals {
    right: AtomicU64,
    other: AtomicU64,
    busy: AtomicU64,
    full: AtomicU64,
    crowded: AtomicU64,
    exhausted: AtomicU64,
}

impl Totals {
    fn new() -> Totals {
        Totals {
            right: AtomicU64::new(0),
            other: AtomicU64::new(0),
            busy: AtomicU64::new(0),
            full: AtomicU64::new(0),
            crowded: AtomicU64::new(0),
            exhausted: AtomicU64::new(0),
        }
    }

    fn add(&self, counts: Counts) {
        self.right.fetch_add(counts.right, Ordering::SeqCst);
        self.other.fetch_add(counts.other, Ordering::SeqCst);
        self.busy.fetch_add(counts.busy, Ordering::SeqCst);
        self.full.fetch_add(counts.full, Ordering::SeqCst);
        self.crowded.fetch_add(counts.crowded, Ordering::SeqCst);
        self.exhausted.fetch_add(counts.exhausted, Ordering::SeqCst);
    }

    /// What they counted; from now on they count from 0.
    fn taken(&self) -> Counts {
        Counts {
            right: self.right.swap(0, Ordering::SeqCst),
            other: self.other.swap(0, Ordering::SeqCst),
            busy: self.busy.swap(0, Ordering::SeqCst),
            full: self.full.swap(0, Ordering::SeqCst),
            crowded: self.crowded.swap(0, Ordering::SeqCst),
            exhausted: self.exhausted.swap(0, Ordering::SeqCst),
        }
    }
}

/// The rows of the pass come in: of each group those whose turn is the pass's.
fn filled(table: &Table, pass: &mut Pass, plan: Plan) -> Counts
    requires { IsPassOf table.now pass.old }
    ensures { IsPassOf table.now pass.new }
{
    let mut counts = Counts::new();
    let own = u64::from(pass.number());
    for number in 0..plan.groups.saturating_mul(plan.children) {
        let group = modulo(number, plan.groups);
        if modulo(group, plan.threads) == own {
            let key = key_of(group, number.checked_div(plan.groups).unwrap_or(0));
            counts.add(entered(table, pass, key));
        }
    }
    counts
}

/// The row comes in. Where the limbo of the pass is crowded it is tried again: the pass that crowds it goes on meanwhile.
fn entered(table: &Table, pass: &mut Pass, key: u64) -> Result<bool, Fault>
    requires { IsPassOf table.now pass.old }
    ensures { IsPassOf table.now pass.new }
{
    let tuple = tuple_of(key);
    for _ in 0..TRIES {
        match inserted(table, pass, &tuple, key) {
            Err(Fault::Crowded(_)) => {}
            outcome => return outcome,
        }
    }
    inserted(table, pass, &tuple, key)
}

/// The calls of the pass are made.
fn made(table: &Table, pass: &mut Pass, plan: Plan) -> Counts
    requires { IsPassOf table.now pass.old }
    ensures { IsPassOf table.now pass.new }
{
    let mut counts = Counts::new();
    let own = u64::from(pass.number());
    let mut kept = Kept::new();
    for number in 0..plan.calls {
        if modulo(number, plan.threads) == own {
            counts.add(called(table, pass, plan, number, &mut kept));
        }
    }
    counts
}

/// Makes the call with this number; whether it had the answer that it should.
fn called(
    table: &Table,
    pass: &mut Pass,
    plan: Plan,
    number: u64,
    kept: &mut Kept,
) -> Result<bool, Fault>
    requires { IsPassOf table.now pass.old }
    ensures { IsPassOf table.now pass.new }
{
    match plan.case {
        Case::Gets => {
            let key = plan.drawn(number);
            Ok(get(table, pass, kept.tuple_of(key), TURNS)? == Some(key))
        }
        Case::Adds => {
            let key = key_of(number, plan.children);
            inserted(table, pass, kept.tuple_of(key), key)
        }
        Case::Removes => {
            let key = key_of(number, plan.children.wrapping_sub(1));
            removed(table, pass, kept.tuple_of(key), key)
        }
        Case::Renews => {
            let key = plan.drawn(number / 64 * 32 + number % 32);
            if number / 32 % 2 == 0 {
                removed(table, pass, kept.tuple_of(key), key)
            } else {
                inserted(table, pass, kept.tuple_of(key), key)
            }
        }
        Case::Scans => listed(table, pass, number, &mut kept.rows),
    }
}

fn inserted(table: &Table, pass: &mut Pass, tuple: &Tuple, value: u64) -> Result<bool, Fault>
    requires { IsPassOf table.now pass.old }
    ensures { IsPassOf table.now pass.new }
{
    Ok(insert(table, pass, tuple, value, TURNS)? == Inserted::New)
}

fn removed(table: &Table, pass: &mut Pass, tuple: &Tuple, value: u64) -> Result<bool, Fault>
    requires { IsPassOf table.now pass.old }
    ensures { IsPassOf table.now pass.new }
{
    Ok(remove(table, pass, tuple, TURNS)? == Some(value))
}

fn listed(
    table: &Table,
    pass: &mut Pass,
    group: u64,
    rows: &mut ArrayVec<Row, 100>,
) -> Result<bool, Fault>
    requires { IsPassOf table.now pass.old }
    ensures { IsPassOf table.now pass.new }
{
    let first = tuple_of(key_of(group, 0));
    let last = tuple_of(u64::MAX);
    match scan(table, pass, &first, &last, 100, TURNS, rows) {
        Ok(_) => Ok(!rows.is_empty()),
        Err(ScanFault::Busy) => Err(Fault::Busy),
        Err(_) => Ok(false),
    }
}

/// Each pass works in a thread of its own; what they count is added up.
fn work<R: Threads + Sync>(
    rt: &R,
    table: &Table,
    passes: Vec<Pass>,
    plan: Plan,
    fills: bool,
    totals: &Totals,
) -> Result<Vec<Pass>, AllocError>
    requires { AreOf table.now passes.items }
    ensures { IfOk result (λ all. AreOf table.now all.items) }
{
    thread::map_vec(
        rt,
        passes,
        &|pass: Pass| -> Pass
            requires { IsPassOf table.now pass }
            ensures { IsPassOf table.entry.now result }
        { worked(table, pass, plan, fills, totals) },
    )
}

fn worked(table: &Table, mut pass: Pass, plan: Plan, fills: bool, totals: &Totals) -> Pass
    requires { IsPassOf table.now pass }
    ensures { IsPassOf table.now result }
{
    let counts = if fills {
        filled(table, &mut pass, plan)
    } else {
        made(table, &mut pass, plan)
    };
    totals.add(counts);
    pass
}

fn config_of(plan: Plan) -> Config {
    Config {
        leaves: 1_048_576,
        n4: 32_768,
        n16: 65_536,
        n48: 16_384,
        n256: 4_096,
        passes: plan.threads.min(32) as u32,
        counter_start: 0,
    }
}

fn main(rt: HostRuntime) -> io::Result<ExitCode> {
    let alloc = rt.alloc();
    let owned: Vec<String> = env::args(&rt)?.collect(alloc)?;
    let words: Vec<&str> = owned.iter().map(|word| word.as_str()).collect(alloc)?;
    let Some(plan) = Plan::of(words.as_slice()) else {
        eprintln!(rt; "usage: art_bench CASE GROUPS CHILDREN CALLS THREADS")?;
        return Ok(ExitCode::from(2));
    };
    let Ok(schema) = Schema::parse("u64") else {
        return Ok(ExitCode::from(3));
    };
    let Ok((table, passes)) = open(alloc, schema, config_of(plan)) else {
        return Ok(ExitCode::from(4));
    };
    let totals = Totals::new();
    let start = Instant::now(&rt)?;
    let passes = work(&rt, &table, passes, plan, true, &totals)?;
    let filling = start.elapsed(&rt)?.as_micros();
    let rows = totals.taken().right;
    let start = Instant::now(&rt)?;
    let _passes = work(&rt, &table, passes, plan, false, &totals)?;
    let calling = start.elapsed(&rt)?.as_micros();
    eprintln!(rt; "rows {filling} us, calls {calling} us")?;
    let Counts {
        right,
        other,
        busy,
        full,
        crowded,
        exhausted,
    } = totals.taken();
    println!(rt; "{rows} rows, {right} of {} calls", plan.calls)?;
    if right < plan.calls {
        println!(rt;
            "{other} with another answer; refused: {busy} busy, {full} full, {crowded} crowded, {exhausted} exhausted"
        )?;
    }
    Ok(ExitCode::from(0))
}
