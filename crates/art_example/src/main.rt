//! A program that calls the library from two threads. docs/CALLING.md explains it part by part.
#![tactic(auto)]

ghost use Rattle.std.specs.Prelude.{◌≤◌, length, IfOk};
ghost use Rattle.art_table.specs.Tables.{IsPassOf};

use anyhow::{Result, bail};
use arrayvec::ArrayVec;
use art_key::Schema;
use art_model::{Text, Tuple, Value};
use art_scan::{More, scan};
use art_table::{Config, Fault, Inserted, Pass, Table, close, get, insert, meet, open, remove};
use std::alloc::Global;
use std::fmt::Debug;
use std::io;
use std::thread::{join_mut, yield_now};

const SIZES: Config = Config {
    leaves: 4_096,
    n4: 1_024,
    n16: 1_024,
    n48: 1_024,
    n256: 1_024,
    passes: 3,
    counter_start: 0,
};

/// The turns of a call.
const TURNS: u32 = 1_000_000;

/// How often an insert is tried again.
const TRIES: u32 = 1_000;

/// The tuple of a station and an hour.
fn tuple_of(station: &str, hour: i128) -> Tuple
    requires { length station.now ≤ 24 }
{
    let mut tuple = Tuple::new();
    tuple.push(Value::Text(Text::new(station).unwrap()));
    tuple.push(Value::Int(hour));
    tuple
}

/// Inserts a row. Where other threads are in the way it lets them run, and tries again.
fn insert_row(table: &Table, pass: &mut Pass, tuple: &Tuple, value: u64) -> Result<Inserted, Fault>
    requires { IsPassOf table.now pass.old }
    ensures { IsPassOf table.now pass.new }
{
    for _ in 0..TRIES {
        match insert(table, pass, tuple, value, TURNS) {
            Err(Fault::Busy | Fault::Crowded(_)) => yield_now(),
            told => return told,
        }
    }
    insert(table, pass, tuple, value, TURNS)
}

/// Inserts a row for each hour, up to the first that is refused, and says how many are new.
fn insert_rows(table: &Table, pass: &mut Pass, station: &str) -> Result<u32, Fault>
    requires pass { IsPassOf table.now pass.old }
    requires station { length station.now ≤ 24 }
    ensures { IsPassOf table.now pass.new }
{
    let mut new = 0;
    for hour in 0..120u32 {
        let tuple = tuple_of(station, i128::from(hour));
        if insert_row(table, pass, &tuple, 10 * u64::from(hour))? == Inserted::New {
            new += 1;
        }
    }
    Ok(new)
}

/// Prints an answer, or the number, the name and the text of a refusal.
fn tell<T: Debug>(rt: &impl Print, call: &str, told: &Result<T, Fault>) -> io::Result<()> {
    match told {
        Ok(answer) => println!(rt; "{call}: {answer:?}"),
        Err(fault) => println!(rt; "{call}: {}, {fault}", fault.refusal()),
    }
}

/// Lists the rows of both stations in pages of at most a hundred.
fn list(rt: &impl Print, table: &Table, pass: &mut Pass) -> Result<()>
    requires { IsPassOf table.now pass.old }
    ensures { IsPassOf table.now pass.new }
{
    let mut from = tuple_of("north", 0);
    let end = tuple_of("south", i128::from(u32::MAX));
    let mut rows = ArrayVec::new();
    for page in 1..=100 {
        let more = scan(table, pass, &from, &end, 100, TURNS, &mut rows)?;
        println!(rt; "page {page}: {} rows", rows.len())?;
        let Some(last) = rows.last() else { break };
        let [Value::Text(station), Value::Int(hour)] = last.tuple.as_slice() else {
            break;
        };
        println!(rt; "last: {} {hour}, {}", station.as_str(), last.value)?;
        if more == More::End {
            break;
        }
        from = tuple_of(station.as_str(), hour.saturating_add(1));
    }
    Ok(())
}

/// An empty table, and its three passes.
fn opened(alloc: Global) -> Result<(Table, Pass, Pass, Pass)>
    ensures first { IfOk result (λ r. IsPassOf r.0 r.1) }
    ensures second { IfOk result (λ r. IsPassOf r.0 r.2) }
    ensures third { IfOk result (λ r. IsPassOf r.0 r.3) }
{
    let schema = Schema::parse("text8,u32")?;
    let (table, mut passes) = open(alloc, schema, SIZES)?;
    let (Some(third), Some(second), Some(first)) = (passes.pop(), passes.pop(), passes.pop()) else {
        bail!("a pass is missing");
    };
    Ok((table, first, second, third))
}

fn main(rt: HostRuntime) -> Result<()> {
    let alloc = rt.alloc();
    let (table, mut north, mut south, mut reader) = opened(alloc)?;
    let (north_told, south_told) = join_mut(
        &rt,
        &mut || insert_rows(&table, &mut north, "north"),
        &mut || insert_rows(&table, &mut south, "south"),
    );
    tell(&rt, "north", &north_told)?;
    tell(&rt, "south", &south_told)?;

    meet(&table, &mut north, &mut reader);
    meet(&table, &mut south, &mut reader);
    list(&rt, &table, &mut reader)?;
    let noon = tuple_of("north", 12);
    tell(&rt, "get", &get(&table, &mut reader, &noon, TURNS))?;
    tell(&rt, "remove", &remove(&table, &mut reader, &noon, TURNS))?;
    let before = tuple_of("north", -1);
    tell(&rt, "get", &get(&table, &mut reader, &before, TURNS))?;

    let passes = vec![in alloc; north, south, reader]?;
    let closed = close(alloc, table, passes)?;
    println!(rt; "closed: {} rows", closed.rows.len())?;
    Ok(())
}
