//! Tables, passes and sessions, as tests have them.
ghost use Rattle.art_server.specs.ArtTable.Tables.{AreOf, IsPassOf};

use art_key::Schema;
use art_server::art_table::{Config, Pass, Table, open};
use art_server::{Counted, EndCause, Gate, NoGate, SessionEnd, session};
use std::alloc::Global;
use std::io::Read;
use std::process::Abort;

/// One of each, and one pass.
pub(crate) const SIZES: Config = Config {
    leaves: 1,
    n4: 1,
    n16: 1,
    n48: 1,
    n256: 1,
    passes: 1,
    counter_start: 0,
};

/// A table of these columns and sizes, and its passes.
pub(crate) fn opened(
    rt: &impl Abort,
    alloc: Global,
    columns: &str,
    config: Config,
) -> (Table, Vec<Pass>)
    ensures { AreOf result.0 result.1.items }
{
    let schema = Schema::parse(columns).expect(rt, "a schema");
    open(alloc, schema, config).expect(rt, "room for a table")
}

/// The last of these passes.
pub(crate) fn last_of(rt: &impl Abort, table: &Table, passes: &mut Vec<Pass>) -> Pass
    requires { AreOf table.now passes.old.items }
    ensures last { IsPassOf table.now result }
    ensures left { AreOf table.now passes.new.items }
{
    let _ = table.schema();
    passes.pop().expect(rt, "a pass")
}

/// A table of these columns and sizes, and the last of its passes.
pub(crate) fn alone(rt: &impl Abort, alloc: Global, columns: &str, config: Config) -> (Table, Pass)
    ensures { IsPassOf result.0 result.1 }
{
    let (table, mut passes) = opened(rt, alloc, columns, config);
    let pass = last_of(rt, &table, &mut passes);
    (table, pass)
}

/// A session ended with its input, and what it said is this.
fn check_said(rt: &impl Abort, end: SessionEnd, heard: &[u8], want: &str) {
    assert_eq!(rt; end.why, EndCause::Ended);
    assert!(rt; heard == want.as_bytes());
}

/// The pass answers the lines of the reader, with the gate told, and what it says is this; all lines are answered.
pub(crate) fn check_watched<R: Read + Drop, G: Gate>(
    rt: &impl Abort,
    alloc: Global,
    table: &Table,
    pass: Pass,
    reader: R,
    gate: &G,
    want: &str,
) -> Pass
    requires { IsPassOf table.now pass }
    ensures { IsPassOf table.now result }
{
    let mut reader = Counted::new(reader);
    let mut heard = Vec::new(alloc);
    let (pass, end) = session(alloc, table, pass, &mut reader, &mut heard, gate);
    check_said(rt, end, heard.as_slice(), want);
    pass
}

/// The pass answers these lines, and what it says is this; all lines are answered.
pub(crate) fn check_session(
    rt: &impl Abort,
    alloc: Global,
    table: &Table,
    pass: Pass,
    said: &str,
    want: &str,
) -> Pass
    requires { IsPassOf table.now pass }
    ensures { IsPassOf table.now result }
{
    check_watched(rt, alloc, table, pass, said.as_bytes(), &NoGate, want)
}

/// A session on a new table of these columns and sizes says this; all lines are answered.
pub(crate) fn check_alone(
    rt: &impl Abort,
    alloc: Global,
    columns: &str,
    config: Config,
    said: &str,
    want: &str,
) {
    let (table, pass) = alone(rt, alloc, columns, config);
    let _ = check_session(rt, alloc, &table, pass, said, want);
}
