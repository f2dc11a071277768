//! A server of a table of its own.
ghost use Rattle.std.specs.Prelude.{◌≡◌, ◌≤◌, ◌<◌, ◌^◌, IfOk, length};
ghost use Rattle.art_key.specs.Schemas.{schema_of};
ghost use Rattle.art_server.specs.ArtTable.Tables.{AreOf};
ghost use Rattle.art_tools.specs.Servers.{HaveBeenServed, RunsServer, served_text};
ghost use Rattle.art_tools.specs.Ranges.{IsServe};
ghost use Rattle.art_tools.specs.Statuses.{fault_in};
ghost use Rattle.art_tools.specs.Tables.{Prints};

use crate::loads::print_text;
use crate::run_faults::RunFault;
use crate::settings::ServeSettings;
use crate::tables::{close_table, open_table};
use art_key::Schema;
use art_server::NoGate;
use art_server::art_table::{Pass, Table};
use art_workers::serve;
use std::alloc::Global;
use std::io::Write;
use std::net::{Ipv4Addr, Net, TcpListener, TcpStream};
use std::sync::Wait;
use std::thread::Threads;

/// So many sessions over sockets, by workers of an empty table of these sizes. Once it is closed, the number of sessions is printed. Where
/// it listens is told beside the faults.
pub(crate) fn serve_table<R, W: Write, E: Write>(
    rt: &R,
    alloc: Global,
    asked: ServeSettings<'_>,
    writer: &mut W,
    notes: &mut E,
) -> Result<(), RunFault>
where
    R: Threads + Wait + Sync + Net<Listener = TcpListener, Stream = TcpStream>,
    requires { IsServe asked.table.sizes asked.port asked.workers asked.sessions }
    ensures { RunsServer (schema_of asked.entry.table.schema.now) asked.entry (W.contents writer.old) (W.contents writer.new) (fault_in result) }
{
    let schema = Schema::parse(asked.table.schema)?;
    let (table, passes) = open_table(alloc, schema, asked.table.sizes, asked.workers)?;
    let (passes, told) = serve_on(rt, alloc, &table, passes, asked, notes);
    let closed = close_table(alloc, table, passes);
    let ended = told?;
    closed?;
    let text = format!(in alloc; "served {ended}\n")?;
    print_text(text.as_bytes(), writer)
}

/// Listens, and answers the sessions. The passes come back.
fn serve_on<R, E: Write>(
    rt: &R,
    alloc: Global,
    table: &Table,
    passes: Vec<Pass>,
    asked: ServeSettings<'_>,
    notes: &mut E,
) -> (Vec<Pass>, Result<u64, RunFault>)
where
    R: Threads + Wait + Sync + Net<Listener = TcpListener, Stream = TcpStream>,
    requires of { AreOf table.now passes.items }
    requires few { length passes.items ≤ 32 }
    ensures of { AreOf table.now result.0.items }
    ensures served { HaveBeenServed table.now passes.items result.0.items result.1 }
{
    let Ok(listener) = TcpListener::bind(rt, (Ipv4Addr::LOCALHOST, asked.port)) else {
        return (passes, Err(RunFault::CannotListen));
    };
    // A note that cannot be written stops no server.
    let _ = writeln!(notes, "art_index: listening on 127.0.0.1:{}", asked.port);
    let (passes, told) = serve(rt, alloc, listener, table, passes, asked.sessions, &NoGate);
    match told {
        Ok(ended) => (passes, Ok(ended)),
        Err(fault) => (passes, Err(RunFault::from(fault))),
    }
}
