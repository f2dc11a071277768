//! Two clients over sockets, each answered by a worker of its own.
ghost use Rattle.std.specs.Prelude.{◌≤◌, length};
ghost use Rattle.art_server.specs.ArtTable.Tables.{AreOf, IsPassOf};

use crate::clients::{check_session, last_of, opened};
use crate::gates::{FOUR, FOUR_INSERTED, Hold, ROWS, check_hold, waits_for};
use art_server::art_table::{Pass, Table};
use art_workers::{ServeFault, serve};
use std::alloc::Global;
use std::io::{Read, Write};
use std::net::{Net, SocketAddr, TcpListener, TcpStream};
use std::process::Abort;
use std::sync::Wait;
use std::sync::atomic::{AtomicU64, Ordering};
use std::thread::{Threads, join};
use std::time::Clock;

/// Both passes, in their order.
fn both(rt: &impl Abort, alloc: Global, table: &Table, one: Pass, two: Pass) -> Vec<Pass>
    requires one { IsPassOf table.now one }
    requires two { IsPassOf table.now two }
    ensures of { AreOf table.now result.items }
    ensures few { length result.items ≤ 32 }
{
    let _ = table.schema();
    Vec::from_array(alloc, [one, two]).expect(rt, "room for two passes")
}

/// Two passes came back, after two sessions.
fn check_served(rt: &impl Abort, passes: usize, told: Result<u64, ServeFault>) {
    assert_eq!(rt; passes, 2);
    assert_eq!(rt; told, Ok(2));
}

/// The server: two sessions, by two workers.
fn serve_two<R: Threads + Wait + Clock + Abort + Sync>(
    rt: &R,
    alloc: Global,
    listener: TcpListener,
    table: &Table,
    passes: Vec<Pass>,
    gate: &Hold<'_, R>,
)
    requires of { AreOf table.now passes.items }
    requires few { length passes.items ≤ 32 }
{
    let (passes, told) = serve(rt, alloc, listener, table, passes, 2, gate);
    check_served(rt, passes.len(), told);
}

/// A connection on which the line was sent.
fn say<R: Net<Stream = TcpStream> + Abort>(rt: &R, address: SocketAddr, line: &str) -> TcpStream {
    let mut stream = TcpStream::connect(rt, address)
        .ok()
        .expect(rt, "a connection");
    stream
        .write_all(line.as_bytes())
        .ok()
        .expect(rt, "a line sent");
    stream
}

/// The next bytes on the connection are this.
fn hear(rt: &impl Abort, stream: TcpStream, want: &str) {
    let mut stream = stream;
    let mut room = [0; 64];
    let count = stream.read(&mut room).ok().expect(rt, "a reply");
    assert!(rt; &room[..count] == want.as_bytes());
}

/// Inserts a row, and listens once the other client was answered.
fn insert_first<R: Net<Stream = TcpStream> + Clock + Abort>(
    rt: &R,
    address: SocketAddr,
    heard: &AtomicU64,
) {
    let stream = say(rt, address, "[\"insert\",[259],1]\n");
    assert!(rt; waits_for(rt, heard));
    hear(rt, stream, "[\"inserted\"]\n");
}

/// Connects once a pass is held, and is answered at once.
fn get_meanwhile<R: Net<Stream = TcpStream> + Clock + Abort>(
    rt: &R,
    address: SocketAddr,
    gate: &Hold<'_, R>,
    heard: &AtomicU64,
) {
    assert!(rt; waits_for(rt, &gate.holder));
    let stream = say(rt, address, "[\"get\",[513]]\n");
    hear(rt, stream, "[\"found\",3]\n");
    heard.fetch_add(1, Ordering::SeqCst);
}

/// The server beside both clients.
fn talk_at_once<R>(
    rt: &R,
    alloc: Global,
    listener: TcpListener,
    table: &Table,
    passes: Vec<Pass>,
    gate: &Hold<'_, R>,
)
where
    R: Threads + Wait + Clock + Abort + Sync + Net<Listener = TcpListener, Stream = TcpStream>,
    requires of { AreOf table.now passes.items }
    requires few { length passes.items ≤ 32 }
{
    let address = listener.local_addr().ok().expect(rt, "an address");
    let heard = &AtomicU64::new(0);
    join(
        rt,
        ||
            requires of { AreOf table.now passes.items }
            requires few { length passes.items ≤ 32 }
        { serve_two(rt, alloc, listener, table, passes, gate) },
        || {
            join(
                rt,
                || insert_first(rt, address, heard),
                || get_meanwhile(rt, address, gate, heard),
            )
        },
    );
}

#[test]
fn a_client_that_is_held_holds_up_no_other(rt: HostRuntime) {
    let alloc = rt.alloc();
    let (table, mut passes) = opened(&rt, alloc, "u16", FOUR);
    let two = last_of(&rt, &table, &mut passes);
    let one = last_of(&rt, &table, &mut passes);
    let one = check_session(&rt, alloc, &table, one, ROWS, FOUR_INSERTED);
    let passes = both(&rt, alloc, &table, one, two);
    let listener = TcpListener::bind(&rt, "127.0.0.1:0")
        .ok()
        .expect(&rt, "a port");
    let gate = Hold::new(&rt);
    talk_at_once(&rt, alloc, listener, &table, passes, &gate);
    check_hold(&rt, &gate);
}
