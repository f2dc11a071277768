//! The workers of a server: one for each pass, each with one session after another.
ghost use Rattle.std.specs.Prelude.{◌≡◌, ◌≤◌, List, [], length, None, Some, IfOk, IfSome, true, vec_capacity};
ghost use Rattle.std.specs.List.{AllZip};
ghost use Rattle.art_sessions.specs.ArtServer.ArtTable.Tables.{AreOf, IsPassOf};
ghost use Rattle.art_sessions.specs.ArtServer.ArtTable.declared.passes.Pass.{Pass as PassOf};
ghost use Rattle.art_sessions.specs.ArtServer.ArtTable.declared.tables.Table.{Table as TableOf};
ghost use Rattle.art_workers.specs.Serving.{HasWorked, HaveServed, HaveWorked, IsTaskOf, Starts};

use crate::ServeFault;
use art_sessions::art_server::art_table::{Pass, Table};
use art_sessions::art_server::{Counted, Gate, session};
use std::alloc::Global;
use std::io::BufWriter;
use std::net::TcpListener;
use std::snapshot::Snapshot;
use std::sync::Wait;
use std::sync::atomic::{AtomicU64, Ordering};
use std::thread;
use std::thread::{Promise, PromisedHandle, Scope, Threads};

/// Where the sessions come from: the listener, how many are to be, and how many have been claimed.
#[derive(Drop)]
struct Door {
    listener: TcpListener,
    sessions: u32,
    claimed: AtomicU64,
}

impl Door {
    /// Claims a session, if one is left. No two claims have one number, so at most so many succeed.
    fn claim(&self) -> bool {
        self.claimed.fetch_add(1, Ordering::SeqCst) < u64::from(self.sessions)
    }
}

/// What a worker gives back: its pass, how many sessions this had, and why it ended before all were claimed.
#[derive(Drop)]
pub(crate) struct Worked {
    pub(crate) pass: Pass,
    pub(crate) ended: u32,
    pub(crate) fault: Option<ServeFault>,
}

/// What a worker promises: that this pass had sessions, one after another, as many as it counted.
#[derive(Drop)]
pub(crate) struct Task {
    pub(crate) table: Snapshot<Table>,
    pub(crate) pass: Snapshot<Pass>,
}

impl Promise<Worked> for Task {
    ghost use Rattle.art_workers.specs.Serving.{HasWorked};

    ghost kept_by = { λ task worked. HasWorked task.table.value task.pass.value worked };
}

type Running = PromisedHandle<Worked, Task>;

/// The workers that were started, and whether these are all.
pub(crate) struct Staff {
    pub(crate) running: Vec<Running>,
    pub(crate) all: bool,
}

/// What the workers gave back, together.
pub(crate) struct Served {
    pub(crate) passes: Vec<Pass>,
    pub(crate) ended: u64,
    pub(crate) fault: Option<ServeFault>,
}

/// Answers one session after another, each of the next connection, until all are claimed.
fn work<G: Gate>(alloc: Global, table: &Table, door: &Door, gate: &G, pass: Pass) -> Worked
    requires { IsPassOf table.now pass }
    ensures { HasWorked table.now pass result }
{
    let mut pass = pass;
    for ended in 0..door.sessions {
        if !door.claim() {
            return leave(pass, ended, None);
        }
        let Ok((stream, _)) = door.listener.accept() else {
            return leave(pass, ended, Some(ServeFault::Accept));
        };
        // A system that will not send replies at once sends them later.
        let _ = stream.set_nodelay(true);
        // The session flushes once a read, so the replies to the lines of one read go out by one write, where the buffer holds them.
        let Ok(mut writer) = BufWriter::new(alloc, &stream) else {
            return leave(pass, ended, Some(ServeFault::NoMemory));
        };
        let mut reader = Counted::new(&stream);
        let (back, _) = session(alloc, table, pass, &mut reader, &mut writer, gate);
        pass = back;
    }
    leave(pass, door.sessions, None)
}

/// The worker ends, after so many sessions.
fn leave(pass: Pass, ended: u32, fault: Option<ServeFault>) -> Worked
    ensures { result ≡ record { pass = pass; ended = ended; fault = fault } }
{
    Worked { pass, ended, fault }
}

/// Starts the worker of a pass.
fn start<'s, E: 's, G: Gate + Sync>(
    scope: &'s Scope<'s, E>,
    alloc: Global,
    table: &'s Table,
    door: &'s Door,
    gate: &'s G,
    pass: Pass,
) -> Option<Running>
    requires { IsPassOf table.now pass }
    ensures { IfSome result (IsTaskOf table.now pass) }
{
    let task = Task {
        table: Snapshot::of(table),
        pass: Snapshot::of(&pass),
    };
    scope
        .spawn_with(task, move || work(alloc, table, door, gate, pass))
        .ok()
}

/// Starts a worker for each pass, where one can be started: a pass whose thread cannot be is lost. There is room for their handles.
fn start_each<'s, E: 's, G: Gate + Sync>(
    scope: &'s Scope<'s, E>,
    alloc: Global,
    table: &'s Table,
    door: &'s Door,
    gate: &'s G,
    passes: Vec<Pass>,
    running: Vec<Running>,
) -> Staff
    requires of { AreOf table.now passes.items }
    requires empty { running.items ≡ [] }
    requires room { length passes.items ≤ vec_capacity running }
    ensures few { length result.running.items ≤ length passes.items }
    ensures starts { Starts table.now passes.items result }
{
    let mut passes = passes;
    let mut running = running;
    let mut all = true;
    // From the last pass on, since a vector gives its last item.
    while let Some(pass) = passes.pop() {
        let Some(worker) = start(scope, alloc, table, door, gate, pass) else {
            all = false;
            continue;
        };
        let Ok(()) = running.insert(0, worker) else {
            unreachable!()
        };
    }
    Staff { running, all }
}

/// Joins each worker. The passes come back in the order of their workers, and there is room for them.
fn join_each<R: Threads>(rt: &R, running: Vec<Running>, passes: Vec<Pass>) -> Served
    requires empty { passes.items ≡ [] }
    requires room { length running.items ≤ vec_capacity passes }
    requires few { length running.items ≤ 32 }
    ensures { (t : TableOf) (started : List PassOf) → AllZip (IsTaskOf t) started running.items
        → HaveWorked t started result.passes.items result.ended }
{
    let mut running = running;
    let mut passes = passes;
    let mut ended = 0u64;
    let mut fault = None;
    while let Some(worker) = running.pop() {
        let worked = worker.join(rt);
        ended += u64::from(worked.ended);
        fault = first_of(fault, worked.fault);
        let Ok(()) = passes.insert(0, worked.pass) else {
            unreachable!()
        };
    }
    Served {
        passes,
        ended,
        fault,
    }
}

/// The fault that is told of two. That a connection could not be accepted is told before a want of memory.
fn first_of(one: Option<ServeFault>, other: Option<ServeFault>) -> Option<ServeFault>
    ensures one { one ≡ Some ServeFault.Accept → result ≡ Some ServeFault.Accept }
    ensures other { other ≡ Some ServeFault.Accept → result ≡ Some ServeFault.Accept }
    ensures none { result ≡ None → (one ≡ None) × (other ≡ None) }
{
    match one {
        Some(ServeFault::Accept) => one,
        _ => other.or(one),
    }
}

/// What is told of workers that had so many sessions: their fault, if they had one, and else whether one could not be started.
fn outcome(ended: u64, fault: Option<ServeFault>, all: bool) -> Result<u64, ServeFault>
    ensures { IfOk result (λ told. (told ≡ ended) × (all ≡ true)) }
{
    match fault {
        Some(fault) => Err(fault),
        None if !all => Err(ServeFault::NoMemory),
        None => Ok(ended),
    }
}

/// Starts the workers in the scope, and joins them.
fn serve_in<'s, E: 's, R: Threads, G: Gate + Sync>(
    rt: &R,
    scope: &'s Scope<'s, E>,
    alloc: Global,
    table: &'s Table,
    door: &'s Door,
    gate: &'s G,
    passes: Vec<Pass>,
) -> (Vec<Pass>, Result<u64, ServeFault>)
    requires of { AreOf table.now passes.items }
    requires few { length passes.items ≤ 32 }
    ensures of { AreOf table.now result.0.items }
    ensures serves { HaveServed table.now passes.items result.0.items result.1 }
{
    let Ok(running) = Vec::with_capacity(alloc, passes.len()) else {
        return (passes, Err(ServeFault::NoMemory));
    };
    let Ok(back) = Vec::with_capacity(alloc, passes.len()) else {
        return (passes, Err(ServeFault::NoMemory));
    };
    let Staff { running, all } = start_each(scope, alloc, table, door, gate, passes, running);
    let Served {
        passes,
        ended,
        fault,
    } = join_each(rt, running, back);
    (passes, outcome(ended, fault, all))
}

/// Answers so many sessions, each of one connection, by a worker for each pass. The passes come back in their order, with how many
/// sessions they had.
///
/// A worker whose accepting fails ends, and so does one that has no memory for its replies; the others go on, and the fault is told once
/// all have ended. Where a thread cannot be started its pass does not come back.
pub fn serve<R: Threads + Wait + Sync, G: Gate + Sync>(
    rt: &R,
    alloc: Global,
    listener: TcpListener,
    table: &Table,
    passes: Vec<Pass>,
    sessions: u32,
    gate: &G,
) -> (Vec<Pass>, Result<u64, ServeFault>)
    requires of { AreOf table.now passes.items }
    requires few { length passes.items ≤ 32 }
    ensures of { AreOf table.now result.0.items }
    ensures serves { HaveServed table.now passes.items result.0.items result.1 }
{
    let door = &Door {
        listener,
        sessions,
        claimed: AtomicU64::new(0),
    };
    thread::scope(
        thread::scope_env(),
        rt,
        move |scope| -> (Vec<Pass>, Result<u64, ServeFault>)
            requires of { AreOf table.now passes.items }
            requires few { length passes.items ≤ 32 }
            ensures of { AreOf table.entry.now result.0.items }
            ensures serves { HaveServed table.entry.now passes.items result.0.items result.1 }
        { serve_in(rt, scope, alloc, table, door, gate, passes) },
    )
}
