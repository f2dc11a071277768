//! The threads of a load.
ghost use Rattle.std.specs.Prelude.{◌≡◌, ℕ, ◌<◌, ◌≤◌, List, IfOk, IfSome, [], length, true, vec_capacity};
ghost use Rattle.art_load.specs.Loads.{LoadsAll};
ghost use Rattle.art_load.specs.Threads.{AreOfTable, AreStarts, promises_of};
ghost use Rattle.art_table.specs.Tables.{AreOf, IsPassOf};
ghost use Rattle.art_table.specs.declared.passes.Pass.{Pass as PassOf};
ghost use Rattle.art_table.specs.declared.tables.Table.{Table as TableOf};

use crate::commands::Plan;
use crate::counts::Counts;
use crate::faults::LoadFault;
use crate::loads::{Loaded, load_by};
use art_table::{Pass, Table};
use std::alloc::Global;
use std::snapshot::Snapshot;
use std::sync::Wait;
use std::thread;
use std::thread::{Promise, PromisedHandle, Scope, Threads};

/// What a thread promises: it makes its commands by its pass, and counts the replies.
#[derive(Drop)]
pub(crate) struct LoadPromise {
    pub(crate) table: Snapshot<Table>,
    pub(crate) pass: Snapshot<Pass>,
    pub(crate) thread: u64,
    pub(crate) plan: Plan,
}

impl Promise<Loaded> for LoadPromise {
    ghost use Rattle.art_load.specs.Commands.{load_commands};
    ghost use Rattle.art_load.specs.Loads.{Loads};

    ghost kept_by = { λ p r. Loads p.table.value (load_commands p.plan.seed p.plan.keys p.thread p.plan.ops) p.pass.value r.counts r.pass };
}

type Handle = PromisedHandle<Loaded, LoadPromise>;

/// The threads that were started, and whether these are all.
struct Started {
    handles: Vec<Handle>,
    all: bool,
}

/// What the threads gave back, together.
struct Joined {
    passes: Vec<Pass>,
    counts: Counts,
}

/// Starts a thread of a load.
fn start<'s, E: 's>(
    scope: &'s Scope<'s, E>,
    table: &'s Table,
    pass: Pass,
    thread: u64,
    plan: Plan,
) -> Option<Handle>
    requires pass { IsPassOf table.now pass }
    requires keys { 0 < plan.keys }
    ensures table { IfSome result (λ h. h.promise.table.value ≡ table.now) }
    ensures pass { IfSome result (λ h. h.promise.pass.value ≡ pass) }
    ensures thread { IfSome result (λ h. h.promise.thread ≡ thread) }
    ensures plan { IfSome result (λ h. h.promise.plan ≡ plan) }
{
    let promise = LoadPromise {
        table: Snapshot::of(table),
        pass: Snapshot::of(&pass),
        thread,
        plan,
    };
    scope
        .spawn_with(promise, move || load_by(table, pass, thread, plan))
        .ok()
}

/// Starts a thread for each pass, numbered in their order, where one can be started. There is room for the handles.
fn start_each<'s, E: 's>(
    scope: &'s Scope<'s, E>,
    table: &'s Table,
    passes: Vec<Pass>,
    handles: Vec<Handle>,
    plan: Plan,
) -> Started
    requires of { AreOf table.now passes.items }
    requires keys { 0 < plan.keys }
    requires empty { handles.items ≡ [] }
    requires room { length passes.items ≤ vec_capacity handles }
    ensures few { length result.handles.items ≤ length passes.items }
    ensures table { AreOfTable table.now (promises_of result.handles.items) }
    ensures all { result.all ≡ true → AreStarts table.now plan.seed plan.keys plan.ops 0 passes.items (promises_of result.handles.items) }
{
    let mut passes = passes;
    let mut handles = handles;
    let mut all = true;
    // the last pass first: then its number is how many are left, and each handle goes to the front
    while let Some(pass) = passes.pop() {
        let thread = passes.len() as u64;
        match start(scope, table, pass, thread, plan) {
            Some(handle) => {
                let Ok(()) = handles.insert(0, handle) else {
                    unreachable!()
                };
            }
            None => all = false,
        }
    }
    Started { handles, all }
}

/// Joins each thread: the passes come back in their order, for which there is room.
fn join_each<R: Threads>(rt: &R, handles: Vec<Handle>, passes: Vec<Pass>) -> Joined
    requires few { length handles.items ≤ 32 }
    requires counted { (t : TableOf) × AreOfTable t (promises_of handles.items) }
    requires empty { passes.items ≡ [] }
    requires room { length handles.items ≤ vec_capacity passes }
    ensures of { (t : TableOf) → AreOfTable t (promises_of handles.items) → AreOf t result.passes.items }
    ensures loads { (t : TableOf) (seed keys ops : ℕ) (ps : List PassOf) → AreStarts t seed keys ops 0 ps (promises_of handles.items) →
        LoadsAll t seed keys ops ps result.counts result.passes.items }
{
    let mut handles = handles;
    let mut passes = passes;
    let mut counts = Counts::none();
    // the last thread first, so that each pass goes to the front
    while let Some(handle) = handles.pop() {
        let loaded = handle.join(rt);
        counts.add(&loaded.counts);
        let Ok(()) = passes.insert(0, loaded.pass) else {
            unreachable!()
        };
    }
    Joined { passes, counts }
}

/// Starts the threads of a load in the scope, and joins them.
fn load_in<'s, E: 's, R: Threads>(
    rt: &R,
    scope: &'s Scope<'s, E>,
    alloc: Global,
    table: &'s Table,
    passes: Vec<Pass>,
    plan: Plan,
) -> (Vec<Pass>, Result<Counts, LoadFault>)
    requires of { AreOf table.now passes.items }
    requires few { length passes.items ≤ 32 }
    requires keys { 0 < plan.keys }
    ensures of { AreOf table.now result.0.items }
    ensures loads { IfOk result.1 (λ counts. LoadsAll table.now plan.seed plan.keys plan.ops passes.items counts result.0.items) }
{
    let Ok(handles) = Vec::with_capacity(alloc, passes.len()) else {
        return (passes, Err(LoadFault::NoMemory));
    };
    let Ok(back) = Vec::with_capacity(alloc, passes.len()) else {
        return (passes, Err(LoadFault::NoMemory));
    };
    let Started { handles, all } = start_each(scope, table, passes, handles, plan);
    let Joined { passes, counts } = join_each(rt, handles, back);
    if !all {
        return (passes, Err(LoadFault::NoMemory));
    }
    (passes, Ok(counts))
}

/// Each pass makes `ops` commands in a thread of its own, each in at most 1,000,000 turns. The threads are numbered from 0, in the order of
/// the passes, and each has the commands of its number. They count their replies: these are the counts of all threads together.
///
/// The passes come back in their order. After a fault the pass of a thread that could not be started is missing.
pub fn load<R: Threads + Wait + Sync>(
    rt: &R,
    alloc: Global,
    table: &Table,
    passes: Vec<Pass>,
    ops: u32,
    seed: u64,
    keys: u64,
) -> (Vec<Pass>, Result<Counts, LoadFault>)
    requires of { AreOf table.now passes.items }
    requires few { length passes.items ≤ 32 }
    requires keys { 0 < keys }
    ensures of { AreOf table.now result.0.items }
    ensures loads { IfOk result.1 (λ counts. LoadsAll table.now seed keys ops passes.items counts result.0.items) }
{
    let plan = Plan { ops, seed, keys };
    thread::scope(
        thread::scope_env(),
        rt,
        move |scope| -> (Vec<Pass>, Result<Counts, LoadFault>)
            requires { AreOf table.now passes.items × (length passes.items ≤ 32) × (0 < plan.keys) }
            ensures of { AreOf table.entry.now result.0.items }
            ensures loads { IfOk result.1 (λ c. LoadsAll table.entry.now plan.seed plan.keys plan.ops passes.items c result.0.items) }
        { load_in(rt, scope, alloc, table, passes, plan) },
    )
}
