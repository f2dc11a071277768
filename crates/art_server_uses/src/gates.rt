//! Sessions that a gate is told of, and one that it holds up.
ghost use Rattle.art_server.specs.ArtTable.Tables.{IsPassOf};

use crate::clients::{SIZES, alone, check_session, check_watched, last_of, opened};
use art_server::art_table::{Config, Pass, Table};
use art_server::{Counted, EndCause, Gate, SessionEnd, session};
use art_step::StepKind;
use std::alloc::Global;
use std::io::{self, ErrorKind, Read, Write};
use std::process::Abort;
use std::sync::atomic::{AtomicU64, Ordering};
use std::thread::{Threads, join, sleep};
use std::time::{Clock, Duration};

/// The most looks at a flag, a millisecond apart.
const LOOKS: u32 = 10_000;

/// Waits until the flag is not 0, and says whether it was in time.
pub(crate) fn waits_for<R: Clock>(rt: &R, flag: &AtomicU64) -> bool {
    for _ in 0..LOOKS {
        if flag.load(Ordering::SeqCst) != 0 {
            return true;
        }
        let _ = sleep(rt, Duration::from_millis(1));
    }
    false
}

/// Holds the first pass that locks a cell, until a reply of another pass was written.
#[derive(Drop)]
pub(crate) struct Hold<'a, R> {
    rt: &'a R,
    /// The number of the pass that is held, and 1 more; 0 before one is.
    pub(crate) holder: AtomicU64,
    /// How many replies of other passes were written since.
    others: AtomicU64,
    /// How often a pass was held in vain.
    late: AtomicU64,
}

impl<'a, R: Clock> Hold<'a, R> {
    pub(crate) fn new(rt: &'a R) -> Hold<'a, R> {
        Hold {
            rt,
            holder: AtomicU64::new(0),
            others: AtomicU64::new(0),
            late: AtomicU64::new(0),
        }
    }

    /// Whether the pass is the first that locks a cell.
    fn is_first(&self, pass: u32) -> bool {
        let number = u64::from(pass).wrapping_add(1);
        let first = self
            .holder
            .compare_exchange(0, number, Ordering::SeqCst, Ordering::SeqCst);
        first.is_ok()
    }
}

impl<'a, R: Clock> Gate for Hold<'a, R> {
    fn after(&self, pass: u32, kind: StepKind) {
        if kind == StepKind::Upgrade && self.is_first(pass) && !waits_for(self.rt, &self.others) {
            self.late.fetch_add(1, Ordering::SeqCst);
        }
    }

    fn answered(&self, pass: u32) {
        let holder = self.holder.load(Ordering::SeqCst);
        if holder != 0 && holder != u64::from(pass).wrapping_add(1) {
            self.others.fetch_add(1, Ordering::SeqCst);
        }
    }
}

/// Gives its bytes once a pass is held.
#[derive(Drop)]
struct Later<'a, R> {
    rt: &'a R,
    gate: &'a Hold<'a, R>,
    rest: &'a [u8],
}

impl<'a, R: Clock> Read for Later<'a, R> {
    fn read(&mut self, buf: &mut [u8]) -> io::Result<usize> {
        let _ = waits_for(self.rt, &self.gate.holder);
        let count = self.rest.len().min(buf.len());
        buf[..count].copy_from_slice(&self.rest[..count]);
        self.rest = &self.rest[count..];
        Ok(count)
    }
}

/// Four rows in two subtrees, and room for another.
pub(crate) const FOUR: Config = Config {
    leaves: 64,
    n4: 16,
    n16: 8,
    n48: 4,
    n256: 2,
    passes: 2,
    counter_start: 0,
};

pub(crate) const ROWS: &str =
    "[\"insert\",[257],1]\n[\"insert\",[258],2]\n[\"insert\",[513],3]\n[\"insert\",[514],4]\n";

pub(crate) const FOUR_INSERTED: &str =
    "[\"inserted\"]\n[\"inserted\"]\n[\"inserted\"]\n[\"inserted\"]\n";

/// The pass inserts a row, and is held on the way.
fn insert_held<R: Clock + Abort>(
    rt: &R,
    alloc: Global,
    table: &Table,
    pass: Pass,
    gate: &Hold<'_, R>,
)
    requires { IsPassOf table.now pass }
{
    let said = "[\"insert\",[259],1]\n".as_bytes();
    let _ = check_watched(rt, alloc, table, pass, said, gate, "[\"inserted\"]\n");
}

/// The pass finds a row in the other subtree, once one is held.
fn get_meanwhile<R: Clock + Abort>(
    rt: &R,
    alloc: Global,
    table: &Table,
    pass: Pass,
    gate: &Hold<'_, R>,
)
    requires { IsPassOf table.now pass }
{
    let rest = "[\"get\",[513]]\n".as_bytes();
    let said = Later { rt, gate, rest };
    let _ = check_watched(rt, alloc, table, pass, said, gate, "[\"found\",3]\n");
}

/// One pass inserts where it is held, and the other is answered in the other subtree meanwhile.
fn hold_one<R: Threads + Clock + Abort + Sync>(
    rt: &R,
    alloc: Global,
    table: &Table,
    one: Pass,
    two: Pass,
    gate: &Hold<'_, R>,
)
    requires one { IsPassOf table.now one }
    requires two { IsPassOf table.now two }
{
    join(
        rt,
        || insert_held(rt, alloc, table, one, gate),
        || get_meanwhile(rt, alloc, table, two, gate),
    );
}

/// A pass was held, and not in vain: the other was answered meanwhile.
pub(crate) fn check_hold<R: Abort>(rt: &R, gate: &Hold<'_, R>) {
    assert!(rt; gate.holder.load(Ordering::SeqCst) != 0);
    assert_eq!(rt; gate.others.load(Ordering::SeqCst), 1);
    assert_eq!(rt; gate.late.load(Ordering::SeqCst), 0);
}

#[test]
fn a_session_that_is_held_holds_up_no_other_subtree(rt: HostRuntime) {
    let (table, mut passes) = opened(&rt, rt.alloc(), "u16", FOUR);
    let two = last_of(&rt, &table, &mut passes);
    let one = last_of(&rt, &table, &mut passes);
    let one = check_session(&rt, rt.alloc(), &table, one, ROWS, FOUR_INSERTED);
    let gate = Hold::new(&rt);
    hold_one(&rt, rt.alloc(), &table, one, two, &gate);
    check_hold(&rt, &gate);
}

/// Counts what it is told.
#[derive(Drop)]
struct Tally {
    steps: AtomicU64,
    commits: AtomicU64,
    replies: AtomicU64,
}

impl Tally {
    fn new() -> Tally {
        Tally {
            steps: AtomicU64::new(0),
            commits: AtomicU64::new(0),
            replies: AtomicU64::new(0),
        }
    }

    /// It was told of steps, of so many commits among them, and of so many replies.
    fn check(&self, rt: &impl Abort, commits: u64, replies: u64) {
        assert!(rt; self.steps.load(Ordering::SeqCst) > commits);
        assert_eq!(rt; self.commits.load(Ordering::SeqCst), commits);
        assert_eq!(rt; self.replies.load(Ordering::SeqCst), replies);
    }
}

impl Gate for Tally {
    fn after(&self, _pass: u32, kind: StepKind) {
        self.steps.fetch_add(1, Ordering::SeqCst);
        if kind == StepKind::Commit {
            self.commits.fetch_add(1, Ordering::SeqCst);
        }
    }

    fn answered(&self, _pass: u32) {
        self.replies.fetch_add(1, Ordering::SeqCst);
    }
}

/// Takes all bytes, and no flush.
#[derive(Drop)]
struct Unflushed;

impl Write for Unflushed {
    fn write(&mut self, buf: &[u8]) -> io::Result<usize> {
        Ok(buf.len())
    }

    fn flush(&mut self) -> io::Result<()> {
        Err(io::Error::from(ErrorKind::BrokenPipe))
    }
}

/// Of a session with these lines, in one read, the gate is told of so many commits and replies.
fn check_told(rt: &impl Abort, alloc: Global, said: &str, want: &str, commits: u64, replies: u64) {
    let (table, pass) = alone(rt, alloc, "u64", SIZES);
    let gate = Tally::new();
    let _ = check_watched(rt, alloc, &table, pass, said.as_bytes(), &gate, want);
    gate.check(rt, commits, replies);
}

#[test]
fn a_gate_is_told_of_each_commit_and_reply(rt: HostRuntime) {
    let alloc = rt.alloc();
    let reads = "[\"get\",[5]]\n[\"scan\",[0],[9],9]\n";
    check_told(
        &rt,
        alloc,
        reads,
        "[\"absent\"]\n[\"rows\",[],false]\n",
        0,
        2,
    );
    let writes = "[\"insert\",[5],9]\n\n[\"remove\",[5]]\n[\"get\",[5]]";
    let want = "[\"inserted\"]\n[\"refused\",1,\"BadLine\"]\n[\"removed\",9]\n[\"absent\"]\n";
    check_told(&rt, alloc, writes, want, 2, 4);
}

/// The insert was made, and its reply did not go out.
fn check_untold(rt: &impl Abort, end: SessionEnd, gate: &Tally) {
    let wanted = SessionEnd {
        why: EndCause::WriteFault,
        answered: 0,
        pending: true,
    };
    assert_eq!(rt; end, wanted);
    gate.check(rt, 1, 0);
}

#[test]
fn a_gate_is_told_of_no_reply_that_was_not_flushed(rt: HostRuntime) {
    let (table, pass) = alone(&rt, rt.alloc(), "u64", SIZES);
    let gate = Tally::new();
    let mut reader = Counted::new("[\"insert\",[5],9]\n".as_bytes());
    let (_, end) = session(rt.alloc(), &table, pass, &mut reader, &mut Unflushed, &gate);
    check_untold(&rt, end, &gate);
}
