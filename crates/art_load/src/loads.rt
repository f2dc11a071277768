//! What one thread of a load does.
ghost use Rattle.std.specs.Prelude.{◌<◌};
ghost use Rattle.art_load.specs.Commands.{load_commands};
ghost use Rattle.art_load.specs.Loads.{AnswersAs, HasReplyOf, IsCall, Loads};
ghost use Rattle.art_table.specs.Jobs.{of_got, of_inserted, of_removed, with_result};
ghost use Rattle.art_table.specs.Tables.{IsPassOf};

use crate::commands::{Plan, load_command};
use crate::counts::{Counts, Kind};
use art_model::Command;
use art_table::{Fault, Inserted, Pass, Table, get, insert, remove};
use std::thread::yield_now;

/// The most turns of one command, as many as a session gives.
const TURNS: u32 = 1_000_000;

/// What a thread of a load gives back.
#[derive(Drop)]
pub(crate) struct Loaded {
    pub(crate) pass: Pass,
    pub(crate) counts: Counts,
}

/// The kind of the reply to an insert that ended so.
fn kind_of_insert(told: &Result<Inserted, Fault>) -> Kind
    ensures { HasReplyOf (with_result of_inserted told.now) result }
{
    match told {
        Ok(Inserted::New) => Kind::Inserted,
        Ok(Inserted::Present(_)) => Kind::Present,
        Err(_) => Kind::Refused,
    }
}

/// The kind of the reply to a removal that ended so.
fn kind_of_remove(told: &Result<Option<u64>, Fault>) -> Kind
    ensures { HasReplyOf (with_result of_removed told.now) result }
{
    match told {
        Ok(Some(_)) => Kind::Removed,
        Ok(None) => Kind::Absent,
        Err(_) => Kind::Refused,
    }
}

/// The kind of the reply to a get that ended so.
fn kind_of_get(told: &Result<Option<u64>, Fault>) -> Kind
    ensures { HasReplyOf (with_result of_got told.now) result }
{
    match told {
        Ok(Some(_)) => Kind::Found,
        Ok(None) => Kind::Absent,
        Err(_) => Kind::Refused,
    }
}

/// Makes the command, which is no scan, by a call of the pass, and says of which kind its reply is.
fn make(table: &Table, pass: &mut Pass, command: &Command) -> Kind
    requires pass { IsPassOf table.now pass.old }
    requires call { IsCall command.now }
    ensures pass { IsPassOf table.now pass.new }
    ensures answers { AnswersAs table.now command.now pass.old result pass.new }
{
    match command {
        Command::Insert(tuple, value) => kind_of_insert(&insert(table, pass, tuple, *value, TURNS)),
        Command::Remove(tuple) => kind_of_remove(&remove(table, pass, tuple, TURNS)),
        Command::Get(tuple) => kind_of_get(&get(table, pass, tuple, TURNS)),
        Command::Scan(_, _, _) => unreachable!(),
    }
}

/// Lets other threads run where a command was refused: mostly a pass stands in the middle of a call, and its thread wants the processor.
fn give_way(kind: Kind) {
    if matches!(kind, Kind::Refused) {
        yield_now();
    }
}

/// Makes the commands of the thread by the pass, and counts their replies.
pub(crate) fn load_by(table: &Table, pass: Pass, thread: u64, plan: Plan) -> Loaded
    requires pass { IsPassOf table.now pass }
    requires keys { 0 < plan.keys }
    ensures { Loads table.now (load_commands plan.seed plan.keys thread plan.ops) pass result.counts result.pass }
{
    let mut pass = pass;
    let mut counts = Counts::none();
    for step in 0..plan.ops {
        let command = load_command(plan, thread, u64::from(step));
        let kind = make(table, &mut pass, &command);
        counts.count(kind);
        give_way(kind);
    }
    Loaded { pass, counts }
}
