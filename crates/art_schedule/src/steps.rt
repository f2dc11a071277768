//! Many steps of a command that is under way.
ghost use Rattle.std.specs.Prelude.{◌≡◌, ◌<◌};
ghost use Rattle.art_schedule.specs.Seats.{IsGoing, KeepsRunning};
ghost use Rattle.art_schedule.specs.Steps.{ReachesOrStops, StepsOrStops, is_marked};
ghost use Rattle.art_server.specs.ArtTable.declared.passes.Pass.{Pass as PassOf};

use crate::Mark;
use crate::seats::Room;
use art_server::art_scan::Running;
use art_server::art_table::{Progress, Table};
use art_step::StepKind;

impl Mark {
    ghost use Rattle.std.specs.Prelude.{◌≡◌};
    ghost use Rattle.art_schedule.specs.Steps.{is_marked};

    /// Whether a step of this kind has it, which makes an event or not.
    fn is_on(self, kind: StepKind, event: bool) -> bool
        ensures { result ≡ is_marked self (record { kind = kind; event = event }) }
    {
        match self {
            Mark::Kind(wanted) => kind == wanted,
            Mark::Event => event,
        }
    }
}

/// Makes so many steps, or all that are left where these are fewer: whether all were made.
pub(crate) fn make_steps(table: &Table, running: &mut Running, room: &mut Room, count: u64) -> bool
    requires { (p : PassOf) × IsGoing table.now p running.old room.old.items }
    ensures goes_on { (p : PassOf) → IsGoing table.now p running.old room.old.items → IsGoing table.now p running.new room.new.items }
    ensures keeps { KeepsRunning table.now running.old room.old.items running.new room.new.items }
    ensures made { StepsOrStops table.now count running.old running.new room.new.items result }
{
    for _ in 0..count {
        match running.step(table, room) {
            Progress::Made { .. } => {}
            Progress::Ended => return false,
        }
    }
    true
}

/// Makes steps until so many have the mark, or all that are left where these are fewer: whether so many have it.
pub(crate) fn make_until(
    table: &Table,
    running: &mut Running,
    room: &mut Room,
    mark: Mark,
    times: u32,
) -> bool
    requires going { (p : PassOf) × IsGoing table.now p running.old room.old.items }
    requires some { 0 < times }
    ensures goes_on { (p : PassOf) → IsGoing table.now p running.old room.old.items → IsGoing table.now p running.new room.new.items }
    ensures keeps { KeepsRunning table.now running.old room.old.items running.new room.new.items }
    ensures made { ReachesOrStops table.now mark times running.old running.new room.new.items result }
{
    let mut found = 0;
    for _ in 0..u64::MAX {
        let Progress::Made { kind, event } = running.step(table, room) else {
            return false;
        };
        if mark.is_on(kind, event) {
            found += 1;
            if found == times {
                return true;
            }
        }
    }
    unreachable!()
}
