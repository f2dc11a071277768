//! The place of one pass: idle, or with a command under way.
ghost use Rattle.std.specs.Prelude.{◌≡◌, ℕ, ◌<◌, Bool, true, false};
ghost use Rattle.art_server.specs.ArtScan.Endings.{CommandEnds};
ghost use Rattle.art_server.specs.ArtScan.Running.{HasNoStep, IsRunning, restarts_in};
ghost use Rattle.art_server.specs.ArtTable.Tables.{IsPassOf};
ghost use Rattle.art_server.specs.Sessions.{IsSamePass};
ghost use Rattle.art_schedule.specs.Seats.{BeginsThere, EndsThere, Finishes, HasEnding, IsGoing, IsSeat, is_idle};
ghost use Rattle.art_server.specs.ArtTable.declared.passes.Pass.{Pass as PassOf};

use crate::steps::make_steps;
use arrayvec::ArrayVec;
use art_model::{Command, Row};
use art_server::art_scan::{Ending, Running, start_command};
use art_server::art_table::{Pass, Table};
use std::mem::replace;

/// Room for the rows that a scan lists.
pub(crate) type Room = ArrayVec<Row, 100>;

/// What stands at the place of a pass.
pub(crate) enum Seat {
    /// The pass is idle.
    Idle(Pass),
    /// A command of the pass is under way.
    Going(Running),
    /// It was taken out, and is put back at once.
    Away,
}

impl Seat {
    ghost use Rattle.std.specs.Prelude.{◌≡◌};
    ghost use Rattle.art_schedule.specs.Seats.{is_idle};

    /// Nothing is under way.
    pub(crate) fn is_idle(&self) -> bool
        ensures { result ≡ is_idle self.now }
    {
        match self {
            Seat::Idle(_) => true,
            _ => false,
        }
    }
}

/// Puts it where one was taken out.
fn put_back(seat: &mut Seat, full: Seat)
    requires { seat.old ≡ Seat.Away }
    ensures { seat.new ≡ full }
{
    match replace(seat, full) {
        Seat::Away => {}
        _ => unreachable!(),
    }
}

/// Begins the command, in so many turns.
pub(crate) fn begin(table: &Table, seat: &mut Seat, room: &mut Room, command: Command, turns: u32)
    requires seat { (p : PassOf) × IsSeat table.now p seat.old room.old.items }
    requires idle { is_idle seat.old ≡ true }
    ensures keeps { (p : PassOf) → IsSeat table.now p seat.old room.old.items → IsSeat table.now p seat.new room.new.items }
    ensures there { BeginsThere table.now command turns seat.old seat.new room.new.items }
{
    match replace(seat, Seat::Away) {
        Seat::Idle(pass) => {
            let running = start_command(table, pass, command, turns, room);
            put_back(seat, Seat::Going(running));
        }
        _ => unreachable!(),
    }
}

/// Makes all steps that are left: the pass, how the command ended, and how often it began anew.
fn run_out(table: &Table, running: Running, room: &mut Room) -> (Pass, Ending, u64)
    requires { (p : PassOf) × IsGoing table.now p running room.old.items }
    ensures pass { (p : PassOf) → IsGoing table.now p running room.old.items → IsPassOf table.now result.0 × IsSamePass p result.0 }
    ensures ends { HasEnding table.now room.new.items result.1 }
    ensures finishes { Finishes table.now running room.old.items result.0 result.1 result.2 room.new.items }
{
    let mut running = running;
    make_steps(table, &mut running, room, u64::MAX);
    let restarts = running.restarts();
    let (pass, ending) = running.finish(table, room);
    (pass, ending, restarts)
}

/// Makes all steps that are left of the command under way: how it ended, and how often it began anew.
pub(crate) fn end(table: &Table, seat: &mut Seat, room: &mut Room) -> (Ending, u64)
    requires seat { (p : PassOf) × IsSeat table.now p seat.old room.old.items }
    requires going { is_idle seat.old ≡ false }
    ensures keeps { (p : PassOf) → IsSeat table.now p seat.old room.old.items → IsSeat table.now p seat.new room.new.items }
    ensures idle { is_idle seat.new ≡ true }
    ensures ends { HasEnding table.now room.new.items result.0 }
    ensures there { EndsThere table.now seat.old room.old.items seat.new room.new.items result.0 result.1 }
{
    match replace(seat, Seat::Away) {
        Seat::Going(running) => {
            let (pass, ending, restarts) = run_out(table, running, room);
            put_back(seat, Seat::Idle(pass));
            (ending, restarts)
        }
        _ => unreachable!(),
    }
}
