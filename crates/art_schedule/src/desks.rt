//! The places of all passes.
ghost use Rattle.std.specs.Prelude.{◌≡◌, ◌<◌, All, List, IfErr, IfOk, length, map};
ghost use Rattle.art_schedule.specs.Desks.{IsDesk, Settles, SettlesAt, places_of};
ghost use Rattle.art_schedule.specs.Schedules.{ArePassesOf, ComeBack};
ghost use Rattle.art_schedule.specs.Seats.{IsIdle};
ghost use Rattle.art_server.specs.ArtTable.declared.passes.Pass.{Pass as PassOf};
ghost use Rattle.art_server.specs.ArtTable.declared.tables.Table.{Table as TableOf};
ghost use Rattle.art_schedule.specs.declared.seats.Seat.TheVariants.{Idle as idle};

use crate::seats::{Room, Seat, end};
use arrayvec::ArrayVec;
use art_model::NoMemory;
use art_server::art_table::{Pass, Table};
use std::alloc::Global;

/// A place for each pass, and room for the rows of a scan at each.
pub(crate) struct Desk {
    pub(crate) seats: Vec<Seat>,
    pub(crate) rooms: Vec<Room>,
}

/// Room at eight places.
fn rooms(alloc: Global) -> Result<Vec<Room>, NoMemory>
    ensures { IfOk result (λ rooms. length rooms.items ≡ 8) }
{
    let mut rooms = Vec::with_capacity(alloc, 8)?;
    for _ in 0..8_usize {
        rooms.push(ArrayVec::new())?;
    }
    Ok(rooms)
}

/// Each pass at its place, idle.
fn seats_of(passes: [Pass; 8]) -> [Seat; 8]
    ensures seats { result ≡ map idle passes }
    ensures eight { length result ≡ 8 }
{
    let [a, b, c, d, e, f, g, h] = passes;
    [
        Seat::Idle(a),
        Seat::Idle(b),
        Seat::Idle(c),
        Seat::Idle(d),
        Seat::Idle(e),
        Seat::Idle(f),
        Seat::Idle(g),
        Seat::Idle(h),
    ]
}

/// The passes of places at which nothing is under way.
fn passes_of(seats: [Seat; 8]) -> [Pass; 8]
    requires idle { All IsIdle seats }
    requires eight { length seats ≡ 8 }
    ensures { map idle result ≡ seats }
{
    let [a, b, c, d, e, f, g, h] = seats;
    [
        pass_in(a),
        pass_in(b),
        pass_in(c),
        pass_in(d),
        pass_in(e),
        pass_in(f),
        pass_in(g),
        pass_in(h),
    ]
}

fn pass_in(seat: Seat) -> Pass
    requires { IsIdle seat }
    ensures { seat ≡ Seat.Idle result }
{
    match seat {
        Seat::Idle(pass) => pass,
        _ => unreachable!(),
    }
}

/// Each pass at its place, idle. Where there is no memory, the passes come back.
pub(crate) fn open(alloc: Global, passes: [Pass; 8]) -> Result<Desk, [Pass; 8]>
    ensures desk { IfOk result (λ desk. (t : TableOf) → ArePassesOf t passes → IsDesk t passes desk) }
    ensures idle { IfOk result (λ desk. desk.seats.items ≡ map idle passes) }
    ensures back { IfErr result (λ back. back ≡ passes) }
{
    let Ok(rooms) = rooms(alloc) else {
        return Err(passes);
    };
    match Vec::from_array(alloc, seats_of(passes)) {
        Ok(seats) => Ok(Desk { seats, rooms }),
        Err(failed) => Err(passes_of(failed.value)),
    }
}

/// What is under way at the place is run to its end, and nothing is told of it.
fn settle(table: &Table, desk: &mut Desk, place: usize)
    requires desk { (ps : List PassOf) × IsDesk table.now ps desk.old }
    requires place { place < 8 }
    ensures keeps { (ps : List PassOf) → IsDesk table.now ps desk.old → IsDesk table.now ps desk.new }
    ensures settles { SettlesAt table.now place (places_of desk.old) (places_of desk.new) }
{
    if !desk.seats[place].is_idle() {
        end(table, &mut desk.seats[place], &mut desk.rooms[place]);
    }
}

/// The passes, each idle: what is under way is run to its end.
pub(crate) fn close(table: &Table, desk: Desk) -> [Pass; 8]
    requires { (ps : List PassOf) × IsDesk table.now ps desk }
    ensures come { (ps : List PassOf) → IsDesk table.now ps desk → ComeBack table.now ps result }
    ensures settles { Settles table.now (places_of desk) result }
{
    let mut desk = desk;
    for place in 0..8 {
        settle(table, &mut desk, place);
    }
    let Desk { seats, rooms: _ } = desk;
    match <[Seat; 8]>::try_from(seats) {
        Ok(seats) => passes_of(seats),
        Err(_) => unreachable!(),
    }
}
