//! What a pass is told to do, and what is told of it then.
ghost use Rattle.std.specs.Prelude.{◌≡◌, ◌<◌, IfErr, IfOk, OnOk, Err, ◌↔◌, take, ◌-◌, vec_len, false, true};
ghost use Rattle.art_schedule.specs.Lines.{HasTimes, said_by, start as start_order};
ghost use Rattle.art_schedule.specs.Orders.{EndsWith, GoesOn, Leaves, Obeys, fits};
ghost use Rattle.art_schedule.specs.Steps.{ReachesOrStops, StepsOrStops};
ghost use Rattle.art_schedule.specs.Seats.{IsSeat, is_idle};
ghost use Rattle.art_server.specs.ArtTable.declared.passes.Pass.{Pass as PassOf};

use crate::seats::{Room, Seat, begin, end};
use crate::steps::{make_steps, make_until};
use crate::stops::Stop;
use crate::{Mark, Order};
use art_lines::{LineFault, parse_line};
use art_server::art_table::Table;
use art_server::{Refusal, print_ending, print_reply};
use std::alloc::Global;

/// What is told of a pass that followed an order.
#[derive(Drop)]
pub(crate) enum Told {
    /// Nothing: its command is under way.
    Nothing,
    /// It has made the step with the mark.
    At(Mark),
    /// It has made its steps.
    Stepped,
    /// Its command has ended: the text of the reply, and how often it began anew.
    Ended(Vec<u8>, u64),
}

/// The pass at the place does what it is told. An order for a command under way is bad where none is, and so is a start where one is.
pub(crate) fn follow(
    alloc: Global,
    table: &Table,
    seat: &mut Seat,
    room: &mut Room,
    order: Order<'_>,
) -> Result<Told, Stop>
    requires seat { (p : PassOf) × IsSeat table.now p seat.old room.old.items }
    requires times { HasTimes order }
    ensures keeps { (p : PassOf) → IsSeat table.now p seat.old room.old.items → IsSeat table.now p seat.new room.new.items }
    ensures obeys { IfOk result (Obeys table.now (said_by order.entry) seat.old room.old.items seat.new room.new.items) }
    ensures bad { (result ≡ Err Stop.BadLine) ↔ (fits (said_by order.entry) (is_idle seat.old) ≡ false) }
    ensures leaves { IfErr result (λ stop. Leaves table.now stop seat.old room.old seat.new room.new) }
{
    match order {
        Order::Start { turns, text } => start(alloc, table, seat, room, turns, text),
        Order::Until { mark, count: times } => {
            if until(table, seat, room, mark, times)? {
                return Ok(Told::At(mark));
            }
            ended(alloc, table, seat, room)
        }
        Order::Step(count) => {
            if step(table, seat, room, count)? {
                return Ok(Told::Stepped);
            }
            ended(alloc, table, seat, room)
        }
        Order::End => ended(alloc, table, seat, room),
    }
}

/// Begins the command that the text says. A text that says none is answered at once.
fn start(
    alloc: Global,
    table: &Table,
    seat: &mut Seat,
    room: &mut Room,
    turns: u32,
    text: &[u8],
) -> Result<Told, Stop>
    requires { (p : PassOf) × IsSeat table.now p seat.old room.old.items }
    ensures keeps { (p : PassOf) → IsSeat table.now p seat.old room.old.items → IsSeat table.now p seat.new room.new.items }
    ensures obeys { IfOk result (Obeys table.now (start_order turns text.now) seat.old room.old.items seat.new room.new.items) }
    ensures bad { (result ≡ Err Stop.BadLine) ↔ (is_idle seat.old ≡ false) }
    ensures leaves { IfErr result (λ stop. Leaves table.now stop seat.old room.old seat.new room.new) }
{
    if !seat.is_idle() {
        return Err(Stop::BadLine);
    }
    match parse_line(alloc, text) {
        Ok(command) => {
            begin(table, seat, room, command, turns);
            Ok(Told::Nothing)
        }
        Err(fault) => match fault {
            LineFault::NoMemory => Err(Stop::NoMemory),
            _ => {
                let text = print_reply(alloc, &Err(Refusal::from(fault)))?;
                Ok(Told::Ended(without_feed(text), 0))
            }
        },
    }
}

/// Makes steps until so many have the mark, or all that are left: whether so many have it.
fn until(
    table: &Table,
    seat: &mut Seat,
    room: &mut Room,
    mark: Mark,
    times: u32,
) -> Result<bool, Stop>
    requires seat { (p : PassOf) × IsSeat table.now p seat.old room.old.items }
    requires some { 0 < times }
    ensures keeps { (p : PassOf) → IsSeat table.now p seat.old room.old.items → IsSeat table.now p seat.new room.new.items }
    ensures obeys { IfOk result (λ all. GoesOn table.now seat.old room.old.items seat.new room.new.items
        (λ r s. ReachesOrStops table.now mark times r s room.new.items all)) }
    ensures bad { IfErr result (λ stop. (stop ≡ Stop.BadLine) × (is_idle seat.old ≡ true) × (seat.new ≡ seat.old) × (room.new ≡ room.old)) }
    ensures going { OnOk result (is_idle seat.old ≡ false) }
{
    match seat {
        Seat::Going(running) => Ok(make_until(table, running, room, mark, times)),
        _ => Err(Stop::BadLine),
    }
}

/// Makes so many steps, or all that are left: whether all were made.
fn step(table: &Table, seat: &mut Seat, room: &mut Room, count: u32) -> Result<bool, Stop>
    requires { (p : PassOf) × IsSeat table.now p seat.old room.old.items }
    ensures keeps { (p : PassOf) → IsSeat table.now p seat.old room.old.items → IsSeat table.now p seat.new room.new.items }
    ensures obeys { IfOk result (λ all. GoesOn table.now seat.old room.old.items seat.new room.new.items
        (λ r s. StepsOrStops table.now count r s room.new.items all)) }
    ensures bad { IfErr result (λ stop. (stop ≡ Stop.BadLine) × (is_idle seat.old ≡ true) × (seat.new ≡ seat.old) × (room.new ≡ room.old)) }
    ensures going { OnOk result (is_idle seat.old ≡ false) }
{
    match seat {
        Seat::Going(running) => Ok(make_steps(table, running, room, u64::from(count))),
        _ => Err(Stop::BadLine),
    }
}

/// Makes all steps that are left: the reply.
fn ended(alloc: Global, table: &Table, seat: &mut Seat, room: &mut Room) -> Result<Told, Stop>
    requires { (p : PassOf) × IsSeat table.now p seat.old room.old.items }
    ensures keeps { (p : PassOf) → IsSeat table.now p seat.old room.old.items → IsSeat table.now p seat.new room.new.items }
    ensures obeys { IfOk result (EndsWith table.now seat.old room.old.items seat.new room.new.items) }
    ensures bad { (result ≡ Err Stop.BadLine) ↔ (is_idle seat.old ≡ true) }
    ensures leaves { IfErr result (λ stop. Leaves table.now stop seat.old room.old seat.new room.new) }
{
    if seat.is_idle() {
        return Err(Stop::BadLine);
    }
    let (ending, restarts) = end(table, seat, room);
    let text = print_ending(alloc, &ending, room.as_slice())?;
    Ok(Told::Ended(without_feed(text), restarts))
}

/// The text of a reply without the line feed at its end.
fn without_feed(text: Vec<u8>) -> Vec<u8>
    ensures { result.items ≡ take (vec_len text - 1) text.items }
{
    let mut text = text;
    let _ = text.pop();
    text
}
