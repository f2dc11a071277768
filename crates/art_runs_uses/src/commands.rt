//! Drawn inserts, removals and gets answer as a map of rows does, and all numbers are accounted for in the end.
ghost use Rattle.art_runs_uses.specs.Writes.{WritesFirst};

use crate::cells::account_with_rows;
use crate::clients::{Client, check_find, check_put, check_take, opened};
use art_change::WriteOutcome;
use art_key::{Schema, encode};
use art_look::Outcome as Got;
use art_model::{Command, Reply, SortedRows, Tuple, Value};
use art_step::Sizes;
use rand_pcg::Pcg32;
use rand_pcg::rand_core::{Rng, SeedableRng};
use std::alloc::Global;
use std::process::Abort;

const SIZES: Sizes = Sizes {
    leaves: 1024,
    n4: 1024,
    n16: 256,
    n48: 64,
    n256: 16,
    passes: 2,
};

/// A drawn tuple, of each column a number below its bound.
fn draw_tuple(rt: &impl Abort, numbers: &mut Pcg32, bounds: &[u32]) -> Tuple {
    let mut tuple = Tuple::new();
    for bound in bounds {
        let number = numbers.next_u32().checked_rem(*bound).unwrap_or(0);
        let pushed = tuple.try_push(Value::Int(i128::from(number)));
        assert!(rt; pushed.is_ok());
    }
    tuple
}

/// How an insert or a removal ends whose map answers so, where leaves are left.
fn outcome_of(reply: &Reply) -> Option<WriteOutcome> {
    match *reply {
        Reply::Inserted => Some(WriteOutcome::New),
        Reply::Present(value) => Some(WriteOutcome::Present(value)),
        Reply::Removed(value) => Some(WriteOutcome::Gone(value)),
        Reply::Absent => Some(WriteOutcome::Absent),
        _ => None,
    }
}

/// What is done with a tuple.
enum Drawn {
    Insert(u64),
    Remove,
    Get,
}

/// A drawn command: an insert half of the time, else a removal or a get.
fn draw(numbers: &mut Pcg32) -> Drawn {
    match numbers.next_u32() % 4 {
        0 | 1 => Drawn::Insert(numbers.next_u64()),
        2 => Drawn::Remove,
        _ => Drawn::Get,
    }
}

/// How a get ends whose map answers so.
fn got_of(reply: &Reply) -> Option<Got> {
    match *reply {
        Reply::Found(value) => Some(Got::Found(value)),
        Reply::Absent => Some(Got::Absent),
        _ => None,
    }
}

/// What the map replies to the command, of which no scan lists more rows than one may.
fn reply(rt: &impl Abort, rows: &mut SortedRows, command: &Command) -> Reply {
    if let Command::Scan(_, _, limit) = command {
        assert!(rt; *limit <= 100);
    }
    rows.apply(command).expect(rt, "memory")
}

/// How an insert or a removal ends, as the map has it.
fn wanted_outcome(rt: &impl Abort, rows: &mut SortedRows, command: &Command) -> WriteOutcome {
    outcome_of(&reply(rt, rows, command)).expect(rt, "a reply to a write")
}

/// How a get ends, as the map has it.
fn wanted_got(rt: &impl Abort, rows: &mut SortedRows, command: &Command) -> Got {
    got_of(&reply(rt, rows, command)).expect(rt, "a reply to a get")
}

/// One command of the tuple ends in the tree as in the map.
fn check_drawn(
    rt: &impl Abort,
    client: &mut Client,
    rows: &mut SortedRows,
    schema: &Schema,
    tuple: Tuple,
    drawn: Drawn,
)
    requires { WritesFirst client.old.world client.old.caller }
    ensures { WritesFirst client.new.world client.new.caller }
{
    let key = encode(schema, &tuple).expect(rt, "a tuple of the schema");
    match drawn {
        Drawn::Insert(value) => {
            let wanted = wanted_outcome(rt, rows, &Command::Insert(tuple, value));
            check_put(rt, client, &key, value, wanted);
        }
        Drawn::Remove => {
            let wanted = wanted_outcome(rt, rows, &Command::Remove(tuple));
            check_take(rt, client, &key, wanted);
        }
        Drawn::Get => {
            let wanted = wanted_got(rt, rows, &Command::Get(tuple));
            check_find(rt, client, &key, wanted);
        }
    }
}

/// 10,000 drawn commands answer as a map of rows does, and all numbers are accounted for in the end.
fn check_commands(rt: &impl Abort, alloc: Global, columns: &str, bounds: &[u32]) {
    let mut client = opened(rt, alloc, &SIZES, 0);
    let schema = Schema::parse(columns).expect(rt, "a schema");
    let mut rows = SortedRows::new(alloc, &schema.order());
    let mut numbers = Pcg32::seed_from_u64(1);
    for _ in 0..10000 {
        let tuple = draw_tuple(rt, &mut numbers, bounds);
        let drawn = draw(&mut numbers);
        check_drawn(rt, &mut client, &mut rows, &schema, tuple, drawn);
    }
    let limbo = client.caller.limbo();
    account_with_rows(rt, alloc, &client.world, limbo, rows.rows().len());
}

#[test]
fn drawn_commands_of_one_column_answer_as_a_map(rt: HostRuntime) {
    check_commands(&rt, rt.alloc(), "u16", &[900]);
}

#[test]
fn drawn_commands_of_three_columns_answer_as_a_map(rt: HostRuntime) {
    check_commands(&rt, rt.alloc(), "u8,u16,u8", &[3, 150, 2]);
}
