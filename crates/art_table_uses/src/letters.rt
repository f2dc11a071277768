//! What a pass saw goes over a channel to a pass in another thread.
ghost use Rattle.art_table.specs.Marks.{IsMarkOf};
ghost use Rattle.art_table.specs.Tables.{IsPassOf};
ghost use Rattle.art_table_uses.specs.Letters.{IsNamed, basis_of_mark, table_of_mark};
ghost use Rattle.std.specs.Prelude.{◌≡◌};

use crate::tables::{TWO_PASSES, by_two, check_find, check_put};
use art_table::{Inserted, Mark, Pass, Table, learn, mark, meet};
use crossbeam_channel::{Receiver, Sender, bounded};
use std::alloc::Global;
use std::marker::{Brand, PhantomData};
use std::process::Abort;
use std::sync::Wait;
use std::thread::{Threads, join};

/// The name of a table, of which letters are: a test picks it.
trait Naming {
    ghost use Rattle.art_shared.specs.declared.law.Basis.{Basis};
    ghost use Rattle.atomic_table.specs.Seated.{TableId};

    ghost table: { TableId };

    ghost basis: { Basis };
}

impl Naming for Brand {
    ghost use Rattle.art_shared.specs.Passes.{no_basis};
    ghost use Rattle.art_table_uses.specs.Letters.{no_table};

    ghost table = { no_table };

    ghost basis = { no_basis };
}

/// A mark of the table with this name.
#[derive(Drop)]
struct Letter<N: Naming> {
    mark: Mark,
    of: PhantomData<N>,
    ghost table: { table_of_mark mark ≡ N.table },
    ghost basis: { basis_of_mark mark ≡ N.basis },
}

/// The row of 7 is inserted, and what was seen is sent.
fn sends<N: Naming, R: Wait + Abort>(rt: &R, table: &Table, pass: Pass, sender: Sender<Letter<N>>)
    requires pass { IsPassOf table.now pass }
    requires named { IsNamed table.now N.table N.basis }
{
    let mut pass = pass;
    check_put(rt, table, &mut pass, 7, 70, Ok(Inserted::New));
    let seen = mark(table, &mut pass);
    let letter: Letter<N> = Letter {
        mark: seen,
        of: PhantomData,
    };
    assert!(rt; sender.send(rt, letter).is_ok());
}

/// A letter comes, what was seen is learnt, and the row of 7 found.
fn receives<N: Naming, R: Wait + Abort>(
    rt: &R,
    table: &Table,
    pass: Pass,
    receiver: Receiver<Letter<N>>,
)
    requires pass { IsPassOf table.now pass }
    requires named { IsNamed table.now N.table N.basis }
{
    let letter = receiver.recv(rt).ok().expect(rt, "a letter");
    let Letter { mark: seen, of: _ } = letter;
    let mut pass = pass;
    learn(table, &mut pass, seen);
    check_find(rt, table, &mut pass, 7, Ok(Some(70)));
}

/// One thread sends, and another receives.
fn over_a_channel<N: Naming + Send + Sync, R: Threads + Wait + Abort + Sync>(
    rt: &R,
    alloc: Global,
    table: &Table,
    one: Pass,
    two: Pass,
)
    requires one { IsPassOf table.now one }
    requires two { IsPassOf table.now two }
    requires named { IsNamed table.now N.table N.basis }
{
    let channel = bounded::<Letter<N>, Global>(alloc, 1);
    let (sender, receiver) = channel.expect(rt, "room for a channel");
    join(
        rt,
        || sends::<N, R>(rt, table, one, sender),
        || receives::<N, R>(rt, table, two, receiver),
    );
}

#[test]
fn a_mark_goes_over_a_channel(rt: HostRuntime) {
    let (table, one, two) = by_two(&rt, rt.alloc(), "u16", TWO_PASSES);
    over_a_channel::<Brand, _>(&rt, rt.alloc(), &table, one, two);
}

#[test]
fn two_passes_meet(rt: HostRuntime) {
    let (table, mut one, mut two) = by_two(&rt, rt.alloc(), "u16", TWO_PASSES);
    check_put(&rt, &table, &mut one, 7, 70, Ok(Inserted::New));
    meet(&table, &mut one, &mut two);
    check_find(&rt, &table, &mut two, 7, Ok(Some(70)));
}
