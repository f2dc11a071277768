//! A mark goes over a channel, from a pass in one thread to a pass in another.
ghost use Rattle.std.specs.Prelude.{◌≡◌};
ghost use Rattle.art_shared.specs.Marks.{IsMarkOf};
ghost use Rattle.art_shared.specs.Tables.{IsPassOf};
ghost use Rattle.art_shared_uses.specs.Clients.{IsNew};
ghost use Rattle.art_shared_uses.specs.Letters.{IsNamed, basis_of_mark, table_of_mark};

use crate::clients::{last_of, opened};
use crate::marks::{learns_and_finds, puts_and_marks};
use art_shared::{Mark, Pass, Shared};
use art_step::Sizes;
use crossbeam_channel::{Receiver, Sender, bounded};
use std::alloc::Global;
use std::marker::{Brand, PhantomData};
use std::process::Abort;
use std::sync::Wait;
use std::thread::{Threads, join};

/// More than one word of free numbers in each pool.
const SIZES: Sizes = Sizes {
    leaves: 256,
    n4: 128,
    n16: 128,
    n48: 128,
    n256: 128,
    passes: 2,
};

/// The name of a table, of which letters are: a test picks it.
trait Naming {
    ghost use Rattle.art_shared.specs.declared.law.Basis.{Basis};
    ghost use Rattle.atomic_table.specs.Seated.{TableId};

    ghost table: { TableId };

    ghost basis: { Basis };
}

impl Naming for Brand {
    ghost use Rattle.art_shared_uses.specs.Letters.{no_table};
    ghost use Rattle.art_shared.specs.Passes.{no_basis};

    ghost table = { no_table };

    ghost basis = { no_basis };
}

/// A mark of the table with this name.
#[derive(Drop)]
struct Letter<N: Naming> {
    mark: Mark,
    of: PhantomData<N>,
    ghost table: { table_of_mark mark ≡ N.table },
    ghost basis: { basis_of_mark mark ≡ N.basis },
}

/// The row with key 7 is inserted, and what was seen is sent.
fn sends<N: Naming, R: Wait + Abort>(rt: &R, shared: &Shared, pass: Pass, sender: Sender<Letter<N>>)
    requires pass { IsNew shared.now pass }
    requires named { IsNamed shared.now N.table N.basis }
{
    let (_pass, mark) = puts_and_marks(rt, shared, pass, 7, 70);
    let letter: Letter<N> = Letter {
        mark,
        of: PhantomData,
    };
    assert!(rt; sender.send(rt, letter).is_ok());
}

/// A letter comes, what was seen is learnt, and the row with key 7 found.
fn receives<N: Naming, R: Wait + Abort>(
    rt: &R,
    shared: &Shared,
    pass: Pass,
    receiver: Receiver<Letter<N>>,
)
    requires pass { IsNew shared.now pass }
    requires named { IsNamed shared.now N.table N.basis }
{
    let letter = receiver.recv(rt).ok().expect(rt, "a letter");
    let Letter { mark, of: _ } = letter;
    learns_and_finds(rt, shared, pass, mark, 7, 70);
}

/// One thread sends, and another receives.
fn over_a_channel<N: Naming + Send + Sync, R: Threads + Wait + Abort + Sync>(
    rt: &R,
    alloc: Global,
    shared: &Shared,
    one: Pass,
    two: Pass,
)
    requires one { IsNew shared.now one }
    requires two { IsNew shared.now two }
    requires named { IsNamed shared.now N.table N.basis }
{
    let channel = bounded::<Letter<N>, Global>(alloc, 1);
    let (sender, receiver) = channel.expect(rt, "room for a channel");
    join(
        rt,
        || sends::<N, R>(rt, shared, one, sender),
        || receives::<N, R>(rt, shared, two, receiver),
    );
}

#[test]
fn a_mark_goes_over_a_channel(rt: HostRuntime) {
    let (shared, mut passes) = opened(&rt, rt.alloc(), "u16", &SIZES, 0);
    let one = last_of(&rt, &shared, &mut passes);
    let two = last_of(&rt, &shared, &mut passes);
    over_a_channel::<Brand, _>(&rt, rt.alloc(), &shared, one, two);
}
