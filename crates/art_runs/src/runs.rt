//! A list of turns over one world.
ghost use Rattle.std.specs.Prelude.{◌≡◌, ◌<◌, ◌≤◌, ℕ, List, length, Some};
ghost use Rattle.std.specs.List.{slice_get};
ghost use Rattle.art_change.specs.Calls.{IsCalling, Wish};
ghost use Rattle.art_key.specs.declared.columns.Column.{Column};
ghost use Rattle.art_runs.specs.Alone.{AreTurnsOf, GoesAlone};
ghost use Rattle.art_runs.specs.Ops.{IsRunOfOps, IsUnderWay, caller_in};
ghost use Rattle.art_runs.specs.Runs.{HasOneHistory, IsCarriedOn};
ghost use Rattle.art_runs.specs.Typed.{AreTyped, HasTypedHistory};
ghost use Rattle.art_runs.specs.declared.ops.Op.{Op as OpOf};
ghost use Rattle.art_runs.specs.OthersIdle.{IsAlone};
ghost use Rattle.art_step.specs.WordRows.{view_at, views_of};
ghost use Rattle.art_step.specs.declared.views.View.{View};

use crate::{Op, calls_alone_do_not_fail};
use art_typed::histories_are_typed;
use art_world::World;

/// Each turn lets the op of the pass that it names make one step; op i is that of pass i. A turn that names no op, or one that has
/// ended, does nothing.
///
/// Whatever the turns: one legal history, whose rows the tree shows, begins with all that the passes have seen (`history`), and is one
/// of typed rows where the keys spell tuples (`typed`). Each op made its event at one turn of its own, or none: just that of its
/// answer, where it has ended; it has ended where it had turns enough; and it does not end as an overlap where the keys spell tuples
/// (`each`). An op that alone has turns from its beginning on, while every other pass is idle, meets no failure, never begins anew, and
/// is refused neither as crowded nor, with turns enough, as busy (`alone`).
pub fn run(world: &mut World, ops: &mut [Op], turns: &[u32])
    requires passes { length ops.old ≤ length world.old.views }
    requires under_way { (p : ℕ) (op : OpOf) → slice_get ops.old p ≡ Some op →
        IsUnderWay world.old.sizes op (view_at world.old.views p) }
    ensures turns { IsRunOfOps turns.now world.old ops.old world.new ops.new }
    ensures under_way { (p : ℕ) (op : OpOf) → slice_get ops.new p ≡ Some op →
        IsUnderWay world.new.sizes op (view_at world.new.views p) }
    ensures sizes { world.new.sizes ≡ world.old.sizes }
    ensures passes { length world.new.views ≡ length world.old.views }
    ensures ops { length ops.new ≡ length ops.old }
    ensures history { HasOneHistory world.old world.new }
    ensures typed { (schema : List Column) → AreTyped schema world.old ops.old → HasTypedHistory schema world.old world.new }
    ensures each { (p : ℕ) (op : OpOf) (w : Wish) (given most : ℕ) (u : View) → slice_get ops.old p ≡ Some op →
        IsCalling world.old.sizes w given most u (caller_in op) (view_at world.old.views p) →
        IsCarriedOn turns.now world.old ops.old world.new ops.new p op w given most u }
    ensures alone { (p : ℕ) (op : OpOf) (w : Wish) (given most : ℕ) → slice_get ops.old p ≡ Some op →
        IsCalling world.old.sizes w given most (view_at world.old.views p) (caller_in op) (view_at world.old.views p) →
        AreTurnsOf p turns.now ops.old → IsAlone p (views_of world.old.views) → GoesAlone world.old world.new ops.new p op most }
    ensures idle { (q : ℕ) → length ops.old ≤ q → view_at world.new.views q ≡ view_at world.old.views q }
{
    world.stays_sound();
    histories_are_typed();
    calls_alone_do_not_fail();
    world.run(ops, turns);
    world.stays_sound();
}
