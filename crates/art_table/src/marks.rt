//! Passes that hear of one another.
ghost use Rattle.std.specs.Prelude.{◌≡◌};
ghost use Rattle.art_table.specs.Marks.{HasLooked, HasMet, IsMarkOf, StartsWith, history_of};
ghost use Rattle.art_table.specs.Tables.{IsPassOf, seen_by};

use crate::{Mark, Pass, Table};

/// What the pass sees after a look of the anchor, for any pass of the table to learn.
pub fn mark(table: &Table, pass: &mut Pass) -> Mark
    requires { IsPassOf table.now pass.old }
    ensures looked { HasLooked table.now 1 pass.old pass.new }
    ensures history { history_of table.now result ≡ seen_by table.now pass.new }
    ensures mark { IsMarkOf table.now result }
{
    Mark {
        mark: table.shared.mark(&mut pass.seat),
    }
}

/// The pass sees what the pass of the mark had seen, and all that was done since.
pub fn learn(table: &Table, pass: &mut Pass, mark: Mark)
    requires pass { IsPassOf table.now pass.old }
    requires mark { IsMarkOf table.now mark }
    ensures looked { HasLooked table.now 1 pass.old pass.new }
    ensures learnt { StartsWith (seen_by table.now pass.new) (history_of table.now mark) }
{
    let Mark { mark } = mark;
    table.shared.learn(&mut pass.seat, mark);
}

/// Each of two passes sees what the other had seen, and the other sees what the one sees.
pub fn meet(table: &Table, one: &mut Pass, other: &mut Pass)
    requires one { IsPassOf table.now one.old }
    requires other { IsPassOf table.now other.old }
    ensures { HasMet table.now one.old one.new other.old other.new }
{
    table.shared.meet(&mut one.seat, &mut other.seat);
}
