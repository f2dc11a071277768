//! The laws of loads, for the crates above to cite.
ghost use Rattle.std.specs.List.{AllByRecursion};
ghost use Rattle.std.specs.Prelude.{ℕ};
ghost use Rattle.art_load.specs.Closes.{LoadsAreOneMap};
ghost use Rattle.art_load.specs.Commands.{load_commands};
ghost use Rattle.art_load.specs.Left.{RowsLeft};
ghost use Rattle.art_load.specs.Loads.{IsCall};
ghost use Rattle.art_load.specs.Own.{LoadsTellOwn};

/// A thread of a load told its answered calls as events of its own, of each kind as many as it counted, in each history that begins with
/// what its pass has seen. Each command of a load is a call.
pub fn loads_tell_own()
    ensures law { LoadsTellOwn }
    ensures calls { (seed keys thread n : ℕ) → AllByRecursion IsCall (load_commands seed keys thread n) }
{}

/// A legal history leaves as many rows as it says were inserted, less those that it says were removed.
pub fn rows_left()
    ensures { RowsLeft }
{}

/// A table was opened, loaded by all its passes, and closed with them. One legal history leaves the rows of the close. At the places of
/// each pass one sorted map gives the replies of its thread. Of each kind the history has as many events as were counted, so the rows are
/// those inserted less those removed.
pub fn loads_are_one_map()
    ensures { LoadsAreOneMap }
{}
