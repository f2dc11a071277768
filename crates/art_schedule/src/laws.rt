//! The law of schedules, for the crates above to cite.
ghost use Rattle.art_schedule.specs.Points.{SchedulesAreOneMap};

/// A schedule was run on the eight passes of a table, and that was closed with the passes as they came back. There is one legal history
/// that leaves its rows. The replies in what was written are what one sorted map answers, at points of it, to what each pass was asked.
pub fn schedules_are_one_map()
    ensures { SchedulesAreOneMap }
{}
