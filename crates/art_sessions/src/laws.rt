//! The laws of sessions, for the crates above to cite.
ghost use Rattle.art_sessions.specs.Laws.{ClosedAlone, SessionsAloneAreOneMap};
ghost use Rattle.art_sessions.specs.Points.{CommandsArePoints};
ghost use Rattle.art_sessions.specs.Talks.{SessionsAreOneMap};

/// What a pass answered to commands is what one sorted map answers at points of any history that begins with what the pass has seen.
pub fn commands_are_points()
    ensures { CommandsArePoints }
{}

/// A table was closed with its passes, each of which had sessions, one after another. There is one legal history that leaves its rows, and
/// the bytes of each session print what one sorted map answers to its lines at points of it.
pub fn sessions_are_one_map()
    ensures { SessionsAreOneMap }
{}

/// What the only pass of a table answered to lines is what one sorted map answers to them, wherever it stopped.
pub fn sessions_alone_are_one_map()
    ensures { SessionsAloneAreOneMap }
{}

/// A table that was closed with its one pass: that has seen its own events alone, and the rows are those that they leave.
pub fn closed_alone()
    ensures { ClosedAlone }
{}
