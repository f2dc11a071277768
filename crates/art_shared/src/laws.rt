//! The law of a pass that was lent, for the crates above to cite.
ghost use Rattle.art_shared.specs.Laws.{LentPassesStay};

/// A pass that was lent to its table, and on which only steps were made, is one of the table still.
pub fn lent_passes_stay()
    ensures { LentPassesStay }
{}
