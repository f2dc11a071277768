//! The law of typed histories, for the crates above to cite.
ghost use Rattle.art_typed.specs.Laws.{HistoriesAreTyped};

/// A legal history of byte keys that spell tuples is a legal history of typed rows.
pub fn histories_are_typed()
    ensures { HistoriesAreTyped }
{}
