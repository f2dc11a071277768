//! The law of workers, for the crates above to cite.
ghost use Rattle.art_workers.specs.Serving.{ServedAreOneMap};

/// A table was served and then closed with the passes that came back. The bytes of each session print what one sorted map answers to its
/// lines, at points of one legal history that leaves the rows of the close.
pub fn served_are_one_map()
    ensures { ServedAreOneMap }
{}
