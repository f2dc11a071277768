//! The law of the end of a scan, for the crates above to cite.
ghost use Rattle.art_scan.specs.Ends.{AfterEndsRange};

/// The bound just above the key of a tuple is the end of a scan up to the tuple.
pub fn after_ends_range()
    ensures { AfterEndsRange }
{}
