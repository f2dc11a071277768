//! The laws of scans by looks, for the crates above to cite.
ghost use Rattle.art_scan.specs.Alone.{LooksAtOneStateAreAnswers};
ghost use Rattle.art_scan.specs.Laws.{LooksThatTileAreScans};

/// Looks that tile a range, and may stop where they stopped, are a scan of it.
pub fn looks_that_tile_are_scans()
    ensures { LooksThatTileAreScans }
{}

/// Looks that tile a range, and all saw the same rows, list what the sorted map answers to a scan.
pub fn looks_at_one_state_are_answers()
    ensures { LooksAtOneStateAreAnswers }
{}
