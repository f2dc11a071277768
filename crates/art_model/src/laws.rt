//! Laws of the definitions, which the proofs of the crates above cite. Nothing here runs.
ghost use Rattle.art_model.specs.Laws.{TextsStandByCodePoints, OrdersAreTotal, OrdersTellTuplesApart, SearchesEndAtPlaces, RowsAnswerAtPlaces, RowsAnswerInGaps, RowsStaySorted, RowsStaySortedWithout};

/// Texts stand by their bytes of UTF-8 as they stand by their code points.
pub fn texts_stand_by_code_points()
    ensures { TextsStandByCodePoints }
{}

/// Whichever columns descend, the order of tuples is total, and takes just those with the same values for the same.
pub fn tuples_have_orders()
    ensures total { OrdersAreTotal }
    ensures same { OrdersTellTuplesApart }
{}

/// A binary search of sorted rows ends at the row with the tuple or in the gap for it.
pub fn rows_are_searched()
    ensures { SearchesEndAtPlaces }
{}

/// What the map answers where a search of its rows ended, and which rows it then has.
pub fn rows_answer_at_places()
    ensures place { RowsAnswerAtPlaces }
    ensures gap { RowsAnswerInGaps }
    ensures sorted { RowsStaySorted }
    ensures sorted_without { RowsStaySortedWithout }
{}
