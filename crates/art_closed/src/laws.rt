//! The laws of what a closed table has, for the crates above to cite.
ghost use Rattle.art_closed.specs.Laws.{LimbosAddUp, MapsSpellOneList};

/// A map spells one list of rows.
pub fn maps_spell_one_list()
    ensures { MapsSpellOneList }
{}

/// What waits in the limbos of all passes is the sum of what waits in each.
pub fn limbos_add_up()
    ensures { LimbosAddUp }
{}
