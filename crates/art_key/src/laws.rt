//! The laws of keys, for the crates above to cite. Each function is its contract, and does nothing.
ghost use Rattle.art_key.specs.Laws.{KeysStandAsTuples, NoKeyBeginsAnother, TuplesAreReadBack, WhatIsReadIsSpelled, SpellingsAreBytes, SpellingsAreNarrow};

/// Two keys of one schema stand as their tuples do.
pub fn keys_stand_as_tuples()
    ensures { KeysStandAsTuples }
{}

/// No key of a schema begins another key of it.
pub fn no_key_begins_another()
    ensures { NoKeyBeginsAnother }
{}

/// A key is read back as its tuple, and what is read as a tuple is its key.
pub fn spellings_are_read_back()
    ensures back { TuplesAreReadBack }
    ensures exact { WhatIsReadIsSpelled }
    ensures bytes { SpellingsAreBytes }
    ensures narrow { SpellingsAreNarrow }
{}
