//! A call that alone makes steps, while every other pass is idle: no step of it fails.
//!
//! # What may fail
//!
//! Three kinds of step may come to nothing: a look at a version word that is locked, obsolete or changed (begin, check, upgrade), and a
//! take of a number that another pass took since its word was found. Each is a failure in the view of the pass, and after each a call
//! begins anew, as long as it has turns.
//!
//! # Why none does
//!
//! ```text
//!   words        version of a cell      word of free numbers      words of the other passes
//!                      │                        │                          │
//!   the pass      stamps it ── it stays    finds it ── it stays      finds 0, each time
//!                 until the pass itself    but for the numbers       as they are idle
//!                 unlocks a cell           that it took itself
//! ```
//!
//! *Stamps stay current.* A version word changes only at a step of the pass itself: at an upgrade or a claim, and then the pass holds the
//! cell, or at a release. A change is released only once its event was made, or where it is given up for a counter at its end; after that
//! the call looks at no version word any more (`IsCurrentBy`).
//!
//! *What is begun is in the tree.* The notes under a current stamp hold of the tree; a descent and a look begin only what these show
//! there, and a cell of the tree that nobody holds is clear, since none is obsolete (`IsLasting` of `art_world`).
//!
//! *A bit that was found set is set.* Nobody else takes a number, and the pass looks for one only of a kind that it has not in hand
//! (`HasFound`).
//!
//! # What is proved
//!
//! `IsSolo` holds at the beginning of a call of an idle pass (`begins`) and stays at each of its steps (`steps`), so none of them fails
//! and the call never begins anew (`restarts`). It ends neither crowded nor, where it had turns enough, busy (`ends`).
ghost use Rattle.art_runs.specs.Solo.{BeginLaw, EndLaw, RestartLaw, StepLaw};

/// A call of an idle pass that alone makes steps meets no failure, whatever it is asked for.
pub fn calls_alone_do_not_fail()
    ensures begins { BeginLaw }
    ensures steps { StepLaw }
    ensures restarts { RestartLaw }
    ensures ends { EndLaw }
{}
