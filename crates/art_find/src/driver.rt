//! Makes the steps of a finding, and the reads of its straight way.
ghost use Rattle.std.specs.Prelude.{◌≡◌, ◌≢◌, IfNone, IfSome, None, ⊤};
ghost use Rattle.art_find.specs.Findings.{IsToSettle};
ghost use Rattle.art_find.specs.Asking.{MayLook};
ghost use Rattle.art_step.specs.Acting.{Answers, IsAllowed, telling};
ghost use Rattle.art_step.specs.declared.actions.Action.TheVariants.{Read as read_asked, ReadLeaf as read_leaf_asked};
ghost use Rattle.art_step.specs.declared.actions.Action.TheVariants.{Settle as settle_asked};
ghost use Rattle.art_step.specs.Steps.Read.{LeafOutcome, Outcome as ReadOutcome};
ghost use Rattle.art_step.specs.declared.deeds.Deed.{Deed};
ghost use Rattle.art_step.specs.declared.views.Stamp.{Stamp as StampOf};

use art_step::{Action, Answer, EpochSteps, Stamp, Steps, perform};

/// Makes the step that is asked for, unless it settles an answer.
#[inline(always)]
pub fn look<S: EpochSteps>(steps: &mut S, action: Action) -> Option<Answer>
    requires allowed { MayLook (S.sizes steps.old) (λ s. ⊤) (S.view steps.old) action }
    ensures only { S.only steps.old steps.new }
    ensures row { IfSome result (λ r. (d : Deed) → Answers (S.sizes steps.old) (telling d) action r (S.view steps.old) (S.view steps.new)) }
    ensures unsettled { IfSome result (λ r. (x : StampOf) → action ≢ settle_asked x) }
    ensures none { IfNone result (IsToSettle action × (S.view steps.new ≡ S.view steps.old)) }
{
    match action {
        Action::Settle { .. } => None,
        _ => Some(perform(steps, action, None)),
    }
}

/// Reads a word of the stamp's cell, to which a path was noted.
#[inline(always)]
pub fn read_word<S: Steps>(steps: &mut S, stamp: Stamp, place: usize) -> u64
    requires allowed { IsAllowed (S.sizes steps.old) None (S.view steps.old) (read_asked stamp place) }
    ensures only { S.only steps.old steps.new }
    ensures row { ReadOutcome (S.sizes steps.old) (S.view steps.old) (S.view steps.new) stamp place result }
{
    steps.read(stamp, place)
}

/// Reads a word of a leaf that the stamp's cell names, which was checked after it named the leaf.
#[inline(always)]
pub fn read_leaf_word<S: Steps>(steps: &mut S, stamp: Stamp, leaf: u32, place: usize) -> u64
    requires allowed { IsAllowed (S.sizes steps.old) None (S.view steps.old) (read_leaf_asked stamp leaf place) }
    ensures only { S.only steps.old steps.new }
    ensures row { LeafOutcome (S.view steps.old) (S.view steps.new) stamp leaf place result }
{
    steps.read_leaf(stamp, leaf, place)
}
