//! One law for each kind of step: what is sound before it is sound after it. Each is the contract of a function with
//! nothing to do.
ghost use Rattle.art_step.specs.Determined.{CountLaw, HistoryGrows, HistoryLaw, LimboLaw, LogicalLaw, MarkedLaw, PassLaw, PinsLaw, SeenLaw};
ghost use Rattle.art_step.specs.Steps.Advance as advance;
ghost use Rattle.art_step.specs.Steps.Anchor as anchor;
ghost use Rattle.art_step.specs.Steps.Begin as begin;
ghost use Rattle.art_step.specs.Steps.Claim as claim;
ghost use Rattle.art_step.specs.Steps.Commit as commit;
ghost use Rattle.art_step.specs.Steps.Check as check;
ghost use Rattle.art_step.specs.Steps.Epoch as epoch;
ghost use Rattle.art_step.specs.Steps.Give as give;
ghost use Rattle.art_step.specs.Opening.{OpenLaw};
ghost use Rattle.art_step.specs.Steps.Pin as pin;
ghost use Rattle.art_step.specs.Steps.Read as read;
ghost use Rattle.art_step.specs.Steps.Release as release;
ghost use Rattle.art_step.specs.Steps.{StepLaw};
ghost use Rattle.art_step.specs.Steps.Take as take_free;
ghost use Rattle.art_step.specs.Steps.Claim.{LinkedLaw, UnclaimedLaw, UnstampedLaw};
ghost use Rattle.art_step.specs.Steps.Upgrade as upgrade;
ghost use Rattle.art_step.specs.Steps.Check.{VouchLaw};
ghost use Rattle.art_step.specs.Steps.Watch as watch;
ghost use Rattle.art_step.specs.Steps.Write as write;

/// At opening: the anchor names no root, all numbers are free, and no pass knows anything.
pub fn opening_is_sound()
    ensures { OpenLaw }
{}

/// A version word is found: a clear one gives a stamp.
pub fn beginning_is_sound()
    ensures { begin.Law }
{}

/// A word of a stamped cell is noted, or one of a leaf that its notes name.
pub fn reading_is_sound()
    ensures cell { read.Law }
    ensures leaf { read.LeafLaw }
{}

/// A version word is compared with a stamp: where it is equal, the notes are the words of the tree at that step, paths
/// are gained and an event may be made; else the stamp goes.
pub fn checking_is_sound()
    ensures passed { check.UnchangedLaw }
    ensures vouched { VouchLaw }
    ensures failed { check.ChangedLaw }
{}

/// A stamped cell is locked and held.
pub fn upgrading_is_sound()
    ensures { upgrade.Law }
{}

/// A node's number in hand is locked and held: until then it is obsolete, and no view has a stamp of it.
pub fn claiming_is_sound()
    ensures claimed { claim.Law }
    ensures unclaimed { UnclaimedLaw }
    ensures unstamped { UnstampedLaw }
    ensures linked { LinkedLaw }
{}

/// A word is written to a held cell before the commit, or to a leaf in hand.
pub fn writing_is_sound()
    ensures cell { write.Law }
    ensures leaf { write.LeafLaw }
{}

/// The first release of a change: all held words become the new ones at this step, with one event.
pub fn committing_is_sound()
    ensures { commit.Law }
{}

/// A later release, or that of a change which is given up.
pub fn releasing_is_sound()
    ensures { release.Law }
{}

/// A word of free numbers is found; a number whose bit it loses comes into the hand.
pub fn taking_is_sound()
    ensures { take_free.Law }
{}

/// A number goes back, from the hand or from limbo. When one goes back from limbo, no pass is still under a pin that its place
/// holds.
pub fn giving_is_sound()
    ensures hand { give.Law }
    ensures limbo { give.FreeLaw }
    ensures nobody { give.NobodyLaw }
{}

/// The epoch is noted.
pub fn noting_the_epoch_is_sound()
    ensures { epoch.Law }
{}

/// A pass is pinned, or goes idle.
pub fn pinning_is_sound()
    ensures { pin.Law }
{}

/// The epoch goes up.
pub fn advancing_is_sound()
    ensures { advance.Law }
{}

/// The word of another pass is found.
pub fn watching_is_sound()
    ensures { watch.Law }
{}

/// The anchor alone is looked at: its version word is found, and all of the history is seen.
pub fn looking_at_the_anchor_is_sound()
    ensures { anchor.Law }
{}

/// A step of any of these kinds.
pub fn stepping_is_sound()
    ensures { StepLaw }
{}

/// What no view shows is determined by what the words and the views are: there is one history, which only grows, and each cell
/// has one body of logical words.
pub fn hidden_is_determined()
    ensures history { HistoryLaw }
    ensures grows { HistoryGrows }
    ensures logical { LogicalLaw }
{}

/// A step keeps its pass and counts, and what the pass has seen only grows.
pub fn steps_keep_their_pass()
    ensures pass { PassLaw }
    ensures counts { CountLaw }
    ensures seen { SeenLaw }
{}

/// A number stays in limbo while a pass is under a pin that its place holds, whatever the passes do. Its place keeps its pins
/// until then, and what is marked for a pass is in no stamp of it.
pub fn limbo_waits_for_pins()
    ensures waits { LimboLaw }
    ensures pins { PinsLaw }
    ensures marked { MarkedLaw }
{}
