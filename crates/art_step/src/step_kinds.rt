//! The kinds of step, by name.
use std::fmt;

/// What kind a step is. Each has a page in `specs/Steps`.
#[derive(Clone, Copy, Debug, PartialEq, Eq)]
pub enum StepKind {
    /// The version word of the anchor or of a node is found.
    Begin,
    /// A word of a stamped cell, or of a leaf that it names, is noted.
    Read,
    /// A version word is compared with the stamped one.
    Check,
    /// A stamped cell is locked.
    Upgrade,
    /// A word of a held cell, or of a leaf in hand, is written.
    Write,
    /// The first release of a change.
    Commit,
    /// A later release, or one of a change that is given up.
    Release,
    /// A node in hand is locked.
    Claim,
    /// A word of free numbers is found, and a free number may come into the hand.
    Take,
    /// A number is free again.
    Give,
    /// The epoch is noted.
    Epoch,
    /// The pass is pinned to an epoch, or goes idle.
    Pin,
    /// The epoch goes up.
    Advance,
    /// The word of another pass is found, and places in limbo may be marked for it.
    Watch,
    /// The anchor alone is looked at, and all of the history is seen.
    Anchor,
}

impl fmt::Display for StepKind {
    ghost use Rattle.std.specs.Prelude.{Some};
    ghost use Rattle.art_step.specs.StepNames.{step_name};

    ghost output = { λ k. Some (step_name k) };

    fn fmt<W: fmt::Write>(&self, f: &mut fmt::Formatter<W>) -> fmt::Result {
        f.write_str(match self {
            StepKind::Begin => "begin",
            StepKind::Read => "read",
            StepKind::Check => "check",
            StepKind::Upgrade => "upgrade",
            StepKind::Write => "write",
            StepKind::Commit => "commit",
            StepKind::Release => "release",
            StepKind::Claim => "claim",
            StepKind::Take => "take",
            StepKind::Give => "give",
            StepKind::Epoch => "epoch",
            StepKind::Pin => "pin",
            StepKind::Advance => "advance",
            StepKind::Watch => "watch",
            StepKind::Anchor => "anchor",
        })
    }
}
