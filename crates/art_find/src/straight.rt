//! The straight way of a get, from the anchor down to a leaf.
//!
//! It is that of a finding (`src/nodes.rt`), with a sink that keeps nothing. It begins at the anchor alone: where a get was stopped
//! on its way, or made some of its steps at turns, its descent goes on.
ghost use Rattle.std.specs.Prelude.{◌≡◌, ◌<◌, ◌≤◌};
ghost use Rattle.art_find.specs.Straight.{GoesOn, IsGoing};
ghost use Rattle.art_find.specs.declared.descents.Stage.TheVariants as stages;

use crate::no_words::NoWords;
use crate::{Descent, Finding, Stage};
use art_step::Steps;

/// How many steps of a get are left, and how often it restarted.
#[derive(Clone, Copy)]
pub struct Tally {
    pub left: u32,
    pub restarts: u32,
}

/// Goes straight down from the anchor, if the descent is at its beginning, as far as nothing stops it. One step at least is left; where
/// more than eight were, one at least is made.
pub fn go_down<S: Steps>(steps: &mut S, tally: &mut Tally, descent: &mut Descent, key: &[u8])
    requires left { 0 < tally.old.left }
    requires goes { IsGoing key.now (S.sizes steps.old) (S.view steps.old) descent.old tally.old }
    ensures only { S.only steps.old steps.new }
    ensures left { 0 < tally.new.left }
    ensures less { tally.new.left ≤ tally.old.left }
    ensures step { descent.old.stage ≡ stages.Start → 8 < tally.old.left → tally.new.left < tally.old.left }
    ensures goes { GoesOn key.now (S.sizes steps.old) (S.view steps.old) descent.old tally.old
        (S.sizes steps.new) (S.view steps.new) descent.new tally.new }
{
    let Stage::Start = descent.stage else {
        return;
    };
    let mut finding = Finding {
        descent: Descent {
            depth: descent.depth,
            stage: Stage::Start,
        },
        above: None,
    };
    let on = finding.pass_nodes(steps, &mut NoWords::new(), key, &mut tally.left);
    *descent = finding.descent;
    if !on {
        tally.restarts += 1;
    }
}
