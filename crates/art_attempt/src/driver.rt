//! Makes the steps of an attempt.
ghost use Rattle.std.specs.Prelude.{◌≡◌, ◌⊎◌, Bool};
ghost use Rattle.art_attempt.specs.Asking.{Answers, IsAllowed};
ghost use Rattle.art_attempt.specs.Attempts.{deed_at, settled_by};
ghost use Rattle.art_attempt.specs.Cases.{made_by};
ghost use Rattle.art_cell.specs.declared.cells.Cell.{Cell as CellOf};
ghost use Rattle.art_step.specs.Acting.{IsPlain, PassesAmong};
ghost use Rattle.art_step.specs.declared.actions.Action.TheVariants.{Commit as commit};

use crate::{Attempt, Job, Room};
use art_key::Key;
use art_model::Answer as Reply;
use art_plan::NewLeaf;
use art_step::{Act, Action, Answer, Deed, Effects, EpochSteps, perform};

/// What a write of the row does where its check settles the answer: its key is there with this value, or no row has it.
fn settled(job: Job, row: &NewLeaf, stands: u64) -> Deed
    ensures { result ≡ settled_by job row.now stands }
{
    let key = Key::try_from(row.key.as_slice()).unwrap();
    match job {
        Job::Insert => Deed::Done(Act::Insert(key, row.value), Reply::Present(stands)),
        Job::Remove => Deed::Done(Act::Remove(key), Reply::Absent),
    }
}

/// Makes the step that an attempt asks for.
pub fn make<S: EpochSteps>(steps: &mut S, action: Action, attempt: &Attempt, room: &Room) -> Answer
    requires admitted { IsPlain action ⊎ S.admits steps.old room.now.row.key.items }
    requires deed { (c : CellOf) (b : Bool) → action ≡ commit c b →
        room.now.change.effects.deed ≡ made_by attempt.now.job room.now.row room.now.gone }
    requires allowed { IsAllowed (S.sizes steps.old) (deed_at attempt.now room.now) room.now.change (S.view steps.old) action }
    ensures only { S.only steps.old steps.new }
    ensures row { Answers (S.sizes steps.old) (deed_at attempt.now room.now) room.now.change action result
        (S.view steps.old) (S.view steps.new) }
    ensures keys { PassesAmong (S.admits steps.old) (S.sizes steps.old) (S.view steps.old) action result }
{
    match action {
        Action::Settle { .. } => {
            let effects = Effects::telling(settled(attempt.job(), &room.row, attempt.found()));
            perform(steps, action, Some(&effects))
        }
        Action::Commit { .. } => perform(steps, action, Some(&room.change.effects)),
        _ => perform(steps, action, None),
    }
}
