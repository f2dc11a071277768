//! The straight way of a look.
//!
//! It makes the steps of a look in their order. What a step needs is taken out of the stage before it is made, and the look hears what came
//! of it as the stage that it stood at: memory is read anew behind a step, since other threads write there. The last turn is left to the
//! machine, and so is the check that settles what was seen.
ghost use Rattle.std.specs.Prelude.{◌≡◌, ◌+◌, ◌<◌, ◌≤◌, ◌⊎◌, ℕ, List, Some, false};
ghost use Rattle.art_cell.specs.declared.cells.Cell.{Cell as CellOf};
ghost use Rattle.art_find.specs.Asking.{WantsCheck, WantsVersion, WantsWord};
ghost use Rattle.art_step.specs.Acting.{Answers, telling};
ghost use Rattle.art_find.specs.Descents.{IsReading};
ghost use Rattle.art_step.specs.declared.actions.Answer.TheVariants as told;
ghost use Rattle.art_step.specs.declared.actions.Action.{Action as ActionOf};
ghost use Rattle.art_step.specs.declared.actions.Action.TheVariants as askeds;
ghost use Rattle.art_key.specs.declared.bounds.Bound.{Bound as KeyBound};
ghost use Rattle.art_look.specs.Driven.{LookFits};
ghost use Rattle.art_look.specs.Looks.{Fits, asks, has_ended, least_steps, most_steps};
ghost use Rattle.art_look.specs.Straight.{AsksLeaf, AsksVersion, AsksWord, HasGone, HasTurn, IsToSettle, IsUnderWay};
ghost use Rattle.art_look.specs.declared.path_buffers.PathBuffer.{PathBuffer as PathBufferOf};
ghost use Rattle.art_step.specs.Steps.Begin.{Outcome as Begun};
ghost use Rattle.art_step.specs.Steps.Check.{Outcome as WasChecked};
ghost use Rattle.art_step.specs.declared.deeds.Deed.{Deed};
ghost use Rattle.art_step.specs.declared.views.Sizes.{Sizes};
ghost use Rattle.art_step.specs.declared.views.Stamp.{Stamp as StampOf};
ghost use Rattle.art_step.specs.declared.views.View.{View};

use crate::{Look, LookStage, PathBuffer};
use art_cell::Cell;
use art_find::{Tally, read_leaf_word, read_word};
use art_step::{Changed, Locked, Stamp, Steps};

/// Makes the steps of a look of the range from the key on, one after another, as long as more than one turn is left: not the check that
/// settles what it has seen.
pub(crate) fn look_on<S: Steps>(
    steps: &mut S,
    tally: &mut Tally,
    look: &mut Look,
    lo: &[u8],
    path_buffer: &mut PathBuffer,
)
    requires some { 0 < tally.old.left }
    requires few { tally.old.restarts + tally.old.left ≤ 4294967295 }
    requires going { has_ended look.old.stage ≡ false }
    requires fits { (hi : KeyBound) × (u : View) ×
        LookFits (S.sizes steps.old) lo.now hi u (S.view steps.old) look.old path_buffer.old tally.old.restarts }
    ensures only { S.only steps.old steps.new }
    ensures some { 0 < tally.new.left }
    ensures less { tally.new.left ≤ tally.old.left }
    ensures few { tally.new.restarts + tally.new.left ≤ 4294967295 }
    ensures made { (S.view steps.new).steps + tally.new.left ≡ (S.view steps.old).steps + tally.old.left }
    ensures going { has_ended look.new.stage ≡ false }
    ensures there { IsToSettle look.new.stage ⊎ (tally.new.left ≡ 1) }
    ensures fits { (hi : KeyBound) (u : View) →
        LookFits (S.sizes steps.old) lo.now hi u (S.view steps.old) look.old path_buffer.old tally.old.restarts →
        LookFits (S.sizes steps.old) lo.now hi u (S.view steps.new) look.new path_buffer.new tally.new.restarts }
{
    while tally.left > 1 {
        match look.stage {
            LookStage::Start
            | LookStage::Below { .. }
            | LookStage::Child { .. }
            | LookStage::Both { .. } => begin_or_check(steps, tally, look),
            LookStage::Value { .. } | LookStage::Length { .. } | LookStage::Bytes { .. } => {
                read_leaf(steps, tally, look, lo, path_buffer)
            }
            LookStage::Decided { .. } | LookStage::Ended { .. } => return,
            _ => read(steps, tally, look, lo, path_buffer),
        }
    }
}

/// Stamps or checks the cell that comes next, and hears it.
#[inline(always)]
fn begin_or_check<S: Steps>(steps: &mut S, tally: &mut Tally, look: &mut Look)
    requires turn { HasTurn tally.old }
    requires version { AsksVersion (asks look.old.stage) }
    requires looks { (lo : List ℕ) × (t : PathBufferOf) × IsUnderWay (S.sizes steps.old) lo (S.view steps.old) look.old t tally.old }
    ensures only { S.only steps.old steps.new }
    ensures gone { (lo : List ℕ) (t : PathBufferOf) → HasGone (S.sizes steps.old) lo (S.view steps.old) look.old t tally.old
        (S.view steps.new) look.new t tally.new }
{
    match look.stage {
        LookStage::Start => {
            let begun = steps.begin(Cell::Anchor);
            hear_begun(tally, look, LookStage::Start, begun);
        }
        LookStage::Below { above, node } => {
            let begun = steps.begin(Cell::Node(node));
            hear_begun(tally, look, LookStage::Below { above, node }, begun);
        }
        LookStage::Child { stamp, link } => {
            let checked = steps.check(stamp, None);
            hear_checked(tally, look, LookStage::Child { stamp, link }, checked);
        }
        LookStage::Both { above, stamp, node } => {
            let checked = steps.check(above, None);
            hear_checked(tally, look, LookStage::Both { above, stamp, node }, checked);
        }
        _ => unreachable!(),
    }
}

/// Reads the word of a cell that comes next, and hears it.
#[inline(always)]
fn read<S: Steps>(
    steps: &mut S,
    tally: &mut Tally,
    look: &mut Look,
    lo: &[u8],
    path_buffer: &mut PathBuffer,
)
    requires turn { HasTurn tally.old }
    requires word { AsksWord (asks look.old.stage) }
    requires looks { IsUnderWay (S.sizes steps.old) lo.now (S.view steps.old) look.old path_buffer.old tally.old }
    ensures only { S.only steps.old steps.new }
    ensures gone { HasGone (S.sizes steps.old) lo.now (S.view steps.old) look.old path_buffer.old tally.old
        (S.view steps.new) look.new path_buffer.new tally.new }
{
    match look.stage {
        LookStage::Anchor(stamp) => {
            let word = read_word(steps, stamp, 1);
            hear_word(tally, look, lo, path_buffer, LookStage::Anchor(stamp), word);
        }
        LookStage::Header { stamp, node } => {
            let word = read_word(steps, stamp, 1);
            hear_word(
                tally,
                look,
                lo,
                path_buffer,
                LookStage::Header { stamp, node },
                word,
            );
        }
        LookStage::Prefix { seen, number } => {
            let word = read_word(steps, seen.stamp, 2 + usize::from(number));
            let stage = LookStage::Prefix { seen, number };
            hear_word(tally, look, lo, path_buffer, stage, word);
        }
        LookStage::Keys {
            seen,
            front,
            number,
        } => {
            let word = read_word(steps, seen.stamp, 10 + usize::from(number));
            let stage = LookStage::Keys {
                seen,
                front,
                number,
            };
            hear_word(tally, look, lo, path_buffer, stage, word);
        }
        LookStage::Slot(sought) => {
            let word = read_word(steps, sought.seen.stamp, sought.place);
            hear_word(tally, look, lo, path_buffer, LookStage::Slot(sought), word);
        }
        _ => unreachable!(),
    }
}

/// Reads the word of a leaf that comes next, and hears it.
#[inline(always)]
fn read_leaf<S: Steps>(
    steps: &mut S,
    tally: &mut Tally,
    look: &mut Look,
    lo: &[u8],
    path_buffer: &mut PathBuffer,
)
    requires turn { HasTurn tally.old }
    requires leaf { AsksLeaf (asks look.old.stage) }
    requires looks { IsUnderWay (S.sizes steps.old) lo.now (S.view steps.old) look.old path_buffer.old tally.old }
    ensures only { S.only steps.old steps.new }
    ensures gone { HasGone (S.sizes steps.old) lo.now (S.view steps.old) look.old path_buffer.old tally.old
        (S.view steps.new) look.new path_buffer.new tally.new }
{
    match look.stage {
        LookStage::Value { stamp, leaf } => {
            let word = read_leaf_word(steps, stamp, leaf, 0);
            hear_word(
                tally,
                look,
                lo,
                path_buffer,
                LookStage::Value { stamp, leaf },
                word,
            );
        }
        LookStage::Length { stamp, leaf, value } => {
            let word = read_leaf_word(steps, stamp, leaf, 1);
            let stage = LookStage::Length { stamp, leaf, value };
            hear_word(tally, look, lo, path_buffer, stage, word);
        }
        LookStage::Bytes { seen, number } => {
            let word = read_leaf_word(steps, seen.stamp, seen.leaf, 2 + usize::from(number));
            hear_word(
                tally,
                look,
                lo,
                path_buffer,
                LookStage::Bytes { seen, number },
                word,
            );
        }
        _ => unreachable!(),
    }
}

/// The version word that it asked for, where it stood at this stage, was found so; its step is counted.
#[inline(always)]
fn hear_begun(tally: &mut Tally, look: &mut Look, stage: LookStage, begun: Result<Stamp, Locked>)
    requires turn { HasTurn tally.old }
    requires at { look.old.stage ≡ stage }
    requires wants { WantsVersion (asks stage) }
    ensures gone { (z : Sizes) (lo : List ℕ) (t : PathBufferOf) (v w : View) (cell : CellOf) → asks stage ≡ Some (askeds.Begin cell) →
        Begun z v w cell begun → HasGone z lo v look.old t tally.old w look.new t tally.new }
{
    tally.left -= 1;
    match begun {
        Ok(stamp) => look.began_at(stage, stamp),
        Err(_) => restart(tally, look),
    }
}

/// The cell that it asked for, where it stood at this stage, was checked; its step is counted.
#[inline(always)]
fn hear_checked(tally: &mut Tally, look: &mut Look, stage: LookStage, checked: Result<(), Changed>)
    requires turn { HasTurn tally.old }
    requires at { look.old.stage ≡ stage }
    requires wants { WantsCheck (asks stage) }
    ensures gone { (z : Sizes) (lo : List ℕ) (t : PathBufferOf) (v w : View) (x : StampOf) → asks stage ≡ Some (askeds.Check x) →
        WasChecked z v w x None checked → HasGone z lo v look.old t tally.old w look.new t tally.new }
{
    tally.left -= 1;
    match checked {
        Ok(()) => look.checked_at(stage),
        Err(_) => restart(tally, look),
    }
}

/// The word that it asked for, where it stood at this stage, is this; its step is counted.
#[inline(always)]
fn hear_word(
    tally: &mut Tally,
    look: &mut Look,
    lo: &[u8],
    path_buffer: &mut PathBuffer,
    stage: LookStage,
    word: u64,
)
    requires turn { HasTurn tally.old }
    requires at { look.old.stage ≡ stage }
    requires wants { WantsWord (asks stage) }
    requires looks { (z : Sizes) × (v : View) × IsUnderWay z lo.now v look.old path_buffer.old tally.old }
    ensures gone { (z : Sizes) (v w : View) (asked : ActionOf) → asks stage ≡ Some asked →
        ((d : Deed) → Answers z (telling d) asked (told.Word word) v w) →
        HasGone z lo.now v look.old path_buffer.old tally.old w look.new path_buffer.new tally.new }
{
    tally.left -= 1;
    look.read_at(stage, lo, path_buffer, word);
}

/// A version word was locked, obsolete or changed: the look begins anew, and that is counted.
#[inline(always)]
fn restart(tally: &mut Tally, look: &mut Look)
    requires few { tally.old.restarts < 4294967295 }
    ensures tally { tally.new ≡ record tally.old { restarts = tally.old.restarts + 1 } }
    ensures steps { most_steps look.new.depth look.new.stage ≡ 0 }
    ensures least { least_steps look.new.stage ≡ 0 }
    ensures fits { (z : Sizes) (lo : List ℕ) (hi : KeyBound) (t : PathBufferOf) (u v : View) → IsReading u v → Fits z lo hi look.new t u v }
{
    look.failed();
    tally.restarts += 1;
}
