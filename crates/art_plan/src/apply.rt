//! The making of a change, step by step.
ghost use Rattle.std.specs.Prelude.{◌≡◌, ◌⊎◌, ℕ, ◌+◌, ◌<◌, ◌≤◌, [], take, length, Some, true, false, Err};
ghost use Rattle.art_step.specs.Acting.{Answers};
ghost use Rattle.art_plan.specs.Changes.{target_at, targets};
ghost use Rattle.art_plan.specs.Whole.{IsWhole, filled_ends};
ghost use Rattle.art_plan.specs.Apply.{GivesUp, IsLocking, IsReleasing, StageFits, at_fill, brings, claimed_so, claims, fault_of, most_steps, released_so, so_many, Fits, OnlyWrites, fills_left};
ghost use Rattle.art_plan.specs.declared.apply.Apply.TheVariants.{Claiming as claiming, Filling as filling, ReleasingNode as releasing_node};
ghost use Rattle.art_step.specs.declared.actions.Answer.TheVariants.{Upgraded as upgraded};
ghost use Rattle.art_step.specs.declared.actions.Action.TheVariants.{Upgrade as upgrade};
ghost use Rattle.art_plan.specs.declared.changes.Change.{Change as ChangeOf};
ghost use Rattle.art_plan.specs.declared.changes.Target.{Target as TargetOf};
ghost use Rattle.art_step.specs.declared.faults.UpgradeFault.{UpgradeFault as FaultOf};
ghost use Rattle.art_step.specs.declared.views.Sizes.{Sizes};
ghost use Rattle.art_step.specs.declared.views.Stamp.{Stamp as StampOf};
ghost use Rattle.art_step.specs.declared.views.View.{View};

use crate::Change;
use art_cell::Cell;
use art_step::{Action, Answer, EpochSteps, Held, Steps, UpgradeFault, perform};

/// Where the making of a change stands between two of its steps.
#[derive(Clone, Copy)]
pub enum Apply {
    /// So many targets are locked.
    Upgrading(usize),
    /// All targets are; a new node is to be claimed: the copy where it is true, and else the other.
    Claiming(bool),
    /// The words of this new node before this place are written.
    Filling {
        copy: bool,
        place: usize,
    },
    /// So many words of the targets are written.
    Writing(usize),
    /// All words are written.
    Committing,
    /// The change is committed, and so many targets are released.
    Releasing(usize),
    /// All targets are; this new node is still held.
    ReleasingNode(bool),
    /// After so many upgrades one failed, and so many of them are released again.
    GivingUp {
        locked: usize,
        released: usize,
        fault: UpgradeFault,
    },
    /// The change is made, or was given up.
    Ended(Result<(), UpgradeFault>),
}

impl Apply {
    ghost use Rattle.std.specs.Prelude.{ℕ, ◌+◌, ◌<◌, ◌≤◌, [], Some, None, IfSome};
    ghost use Rattle.art_step.specs.Acting.{Answers, IsAllowed};
    ghost use Rattle.art_plan.specs.Whole.{IsWhole};
    ghost use Rattle.std.specs.Prelude.{Err};
    ghost use Rattle.art_plan.specs.Apply.{Fits, HasRun, IsOver, Makes, Runs, asks, ended_at, brings, fault_of, is_begun, most_steps};
    ghost use Rattle.art_step.specs.Deeds.{IsAdmitted};
    ghost use Rattle.art_step.specs.declared.actions.Answer.TheVariants.{Upgraded as upgraded};
    ghost use Rattle.art_step.specs.declared.actions.Action.{Action as ActionOf};
    ghost use Rattle.art_plan.specs.declared.apply.Apply.TheVariants.{Upgrading as upgrading};
    ghost use Rattle.art_plan.specs.declared.changes.Change.{Change as ChangeOf};
    ghost use Rattle.art_step.specs.declared.faults.UpgradeFault.{UpgradeFault as FaultOf};
    ghost use Rattle.art_step.specs.declared.views.Sizes.{Sizes};
    ghost use Rattle.art_step.specs.declared.views.View.{View};

    /// At its beginning: nothing is locked. A change without a target and without a word is over.
    pub fn new(change: &Change) -> Apply
        ensures begun { 0 < targets change.now → result ≡ upgrading 0 }
        ensures going { 0 < targets change.now → ended_at result ≡ None }
        ensures fits { (z : Sizes) (u : View) → IsWhole z u change.now → u.held ≡ [] → Fits z change.now result u u }
    {
        if change.targets.len() + change.puts.len() > 0 {
            Apply::Upgrading(0)
        } else {
            Apply::Ended(Ok(()))
        }
    }

    /// The next step, or none where it has ended.
    #[inline(always)]
    pub fn next(&self, change: &Change) -> Option<Action>
        ensures asks { result ≡ asks change.now self.now }
        ensures allowed { (z : Sizes) (u v : View) → Fits z change.now self.now u v → IfSome result (IsAllowed z (brings change.now) v) }
        ensures going { (z : Sizes) (u v : View) → Fits z change.now self.now u v → ended_at self.now ≡ None →
            (a : ActionOf) × (result ≡ Some a) }
    {
        self.asked(change)
    }

    /// The step that it asked for was made, with this answer.
    #[inline(always)]
    pub fn told(&mut self, change: &Change, answer: Answer)
        requires fits { (z : Sizes) × (u : View) × (v : View) × (w : View) × (asked : ActionOf) × Fits z change.now self.old u v ×
            (asks change.now self.old ≡ Some asked) × Answers z (brings change.now) asked answer v w }
        ensures steps { most_steps self.old < most_steps self.new }
        ensures stays { (e : FaultOf) → fault_of self.old ≡ Some e → fault_of self.new ≡ Some e }
        ensures refused { (e : FaultOf) → answer ≡ upgraded (Err e) → fault_of self.new ≡ Some e }
        ensures why { (e : FaultOf) → fault_of self.new ≡ Some e → (fault_of self.old ≡ Some e) ⊎ (answer ≡ upgraded (Err e)) }
        ensures fits { (z : Sizes) (u v w : View) (asked : ActionOf) → Fits z change.now self.old u v →
            asks change.now self.old ≡ Some asked → Answers z (brings change.now) asked answer v w → Fits z change.now self.new u w }
    {
        *self = match *self {
            Apply::Upgrading(index) => upgraded(change, index, answer),
            Apply::Claiming(copy) => claimed(change, copy),
            Apply::Filling { copy, place } => filled(change, copy, place + 1),
            Apply::Writing(index) => written(change, index + 1),
            Apply::Committing => released(change, 1),
            Apply::Releasing(index) => released(change, index + 1),
            Apply::ReleasingNode(copy) => released_node(change, copy),
            Apply::GivingUp {
                locked,
                released: count,
                fault,
            } => given_up(locked, count + 1, fault),
            Apply::Ended(_) => unreachable!(),
        };
    }

    /// Makes all steps that are left; while no cell is locked, as long as more than one turn is left.
    #[inline(always)]
    pub fn run<S: EpochSteps>(&mut self, steps: &mut S, change: &Change, left: &mut u32)
        requires some { 0 < left.old }
        requires admitted { IsAdmitted (S.admits steps.old) change.now.effects.deed }
        requires fits { (u : View) × Fits (S.sizes steps.old) change.now self.old u (S.view steps.old) }
        ensures only { S.only steps.old steps.new }
        ensures runs { Runs self.old self.new (S.view steps.old) (S.view steps.new) left.old left.new }
        ensures last { HasRun self.new left.new }
        ensures fits { (u : View) → Fits (S.sizes steps.old) change.now self.old u (S.view steps.old) →
            Fits (S.sizes steps.old) change.now self.new u (S.view steps.new) }
    {
        loop {
            if self.is_writing() {
                let written = self.write_on(steps, change);
                *left = left.saturating_sub(written);
                continue;
            }
            if self.is_begun() && *left <= 1 {
                return;
            }
            let Some(answer) = self.make(steps, change) else {
                return;
            };
            *left = left.saturating_sub(answer.steps());
            self.told(change, answer);
        }
    }

    /// Makes the step that it asks for, or none where it has ended.
    #[inline(always)]
    fn make<S: EpochSteps>(&self, steps: &mut S, change: &Change) -> Option<Answer>
        requires admitted { IsAdmitted (S.admits steps.old) change.now.effects.deed }
        requires fits { (u : View) × Fits (S.sizes steps.old) change.now self.now u (S.view steps.old) }
        ensures only { S.only steps.old steps.new }
        ensures made { Makes (S.sizes steps.old) change.now self.now result (S.view steps.old) (S.view steps.new) }
    {
        // each step is made where it is chosen: an action that is handed on costs more than the step
        let effects = Some(&change.effects);
        let answer = match *self {
            Apply::Upgrading(index) => {
                let stamp = change.target(index)?.stamp;
                perform(steps, Action::Upgrade { stamp }, effects)
            }
            Apply::Claiming(copy) => {
                let node = change.made_at(copy)?;
                perform(steps, Action::Claim { node }, effects)
            }
            Apply::Committing => {
                let top = change.target(0)?;
                let (cell, obsolete) = (top.stamp.cell, top.obsolete);
                perform(steps, Action::Commit { cell, obsolete }, effects)
            }
            Apply::Releasing(index) => {
                let target = change.target(index)?;
                let (cell, obsolete) = (target.stamp.cell, target.obsolete);
                perform(steps, Action::Release { cell, obsolete }, effects)
            }
            _ => perform(steps, self.asked(change)?, effects),
        };
        Some(answer)
    }

    /// Whether no cell was locked yet.
    #[inline(always)]
    pub fn is_begun(&self) -> bool
        ensures { result ≡ is_begun self.now }
    {
        match *self {
            Apply::Upgrading(index) => index == 0,
            _ => false,
        }
    }

    /// The next step, by the stage alone.
    #[inline(always)]
    fn asked(&self, change: &Change) -> Option<Action>
        ensures { result ≡ asks change.now self.now }
    {
        match *self {
            Apply::Upgrading(index) => Some(Action::Upgrade {
                stamp: change.target(index)?.stamp,
            }),
            Apply::Claiming(copy) => Some(Action::Claim {
                node: change.made_at(copy)?,
            }),
            Apply::Filling { copy, place } => Some(Action::Write {
                cell: Cell::Node(change.made_at(copy)?),
                place,
                word: change.made_word(copy, place),
            }),
            Apply::Writing(index) => {
                let put = change.put(index)?;
                let target = change.target(put.target)?;
                Some(Action::Write {
                    cell: target.stamp.cell,
                    place: put.place,
                    word: put.value,
                })
            }
            Apply::Committing => {
                let top = change.target(0)?;
                Some(Action::Commit {
                    cell: top.stamp.cell,
                    obsolete: top.obsolete,
                })
            }
            Apply::Releasing(index) => {
                let target = change.target(index)?;
                Some(Action::Release {
                    cell: target.stamp.cell,
                    obsolete: target.obsolete,
                })
            }
            Apply::ReleasingNode(copy) => Some(Action::Release {
                cell: Cell::Node(change.made_at(copy)?),
                obsolete: false,
            }),
            Apply::GivingUp { released, .. } => Some(Action::Release {
                cell: change.target(released)?.stamp.cell,
                obsolete: false,
            }),
            Apply::Ended(_) => None,
        }
    }

    /// Whether the change was made, or why not, once it has ended.
    #[inline(always)]
    pub fn ended(&self) -> Option<Result<(), UpgradeFault>>
        ensures { result ≡ ended_at self.now }
    {
        match self {
            Apply::Ended(result) => Some(*result),
            _ => None,
        }
    }
}

/// The upgrade of the target with this index was answered.
#[inline(always)]
fn upgraded(change: &Change, index: usize, answer: Answer) -> Apply
    requires few { index < targets change.now }
    requires five { index < 5 }
    requires answer { (z : Sizes) × (x : StampOf) × (v : View) × (w : View) × Answers z (brings change.now) (upgrade x) answer v w }
    ensures steps { index < most_steps result }
    ensures refused { (e : FaultOf) → answer ≡ upgraded (Err e) → fault_of result ≡ Some e }
    ensures why { (e : FaultOf) → fault_of result ≡ Some e → answer ≡ upgraded (Err e) }
    ensures fits { (z : Sizes) (u v w : View) (x : TargetOf) → IsWhole z u change.now → target_at change.now index ≡ Some x →
        IsLocking u change.now index [] (so_many 0 0) v → Answers z (brings change.now) (upgrade x.stamp) answer v w →
        StageFits change.now result u w }
{
    let Answer::Upgraded { result } = answer else {
        unreachable!();
    };
    match result {
        Ok(()) => locked(change, index + 1),
        Err(fault) => given_up(index, 0, fault),
    }
}

/// So many targets are locked.
#[inline(always)]
fn locked(change: &Change, count: usize) -> Apply
    requires few { count ≤ targets change.now }
    ensures sound { fault_of result ≡ None }
    ensures steps { count ≤ most_steps result }
    ensures fits { (u v : View) → IsLocking u change.now count [] (so_many 0 0) v → StageFits change.now result u v }
{
    if count < change.targets.len() {
        return Apply::Upgrading(count);
    }
    claim_first(change)
}

/// All targets are locked: the new nodes are claimed.
#[inline(always)]
fn claim_first(change: &Change) -> Apply
    ensures sound { fault_of result ≡ None }
    ensures steps { 5 ≤ most_steps result }
    ensures fits { (u v : View) → IsLocking u change.now (targets change.now) [] (so_many 0 0) v → StageFits change.now result u v }
{
    match change.made() {
        Some(_) => Apply::Claiming(false),
        None => claim_copy(change),
    }
}

/// The first new node is claimed, where there is one.
#[inline(always)]
fn claim_copy(change: &Change) -> Apply
    ensures sound { fault_of result ≡ None }
    ensures steps { 6 ≤ most_steps result }
    ensures fits { (u v : View) → IsLocking u change.now (targets change.now) [] (so_many (claims change.now false) 0) v →
        StageFits change.now result u v }
{
    match change.copied() {
        Some(_) => Apply::Claiming(true),
        None => fill_first(change),
    }
}

/// This new node was claimed.
#[inline(always)]
fn claimed(change: &Change, copy: bool) -> Apply
    ensures sound { fault_of result ≡ None }
    ensures steps { most_steps (claiming copy) < most_steps result }
    ensures fits { (u v : View) → IsLocking u change.now (targets change.now) [] (claimed_so change.now copy) v →
        StageFits change.now result u v }
{
    if copy {
        fill_first(change)
    } else {
        claim_copy(change)
    }
}

/// All new nodes are claimed: their words are written.
#[inline(always)]
fn fill_first(change: &Change) -> Apply
    ensures sound { fault_of result ≡ None }
    ensures steps { 8 ≤ most_steps result }
    ensures fits { (u v : View) →
        IsLocking u change.now (targets change.now) [] (so_many (claims change.now false) (claims change.now true)) v →
        StageFits change.now result u v }
{
    match change.made() {
        Some(_) => Apply::Filling {
            copy: false,
            place: 1,
        },
        None => fill_copy(change),
    }
}

/// The words of the first new node are written, where there is one.
#[inline(always)]
fn fill_copy(change: &Change) -> Apply
    ensures sound { fault_of result ≡ None }
    ensures steps { 274 ≤ most_steps result }
    ensures fits { (u v : View) →
        IsLocking u change.now (targets change.now) [] (so_many (filled_ends change.now false) (claims change.now true)) v →
        StageFits change.now result u v }
{
    match change.copied() {
        Some(_) => Apply::Filling {
            copy: true,
            place: 1,
        },
        None => written(change, 0),
    }
}

/// The words of this new node before this place are written.
#[inline(always)]
fn filled(change: &Change, copy: bool, place: usize) -> Apply
    requires some { 0 < place }
    requires few { place ≤ filled_ends change.now copy }
    ensures sound { fault_of result ≡ None }
    ensures steps { most_steps (filling copy place) ≤ most_steps result }
    ensures fits { (u v : View) → IsLocking u change.now (targets change.now) [] (at_fill change.now copy place) v →
        StageFits change.now result u v }
{
    let Some(node) = change.made_at(copy) else {
        unreachable!();
    };
    if place < node.layout.size() {
        return Apply::Filling { copy, place };
    }
    if copy {
        written(change, 0)
    } else {
        fill_copy(change)
    }
}

/// So many words of the targets are written, and all of the new nodes.
#[inline(always)]
fn written(change: &Change, count: usize) -> Apply
    requires few { count ≤ length change.now.puts.items }
    ensures sound { fault_of result ≡ None }
    ensures steps { 539 + count ≤ most_steps result }
    ensures fits { (u v : View) →
        IsLocking u change.now (targets change.now) (take count change.now.puts.items) (filled_ends change.now) v →
        StageFits change.now result u v }
{
    if count < change.puts.len() {
        Apply::Writing(count)
    } else {
        Apply::Committing
    }
}

/// The change is committed, and so many targets are released.
#[inline(always)]
fn released(change: &Change, count: usize) -> Apply
    requires few { count ≤ targets change.now }
    requires five { count ≤ 5 }
    ensures sound { fault_of result ≡ None }
    ensures steps { 573 + count ≤ most_steps result }
    ensures fits { (u v : View) → IsReleasing u change.now count (filled_ends change.now) v → StageFits change.now result u v }
{
    if count < change.targets.len() {
        return Apply::Releasing(count);
    }
    match change.made() {
        Some(_) => Apply::ReleasingNode(false),
        None => release_copy(change),
    }
}

/// All targets are released, and the first new node, where there is one.
#[inline(always)]
fn release_copy(change: &Change) -> Apply
    ensures sound { fault_of result ≡ None }
    ensures steps { 579 ≤ most_steps result }
    ensures fits { (u v : View) →
        IsReleasing u change.now (targets change.now) (so_many 0 (filled_ends change.now true)) v → StageFits change.now result u v }
{
    match change.copied() {
        Some(_) => Apply::ReleasingNode(true),
        None => Apply::Ended(Ok(())),
    }
}

/// This new node was released.
#[inline(always)]
fn released_node(change: &Change, copy: bool) -> Apply
    ensures sound { fault_of result ≡ None }
    ensures steps { most_steps (releasing_node copy) < most_steps result }
    ensures fits { (u v : View) → IsReleasing u change.now (targets change.now) (released_so change.now copy) v →
        StageFits change.now result u v }
{
    if copy {
        Apply::Ended(Ok(()))
    } else {
        release_copy(change)
    }
}

/// After so many upgrades one failed, and so many of them are released again.
fn given_up(locked: usize, count: usize, fault: UpgradeFault) -> Apply
    requires few { count ≤ locked }
    requires five { locked ≤ 5 }
    ensures steps { 6 + count ≤ most_steps result }
    ensures fault { fault_of result ≡ Some fault }
    ensures fits { (c : ChangeOf) (u v : View) → locked ≤ targets c → GivesUp u c count locked fault v → StageFits c result u v }
{
    if count < locked {
        Apply::GivingUp {
            locked,
            released: count,
            fault,
        }
    } else {
        Apply::Ended(Err(fault))
    }
}

impl Apply {
    ghost use Rattle.art_plan.specs.Apply.{WritesAll, is_writing};

    /// Whether words are to be written.
    #[inline(always)]
    pub(crate) fn is_writing(&self) -> bool
        ensures { result ≡ is_writing self.now }
    {
        matches!(self, Apply::Filling { .. } | Apply::Writing(_))
    }

    /// Writes all words that are left, where it stands among them, and says how many those were; elsewhere none.
    pub(crate) fn write_on<S: Steps>(&mut self, steps: &mut S, change: &Change) -> u32
        requires fits { (u : View) × Fits (S.sizes steps.old) change.now self.old u (S.view steps.old) }
        ensures only { S.only steps.old steps.new }
        ensures written { WritesAll change.now self.old self.new result }
        ensures made { OnlyWrites (S.view steps.old) (S.view steps.new) result }
        ensures fits { (z : Sizes) (u : View) → Fits z change.now self.old u (S.view steps.old) →
            Fits z change.now self.new u (S.view steps.new) }
    {
        match *self {
            Apply::Filling { copy, place } => {
                let filled = fill_all(steps, change, copy, place);
                let put = put_from(steps, change, 0);
                *self = Apply::Committing;
                filled + put
            }
            Apply::Writing(index) => {
                let put = put_from(steps, change, index);
                *self = Apply::Committing;
                put
            }
            _ => 0,
        }
    }
}

/// Writes the words of this new node from a place on, and after those of the first all of the copy, where there is one; and says how
/// many.
fn fill_all<S: Steps>(steps: &mut S, change: &Change, copy: bool, place: usize) -> u32
    requires fits { (u : View) × Fits (S.sizes steps.old) change.now (filling copy place) u (S.view steps.old) }
    ensures only { S.only steps.old steps.new }
    ensures count { result ≡ fills_left change.now copy place }
    ensures made { OnlyWrites (S.view steps.old) (S.view steps.new) result }
    ensures filled { (z : Sizes) (u : View) → Fits z change.now (filling copy place) u (S.view steps.old) →
        IsLocking u change.now (targets change.now) [] (filled_ends change.now) (S.view steps.new) }
{
    let filled = fill(steps, change, copy, place);
    if copy {
        return filled;
    }
    match change.copied() {
        Some(_) => filled + fill(steps, change, true, 1),
        None => filled,
    }
}

/// Writes the words of this new node from a place on, and says how many.
fn fill<S: Steps>(steps: &mut S, change: &Change, copy: bool, place: usize) -> u32
    requires fits { (u : View) × Fits (S.sizes steps.old) change.now (filling copy place) u (S.view steps.old) }
    ensures only { S.only steps.old steps.new }
    ensures count { result + place ≡ filled_ends change.now copy }
    ensures made { OnlyWrites (S.view steps.old) (S.view steps.new) result }
    ensures filled { (z : Sizes) (u : View) → Fits z change.now (filling copy place) u (S.view steps.old) →
        IsLocking u change.now (targets change.now) [] (at_fill change.now copy (filled_ends change.now copy)) (S.view steps.new) }
{
    let Some(node) = change.made_at(copy) else {
        unreachable!();
    };
    let size = node.layout.size();
    let mut held = Held::of(Cell::Node(node));
    for index in place..size {
        steps.write(&mut held, index, change.made_word(copy, index));
    }
    held.spend();
    (size - place) as u32
}

/// Puts the words of the targets from an index on, and says how many.
fn put_from<S: Steps>(steps: &mut S, change: &Change, from: usize) -> u32
    requires planned { (u : View) × IsWhole (S.sizes steps.old) u change.now × IsLocking u change.now (targets change.now)
        (take from change.now.puts.items) (filled_ends change.now) (S.view steps.old) }
    requires within { from ≤ length change.now.puts.items }
    ensures only { S.only steps.old steps.new }
    ensures count { result + from ≡ length change.now.puts.items }
    ensures made { OnlyWrites (S.view steps.old) (S.view steps.new) result }
    ensures put { (z : Sizes) (u : View) → IsWhole z u change.now → IsLocking u change.now (targets change.now)
        (take from change.now.puts.items) (filled_ends change.now) (S.view steps.old) →
        IsLocking u change.now (targets change.now) change.now.puts.items (filled_ends change.now) (S.view steps.new) }
{
    let count = change.puts.len();
    for index in from..count {
        let Some(put) = change.put(index) else {
            unreachable!();
        };
        let Some(target) = change.target(put.target) else {
            unreachable!();
        };
        let mut held = Held::of(target.stamp.cell);
        steps.write(&mut held, put.place, put.value);
        held.spend();
    }
    (count - from) as u32
}
