//! How an attempt plans its change, and makes it.
ghost use Rattle.std.specs.Prelude.{◌≡◌, ◌≢◌, ℕ, ◌+◌, ◌-◌, ◌<◌, ◌≤◌, None, Some, true, Result, ⊤};
ghost use Rattle.art_attempt.specs.Attempts.{EndsWithin, Fits, HasMade, IsGivenUpBy, IsRoom, IsSameTry, IsValidating, MayMake, apply_asks};
ghost use Rattle.art_attempt.specs.Attempts.{apply_left, ended_at, ended_so, given_up, is_free, steps_left, written};
ghost use Rattle.art_attempt.specs.declared.attempts.Ending.TheVariants.{Restart as anew, Overlaps as overlaps};
ghost use Rattle.art_attempt.specs.declared.attempts.Stage.TheVariants as stages;
ghost use Rattle.art_attempt.specs.declared.attempts.Case.{Case as CaseOf};
ghost use Rattle.art_attempt.specs.declared.attempts.Case.TheVariants as cases;
ghost use Rattle.art_attempt.specs.declared.validate.Validate.TheVariants.{Ended as validated};
ghost use Rattle.art_attempt.specs.declared.validate.Validated.TheVariants.{Unchanged as unchanged};
ghost use Rattle.art_find.specs.declared.findings.Position.{Position as PositionOf};
ghost use Rattle.art_step.specs.Acting.{Answers as ActionAnswers, steps_in};
ghost use Rattle.art_step.specs.declared.actions.Action.{Action as ActionOf};
ghost use Rattle.art_plan.specs.Apply.{brings, ended_at as made_at, is_begun};
ghost use Rattle.art_plan.specs.declared.apply.Apply.{Apply as ApplyOf};
ghost use Rattle.art_plan.specs.Changes.{targets};
ghost use Rattle.art_step.specs.declared.faults.UpgradeFault.{UpgradeFault as FaultOf};
ghost use Rattle.art_step.specs.declared.views.Sizes.{Sizes};
ghost use Rattle.art_step.specs.declared.views.View.{View};

use crate::{Attempt, Case, Ending, Job, Room, Stage};
use art_cell::Layout;
use art_find::Position;
use art_plan::{
    Apply, Lower, needed, plan_drop, plan_insert, plan_merge_leaf, plan_merge_node, plan_shrink,
};
use art_step::{Action, Answer, EpochSteps, UpgradeFault};

impl Attempt {
    ghost use Rattle.std.specs.Prelude.{IfSome};
    ghost use Rattle.art_attempt.specs.Asking.{IsAllowed};
    ghost use Rattle.art_step.specs.declared.deeds.Deed.{Deed};

    /// All that is written was seen: the change is planned.
    #[inline(always)]
    pub(crate) fn plan(&mut self, room: &mut Room, position: &Position, case: Case)
        requires { (z : Sizes) × (u : View) × (v : View) × IsRoom z room.old ×
            IsValidating z u self.old.job position.now case (validated unchanged) room.old v }
        ensures kept { IsSameTry self.old self.new room.old room.new }
        ensures not_anew { ended_at self.new ≢ Some anew }
        ensures not_overlaps { ended_at self.new ≢ Some overlaps }
        ensures free { is_free self.new ≡ true }
        ensures fits { (z : Sizes) (u v : View) → IsRoom z room.old →
            IsValidating z u self.old.job position.now case (validated unchanged) room.old v → Fits z u self.new room.new v }
    {
        match case {
            Case::NewLeaf => self.plan_new(room, position),
            Case::DropLeaf => self.plan_stays(room, position),
            Case::Shrink(layout) => self.plan_shrinks(room, position, layout),
            Case::MergeLeaf(other) => self.plan_merges(room, position, other),
            Case::MergeNode(lower) => self.plan_lowers(room, position, lower),
            // its check has failed
            Case::Torn => unreachable!(),
        }
    }

    /// A leaf comes.
    #[inline(always)]
    fn plan_new(&mut self, room: &mut Room, position: &Position)
        requires { (z : Sizes) × (u : View) × (v : View) × IsRoom z room.old ×
            IsValidating z u self.old.job position.now cases.NewLeaf (validated unchanged) room.old v }
        ensures kept { IsSameTry self.old self.new room.old room.new }
        ensures not_anew { ended_at self.new ≢ Some anew }
        ensures not_overlaps { ended_at self.new ≢ Some overlaps }
        ensures free { is_free self.new ≡ true }
        ensures fits { (z : Sizes) (u v : View) → IsRoom z room.old →
            IsValidating z u self.old.job position.now cases.NewLeaf (validated unchanged) room.old v → Fits z u self.new room.new v }
    {
        let Some(leaf) = room.stock.leaf() else {
            unreachable!();
        };
        room.row.number = leaf;
        let made = room.number_for(needed(&position.verdict).node);
        let change = &mut room.change;
        let bodies = &mut room.bodies;
        plan_insert(change, bodies, position, &room.read_set, &room.row, made);
        self.begin(room);
    }

    /// The leaf goes alone.
    fn plan_stays(&mut self, room: &mut Room, position: &Position)
        requires { (z : Sizes) × (u : View) × (v : View) × IsRoom z room.old ×
            IsValidating z u self.old.job position.now cases.DropLeaf (validated unchanged) room.old v }
        ensures kept { IsSameTry self.old self.new room.old room.new }
        ensures not_anew { ended_at self.new ≢ Some anew }
        ensures not_overlaps { ended_at self.new ≢ Some overlaps }
        ensures free { is_free self.new ≡ true }
        ensures fits { (z : Sizes) (u v : View) → IsRoom z room.old →
            IsValidating z u self.old.job position.now cases.DropLeaf (validated unchanged) room.old v → Fits z u self.new room.new v }
    {
        let change = &mut room.change;
        let bodies = &mut room.bodies;
        plan_drop(change, bodies, position, &room.read_set, &room.gone);
        self.begin(room);
    }

    /// The node gives way to a smaller one.
    fn plan_shrinks(&mut self, room: &mut Room, position: &Position, layout: Layout)
        requires { (z : Sizes) × (u : View) × (v : View) × IsRoom z room.old ×
            IsValidating z u self.old.job position.now (cases.Shrink layout) (validated unchanged) room.old v }
        ensures kept { IsSameTry self.old self.new room.old room.new }
        ensures not_anew { ended_at self.new ≢ Some anew }
        ensures not_overlaps { ended_at self.new ≢ Some overlaps }
        ensures free { is_free self.new ≡ true }
        ensures fits { (z : Sizes) (u v : View) → IsRoom z room.old →
            IsValidating z u self.old.job position.now (cases.Shrink layout) (validated unchanged) room.old v →
            Fits z u self.new room.new v }
    {
        let made = room.number_for(Some(layout));
        let change = &mut room.change;
        let bodies = &mut room.bodies;
        plan_shrink(change, bodies, position, &room.read_set, &room.gone, made);
        self.begin(room);
    }

    /// The node gives way to its other child, a leaf.
    fn plan_merges(&mut self, room: &mut Room, position: &Position, other: u32)
        requires { (z : Sizes) × (u : View) × (v : View) × IsRoom z room.old ×
            IsValidating z u self.old.job position.now (cases.MergeLeaf other) (validated unchanged) room.old v }
        ensures kept { IsSameTry self.old self.new room.old room.new }
        ensures not_anew { ended_at self.new ≢ Some anew }
        ensures not_overlaps { ended_at self.new ≢ Some overlaps }
        ensures free { is_free self.new ≡ true }
        ensures fits { (z : Sizes) (u v : View) → IsRoom z room.old →
            IsValidating z u self.old.job position.now (cases.MergeLeaf other) (validated unchanged) room.old v →
            Fits z u self.new room.new v }
    {
        let change = &mut room.change;
        let bodies = &mut room.bodies;
        plan_merge_leaf(change, bodies, position, &room.read_set, &room.gone, other);
        self.begin(room);
    }

    /// The node gives way to its other child, a node.
    fn plan_lowers(&mut self, room: &mut Room, position: &Position, child: Lower)
        requires { (z : Sizes) × (u : View) × (v : View) × IsRoom z room.old ×
            IsValidating z u self.old.job position.now (cases.MergeNode child) (validated unchanged) room.old v }
        ensures kept { IsSameTry self.old self.new room.old room.new }
        ensures not_anew { ended_at self.new ≢ Some anew }
        ensures not_overlaps { ended_at self.new ≢ Some overlaps }
        ensures free { is_free self.new ≡ true }
        ensures fits { (z : Sizes) (u v : View) → IsRoom z room.old →
            IsValidating z u self.old.job position.now (cases.MergeNode child) (validated unchanged) room.old v →
            Fits z u self.new room.new v }
    {
        let change = &mut room.change;
        let bodies = &mut room.bodies;
        let body = &mut room.lower_body;
        let read_set = &room.read_set;
        let (lower, gone) = (&room.lower, &room.gone);
        if !plan_merge_node(
            change, bodies, body, position, read_set, &child, lower, gone,
        ) {
            // the lower node is a third cell, and the joined prefix is short
            unreachable!();
        }
        self.begin(room);
    }

    /// The change is planned, and is made.
    #[inline(always)]
    fn begin(&mut self, room: &Room)
        requires { 0 < targets room.now.change }
        ensures job { self.new.job ≡ self.old.job }
        ensures not_anew { ended_at self.new ≢ Some anew }
        ensures not_overlaps { ended_at self.new ≢ Some overlaps }
        ensures free { is_free self.new ≡ true }
        ensures fits { (z : Sizes) (u v : View) (t : PositionOf) (c : CaseOf) → IsRoom z room.now → EndsWithin z u 22500 room.now v →
            MayMake z u self.old.job t c room.now v → Fits z u self.new room.now v }
    {
        self.stage = Stage::Apply(Apply::new(&room.change));
    }

    /// What comes next where the change is made.
    pub(crate) fn make_next(&self, room: &Room, apply: &Apply) -> Option<Action>
        ensures asks { result ≡ apply_asks apply.now room.now }
        ensures allowed { (z : Sizes) (u v : View) (d : Deed) → HasMade z u self.now.job apply.now room.now v →
            IfSome result (IsAllowed z d room.now.change v) }
        ensures going { (z : Sizes) (u v : View) → HasMade z u self.now.job apply.now room.now v → made_at apply.now ≡ None →
            (a : ActionOf) × (result ≡ Some a) }
    {
        apply.next(&room.change)
    }

    /// A step of the change was made.
    pub(crate) fn make_told(&mut self, room: &mut Room, apply: Apply, answer: Answer)
        requires { (z : Sizes) × (u : View) × (v : View) × (w : View) × (asked : ActionOf) × IsRoom z room.old ×
            HasMade z u self.old.job apply room.old v × (apply_asks apply room.old ≡ Some asked) ×
            ActionAnswers z (brings room.old.change) asked answer v w }
        ensures kept { IsSameTry self.old self.new room.old room.new }
        ensures fits { (z : Sizes) (u v w : View) (asked : ActionOf) → IsRoom z room.old → HasMade z u self.old.job apply room.old v →
            apply_asks apply room.old ≡ Some asked → ActionAnswers z (brings room.old.change) asked answer v w →
            Fits z u self.new room.new w }
        ensures left { (left : ℕ) → (is_begun apply ≡ true → 0 < left) →
            steps_left (left - steps_in answer) self.new < apply_left left apply }
        ensures anew { ended_at self.new ≡ Some anew → IsGivenUpBy apply answer }
        ensures not_overlaps { ended_at self.new ≢ Some overlaps }
        ensures over { is_free self.new ≡ true → ended_at self.new ≢ None }
    {
        let mut apply = apply;
        apply.told(&room.change, answer);
        self.make_on(room, apply);
    }

    /// Makes all steps that are left of the change; where no cell is locked yet, as long as more than one turn is left.
    pub(crate) fn make_all<S: EpochSteps>(
        &mut self,
        steps: &mut S,
        room: &mut Room,
        apply: Apply,
        left: &mut u32,
    )
        requires stage { self.old.stage ≡ stages.Apply apply }
        requires turn { 0 < left.old }
        requires admitted { S.admits steps.old room.old.row.key.items }
        requires fits { (u : View) × Fits (S.sizes steps.old) u self.old room.old (S.view steps.old) }
        ensures only { S.only steps.old steps.new }
        ensures kept { IsSameTry self.old self.new room.old room.new }
        ensures not_overlaps { ended_at self.new ≢ Some overlaps }
        ensures turn { is_free self.new ≡ true → ended_at self.new ≡ None → 0 < left.new }
        ensures later { (S.view steps.old).steps ≤ (S.view steps.new).steps }
        ensures counted { (S.view steps.old).steps + left.old ≤ (S.view steps.new).steps + left.new }
        ensures left { (S.view steps.new).steps + steps_left left.new self.new ≤ (S.view steps.old).steps + steps_left left.old self.old }
        ensures fits { (u : View) → Fits (S.sizes steps.old) u self.old room.old (S.view steps.old) →
            Fits (S.sizes steps.old) u self.new room.new (S.view steps.new) }
    {
        let mut apply = apply;
        apply.run(steps, &room.change, left);
        self.make_on(room, apply);
    }

    /// It goes on; or the change is made, or was given up.
    #[inline(always)]
    fn make_on(&mut self, room: &mut Room, apply: Apply)
        ensures kept { IsSameTry self.old self.new room.old room.new }
        ensures going { made_at apply ≡ None → self.new.stage ≡ stages.Apply apply }
        ensures ended { (made : Result ⊤ FaultOf) → made_at apply ≡ Some made →
            self.new.stage ≡ stages.Ended (ended_so self.old.job room.old.gone.value made) }
        ensures fits { (z : Sizes) (u v : View) → IsRoom z room.old → HasMade z u self.old.job apply room.old v →
            Fits z u self.new room.new v }
    {
        match apply.ended() {
            None => self.stage = Stage::Apply(apply),
            Some(made) => self.made(room, made),
        }
    }

    /// The change is made, or was given up.
    #[inline(always)]
    fn made(&mut self, room: &mut Room, made: Result<(), UpgradeFault>)
        ensures kept { IsSameTry self.old self.new room.old room.new }
        ensures stage { self.new.stage ≡ stages.Ended (ended_so self.old.job room.old.gone.value made) }
        ensures fits { (z : Sizes) (u v : View) (s : ApplyOf) → IsRoom z room.old → HasMade z u self.old.job s room.old v →
            made_at s ≡ Some made → Fits z u self.new room.new v }
    {
        match made {
            Ok(()) => {
                room.spend();
                self.stage = Stage::Ended(written(self.job, room.gone.value));
            }
            Err(fault) => self.stage = Stage::Ended(given_up(fault)),
        }
    }
}

/// How an attempt ends whose change was made, of a row that had this value.
fn written(job: Job, value: u64) -> Ending
    ensures { result ≡ written job value }
{
    match job {
        Job::Insert => Ending::New,
        Job::Remove => Ending::Gone(value),
    }
}

/// How an attempt ends whose change was given up.
fn given_up(fault: UpgradeFault) -> Ending
    ensures { result ≡ given_up fault }
{
    match fault {
        UpgradeFault::Changed(_) => Ending::Restart,
        UpgradeFault::Exhausted(cell) => Ending::Exhausted(cell),
    }
}
