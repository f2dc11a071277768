//! The parts of an attempt where its key stands: numbers come into the hand, and the cells that it writes are validated.
ghost use Rattle.std.specs.Prelude.{◌≡◌, ◌≢◌, ◌+◌, ◌<◌, ◌≤◌, length, None, Some, true, false};
ghost use Rattle.art_attempt.specs.Attempts.{EndsWithin, Fits, HasSupplies, IsKnown, IsRoom, IsSameTry, IsValidating, StandsAt, WantsNumbers, asks, deed_at, ended_at, is_free, supply_asks, validate_asks, PartFits, part_asks};
ghost use Rattle.art_attempt.specs.Cases.{IsCaseOf, cells_of};
ghost use Rattle.art_attempt.specs.Parts.{PartKnows, validated_in, Prepares};
ghost use Rattle.art_attempt.specs.declared.attempts.Ending.TheVariants.{Restart as anew, Overlaps as overlaps};
ghost use Rattle.art_attempt.specs.declared.attempts.Part.TheVariants as parts;
ghost use Rattle.art_attempt.specs.declared.attempts.Part.{Part as PartOf};
ghost use Rattle.art_attempt.specs.declared.attempts.Stage.TheVariants as stages;
ghost use Rattle.art_attempt.specs.declared.attempts.Case.{Case as CaseOf};
ghost use Rattle.art_find.specs.Findings.{IsStanding};
ghost use Rattle.art_find.specs.declared.findings.Position.{Position as PositionOf};
ghost use Rattle.art_attempt.specs.Reserve.{ended_at as reserved_at};
ghost use Rattle.art_attempt.specs.Validate.{BelowFits, ended_at as validated_at};
ghost use Rattle.art_attempt.specs.declared.reserve.Reserve.{Reserve as ReserveOf};
ghost use Rattle.art_attempt.specs.declared.reserve.Reserved.TheVariants.{Full as full};
ghost use Rattle.art_attempt.specs.declared.validate.Validate.{Validate as ValidateOf};
ghost use Rattle.art_attempt.specs.declared.validate.Validate.TheVariants.{Ended as validate_ended};
ghost use Rattle.art_attempt.specs.declared.validate.Validated.TheVariants.{Changed as changed_cell};
ghost use Rattle.art_step.specs.Acting.{Answers as ActionAnswers, goes_on, telling};
ghost use Rattle.art_step.specs.declared.actions.Action.{Action as ActionOf};
ghost use Rattle.art_step.specs.declared.views.Sizes.{Sizes};
ghost use Rattle.art_step.specs.declared.views.View.{View};

use crate::{
    Attempt, Case, Ending, Job, Part, Reserve, Reserved, Room, Stage, Validate, Validated,
};
use art_cell::Pool;
use art_find::Position;
use art_step::{Action, Answer, EpochSteps};

impl Attempt {
    ghost use Rattle.std.specs.Prelude.{IfSome};
    ghost use Rattle.art_attempt.specs.Asking.{IsAllowed};
    ghost use Rattle.art_attempt.specs.declared.attempts.Room.{Room as RoomOf};
    ghost use Rattle.art_step.specs.declared.deeds.Deed.{Deed};

    /// What comes next where numbers are brought into the hand.
    pub(crate) fn supply_next(&self, room: &Room, reserve: &Reserve) -> Option<Action>
        requires short { length room.now.row.key.items ≤ 64 }
        ensures asks { result ≡ supply_asks reserve.now room.now }
        ensures allowed { (z : Sizes) (u v : View) (t : PositionOf) (c : CaseOf) (d : Deed) →
            HasSupplies z u self.now.job t c reserve.now room.now v → IfSome result (IsAllowed z d room.now.change v) }
        ensures going { (z : Sizes) (u v : View) (t : PositionOf) (c : CaseOf) → HasSupplies z u self.now.job t c reserve.now room.now v →
            reserved_at reserve.now ≡ None → (a : ActionOf) × (result ≡ Some a) }
    {
        let key = room.row.key.as_slice();
        reserve.next(key, room.row.value, &room.stock)
    }

    /// In this case numbers are wanted: they are brought into the hand.
    #[inline(always)]
    pub(crate) fn supply(&mut self, room: &mut Room, position: &Position, case: Case)
        requires at { StandsAt position.now self.old.stage }
        requires within { (z : Sizes) × (u : View) × (v : View) × IsRoom z room.old × EndsWithin z u 1203 room.old v }
        ensures kept { IsSameTry self.old self.new room.old room.new }
        ensures not_anew { ended_at self.new ≢ Some anew }
        ensures not_overlaps { ended_at self.new ≢ Some overlaps }
        ensures free { is_free self.new ≡ true }
        ensures fits { (z : Sizes) (u v : View) → IsRoom z room.old → EndsWithin z u 1203 room.old v → IsCaseOf self.old.job case →
            IsStanding z room.old.row.key.items position.now room.old.read_set v → WantsNumbers z u case position.now room.old v →
            Fits z u self.new room.new v }
    {
        let demand = case.demand(room.sizes, &position.verdict);
        let reserve = Reserve::new(&demand, &mut room.stock);
        match reserve.ended() {
            None => self.go_on(position, Part::Reserve { case, reserve }),
            Some(reserved) => self.supplied(room, position, case, reserved),
        }
    }

    /// A number was sought, or a word of the leaf written.
    pub(crate) fn supply_told(&mut self, room: &mut Room, answer: Answer)
        requires stage { (t : PositionOf) × (c : CaseOf) × (s : ReserveOf) × (self.old.stage ≡ stages.Placed t (parts.Reserve c s)) }
        requires told { (z : Sizes) × (u : View) × (v : View) × (w : View) × (asked : ActionOf) × Fits z u self.old room.old v ×
            (asks self.old room.old ≡ Some asked) × ActionAnswers z None asked answer v w }
        ensures kept { IsSameTry self.old self.new room.old room.new }
        ensures not_anew { ended_at self.new ≢ Some anew }
        ensures not_overlaps { ended_at self.new ≢ Some overlaps }
        ensures free { is_free self.new ≡ true }
        ensures fits { (z : Sizes) (u v w : View) (asked : ActionOf) → Fits z u self.old room.old v →
            asks self.old room.old ≡ Some asked → ActionAnswers z None asked answer v w → Fits z u self.new room.new w }
    {
        let Stage::Placed { position, part } = &mut self.stage else {
            unreachable!()
        };
        let Part::Reserve { case, reserve } = part else {
            unreachable!()
        };
        let demand = case.demand(room.sizes, &position.verdict);
        reserve.told(&demand, &mut room.stock, answer);
        self.supply_on(room);
    }

    /// Brings numbers into the hand, as long as more than one turn is left.
    #[inline(always)]
    pub(crate) fn supply_all<S: EpochSteps>(
        &mut self,
        steps: &mut S,
        room: &mut Room,
        left: &mut u32,
    )
        requires free { is_free self.old ≡ true }
        requires not_overlaps { ended_at self.old ≢ Some overlaps }
        requires short { length room.old.row.key.items ≤ 64 }
        requires turn { 0 < left.old }
        requires fits { (u : View) × Fits (S.sizes steps.old) u self.old room.old (S.view steps.old) }
        ensures only { S.only steps.old steps.new }
        ensures kept { IsSameTry self.old self.new room.old room.new }
        ensures free { is_free self.new ≡ true }
        ensures not_overlaps { ended_at self.new ≢ Some overlaps }
        ensures turn { 0 < left.new }
        ensures less { left.new ≤ left.old }
        ensures made { (S.view steps.new).steps + left.new ≡ (S.view steps.old).steps + left.old }
        ensures fits { (u : View) → Fits (S.sizes steps.old) u self.old room.old (S.view steps.old) →
            Fits (S.sizes steps.old) u self.new room.new (S.view steps.new) }
    {
        let Stage::Placed { position, part } = &mut self.stage else {
            return;
        };
        let Part::Reserve { case, reserve } = part else {
            return;
        };
        let demand = case.demand(room.sizes, &position.verdict);
        let key = room.row.key.as_slice();
        // a copy of its own stays in registers while it runs
        let mut running = *reserve;
        running.run(steps, &demand, key, room.row.value, &mut room.stock, left);
        *reserve = running;
        self.supply_on(room);
    }

    /// It goes on; or all is in hand, and the cells are validated; or a pool gave no number.
    #[inline(always)]
    fn supply_on(&mut self, room: &Room)
        requires stage { (t : PositionOf) × (c : CaseOf) × (s : ReserveOf) × (self.old.stage ≡ stages.Placed t (parts.Reserve c s)) }
        ensures job { self.new.job ≡ self.old.job }
        ensures not_anew { ended_at self.new ≢ Some anew }
        ensures not_overlaps { ended_at self.new ≢ Some overlaps }
        ensures free { is_free self.new ≡ true }
        ensures fits { (z : Sizes) (u v : View) → IsRoom z room.now → PartKnows z u self.old.stage self.old.job room.now v →
            Fits z u self.new room.now v }
    {
        let Stage::Placed { position, part } = &self.stage else {
            unreachable!()
        };
        let Part::Reserve { case, reserve } = part else {
            unreachable!()
        };
        let Some(reserved) = reserve.ended() else {
            return;
        };
        let (position, case) = (*position, *case);
        self.supplied(room, &position, case, reserved);
    }

    /// The reserve has ended so: all is in hand, and the cells are validated; or a pool gave no number. Then a leaf that was to come is
    /// refused, and one that goes does so alone.
    #[inline(always)]
    fn supplied(&mut self, room: &Room, position: &Position, case: Case, reserved: Reserved)
        requires at { StandsAt position.now self.old.stage }
        ensures job { self.new.job ≡ self.old.job }
        ensures not_anew { ended_at self.new ≢ Some anew }
        ensures not_overlaps { ended_at self.new ≢ Some overlaps }
        ensures free { is_free self.new ≡ true }
        ensures fits { (z : Sizes) (u v : View) (s : ReserveOf) → IsRoom z room.now →
            HasSupplies z u self.old.job position.now case s room.now v → reserved_at s ≡ Some reserved → Fits z u self.new room.now v }
    {
        match reserved {
            Reserved::Ready => self.validate(room, position, case),
            Reserved::Full(pool) => match self.job {
                Job::Insert => self.stage = Stage::Ended(Ending::Full(pool)),
                Job::Remove => self.validate(room, position, Case::DropLeaf),
            },
        }
    }

    /// What is changed is known: the cells that are written are validated.
    #[inline(always)]
    pub(crate) fn validate(&mut self, room: &Room, position: &Position, case: Case)
        requires at { StandsAt position.now self.old.stage }
        ensures job { self.new.job ≡ self.old.job }
        ensures not_anew { ended_at self.new ≢ Some anew }
        ensures not_overlaps { ended_at self.new ≢ Some overlaps }
        ensures free { is_free self.new ≡ true }
        ensures fits { (z : Sizes) (u v : View) → IsRoom z room.now → EndsWithin z u 21702 room.now v → IsCaseOf self.old.job case →
            IsStanding z room.now.row.key.items position.now room.now.read_set v → IsKnown z u case position.now room.now v →
            BelowFits z room.now.row.key.items position.now room.now.read_set (cells_of case position.now.verdict).lower
            room.now.lower v v → Fits z u self.new room.now v }
    {
        let cells = case.cells(&position.verdict);
        let validate = Validate::new(position, &cells, &room.read_set, &room.lower);
        self.go_on(position, Part::Validate { case, validate });
    }

    /// What comes next where the cells are validated.
    pub(crate) fn validate_next(
        &self,
        position: &Position,
        case: Case,
        validate: &Validate,
    ) -> Option<Action>
        ensures asks { result ≡ validate_asks position.now case validate.now }
        ensures allowed { (z : Sizes) (u v : View) (r : RoomOf) (d : Deed) →
            IsValidating z u self.now.job position.now case validate.now r v → IfSome result (IsAllowed z d r.change v) }
        ensures going { (z : Sizes) (u v : View) (r : RoomOf) → IsValidating z u self.now.job position.now case validate.now r v →
            validated_at validate.now ≡ None → (a : ActionOf) × (result ≡ Some a) }
    {
        let cells = case.cells(&position.verdict);
        validate.next(position, &cells)
    }

    /// A word was read, or a cell was checked.
    pub(crate) fn validate_told(&mut self, room: &mut Room, answer: Answer)
        requires stage { (t : PositionOf) × (c : CaseOf) × (s : ValidateOf) × (self.old.stage ≡ stages.Placed t (parts.Validate c s)) }
        requires told { (z : Sizes) × (u : View) × (v : View) × (w : View) × (asked : ActionOf) × Fits z u self.old room.old v ×
            (asks self.old room.old ≡ Some asked) × ActionAnswers z (telling (deed_at self.old room.old)) asked answer v w }
        ensures kept { IsSameTry self.old self.new room.old room.new }
        ensures anew { ended_at self.new ≡ Some anew → goes_on answer ≡ false }
        ensures not_overlaps { ended_at self.new ≢ Some overlaps }
        ensures free { is_free self.new ≡ true }
        ensures fits { (z : Sizes) (u v w : View) (asked : ActionOf) → Fits z u self.old room.old v →
            asks self.old room.old ≡ Some asked → ActionAnswers z (telling (deed_at self.old room.old)) asked answer v w →
            Fits z u self.new room.new w }
    {
        let Stage::Placed { position, part } = &mut self.stage else {
            unreachable!()
        };
        let Part::Validate { case, validate } = part else {
            unreachable!()
        };
        let cells = case.cells(&position.verdict);
        let read_set = &mut room.read_set;
        validate.told(position, &cells, read_set, &mut room.lower, answer);
        self.validate_on(room);
    }

    /// Reads and checks the cells, as long as more than one turn is left.
    #[inline(always)]
    pub(crate) fn validate_all<S: EpochSteps>(
        &mut self,
        steps: &mut S,
        room: &mut Room,
        left: &mut u32,
    )
        requires free { is_free self.old ≡ true }
        requires not_overlaps { ended_at self.old ≢ Some overlaps }
        requires turn { 0 < left.old }
        requires fits { (u : View) × Fits (S.sizes steps.old) u self.old room.old (S.view steps.old) }
        ensures only { S.only steps.old steps.new }
        ensures kept { IsSameTry self.old self.new room.old room.new }
        ensures free { is_free self.new ≡ true }
        ensures not_overlaps { ended_at self.new ≢ Some overlaps }
        ensures turn { 0 < left.new }
        ensures less { left.new ≤ left.old }
        ensures made { (S.view steps.new).steps + left.new ≡ (S.view steps.old).steps + left.old }
        ensures fits { (u : View) → Fits (S.sizes steps.old) u self.old room.old (S.view steps.old) →
            Fits (S.sizes steps.old) u self.new room.new (S.view steps.new) }
    {
        let Stage::Placed { position, part } = &mut self.stage else {
            return;
        };
        let Part::Validate { case, validate } = part else {
            return;
        };
        let cells = case.cells(&position.verdict);
        // a copy of its own stays in registers while it runs
        let mut running = *validate;
        let read_set = &mut room.read_set;
        running.run(steps, position, &cells, read_set, &mut room.lower, left);
        *validate = running;
        self.validate_on(room);
    }

    /// It goes on; or all that is written was seen, and the change is planned; or a cell was changed.
    #[inline(always)]
    fn validate_on(&mut self, room: &mut Room)
        requires stage { (t : PositionOf) × (c : CaseOf) × (s : ValidateOf) × (self.old.stage ≡ stages.Placed t (parts.Validate c s)) }
        requires validating { (z : Sizes) × (u : View) × (v : View) × IsRoom z room.old ×
            PartKnows z u self.old.stage self.old.job room.old v }
        ensures kept { IsSameTry self.old self.new room.old room.new }
        ensures anew { ended_at self.new ≡ Some anew → validated_in self.old.stage ≡ Some changed_cell }
        ensures not_overlaps { ended_at self.new ≢ Some overlaps }
        ensures free { is_free self.new ≡ true }
        ensures fits { (z : Sizes) (u v : View) → IsRoom z room.old → PartKnows z u self.old.stage self.old.job room.old v →
            Fits z u self.new room.new v }
    {
        let Stage::Placed { position, part } = &self.stage else {
            unreachable!()
        };
        let Part::Validate { case, validate } = part else {
            unreachable!()
        };
        let Some(validated) = validate.ended() else {
            return;
        };
        let (position, case) = (*position, *case);
        self.validated(room, &position, case, validated);
    }

    /// The validation has ended so: all that is written was seen, and the change is planned; or a cell was changed.
    #[inline(always)]
    fn validated(&mut self, room: &mut Room, position: &Position, case: Case, validated: Validated)
        requires { (z : Sizes) × (u : View) × (v : View) × IsRoom z room.old ×
            IsValidating z u self.old.job position.now case (validate_ended validated) room.old v }
        ensures kept { IsSameTry self.old self.new room.old room.new }
        ensures anew { ended_at self.new ≡ Some anew → validated ≡ changed_cell }
        ensures not_overlaps { ended_at self.new ≢ Some overlaps }
        ensures free { is_free self.new ≡ true }
        ensures fits { (z : Sizes) (u v : View) → IsRoom z room.old →
            IsValidating z u self.old.job position.now case (validate_ended validated) room.old v → Fits z u self.new room.new v }
    {
        match validated {
            Validated::Changed => self.stage = Stage::Ended(Ending::Restart),
            Validated::Unchanged => self.plan(room, position, case),
        }
    }
}

impl Attempt {
    ghost use Rattle.std.specs.Prelude.{IfSome};
    ghost use Rattle.art_attempt.specs.Asking.{Answers, IsAllowed};
    ghost use Rattle.art_step.specs.declared.deeds.Deed.{Deed};

    /// What comes next where the key stands.
    pub(crate) fn part_next(&self, room: &Room, position: &Position, part: &Part) -> Option<Action>
        requires short { length room.now.row.key.items ≤ 64 }
        ensures asks { result ≡ part_asks part.now position.now room.now }
        ensures allowed { (z : Sizes) (u v : View) (d : Deed) → PartFits z u self.now.job position.now part.now room.now v →
            IfSome result (IsAllowed z d room.now.change v) }
        ensures going { (z : Sizes) (u v : View) → PartFits z u self.now.job position.now part.now room.now v →
            (a : ActionOf) × (result ≡ Some a) }
    {
        match part {
            Part::Reserve { reserve, .. } => self.supply_next(room, reserve),
            Part::Reading(rereading) => self.read_next(position, rereading),
            Part::Naming { naming, .. } => self.name_next(position, naming),
            Part::Validate { case, validate } => self.validate_next(position, *case, validate),
        }
    }

    /// A step of the part was made.
    pub(crate) fn part_told(&mut self, room: &mut Room, answer: Answer)
        requires stage { (t : PositionOf) × (p : PartOf) × (self.old.stage ≡ stages.Placed t p) }
        requires told { (z : Sizes) × (u : View) × (v : View) × (w : View) × (asked : ActionOf) × Fits z u self.old room.old v ×
            (asks self.old room.old ≡ Some asked) × Answers z (deed_at self.old room.old) room.old.change asked answer v w }
        ensures kept { IsSameTry self.old self.new room.old room.new }
        ensures anew { ended_at self.new ≡ Some anew → goes_on answer ≡ false }
        ensures not_overlaps { ended_at self.new ≢ Some overlaps }
        ensures free { is_free self.new ≡ true }
        ensures fits { (z : Sizes) (u v w : View) (asked : ActionOf) → Fits z u self.old room.old v →
            asks self.old room.old ≡ Some asked → Answers z (deed_at self.old room.old) room.old.change asked answer v w →
            Fits z u self.new room.new w }
    {
        let Stage::Placed { part, .. } = &self.stage else {
            unreachable!()
        };
        match part {
            Part::Reserve { .. } => self.supply_told(room, answer),
            Part::Reading(_) => self.read_told(room, answer),
            Part::Naming { .. } => self.name_told(room, answer),
            Part::Validate { .. } => self.validate_told(room, answer),
        }
    }

    /// Makes the steps that come before a change, as long as more than one turn is left: each part goes on where the one before it ended.
    #[inline(always)]
    pub(crate) fn prepare<S: EpochSteps>(&mut self, steps: &mut S, room: &mut Room, left: &mut u32)
        requires free { is_free self.old ≡ true }
        requires not_overlaps { ended_at self.old ≢ Some overlaps }
        requires short { length room.old.row.key.items ≤ 64 }
        requires turn { 0 < left.old }
        requires fits { (u : View) × Fits (S.sizes steps.old) u self.old room.old (S.view steps.old) }
        ensures only { S.only steps.old steps.new }
        ensures free { is_free self.new ≡ true }
        ensures not_overlaps { ended_at self.new ≢ Some overlaps }
        ensures prepared { Prepares (S.sizes steps.old) self.old room.old left.old (S.view steps.old)
            self.new room.new left.new (S.view steps.new) }
    {
        self.find_all(steps, room, left);
        self.settle_on(steps, room, left);
        self.read_all(steps, room, left);
        self.name_all(steps, room, left);
        self.supply_all(steps, room, left);
        self.validate_all(steps, room, left);
    }

    /// It goes on where the key stands, with this part: a place where it stands already is not moved again.
    #[inline(always)]
    pub(crate) fn go_on(&mut self, position: &Position, part: Part)
        requires at { StandsAt position.now self.old.stage }
        ensures { self.new ≡ record self.old { stage = stages.Placed position.now part } }
    {
        match &mut self.stage {
            Stage::Placed { part: here, .. } => *here = part,
            _ => {
                self.stage = Stage::Placed {
                    position: *position,
                    part,
                };
            }
        }
    }
}
