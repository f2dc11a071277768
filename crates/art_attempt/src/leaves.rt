//! How an attempt tells what goes with a leaf, by the words of the node that names it.
ghost use Rattle.std.specs.Prelude.{◌≡◌, ◌≢◌, ℕ, ◌+◌, ◌<◌, ◌≤◌, None, Some, true, false};
ghost use Rattle.art_attempt.specs.Attempts.{EndsWithin, Fits, IsNaming, IsReadingOn, IsRoom, IsSameTry, deed_at, ended_at, is_free};
ghost use Rattle.art_attempt.specs.Attempts.{StandsAt, asks, naming_asks, reading_asks};
ghost use Rattle.art_attempt.specs.Cases.{HasLeaf, LeavesOther};
ghost use Rattle.art_attempt.specs.Parts.{PartKnows};
ghost use Rattle.art_attempt.specs.declared.attempts.Ending.TheVariants.{Restart as anew, Overlaps as overlaps};
ghost use Rattle.art_attempt.specs.declared.attempts.Job.TheVariants as jobs;
ghost use Rattle.art_attempt.specs.declared.attempts.Part.TheVariants as parts;
ghost use Rattle.art_attempt.specs.declared.attempts.Stage.TheVariants as stages;
ghost use Rattle.art_cell.specs.declared.cells.Link.TheVariants.{Node as node_link};
ghost use Rattle.art_cell.specs.declared.cells.Node.{Node as NodeOf};
ghost use Rattle.art_find.specs.Findings.{IsStanding};
ghost use Rattle.art_find.specs.declared.findings.Position.{Position as PositionOf};
ghost use Rattle.art_find.specs.declared.read_sets.Rereading.{Rereading as RereadingOf};
ghost use Rattle.art_attempt.specs.Naming.{KnowsHere, ended_at as named_at};
ghost use Rattle.art_attempt.specs.declared.naming.Named.TheVariants.{Changed as changed_name};
ghost use Rattle.art_attempt.specs.declared.naming.Naming.{Naming as NamingOf};
ghost use Rattle.art_step.specs.Acting.{Answers as ActionAnswers, goes_on, telling};
ghost use Rattle.art_step.specs.declared.actions.Action.{Action as ActionOf};
ghost use Rattle.art_plan.specs.ChooseRemove.Losses.{loss_at};
ghost use Rattle.art_plan.specs.ChooseRemove.Others.{NamesChild};
ghost use Rattle.art_plan.specs.declared.choose_remove.Loss.TheVariants as losses;
ghost use Rattle.art_step.specs.Views.{size_of};
ghost use Rattle.art_step.specs.declared.views.Sizes.{Sizes};
ghost use Rattle.art_step.specs.declared.views.View.{View};

use crate::{Attempt, Case, Ending, Named, Naming, Part, Room, Stage};
use art_cell::{Link, Node};
use art_find::{Position, ReadSet, Rereading, look};
use art_plan::{Loss, Lower, lost, other_child};
use art_step::{Action, Answer, EpochSteps};

impl Attempt {
    ghost use Rattle.std.specs.Prelude.{IfSome};
    ghost use Rattle.art_attempt.specs.Asking.{IsAllowed};
    ghost use Rattle.art_attempt.specs.declared.attempts.Room.{Room as RoomOf};
    ghost use Rattle.art_step.specs.declared.deeds.Deed.{Deed};

    /// What comes next where the node is read on.
    pub(crate) fn read_next(&self, position: &Position, rereading: &Rereading) -> Option<Action>
        ensures asks { result ≡ reading_asks position.now rereading.now }
        ensures allowed { (z : Sizes) (u v : View) (r : RoomOf) (d : Deed) → IsReadingOn z u self.now.job position.now rereading.now r v →
            IfSome result (IsAllowed z d r.change v) }
        ensures going { (z : Sizes) (u v : View) (r : RoomOf) → IsReadingOn z u self.now.job position.now rereading.now r v →
            rereading.now.place < size_of position.now.stamp.cell → (a : ActionOf) × (result ≡ Some a) }
    {
        rereading.next(position.stamp)
    }

    /// The leaf is there, and its place was checked: what goes with it says what comes next.
    pub(crate) fn choose(&mut self, room: &mut Room, position: &Position)
        requires at { StandsAt position.now self.old.stage }
        requires leaf { (z : Sizes) × (u : View) × (v : View) × IsRoom z room.old × EndsWithin z u 1201 room.old v ×
            HasLeaf position.now room.old }
        ensures kept { IsSameTry self.old self.new room.old room.new }
        ensures not_anew { ended_at self.new ≢ Some anew }
        ensures not_overlaps { ended_at self.new ≢ Some overlaps }
        ensures free { is_free self.new ≡ true }
        ensures fits { (z : Sizes) (u v : View) → IsRoom z room.old → EndsWithin z u 1201 room.old v → self.old.job ≡ jobs.Remove →
            HasLeaf position.now room.old → IsStanding z room.old.row.key.items position.now room.old.read_set v →
            Fits z u self.new room.new v }
    {
        match loss(position, &room.read_set) {
            Loss::Leaf => self.validate(room, position, Case::DropLeaf),
            Loss::Shrinks(layout) => self.supply(room, position, Case::Shrink(layout)),
            Loss::Merges => {
                let rereading = Rereading::new(room.read_set.node());
                self.go_on(position, Part::Reading(rereading));
                self.read_on(room);
            }
        }
    }

    /// A word of the node was read. Where its header was not known before, it is now, and may tell that the node stays, or shrinks.
    pub(crate) fn read_told(&mut self, room: &mut Room, answer: Answer)
        requires stage { (t : PositionOf) × (q : RereadingOf) × (self.old.stage ≡ stages.Placed t (parts.Reading q)) }
        requires told { (z : Sizes) × (u : View) × (v : View) × (w : View) × (asked : ActionOf) × Fits z u self.old room.old v ×
            (asks self.old room.old ≡ Some asked) × ActionAnswers z (telling (deed_at self.old room.old)) asked answer v w }
        ensures kept { IsSameTry self.old self.new room.old room.new }
        ensures not_anew { ended_at self.new ≢ Some anew }
        ensures not_overlaps { ended_at self.new ≢ Some overlaps }
        ensures free { is_free self.new ≡ true }
        ensures fits { (z : Sizes) (u v w : View) (asked : ActionOf) → Fits z u self.old room.old v →
            asks self.old room.old ≡ Some asked → ActionAnswers z (telling (deed_at self.old room.old)) asked answer v w →
            Fits z u self.new room.new w }
    {
        let Stage::Placed { position, part } = &mut self.stage else {
            unreachable!()
        };
        let Part::Reading(rereading) = part else {
            unreachable!()
        };
        room.read_set.reread_node(rereading, answer.found());
        let position = *position;
        match loss(&position, &room.read_set) {
            Loss::Leaf => self.validate(room, &position, Case::DropLeaf),
            Loss::Shrinks(layout) => self.supply(room, &position, Case::Shrink(layout)),
            Loss::Merges => self.read_on(room),
        }
    }

    /// Reads the words of the node that are missing, as long as more than one turn is left.
    pub(crate) fn read_all<S: EpochSteps>(&mut self, steps: &mut S, room: &mut Room, left: &mut u32)
        requires free { is_free self.old ≡ true }
        requires not_overlaps { ended_at self.old ≢ Some overlaps }
        requires turn { 0 < left.old }
        requires fits { (u : View) × Fits (S.sizes steps.old) u self.old room.old (S.view steps.old) }
        ensures only { S.only steps.old steps.new }
        ensures kept { IsSameTry self.old self.new room.old room.new }
        ensures free { is_free self.new ≡ true }
        ensures not_overlaps { ended_at self.new ≢ Some overlaps }
        ensures turn { 0 < left.new }
        ensures less { left.new ≤ left.old }
        ensures made { (S.view steps.new).steps + left.new ≡ (S.view steps.old).steps + left.old }
        ensures fits { (u : View) → Fits (S.sizes steps.old) u self.old room.old (S.view steps.old) →
            Fits (S.sizes steps.old) u self.new room.new (S.view steps.new) }
    {
        while *left > 1 {
            let Stage::Placed { position, part } = &self.stage else {
                return;
            };
            let Part::Reading(rereading) = part else {
                return;
            };
            let Some(asked) = rereading.next(position.stamp) else {
                return;
            };
            let Some(answer) = look(steps, asked) else {
                return;
            };
            *left -= 1;
            self.read_told(room, answer);
        }
    }

    /// The node is read on, or all its words are known: it goes, and gives way to its other child.
    fn read_on(&mut self, room: &Room)
        requires stage { (t : PositionOf) × (q : RereadingOf) × (self.old.stage ≡ stages.Placed t (parts.Reading q)) × HasLeaf t room.now }
        ensures job { self.new.job ≡ self.old.job }
        ensures not_anew { ended_at self.new ≢ Some anew }
        ensures not_overlaps { ended_at self.new ≢ Some overlaps }
        ensures free { is_free self.new ≡ true }
        ensures fits { (z : Sizes) (u v : View) → IsRoom z room.now → PartKnows z u self.old.stage self.old.job room.now v →
            Fits z u self.new room.now v }
    {
        let Stage::Placed { position, part } = &self.stage else {
            unreachable!()
        };
        let Part::Reading(rereading) = part else {
            unreachable!()
        };
        match rereading.next(position.stamp) {
            Some(_) => {}
            None => {
                let position = *position;
                self.merge(room, &position);
            }
        }
    }

    /// The node gives way to its other child.
    fn merge(&mut self, room: &Room, position: &Position)
        requires at { StandsAt position.now self.old.stage }
        requires leaf { HasLeaf position.now room.now }
        ensures job { self.new.job ≡ self.old.job }
        ensures not_anew { ended_at self.new ≢ Some anew }
        ensures not_overlaps { ended_at self.new ≢ Some overlaps }
        ensures free { is_free self.new ≡ true }
        ensures fits { (z : Sizes) (u v : View) → IsRoom z room.now → EndsWithin z u 21700 room.now v → self.old.job ≡ jobs.Remove →
            IsStanding z room.now.row.key.items position.now room.now.read_set v → KnowsHere position.now room.now.read_set →
            loss_at position.now room.now.read_set ≡ losses.Merges → Fits z u self.new room.now v }
    {
        let Some((byte, link)) = other_child(position, &room.read_set, &room.gone) else {
            self.validate(room, position, Case::Torn);
            return;
        };
        match link {
            Link::Leaf(other) => self.validate(room, position, Case::MergeLeaf(other)),
            Link::Node(node) => {
                let naming = Naming::new(node);
                self.go_on(position, Part::Naming { byte, node, naming });
            }
        }
    }

    /// What comes next where that node is stamped.
    pub(crate) fn name_next(&self, position: &Position, naming: &Naming) -> Option<Action>
        ensures asks { result ≡ naming_asks position.now naming.now }
        ensures allowed { (z : Sizes) (u v : View) (byte : ℕ) (n : NodeOf) (r : RoomOf) (d : Deed) →
            IsNaming z u self.now.job position.now byte n naming.now r v → IfSome result (IsAllowed z d r.change v) }
        ensures going { named_at naming.now ≡ None → (a : ActionOf) × (result ≡ Some a) }
    {
        naming.next(position)
    }

    /// The node below was stamped, or the one that names it was checked.
    pub(crate) fn name_told(&mut self, room: &mut Room, answer: Answer)
        requires stage { (t : PositionOf) × (b : ℕ) × (n : NodeOf) × (s : NamingOf) ×
            (self.old.stage ≡ stages.Placed t (parts.Naming b n s)) }
        requires told { (z : Sizes) × (u : View) × (v : View) × (w : View) × (asked : ActionOf) × Fits z u self.old room.old v ×
            (asks self.old room.old ≡ Some asked) × ActionAnswers z (telling (deed_at self.old room.old)) asked answer v w }
        ensures kept { IsSameTry self.old self.new room.old room.new }
        ensures anew { ended_at self.new ≡ Some anew → goes_on answer ≡ false }
        ensures not_overlaps { ended_at self.new ≢ Some overlaps }
        ensures free { is_free self.new ≡ true }
        ensures fits { (z : Sizes) (u v w : View) (asked : ActionOf) → Fits z u self.old room.old v →
            asks self.old room.old ≡ Some asked → ActionAnswers z (telling (deed_at self.old room.old)) asked answer v w →
            Fits z u self.new room.new w }
    {
        let Stage::Placed { position, part } = &mut self.stage else {
            unreachable!()
        };
        let Part::Naming { byte, node, naming } = part else {
            unreachable!()
        };
        naming.told(&mut room.lower, answer);
        match naming.ended() {
            None => {}
            Some(named) => {
                let (position, byte, node) = (*position, *byte, *node);
                self.named(room, &position, byte, node, named);
            }
        }
    }

    /// Makes the steps of the naming, as long as more than one turn is left.
    pub(crate) fn name_all<S: EpochSteps>(&mut self, steps: &mut S, room: &mut Room, left: &mut u32)
        requires free { is_free self.old ≡ true }
        requires not_overlaps { ended_at self.old ≢ Some overlaps }
        requires turn { 0 < left.old }
        requires fits { (u : View) × Fits (S.sizes steps.old) u self.old room.old (S.view steps.old) }
        ensures only { S.only steps.old steps.new }
        ensures kept { IsSameTry self.old self.new room.old room.new }
        ensures free { is_free self.new ≡ true }
        ensures not_overlaps { ended_at self.new ≢ Some overlaps }
        ensures turn { 0 < left.new }
        ensures less { left.new ≤ left.old }
        ensures made { (S.view steps.new).steps + left.new ≡ (S.view steps.old).steps + left.old }
        ensures fits { (u : View) → Fits (S.sizes steps.old) u self.old room.old (S.view steps.old) →
            Fits (S.sizes steps.old) u self.new room.new (S.view steps.new) }
    {
        while *left > 1 {
            let Stage::Placed { position, part } = &self.stage else {
                return;
            };
            let Part::Naming { naming, .. } = part else {
                return;
            };
            let Some(asked) = naming.next(position) else {
                return;
            };
            let Some(answer) = look(steps, asked) else {
                return;
            };
            *left -= 1;
            self.name_told(room, answer);
        }
    }

    /// The naming has ended so: the cells are validated, with the node below, or a cell was changed.
    fn named(&mut self, room: &Room, position: &Position, byte: u8, node: Node, named: Named)
        requires at { StandsAt position.now self.old.stage }
        ensures job { self.new.job ≡ self.old.job }
        ensures anew { ended_at self.new ≡ Some anew → named ≡ changed_name }
        ensures not_overlaps { ended_at self.new ≢ Some overlaps }
        ensures free { is_free self.new ≡ true }
        ensures fits { (z : Sizes) (u v : View) (s : NamingOf) → IsRoom z room.now →
            IsNaming z u self.old.job position.now byte node s room.now v → named_at s ≡ Some named → Fits z u self.new room.now v }
    {
        match named {
            Named::Unchanged(stamp) => {
                let lower = Lower { stamp, node, byte };
                self.validate(room, position, Case::MergeNode(lower))
            }
            Named::Changed => self.stage = Stage::Ended(Ending::Restart),
        }
    }
}

/// What goes with the leaf, by the words that were read.
fn loss(position: &Position, read_set: &ReadSet) -> Loss
    ensures { result ≡ loss_at position.now read_set.now }
{
    lost(position.stamp.cell, read_set.node().get(1).unwrap_or(0))
}
