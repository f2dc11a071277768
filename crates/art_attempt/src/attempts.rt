//! What a write changes, what it keeps, and one attempt of it, step by step.
ghost use Rattle.std.specs.Prelude.{◌≡◌, ◌≢◌, ℕ, ◌+◌, ◌-◌, ◌<◌, ◌≤◌, length, Some, None, true};
ghost use Rattle.art_attempt.specs.Asking.{Answers};
ghost use Rattle.art_attempt.specs.Attempts.{Fits, IsOverlapBy, IsRestartBy, IsRoom, IsSameTry, asks, deed_at, ended_at, found_at, free_at, is_free, steps_left, value_found};
ghost use Rattle.art_attempt.specs.Trying.{StillTries, IsKey};
ghost use Rattle.art_attempt.specs.declared.attempts.Ending.TheVariants.{Restart as anew, Overlaps as overlaps};
ghost use Rattle.art_epoch.specs.Stocks.{HasStock, first_hints, nothing};
ghost use Rattle.art_find.specs.Findings.{position_at};
ghost use Rattle.art_step.specs.Acting.{steps_in};
ghost use Rattle.art_step.specs.declared.actions.Action.{Action as ActionOf};
ghost use Rattle.art_step.specs.declared.views.Sizes.{Sizes};
ghost use Rattle.art_step.specs.declared.views.View.{View};
ghost use Rattle.art_attempt.specs.Cases.{cells_of, demand_of};
ghost use Rattle.art_attempt.specs.Rooms.{number_for, spent_by};

use crate::{Cells, Demand, Naming, Reserve, Validate};
use art_cell::{Body, Cell, Layout, Node, Pool, Reads};
use art_epoch::Stock;
use art_find::{Finding, Position, ReadSet, Rereading, Verdict};
use art_key::Key;
use art_plan::{Apply, Bodies, Change, Lower, NewLeaf, OldLeaf, blank, needed};
use art_step::{Action, Answer, EpochSteps, Sizes};

/// What a write does.
#[derive(Clone, Copy)]
pub enum Job {
    /// The row of the room comes into the tree, if its key has none.
    Insert,
    /// The row with the key of the room's row goes, if there is one.
    Remove,
}

/// How an attempt ended.
#[derive(Clone, Copy)]
pub enum Ending {
    /// The row is in the tree.
    New,
    /// The key is there, and keeps this value.
    Present(u64),
    /// The row is out of the tree; it had this value.
    Gone(u64),
    /// No row has the key.
    Absent,
    /// No number of the pool was found.
    Full(Pool),
    /// The counter of a cell that was to be locked is at its end.
    Exhausted(Cell),
    /// A key begins the other.
    Overlaps,
    /// A version word was locked, obsolete or changed: it may be tried anew.
    Restart,
}

/// Where an attempt stands between two of its steps.
#[derive(Clone, Copy)]
pub enum Stage {
    /// The place of the key is sought.
    Finding(Finding),
    /// The place of the key was checked: what is done there.
    Placed { position: Position, part: Part },
    /// The change is made.
    Apply(Apply),
    Ended(Ending),
}

/// What is done where the key stands, before a change is made.
#[derive(Clone, Copy)]
pub enum Part {
    /// Numbers come into the hand, for this change.
    Reserve {
        case: Case,
        reserve: Reserve,
    },
    /// The words of the node that are missing are read, to tell which child it keeps.
    Reading(Rereading),
    /// The node that takes the place of the one that goes is stamped, and that one, whose child it is at this byte, is checked.
    Naming {
        byte: u8,
        node: Node,
        naming: Naming,
    },
    /// What is still to be read for this change is read, and the cells are checked.
    Validate {
        case: Case,
        validate: Validate,
    },
}

/// One attempt of a write, from the anchor down to its end. What is large stands beside it, in the room.
#[derive(Clone, Copy)]
pub struct Attempt {
    pub(crate) job: Job,
    pub(crate) stage: Stage,
}

impl Attempt {
    ghost use Rattle.std.specs.Prelude.{IfSome};
    ghost use Rattle.art_attempt.specs.Asking.{IsAllowed};
    ghost use Rattle.art_attempt.specs.Attempts.{EndsSo};
    ghost use Rattle.art_attempt.specs.declared.attempts.Room.{Room as RoomOf};

    /// At its beginning.
    pub fn new(job: Job) -> Attempt
        ensures job { result.job ≡ job }
        ensures going { ended_at result ≡ None }
        ensures free { is_free result ≡ true }
        ensures fits { (z : Sizes) (u : View) (r : RoomOf) → IsRoom z r → StillTries u u →
            HasStock z r.row.key.items r.row.value u r.stock → Fits z u result r u }
    {
        Attempt {
            job,
            stage: Stage::Finding(Finding::new()),
        }
    }

    /// The next step, or none where it has ended.
    pub fn next(&self, room: &Room) -> Option<Action>
        requires short { length room.now.row.key.items ≤ 64 }
        ensures asks { result ≡ asks self.now room.now }
        ensures allowed { (z : Sizes) (u v : View) → Fits z u self.now room.now v →
            IfSome result (IsAllowed z (deed_at self.now room.now) room.now.change v) }
        ensures going { (z : Sizes) (u v : View) → Fits z u self.now room.now v → ended_at self.now ≡ None →
            (a : ActionOf) × (result ≡ Some a) }
    {
        match &self.stage {
            Stage::Finding(finding) => self.find_next(finding),
            Stage::Placed { position, part } => self.part_next(room, position, part),
            Stage::Apply(apply) => self.make_next(room, apply),
            Stage::Ended(_) => None,
        }
    }

    /// The step that it asked for was made, with this answer.
    pub fn told(&mut self, room: &mut Room, answer: Answer)
        requires { (z : Sizes) × (u : View) × (v : View) × (w : View) × (asked : ActionOf) × Fits z u self.old room.old v ×
            (asks self.old room.old ≡ Some asked) × Answers z (deed_at self.old room.old) room.old.change asked answer v w }
        ensures kept { IsSameTry self.old self.new room.old room.new }
        ensures fits { (z : Sizes) (u v w : View) (asked : ActionOf) → Fits z u self.old room.old v →
            asks self.old room.old ≡ Some asked → Answers z (deed_at self.old room.old) room.old.change asked answer v w →
            Fits z u self.new room.new w }
        ensures left { (left : ℕ) → (is_free self.old ≡ true → 0 < left) →
            steps_left (left - steps_in answer) self.new < steps_left left self.old }
        ensures anew { ended_at self.new ≡ Some anew → IsRestartBy self.old.stage answer }
        ensures overlaps { ended_at self.new ≡ Some overlaps → IsOverlapBy self.old answer }
    {
        match self.stage {
            Stage::Finding(_) => self.find_told(room, answer),
            Stage::Placed { .. } => self.part_told(room, answer),
            Stage::Apply(apply) => self.make_told(room, apply, answer),
            Stage::Ended(_) => {}
        }
    }

    /// Makes its steps, stage after stage, but for one that tells its event before a change is made.
    #[inline(always)]
    pub fn hurry<S: EpochSteps>(&mut self, steps: &mut S, room: &mut Room, left: &mut u32)
        requires turn { is_free self.old ≡ true → 0 < left.old }
        requires admitted { S.admits steps.old room.old.row.key.items }
        requires short { length room.old.row.key.items ≤ 64 }
        requires going { ended_at self.old ≡ None }
        requires fits { (u : View) × Fits (S.sizes steps.old) u self.old room.old (S.view steps.old) }
        ensures only { S.only steps.old steps.new }
        ensures kept { IsSameTry self.old self.new room.old room.new }
        ensures not_overlaps { ended_at self.new ≢ Some overlaps }
        ensures turn { is_free self.new ≡ true → ended_at self.new ≡ None → 0 < left.new }
        ensures later { (S.view steps.old).steps ≤ (S.view steps.new).steps }
        ensures counted { (S.view steps.old).steps + left.old ≤ (S.view steps.new).steps + left.new }
        ensures left { (S.view steps.new).steps + steps_left left.new self.new ≤ (S.view steps.old).steps + steps_left left.old self.old }
        ensures fits { (u : View) → Fits (S.sizes steps.old) u self.old room.old (S.view steps.old) →
            Fits (S.sizes steps.old) u self.new room.new (S.view steps.new) }
    {
        if *left == 0 {
            return;
        }
        if self.is_free() {
            self.prepare(steps, room, left);
        }
        if let Stage::Apply(apply) = self.stage {
            self.make_all(steps, room, apply, left);
        }
    }

    /// What it does.
    pub fn job(&self) -> Job
        ensures { result ≡ self.now.job }
    {
        self.job
    }

    /// How it ended, if it has.
    pub fn ended(&self) -> Option<Ending>
        ensures at { result ≡ ended_at self.now }
    {
        match self.stage {
            Stage::Ended(ending) => Some(ending),
            _ => None,
        }
    }

    /// Whether nothing is held: no cell was locked yet, or none is any more.
    pub fn is_free(&self) -> bool
        ensures at { result ≡ is_free self.now }
        ensures free { result ≡ true → ended_at self.now ≡ None → (z : Sizes) (u v : View) (r : RoomOf) → Fits z u self.now r v →
            EndsSo z u r v }
    {
        free_at(&self.stage)
    }

    /// The value that was found, where the check of the place settles the answer.
    pub(crate) fn found(&self) -> u64
        ensures { result ≡ found_at self.now }
    {
        match &self.stage {
            Stage::Finding(finding) => found_by(finding),
            _ => 0,
        }
    }
}

/// The value that was found on the way to the place, or 0 where there is none.
fn found_by(finding: &Finding) -> u64
    ensures { result ≡ value_found (position_at finding.now) }
{
    match finding.position() {
        Some(position) => position.verdict.value().unwrap_or(0),
        None => 0,
    }
}

/// Whether nothing is held at this stage.
fn free_at(stage: &Stage) -> bool
    ensures { result ≡ free_at stage.now }
{
    match stage {
        Stage::Apply(apply) => apply.is_begun(),
        _ => true,
    }
}

/// What a write changes.
#[derive(Clone, Copy)]
pub enum Case {
    /// A leaf comes, in the way that its place tells: at a free entry, beside another leaf, where a prefix differs, or in a larger node.
    NewLeaf,
    /// The leaf goes, and the cell that names it stays.
    DropLeaf,
    /// The leaf goes, and its node gives way to one of this layout.
    Shrink(Layout),
    /// The leaf goes, and its node gives way to its other child, this leaf.
    MergeLeaf(u32),
    /// The leaf goes, and its node gives way to its other child, this node.
    MergeNode(Lower),
    /// The words that were read of the leaf's node are those of no node, which its check is about to tell.
    Torn,
}

impl Case {
    /// What is wanted in hand, where the key stands so.
    #[inline(always)]
    pub(crate) fn demand(self, sizes: Sizes, verdict: &Verdict) -> Demand
        ensures { result ≡ demand_of sizes self verdict.now }
    {
        let (leaf, node) = match self {
            Case::NewLeaf => (true, needed(verdict).node),
            Case::Shrink(layout) => (false, Some(layout)),
            Case::DropLeaf | Case::MergeLeaf(_) | Case::MergeNode(_) | Case::Torn => (false, None),
        };
        Demand { leaf, node, sizes }
    }

    /// Which cells are validated beside the one where the key stands.
    #[inline(always)]
    pub(crate) fn cells(self, verdict: &Verdict) -> Cells
        ensures { result ≡ cells_of self verdict.now }
    {
        let (above, lower) = match self {
            Case::NewLeaf => (needed(verdict).above, None),
            Case::Shrink(_) | Case::MergeLeaf(_) => (true, None),
            Case::MergeNode(lower) => (true, Some(lower)),
            Case::DropLeaf | Case::Torn => (false, None),
        };
        Cells { above, lower }
    }
}

/// What stands beside an attempt of a write: the row, the leaf that goes, the numbers in hand, the words that were read, and the change
/// that is planned of them. It is large, and never copied.
#[derive(Drop)]
pub struct Room {
    /// The row that comes, and its leaf has its number once a change is planned; of a row that goes the key, with the value 0.
    pub row: NewLeaf,
    /// The leaf that goes, once it is found.
    pub gone: OldLeaf,
    pub sizes: Sizes,
    pub stock: Stock,
    pub read_set: ReadSet,
    /// The words that were read of a lower node.
    pub lower: Reads,
    pub bodies: Bodies,
    /// And the body of that node.
    pub lower_body: Body,
    pub change: Change,
}

impl Room {
    /// Of the pass `own` of a table with so many numbers: no row comes yet, and nothing is in hand.
    pub fn new(own: u32, sizes: &Sizes) -> Room
        ensures sizes { result.sizes ≡ sizes.now }
        ensures stock { result.stock ≡ nothing (first_hints sizes.now own) }
    {
        Room {
            row: NewLeaf::new(),
            gone: OldLeaf::new(),
            sizes: *sizes,
            stock: Stock::new(own, sizes),
            read_set: ReadSet::new(),
            lower: Reads::new(),
            bodies: Bodies::new(),
            lower_body: blank(),
            change: Change::new(),
        }
    }

    /// The write is of this row.
    pub fn set(&mut self, key: &Key, value: u64)
        ensures key { IsKey key.now.items }
        ensures row { self.new ≡ record self.old { row = record { number = self.old.row.number; key = key.now; value = value } } }
    {
        self.row.key = copied(key.as_slice());
        self.row.value = value;
    }

    /// The leaf with the row's key was found, with this number and this value.
    pub(crate) fn found(&mut self, number: u32, value: u64)
        requires { length self.old.row.key.items ≤ 64 }
        ensures { self.new ≡ record self.old { gone = record { number = number; key = self.old.row.key; value = value } } }
    {
        self.gone = OldLeaf {
            number,
            key: copied(self.row.key.as_slice()),
            value,
        };
    }

    /// The number of a node of the layout, and 0 where none is in hand or none is needed.
    pub(crate) fn number_for(&self, layout: Option<Layout>) -> u32
        ensures { result ≡ number_for self.now.stock layout }
    {
        let Some(layout) = layout else {
            return 0;
        };
        self.stock.node(layout).unwrap_or(0)
    }

    /// The numbers that the change linked have left the hand.
    pub(crate) fn spend(&mut self)
        ensures { self.new ≡ record self.old { stock = spent_by self.old.change self.old.stock } }
    {
        if self.change.effects.leaf.is_some() {
            self.stock.spend_leaf();
        }
        if let Some(node) = self.change.made() {
            self.stock.spend_node(node.layout);
        }
        if let Some(node) = self.change.copied() {
            self.stock.spend_node(node.layout);
        }
    }
}

/// The bytes as a key.
fn copied(bytes: &[u8]) -> Key
    requires { length bytes.now ≤ 64 }
    ensures key { IsKey bytes.now }
    ensures same { result.items ≡ bytes.now }
{
    Key::try_from(bytes).unwrap()
}
