//! All words of the cells that a change writes are read, and then each of them is checked.
ghost use Rattle.std.specs.Prelude.{◌≡◌, ◌⊎◌, ℕ, ◌+◌, ◌-◌, ◌<◌, ◌≤◌, nat_lt, List, Option, Some, None, IfNone, IfSome};
ghost use Rattle.art_cell.specs.Reads.{word_read};
ghost use Rattle.art_find.specs.Kept.{StaysRead};
ghost use Rattle.art_find.specs.ReadSets.{node_of};
ghost use Rattle.art_find.specs.Rereadings.{IsWholeOrLast, RereadingFits};
ghost use Rattle.art_find.specs.Runs.{HasReadOn};
ghost use Rattle.art_find.specs.declared.read_sets.ReadSet.{ReadSet as ReadSetOf};
ghost use Rattle.art_attempt.specs.Reserve.{StayFound};
ghost use Rattle.art_attempt.specs.Validate.{Fits, HasLeft, IsRereading, Knows, KnowsWords, MayRead, NodeStays, OthersStay, Until};
ghost use Rattle.art_attempt.specs.Validate.{after_check, after_header, asks, check_below, depth_under, ended_at, first_check};
ghost use Rattle.art_attempt.specs.Validate.{left_after, next_check, over_of, path_below, prefix_in, reads_of, stamp_of, steps_left};
ghost use Rattle.art_attempt.specs.declared.validate.Cells.{Cells as CellsOf};
ghost use Rattle.art_attempt.specs.declared.validate.Role.TheVariants.{Above as over, Here as here, Lower as under};
ghost use Rattle.art_attempt.specs.declared.validate.Validate.TheVariants.{Header as heading, Read as reading};
ghost use Rattle.art_attempt.specs.declared.validate.Validated.{Validated as ValidatedOf};
ghost use Rattle.art_step.specs.Acting.{Answers, telling};
ghost use Rattle.art_step.specs.Turns.{Spends};
ghost use Rattle.art_step.specs.declared.actions.Action.{Action as ActionOf};
ghost use Rattle.art_step.specs.Steps.Read.{Outcome as ReadOutcome};
ghost use Rattle.art_step.specs.Views.{size_of};
ghost use Rattle.art_step.specs.declared.deeds.Deed.{Deed};
ghost use Rattle.art_step.specs.declared.views.Sizes.{Sizes};
ghost use Rattle.art_step.specs.declared.views.Stamp.{Stamp as StampOf};
ghost use Rattle.art_step.specs.declared.views.View.{View};

use art_cell::Reads;
use art_find::{Above, Position, ReadSet, Rereading, look};
use art_node::read_header;
use art_plan::Lower;
use art_step::{Action, Answer, EpochSteps, Stamp, Steps};

/// A cell that a change writes, by where it stands.
#[derive(Clone, Copy)]
pub enum Role {
    /// The cell above the one where the key stands.
    Above,
    /// The cell where the key stands.
    Here,
    /// A node below that one.
    Lower,
}

/// Which cells are validated beside the one where the key stands.
#[derive(Clone, Copy)]
pub struct Cells {
    /// The cell above, if there is one.
    pub above: bool,
    /// This node below.
    pub lower: Option<Lower>,
}

impl Cells {
    /// The stamp of the cell in this role, if it is validated.
    fn stamp(&self, position: &Position, role: Role) -> Option<Stamp>
        ensures { result ≡ stamp_of position.now self.now role }
    {
        match role {
            Role::Above => above_stamp(position, self.above),
            Role::Here => Some(position.stamp),
            Role::Lower => Some(self.lower?.stamp),
        }
    }
}

/// The stamp of the cell above, where it is wanted and there is one.
fn above_stamp(position: &Position, wanted: bool) -> Option<Stamp>
    ensures { result ≡ over_of wanted position.now.above }
{
    if wanted {
        Some(position.above?.stamp)
    } else {
        None
    }
}

/// How a validation ended.
#[derive(Clone, Copy)]
pub enum Validated {
    /// All words are known, and each cell is as it was when its first word was read.
    Unchanged,
    /// A cell was changed.
    Changed,
}

/// Where a validation stands between two of its steps.
#[derive(Clone, Copy)]
pub enum Validate {
    /// The words of this cell that are missing are read. Of the node below the header is known.
    Read { role: Role, rereading: Rereading },
    /// The header of the node below is read, which tells whether its other words are.
    Header { rereading: Rereading },
    /// This cell is to be checked.
    Check { role: Role },
    /// By its header the path of the node below is longer than any in a tree, which its check is about to tell.
    Torn,
    Ended(Validated),
}

impl Validate {
    ghost use Rattle.std.specs.Prelude.{⊤};
    ghost use Rattle.art_find.specs.Asking.{MayLook};

    /// At its beginning.
    #[inline(always)]
    pub(crate) fn new(
        position: &Position,
        cells: &Cells,
        read_set: &ReadSet,
        lower: &Reads,
    ) -> Validate
        ensures going { ended_at result ≡ None }
        ensures fits { (z : Sizes) (k : List ℕ) (u : View) → Knows z k position.now cells.now read_set.now lower.now u u →
            Fits z k position.now cells.now result read_set.now lower.now u u }
    {
        match unread(Role::Above, position, cells, read_set, lower) {
            Some(rereading) => Validate::Read {
                role: Role::Above,
                rereading,
            },
            None => from_here(position, cells, read_set, lower),
        }
    }

    /// The next step, or none where it has ended.
    #[inline(always)]
    pub(crate) fn next(&self, position: &Position, cells: &Cells) -> Option<Action>
        ensures asks { result ≡ asks position.now cells.now self.now }
        ensures allowed { (z : Sizes) (k : List ℕ) (read_set : ReadSetOf) (lower : List (Option ℕ)) (u v : View) →
            Fits z k position.now cells.now self.now read_set lower u v → IfSome result (MayLook z (λ s. ⊤) v) }
        ensures going { (z : Sizes) (k : List ℕ) (read_set : ReadSetOf) (lower : List (Option ℕ)) (u v : View) →
            Fits z k position.now cells.now self.now read_set lower u v → ended_at self.now ≡ None → (a : ActionOf) × (result ≡ Some a) }
    {
        self.asked(position, cells)
    }

    /// The step that it asked for was made, with this answer.
    #[inline(always)]
    pub(crate) fn told(
        &mut self,
        position: &Position,
        cells: &Cells,
        read_set: &mut ReadSet,
        lower: &mut Reads,
        answer: Answer,
    )
        requires { (z : Sizes) × (k : List ℕ) × (u : View) × (v : View) ×
            Fits z k position.now cells.now self.old read_set.old lower.old u v }
        ensures left { ended_at self.old ≡ None → steps_left self.new < steps_left self.old }
        ensures node { NodeStays position.now read_set.old read_set.new }
        ensures fits { (z : Sizes) (k : List ℕ) (deed : Deed) (u v w : View) (asked : ActionOf) →
            Fits z k position.now cells.now self.old read_set.old lower.old u v → asks position.now cells.now self.old ≡ Some asked →
            Answers z (telling deed) asked answer v w → Fits z k position.now cells.now self.new read_set.new lower.new u w }
    {
        *self = match *self {
            Validate::Read { role, rereading } => read_told(
                role, rereading, position, cells, read_set, lower, answer,
            ),
            Validate::Header { rereading } => header_told(
                rereading, position, cells, read_set, lower, answer,
            ),
            Validate::Check { role } => checked(answer, next_check(cells, role)),
            // no tree has such a node, so its check has failed
            Validate::Torn => Validate::Ended(Validated::Changed),
            Validate::Ended(validated) => Validate::Ended(validated),
        };
    }

    /// Makes its steps, one after another, as long as more than one turn is left.
    #[inline(always)]
    pub(crate) fn run<S: EpochSteps>(
        &mut self,
        steps: &mut S,
        position: &Position,
        cells: &Cells,
        read_set: &mut ReadSet,
        lower: &mut Reads,
        left: &mut u32,
    )
        requires some { 0 < left.old }
        requires fits { (k : List ℕ) × (u : View) ×
            Fits (S.sizes steps.old) k position.now cells.now self.old read_set.old lower.old u (S.view steps.old) }
        ensures only { S.only steps.old steps.new }
        ensures turns { Spends (S.view steps.old) (S.view steps.new) left.old left.new }
        ensures last { ((r : ValidatedOf) × (ended_at self.new ≡ Some r)) ⊎ (left.new ≡ 1) }
        ensures node { NodeStays position.now read_set.old read_set.new }
        ensures found { StayFound (S.view steps.old) (S.view steps.new) }
        ensures fits { (k : List ℕ) (u : View) →
            Fits (S.sizes steps.old) k position.now cells.now self.old read_set.old lower.old u (S.view steps.old) →
            Fits (S.sizes steps.old) k position.now cells.now self.new read_set.new lower.new u (S.view steps.new) }
    {
        while *left > 1 {
            if let Validate::Read { role, rereading } = *self {
                *self = read_cell(
                    role, rereading, steps, position, cells, read_set, lower, left,
                );
            } else {
                let Some(asked) = self.next(position, cells) else {
                    return;
                };
                let Some(answer) = look(steps, asked) else {
                    unreachable!();
                };
                *left -= 1;
                self.told(position, cells, read_set, lower, answer);
            }
        }
    }

    /// How it ended, if it has.
    pub(crate) fn ended(&self) -> Option<Validated>
        ensures at { result ≡ ended_at self.now }
    {
        match *self {
            Validate::Ended(validated) => Some(validated),
            _ => None,
        }
    }

    /// The next step, by the stage alone.
    #[inline(always)]
    fn asked(&self, position: &Position, cells: &Cells) -> Option<Action>
        ensures { result ≡ asks position.now cells.now self.now }
    {
        match *self {
            Validate::Read { role, rereading } => rereading.next(cells.stamp(position, role)?),
            Validate::Header { rereading } => rereading.next(cells.stamp(position, Role::Lower)?),
            Validate::Check { role } => Some(Action::Check {
                stamp: cells.stamp(position, role)?,
            }),
            Validate::Torn => Some(Action::Check {
                stamp: cells.stamp(position, Role::Lower)?,
            }),
            Validate::Ended(_) => None,
        }
    }
}

/// The words that were read of the cell in this role.
fn reads_of<'a>(role: Role, read_set: &'a ReadSet, lower: &'a Reads) -> &'a Reads
    ensures { result.now ≡ reads_of read_set.now lower.now role }
{
    match role {
        Role::Above => read_set.above(),
        Role::Here => read_set.node(),
        Role::Lower => lower,
    }
}

/// What is to be read of the cell in this role, if it is validated and a word of it is not known.
#[inline(always)]
fn unread(
    role: Role,
    position: &Position,
    cells: &Cells,
    read_set: &ReadSet,
    lower: &Reads,
) -> Option<Rereading>
    ensures begins { IfSome result (λ r. 0 < r.place) }
    ensures fits { IfSome result (λ r. (z : Sizes) (k : List ℕ) (u v : View) → Knows z k position.now cells.now read_set.now lower.now u v →
        IsRereading z position.now cells.now read_set.now lower.now v role r) }
    ensures whole { IfNone result ((z : Sizes) (k : List ℕ) (u v : View) → Knows z k position.now cells.now read_set.now lower.now u v →
        KnowsWords position.now cells.now read_set.now lower.now role) }
{
    let stamp = cells.stamp(position, role)?;
    let rereading = Rereading::new(reads_of(role, read_set, lower));
    rereading.next(stamp)?;
    Some(rereading)
}

/// All words of the cell above are known: the cell where the key stands comes next.
#[inline(always)]
fn from_here(position: &Position, cells: &Cells, read_set: &ReadSet, lower: &Reads) -> Validate
    ensures going { ended_at result ≡ None }
    ensures few { steps_left result ≤ 533 }
    ensures fits { (z : Sizes) (k : List ℕ) (u v : View) → Knows z k position.now cells.now read_set.now lower.now u v →
        KnowsWords position.now cells.now read_set.now lower.now over → HasLeft u v 533 798 →
        Fits z k position.now cells.now result read_set.now lower.now u v }
{
    match unread(Role::Here, position, cells, read_set, lower) {
        Some(rereading) => Validate::Read {
            role: Role::Here,
            rereading,
        },
        None => from_lower(position, cells, read_set, lower),
    }
}

/// And so are those of that cell: the node below comes next, and then the checks.
#[inline(always)]
fn from_lower(position: &Position, cells: &Cells, read_set: &ReadSet, lower: &Reads) -> Validate
    ensures going { ended_at result ≡ None }
    ensures few { steps_left result ≤ 268 }
    ensures fits { (z : Sizes) (k : List ℕ) (u v : View) → Knows z k position.now cells.now read_set.now lower.now u v →
        KnowsWords position.now cells.now read_set.now lower.now over → KnowsWords position.now cells.now read_set.now lower.now here →
        HasLeft u v 268 798 → Fits z k position.now cells.now result read_set.now lower.now u v }
{
    match unread(Role::Lower, position, cells, read_set, lower) {
        Some(rereading) => from_header(rereading, position, read_set, lower),
        None => first_check(position, cells),
    }
}

/// Words of the node below are missing: its header is read first, and tells whether the others are.
fn from_header(
    rereading: Rereading,
    position: &Position,
    read_set: &ReadSet,
    lower: &Reads,
) -> Validate
    requires { 0 < rereading.place }
    ensures going { ended_at result ≡ None }
    ensures few { steps_left result ≤ 268 }
    ensures fits { (z : Sizes) (k : List ℕ) (o : CellsOf) (u v : View) → Knows z k position.now o read_set.now lower.now u v →
        Until (KnowsWords position.now o read_set.now lower.now) under →
        IsRereading z position.now o read_set.now lower.now v under rereading →
        HasLeft u v 268 798 → Fits z k position.now o result read_set.now lower.now u v }
{
    match lower.get(1) {
        None => Validate::Header { rereading },
        Some(_) => {
            let role = Role::Lower;
            let next = Validate::Read { role, rereading };
            after_header(position, read_set, lower, next)
        }
    }
}

/// All words of the cell in this role are known.
#[inline(always)]
fn from_below(
    role: Role,
    position: &Position,
    cells: &Cells,
    read_set: &ReadSet,
    lower: &Reads,
) -> Validate
    ensures going { ended_at result ≡ None }
    ensures few { steps_left result ≤ left_after role }
    ensures fits { (z : Sizes) (k : List ℕ) (u v : View) → Knows z k position.now cells.now read_set.now lower.now u v →
        Until (KnowsWords position.now cells.now read_set.now lower.now) role →
        KnowsWords position.now cells.now read_set.now lower.now role →
        HasLeft u v (left_after role) 798 → Fits z k position.now cells.now result read_set.now lower.now u v }
{
    match role {
        Role::Above => from_here(position, cells, read_set, lower),
        Role::Here => from_lower(position, cells, read_set, lower),
        Role::Lower => first_check(position, cells),
    }
}

/// The cell in this role is read on, or all its words are known.
#[inline(always)]
fn read_on(
    role: Role,
    rereading: Rereading,
    stamp: Stamp,
    position: &Position,
    cells: &Cells,
    read_set: &ReadSet,
    lower: &Reads,
) -> Validate
    ensures going { ended_at result ≡ None }
    ensures few { steps_left result ≤ 266 - rereading.place + left_after role }
    ensures fits { (z : Sizes) (k : List ℕ) (u v : View) → Knows z k position.now cells.now read_set.now lower.now u v →
        Until (KnowsWords position.now cells.now read_set.now lower.now) role → stamp_of position.now cells.now role ≡ Some stamp →
        RereadingFits z v stamp rereading (reads_of read_set.now lower.now role) → MayRead position.now read_set.now lower.now role →
        HasLeft u v (266 - rereading.place + left_after role) 798 → Fits z k position.now cells.now result read_set.now lower.now u v }
{
    match rereading.next(stamp) {
        Some(_) => Validate::Read { role, rereading },
        None => from_below(role, position, cells, read_set, lower),
    }
}

/// The word that a rereading of the cell in this role asked for is this.
fn note(role: Role, rereading: &mut Rereading, read_set: &mut ReadSet, lower: &mut Reads, word: u64)
    requires { rereading.old.place < 266 }
    ensures further { rereading.old.place < rereading.new.place }
    ensures others { OthersStay role read_set.old lower.old read_set.new lower.new }
    ensures stays { word_read (reads_of read_set.old lower.old role) rereading.old.place ≡ None →
        StaysRead (node_of read_set.old) (node_of read_set.new) × StaysRead lower.old lower.new }
    ensures fits { (z : Sizes) (v w : View) (x : StampOf) → RereadingFits z v x rereading.old (reads_of read_set.old lower.old role) →
        rereading.old.place < size_of x.cell → ReadOutcome z v w x rereading.old.place word →
        RereadingFits z w x rereading.new (reads_of read_set.new lower.new role) }
{
    match role {
        Role::Above => read_set.reread_above(rereading, word),
        Role::Here => read_set.reread_node(rereading, word),
        Role::Lower => rereading.told(lower, word),
    }
}

/// A word of the cell in this role was read.
fn read_told(
    role: Role,
    rereading: Rereading,
    position: &Position,
    cells: &Cells,
    read_set: &mut ReadSet,
    lower: &mut Reads,
    answer: Answer,
) -> Validate
    requires { (z : Sizes) × (k : List ℕ) × (u : View) × (v : View) ×
        Fits z k position.now cells.now (reading role rereading) read_set.old lower.old u v }
    ensures left { steps_left result < steps_left (reading role rereading) }
    ensures node { NodeStays position.now read_set.old read_set.new }
    ensures fits { (z : Sizes) (k : List ℕ) (deed : Deed) (u v w : View) (asked : ActionOf) →
        Fits z k position.now cells.now (reading role rereading) read_set.old lower.old u v →
        asks position.now cells.now (reading role rereading) ≡ Some asked → Answers z (telling deed) asked answer v w →
        Fits z k position.now cells.now result read_set.new lower.new u w }
{
    let Some(stamp) = cells.stamp(position, role) else {
        unreachable!();
    };
    let mut rereading = rereading;
    note(role, &mut rereading, read_set, lower, answer.found());
    read_on(role, rereading, stamp, position, cells, read_set, lower)
}

/// The header of the node below was read: its other words come next, unless it tells a path that is too long.
fn header_told(
    rereading: Rereading,
    position: &Position,
    cells: &Cells,
    read_set: &ReadSet,
    lower: &mut Reads,
    answer: Answer,
) -> Validate
    requires { (z : Sizes) × (k : List ℕ) × (u : View) × (v : View) ×
        Fits z k position.now cells.now (heading rereading) read_set.now lower.old u v }
    ensures left { steps_left result < steps_left (heading rereading) }
    ensures fits { (z : Sizes) (k : List ℕ) (deed : Deed) (u v w : View) (asked : ActionOf) →
        Fits z k position.now cells.now (heading rereading) read_set.now lower.old u v →
        asks position.now cells.now (heading rereading) ≡ Some asked → Answers z (telling deed) asked answer v w →
        Fits z k position.now cells.now result read_set.now lower.new u w }
{
    let Some(stamp) = cells.stamp(position, Role::Lower) else {
        unreachable!();
    };
    let mut rereading = rereading;
    rereading.told(lower, answer.found());
    let role = Role::Lower;
    let others = read_on(role, rereading, stamp, position, cells, read_set, lower);
    after_header(position, read_set, lower, others)
}

/// The header of the node below is known: this stage is next, or the check of that node where its path is too long.
fn after_header(position: &Position, read_set: &ReadSet, lower: &Reads, next: Validate) -> Validate
    ensures { result ≡ after_header (path_below position.now read_set.now lower.now) next }
{
    if is_long(position, read_set, lower) {
        Validate::Torn
    } else {
        next
    }
}

/// Whether the path of the node below has more than 63 bytes with its prefix, by the headers that were read.
fn is_long(position: &Position, read_set: &ReadSet, lower: &Reads) -> bool
    ensures { result ≡ nat_lt 63 (path_below position.now read_set.now lower.now) }
{
    let upper = prefix_length(read_set.node());
    // 64 bytes are too many already, so the sum stays small
    depth_under(position.above).min(64) + upper + 1 + prefix_length(lower) > 63
}

/// How many bytes lead to what the cell above names, or none.
fn depth_under(above: Option<Above>) -> usize
    ensures { result ≡ depth_under above }
{
    match above {
        Some(above) => above.depth,
        None => 0,
    }
}

/// How many bytes the prefix of a node has, by its header, or none where that was not read.
fn prefix_length(reads: &Reads) -> usize
    ensures is { result ≡ prefix_in reads.now }
    ensures few { result < 128 }
{
    read_header(reads.get(1).unwrap_or(0)).prefix_length
}

/// Reads the words of the cell in this role that are missing, as long as more than one turn is left.
fn read_all<S: Steps>(
    role: Role,
    rereading: &mut Rereading,
    steps: &mut S,
    stamp: Stamp,
    read_set: &mut ReadSet,
    lower: &mut Reads,
    left: &mut u32,
)
    requires some { 0 < left.old }
    requires fits { RereadingFits (S.sizes steps.old) (S.view steps.old) stamp rereading.old (reads_of read_set.old lower.old role) }
    ensures only { S.only steps.old steps.new }
    ensures turns { (0 < left.new) × (left.new ≤ left.old) }
    ensures others { OthersStay role read_set.old lower.old read_set.new lower.new }
    ensures last { IsWholeOrLast stamp rereading.new left.new }
    ensures read { HasReadOn (S.sizes steps.old) stamp (left.old - left.new) (S.view steps.old) rereading.old
        (reads_of read_set.old lower.old role) (S.view steps.new) rereading.new (reads_of read_set.new lower.new role) }
{
    match role {
        Role::Above => read_set.read_on_above(steps, stamp, rereading, left),
        Role::Here => read_set.read_on_node(steps, stamp, rereading, left),
        Role::Lower => rereading.read_on(steps, stamp, lower, left),
    }
}

/// Makes the reads of the cell in this role, as long as more than one turn is left.
fn read_cell<S: Steps>(
    role: Role,
    rereading: Rereading,
    steps: &mut S,
    position: &Position,
    cells: &Cells,
    read_set: &mut ReadSet,
    lower: &mut Reads,
    left: &mut u32,
) -> Validate
    requires some { 1 < left.old }
    requires fits { (k : List ℕ) × (u : View) ×
        Fits (S.sizes steps.old) k position.now cells.now (reading role rereading) read_set.old lower.old u (S.view steps.old) }
    ensures only { S.only steps.old steps.new }
    ensures turns { Spends (S.view steps.old) (S.view steps.new) left.old left.new }
    ensures less { steps_left result + left.new < steps_left (reading role rereading) + left.old }
    ensures node { NodeStays position.now read_set.old read_set.new }
    ensures found { (S.view steps.new).found ≡ (S.view steps.old).found }
    ensures fits { (k : List ℕ) (u : View) →
        Fits (S.sizes steps.old) k position.now cells.now (reading role rereading) read_set.old lower.old u (S.view steps.old) →
        Fits (S.sizes steps.old) k position.now cells.now result read_set.new lower.new u (S.view steps.new) }
{
    let Some(stamp) = cells.stamp(position, role) else {
        unreachable!();
    };
    let mut rereading = rereading;
    read_all(role, &mut rereading, steps, stamp, read_set, lower, left);
    read_on(role, rereading, stamp, position, cells, read_set, lower)
}

/// The first check, from the top down.
#[inline(always)]
fn first_check(position: &Position, cells: &Cells) -> Validate
    ensures { result ≡ first_check (stamp_of position.now cells.now over) }
{
    match cells.stamp(position, Role::Above) {
        Some(_) => Validate::Check { role: Role::Above },
        None => Validate::Check { role: Role::Here },
    }
}

/// The check after that of the cell in this role, or the end.
fn next_check(cells: &Cells, role: Role) -> Validate
    ensures { result ≡ next_check cells.now role }
{
    match role {
        Role::Above => Validate::Check { role: Role::Here },
        Role::Here => check_below(cells.lower),
        Role::Lower => Validate::Ended(Validated::Unchanged),
    }
}

/// The check of the node below, if it is one of the cells.
fn check_below(lower: Option<Lower>) -> Validate
    ensures { result ≡ check_below lower }
{
    match lower {
        Some(_) => Validate::Check { role: Role::Lower },
        None => Validate::Ended(Validated::Unchanged),
    }
}

/// A check that succeeded leads to this stage.
fn checked(answer: Answer, next: Validate) -> Validate
    ensures { result ≡ after_check answer next }
{
    if answer.passed() {
        next
    } else {
        Validate::Ended(Validated::Changed)
    }
}
