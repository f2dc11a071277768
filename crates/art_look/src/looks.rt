//! A look of a range.
ghost use Rattle.std.specs.Prelude.{◌≡◌, ℕ, ◌≤◌, ◌<◌, ◌+◌, List, Option, length, None, Ok};
ghost use Rattle.std.specs.Option.{option_map};
ghost use Rattle.art_key.specs.Bounds.{is_before};
ghost use Rattle.art_key.specs.declared.bounds.Bound.{Bound as KeyBound};
ghost use Rattle.art_key.specs.declared.bounds.Bound.TheVariants.{At as at};
ghost use Rattle.art_look.specs.Looks.{stage_below};
ghost use Rattle.art_look.specs.declared.looks.LookStage.TheVariants as lookstages;
ghost use Rattle.art_look.specs.Seen.{bound_at, nearer};
ghost use Rattle.art_look.specs.Table.{end_at};
ghost use Rattle.art_look.specs.Settlings.{LookStandsAt, look_settling};
ghost use Rattle.art_step.specs.Deeds.{bound_of, key_of};
ghost use Rattle.art_tree.specs.Looks.{after};

use crate::PathBuffer;
use crate::fronts::{Front, front_of};
use crate::path_buffers::{copied, joined};
use crate::walks::Settling;
use art_cell::{Cell, Link, Node};
use art_find::{LeafSeen, NodeSeen};
use art_key::{Bound, Key};
use art_step::{Action, Answer, Changed, Stamp};

/// How far a look sees that ends at a path.
#[derive(Clone, Copy)]
pub enum Reach {
    /// Past all texts that begin with the path.
    Past,
    /// Up to the path.
    UpTo,
}

/// How far a look has seen, and the value of the leaf that it found, if it found one. What was read of both stands in the path buffer.
#[derive(Clone, Copy)]
pub struct Reached {
    pub reach: Reach,
    pub value: Option<u64>,
}

/// The child of a node that is looked for.
#[derive(Clone, Copy)]
pub struct ChildSought {
    pub seen: NodeSeen,
    pub front: Front,
    /// No byte has a child from where it is looked for on, before this one.
    pub byte: u8,
    /// Where its child word stands.
    pub place: usize,
}

/// Where a look stands between two of its steps.
#[derive(Clone, Copy)]
pub enum LookStage {
    /// Nothing is stamped.
    Start,
    /// The anchor is stamped.
    Anchor(Stamp),
    /// The stamp's cell names this, to which the path leads.
    Child {
        stamp: Stamp,
        link: Link,
    },
    /// A cell that was checked names this node.
    Below {
        above: Stamp,
        node: Node,
    },
    /// The cell and the node are stamped.
    Both {
        above: Stamp,
        stamp: Stamp,
        node: Node,
    },
    /// The node was stamped while the cell above it named it.
    Header {
        stamp: Stamp,
        node: Node,
    },
    /// The word of the prefix with this number comes next.
    Prefix {
        seen: NodeSeen,
        number: u8,
    },
    /// The word of key bytes, or of the index, with this number comes next.
    Keys {
        seen: NodeSeen,
        front: Front,
        number: u8,
    },
    /// The child word comes next.
    Slot(ChildSought),
    /// The stamp's cell names this leaf; its value comes next.
    Value {
        stamp: Stamp,
        leaf: u32,
    },
    /// Its value is this; its length comes next.
    Length {
        stamp: Stamp,
        leaf: u32,
        value: u64,
    },
    /// The word of the leaf's key with this number comes next.
    Bytes {
        seen: LeafSeen,
        number: u8,
    },
    /// What was read under the stamp shows what there is up to here: a leaf with this value, or none.
    Decided {
        stamp: Stamp,
        reach: Reach,
        value: Option<u64>,
    },
    /// That is settled.
    Ended {
        reach: Reach,
        value: Option<u64>,
    },
}

/// What a look has seen: at one step the rows from `lo` on, before `hi`, were exactly this one, or none.
#[derive(Debug, PartialEq, Eq, Drop)]
pub struct Seen {
    pub lo: Key,
    pub hi: Bound,
    pub row: Option<(Key, u64)>,
}

/// A look of a range, whose ends and path buffer stand beside it: from the anchor down to the first leaf from the lower end on, or to
/// where it is seen that there is none up to some path.
#[derive(Clone, Copy)]
pub struct Look {
    /// How many bytes lead to the cell where it stands; the path buffer may have more.
    pub(crate) depth: usize,
    pub(crate) stage: LookStage,
}

impl Look {
    ghost use Rattle.art_find.specs.Asking.{MayLook, WantsCheck, WantsVersion};
    ghost use Rattle.art_step.specs.Acting.{Answers, goes_on, telling};
    ghost use Rattle.art_find.specs.Descents.{IsReading};
    ghost use Rattle.art_step.specs.declared.actions.Answer.TheVariants as told;
    ghost use Rattle.art_step.specs.declared.actions.Action.{Action as ActionOf};
    ghost use Rattle.art_look.specs.Looks.{Fits, IsSettling, Settles, asks, deed_at, has_ended, least_steps, most_steps, reached_at};
    ghost use Rattle.art_look.specs.declared.path_buffers.PathBuffer.{PathBuffer as PathBufferOf};
    ghost use Rattle.art_step.specs.declared.views.Sizes.{Sizes};
    ghost use Rattle.art_step.specs.declared.views.View.{View};
    ghost use Rattle.std.specs.Prelude.{Some, IfSome, true, false};

    /// At its beginning.
    pub fn new() -> Look
        ensures steps { (most_steps result.depth result.stage ≡ 0) × (least_steps result.stage ≡ 0) }
        ensures going { has_ended result.stage ≡ false }
        ensures fits { (z : Sizes) (lo : List ℕ) (hi : KeyBound) (t : PathBufferOf) (u v : View) → IsReading u v →
            Fits z lo hi result t u v }
    {
        Look {
            depth: 0,
            stage: LookStage::Start,
        }
    }

    /// The next step, or none where it has ended.
    #[inline(always)]
    pub fn next(&self) -> Option<Action>
        ensures asks { result ≡ asks self.now.stage }
        ensures allowed { (z : Sizes) (lo : List ℕ) (hi : KeyBound) (t : PathBufferOf) (u v : View) → Fits z lo hi self.now t u v →
            IfSome result (MayLook z (Settles lo t self.now.stage) v) }
    {
        match self.stage {
            LookStage::Start => Some(Action::Begin { cell: Cell::Anchor }),
            LookStage::Anchor(stamp) => Some(Action::Read { stamp, place: 1 }),
            LookStage::Child { stamp, .. } => Some(Action::Check { stamp }),
            LookStage::Below { node, .. } => Some(Action::Begin {
                cell: Cell::Node(node),
            }),
            LookStage::Both { above, .. } => Some(Action::Check { stamp: above }),
            LookStage::Header { stamp, .. } => Some(Action::Read { stamp, place: 1 }),
            LookStage::Prefix { seen, number } => {
                Some(Action::Read {
                    stamp: seen.stamp,
                    place: 2 + usize::from(number),
                })
            }
            LookStage::Keys { seen, number, .. } => {
                Some(Action::Read {
                    stamp: seen.stamp,
                    place: 10 + usize::from(number),
                })
            }
            LookStage::Slot(sought) => Some(Action::Read {
                stamp: sought.seen.stamp,
                place: sought.place,
            }),
            LookStage::Value { stamp, leaf } => Some(Action::ReadLeaf {
                stamp,
                leaf,
                place: 0,
            }),
            LookStage::Length { stamp, leaf, .. } => Some(Action::ReadLeaf {
                stamp,
                leaf,
                place: 1,
            }),
            LookStage::Bytes { seen, number } => Some(Action::ReadLeaf {
                stamp: seen.stamp,
                leaf: seen.leaf,
                place: 2 + usize::from(number),
            }),
            LookStage::Decided { stamp, .. } => Some(Action::Settle { stamp }),
            LookStage::Ended { .. } => None,
        }
    }

    /// Whether what it has seen is settled.
    pub fn ended(&self) -> bool
        ensures { result ≡ has_ended self.now.stage }
    {
        matches!(self.stage, LookStage::Ended { .. })
    }

    /// How far it has seen: at the step that settles it, and once that is settled.
    #[inline(always)]
    pub fn reached(&self) -> Option<Reached>
        ensures { result ≡ reached_at self.now.stage }
    {
        match self.stage {
            LookStage::Decided { reach, value, .. } => Some(Reached { reach, value }),
            LookStage::Ended { reach, value } => Some(Reached { reach, value }),
            _ => None,
        }
    }

    /// What it stands at, if the next check settles what it has seen.
    #[inline(always)]
    pub(crate) fn settling(&self) -> Option<Settling>
        ensures stands { IfSome result (λ s. LookStandsAt s self.now.stage) }
        ensures all { result ≡ look_settling self.now.stage }
    {
        match self.stage {
            LookStage::Decided {
                stamp,
                reach,
                value,
            } => Some(Settling::Range {
                stamp,
                reach,
                value,
            }),
            _ => None,
        }
    }

    /// The step that it asked for was made, with this answer. Whether it goes on: else it restarts.
    #[inline(always)]
    pub fn told(&mut self, lo: &[u8], path_buffer: &mut PathBuffer, answer: Answer) -> bool
        requires fits { (z : Sizes) × (hi : KeyBound) × (u : View) × (v : View) × (w : View) × (asked : ActionOf) ×
            Fits z lo.now hi self.old path_buffer.old u v × (asks self.old.stage ≡ Some asked) ×
            Answers z (telling (deed_at lo.now hi path_buffer.old self.old.stage)) asked answer v w }
        ensures on { result ≡ goes_on answer }
        ensures going { has_ended self.new.stage ≡ true → IsSettling self.old.stage }
        ensures steps { result ≡ true → most_steps self.old.depth self.old.stage < most_steps self.new.depth self.new.stage }
        ensures anew { result ≡ false → most_steps self.new.depth self.new.stage ≡ 0 }
        ensures least { least_steps self.new.stage ≤ least_steps self.old.stage + 1 }
        ensures fits { (z : Sizes) (hi : KeyBound) (u v w : View) (asked : ActionOf) →
            Fits z lo.now hi self.old path_buffer.old u v → asks self.old.stage ≡ Some asked →
            Answers z (telling (deed_at lo.now hi path_buffer.old self.old.stage)) asked answer v w →
            Fits z lo.now hi self.new path_buffer.new u w }
    {
        match answer {
            Answer::Begun { result: Ok(stamp) } => self.began(stamp),
            Answer::Word { found } => self.read(lo, path_buffer, found),
            Answer::Checked { result } => return self.check_told(self.stage, result),
            Answer::Begun { result: Err(_) } => {
                self.failed();
                return false;
            }
            _ => unreachable!(),
        }
        true
    }

    /// A version word was clear, and gave this stamp.
    #[inline(always)]
    pub fn began(&mut self, stamp: Stamp)
        requires { WantsVersion (asks self.old.stage) }
        ensures going { has_ended self.new.stage ≡ false }
        ensures steps { most_steps self.old.depth self.old.stage < most_steps self.new.depth self.new.stage }
        ensures least { least_steps self.new.stage ≤ least_steps self.old.stage + 1 }
        ensures fits { (z : Sizes) (lo : List ℕ) (hi : KeyBound) (t : PathBufferOf) (u v w : View) (asked : ActionOf) →
            Fits z lo hi self.old t u v → asks self.old.stage ≡ Some asked →
            Answers z (telling (deed_at lo hi t self.old.stage)) asked (told.Begun (Ok stamp)) v w → Fits z lo hi self.new t u w }
    {
        self.began_at(self.stage, stamp);
    }

    /// A version word was clear, and gave this stamp, where the look stood at this stage.
    #[inline(always)]
    pub(crate) fn began_at(&mut self, stage: LookStage, stamp: Stamp)
        requires at { self.old.stage ≡ stage }
        requires wants { WantsVersion (asks stage) }
        ensures going { has_ended self.new.stage ≡ false }
        ensures steps { most_steps self.old.depth self.old.stage < most_steps self.new.depth self.new.stage }
        ensures least { least_steps self.new.stage ≤ least_steps self.old.stage + 1 }
        ensures fits { (z : Sizes) (lo : List ℕ) (hi : KeyBound) (t : PathBufferOf) (u v w : View) (asked : ActionOf) →
            Fits z lo hi self.old t u v → asks self.old.stage ≡ Some asked →
            Answers z (telling (deed_at lo hi t self.old.stage)) asked (told.Begun (Ok stamp)) v w → Fits z lo hi self.new t u w }
    {
        self.stage = match stage {
            LookStage::Start => LookStage::Anchor(stamp),
            LookStage::Below { above, node } => LookStage::Both { above, stamp, node },
            _ => unreachable!(),
        };
    }

    /// A version word was unchanged, where the look stood at this stage.
    #[inline(always)]
    pub(crate) fn checked_at(&mut self, stage: LookStage)
        requires at { self.old.stage ≡ stage }
        requires wants { WantsCheck (asks stage) }
        ensures going { has_ended self.new.stage ≡ true → IsSettling self.old.stage }
        ensures steps { most_steps self.old.depth self.old.stage < most_steps self.new.depth self.new.stage }
        ensures least { least_steps self.new.stage ≤ least_steps self.old.stage + 1 }
        ensures fits { (z : Sizes) (lo : List ℕ) (hi : KeyBound) (t : PathBufferOf) (u v w : View) (asked : ActionOf) →
            Fits z lo hi self.old t u v → asks self.old.stage ≡ Some asked →
            Answers z (telling (deed_at lo hi t self.old.stage)) asked (told.Checked (Ok tt)) v w → Fits z lo hi self.new t u w }
    {
        self.stage = match stage {
            LookStage::Child { stamp, link } => below(stamp, link),
            LookStage::Both { stamp, node, .. } => LookStage::Header { stamp, node },
            LookStage::Decided { reach, value, .. } => LookStage::Ended { reach, value },
            _ => unreachable!(),
        };
    }

    /// The check that it asked for, where it stood at this stage, was made, and found this. Whether it goes on: else it restarts.
    #[inline(always)]
    pub(crate) fn check_told(&mut self, stage: LookStage, checked: Result<(), Changed>) -> bool
        requires at { self.old.stage ≡ stage }
        requires wants { WantsCheck (asks stage) }
        ensures on { result ≡ goes_on (told.Checked checked) }
        ensures going { has_ended self.new.stage ≡ true → IsSettling self.old.stage }
        ensures steps { result ≡ true → most_steps self.old.depth self.old.stage < most_steps self.new.depth self.new.stage }
        ensures anew { result ≡ false → most_steps self.new.depth self.new.stage ≡ 0 }
        ensures least { least_steps self.new.stage ≤ least_steps self.old.stage + 1 }
        ensures fits { (z : Sizes) (lo : List ℕ) (hi : KeyBound) (t : PathBufferOf) (u v w : View) (asked : ActionOf) →
            Fits z lo hi self.old t u v → asks self.old.stage ≡ Some asked →
            Answers z (telling (deed_at lo hi t self.old.stage)) asked (told.Checked checked) v w → Fits z lo hi self.new t u w }
    {
        match checked {
            Ok(()) => {
                self.checked_at(stage);
                true
            }
            Err(_) => {
                self.failed();
                false
            }
        }
    }

    /// A version word was locked, obsolete or changed: the look restarts.
    #[inline(always)]
    pub fn failed(&mut self)
        ensures start { self.new ≡ record self.old { stage = lookstages.Start } }
        ensures steps { most_steps self.new.depth self.new.stage ≡ 0 }
        ensures least { least_steps self.new.stage ≡ 0 }
        ensures fits { (z : Sizes) (lo : List ℕ) (hi : KeyBound) (t : PathBufferOf) (u v : View) → IsReading u v →
            Fits z lo hi self.new t u v }
    {
        self.stage = LookStage::Start;
    }
}

/// The cell that names the link was checked.
#[inline(always)]
fn below(stamp: Stamp, link: Link) -> LookStage
    ensures { result ≡ stage_below stamp link }
{
    match link {
        Link::Leaf(leaf) => LookStage::Value { stamp, leaf },
        Link::Node(node) => LookStage::Below { above: stamp, node },
    }
}

impl Reached {
    ghost use Rattle.std.specs.Prelude.{IfSome};
    ghost use Rattle.art_look.specs.Looks.{seen_to};
    ghost use Rattle.art_look.specs.Seen.{row_seen};

    /// What was seen of the range from the key on, before the bound, with the path buffer's path and key. It is made once, where it is wanted:
    /// it has room for three keys, and is not handed on.
    #[inline(always)]
    pub fn seen(self, lo: &[u8], hi: &Bound, path_buffer: &PathBuffer) -> Seen
        requires { length lo.now ≤ 64 }
        ensures { result ≡ seen_to lo.now hi.now path_buffer.now self }
    {
        Seen {
            lo: copied(lo),
            hi: self.end(hi, path_buffer),
            row: match self.row(lo, hi, path_buffer) {
                Some((key, value)) => Some((copied(key), value)),
                None => None,
            },
        }
    }

    /// Where the part of the range ends that was seen.
    #[inline(always)]
    pub fn end(self, hi: &Bound, path_buffer: &PathBuffer) -> Bound
        ensures { result ≡ nearer (bound_at (end_at self.reach path_buffer.now.path.items)) hi.now }
    {
        nearer_end(self.reach, path_buffer.path.as_slice(), hi)
    }

    /// The row that was seen in the range, if there is one: its key, where it was read, and its value.
    #[inline(always)]
    pub fn row<'a>(
        self,
        lo: &[u8],
        hi: &Bound,
        path_buffer: &'a PathBuffer,
    ) -> Option<(&'a [u8], u64)>
        ensures row { option_map (λ r. (key_of r.0.now, r.1)) result ≡ row_seen lo.now hi.now path_buffer.now.key.items self.value }
        ensures short { IfSome result (λ r. length r.0.now ≤ 64) }
    {
        let value = self.value?;
        let key = path_buffer.key.as_slice();
        if is_less(key, lo) || !is_below(key, hi) {
            return None;
        }
        Some((key, value))
    }
}

/// How far a look sees that ends at the path, in a range that ends at `hi`.
#[inline(always)]
fn nearer_end(reach: Reach, path: &[u8], hi: &Bound) -> Bound
    requires { length path.now ≤ 64 }
    ensures { result ≡ nearer (bound_at (end_at reach path.now)) hi.now }
{
    match hi {
        Bound::At(_) => nearer(end_at(reach, path), hi),
        Bound::End => end_at(reach, path),
    }
}

/// How far a look sees that ends at the path.
#[inline(always)]
fn end_at(reach: Reach, path: &[u8]) -> Bound
    requires { length path.now ≤ 64 }
    ensures { result ≡ bound_at (end_at reach path.now) }
{
    match reach {
        Reach::Past => past(path),
        Reach::UpTo => Bound::At(copied(path)),
    }
}

/// The bound just above the path, made in place: where nobody reads it, nothing is left of it.
#[inline(always)]
fn past(path: &[u8]) -> Bound
    requires { length path.now ≤ 64 }
    ensures { bound_of result ≡ after path.now }
{
    for at in (0..path.len()).rev() {
        if path[at] < 255 {
            return Bound::At(joined(&path[..at], path[at] + 1));
        }
    }
    Bound::End
}

/// The nearer of two ends.
#[inline(always)]
fn nearer(end: Bound, hi: &Bound) -> Bound
    ensures { result ≡ nearer end hi.now }
{
    if end.before(hi) {
        return end;
    }
    match hi {
        Bound::At(key) => Bound::At(copied(key.as_slice())),
        Bound::End => Bound::End,
    }
}

/// Whether the key is before the bound.
#[inline(always)]
fn is_below(key: &[u8], bound: &Bound) -> bool
    requires { length key.now ≤ 64 }
    ensures { result ≡ is_before (at (key_of key.now)) bound.now }
{
    match bound {
        Bound::At(end) => is_less(key, end.as_slice()),
        Bound::End => true,
    }
}

/// Whether the one text stands before the other, by their bytes.
#[inline(always)]
fn is_less(one: &[u8], other: &[u8]) -> bool
    ensures { result ≡ is_before (at (key_of one.now)) (at (key_of other.now)) }
{
    match front_of(other, one) {
        Some(Front::Within) => true,
        Some(Front::Beyond) => false,
        None => true,
    }
}
