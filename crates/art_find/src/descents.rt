//! A descent by a key, how the bytes of a cell stand to the key, and what a descent shows.
ghost use Rattle.std.specs.Prelude.{◌≡◌, ℕ, List, Option, length, ◌≤◌, ◌<◌, ◌+◌, ◌*◌, None, Ok, take, ◌≢◌};
ghost use Rattle.art_find.specs.Descents.{stage_below};
ghost use Rattle.art_find.specs.Compares.{ComparesWord, IsWithin, TellsBeside, byte_after, byte_in};

use art_cell::{Cell, Link, Node};
use art_node::{Sought, first_word, next_word, read_header};
use art_path::{Compared, compare_prefix};
use art_step::{Action, Answer, Changed, Stamp};

/// A node that is stamped, and its header.
#[derive(Clone, Copy)]
pub struct NodeSeen {
    pub stamp: Stamp,
    pub node: Node,
    pub header: u64,
}

/// A leaf that the stamp's cell names, its value, and how many bytes its key has.
#[derive(Clone, Copy)]
pub struct LeafSeen {
    pub stamp: Stamp,
    pub leaf: u32,
    pub value: u64,
    pub count: usize,
}

/// Where a descent stands between two of its steps.
#[derive(Clone, Copy)]
pub enum Stage {
    /// Nothing is stamped.
    Start,
    /// The anchor is stamped.
    Anchor(Stamp),
    /// The stamp's cell names this on the key's way.
    Child {
        stamp: Stamp,
        link: Link,
    },
    /// A cell that was checked names this node on the key's way.
    Below {
        above: Stamp,
        node: Node,
    },
    /// The cell and the node are stamped.
    Both {
        above: Stamp,
        stamp: Stamp,
        node: Node,
    },
    /// The node was stamped while the cell above it named it.
    Header {
        stamp: Stamp,
        node: Node,
    },
    /// The word of the prefix with this number comes next; how the bytes before it stand to the key's.
    Prefix {
        seen: NodeSeen,
        number: u8,
        before: Compared,
    },
    /// The word of key bytes, or of the index, with this number comes next.
    Keys {
        seen: NodeSeen,
        number: u8,
    },
    /// The child word at this place comes next.
    Slot {
        seen: NodeSeen,
        place: usize,
    },
    /// The stamp's cell names this leaf; its value comes next.
    Value {
        stamp: Stamp,
        leaf: u32,
    },
    /// Its value is this; its length comes next.
    Length {
        stamp: Stamp,
        leaf: u32,
        value: u64,
    },
    /// The word of the leaf's key with this number comes next; how the bytes before it stand to the key's.
    Bytes {
        seen: LeafSeen,
        number: u8,
        before: Beside,
    },
    /// What was read under the stamp shows where the key stands, or would stand.
    Decided {
        stamp: Stamp,
        verdict: Verdict,
    },
    /// That is settled: the key has this value, or none.
    Ended(Option<u64>),
}

/// A look for the value of one key, which stands beside it: from the anchor down to the leaf that has the key, or to where it is
/// seen that none has.
#[derive(Clone, Copy)]
pub struct Descent {
    /// How many bytes of the key lead to where it stands.
    pub(crate) depth: usize,
    pub(crate) stage: Stage,
}

impl Descent {
    ghost use Rattle.art_find.specs.Asking.{MayLook, WantsCheck, WantsVersion};
    ghost use Rattle.art_step.specs.Acting.{Answers, goes_on, telling};
    ghost use Rattle.art_find.specs.Descents.{Fits, IsReading, Stays};
    ghost use Rattle.art_find.specs.Descents.{answer_at, asks, decided_at, ended_at, most_steps, stage_begun, stage_checked};
    ghost use Rattle.art_step.specs.declared.actions.Answer.{Answer as AnswerTold};
    ghost use Rattle.art_step.specs.declared.actions.Answer.TheVariants as told;
    ghost use Rattle.art_step.specs.declared.actions.Action.{Action as ActionOf};
    ghost use Rattle.art_find.specs.declared.descents.Stage.TheVariants as stages;
    ghost use Rattle.art_step.specs.Shows.{HasValue};
    ghost use Rattle.art_step.specs.declared.deeds.Deed.{Deed};
    ghost use Rattle.art_step.specs.declared.views.Sizes.{Sizes};
    ghost use Rattle.art_step.specs.declared.views.View.{View};
    ghost use Rattle.std.specs.Prelude.{Some, IfSome, true, false};

    /// At its beginning.
    pub fn new() -> Descent
        ensures steps { most_steps result.depth result.stage ≡ 0 }
        ensures going { ended_at result.stage ≡ None }
        ensures fits { (z : Sizes) (k : List ℕ) (what : Option ℕ → Deed) (u v : View) → IsReading u v → Fits z k what result u v }
    {
        Descent {
            depth: 0,
            stage: Stage::Start,
        }
    }

    /// The next step, or none where it has ended.
    #[inline(always)]
    pub fn next(&self) -> Option<Action>
        ensures asks { result ≡ asks self.now.stage }
        ensures allowed { (z : Sizes) (k : List ℕ) (what : Option ℕ → Deed) (u v : View) → Fits z k what self.now u v →
            IfSome result (MayLook z (λ s. HasValue s k (answer_at self.now.stage)) v) }
    {
        match self.stage {
            Stage::Start => Some(Action::Begin { cell: Cell::Anchor }),
            Stage::Anchor(stamp) => Some(Action::Read { stamp, place: 1 }),
            Stage::Child { stamp, .. } => Some(Action::Check { stamp }),
            Stage::Below { node, .. } => Some(Action::Begin {
                cell: Cell::Node(node),
            }),
            Stage::Both { above, .. } => Some(Action::Check { stamp: above }),
            Stage::Header { stamp, .. } => Some(Action::Read { stamp, place: 1 }),
            Stage::Prefix { seen, number, .. } => Some(Action::Read {
                stamp: seen.stamp,
                place: 2 + usize::from(number),
            }),
            Stage::Keys { seen, number } => Some(Action::Read {
                stamp: seen.stamp,
                place: 10 + usize::from(number),
            }),
            Stage::Slot { seen, place } => Some(Action::Read {
                stamp: seen.stamp,
                place,
            }),
            Stage::Value { stamp, leaf } => Some(Action::ReadLeaf {
                stamp,
                leaf,
                place: 0,
            }),
            Stage::Length { stamp, leaf, .. } => Some(Action::ReadLeaf {
                stamp,
                leaf,
                place: 1,
            }),
            Stage::Bytes { seen, number, .. } => Some(Action::ReadLeaf {
                stamp: seen.stamp,
                leaf: seen.leaf,
                place: 2 + usize::from(number),
            }),
            Stage::Decided { stamp, .. } => Some(Action::Settle { stamp }),
            Stage::Ended(_) => None,
        }
    }

    /// The key's value, or that it has none: at the step that settles it, and once that is settled.
    pub fn answer(&self) -> Option<u64>
        ensures { result ≡ answer_at self.now.stage }
    {
        match self.stage {
            Stage::Decided { verdict, .. } => verdict.value(),
            Stage::Ended(value) => value,
            _ => None,
        }
    }

    /// The stamp whose check comes next and settles the answer, and what was read under it.
    #[inline(always)]
    pub fn decided(&self) -> Option<(Stamp, Verdict)>
        ensures { result ≡ decided_at self.now.stage }
    {
        match self.stage {
            Stage::Decided { stamp, verdict } => Some((stamp, verdict)),
            _ => None,
        }
    }

    /// The key's value, or that it has none, once that is settled.
    pub fn ended(&self) -> Option<Option<u64>>
        ensures { result ≡ ended_at self.now.stage }
    {
        match self.stage {
            Stage::Ended(value) => Some(value),
            _ => None,
        }
    }

    /// The step that it asked for was made, with this answer. Whether it goes on: else it restarts.
    #[inline(always)]
    pub fn told(&mut self, key: &[u8], answer: Answer) -> bool
        requires few { length key.now ≤ 64 }
        requires fits { (z : Sizes) × (what : Option ℕ → Deed) × (u : View) × (v : View) × (w : View) × (asked : ActionOf) ×
            Fits z key.now what self.old u v × (asks self.old.stage ≡ Some asked) ×
            Answers z (telling (what (answer_at self.old.stage))) asked answer v w }
        ensures on { result ≡ goes_on answer }
        ensures steps { result ≡ true → most_steps self.old.depth self.old.stage < most_steps self.new.depth self.new.stage }
        ensures anew { result ≡ false → most_steps self.new.depth self.new.stage ≡ 0 }
        ensures stays { Stays answer self.old self.new }
        ensures fits { (z : Sizes) (what : Option ℕ → Deed) (u v w : View) (asked : ActionOf) →
            Fits z key.now what self.old u v → asks self.old.stage ≡ Some asked →
            Answers z (telling (what (answer_at self.old.stage))) asked answer v w → Fits z key.now what self.new u w }
    {
        match answer {
            Answer::Begun { result: Ok(stamp) } => self.began_at(self.stage, stamp),
            Answer::Word { found } => self.read_at(self.stage, key, found),
            Answer::Checked { result } => return self.check_told(self.stage, result),
            Answer::Begun { result: Err(_) } => {
                self.failed();
                return false;
            }
            _ => unreachable!(),
        }
        true
    }

    /// A version word was clear, and gave this stamp, where the descent stood at this stage.
    #[inline(always)]
    pub fn began_at(&mut self, stage: Stage, stamp: Stamp)
        requires at { self.old.stage ≡ stage }
        requires wants { WantsVersion (asks stage) }
        ensures steps { most_steps self.old.depth self.old.stage < most_steps self.new.depth self.new.stage }
        ensures stays { self.new ≡ record self.old { stage = stage_begun stamp self.old.stage } }
        ensures fits { (z : Sizes) (k : List ℕ) (what : Option ℕ → Deed) (u v w : View) (asked : ActionOf) →
            Fits z k what self.old u v → asks self.old.stage ≡ Some asked →
            Answers z (telling (what (answer_at self.old.stage))) asked (told.Begun (Ok stamp)) v w → Fits z k what self.new u w }
    {
        self.stage = match stage {
            Stage::Start => Stage::Anchor(stamp),
            Stage::Below { above, node } => Stage::Both { above, stamp, node },
            _ => unreachable!(),
        };
    }

    /// A version word was unchanged, where the descent stood at this stage.
    #[inline(always)]
    pub fn checked_at(&mut self, stage: Stage)
        requires at { self.old.stage ≡ stage }
        requires wants { WantsCheck (asks stage) }
        ensures steps { most_steps self.old.depth self.old.stage < most_steps self.new.depth self.new.stage }
        ensures stays { self.new ≡ record self.old { stage = stage_checked self.old.stage } }
        ensures fits { (z : Sizes) (k : List ℕ) (what : Option ℕ → Deed) (u v w : View) (asked : ActionOf) →
            Fits z k what self.old u v → asks self.old.stage ≡ Some asked →
            Answers z (telling (what (answer_at self.old.stage))) asked (told.Checked (Ok tt)) v w → Fits z k what self.new u w }
    {
        self.stage = match stage {
            Stage::Child { stamp, link } => below(stamp, link),
            Stage::Both { stamp, node, .. } => Stage::Header { stamp, node },
            Stage::Decided { verdict, .. } => Stage::Ended(verdict.value()),
            _ => unreachable!(),
        };
    }

    /// The check that it asked for, where it stood at this stage, was made, and found this. Whether it goes on: else it restarts.
    #[inline(always)]
    pub fn check_told(&mut self, stage: Stage, checked: Result<(), Changed>) -> bool
        requires at { self.old.stage ≡ stage }
        requires wants { WantsCheck (asks stage) }
        ensures on { result ≡ goes_on (told.Checked checked) }
        ensures steps { result ≡ true → most_steps self.old.depth self.old.stage < most_steps self.new.depth self.new.stage }
        ensures anew { result ≡ false → most_steps self.new.depth self.new.stage ≡ 0 }
        ensures stays { Stays (told.Checked checked) self.old self.new }
        ensures fits { (z : Sizes) (k : List ℕ) (what : Option ℕ → Deed) (u v w : View) (asked : ActionOf) →
            Fits z k what self.old u v → asks self.old.stage ≡ Some asked →
            Answers z (telling (what (answer_at self.old.stage))) asked (told.Checked checked) v w → Fits z k what self.new u w }
    {
        match checked {
            Ok(()) => {
                self.checked_at(stage);
                true
            }
            Err(_) => {
                self.failed();
                false
            }
        }
    }

    /// A version word was locked, obsolete or changed: the descent restarts.
    pub fn failed(&mut self)
        ensures start { self.new ≡ record self.old { stage = stages.Start } }
        ensures steps { most_steps self.new.depth self.new.stage ≡ 0 }
        ensures fits { (z : Sizes) (k : List ℕ) (what : Option ℕ → Deed) (u v : View) → IsReading u v → Fits z k what self.new u v }
    {
        self.stage = Stage::Start;
    }
}

/// The cell that names the link was checked.
#[inline(always)]
pub(crate) fn below(stamp: Stamp, link: Link) -> Stage
    ensures { result ≡ stage_below stamp link }
{
    match link {
        Link::Leaf(leaf) => Stage::Value { stamp, leaf },
        Link::Node(node) => Stage::Below { above: stamp, node },
    }
}

/// Where a key stands, or would stand.
#[derive(Clone, Copy)]
pub enum Verdict {
    /// The leaf with this number has the key, and this is its value.
    Found { leaf: u32, value: u64 },
    /// The anchor names nothing.
    Empty,
    /// The leaf with this number stands on the key's way, and has another key: of the key's bytes the one with this index is the
    /// first that the other key does not have there; it has this byte.
    LeafMismatch { leaf: u32, at: usize, byte: u8 },
    /// The node stands on the key's way and has this header; the byte of its prefix with this index is the first that is not the
    /// key's.
    PrefixMismatch { node: Node, header: u64, at: usize },
    /// The node stands on the key's way and has this header; it has no child at the key's next byte.
    NoChild { node: Node, header: u64 },
    /// The key ends where another goes on, or goes on where another ends: one begins the other.
    Overlaps,
    /// No tree has such words: the check will fail.
    Torn,
}

impl Verdict {
    ghost use Rattle.art_find.specs.Verdicts.{value_of};
    ghost use Rattle.art_find.specs.declared.descents.Verdict.TheVariants as verdicts;

    /// The key's value, or that it has none.
    pub fn value(self) -> Option<u64>
        ensures { result ≡ value_of self }
    {
        match self {
            Verdict::Found { value, .. } => Some(value),
            _ => None,
        }
    }

    /// The same where the key has a byte with this index; else the key ends where another goes on.
    #[inline(always)]
    pub(crate) fn within(self, key: &[u8], index: usize) -> Verdict
        ensures has { index < length key.now → result ≡ self }
        ensures ends { length key.now ≤ index → result ≡ verdicts.Overlaps }
    {
        if index < key.len() {
            self
        } else {
            Verdict::Overlaps
        }
    }
}

/// How the bytes of a leaf's key stand to those of a key, as far as they were read; and, once they part, the leaf's byte there.
#[derive(Clone, Copy)]
pub struct Beside {
    pub compared: Compared,
    pub byte: u8,
}

/// How so many packed bytes stand to those of the key from a place on, as far as the word with a number, by that word and by what
/// was known of the bytes before it.
pub(crate) fn compare_word(
    key: &[u8],
    from: usize,
    count: usize,
    number: u8,
    word: u64,
    before: Compared,
) -> Compared
    requires more { 8 * number < count }
    requires few { count ≤ 64 }
    requires within { IsWithin key.now from (8 * number) before }
    ensures { ComparesWord key.now from count number word before result }
{
    let done = 8 * usize::from(number);
    match before {
        Compared::Same => compare_prefix(word, (count - done).min(8), key, from + done).behind(
            done,
        ),
        parted => parted,
    }
}

/// How a leaf's key of so many bytes stands to the key, as far as the word with a number, by that word and by what was known of
/// the bytes before it.
pub(crate) fn beside_word(key: &[u8], count: usize, number: u8, word: u64, before: Beside) -> Beside
    requires more { 8 * number < count }
    requires few { count ≤ 64 }
    requires within { IsWithin key.now 0 (8 * number) before.compared }
    ensures { TellsBeside key.now count number word before result }
{
    let compared = compare_word(key, 0, count, number, word, before.compared);
    let byte = byte_after(before, compared, word);
    Beside { compared, byte }
}

/// The byte where they part, if they do, once the word was compared too.
fn byte_after(before: Beside, compared: Compared, word: u64) -> u8
    ensures { result ≡ byte_after before.compared before.byte compared word }
{
    match before.compared {
        Compared::Same => byte_in(compared, word),
        _ => before.byte,
    }
}

/// The byte of the word at which the bytes part, if they do.
fn byte_in(compared: Compared, word: u64) -> u8
    ensures { result ≡ byte_in compared word }
{
    match compared {
        Compared::Same => 0,
        Compared::Below(at) | Compared::Above(at) => word.to_be_bytes()[at % 8],
    }
}
