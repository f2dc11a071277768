//! The place of a key in the tree, with all that was read there: for an insert or a removal that changes the tree.
//!
//! # The problem
//!
//! A descent (`Descent` of `art_find`) goes down by a key (ICDE 2013), one word at a time, and ends in a verdict: where the
//! key stands, or would stand. It keeps no word that it read, since a get needs none. A change needs more. Whoever adds a
//! child to the node N, or puts another node in its place, upgrades the stamp of N, and where N itself goes, that of the cell
//! P above it too (DaMoN 2016). So P must still be stamped, and known to have N as its child on the key's way. And the words of
//! N, which the plan of the change goes by, should not be read a second time: most were read on the way.
//!
//! # What is kept
//!
//! ```text
//!        P        above:  its stamp, and all words that were read of it
//!        │
//!        ▼
//!        N        node:   where the descent stands: its stamp, and all words that were read of it
//! ```
//!
//! A `ReadSet` keeps the words. It is large (two cells of up to 266 words), so it stands beside the machine, and is never copied:
//! one step down, and N is above. The two halves change roles by a flag, and the half that was P's is cleared, in five words.
//! N may be the anchor, and then nothing is above it.
//!
//! # A finding
//!
//! `Finding` is the machine: a descent, and the stamp of P with how many bytes lead to N. `next` asks what the descent asks, and
//! `told` hands the answer to the descent, and keeps the word, if it was one of a cell. Where a check lets the descent enter a node, the finding sees it by what is
//! asked next: after a version word that was clear or unchanged, only a cell that was just entered is read. After the check of
//! P that is N, and the stamp that was checked is P's. After the version word of the anchor it is the anchor.
//!
//! # What it knows
//!
//! `FindingFits` says what `Fits` says of the descent, and of the cell where it stands (`IsPlaced`): that each word that is
//! kept was noted under the cell's stamp (`IsKept`), that a path to the cell was too (`HasPath`), which is what a read and an upgrade
//! ask for, and that the cell above has the node as its child on the key's way, in each tree in which the notes under its stamp hold
//! (`IsAboveOf`). All of it stays so while the pass only reads: stamps and notes are added, and none goes (`Grows`). Where one goes, at a version
//! word that is not clear or was changed, the finding restarts, stands nowhere and claims nothing.
//!
//! At a verdict `position` hands out a `Position`: the stamp, the cell above, and the verdict; and all of that is known at once
//! (`IsStanding`). It stays known whatever else the pass does with its numbers (`standing_grows`).
//!
//! # The words that are missing
//!
//! A descent reads the words of a node that it needs, and no more. A `Rereading` reads the others of one stamped cell, in
//! ascending place, so that a plan sees all of them. What was found stays found meanwhile (`standing_stays`). `read_on_node`
//! and `read_on_above` of a read set make its reads in a loop of their own, where only turns can stop it.
ghost use Rattle.std.specs.Prelude.{◌≡◌, ◌+◌, ◌≤◌, ◌<◌, ◌⊎◌, ℕ, List, Option, length, None};
ghost use Rattle.art_find.specs.Findings.{AsksPlace, IsHeard};

use crate::driver::look;
use crate::read_sets::Sink;
use crate::{Descent, ReadSet, Stage, Verdict};
use art_cell::Cell;
use art_step::{Action, Answer, Changed, EpochSteps, Locked, Stamp};

/// The cell that has the node as its child where a finding stands.
#[derive(Clone, Copy)]
pub struct Above {
    pub stamp: Stamp,
    /// How many bytes of the key lead to the node.
    pub depth: usize,
}

/// Where a key stands, or would stand.
#[derive(Clone, Copy)]
pub struct Position {
    /// The cell under whose stamp that was read.
    pub stamp: Stamp,
    /// How many bytes of the key were read as a path on the way there.
    pub depth: usize,
    /// Where the stamp's cell is a node, the cell that has it as its child.
    pub above: Option<Above>,
    pub verdict: Verdict,
}

/// A look for where a key stands, or would stand, that keeps the cell above. The key and what was read stand
/// beside it.
#[derive(Clone, Copy)]
pub struct Finding {
    pub(crate) descent: Descent,
    /// Where it stands on a node, the cell that has the node as its child.
    pub(crate) above: Option<Above>,
}

impl Finding {
    ghost use Rattle.art_find.specs.Asking.{MayLook, WantsWord};
    ghost use Rattle.art_step.specs.Acting.{Answers, goes_on, telling};
    ghost use Rattle.art_find.specs.Descents.{IsReading, Stays};
    ghost use Rattle.art_find.specs.Descents.{answer_at, asks, ended_at, most_steps};
    ghost use Rattle.art_step.specs.declared.actions.Action.{Action as ActionOf};
    ghost use Rattle.art_step.specs.declared.actions.Action.TheVariants.{Begin as begin_asked, Check as check_asked, Read as read_asked};
    ghost use Rattle.art_find.specs.Findings.{AsksLeaf, Descends, Enters, FindingFits, IsStanding, IsThere, Keeps, LookedOn, position_at};
    ghost use Rattle.art_find.specs.declared.read_sets.ReadSet.{ReadSet as ReadSetOf};
    ghost use Rattle.art_step.specs.Shows.{HasValue};
    ghost use Rattle.art_step.specs.Steps.Begin.{Outcome as Begun};
    ghost use Rattle.art_step.specs.Steps.Check.{Outcome as WasChecked};
    ghost use Rattle.art_step.specs.Steps.Read.{Outcome as WasRead};
    ghost use Rattle.art_step.specs.declared.deeds.Deed.{Deed};
    ghost use Rattle.art_step.specs.declared.views.Sizes.{Sizes};
    ghost use Rattle.art_step.specs.declared.views.View.{View};
    ghost use Rattle.std.specs.Prelude.{Some, IfNone, IfSome, true, false};

    /// At its beginning.
    pub fn new() -> Finding
        ensures steps { most_steps result.descent.depth result.descent.stage ≡ 0 }
        ensures going { ended_at result.descent.stage ≡ None }
        ensures fits { (z : Sizes) (k : List ℕ) (what : Option ℕ → Deed) (read_set : ReadSetOf) (u v : View) → IsReading u v →
            FindingFits z k what result read_set u v }
    {
        Finding {
            descent: Descent::new(),
            above: None,
        }
    }

    /// The next step, or none where it has ended.
    #[inline(always)]
    pub fn next(&self) -> Option<Action>
        ensures asks { result ≡ asks self.now.descent.stage }
        ensures allowed { (z : Sizes) (k : List ℕ) (what : Option ℕ → Deed) (read_set : ReadSetOf) (u v : View) →
            FindingFits z k what self.now read_set u v →
            IfSome result (MayLook z (λ s. HasValue s k (answer_at self.now.descent.stage)) v) }
    {
        self.descent.next()
    }

    /// Where the key stands or would stand, once that was read: a check of the stamp comes next.
    #[inline(always)]
    pub fn position(&self) -> Option<Position>
        ensures at { result ≡ position_at self.now }
        ensures stands { IfSome result (λ t. (z : Sizes) (k : List ℕ) (what : Option ℕ → Deed) (read_set : ReadSetOf) (u v : View) →
            FindingFits z k what self.now read_set u v → IsReading u v × IsStanding z k t read_set v) }
    {
        let (stamp, verdict) = self.descent.decided()?;
        Some(Position {
            stamp,
            depth: self.descent.depth,
            above: self.above,
            verdict,
        })
    }

    /// The step that it asked for was made, with this answer. Whether it goes on: else it restarts.
    #[inline(always)]
    pub fn told(&mut self, read_set: &mut ReadSet, key: &[u8], answer: Answer) -> bool
        requires few { length key.now ≤ 64 }
        requires fits { (z : Sizes) × (what : Option ℕ → Deed) × (u : View) × (v : View) × (w : View) × (asked : ActionOf) ×
            FindingFits z key.now what self.old read_set.old u v × (asks self.old.descent.stage ≡ Some asked) ×
            Answers z (telling (what (answer_at self.old.descent.stage))) asked answer v w }
        ensures on { result ≡ goes_on answer }
        ensures steps { result ≡ true → most_steps self.old.descent.depth self.old.descent.stage <
            most_steps self.new.descent.depth self.new.descent.stage }
        ensures anew { result ≡ false → most_steps self.new.descent.depth self.new.descent.stage ≡ 0 }
        ensures stays { Stays answer self.old.descent self.new.descent }
        ensures keeps { Keeps answer (asks self.old.descent.stage) (asks self.new.descent.stage) self.new.descent.depth
            self.old.above read_set.old self.new.above read_set.new }
        ensures fits { (z : Sizes) (what : Option ℕ → Deed) (u v w : View) (asked : ActionOf) →
            FindingFits z key.now what self.old read_set.old u v → asks self.old.descent.stage ≡ Some asked →
            Answers z (telling (what (answer_at self.old.descent.stage))) asked answer v w → FindingFits z key.now what self.new read_set.new u w }
    {
        let asked = self.descent.next();
        let on = self.descent.told(key, answer);
        self.keep(read_set, asked, answer);
        on
    }

    /// Makes steps and hears them until the place is known, as long as more than one turn is left. Whether it goes on: else the last one
    /// failed, and it restarts.
    pub fn descend<S: EpochSteps>(
        &mut self,
        steps: &mut S,
        read_set: &mut ReadSet,
        key: &[u8],
        left: &mut u32,
    ) -> bool
        requires few { length key.now ≤ 64 }
        requires turn { 0 < left.old }
        requires fits { (what : Option ℕ → Deed) × (u : View) ×
            FindingFits (S.sizes steps.old) key.now what self.old read_set.old u (S.view steps.old) }
        ensures only { S.only steps.old steps.new }
        ensures turn { 0 < left.new }
        ensures less { left.new ≤ left.old }
        ensures made { (S.view steps.new).steps + left.new ≡ (S.view steps.old).steps + left.old }
        ensures there { result ≡ true → IsThere self.new ⊎ (left.new ≡ 1) }
        ensures descends { Descends (S.sizes steps.old) key.now result self.old read_set.old (S.view steps.old)
            self.new read_set.new (S.view steps.new) }
    {
        loop {
            if !self.pass_nodes(steps, read_set, key, left) {
                return false;
            }
            if *left <= 1 {
                return true;
            }
            let Some(on) = self.look_on(steps, read_set, key) else {
                return true;
            };
            *left -= 1;
            if !on {
                return false;
            }
        }
    }

    /// Makes the next step, unless the place is known or it has ended, and hears it. Whether it goes on: else it restarts.
    fn look_on<S: EpochSteps>(
        &mut self,
        steps: &mut S,
        read_set: &mut ReadSet,
        key: &[u8],
    ) -> Option<bool>
        requires few { length key.now ≤ 64 }
        requires fits { (what : Option ℕ → Deed) × (u : View) ×
            FindingFits (S.sizes steps.old) key.now what self.old read_set.old u (S.view steps.old) }
        ensures only { S.only steps.old steps.new }
        ensures none { IfNone result (IsThere self.old × (self.new ≡ self.old) × (read_set.new ≡ read_set.old) × (S.view steps.new ≡ S.view steps.old)) }
        ensures looked { IfSome result (λ on. LookedOn (S.sizes steps.old) key.now on self.old read_set.old (S.view steps.old)
            self.new read_set.new (S.view steps.new)) }
    {
        let action = self.next()?;
        let answer = look(steps, action)?;
        Some(self.told(read_set, key, answer))
    }

    /// The version word that it asked for, where its descent stood at this stage, was found so. Whether it goes on.
    #[inline(always)]
    pub(crate) fn hear_begun<K: Sink>(
        &mut self,
        sink: &mut K,
        stage: Stage,
        cell: Cell,
        begun: Result<Stamp, Locked>,
    ) -> bool
        requires at { self.old.descent.stage ≡ stage }
        requires asked { asks stage ≡ Some (begin_asked cell) }
        ensures looked { (z : Sizes) (k : List ℕ) (v w : View) → Begun z v w cell begun →
            LookedOn z k result self.old (K.kept sink.old) v self.new (K.kept sink.new) w }
    {
        match begun {
            Ok(stamp) => {
                self.descent.began_at(stage, stamp);
                self.enter(sink, Some(Action::Begin { cell }));
                true
            }
            Err(_) => {
                self.descent.failed();
                false
            }
        }
    }

    /// The word of a cell that it asked for, where its descent stood at this stage, is this: it is kept.
    #[inline(always)]
    pub(crate) fn hear_word<K: Sink>(
        &mut self,
        sink: &mut K,
        key: &[u8],
        stage: Stage,
        stamp: Stamp,
        place: usize,
        word: u64,
    )
        requires few { length key.now ≤ 64 }
        requires at { self.old.descent.stage ≡ stage }
        requires asked { asks stage ≡ Some (read_asked stamp place) }
        requires inside { place < 266 }
        requires fits { (z : Sizes) × (what : Option ℕ → Deed) × (u : View) × (v : View) ×
            FindingFits z key.now what self.old (K.kept sink.old) u v }
        ensures looked { (z : Sizes) (v w : View) → WasRead z v w stamp place word →
            LookedOn z key.now true self.old (K.kept sink.old) v self.new (K.kept sink.new) w }
    {
        let _ = stamp.version;
        self.descent.read_at(stage, key, word);
        sink.note(place, word);
    }

    /// The cell that it asked for, where its descent stood at this stage, was checked. Whether it goes on.
    #[inline(always)]
    pub(crate) fn hear_checked<K: Sink>(
        &mut self,
        sink: &mut K,
        stage: Stage,
        stamp: Stamp,
        checked: Result<(), Changed>,
    ) -> bool
        requires at { self.old.descent.stage ≡ stage }
        requires asked { asks stage ≡ Some (check_asked stamp) }
        ensures looked { (z : Sizes) (k : List ℕ) (v w : View) → WasChecked z v w stamp None checked →
            LookedOn z k result self.old (K.kept sink.old) v self.new (K.kept sink.new) w }
    {
        let on = self.descent.check_told(stage, checked);
        self.enter(sink, Some(Action::Check { stamp }));
        on
    }

    /// Keeps what was read by the step that was asked for.
    #[inline(always)]
    fn keep(&mut self, read_set: &mut ReadSet, asked: Option<Action>, answer: Answer)
        requires { AsksPlace asked }
        ensures descent { self.new.descent ≡ self.old.descent }
        ensures keeps { Keeps answer asked (asks self.old.descent.stage) self.old.descent.depth self.old.above read_set.old
            self.new.above read_set.new }
    {
        match answer {
            Answer::Word { found } => hear(read_set, asked, found),
            Answer::Begun { .. } | Answer::Checked { .. } => self.enter(read_set, asked),
            Answer::Upgraded { .. } | Answer::Done => {}
        }
    }

    /// A version word was asked for. Where a read of a cell comes next, the finding stands on that cell from now on.
    #[inline(always)]
    fn enter<K: Sink>(&mut self, sink: &mut K, asked: Option<Action>)
        ensures descent { self.new.descent ≡ self.old.descent }
        ensures enters { Enters asked (asks self.old.descent.stage) self.old.descent.depth self.old.above (K.kept sink.old)
            self.new.above (K.kept sink.new) }
    {
        match self.descent.next() {
            Some(Action::Read { .. }) => match asked {
                Some(Action::Check { stamp }) => {
                    let depth = self.descent.depth;
                    self.above = Some(Above { stamp, depth });
                    sink.go_down();
                }
                _ => {
                    self.above = None;
                    sink.clear();
                }
            },
            _ => {}
        }
    }
}

/// Keeps a word that was read.
#[inline(always)]
fn hear(read_set: &mut ReadSet, asked: Option<Action>, word: u64)
    requires { AsksPlace asked }
    ensures { IsHeard asked word read_set.old read_set.new }
{
    match asked {
        Some(Action::Read { place, .. }) => read_set.note(place, word),
        _ => {}
    }
}
