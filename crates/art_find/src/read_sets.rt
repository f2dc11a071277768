//! Where a finding hands the words that it reads; those that it keeps, and the reading of those of a cell that were not read yet.
ghost use Rattle.std.specs.Prelude.{◌≡◌, ◌<◌, ◌≤◌, ◌-◌, ℕ, None, Some, replicate, set, List, Option, length};
ghost use Rattle.art_find.specs.ReadSets.{above_of, node_of};
ghost use Rattle.art_cell.specs.Reads.{word_read};
ghost use Rattle.art_find.specs.Rereadings.{AreKnown};
ghost use Rattle.art_find.specs.Runs.{HasReadOnly, MayReadRun, WereRead};
ghost use Rattle.art_step.specs.Views.{size_of};

use crate::driver::read_word;
use art_cell::{Cell, Reads};
use art_step::{Action, Stamp, Steps};

/// Takes the words that a descent reads of cells: a change keeps them, a get does not.
pub(crate) trait Sink {
    ghost use Rattle.art_find.specs.ReadSets.{above_of, node_of};
    ghost use Rattle.art_find.specs.declared.read_sets.ReadSet.{ReadSet as ReadSetOf};

    /// All that was handed to it, of the cell where the descent stands and of the one above it.
    ghost kept: { Self → ReadSetOf };

    /// A word of the cell where the descent stands was read.
    fn note(&mut self, place: usize, word: u64)
        requires { place < 266 }
        ensures node { node_of (kept self.new) ≡ set (node_of (kept self.old)) place (Some word) }
        ensures above { above_of (kept self.new) ≡ above_of (kept self.old) };

    /// The cell where the descent stands is another one.
    fn clear(&mut self)
        ensures node { node_of (kept self.new) ≡ replicate 266 None }
        ensures above { above_of (kept self.new) ≡ above_of (kept self.old) };

    /// The descent goes one cell down: where it stood is now above.
    fn go_down(&mut self)
        ensures node { node_of (kept self.new) ≡ replicate 266 None }
        ensures above { above_of (kept self.new) ≡ node_of (kept self.old) };
}

/// All words that were read of the cell where a finding stands, and of the one above it.
///
/// It is large, so it stands beside the machine and is never copied: one step down, and the two cells change roles.
#[derive(Drop)]
pub struct ReadSet {
    first: Reads,
    second: Reads,
    /// The second one is of the cell where the finding stands, and the first one of that above it; else it is the other way round.
    turned: bool,
}

impl ReadSet {
    ghost use Rattle.art_cell.specs.Reads.{word_read};
    ghost use Rattle.art_find.specs.Kept.{StaysRead};
    ghost use Rattle.art_find.specs.Rereadings.{IsWholeOrLast, RereadingFits};
    ghost use Rattle.art_find.specs.Runs.{HasReadOn};
    ghost use Rattle.art_step.specs.Steps.Read.{Outcome as ReadOutcome};
    ghost use Rattle.art_step.specs.Views.{size_of};
    ghost use Rattle.art_step.specs.declared.views.Sizes.{Sizes};
    ghost use Rattle.art_step.specs.declared.views.Stamp.{Stamp as StampOf};
    ghost use Rattle.art_step.specs.declared.views.View.{View};

    /// Nothing is read.
    pub fn new() -> ReadSet
        ensures node { node_of result ≡ replicate 266 None }
        ensures above { above_of result ≡ replicate 266 None }
    {
        ReadSet {
            first: Reads::new(),
            second: Reads::new(),
            turned: false,
        }
    }

    /// What was read of the cell where the finding stands.
    #[inline(always)]
    pub fn node(&self) -> &Reads
        ensures { result.now ≡ node_of self.now }
    {
        if self.turned {
            &self.second
        } else {
            &self.first
        }
    }

    /// What was read of the cell above it.
    #[inline(always)]
    pub fn above(&self) -> &Reads
        ensures { result.now ≡ above_of self.now }
    {
        if self.turned {
            &self.first
        } else {
            &self.second
        }
    }

    /// The word that a rereading of the cell where the finding stands asked for is this.
    pub fn reread_node(&mut self, rereading: &mut Rereading, word: u64)
        requires { rereading.old.place < 266 }
        ensures steps { rereading.old.place < rereading.new.place }
        ensures few { rereading.new.place ≤ 266 }
        ensures above { above_of self.new ≡ above_of self.old }
        ensures stays { word_read (node_of self.old) rereading.old.place ≡ None → StaysRead (node_of self.old) (node_of self.new) }
        ensures fits { (z : Sizes) (v w : View) (x : StampOf) → RereadingFits z v x rereading.old (node_of self.old) →
            rereading.old.place < size_of x.cell → ReadOutcome z v w x rereading.old.place word →
            RereadingFits z w x rereading.new (node_of self.new) }
    {
        if self.turned {
            rereading.told(&mut self.second, word);
        } else {
            rereading.told(&mut self.first, word);
        }
    }

    /// The word that a rereading of the cell above asked for is this.
    pub fn reread_above(&mut self, rereading: &mut Rereading, word: u64)
        requires { rereading.old.place < 266 }
        ensures steps { rereading.old.place < rereading.new.place }
        ensures few { rereading.new.place ≤ 266 }
        ensures node { node_of self.new ≡ node_of self.old }
        ensures fits { (z : Sizes) (v w : View) (x : StampOf) → RereadingFits z v x rereading.old (above_of self.old) →
            rereading.old.place < size_of x.cell → ReadOutcome z v w x rereading.old.place word →
            RereadingFits z w x rereading.new (above_of self.new) }
    {
        if self.turned {
            rereading.told(&mut self.first, word);
        } else {
            rereading.told(&mut self.second, word);
        }
    }

    /// Reads the words that are missing of the cell where the finding stands, as long as more than one turn is left.
    pub fn read_on_node<S: Steps>(
        &mut self,
        steps: &mut S,
        stamp: Stamp,
        rereading: &mut Rereading,
        left: &mut u32,
    )
        requires some { 0 < left.old }
        requires fits { RereadingFits (S.sizes steps.old) (S.view steps.old) stamp rereading.old (node_of self.old) }
        ensures only { S.only steps.old steps.new }
        ensures some { 0 < left.new }
        ensures less { left.new ≤ left.old }
        ensures above { above_of self.new ≡ above_of self.old }
        ensures last { IsWholeOrLast stamp rereading.new left.new }
        ensures read { HasReadOn (S.sizes steps.old) stamp (left.old - left.new) (S.view steps.old) rereading.old (node_of self.old)
            (S.view steps.new) rereading.new (node_of self.new) }
    {
        if self.turned {
            rereading.read_on(steps, stamp, &mut self.second, left);
        } else {
            rereading.read_on(steps, stamp, &mut self.first, left);
        }
    }

    /// Reads the words that are missing of the cell above, as long as more than one turn is left.
    pub fn read_on_above<S: Steps>(
        &mut self,
        steps: &mut S,
        stamp: Stamp,
        rereading: &mut Rereading,
        left: &mut u32,
    )
        requires some { 0 < left.old }
        requires fits { RereadingFits (S.sizes steps.old) (S.view steps.old) stamp rereading.old (above_of self.old) }
        ensures only { S.only steps.old steps.new }
        ensures some { 0 < left.new }
        ensures less { left.new ≤ left.old }
        ensures node { node_of self.new ≡ node_of self.old }
        ensures last { IsWholeOrLast stamp rereading.new left.new }
        ensures read { HasReadOn (S.sizes steps.old) stamp (left.old - left.new) (S.view steps.old) rereading.old (above_of self.old)
            (S.view steps.new) rereading.new (above_of self.new) }
    {
        if self.turned {
            rereading.read_on(steps, stamp, &mut self.first, left);
        } else {
            rereading.read_on(steps, stamp, &mut self.second, left);
        }
    }
}

impl Sink for ReadSet {
    ghost kept = { λ s. s };

    #[inline(always)]
    fn note(&mut self, place: usize, word: u64) {
        if self.turned {
            self.second.note(place, word);
        } else {
            self.first.note(place, word);
        }
    }

    fn clear(&mut self) {
        if self.turned {
            self.second.clear();
        } else {
            self.first.clear();
        }
    }

    fn go_down(&mut self) {
        self.turned = !self.turned;
        self.clear();
    }
}

/// How many words a cell has at most.
const WORDS: usize = 266;

/// A read of all words of one stamped cell that were not read yet, in ascending place. The words stand beside it.
#[derive(Clone, Copy)]
pub struct Rereading {
    /// The first place whose word is not known, or one past the last.
    place: usize,
}

impl Rereading {
    ghost use Rattle.art_find.specs.Asking.{MayLook};
    ghost use Rattle.art_find.specs.Kept.{IsKept, StaysRead};
    ghost use Rattle.art_find.specs.Rereadings.{IsWholeOrLast, RereadingFits, reads_next};
    ghost use Rattle.art_find.specs.Runs.{HasReadOn};
    ghost use Rattle.art_step.specs.Acting.{HasPath};
    ghost use Rattle.art_step.specs.Steps.Read.{Outcome as ReadOutcome};
    ghost use Rattle.art_step.specs.Views.{IsNotHeld};
    ghost use Rattle.art_step.specs.Shows.{HasStamp};
    ghost use Rattle.art_step.specs.declared.views.Sizes.{Sizes};
    ghost use Rattle.art_step.specs.declared.views.Stamp.{Stamp as StampOf};
    ghost use Rattle.art_step.specs.declared.views.View.{View};
    ghost use Rattle.std.specs.Prelude.{IfSome, ⊤};

    /// Of a cell of which these words were read.
    pub fn new(reads: &Reads) -> Rereading
        ensures begins { 0 < result.place }
        ensures few { result.place ≤ 266 }
        ensures fits { (z : Sizes) (v : View) (x : StampOf) → IsNotHeld v.held x.cell → HasStamp z v x →
            HasPath v x → IsKept z v x reads.now → RereadingFits z v x result reads.now }
    {
        Rereading {
            place: unknown_from(reads, 1),
        }
    }

    /// The read of the first word that is not known, or none where all are.
    pub fn next(&self, stamp: Stamp) -> Option<Action>
        ensures asks { result ≡ reads_next stamp self.now }
        ensures allowed { (z : Sizes) (v : View) (reads : List (Option ℕ)) →
            RereadingFits z v stamp self.now reads → IfSome result (MayLook z (λ s. ⊤) v) }
        ensures all { result ≡ None → (z : Sizes) (v : View) (reads : List (Option ℕ)) →
            RereadingFits z v stamp self.now reads → AreKnown reads 1 (size_of stamp.cell) }
    {
        if self.place < words_of(stamp.cell) {
            Some(Action::Read {
                stamp,
                place: self.place,
            })
        } else {
            None
        }
    }

    /// The word that it asked for is this.
    pub fn told(&mut self, reads: &mut Reads, word: u64)
        requires { self.old.place < 266 }
        ensures steps { self.old.place < self.new.place }
        ensures few { self.new.place ≤ 266 }
        ensures stays { word_read reads.old self.old.place ≡ None → StaysRead reads.old reads.new }
        ensures fits { (z : Sizes) (v w : View) (x : StampOf) → RereadingFits z v x self.old reads.old →
            self.old.place < size_of x.cell → ReadOutcome z v w x self.old.place word → RereadingFits z w x self.new reads.new }
    {
        reads.note(self.place, word);
        self.place = unknown_from(reads, self.place + 1);
    }

    /// Reads the words that are not known, as long as more than one turn is left. A turn is a read.
    #[inline(always)]
    pub fn read_on<S: Steps>(
        &mut self,
        steps: &mut S,
        stamp: Stamp,
        reads: &mut Reads,
        left: &mut u32,
    )
        requires some { 0 < left.old }
        requires fits { RereadingFits (S.sizes steps.old) (S.view steps.old) stamp self.old reads.old }
        ensures only { S.only steps.old steps.new }
        ensures some { 0 < left.new }
        ensures less { left.new ≤ left.old }
        ensures last { IsWholeOrLast stamp self.new left.new }
        ensures read { HasReadOn (S.sizes steps.old) stamp (left.old - left.new) (S.view steps.old) self.old reads.old
            (S.view steps.new) self.new reads.new }
    {
        let end = words_of(stamp.cell);
        let mut words = [0; 64];
        while *left > 1 && self.place < end {
            let unread = reads.unread_from(self.place).min(end - self.place);
            let many = unread.min(*left as usize - 1);
            // read into a row of its own, so that a read stores one word and no bit
            let run = &mut words[..many];
            read_run(steps, stamp, self.place, run);
            reads.note_run(self.place, run);
            *left -= many as u32;
            self.place = unknown_from(reads, self.place + many);
        }
    }
}

/// Reads words of the stamped cell from this place on, as many as the row has.
#[inline(always)]
fn read_run<S: Steps>(steps: &mut S, stamp: Stamp, place: usize, words: &mut [u64])
    requires { MayReadRun (S.sizes steps.old) (S.view steps.old) stamp place (length words.old) }
    ensures only { S.only steps.old steps.new }
    ensures long { length words.new ≡ length words.old }
    ensures after { HasReadOnly (S.view steps.old) (S.view steps.new) (length words.old) }
    ensures read { WereRead (S.sizes steps.old) (S.view steps.new) stamp place words.new }
{
    for index in 0..words.len() {
        words[index] = read_word(steps, stamp, place + index);
    }
}

/// How many words a cell has.
#[inline(always)]
fn words_of(cell: Cell) -> usize
    ensures { result ≡ size_of cell }
{
    match cell {
        Cell::Anchor => 2,
        Cell::Leaf(_) => 10,
        Cell::Node(node) => node.layout.size(),
    }
}

/// The first place from this one on whose word is not known, or one past the last.
#[inline(always)]
fn unknown_from(reads: &Reads, from: usize) -> usize
    requires { from ≤ 266 }
    ensures from { from ≤ result }
    ensures end { result ≤ 266 }
    ensures known { AreKnown reads.now from result }
    ensures unknown { result < 266 → word_read reads.now result ≡ None }
{
    for place in from..WORDS {
        match reads.get(place) {
            Some(_) => {}
            None => return place,
        }
    }
    WORDS
}
