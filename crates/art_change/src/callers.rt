//! What a pass keeps beside the table, and the call that it makes.
ghost use Rattle.std.specs.Prelude.{◌≡◌, ◌≢◌, ℕ, ◌≤◌, length, IfSome, false, true, None, Some};
ghost use Rattle.art_change.specs.Calls.{HasCalled, IsCaller, IsCalling, Refuses, StaysApart, Wish, is_refusal, outcome_at, restarts_in, turns_left_in};
ghost use Rattle.art_change.specs.Calls.{Insert as insert_wish, Remove as remove_wish, Get as get_wish, Look as look_wish};
ghost use Rattle.art_change.specs.declared.outcomes.Outcome.TheVariants.{Overlaps as overlaps};
ghost use Rattle.art_change.specs.Writes.{HoldsOrTold, IsFresh};
ghost use Rattle.art_epoch.specs.Limbo.{places_of};
ghost use Rattle.art_key.specs.Bounds.{is_before};
ghost use Rattle.art_look.specs.Seen.{bound_at};
ghost use Rattle.art_step.specs.declared.views.Sizes.{Sizes as SizesOf};
ghost use Rattle.art_step.specs.declared.views.View.{View};
ghost use Rattle.art_tree.specs.declared.bounds.Bound.TheVariants.{To as to_text};

use crate::outcomes::{of_seek, of_write};
use crate::{Outcome, Write};
use art_attempt::{Job, Room};
use art_epoch::Limbo;
use art_key::{Bound, Key};
use art_look::{Aim, PathBuffer, Seek};
use art_step::Sizes;

/// The machine of a call.
#[derive(Clone, Copy)]
pub(crate) enum Call {
    Write(Write),
    Seek(Seek),
}

/// What a pass keeps beside the table to call it, and the call that it makes. It is large, and never moved.
#[derive(Drop)]
pub struct Caller {
    pub(crate) own: u32,
    pub(crate) room: Room,
    pub(crate) limbo: Limbo,
    /// The key of a get, or the lower end of a look.
    pub(crate) key: Key,
    /// The upper end of a look.
    pub(crate) hi: Bound,
    pub(crate) path_buffer: PathBuffer,
    pub(crate) call: Call,
}

impl Caller {
    /// Of the pass `own` of a table with so many numbers.
    pub fn new(own: u32, sizes: &Sizes) -> Caller
        requires { sizes.now.passes ≤ 32 }
        ensures { (u : View) → IsFresh sizes.now u own → IsCaller sizes.now u result }
    {
        Caller {
            own,
            room: Room::new(own, sizes),
            limbo: Limbo::new(),
            key: Key::new(),
            hi: Bound::End,
            path_buffer: PathBuffer::new(),
            call: Call::Seek(Seek::new(Aim::Key, 0)),
        }
    }

    /// An insert of the key with the value is begun, in so many turns.
    pub fn begin_insert(&mut self, key: &Key, value: u64, turns: u32)
        ensures calling { (z : SizesOf) (u : View) → IsCaller z u self.old →
            IsCalling z (insert_wish key.now value) turns turns u self.new u }
        ensures apart { StaysApart self.new }
    {
        self.room.set(key, value);
        prove!(self.limbo.room() <= 64);
        let write = Write::new(Job::Insert, self.own, turns, &self.room, &self.limbo);
        self.call = Call::Write(write);
    }

    /// A removal of the row with the key is begun, in so many turns.
    pub fn begin_remove(&mut self, key: &Key, turns: u32)
        ensures calling { (z : SizesOf) (u : View) → IsCaller z u self.old → IsCalling z (remove_wish key.now) turns turns u self.new u }
        ensures apart { StaysApart self.new }
    {
        self.room.set(key, 0);
        prove!(self.limbo.room() <= 64);
        let write = Write::new(Job::Remove, self.own, turns, &self.room, &self.limbo);
        self.call = Call::Write(write);
    }

    /// A get of the key is begun, in so many turns.
    pub fn begin_get(&mut self, key: &Key, turns: u32)
        ensures calling { (z : SizesOf) (u : View) → IsCaller z u self.old → IsCalling z (get_wish key.now) turns turns u self.new u }
        ensures apart { StaysApart self.new }
    {
        self.key = copied(key);
        self.call = Call::Seek(Seek::new(Aim::Key, turns));
    }

    /// A look of the range from the key on, before the bound, is begun, in so many turns.
    pub fn begin_look(&mut self, lo: &Key, hi: &Bound, turns: u32)
        requires { is_before (bound_at (to_text lo.now.items)) hi.now ≡ true }
        ensures calling { (z : SizesOf) (u : View) → IsCaller z u self.old →
            IsCalling z (look_wish lo.now hi.now) turns turns u self.new u }
        ensures apart { StaysApart self.new }
    {
        self.key = copied(lo);
        self.hi = copied_bound(hi);
        self.call = Call::Seek(Seek::new(Aim::Range, turns));
    }

    /// How it ended, if it has.
    pub fn outcome(&self) -> Option<Outcome>
        ensures at { result ≡ outcome_at self.now }
        ensures called { IfSome result (λ o. (z : SizesOf) (w : Wish) (given turns : ℕ) (u v : View) →
            IsCalling z w given turns u self.now v → HasCalled z w given turns (restarts_in self.now) u self.now o v) }
        ensures refused { IfSome result (λ o. Refuses self.now → is_refusal o ≡ true) }
        ensures apart { IfSome result (λ o. StaysApart self.now → o ≢ overlaps) }
    {
        match &self.call {
            Call::Write(write) => Some(of_write(write.ended()?)),
            Call::Seek(seek) => {
                let key = self.key.as_slice();
                let seen = seek.seen(key, &self.hi, &self.path_buffer);
                Some(of_seek(seek.ended()?, seen))
            }
        }
    }

    /// How often it restarted.
    pub fn restarts(&self) -> u64
        ensures { result ≡ restarts_in self.now }
    {
        match &self.call {
            Call::Write(write) => write.restarts(),
            Call::Seek(seek) => seek.restarts(),
        }
    }

    /// How many turns are left, where the call that was begun is a get or a look.
    pub fn turns_left(&self) -> u32
        ensures { result ≡ turns_left_in self.now }
    {
        match &self.call {
            Call::Write(_) => 0,
            Call::Seek(seek) => seek.turns_left(),
        }
    }

    /// The call ends as soon as it may, as if the turns that it used had been all. False, with nothing changed, where it cannot: a cell
    /// is held, or the event was made.
    pub fn give_up(&mut self) -> bool
        ensures given { result ≡ true → (z : SizesOf) (w : Wish) (given turns : ℕ) (u v : View) →
            IsCalling z w given turns u self.old v → (used : ℕ) × (used ≤ turns) × IsCalling z w given used u self.new v }
        ensures refuses { result ≡ true → Refuses self.new }
        ensures apart { StaysApart self.old → StaysApart self.new }
        ensures kept { result ≡ false → self.new ≡ self.old }
        ensures why { result ≡ false → (z : SizesOf) (w : Wish) (given turns : ℕ) (u v : View) →
            IsCalling z w given turns u self.old v → HoldsOrTold u v }
        ensures free { result ≡ true → (z : SizesOf) (w : Wish) (given turns : ℕ) (u v : View) →
            IsCalling z w given turns u self.old v → ¬ (HoldsOrTold u v) }
    {
        let Caller { room, call, .. } = self;
        match call {
            Call::Write(write) => write.give_up(room),
            Call::Seek(seek) => seek.give_up(),
        }
    }

    /// What it unlinked and has not given back.
    pub fn limbo(&self) -> &Limbo
        ensures { places_of result.now ≡ places_of self.now.limbo }
    {
        &self.limbo
    }
}

/// The key again.
fn copied(key: &Key) -> Key
    ensures same { result ≡ key.now }
    ensures short { length result.items ≤ 64 }
{
    Key::try_from(key.as_slice()).unwrap()
}

/// The bound again.
fn copied_bound(bound: &Bound) -> Bound
    ensures { result ≡ bound.now }
{
    match bound {
        Bound::At(key) => Bound::At(copied(key)),
        Bound::End => Bound::End,
    }
}
