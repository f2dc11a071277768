//! Calls that are made at once: their machines are values, and stand in no caller.
ghost use Rattle.std.specs.Prelude.{◌≡◌, ◌≢◌, ℕ, None, true};
ghost use Rattle.std.specs.Option.{option_map};
ghost use Rattle.art_change.specs.Calls.{Get as get_wish, HasCalled, Insert as insert_wish, IsCaller, Look as look_wish, Remove as remove_wish, write_wish};
ghost use Rattle.art_change.specs.Outcomes.{of_look, of_seek, of_write};
ghost use Rattle.art_change.specs.ArtAttempt.Attempts.{IsRoom};
ghost use Rattle.art_change.specs.ArtAttempt.declared.attempts.Job.TheVariants.{Remove as removal};
ghost use Rattle.art_change.specs.declared.writes.WriteOutcome.TheVariants.{Overlaps as overlaps};
ghost use Rattle.art_key.specs.Bounds.{is_before};
ghost use Rattle.art_look.specs.Looks.{seen_to};
ghost use Rattle.art_look.specs.Seen.{bound_at, nearer, row_seen};
ghost use Rattle.art_look.specs.Table.{end_at};
ghost use Rattle.art_step.specs.Deeds.{key_of};
ghost use Rattle.art_step.specs.Histories.{AreApart};
ghost use Rattle.art_step.specs.declared.views.View.{View};
ghost use Rattle.art_tree.specs.declared.bounds.Bound.TheVariants.{To as to_text};

use crate::callers::Call;
use crate::writes::finish as finish_write;
use crate::{Caller, Write, WriteOutcome};
use art_attempt::Job;
use art_key::{Bound, Key};
use art_look::{Aim, Outcome as SeekOutcome, Reached, Seek, finish as finish_seek};
use art_step::EpochSteps;

impl Caller {
    /// Inserts the key with the value, in so many turns: how that ended.
    pub fn insert<S: EpochSteps>(
        &mut self,
        steps: &mut S,
        key: &Key,
        value: u64,
        turns: u32,
    ) -> WriteOutcome
        requires admitted { S.admits steps.old key.now.items }
        requires caller { IsCaller (S.sizes steps.old) (S.view steps.old) self.old }
        ensures only { S.only steps.old steps.new }
        ensures called { (restarts : ℕ) × HasCalled (S.sizes steps.old) (insert_wish key.now value) turns turns restarts (S.view steps.old)
            self.new (of_write result) (S.view steps.new) }
        ensures apart { AreApart (S.admits steps.old) → result ≢ overlaps }
    {
        self.room.set(key, value);
        self.make_write(steps, Job::Insert, turns)
    }

    /// Removes the row with the key, in so many turns: how that ended.
    pub fn remove<S: EpochSteps>(&mut self, steps: &mut S, key: &Key, turns: u32) -> WriteOutcome
        requires admitted { S.admits steps.old key.now.items }
        requires caller { IsCaller (S.sizes steps.old) (S.view steps.old) self.old }
        ensures only { S.only steps.old steps.new }
        ensures called { (restarts : ℕ) × HasCalled (S.sizes steps.old) (remove_wish key.now) turns turns restarts (S.view steps.old)
            self.new (of_write result) (S.view steps.new) }
        ensures apart { AreApart (S.admits steps.old) → result ≢ overlaps }
    {
        self.room.set(key, 0);
        self.make_write(steps, Job::Remove, turns)
    }

    /// Makes a write of what the room has, in so many turns.
    #[inline(always)]
    fn make_write<S: EpochSteps>(&mut self, steps: &mut S, job: Job, turns: u32) -> WriteOutcome
        requires admitted { S.admits steps.old self.old.room.row.key.items }
        requires caller { IsCaller (S.sizes steps.old) (S.view steps.old) self.old }
        requires room { IsRoom (S.sizes steps.old) self.old.room }
        requires value { job ≡ removal → self.old.room.row.value ≡ 0 }
        ensures only { S.only steps.old steps.new }
        ensures called { (restarts : ℕ) × HasCalled (S.sizes steps.old) (write_wish job self.old.room.row.key self.old.room.row.value)
            turns turns restarts (S.view steps.old) self.new (of_write result) (S.view steps.new) }
        ensures apart { AreApart (S.admits steps.old) → result ≢ overlaps }
    {
        let Caller {
            own,
            room,
            limbo,
            ..
        } = self;
        prove!(limbo.room() <= 64);
        let mut write = Write::new(job, *own, turns, room, limbo);
        finish_write(steps, &mut write, room, limbo);
        write.ended().unwrap()
    }

    /// Looks for the value of the key, in so many turns: how that ended.
    pub fn get<S: EpochSteps>(&mut self, steps: &mut S, key: &Key, turns: u32) -> SeekOutcome
        requires admitted { S.admits steps.old key.now.items }
        requires caller { IsCaller (S.sizes steps.old) (S.view steps.old) self.old }
        ensures only { S.only steps.old steps.new }
        ensures called { (restarts : ℕ) × HasCalled (S.sizes steps.old) (get_wish key.now) turns turns restarts (S.view steps.old) self.new
            (of_seek result None) (S.view steps.new) }
    {
        let mut seek = Seek::new(Aim::Key, turns);
        finish_seek(
            steps,
            &mut seek,
            key.as_slice(),
            &Bound::End,
            &mut self.path_buffer,
        );
        seek.ended().unwrap()
    }

    /// Looks for the first row from the key on, before the bound, in so many turns: how far it has seen, or none where all turns were used.
    /// What it has read of the row and of its end stays here (`row_seen`, `end_seen`), as does how many turns are left (`turns_left`).
    pub fn look<S: EpochSteps>(
        &mut self,
        steps: &mut S,
        lo: &Key,
        hi: &Bound,
        turns: u32,
    ) -> Option<Reached>
        requires before { is_before (bound_at (to_text lo.now.items)) hi.now ≡ true }
        requires caller { IsCaller (S.sizes steps.old) (S.view steps.old) self.old }
        ensures only { S.only steps.old steps.new }
        ensures called { (restarts : ℕ) × HasCalled (S.sizes steps.old) (look_wish lo.now hi.now) turns turns restarts (S.view steps.old)
            self.new (of_look (option_map (seen_to lo.now.items hi.now self.new.path_buffer) result)) (S.view steps.new) }
    {
        let bytes = lo.as_slice();
        let mut seek = Seek::new(Aim::Range, turns);
        finish_seek(steps, &mut seek, bytes, hi, &mut self.path_buffer);
        self.call = Call::Seek(seek);
        seek.reached()
    }

    /// Where the part of the range ends that the last look has seen, which reached so far.
    #[inline(always)]
    pub fn end_seen(&self, reached: Reached, hi: &Bound) -> Bound
        ensures { result ≡ nearer (bound_at (end_at reached.reach self.now.path_buffer.path.items)) hi.now }
    {
        reached.end(hi, &self.path_buffer)
    }

    /// The row that the last look has seen in its range, which reached so far, if there is one: its key, where it was read, and its value.
    #[inline(always)]
    pub fn row_seen(&self, reached: Reached, lo: &Key, hi: &Bound) -> Option<(&[u8], u64)>
        ensures { option_map (λ r. (key_of r.0.now, r.1)) result ≡
            row_seen lo.now.items hi.now self.now.path_buffer.key.items reached.value }
    {
        reached.row(lo.as_slice(), hi, &self.path_buffer)
    }
}
