//! A scan that goes on by a look.
ghost use Rattle.std.specs.Prelude.{◌≡◌, ℕ, ◌<◌, IfErr, IfOk, IfSome, OnOk, OnSome, length, true, []};
ghost use Rattle.art_key.specs.Bounds.{is_before};
ghost use Rattle.art_model.specs.Rows.{Tuple as TupleOf};
ghost use Rattle.art_model.specs.declared.commands.Command.TheVariants.{Scan};
ghost use Rattle.art_scan.specs.Running.{HasDecided, IsGivenUp, IsLooking, IsRunning, LooksNoMore, restarts_in, restarts_of_looks, seen_by_look, wants_look};
ghost use Rattle.art_scan.specs.Scans.{Scans};
ghost use Rattle.art_table.specs.Attempts.{Progresses, answer_of};
ghost use Rattle.art_table.specs.Calls.{Ends, IsAttempt};
ghost use Rattle.art_table.specs.Tables.{IsPassOf, sizes_in, turns_left_by, view_of};
ghost use Rattle.art_table.specs.declared.jobs.Job.{Job as JobOf};
ghost use Rattle.art_table.specs.declared.jobs.Job.TheVariants.{Look as look_job};
ghost use Rattle.art_table.specs.declared.jobs.Outcome.TheVariants.{Seen as saw};
ghost use Rattle.art_table.specs.declared.passes.Pass.{Pass as PassOf};

use crate::running::Stage;
use crate::scans::{look_to_the_end, seen_in};
use crate::tilings::Tiling;
use crate::{More, Running, ScanFault};
use arrayvec::ArrayVec;
use art_model::Row;
use art_table::{Attempt, Outcome, Pass, Progress, Seen, Table, start_look};

/// A scan that goes on by a look, or has ended with it.
pub(crate) struct Looking {
    /// The scan as it was before the look.
    pub(crate) tiling: Tiling,
    /// The look.
    pub(crate) attempt: Attempt,
    /// How often the looks before it restarted.
    pub(crate) restarts: u64,
}

impl Looking {
    /// The first look of a scan begins.
    pub(crate) fn first(table: &Table, pass: Pass, tiling: Tiling) -> Looking
        requires pass { IsPassOf table.now pass }
        requires range { is_before tiling.from tiling.end ≡ true }
        ensures tiling { result.tiling ≡ tiling }
        ensures look { IsAttempt table.now (look_job tiling.from tiling.end) tiling.turns pass result.attempt }
        ensures still { view_of result.attempt.pass ≡ view_of pass }
    {
        let attempt = start_look(table, pass, &tiling.from, &tiling.end, tiling.turns);
        Looking {
            tiling,
            attempt,
            restarts: 0,
        }
    }

    /// Makes the next step of the look, or the first of the next look, or none where the scan has ended.
    pub(crate) fn step(&mut self, table: &Table, rows: &mut ArrayVec<Row, 100>) -> Progress
        requires { (lo : TupleOf) × (hi : TupleOf) × (limit : ℕ) × (turns : ℕ) × (p : PassOf) ×
            IsLooking table.now lo hi limit turns p rows.old.items self.old }
        ensures made { Progresses (sizes_in table.now) (view_of self.old.attempt.pass) (view_of self.new.attempt.pass) result }
        ensures ended { result ≡ Progress.Ended → LooksNoMore table.now rows.new.items self.new }
        ensures goes_on { (lo hi : TupleOf) (limit turns : ℕ) (p : PassOf) →
            IsLooking table.now lo hi limit turns p rows.old.items self.old →
            IsLooking table.now lo hi limit turns p rows.new.items self.new }
    {
        'looks: loop {
            match self.attempt.step(table) {
                Progress::Made { kind, event } => return Progress::Made { kind, event },
                Progress::Ended => {}
            }
            let Some(seen) = self.seen(table) else {
                return Progress::Ended;
            };
            if !self.tiling.goes_on_after(&seen, rows.as_slice()) {
                return Progress::Ended;
            }
            self.look_on(table, seen, rows);
        }
    }

    /// What the look has seen, where it has ended and was answered.
    fn seen(&self, table: &Table) -> Option<Seen>
        requires { (j : JobOf) × (turns : ℕ) × (p : PassOf) × IsAttempt table.now j turns p self.now.attempt }
        ensures seen { result ≡ seen_by_look (answer_of table.now self.now.attempt) }
        ensures pass { OnSome result (IsPassOf table.now self.now.attempt.pass) }
        ensures ends { IfSome result (λ s. (j : JobOf) (turns : ℕ) (p : PassOf) → IsAttempt table.now j turns p self.now.attempt →
            Ends table.now j turns p (Ok (saw s)) self.now.attempt.pass) }
    {
        match self.attempt.answer(table) {
            Some(Ok(Outcome::Seen(seen))) => Some(seen),
            _ => None,
        }
    }

    /// The look has ended, and has seen this, after which another is wanted: what it found is listed, and the next look begins.
    fn look_on(&mut self, table: &Table, seen: Seen, rows: &mut ArrayVec<Row, 100>)
        requires room { length rows.old.items < 100 }
        requires pass { IsPassOf table.now self.old.attempt.pass }
        requires wanted { wants_look rows.old.items self.old.tiling (Some seen) ≡ true }
        ensures still { view_of self.new.attempt.pass ≡ view_of self.old.attempt.pass }
        ensures turns { self.new.tiling.turns ≡ turns_left_by self.old.attempt.pass }
        ensures goes_on { (lo hi : TupleOf) (limit turns : ℕ) (p : PassOf) →
            (on : IsLooking table.now lo hi limit turns p rows.old.items self.old) →
            Ends table.now (look_job self.old.tiling.from self.old.tiling.end) self.old.tiling.turns on.began (Ok (saw seen)) self.old.attempt.pass →
            IsLooking table.now lo hi limit turns p rows.new.items self.new }
    {
        self.restarts = self.restarts.saturating_add(self.attempt.restarts());
        self.tiling.told(seen, self.attempt.turns_left(), rows);
        let Tiling {
            from,
            end,
            turns,
            ..
        } = &self.tiling;
        self.attempt.look_on(table, from, end, *turns);
    }

    /// Makes all steps that are left of the scan.
    pub(crate) fn finish(
        self,
        table: &Table,
        rows: &mut ArrayVec<Row, 100>,
    ) -> (Pass, Result<More, ScanFault>)
        requires { (lo : TupleOf) × (hi : TupleOf) × (limit : ℕ) × (turns : ℕ) × (p : PassOf) ×
            IsLooking table.now lo hi limit turns p rows.old.items self }
        ensures pass { IsPassOf table.now result.0 }
        ensures scans { (lo hi : TupleOf) (limit turns : ℕ) (p : PassOf) → IsLooking table.now lo hi limit turns p rows.old.items self →
            Scans table.now lo hi limit turns p rows.new.items result.1 result.0 }
    {
        let Looking {
            mut tiling,
            attempt,
            restarts: _,
        } = self;
        let (mut pass, answer) = attempt.finish(table);
        let Ok(outcome) = answer else {
            rows.clear();
            return (pass, Err(ScanFault::Busy));
        };
        tiling.told(seen_in(outcome), pass.turns_left(), rows);
        let listed = rows.len();
        let result = look_to_the_end(table, &mut pass, tiling, listed, rows);
        (pass, result)
    }

    /// Gives the scan up, where its last look is not decided: the pass comes back, and nothing was told but looks. Else the scan has
    /// ended.
    pub(crate) fn abandon(
        self,
        table: &Table,
        rows: &mut ArrayVec<Row, 100>,
    ) -> Result<Pass, Running>
        requires { (lo : TupleOf) × (hi : TupleOf) × (limit : ℕ) × (turns : ℕ) × (p : PassOf) ×
            IsLooking table.now lo hi limit turns p rows.old.items self }
        ensures given { IfOk result (λ q. (lo hi : TupleOf) (limit turns : ℕ) (p : PassOf) →
            IsLooking table.now lo hi limit turns p rows.old.items self → IsGivenUp table.now (Scan lo hi limit) turns p q) }
        ensures cleared { OnOk result (rows.new.items ≡ []) }
        ensures over { IfErr result (λ r. (lo hi : TupleOf) (limit turns : ℕ) (p : PassOf) →
            IsLooking table.now lo hi limit turns p rows.old.items self → IsRunning table.now (Scan lo hi limit) turns p r rows.new.items) }
        ensures why { IfErr result (λ r. (p : PassOf) → HasDecided p r) }
        ensures restarts { IfErr result (λ r. restarts_in r ≡ restarts_of_looks self) }
    {
        let Looking {
            mut tiling,
            attempt,
            restarts,
        } = self;
        let attempt = match attempt.abandon(table) {
            Ok(pass) => {
                rows.clear();
                return Ok(pass);
            }
            Err(attempt) => attempt,
        };
        let restarts = restarts.saturating_add(attempt.restarts());
        let (pass, answer) = attempt.finish(table);
        let Ok(outcome) = answer else {
            rows.clear();
            return Ok(pass);
        };
        tiling.told(seen_in(outcome), pass.turns_left(), rows);
        if tiling.goes_on(rows.len()) {
            rows.clear();
            return Ok(pass);
        }
        let more = tiling.more(rows.len());
        Err(Running {
            stage: Stage::Over(pass, Ok(more), restarts),
        })
    }

    /// How often it restarted, all looks together.
    pub(crate) fn restarts(&self) -> u64
        ensures { result ≡ restarts_of_looks self.now }
    {
        self.restarts.saturating_add(self.attempt.restarts())
    }
}
