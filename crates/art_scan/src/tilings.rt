//! Where a scan stands between two of its looks.
ghost use Rattle.std.specs.Prelude.{◌≡◌, ◌<◌, ◌≤◌, ◌&&◌, nat_lt, true, IfErr, IfOk, OnOk, None, Some, length};
ghost use Rattle.std.specs.List.{cons_option};
ghost use Rattle.art_key.specs.Bounds.{is_before};
ghost use Rattle.art_key.specs.Histories.{StandsIn, bound_at};
ghost use Rattle.art_key.specs.Spelling.{spelling};
ghost use Rattle.art_scan.specs.Running.{wants_look};
ghost use Rattle.art_scan.specs.Scans.{more_at, scan_fault};
ghost use Rattle.art_scan.specs.Tiles.{with_found};
ghost use Rattle.art_step.specs.Deeds.{bound_of};
ghost use Rattle.art_tree.specs.Looks.{after};

use crate::{More, ScanFault};
use arrayvec::ArrayVec;
use art_key::{Bound, Schema, encode};
use art_model::{Row, Tuple};
use art_path::after;
use art_table::Seen;

/// The most rows that a scan lists.
const ROWS: u64 = 100;

/// What is left of a scan: its range from where the last look ended, how many rows it may list in all, and its turns.
#[derive(Drop)]
pub(crate) struct Tiling {
    pub(crate) from: Bound,
    pub(crate) end: Bound,
    pub(crate) limit: usize,
    pub(crate) turns: u32,
}

impl Tiling {
    /// A scan from the one tuple to the other, both included.
    pub(crate) fn new(
        schema: &Schema,
        lo: &Tuple,
        hi: &Tuple,
        limit: u64,
        turns: u32,
    ) -> Result<Tiling, ScanFault>
        ensures fault { IfErr result (λ f. scan_fault schema.now lo.now hi.now limit ≡ Some f) }
        ensures none { OnOk result (scan_fault schema.now lo.now hi.now limit ≡ None) }
        ensures stands { OnOk result (StandsIn schema.now lo.now × StandsIn schema.now hi.now) }
        ensures range { IfOk result (λ g. (g.from ≡ bound_at schema.now lo.now) ×
            (bound_of g.end ≡ after (spelling schema.now hi.now.items))) }
        ensures order { IfOk result (λ g. is_before g.from g.end ≡ true) }
        ensures limit { IfOk result (λ g. (g.limit ≡ limit) × (0 < limit) × (limit ≤ 100)) }
        ensures turns { IfOk result (λ g. g.turns ≡ turns) }
    {
        let from = Bound::At(encode(schema, lo)?);
        let end = after(encode(schema, hi)?.as_slice());
        if !from.before(&end) {
            return Err(ScanFault::BadRange);
        }
        if limit == 0 || limit > ROWS {
            return Err(ScanFault::BadLimit);
        }
        Ok(Tiling {
            from,
            end,
            limit: limit as usize,
            turns,
        })
    }

    /// Whether it looks on, where so many rows are listed.
    pub(crate) fn goes_on(&self, listed: usize) -> bool
        ensures { result ≡ (nat_lt listed self.now.limit && is_before self.now.from self.now.end) }
    {
        listed < self.limit && self.from.before(&self.end)
    }

    /// Whether it looks on after a look that has seen this, where so many rows were listed before.
    pub(crate) fn goes_on_after(&self, seen: &Seen, listed: &[Row]) -> bool
        requires { length listed.now < 100 }
        ensures { result ≡ wants_look listed.now self.now (Some seen.now) }
    {
        let found = usize::from(seen.row.is_some());
        listed.len() + found < self.limit && seen.hi.before(&self.end)
    }

    /// A look has seen this, and left so many turns.
    pub(crate) fn told(&mut self, seen: Seen, turns: u32, out: &mut ArrayVec<Row, 100>)
        requires { length out.old.items < 100 }
        ensures from { self.new.from ≡ seen.hi }
        ensures turns { self.new.turns ≡ turns }
        ensures same { (self.new.end ≡ self.old.end) × (self.new.limit ≡ self.old.limit) }
        ensures rows { out.new.items ≡ with_found out.old.items seen.row }
    {
        let Seen { lo: _, hi, row } = seen;
        match row {
            Some(row) => out.push(row),
            None => {}
        }
        self.from = hi;
        self.turns = turns;
    }

    /// Whether it stopped at its limit, with so many rows listed.
    pub(crate) fn more(&self, listed: usize) -> More
        ensures { result ≡ more_at listed self.now.limit }
    {
        if listed == self.limit {
            More::Limit
        } else {
            More::End
        }
    }
}
