//! Scans that are made at once.
ghost use Rattle.std.specs.Prelude.{◌≡◌, ℕ, ◌<◌, ◌≤◌, length, take};
ghost use Rattle.art_model.specs.Rows.{Tuple as TupleOf};
ghost use Rattle.art_scan.specs.Scans.{Scans};
ghost use Rattle.art_scan.specs.Tilings.{IsScanning};
ghost use Rattle.art_table.specs.Jobs.{IsOf};
ghost use Rattle.art_table.specs.Tables.{IsPassOf};
ghost use Rattle.art_table.specs.declared.jobs.Outcome.TheVariants.{Seen as saw};
ghost use Rattle.art_table.specs.declared.passes.Pass.{Pass as PassOf};

use crate::ScanFault;
use crate::tilings::Tiling;
use arrayvec::ArrayVec;
use art_model::{Row, Tuple};
use art_table::{Outcome, Pass, Seen, Table, look};

/// Whether a scan stopped at its limit, or at the end of its range.
#[derive(Clone, Copy, Debug, PartialEq, Eq)]
pub enum More {
    /// As many rows as the limit are listed; there may be more.
    Limit,
    /// Nothing of the range is left, and fewer rows than the limit are listed.
    End,
}

/// Lists the rows from the tuple `lo` to the tuple `hi`, both included, in order: at most so many, 1 to 100.
///
/// The range is tiled by looks, each of which begins where the one before ended, and pins its pass anew; between two of them the table
/// may change. The turns add up over the looks. `out` has just those rows then, whatever it had, and none after a refusal.
pub fn scan(
    table: &Table,
    pass: &mut Pass,
    lo: &Tuple,
    hi: &Tuple,
    limit: u64,
    turns: u32,
    out: &mut ArrayVec<Row, 100>,
) -> Result<More, ScanFault>
    requires { IsPassOf table.now pass.old }
    ensures pass { IsPassOf table.now pass.new }
    ensures scans { Scans table.now lo.now hi.now limit turns pass.old out.new.items result pass.new }
{
    match Tiling::new(table.schema(), lo, hi, limit, turns) {
        Ok(tiling) => look_to_the_end(table, pass, tiling, 0, out),
        Err(fault) => {
            out.clear();
            Err(fault)
        }
    }
}

/// Makes all looks that are left of a scan, of which so many rows are listed. The rows behind these are of an earlier scan, and are written
/// over: an empty row is dear to make, and to take away.
pub(crate) fn look_to_the_end(
    table: &Table,
    pass: &mut Pass,
    tiling: Tiling,
    listed: usize,
    out: &mut ArrayVec<Row, 100>,
) -> Result<More, ScanFault>
    requires few { listed ≤ length out.old.items }
    requires scanning { (lo : TupleOf) × (hi : TupleOf) × (limit : ℕ) × (turns : ℕ) × (p : PassOf) ×
        IsScanning table.now lo hi limit turns p pass.old (take listed out.old.items) tiling }
    ensures pass { IsPassOf table.now pass.new }
    ensures scans { (lo hi : TupleOf) (limit turns : ℕ) (p : PassOf) →
        IsScanning table.now lo hi limit turns p pass.old (take listed out.old.items) tiling →
        Scans table.now lo hi limit turns p out.new.items result pass.new }
{
    let mut tiling = tiling;
    let mut listed = listed;
    while tiling.goes_on(listed) {
        make_room(out, listed);
        let Some(row) = out.get_mut(listed) else {
            unreachable!()
        };
        let Ok(found) = look(
            table,
            pass,
            &mut tiling.from,
            &tiling.end,
            tiling.turns,
            row,
        ) else {
            out.clear();
            return Err(ScanFault::Busy);
        };
        listed += usize::from(found);
        tiling.turns = pass.turns_left();
    }
    out.truncate(listed);
    Ok(tiling.more(listed))
}

/// There is a row to write over behind so many.
#[inline(always)]
fn make_room(out: &mut ArrayVec<Row, 100>, listed: usize)
    requires few { listed ≤ length out.old.items }
    requires room { listed < 100 }
    ensures more { listed < length out.new.items }
    ensures same { take listed out.new.items ≡ take listed out.old.items }
{
    if listed == out.len() {
        out.push(Row::default());
    }
}

/// What a look has seen, by its outcome.
pub(crate) fn seen_in(outcome: Outcome) -> Seen
    requires { IsOf saw outcome }
    ensures { saw result ≡ outcome }
{
    match outcome {
        Outcome::Seen(seen) => seen,
        _ => unreachable!(),
    }
}
