//! Scans.
ghost use Rattle.std.specs.Prelude.{◌≤◌, OnOk, length};
ghost use Rattle.art_handle.specs.Handles.{IsOfItsTable};
ghost use Rattle.art_index_c.specs.Listing.{Lists, ScansBetween};

use crate::calls::TURNS;
use crate::columns::{Column, tuple_of};
use crate::rows::{Row, write_over};
use crate::statuses;
use arrayvec::ArrayVec;
use art_handle::Handle;
use art_handle::art_scan::{More, ScanFault};
use art_model::Row as TypedRow;

/// Lists rows, and answers a status.
pub(crate) fn scan(
    handle: &mut Handle,
    lo: &[Column],
    hi: &[Column],
    rows: &mut [Row],
    listed: &mut usize,
) -> u32
    requires { IsOfItsTable handle.old }
    ensures { Lists handle.old lo.now hi.now rows.old listed.old result rows.new listed.new handle.new }
{
    let mut found = ArrayVec::new();
    let told = try_scan(handle, lo, hi, rows.len(), &mut found);
    if told.is_ok() {
        *listed = found.len();
        write_over(found.as_slice(), rows);
    }
    statuses::of_scanned(told)
}

fn try_scan(
    handle: &mut Handle,
    lo: &[Column],
    hi: &[Column],
    limit: usize,
    found: &mut ArrayVec<TypedRow, 100>,
) -> Result<More, ScanFault>
    requires { IsOfItsTable handle.old }
    ensures scans { ScansBetween handle.old lo.now hi.now limit found.new.items result handle.new }
    ensures few { OnOk result (length found.new.items ≤ limit) }
{
    let lo = tuple_of(lo)?;
    let hi = tuple_of(hi)?;
    handle.scan(&lo, &hi, limit as u64, TURNS, found)
}
