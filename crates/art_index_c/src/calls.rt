//! Inserts, removals and gets.
ghost use Rattle.art_handle.specs.ArtTable.Jobs.{of_got, of_inserted, of_removed};
ghost use Rattle.art_handle.specs.ArtTable.declared.jobs.Job.TheVariants as jobs;
ghost use Rattle.art_handle.specs.Handles.{IsOfItsTable};
ghost use Rattle.art_index_c.specs.Calls.{Calls, Gets, Inserts, Removes};

use crate::columns::{Column, tuple_of};
use crate::statuses;
use art_handle::Handle;
use art_handle::art_scan::art_table::{Fault, Inserted};

/// The most turns of a call, as many as a session gives.
pub(crate) const TURNS: u32 = 1_000_000;

/// Adds a row, and answers a status.
pub(crate) fn insert(handle: &mut Handle, columns: &[Column], value: u64, stands: &mut u64) -> u32
    requires { IsOfItsTable handle.old }
    ensures { Inserts handle.old columns.now value result stands.old stands.new handle.new }
{
    let told = try_insert(handle, columns, value);
    if let Ok(Inserted::Present(had)) = told {
        *stands = had;
    }
    statuses::of_inserted(&told)
}

/// Takes a row out, and answers a status.
pub(crate) fn remove(handle: &mut Handle, columns: &[Column], gone: &mut u64) -> u32
    requires { IsOfItsTable handle.old }
    ensures { Removes handle.old columns.now result gone.old gone.new handle.new }
{
    let told = try_remove(handle, columns);
    if let Ok(Some(had)) = told {
        *gone = had;
    }
    statuses::of_found(&told)
}

/// Looks for a row, and answers a status.
pub(crate) fn get(handle: &mut Handle, columns: &[Column], found: &mut u64) -> u32
    requires { IsOfItsTable handle.old }
    ensures { Gets handle.old columns.now result found.old found.new handle.new }
{
    let told = try_get(handle, columns);
    if let Ok(Some(has)) = told {
        *found = has;
    }
    statuses::of_found(&told)
}

fn try_insert(handle: &mut Handle, columns: &[Column], value: u64) -> Result<Inserted, Fault>
    requires { IsOfItsTable handle.old }
    ensures { Calls handle.old columns.now (λ t. jobs.Insert t value) of_inserted result handle.new }
{
    let tuple = tuple_of(columns)?;
    handle.insert(&tuple, value, TURNS)
}

fn try_remove(handle: &mut Handle, columns: &[Column]) -> Result<Option<u64>, Fault>
    requires { IsOfItsTable handle.old }
    ensures { Calls handle.old columns.now (λ t. jobs.Remove t) of_removed result handle.new }
{
    let tuple = tuple_of(columns)?;
    handle.remove(&tuple, TURNS)
}

fn try_get(handle: &mut Handle, columns: &[Column]) -> Result<Option<u64>, Fault>
    requires { IsOfItsTable handle.old }
    ensures { Calls handle.old columns.now (λ t. jobs.Get t) of_got result handle.new }
{
    let tuple = tuple_of(columns)?;
    handle.get(&tuple, TURNS)
}
