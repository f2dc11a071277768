//! What a call answers.
ghost use Rattle.std.specs.Prelude.{◌≡◌};
ghost use Rattle.art_index_c.specs.Statuses.{fault_number, open_number, schema_number};
ghost use Rattle.art_index_c.specs.Statuses.{found_status, inserted_status, scan_status};

use art_handle::art_scan::art_table::{Fault, Inserted, OpenFault};
use art_handle::art_scan::{More, ScanFault};
use art_key::SchemaFault;
use art_refusal::Refusal;

/// It was done: opened, inserted, removed, found, or all rows of the range are listed.
pub(crate) const DONE: u32 = 0;
/// A row with the tuple stands, and stays; or as many rows as there is room for are listed.
pub(crate) const STANDS: u32 = 1;
/// No row has the tuple.
pub(crate) const ABSENT: u32 = 2;
/// The opaque pass holds no pass.
pub(crate) const NO_PASS: u32 = 3;

/// The status of an insert that ended so.
pub(crate) fn of_inserted(told: &Result<Inserted, Fault>) -> u32
    ensures { result ≡ inserted_status told.now }
{
    match told {
        Ok(Inserted::New) => DONE,
        Ok(Inserted::Present(_)) => STANDS,
        Err(fault) => of_fault(*fault),
    }
}

/// The status of a removal or a get that ended so.
pub(crate) fn of_found(told: &Result<Option<u64>, Fault>) -> u32
    ensures { result ≡ found_status told.now }
{
    match told {
        Ok(Some(_)) => DONE,
        Ok(None) => ABSENT,
        Err(fault) => of_fault(*fault),
    }
}

/// The status of a scan that ended so.
pub(crate) fn of_scanned(told: Result<More, ScanFault>) -> u32
    ensures { result ≡ scan_status told }
{
    match told {
        Ok(More::End) => DONE,
        Ok(More::Limit) => STANDS,
        Err(fault) => u32::from(Refusal::from(fault).number()),
    }
}

/// The number of a call's refusal.
fn of_fault(fault: Fault) -> u32
    ensures { result ≡ fault_number fault }
{
    u32::from(fault.refusal().number())
}

/// The number of a text that names no schema.
pub(crate) fn of_schema(fault: SchemaFault) -> u32
    ensures { result ≡ schema_number fault }
{
    u32::from(Refusal::from(fault).number())
}

/// The number of a table that is not opened.
pub(crate) fn of_open(fault: OpenFault) -> u32
    ensures { result ≡ open_number fault }
{
    u32::from(Refusal::from(fault).number())
}
