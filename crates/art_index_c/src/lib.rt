//! The index for programs that are not Rattle's: a static library, which C declares as its README says.
//!
//! `art_index_open` makes a table and puts all of its passes into an array of the caller's. Each of the other calls takes one of these, an
//! opaque pointer to a `Handle` of `art_handle`, and does one thing with the table. So there is no handle of a table beside those of its
//! passes, and nothing to free but them: the table goes with the last pass that is closed.
//!
//! ```text
//!   art_index_pass passes[3] = {0};
//!   art_index_open("u64,text8", 9, &sizes, passes, 3)     0
//!   art_index_insert(&passes[0], tuple, 2, 7, &stands)    0     it was added
//!   art_index_insert(&passes[1], tuple, 2, 8, &stands)    1     one stands, of value 7
//!   art_index_get(&passes[2], tuple, 2, &found)           0     found is 7
//!   art_index_close(&passes[0])                                 and the others
//! ```
//!
//! A call answers a status: 0, 1 or 2 for what it did, 3 where the opaque pass is empty, and from 4 on the number of a refusal. What
//! cannot be known before a call is tested in it, so that no export asks for anything: how many columns there are and of which kinds, how
//! long texts are and whether they are UTF-8, the schema, the sizes, the limit, an empty pass. What can only be trusted, as that a pointer
//! reaches as many elements as its count says, is in the README.
//!
//! While a call runs its opaque pass is empty, so that a second call into it finds no pass.
#![tactic(auto)]

ghost use Rattle.std.specs.Prelude.{◌≡◌, None, length};
ghost use Rattle.art_index_c.specs.Calls.{Gets, HasNoPass, Inserts, OnHeld, Removes};
ghost use Rattle.art_index_c.specs.Listing.{Lists};
ghost use Rattle.art_index_c.specs.Opening.{Opens, config_of, schema_named};

mod calls;
mod columns;
mod listing;
mod opaque;
mod opening;
mod rows;
mod statuses;
mod unboxed;

use columns::Column;
use opaque::OpaquePass;
use opening::Sizes;
use rows::Row;
use statuses::NO_PASS;
use std::alloc::Global;
use std::mem;

/// Makes an empty table under the schema, and puts all of its passes into `passes`, in the order of their numbers. A pass that one of these
/// held is closed then. Else they are as they were.
#[unsafe(no_mangle)]
pub extern "C" fn art_index_open(
    alloc: Global,
    schema: &[u8],
    sizes: &Sizes,
    passes: &mut [OpaquePass],
) -> u32
    ensures { Opens (schema_named schema.now) (config_of sizes.now (length passes.old)) passes.old result passes.new }
{
    opening::open(alloc, schema, sizes, passes)
}

/// Adds a row, unless one with the tuple stands, whose value is then written to `stands`.
#[unsafe(no_mangle)]
pub extern "C" fn art_index_insert(
    alloc: Global,
    pass: &mut OpaquePass,
    tuple: &[Column],
    value: u64,
    stands: &mut u64,
) -> u32
    ensures { OnHeld
        (λ h k. Inserts h tuple.now value result stands.old stands.new k)
        (HasNoPass result stands.old stands.new)
        pass.old.held
        pass.new.held }
{
    let Some(held) = mem::replace(pass, OpaquePass::none(alloc)).into_box() else {
        return NO_PASS;
    };
    let mut held = held;
    let status = calls::insert(&mut held, tuple, value, stands);
    *pass = OpaquePass::of(held);
    status
}

/// Takes the row with the tuple out, and writes its value to `gone`.
#[unsafe(no_mangle)]
pub extern "C" fn art_index_remove(
    alloc: Global,
    pass: &mut OpaquePass,
    tuple: &[Column],
    gone: &mut u64,
) -> u32
    ensures { OnHeld
        (λ h k. Removes h tuple.now result gone.old gone.new k)
        (HasNoPass result gone.old gone.new)
        pass.old.held
        pass.new.held }
{
    let Some(held) = mem::replace(pass, OpaquePass::none(alloc)).into_box() else {
        return NO_PASS;
    };
    let mut held = held;
    let status = calls::remove(&mut held, tuple, gone);
    *pass = OpaquePass::of(held);
    status
}

/// Writes the value of the row with the tuple to `found`.
#[unsafe(no_mangle)]
pub extern "C" fn art_index_get(
    alloc: Global,
    pass: &mut OpaquePass,
    tuple: &[Column],
    found: &mut u64,
) -> u32
    ensures { OnHeld
        (λ h k. Gets h tuple.now result found.old found.new k)
        (HasNoPass result found.old found.new)
        pass.old.held
        pass.new.held }
{
    let Some(held) = mem::replace(pass, OpaquePass::none(alloc)).into_box() else {
        return NO_PASS;
    };
    let mut held = held;
    let status = calls::get(&mut held, tuple, found);
    *pass = OpaquePass::of(held);
    status
}

/// Lists the rows from the tuple `lo` to the tuple `hi`, both included, in order: as many as there is room for in `rows`, 1 to 100. They
/// stand first in `rows` then, and `listed` is how many they are.
#[unsafe(no_mangle)]
pub extern "C" fn art_index_scan(
    alloc: Global,
    pass: &mut OpaquePass,
    lo: &[Column],
    hi: &[Column],
    rows: &mut [Row],
    listed: &mut usize,
) -> u32
    ensures { OnHeld
        (λ h k. Lists h lo.now hi.now rows.old listed.old result rows.new listed.new k)
        (HasNoPass result listed.old listed.new × (rows.new ≡ rows.old))
        pass.old.held
        pass.new.held }
{
    let Some(held) = mem::replace(pass, OpaquePass::none(alloc)).into_box() else {
        return NO_PASS;
    };
    let mut held = held;
    let status = listing::scan(&mut held, lo, hi, rows, listed);
    *pass = OpaquePass::of(held);
    status
}

/// Ends the pass, if the opaque pass holds one: it is empty then. The table ends with its last pass.
#[unsafe(no_mangle)]
pub extern "C" fn art_index_close(alloc: Global, pass: &mut OpaquePass)
    ensures { pass.new.held ≡ None }
{
    let _ended = mem::replace(pass, OpaquePass::none(alloc)).into_box();
}

#[cfg(test)]
mod tests;
