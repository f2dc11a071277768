//! How many numbers of a pool are linked, free and in limbo.
ghost use Rattle.std.specs.Prelude.{◌≡◌, List};
ghost use Rattle.std.specs.List.{count_by};
ghost use Rattle.art_epoch.specs.Limbo.{places_of};
ghost use Rattle.art_shared.specs.declared.pass.Pass.{Pass as PassOf};
ghost use Rattle.art_step.specs.Views.{is_free, pool_of};
ghost use Rattle.art_step.specs.WordPlaces.{pool_size};
ghost use Rattle.art_closed.specs.Cells.{HasAllWords, memory_in, sizes_left};
ghost use Rattle.art_closed.specs.Counts.{HasWaiting, IsCounted, first_numbers, waiting_among};

use crate::cells::Reader;
use art_cell::{Link, Pool};
use art_epoch::Limbo;
use art_shared::Ended;
use art_step::pool_of_layout;

/// How many places a limbo has.
const PLACES: u32 = 64;

/// How many numbers of a pool are linked in the tree, free, and in the limbos of all passes.
#[derive(Clone, Copy, Debug, PartialEq, Eq)]
pub struct PoolCount {
    pub linked: u32,
    pub free: u32,
    pub in_limbo: u32,
}

/// Counts the numbers of a pool of a closed table, of which so many wait in limbos of its passes, and each has one fate. This takes
/// no memory.
pub fn count(words: &Ended, pool: Pool, waiting: u32) -> PoolCount
    requires whole { HasAllWords (sizes_left words.now) words.now }
    requires known { (passes : List PassOf) ×
        HasWaiting (sizes_left words.now) (memory_in (sizes_left words.now) words.now) pool waiting passes }
    ensures { (passes : List PassOf) → HasWaiting (sizes_left words.now) (memory_in (sizes_left words.now) words.now) pool waiting passes
        → IsCounted (sizes_left words.now) (memory_in (sizes_left words.now) words.now) passes pool result }
{
    let sizes = words.sizes();
    let reader = Reader { words, sizes };
    let free = free_numbers(&reader, pool);
    PoolCount {
        linked: sizes.pool_size(pool) - free - waiting,
        free,
        in_limbo: waiting,
    }
}

/// How many numbers of the pool are free.
fn free_numbers(reader: &Reader, pool: Pool) -> u32
    ensures { result ≡ count_by (is_free (memory_in reader.now.sizes reader.now.words.now)) (first_numbers pool (pool_size reader.now.sizes pool)) }
{
    let mut free = 0;
    for number in 0..reader.sizes.pool_size(pool) {
        if reader.is_free(pool, number) {
            free += 1;
        }
    }
    free
}

/// How many numbers of the pool wait in the limbo.
pub fn waiting_in(limbo: &Limbo, pool: Pool) -> u32
    ensures { result ≡ waiting_among pool (places_of limbo.now) }
{
    let places = limbo.places();
    let filled = PLACES - limbo.room();
    let mut waiting = 0;
    for index in 0..filled {
        if pool_of(places[index as usize].link) == pool {
            waiting += 1;
        }
    }
    waiting
}

/// The pool that the number is of.
fn pool_of(link: Link) -> Pool
    ensures { result ≡ pool_of link }
{
    match link {
        Link::Leaf(_) => Pool::Leaves,
        Link::Node(node) => pool_of_layout(node.layout),
    }
}
