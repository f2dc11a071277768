//! All words at opening, for whoever keeps them.
ghost use Rattle.std.specs.Prelude.{◌≡◌, ◌*◌, ◌+◌, ◌<◌, ◌≤◌, IfOk};
ghost use Rattle.art_step.specs.OpeningWords.{first_bits, opening_free_word, opening_node_word, opening_word, opening_words, version_or_zero};
ghost use Rattle.art_step.specs.Views.{last_counter};
ghost use Rattle.art_step.specs.WordPlaces.{cells_end, first_cell, first_free_word, free_words_end};
ghost use Rattle.art_cell.specs.declared.cells.Pool.TheVariants.{Leaves as leaf_pool, N4 as n4_pool};

use crate::{Sizes, pool_of_layout};
use art_cell::Pool;
use art_model::NoMemory;
use std::alloc::Global;

/// The version at the first word of each cell of so many words, and 0 at the others.
fn version_or_zero(index: usize, each: usize, version: u64) -> u64
    requires { 0 < each }
    ensures { result ≡ version_or_zero index each version }
{
    if index % each == 0 { version } else { 0 }
}

/// A word with its first bits set, so many of them.
fn first_bits(count: usize) -> u64
    ensures { result ≡ first_bits count }
{
    if count < 64 {
        (1 << count) - 1
    } else {
        u64::MAX
    }
}

/// A word of the nodes.
fn node_word(sizes: Sizes, counter_start: u64, place: usize) -> u64
    requires counter { counter_start ≤ last_counter }
    requires from { first_cell sizes n4_pool ≤ place }
    requires before { place < cells_end sizes }
    ensures { result ≡ opening_node_word sizes counter_start place }
{
    let version = 4 * counter_start + 1;
    let layout = sizes.layout_of_place(place);
    let first = sizes.first_cell(pool_of_layout(layout));
    version_or_zero(place - first, layout.size(), version)
}

/// A word of free numbers.
fn free_word(sizes: Sizes, place: usize) -> u64
    requires from { first_free_word sizes leaf_pool ≤ place }
    requires before { place < free_words_end sizes }
    ensures { result ≡ opening_free_word sizes place }
{
    let pool = sizes.pool_of_free_place(place);
    let before = 64 * (place - sizes.first_free_word(pool));
    first_bits(sizes.pool_size(pool) as usize - before)
}

/// The word at a place at opening.
fn opening_word(sizes: Sizes, counter_start: u64, place: usize) -> u64
    requires { counter_start ≤ last_counter }
    ensures { result ≡ opening_word sizes counter_start place }
{
    if place == 0 {
        4 * counter_start
    } else if place < sizes.first_cell(Pool::N4) {
        0
    } else if place < sizes.cells_end() {
        node_word(sizes, counter_start, place)
    } else if place < sizes.free_words_end() {
        free_word(sizes, place)
    } else if place == sizes.epoch_place() {
        1
    } else {
        0
    }
}

/// The words of all cells, free numbers, the epoch and the passes. The anchor names no root, its counter and those of all
/// nodes begin at `counter_start`, all numbers are free, and each pass knows nothing.
pub fn opening_words(alloc: Global, sizes: Sizes, counter_start: u64) -> Result<Vec<u64>, NoMemory>
    requires { counter_start ≤ last_counter }
    ensures { IfOk result (λ words. words.items ≡ opening_words sizes counter_start) }
{
    let mut words = Vec::with_capacity(alloc, sizes.word_count())?;
    for place in 0..sizes.word_count() {
        words.push(opening_word(sizes, counter_start, place))?;
    }
    Ok(words)
}
