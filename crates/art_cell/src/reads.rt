//! What was read of one cell.
ghost use Rattle.std.specs.Prelude.{◌≡◌, ◌≢◌, ◌+◌, ◌-◌, ◌%◌, ◌*◌, ◌^◌, ◌<◌, ◌≤◌, ℕ, Some, None, get_or, length, min, replicate, set, unwrap_or};
ghost use Rattle.std.specs.Int.{bit_at};
ghost use Rattle.art_cell.specs.Reads.{AreNoted, word_read};

use crate::cells::WORDS;
use std::marker::Model;

/// How many words the bits of all places take.
const BIT_WORDS: usize = 5;

/// The words of one cell that were read, by their places: each at most once, and at most 266.
///
/// A bit for each place says whether its word was read, so that beginning anew writes five words and no more.
#[derive(Drop)]
pub struct Reads {
    words: [u64; WORDS],
    known: [u64; BIT_WORDS],
}

impl Model for Reads {
    ghost use Rattle.std.specs.Prelude.{ℕ, List, Option};
    ghost use Rattle.art_cell.specs.KnownWords.{known_words};

    ghost Value = { List (Option ℕ) };

    ghost view = { λ r. known_words r.words r.known };
}

impl Reads {
    /// Nothing is read.
    pub fn new() -> Self
        ensures { result ≡ replicate 266 None }
    {
        Reads {
            words: [0; WORDS],
            known: [0; BIT_WORDS],
        }
    }

    /// Forgets all that was read.
    #[inline(always)]
    pub fn clear(&mut self)
        ensures { self.new ≡ replicate 266 None }
    {
        self.known = [0; BIT_WORDS];
    }

    /// The word at the place, if it was read.
    #[inline(always)]
    pub fn get(&self, place: usize) -> Option<u64>
        ensures { result ≡ word_read self.now place }
    {
        if place < WORDS && (self.known[place / 64] >> (place % 64)) % 2 == 1 {
            Some(self.words[place])
        } else {
            None
        }
    }

    /// Notes the word that was read at a place.
    #[inline(always)]
    pub fn note(&mut self, place: usize, word: u64)
        requires { place < 266 }
        ensures { self.new ≡ set self.old place (Some word) }
    {
        self.words[place] = word;
        self.known[place / 64] |= 1 << (place % 64);
    }

    /// How many words from this place on were not read, one after another, as far as one word of bits tells.
    #[inline(always)]
    pub fn unread_from(&self, place: usize) -> usize
        requires { place < 266 }
        ensures within { place % 64 + result ≤ 64 }
        ensures unread { (i : ℕ) → i < result → word_read self.now (place + i) ≡ None }
        ensures some { word_read self.now place ≡ None → 0 < result }
    {
        zeros_from(self.known[place / 64], place % 64)
    }

    /// Notes the words that were read at this place and behind it, one after another. Their bits stand in one word.
    #[inline(always)]
    pub fn note_run(&mut self, place: usize, words: &[u64])
        requires within { place % 64 + length words.now ≤ 64 }
        requires few { place + length words.now ≤ 266 }
        requires some { place < 266 }
        ensures { AreNoted place words.now self.old self.new }
    {
        let first = place % 64;
        let all = &mut self.words[..];
        all[place..place + words.len()].copy_from_slice(words);
        self.known[place / 64] |= mask(first, first + words.len());
    }

    /// Each of the first places, so many, gets the word that was read there, or 0. What stands behind them stays.
    #[inline(always)]
    pub fn copy_to(&self, words: &mut [u64; WORDS], count: usize)
        requires { count ≤ 266 }
        ensures here { (place : ℕ) → place < count → get_or words.new place 0 ≡ unwrap_or (word_read self.now place) 0 }
        ensures behind { (place : ℕ) → count ≤ place → get_or words.new place 0 ≡ get_or words.old place 0 }
    {
        for group in 0..count.div_ceil(64) {
            self.copy_group(words, group, count);
        }
    }

    /// Copies so to the places of one word of bits, below the count.
    #[inline(always)]
    fn copy_group(&self, words: &mut [u64; WORDS], group: usize, count: usize)
        requires some { 64 * group < count }
        requires few { count ≤ 266 }
        ensures below { (place : ℕ) → place < 64 * group → get_or words.new place 0 ≡ get_or words.old place 0 }
        ensures here { (place : ℕ) → 64 * group ≤ place → place < min count (64 * group + 64) →
            get_or words.new place 0 ≡ unwrap_or (word_read self.now place) 0 }
        ensures behind { (place : ℕ) → min count (64 * group + 64) ≤ place → get_or words.new place 0 ≡ get_or words.old place 0 }
    {
        let from = 64 * group;
        let end = count.min(from + 64);
        let length = bit_length(self.known[group]).min(end - from);
        self.copy_first(words, group, length);
        clear(words, from + length, end);
    }

    /// Copies so to the first places of one word of bits, so many.
    #[inline(always)]
    fn copy_first(&self, words: &mut [u64; WORDS], group: usize, count: usize)
        requires group { group < 5 }
        requires few { count ≤ 64 }
        requires room { 64 * group + count ≤ 266 }
        ensures below { (place : ℕ) → place < 64 * group → get_or words.new place 0 ≡ get_or words.old place 0 }
        ensures here { (place : ℕ) → 64 * group ≤ place → place < 64 * group + count →
            get_or words.new place 0 ≡ unwrap_or (word_read self.now place) 0 }
        ensures behind { (place : ℕ) → 64 * group + count ≤ place → get_or words.new place 0 ≡ get_or words.old place 0 }
    {
        let from = 64 * group;
        let end = from + count;
        // the version word of a cell, which is the first one, is never read
        if count > 0 && self.known[group] | 1 == mask(0, count) {
            let all = &mut words[..];
            all[from..end].copy_from_slice(&self.words[from..end]);
            words[from] = self.get(from).unwrap_or(0);
        } else {
            self.copy_each(words, from, end);
        }
    }

    /// Copies so to the places from one on, before another.
    #[inline(always)]
    fn copy_each(&self, words: &mut [u64; WORDS], from: usize, to: usize)
        requires { to ≤ 266 }
        ensures below { (place : ℕ) → place < from → get_or words.new place 0 ≡ get_or words.old place 0 }
        ensures here { (place : ℕ) → from ≤ place → place < to → get_or words.new place 0 ≡ unwrap_or (word_read self.now place) 0 }
        ensures behind { (place : ℕ) → to ≤ place → get_or words.new place 0 ≡ get_or words.old place 0 }
    {
        for place in from..to {
            words[place] = self.get(place).unwrap_or(0);
        }
    }
}

/// Each word from one on, before another, becomes 0.
#[inline(always)]
fn clear(words: &mut [u64; WORDS], from: usize, to: usize)
    requires { to ≤ 266 }
    ensures below { (place : ℕ) → place < from → get_or words.new place 0 ≡ get_or words.old place 0 }
    ensures here { (place : ℕ) → from ≤ place → place < to → get_or words.new place 0 ≡ 0 }
    ensures behind { (place : ℕ) → to ≤ place → get_or words.new place 0 ≡ get_or words.old place 0 }
{
    for place in from..to {
        words[place] = 0;
    }
}

/// How many bits there are up to the highest that is 1.
fn bit_length(bits: u64) -> usize
    ensures within { result ≤ 64 }
    ensures zero { (i : ℕ) → result ≤ i → bit_at bits i ≡ 0 }
{
    64 - bits.leading_zeros() as usize
}

/// How many bits from this one on are 0, one after another.
#[inline(always)]
fn zeros_from(bits: u64, first: usize) -> usize
    requires { first < 64 }
    ensures within { first + result ≤ 64 }
    ensures zero { (i : ℕ) → i < result → bit_at bits (first + i) ≡ 0 }
    ensures some { bit_at bits first ≡ 0 → 0 < result }
{
    let zeros = (bits >> first).trailing_zeros();
    (zeros as usize).min(64 - first)
}

/// The bits from one on, before another.
#[inline(always)]
fn mask(low: usize, high: usize) -> u64
    requires order { low ≤ high }
    requires low { low < 64 }
    requires high { high ≤ 64 }
    ensures { result ≡ 2 ^ high - 2 ^ low }
{
    let below = 1 << low;
    if high < 64 {
        (1 << high) - below
    } else {
        u64::MAX << low
    }
}
