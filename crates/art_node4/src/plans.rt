//! The words to write for a child more, another child, and one less.
ghost use Rattle.std.specs.Prelude.{◌≡◌, ◌<◌, ◌≤◌, ◌↔◌, ◌++◌, ◌+◌, ◌/◌, ℕ, Some, None, true, false, length, ◌-◌, ◌*◌, ◌^◌};
ghost use Rattle.art_cell.specs.Words.{child_of, first_child, size, byte_of, places, key_byte};
ghost use Rattle.art_cell.specs.Bodies.{IsFull};
ghost use Rattle.art_cell.specs.Reads.{IsBodyOf, IsPlan, changes, most_writes, with_child, without_child, word_of};
ghost use Rattle.art_node4.specs.Edits.{IsEdit, changed, changes_to, edit_position, words_after, children_after, key_word, most_used};
ghost use Rattle.art_node4.specs.Sorted.{layout_of, entry_or_none, Holds};

use crate::Sorted;
use crate::keys::{put_in, take_out};
use crate::lists::{Children, count, entry_at, entry_or_none, position};
use crate::searches::{FIRST_KEYS, HEADER};
use art_cell::{Body, Entry, Write, Writes};

/// Makes the writes the words by which the byte, which has none, gets this child. False, with nothing changed, where each position
/// is in use.
#[inline(always)]
pub fn plan_add(sorted: Sorted, body: &Body, byte: u8, child: u64, writes: &mut Writes) -> bool
    requires body { IsBodyOf (layout_of sorted) body.now }
    requires free { child_of (layout_of sorted) (word_of body.now) byte ≡ None }
    requires child { 0 < child }
    ensures full { (result ≡ false) ↔ IsFull (layout_of sorted) (word_of body.now) }
    ensures plan { result ≡ true → IsPlan (layout_of sorted) (word_of body.now) writes.new.items
        (with_child (child_of (layout_of sorted) (word_of body.now)) byte child) }
    ensures refused { result ≡ false → writes.new ≡ writes.old }
    ensures few { result ≡ true → length writes.new.items ≤ most_writes }
{
    if count(body) == sorted.positions() {
        return false;
    }
    let at = position(sorted, body, byte);
    plan(
        sorted,
        body,
        Edit::Add {
            at,
            entry: Entry { byte, child },
        },
        writes,
    );
    true
}

/// Makes the writes the words by which the byte, which has a child, gets this one.
pub fn plan_set(sorted: Sorted, body: &Body, byte: u8, child: u64, writes: &mut Writes)
    requires body { IsBodyOf (layout_of sorted) body.now }
    requires there { (c : ℕ) × (child_of (layout_of sorted) (word_of body.now) byte ≡ Some c) }
    requires child { 0 < child }
    ensures plan { IsPlan (layout_of sorted) (word_of body.now) writes.new.items
        (with_child (child_of (layout_of sorted) (word_of body.now)) byte child) }
    ensures one { length writes.new.items ≤ 1 }
{
    let place = sorted.first_child() + position(sorted, body, byte);
    writes.clear();
    push_changed(body, place, child, writes);
}

/// Makes the writes the words by which the byte, which has a child, has none.
#[inline(always)]
pub fn plan_drop(sorted: Sorted, body: &Body, byte: u8, writes: &mut Writes)
    requires body { IsBodyOf (layout_of sorted) body.now }
    requires there { (c : ℕ) × (child_of (layout_of sorted) (word_of body.now) byte ≡ Some c) }
    ensures plan { IsPlan (layout_of sorted) (word_of body.now) writes.new.items
        (without_child (child_of (layout_of sorted) (word_of body.now)) byte) }
    ensures few { length writes.new.items ≤ most_writes }
{
    let at = position(sorted, body, byte);
    plan(sorted, body, Edit::Remove(at), writes);
}

/// Makes the writes the words that differ after the edit: of the header, and of key bytes and children from its position on.
#[inline(always)]
fn plan(sorted: Sorted, body: &Body, edit: Edit, writes: &mut Writes)
    requires { IsEdit sorted body.now edit }
    ensures { writes.new.items ≡ changes (layout_of sorted) (word_of body.now) (words_after sorted body.now edit) }
{
    let first_child = sorted.first_child();
    let keys = FIRST_KEYS + edit.position() / 8;
    let children = first_child + edit.position();
    // no position is in use behind these, before the edit or after it
    let end = first_child + edit.most_used(count(body));
    writes.clear();
    push_changed(body, HEADER, header_after(sorted, body, edit), writes);
    push_all(sorted, body, edit, keys, first_child, writes);
    push_all(sorted, body, edit, children, end, writes);
}

/// Adds the words that differ after the edit, from a place on, before another.
#[inline(always)]
fn push_all(sorted: Sorted, body: &Body, edit: Edit, from: usize, to: usize, writes: &mut Writes)
    requires edit { IsEdit sorted body.now edit }
    requires low { 10 + edit_position edit / 8 ≤ from }
    requires order { from ≤ to }
    requires within { to ≤ size (layout_of sorted) }
    requires so_far { writes.old.items ≡ changes_to (word_of body.now) (words_after sorted body.now edit) from }
    ensures { writes.new.items ≡ changes_to (word_of body.now) (words_after sorted body.now edit) to }
{
    for place in from..to {
        push_changed(body, place, word_after(sorted, body, edit, place), writes);
    }
}

/// Adds the word at a place, where it is another one.
#[inline(always)]
fn push_changed(body: &Body, place: usize, value: u64, writes: &mut Writes)
    requires place { place < 266 }
    requires room { length writes.old.items < 266 }
    ensures { writes.new.items ≡ writes.old.items ++ changed (word_of body.now) place value }
{
    if body.words[place] != value {
        writes.push(Write { place, value });
    }
}

/// The bytes of eight positions from one on, packed in a word.
fn key_word(list: &Children, from: usize) -> u64
    requires { from < 256 }
    ensures { (i : ℕ) → i < 8 → byte_of result i ≡ (entry_or_none list.now.items (from + i)).byte }
{
    let mut bytes = [0u8; 8];
    for index in 0..8 {
        bytes[index] = entry_or_none(list, from + index).byte;
    }
    u64::from_be_bytes(bytes)
}

/// Writes the words of key bytes.
fn write_keys(sorted: Sorted, body: &mut Body, list: &Children)
    ensures keys { (i : ℕ) → i < 8 * (first_child (layout_of sorted) - 10) →
        key_byte (word_of body.new) i ≡ (entry_or_none list.now.items i).byte }
    ensures before { (p : ℕ) → p < 10 → word_of body.new p ≡ word_of body.old p }
    ensures after { (p : ℕ) → first_child (layout_of sorted) ≤ p → word_of body.new p ≡ word_of body.old p }
    ensures fits { ((p : ℕ) → word_of body.old p < 2 ^ 64) → (p : ℕ) → word_of body.new p < 2 ^ 64 }
    ensures layout { body.new.layout ≡ body.old.layout }
{
    for place in FIRST_KEYS..sorted.first_child() {
        body.words[place] = key_word(list, (place - FIRST_KEYS) * 8);
    }
}

/// Writes the child words.
fn write_children(sorted: Sorted, body: &mut Body, list: &Children)
    ensures children { (i : ℕ) → i < places (layout_of sorted) →
        word_of body.new (first_child (layout_of sorted) + i) ≡ (entry_or_none list.now.items i).child }
    ensures before { (p : ℕ) → p < first_child (layout_of sorted) → word_of body.new p ≡ word_of body.old p }
    ensures after { (p : ℕ) → first_child (layout_of sorted) + places (layout_of sorted) ≤ p → word_of body.new p ≡ word_of body.old p }
    ensures fits { ((p : ℕ) → word_of body.old p < 2 ^ 64) → (p : ℕ) → word_of body.new p < 2 ^ 64 }
    ensures layout { body.new.layout ≡ body.old.layout }
{
    let first_child = sorted.first_child();
    for index in 0..sorted.positions() {
        body.words[first_child + index] = entry_or_none(list, index).child;
    }
}

/// Writes the count, the key bytes and the children of a node, and leaves its prefix.
pub(crate) fn write(sorted: Sorted, body: &mut Body, list: &Children)
    requires { length list.now.items ≤ places (layout_of sorted) }
    ensures holds { Holds (layout_of sorted) (word_of body.old) list.now.items (word_of body.new) }
    ensures fits { ((p : ℕ) → word_of body.old p < 2 ^ 64) → (p : ℕ) → word_of body.new p < 2 ^ 64 }
    ensures layout { body.new.layout ≡ body.old.layout }
{
    body.words[HEADER] = body.words[HEADER] / 512 * 512 + list.len() as u64;
    write_keys(sorted, body, list);
    write_children(sorted, body, list);
}

/// One child more, or one less, at a position.
#[derive(Clone, Copy)]
pub(crate) enum Edit {
    /// This one comes, before the one that stands there.
    Add { at: usize, entry: Entry },
    /// The one that stands there goes.
    Remove(usize),
}

impl Edit {
    /// The first position whose child is another one then.
    #[inline(always)]
    pub(crate) fn position(self) -> usize
        ensures { result ≡ edit_position self }
    {
        match self {
            Edit::Add { at, .. } | Edit::Remove(at) => at,
        }
    }

    /// How many positions are in use before it or after it, where so many are before it.
    #[inline(always)]
    pub(crate) fn most_used(self, count: usize) -> usize
        requires { count < 512 }
        ensures { result ≡ most_used self count }
    {
        match self {
            Edit::Add { .. } => count + 1,
            Edit::Remove(_) => count,
        }
    }
}

/// The header after the edit.
#[inline(always)]
pub(crate) fn header_after(sorted: Sorted, body: &Body, edit: Edit) -> u64
    requires { IsEdit sorted body.now edit }
    ensures { result ≡ words_after sorted body.now edit 1 }
{
    match edit {
        Edit::Add { .. } => body.words[HEADER] + 1,
        Edit::Remove(_) => body.words[HEADER] - 1,
    }
}

/// The entry at a position after the edit, and after the last one an entry of zeros.
#[inline(always)]
fn entry_after(sorted: Sorted, body: &Body, edit: Edit, position: usize) -> Entry
    requires edit { IsEdit sorted body.now edit }
    requires within { position < 256 }
    ensures { result ≡ entry_or_none (children_after sorted body.now edit) position }
{
    match edit {
        Edit::Add { at, entry } if position == at => entry,
        Edit::Add { at, .. } if position > at => entry_at(sorted, body, position - 1),
        Edit::Remove(at) if position >= at => entry_at(sorted, body, position + 1),
        _ => entry_at(sorted, body, position),
    }
}

/// The word of key bytes at a place after the edit, which is that of its position, or one after it.
#[inline(always)]
fn key_word_after(sorted: Sorted, body: &Body, edit: Edit, place: usize) -> u64
    requires edit { IsEdit sorted body.now edit }
    requires low { 10 + edit_position edit / 8 ≤ place }
    requires high { place < first_child (layout_of sorted) }
    ensures { result ≡ key_word (children_after sorted body.now edit) ((place - 10) * 8) }
{
    let from = (place - FIRST_KEYS) * 8;
    let at = edit.position().saturating_sub(from);
    let word = body.words[place];
    match edit {
        Edit::Add { .. } => put_in(word, at, entry_after(sorted, body, edit, from + at).byte),
        Edit::Remove(_) => take_out(word, at, entry_after(sorted, body, edit, from + 7).byte),
    }
}

/// The word at a place of key bytes or of a child after the edit.
#[inline(always)]
pub(crate) fn word_after(sorted: Sorted, body: &Body, edit: Edit, place: usize) -> u64
    requires edit { IsEdit sorted body.now edit }
    requires low { 10 + edit_position edit / 8 ≤ place }
    requires within { place < size (layout_of sorted) }
    ensures { result ≡ words_after sorted body.now edit place }
{
    let first_child = sorted.first_child();
    if place < first_child {
        key_word_after(sorted, body, edit, place)
    } else {
        entry_after(sorted, body, edit, place - first_child).child
    }
}
