//! One child more, another child, and one less.
ghost use Rattle.std.specs.Prelude.{◌≡◌, ◌<◌, ◌≤◌, ◌↔◌, ℕ, Some, None, true, false, length};
ghost use Rattle.art_cell.specs.Words.{child_of};
ghost use Rattle.art_cell.specs.Bodies.{IsFull, Becomes};
ghost use Rattle.art_cell.specs.Reads.{word_of, IsBodyOf, SameOutside, changes, with_child, without_child, most_writes};
ghost use Rattle.art_node4.specs.Sorted.{layout_of};

use crate::Sorted;
use crate::lists::{Children, count, listed, position};
use crate::plans::write;
use art_cell::{Body, Entry};

/// Gives the byte, which has none, this child. False, with nothing changed, where each position is in use.
pub fn add(sorted: Sorted, body: &mut Body, byte: u8, child: u64) -> bool
    requires body { IsBodyOf (layout_of sorted) body.old }
    requires free { child_of (layout_of sorted) (word_of body.old) byte ≡ None }
    requires child { 0 < child }
    ensures full { (result ≡ false) ↔ IsFull (layout_of sorted) (word_of body.old) }
    ensures added { result ≡ true → Becomes (layout_of sorted) (word_of body.old) (word_of body.new)
        (with_child (child_of (layout_of sorted) (word_of body.old)) byte child) }
    ensures refused { result ≡ false → body.new ≡ body.old }
    ensures layout { body.new.layout ≡ body.old.layout }
    ensures outside { SameOutside (layout_of sorted) (word_of body.old) (word_of body.new) }
    ensures few { result ≡ true → length (changes (layout_of sorted) (word_of body.old) (word_of body.new)) ≤ most_writes }
{
    if count(body) == sorted.positions() {
        return false;
    }
    let index = position(sorted, body, byte);
    let mut children: Children = listed(sorted, body);
    children.insert(index, Entry { byte, child });
    write(sorted, body, &children);
    true
}

/// Gives the byte, which has a child, this one.
pub fn set(sorted: Sorted, body: &mut Body, byte: u8, child: u64)
    requires body { IsBodyOf (layout_of sorted) body.old }
    requires there { (c : ℕ) × (child_of (layout_of sorted) (word_of body.old) byte ≡ Some c) }
    requires child { 0 < child }
    ensures set { Becomes (layout_of sorted) (word_of body.old) (word_of body.new)
        (with_child (child_of (layout_of sorted) (word_of body.old)) byte child) }
    ensures layout { body.new.layout ≡ body.old.layout }
    ensures outside { SameOutside (layout_of sorted) (word_of body.old) (word_of body.new) }
    ensures one { length (changes (layout_of sorted) (word_of body.old) (word_of body.new)) ≤ 1 }
{
    let index = position(sorted, body, byte);
    body.words[sorted.first_child() + index] = child;
}

/// Takes away the child of the byte, which has one.
pub fn take(sorted: Sorted, body: &mut Body, byte: u8)
    requires body { IsBodyOf (layout_of sorted) body.old }
    requires there { (c : ℕ) × (child_of (layout_of sorted) (word_of body.old) byte ≡ Some c) }
    ensures taken { Becomes (layout_of sorted) (word_of body.old) (word_of body.new)
        (without_child (child_of (layout_of sorted) (word_of body.old)) byte) }
    ensures layout { body.new.layout ≡ body.old.layout }
    ensures outside { SameOutside (layout_of sorted) (word_of body.old) (word_of body.new) }
    ensures few { length (changes (layout_of sorted) (word_of body.old) (word_of body.new)) ≤ most_writes }
{
    let index = position(sorted, body, byte);
    let mut children: Children = listed(sorted, body);
    children.remove(index);
    write(sorted, body, &children);
}
