//! A node in another layout.
ghost use Rattle.std.specs.Prelude.{◌≡◌, ◌≤◌, ◌<◌, ◌^◌, ℕ, get_or};
ghost use Rattle.art_cell.specs.Words.{count_of, places};
ghost use Rattle.art_cell.specs.Bodies.{IsInOrder, IsRelaid};
ghost use Rattle.art_cell.specs.Lemmas.Empty.{IsEmpty};
ghost use Rattle.art_cell.specs.Reads.{word_of, IsBodyOf};

use art_cell::{Body, Layout, NodeKind};

/// The place of the version.
const VERSION: usize = 0;

/// The place of the header.
const HEADER: usize = 1;

/// The places of the prefix, from the first one to the one after the last.
const PREFIX: usize = 2;

const PREFIX_END: usize = 10;

/// Writes the node in the layout `New`: its prefix, and its children in ascending order of their bytes.
pub(crate) fn relaid<Old: NodeKind, New: NodeKind>(body: &Body, layout: Layout, after: &mut Body)
    requires old { IsBodyOf Old.layout body.now }
    requires new { layout ≡ New.layout }
    requires fits { count_of (word_of body.now) ≤ places New.layout }
    ensures layout { after.new.layout ≡ layout }
    ensures relaid { IsRelaid Old.layout New.layout (word_of body.now) (word_of after.new) }
    ensures order { IsInOrder New.layout (word_of after.new) }
{
    emptied(body, layout, after);
    let count = (body.words[HEADER] % 512) as usize;
    let mut from = 0;
    for index in 0..count {
        let entry = Old::nth(body, index, from);
        New::add(after, entry.byte, entry.child);
        from = usize::from(entry.byte) + 1;
    }
}

/// Writes a node of the layout with the same prefix, and no child.
fn emptied(body: &Body, layout: Layout, after: &mut Body)
    ensures layout { after.new.layout ≡ layout }
    ensures empty { IsEmpty layout (word_of body.now) (word_of after.new) }
{
    after.layout = layout;
    after.words[VERSION] = 0;
    after.words[HEADER] = 512 * (body.words[HEADER] / 512 % 128);
    copy_prefix(body, after);
    clear(&mut after.words, PREFIX_END, layout.size());
}

/// Writes the words of the prefix.
fn copy_prefix(body: &Body, after: &mut Body)
    ensures layout { after.new.layout ≡ after.old.layout }
    ensures first { (p : ℕ) → p < 2 → word_of after.new p ≡ word_of after.old p }
    ensures copied { (p : ℕ) → 2 ≤ p → p < 10 → word_of after.new p ≡ word_of body.now p }
{
    for place in PREFIX..PREFIX_END {
        after.words[place] = body.words[place];
    }
}

/// Each word from a place on, before another, becomes 0.
pub(crate) fn clear(words: &mut [u64; 266], from: usize, to: usize)
    requires { to ≤ 266 }
    ensures below { (p : ℕ) → p < from → get_or words.new p 0 ≡ get_or words.old p 0 }
    ensures here { (p : ℕ) → from ≤ p → p < to → get_or words.new p 0 ≡ 0 }
    ensures fits { (p : ℕ) → get_or words.new p 0 < 2 ^ 64 }
{
    are_words(words);
    for place in from..to {
        words[place] = 0;
    }
}

/// Each number is a word of 64 bits: what their type says.
fn are_words(words: &[u64])
    ensures { (p : ℕ) → get_or words.now p 0 < 2 ^ 64 }
{}
