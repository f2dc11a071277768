//! The header, the prefix and the child words of a node, and the words of a leaf.
ghost use Rattle.std.specs.Prelude.{◌≡◌, ◌%◌, ◌/◌, IfSome, ◌+◌, ◌≤◌, ◌<◌, length, get_or, ◌≢◌, ℕ, None};
ghost use Rattle.std.specs.Option.{option_map};
ghost use Rattle.art_cell.specs.Children.{child_word, code_of_layout, link_of};
ghost use Rattle.art_cell.specs.Leaves.{prefix_read, IsLeaf, MeansLeaf, key_read, leaf_word, leaf_writes, leaf_read, word_of_bytes};
ghost use Rattle.art_cell.specs.Reads.{Agrees, written, SameOutside, most_prefix_writes, word_of};
ghost use Rattle.art_cell.specs.Words.{Words, prefix_of, child_of};
ghost use Rattle.art_cell.specs.Bodies.{IsBody};
ghost use Rattle.art_cell.specs.declared.cells.Layout.TheVariants as layouts;
ghost use Rattle.art_node.specs.Prefixes.{IsNodeOf, IsPrefixPlan, two_of};

use crate::relaid::clear;
use art_cell::{Body, Layout, Link, NodeKind, Reads, Write, Writes, changes};
use art_key::Key;
use art_node4::Node4;

/// What a header says.
#[derive(Clone, Copy, Debug, PartialEq)]
pub struct Header {
    /// How many children there are.
    pub count: usize,
    /// How many bytes the prefix has.
    pub prefix_length: usize,
}

/// What the header word says: the count in bits 0 to 8, and the prefix length in bits 9 to 15.
pub fn read_header(word: u64) -> Header
    ensures count { result.count ≡ word % 512 }
    ensures prefix { result.prefix_length ≡ word / 512 % 128 }
{
    Header {
        count: (word % 512) as usize,
        prefix_length: (word / 512 % 128) as usize,
    }
}

/// The bytes of the prefix, if there are at most 64 and no word that is needed is missing.
pub fn prefix(reads: &Reads) -> Option<Key>
    ensures read { option_map (λ bytes. bytes.items) result ≡ prefix_read reads.now }
    ensures prefix { IfSome result (λ bytes. (w : Words) → Agrees reads.now w → bytes.items ≡ prefix_of w) }
{
    let length = read_header(reads.get(1)?).prefix_length;
    if length > 64 {
        return None;
    }
    key_in(reads, length)
}

/// The word that names the leaf or the node: 8 times its number, and a code, 1 for a leaf and 2 to 5 for a node by its
/// layout.
pub fn child_word(link: Link) -> u64
    ensures { result ≡ child_word link }
{
    let (number, code) = match link {
        Link::Leaf(number) => (number, 1),
        Link::Node(node) => (node.number, layout_code(node.layout)),
    };
    8 * u64::from(number) + code
}

/// The code of the nodes of a layout.
fn layout_code(layout: Layout) -> u64
    ensures { result ≡ code_of_layout layout }
{
    match layout {
        Layout::Node4 => 2,
        Layout::Node16 => 3,
        Layout::Node48 => 4,
        Layout::Node256 => 5,
    }
}

/// The leaf or the node that the word names, if it names one.
pub fn link_in(word: u64) -> Option<Link>
    ensures { result ≡ link_of word }
{
    Link::named_by(word)
}

/// How many words a leaf has.
const WORDS: usize = 10;

/// The longest key, in bytes.
const KEY_BYTES: u64 = 64;

/// The words of the leaf with this key and value, in ascending place: the value, the length of the key, and its bytes,
/// eight a word, with 0 after the last.
pub fn pack(key: &Key, value: u64) -> Writes
    ensures words { result.items ≡ leaf_writes key.now.items value }
    ensures leaf { (w : Words) → IsLeaf (written w result.items) key.now.items value }
{
    words_of(key.as_slice(), value)
}

fn words_of(key: &[u8], value: u64) -> Writes
    requires { length key.now ≤ 64 }
    ensures words { result.items ≡ leaf_writes key.now value }
    ensures leaf { (w : Words) → IsLeaf (written w result.items) key.now value }
{
    let mut writes = Writes::new();
    for place in 0..WORDS {
        let value = leaf_word(key, value, place);
        writes.push(Write { place, value });
    }
    writes
}

/// The word at a place of the leaf with this key and value.
#[inline(always)]
pub fn leaf_word(key: &[u8], value: u64, place: usize) -> u64
    requires place { place < 10 }
    requires few { length key.now ≤ 64 }
    ensures { result ≡ leaf_word key.now value place }
{
    match place {
        0 => value,
        1 => key.len() as u64,
        _ => key_word(key, 8 * (place - 2)),
    }
}

/// The eight bytes from one on as a word, with 0 after the last.
#[inline(always)]
pub(crate) fn key_word(key: &[u8], from: usize) -> u64
    requires { from ≤ 64 }
    ensures { result ≡ word_of_bytes key.now from }
{
    // most keys are short, and most words of a leaf have none of their bytes
    if key.len() <= from {
        return 0;
    }
    if from + 8 <= key.len() {
        return whole_word(key, from);
    }
    let mut bytes = [0; 8];
    for at in 0..8 {
        bytes[at] = byte_at(key, from + at);
    }
    u64::from_be_bytes(bytes)
}

/// Eight bytes of the key as a word, where all of them are there.
#[inline(always)]
fn whole_word(key: &[u8], from: usize) -> u64
    requires { from + 8 ≤ length key.now }
    ensures { result ≡ word_of_bytes key.now from }
{
    u64::from_be_bytes([
        key[from],
        key[from + 1],
        key[from + 2],
        key[from + 3],
        key[from + 4],
        key[from + 5],
        key[from + 6],
        key[from + 7],
    ])
}

/// The byte of the key at a place, and 0 after the last.
fn byte_at(key: &[u8], at: usize) -> u8
    ensures { result ≡ get_or key.now at 0 }
{
    key.get(at).copied().unwrap_or(0)
}

/// The key and the value that the words mean, if the key's length is at most 64 and no word that is needed is missing.
pub fn unpack(reads: &Reads) -> Option<(Key, u64)>
    ensures read { option_map (λ leaf. (leaf.0.items, leaf.1)) result ≡ leaf_read reads.now }
    ensures leaf { IfSome result (λ leaf. (w : Words) → Agrees reads.now w → MeansLeaf w (leaf.0.items, leaf.1)) }
{
    let value = reads.get(0)?;
    let length = reads.get(1)?;
    if length > KEY_BYTES {
        return None;
    }
    Some((key_in(reads, length as usize)?, value))
}

/// So many bytes of the key, if no word of them is missing.
pub(crate) fn key_in(reads: &Reads, length: usize) -> Option<Key>
    requires { length ≤ 64 }
    ensures { option_map (λ key. key.items) result ≡ key_read reads.now 0 length }
{
    let mut key = Key::new();
    for at in 0..length {
        let word = reads.get(2 + at / 8)?;
        key.push(word.to_be_bytes()[at % 8]);
    }
    Some(key)
}

/// Makes the writes the words by which the node gets this prefix, of at most 64 bytes, and keeps its children.
pub fn plan_prefix(body: &Body, prefix: &[u8], writes: &mut Writes)
    requires body { IsBody body.now.layout (word_of body.now) }
    requires short { length prefix.now ≤ 64 }
    ensures plan { IsPrefixPlan body.now.layout (word_of body.now) writes.new.items prefix.now }
    ensures few { length writes.new.items ≤ most_prefix_writes }
{
    let mut after = *body;
    set_prefix(&mut after, prefix);
    changes(body, &after, writes);
}

/// Writes the Node4 with this prefix, of at most 64 bytes, and two children on bytes that differ.
pub fn fork(forked: &mut Body, prefix: &[u8], one: u8, one_child: u64, other: u8, other_child: u64)
    requires short { length prefix.now ≤ 64 }
    requires apart { one ≢ other }
    requires one { 0 < one_child }
    requires other { 0 < other_child }
    ensures layout { forked.new.layout ≡ layouts.Node4 }
    ensures node { IsNodeOf layouts.Node4 (word_of forked.new) prefix.now (two_of one one_child other other_child) }
{
    bare(forked);
    set_prefix(forked, prefix);
    Node4::add(forked, one, one_child);
    Node4::add(forked, other, other_child);
}

/// Makes it a Node4 without a prefix or a child.
fn bare(body: &mut Body)
    ensures layout { body.new.layout ≡ layouts.Node4 }
    ensures body { IsBody layouts.Node4 (word_of body.new) }
    ensures none { (b : ℕ) → b < 256 → child_of layouts.Node4 (word_of body.new) b ≡ None }
{
    body.layout = Layout::Node4;
    clear(&mut body.words, 0, Layout::Node4.size());
}

/// Gives the node this prefix, and leaves it its children.
fn set_prefix(body: &mut Body, prefix: &[u8])
    requires body { IsBody body.old.layout (word_of body.old) }
    requires short { length prefix.now ≤ 64 }
    ensures layout { body.new.layout ≡ body.old.layout }
    ensures node { IsNodeOf body.old.layout (word_of body.new) prefix.now (child_of body.old.layout (word_of body.old)) }
    ensures outside { SameOutside body.old.layout (word_of body.old) (word_of body.new) }
    ensures rest { (place : ℕ) → 10 ≤ place → word_of body.new place ≡ word_of body.old place }
{
    let header = body.words[1];
    body.words[1] = header / 65536 * 65536 + 512 * prefix.len() as u64 + header % 512;
    for at in 0..8 {
        body.words[2 + at] = key_word(prefix, 8 * at);
    }
}
