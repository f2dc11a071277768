//! What a test does with a node, by the contracts of `NodeKind` alone.
ghost use Rattle.std.specs.Prelude.{◌≡◌, ◌<◌, ◌≤◌};
ghost use Rattle.art_cell.specs.Words.{child_of};
ghost use Rattle.art_cell.specs.Reads.{Agrees, IsBodyOf, word_of};

use art_cell::{Body, Layout, NextProbe, NodeKind, Probe, Reads};
use std::process::Abort;

/// A node with the prefix 01 and no child.
pub(crate) fn empty<K: NodeKind>(layout: Layout) -> Body
    requires { layout ≡ K.layout }
    ensures { IsBodyOf K.layout result }
{
    let mut words = [0; 266];
    words[1] = 512;
    words[2] = 0x0100_0000_0000_0000;
    Body { layout, words }
}

/// A node with no prefix and no child.
pub(crate) fn bare<K: NodeKind>(layout: Layout) -> Body
    requires { layout ≡ K.layout }
    ensures { IsBodyOf K.layout result }
{
    Body {
        layout,
        words: [0; 266],
    }
}

/// All words of a node, read.
pub(crate) fn all_read(body: &Body) -> Reads
    ensures { Agrees result (word_of body.now) }
{
    let mut reads = Reads::new();
    for place in 0..266 {
        reads.note(place, body.words[place]);
    }
    reads
}

/// The child of a byte, by a probe of all words.
pub(crate) fn child<K: NodeKind>(rt: &impl Abort, body: &Body, byte: u8) -> Option<u64>
    requires { IsBodyOf K.layout body.now }
    ensures { result ≡ child_of K.layout (word_of body.now) byte }
{
    match K::probe(byte, &all_read(body)) {
        Probe::Need(_) => panic!(rt; "each word was read"),
        Probe::Child(child) => Some(child),
        Probe::None => None,
    }
}

/// Gives the byte, which must have none, this child, if the node has a place for it.
pub(crate) fn give<K: NodeKind>(rt: &impl Abort, body: &mut Body, byte: u8, word: u64) -> bool
    requires body { IsBodyOf K.layout body.old }
    requires child { 0 < word }
    ensures { IsBodyOf K.layout body.new }
{
    if let Some(_) = child::<K>(rt, body, byte) {
        panic!(rt; "a byte has a child already");
    }
    K::add(body, byte, word)
}

/// Gives the byte, which must have a child, this one.
pub(crate) fn change<K: NodeKind>(rt: &impl Abort, body: &mut Body, byte: u8, word: u64)
    requires body { IsBodyOf K.layout body.old }
    requires child { 0 < word }
    ensures { IsBodyOf K.layout body.new }
{
    let Some(_) = child::<K>(rt, body, byte) else {
        panic!(rt; "a byte has no child");
    };
    K::set(body, byte, word);
}

/// Takes away the child of the byte, which must have one.
pub(crate) fn remove<K: NodeKind>(rt: &impl Abort, body: &mut Body, byte: u8)
    requires { IsBodyOf K.layout body.old }
    ensures { IsBodyOf K.layout body.new }
{
    let Some(_) = child::<K>(rt, body, byte) else {
        panic!(rt; "a byte has no child");
    };
    K::take(body, byte);
}

/// The node lists these children by their bytes, where 0 is none, and counts them; it has the prefix 01.
pub(crate) fn check_children<K: NodeKind>(rt: &impl Abort, body: &Body, children: &[u64; 256])
    requires { IsBodyOf K.layout body.now }
{
    let list = K::list(body);
    let mut listed = [0; 256];
    let mut last = None;
    for entry in list.as_slice() {
        assert!(rt; last < Some(entry.byte));
        last = Some(entry.byte);
        listed[usize::from(entry.byte)] = entry.child;
    }
    assert!(rt; listed == *children);
    assert_eq!(rt; body.words[1] % 65_536, 512 + list.len() as u64);
    assert_eq!(rt; body.words[2], 0x0100_0000_0000_0000);
}

/// The words from a place on are these.
pub(crate) fn check_words(rt: &impl Abort, words: &[u64; 266], from: usize, wanted: &[u64])
    requires { from ≤ 266 }
{
    assert!(rt; words[from..].starts_with(wanted));
}

/// A probe asks for these places one after another, and then answers.
pub(crate) fn check_probe<K: NodeKind>(
    rt: &impl Abort,
    words: &[u64; 266],
    byte: u8,
    places: &[usize],
    answer: Probe,
) {
    let mut reads = Reads::new();
    for place in places {
        assert_eq!(rt; K::probe(byte, &reads), Probe::Need(*place));
        assert!(rt; *place < 266);
        reads.note(*place, words[*place]);
    }
    assert_eq!(rt; K::probe(byte, &reads), answer);
}

/// A search for the least entry asks for these places one after another, and then answers.
pub(crate) fn check_at_least<K: NodeKind>(
    rt: &impl Abort,
    words: &[u64; 266],
    byte: u8,
    places: &[usize],
    answer: NextProbe,
) {
    let mut reads = Reads::new();
    for place in places {
        assert_eq!(rt; K::at_least(byte, &reads), NextProbe::Need(*place));
        assert!(rt; *place < 266);
        reads.note(*place, words[*place]);
    }
    assert_eq!(rt; K::at_least(byte, &reads), answer);
}

/// A search for the least entry asks for so many words, and then answers.
pub(crate) fn check_asked<K: NodeKind>(
    rt: &impl Abort,
    words: &[u64; 266],
    byte: u8,
    asked: usize,
    answer: NextProbe,
) {
    let mut reads = Reads::new();
    for _ in 0..asked {
        let NextProbe::Need(place) = K::at_least(byte, &reads) else {
            panic!(rt; "more words are asked for");
        };
        assert!(rt; place < 266);
        reads.note(place, words[place]);
    }
    assert_eq!(rt; K::at_least(byte, &reads), answer);
}
