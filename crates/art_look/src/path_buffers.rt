//! The bytes that a look has read.
ghost use Rattle.std.specs.Prelude.{◌≡◌, ◌+◌, ◌≤◌, ◌<◌, ◌++◌, ◌∷◌, [], length, map};
ghost use Rattle.std.specs.List.{range_with_len};
ghost use Rattle.art_cell.specs.Words.{byte_of};

use art_key::Key;

/// The bytes that a look has read, which stand beside it.
#[derive(Drop)]
pub struct PathBuffer {
    /// The path to where it stands; in a node with the bytes of its prefix that were read.
    pub path: Key,
    /// The bytes of a leaf's key that were read.
    pub key: Key,
}

impl PathBuffer {
    /// Of a look at its beginning.
    pub fn new() -> PathBuffer
        ensures path { result.path.items ≡ [] }
        ensures key { result.key.items ≡ [] }
    {
        PathBuffer {
            path: Key::new(),
            key: Key::new(),
        }
    }
}

/// Appends the first bytes of a word, so many.
#[inline(always)]
pub(crate) fn spell(text: &mut Key, word: u64, count: usize)
    requires few { count ≤ 8 }
    requires room { length text.old.items + count ≤ 64 }
    ensures { text.new.items ≡ text.old.items ++ map (byte_of word) (range_with_len 0 count) }
{
    let bytes = word.to_be_bytes();
    // a whole word is one move, where so many bytes as come out of a header are a call
    if count == 8 {
        append(text, &bytes);
    } else {
        append(text, &bytes[..count]);
    }
}

/// Appends these bytes.
#[inline(always)]
fn append(text: &mut Key, bytes: &[u8])
    requires { length text.old.items + length bytes.now ≤ 64 }
    ensures { text.new.items ≡ text.old.items ++ bytes.now }
{
    text.try_extend_from_slice(bytes).unwrap();
}

/// The bytes as a key. No branch of it ends the program, so that where nobody reads the key, nothing is left of it.
#[inline(always)]
pub(crate) fn copied(bytes: &[u8]) -> Key
    requires { length bytes.now ≤ 64 }
    ensures { result.items ≡ bytes.now }
{
    let mut key = Key::new();
    let fits = key.try_extend_from_slice(bytes).is_ok();
    prove!(fits);
    key
}

/// The bytes with one more as a key, as `copied` makes one.
#[inline(always)]
pub(crate) fn joined(front: &[u8], byte: u8) -> Key
    requires { length front.now < 64 }
    ensures { result.items ≡ front.now ++ byte ∷ [] }
{
    let mut key = Key::new();
    let fits = key.try_extend_from_slice(front).is_ok();
    prove!(fits);
    key.push(byte);
    key
}
