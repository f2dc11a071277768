//! Bytes of a word beside those of a key.
ghost use Rattle.std.specs.Prelude.{◌≡◌, ◌≤◌, length};
ghost use Rattle.std.specs.Int.{w64, to_be_bytes};
ghost use Rattle.art_cell.specs.Words.{byte_of};
ghost use Rattle.art_path.specs.Compared.{IsCompared, behind, index_of};

/// How bytes stand to those of a key, from a place of it on.
#[derive(Clone, Copy, Debug, PartialEq, Eq)]
pub enum Compared {
    /// All of them are the key's.
    Same,
    /// The byte with this index is the first that is not the key's, and it is below the key's.
    Below(usize),
    /// The byte with this index is the first that is not the key's: it is above the key's, or the key has ended.
    Above(usize),
}

impl Compared {
    /// The same of bytes behind others, so many, which are the key's.
    pub fn behind(self, count: usize) -> Compared
        requires count { count ≤ 64 }
        requires index { index_of self ≤ 64 }
        ensures { result ≡ behind count self }
    {
        match self {
            Compared::Same => Compared::Same,
            Compared::Below(at) => Compared::Below(count + at),
            Compared::Above(at) => Compared::Above(count + at),
        }
    }
}

/// Compares so many bytes of a word, the first in the highest byte, with those of the key from a place on.
pub fn compare_prefix(word: u64, count: usize, key: &[u8], from: usize) -> Compared
    requires few { count ≤ 8 }
    requires from { from ≤ length key.now }
    ensures { IsCompared (byte_of word) count key.now from result }
{
    match key[from..].first_chunk() {
        Some(eight) => compare_words(word, count, u64::from_be_bytes(*eight)),
        None => compare_bytes(word, count, key, from),
    }
}

/// Compares so many bytes of a word with those of another.
fn compare_words(word: u64, count: usize, other: u64) -> Compared
    requires { count ≤ 8 }
    ensures { IsCompared (byte_of word) count (to_be_bytes w64 other) 0 result }
{
    let at = (word ^ other).leading_zeros() as usize / 8;
    if count <= at {
        Compared::Same
    } else if word < other {
        Compared::Below(at)
    } else {
        Compared::Above(at)
    }
}

/// Compares so many bytes of a word with those of the key from a place on, one by one.
fn compare_bytes(word: u64, count: usize, key: &[u8], from: usize) -> Compared
    requires few { count ≤ 8 }
    requires from { from ≤ length key.now }
    ensures { IsCompared (byte_of word) count key.now from result }
{
    let bytes = word.to_be_bytes();
    for at in 0..count {
        if from + at == key.len() || key[from + at] < bytes[at] {
            return Compared::Above(at);
        }
        if bytes[at] < key[from + at] {
            return Compared::Below(at);
        }
    }
    Compared::Same
}
