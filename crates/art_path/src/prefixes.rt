//! Prefixes: what two have in common, their parts, and parts put together.
ghost use Rattle.std.specs.Prelude.{◌≡◌, ◌+◌, ◌<◌, ◌≤◌, ◌++◌, ◌∷◌, length};
ghost use Rattle.art_path.specs.Common.{IsCommon};

use art_key::Key;

/// How many bytes the two texts have in common at their beginning.
pub fn common(one: &[u8], other: &[u8]) -> usize
    ensures { IsCommon one.now other.now result }
{
    one.iter()
        .zip(other)
        .take_while(|(byte, beside)| byte == beside)
        .count()
}

/// A prefix in three parts.
#[derive(Debug, PartialEq, Eq, Drop)]
pub struct Parts {
    /// The bytes before an index.
    pub front: Key,
    /// The byte there.
    pub byte: u8,
    /// The bytes after it.
    pub rest: Key,
}

/// The bytes before an index of a prefix, the byte there, and those after it.
pub fn split(prefix: &[u8], at: usize) -> Parts
    requires inside { at < length prefix.now }
    requires few { length prefix.now ≤ 64 }
    ensures whole { result.front.items ++ result.byte ∷ result.rest.items ≡ prefix.now }
    ensures front { length result.front.items ≡ at }
{
    Parts {
        front: text(&prefix[..at]),
        byte: prefix[at],
        rest: text(&prefix[at + 1..]),
    }
}

/// The bytes of the one, the byte, and those of the other.
pub fn join(one: &[u8], byte: u8, other: &[u8]) -> Key
    requires { length one.now + 1 + length other.now ≤ 64 }
    ensures { result.items ≡ one.now ++ byte ∷ other.now }
{
    let mut joined = text(one);
    joined.push(byte);
    joined.try_extend_from_slice(other).unwrap();
    joined
}

/// These bytes.
fn text(bytes: &[u8]) -> Key
    requires { length bytes.now ≤ 64 }
    ensures { result.items ≡ bytes.now }
{
    Key::try_from(bytes).unwrap()
}
