//! Words of eight key bytes, of which one more comes or one goes.
ghost use Rattle.std.specs.Prelude.{◌≡◌, ◌<◌, ◌≤◌, ◌+◌, ◌-◌, ℕ};
ghost use Rattle.art_cell.specs.Words.{byte_of};

/// The word with this byte at one of its eight places: the bytes from there on stand one place further, and the last one falls out.
#[inline(always)]
pub(crate) fn put_in(word: u64, at: usize, byte: u8) -> u64
    requires { at < 8 }
    ensures before { (i : ℕ) → i < at → byte_of result i ≡ byte_of word i }
    ensures here { byte_of result at ≡ byte }
    ensures behind { (i : ℕ) → at < i → i < 8 → byte_of result i ≡ byte_of word (i - 1) }
{
    let behind = 56 - 8 * at;
    let kept = word >> behind >> 8 << 8;
    let moved = (word >> 8) % (1 << behind);
    ((kept + u64::from(byte)) << behind) + moved
}

/// The word without the byte at one of its eight places: the bytes behind it stand one place nearer, and the last one is this.
#[inline(always)]
pub(crate) fn take_out(word: u64, at: usize, last: u8) -> u64
    requires { at < 8 }
    ensures before { (i : ℕ) → i < at → byte_of result i ≡ byte_of word i }
    ensures behind { (i : ℕ) → at ≤ i → i < 7 → byte_of result i ≡ byte_of word (i + 1) }
    ensures last { byte_of result 7 ≡ last }
{
    let behind = 56 - 8 * at;
    let kept = word >> behind >> 8 << behind;
    let moved = word % (1 << behind);
    ((kept + moved) << 8) + u64::from(last)
}
