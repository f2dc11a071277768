//! The sizes of a table.
ghost use Rattle.std.specs.Prelude.{◌≤◌, ◌↔◌, IsTrue};
ghost use Rattle.art_table.specs.Sizes.{IsConfig};

/// The sizes of a table: how many numbers each pool has, how many passes there are, and where the anchor's version counter starts.
#[derive(Clone, Copy, Debug, PartialEq, Eq)]
pub struct Config {
    /// 1 to 2^20: at most so many rows stand.
    pub leaves: u32,
    /// Nodes of at most 4 children, 1 to 2^18.
    pub n4: u32,
    /// Nodes of at most 16 children, 1 to 2^16.
    pub n16: u32,
    /// Nodes of at most 48 children, 1 to 2^14.
    pub n48: u32,
    /// Nodes of at most 256 children, 1 to 2^12.
    pub n256: u32,
    /// 1 to 32.
    pub passes: u32,
    /// 0 to 2^62 - 8.
    pub counter_start: u64,
}

impl Config {
    /// Whether each size is in its range.
    pub fn is_valid(&self) -> bool
        ensures { IsTrue result ↔ IsConfig self.now }
    {
        is_within(self.leaves, 1 << 20)
            && is_within(self.n4, 1 << 18)
            && is_within(self.n16, 1 << 16)
            && is_within(self.n48, 1 << 14)
            && is_within(self.n256, 1 << 12)
            && is_within(self.passes, 32)
            && self.counter_start <= (1 << 62) - 8
    }
}

fn is_within(size: u32, most: u32) -> bool
    ensures { IsTrue result ↔ ((1 ≤ size) × (size ≤ most)) }
{
    1 <= size && size <= most
}
