//! Nodes with sorted bytes: at most 4 or at most 16 children, in ascending order of their bytes.
//!
//! The two smallest of the layouts (ICDE 2013) are one thing with a number of positions. The key bytes are packed
//! eight a word from place 10 on, the first in the highest byte, and the child words follow them. The positions in
//! use stand first, and what stands at the others is 0.
ghost use Rattle.std.specs.Prelude.{◌≡◌, ◌≤◌, ◌+◌, ◌/◌};
ghost use Rattle.art_cell.specs.Words.{size, places, first_child};
ghost use Rattle.art_node4.specs.Sorted.{layout_of};

/// How many children a node with sorted bytes can have.
#[derive(Clone, Copy)]
pub enum Sorted {
    /// 4 positions, and the first child at place 11.
    Four,
    /// 16 positions, and the first child at place 12.
    Sixteen,
}

impl Sorted {
    /// How many positions there are.
    pub fn positions(self) -> usize
        ensures value { result ≡ places (layout_of self) }
        ensures few { result ≤ 16 }
        ensures fits { 10 + (result + 7) / 8 + result ≡ size (layout_of self) }
    {
        match self {
            Sorted::Four => 4,
            Sorted::Sixteen => 16,
        }
    }

    /// The place of the first child, after the words of key bytes.
    pub fn first_child(self) -> usize
        ensures value { result ≡ first_child (layout_of self) }
        ensures after_keys { result ≡ 10 + (places (layout_of self) + 7) / 8 }
        ensures last { result + places (layout_of self) ≡ size (layout_of self) }
        ensures few { result ≤ 12 }
    {
        match self {
            Sorted::Four => 11,
            Sorted::Sixteen => 12,
        }
    }
}
