//! Texts of bytes on the way of a key: prefixes of nodes beside keys, and paths.
//!
//! # Where they come from
//!
//! A node of the tree (ICDE 2013) stands at a path, which is a text of bytes, and has a prefix of at most 64 bytes. Who
//! goes down by a key compares the prefix with the bytes of the key behind the path. One word of the node is read at a
//! time, and has eight bytes of the prefix, the first in the highest byte. So what is compared here is a word, or the
//! first bytes of one, with the key from a place on.
//!
//! # What a comparison says
//!
//! ```text
//! key      7 1 2 5 9        from place 1 on
//! bytes      1 2 5          Same: they are the key's
//!            1 2 4          Below(2): byte 2 is the first that is not the key's, 4 is below 5
//!            1 2 6 0        Above(2): 6 is above 5
//!            1 2 5 9 3      Above(4): the key has ended
//! ```
//!
//! Only one of these is right for given bytes (`comparisons_are_determined`). That the key has ended counts as above, for a
//! text stands before all longer ones that begin with it. So where a prefix is not the key's, the comparison tells on which
//! side of the key all keys below the node lie, which a look of a range asks, and where a new key parts from the prefix.
//!
//! A prefix of many words is compared word by word. What the next bytes give is a comparison of all of them, once their
//! indices are counted from the first one: that is `Compared::behind`. The lemmas that carry it on stand in
//! `proofs/Comparing.antt` and `proofs/PackedTexts.antt`, for crates above.
//!
//! Where the key has eight bytes left, they are loaded as one word. The first byte in which two words differ is that of
//! their highest bit that differs; and it has the order of the words, since the bytes before it are the same.
//!
//! # Prefixes and bounds
//!
//! A node that comes between two cells takes the front of a prefix, which two texts have in common (`common`). The byte
//! behind it leads to what was there, which keeps the rest (`split`). Where a node with one child goes, prefix, byte and
//! the child's prefix are joined again (`join`).
//!
//! `after` is the least bound above all texts that begin with a path: 255 at the end goes, and the last byte is raised.
//! After `[1, 2]` comes `[1, 3]`, after `[1, 255]` comes `[2]`, and after `[255]` the end.
//!
//! Nothing here reads a shared word, makes a step or has a state.
#![tactic(auto)]

mod bounds;
mod compared;
mod laws;
mod prefixes;

pub use bounds::after;
pub use compared::{Compared, compare_prefix};
pub use laws::comparisons_are_determined;
pub use prefixes::{Parts, common, join, split};
