//! The bound just above a path.
ghost use Rattle.std.specs.Prelude.{◌≡◌, ◌≤◌, length};
ghost use Rattle.art_step.specs.Deeds.{bound_of};
ghost use Rattle.art_tree.specs.Looks.{after};

use crate::prefixes::join;
use art_key::Bound;

/// The least bound above all texts of bytes that begin with the path: its last byte below 255 is raised, and what follows
/// it goes. Where there is no such byte, it is the end.
pub fn after(path: &[u8]) -> Bound
    requires { length path.now ≤ 64 }
    ensures { bound_of result ≡ after path.now }
{
    for at in (0..path.len()).rev() {
        if path[at] < 255 {
            return Bound::At(join(&path[..at], path[at] + 1, &[]));
        }
    }
    Bound::End
}
