//! How the whole path of a node stands to the lower end of a range.
ghost use Rattle.std.specs.Prelude.{◌≡◌, length};
ghost use Rattle.art_look.specs.Fronts.{IsFound, IsFront, low_at};

use art_path::common;

/// How the path of a node, with its prefix, stands to the lower end, of which the path to the node is the beginning.
#[derive(Clone, Copy)]
pub enum Front {
    /// It begins the lower end, which goes on behind it.
    Within,
    /// It is after the lower end, or the lower end ends with it or within it.
    Beyond,
}

/// How the path stands to the lower end: none where it is before it and does not begin it.
#[inline(always)]
pub(crate) fn front_of(lo: &[u8], path: &[u8]) -> Option<Front>
    ensures { IsFound lo.now path.now result }
{
    let at = common(path, lo);
    if at == lo.len() {
        return Some(Front::Beyond);
    }
    if at == path.len() {
        return Some(Front::Within);
    }
    if path[at] < lo[at] {
        return None;
    }
    Some(Front::Beyond)
}

/// The byte from which on the least child is looked for: the lower end's next one behind the path, or the least of all.
#[inline(always)]
pub(crate) fn low_at(front: Front, lo: &[u8], path: &[u8]) -> u8
    requires { IsFront front lo.now path.now }
    ensures { result ≡ low_at front lo.now path.now }
{
    match front {
        Front::Within => lo[path.len()],
        Front::Beyond => 0,
    }
}
