//! Worlds that just opened.
ghost use Rattle.std.specs.Prelude.{◌<◌};
ghost use Rattle.art_change.specs.Calls.{IsCaller};
ghost use Rattle.art_step.specs.WordRows.{view_at};
ghost use Rattle.art_world.specs.Opening.{OpensAt};

use art_change::Caller;
use art_step::Sizes;
use art_world::World;
use std::alloc::Global;
use std::process::Abort;

/// Few cells, and one pass.
pub(crate) const ONE_PASS: Sizes = Sizes {
    leaves: 4,
    n4: 1,
    n16: 1,
    n48: 1,
    n256: 1,
    passes: 1,
};

/// A world of these sizes, whose counters begin at 0.
pub(crate) fn opened(rt: &impl Abort, alloc: Global, sizes: &Sizes) -> World
    ensures { OpensAt sizes.now 0 result }
{
    World::open(alloc, sizes, 0).expect(rt, "memory")
}

/// What a pass keeps beside a world that just opened.
pub(crate) fn caller_of(rt: &impl Abort, world: &World, sizes: &Sizes, own: u32) -> Caller
    requires new { OpensAt sizes.now 0 world.now }
    requires inside { own < sizes.now.passes }
    ensures { IsCaller world.now.sizes (view_at world.now.views own) result }
{
    let _ = world.sizes();
    assert!(rt; sizes.passes <= 32);
    Caller::new(own, sizes)
}
