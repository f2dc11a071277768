//! The steps of the pass that a world is lent to.
ghost use Rattle.std.specs.Prelude.{◌≡◌, ◌<◌, ⊤, length};
ghost use Rattle.art_step.specs.Sound.{IsSound};
ghost use Rattle.art_step.specs.WordPlaces.{word_count};
ghost use Rattle.art_step.specs.WordRows.{views_of};
ghost use Rattle.art_world.specs.Contents.{IsAround, memory_now};
ghost use Rattle.art_world.specs.Stepper.{OnlyStepped, lender, only_same, only_sizes, only_then, pass_of, sizes_of, view_of, world_of};

use super::{Stepper, World};
use art_cell::{Cell, Link, Node};
use art_step::{
    Changed, Deed, Held, Locked, Number, Stamp, Steps, Unlinked, UpgradeFault, Version, numbers_of,
    spent,
};
use std::marker::Brand;

impl World {
    /// The world, in which the pass makes its steps: it is afterwards as they leave it.
    pub fn at(&mut self, pass: usize) -> Stepper<'_>
        requires { pass < length self.old.views }
        ensures pass { pass_of result ≡ pass }
        ensures world { world_of result ≡ self.old }
        ensures lender { lender result ≡ self.entry.ghost_name }
    {
        Stepper { world: self, pass }
    }
}

impl Steps for Stepper<'_> {
    ghost view = { λ a. view_of a };

    ghost sizes = { λ a. sizes_of a };

    ghost admits = { λ a k. ⊤ };

    ghost only = { λ a b. OnlyStepped a b };

    ghost instants = { λ a b. IsAround (world_of a) (world_of b) };

    ghost only_same = { λ a. only_same a };

    ghost only_then = { λ a b c x y. only_then a b c x y };

    ghost only_sizes = { λ a b x. only_sizes a b x };

    ghost only_admits = { λ a b k x. (λ y. y, λ y. y) };

    fn begin(&mut self, cell: Cell) -> Result<Stamp, Locked> {
        let found = self.world.version(cell);
        self.world
            .find::<Brand, (Cell, u64)>(self.pass, &(cell, found.word));
        if !found.is_clear() {
            return Err(Locked {
                cell,
                found: found.word,
            });
        }
        Ok(Stamp {
            cell,
            version: found.word,
            first: self.world.sizes().place_of(cell),
        })
    }

    fn read(&mut self, stamp: Stamp, place: usize) -> u64 {
        self.world.stays_sound();
        let value = self.world.load(stamp.first, place);
        self.world
            .find::<Brand, (Stamp, usize, u64)>(self.pass, &(stamp, place, value));
        value
    }

    fn read_leaf(&mut self, stamp: Stamp, leaf: u32, place: usize) -> u64 {
        let value = self.world.word(Cell::Leaf(leaf), place);
        self.world
            .find::<Brand, (Stamp, u32, usize, u64)>(self.pass, &(stamp, leaf, place, value));
        value
    }

    fn check(&mut self, stamp: Stamp, deed: Option<&Deed>) -> Result<(), Changed> {
        self.world.stays_sound();
        let found = self.world.load(stamp.first, 0);
        self.world
            .find::<Brand, (Stamp, Option<&Deed>, u64)>(self.pass, &(stamp, deed, found));
        if found != stamp.version {
            return Err(changed(stamp, found));
        }
        Ok(())
    }

    fn upgrade(&mut self, stamp: Stamp) -> Result<Held, UpgradeFault> {
        let clear = Version {
            word: stamp.version,
        };
        if clear.is_last() {
            return Err(UpgradeFault::Exhausted(stamp.cell));
        }
        self.world.stays_sound();
        let found = self.world.load(stamp.first, 0);
        if stamp.version != found {
            self.world
                .find::<Brand, (Stamp, u64)>(self.pass, &(stamp, found));
            return Err(UpgradeFault::Changed(changed(stamp, found)));
        }
        self.world
            .put::<Brand, Stamp>(self.pass, stamp.first, clear.locked().word, &stamp);
        Ok(Held::of(stamp.cell))
    }

    fn claim(&mut self, number: Number) -> Held {
        let Link::Node(node) = number.spend() else {
            unreachable!();
        };
        let cell = Cell::Node(node);
        let place = self.world.sizes().place_of(cell);
        self.world
            .put::<Brand, Node>(self.pass, place, Version::claimed().word, &node);
        Held::of(cell)
    }

    fn write(&mut self, held: &mut Held, place: usize, value: u64) {
        let cell = held.cell();
        let first = self.world.sizes().place_of(cell);
        self.world
            .put::<Brand, (Cell, usize, u64)>(
                self.pass,
                first + place,
                value,
                &(cell, place, value),
            );
    }

    fn write_leaf(&mut self, number: &mut Number, place: usize, value: u64) {
        let Link::Leaf(leaf) = number.link() else {
            unreachable!();
        };
        let first = self.world.sizes().place_of(Cell::Leaf(leaf));
        self.world
            .put::<Brand, (u32, usize, u64)>(
                self.pass,
                first + place,
                value,
                &(leaf, place, value),
            );
    }

    fn commit(
        &mut self,
        held: Held,
        obsolete: bool,
        deed: &Deed,
        leaf: Option<Number>,
        unlinked: &[u64],
    ) -> Unlinked {
        self.world.stays_sound();
        let cell = held.spend();
        let leaf = spent(leaf);
        let unlocked = self.world.version(cell).released(obsolete);
        let place = self.world.sizes().place_of(cell);
        self.world
            .put::<Brand, (Cell, bool, &Deed, Option<Link>, &[u64])>(
                self.pass,
                place,
                unlocked.word,
                &(cell, obsolete, deed, leaf, unlinked),
            );
        numbers_of(unlinked)
    }

    fn release(&mut self, held: Held, obsolete: bool) {
        self.world.stays_sound();
        let cell = held.spend();
        let unlocked = self.world.version(cell).released(obsolete);
        let place = self.world.sizes().place_of(cell);
        self.world
            .put::<Brand, (Cell, bool)>(self.pass, place, unlocked.word, &(cell, obsolete));
    }
}

/// The stamp's version word is another now.
fn changed(stamp: Stamp, found: u64) -> Changed
    ensures { result ≡ record { cell = stamp.cell; seen = stamp.version; found = found } }
{
    Changed {
        cell: stamp.cell,
        seen: stamp.version,
        found,
    }
}

impl Stepper<'_> {
    /// What always holds of the world that is lent.
    pub fn stays_sound(&self)
        ensures pass { pass_of self.now < length (world_of self.now).views }
        ensures words { length (world_of self.now).words ≡ word_count (sizes_of self.now) }
        ensures passes { length (world_of self.now).views ≡ (sizes_of self.now).passes }
        ensures sound { IsSound (sizes_of self.now) (memory_now (world_of self.now)) (views_of (world_of self.now).views) }
    {
        self.world.stays_sound();
    }
}
