//! The steps of the pass that is lent: of cells, and of numbers, epochs and pins.
ghost use Rattle.art_key.specs.Spelling.{IsKeyOf};
ghost use Rattle.std.specs.Prelude.{◌≡◌, ◌+◌, ◌<◌, ◌-◌, ◌^◌, ◌%◌, ◌==◌, bit_and, bit_or};
ghost use Rattle.art_step.specs.Effects.{released_word};
ghost use Rattle.art_step.specs.WordPlaces.{word_count};
ghost use Rattle.art_shared.specs.Stepper.{OnlyStepped, basis_of, instants_of, only_keys, only_same, only_sizes, only_then, sizes_of, view_of};
ghost use prog.Atomic.{either};
ghost use Rattle.art_shared.specs.SamePass.{SamePass};
ghost use Rattle.art_shared.specs.Turns.{MayTurn, Turn};

use crate::pass::Pass;
use crate::shared::Shared;
use crate::shows::{Shows, Told};
use crate::stepper::Stepper;
use art_cell::{Cell, Link, Node, Pool};
use art_step::{
    Changed, Deed, EpochSteps, Held, Locked, Number, Sizes, Stamp, Steps, Unlinked, UpgradeFault,
    Version, numbers_of, spent,
};
use std::marker::Brand;

impl Steps for Stepper<'_> {
    ghost view = { λ a. view_of a };

    ghost sizes = { λ a. sizes_of a };

    ghost admits = { λ a k. IsKeyOf (basis_of a).schema k };

    ghost only = { λ a b. OnlyStepped a b };

    ghost instants = { λ a b. instants_of a b };

    ghost only_same = { λ a. only_same a };

    ghost only_then = { λ a b c x y. only_then a b c x y };

    ghost only_sizes = { λ a b x. only_sizes a b x };

    ghost only_admits = { λ a b k x. only_keys a b k x };

    fn begin(&mut self, cell: Cell) -> Result<Stamp, Locked> {
        let first = self.shared.place_of(cell);
        let found = self.pass.load::<Brand, Cell>(self.shared, first, &cell);
        if !(Version { word: found }).is_clear() {
            return Err(Locked { cell, found });
        }
        Ok(Stamp {
            cell,
            version: found,
            first,
        })
    }

    fn read(&mut self, stamp: Stamp, place: usize) -> u64 {
        let at = word_at(self.shared.basis.sizes, stamp.first, place);
        self.pass
            .load::<Brand, (Stamp, usize)>(self.shared, at, &(stamp, place))
    }

    fn read_leaf(&mut self, stamp: Stamp, leaf: u32, place: usize) -> u64 {
        let first = self.shared.basis.sizes.place_of(Cell::Leaf(leaf));
        let at = word_at(self.shared.basis.sizes, first, place);
        self.pass
            .load::<Brand, (Stamp, u32, usize)>(self.shared, at, &(stamp, leaf, place))
    }

    fn check(&mut self, stamp: Stamp, deed: Option<&Deed>) -> Result<(), Changed> {
        let found = self
            .pass
            .load::<Brand, (Stamp, Option<&Deed>)>(self.shared, stamp.first, &(stamp, deed));
        if found != stamp.version {
            return Err(changed(stamp, found));
        }
        Ok(())
    }

    fn upgrade(&mut self, stamp: Stamp) -> Result<Held, UpgradeFault> {
        let clear = Version {
            word: stamp.version,
        };
        if clear.is_last() {
            return Err(UpgradeFault::Exhausted(stamp.cell));
        }
        let found = self.pass.exchange::<Brand, Stamp>(
            self.shared,
            stamp.first,
            stamp.version,
            clear.locked().word,
            &stamp,
        );
        if found != stamp.version {
            return Err(UpgradeFault::Changed(changed(stamp, found)));
        }
        Ok(Held::of(stamp.cell))
    }

    fn claim(&mut self, number: Number) -> Held {
        let Link::Node(node) = number.spend() else {
            unreachable!();
        };
        let cell = Cell::Node(node);
        let place = self.shared.place_of(cell);
        self.pass
            .store::<Brand, Node>(self.shared, place, Version::claimed().word, &node);
        Held::of(cell)
    }

    fn write(&mut self, held: &mut Held, place: usize, value: u64) {
        let cell = held.cell();
        let first = self.shared.place_of(cell);
        let at = word_at(self.shared.basis.sizes, first, place);
        self.pass
            .store::<Brand, (Cell, usize)>(self.shared, at, value, &(cell, place));
    }

    fn write_leaf(&mut self, number: &mut Number, place: usize, value: u64) {
        let Link::Leaf(leaf) = number.link() else {
            unreachable!();
        };
        let first = self.shared.basis.sizes.place_of(Cell::Leaf(leaf));
        let at = word_at(self.shared.basis.sizes, first, place);
        self.pass
            .store::<Brand, (u32, usize)>(self.shared, at, value, &(leaf, place));
    }

    fn commit(
        &mut self,
        held: Held,
        obsolete: bool,
        deed: &Deed,
        leaf: Option<Number>,
        unlinked: &[u64],
    ) -> Unlinked {
        let cell = held.spend();
        let leaf = spent(leaf);
        let place = self.shared.place_of(cell);
        self.pass
            .add::<Brand, (Cell, bool, &Deed, Option<Link>, &[u64])>(
                self.shared,
                place,
                rise(obsolete),
                &(cell, obsolete, deed, leaf, unlinked),
            );
        numbers_of(unlinked)
    }

    fn release(&mut self, held: Held, obsolete: bool) {
        let cell = held.spend();
        let place = self.shared.place_of(cell);
        self.pass
            .add::<Brand, (Cell, bool)>(self.shared, place, rise(obsolete), &(cell, obsolete));
    }
}

/// The place of a word that stands so far after another.
pub(crate) fn word_at(sizes: Sizes, first: usize, place: usize) -> usize
    requires { first + place < word_count sizes }
    ensures { result ≡ first + place }
{
    first + place
}

/// By how much a release makes a version word go up.
fn rise(obsolete: bool) -> u64
    ensures { result ≡ released_word 0 obsolete }
{
    if obsolete { 3 } else { 2 }
}

/// The stamp's version word is another now.
fn changed(stamp: Stamp, found: u64) -> Changed
    ensures { result ≡ record { cell = stamp.cell; seen = stamp.version; found = found } }
{
    Changed {
        cell: stamp.cell,
        seen: stamp.version,
        found,
    }
}

impl EpochSteps for Stepper<'_> {
    fn pool_sizes(&self) -> Sizes {
        self.shared.sizes()
    }

    fn own_pass(&self) -> u32 {
        self.pass.number
    }

    fn bits_clear(&mut self, pool: Pool, index: u32, bit: Option<u32>) -> u64 {
        let first = self.shared.first_free_word(pool);
        let at = word_at(self.shared.basis.sizes, first, index as usize);
        match bit {
            None => self
                .pass
                .load::<Brand, (Pool, u32)>(self.shared, at, &(pool, index)),
            Some(bit) => self
                .pass
                .mask::<Brand, (Pool, u32, u32)>(
                    self.shared,
                    at,
                    all_but(bit),
                    &(pool, index, bit),
                ),
        }
    }

    fn bits_set(&mut self, number: Number) {
        let first = self.shared.first_free_word(number.pool());
        let index = number.number() as usize / 64;
        let bit = 1 << (number.number() % 64);
        let at = word_at(self.shared.basis.sizes, first, index);
        let freed = number.spend();
        self.pass
            .set_bits::<Brand, Link>(self.shared, at, bit, &freed);
    }

    fn epoch(&mut self) -> u64 {
        let place = self.shared.epoch_place();
        self.pass.load::<Brand, ()>(self.shared, place, &())
    }

    fn pass_store(&mut self, word: u64) {
        let place = self.shared.pass_place(self.pass.number as usize);
        self.pass.store::<Brand, ()>(self.shared, place, word, &());
    }

    fn epoch_add(&mut self) -> u64 {
        let place = self.shared.sizes().epoch_place();
        self.pass.add::<Brand, ()>(self.shared, place, 1, &())
    }

    fn pass_load(&mut self, pass: u32) -> u64 {
        let place = self.shared.pass_place(pass as usize);
        self.pass.load::<Brand, u32>(self.shared, place, &pass)
    }
}

/// A word with all bits but this one.
fn all_but(bit: u32) -> u64
    requires { bit < 64 }
    ensures { result ≡ 2 ^ 64 - 1 - 2 ^ bit }
{
    u64::MAX - (1 << bit)
}

impl Pass {
    /// The word at the place is found.
    pub(crate) fn load<K: Shows, A>(&mut self, shared: &Shared, place: usize, _about: &A) -> u64
        requires table { self.old.seat.table_id ≡ shared.now.table.shared.table_id }
        requires basis { self.old.seat.me.0.basis ≡ shared.now.basis }
        requires place { place < word_count shared.now.basis.sizes }
        requires may { MayTurn shared.now.basis self.old.seat.me.0 place (λ n. n) K.shown K.happens }
        ensures same { SamePass self.old self.new }
        ensures turn { Turn shared.now.basis self.old.seat.me.0 self.new.seat.me.0 (K.happens result) (K.shown result) }
    {
        shared.table.shared.load::<Told<K>>(&mut self.seat, place)
    }

    /// It becomes `new`.
    pub(crate) fn store<K: Shows, A>(&mut self, shared: &Shared, place: usize, new: u64, _about: &A)
        requires table { self.old.seat.table_id ≡ shared.now.table.shared.table_id }
        requires basis { self.old.seat.me.0.basis ≡ shared.now.basis }
        requires place { place < word_count shared.now.basis.sizes }
        requires may { MayTurn shared.now.basis self.old.seat.me.0 place (λ _. new) (λ _. K.shown new) (λ _. K.happens new) }
        ensures same { SamePass self.old self.new }
        ensures turn { Turn shared.now.basis self.old.seat.me.0 self.new.seat.me.0 (K.happens new) (K.shown new) }
    {
        shared
            .table
            .shared
            .store::<Told<K>>(&mut self.seat, place, new);
    }

    /// It is found, and becomes `new` if it is `old`.
    pub(crate) fn exchange<K: Shows, A>(
        &mut self,
        shared: &Shared,
        place: usize,
        old: u64,
        new: u64,
        _about: &A,
    ) -> u64
        requires table { self.old.seat.table_id ≡ shared.now.table.shared.table_id }
        requires basis { self.old.seat.me.0.basis ≡ shared.now.basis }
        requires place { place < word_count shared.now.basis.sizes }
        requires may { MayTurn shared.now.basis self.old.seat.me.0 place (λ n. either (n == old) new n) K.shown K.happens }
        ensures same { SamePass self.old self.new }
        ensures turn { Turn shared.now.basis self.old.seat.me.0 self.new.seat.me.0 (K.happens result) (K.shown result) }
    {
        shared
            .table
            .shared
            .compare_exchange::<Told<K>>(&mut self.seat, place, old, new)
    }

    /// It is found, and goes up.
    pub(crate) fn add<K: Shows, A>(
        &mut self,
        shared: &Shared,
        place: usize,
        more: u64,
        _about: &A,
    ) -> u64
        requires table { self.old.seat.table_id ≡ shared.now.table.shared.table_id }
        requires basis { self.old.seat.me.0.basis ≡ shared.now.basis }
        requires place { place < word_count shared.now.basis.sizes }
        requires may { MayTurn shared.now.basis self.old.seat.me.0 place (λ n. (n + more) % 2 ^ 64) K.shown K.happens }
        ensures same { SamePass self.old self.new }
        ensures turn { Turn shared.now.basis self.old.seat.me.0 self.new.seat.me.0 (K.happens result) (K.shown result) }
    {
        shared
            .table
            .shared
            .fetch_add::<Told<K>>(&mut self.seat, place, more)
    }

    /// It is found, and keeps the bits of a mask.
    pub(crate) fn mask<K: Shows, A>(
        &mut self,
        shared: &Shared,
        place: usize,
        mask: u64,
        _about: &A,
    ) -> u64
        requires table { self.old.seat.table_id ≡ shared.now.table.shared.table_id }
        requires basis { self.old.seat.me.0.basis ≡ shared.now.basis }
        requires place { place < word_count shared.now.basis.sizes }
        requires may { MayTurn shared.now.basis self.old.seat.me.0 place (λ n. bit_and n mask) K.shown K.happens }
        ensures same { SamePass self.old self.new }
        ensures turn { Turn shared.now.basis self.old.seat.me.0 self.new.seat.me.0 (K.happens result) (K.shown result) }
    {
        shared
            .table
            .shared
            .fetch_and::<Told<K>>(&mut self.seat, place, mask)
    }

    /// It is found, and gains the bits of another.
    pub(crate) fn set_bits<K: Shows, A>(
        &mut self,
        shared: &Shared,
        place: usize,
        bits: u64,
        _about: &A,
    ) -> u64
        requires table { self.old.seat.table_id ≡ shared.now.table.shared.table_id }
        requires basis { self.old.seat.me.0.basis ≡ shared.now.basis }
        requires place { place < word_count shared.now.basis.sizes }
        requires may { MayTurn shared.now.basis self.old.seat.me.0 place (λ n. bit_or n bits) K.shown K.happens }
        ensures same { SamePass self.old self.new }
        ensures turn { Turn shared.now.basis self.old.seat.me.0 self.new.seat.me.0 (K.happens result) (K.shown result) }
    {
        shared
            .table
            .shared
            .fetch_or::<Told<K>>(&mut self.seat, place, bits)
    }
}
