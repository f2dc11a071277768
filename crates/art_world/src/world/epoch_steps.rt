//! The steps of numbers and epochs, of the pass that a world is lent to.
ghost use Rattle.std.specs.Prelude.{◌≡◌, ◌<◌, IfSome};
ghost use Rattle.art_step.specs.Steps.Take.{without_bit};

use super::Stepper;
use art_cell::{Link, Pool};
use art_step::{EpochSteps, Number, Sizes};
use std::marker::Brand;

impl EpochSteps for Stepper<'_> {
    fn pool_sizes(&self) -> Sizes {
        self.world.sizes()
    }

    fn own_pass(&self) -> u32 {
        self.world.stays_sound();
        let _ = self.world.sizes();
        self.pass as u32
    }

    fn bits_clear(&mut self, pool: Pool, index: u32, bit: Option<u32>) -> u64 {
        self.world.stays_sound();
        let found = self.world.free_word(pool, index as usize);
        let place = self.world.sizes().first_free_word(pool) + index as usize;
        self.world.put::<Brand, (Pool, u32, Option<u32>, u64)>(
            self.pass,
            place,
            without_bit(found, bit),
            &(pool, index, bit, found),
        );
        found
    }

    fn bits_set(&mut self, number: Number) {
        self.world.stays_sound();
        let pool = number.pool();
        let index = number.number() as usize / 64;
        let bit = 1 << (number.number() % 64);
        let found = self.world.free_word(pool, index);
        let place = self.world.sizes().first_free_word(pool) + index;
        let freed = number.spend();
        self.world
            .put::<Brand, Link>(self.pass, place, found + bit, &freed);
    }

    fn epoch(&mut self) -> u64 {
        let found = self.world.epoch();
        self.world.find::<Brand, u64>(self.pass, &found);
        found
    }

    fn pass_store(&mut self, word: u64) {
        self.world.stays_sound();
        let place = self.world.sizes().pass_place(self.pass);
        self.world.put::<Brand, u64>(self.pass, place, word, &word);
    }

    fn epoch_add(&mut self) -> u64 {
        self.world.stays_sound();
        let found = self.world.epoch();
        let place = self.world.sizes().epoch_place();
        self.world
            .put::<Brand, u64>(self.pass, place, found + 1, &found);
        found
    }

    fn pass_load(&mut self, pass: u32) -> u64 {
        let found = self.world.pass_word(pass as usize);
        self.world
            .find::<Brand, (u32, u64)>(self.pass, &(pass, found));
        found
    }
}

/// The word without the bit.
fn without_bit(word: u64, bit: Option<u32>) -> u64
    requires { IfSome bit (λ k. k < 64) }
    ensures { result ≡ without_bit bit word }
{
    match bit {
        Some(bit) if (word >> bit) % 2 == 1 => word - (1 << bit),
        _ => word,
    }
}
