//! The carrier of one thread: all words in one row, with what always holds of them.
//!
//! `World` keeps the words of all cells, and, for proofs alone, what each pass knows. It lends itself to one pass, which makes
//! its steps on a `Stepper` (`World::at`), or runs a list of turns of actors (`World::run`). Nothing here is shared by threads:
//! a list of turns is how threads may follow one another, one step a turn.
//!
//! What a contract sees of a world is its sizes, words and views (`Contents`). Between any two calls they are sound
//! (`World::stays_sound`); each call of a stepper is one step of its pass, and nothing else happens to the world meanwhile
//! (`OnlyStepped`).
#![tactic(auto)]

mod world;

pub use world::{Actor, Stepper, World};
