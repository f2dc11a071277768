//! Keys of bytes, whose byte order is the order of tuples.
//!
//! A schema names the columns of a tuple, and a tuple whose values stand in its columns has one key: the spellings
//! of its values one after another. Two keys of one schema stand as their tuples do, no key begins another, and a
//! key is read back as its tuple. Those laws are stated in `laws`, and rest on one law for each kind of column.
//!
//! What the passes of a table did is a list of events: commands with their replies, and looks of ranges of keys with the
//! one row that was found, or none. `legal` says whether one sorted map of rows answers so, one event after another.
#![tactic(auto)]

mod bounds;
mod columns;
mod events;
mod faults;
mod keys;
mod kinds;
mod laws;
mod schemas;

pub use bounds::Bound;
pub use columns::{Column, Kind};
pub use events::{Deed, Event, legal};
pub use faults::{SchemaFault, ValueFault};
pub use keys::{Key, decode, decode_into, encode};
pub use laws::{keys_stand_as_tuples, no_key_begins_another, spellings_are_read_back};
pub use schemas::Schema;
