//! One event of a read, from the pin of the pass to its close: a get of a key, or a look of a range, which is the first row from a
//! key on, before a bound, and how far there is no other.
//!
//! # The problem
//!
//! A scan lists the rows of a range of a tree (ICDE 2013) that other passes change meanwhile (DaMoN 2016). No lock holds them
//! off, so no scan sees one state of the tree. What it can have is less: a part of the range, and one step at which the rows of
//! that part were exactly these. A look gives that for one row or none, and the next look begins where it ended.
//!
//! # A look
//!
//! `Look` is a machine as the `Descent` of `art_find` is: a value of scalars, with `next`, which names the step that it asks
//! for, and `told`, which hands it the answer. Beside it stand the two ends of the range and the `PathBuffer`, which has the bytes that
//! it has read: the path to where it stands, and a leaf's key.
//!
//! ```text
//!          anchor: stamp, child word, check
//!            │
//!            ▼
//!       ┌── what the child word names
//!       │    ├─ nothing: no row in all of the range
//!       │    ├─ a leaf: value, length, its key, word by word; then the check of the cell that names it decides
//!       │    └─ a node: stamp it, and check the cell that names it; then read its header and its prefix
//!       │         ├─ its path with the prefix is before the lower end: no row up to past the node's path
//!       │         └─ else its least child from the lower end's next byte on, or of all where the path is past the lower end
//!       │              ├─ none: no row up to past the path with the prefix
//!       │              ├─ a leaf: as above; it is the first row, and there is no other up to past its path
//!       │              ├─ a node that is not on the way of the lower end: no row up to its path
//!       └───────────── a node on the way: check, and go on below it
//! ```
//!
//! So a look does not search until it finds a row: it ends at the first place where it knows something of the range, and says how
//! far. It never goes back up, and it stamps no more cells than a get.
//!
//! # What it has seen
//!
//! `Seen` has the two ends and the row. At the check that decides, the rows from `lo` on, before `hi`, are exactly this one, or
//! none. Where the first leaf's key is before the lower end or not before the upper one, there is none. `hi` is after `lo` and not
//! past the bound that was asked for, and what was found stands in the table of looks (`specs/Table.antt`, row by row), in the
//! tree of that step.
//!
//! # What it knows
//!
//! As of a descent: `Fits` says at each stage what the notes under the stamps show, in every tree in which they hold, and of which
//! bytes the path buffer is made (`specs/Looks.antt`, `specs/PathBuffers.antt`). Words that are of no node (a prefix that is too long, a key
//! byte whose child word is 0) end the look at a check, which fails.
//!
//! # How many steps
//!
//! Each step comes further (`most_steps`): a byte of the path costs at most 320, since a node with a place for each byte is read
//! from the byte on until a child is found. So a look that meets no failure ends within 30,000 steps.
//!
//! # From the pin to the close
//!
//! A get is the descent of `art_find`. A get and a look want the same frame, which is that of a `Seek`:
//!
//! ```text
//! Pinning ── the epoch is noted, and stored in the word of the pass
//!    ▼
//! Walking ── a descent by the key (`art_find`) or a look of the range, from the anchor down; where a version word was
//!    │       locked, obsolete or changed, it restarts, under the same pin
//!    ▼
//! Closing ── 0 is stored: the pass is idle
//! ```
//!
//! The steps of the walk are counted, those of the pin and of the close are not. Where all turns are used and nothing is told, the
//! seek closes as `Busy`: with no turns at all, right after its pin. A restart is counted before the turns are looked at.
//!
//! `Seek` is a value of scalars with `next` and `told`. Who runs it keeps what is large: the key of a get, or both ends of a range,
//! and the `PathBuffer`. They are handed in at each step and not copied, but for the key of a deed, as that is told, and for what
//! a look has seen.
//!
//! `step` makes one step on a carrier, and says what was asked, and which kind of step it was (`Stepped`): one of the pin or of the
//! close, one of the walk that went on or restarted, or the one that made the event. So a caller learns from its result alone
//! what the view of the pass saw at that step. `finish` makes all steps that are left. A seek that is no longer wanted may be given
//! up while nothing is told (`give_up`): the turns that were used count as all there were.
//!
//! When it has ended (`HasSought`) the pass is idle and holds nothing, with the numbers that it had in hand and in limbo, and made
//! one event, or none where it is `Busy`. The restarts are the failures that were met, and turns that were used are few beside them.
#![tactic(auto)]

mod driver;
mod fronts;
mod hurries;
mod looks;
mod path_buffers;
mod reads;
mod seeks;
mod straight;
mod walks;

pub use driver::{Made, Stepped, finish, step};
pub use fronts::Front;
pub use looks::{ChildSought, Look, LookStage, Reach, Reached, Seen};
pub use path_buffers::PathBuffer;
pub use seeks::{Seek, SeekStage};
pub use walks::{Aim, Outcome};
