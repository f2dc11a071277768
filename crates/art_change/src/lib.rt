//! One call of a pass, step by step: an insert, a removal, a get, or a look of a range.
//!
//! # What a pass keeps
//!
//! Beside the table a pass keeps what its calls need: the room of its writes, the numbers that it unlinked and has not given back, the
//! key or both ends of what is looked for, and the path buffer of a look. A `Caller` has all of it, made once; no call takes memory, and
//! none moves it.
//!
//! # The way
//!
//! ```text
//! idle ── insert, remove, get, look ──► under way ── step, step, .. ──► ended ── outcome
//!                                           │                             ▲
//!                                           └── give_up ── step, .. ──────┘
//! ```
//!
//! A call is begun (`begin_insert` and its like), which makes no step. Then it is stepped, on whatever carrier the pass stands
//! (`step`), or run to its end (`run`); `insert`, `remove`, `get` and `look` do both. Writes are the machine of this crate, reads that
//! of `art_look`; a call has the one or the other, and there is no second way.
//!
//! # A write
//!
//! ```text
//! Enter ── what waits in limbo goes back; four places, or it is Crowded; the pass is pinned
//!    ▼
//! Trying ─── one attempt after another (`art_attempt`), as long as they end as `Restart` and turns are left
//!    ▼
//! Exit ── a label for what was unlinked, unused numbers back, the pass goes idle
//! ```
//!
//! The steps of attempts are counted, those of the frame are not. Where all turns are used and nothing is held, the write ends
//! as `Busy`: also where its last step told it that a pool is empty, since a refusal is no answer. An attempt that holds a cell
//! goes on until it holds none, and one that has told its event is answered. A cell whose counter is at its end takes no step,
//! and is told as that. A restart keeps the pin, and the numbers in hand.
//!
//! `Write` is a value of scalars with `next` and `told`, and its `Stage` has what is under way: the opening, an attempt, or the close
//! with the outcome. Its `Job` says whether the row of the room comes, or the row with its key goes. The room of its attempts and the
//! limbo of the pass stand beside it.
//!
//! # One step at a time
//!
//! `step` makes one step and says which kind it was (`StepKind`), and whether it made the event of the call; where the call has ended
//! it makes none. So who schedules passes by hand sees each operation on a shared word, and the one at which the call takes effect:
//! the check that settled a read or a refused write, the commit of a change.
//!
//! # Giving up
//!
//! `give_up` ends a call early, if it holds no cell and has made no event: the turns that it used count as all it had, so it ends as
//! busy, after the steps of its close (of a write first the pin, where that was not made yet). Else nothing changes, and the call has to
//! go on: others wait for what it holds, or its event was made.
//!
//! # What is proved
//!
//! Between two steps `IsCalling` holds of the caller and the view of its pass, whatever other passes do; each step may be made, keeps it
//! and leaves fewer. When the call has ended (`HasCalled`), its pass is idle, holds nothing and may call again; it made the one event
//! of its outcome, or none; and a refusal has its ground.
//!
//! Of a write that is `Fits`, and in the end `IsDone`: either limbo was crowded and nothing was pinned, or the frame was opened, the last
//! attempt ended so (`OutcomeBy`, with the grounds of each refusal), and the frame is closed. `Busy` comes only where as many steps were
//! made as turns were given, and these are few beside the failures that were met; each restart was a failure (`HasCounted`). `Overlaps`
//! never comes where no admitted key begins another, as those of one schema never do: the check of such a place shows a tree with
//! two keys, both admitted, of which one begins the other (`apart`). And it comes by no other step than such a check (`FindsOverlap`),
//! whatever keys are admitted.
#![tactic(auto)]

mod callers;
mod calls;
mod driver;
mod outcomes;
mod writes;

pub use art_attempt;
pub use art_attempt::Job;
pub use art_find;
pub use callers::Caller;
pub use driver::Made;
pub use outcomes::Outcome;
pub use writes::{Stage, Stepped, Write, WriteOutcome, finish, step};
