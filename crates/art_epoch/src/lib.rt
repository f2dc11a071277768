//! Free numbers, epochs, pins and limbo: how a pass takes a number, when one that it unlinked may go back, and what stands around
//! an attempt of a change: the way in, the numbers in hand, the way out.
//!
//! # The problem
//!
//! Leaves and nodes are named by numbers, in five pools. Words of free numbers have a bit for each: it is cleared as a pass
//! takes the number, and set as the number goes back. What a commit unlinks cannot go back at once. No lock keeps readers
//! out, so another pass may still have the cell in a stamp. Were the number free, a third pass could take it, write the cell
//! anew and link it somewhere else, while the second still reads under the stamp of its former life.
//!
//! So the number waits until each other pass has let go of what it had. No pass writes a word for each cell that it looks
//! at. It has one word of its own, which it writes before the first look and after the last.
//!
//! # Epochs and pins
//!
//! The *epoch* is a word that all passes share. It begins at 1 and only goes up, by 1. The word of a pass is 0 while the
//! pass is *idle*, and else the epoch that it is *pinned* to. Only a pinned pass has stamps, and as it goes idle all of them
//! go, with their notes.
//!
//! ```text
//! idle ──► the epoch is noted ──► it is stored: pinned ──► stamps, notes, changes ──► 0 is stored: idle
//! ```
//!
//! Between the note and the store the epoch may go up. That only makes others wait longer: a word is never above the epoch.
//!
//! # Labels, limbo, marks
//!
//! The pass keeps what its commits unlinked in its *limbo*. After a commit it finds the epoch, which *labels* what came.
//! Whoever was pinned at the commit is pinned to that epoch or to an earlier one, since the epoch only goes up. So a pass
//! whose word is 0, or above the label, has been idle since the commit: its stamps of that time are gone, and it got no new
//! one of the cell, as no version word of an unlinked node is clear. Once its word is found to be so, the place in limbo is
//! *marked* for it.
//!
//! A number goes back where its place is marked for each other pass, while its own pass is idle and so has no stamp either.
//!
//! | epoch | pass 0 | pass 1 |
//! |---|---|---|
//! | 1 | | pins itself to 1, and stamps node 5 |
//! | 1 | unlinks node 5, labels it with 1, and goes idle | |
//! | 2 | raises the epoch, and finds the word 1: node 5 waits, since 1 is not below 1 | |
//! | 2 | | goes idle, and pins itself to 2 |
//! | 3 | raises the epoch, and finds the word 2: node 5 is marked for pass 1, and goes back | |
//!
//! # Machines
//!
//! Taking, pinning, retiring and reclaiming are machines: values that name no carrier. `next` is the step that a machine
//! asks for (an `Action` of `art_step`), or none where it has ended; `perform` makes it, on whatever carrier; `told` hands the
//! machine the answer. So a pass may make one step at each of its turns, with those of others in between. What a machine knows
//! of the view between two steps is its `Fits`: `new` begins with it, and `told` keeps it, whoever made the step. Retiring
//! is one step, and needs none.
//!
//! | machine | call | steps |
//! |---|---|---|
//! | `Taking` | `take` | each word of free numbers is looked at; of one with a bit the lowest is cleared |
//! | `Pinning` | `pin` | the epoch is noted, and stored |
//! | `Retiring` | `retire` | the epoch is noted |
//! | `Reclaiming` | `reclaim` | the epoch is noted and raised; the word of each other pass is found; numbers go back |
//! | | `give` | a number in hand is free again |
//! | | `unpin` | 0 is stored |
//! | | `advance` | the epoch is noted, and raised |
//!
//! A call is the loop that runs its machine; the last three are their steps alone. A machine of another crate asks for them as actions:
//! a number in hand goes back by `GiveBack`, and one that waits by `Free`.
//!
//! # Around an attempt
//!
//! A pass that changes the tree has stamps only while it is pinned. What its commit unlinks waits in limbo, so there has to be
//! room before the commit. Numbers are taken before it is known whether the commit will be made. All of this is the same
//! whatever the change is. So it stands here once, around the attempt, which is made of crates above:
//!
//! ```text
//! Enter ──── what waits goes back, as far as it may ── four places are free? ── no: Crowded, and by which pass
//!                                                          │ yes
//!                                                          ▼
//!                                                         pin
//!                                                          ▼
//! attempt ── the descent, numbers, checks, the change ◄──► begun anew, with what is in hand
//!                                                          ▼
//! Exit ───── the epoch labels what was unlinked ── each number in hand goes back ── 0 is stored: idle
//! ```
//!
//! Numbers go back only while their own pass is idle, so `Enter` reclaims before it pins, where anything waits, and once. A
//! commit unlinks three numbers at most; four places have to be free. Where they are not, the pass stays idle, and the caller is
//! told which pass is in the way (`Blocker`): it may come back once that pass has gone on.
//!
//! The oldest number that stays is the first, in the order of the places, that is not labelled below the least word that was
//! found and is not 0. Its blocker is the first pass whose word was not above the label. That is one value, kept while the words
//! are found one after another. A word names its pass where the place that stays first with it could have gone without it: no
//! earlier pass blocked that place. Of two places, labelled with 5 and with 7:
//!
//! | word found | least word | stays | blocker |
//! |---|---|---|---|
//! | pass 1: 0 | none | nothing | nobody |
//! | pass 2: 6 | 6 | that with 7 | pass 2 |
//! | pass 3: 5 | 5 | both; first is that with 5, which could go before | pass 3 |
//! | pass 4: 5 | 5 | the same | pass 3 |
//!
//! A `Stock` names the leaf in hand, whether its ten words are written, and a node of each layout, one at most. It is the
//! memory of the pass for what its view calls the hand (`HasStock`): just these numbers are there. An attempt that fails begins
//! anew with them; what a commit links is taken out (`spend_leaf`, `spend_node`).
//!
//! The words of a leaf are written while its number is in hand and nobody can see it, before anything is locked: `LeafWriter`
//! writes the ten of them, one after another. They stay written where an attempt fails.
//!
//! `Exit` notes the epoch first, if something was unlinked, before anything else finds one: it labels what came to limbo.
//! Then the numbers of the stock go back, the leaf and then the nodes in the order in which they were taken, each in one step, and
//! without a look at any other. Last, 0 is stored.
//!
//! What both know between two steps is in `EnterFits` and `ExitFits`, of the view at the beginning and the view now. When an `Enter`
//! has ended (`HasEnded`), either the pass is pinned and four places are free (`IsOpened`), or nothing changed but that what might
//! go back did, and the blocker is one (`IsCrowded`). When an `Exit` has ended the pass is idle, holds nothing and has nothing in
//! hand; what was unlinked waits under one label, the epoch that was noted (`IsClosed`). An `Enter` makes at most 3 steps, one for each
//! pass and one for each place that waited, and an `Exit` at most 7.
//!
//! # In which order
//!
//! `retire` follows the commit before any other call that notes the epoch: each note labels what is in limbo without a
//! label, and the places of `Limbo` would not have it. It asks for room. A pass looks at `Limbo::room` before the commit,
//! since `reclaim` asks that all which waits is labelled.
//!
//! # What is proved, and what is not
//!
//! Each contract says how the view of the pass changes: `Takes`, `Pins`, `Advances`, `Retires`, `Reclaims`. `reclaim` gives
//! back just what is labelled below each word that it found and that is not 0; and no pass is then under a pin that stood
//! when the number was unlinked (`giving_is_sound` of `art_step`). `take` makes at most two steps for each word of its pool.
//!
//! Nobody is promised that a number goes back soon. What is labelled with the word of a pinned pass, or above it, waits as
//! long as that pass stays pinned; limbo has 64 places, and a full one takes no more. Nor is it promised that `take` finds a
//! number where some are free: at each word another pass may come first.
#![tactic(auto)]

mod enter;
mod exit;
mod leaf_writer;
mod limbo;
mod stocks;

pub use enter::{Blocker, Enter, Entered, Pinning, advance, give, pin, unpin};
pub use exit::Exit;
pub use leaf_writer::LeafWriter;
pub use limbo::{Limbo, Place, ReclaimStage, Reclaiming, Retiring, lets_go, reclaim, retire};
pub use stocks::{Search, Stock, Taking, take};
