//! One attempt of a write, from the anchor down to its end.
//!
//! # The problem
//!
//! The parts of a write are machines of their own: a descent that finds where the key stands (`art_find`), one that brings
//! numbers into the hand (`Reserve`), one that reads and checks what will be written (`Validate`), a plan (`art_plan`), and the
//! making of a change (`Apply`). Between any two of their steps other passes make theirs. What one part knows when it ends has to
//! be what the next one asks for when it begins, and has to be known of the same view of the pass.
//!
//! # The way
//!
//! ```text
//! Finding ──► the check of the place ─┬─ a leaf may come ──────────► Reserve ─┬────────────► Validate ──► plan ──► Apply
//!    │               │                │                                 │ Full │               │                     │
//!    │               │                └─ the leaf is there (`lost`)            │               │                     │
//!    │               │                      │ the leaf alone ──────────────────┼──────────────►│                     │
//!    │               │                      │ a smaller node would do ─► Reserve ─────────────►│                     │
//!    │               │                      │ the node too ─► Reading ─┬─ other child: a leaf ►│                     │
//!    │               │                                                 └─ a node ─► Naming ───►│                     │
//!    └── Restart ◄───┴─────────────────────────────────────────────────────────────────────────┴─────────────────────┘
//! ```
//!
//! An insert goes the upper way, a removal the lower one; what differs between them is in `Job` and in `Case`, and nowhere else.
//!
//! Where the check of the place settles the answer, it tells it: the key of an insert is there and keeps its value, or no row has
//! that of a removal. Of any other place a check tells nothing, since what is absent or goes is the business of the commit alone;
//! but where it fails, the words that were read may never have stood in one tree, and the attempt has failed.
//!
//! What a removal has to read goes by what it has read: a node that names the leaf and one other child goes with the leaf, and
//! that child takes its place; where the child is a node, its prefix is written too. The words that tell which child a node keeps
//! were read under a stamp, and may be torn from one another until its check. Where they tell of none, they are those of no node,
//! and the check is about to fail (`Torn`): no step is made for it but that.
//!
//! Where no number is found, an insert is refused. A removal is not: the larger node stays, and the leaf goes alone.
//!
//! An attempt that meets a version word that is locked, obsolete or another ends as `Restart`. The numbers that it took stay in
//! hand, and the leaf keeps its words, so that the next attempt uses them again.
//!
//! # Reserve
//!
//! A change needs numbers in hand (`Demand`): those of the leaf and of the node that come into the tree. Pools are shared by all
//! passes, and may be empty, so the numbers are taken first, while nothing is held:
//!
//! ```text
//! the leaf's number ──► its ten words ──► the node's number ──► Ready
//!        └─ no free word gave one ─────────────┴─► Full(pool)
//! ```
//!
//! A number that is still in hand from an earlier attempt is used again, and a leaf that has its words keeps them. Nobody else
//! sees a leaf in hand, so its words are plain writes.
//!
//! # Validate
//!
//! A descent has read as little as it could. A node that is replaced is copied from words that were read, and a word that is
//! written stands in for one that was known. So `Validate` sees all words of the cells that the change writes (`Cells`), and
//! then checks each of them, both from the top down:
//!
//! ```text
//! read P ──► read N ──► read C ──► check P ──► check N ──► check C ──► Unchanged
//!                                     └─ the word is another ─┴───────────┴──► Changed
//! ```
//!
//! N is the cell where the key stands, and is always there. P is the cell above, and C a node below, where they are written
//! too (`Role`). Words that are known are not read again. Each check comes after all reads, also where nothing was
//! left to read: an unchanged version word shows that at this step there is a tree that has all that was noted, and not only
//! the words of that cell (`WasVouched` of `art_plan`). Without the second check a plan could join words of different trees.
//!
//! Of C the header is read first. In a tree the path of a node has at most 63 bytes with its prefix. Where the header tells a prefix
//! with which that of C has more, no other word of C is read: its check comes at once, and fails (`Torn`).
//!
//! # Naming
//!
//! C is a node that no descent led to: one word of N names it. Before it is validated it is stamped, and N is checked
//! (`Naming`; `src/naming.rt` teaches it).
//!
//! The checks of N and P then show one thing more: C is neither of them, so a plan locks three cells and none twice. A node is
//! not its own child. And were C the cell P, the stamp of P would have got the path of C too at the first check of N, and no tree
//! has a node with a child at a path that is shorter than its own.
//!
//! # Runs
//!
//! Who has a carrier of steps at hand need not make them one by one. A reserve and a validation run themselves (`run`): they
//! ask, make the step and hear the answer until they have ended. Each step takes one turn. The last turn is left, so that what
//! comes after the machine can still be asked for. `hurry` of an attempt goes by these runs. A naming has two steps at most and no
//! `run`: `hurry` asks for each and makes it.
//!
//! # What stands beside it
//!
//! `Attempt` is a value of scalars with `next` and `told`: its job, and the stage where it stands. A stage carries what is known
//! there, and no more: the finding while the place is sought; then the place (`Placed`), with what is done there (`Part`) and the
//! case of it, once it was chosen; then the making of the change. A part runs, and is told its answers, where it stands: the place
//! is copied only where the attempt leaves the part.
//!
//! All that is large stands in the `Room`: the row, the leaf that goes, the numbers in hand, the words that were read, the bodies
//! of the cells that are written, the change. The room's row stays as it is, but for the number that its leaf has.
//!
//! # What is proved
//!
//! Each step may be made, and each answer keeps what the machine knows (`Fits`). How it ends is said of the view with which it
//! began (`EndFits`), with the grounds of each refusal. The place and the case of a change are fields of what is known of it from its
//! first step on: the machine has no more need of them.
//!
//! While numbers come, nothing of the view changes but steps, failures, what was found, and the hand. A reserve is `Full` only
//! where a number of that pool was wanted, and each free word was found without a bit or lost its bit to another pass. It makes
//! at most two steps for each free word of the two pools, and ten. A naming and a validation only read. They make at most two
//! steps and 798. Where a validation ends `Unchanged`, the key stands where it stood, all words are known, and each cell was
//! checked after that; where `Changed`, one step failed.
#![tactic(auto)]

mod attempts;
mod changes;
mod driver;
mod leaves;
mod naming;
mod places;
mod reserve;
mod supplies;
mod validate;

pub use art_plan;
pub use attempts::{Attempt, Case, Ending, Job, Part, Room, Stage};
pub use driver::make;
pub use naming::{Named, Naming};
pub use reserve::{Demand, Reserve, Reserved};
pub use validate::{Cells, Role, Validate, Validated};
