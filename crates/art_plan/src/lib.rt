//! A change of the tree: planned as a value, and made with one commit.
//!
//! # The problem
//!
//! A pass has found what to change, and read and checked what it found (DaMoN 2016). Now it locks just the cells that it
//! writes, by upgrading their stamps. Another pass may have been there first: then the upgrade fails, and nothing may be
//! left locked or written. Once all are locked nobody else can change them, and all that was noted under their stamps goes on
//! holding. Then the words are written one after another, and no reader takes what it sees of them for true, since the
//! version words stay locked until the cells are released. The first release is the commit: at that one step the tree is
//! changed, and the event is made.
//!
//! So a change is planned first, without a step, and then made.
//!
//! # A change
//!
//! A `Change` says what is to be done before the first cell is locked:
//!
//! | part | what it is |
//! |---|---|
//! | `targets` | the cells that it locks, from the top down, each by its stamp, and whether it is obsolete afterwards |
//! | `puts` | the words that they get, one after another |
//! | `writes` | room for the words of one of them, from when they are planned until they are put |
//! | `node`, `body` | the node that it makes, if it makes one, with all its words |
//! | `copy` | the copy that it makes of a worn node, if it renews one |
//! | `leaf` | the leaf that it links, if it links one |
//! | `unlinked` | what goes: a leaf, a node |
//! | `deed` | the command, with its answer |
//!
//! # A plan
//!
//! `IsPlanned` (`specs/Changes.antt`) is what has to be shown of a change before it may be made, of a pass that has read
//! and checked its targets: each may be upgraded, and no two are one cell; each word that is put stands at a place of its
//! target, and a child word names what there is; the number of the new node is in hand; just the nodes that go become
//! obsolete. And once all cells are held with their new words (`IsReady`), the commit may be made: in every tree that is as
//! the pass knows it, what is written is a commit of the deed.
//!
//! That the words of a target are those that were noted under its stamp is known only once it is locked, so `IsReady` speaks
//! of the words that were found then, which agree with the notes (`IsLocked`).
//!
//! A store under a lock costs the passes that wait for it, so the planners put only words that change (`PutsChanges`,
//! `specs/NewWords.antt`): another word was read at each place, and no place is put twice.
//!
//! # The parts
//!
//! A change is filled in place, part by part: `begin` empties it, and `lock`, `put`, `make` and `unlink` give it what it
//! locks, writes, makes and unlinks. `added`, `replaced` and `dropped` plan the words by which a `Site`, where a child word
//! stands, gets a child, another one, or none: for a node by the plans of `art_node`, for the anchor its one word.
//!
//! | module | what stands there |
//! |---|---|
//! | `changes`, `sites`, `parts`, `renewals` | what a change is, and the parts of which it is made |
//! | `insert` | the four changes of an insert |
//! | `remove` | the four changes of a removal |
//! | `choose_insert` | which change an insert makes, by where its key stands, planned from the words that a descent kept |
//! | `choose_remove` | which change a removal makes, by where its leaf stands |
//! | `apply` | the machine that makes a change that was planned |
//!
//! # How it is made
//!
//! ```text
//! upgrade ── the targets, from the top down ──┐ one fails: those that are locked are released unchanged, and it has failed
//!    ▼
//! claim ──── the new node, whose number is in hand, then the copy
//!    ▼
//! write ──── all words of the new node, then of the copy, then the words that are put into the targets
//!    ▼
//! commit ─── release of the uppermost target: the event
//!    ▼
//! release ── the other targets from the top down, as obsolete where they leave the tree; then the new node, then the copy
//! ```
//!
//! All upgrades come before the claims and the first write: a claimed node could not be given up, as it is locked, and not
//! obsolete as a number in hand is.
//!
//! `Apply` is the machine that makes them: a value of scalars with `next` and `told`, as that of `art_find`. The change stands
//! beside it and stays as it is. `perform` of `art_step` makes the step that it asks for.
//! `run` makes all steps that are left. The words of each new node, of which there may be 265, are written in a loop of their own.
//!
//! # Where it fails
//!
//! An upgrade finds another version word (`Changed`), or it is refused as its counter is at its end (`Exhausted`), which is no
//! step. What is locked by then is released, from the top down, with nothing written. Nothing is told and the numbers stay
//! in hand, so that whoever drives it may restart.
//!
//! # A worn node
//!
//! A counter that has come far is renewed: a copy of the node, with a number of its own, takes its place in the same change.
//! `renew` adds that to a plan where the node's parent is no target, and `renew_below` where the new node is the parent. The
//! result is a plan for two new nodes (`IsWhole`, `specs/Whole.antt`). No machine calls them yet.
//!
//! # What is proved
//!
//! What a planner makes is a plan. Each step of its making may be made (`next`), and each answer keeps what the machine knows
//! (`told`). When it has ended nothing is held; either the event of the deed was made, what comes left the hand and what goes
//! is in limbo (`IsCommitted`), or an upgrade failed for one of its two causes and nothing was told (`HasFailed`). It makes at
//! most 580 steps.
#![tactic(auto)]

mod apply;
mod changes;
mod choose_insert;
mod choose_remove;
mod insert;
mod remove;
mod renewals;

pub use apply::Apply;
pub use art_find;
pub use changes::{Below, Bodies, Change, Put, Site, Target, Twin, blank};
pub use choose_insert::{Needs, needed, plan_insert};
pub use choose_remove::{
    Loss, Lower, lost, other_child, plan_drop, plan_merge_leaf, plan_merge_node, plan_shrink,
};
pub use insert::NewLeaf;
pub use remove::OldLeaf;
pub use renewals::{renew, renew_below};
