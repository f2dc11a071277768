//! Changes of the tree are commits. Nothing runs here: each law is the contract of a function with nothing to do.
//!
//! A pass that has locked all cells which it changes, and written their new words, commits: at one step all of them have
//! their new words, and one event joins the history. What it may commit is asked of every tree that is as the pass knows
//! it (`May` on the page of a commit, in `art_step`): with s the words of such a tree, and s' the same but for the new words of the cells that
//! it holds (`Before`), `Commits` has to hold. That is: s' is a tree again, in words of their forms; its rows are those
//! that the event leaves, and the event is so; each linked node that the pass does not hold keeps its path; and of all
//! cells just those leave the tree that are said to, and just those come that are said to, out of the pass's hand.
//!
//! The laws give `Commits` for each change of the tree that `art_tree` has a law of, from what a pass has by then: the
//! words that it wrote (`WritesPlace`, `WritesNode`, `KeepsChildren`), the leaf and the node in its hand (`HasLeaf`,
//! `HasNode`), that it holds just the cells of the change (`HoldsJust`), and what its stamps vouch for: the path of the
//! place that is written and what it held. `AnyCommits` is the law of all changes, by what a change touches and where that
//! stands afterwards: with it a new change of the tree needs no more than its own law of `art_tree`. What leaves and what
//! comes are lists of which the members count (`SameCommits`), and what a commit brings are its leaf and the nodes that
//! were claimed (`ClaimedNodesCome`).
//!
//! Two changes at once are one commit (`JoinedCommits`), as an insert that also renews a worn node on its way: s becomes t
//! by the one and t becomes s' by the other, where t is words that never stand in the cells. Each is a commit of its own
//! for a view that holds what that change needs (`HasBoth`); the change that does nothing to the rows has an event that
//! says nothing (`empty_look`). `TwoPartsCommit` makes t and both views out of the pass's own: a cell that both write is
//! held for the first with the words between the two as its new ones, and for the second with these as its old ones.
//! `proofs/AddedAndRenewed.antt` has it at work, for a leaf that comes while a node gives way to its copy, and
//! `proofs/RenewedAndForked.antt` where a new node comes above the copy. `MayRenew` joins a renewal to any change.
//!
//! # Letters
//!
//! Those of `art_tree`, and:
//!
//! | | |
//! |---|---|
//! | z | how many cells there are |
//! | v | what the pass knows, a view |
//! | s, t, s' | the words of all cells before, between two changes, and after |
//! | us, ls | the cells that leave the tree, and those that come into it |
//! | ts, es | the touched cells, and where they stand after the change, each with its path |
//! | hs, hs'; h | cells that are held for the first change, and for the second; one that is held |
//! | xs; i | numbers in hand; one of them, or a leaf |
//! | mid | the words of each held cell between two changes |
#![tactic(auto)]

mod commit_laws;

pub use commit_laws::{
    a_change_may_renew_a_node, a_commit_serves_another_deed, changes_commit,
    two_changes_commit_as_one,
};
