//! Changes of the tree are commits: each law is the contract of a function with nothing to do.
ghost use Rattle.art_commit.specs.CommitLaws.{AddCommits, AnyCommits, ClaimedNodesCome, CopyCommits, DropCommits, ForkCommits, GrowCommits, MergeCommits, ReplaceCommits, SameCommits, ShrinkCommits};
ghost use Rattle.art_commit.specs.OtherDeeds.{AlikeCommits};
ghost use Rattle.art_commit.specs.Renewals.{MayRenew, StaysNamed};
ghost use Rattle.art_commit.specs.TwoChanges.{EmptyLookStays, JoinedCommits, TwoPartsCommit};

/// A change of the tree, written by a pass that holds just what it writes, is a commit of its command: any change, by
/// what it touches and where that stands afterwards, and each change of an insert, a removal or a put.
pub fn changes_commit()
    ensures general { AnyCommits }
    ensures members { SameCommits }
    ensures coming { ClaimedNodesCome }
    ensures add { AddCommits }
    ensures drop { DropCommits }
    ensures replace { ReplaceCommits }
    ensures grow { GrowCommits }
    ensures shrink { ShrinkCommits }
    ensures copy { CopyCommits }
    ensures fork { ForkCommits }
    ensures merge { MergeCommits }
{}

/// A change that is a commit of one deed is one of another that says the same of the rows: of a put where it inserts, say.
pub fn a_commit_serves_another_deed()
    ensures { AlikeCommits }
{}

/// Two changes at once, one after the other in the words that they write, are one commit, as a change that also renews a
/// node; an event that says nothing serves the one that changes no row.
pub fn two_changes_commit_as_one()
    ensures joined { JoinedCommits }
    ensures parts { TwoPartsCommit }
    ensures nothing { EmptyLookStays }
{}

/// A node gives way to its copy beside another change: where the change alone may be committed, both may, as one. The node stands
/// after the change where it stood, if the change does not write the cell that names it.
pub fn a_change_may_renew_a_node()
    ensures renewal { MayRenew }
    ensures stays { StaysNamed }
{}
