//! A worn node is renewed in the same change: its copy takes its place.
ghost use Rattle.std.specs.Prelude.{◌≡◌, ℕ, ◌+◌, ◌<◌, ◌≤◌, ◌∷◌, ◌++◌, [], List, Some, filter_map, length};
ghost use Rattle.art_cell.specs.Children.{child_word};
ghost use Rattle.art_cell.specs.Reads.{IsBodyOf, word_of};
ghost use Rattle.art_cell.specs.Words.{child_of};
ghost use Rattle.art_cell.specs.declared.cells.Link.TheVariants.{Node as node};
ghost use Rattle.art_cell.specs.declared.cells.Node.{Node as NodeOf};
ghost use Rattle.art_cell.specs.declared.cells.Layout.TheVariants as layouts;
ghost use Rattle.art_plan.specs.Changes.{targets, with_puts};
ghost use Rattle.art_plan.specs.Puts.{IsTaken, puts_of};
ghost use Rattle.art_plan.specs.Renewing.{IsRenewed, IsRenewedBelow, MayRenewAt, MayRenewBelow, kept_put, lower_targets, moved_put, twin_words};
ghost use Rattle.art_plan.specs.Seen.{gone, kept};
ghost use Rattle.art_plan.specs.Whole.{IsWhole};
ghost use Rattle.art_plan.specs.declared.changes.Put.{Put as PutOf};
ghost use Rattle.art_plan.specs.declared.changes.Target.{Target as TargetOf};
ghost use Rattle.art_plan.specs.declared.changes.Site.{Site as SiteOf};
ghost use Rattle.art_step.specs.Views.{Member};
ghost use Rattle.art_step.specs.declared.views.Sizes.{Sizes};
ghost use Rattle.art_step.specs.declared.views.View.{View};

use crate::changes::replaced;
use crate::{Below, Change, Put, Site, Target, Twin};
use arrayvec::ArrayVec;
use art_cell::{Body, Link, Node, NodeKind, Write};
use art_node::child_word as word_of_link;
use art_node4::Node4;
use art_step::Stamp;

/// Adds to a planned change the renewal of the worn node at the site, whose cell the change does not lock: the copy, under this
/// number, has the words that the node would have, and the site names it. The node may be the first cell that the change locks.
pub fn renew(change: &mut Change, site: &Site, worn: &Below, number: u32, first: bool)
    requires taken { IsTaken site.now }
    requires some { 0 < targets change.old }
    requires few { targets change.old ≤ 3 }
    requires words { length change.old.puts.items ≤ 32 }
    requires goes { length change.old.effects.unlinked.items < 3 }
    requires small { (p : PutOf) → Member p change.old.puts.items → (p.target < 3) × (p.place < 266) }
    ensures renewed { IsRenewed first site.now worn.now number change.old change.new }
    ensures whole { (z : Sizes) (u : View) (k : List ℕ) (depth : ℕ) → MayRenewAt z u change.old first site.now worn.now number k depth →
        IsWhole z u change.new }
{
    let copy = Node {
        layout: worn.body.layout,
        number,
    };
    replaced(site, word_of_link(Link::Node(copy)), &mut change.writes);
    let body = twin_body(worn.body, change.puts.as_slice(), first);
    let targets = moved_targets(site.stamp(), worn.stamp, change.targets.as_slice(), first);
    let puts = moved_puts(change.writes.as_slice(), change.puts.as_slice(), first);
    change.targets = targets;
    change.puts = puts;
    change
        .effects
        .unlinked
        .push(word_of_link(Link::Node(worn.node)));
    change.copy = Some(Twin { number, body });
}

/// Adds to a planned change of two cells the renewal of the second, a worn node, which the new node, a Node4, names at a byte
/// afterwards: the new node names the copy instead, under this number.
pub fn renew_below(change: &mut Change, worn: &Below, byte: u8, number: u32)
    requires body { IsBodyOf layouts.Node4 change.old.body }
    requires there { child_of layouts.Node4 (word_of change.old.body) byte ≡ Some (child_word (node worn.now.node)) }
    requires some { 0 < targets change.old }
    requires words { length change.old.puts.items ≤ 33 }
    requires goes { length change.old.effects.unlinked.items < 3 }
    requires small { (p : PutOf) → Member p change.old.puts.items → p.place < 266 }
    ensures renewed { IsRenewedBelow byte worn.now number change.old change.new }
    ensures whole { (z : Sizes) (u : View) (site : SiteOf) (o : NodeOf) (k : List ℕ) (depth : ℕ) →
        MayRenewBelow z u change.old site o worn.now number k depth → IsWhole z u change.new }
{
    let copy = Node {
        layout: worn.body.layout,
        number,
    };
    Node4::set(&mut change.body, byte, word_of_link(Link::Node(copy)));
    let body = written_body(worn.body, change.puts.as_slice(), 1);
    let targets = two_targets(change.targets.as_slice(), worn.stamp);
    let puts = kept_puts(change.puts.as_slice());
    change.targets = targets;
    change.puts = puts;
    change
        .effects
        .unlinked
        .push(word_of_link(Link::Node(worn.node)));
    change.copy = Some(Twin { number, body });
}

/// The words of the worn node, after those that the change puts into it.
fn twin_body(body: &Body, puts: &[Put], first: bool) -> Body
    requires small { (p : PutOf) → Member p puts.now → p.place < 266 }
    ensures layout { result.layout ≡ body.now.layout }
    ensures long { 266 ≤ length body.now.words }
    ensures words { result.words ≡ twin_words first puts.now body.now.words }
{
    if first {
        written_body(body, puts, 0)
    } else {
        same_body(body)
    }
}

/// The words of a body.
fn same_body(body: &Body) -> Body
    ensures same { result ≡ body.now }
    ensures long { 266 ≤ length body.now.words }
{
    let _ = body.words.as_slice();
    *body
}

/// The words of a body after those that are put into the target with this index.
fn written_body(body: &Body, puts: &[Put], target: usize) -> Body
    requires small { (p : PutOf) → Member p puts.now → p.place < 266 }
    ensures layout { result.layout ≡ body.now.layout }
    ensures long { 266 ≤ length body.now.words }
    ensures words { result.words ≡ with_puts target puts.now body.now.words }
{
    let mut twin = same_body(body);
    for put in puts {
        if put.target == target {
            twin.words[put.place] = put.value;
        }
    }
    twin
}

/// The first of the targets, and the worn node.
fn two_targets(targets: &[Target], worn: Stamp) -> ArrayVec<Target, 5>
    requires some { 0 < length targets.now }
    ensures { (x : TargetOf) (xs : List TargetOf) → targets.now ≡ x ∷ xs → result.items ≡ x ∷ gone worn ∷ [] }
{
    let mut kept = ArrayVec::new();
    kept.push(targets[0]);
    kept.push(Target {
        stamp: worn,
        obsolete: true,
    });
    kept
}

/// The words but for those of the second target.
fn kept_puts(puts: &[Put]) -> ArrayVec<Put, 33>
    requires few { length puts.now ≤ 33 }
    ensures { result.items ≡ filter_map kept_put puts.now }
{
    let mut kept = ArrayVec::new();
    for put in puts {
        if put.target != 1 {
            kept.push(*put);
        }
    }
    kept
}

/// The site's cell, the worn node, and the cells below it.
fn moved_targets(above: Stamp, worn: Stamp, targets: &[Target], first: bool) -> ArrayVec<Target, 5>
    requires some { 0 < length targets.now }
    requires few { length targets.now ≤ 3 }
    ensures { result.items ≡ kept above ∷ gone worn ∷ lower_targets first targets.now }
{
    let mut moved = ArrayVec::new();
    moved.push(Target {
        stamp: above,
        obsolete: false,
    });
    moved.push(Target {
        stamp: worn,
        obsolete: true,
    });
    let lower = if first { &targets[1..] } else { targets };
    for target in lower {
        moved.push(*target);
    }
    moved
}

/// The word that names the copy, and the words of the cells below the worn node.
fn moved_puts(writes: &[Write], puts: &[Put], first: bool) -> ArrayVec<Put, 33>
    requires room { length writes.now + length puts.now ≤ 33 }
    requires small { (p : PutOf) → Member p puts.now → p.target < 3 }
    ensures { result.items ≡ puts_of 0 writes.now ++ filter_map (moved_put first) puts.now }
{
    let mut moved = ArrayVec::new();
    for write in writes {
        moved.push(Put {
            target: 0,
            place: write.place,
            value: write.value,
        });
    }
    for put in puts {
        match moved_to(*put, first) {
            Some(put) => moved.push(put),
            None => {}
        }
    }
    moved
}

/// Where a word goes.
fn moved_to(put: Put, first: bool) -> Option<Put>
    requires { put.target < 3 }
    ensures { result ≡ moved_put first put }
{
    if !first {
        return Some(Put {
            target: put.target + 2,
            ..put
        });
    }
    if put.target == 0 {
        return None;
    }
    Some(Put {
        target: put.target + 1,
        ..put
    })
}
