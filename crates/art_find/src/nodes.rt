//! The straight way of a finding, from the anchor down to a leaf.
//!
//! It makes the steps of a finding in their order, and keeps in hand only what the next one needs: the stage at which the finding
//! would stand is named in the contracts alone. Each word of a cell is handed to a `Sink`: a change keeps it, a get does not. The cell
//! above is kept. Whatever stops it (a version word that is locked or changed, an end of the key, a child that is none, few turns) is
//! left to the finding: its stage is put back, and it hears the answer, or goes on from there. So is the check that decides.
//!
//! A step answers what the next one needs; or, where it stops, whether the finding goes on (`Err`): it restarts where a version word
//! was locked or changed. Each contract says that from wherever steps had come to the one finding, they reach the other (`LeadsOn`), so
//! that the steps of a node are put together by their contracts alone.
ghost use Rattle.std.specs.Prelude.{◌≡◌, ◌+◌, ◌*◌, ◌<◌, ◌≤◌, Ok, IfOk, MatchResult, length, true};
ghost use Rattle.art_find.specs.Compares.{at_first};
ghost use Rattle.art_find.specs.Nodes.{Arrives, Came, LeadsOn, FitsAt, Moment, descent_search, finding_below, finding_child, finding_search, finding_at, moment, IsHeaderRead};
ghost use Rattle.art_find.specs.declared.descents.Stage.TheVariants as stages;
ghost use Rattle.art_find.specs.declared.findings.Finding.{Finding as FindingOf};
ghost use Rattle.art_step.specs.declared.views.Sizes.{Sizes};
ghost use Rattle.art_step.specs.declared.views.View.{View};

use crate::descents::{Beside, below as below_stage, beside_word};
use crate::driver::{read_leaf_word, read_word};
use crate::read_sets::Sink;
use crate::reads::staged;
use crate::{Above, Descent, Finding, LeafSeen, NodeSeen, Stage};
use art_cell::{Cell, Link, Node};
use art_node::{Sought, first_word, next_word, read_header};
use art_path::Compared;
use art_step::{Stamp, Steps};

/// A stamped cell, and what it names on the key's way, to which so many bytes lead.
#[derive(Clone, Copy)]
pub(crate) struct Child {
    pub depth: usize,
    pub stamp: Stamp,
    pub link: Link,
}

/// What is on the key's way, to which so many bytes lead, and the checked cell that names it.
#[derive(Clone, Copy)]
pub(crate) struct Below {
    pub depth: usize,
    pub above: Stamp,
    pub link: Link,
}

/// Where a node is searched for the child of the key's byte at this depth.
#[derive(Clone, Copy)]
pub(crate) struct NodeSearch {
    pub depth: usize,
    pub seen: NodeSeen,
    pub sought: Sought,
}

/// So many turns must be left where a node is entered, or a leaf. One is left at the end.
const ENOUGH: u32 = 8;

impl Finding {
    /// Goes straight down, from node to node, where it is at its beginning or stands below a checked cell, as far as nothing stops
    /// it. Whether it goes on: else the last step failed, and it restarts.
    #[inline(always)]
    pub(crate) fn pass_nodes<S: Steps, K: Sink>(
        &mut self,
        steps: &mut S,
        sink: &mut K,
        key: &[u8],
        left: &mut u32,
    ) -> bool
        requires few { length key.now ≤ 64 }
        requires left { 0 < left.old }
        requires found { FitsAt key.now self.old
            (moment (S.sizes steps.old) (S.view steps.old) (K.kept sink.old) left.old) }
        ensures only { S.only steps.old steps.new }
        ensures left { 0 < left.new }
        ensures less { left.new ≤ left.old }
        ensures step { self.old.descent.stage ≡ stages.Start → 8 < left.old → left.new < left.old }
        ensures goes { (m : FindingOf) (a : Moment) →
            Came key.now m a self.old (moment (S.sizes steps.old) (S.view steps.old) (K.kept sink.old) left.old) →
            Arrives result key.now m a self.new (moment (S.sizes steps.new) (S.view steps.new) (K.kept sink.new) left.new) }
    {
        if *left <= ENOUGH {
            return true;
        }
        let mut below = match self.first(steps, sink, key, left) {
            Ok(below) => below,
            Err(on) => return on,
        };
        while *left >= ENOUGH {
            match self.pass_link(steps, sink, key, left, below) {
                Ok(next) => below = next,
                Err(on) => return on,
            }
        }
        let Below { depth, above, link } = below;
        let stage = below_stage(above, link);
        self.descent = Descent { depth, stage };
        true
    }

    /// What is below the cell where it stands, or below the anchor.
    #[inline(always)]
    fn first<S: Steps, K: Sink>(
        &mut self,
        steps: &mut S,
        sink: &mut K,
        key: &[u8],
        left: &mut u32,
    ) -> Result<Below, bool>
        requires few { length key.now ≤ 64 }
        requires left { 3 < left.old }
        requires found { FitsAt key.now self.old
            (moment (S.sizes steps.old) (S.view steps.old) (K.kept sink.old) left.old) }
        ensures only { S.only steps.old steps.new }
        ensures left { 0 < left.new }
        ensures less { left.new ≤ left.old }
        ensures step { self.old.descent.stage ≡ stages.Start → left.new < left.old }
        ensures goes { LeadsOn (finding_below self.new.above) result key.now self.old
            (moment (S.sizes steps.old) (S.view steps.old) (K.kept sink.old) left.old)
            self.new (moment (S.sizes steps.new) (S.view steps.new) (K.kept sink.new) left.new) }
    {
        match self.descent.stage {
            Stage::Start => self.root(steps, sink, key, left),
            Stage::Below { above, node } => Ok(Below {
                depth: self.descent.depth,
                above,
                link: Link::Node(node),
            }),
            _ => Err(true),
        }
    }

    /// What is below the anchor.
    #[inline(always)]
    fn root<S: Steps, K: Sink>(
        &mut self,
        steps: &mut S,
        sink: &mut K,
        key: &[u8],
        left: &mut u32,
    ) -> Result<Below, bool>
        requires few { length key.now ≤ 64 }
        requires left { 3 < left.old }
        requires found { FitsAt key.now (finding_at self.old.above self.old.descent.depth stages.Start)
            (moment (S.sizes steps.old) (S.view steps.old) (K.kept sink.old) left.old) }
        ensures only { S.only steps.old steps.new }
        ensures left { 0 < left.new }
        ensures less { left.new < left.old }
        ensures goes { LeadsOn (finding_below self.new.above) result key.now
            (finding_at self.old.above self.old.descent.depth stages.Start)
            (moment (S.sizes steps.old) (S.view steps.old) (K.kept sink.old) left.old)
            self.new (moment (S.sizes steps.new) (S.view steps.new) (K.kept sink.new) left.new) }
    {
        let stamp = self.stamp_anchor(steps, sink, key, left)?;
        let child = self.root_child(steps, sink, key, left, stamp)?;
        self.pass_child(steps, sink, key, left, child)
    }

    /// Stamps the anchor: the finding stands there from now on.
    #[inline(always)]
    fn stamp_anchor<S: Steps, K: Sink>(
        &mut self,
        steps: &mut S,
        sink: &mut K,
        key: &[u8],
        left: &mut u32,
    ) -> Result<Stamp, bool>
        requires few { length key.now ≤ 64 }
        requires left { 0 < left.old }
        requires found { FitsAt key.now (finding_at self.old.above self.old.descent.depth stages.Start)
            (moment (S.sizes steps.old) (S.view steps.old) (K.kept sink.old) left.old) }
        ensures only { S.only steps.old steps.new }
        ensures left { left.new + 1 ≡ left.old }
        ensures goes { LeadsOn (λ x. finding_at self.new.above self.new.descent.depth (stages.Anchor x)) result key.now
            (finding_at self.old.above self.old.descent.depth stages.Start)
            (moment (S.sizes steps.old) (S.view steps.old) (K.kept sink.old) left.old)
            self.new (moment (S.sizes steps.new) (S.view steps.new) (K.kept sink.new) left.new) }
    {
        let _ = key;
        *left -= 1;
        match steps.begin(Cell::Anchor) {
            Ok(stamp) => {
                self.above = None;
                sink.clear();
                Ok(stamp)
            }
            begun => {
                self.descent.stage = Stage::Start;
                Err(self.hear_begun(sink, Stage::Start, Cell::Anchor, begun))
            }
        }
    }

    /// Reads what the anchor names.
    #[inline(always)]
    fn root_child<S: Steps, K: Sink>(
        &mut self,
        steps: &mut S,
        sink: &mut K,
        key: &[u8],
        left: &mut u32,
        stamp: Stamp,
    ) -> Result<Child, bool>
        requires few { length key.now ≤ 64 }
        requires left { 0 < left.old }
        requires found { FitsAt key.now (finding_at self.old.above self.old.descent.depth (stages.Anchor stamp))
            (moment (S.sizes steps.old) (S.view steps.old) (K.kept sink.old) left.old) }
        ensures only { S.only steps.old steps.new }
        ensures left { left.new + 1 ≡ left.old }
        ensures goes { LeadsOn (finding_child self.new.above) result key.now
            (finding_at self.old.above self.old.descent.depth (stages.Anchor stamp))
            (moment (S.sizes steps.old) (S.view steps.old) (K.kept sink.old) left.old)
            self.new (moment (S.sizes steps.new) (S.view steps.new) (K.kept sink.new) left.new) }
    {
        *left -= 1;
        let word = read_word(steps, stamp, 1);
        let Some(link) = Link::named_by(word) else {
            let stage = Stage::Anchor(stamp);
            self.descent.stage = stage;
            self.hear_word(sink, key, stage, stamp, 1, word);
            return Err(true);
        };
        sink.note(1, word);
        Ok(Child {
            depth: 0,
            stamp,
            link,
        })
    }

    /// What is below the node. A leaf is read, and then the finding stands where its key was compared.
    #[inline(always)]
    fn pass_link<S: Steps, K: Sink>(
        &mut self,
        steps: &mut S,
        sink: &mut K,
        key: &[u8],
        left: &mut u32,
        below: Below,
    ) -> Result<Below, bool>
        requires few { length key.now ≤ 64 }
        requires left { 8 ≤ left.old }
        requires found { FitsAt key.now (finding_below self.old.above below)
            (moment (S.sizes steps.old) (S.view steps.old) (K.kept sink.old) left.old) }
        ensures only { S.only steps.old steps.new }
        ensures left { 0 < left.new }
        ensures less { left.new < left.old }
        ensures goes { LeadsOn (finding_below self.new.above) result key.now
            (finding_below self.old.above below)
            (moment (S.sizes steps.old) (S.view steps.old) (K.kept sink.old) left.old)
            self.new (moment (S.sizes steps.new) (S.view steps.new) (K.kept sink.new) left.new) }
    {
        match below.link {
            Link::Node(node) => self.enter_node(steps, sink, key, left, below, node),
            Link::Leaf(leaf) => self.read_leaf(steps, sink, key, left, below, leaf),
        }
    }

    /// What is below the node.
    #[inline(always)]
    fn enter_node<S: Steps, K: Sink>(
        &mut self,
        steps: &mut S,
        sink: &mut K,
        key: &[u8],
        left: &mut u32,
        below: Below,
        node: Node,
    ) -> Result<Below, bool>
        requires few { length key.now ≤ 64 }
        requires left { 8 ≤ left.old }
        requires found { FitsAt key.now (finding_at self.old.above below.depth (stages.Below below.above node))
            (moment (S.sizes steps.old) (S.view steps.old) (K.kept sink.old) left.old) }
        ensures only { S.only steps.old steps.new }
        ensures left { 0 < left.new }
        ensures less { left.new < left.old }
        ensures goes { LeadsOn (finding_below self.new.above) result key.now
            (finding_at self.old.above below.depth (stages.Below below.above node))
            (moment (S.sizes steps.old) (S.view steps.old) (K.kept sink.old) left.old)
            self.new (moment (S.sizes steps.new) (S.view steps.new) (K.kept sink.new) left.new) }
    {
        let stamp = self.stamp_node(steps, sink, key, left, below, node)?;
        self.check_above(steps, sink, key, left, below, node, stamp)?;
        let found = self.search(steps, sink, key, left, below.depth, node, stamp)?;
        let place = self.search_on(steps, sink, key, left, found)?;
        let child = self.child_at(steps, sink, key, left, found.depth, found.seen, place)?;
        self.pass_child(steps, sink, key, left, child)
    }

    /// Stamps the node.
    #[inline(always)]
    fn stamp_node<S: Steps, K: Sink>(
        &mut self,
        steps: &mut S,
        sink: &mut K,
        key: &[u8],
        left: &mut u32,
        below: Below,
        node: Node,
    ) -> Result<Stamp, bool>
        requires few { length key.now ≤ 64 }
        requires left { 0 < left.old }
        requires found { FitsAt key.now (finding_at self.old.above below.depth (stages.Below below.above node))
            (moment (S.sizes steps.old) (S.view steps.old) (K.kept sink.old) left.old) }
        ensures only { S.only steps.old steps.new }
        ensures left { left.new + 1 ≡ left.old }
        ensures goes { LeadsOn (λ y. finding_at self.new.above below.depth (stages.Both below.above y node)) result key.now
            (finding_at self.old.above below.depth (stages.Below below.above node))
            (moment (S.sizes steps.old) (S.view steps.old) (K.kept sink.old) left.old)
            self.new (moment (S.sizes steps.new) (S.view steps.new) (K.kept sink.new) left.new) }
    {
        let _ = key;
        let Below { depth, above, .. } = below;
        *left -= 1;
        match steps.begin(Cell::Node(node)) {
            Ok(stamp) => Ok(stamp),
            begun => {
                let stage = Stage::Below { above, node };
                self.descent = Descent { depth, stage };
                Err(self.hear_begun(sink, stage, Cell::Node(node), begun))
            }
        }
    }

    /// Checks the cell that names the stamped node: the finding stands on the node from now on.
    #[inline(always)]
    fn check_above<S: Steps, K: Sink>(
        &mut self,
        steps: &mut S,
        sink: &mut K,
        key: &[u8],
        left: &mut u32,
        below: Below,
        node: Node,
        stamp: Stamp,
    ) -> Result<(), bool>
        requires few { length key.now ≤ 64 }
        requires left { 0 < left.old }
        requires found { FitsAt key.now (finding_at self.old.above below.depth (stages.Both below.above stamp node))
            (moment (S.sizes steps.old) (S.view steps.old) (K.kept sink.old) left.old) }
        ensures only { S.only steps.old steps.new }
        ensures left { left.new + 1 ≡ left.old }
        ensures goes { LeadsOn (λ x. finding_at self.new.above below.depth (stages.Header stamp node)) result key.now
            (finding_at self.old.above below.depth (stages.Both below.above stamp node))
            (moment (S.sizes steps.old) (S.view steps.old) (K.kept sink.old) left.old)
            self.new (moment (S.sizes steps.new) (S.view steps.new) (K.kept sink.new) left.new) }
    {
        let _ = key;
        let Below { depth, above, .. } = below;
        *left -= 1;
        match steps.check(above, None) {
            Ok(()) => {
                self.above = Some(Above {
                    stamp: above,
                    depth,
                });
                sink.go_down();
                Ok(())
            }
            checked => {
                let stage = Stage::Both { above, stamp, node };
                self.descent = Descent { depth, stage };
                Err(self.hear_checked(sink, stage, above, checked))
            }
        }
    }

    /// Reads the header of a node, and its prefix: where to look for the child of the key's next byte.
    #[inline(always)]
    fn search<S: Steps, K: Sink>(
        &mut self,
        steps: &mut S,
        sink: &mut K,
        key: &[u8],
        left: &mut u32,
        depth: usize,
        node: Node,
        stamp: Stamp,
    ) -> Result<NodeSearch, bool>
        requires few { length key.now ≤ 64 }
        requires left { 4 < left.old }
        requires found { FitsAt key.now (finding_at self.old.above depth (stages.Header stamp node))
            (moment (S.sizes steps.old) (S.view steps.old) (K.kept sink.old) left.old) }
        ensures only { S.only steps.old steps.new }
        ensures left { 3 < left.new }
        ensures less { left.new < left.old }
        ensures deep { IfOk result (λ r. r.depth < length key.now) }
        ensures goes { LeadsOn (finding_search self.new.above) result key.now
            (finding_at self.old.above depth (stages.Header stamp node))
            (moment (S.sizes steps.old) (S.view steps.old) (K.kept sink.old) left.old)
            self.new (moment (S.sizes steps.new) (S.view steps.new) (K.kept sink.new) left.new) }
    {
        *left -= 1;
        let header = read_word(steps, stamp, 1);
        let seen = NodeSeen {
            stamp,
            node,
            header,
        };
        if read_header(header).prefix_length > 0 || depth >= key.len() {
            return self.search_past(steps, sink, key, left, depth, seen);
        }
        sink.note(1, header);
        Ok(NodeSearch {
            depth,
            seen,
            sought: first_word(node.layout, key[depth], header),
        })
    }

    /// The header was read, and tells a prefix, or the key has no byte more: the finding hears it, and goes on behind the prefix. It is
    /// apart from the search since the stages that it puts in memory would be zeroed at each node.
    fn search_past<S: Steps, K: Sink>(
        &mut self,
        steps: &mut S,
        sink: &mut K,
        key: &[u8],
        left: &mut u32,
        depth: usize,
        seen: NodeSeen,
    ) -> Result<NodeSearch, bool>
        requires few { length key.now ≤ 64 }
        requires left { 3 < left.old }
        requires read { (z : Sizes) × (v : View) × IsHeaderRead z v (S.sizes steps.old) (S.view steps.old) seen ×
            FitsAt key.now (finding_at self.old.above depth (stages.Header seen.stamp seen.node))
            (moment z v (K.kept sink.old) (left.old + 1)) }
        ensures only { S.only steps.old steps.new }
        ensures left { 3 < left.new }
        ensures less { left.new ≤ left.old }
        ensures deep { IfOk result (λ r. r.depth < length key.now) }
        ensures goes { (z : Sizes) (v : View) → IsHeaderRead z v (S.sizes steps.old) (S.view steps.old) seen →
            LeadsOn (finding_search self.new.above) result key.now
            (finding_at self.old.above depth (stages.Header seen.stamp seen.node)) (moment z v (K.kept sink.old) (left.old + 1))
            self.new (moment (S.sizes steps.new) (S.view steps.new) (K.kept sink.new) left.new) }
    {
        let NodeSeen { stamp, node, .. } = seen;
        let stage = Stage::Header { stamp, node };
        self.descent = Descent { depth, stage };
        self.hear_word(sink, key, stage, stamp, 1, seen.header);
        self.pass_prefix(steps, sink, key, left)
    }

    /// Compares what is left of a prefix with the key: where to look for the child of the byte behind it, if the key goes on so.
    fn pass_prefix<S: Steps, K: Sink>(
        &mut self,
        steps: &mut S,
        sink: &mut K,
        key: &[u8],
        left: &mut u32,
    ) -> Result<NodeSearch, bool>
        requires few { length key.now ≤ 64 }
        requires left { 3 < left.old }
        requires found { FitsAt key.now self.old
            (moment (S.sizes steps.old) (S.view steps.old) (K.kept sink.old) left.old) }
        ensures only { S.only steps.old steps.new }
        ensures left { 3 < left.new }
        ensures less { left.new ≤ left.old }
        ensures deep { IfOk result (λ r. r.depth < length key.now) }
        ensures goes { LeadsOn (finding_search self.new.above) result key.now self.old
            (moment (S.sizes steps.old) (S.view steps.old) (K.kept sink.old) left.old)
            self.new (moment (S.sizes steps.new) (S.view steps.new) (K.kept sink.new) left.new) }
    {
        loop {
            let stage = self.descent.stage;
            let Stage::Prefix { seen, number, .. } = stage else {
                return searched(&self.descent);
            };
            if *left < 5 {
                return Err(true);
            }
            *left -= 1;
            let place = 2 + usize::from(number);
            let word = read_word(steps, seen.stamp, place);
            self.hear_word(sink, key, stage, seen.stamp, place, word);
        }
    }

    /// Reads one word after another, until it is known where the child word stands.
    #[inline(always)]
    fn search_on<S: Steps, K: Sink>(
        &mut self,
        steps: &mut S,
        sink: &mut K,
        key: &[u8],
        left: &mut u32,
        found: NodeSearch,
    ) -> Result<usize, bool>
        requires few { length key.now ≤ 64 }
        requires left { 3 < left.old }
        requires deep { found.depth < length key.now }
        requires found { FitsAt key.now (finding_search self.old.above found)
            (moment (S.sizes steps.old) (S.view steps.old) (K.kept sink.old) left.old) }
        ensures only { S.only steps.old steps.new }
        ensures left { 3 < left.new }
        ensures less { left.new ≤ left.old }
        ensures goes { LeadsOn (λ place. finding_at self.new.above found.depth (stages.Slot found.seen place)) result key.now
            (finding_search self.old.above found)
            (moment (S.sizes steps.old) (S.view steps.old) (K.kept sink.old) left.old)
            self.new (moment (S.sizes steps.new) (S.view steps.new) (K.kept sink.new) left.new) }
    {
        let NodeSearch { depth, seen, .. } = found;
        let mut sought = found.sought;
        loop {
            let number = match sought {
                Sought::Keys(number) if *left >= 5 => number,
                Sought::Child(place) => return Ok(place),
                _ => {
                    let stage = staged(sought, seen);
                    self.descent = Descent { depth, stage };
                    return Err(true);
                }
            };
            *left -= 1;
            let place = 10 + usize::from(number);
            let word = read_word(steps, seen.stamp, place);
            sink.note(place, word);
            sought = next_word(seen.node.layout, key[depth], seen.header, number, word);
        }
    }

    /// Reads what the node names at the place.
    #[inline(always)]
    fn child_at<S: Steps, K: Sink>(
        &mut self,
        steps: &mut S,
        sink: &mut K,
        key: &[u8],
        left: &mut u32,
        depth: usize,
        seen: NodeSeen,
        place: usize,
    ) -> Result<Child, bool>
        requires few { length key.now ≤ 64 }
        requires left { 0 < left.old }
        requires found { FitsAt key.now (finding_at self.old.above depth (stages.Slot seen place))
            (moment (S.sizes steps.old) (S.view steps.old) (K.kept sink.old) left.old) }
        ensures only { S.only steps.old steps.new }
        ensures left { left.new + 1 ≡ left.old }
        ensures goes { LeadsOn (finding_child self.new.above) result key.now
            (finding_at self.old.above depth (stages.Slot seen place))
            (moment (S.sizes steps.old) (S.view steps.old) (K.kept sink.old) left.old)
            self.new (moment (S.sizes steps.new) (S.view steps.new) (K.kept sink.new) left.new) }
    {
        *left -= 1;
        let word = read_word(steps, seen.stamp, place);
        let Some(link) = Link::named_by(word) else {
            let stage = Stage::Slot { seen, place };
            self.descent = Descent { depth, stage };
            self.hear_word(sink, key, stage, seen.stamp, place, word);
            return Err(true);
        };
        sink.note(place, word);
        Ok(Child {
            depth: depth + 1,
            stamp: seen.stamp,
            link,
        })
    }

    /// Checks the cell that names the child.
    #[inline(always)]
    fn pass_child<S: Steps, K: Sink>(
        &mut self,
        steps: &mut S,
        sink: &mut K,
        key: &[u8],
        left: &mut u32,
        child: Child,
    ) -> Result<Below, bool>
        requires few { length key.now ≤ 64 }
        requires left { 0 < left.old }
        requires found { FitsAt key.now (finding_child self.old.above child)
            (moment (S.sizes steps.old) (S.view steps.old) (K.kept sink.old) left.old) }
        ensures only { S.only steps.old steps.new }
        ensures left { left.new + 1 ≡ left.old }
        ensures goes { LeadsOn (finding_below self.new.above) result key.now (finding_child self.old.above child)
            (moment (S.sizes steps.old) (S.view steps.old) (K.kept sink.old) left.old)
            self.new (moment (S.sizes steps.new) (S.view steps.new) (K.kept sink.new) left.new) }
    {
        let _ = key;
        let Child { depth, stamp, link } = child;
        *left -= 1;
        match steps.check(stamp, None) {
            Ok(()) => Ok(Below {
                depth,
                above: stamp,
                link,
            }),
            checked => {
                let stage = Stage::Child { stamp, link };
                self.descent = Descent { depth, stage };
                Err(self.hear_checked(sink, stage, stamp, checked))
            }
        }
    }

    /// Reads the leaf, and compares its key.
    #[inline(always)]
    fn read_leaf<S: Steps, K: Sink>(
        &mut self,
        steps: &mut S,
        sink: &K,
        key: &[u8],
        left: &mut u32,
        below: Below,
        leaf: u32,
    ) -> Result<Below, bool>
        requires few { length key.now ≤ 64 }
        requires left { 3 < left.old }
        requires found { FitsAt key.now (finding_at self.old.above below.depth (stages.Value below.above leaf))
            (moment (S.sizes steps.old) (S.view steps.old) (K.kept sink.now) left.old) }
        ensures only { S.only steps.old steps.new }
        ensures left { 0 < left.new }
        ensures less { left.new < left.old }
        ensures goes { LeadsOn (finding_below self.new.above) result key.now
            (finding_at self.old.above below.depth (stages.Value below.above leaf))
            (moment (S.sizes steps.old) (S.view steps.old) (K.kept sink.now) left.old)
            self.new (moment (S.sizes steps.new) (S.view steps.new) (K.kept sink.now) left.new) }
    {
        let value = self.leaf_value(steps, sink, key, left, below, leaf);
        let seen = self.leaf_count(steps, sink, key, left, below, leaf, value)?;
        self.compare_key(steps, sink, key, left, below.depth, seen);
        Err(true)
    }

    /// Reads the value of the leaf.
    #[inline(always)]
    fn leaf_value<S: Steps, K: Sink>(
        &self,
        steps: &mut S,
        sink: &K,
        key: &[u8],
        left: &mut u32,
        below: Below,
        leaf: u32,
    ) -> u64
        requires left { 0 < left.old }
        requires found { FitsAt key.now (finding_at self.now.above below.depth (stages.Value below.above leaf))
            (moment (S.sizes steps.old) (S.view steps.old) (K.kept sink.now) left.old) }
        ensures only { S.only steps.old steps.new }
        ensures left { left.new + 1 ≡ left.old }
        ensures goes { (m : FindingOf) (a : Moment) →
            Came key.now m a (finding_at self.now.above below.depth (stages.Value below.above leaf))
            (moment (S.sizes steps.old) (S.view steps.old) (K.kept sink.now) left.old) →
            Came key.now m a (finding_at self.now.above below.depth (stages.Length below.above leaf result))
            (moment (S.sizes steps.new) (S.view steps.new) (K.kept sink.now) left.new) }
    {
        let _ = sink;
        let _ = key;
        *left -= 1;
        read_leaf_word(steps, below.above, leaf, 0)
    }

    /// Reads how many bytes its key has.
    #[inline(always)]
    fn leaf_count<S: Steps, K: Sink>(
        &mut self,
        steps: &mut S,
        sink: &K,
        key: &[u8],
        left: &mut u32,
        below: Below,
        leaf: u32,
        value: u64,
    ) -> Result<LeafSeen, bool>
        requires few { length key.now ≤ 64 }
        requires left { 0 < left.old }
        requires found { FitsAt key.now (finding_at self.old.above below.depth (stages.Length below.above leaf value))
            (moment (S.sizes steps.old) (S.view steps.old) (K.kept sink.now) left.old) }
        ensures only { S.only steps.old steps.new }
        ensures left { left.new + 1 ≡ left.old }
        ensures goes { LeadsOn (λ x. finding_at self.new.above below.depth (stages.Bytes x 0 at_first)) result key.now
            (finding_at self.old.above below.depth (stages.Length below.above leaf value))
            (moment (S.sizes steps.old) (S.view steps.old) (K.kept sink.now) left.old)
            self.new (moment (S.sizes steps.new) (S.view steps.new) (K.kept sink.now) left.new) }
    {
        let _ = sink;
        let Below { depth, above, .. } = below;
        *left -= 1;
        let bytes = read_leaf_word(steps, above, leaf, 1);
        if bytes == 0 || bytes > 64 {
            let stage = Stage::Length {
                stamp: above,
                leaf,
                value,
            };
            self.descent = Descent { depth, stage };
            self.descent.read_at(stage, key, bytes);
            return Err(true);
        }
        Ok(LeafSeen {
            stamp: above,
            leaf,
            value,
            count: bytes as usize,
        })
    }

    /// Reads its key word by word, and compares it.
    #[inline(always)]
    fn compare_key<S: Steps, K: Sink>(
        &mut self,
        steps: &mut S,
        sink: &K,
        key: &[u8],
        left: &mut u32,
        depth: usize,
        seen: LeafSeen,
    )
        requires few { length key.now ≤ 64 }
        requires left { 1 < left.old }
        requires found { FitsAt key.now (finding_at self.old.above depth (stages.Bytes seen 0 at_first))
            (moment (S.sizes steps.old) (S.view steps.old) (K.kept sink.now) left.old) }
        ensures only { S.only steps.old steps.new }
        ensures left { 0 < left.new }
        ensures less { left.new ≤ left.old }
        ensures goes { (m : FindingOf) (a : Moment) →
            Came key.now m a (finding_at self.old.above depth (stages.Bytes seen 0 at_first))
            (moment (S.sizes steps.old) (S.view steps.old) (K.kept sink.now) left.old) →
            Came key.now m a self.new (moment (S.sizes steps.new) (S.view steps.new) (K.kept sink.now) left.new) }
    {
        let _ = sink;
        let mut number = 0;
        let mut before = Beside {
            compared: Compared::Same,
            byte: 0,
        };
        while *left > 2 && 8 * usize::from(number) + 8 < seen.count {
            *left -= 1;
            let word = read_leaf_word(steps, seen.stamp, seen.leaf, 2 + usize::from(number));
            before = beside_word(key, seen.count, number, word, before);
            number += 1;
        }
        *left -= 1;
        let word = read_leaf_word(steps, seen.stamp, seen.leaf, 2 + usize::from(number));
        // after the read: what was put in memory before one is read anew behind it
        let stage = Stage::Bytes {
            seen,
            number,
            before,
        };
        self.descent = Descent { depth, stage };
        self.descent.read_at(stage, key, word);
    }
}

/// Where the descent searches a node, or that the finding goes on.
#[inline(always)]
fn searched(descent: &Descent) -> Result<NodeSearch, bool>
    ensures { MatchResult result (λ r. descent_search r ≡ descent.now) (λ on. on ≡ true) }
{
    let (seen, sought) = match descent.stage {
        Stage::Keys { seen, number } => (seen, Sought::Keys(number)),
        Stage::Slot { seen, place } => (seen, Sought::Child(place)),
        _ => return Err(true),
    };
    Ok(NodeSearch {
        depth: descent.depth,
        seen,
        sought,
    })
}
