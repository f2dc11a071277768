//! A table closes, and its numbers are counted: free, named in the tree, or waiting.
ghost use Rattle.std.specs.Prelude.{◌<◌, ◌≤◌, length};
ghost use Rattle.art_shared.specs.Ended.{words_of};
ghost use Rattle.art_shared.specs.Tables.{IsPassOf};
ghost use Rattle.art_shared_uses.specs.Clients.{AreOf};

use art_cell::{Cell, Link, Node, Pool};
use art_epoch::Limbo;
use art_shared::{Ended, Pass, Shared};
use art_step::{Sizes, free_words, pool_of_layout};
use std::alloc::Global;
use std::process::Abort;

/// All pools.
pub(crate) const POOLS: [Pool; 5] = [Pool::Leaves, Pool::N4, Pool::N16, Pool::N48, Pool::N256];

/// More than there are links in a tree here.
const MOST: usize = 4096;

/// So many numbers of each pool.
#[derive(Clone, Copy)]
pub(crate) struct Counts {
    of: [u32; 5],
}

/// Where the pool stands among all pools.
fn index_of(pool: Pool) -> usize
    ensures { result < 5 }
{
    match pool {
        Pool::Leaves => 0,
        Pool::N4 => 1,
        Pool::N16 => 2,
        Pool::N48 => 3,
        Pool::N256 => 4,
    }
}

impl Counts {
    pub(crate) fn none() -> Counts {
        Counts { of: [0; 5] }
    }

    /// So many of the pool.
    pub(crate) fn of(&self, pool: Pool) -> u32 {
        self.of[index_of(pool)]
    }

    /// One more, of the pool that it is of.
    fn note(&mut self, link: Link) {
        let pool = match link {
            Link::Leaf(_) => Pool::Leaves,
            Link::Node(node) => pool_of_layout(node.layout),
        };
        let place = index_of(pool);
        self.of[place] = self.of[place].saturating_add(1);
    }

    /// What waits is counted too.
    pub(crate) fn note_all(&mut self, limbo: &Limbo) {
        for place in limbo.places() {
            self.note(place.link);
        }
    }

    /// What another counted is counted too.
    pub(crate) fn add(&mut self, other: &Counts) {
        for place in 0..5 {
            self.of[place] = self.of[place].saturating_add(other.of[place]);
        }
    }
}

/// All words of a table in the end.
#[derive(Drop)]
pub(crate) struct Closed {
    sizes: Sizes,
    words: Vec<u64>,
}

/// These passes and one more.
pub(crate) fn with_last(
    rt: &impl Abort,
    shared: &Shared,
    mut passes: Vec<Pass>,
    last: Pass,
) -> Vec<Pass>
    requires passes { AreOf shared.now passes.items }
    requires last { IsPassOf shared.now last }
    ensures { AreOf shared.now result.items }
{
    let _ = shared.sizes();
    passes.push(last).expect(rt, "room for a pass");
    passes
}

/// The table, closed with these passes and another.
pub(crate) fn ended(
    rt: &impl Abort,
    alloc: Global,
    shared: Shared,
    passes: Vec<Pass>,
    last: Pass,
) -> Closed
    requires passes { AreOf shared passes.items }
    requires last { IsPassOf shared last }
{
    let sizes = shared.sizes();
    let passes = with_last(rt, &shared, passes, last);
    let end = shared.close(passes);
    let words = copied(rt, alloc, &end, sizes.word_count());
    Closed { sizes, words }
}

/// So many words of a table that is closed, from the first one on.
fn copied(rt: &impl Abort, alloc: Global, end: &Ended, count: usize) -> Vec<u64>
    requires { count ≤ length (words_of end.now) }
{
    let mut words = Vec::new(alloc);
    for place in 0..count {
        words.push(end.word(place)).expect(rt, "room for a word");
    }
    words
}

impl Closed {
    /// A word after the first of a cell.
    pub(crate) fn word(&self, cell: Cell, place: usize) -> u64 {
        let at = self.sizes.place_of(cell).wrapping_add(place);
        self.words.get(at).copied().unwrap_or(0)
    }

    /// How many numbers of the pool are free.
    pub(crate) fn free(&self, pool: Pool) -> u32 {
        let first = self.sizes.first_free_word(pool);
        let mut count = 0u32;
        for index in 0..free_words(self.sizes.pool_size(pool)) {
            let word = self.words.get(first.wrapping_add(index)).copied();
            count = count.saturating_add(word.unwrap_or(0).count_ones());
        }
        count
    }

    /// What the node's children are.
    fn push_children(&self, rt: &impl Abort, node: Node, links: &mut Vec<Link>) {
        let end = node.layout.size();
        for place in end - node.layout.places()..end {
            if let Some(link) = Link::named_by(self.word(Cell::Node(node), place)) {
                links.push(link).expect(rt, "room for a link");
            }
        }
    }

    /// What is named in the tree, by a walk from the anchor on: as often as it is named.
    pub(crate) fn in_tree(&self, rt: &impl Abort, alloc: Global) -> Counts {
        let mut links = Vec::new(alloc);
        if let Some(root) = Link::named_by(self.word(Cell::Anchor, 1)) {
            links.push(root).expect(rt, "room for a link");
        }
        let mut counts = Counts::none();
        for index in 0..MOST {
            let Some(&link) = links.get(index) else {
                break;
            };
            counts.note(link);
            if let Link::Node(node) = link {
                self.push_children(rt, node, &mut links);
            }
        }
        counts
    }
}
