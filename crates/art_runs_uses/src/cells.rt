//! What the words of a world have: the rows of the tree, and where the numbers of each pool are.
use art_cell::{Cell, Link, Node, Pool};
use art_epoch::Limbo;
use art_key::{Schema, decode};
use art_model::{Command, Reply, SortedRows, Tuple};
use art_runs::art_change::Caller;
use art_step::pool_of_layout;
use art_world::World;
use std::alloc::Global;
use std::process::Abort;

/// More than there are numbers in a world here.
const MOST: usize = 4096;

const POOLS: [Pool; 5] = [Pool::Leaves, Pool::N4, Pool::N16, Pool::N48, Pool::N256];

/// The pool that the number is of.
fn pool_of(link: Link) -> Pool {
    match link {
        Link::Leaf(_) => Pool::Leaves,
        Link::Node(node) => pool_of_layout(node.layout),
    }
}

/// What the node's children are.
fn push_children(rt: &impl Abort, world: &World, node: Node, links: &mut Vec<Link>) {
    let pool = pool_of_layout(node.layout);
    if node.number >= world.sizes().pool_size(pool) {
        return;
    }
    let end = node.layout.size();
    for place in end - node.layout.places()..end {
        let word = world.word(Cell::Node(node), place);
        if let Some(link) = Link::named_by(word) {
            links.push(link).expect(rt, "memory");
        }
    }
}

/// All that is named in the tree, by a walk from the anchor on: as often as it is named.
fn named(rt: &impl Abort, alloc: Global, world: &World) -> Vec<Link> {
    let mut links = Vec::new(alloc);
    if let Some(root) = Link::named_by(world.word(Cell::Anchor, 1)) {
        links.push(root).expect(rt, "memory");
    }
    for index in 0..MOST {
        if let Some(&Link::Node(node)) = links.get(index) {
            push_children(rt, world, node, &mut links);
        }
    }
    links
}

/// How many numbers of the pool are free.
fn free(world: &World, pool: Pool) -> usize {
    let words = (world.sizes().pool_size(pool) as usize + 63) / 64;
    let mut count = 0usize;
    for index in 0..words {
        count = count.wrapping_add(world.free_word(pool, index).count_ones() as usize);
    }
    count
}

/// This is the word of free numbers at an index of the pool.
pub(crate) fn check_free_word(
    rt: &impl Abort,
    world: &World,
    pool: Pool,
    index: usize,
    wanted: u64,
) {
    let words = (world.sizes().pool_size(pool) as usize + 63) / 64;
    assert!(rt; index < words);
    assert_eq!(rt; world.free_word(pool, index), wanted);
}

/// Whether numbers of the pool are not free.
pub(crate) fn is_out(world: &World, pool: Pool) -> bool {
    free(world, pool) < world.sizes().pool_size(pool) as usize
}

/// How many numbers of the pool wait in the limbo.
fn waiting(limbo: &Limbo, pool: Pool) -> usize {
    let places = limbo.places().iter();
    places.filter(|place| pool_of(place.link) == pool).count()
}

/// How many numbers of the pool wait in the limbos of the passes.
fn waiting_in_all(callers: &[Box<Caller>], pool: Pool) -> usize {
    let mut count = 0usize;
    for caller in callers {
        count = count.wrapping_add(waiting(caller.limbo(), pool));
    }
    count
}

/// How many of these are of the pool.
fn named_of(links: &[Link], pool: Pool) -> usize {
    links.iter().filter(|&&link| pool_of(link) == pool).count()
}

/// Of the pool as many numbers are free, among those that are named in the tree, or waiting as there are.
fn account_for(rt: &impl Abort, world: &World, links: &[Link], pool: Pool, waiting: usize) {
    let numbers = free(world, pool)
        .wrapping_add(named_of(links, pool))
        .wrapping_add(waiting);
    assert_eq!(rt;
        numbers,
        world.sizes().pool_size(pool) as usize,
        "of {pool:?}"
    );
}

/// Of each pool as many numbers are free, named in the tree, or waiting as there are.
pub(crate) fn account(rt: &impl Abort, alloc: Global, world: &World, callers: &[Box<Caller>]) {
    let links = named(rt, alloc, world);
    for pool in POOLS {
        let waiting = waiting_in_all(callers, pool);
        account_for(rt, world, links.as_slice(), pool, waiting);
    }
}

/// The same of a world in which one pass calls; and as many leaves are named as there are rows.
pub(crate) fn account_with_rows(
    rt: &impl Abort,
    alloc: Global,
    world: &World,
    limbo: &Limbo,
    rows: usize,
) {
    let links = named(rt, alloc, world);
    for pool in POOLS {
        account_for(rt, world, links.as_slice(), pool, waiting(limbo, pool));
    }
    assert_eq!(rt; named_of(links.as_slice(), Pool::Leaves), rows);
}

/// The bytes of the key of a leaf.
fn key_bytes(rt: &impl Abort, alloc: Global, world: &World, number: u32) -> Vec<u8> {
    assert!(rt; number < world.sizes().leaves);
    let leaf = Cell::Leaf(number);
    let length = world.word(leaf, 1);
    assert!(rt; length <= 64);
    let mut bytes = Vec::new(alloc);
    for at in 0..length as usize {
        let word = world.word(leaf, 2 + at / 8);
        bytes.push(word.to_be_bytes()[at % 8]).expect(rt, "memory");
    }
    bytes
}

/// The row of a leaf.
fn row_in(
    rt: &impl Abort,
    alloc: Global,
    world: &World,
    schema: &Schema,
    number: u32,
) -> (Tuple, u64) {
    let bytes = key_bytes(rt, alloc, world, number);
    let tuple = decode(schema, bytes.as_slice()).expect(rt, "a row of the schema");
    assert!(rt; number < world.sizes().leaves);
    (tuple, world.word(Cell::Leaf(number), 0))
}

/// The rows of the tree: of all leaves that are named in it, of which no two have one key.
pub(crate) fn rows_of_tree(
    rt: &impl Abort,
    alloc: Global,
    world: &World,
    schema: &Schema,
) -> SortedRows {
    let mut rows = SortedRows::new(alloc, &schema.order());
    for link in named(rt, alloc, world) {
        if let Link::Leaf(number) = link {
            let (tuple, value) = row_in(rt, alloc, world, schema, number);
            let reply = rows.apply(&Command::Insert(tuple, value));
            assert_eq!(rt; reply.expect(rt, "memory"), Reply::Inserted);
        }
    }
    rows
}
