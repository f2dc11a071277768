//! Where the nodes of a table begin, and the words of free numbers: kept for each layout and each pool, so that a step need not add
//! the sizes of the pools below anew.
ghost use Rattle.std.specs.Prelude.{◌≡◌, ◌<◌, get_or};
ghost use Rattle.art_cell.specs.declared.cells.Cell.TheVariants as cells;
ghost use Rattle.art_step.specs.Views.{pool_of_layout};
ghost use Rattle.art_step.specs.WordPlaces.{first_cell, first_free_word, place_of};
ghost use Rattle.art_step.specs.declared.views.Sizes.{Sizes as SizesOf};
ghost use Rattle.art_shared.specs.FirstPlaces.{first_free_words, first_nodes};

use art_cell::{Cell, Layout, Node, Pool};
use art_step::Sizes;

/// The place of the first word of each layout's first node, from the smallest layout to the largest.
pub(crate) fn first_nodes(sizes: Sizes) -> [usize; 4]
    ensures { result ≡ first_nodes sizes }
{
    [
        first_node(sizes, Layout::Node4),
        first_node(sizes, Layout::Node16),
        first_node(sizes, Layout::Node48),
        first_node(sizes, Layout::Node256),
    ]
}

fn first_node(sizes: Sizes, layout: Layout) -> usize
    ensures { result ≡ first_cell sizes (pool_of_layout layout) }
{
    sizes.place_of(Cell::Node(Node { layout, number: 0 }))
}

/// Which of the four is the layout's.
#[inline(always)]
pub(crate) fn order_of(layout: Layout) -> usize
    ensures within { result < 4 }
    ensures first { (z : SizesOf) → get_or (first_nodes z) result 0 ≡ first_cell z (pool_of_layout layout) }
{
    match layout {
        Layout::Node4 => 0,
        Layout::Node16 => 1,
        Layout::Node48 => 2,
        Layout::Node256 => 3,
    }
}

/// The place of a node's first word, where the first node of its layout has this one.
#[inline(always)]
pub(crate) fn node_place(sizes: Sizes, first: usize, node: Node) -> usize
    requires { first ≡ first_cell sizes (pool_of_layout node.layout) }
    ensures { result ≡ place_of sizes (cells.Node node) }
{
    first + node.layout.size() * node.number as usize
}

/// The place of the first word of each pool's free numbers: of leaves, and then of nodes from the smallest layout to the largest.
pub(crate) fn first_free_words(sizes: Sizes) -> [usize; 5]
    ensures { result ≡ first_free_words sizes }
{
    [
        sizes.first_free_word(Pool::Leaves),
        sizes.first_free_word(Pool::N4),
        sizes.first_free_word(Pool::N16),
        sizes.first_free_word(Pool::N48),
        sizes.first_free_word(Pool::N256),
    ]
}

/// Which of the five is the pool's.
#[inline(always)]
pub(crate) fn index_of(pool: Pool) -> usize
    ensures within { result < 5 }
    ensures first { (z : SizesOf) → get_or (first_free_words z) result 0 ≡ first_free_word z pool }
{
    match pool {
        Pool::Leaves => 0,
        Pool::N4 => 1,
        Pool::N16 => 2,
        Pool::N48 => 3,
        Pool::N256 => 4,
    }
}
