//! The numbers that name leaves and nodes.
ghost use Rattle.std.specs.Prelude.{◌≡◌, ◌≤◌, length, filter_map};
ghost use Rattle.std.specs.List.{slice_get};
ghost use Rattle.std.specs.Option.{option_and_then, option_map};
ghost use Rattle.art_cell.specs.Children.{link_of};
ghost use Rattle.art_step.specs.Tokens.{link_of_number, links_of};

use crate::pool_of_layout;
use art_cell::{Layout, Link, Node, Pool};

/// A number that a pass has in hand, of a leaf or a node. It has to be claimed, linked or given back.
#[derive(Debug, PartialEq, Eq)]
pub struct Number {
    pool: Pool,
    number: u32,
}

impl Number {
    ghost use Rattle.art_cell.specs.Children.{link_in_pool, number_of};
    ghost use Rattle.art_step.specs.Views.{pool_of};

    /// For carriers: a number of the pool, as `of`.
    pub fn in_pool(pool: Pool, number: u32) -> Number
        ensures { link_of_number result ≡ link_in_pool pool number }
    {
        Number { pool, number }
    }

    /// Which pool's number it is.
    pub fn pool(&self) -> Pool
        ensures { result ≡ pool_of (link_of_number self.now) }
    {
        self.pool
    }

    /// Which of its pool's numbers it is.
    pub fn number(&self) -> u32
        ensures { result ≡ number_of (link_of_number self.now) }
    {
        self.number
    }

    /// For carriers: the number of a leaf or of a node, which just came into the hand of a pass. What the pass may do with
    /// it, its view decides, so that one that is made for no number in hand serves nothing.
    pub fn of(link: Link) -> Number
        ensures { link_of_number result ≡ link }
    {
        match link {
            Link::Leaf(number) => Number {
                pool: Pool::Leaves,
                number,
            },
            Link::Node(node) => Number {
                pool: pool_of_layout(node.layout),
                number: node.number,
            },
        }
    }

    /// For carriers: the leaf or the node, whose number is about to leave the hand.
    pub fn spend(self) -> Link
        ensures { result ≡ link_of_number self }
    {
        let link = self.link();
        let Number { pool: _, number: _ } = self;
        link
    }

    /// The leaf or the node that the number names.
    pub fn link(&self) -> Link
        ensures { result ≡ link_of_number self.now }
    {
        let number = self.number;
        let layout = match self.pool {
            Pool::Leaves => return Link::Leaf(number),
            Pool::N4 => Layout::Node4,
            Pool::N16 => Layout::Node16,
            Pool::N48 => Layout::Node48,
            Pool::N256 => Layout::Node256,
        };
        Link::Node(Node { layout, number })
    }
}

/// The numbers of what a commit unlinked, in the order of the words that it was given.
pub type Unlinked = [Option<Number>; 3];

/// For carriers: the leaf whose number is about to leave the hand, if there is one.
pub fn spent(number: Option<Number>) -> Option<Link>
    ensures { result ≡ option_map link_of_number number }
{
    Some(number?.spend())
}

/// For carriers: the numbers that these child words name.
pub fn numbers_of(words: &[u64]) -> Unlinked
    requires { length words.now ≤ 3 }
    ensures { filter_map (option_map link_of_number) result ≡ links_of words.now }
{
    [
        number_at(words, 0),
        number_at(words, 1),
        number_at(words, 2),
    ]
}

fn number_at(words: &[u64], index: usize) -> Option<Number>
    ensures { option_map link_of_number result ≡ option_and_then link_of (slice_get words.now index) }
{
    let link = Link::named_by(*words.get(index)?)?;
    Some(Number::of(link))
}
