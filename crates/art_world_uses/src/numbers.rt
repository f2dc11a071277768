//! Numbers.
use art_cell::{Layout, Link, Node, Pool};
use art_step::Number;
use std::test::*;

#[test]
fn a_number_is_that_of_a_leaf_or_of_a_node(rt: HostRuntime) {
    let number = Number::in_pool(Pool::N48, 3);
    assert_eq!(rt; (number.pool(), number.number()), (Pool::N48, 3));
    let link = Link::Node(Node {
        layout: Layout::Node48,
        number: 3,
    });
    assert_eq!(rt; number.spend(), link);
    for (word, named) in [(28, Some(link)), (9, Some(Link::Leaf(1))), (6, None)] {
        assert_eq!(rt; Link::named_by(word), named);
    }
}
