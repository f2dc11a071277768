//! The ends of ranges of keys.
use std::collections::LinkedList;

/// The end of a range of keys: before a text of bytes, or after all of them.
pub enum Bound {
    To(LinkedList<u8>),
    End,
}
