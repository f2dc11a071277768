//! A tuple of values, the order that tuples stand in, and a row of the map.
use crate::Value;
use arrayvec::ArrayVec;

/// One value for each column, at most eight.
pub type Tuple = ArrayVec<Value, 8>;

/// For each column, whether its values descend: then they stand in reverse. Columns past the end ascend.
pub type Order = ArrayVec<bool, 8>;

/// A tuple and what it is mapped to.
#[derive(Clone, Debug, PartialEq, Eq, Default, Drop)]
pub struct Row {
    pub tuple: Tuple,
    pub value: u64,
}
