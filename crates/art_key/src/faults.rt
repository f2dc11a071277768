//! What can be wrong with a schema, and with a tuple under a schema.
use std::error::Error;
use std::fmt;

/// What is wrong with the text of a schema. The place of a column counts from 0.
#[derive(Clone, Copy, Debug, PartialEq, Eq)]
pub enum SchemaFault {
    /// The text names no column.
    NoColumns,
    /// The text names more than eight columns.
    TooManyColumns,
    /// A key could be longer than 64 bytes.
    KeyTooWide,
    /// The column at this place has no such kind.
    BadColumn(usize),
}

impl fmt::Display for SchemaFault {
    fn fmt<W: fmt::Write>(&self, f: &mut fmt::Formatter<W>) -> fmt::Result {
        match self {
            SchemaFault::NoColumns => f.write_str("the schema names no column"),
            SchemaFault::TooManyColumns => f.write_str("the schema names more than eight columns"),
            SchemaFault::KeyTooWide => f.write_str("a key could be longer than 64 bytes"),
            SchemaFault::BadColumn(place) => write!(f, "column {place} is of no known kind"),
        }
    }
}

impl Error for SchemaFault {}

/// Why a tuple has no key under a schema. The place of a column counts from 0.
#[derive(Clone, Copy, Debug, PartialEq, Eq)]
pub enum ValueFault {
    /// The tuple has more or fewer values than the schema has columns.
    WrongColumns,
    /// The value at this place is of another kind than its column.
    WrongType(usize),
    /// The number at this place does not fit its column.
    OutOfRange(usize),
    /// The text at this place is longer than its column allows.
    TextTooLong(usize),
}

impl fmt::Display for ValueFault {
    fn fmt<W: fmt::Write>(&self, f: &mut fmt::Formatter<W>) -> fmt::Result {
        match self {
            ValueFault::WrongColumns => f.write_str("the tuple has not one value for each column"),
            ValueFault::WrongType(place) => {
                write!(f, "the value of column {place} is of another kind")
            }
            ValueFault::OutOfRange(place) => {
                write!(f, "the number of column {place} is out of range")
            }
            ValueFault::TextTooLong(place) => {
                write!(f, "the text of column {place} is too long")
            }
        }
    }
}

impl Error for ValueFault {}
