//! Schemas: the columns of a tuple, in order.
ghost use Rattle.std.specs.Prelude.{◌≡◌, ◌≤◌, length, IfOk, MatchResult};
ghost use Rattle.std.specs.List.{All};
ghost use Rattle.art_key.specs.Columns.{total_width, order_of, IsColumn};
ghost use Rattle.art_key.specs.Schemas.{columns_of, parts, schema_of};

use crate::{Column, SchemaFault};
use arrayvec::ArrayVec;
use art_model::Order;
use std::marker::Model;

/// The columns of a tuple: at most eight, and no key of theirs is longer than 64 bytes.
#[derive(Debug, PartialEq, Eq, Drop)]
pub struct Schema {
    columns: ArrayVec<Column, 8>,
}

impl Model for Schema {
    ghost use Rattle.std.specs.Prelude.{◌≤◌, List};
    ghost use Rattle.std.specs.List.{All};
    ghost use Rattle.art_key.specs.declared.columns.Column.{Column};
    ghost use Rattle.art_key.specs.Columns.{total_width, IsColumn};

    ghost Value = { List Column };

    ghost view = { λ s. s.columns.items };

    ghost invariant = { λ s. (total_width s.columns.items ≤ 64) × All IsColumn s.columns.items };

    ghost inverse = { λ columns. record { columns = record { items = columns } } };
}

impl Schema {
    /// The schema that the text names: the names of its columns, joined by commas, as `u32,text8`. A kind
    /// with one `-` after it is a column whose values descend, as `u32-`.
    pub fn parse(text: &str) -> Result<Self, SchemaFault>
        ensures { result ≡ schema_of text.now }
    {
        if text.is_empty() {
            return Err(SchemaFault::NoColumns);
        }
        if part_count(text) > 8 {
            return Err(SchemaFault::TooManyColumns);
        }
        let columns = columns_named(text)?;
        if widest_key(columns.as_slice()) > 64 {
            return Err(SchemaFault::KeyTooWide);
        }
        Ok(Schema { columns })
    }

    /// For each column, whether its values descend.
    pub fn order(&self) -> Order
        ensures { result ≡ order_of self.now }
    {
        let columns = self.columns();
        let mut order = Order::new();
        for column in columns {
            order.push(column.descends);
        }
        order
    }

    /// The columns, in order.
    pub fn columns(&self) -> &[Column]
        ensures items { result.now ≡ self.now }
        ensures few { length result.now ≤ 8 }
        ensures narrow { total_width result.now ≤ 64 }
        ensures known { All IsColumn result.now }
    {
        self.columns.as_slice()
    }
}

/// How many texts stand between the commas.
fn part_count(text: &str) -> usize
    ensures { result ≡ length (parts text.now) }
{
    text.split(',').count()
}

/// The columns of the names between the commas, or the first name that is of no column.
fn columns_named(text: &str) -> Result<ArrayVec<Column, 8>, SchemaFault>
    requires { length (parts text.now) ≤ 8 }
    ensures names { MatchResult
        result
        (λ columns. columns_of 0 (parts text.now) ≡ Ok columns.items)
        (λ fault. columns_of 0 (parts text.now) ≡ Err fault) }
    ensures known { IfOk result (λ columns. All IsColumn columns.items) }
{
    let mut columns = ArrayVec::new();
    for name in text.split(',') {
        let Some(column) = Column::named(name) else {
            return Err(SchemaFault::BadColumn(columns.len()));
        };
        columns.push(column);
    }
    Ok(columns)
}

/// How many bytes a key under the columns has at most.
fn widest_key(columns: &[Column]) -> usize
    requires few { length columns.now ≤ 8 }
    requires known { All IsColumn columns.now }
    ensures { result ≡ total_width columns.now }
{
    let mut bytes = 0;
    for column in columns {
        bytes += column.width();
    }
    bytes
}
