//! Rows as C has them.
ghost use Rattle.std.specs.Prelude.{◌≡◌, ◌≤◌, length, map};
ghost use Rattle.art_index_c.specs.Columns.{over, row_of};

use crate::columns::Column;
use art_model::Row as TypedRow;

/// A tuple and what it is mapped to: the first `count` columns are those of the tuple, and the others are 0.
#[repr(C)]
#[derive(Clone, Copy, Debug, Default, PartialEq, Drop)]
pub struct Row {
    pub columns: [Column; 8],
    pub count: u32,
    pub value: u64,
}

impl Row {
    /// The row of a tuple and its value.
    fn of(row: &TypedRow) -> Row
        ensures { result ≡ row_of row.now }
    {
        let values = row.tuple.as_slice();
        let mut columns = [Column::none(); 8];
        for (place, value) in values.iter().enumerate() {
            columns[place] = Column::of(value);
        }
        Row {
            columns,
            count: values.len() as u32,
            value: row.value,
        }
    }
}

/// Writes these rows over the first of some.
pub(crate) fn write_over(found: &[TypedRow], rows: &mut [Row])
    requires { length found.now ≤ length rows.old }
    ensures { rows.new ≡ over (map row_of found.now) rows.old }
{
    for (place, row) in found.iter().enumerate() {
        rows[place] = Row::of(row);
    }
}
