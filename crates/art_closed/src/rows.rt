//! The rows of a closed table, in order.
ghost use Rattle.std.specs.Prelude.{◌≡◌, ◌+◌, ◌≤◌, ◌++◌, [], length, vec_capacity};
ghost use Rattle.art_cell.specs.declared.cells.Link.TheVariants.{Leaf as leaf_link};
ghost use Rattle.art_step.specs.Knowledge.{IsShape};
ghost use Rattle.art_closed.specs.Cells.{HasAllWords, cells_in, heap_in, schema_left, sizes_left};
ghost use Rattle.art_closed.specs.Listing.{IsWithin, listing, row_spelled, rows_spelled};
ghost use Rattle.art_closed.specs.Rows.{AreRowsOf, SpellsTuples};

use crate::cells::Reader;
use art_cell::{Cell, Link};
use art_key::{Schema, decode};
use art_model::Row;
use art_shared::Ended;

/// The place of the anchor's child word.
const ROOT: usize = 1;

/// No way from the root to a leaf has more nodes: each takes a byte of a key at least.
const DEEPEST: usize = 64;

/// Writes the rows of a closed table in order, for which there is room: where its words are those of a tree, and each key spells a
/// tuple of its schema. This takes no memory.
pub fn list_rows(words: &Ended, rows: &mut Vec<Row>)
    requires whole { HasAllWords (sizes_left words.now) words.now }
    requires shape { IsShape (sizes_left words.now) (cells_in (sizes_left words.now) words.now) }
    requires keys { SpellsTuples (schema_left words.now) (heap_in (sizes_left words.now) words.now) }
    requires empty { rows.old.items ≡ [] }
    requires room { (sizes_left words.now).leaves ≤ vec_capacity rows.old }
    ensures { AreRowsOf (schema_left words.now) (heap_in (sizes_left words.now) words.now) rows.new.items }
{
    let reader = Reader {
        words,
        sizes: words.sizes(),
    };
    if let Some(root) = Link::named_by(reader.word(Cell::Anchor, ROOT)) {
        push_below(&reader, words.schema(), root, DEEPEST, rows);
    }
}

/// Writes the rows from a leaf or a node down, in order.
fn push_below(reader: &Reader, schema: &Schema, link: Link, depth: usize, rows: &mut Vec<Row>)
    requires shape { IsShape reader.now.sizes (cells_in reader.now.sizes reader.now.words.now) }
    requires keys { SpellsTuples schema.now (heap_in reader.now.sizes reader.now.words.now) }
    requires within { IsWithin (heap_in reader.now.sizes reader.now.words.now) depth link }
    requires room { length rows.old.items + length (listing (heap_in reader.now.sizes reader.now.words.now) depth link) ≤ vec_capacity rows.old }
    ensures rows { rows.new.items ≡ rows.old.items ++ rows_spelled schema.now (listing (heap_in reader.now.sizes reader.now.words.now) depth link) }
    ensures room { vec_capacity rows.new ≡ vec_capacity rows.old }
{
    match link {
        Link::Leaf(number) => rows.push_reserved(row(reader, schema, number)),
        Link::Node(node) => {
            for entry in reader.children(node).as_slice() {
                if let Some(child) = Link::named_by(entry.child) {
                    push_below(reader, schema, child, depth - 1, rows);
                }
            }
        }
    }
}

/// The row of a leaf.
fn row(reader: &Reader, schema: &Schema, number: u32) -> Row
    requires shape { IsShape reader.now.sizes (cells_in reader.now.sizes reader.now.words.now) }
    requires keys { SpellsTuples schema.now (heap_in reader.now.sizes reader.now.words.now) }
    requires within { IsWithin (heap_in reader.now.sizes reader.now.words.now) 64 (leaf_link number) }
    ensures { result ≡ row_spelled schema.now ((heap_in reader.now.sizes reader.now.words.now).key number, (heap_in reader.now.sizes reader.now.words.now).value number) }
{
    let key = reader.key(number);
    let tuple = decode(schema, key.as_slice()).unwrap();
    Row {
        tuple,
        value: reader.value(number),
    }
}
