//! The steps of an insert, as lines of text.
use art_cell::{Cell, Link, Pool};
use art_step::{Action, pool_of_layout};
use std::fmt::{self, Write};

/// Writes what is asked, as one line.
pub(crate) fn write_line<W: Write>(out: &mut W, action: Action) -> fmt::Result {
    write_step(out, action)?;
    writeln!(out)
}

/// A step of a cell, or of a leaf.
fn write_step<W: Write>(out: &mut W, action: Action) -> fmt::Result {
    match action {
        Action::Begin { cell } => named(out, "begin", cell),
        Action::Read { stamp, place } => {
            named(out, "read", stamp.cell)?;
            write!(out, "[{place}]")
        }
        Action::ReadLeaf { leaf, place, .. } => write!(out, "read leaves#{leaf}[{place}]"),
        Action::Check { stamp } | Action::Settle { stamp } => named(out, "check", stamp.cell),
        Action::Upgrade { stamp } => named(out, "upgrade", stamp.cell),
        Action::Claim { node } => named(out, "claim", Cell::Node(node)),
        Action::Write { cell, place, word } => {
            named(out, "write", cell)?;
            write!(out, "[{place}] := {word:#x}")
        }
        Action::WriteLeaf { leaf, place, word } => {
            write!(out, "write leaves#{leaf}[{place}] := {word:#x}")
        }
        Action::Commit { cell, .. } => named(out, "commit", cell),
        Action::Release { cell, .. } => named(out, "release", cell),
        _ => write_frame(out, action),
    }
}

/// A step of numbers or epochs.
fn write_frame<W: Write>(out: &mut W, action: Action) -> fmt::Result {
    match action {
        Action::ClearBit { pool, index, bit } => {
            write!(out, "take {} word {index}", pool_name(pool))?;
            match bit {
                Some(_) => write!(out, " lowest"),
                None => Ok(()),
            }
        }
        Action::GiveBack { link } | Action::Free { link } => {
            write!(out, "give ")?;
            link_name(out, link)
        }
        Action::ReadEpoch => write!(out, "epoch"),
        Action::StorePin { word } => write!(out, "pin {word}"),
        Action::RaiseEpoch => write!(out, "advance"),
        Action::ReadPin { pass } => write!(out, "watch {pass}"),
        _ => Ok(()),
    }
}

/// The kind of the step, and the cell.
fn named<W: Write>(out: &mut W, kind: &str, cell: Cell) -> fmt::Result {
    write!(out, "{kind} ")?;
    match cell {
        Cell::Anchor => write!(out, "anchor"),
        Cell::Leaf(leaf) => link_name(out, Link::Leaf(leaf)),
        Cell::Node(node) => link_name(out, Link::Node(node)),
    }
}

fn link_name<W: Write>(out: &mut W, link: Link) -> fmt::Result {
    let (pool, number) = match link {
        Link::Leaf(leaf) => (Pool::Leaves, leaf),
        Link::Node(node) => (pool_of_layout(node.layout), node.number),
    };
    write!(out, "{}#{number}", pool_name(pool))
}

fn pool_name(pool: Pool) -> &'static str {
    match pool {
        Pool::Leaves => "leaves",
        Pool::N4 => "n4",
        Pool::N16 => "n16",
        Pool::N48 => "n48",
        Pool::N256 => "n256",
    }
}
