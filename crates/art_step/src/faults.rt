//! Why a step was refused.
use art_cell::Cell;
use std::error::Error;
use std::fmt;

/// A version word that was not clear: the cell is locked or obsolete.
#[derive(Clone, Copy, Debug, PartialEq, Eq)]
pub struct Locked {
    pub cell: Cell,
    pub found: u64,
}

impl fmt::Display for Locked {
    fn fmt<W: fmt::Write>(&self, f: &mut fmt::Formatter<W>) -> fmt::Result {
        write!(f, "the version word {} is locked or obsolete", self.found)
    }
}

impl Error for Locked {}

/// A version word that is no longer the stamped one.
#[derive(Clone, Copy, Debug, PartialEq, Eq)]
pub struct Changed {
    pub cell: Cell,
    pub seen: u64,
    pub found: u64,
}

impl fmt::Display for Changed {
    fn fmt<W: fmt::Write>(&self, f: &mut fmt::Formatter<W>) -> fmt::Result {
        write!(
            f,
            "the version word was {} and is {}",
            self.seen, self.found
        )
    }
}

impl Error for Changed {}

/// Why a cell was not locked.
#[derive(Clone, Copy, Debug, PartialEq, Eq)]
pub enum UpgradeFault {
    Changed(Changed),
    /// The cell's counter is at its end. No step was made.
    Exhausted(Cell),
}

impl fmt::Display for UpgradeFault {
    fn fmt<W: fmt::Write>(&self, f: &mut fmt::Formatter<W>) -> fmt::Result {
        match self {
            UpgradeFault::Changed(changed) => write!(f, "{changed}"),
            UpgradeFault::Exhausted(_) => f.write_str("the counter of the cell is at its end"),
        }
    }
}

impl Error for UpgradeFault {}
