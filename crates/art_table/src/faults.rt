//! Why a call was refused.
use art_cell::{Cell, Pool};
use art_epoch::Blocker;
use art_key::ValueFault;
use art_model::NoMemory;
use art_refusal::Refusal;
use std::error::Error;
use std::fmt;

/// Why a table could not be opened.
#[derive(Clone, Copy, Debug, PartialEq, Eq)]
pub enum OpenFault {
    /// A size is out of its range.
    BadConfig,
    /// An allocation was refused.
    NoMemory,
}

impl fmt::Display for OpenFault {
    fn fmt<W: fmt::Write>(&self, f: &mut fmt::Formatter<W>) -> fmt::Result {
        match self {
            OpenFault::BadConfig => f.write_str("a size of the table is out of its range"),
            OpenFault::NoMemory => f.write_str("no memory for the table"),
        }
    }
}

impl Error for OpenFault {}

impl From<NoMemory> for OpenFault {
    ghost use Rattle.std.specs.Prelude.{◌≡◌};
    ghost use Rattle.art_table.specs.declared.faults.OpenFault.TheVariants.{NoMemory};

    ghost from_gives = { λ _ e. e ≡ NoMemory };

    fn from(_refused: NoMemory) -> OpenFault {
        OpenFault::NoMemory
    }
}

impl From<OpenFault> for Refusal {
    ghost use Rattle.std.specs.Prelude.{◌≡◌};
    ghost use Rattle.art_table.specs.Refusals.{open_refusal};

    ghost from_gives = { λ fault refusal. refusal ≡ open_refusal fault };

    fn from(fault: OpenFault) -> Refusal {
        match fault {
            OpenFault::BadConfig => Refusal::BadConfig,
            OpenFault::NoMemory => Refusal::NoMemory,
        }
    }
}

/// Why a call was refused. The rows are as before, and the pass is idle and holds nothing.
#[derive(Clone, Copy, Debug, PartialEq, Eq)]
pub enum Fault {
    /// The tuple does not stand in the schema.
    Value(ValueFault),
    /// All turns were used.
    Busy,
    /// No free number of the pool was found.
    Full(Pool),
    /// Four places were not free in the limbo of the pass: this one blocks them, by the word that it is pinned to.
    Crowded(Blocker),
    /// The counter of a cell that was to be locked is at its end.
    Exhausted(Cell),
}

impl Fault {
    ghost use Rattle.std.specs.Prelude.{◌≡◌};
    ghost use Rattle.art_table.specs.Refusals.{fault_refusal};

    /// The refusal that it is, also for crates that reach this one through another: an `impl` of a trait is in scope only where
    /// its crate is listed.
    pub fn refusal(self) -> Refusal
        ensures { result ≡ fault_refusal self }
    {
        match self {
            Fault::Value(fault) => Refusal::from(fault),
            Fault::Busy => Refusal::Busy,
            Fault::Full(_) => Refusal::Full,
            Fault::Crowded(_) => Refusal::Crowded,
            Fault::Exhausted(_) => Refusal::Exhausted,
        }
    }
}

impl fmt::Display for Fault {
    fn fmt<W: fmt::Write>(&self, f: &mut fmt::Formatter<W>) -> fmt::Result {
        match self {
            Fault::Value(fault) => write!(f, "{fault}"),
            Fault::Busy => f.write_str("all turns are used up"),
            Fault::Full(pool) => write!(f, "the pool of {} has no free number", words_of(*pool)),
            Fault::Crowded(blocker) => write!(
                f,
                "pass {} blocks the limbo of this pass",
                blocker.pass
            ),
            Fault::Exhausted(cell) => write_worn(*cell, f),
        }
    }
}

impl Error for Fault {}

/// What the numbers of the pool are of.
fn words_of(pool: Pool) -> &'static str {
    match pool {
        Pool::Leaves => "leaves",
        Pool::N4 => "nodes of 4 places",
        Pool::N16 => "nodes of 16 places",
        Pool::N48 => "nodes of 48 places",
        Pool::N256 => "nodes of 256 places",
    }
}

/// Writes that the counter of this cell is at its end.
fn write_worn<W: fmt::Write>(cell: Cell, f: &mut fmt::Formatter<W>) -> fmt::Result {
    match cell {
        Cell::Anchor => f.write_str("the counter of the anchor is at its end"),
        Cell::Leaf(number) => write!(f, "the counter of leaf {number} is at its end"),
        Cell::Node(node) => {
            let (number, places) = (node.number, node.layout.places());
            write!(
                f,
                "the counter of node {number} of {places} places is at its end"
            )
        }
    }
}

impl From<ValueFault> for Fault {
    ghost use Rattle.std.specs.Prelude.{◌≡◌};
    ghost use Rattle.art_table.specs.declared.faults.Fault.TheVariants.{Value};

    ghost from_gives = { λ v e. e ≡ Value v };

    fn from(fault: ValueFault) -> Fault {
        Fault::Value(fault)
    }
}

impl From<Fault> for Refusal {
    ghost use Rattle.std.specs.Prelude.{◌≡◌};
    ghost use Rattle.art_table.specs.Refusals.{fault_refusal};

    ghost from_gives = { λ fault refusal. refusal ≡ fault_refusal fault };

    fn from(fault: Fault) -> Refusal {
        fault.refusal()
    }
}
