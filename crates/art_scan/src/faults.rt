//! Why a scan was refused.
use art_key::ValueFault;
use art_table::art_refusal::Refusal;
use std::error::Error;
use std::fmt;

/// Why a scan was refused: nothing is listed, and the pass is idle and holds nothing. What it has looked at, it has seen.
#[derive(Clone, Copy, Debug, PartialEq, Eq)]
pub enum ScanFault {
    /// A tuple does not stand in the schema.
    Value(ValueFault),
    /// The range ends before it begins.
    BadRange,
    /// The limit is not 1 to 100.
    BadLimit,
    /// All turns were used.
    Busy,
}

impl fmt::Display for ScanFault {
    fn fmt<W: fmt::Write>(&self, f: &mut fmt::Formatter<W>) -> fmt::Result {
        match self {
            ScanFault::Value(fault) => write!(f, "{fault}"),
            ScanFault::BadRange => f.write_str("the range ends before it begins"),
            ScanFault::BadLimit => f.write_str("the limit is not 1 to 100"),
            ScanFault::Busy => f.write_str("all turns are used up"),
        }
    }
}

impl Error for ScanFault {}

impl From<ValueFault> for ScanFault {
    ghost use Rattle.std.specs.Prelude.{◌≡◌};
    ghost use Rattle.art_scan.specs.declared.faults.ScanFault.TheVariants.{Value};

    ghost from_gives = { λ v e. e ≡ Value v };

    fn from(fault: ValueFault) -> ScanFault {
        ScanFault::Value(fault)
    }
}

impl From<ScanFault> for Refusal {
    ghost use Rattle.std.specs.Prelude.{◌≡◌};
    ghost use Rattle.art_scan.specs.Refusals.{scan_refusal};

    ghost from_gives = { λ fault refusal. refusal ≡ scan_refusal fault };

    fn from(fault: ScanFault) -> Refusal {
        match fault {
            ScanFault::Value(fault) => Refusal::from(fault),
            ScanFault::BadRange => Refusal::BadRange,
            ScanFault::BadLimit => Refusal::BadLimit,
            ScanFault::Busy => Refusal::Busy,
        }
    }
}
