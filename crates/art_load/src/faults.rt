//! Why a load was given up.
use std::error::Error;
use std::fmt;

/// Why a load was given up.
#[derive(Clone, Copy, Debug, PartialEq, Eq)]
pub enum LoadFault {
    /// An allocation was refused, or the system had no thread to give.
    NoMemory,
}

impl fmt::Display for LoadFault {
    ghost use Rattle.std.specs.Prelude.{Some, codes};

    ghost output = { λ _. Some (codes "no memory for a thread") };

    fn fmt<W: fmt::Write>(&self, f: &mut fmt::Formatter<W>) -> fmt::Result {
        match self {
            LoadFault::NoMemory => f.write_str("no memory for a thread"),
        }
    }
}

impl Error for LoadFault {}
