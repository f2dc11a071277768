//! Why a server did not answer all its sessions.
use std::error::Error;
use std::fmt;

/// Why a server did not answer all its sessions.
#[derive(Clone, Copy, Debug, PartialEq, Eq)]
pub enum ServeFault {
    /// A connection could not be accepted.
    Accept,
    /// There was no memory for a thread, or for the replies of a connection.
    NoMemory,
}

impl fmt::Display for ServeFault {
    ghost use Rattle.std.specs.Prelude.{Some};
    ghost use Rattle.art_workers.specs.Faults.{fault_text};

    ghost output = { λ fault. Some (fault_text fault) };

    fn fmt<W: fmt::Write>(&self, f: &mut fmt::Formatter<W>) -> fmt::Result {
        match self {
            ServeFault::Accept => f.write_str("the listener could not accept a connection"),
            ServeFault::NoMemory => f.write_str(
                "no memory for the thread or the buffer of a worker",
            ),
        }
    }
}

impl Error for ServeFault {}
