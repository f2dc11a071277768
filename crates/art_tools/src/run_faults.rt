//! Why a run of the program failed, and with which status it ends.
ghost use Rattle.std.specs.Prelude.{◌≡◌, ◌≢◌};
ghost use Rattle.art_tools.specs.Statuses.{status_of};

use art_key::SchemaFault;
use art_load::LoadFault;
use art_server::Refusal;
use art_server::art_table::{CloseRefusal, OpenFault};
use art_workers::ServeFault;
use std::alloc::{AllocError, AllocFailed};
use std::error::Error;
use std::fmt;

/// Why a run failed.
#[derive(Clone, Copy, Debug)]
pub enum RunFault {
    /// A read failed.
    ReadFailed,
    /// A write failed.
    WriteFailed,
    /// The schema or a size was refused.
    Refused(Refusal),
    /// An allocation was refused.
    NoMemory,
    /// The reads of a session, or of a schedule, were used up.
    ReadsUsed,
    /// This line of a schedule is none, where lines count from 1.
    BadLine(u64),
    /// There is no listener, or a connection could not be accepted.
    CannotListen,
}

impl RunFault {
    /// The status that the program ends with: 1, or 3 to 7.
    pub fn status(self) -> u8
        ensures of { result ≡ status_of self }
        ensures other { result ≢ 2 }
    {
        match self {
            RunFault::ReadFailed | RunFault::WriteFailed => 1,
            RunFault::Refused(_) => 3,
            RunFault::NoMemory => 4,
            RunFault::ReadsUsed => 5,
            RunFault::BadLine(_) => 6,
            RunFault::CannotListen => 7,
        }
    }
}

impl fmt::Display for RunFault {
    ghost use Rattle.std.specs.Prelude.{Some};
    ghost use Rattle.art_tools.specs.Statuses.{fault_text};

    ghost output = { λ fault. Some (fault_text fault) };

    fn fmt<W: fmt::Write>(&self, f: &mut fmt::Formatter<W>) -> fmt::Result {
        match self {
            RunFault::ReadFailed => f.write_str("read failed"),
            RunFault::WriteFailed => f.write_str("write failed"),
            RunFault::Refused(refusal) => write!(f, "{refusal}"),
            RunFault::NoMemory => f.write_str("no memory"),
            RunFault::ReadsUsed => f.write_str("reads used up"),
            RunFault::BadLine(line) => write!(f, "schedule line {line}"),
            RunFault::CannotListen => f.write_str("cannot listen"),
        }
    }
}

impl Error for RunFault {}

impl From<SchemaFault> for RunFault {
    ghost use Rattle.std.specs.Prelude.{◌≡◌};
    ghost use Rattle.art_server.specs.ArtRefusal.Refusals.{schema_refusal};
    ghost use Rattle.art_tools.specs.declared.run_faults.RunFault.TheVariants.{Refused};

    ghost from_gives = { λ fault e. e ≡ Refused (schema_refusal fault) };

    fn from(fault: SchemaFault) -> RunFault {
        RunFault::Refused(Refusal::from(fault))
    }
}

impl From<OpenFault> for RunFault {
    ghost use Rattle.std.specs.Prelude.{◌≡◌};
    ghost use Rattle.art_tools.specs.Statuses.{unopened};

    ghost from_gives = { λ fault e. e ≡ unopened fault };

    fn from(fault: OpenFault) -> RunFault {
        match fault {
            OpenFault::BadConfig => RunFault::Refused(Refusal::BadConfig),
            OpenFault::NoMemory => RunFault::NoMemory,
        }
    }
}

impl From<CloseRefusal> for RunFault {
    ghost use Rattle.std.specs.Prelude.{◌≡◌};
    ghost use Rattle.art_tools.specs.Statuses.{unclosed};

    ghost from_gives = { λ refusal e. e ≡ unclosed refusal };

    fn from(refusal: CloseRefusal) -> RunFault {
        match refusal {
            CloseRefusal::PassesMissing => RunFault::Refused(Refusal::PassesMissing),
            CloseRefusal::NoMemory => RunFault::NoMemory,
        }
    }
}

impl From<LoadFault> for RunFault {
    ghost use Rattle.std.specs.Prelude.{◌≡◌};
    ghost use Rattle.art_tools.specs.declared.run_faults.RunFault.TheVariants.{NoMemory};

    ghost from_gives = { λ _ e. e ≡ NoMemory };

    fn from(fault: LoadFault) -> RunFault {
        match fault {
            LoadFault::NoMemory => RunFault::NoMemory,
        }
    }
}

impl From<ServeFault> for RunFault {
    ghost use Rattle.std.specs.Prelude.{◌≡◌};
    ghost use Rattle.art_tools.specs.Statuses.{unserved};

    ghost from_gives = { λ fault e. e ≡ unserved fault };

    fn from(fault: ServeFault) -> RunFault {
        match fault {
            ServeFault::Accept => RunFault::CannotListen,
            ServeFault::NoMemory => RunFault::NoMemory,
        }
    }
}

impl From<AllocError> for RunFault {
    ghost use Rattle.std.specs.Prelude.{◌≡◌};
    ghost use Rattle.art_tools.specs.declared.run_faults.RunFault.TheVariants.{NoMemory};

    ghost from_gives = { λ _ e. e ≡ NoMemory };

    fn from(_refused: AllocError) -> RunFault {
        RunFault::NoMemory
    }
}

impl<T: Drop> From<AllocFailed<T>> for RunFault {
    ghost use Rattle.std.specs.Prelude.{◌≡◌};
    ghost use Rattle.art_tools.specs.declared.run_faults.RunFault.TheVariants.{NoMemory};

    ghost from_gives = { λ _ e. e ≡ NoMemory };

    fn from(_refused: AllocFailed<T>) -> RunFault {
        RunFault::NoMemory
    }
}
