//! Why a schedule ends.
use art_model::NoMemory;
use std::io;

/// Why a schedule ended.
#[derive(Clone, Copy, Debug, PartialEq, Eq)]
pub enum ScheduleEnd {
    /// The input ended, and so did all that was under way.
    Ended,
    /// The line of this number is bad; the first has the number 1.
    BadLine(u64),
    /// A read failed, or was interrupted.
    ReadFault,
    /// A write failed, was interrupted, or took no byte.
    WriteFault,
    /// There was no memory.
    NoMemory,
    /// 1,000,000 reads were made, and each gave bytes.
    ReadsUsed,
}

/// Why a line was not obeyed to its end.
#[derive(Clone, Copy)]
pub(crate) enum Stop {
    BadLine,
    WriteFault,
    NoMemory,
}

impl Stop {
    ghost use Rattle.std.specs.Prelude.{◌≡◌};
    ghost use Rattle.art_schedule.specs.Schedules.{IsStop, end_of};

    /// The end that it is to a schedule, at the line of this number.
    pub(crate) fn at(self, line: u64) -> ScheduleEnd
        ensures end { result ≡ end_of self line }
        ensures stop { IsStop result }
    {
        match self {
            Stop::BadLine => ScheduleEnd::BadLine(line),
            Stop::WriteFault => ScheduleEnd::WriteFault,
            Stop::NoMemory => ScheduleEnd::NoMemory,
        }
    }
}

/// There was no memory for a text.
impl From<NoMemory> for Stop {
    ghost use Rattle.std.specs.Prelude.{◌≡◌};
    ghost use Rattle.art_schedule.specs.declared.stops.Stop.TheVariants as stop;

    ghost from_gives = { λ _ made. made ≡ stop.NoMemory };

    fn from(_refused: NoMemory) -> Stop {
        Stop::NoMemory
    }
}

/// A text could not be written.
impl From<io::Error> for Stop {
    ghost use Rattle.std.specs.Prelude.{◌≡◌};
    ghost use Rattle.art_schedule.specs.declared.stops.Stop.TheVariants as stop;

    ghost from_gives = { λ _ made. made ≡ stop.WriteFault };

    fn from(_error: io::Error) -> Stop {
        Stop::WriteFault
    }
}
