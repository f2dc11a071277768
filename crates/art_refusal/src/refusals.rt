//! The numbered refusals.
use art_key::{SchemaFault, ValueFault};
use std::error::Error;
use std::fmt;

/// Why a command, or the start of the server, was refused.
#[derive(Clone, Copy, Debug, PartialEq, Eq)]
pub enum Refusal {
    /// The line is no JSON text.
    BadLine,
    /// The line has more than 4,096 bytes.
    LineTooLong,
    /// The JSON text has not the shape of a command.
    BadCommand,
    /// The tuple has not one value for each column.
    WrongColumns,
    /// A value is of another type than its column.
    WrongType,
    /// A whole number does not fit its column.
    OutOfRange,
    /// A text is longer than its column allows.
    TextTooLong,
    /// The range of a scan ends before it begins.
    BadRange,
    /// The limit of a scan is not allowed.
    BadLimit,
    /// The turns of the command are used up.
    Busy,
    /// The pool that the row needs has no free number.
    Full,
    /// The limbo of the pass has no four places for numbers that a change unlinks.
    Crowded,
    /// A cell's counter of changes is at its end.
    Exhausted,
    /// There is no memory.
    NoMemory,
    /// No column is given.
    NoColumns,
    /// More columns are given than a tuple may have.
    TooManyColumns,
    /// The columns make too wide a key.
    KeyTooWide,
    /// A column is of no known kind.
    BadColumn,
    /// A size of the configuration is out of its range.
    BadConfig,
    /// A pass of the table that is to be closed is missing.
    PassesMissing,
}

impl Refusal {
    ghost use Rattle.std.specs.Prelude.{◌≡◌};
    ghost use Rattle.art_refusal.specs.Refusals.{refusal_number, refusal_name};

    /// The number that a client sees.
    pub fn number(self) -> u8
        ensures { result ≡ refusal_number self }
    {
        match self {
            Refusal::BadLine => 1,
            Refusal::LineTooLong => 2,
            Refusal::BadCommand => 3,
            Refusal::WrongColumns => 4,
            Refusal::WrongType => 5,
            Refusal::OutOfRange => 6,
            Refusal::TextTooLong => 7,
            Refusal::BadRange => 8,
            Refusal::BadLimit => 9,
            Refusal::Busy => 10,
            Refusal::Full => 11,
            Refusal::Crowded => 12,
            Refusal::Exhausted => 13,
            Refusal::NoMemory => 14,
            Refusal::NoColumns => 20,
            Refusal::TooManyColumns => 21,
            Refusal::KeyTooWide => 22,
            Refusal::BadColumn => 23,
            Refusal::BadConfig => 24,
            Refusal::PassesMissing => 25,
        }
    }

    /// The name that stands beside the number.
    pub fn name(self) -> &'static str
        ensures { result.now ≡ refusal_name self }
    {
        match self {
            Refusal::BadLine => "BadLine",
            Refusal::LineTooLong => "LineTooLong",
            Refusal::BadCommand => "BadCommand",
            Refusal::WrongColumns => "WrongColumns",
            Refusal::WrongType => "WrongType",
            Refusal::OutOfRange => "OutOfRange",
            Refusal::TextTooLong => "TextTooLong",
            Refusal::BadRange => "BadRange",
            Refusal::BadLimit => "BadLimit",
            Refusal::Busy => "Busy",
            Refusal::Full => "Full",
            Refusal::Crowded => "Crowded",
            Refusal::Exhausted => "Exhausted",
            Refusal::NoMemory => "NoMemory",
            Refusal::NoColumns => "NoColumns",
            Refusal::TooManyColumns => "TooManyColumns",
            Refusal::KeyTooWide => "KeyTooWide",
            Refusal::BadColumn => "BadColumn",
            Refusal::BadConfig => "BadConfig",
            Refusal::PassesMissing => "PassesMissing",
        }
    }
}

impl fmt::Display for Refusal {
    ghost use Rattle.std.specs.Prelude.{Some};
    ghost use Rattle.art_refusal.specs.Refusals.{refusal_text};

    ghost output = { λ refusal. Some (refusal_text refusal) };

    fn fmt<W: fmt::Write>(&self, f: &mut fmt::Formatter<W>) -> fmt::Result {
        let (number, name) = (self.number(), self.name());
        write!(f, "refused {number} {name}")
    }
}

impl Error for Refusal {}

impl From<ValueFault> for Refusal {
    ghost use Rattle.std.specs.Prelude.{◌≡◌};
    ghost use Rattle.art_refusal.specs.Refusals.{value_refusal};

    ghost from_gives = { λ fault refusal. refusal ≡ value_refusal fault };

    fn from(fault: ValueFault) -> Refusal {
        match fault {
            ValueFault::WrongColumns => Refusal::WrongColumns,
            ValueFault::WrongType(_) => Refusal::WrongType,
            ValueFault::OutOfRange(_) => Refusal::OutOfRange,
            ValueFault::TextTooLong(_) => Refusal::TextTooLong,
        }
    }
}

impl From<SchemaFault> for Refusal {
    ghost use Rattle.std.specs.Prelude.{◌≡◌};
    ghost use Rattle.art_refusal.specs.Refusals.{schema_refusal};

    ghost from_gives = { λ fault refusal. refusal ≡ schema_refusal fault };

    fn from(fault: SchemaFault) -> Refusal {
        match fault {
            SchemaFault::NoColumns => Refusal::NoColumns,
            SchemaFault::TooManyColumns => Refusal::TooManyColumns,
            SchemaFault::KeyTooWide => Refusal::KeyTooWide,
            SchemaFault::BadColumn(_) => Refusal::BadColumn,
        }
    }
}
