ghost use Rattle.std.specs.Prelude.{◌≡◌, Some};
ghost use Rattle.hg_base.specs.Fault.{number_of, name_of, input_words};

use std::fmt;

/// A read or a write of the outside failed.
#[derive(Clone, Copy, Debug, PartialEq, Eq)]
pub struct Failed;

/// There was no memory left for what the call needs.
#[derive(Clone, Copy, Debug, PartialEq, Eq)]
pub struct OutOfMemory;

/// What can be wrong with an input.
#[derive(Clone, Copy, Debug, PartialEq, Eq)]
pub enum FaultKind {
    UnknownForm,
    BadNumber,
    TooLarge,
    Truncated,
    Trailing,
    OutOfRange,
    Loop,
    NoVertex,
    SampleAboveMax,
    TooLong,
    NotAPicture,
    TooManyTiles,
    TooManyLabels,
    TooManyJobs,
    TooManyVertices,
}

impl FaultKind {
    /// The kind's number in fault lines.
    pub fn number(&self) -> u8
        ensures { result ≡ number_of self.now }
    {
        match self {
            FaultKind::UnknownForm => 1,
            FaultKind::BadNumber => 2,
            FaultKind::TooLarge => 3,
            FaultKind::Truncated => 4,
            FaultKind::Trailing => 5,
            FaultKind::OutOfRange => 6,
            FaultKind::Loop => 7,
            FaultKind::NoVertex => 8,
            FaultKind::SampleAboveMax => 9,
            FaultKind::TooLong => 10,
            FaultKind::NotAPicture => 11,
            FaultKind::TooManyTiles => 12,
            FaultKind::TooManyLabels => 14,
            FaultKind::TooManyJobs => 15,
            FaultKind::TooManyVertices => 16,
        }
    }

    /// The kind's name in fault lines.
    pub fn name(&self) -> &'static str
        ensures { result.now ≡ name_of self.now }
    {
        match self {
            FaultKind::UnknownForm => "UnknownForm",
            FaultKind::BadNumber => "BadNumber",
            FaultKind::TooLarge => "TooLarge",
            FaultKind::Truncated => "Truncated",
            FaultKind::Trailing => "Trailing",
            FaultKind::OutOfRange => "OutOfRange",
            FaultKind::Loop => "Loop",
            FaultKind::NoVertex => "NoVertex",
            FaultKind::SampleAboveMax => "SampleAboveMax",
            FaultKind::TooLong => "TooLong",
            FaultKind::NotAPicture => "NotAPicture",
            FaultKind::TooManyTiles => "TooManyTiles",
            FaultKind::TooManyLabels => "TooManyLabels",
            FaultKind::TooManyJobs => "TooManyJobs",
            FaultKind::TooManyVertices => "TooManyVertices",
        }
    }
}

impl fmt::Display for FaultKind {
    ghost output = { λ kind. Some (name_of kind) };

    fn fmt<W: fmt::Write>(&self, f: &mut fmt::Formatter<W>) -> fmt::Result {
        f.write_str(self.name())
    }
}

/// A fault of an input: its kind, its place in bytes from the start of the input, and the number that it is about.
#[derive(Clone, Copy, Debug, PartialEq, Eq)]
pub struct InputFault {
    pub kind: FaultKind,
    pub at: u64,
    pub value: u64,
}

impl fmt::Display for InputFault {
    // as in the fault line
    ghost output = { λ fault. Some (input_words fault) };

    fn fmt<W: fmt::Write>(&self, f: &mut fmt::Formatter<W>) -> fmt::Result {
        let InputFault { kind, at, value } = *self;
        let number = kind.number();
        write!(f, "input {number} {kind} at {at} value {value}")
    }
}

/// Why an input wasn't read.
#[derive(Clone, Copy, Debug, PartialEq, Eq)]
pub enum ReadError {
    Fault(InputFault),
    OutOfMemory,
}

#[cfg(test)]
mod tests;
