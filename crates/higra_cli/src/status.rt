// How a run ends.
ghost use Rattle.std.specs.Prelude.{◌≡◌};
ghost use Rattle.higra_cli.specs.Ending.{code_of};

use super::fault::WriteFault;
use hg_base::InputFault;
use higra_input::ReadFault;
use higra_report::ReportFault;
use higra_words::WordsFault;
use merge_board::Receipt;

/// How a run ended.
#[derive(Debug, Drop)]
pub enum Status {
    /// The report was written. The receipt is that of the board on which its tree was made.
    Success(Receipt),
    /// The words ask for nothing.
    Usage,
    /// The input has this fault.
    Input(InputFault),
    /// A read of the source failed.
    ReadFailed,
    /// A write of the report failed.
    WriteFailed,
    /// There was no memory left.
    OutOfMemory,
}

impl Status {
    /// The code with which the program ends.
    pub fn code(&self) -> u8
        ensures { result ≡ code_of self.now }
    {
        match self {
            Status::Success(_) => 0,
            Status::Usage => 2,
            Status::Input(_) => 3,
            Status::ReadFailed => 4,
            Status::WriteFailed => 5,
            Status::OutOfMemory => 6,
        }
    }
}

impl From<WordsFault> for Status {
    ghost use Rattle.std.specs.Prelude.{◌≡◌};
    ghost use Rattle.higra_cli.specs.Ending.{status_of_words};

    ghost from_gives = { λ fault status. status ≡ status_of_words fault };

    fn from(fault: WordsFault) -> Status {
        match fault {
            WordsFault::Usage => Status::Usage,
            WordsFault::OutOfMemory => Status::OutOfMemory,
        }
    }
}

impl From<ReadFault> for Status {
    ghost use Rattle.std.specs.Prelude.{◌≡◌};
    ghost use Rattle.higra_cli.specs.Ending.{status_of_read};

    ghost from_gives = { λ fault status. status ≡ status_of_read fault };

    fn from(fault: ReadFault) -> Status {
        match fault {
            ReadFault::Input(fault) => Status::Input(fault),
            ReadFault::ReadFailed => Status::ReadFailed,
            ReadFault::OutOfMemory => Status::OutOfMemory,
        }
    }
}

impl From<WriteFault> for Status {
    ghost use Rattle.std.specs.Prelude.{◌≡◌};
    ghost use Rattle.higra_cli.specs.Ending.{status_of_write};

    ghost from_gives = { λ fault status. status ≡ status_of_write fault };

    fn from(fault: WriteFault) -> Status {
        match fault {
            WriteFault::Report(ReportFault::Input(fault)) => Status::Input(fault),
            WriteFault::Report(ReportFault::OutOfMemory) => Status::OutOfMemory,
            WriteFault::WriteFailed => Status::WriteFailed,
        }
    }
}
