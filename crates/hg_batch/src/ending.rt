// How a batch ends.
ghost use Rattle.std.specs.Prelude.{◌≡◌, ◌≢◌};
ghost use Rattle.hg_batch.specs.Ending.{batch_code, batch_line};
ghost use Rattle.higra_cli.specs.Ending.{fault_line};
ghost use Rattle.hg_batch.specs.declared.ending.BatchStatus.TheVariants as statuses;

use hg_base::{InputFault, OutOfMemory};
use higra_cli::{FaultLine, Status};
use std::alloc::AllocError;

/// How a batch ended.
#[derive(Clone, Copy, Debug, PartialEq, Eq)]
pub enum BatchStatus {
    /// The texts of all jobs were written.
    Success,
    /// The words ask for nothing, or for what no batch writes.
    Usage,
    /// The input as a whole has this fault.
    Input(InputFault),
    /// A read of the source failed.
    ReadFailed,
    /// A write of the texts failed.
    WriteFailed,
    /// There was no memory left.
    OutOfMemory,
}

impl BatchStatus {
    /// The code with which the program ends.
    pub fn code(&self) -> u8
        ensures { result ≡ batch_code self.now }
    {
        match self {
            BatchStatus::Success => 0,
            BatchStatus::Usage => 2,
            BatchStatus::Input(_) => 3,
            BatchStatus::ReadFailed => 4,
            BatchStatus::WriteFailed => 5,
            BatchStatus::OutOfMemory => 6,
        }
    }
}

// The line that says why the batch was refused.
pub(crate) fn line_of(status: BatchStatus) -> FaultLine
    requires { status ≢ statuses.Success }
    ensures { result ≡ batch_line status }
{
    FaultLine::of(&match status {
        BatchStatus::Success => unreachable!(),
        BatchStatus::Usage => Status::Usage,
        BatchStatus::Input(fault) => Status::Input(fault),
        BatchStatus::ReadFailed => Status::ReadFailed,
        BatchStatus::WriteFailed => Status::WriteFailed,
        BatchStatus::OutOfMemory => Status::OutOfMemory,
    })
}

impl From<OutOfMemory> for BatchStatus {
    ghost use Rattle.std.specs.Prelude.{◌≡◌};
    ghost use Rattle.hg_batch.specs.declared.ending.BatchStatus.TheVariants as statuses;

    ghost from_gives = { λ _ status. status ≡ statuses.OutOfMemory };

    fn from(_error: OutOfMemory) -> BatchStatus {
        BatchStatus::OutOfMemory
    }
}

impl From<AllocError> for BatchStatus {
    ghost use Rattle.std.specs.Prelude.{◌≡◌};
    ghost use Rattle.hg_batch.specs.declared.ending.BatchStatus.TheVariants as statuses;

    ghost from_gives = { λ _ status. status ≡ statuses.OutOfMemory };

    fn from(_error: AllocError) -> BatchStatus {
        BatchStatus::OutOfMemory
    }
}
