use hg_base::{InputFault, OutOfMemory, ReadError};
use std::alloc::AllocError;

/// Why a source gave no input.
#[derive(Clone, Copy, Debug, PartialEq, Eq)]
pub enum ReadFault {
    /// What the source gave has this fault.
    Input(InputFault),
    /// A read of the source failed.
    ReadFailed,
    /// There was no memory left.
    OutOfMemory,
}

impl From<AllocError> for ReadFault {
    ghost use Rattle.std.specs.Prelude.{◌≡◌};
    ghost use Rattle.higra_input.specs.declared.fault.ReadFault.TheVariants as faults;

    ghost from_gives = { λ _ fault. fault ≡ faults.OutOfMemory };

    fn from(_error: AllocError) -> ReadFault {
        ReadFault::OutOfMemory
    }
}

impl From<OutOfMemory> for ReadFault {
    ghost use Rattle.std.specs.Prelude.{◌≡◌};
    ghost use Rattle.higra_input.specs.declared.fault.ReadFault.TheVariants as faults;

    ghost from_gives = { λ _ fault. fault ≡ faults.OutOfMemory };

    fn from(_error: OutOfMemory) -> ReadFault {
        ReadFault::OutOfMemory
    }
}

impl From<ReadError> for ReadFault {
    ghost use Rattle.std.specs.Prelude.{◌≡◌};
    ghost use Rattle.higra_input.specs.Reading.{read_fault};

    ghost from_gives = { λ error fault. fault ≡ read_fault error };

    fn from(error: ReadError) -> ReadFault {
        match error {
            ReadError::Fault(fault) => ReadFault::Input(fault),
            ReadError::OutOfMemory => ReadFault::OutOfMemory,
        }
    }
}
