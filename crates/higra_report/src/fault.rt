use graph_hierarchy::HierarchyFault;
use hg_base::{FaultKind, InputFault, OutOfMemory};
use std::alloc::AllocError;

/// Why no report was made.
#[derive(Clone, Copy, Debug, PartialEq, Eq)]
pub enum ReportFault {
    /// The report can't be made of this input.
    Input(InputFault),
    /// There was no memory left.
    OutOfMemory,
}

impl From<OutOfMemory> for ReportFault {
    ghost use Rattle.std.specs.Prelude.{◌≡◌};
    ghost use Rattle.higra_report.specs.declared.fault.ReportFault.TheVariants as faults;

    ghost from_gives = { λ _ fault. fault ≡ faults.OutOfMemory };

    fn from(_error: OutOfMemory) -> ReportFault {
        ReportFault::OutOfMemory
    }
}

impl From<AllocError> for ReportFault {
    ghost use Rattle.std.specs.Prelude.{◌≡◌};
    ghost use Rattle.higra_report.specs.declared.fault.ReportFault.TheVariants as faults;

    ghost from_gives = { λ _ fault. fault ≡ faults.OutOfMemory };

    fn from(_error: AllocError) -> ReportFault {
        ReportFault::OutOfMemory
    }
}

impl From<HierarchyFault> for ReportFault {
    ghost use Rattle.std.specs.Prelude.{◌≡◌};
    ghost use Rattle.higra_report.specs.Planning.{report_fault};

    ghost from_gives = { λ hierarchy fault. fault ≡ report_fault hierarchy };

    fn from(fault: HierarchyFault) -> ReportFault {
        match fault {
            HierarchyFault::TooManyTiles(count) => ReportFault::Input(InputFault {
                kind: FaultKind::TooManyTiles,
                at: 0,
                value: count,
            }),
            HierarchyFault::OutOfMemory => ReportFault::OutOfMemory,
        }
    }
}
