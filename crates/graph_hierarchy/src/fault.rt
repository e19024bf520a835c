// What keeps a graph's tree from being made.
use hg_base::OutOfMemory;
use tile_plan::PlanFault;

/// Why the tree of a graph isn't made.
#[derive(Clone, Copy, Debug, PartialEq, Eq)]
pub enum HierarchyFault {
    /// There are more than 65,536 tiles: their number.
    TooManyTiles(u64),
    /// There was no memory left.
    OutOfMemory,
}

impl From<PlanFault> for HierarchyFault {
    ghost use Rattle.std.specs.Prelude.{◌≡◌};
    ghost use Rattle.graph_hierarchy.specs.Hierarchies.{hierarchy_fault};

    ghost from_gives = { λ plan fault. fault ≡ hierarchy_fault plan };

    fn from(fault: PlanFault) -> HierarchyFault {
        match fault {
            PlanFault::TooManyTiles(count) => HierarchyFault::TooManyTiles(count),
            PlanFault::OutOfMemory => HierarchyFault::OutOfMemory,
        }
    }
}

impl From<OutOfMemory> for HierarchyFault {
    ghost use Rattle.std.specs.Prelude.{◌≡◌};
    ghost use Rattle.graph_hierarchy.specs.declared.fault.HierarchyFault.TheVariants as faults;

    ghost from_gives = { λ _ fault. fault ≡ faults.OutOfMemory };

    fn from(_error: OutOfMemory) -> HierarchyFault {
        HierarchyFault::OutOfMemory
    }
}
