/// Why there is no plan.
#[derive(Clone, Copy, Debug, PartialEq, Eq)]
pub enum PlanFault {
    /// There are more than 65,536 tiles: their number.
    TooManyTiles(u64),
    /// There was no memory left for the plan.
    OutOfMemory,
}
