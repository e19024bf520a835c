ghost use Rattle.std.specs.Prelude.{◌≡◌, All, IfOk, length};
ghost use Rattle.job_shift.specs.Hands.{IsFresh, IsHandOf};
ghost use Rattle.job_shift.specs.Doing.{IsCrewOf, IsReady};

use crate::hand::Hand;
use crate::shift::Shift;
use crate::working::{Done, Worker};
use hg_base::OutOfMemory;
use std::alloc::Global;

// A worker for each hand of a shift.
pub(crate) fn crew_of(
    alloc: Global,
    shift: &Shift,
    mut hands: Vec<Hand>,
) -> Result<Vec<Worker>, OutOfMemory>
    requires each { All (λ hand. IsHandOf hand shift.now) hands.items }
    requires fresh { All IsFresh hands.items }
    ensures count { IfOk result (λ crew. length crew.items ≡ length hands.items) }
    ensures ready { IfOk result (λ crew. All (IsReady shift.now) crew.items) }
{
    let _ = shift;
    let mut crew = Vec::new(alloc);
    while let Some(hand) = hands.pop() {
        let done = Vec::new(alloc);
        let failed = false;
        crew.push(Worker { hand, done, failed })
            .map_err(|_| OutOfMemory)?;
    }
    Ok(crew)
}

// The hands of a crew that has worked, and all that it has done.
pub(crate) fn disband(
    alloc: Global,
    mut crew: Vec<Worker>,
) -> Result<(Vec<Hand>, Vec<Done>), OutOfMemory>
    ensures count { IfOk result (λ made. length made.0.items ≡ length crew.items) }
    ensures crew { IfOk result (λ made. IsCrewOf crew.items made.0.items made.1.items) }
{
    let mut hands = Vec::new(alloc);
    let mut all = Vec::new(alloc);
    while let Some(worker) = crew.pop() {
        let Worker {
            hand,
            mut done,
            failed,
        } = worker;
        if failed {
            return Err(OutOfMemory);
        }
        hands.push(hand).map_err(|_| OutOfMemory)?;
        all.append(&mut done).map_err(|_| OutOfMemory)?;
    }
    Ok((hands, all))
}
