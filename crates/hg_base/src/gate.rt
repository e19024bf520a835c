/// What a worker has just done when it passes a gate. The number is that of a part of the plan.
#[derive(Clone, Copy, Debug, PartialEq, Eq)]
pub enum GateEvent {
    /// It drew this part, and will build it.
    Drew(u32),
    /// It will merge what stands below this part.
    Merging(u32),
    /// It arrived with this part.
    Arrived(u32),
}

/// A point that each worker passes at each event, from any thread. A gate has no answer and no
/// fault; what it does can't change what a run answers.
pub trait Gate: Sync {
    /// The worker with this number passes at this event.
    fn pass(&self, worker: u32, event: GateEvent);
}

/// The gate that does nothing.
#[derive(Clone, Copy, Debug, PartialEq, Eq)]
pub struct OpenGate;

impl Gate for OpenGate {
    fn pass(&self, _worker: u32, _event: GateEvent) {}
}
