// Gates that hold workers up.
use crate::callers::Caller;
use hg_base::{Gate, GateEvent};
use std::sync::atomic::AtomicU64;
use std::sync::atomic::Ordering::SeqCst;

// How many turns a slow worker takes.
const DELAY: u32 = 1 << 16;

// A gate at which each of two workers, 0 and 1, stays at its first draw until it sees that the other has drawn.
#[derive(Drop)]
pub(crate) struct Meeting {
    first: Caller,
    second: Caller,
}

impl Meeting {
    pub(crate) fn new() -> Meeting {
        Meeting {
            first: Caller::new(),
            second: Caller::new(),
        }
    }

    // Each saw that the other had drawn before it built its first tile.
    pub(crate) fn both_met(&self) -> bool {
        self.first.has_met() && self.second.has_met()
    }
}

impl Gate for Meeting {
    fn pass(&self, worker: u32, event: GateEvent) {
        let GateEvent::Drew(_) = event else {
            return;
        };
        if worker == 0 {
            self.first.meet(&self.second);
        } else {
            self.second.meet(&self.first);
        }
    }
}

// What a worker has done when it passes a gate.
#[derive(Clone, Copy, PartialEq, Eq)]
pub(crate) enum Kind {
    Drew,
    Merging,
    Arrived,
}

// A gate at which one worker is slow at one kind of event.
#[derive(Drop)]
pub(crate) struct Slow {
    worker: u32,
    kind: Kind,
    turns: AtomicU64,
}

impl Slow {
    pub(crate) fn new(worker: u32, kind: Kind) -> Slow {
        Slow {
            worker,
            kind,
            turns: AtomicU64::new(0),
        }
    }

    fn linger(&self) {
        for _ in 0..DELAY {
            self.turns.fetch_add(1, SeqCst);
        }
    }
}

impl Gate for Slow {
    fn pass(&self, worker: u32, event: GateEvent) {
        let kind = match event {
            GateEvent::Drew(_) => Kind::Drew,
            GateEvent::Merging(_) => Kind::Merging,
            GateEvent::Arrived(_) => Kind::Arrived,
        };
        if worker == self.worker && kind == self.kind {
            self.linger();
        }
    }
}
