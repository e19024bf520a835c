// Threads that meet.
use std::sync::atomic::AtomicBool;
use std::sync::atomic::Ordering::SeqCst;

// How many turns one waits for the other at most.
const PATIENCE: u32 = 1 << 28;

// One of two that are to meet: whether it has come, and whether it saw that the other has.
#[derive(Drop)]
pub(crate) struct Caller {
    came: AtomicBool,
    met: AtomicBool,
}

impl Caller {
    pub(crate) fn new() -> Caller {
        Caller {
            came: AtomicBool::new(false),
            met: AtomicBool::new(false),
        }
    }

    pub(crate) fn has_met(&self) -> bool {
        self.met.load(SeqCst)
    }

    // When it comes for the first time, it waits until the other has come, but no longer than patience lasts.
    pub(crate) fn meet(&self, other: &Caller) {
        if self.came.swap(true, SeqCst) {
            return;
        }
        for _ in 0..PATIENCE {
            if other.came.load(SeqCst) {
                self.met.store(true, SeqCst);
                return;
            }
        }
    }
}
