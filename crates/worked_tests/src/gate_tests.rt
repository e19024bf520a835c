//! A run whose workers wait for each other in the gate that they pass.
ghost use Rattle.std.specs.Prelude.{◌<◌};

use crate::running::{run_words, words_of};
use hg_base::{Gate, GateEvent};
use std::alloc::Global;
use std::process::Abort;
use std::sync::atomic::{AtomicBool, AtomicU64, Ordering};
use std::test::Fail;
use std::thread::Threads;

/// A worker that is to meet another: whether it has drawn, and whether it saw that the other has.
#[derive(Drop)]
struct Caller {
    drew: AtomicBool,
    met: AtomicBool,
}

impl Caller {
    fn new() -> Caller {
        Caller {
            drew: AtomicBool::new(false),
            met: AtomicBool::new(false),
        }
    }

    /// Waits until the other has drawn, for at most 2^28 turns.
    fn wait_for(&self, other: &Caller) {
        for _ in 0..1u32 << 28 {
            if other.drew.load(Ordering::SeqCst) {
                self.met.store(true, Ordering::SeqCst);
                return;
            }
        }
    }
}

/// The gate of two workers, 0 and 1, on a board of two tiles. At its first draw each waits until it sees that the
/// other has drawn.
#[derive(Drop)]
struct Meeting {
    first: Caller,
    second: Caller,
    /// How often each event came, by its place; the last place has all others.
    events: [AtomicU64; 7],
}

/// The place of an event.
fn place_of(event: GateEvent) -> usize
    ensures { result < 7 }
{
    match event {
        GateEvent::Drew(0) => 0,
        GateEvent::Drew(1) => 1,
        GateEvent::Merging(2) => 2,
        GateEvent::Arrived(0) => 3,
        GateEvent::Arrived(1) => 4,
        GateEvent::Arrived(2) => 5,
        _ => 6,
    }
}

impl Meeting {
    fn new() -> Meeting {
        Meeting {
            first: Caller::new(),
            second: Caller::new(),
            events: [
                AtomicU64::new(0),
                AtomicU64::new(0),
                AtomicU64::new(0),
                AtomicU64::new(0),
                AtomicU64::new(0),
                AtomicU64::new(0),
                AtomicU64::new(0),
            ],
        }
    }
}

impl Gate for Meeting {
    fn pass(&self, worker: u32, event: GateEvent) {
        self.events[place_of(event)].fetch_add(1, Ordering::SeqCst);
        let (own, other) = match (event, worker) {
            (GateEvent::Drew(_), 0) => (&self.first, &self.second),
            (GateEvent::Drew(_), 1) => (&self.second, &self.first),
            _ => return,
        };
        if !own.drew.swap(true, Ordering::SeqCst) {
            own.wait_for(other);
        }
    }
}

/// Runs the program with two workers on a board of two tiles, and compares what it writes with what is wanted.
fn runs_through(
    rt: &(impl Threads + Sync + Abort),
    alloc: Global,
    gate: &Meeting,
) -> Result<(), Fail> {
    let input = b"graph 4 4\n0 1 5\n2 3 6\n1 2 1\n0 3 2\n";
    let words = words_of(alloc, &["tree", "--tile", "2", "--workers", "2"])?;
    let ran = run_words(rt, alloc, &words, input, 100, gate)?;
    let want = b"tree 7 4\n0 5 0\n1 4 0\n2 4 0\n3 5 0\n4 6 1\n5 6 2\n6 6 5\n";
    ran.is_as_wanted(rt, 0, want, b"");
    Ok(())
}

#[test]
fn two_workers_meet(rt: HostRuntime) -> Result<(), Fail> {
    let gate = Meeting::new();
    runs_through(&rt, rt.alloc(), &gate)?;
    assert!(rt; gate.first.met.load(Ordering::SeqCst));
    assert!(rt; gate.second.met.load(Ordering::SeqCst));
    for place in 0..7 {
        let count = gate.events[place].load(Ordering::SeqCst);
        assert_eq!(rt; count, u64::from(place < 6), "at {place}");
    }
    Ok(())
}
