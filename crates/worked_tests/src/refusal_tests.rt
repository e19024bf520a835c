//! Runs that may lack memory: their workers pass no event of the gate or all of them. With ample memory they pass all;
//! `trials/refusals.py` refuses one allocation of a run after the other.
use crate::running::{Ran, run_words, words_of};
use hg_base::{Gate, GateEvent};
use std::alloc::Global;
use std::process::Abort;
use std::sync::atomic::{AtomicU64, Ordering};
use std::test::Fail;
use std::thread::Threads;

/// How many events passed.
#[derive(Drop)]
struct Counter {
    passed: AtomicU64,
}

impl Counter {
    fn new() -> Counter {
        Counter {
            passed: AtomicU64::new(0),
        }
    }

    fn count(&self) -> u64 {
        self.passed.load(Ordering::SeqCst)
    }
}

impl Gate for Counter {
    fn pass(&self, _worker: u32, _event: GateEvent) {
        self.passed.fetch_add(1, Ordering::SeqCst);
    }
}

/// A run, its report with ample memory, and how many events it has then.
#[derive(Drop)]
struct Row {
    words: &'static [&'static str],
    input: &'static [u8],
    report: &'static [u8],
    events: u64,
}

fn run_row(
    rt: &(impl Threads + Sync),
    alloc: Global,
    row: &Row,
    gate: &Counter,
) -> Result<Ran, Fail> {
    let words = words_of(alloc, row.words)?;
    run_words(rt, alloc, &words, row.input, 200, gate)
}

/// The report after all events; or want of memory after none or all, and nothing is written.
fn no_event_or_all(
    rt: &(impl Threads + Sync + Abort),
    alloc: Global,
    row: &Row,
) -> Result<(), Fail> {
    let gate = Counter::new();
    let ran = run_row(rt, alloc, row, &gate)?;
    let is_short = ran.code == 6;
    let events = gate.count();
    assert!(rt; is_short || ran.code == 0);
    assert!(rt;
        events == row.events || is_short && events == 0,
        "{events} events"
    );
    let want = if is_short { b"" } else { row.report };
    assert_eq!(rt; ran.out.taken(), want);
    Ok(())
}

#[test]
fn two_tiles(rt: HostRuntime) -> Result<(), Fail> {
    let row = Row {
        words: &["tree", "--tile", "2", "--workers", "2"],
        input: b"graph 4 4\n0 1 5\n2 3 6\n1 2 1\n0 3 2\n",
        report: b"tree 7 4\n0 5 0\n1 4 0\n2 4 0\n3 5 0\n4 6 1\n5 6 2\n6 6 5\n",
        events: 6,
    };
    no_event_or_all(&rt, rt.alloc(), &row)
}

#[test]
fn four_tiles_of_a_picture(rt: HostRuntime) -> Result<(), Fail> {
    let row = Row {
        words: &["hierarchical", "--tile", "1", "--workers", "3"],
        input: b"P5\n2 2\n9\n\0\x03\x03\t",
        report: b"tree 7 4\n0 4 0\n1 4 0\n2 5 0\n3 6 0\n4 5 0\n5 6 0\n6 6 0\nextinctions 1\n1 3\n",
        events: 14,
    };
    no_event_or_all(&rt, rt.alloc(), &row)
}
