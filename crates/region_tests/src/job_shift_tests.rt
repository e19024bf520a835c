// One shift on one thread, and two jobs that wait for each other.
ghost use Rattle.std.specs.Prelude.{All};
ghost use Rattle.job_shift.specs.Hands.{IsHandOf};

use crate::callers::Caller;
use hg_base::OutOfMemory;
use job_shift::{Hand, Job, Shift, run_jobs};
use std::alloc::Global;
use std::process::Abort;
use std::test::Fail;
use std::thread::Threads;

// Two jobs, each of which stays until it sees that the other was entered.
#[derive(Drop)]
struct Meeting {
    first: Caller,
    second: Caller,
}

impl Job for Meeting {
    ghost use Rattle.std.specs.Prelude.{[], ◌∷◌};

    ghost texts = { λ _. (65 ∷ []) ∷ (66 ∷ []) ∷ [] };

    fn text<R: Threads + Sync>(
        &self,
        _rt: &R,
        alloc: Global,
        job: u32,
    ) -> Result<Vec<u8>, OutOfMemory> {
        let mut text = Vec::new(alloc);
        if job == 0 {
            self.first.meet(&self.second);
            text.push(b'A').or(Err(OutOfMemory))?;
        } else {
            self.second.meet(&self.first);
            text.push(b'B').or(Err(OutOfMemory))?;
        }
        Ok(text)
    }

    fn count(&self) -> u32 {
        2
    }
}

#[test]
fn two_at_a_time(rt: HostRuntime) -> Result<(), Fail> {
    let meeting = Meeting {
        first: Caller::new(),
        second: Caller::new(),
    };
    let texts = run_jobs(&rt, rt.alloc(), &meeting, 2)?;
    assert!(rt; texts.as_slice() == b"AB".as_slice());
    assert!(rt; meeting.first.has_met());
    assert!(rt; meeting.second.has_met());
    Ok(())
}

// One step of the hand at this place, where it hasn't missed.
fn drawn(shift: &Shift, hands: &mut [Hand], place: usize) -> Option<u32>
    requires { All (λ hand. IsHandOf hand shift.now) hands.old }
    ensures { All (λ hand. IsHandOf hand shift.now) hands.new }
{
    if hands.len() <= place || hands[place].has_missed() {
        return None;
    }
    shift.next(&mut hands[place])
}

// Whose turn it is, and what it draws.
static WANTED: [(usize, Option<u32>); 5] = [
    (0, Some(0)),
    (1, Some(1)),
    (0, Some(2)),
    (1, None),
    (0, None),
];

#[test]
fn by_turns(rt: HostRuntime) -> Result<(), Fail> {
    let (shift, mut hands) = Shift::start(rt.alloc(), 3, 2)?;
    for (place, want) in WANTED {
        assert!(rt; drawn(&shift, hands.as_mut_slice(), place) == want);
    }
    assert!(rt; hands.iter().all(|hand| hand.has_missed()));
    let answer = shift.finish(hands);
    assert!(rt; answer.as_slice() == [0, 1, 0].as_slice());
    Ok(())
}
