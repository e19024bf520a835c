ghost use Rattle.std.specs.Thread.{IsSync};
ghost use Rattle.std.specs.Prelude.{◌≡◌, ◌∷◌, [], All, IfOk, length, false};
ghost use Rattle.job_shift.specs.Hands.{IsHandOf};
ghost use Rattle.job_shift.specs.Doing.{HasWorked, HaveDone, HaveWorked, IsReady};

use crate::hand::Hand;
use crate::jobs::Job;
use crate::shift::Shift;
use hg_base::OutOfMemory;
use std::alloc::Global;
use std::thread::{Threads, join_mut};

// The text of a job that was done.
#[derive(Drop)]
pub(crate) struct Done {
    pub(crate) job: u32,
    pub(crate) text: Vec<u8>,
}

// A worker: its hand, the jobs that it has done, and whether memory ran out for one.
#[derive(Drop)]
pub(crate) struct Worker {
    pub(crate) hand: Hand,
    pub(crate) done: Vec<Done>,
    pub(crate) failed: bool,
}

// Does jobs by one hand until it misses.
fn work<R: Threads + Sync, J: Job>(
    rt: &R,
    alloc: Global,
    shift: &Shift,
    jobs: &J,
    hand: &mut Hand,
) -> Result<Vec<Done>, OutOfMemory>
    requires count { shift.now.count ≡ length (J.texts jobs.now) }
    requires hand { IsHandOf hand.old shift.now }
    requires fresh { hand.old.view.missed ≡ false }
    ensures { IfOk result (λ done. HaveDone (J.texts jobs.now) shift.now (hand.old ∷ []) (hand.new ∷ []) done.items) }
{
    let mut done = Vec::new(alloc);
    while let Some(job) = shift.next(hand) {
        let text = jobs.text(rt, alloc, job)?;
        done.push(Done { job, text }).map_err(|_| OutOfMemory)?;
    }
    Ok(done)
}

// Has a worker do jobs until its hand misses, or memory runs out.
#[tactic(auto, using(crate::proofs::Doing::from_fresh))]
fn work_through<R: Threads + Sync, J: Job>(
    rt: &R,
    alloc: Global,
    shift: &Shift,
    jobs: &J,
    worker: &mut Worker,
)
    requires count { shift.now.count ≡ length (J.texts jobs.now) }
    requires ready { IsReady shift.now worker.old }
    ensures { HasWorked (J.texts jobs.now) shift.now worker.new }
{
    let Ok(done) = work(rt, alloc, shift, jobs, &mut worker.hand) else {
        worker.failed = true;
        return;
    };
    worker.done = done;
}

// Has each of these workers do jobs until its hand misses, in a thread of its own where one can be had.
fn work_all<R: Threads + Sync, J: Job>(
    rt: &R,
    alloc: Global,
    shift: &Shift,
    jobs: &J,
    crew: &mut [Worker],
)
    requires count { shift.now.count ≡ length (J.texts jobs.now) }
    requires ready { All (IsReady shift.now) crew.old }
    ensures { HaveWorked (J.texts jobs.now) shift.now crew.old crew.new }
{
    match crew {
        [] => (),
        [worker] => work_through(rt, alloc, shift, jobs, worker),
        _ => {
            let (front, back) = crew.split_at_mut(crew.len() / 2);
            join_mut(
                rt,
                &mut ||
                    requires { IsSync R.row × IsSync J.row × (shift.now.count ≡ length (J.texts jobs.now)) × All (IsReady shift.now) front.now }
                    ensures { HaveWorked (J.texts jobs.entry.now) shift.entry.now front.entry.now front.exit.now }
                { work_all(rt, alloc, shift, jobs, front) },
                &mut ||
                    requires { IsSync R.row × IsSync J.row × (shift.now.count ≡ length (J.texts jobs.now)) × All (IsReady shift.now) back.now }
                    ensures { HaveWorked (J.texts jobs.entry.now) shift.entry.now back.entry.now back.exit.now }
                { work_all(rt, alloc, shift, jobs, back) },
            );
        }
    }
}

// Has a whole crew do jobs until the hand of each has missed.
pub(crate) fn put_to_work<J: Job>(
    rt: &(impl Threads + Sync),
    alloc: Global,
    shift: &Shift,
    jobs: &J,
    crew: &mut Vec<Worker>,
)
    requires count { shift.now.count ≡ length (J.texts jobs.now) }
    requires ready { All (IsReady shift.now) crew.old.items }
    ensures { HaveWorked (J.texts jobs.now) shift.now crew.old.items crew.new.items }
{
    work_all(rt, alloc, shift, jobs, crew.as_mut_slice());
}
