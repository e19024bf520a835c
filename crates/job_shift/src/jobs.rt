// Jobs, and the workers that do them.
ghost use Rattle.std.specs.Prelude.{◌≡◌, ◌<◌, ◌≤◌, Some, IfOk, length, slice_get};
ghost use Rattle.std.specs.List.{concat};

use crate::crew::{crew_of, disband};
use crate::placing::{end_to_end, placed};
use crate::shift::Shift;
use crate::working::put_to_work;
use hg_base::OutOfMemory;
use std::alloc::Global;
use std::thread::Threads;

/// Jobs with a number each, from 0, whose texts can be made in any order.
pub trait Job: Sync {
    ghost use Rattle.std.specs.Prelude.{ℕ, List};
    ghost use Rattle.std.specs.Thread.{IsSync};

    // The texts of the jobs, by number.
    ghost texts: { Self → List (List ℕ) };

    /// The text of a job. The error is want of memory.
    fn text<R: Threads + Sync>(
        &self,
        rt: &R,
        alloc: Global,
        job: u32,
    ) -> Result<Vec<u8>, OutOfMemory>
        requires job { job < length (texts self.now) }
        // What the bound of R says: a trait's method has it by a clause alone.
        requires shared { IsSync R.row }
        ensures { IfOk result (λ text. slice_get (texts self.now) job ≡ Some text.items) };

    /// How many jobs there are.
    fn count(&self) -> u32
        ensures { result ≡ length (texts self.now) };
}

/// Does all jobs of a shift by so many workers, each in a thread of its own where one can be had, and puts their texts
/// end to end in order of number. The error is want of memory.
pub fn run_jobs<J: Job>(
    rt: &(impl Threads + Sync),
    alloc: Global,
    jobs: &J,
    workers: u32,
) -> Result<Vec<u8>, OutOfMemory>
    requires some_job { 1 ≤ length (J.texts jobs.now) }
    requires few_jobs { length (J.texts jobs.now) ≤ 4096 }
    requires some_worker { 1 ≤ workers }
    requires few_workers { workers ≤ 64 }
    ensures { IfOk result (λ bytes. bytes.items ≡ concat (J.texts jobs.now)) }
{
    let count = jobs.count();
    let (shift, hands) = Shift::start(alloc, count, workers)?;
    let mut crew = crew_of(alloc, &shift, hands)?;
    put_to_work(rt, alloc, &shift, jobs, &mut crew);
    let (hands, done) = disband(alloc, crew)?;
    let texts = placed(alloc, count, done)?;
    shift.finish(hands);
    end_to_end(alloc, &texts)
}
