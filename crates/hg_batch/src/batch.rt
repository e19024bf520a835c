// The jobs of a batch.
use super::cutting::Piece;
use super::texts::text_of;
use hg_base::OutOfMemory;
use higra_words::Request;
use job_shift::Job;
use std::alloc::Global;
use std::marker::Model;
use std::thread::Threads;

// The pieces of an input, and what is asked for of each.
#[derive(Drop)]
pub(crate) struct Batch {
    pub(crate) request: Request,
    pub(crate) pieces: Vec<Piece>,
}

impl Model for Batch {
    ghost use Rattle.hg_batch.specs.Jobs.{BatchState};

    ghost Value = { BatchState };

    ghost use Rattle.hg_batch.specs.JobsFields.{state_of, IsBatch};

    ghost view = { state_of };

    ghost invariant = { IsBatch };
}

impl Job for Batch {
    ghost use Rattle.hg_batch.specs.Batch.{texts_from};

    ghost texts = { λ b. texts_from b.request 0 b.pieces };

    fn text<R: Threads + Sync>(
        &self,
        rt: &R,
        alloc: Global,
        job: u32,
    ) -> Result<Vec<u8>, OutOfMemory> {
        text_of(rt, alloc, &self.request, job, &self.pieces[job as usize])
    }

    fn count(&self) -> u32 {
        self.pieces.len() as u32
    }
}
