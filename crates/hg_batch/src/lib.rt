//! Many edge lists in one run: each is a job of its own, done by workers that draw the jobs' numbers from a shift.
#![tactic(auto)]

mod batch;
mod cutting;
mod ending;
mod reading;
mod running;
mod texts;

pub use ending::BatchStatus;
pub use job_shift::{Hand, HandView, Job, Pair, Shift, run_jobs};
pub use running::run_batch;
