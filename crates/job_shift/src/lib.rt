//! Numbers of jobs that workers draw, each once, in any order of their steps; and the jobs done by them.
#![tactic(auto)]

mod crew;
mod finishing;
mod hand;
mod jobs;
pub mod laws;
mod placing;
mod rule;
mod shift;
mod starting;
mod view;
mod working;

pub use hand::Hand;
pub use jobs::{Job, run_jobs};
pub use shift::Shift;
pub use view::{HandView, Pair};
