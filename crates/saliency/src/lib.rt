//! Saliencies of edges, and the regions of a tree cut at a level.
#![tactic(auto)]

mod regions;
mod report;
mod roots;
mod values;

pub use regions::cut;
pub use report::{saliency_pieces, write_saliency};
pub use roots::ends_share_roots;
pub use values::{saliency, saliency_in_threads};
