//! Contour maps of pictures: the saliencies of the edges drawn between the pixels.
#![tactic(auto)]

mod drawn;
mod laws;
mod map;
mod picture;
mod places;
mod scaling;

pub use drawn::{draw_contours, draw_saliencies};
pub use laws::{contours_are_of_edges, scaling_keeps_the_order};
pub use map::ContourMap;
pub use picture::{write_contours, write_contours_in_threads};
