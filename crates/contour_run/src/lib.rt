//! A whole run that draws contours: from words and a source to a picture and a status.
#![tactic(auto)]

mod command;
mod drawing;
pub mod laws;
mod request;
mod running;

pub use drawing::draw;
pub use request::{ContourRequest, contour_request_of};
pub use running::run_contours;
