//! The board on which workers draw tiles and join parts, in any order of their steps.
#![tactic(auto)]

mod arrival;
mod board;
pub mod laws;
mod place;
mod receipt;
mod rule;
mod seat;
mod seats;
mod serving;
mod setting_up;
mod slots;
mod view;
mod working;

pub use arrival::Arrival;
pub use board::Board;
pub use receipt::Receipt;
pub use seat::Seat;
pub use seats::Seats;
pub use serving::{built, merged, serve};
pub use view::View;
pub use working::hierarchy;
