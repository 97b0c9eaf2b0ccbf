//! The turns of a node over its clock and its link, whatever its actor is.
#![tactic(auto)]

mod actor;
mod counts;
mod piece;
mod running;
mod sending;
mod stop;
mod turn;

pub use actor::{Actor, Turn};
pub use counts::Counts;
pub use piece::PIECE;
pub use running::run;
pub use stop::Stop;
