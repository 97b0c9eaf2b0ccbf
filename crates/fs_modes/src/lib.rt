//! What an open may do and what it denies to others.
#![tactic(auto)]

mod law;
mod letters;
mod modes;

pub use law::{conflicts_are_mutual, none_has_no_mode};
pub use modes::{Mode, Modes};
