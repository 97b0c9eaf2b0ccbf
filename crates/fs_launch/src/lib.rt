//! A node from the words that ask for it to its last line.
#![tactic(auto)]

mod ended;
mod error;
mod launching;
mod started;

pub use error::LaunchError;
pub use launching::launch;
