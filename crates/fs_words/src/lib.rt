//! The words of the command line: what they ask for, or the first of them that no form has there.
#![tactic(auto)]

mod command;
mod law;
mod node;
mod number;
mod place;
mod placed;
mod words;

pub use command::{Command, Format, Settings, TURNS};
pub use law::numbers_are_decimals;
pub use placed::node_places;
pub use words::{command_of, is_word};
