//! Nodes: one server or one client each, over a clock, a link and a script.
#![tactic(auto)]

mod arrival;
mod client_node;
mod client_state;
mod client_turns;
mod ending;
mod law;
mod peers;
mod scripts;
mod server_node;
mod server_state;
mod server_turns;
mod texts;
mod turns;

pub use client_node::ClientNode;
pub use law::no_more_lines_are_done_than_there_are;
pub use server_node::ServerNode;
