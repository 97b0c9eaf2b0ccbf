//! What an actor does, over its core and its links alone.
#![tactic(auto)]

mod client_each;
mod client_events;
mod client_heard;
mod client_packets;
mod finished;
mod hearing;
mod law;
mod lists;
mod noted;
mod pushes;
mod server_each;
mod server_events;
mod server_heard;
mod server_packets;

pub use client_each::client_hears_each;
pub use client_events::{ClientEvent, client_acts, client_turns};
pub use client_heard::ClientHeard;
pub use client_packets::{ClientTold, client_told_all};
pub use hearing::{answer_heard, event_heard, heard_in, unheard_note};
pub use law::{a_message_is_read_from_its_bytes, one_message_is_heard_as_one};
pub use lists::append;
pub use noted::{act_noted, client_noted};
pub use server_each::server_hears_each;
pub use server_events::{ServerTold, server_steps};
pub use server_heard::ServerHeard;
pub use server_packets::server_told_all;
