//! What actors tell: messages with their bytes, items of the journal, and notes of outcomes.
#![tactic(auto)]

mod act;
mod answer;
mod bytes;
mod client_msg;
mod client_note;
mod core_error;
mod decide;
mod done;
mod end;
mod entry;
mod error;
mod item;
mod law;
mod lead;
mod limits;
mod msg;
mod note;
mod peer_msg;
mod prepare;
mod reading;
mod refusal;
mod server_note;
mod voted;
mod writing;

pub use act::{Act, Busy, ClientOut};
pub use answer::{Answer, Grant};
pub use bytes::led_end::{led_end_of, put_led_end};
pub use bytes::why::{put_why, why_of};
pub use client_msg::ClientMsg;
pub use client_note::ClientNote;
pub use core_error::{CoreError, Counter};
pub use decide::Decide;
pub use done::Done;
pub use end::End;
pub use entry::Entry;
pub use error::MsgError;
pub use item::Item;
pub use law::{
    limits_of_a_service, no_message_begins_another, what_led_messages_carry_is_apart,
    what_led_messages_carry_is_read_back, what_led_messages_carry_stops_in_place,
    what_led_messages_carry_was_spelled,
};
pub use lead::Lead;
pub use limits::{LONGEST, SERVERS};
pub use msg::Msg;
pub use note::Note;
pub use peer_msg::PeerMsg;
pub use prepare::Prepare;
pub use reading::{read, read_whole};
pub use refusal::Refusal;
pub use server_note::ServerNote;
pub use voted::Voted;
pub use writing::write;
