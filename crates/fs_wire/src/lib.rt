//! Values as bytes: what can be spelled in bytes and read again, from numbers up to operations, rows and parts of led operations.
#![tactic(auto)]

mod actors;
mod effects;
mod fault;
mod fields;
mod file_ids;
mod law;
mod lists;
mod modes;
mod names;
mod nexts;
mod nodes;
mod numbers;
mod ops;
mod parts;
mod puts;
mod replies;
mod rows;
mod uses;
mod values;
mod votes;
mod wire;

pub use fault::{Fault, ReadError, stop};
pub use law::{
    no_spelling_begins_another, reading_stops_in_place, what_is_read_was_spelled,
    what_is_spelled_is_read,
};
pub use nexts::{next_of, put_next};
pub use numbers::tag_of;
pub use puts::{put_tag, put_tag_1, put_tag_2, put_tag_3, put_tag_4};
pub use wire::Wire;
