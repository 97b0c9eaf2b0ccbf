//! The records of files at their server.
#![tactic(auto)]

mod changes;
mod error;
mod handles;
mod in_order;
mod law;
mod led;
mod led_end;
mod led_law;
mod lookups;
mod marks;
mod moving;
mod numbers;
mod op_effects;
mod parcel;
mod record;
mod records;
mod together;
mod undo;
mod values;

pub use error::FreshError;
pub use handles::selves;
pub use law::{
    effects_are_the_step, effects_keep_next_numbers, gifts_are_least, no_number_is_given_twice,
    nodes_change_alike, reaps_take_handles, records_go_or_stay, selves_are_by_session,
    values_follow_effects, what_goes_can_come,
};
pub use led::led_effects;
pub use led_end::{LedEnd, Why};
pub use led_law::led_effects_are_the_step;
pub use op_effects::{effects, tells_its_effects};
pub use parcel::Parcel;
pub use record::Record;
pub use records::Records;
pub use undo::is_undoable;
