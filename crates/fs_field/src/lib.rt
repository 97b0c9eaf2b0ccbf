//! The fields that leases are on, their values, and what operations do to them.
#![tactic(auto)]

mod asked;
mod change;
mod effect;
mod field;
mod handles;
mod law;
mod lease_kind;
mod names;
mod path;
mod row;
pub mod table;
mod texts;
mod used;
mod value;
mod vote;

pub use asked::{Asked, Need, Unknown};
pub use change::{apply, touches};
pub use effect::Effect;
pub use field::Field;
pub use law::{
    children_are_told, conflicts_are_mutual, conflicts_off_modes_are_plain, kind_of_value_stays,
    names_follow_children, no_promise_is_as_false, untouched_stays,
};
pub use lease_kind::LeaseKind;
pub use path::PathAnswer;
pub use row::Row;
pub use used::{Part, Use};
pub use value::Value;
pub use vote::Vote;
