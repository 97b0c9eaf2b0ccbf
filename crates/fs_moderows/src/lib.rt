//! The rows of a server on what sessions tell of modes.
//!
//! In the order of what a question costs with r rows on the file, each found by a search, and s sessions with handles on it: one
//! on `self` r, and s·r where a row tells another session of the mode; one on `other` s·r; a reap s + r, and s·r for each mode of
//! the session of which a row tells another. In s·r only sessions with the mode count. None takes memory.
#![tactic(auto)]

mod against;
mod answers;
mod bounds;
mod fitting;
mod fixed;
mod index;
mod indexed;
mod joined;
mod law;
mod live;
mod mode_rows;
mod putting;
mod sought;

pub use law::{
    asking_for_other_is_safe, asking_for_self_is_safe, changes_by_rows_are_safe,
    kept_promises_are_without_conflict, moved_rows_are_safe, promises_are_what_others_have,
    promises_stay_kept, reaps_are_safe, rows_stay_without_conflict,
};
pub use live::Live;
pub use mode_rows::ModeRows;
