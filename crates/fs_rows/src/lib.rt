//! The rows of a server on the life, children, names, info and own handles of files.
#![tactic(auto)]

mod against;
mod borne;
mod bounds;
mod found;
mod given_files;
mod grants;
mod index;
mod indexed;
mod law;
mod live;
mod moving;
pub mod numbered;
mod once;
mod reads;
mod rows;
mod seek;

pub use bounds::{any_lock, is_ahead, least_end, lesser, or_locks};
pub use given_files::GivenFiles;
pub use grants::{keep_live, put_each};
pub use law::{numbers_tell_rows_apart, rows_that_move_leave_tables, tables_are_without_conflict};
pub use live::Live;
pub use moving::{copy_given, drop_given, least_lock};
pub use once::put_in_order;
pub use reads::holds_at;
pub use rows::Rows;
pub use seek::{live_at, place_at, row_at};
