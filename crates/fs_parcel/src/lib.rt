//! What one server manages below a prefix, on its way to another.
//!
//! A move costs what is below the prefix and three walks over the rows. Where a parcel comes, of the map and of the records only
//! what is below its prefix is looked at, and each row that comes is compared with all that are there.
#![tactic(auto)]

mod error;
mod fitting;
mod in_order;
mod installing;
mod law;
mod one_list;
mod packing;
mod parts;
mod refusing;

pub use error::MoveError;
pub use fitting::{fits, fits_at};
pub use installing::{install, install_at};
pub use law::{
    moved_rows_are_in_order, moves_are_without_conflict, packed_parcels_are_formed,
    what_goes_is_below_the_prefix,
};
pub use one_list::are_one_list;
pub use packing::{pack_up, packed};
pub use parts::Parts;
pub use refusing::refusal;
