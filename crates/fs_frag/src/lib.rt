//! Messages cut into segments that packets can carry, and joined again.
#![tactic(auto)]

mod cutting;
mod error;
mod joined;
mod joiner;
mod law;
mod segment;

pub use cutting::{cut, segment_count};
pub use error::FragError;
pub use joined::{Back, Joined};
pub use joiner::Joiner;
pub use law::{joined_is_cut, what_is_coming};
pub use segment::{SEGMENT, Segment};
