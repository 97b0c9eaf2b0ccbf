//! A lease at its client, in one of three states. None can be dropped: each has to be spent in one of the ways
//! that its state has.
#![tactic(auto)]

mod held;
mod leaving;
mod pinned;

pub use held::Held;
pub use leaving::Leaving;
pub use pinned::{Pinned, Unpinned};
