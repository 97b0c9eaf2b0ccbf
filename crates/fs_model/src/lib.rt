//! The one-machine namespace.
#![tactic(auto)]

mod chain;
mod changes;
pub mod children;
mod creates;
mod deletes;
pub mod handles;
mod law;
mod lookups;
mod node;
mod op;
mod opens;
mod reads;
mod renames;
mod reply;
mod space;
mod steps;
mod ways;

pub use law::{
    every_ancestor_is_listed, first_space_is_sound, no_file_is_its_own_ancestor,
    no_two_handles_conflict, reads_change_nothing, runs_stay_sound, steps_keep_order,
    steps_stay_sound,
};
pub use node::{Handle, Node};
pub use op::Op;
pub use reply::Reply;
pub use space::Space;
