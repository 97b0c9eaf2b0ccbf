//! The world of one schedule.
#![tactic(auto)]

mod by_session;
mod direct;
mod form;
mod law;
mod outcome;
mod servers;
mod world;

pub use law::{
    every_run_is_orderly, every_run_is_serial, every_run_keeps_all_parts,
    links_carry_along_every_run, no_core_is_told_what_is_strange, no_short_run_is_spent,
    refusals_are_fair, sessions_are_over_behind_refusals,
};
pub use world::World;
