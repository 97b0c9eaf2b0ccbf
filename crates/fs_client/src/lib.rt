//! A client: what it answers at once from its leases, what it asks of which server, and what it makes of the answers.
#![tactic(auto)]

mod acts;
mod admits;
mod answers;
mod at_reading;
mod change;
mod client_core;
mod commits;
mod ended;
mod exchange;
mod fits;
mod grants;
mod home;
mod law;
mod led;
mod live;
mod moves;
mod needs;
mod plan;
mod replies;
mod returns;
mod state;
mod turns;

pub use client_core::ClientCore;
pub use exchange::Exchange;
pub use law::{
    only_answers_refuse, only_its_answers_end_what_is_led, only_the_refused_are_over,
    what_is_known_is_answered,
};
pub use led::Led;
pub use plan::{Plan, Ready};
