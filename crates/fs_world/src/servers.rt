//! The world of the servers form: servers, clients, and the links between all of these.

pub(crate) mod answers_in_flight;
pub(crate) mod client_receive;
pub(crate) mod clients;
pub(crate) mod commit_and_send;
pub(crate) mod in_flight;
pub(crate) mod packets;
pub(crate) mod pushes;
pub(crate) mod removals;
pub(crate) mod send_due;
pub(crate) mod server_events;
pub(crate) mod server_receive;
pub(crate) mod session_state;
pub(crate) mod session_states;
pub(crate) mod telling;
pub(crate) mod term;
pub(crate) mod world;
