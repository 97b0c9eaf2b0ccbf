//! Tests of clients, servers and the world that they make.
#![tactic(auto)]

#[cfg(test)]
mod client;
#[cfg(test)]
mod forms;
#[cfg(test)]
mod server;
#[cfg(test)]
mod world;
