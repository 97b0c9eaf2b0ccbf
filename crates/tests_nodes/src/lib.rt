//! Tests of nodes over links in memory and over sockets.
#![tactic(auto)]

#[cfg(test)]
mod led;
#[cfg(test)]
mod nodes;
#[cfg(test)]
mod several;
