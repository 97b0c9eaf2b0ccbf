//! The world of the direct form: the namespace of one machine.

pub(crate) mod answers;
pub(crate) mod counts;
pub(crate) mod numbers;
pub(crate) mod world;
