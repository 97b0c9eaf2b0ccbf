//! Tests of bytes that come and go, and of messages in pieces.
#![tactic(auto)]

#[cfg(test)]
mod frag;
#[cfg(test)]
mod io;
#[cfg(test)]
mod window;

#[cfg(test)]
use std::fmt::Debug;
#[cfg(test)]
use std::process::Abort;

/// The value that was found is the one that is wanted.
#[cfg(test)]
pub(crate) fn same<T: PartialEq + Debug + Drop>(rt: &impl Abort, found: T, wanted: T) {
    assert_eq!(rt; found, wanted);
}

/// The value is let go. A generic function does so at the cost of one proof for all types.
#[cfg(test)]
pub(crate) fn spend<T: Drop>(_x: T) {}
