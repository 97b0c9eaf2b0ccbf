//! Tests of messages, schedules and reports.
#![tactic(auto)]

ghost use Rattle.std.specs.Prelude.{◌≡◌, IfOk};

#[cfg(test)]
mod identifiers;
#[cfg(test)]
mod led;
#[cfg(test)]
mod made;
#[cfg(test)]
mod msg;
#[cfg(test)]
mod report;
#[cfg(test)]
mod schedule;
#[cfg(test)]
mod wire;

#[cfg(test)]
use fs_ident::{Memory, Twin};
#[cfg(test)]
use std::alloc::Global;
#[cfg(test)]
use std::fmt::Debug;
#[cfg(test)]
use std::process::Abort;
#[cfg(test)]
use std::test::Fail;

/// The value that was found is the one that is wanted.
#[cfg(test)]
pub(crate) fn same<T: PartialEq + Debug + Drop>(rt: &impl Abort, found: T, wanted: T) {
    assert_eq!(rt; found, wanted);
}

/// So the value is written for programmers.
#[cfg(test)]
pub(crate) fn shows<T: Debug>(
    rt: &impl Abort,
    alloc: Global,
    x: &T,
    wanted: &str,
) -> Result<(), Fail> {
    let text = format!(in alloc; "{x:?}")?;
    assert_eq!(rt; text.as_str(), wanted);
    Ok(())
}

/// The value is let go. A generic function does so at the cost of one proof for all types.
#[cfg(test)]
pub(crate) fn spend<T: Drop>(_x: T) {}

/// The value, which is let go where the other is wanting, with the other.
#[cfg(test)]
pub(crate) fn with<A: Drop, B, E>(a: A, b: Result<B, E>) -> Result<(A, B), E>
    ensures { IfOk result (λ both. both.0 ≡ a) }
{
    Ok((a, b?))
}

/// Why there is no value, if there is none.
#[cfg(test)]
pub(crate) fn err_of<T: Drop, E: Drop>(found: Result<T, E>) -> Option<E> {
    found.err()
}

/// So the value is written for programmers, which is let go.
#[cfg(test)]
pub(crate) fn reads<T: Debug + Drop>(
    rt: &impl Abort,
    alloc: Global,
    x: T,
    wanted: &str,
) -> Result<(), Fail> {
    shows(rt, alloc, &x, wanted)
}

/// A copy of the value, which is let go.
#[cfg(test)]
pub(crate) fn copied<T: Twin + Drop>(alloc: Global, x: T) -> Result<T, Memory>
    ensures { IfOk result (λ twin. twin ≡ x) }
{
    x.copy(alloc)
}
