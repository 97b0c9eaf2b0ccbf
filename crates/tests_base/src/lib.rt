//! Tests of identifiers, names, maps, modes, fields, leases and the namespace.
#![tactic(auto)]

ghost use Rattle.std.specs.Prelude.{◌≡◌, IfOk};

#[cfg(test)]
mod field;
#[cfg(test)]
mod ident;
#[cfg(test)]
mod lease;
#[cfg(test)]
mod map;
#[cfg(test)]
mod model;
#[cfg(test)]
mod modes;
#[cfg(test)]
mod packed;

#[cfg(test)]
use fs_ident::{Memory, Twin};
#[cfg(test)]
use std::alloc::Global;
#[cfg(test)]
use std::fmt::{Debug, Display};
#[cfg(test)]
use std::process::Abort;
#[cfg(test)]
use std::test::Fail;

/// The value that was found is the one that is wanted.
#[cfg(test)]
pub(crate) fn same<T: PartialEq + Debug + Drop>(rt: &impl Abort, found: T, wanted: T) {
    assert_eq!(rt; found, wanted);
}

/// So the value is written for programmers.
#[cfg(test)]
pub(crate) fn shows<T: Debug>(
    rt: &impl Abort,
    alloc: Global,
    x: &T,
    wanted: &str,
) -> Result<(), Fail> {
    let text = format!(in alloc; "{x:?}")?;
    assert_eq!(rt; text.as_str(), wanted);
    Ok(())
}

/// A copy of the value reads as the value does.
#[cfg(test)]
pub(crate) fn is_copied<T: Twin + Debug>(
    rt: &impl Abort,
    alloc: Global,
    x: &T,
) -> Result<(), Fail> {
    let wanted = format!(in alloc; "{x:?}")?;
    let twin = x.copy(alloc)?;
    let done = shows(rt, alloc, &twin, wanted.as_str());
    twin.discard();
    done
}

/// The value is let go. A generic function does so at the cost of one proof for all types.
#[cfg(test)]
pub(crate) fn spend<T: Drop>(_x: T) {}

/// So the value is written for programmers, which is let go.
#[cfg(test)]
pub(crate) fn reads<T: Debug + Drop>(
    rt: &impl Abort,
    alloc: Global,
    x: T,
    wanted: &str,
) -> Result<(), Fail> {
    shows(rt, alloc, &x, wanted)
}

/// So the value is written for users.
#[cfg(test)]
pub(crate) fn prints<T: Display>(
    rt: &impl Abort,
    alloc: Global,
    x: &T,
    wanted: &str,
) -> Result<(), Fail> {
    let text = format!(in alloc; "{x}")?;
    assert_eq!(rt; text.as_str(), wanted);
    Ok(())
}

/// A copy of the value, which is let go, reads as the value does.
#[cfg(test)]
pub(crate) fn copies<T: Twin + Debug + Drop>(
    rt: &impl Abort,
    alloc: Global,
    x: T,
) -> Result<(), Fail> {
    is_copied(rt, alloc, &x)
}

/// So the value, which is let go, is written for users, and its copy is the same.
#[cfg(test)]
pub(crate) fn prints_and_copies<T: Twin + Debug + Display + Drop>(
    rt: &impl Abort,
    alloc: Global,
    x: T,
    wanted: &str,
) -> Result<(), Fail> {
    prints(rt, alloc, &x, wanted)?;
    is_copied(rt, alloc, &x)
}

/// A copy of the value, which is let go.
#[cfg(test)]
pub(crate) fn copied<T: Twin + Drop>(alloc: Global, x: T) -> Result<T, Memory>
    ensures { IfOk result (λ twin. twin ≡ x) }
{
    x.copy(alloc)
}
