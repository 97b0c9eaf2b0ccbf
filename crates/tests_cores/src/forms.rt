//! What all of these tests use. A value that owns memory is let go by a generic function, which is proved once for all
//! types: where a function lets go of it itself, each way out is a match over all that it may be.
ghost use Rattle.std.specs.Prelude.{◌≡◌, IfOk};

use fs_ident::{Memory, Twin};
use std::alloc::Global;
use std::fmt::Debug;
use std::process::Abort;
use std::test::Fail;

/// The value that was found is the one that is wanted.
pub(crate) fn same<T: PartialEq + Debug + Drop>(rt: &impl Abort, found: T, wanted: T) {
    assert_eq!(rt; found, wanted);
}

/// The text that was found is the one that is wanted.
pub(crate) fn reads(rt: &impl Abort, found: String, wanted: &str) {
    same(rt, found.as_str(), wanted);
}

/// The value is let go.
pub(crate) fn spend<T: Drop>(_x: T) {}

/// The value, as it is written for programmers.
pub(crate) fn text_of<T: Debug>(alloc: Global, x: &T) -> Result<String, Fail> {
    Ok(format!(in alloc; "{x:?}")?)
}

/// A copy of the value, which is let go.
pub(crate) fn copied<T: Twin + Drop>(alloc: Global, x: T) -> Result<T, Memory>
    ensures { IfOk result (λ twin. twin ≡ x) }
{
    x.copy(alloc)
}

/// A message of bytes that are none of such an actor.
pub(crate) fn none_such<M: Drop, T>(_m: M) -> Result<T, Fail> {
    Err(Fail::from("it is no message of such an actor"))
}
