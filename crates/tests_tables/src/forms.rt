//! What all of these tests use. A value that owns memory is let go by a generic function, which is proved once for all
//! types: where a function lets go of it itself, each way out is a match over all that it may be.
ghost use Rattle.std.specs.Prelude.{◌≡◌, [], ◌∷◌, IfOk};

use fs_ident::{List, Memory};
use std::alloc::Global;
use std::fmt::Debug;
use std::process::Abort;
use std::test::Fail;

/// The value that was found is the one that is wanted.
pub(crate) fn same<T: PartialEq + Debug + Drop>(rt: &impl Abort, found: T, wanted: T) {
    assert_eq!(rt; found, wanted);
}

/// The text that was found is the one that is wanted.
pub(crate) fn reads(rt: &impl Abort, found: String, wanted: &str) {
    same(rt, found.as_str(), wanted);
}

/// The value is let go.
pub(crate) fn spend<T: Drop>(_x: T) {}

/// The value, if what was done to it went well.
pub(crate) fn kept<T: Drop, A: Drop>(x: T, done: Result<A, Fail>) -> Result<T, Fail>
    ensures { IfOk result (λ y. y ≡ x) }
{
    done?;
    Ok(x)
}

/// The value, if the one call that was made on it went well.
pub(crate) fn kept_by<T: Drop, A: Drop>(x: T, done: Result<A, Memory>) -> Result<T, Fail>
    ensures { IfOk result (λ y. y ≡ x) }
{
    done?;
    Ok(x)
}

/// The value with another, if that could be made.
pub(crate) fn with<T: Drop, A: Drop>(x: T, made: Result<A, Fail>) -> Result<(T, A), Fail> {
    let a = made?;
    Ok((x, a))
}

/// The value, as it is written for programmers.
pub(crate) fn text_of<T: Debug>(alloc: Global, x: &T) -> Result<String, Fail> {
    Ok(format!(in alloc; "{x:?}")?)
}

/// So the value is written for programmers; it is let go.
pub(crate) fn shows<T: Debug + Drop>(
    rt: &impl Abort,
    alloc: Global,
    x: T,
    wanted: &str,
) -> Result<(), Fail> {
    reads(rt, text_of(alloc, &x)?, wanted);
    Ok(())
}

/// The text, with more of it, which is let go.
pub(crate) fn add(text: &mut String, more: String) -> Result<(), Fail> {
    let done = text.push_str(&more);
    spend(more);
    Ok(done?)
}

/// A list of this item alone.
pub(crate) fn one<T: Drop>(alloc: Global, x: T) -> Result<List<T>, Memory>
    ensures { IfOk result (λ items. items ≡ x ∷ []) }
{
    let mut items = List::new(alloc);
    items.push(x)?;
    Ok(items)
}

/// How many items there are; they are let go.
pub(crate) fn count<T: Drop>(items: List<T>) -> usize {
    let count = items.len();
    spend(items);
    count
}
