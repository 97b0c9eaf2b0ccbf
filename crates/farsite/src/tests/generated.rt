//! Runs of made schedules.
use super::{called, same};
use crate::status::Status;
use std::alloc::Global;
use std::process::Abort;
use std::test::Fail;

/// How the line begins.
const BEGINS: &[u8] = b"gen 1 events 52424 journal ";

/// No entry is refused, since no lease ends.
const NONE_REFUSED: &[u8] = b" refused 0 nodes ";

/// What is written for the number, where the call is done; a read of the input would fail.
fn line_of(rt: &impl Abort, alloc: Global, n: &str) -> Result<Vec<u8>, Fail> {
    let (status, line) = called(alloc, &["gen", n], Vec::new(alloc), &[1], &[])?;
    same(rt, status, Status::Done);
    Ok(line)
}

/// Whether the line says that no entry was refused.
fn refuses_none(line: &[u8]) -> bool {
    line.windows(NONE_REFUSED.len()).any(|w| w == NONE_REFUSED)
}

#[test]
fn the_same_line_twice(rt: HostRuntime) -> Result<(), Fail> {
    let line = line_of(&rt, rt.alloc(), "1")?;
    let again = line_of(&rt, rt.alloc(), "1")?;
    same(&rt, line.as_slice(), again.as_slice());
    same(&rt, line.starts_with(BEGINS), true);
    same(&rt, refuses_none(&line), true);
    Ok(())
}

/// A write that fails, and nothing is written.
#[test]
fn a_line_that_is_not_written(rt: HostRuntime) -> Result<(), Fail> {
    let (status, line) = called(rt.alloc(), &["gen", "2"], Vec::new(rt.alloc()), &[], &[1])?;
    same(&rt, status, Status::WriteFault);
    same(&rt, line.is_empty(), true);
    Ok(())
}
