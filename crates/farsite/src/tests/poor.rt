//! Words that are not text, and an output that is full.
use super::same;
use crate::page::Page;
use crate::status::Status;
use crate::{printed, words_of};
use fs_io::standard_output;
use std::env::{Env, FillError};
use std::fmt::Display;
use std::io;
use std::test::Fail;

/// Standard output is full, and the words are long ones, the second of which is not text.
struct Poor;

impl Print for Poor {
    fn print<D: Display + Drop>(&self, _: D) -> io::Result<()> {
        Err(io::Error::from(io::ErrorKind::StorageFull))
    }

    fn println<D: Display + Drop>(&self, _: D) -> io::Result<()> {
        Err(io::Error::from(io::ErrorKind::StorageFull))
    }

    fn write_all(&self, _: &[u8]) -> io::Result<()> {
        Err(io::Error::from(io::ErrorKind::StorageFull))
    }
}

impl Env for Poor {
    fn arg(&self, i: usize, buf: &mut [u8]) -> Result<usize, FillError> {
        if i > 2 {
            return Err(FillError::NotPresent);
        }
        if buf.len() < 300 {
            return Err(FillError::TooLong);
        }
        buf[..300].fill(if i == 2 { 0xff } else { b'a' });
        Ok(300)
    }

    fn var(&self, _: &str, _: &mut [u8]) -> Result<usize, FillError> {
        Err(FillError::NotPresent)
    }

    fn var_at(&self, _: usize, _: &mut [u8]) -> Result<usize, FillError> {
        Err(FillError::NotPresent)
    }
}

/// Whether the word is all `a`.
fn is_plain(word: &str) -> bool {
    word.as_bytes().iter().all(|b| *b == b'a')
}

/// The lengths of two words, and whether they are all `a`.
fn told(words: &[String]) -> Result<[(bool, bool); 2], Fail> {
    match words {
        [first, second] => Ok([
            (is_plain(first.as_str()), first.is_empty()),
            (is_plain(second.as_str()), second.is_empty()),
        ]),
        _ => Err(Fail::from("there are not two words")),
    }
}

#[test]
fn words_that_are_not_text(rt: HostRuntime) -> Result<(), Fail> {
    let words = words_of(rt.alloc(), &Poor)?;
    same(&rt, told(&words)?, [(true, false), (false, false)]);
    Ok(())
}

#[test]
fn a_full_output(rt: HostRuntime) {
    let mut out = standard_output(&Poor);
    same(&rt, printed(Page::Help, &mut out), Status::WriteFault);
}
