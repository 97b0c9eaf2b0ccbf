//! Reads a message from standard input, and then reads and writes it as many times as the command line says: the
//! load that `bench/codec` times.
#![tactic(auto)]

ghost use Rattle.std.specs.Prelude.{◌≡◌, true, IfOk};
ghost use Rattle.fs_msg.specs.Prefixes.{IsMessage};
ghost use Rattle.fs_msg.specs.Ranges.{FitsMessage};
ghost use Rattle.fs_msg.specs.Spelling.{message};

use fs_ident::Memory;
use fs_io::{read_all, standard_input};
use fs_msg::{Msg, MsgError, read_whole, write};
use std::alloc::Global;
use std::env;
use std::process::ExitCode;
use std::rt::Env;

fn main(rt: HostRuntime) -> ExitCode {
    let Some(times) = times_of(&rt) else {
        return ended(&rt, "usage: bench_codec TIMES < MESSAGE", 2);
    };
    let mut input = standard_input(&rt);
    let Ok(bytes) = read_all(rt.alloc(), &mut input) else {
        return ended(&rt, "the message could not be read", 1);
    };
    match is_spelled_again(rt.alloc(), &bytes, times) {
        Ok(true) => ended(&rt, "each time the same bytes", 0),
        Ok(false) => ended(&rt, "no message, or other bytes", 1),
        Err(Memory) => ended(&rt, "memory is wanting", 1),
    }
}

/// The number on the command line.
fn times_of<R: Env + AllocGlobal>(rt: &R) -> Option<u32> {
    let mut times = None;
    let mut is_name = true;
    for word in env::args(rt).ok()? {
        if !is_name {
            times = word.as_str().parse::<u32>().ok();
        }
        is_name = false;
    }
    times
}

/// Whether the bytes are a message that is written as these bytes again, so many times over.
fn is_spelled_again(alloc: Global, bytes: &[u8], times: u32) -> Result<bool, Memory> {
    let mut out = Vec::with_capacity(alloc, bytes.len())?;
    for _ in 0..times {
        if !round(alloc, bytes, &mut out)? {
            return Ok(false);
        }
    }
    Ok(true)
}

/// Reads the message that the bytes are, and writes it again. Tells whether there is one and it is these bytes.
fn round(alloc: Global, bytes: &[u8], out: &mut Vec<u8>) -> Result<bool, Memory>
    ensures { IfOk result (λ again. again ≡ true → IsMessage bytes.now) }
{
    let read = read_whole(alloc, bytes);
    let again = is_written_again(alloc, &read, bytes, out);
    drop(read);
    again
}

/// Whether a message was read, and is written as these bytes.
fn is_written_again(
    alloc: Global,
    read: &Result<Msg, MsgError>,
    bytes: &[u8],
    out: &mut Vec<u8>,
) -> Result<bool, Memory>
    requires { IfOk read.now (λ m. FitsMessage m × (bytes.now ≡ message m)) }
    ensures { IfOk result (λ again. again ≡ true → IsMessage bytes.now) }
{
    match read {
        Ok(m) => is_written_as(alloc, m, bytes, out),
        Err(_) => Ok(false),
    }
}

/// Whether the message is written as these bytes.
fn is_written_as(alloc: Global, m: &Msg, bytes: &[u8], out: &mut Vec<u8>) -> Result<bool, Memory>
    ensures { IfOk result (λ same. same ≡ true → bytes.now ≡ message m.now) }
{
    out.clear();
    write(alloc, m, out)?;
    Ok(out.as_slice() == bytes)
}

/// Prints the line, and ends with the status.
fn ended(rt: &impl Print, line: &str, status: u8) -> ExitCode {
    match rt.println(line) {
        Ok(()) => ExitCode::from(status),
        Err(_) => ExitCode::from(1),
    }
}
