//! The lines with which a node ends.
ghost use Rattle.std.specs.Prelude.{◌≡◌, ◌++◌, OnOk, OnErr};
ghost use Rattle.fs_report.specs.NodeLines.{open_line, over_line, summary_line};

use crate::pieces::{LINE, next_count, next_number, put_bytes};
use fs_ident::Memory;
use std::alloc::Global;

/// Adds the line of a client whose entry of that number was refused.
pub fn over_line(alloc: Global, n: u64, out: &mut Vec<u8>) -> Result<(), Memory>
    ensures ok { OnOk result (out.new.items ≡ out.old.items ++ over_line n) }
    ensures err { OnErr result (out.new.items ≡ out.old.items) }
{
    let mut line = Vec::with_capacity(alloc, LINE)?;
    put_bytes(b"over", &mut line)?;
    next_number(alloc, n, &mut line)?;
    line.push(b'\n')?;
    out.extend_from_slice(&line)?;
    Ok(())
}

/// Adds the line of a node that has something left to do, with how many lines of its script were done or taken.
pub fn open_line(alloc: Global, lines: u64, out: &mut Vec<u8>) -> Result<(), Memory>
    ensures ok { OnOk result (out.new.items ≡ out.old.items ++ open_line lines) }
    ensures err { OnErr result (out.new.items ≡ out.old.items) }
{
    let mut line = Vec::with_capacity(alloc, LINE)?;
    put_bytes(b"open", &mut line)?;
    next_number(alloc, lines, &mut line)?;
    line.push(b'\n')?;
    out.extend_from_slice(&line)?;
    Ok(())
}

/// Adds a node's last line: how many turns it made, lines of items it wrote, datagrams it dropped, and how many receives
/// and sends failed.
pub fn summary_line(
    alloc: Global,
    turns: u64,
    admitted: u64,
    dropped: u64,
    receive_faults: u64,
    send_faults: u64,
    out: &mut Vec<u8>,
) -> Result<(), Memory>
    ensures ok { OnOk result (out.new.items ≡ out.old.items ++
        summary_line turns admitted dropped receive_faults send_faults) }
    ensures err { OnErr result (out.new.items ≡ out.old.items) }
{
    let mut line = Vec::with_capacity(alloc, LINE)?;
    put_bytes(b"summary", &mut line)?;
    next_count(alloc, b"turns", turns, &mut line)?;
    next_count(alloc, b"admitted", admitted, &mut line)?;
    next_count(alloc, b"dropped", dropped, &mut line)?;
    next_count(alloc, b"receive_faults", receive_faults, &mut line)?;
    next_count(alloc, b"send_faults", send_faults, &mut line)?;
    line.push(b'\n')?;
    out.extend_from_slice(&line)?;
    Ok(())
}
