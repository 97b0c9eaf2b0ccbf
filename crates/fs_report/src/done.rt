//! The last line.
ghost use Rattle.std.specs.Prelude.{◌≡◌, ◌++◌, OnOk, OnErr};
ghost use Rattle.fs_report.specs.Report.{done_text};

use crate::pieces::{LINE, next_count, put_bytes};
use fs_ident::Memory;
use std::alloc::Global;

/// Adds the last line: how many events, journal's items and nodes there are.
pub fn done_line(
    alloc: Global,
    events: u64,
    journal: u64,
    nodes: u64,
    out: &mut Vec<u8>,
) -> Result<(), Memory>
    ensures ok { OnOk result (out.new.items ≡ out.old.items ++ done_text events journal nodes) }
    ensures err { OnErr result (out.new.items ≡ out.old.items) }
{
    let mut line = Vec::with_capacity(alloc, LINE)?;
    put_done(alloc, events, journal, nodes, &mut line)?;
    out.extend_from_slice(&line)?;
    Ok(())
}

fn put_done(
    alloc: Global,
    events: u64,
    journal: u64,
    nodes: u64,
    out: &mut Vec<u8>,
) -> Result<(), Memory>
    ensures { OnOk result (out.new.items ≡ out.old.items ++ done_text events journal nodes) }
{
    put_bytes(b"done", out)?;
    next_count(alloc, b"events", events, out)?;
    next_count(alloc, b"journal", journal, out)?;
    next_count(alloc, b"nodes", nodes, out)?;
    out.push(b'\n')?;
    Ok(())
}
