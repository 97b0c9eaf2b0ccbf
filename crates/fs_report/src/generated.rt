//! The line that a made schedule's run comes to.
ghost use Rattle.std.specs.Prelude.{◌≡◌, ◌++◌, OnOk, OnErr};
ghost use Rattle.fs_report.specs.Generated.{generated_line};

use crate::pieces::{LINE, next_count, next_number, put_bytes};
use fs_ident::Memory;
use std::alloc::Global;

/// Adds the line: from which number the schedule was made, and how many events, items of the
/// journal, refused entries and nodes there are.
pub fn generated_line(
    alloc: Global,
    n: u64,
    events: u64,
    journal: u64,
    refused: u64,
    nodes: u64,
    out: &mut Vec<u8>,
) -> Result<(), Memory>
    ensures ok { OnOk result (out.new.items ≡ out.old.items ++
        generated_line n events journal refused nodes) }
    ensures err { OnErr result (out.new.items ≡ out.old.items) }
{
    let mut line = Vec::with_capacity(alloc, LINE)?;
    put_bytes(b"gen", &mut line)?;
    next_number(alloc, n, &mut line)?;
    next_count(alloc, b"events", events, &mut line)?;
    next_count(alloc, b"journal", journal, &mut line)?;
    next_count(alloc, b"refused", refused, &mut line)?;
    next_count(alloc, b"nodes", nodes, &mut line)?;
    line.push(b'\n')?;
    out.extend_from_slice(&line)?;
    Ok(())
}
