//! The lines with which a node ends.
ghost use Rattle.std.specs.Prelude.{◌≡◌, ◌++◌, OnOk, IfOk};
ghost use Rattle.fs_node.specs.Endings.{ending, left_line};

use fs_ident::Memory;
use fs_report::{open_line, over_line, summary_line};
use fs_turns::Counts;
use std::alloc::Global;

/// The lines with which a node ends: of the session that is over, or of how many lines were done where something is left, and then
/// what was counted.
pub(crate) fn ending(
    alloc: Global,
    over: Option<u64>,
    left: bool,
    lines: u64,
    admitted: u64,
    dropped: u64,
    counts: &Counts,
) -> Result<Vec<u8>, Memory>
    ensures { IfOk result (λ text. text.items ≡
        ending over left lines admitted dropped counts.now) }
{
    let mut text = Vec::new(alloc);
    put_left(alloc, over, left, lines, &mut text)?;
    summary_line(
        alloc,
        counts.turns,
        admitted,
        dropped,
        counts.receive_faults,
        counts.send_faults,
        &mut text,
    )?;
    Ok(text)
}

/// The line of the session that is over, or of what is left.
fn put_left(
    alloc: Global,
    over: Option<u64>,
    left: bool,
    lines: u64,
    text: &mut Vec<u8>,
) -> Result<(), Memory>
    ensures { OnOk result (text.new.items ≡ text.old.items ++ left_line over left lines) }
{
    match over {
        Some(n) => over_line(alloc, n, text),
        None if left => open_line(alloc, lines, text),
        None => Ok(()),
    }
}
