//! Scripts, read line by line.
ghost use Rattle.std.specs.Prelude.{◌≡◌, ◌≤◌, ◌<◌, ◌+◌, ℕ, length, IfOk, IfErr, IsErrOf};
ghost use Rattle.std.specs.List.{AllByRecursion};
ghost use Rattle.fs_schedule.specs.declared.error.Which.{Which as Limited};
ghost use Rattle.fs_schedule.specs.Faults.{IsOutside, PassesLimit};
ghost use Rattle.fs_schedule.specs.Lines.{lines_of};
ghost use Rattle.fs_schedule.specs.Script.{AreScriptLines, FitsScript, HasScriptFault, IsScriptText, PassesAfter, ScriptFaultsAt, ScriptLineHas, served};

use crate::cut::next_line;
use crate::error::{ScheduleError, Which};
use crate::event::Head;
use crate::limits::EVENTS;
use crate::schedule::{unread_line, within_length};
use crate::script::Script;
use crate::script_line::script_at;
use fs_ident::List;
use std::alloc::Global;

/// The script that the bytes are the text of: of a client, or of a server, where there are so many servers. It has at most as
/// many lines as a schedule has events. Otherwise the first faulty line, counted from 1: `BadLine` where it is outside
/// the grammar, else `Limit` with the limit that it passes. A text without a byte is the script without a line.
pub fn read_script(
    alloc: Global,
    client: bool,
    servers: u8,
    bytes: &[u8],
) -> Result<List<Script>, ScheduleError>
    ensures ok { IfOk result (λ s. IsScriptText client servers s bytes.now) }
    ensures fits { IfOk result (AllByRecursion (FitsScript client (served servers))) }
    ensures bad_line { (line : ℕ) → IsErrOf result (ScheduleError.BadLine line) →
        HasScriptFault client servers IsOutside line bytes.now }
    ensures limit { (which : Limited) (at : ℕ) → IsErrOf result (ScheduleError.Limit which at) →
        HasScriptFault client servers (PassesLimit which) at bytes.now }
    ensures not_skewed { (line earlier : ℕ) →
        IsErrOf result (ScheduleError.Skewed line earlier) → ⊥ }
{
    if bytes.is_empty() {
        Ok(List::new(alloc))
    } else {
        let head = Head::Servers {
            servers,
            skew: 0,
            term: 1,
        };
        read_lines(alloc, client, head, bytes)
    }
}

/// The lines of a text, of which the last may be empty.
fn read_lines(
    alloc: Global,
    client: bool,
    head: Head,
    text: &[u8],
) -> Result<List<Script>, ScheduleError>
    ensures ok { IfOk result (λ s. AreScriptLines client head 0 s (lines_of text.now)) }
    ensures bad_line { (n : ℕ) → IsErrOf result (ScheduleError.BadLine n) →
        ScriptFaultsAt IsOutside client head n 0 (lines_of text.now) }
    ensures limit { (which : Limited) (n : ℕ) → IsErrOf result (ScheduleError.Limit which n) →
        ScriptFaultsAt (PassesLimit which) client head n 0 (lines_of text.now) }
    ensures not_skewed { (line earlier : ℕ) →
        IsErrOf result (ScheduleError.Skewed line earlier) → ⊥ }
{
    let mut script = List::new(alloc);
    let mut rest = text;
    loop {
        let (line, after) = next_line(rest);
        let read = read_line(alloc, client, head, script.len(), line)?;
        script.push(read)?;
        match after {
            Some(more) => rest = more,
            None => return Ok(script),
        }
    }
}

/// A line that stands behind so many lines.
fn read_line(
    alloc: Global,
    client: bool,
    head: Head,
    before: usize,
    line: &[u8],
) -> Result<Script, ScheduleError>
    requires { before ≤ EVENTS }
    ensures ok { IfOk result (λ s. PassesAfter client head before s line.now) }
    ensures bad_line { (n : ℕ) → IsErrOf result (ScheduleError.BadLine n) → (n ≡ before + 1) ×
        ScriptLineHas IsOutside client head before line.now }
    ensures limit { (which : Limited) (n : ℕ) → IsErrOf result (ScheduleError.Limit which n) →
        (n ≡ before + 1) × ScriptLineHas (PassesLimit which) client head before line.now }
    ensures not_skewed { (line earlier : ℕ) →
        IsErrOf result (ScheduleError.Skewed line earlier) → ⊥ }
{
    let at = before as u64 + 1;
    within_length(line, at)?;
    match script_at(alloc, client, head, line) {
        Ok(script) => within_events(script, before),
        Err(e) => Err(unread_line(e, at)),
    }
}

/// A line is refused exactly where as many stand before it as a script has.
fn within_events(script: Script, before: usize) -> Result<Script, ScheduleError>
    requires { before ≤ EVENTS }
    ensures ok { IfOk result (λ s. (s ≡ script) × (before < EVENTS)) }
    ensures err { IfErr result (λ e.
        (EVENTS ≤ before) × (e ≡ ScheduleError.Limit Limited.Events (before + 1))) }
{
    if EVENTS <= before {
        drop(script);
        return Err(ScheduleError::Limit {
            which: Which::Events,
            at: before as u64 + 1,
        });
    }
    Ok(script)
}
