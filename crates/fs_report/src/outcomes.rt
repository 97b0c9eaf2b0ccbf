//! The lines of outcomes.
ghost use Rattle.std.specs.Prelude.{◌≡◌, ◌++◌, OnOk, OnErr};
ghost use Rattle.fs_report.specs.Report.{notes_text, sent_text, outcome_text};

use crate::notes::put_note;
use crate::pieces::{LINE, next_number, next_who, put_bytes, put_number};
use fs_ident::Memory;
use fs_msg::Note;
use fs_schedule::Outcome;
use std::alloc::Global;

/// Adds the line of the outcome of event number `k`.
pub fn outcome_line(alloc: Global, k: u64, o: &Outcome, out: &mut Vec<u8>) -> Result<(), Memory>
    ensures ok { OnOk result (out.new.items ≡ out.old.items ++ outcome_text k o.now) }
    ensures err { OnErr result (out.new.items ≡ out.old.items) }
{
    let mut line = Vec::with_capacity(alloc, LINE)?;
    put_outcome(alloc, k, o, &mut line)?;
    out.extend_from_slice(&line)?;
    Ok(())
}

fn put_outcome(alloc: Global, k: u64, o: &Outcome, out: &mut Vec<u8>) -> Result<(), Memory>
    ensures { OnOk result (out.new.items ≡ out.old.items ++ outcome_text k o.now) }
{
    out.push(b'e')?;
    put_number(alloc, k, out)?;
    next_who(alloc, o.who, out)?;
    out.push(b' ')?;
    put_notes(alloc, o.notes.as_slice(), out)?;
    put_sent(alloc, o.sent.as_slice(), out)?;
    out.push(b'\n')?;
    Ok(())
}

/// The notes, parted by a semicolon and a space.
fn put_notes(alloc: Global, notes: &[Note], out: &mut Vec<u8>) -> Result<(), Memory>
    ensures { OnOk result (out.new.items ≡ out.old.items ++ notes_text notes.now) }
{
    let [first, rest @ ..] = notes else {
        return Ok(());
    };
    put_note(alloc, first, out)?;
    for note in rest {
        put_bytes(b"; ", out)?;
        put_note(alloc, note, out)?;
    }
    Ok(())
}

/// The numbers of the packets that were sent, if there are any.
fn put_sent(alloc: Global, sent: &[u64], out: &mut Vec<u8>) -> Result<(), Memory>
    ensures { OnOk result (out.new.items ≡ out.old.items ++ sent_text sent.now) }
{
    if sent.is_empty() {
        return Ok(());
    }
    put_bytes(b" sends", out)?;
    for n in sent {
        next_number(alloc, *n, out)?;
    }
    Ok(())
}
