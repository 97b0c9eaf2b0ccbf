//! The texts of what clients note of turns and of answers.
ghost use Rattle.std.specs.Prelude.{◌≡◌, ◌++◌, OnOk};
ghost use Rattle.fs_report.specs.Notes.{request_text, client_note_text};

use crate::ends::put_progress;
use crate::led::{next_ended, next_why};
use crate::pieces::{next_lease, next_number, next_peer, put_bytes};
use crate::reply_text::next_reply;
use fs_ident::{Memory, Peer};
use fs_msg::ClientNote;
use std::alloc::Global;

/// A client's note.
pub(crate) fn put_client_note(
    alloc: Global,
    note: &ClientNote,
    out: &mut Vec<u8>,
) -> Result<(), Memory>
    ensures { OnOk result (out.new.items ≡ out.old.items ++ client_note_text note.now) }
{
    match note {
        ClientNote::Ships { count, to } => put_request(alloc, b"ships", *count, *to, out),
        ClientNote::Releases { count, to } => put_request(alloc, b"releases", *count, *to, out),
        ClientNote::Renews { count, to } => put_request(alloc, b"renews", *count, *to, out),
        ClientNote::Idle => put_bytes(b"idle", out),
        ClientNote::Granted { count, end } => put_progress(alloc, b"granted", *count, end, out),
        ClientNote::Renewed { count, end } => put_progress(alloc, b"renewed", *count, end, out),
        ClientNote::Released { count, end } => put_progress(alloc, b"released", *count, end, out),
        ClientNote::Shipped { count, end } => put_progress(alloc, b"shipped", *count, end, out),
        ClientNote::Recall { no } => {
            put_bytes(b"recall", out)?;
            next_lease(alloc, *no, out)
        }
        ClientNote::Led { n, reply } => {
            put_bytes(b"led", out)?;
            next_number(alloc, *n, out)?;
            next_reply(alloc, reply, out)
        }
        ClientNote::LedAgain { why } => {
            put_bytes(b"led again", out)?;
            next_why(alloc, why, out)
        }
        ClientNote::LedEnded { lease, until, now } => {
            put_bytes(b"led", out)?;
            next_ended(alloc, *lease, *until, *now, out)
        }
        ClientNote::Strange => put_bytes(b"strange", out),
    }
}

/// A word for what is sent, how many, and to which server.
fn put_request(
    alloc: Global,
    word: &[u8],
    count: u64,
    to: u8,
    out: &mut Vec<u8>,
) -> Result<(), Memory>
    ensures { OnOk result (out.new.items ≡ out.old.items ++ request_text word.now count to) }
{
    put_bytes(word, out)?;
    next_number(alloc, count, out)?;
    next_peer(alloc, Peer::Server(to), out)
}
