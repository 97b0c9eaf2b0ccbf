//! The texts of notes.
ghost use Rattle.std.specs.Prelude.{◌≡◌, ◌++◌, OnOk};
ghost use Rattle.fs_report.specs.Notes.{note_text};

use crate::acts::put_act;
use crate::client_notes::put_client_note;
use crate::pieces::{next_number, put_bytes};
use crate::reply_text::next_reply;
use crate::server_notes::put_server_note;
use fs_ident::Memory;
use fs_msg::Note;
use std::alloc::Global;

/// A note.
pub(crate) fn put_note(alloc: Global, note: &Note, out: &mut Vec<u8>) -> Result<(), Memory>
    ensures { OnOk result (out.new.items ≡ out.old.items ++ note_text note.now) }
{
    match note {
        Note::Server(note) => put_server_note(alloc, note, out),
        Note::Client(note) => put_client_note(alloc, note, out),
        Note::Act(act) => put_act(alloc, act, out),
        Note::Joined => put_bytes(b"joined", out),
        Note::Answered { n, reply } => {
            put_bytes(b"answered", out)?;
            next_number(alloc, *n, out)?;
            next_reply(alloc, reply, out)
        }
        Note::Nothing => put_bytes(b"nothing", out),
        Note::None => put_bytes(b"none", out),
        Note::Part => put_bytes(b"part", out),
        Note::Strange => put_bytes(b"strange", out),
    }
}
