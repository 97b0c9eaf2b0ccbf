//! The texts of what clients make of operations.
ghost use Rattle.std.specs.Prelude.{◌≡◌, ◌++◌, OnOk};
ghost use Rattle.fs_report.specs.Notes.{busy_text, act_text};

use crate::needs::put_needs;
use crate::pieces::{next_id, next_number, next_peer, put_bytes};
use crate::reply_text::next_reply;
use fs_ident::{Memory, Peer};
use fs_msg::{Act, Busy};
use std::alloc::Global;

/// What a client makes of an operation.
pub(crate) fn put_act(alloc: Global, act: &Act, out: &mut Vec<u8>) -> Result<(), Memory>
    ensures { OnOk result (out.new.items ≡ out.old.items ++ act_text act.now) }
{
    match act {
        Act::Replied { n, reply } => {
            put_bytes(b"replied", out)?;
            next_number(alloc, *n, out)?;
            next_reply(alloc, reply, out)
        }
        Act::ReadNow { n, reply } => {
            put_bytes(b"read", out)?;
            next_number(alloc, *n, out)?;
            next_reply(alloc, reply, out)
        }
        Act::Asked { needs, to } => {
            put_bytes(b"asked", out)?;
            next_peer(alloc, Peer::Server(*to), out)?;
            out.push(b' ')?;
            put_needs(alloc, needs.as_slice(), out)
        }
        Act::Leading { n, to } => {
            put_bytes(b"leading", out)?;
            next_number(alloc, *n, out)?;
            next_peer(alloc, Peer::Server(*to), out)
        }
        Act::Busy { what } => put_busy(*what, out),
        Act::NoIds { dir } => {
            put_bytes(b"noids", out)?;
            next_id(alloc, dir, out)
        }
        Act::Over { n } => {
            put_bytes(b"over", out)?;
            next_number(alloc, *n, out)
        }
    }
}

/// What an operation has to wait for.
fn put_busy(what: Busy, out: &mut Vec<u8>) -> Result<(), Memory>
    ensures { OnOk result (out.new.items ≡ out.old.items ++ busy_text what) }
{
    match what {
        Busy::Exchange => put_bytes(b"busy exchange", out),
        Busy::Log => put_bytes(b"busy log", out),
        Busy::Led => put_bytes(b"busy led", out),
    }
}
