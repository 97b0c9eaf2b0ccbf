//! The texts of what servers note.
ghost use Rattle.std.specs.Prelude.{◌≡◌, ◌++◌, OnOk};
ghost use Rattle.fs_report.specs.Notes.{gaps_text, server_note_text};

use crate::ends::put_progress;
use crate::led::{next_ended, next_vote, next_why, put_path_note, put_txn_note};
use crate::pieces::{next_id, next_number, next_peer, put_bytes};
use crate::refusals::next_refusal;
use crate::reply_text::next_reply;
use fs_ident::{Memory, Peer};
use fs_msg::ServerNote;
use std::alloc::Global;

/// A server's note.
pub(crate) fn put_server_note(
    alloc: Global,
    note: &ServerNote,
    out: &mut Vec<u8>,
) -> Result<(), Memory>
    ensures { OnOk result (out.new.items ≡ out.old.items ++ server_note_text note.now) }
{
    match note {
        ServerNote::Grants { count, end } => put_progress(alloc, b"grants", *count, end, out),
        ServerNote::Renews { count, end } => put_progress(alloc, b"renews", *count, end, out),
        ServerNote::Frees { count, end } => put_progress(alloc, b"frees", *count, end, out),
        ServerNote::Admits { count, end, gaps } => {
            put_progress(alloc, b"admits", *count, end, out)?;
            put_gaps(alloc, gaps.as_slice(), out)
        }
        ServerNote::Refuses { why } => {
            put_bytes(b"refuses", out)?;
            next_why(alloc, why, out)
        }
        ServerNote::Prepares { txn } => put_txn_note(alloc, b"prepares", *txn, out),
        ServerNote::Commits { txn, reply } => {
            put_txn_note(alloc, b"commits", *txn, out)?;
            next_reply(alloc, reply, out)
        }
        ServerNote::Aborts { txn, why } => {
            put_txn_note(alloc, b"aborts", *txn, out)?;
            next_why(alloc, why, out)
        }
        ServerNote::AbortsEnded {
            txn,
            lease,
            until,
            now,
        } => {
            put_txn_note(alloc, b"aborts", *txn, out)?;
            next_ended(alloc, *lease, *until, *now, out)
        }
        ServerNote::Votes { txn, vote } => {
            put_txn_note(alloc, b"votes", *txn, out)?;
            next_vote(alloc, vote, out)
        }
        ServerNote::Waits { txn } => put_txn_note(alloc, b"waits", *txn, out),
        ServerNote::Seeks { txn, to } => {
            put_txn_note(alloc, b"seeks", *txn, out)?;
            next_peer(alloc, Peer::Server(*to), out)
        }
        ServerNote::Applies { txn } => put_txn_note(alloc, b"applies", *txn, out),
        ServerNote::Ends { txn } => put_txn_note(alloc, b"ends", *txn, out),
        ServerNote::PathGrants { no } => put_path_note(alloc, b"pathgrants", *no, out),
        ServerNote::PathDenies { why } => {
            put_bytes(b"pathdenies", out)?;
            next_why(alloc, why, out)
        }
        ServerNote::PathHolds { no } => put_path_note(alloc, b"pathholds", *no, out),
        ServerNote::PathDrops { no } => put_path_note(alloc, b"pathdrops", *no, out),
        ServerNote::PathSeeks { file, to } => {
            put_bytes(b"pathseeks", out)?;
            next_id(alloc, file, out)?;
            next_peer(alloc, Peer::Server(*to), out)
        }
        ServerNote::PathFails { why } => {
            put_bytes(b"pathfails", out)?;
            next_why(alloc, why, out)
        }
        ServerNote::PathFrees { no } => put_path_note(alloc, b"pathfrees", *no, out),
        ServerNote::PathDown { no, count } => {
            put_path_note(alloc, b"pathdown", *no, out)?;
            next_number(alloc, *count, out)
        }
        ServerNote::PathBack { no } => put_path_note(alloc, b"pathback", *no, out),
        ServerNote::PathNone => put_bytes(b"none", out),
        ServerNote::Reaps { count } => {
            put_bytes(b"reaps", out)?;
            next_number(alloc, *count, out)
        }
        ServerNote::Recalls { count } => {
            put_bytes(b"recalls", out)?;
            next_number(alloc, *count, out)
        }
        ServerNote::Installs { prefix } => {
            put_bytes(b"installs", out)?;
            next_id(alloc, prefix, out)
        }
        ServerNote::Moves { prefix, to } => {
            put_bytes(b"moves", out)?;
            next_id(alloc, prefix, out)?;
            next_peer(alloc, Peer::Server(*to), out)
        }
        ServerNote::Stays { refusal } => {
            put_bytes(b"stays", out)?;
            next_refusal(alloc, refusal, out)
        }
        ServerNote::Idle => put_bytes(b"idle", out),
        ServerNote::Strange => put_bytes(b"strange", out),
    }
}

/// The numbers of the entries behind a refused one.
fn put_gaps(alloc: Global, gaps: &[u64], out: &mut Vec<u8>) -> Result<(), Memory>
    ensures { OnOk result (out.new.items ≡ out.old.items ++ gaps_text gaps.now) }
{
    for n in gaps {
        put_bytes(b" gap", out)?;
        next_number(alloc, *n, out)?;
    }
    Ok(())
}
