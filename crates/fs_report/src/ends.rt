//! The texts of how far a server got.
ghost use Rattle.std.specs.Prelude.{◌≡◌, ◌++◌, ◌∷◌, OnOk};
ghost use Rattle.fs_report.specs.Notes.{end_text, progress_text};

use crate::pieces::{next_id, next_lease, next_number, next_peer, next_txn, put_bytes};
use fs_ident::{Memory, Peer};
use fs_msg::End;
use std::alloc::Global;

/// A word for what was done, how often, and why no more often.
pub(crate) fn put_progress(
    alloc: Global,
    word: &[u8],
    count: u64,
    end: &End,
    out: &mut Vec<u8>,
) -> Result<(), Memory>
    ensures { OnOk result (out.new.items ≡ out.old.items ++ progress_text word.now count end.now) }
{
    put_bytes(word, out)?;
    next_number(alloc, count, out)?;
    next_end(alloc, end, out)
}

/// A space and why an answer goes no further.
fn next_end(alloc: Global, end: &End, out: &mut Vec<u8>) -> Result<(), Memory>
    ensures { OnOk result (out.new.items ≡ out.old.items ++ 32 ∷ end_text end.now) }
{
    match end {
        End::All => put_bytes(b" all", out),
        End::Wait { blocker } => {
            put_bytes(b" wait", out)?;
            next_lease(alloc, *blocker, out)
        }
        End::Locked { txn } => {
            put_bytes(b" locked", out)?;
            next_txn(alloc, *txn, out)
        }
        End::Moved { prefix, to } => {
            put_bytes(b" moved", out)?;
            next_id(alloc, prefix, out)?;
            next_peer(alloc, Peer::Server(*to), out)
        }
        End::NoIds { dir } => {
            put_bytes(b" noids", out)?;
            next_id(alloc, dir, out)
        }
        End::Ended {
            n,
            lease,
            until,
            now,
        } => {
            put_bytes(b" ended", out)?;
            next_number(alloc, *n, out)?;
            next_lease(alloc, *lease, out)?;
            next_number(alloc, *until, out)?;
            next_number(alloc, *now, out)
        }
    }
}
