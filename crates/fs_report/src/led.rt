//! The texts of led operations: why something is asked again, votes, transactions, and path leases.
ghost use Rattle.std.specs.Prelude.{◌≡◌, ◌++◌, ◌∷◌, OnOk};
ghost use Rattle.fs_report.specs.Notes.{ended_text, path_note, txn_note, vote_text, why_text};

use crate::pieces::{next_id, next_lease, next_number, next_path, next_peer, next_txn, put_bytes};
use fs_field::Vote;
use fs_ident::{LeaseNo, Memory, PathNo, Peer, TxnNo};
use fs_record::Why;
use std::alloc::Global;

/// A word and the transaction that it is said of.
pub(crate) fn put_txn_note(
    alloc: Global,
    word: &[u8],
    txn: TxnNo,
    out: &mut Vec<u8>,
) -> Result<(), Memory>
    ensures { OnOk result (out.new.items ≡ out.old.items ++ txn_note word.now txn) }
{
    put_bytes(word, out)?;
    next_txn(alloc, txn, out)
}

/// A word and the path lease that it is said of.
pub(crate) fn put_path_note(
    alloc: Global,
    word: &[u8],
    no: PathNo,
    out: &mut Vec<u8>,
) -> Result<(), Memory>
    ensures { OnOk result (out.new.items ≡ out.old.items ++ path_note word.now no) }
{
    put_bytes(word, out)?;
    next_path(alloc, no, out)
}

/// A space, the lease that was over, its end, and the reading at which that was seen.
pub(crate) fn next_ended(
    alloc: Global,
    lease: LeaseNo,
    until: u64,
    now: u64,
    out: &mut Vec<u8>,
) -> Result<(), Memory>
    ensures { OnOk result (out.new.items ≡ out.old.items ++ 32 ∷ ended_text lease until now) }
{
    put_bytes(b" ended", out)?;
    next_lease(alloc, lease, out)?;
    next_number(alloc, until, out)?;
    next_number(alloc, now, out)
}

/// A space and why something is asked again.
pub(crate) fn next_why(alloc: Global, why: &Why, out: &mut Vec<u8>) -> Result<(), Memory>
    ensures { OnOk result (out.new.items ≡ out.old.items ++ 32 ∷ why_text why.now) }
{
    match why {
        Why::Moved { prefix, to } => {
            put_bytes(b" moved", out)?;
            next_id(alloc, prefix, out)?;
            next_peer(alloc, Peer::Server(*to), out)
        }
        Why::Wanted { file } => {
            put_bytes(b" wanted", out)?;
            next_id(alloc, file, out)
        }
        Why::Frozen { file, txn } => {
            put_bytes(b" frozen", out)?;
            next_id(alloc, file, out)?;
            next_txn(alloc, *txn, out)
        }
        Why::PathsOut { no } => {
            put_bytes(b" pathsout", out)?;
            next_path(alloc, *no, out)
        }
        Why::Changed => put_bytes(b" changed", out),
        Why::NoChild => put_bytes(b" nochild", out),
    }
}

/// A space and a vote.
pub(crate) fn next_vote(alloc: Global, vote: &Vote, out: &mut Vec<u8>) -> Result<(), Memory>
    ensures { OnOk result (out.new.items ≡ out.old.items ++ 32 ∷ vote_text vote.now) }
{
    match vote {
        Vote::Yes => put_bytes(b" yes", out),
        Vote::Ended { lease, until, now } => next_ended(alloc, *lease, *until, *now, out),
        Vote::Moved { prefix, to } => {
            put_bytes(b" moved", out)?;
            next_id(alloc, prefix, out)?;
            next_peer(alloc, Peer::Server(*to), out)
        }
        Vote::PathsOut { no } => {
            put_bytes(b" pathsout", out)?;
            next_path(alloc, *no, out)
        }
    }
}
