//! The texts of why a server keeps what it was to hand over.
ghost use Rattle.std.specs.Prelude.{◌≡◌, ◌++◌, ◌∷◌, OnOk};
ghost use Rattle.fs_report.specs.Notes.{refusal_text};

use crate::pieces::{next_id, next_path, next_peer, next_txn, put_bytes};
use fs_ident::{Memory, Peer};
use fs_msg::Refusal;
use std::alloc::Global;

/// A space and why a server keeps what it was to hand over.
pub(crate) fn next_refusal(
    alloc: Global,
    refusal: &Refusal,
    out: &mut Vec<u8>,
) -> Result<(), Memory>
    ensures { OnOk result (out.new.items ≡ out.old.items ++ 32 ∷ refusal_text refusal.now) }
{
    match refusal {
        Refusal::NotMine { prefix, to } => {
            put_bytes(b" notmine", out)?;
            next_id(alloc, prefix, out)?;
            next_peer(alloc, Peer::Server(*to), out)
        }
        Refusal::NoFile => put_bytes(b" nofile", out),
        Refusal::Same => put_bytes(b" same", out),
        Refusal::Busy { txn } => {
            put_bytes(b" busy", out)?;
            next_txn(alloc, *txn, out)
        }
        Refusal::Paths { no } => {
            put_bytes(b" paths", out)?;
            next_path(alloc, *no, out)
        }
    }
}
