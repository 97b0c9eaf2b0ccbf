//! Ends as bytes.
ghost use Rattle.std.specs.Prelude.{true};
ghost use Rattle.fs_msg.specs.Spelling.{end};
ghost use Rattle.fs_msg.specs.Reading.{end_at};
ghost use Rattle.fs_msg.specs.Ranges.{FitsEnd};

use crate::end::End;
use fs_ident::{FileId, LeaseNo, TxnNo};
use fs_wire::{ReadError, Wire, put_tag, put_tag_1, put_tag_2, put_tag_4, tag_of};
use std::alloc::{AllocError, Global};

impl Wire for End {
    ghost text = { end };

    ghost at = { end_at };

    ghost fits = { FitsEnd };

    ghost readable = { λ _. true };

    #[tactic(auto, unfolding(crate::specs::Spelling::end))]
    fn put(&self, out: &mut Vec<u8>) -> Result<(), AllocError> {
        match self {
            End::All => put_tag(0, out),
            End::Wait { blocker } => put_tag_1(1, blocker, out),
            End::Locked { txn } => put_tag_1(2, txn, out),
            End::Moved { prefix, to } => put_tag_2(3, prefix, to, out),
            End::NoIds { dir } => put_tag_1(4, dir, out),
            End::Ended {
                n,
                lease,
                until,
                now,
            } => put_tag_4(5, n, lease, until, now, out),
        }
    }

    #[tactic(auto, unfolding(crate::specs::Reading::end_at, fs_wire::specs::Readers::then_at, fs_wire::specs::Readers::either_at, fs_wire::specs::Readers::always_at, fs_wire::specs::Readers::map_at))]
    fn get(alloc: Global, bytes: &[u8]) -> Result<(End, &[u8]), ReadError> {
        let (tag, rest) = tag_of(6, bytes)?;
        match tag {
            0 => Ok((End::All, rest)),
            1 => {
                let (blocker, rest) = LeaseNo::get(alloc, rest)?;
                Ok((End::Wait { blocker }, rest))
            }
            2 => {
                let (txn, rest) = TxnNo::get(alloc, rest)?;
                Ok((End::Locked { txn }, rest))
            }
            3 => {
                let ((prefix, to), rest) = <(FileId, u8)>::get(alloc, rest)?;
                Ok((End::Moved { prefix, to }, rest))
            }
            4 => {
                let (dir, rest) = FileId::get(alloc, rest)?;
                Ok((End::NoIds { dir }, rest))
            }
            _ => {
                let ((n, (lease, (until, now))), rest) = <(u64, (LeaseNo, (u64, u64)))>::get(
                    alloc, rest,
                )?;
                Ok((
                    End::Ended {
                        n,
                        lease,
                        until,
                        now,
                    },
                    rest,
                ))
            }
        }
    }
}
