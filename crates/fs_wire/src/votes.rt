//! Whether a part of a led operation is ready.
ghost use Rattle.std.specs.Prelude.{true};
ghost use Rattle.fs_wire.specs.Spelling.{vote};
ghost use Rattle.fs_wire.specs.Reading.{vote_at};
ghost use Rattle.fs_wire.specs.Ranges.{FitsVote};

use crate::fault::ReadError;
use crate::numbers::tag_of;
use crate::puts::{put_tag, put_tag_1, put_tag_2, put_tag_3};
use crate::wire::Wire;
use fs_field::Vote;
use fs_ident::{FileId, LeaseNo, PathNo};
use std::alloc::{AllocError, Global};

impl Wire for Vote {
    ghost text = { vote };

    ghost at = { vote_at };

    ghost fits = { FitsVote };

    ghost readable = { λ _. true };

    #[tactic(auto, unfolding(crate::specs::Spelling::vote))]
    fn put(&self, out: &mut Vec<u8>) -> Result<(), AllocError> {
        match self {
            Vote::Yes => put_tag(0, out),
            Vote::Ended { lease, until, now } => put_tag_3(1, lease, until, now, out),
            Vote::Moved { prefix, to } => put_tag_2(2, prefix, to, out),
            Vote::PathsOut { no } => put_tag_1(3, no, out),
        }
    }

    #[tactic(auto, unfolding(crate::specs::Reading::vote_at, crate::specs::Readers::then_at, crate::specs::Readers::either_at, crate::specs::Readers::always_at, crate::specs::Readers::map_at))]
    fn get(alloc: Global, bytes: &[u8]) -> Result<(Vote, &[u8]), ReadError> {
        let (tag, rest) = tag_of(4, bytes)?;
        match tag {
            0 => Ok((Vote::Yes, rest)),
            1 => {
                let ((lease, (until, now)), rest) = <(LeaseNo, (u64, u64))>::get(alloc, rest)?;
                Ok((Vote::Ended { lease, until, now }, rest))
            }
            2 => {
                let ((prefix, to), rest) = <(FileId, u8)>::get(alloc, rest)?;
                Ok((Vote::Moved { prefix, to }, rest))
            }
            _ => {
                let (no, rest) = PathNo::get(alloc, rest)?;
                Ok((Vote::PathsOut { no }, rest))
            }
        }
    }
}
