//! The ends of led operations as bytes.
ghost use Rattle.std.specs.Prelude.{◌≡◌, ◌++◌, OnOk};
ghost use Rattle.fs_wire.specs.Readers.{Gives};
ghost use Rattle.fs_msg.specs.Spelling.{led_end};
ghost use Rattle.fs_msg.specs.Reading.{led_end_at};
ghost use Rattle.fs_msg.specs.Ranges.{FitsLedEnd};

use crate::bytes::why::{put_why, why_of};
use fs_ident::LeaseNo;
use fs_model::Reply;
use fs_record::LedEnd;
use fs_wire::{ReadError, Wire, put_tag, put_tag_1, put_tag_3, tag_of};
use std::alloc::{AllocError, Global};

/// Adds the spelling of the end of a led operation at the end. When out of memory, a part of it may stand there.
#[tactic(auto, unfolding(crate::specs::Spelling::led_end))]
pub fn put_led_end(e: &LedEnd, out: &mut Vec<u8>) -> Result<(), AllocError>
    ensures text { OnOk result (out.new.items ≡ out.old.items ++ led_end e.now) }
    ensures fits { OnOk result (FitsLedEnd e.now) }
{
    match e {
        LedEnd::Done { reply } => put_tag_1(0, reply, out),
        LedEnd::Ended { lease, until, now } => put_tag_3(1, lease, until, now, out),
        LedEnd::Again { why } => {
            put_tag(2, out)?;
            put_why(why, out)
        }
    }
}

/// The end of a led operation at the beginning, and the bytes behind it.
#[tactic(auto, unfolding(crate::specs::Reading::led_end_at, fs_wire::specs::Readers::then_at, fs_wire::specs::Readers::either_at, fs_wire::specs::Readers::map_at))]
pub fn led_end_of(alloc: Global, bytes: &[u8]) -> Result<(LedEnd, &[u8]), ReadError>
    ensures { Gives (λ x. (x.0, x.1.now)) result (led_end_at bytes.now) }
{
    let (tag, rest) = tag_of(3, bytes)?;
    match tag {
        0 => {
            let (reply, rest) = Reply::get(alloc, rest)?;
            Ok((LedEnd::Done { reply }, rest))
        }
        1 => {
            let ((lease, (until, now)), rest) = <(LeaseNo, (u64, u64))>::get(alloc, rest)?;
            Ok((LedEnd::Ended { lease, until, now }, rest))
        }
        _ => {
            let (why, rest) = why_of(alloc, rest)?;
            Ok((LedEnd::Again { why }, rest))
        }
    }
}
