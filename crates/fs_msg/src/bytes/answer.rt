//! Answers as bytes.
ghost use Rattle.std.specs.Prelude.{◌≡◌, ◌++◌, ◌≤◌, OnOk, true};
ghost use Rattle.fs_wire.specs.Readers.{Gives};
ghost use Rattle.fs_msg.specs.Spelling.{answer};
ghost use Rattle.fs_msg.specs.Reading.{is_answer_tag, answer_of};
ghost use Rattle.fs_msg.specs.Ranges.{FitsAnswer};
ghost use Rattle.fs_msg.specs.Readable.{is_readable_answer};

use crate::answer::{Answer, Grant};
use crate::bytes::led_end::{led_end_of, put_led_end};
use crate::end::End;
use fs_ident::{FileId, LeaseNo, List};
use fs_wire::{ReadError, Wire, put_tag, put_tag_1, put_tag_2, put_tag_3};
use std::alloc::{AllocError, Global};

/// Whether an answer has the tag.
pub(crate) fn is_answer_tag(b: u8) -> bool
    ensures { result ≡ is_answer_tag b }
{
    17 <= b && b <= 22
}

/// Adds the spelling of an answer at the end.
#[tactic(auto, unfolding(crate::specs::Spelling::answer))]
pub(crate) fn put_answer(a: &Answer, out: &mut Vec<u8>) -> Result<(), AllocError>
    ensures text { OnOk result (out.new.items ≡ out.old.items ++ answer a.now) }
    ensures fits { OnOk result (is_readable_answer a.now ≡ true → FitsAnswer a.now) }
{
    match a {
        Answer::Granted { grants, fresh, end } => put_tag_3(17, grants, fresh, end, out),
        Answer::Renewed { rows, end } => put_tag_2(18, rows, end, out),
        Answer::Released { count, end } => put_tag_2(19, count, end, out),
        Answer::Shipped { count, end } => put_tag_2(20, count, end, out),
        Answer::Led { end } => {
            put_tag(21, out)?;
            put_led_end(end, out)
        }
        Answer::Recall { no } => put_tag_1(22, no, out),
    }
}

/// The answer behind its tag.
#[tactic(auto, unfolding(fs_wire::specs::Readers::either_at, fs_wire::specs::Readers::map_at))]
pub(crate) fn answer_of(alloc: Global, tag: u8, rest: &[u8]) -> Result<(Answer, &[u8]), ReadError>
    ensures { Gives (λ x. (x.0, x.1.now)) result (answer_of tag rest.now) }
{
    match tag {
        17 => {
            let ((grants, (fresh, end)), rest) = <(List<Grant>, (Option<FileId>, End))>::get(
                alloc, rest,
            )?;
            Ok((Answer::Granted { grants, fresh, end }, rest))
        }
        18 => {
            let ((rows, end), rest) = <(List<(LeaseNo, Option<u64>)>, End)>::get(alloc, rest)?;
            Ok((Answer::Renewed { rows, end }, rest))
        }
        19 => {
            let ((count, end), rest) = <(u64, End)>::get(alloc, rest)?;
            Ok((Answer::Released { count, end }, rest))
        }
        20 => {
            let ((count, end), rest) = <(u64, End)>::get(alloc, rest)?;
            Ok((Answer::Shipped { count, end }, rest))
        }
        21 => {
            let (end, rest) = led_end_of(alloc, rest)?;
            Ok((Answer::Led { end }, rest))
        }
        _ => {
            let (no, rest) = LeaseNo::get(alloc, rest)?;
            Ok((Answer::Recall { no }, rest))
        }
    }
}
