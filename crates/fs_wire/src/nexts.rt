//! The next numbers of directories: from 1 to 4294967296, in eight bytes.
ghost use Rattle.std.specs.Prelude.{◌≡◌, ◌++◌, true, OnOk};
ghost use Rattle.fs_wire.specs.Spelling.{eight};
ghost use Rattle.fs_wire.specs.Readers.{Gives};
ghost use Rattle.fs_wire.specs.Reading.{positive_at, zeros_at, next_at};
ghost use Rattle.fs_wire.specs.Ranges.{FitsNext};
ghost use Rattle.fs_wire.specs.Readable.{is_readable_next};

use crate::fault::{ReadError, stop};
use crate::numbers::choice_of;
use crate::wire::Wire;
use std::alloc::{AllocError, Global};

/// Adds a next number at the end. When out of memory, a part of it may stand there.
pub fn put_next(next: u64, out: &mut Vec<u8>) -> Result<(), AllocError>
    ensures text { OnOk result (out.new.items ≡ out.old.items ++ eight next) }
    ensures fits { OnOk result (is_readable_next next ≡ true → FitsNext next) }
{
    next.put(out)
}

/// The next number at the beginning, and the bytes behind it.
#[tactic(auto, unfolding(crate::specs::Reading::next_at, crate::specs::Readers::then_at, crate::specs::Readers::either_at, crate::specs::Readers::map_at))]
pub fn next_of(alloc: Global, bytes: &[u8]) -> Result<(u64, &[u8]), ReadError>
    ensures { Gives (λ x. (x.0, x.1.now)) result (next_at bytes.now) }
{
    let (_, rest) = zeros_of(bytes)?;
    let (flag, rest) = choice_of(2, rest)?;
    if flag == 0 {
        let (number, rest) = positive_of(alloc, rest)?;
        return Ok((number as u64, rest));
    }
    let (_, rest) = choice_of(1, rest)?;
    let (_, rest) = zeros_of(rest)?;
    Ok((1 << 32, rest))
}

/// A number that is not 0.
#[tactic(auto, unfolding(crate::specs::Reading::positive_at, crate::specs::Readers::then_at))]
fn positive_of(alloc: Global, bytes: &[u8]) -> Result<(u32, &[u8]), ReadError>
    ensures { Gives (λ x. (x.0, x.1.now)) result (positive_at bytes.now) }
{
    let (number, rest) = u32::get(alloc, bytes)?;
    if number == 0 {
        return Err(stop(false, rest.len() + 1));
    }
    Ok((number, rest))
}

/// Three bytes that are 0, of which the last is told.
#[tactic(auto, unfolding(crate::specs::Reading::zeros_at, crate::specs::Readers::then_at))]
fn zeros_of(bytes: &[u8]) -> Result<(u8, &[u8]), ReadError>
    ensures { Gives (λ x. (x.0, x.1.now)) result (zeros_at bytes.now) }
{
    let (_, rest) = choice_of(1, bytes)?;
    let (_, rest) = choice_of(1, rest)?;
    choice_of(1, rest)
}
