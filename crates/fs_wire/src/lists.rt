//! Options, pairs and lists.
ghost use Rattle.std.specs.Prelude.{◌≡◌, ◌≤◌, ◌*◌, true, List, ◌++◌, OnOk, flat_map};
ghost use Rattle.std.specs.List.{list_all, AllByRecursion};
ghost use Rattle.fs_wire.specs.Spelling.{option, pair, list};
ghost use Rattle.fs_wire.specs.Readers.{Gives, option_at, pair_at, many_at, list_at};
ghost use Rattle.fs_wire.specs.Ranges.{FitsList, FitsOption, FitsPair};
ghost use Rattle.fs_wire.specs.Readable.{option_all, pair_all};

use crate::fault::ReadError;
use crate::numbers::choice_of;
use crate::wire::Wire;
use fs_ident::List;
use std::alloc::{AllocError, Global};
use std::cmp::min;

impl<T: Wire> Wire for Option<T> {
    ghost text = { option T.text };

    ghost at = { option_at T.at };

    ghost fits = { FitsOption T.fits };

    ghost readable = { option_all T.readable };

    fn put(&self, out: &mut Vec<u8>) -> Result<(), AllocError> {
        match self {
            None => out.push(0)?,
            Some(x) => {
                out.push(1)?;
                x.put(out)?;
            }
        }
        Ok(())
    }

    #[tactic(auto, unfolding(crate::specs::Readers::option_at, crate::specs::Readers::then_at, crate::specs::Readers::either_at, crate::specs::Readers::always_at, crate::specs::Readers::map_at))]
    fn get(alloc: Global, bytes: &[u8]) -> Result<(Option<T>, &[u8]), ReadError> {
        let (flag, rest) = choice_of(2, bytes)?;
        match flag {
            0 => Ok((None, rest)),
            _ => {
                let (x, rest) = T::get(alloc, rest)?;
                Ok((Some(x), rest))
            }
        }
    }
}

impl<A: Wire, B: Wire> Wire for (A, B) {
    ghost text = { pair A.text B.text };

    ghost at = { pair_at A.at B.at };

    ghost fits = { FitsPair A.fits B.fits };

    ghost readable = { pair_all A.readable B.readable };

    fn put(&self, out: &mut Vec<u8>) -> Result<(), AllocError> {
        self.0.put(out)?;
        self.1.put(out)
    }

    #[tactic(auto, unfolding(crate::specs::Readers::pair_at, crate::specs::Readers::then_at, crate::specs::Readers::map_at))]
    fn get(alloc: Global, bytes: &[u8]) -> Result<((A, B), &[u8]), ReadError> {
        let (first, rest) = A::get(alloc, bytes)?;
        let (second, rest) = B::get(alloc, rest)?;
        Ok(((first, second), rest))
    }
}

impl<T: Wire> Wire for List<T> {
    ghost text = { list T.text };

    ghost at = { list_at T.at };

    ghost fits = { FitsList T.fits };

    ghost readable = { list_all T.readable };

    #[tactic(auto, unfolding(crate::specs::Spelling::list))]
    fn put(&self, out: &mut Vec<u8>) -> Result<(), AllocError> {
        (self.len() as u64).put(out)?;
        put_each(self.as_slice(), out)
    }

    #[tactic(auto, unfolding(crate::specs::Readers::list_at, crate::specs::Readers::then_at))]
    fn get(alloc: Global, bytes: &[u8]) -> Result<(List<T>, &[u8]), ReadError> {
        let (count, rest) = u64::get(alloc, bytes)?;
        many_of(alloc, count, rest)
    }
}

/// Adds the spelling of each, in order.
pub(crate) fn put_each<T: Wire>(items: &[T], out: &mut Vec<u8>) -> Result<(), AllocError>
    ensures text { OnOk result (out.new.items ≡ out.old.items ++ flat_map T.text items.now) }
    ensures fits { OnOk result (list_all T.readable items.now ≡ true →
        AllByRecursion T.fits items.now) }
{
    for x in items {
        x.put(out)?;
    }
    Ok(())
}

/// For how many items room is made at once: no more than are said, and than some sixteen bytes each leave room for.
fn room_for(count: u64, left: usize) -> usize
    ensures said { result ≤ count }
    ensures bytes { result * 16 ≤ left }
{
    min(count, (left / 16) as u64) as usize
}

/// So many, in order, and the bytes behind them.
pub(crate) fn many_of<T: Wire>(
    alloc: Global,
    count: u64,
    bytes: &[u8],
) -> Result<(List<T>, &[u8]), ReadError>
    ensures { Gives (λ x. (x.0, x.1.now)) result (many_at T.at count bytes.now) }
{
    let mut items = List::from_vec(Vec::with_capacity(alloc, room_for(count, bytes.len()))?);
    let mut rest = bytes;
    for _ in 0..count {
        let (item, after) = T::get(alloc, rest)?;
        items.push(item)?;
        rest = after;
    }
    Ok((items, rest))
}
