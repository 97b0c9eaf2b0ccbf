//! Bytes, numbers and truth values.
ghost use Rattle.std.specs.Prelude.{◌∷◌, [], ◌<◌, IfOk, true};
ghost use Rattle.fs_wire.specs.Spelling.{four, eight, truth};
ghost use Rattle.fs_wire.specs.Readers.{Gives, byte_at, choice_at, tag_at, four_at, eight_at, truth_at};
ghost use Rattle.fs_wire.specs.Ranges.{FitsAlways, FitsEight, FitsFour, FitsOne};

use crate::fault::{ReadError, stop};
use crate::wire::Wire;
use fs_ident::number_in_front;
use std::alloc::{AllocError, Global};

/// A byte below the limit.
#[tactic(auto, unfolding(crate::specs::Readers::choice_at, crate::specs::Readers::one_at))]
pub(crate) fn choice_of(limit: u8, bytes: &[u8]) -> Result<(u8, &[u8]), ReadError>
    ensures read { Gives (λ x. (x.0, x.1.now)) result (choice_at limit bytes.now) }
    ensures below { IfOk result (λ x. x.0 < limit) }
{
    match bytes {
        [] => Err(stop(false, 0)),
        [first, rest @ ..] if *first < limit => Ok((*first, rest)),
        [_, ..] => Err(stop(false, bytes.len())),
    }
}

/// A tag below the limit.
#[tactic(auto, unfolding(crate::specs::Readers::tag_at, crate::specs::Readers::one_at))]
pub fn tag_of(limit: u8, bytes: &[u8]) -> Result<(u8, &[u8]), ReadError>
    ensures { Gives (λ x. (x.0, x.1.now)) result (tag_at limit bytes.now) }
{
    match bytes {
        [] => Err(stop(true, 0)),
        [first, rest @ ..] if *first < limit => Ok((*first, rest)),
        [_, ..] => Err(stop(true, bytes.len())),
    }
}

impl Wire for u8 {
    ghost text = { λ b. b ∷ [] };

    ghost at = { byte_at };

    ghost fits = { FitsOne };

    ghost readable = { λ _. true };

    fn put(&self, out: &mut Vec<u8>) -> Result<(), AllocError> {
        out.push(*self)?;
        Ok(())
    }

    #[tactic(auto, unfolding(crate::specs::Readers::byte_at, crate::specs::Readers::one_at))]
    fn get(_: Global, bytes: &[u8]) -> Result<(u8, &[u8]), ReadError> {
        match bytes {
            [] => Err(stop(false, 0)),
            [first, rest @ ..] => Ok((*first, rest)),
        }
    }
}

impl Wire for bool {
    ghost text = { truth };

    ghost at = { truth_at };

    ghost fits = { FitsAlways };

    ghost readable = { λ _. true };

    fn put(&self, out: &mut Vec<u8>) -> Result<(), AllocError> {
        out.push(if *self { 1 } else { 0 })?;
        Ok(())
    }

    #[tactic(auto, unfolding(crate::specs::Readers::truth_at, crate::specs::Readers::map_at))]
    fn get(_: Global, bytes: &[u8]) -> Result<(bool, &[u8]), ReadError> {
        let (flag, rest) = choice_of(2, bytes)?;
        Ok((flag != 0, rest))
    }
}

impl Wire for u32 {
    ghost text = { four };

    ghost at = { four_at };

    ghost fits = { FitsFour };

    ghost readable = { λ _. true };

    #[tactic(auto, unfolding(crate::specs::Spelling::four))]
    fn put(&self, out: &mut Vec<u8>) -> Result<(), AllocError> {
        out.extend_from_slice(&self.to_be_bytes())
    }

    #[tactic(auto, unfolding(crate::specs::Readers::four_at, crate::specs::Readers::number_at))]
    fn get(_: Global, bytes: &[u8]) -> Result<(u32, &[u8]), ReadError> {
        if bytes.len() < 4 {
            return Err(stop(false, 0));
        }
        let (front, rest) = bytes.split_at(4);
        let number = u32::from_be_bytes([front[0], front[1], front[2], front[3]]);
        Ok((number, rest))
    }
}

impl Wire for u64 {
    ghost text = { eight };

    ghost at = { eight_at };

    ghost fits = { FitsEight };

    ghost readable = { λ _. true };

    #[tactic(auto, unfolding(crate::specs::Spelling::eight))]
    fn put(&self, out: &mut Vec<u8>) -> Result<(), AllocError> {
        out.extend_from_slice(&self.to_be_bytes())
    }

    #[tactic(auto, unfolding(crate::specs::Readers::eight_at))]
    fn get(_: Global, bytes: &[u8]) -> Result<(u64, &[u8]), ReadError> {
        match number_in_front(bytes) {
            Some((number, rest)) => Ok((number, rest)),
            None => Err(stop(false, 0)),
        }
    }
}
