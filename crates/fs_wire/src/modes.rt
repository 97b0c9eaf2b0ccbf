//! Kinds and modes.
ghost use Rattle.std.specs.Prelude.{[], false, true};
ghost use Rattle.fs_modes.specs.Modes.{has_access};
ghost use Rattle.fs_wire.specs.Spelling.{kind, lease_kind, mode, modes};
ghost use Rattle.fs_wire.specs.Readers.{Gives, one_at};
ghost use Rattle.fs_wire.specs.Reading.{kind_at, lease_kind_at, mode_at, modes_at, is_modes_byte};
ghost use Rattle.fs_wire.specs.Ranges.{FitsAlways, FitsModes};

use crate::fault::{ReadError, stop};
use crate::numbers::choice_of;
use crate::wire::Wire;
use fs_field::LeaseKind;
use fs_ident::Kind;
use fs_modes::{Mode, Modes};
use std::alloc::{AllocError, Global};

impl Wire for Kind {
    ghost text = { kind };

    ghost at = { kind_at };

    ghost fits = { FitsAlways };

    ghost readable = { λ _. true };

    fn put(&self, out: &mut Vec<u8>) -> Result<(), AllocError> {
        match self {
            Kind::File => out.push(0)?,
            Kind::Dir => out.push(1)?,
        }
        Ok(())
    }

    #[tactic(auto, unfolding(crate::specs::Reading::kind_at, crate::specs::Readers::map_at))]
    fn get(_: Global, bytes: &[u8]) -> Result<(Kind, &[u8]), ReadError> {
        let (flag, rest) = choice_of(2, bytes)?;
        match flag {
            0 => Ok((Kind::File, rest)),
            _ => Ok((Kind::Dir, rest)),
        }
    }
}

impl Wire for LeaseKind {
    ghost text = { lease_kind };

    ghost at = { lease_kind_at };

    ghost fits = { FitsAlways };

    ghost readable = { λ _. true };

    fn put(&self, out: &mut Vec<u8>) -> Result<(), AllocError> {
        match self {
            LeaseKind::Shared => out.push(0)?,
            LeaseKind::Exclusive => out.push(1)?,
        }
        Ok(())
    }

    #[tactic(auto, unfolding(crate::specs::Reading::lease_kind_at, crate::specs::Readers::map_at))]
    fn get(_: Global, bytes: &[u8]) -> Result<(LeaseKind, &[u8]), ReadError> {
        let (flag, rest) = choice_of(2, bytes)?;
        match flag {
            0 => Ok((LeaseKind::Shared, rest)),
            _ => Ok((LeaseKind::Exclusive, rest)),
        }
    }
}

impl Wire for Mode {
    ghost text = { mode };

    ghost at = { mode_at };

    ghost fits = { FitsAlways };

    ghost readable = { λ _. true };

    fn put(&self, out: &mut Vec<u8>) -> Result<(), AllocError> {
        match self {
            Mode::AccR => out.push(0)?,
            Mode::AccW => out.push(1)?,
            Mode::AccD => out.push(2)?,
            Mode::DenyR => out.push(3)?,
            Mode::DenyW => out.push(4)?,
            Mode::DenyD => out.push(5)?,
        }
        Ok(())
    }

    #[tactic(auto, unfolding(crate::specs::Reading::mode_at, crate::specs::Readers::map_at))]
    fn get(_: Global, bytes: &[u8]) -> Result<(Mode, &[u8]), ReadError> {
        let (place, rest) = choice_of(6, bytes)?;
        match place {
            0 => Ok((Mode::AccR, rest)),
            1 => Ok((Mode::AccW, rest)),
            2 => Ok((Mode::AccD, rest)),
            3 => Ok((Mode::DenyR, rest)),
            4 => Ok((Mode::DenyW, rest)),
            _ => Ok((Mode::DenyD, rest)),
        }
    }
}

/// The modes of a handle: they have an access.
impl Wire for Modes {
    ghost text = { modes };

    ghost at = { modes_at };

    ghost fits = { FitsModes };

    ghost readable = { has_access };

    #[tactic(auto, unfolding(crate::specs::Spelling::modes))]
    fn put(&self, out: &mut Vec<u8>) -> Result<(), AllocError> {
        out.push(self.acc() + self.deny() * 8)?;
        Ok(())
    }

    #[tactic(auto, unfolding(crate::specs::Reading::modes_at, crate::specs::Readers::map_at))]
    fn get(_: Global, bytes: &[u8]) -> Result<(Modes, &[u8]), ReadError> {
        let (b, rest) = modes_byte_of(bytes)?;
        let modes = Modes {
            acc_r: b % 2 == 1,
            acc_w: b / 2 % 2 == 1,
            acc_d: b / 4 % 2 == 1,
            deny_r: b / 8 % 2 == 1,
            deny_w: b / 16 % 2 == 1,
            deny_d: b / 32 % 2 == 1,
        };
        Ok((modes, rest))
    }
}

/// A byte of six bits, with an access among them.
#[tactic(auto, unfolding(crate::specs::Readers::one_at))]
fn modes_byte_of(bytes: &[u8]) -> Result<(u8, &[u8]), ReadError>
    ensures { Gives (λ x. (x.0, x.1.now)) result (one_at false is_modes_byte bytes.now) }
{
    match bytes {
        [] => Err(stop(false, 0)),
        [first, rest @ ..] if *first < 64 && *first % 8 != 0 => Ok((*first, rest)),
        [_, ..] => Err(stop(false, bytes.len())),
    }
}
