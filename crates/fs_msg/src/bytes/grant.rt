//! Grants as bytes.
ghost use Rattle.fs_msg.specs.Spelling.{grant};
ghost use Rattle.fs_msg.specs.Reading.{grant_at};
ghost use Rattle.fs_msg.specs.Ranges.{FitsGrant};
ghost use Rattle.fs_msg.specs.Readable.{is_readable_grant};

use crate::answer::Grant;
use fs_field::{Field, LeaseKind, Value};
use fs_ident::LeaseNo;
use fs_wire::{ReadError, Wire};
use std::alloc::{AllocError, Global};

impl Wire for Grant {
    ghost text = { grant };

    ghost at = { grant_at };

    ghost fits = { FitsGrant };

    ghost readable = { is_readable_grant };

    #[tactic(auto, unfolding(crate::specs::Spelling::grant))]
    fn put(&self, out: &mut Vec<u8>) -> Result<(), AllocError> {
        self.no.put(out)?;
        self.field.put(out)?;
        self.kind.put(out)?;
        self.until.put(out)?;
        self.value.put(out)
    }

    #[tactic(auto, unfolding(crate::specs::Reading::grant_at, fs_wire::specs::Readers::map_at))]
    fn get(alloc: Global, bytes: &[u8]) -> Result<(Grant, &[u8]), ReadError> {
        let ((no, (field, (kind, (until, value)))), rest) = <(
            LeaseNo,
            (Field, (LeaseKind, (u64, Value))),
        )>::get(alloc, bytes)?;
        Ok((
            Grant {
                no,
                field,
                kind,
                until,
                value,
            },
            rest,
        ))
    }
}
