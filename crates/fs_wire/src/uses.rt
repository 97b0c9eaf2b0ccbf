//! The leases that an entry used.
ghost use Rattle.std.specs.Prelude.{true};
ghost use Rattle.fs_wire.specs.Spelling.{lease_use};
ghost use Rattle.fs_wire.specs.Reading.{lease_use_at};
ghost use Rattle.fs_wire.specs.Ranges.{FitsUse};

use crate::fault::ReadError;
use crate::wire::Wire;
use fs_field::{Field, LeaseKind, Use};
use fs_ident::LeaseNo;
use std::alloc::{AllocError, Global};

impl Wire for Use {
    ghost text = { lease_use };

    ghost at = { lease_use_at };

    ghost fits = { FitsUse };

    ghost readable = { λ _. true };

    #[tactic(auto, unfolding(crate::specs::Spelling::lease_use))]
    fn put(&self, out: &mut Vec<u8>) -> Result<(), AllocError> {
        self.field.put(out)?;
        self.kind.put(out)?;
        self.no.put(out)?;
        self.until.put(out)
    }

    #[tactic(auto, unfolding(crate::specs::Reading::lease_use_at, crate::specs::Readers::map_at))]
    fn get(alloc: Global, bytes: &[u8]) -> Result<(Use, &[u8]), ReadError> {
        let ((field, (kind, (no, until))), rest) = <(Field, (LeaseKind, (LeaseNo, u64)))>::get(
            alloc, bytes,
        )?;
        Ok((
            Use {
                field,
                kind,
                no,
                until,
            },
            rest,
        ))
    }
}
