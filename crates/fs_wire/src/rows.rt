//! The leases that a server gave.
ghost use Rattle.std.specs.Prelude.{◌≡◌, ◌++◌, OnOk};
ghost use Rattle.fs_wire.specs.Spelling.{eight, truth, option, transaction, row};
ghost use Rattle.fs_wire.specs.Reading.{row_at};
ghost use Rattle.fs_wire.specs.Ranges.{FitsEight, FitsOption, FitsTransaction, FitsRow};
ghost use Rattle.fs_wire.specs.Readable.{is_readable_row};

use crate::fault::ReadError;
use crate::wire::Wire;
use fs_field::{Field, LeaseKind, Row};
use fs_ident::{LeaseNo, Session, TxnNo};
use std::alloc::{AllocError, Global};

impl Wire for Row {
    ghost text = { row };

    ghost at = { row_at };

    ghost fits = { FitsRow };

    ghost readable = { is_readable_row };

    #[tactic(auto, unfolding(crate::specs::Spelling::row))]
    fn put(&self, out: &mut Vec<u8>) -> Result<(), AllocError> {
        self.no.put(out)?;
        self.session.put(out)?;
        self.field.put(out)?;
        self.kind.put(out)?;
        put_state(self, out)
    }

    #[tactic(auto, unfolding(crate::specs::Reading::row_at, crate::specs::Readers::map_at))]
    fn get(alloc: Global, bytes: &[u8]) -> Result<(Row, &[u8]), ReadError> {
        let (x, rest) = <(
            LeaseNo,
            (
                Session,
                (Field, (LeaseKind, (u64, (Option<bool>, Option<TxnNo>)))),
            ),
        )>::get(alloc, bytes)?;
        let (no, (session, (field, (kind, (until, (promise, lock)))))) = x;
        let row = Row {
            no,
            session,
            field,
            kind,
            until,
            promise,
            lock,
        };
        Ok((row, rest))
    }
}

/// Adds what may change while the row stands: its end, the truth that was told and the transaction.
#[tactic(auto, using(crate::proofs::Readable::always_option))]
fn put_state(r: &Row, out: &mut Vec<u8>) -> Result<(), AllocError>
    ensures text { OnOk result (out.new.items ≡ out.old.items ++
        (eight r.now.until ++ (option truth r.now.promise ++ option transaction r.now.lock))) }
    ensures fits { OnOk result (FitsEight r.now.until × FitsOption FitsTransaction r.now.lock) }
{
    r.until.put(out)?;
    r.promise.put(out)?;
    r.lock.put(out)
}
