//! Sessions, and the numbers of leases, transactions and path leases.
ghost use Rattle.std.specs.Prelude.{false, true};
ghost use Rattle.fs_wire.specs.Spelling.{session, lease, transaction, path_lease};
ghost use Rattle.fs_wire.specs.Readers.{Gives, one_at};
ghost use Rattle.fs_wire.specs.Reading.{is_session, session_at, lease_at, transaction_at, path_lease_at};
ghost use Rattle.fs_wire.specs.Ranges.{FitsLease, FitsPathLease, FitsSession, FitsTransaction};
ghost use Rattle.fs_wire.specs.Readable.{is_readable_session};

use crate::fault::{ReadError, stop};
use crate::numbers::choice_of;
use crate::wire::Wire;
use fs_ident::{LeaseNo, PathNo, SESSIONS, Session, TxnNo};
use std::alloc::{AllocError, Global};

impl Wire for Session {
    ghost text = { session };

    ghost at = { session_at };

    ghost fits = { FitsSession };

    ghost readable = { is_readable_session };

    #[tactic(auto, unfolding(crate::specs::Spelling::two))]
    fn put(&self, out: &mut Vec<u8>) -> Result<(), AllocError> {
        out.extend_from_slice(&self.0.to_be_bytes())
    }

    #[tactic(auto, unfolding(crate::specs::Reading::session_at, crate::specs::Readers::then_at, crate::specs::Readers::map_at))]
    fn get(_: Global, bytes: &[u8]) -> Result<(Session, &[u8]), ReadError> {
        let (high, rest) = choice_of(4, bytes)?;
        let (low, rest) = low_of(high, rest)?;
        Ok((Session(high as u16 * 256 + low as u16), rest))
    }
}

/// The second byte of a session's number.
#[tactic(auto, unfolding(crate::specs::Readers::one_at))]
fn low_of(high: u8, bytes: &[u8]) -> Result<(u8, &[u8]), ReadError>
    ensures { Gives (λ x. (x.0, x.1.now)) result (one_at false (is_session high) bytes.now) }
{
    match bytes {
        [] => Err(stop(false, 0)),
        [low, rest @ ..] => {
            let number = high as u32 * 256 + *low as u32;
            if number < 1 || number > SESSIONS as u32 {
                return Err(stop(false, bytes.len()));
            }
            Ok((*low, rest))
        }
    }
}

impl Wire for LeaseNo {
    ghost text = { lease };

    ghost at = { lease_at };

    ghost fits = { FitsLease };

    ghost readable = { λ _. true };

    fn put(&self, out: &mut Vec<u8>) -> Result<(), AllocError> {
        out.push(self.server)?;
        self.count.put(out)
    }

    #[tactic(auto, unfolding(crate::specs::Reading::lease_at, crate::specs::Readers::map_at))]
    fn get(alloc: Global, bytes: &[u8]) -> Result<(LeaseNo, &[u8]), ReadError> {
        let ((server, count), rest) = <(u8, u64)>::get(alloc, bytes)?;
        Ok((LeaseNo { server, count }, rest))
    }
}

impl Wire for TxnNo {
    ghost text = { transaction };

    ghost at = { transaction_at };

    ghost fits = { FitsTransaction };

    ghost readable = { λ _. true };

    fn put(&self, out: &mut Vec<u8>) -> Result<(), AllocError> {
        out.push(self.server)?;
        self.count.put(out)
    }

    #[tactic(auto, unfolding(crate::specs::Reading::transaction_at, crate::specs::Readers::map_at))]
    fn get(alloc: Global, bytes: &[u8]) -> Result<(TxnNo, &[u8]), ReadError> {
        let ((server, count), rest) = <(u8, u64)>::get(alloc, bytes)?;
        Ok((TxnNo { server, count }, rest))
    }
}

impl Wire for PathNo {
    ghost text = { path_lease };

    ghost at = { path_lease_at };

    ghost fits = { FitsPathLease };

    ghost readable = { λ _. true };

    fn put(&self, out: &mut Vec<u8>) -> Result<(), AllocError> {
        out.push(self.server)?;
        self.count.put(out)
    }

    #[tactic(auto, unfolding(crate::specs::Reading::path_lease_at, crate::specs::Readers::map_at))]
    fn get(alloc: Global, bytes: &[u8]) -> Result<(PathNo, &[u8]), ReadError> {
        let ((server, count), rest) = <(u8, u64)>::get(alloc, bytes)?;
        Ok((PathNo { server, count }, rest))
    }
}
