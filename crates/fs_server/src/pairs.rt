//! Renewals and releases, pair by pair.
ghost use Rattle.std.specs.Prelude.{◌≡◌, IfOk};
ghost use Rattle.fs_server.specs.Decided.{CanDecide, stepped_by};
ghost use Rattle.fs_server.specs.Grants.{IsReady};
ghost use Rattle.fs_server.specs.Pairs.{end_told, ends_told, numbers_in, pairs_end, pairs_here, release_step, renew_step};

use crate::at_reading::AtReading;
use crate::change::Change;
use crate::decide::{Decided, only, to_session};
use crate::out::ServerOut;
use fs_ident::{FileId, LeaseNo, List, Memory, Session, Twin};
use fs_msg::{Answer, End, ServerNote};
use std::alloc::Global;

/// The session asks for later ends of leases.
pub(crate) fn renew(
    alloc: Global,
    at: &AtReading<'_>,
    by: Session,
    pairs: &List<(FileId, LeaseNo)>,
) -> Result<Decided, Memory>
    requires { IsReady at.now }
    ensures step { IfOk result (λ d. stepped_by d at.now ≡ renew_step by pairs.now at.now) }
    ensures can { IfOk result (λ d. CanDecide d at.now) }
{
    let until = at.end();
    let (numbers, end) = pairs_here(alloc, at, pairs.as_slice())?;
    let rows = ends_told(alloc, at, until, numbers.as_slice())?;
    let note = ServerNote::Renews {
        count: numbers.len() as u64,
        end: end.copy(alloc)?,
    };
    Ok(Decided {
        change: Change::Renew { until, numbers },
        out: ServerOut {
            note,
            send: only(alloc, to_session(by, Answer::Renewed { rows, end }))?,
            admitted: List::new(alloc),
        },
    })
}

/// The session gives leases back.
pub(crate) fn release(
    alloc: Global,
    at: &AtReading<'_>,
    by: Session,
    pairs: &List<(FileId, LeaseNo)>,
) -> Result<Decided, Memory>
    requires { IsReady at.now }
    ensures step { IfOk result (λ d. stepped_by d at.now ≡ release_step by pairs.now at.now) }
    ensures can { IfOk result (λ d. CanDecide d at.now) }
{
    let (numbers, end) = pairs_here(alloc, at, pairs.as_slice())?;
    let count = numbers.len() as u64;
    let note = ServerNote::Frees {
        count,
        end: end.copy(alloc)?,
    };
    Ok(Decided {
        change: Change::Free { numbers },
        out: ServerOut {
            note,
            send: only(alloc, to_session(by, Answer::Released { count, end }))?,
            admitted: List::new(alloc),
        },
    })
}

/// The numbers of the pairs up to the first whose file is with another server, and why no more.
fn pairs_here(
    alloc: Global,
    at: &AtReading<'_>,
    pairs: &[(FileId, LeaseNo)],
) -> Result<(List<LeaseNo>, End), Memory>
    ensures numbers { IfOk result (λ got. got.0 ≡ numbers_in (pairs_here at.now pairs.now)) }
    ensures end { IfOk result (λ got. got.1 ≡ pairs_end at.now pairs.now) }
{
    let mut numbers = List::new(alloc);
    for (file, no) in pairs {
        if !at.is_mine(file) {
            return Ok((numbers, at.moved(alloc, file)?));
        }
        numbers.push(*no)?;
    }
    Ok((numbers, End::All))
}

/// The new ends of the leases; none of one whose row is not there.
fn ends_told(
    alloc: Global,
    at: &AtReading<'_>,
    until: u64,
    numbers: &[LeaseNo],
) -> Result<List<(LeaseNo, Option<u64>)>, Memory>
    ensures { IfOk result (λ told. told ≡ ends_told until numbers.now at.now.rows) }
{
    let mut told = List::new(alloc);
    for no in numbers {
        told.push(end_told(at, until, *no))?;
    }
    Ok(told)
}

fn end_told(at: &AtReading<'_>, until: u64, no: LeaseNo) -> (LeaseNo, Option<u64>)
    ensures { result ≡ end_told until no at.now.rows }
{
    if at.rows().has(no) {
        (no, Some(until))
    } else {
        (no, None)
    }
}
