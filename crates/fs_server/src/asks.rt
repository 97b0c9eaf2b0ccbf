//! A question for leases.
ghost use Rattle.std.specs.Prelude.{◌≡◌, ◌^◌, nat_le, true, [], IfOk, IsErrOf};
ghost use Rattle.fs_msg.specs.declared.core_error.Counter.{Counter as TheCounter};
ghost use Rattle.fs_msg.specs.declared.core_error.Counter.TheVariants.{Leases};
ghost use Rattle.fs_msg.specs.declared.core_error.CoreError.TheVariants as errors;
ghost use Rattle.fs_rows.specs.Granted.{with_rows};
ghost use Rattle.fs_server.specs.Asks.{answer_to, answered, ask_from, ask_step, asked_in, kind_for, recalls_at};
ghost use Rattle.fs_server.specs.Decided.{CanDecide, stepped_by};
ghost use Rattle.fs_server.specs.Grants.{IsLent, IsReady, got_by, lent_by};
ghost use Rattle.fs_server.specs.Plan.{IsNewGift};

use crate::at_reading::AtReading;
use crate::change::Change;
use crate::decide::{Decided, recall, to_session};
use crate::fresh::{Got, ask_fresh};
use crate::grants::{Grants, lend};
use crate::out::ServerOut;
use fs_field::{Asked, Field, LeaseKind};
use fs_ident::{FileId, List, Memory, Peer, Session, Twin};
use fs_msg::{Answer, CoreError, End, Msg, ServerNote};
use std::alloc::Global;

/// The session asks for leases on the fields, in order, and for an identifier below a directory.
pub(crate) fn ask(
    alloc: Global,
    at: &AtReading<'_>,
    by: Session,
    items: &List<(Field, LeaseKind)>,
    dir: &Option<FileId>,
) -> Result<Decided, CoreError>
    requires { IsReady at.now }
    ensures step { IfOk result (λ d. stepped_by d at.now ≡ ask_step by items.now dir.now at.now) }
    ensures can { IfOk result (λ d. CanDecide d at.now) }
    ensures spent { (counter : TheCounter) → IsErrOf result (errors.Spent counter) →
        (counter ≡ Leases) ×
        (nat_le (2 ^ 64) (ask_step by items.now dir.now at.now).server.given ≡ true) }
{
    let (lent, end) = ask_items(alloc, at, by, items.as_slice())?;
    let got = ask_fresh(alloc, at, by, dir, lent, end)?;
    Ok(answered(alloc, at, by, got)?)
}

/// The items in order, up to the first that cannot be given, or whose file is with another server.
fn ask_items(
    alloc: Global,
    at: &AtReading<'_>,
    by: Session,
    items: &[(Field, LeaseKind)],
) -> Result<(Grants, End), CoreError>
    requires ready { IsReady at.now }
    ensures asked { IfOk result (λ got. lent_by got.0 got.1 at.now ≡
        ask_from by items.now at.now []) }
    ensures lent { IfOk result (λ got. IsLent by got.0.rows at.now) }
    ensures recalls { IfOk result (λ got.
        recalls_at got.1 (with_rows got.0.rows at.now.rows) ≡ recalls_at got.1 at.now.rows) }
    ensures spent { (counter : TheCounter) → IsErrOf result (errors.Spent counter) →
        (counter ≡ Leases) ×
        (nat_le (2 ^ 64) (ask_from by items.now at.now []).server.given ≡ true) }
{
    let mut lent = Grants {
        rows: List::new(alloc),
        grants: List::new(alloc),
    };
    for (field, kind) in items {
        if !at.is_mine(field.file()) {
            let end = at.moved(alloc, field.file())?;
            return Ok((lent, end));
        }
        let kind = kind_for(field, *kind);
        match answer_to(alloc, at, by, field, kind)? {
            Asked::Granted { value } => lend(alloc, at, by, field, kind, value, &mut lent)?,
            Asked::Wait { blocker } => return Ok((lent, End::Wait { blocker })),
            Asked::Locked { txn } => return Ok((lent, End::Locked { txn })),
        }
    }
    Ok((lent, End::All))
}

/// The kind of the lease that a session gets on the field.
fn kind_for(field: &Field, kind: LeaseKind) -> LeaseKind
    ensures { result ≡ kind_for field.now kind }
{
    match field {
        Field::Own(_) | Field::SelfW(_, _) => LeaseKind::Exclusive,
        Field::Other(_, _) => LeaseKind::Shared,
        _ => kind,
    }
}

/// The answer to the session's question for such a lease.
fn answer_to(
    alloc: Global,
    at: &AtReading<'_>,
    by: Session,
    field: &Field,
    kind: LeaseKind,
) -> Result<Asked, Memory>
    ensures { IfOk result (λ asked. asked ≡ answer_to by field.now kind at.now) }
{
    match field {
        Field::SelfW(file, m) => {
            let selves = at.records().selves(alloc, file)?;
            Ok(at.rows().answer_self(&selves, by, field, file, *m))
        }
        Field::Other(file, m) => {
            let selves = at.records().selves(alloc, file)?;
            Ok(at.rows().answer_other(&selves, by, field, file, *m))
        }
        _ => Ok(at.rows().answer(by, field, kind)),
    }
}

/// The session is told what it got, and what stands in the way is asked back.
fn answered(alloc: Global, at: &AtReading<'_>, by: Session, got: Got) -> Result<Decided, Memory>
    requires recalls { recalls_at got.end (with_rows got.lent.rows at.now.rows) ≡
        recalls_at got.end at.now.rows }
    requires ready { IsReady (got_by got at.now).server }
    requires gift { IsNewGift got.gift at.now.records }
    ensures step { IfOk result (λ d. stepped_by d at.now ≡ answered by (got_by got at.now)) }
    ensures can { IfOk result (λ d. CanDecide d at.now) }
{
    let Got {
        lent: Grants { rows, grants },
        fresh,
        gift,
        end,
    } = got;
    let note = ServerNote::Grants {
        count: grants.len() as u64,
        end: end.copy(alloc)?,
    };
    let mut send = recalls_at(alloc, at, &end)?;
    send.insert(0, to_session(by, Answer::Granted { grants, fresh, end }))?;
    Ok(Decided {
        change: Change::Grant { rows, gift },
        out: ServerOut {
            note,
            send,
            admitted: List::new(alloc),
        },
    })
}

/// What stands in the way is asked back.
fn recalls_at(alloc: Global, at: &AtReading<'_>, end: &End) -> Result<List<(Peer, Msg)>, Memory>
    ensures { IfOk result (λ send. send ≡ recalls_at end.now at.now.rows) }
{
    let mut send = List::new(alloc);
    if let End::Wait { blocker } = end {
        if let Some(row) = at.rows().row(*blocker) {
            send.push(recall(row.session, *blocker))?;
        }
    }
    Ok(send)
}
