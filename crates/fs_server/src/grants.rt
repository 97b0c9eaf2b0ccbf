//! Leases that a question gets, one after another.
ghost use Rattle.std.specs.Prelude.{◌≡◌, ◌^◌, ◌++◌, [], ◌∷◌, OnOk, IsErrOf};
ghost use Rattle.fs_msg.specs.declared.core_error.Counter.{Counter as TheCounter};
ghost use Rattle.fs_msg.specs.declared.core_error.Counter.TheVariants.{Leases};
ghost use Rattle.fs_msg.specs.declared.core_error.CoreError.TheVariants as errors;
ghost use Rattle.fs_moderows.specs.Answer.{given_row};
ghost use Rattle.fs_server.specs.Plan.{AreRows};
ghost use Rattle.fs_server.specs.Asks.{grant_of, with_lease};
ghost use Rattle.fs_server.specs.Grants.{IsLent, IsReady, numbered_grant, with_leases};
ghost use Rattle.fs_server.specs.Server.{end_of};

use crate::at_reading::AtReading;
use fs_field::{Field, LeaseKind, Row};
use fs_ident::{LeaseNo, List, Memory, Session, Twin};
use fs_msg::{CoreError, Counter, Grant};
use std::alloc::Global;

/// The leases that a question got so far: their rows, and what the session is told of each.
#[derive(Drop)]
pub(crate) struct Grants {
    pub(crate) rows: List<Row>,
    pub(crate) grants: List<Grant>,
}

/// One lease more. `Spent` where its number would be above u64::MAX.
pub(crate) fn lend(
    alloc: Global,
    at: &AtReading<'_>,
    by: Session,
    field: &Field,
    kind: LeaseKind,
    promise: Option<bool>,
    lent: &mut Grants,
) -> Result<(), CoreError>
    requires ready { IsReady at.now }
    requires so_far { IsLent by lent.old.rows at.now }
    requires table { AreRows
        (with_lease by field.now kind promise (with_leases lent.old.rows at.now)).rows }
    ensures rows { OnOk result (with_leases lent.new.rows at.now ≡
        with_lease by field.now kind promise (with_leases lent.old.rows at.now)) }
    ensures grants { OnOk result (lent.new.grants ≡ lent.old.grants ++
        grant_of by field.now kind (with_leases lent.old.rows at.now) ∷ []) }
    ensures more { OnOk result (IsLent by lent.new.rows at.now) }
    ensures spent { (counter : TheCounter) → IsErrOf result (errors.Spent counter) →
        (counter ≡ Leases) ×
        ((with_lease by field.now kind promise (with_leases lent.old.rows at.now)).given ≡ 2 ^ 64) }
{
    let given = at.given() + lent.rows.len() as u64;
    if given == u64::MAX {
        return Err(CoreError::Spent {
            counter: Counter::Leases,
        });
    }
    let no = LeaseNo {
        server: at.me(),
        count: given + 1,
    };
    add(alloc, at, by, field, kind, promise, no, lent)?;
    Ok(())
}

/// The lease of this number.
fn add(
    alloc: Global,
    at: &AtReading<'_>,
    by: Session,
    field: &Field,
    kind: LeaseKind,
    promise: Option<bool>,
    no: LeaseNo,
    lent: &mut Grants,
) -> Result<(), Memory>
    requires { IsReady at.now }
    ensures rows { OnOk result (lent.new.rows ≡
        lent.old.rows ++ given_row no by field.now kind (end_of at.now) promise ∷ []) }
    ensures grants { OnOk result (lent.new.grants ≡ lent.old.grants ++
        numbered_grant no by field.now kind at.now ∷ []) }
{
    let until = at.end();
    let value = at.records().value_of(alloc, by, field)?;
    let row = Row {
        no,
        session: by,
        field: field.copy(alloc)?,
        kind,
        until,
        promise,
        lock: None,
    };
    let grant = Grant {
        no,
        field: field.copy(alloc)?,
        kind,
        until,
        value,
    };
    lent.rows.push(row)?;
    lent.grants.push(grant)?;
    Ok(())
}
