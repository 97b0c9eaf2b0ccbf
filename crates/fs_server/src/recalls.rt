//! Leases on a field that are asked back.
ghost use Rattle.std.specs.Prelude.{◌≡◌, IfOk};
ghost use Rattle.fs_server.specs.Decided.{CanDecide, stepped_by};
ghost use Rattle.fs_server.specs.Grants.{IsReady};
ghost use Rattle.fs_server.specs.Step.{recall_step, recalled_on, recalls_of};

use crate::at_reading::AtReading;
use crate::change::Change;
use crate::decide::{Decided, recall};
use crate::out::ServerOut;
use fs_field::Field;
use fs_ident::{LeaseNo, List, Memory, Peer, Session};
use fs_msg::{Msg, ServerNote};
use std::alloc::Global;

/// The leases on the field whose rows no transaction keeps are asked back.
pub(crate) fn recall_all(
    alloc: Global,
    at: &AtReading<'_>,
    field: &Field,
) -> Result<Decided, Memory>
    requires { IsReady at.now }
    ensures step { IfOk result (λ d. stepped_by d at.now ≡ recall_step field.now at.now) }
    ensures can { IfOk result (λ d. CanDecide d at.now) }
{
    let leases = recalled_on(alloc, at, field)?;
    Ok(Decided {
        change: Change::Nothing,
        out: ServerOut {
            note: ServerNote::Recalls {
                count: leases.len() as u64,
            },
            send: recalls_of(alloc, leases.as_slice())?,
            admitted: List::new(alloc),
        },
    })
}

/// The leases on the field whose rows no transaction keeps; a field that is with another server has none.
fn recalled_on(
    alloc: Global,
    at: &AtReading<'_>,
    field: &Field,
) -> Result<List<(LeaseNo, Session)>, Memory>
    ensures { IfOk result (λ leases. leases ≡ recalled_on field.now at.now) }
{
    if at.is_mine(field.file()) {
        at.rows().unlocked_on(alloc, field)
    } else {
        Ok(List::new(alloc))
    }
}

/// Each of the leases is asked back from its session.
fn recalls_of(alloc: Global, leases: &[(LeaseNo, Session)]) -> Result<List<(Peer, Msg)>, Memory>
    ensures { IfOk result (λ send. send ≡ recalls_of leases.now) }
{
    let mut send = List::new(alloc);
    for (no, session) in leases {
        send.push(recall(*session, *no))?;
    }
    Ok(send)
}
