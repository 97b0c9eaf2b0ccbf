//! The handles of a file, in order of session and number.
ghost use Rattle.std.specs.Prelude.{◌≡◌, IfOk};
ghost use Rattle.fs_record.specs.ValueOf.{own_of, others_have, selves_from, selves_of};

use fs_ident::{List, Memory, Session};
use fs_model::Handle;
use fs_modes::{Mode, Modes};
use std::alloc::Global;

/// The session's handles and the modes of each.
#[tactic(auto, using(crate::proofs::HandleSteps::own_step))]
pub fn own(
    alloc: Global,
    handles: &[Handle],
    session: Session,
) -> Result<List<(u32, Modes)>, Memory>
    ensures { IfOk result (λ told. told ≡ own_of session handles.now) }
{
    let mut told = List::new(alloc);
    for x in handles {
        if x.session.0 == session.0 {
            told.push((x.h, x.modes))?;
        }
    }
    Ok(told)
}

/// Whether another session has the mode.
pub fn others_have(handles: &[Handle], session: Session, mode: Mode) -> bool
    ensures { result ≡ others_have session mode handles.now }
{
    handles
        .iter()
        .any(|x| x.session.0 != session.0 && x.modes.has(mode))
}

/// The sessions with handles, each once with what its handles have together, for handles in order of session. `Memory`
/// when out of memory.
pub fn selves(alloc: Global, handles: &[Handle]) -> Result<List<(Session, Modes)>, Memory>
    ensures { IfOk result (λ told. told ≡ selves_of handles.now) }
{
    match handles.split_first() {
        Some((x, rest)) => selves_from(alloc, x.session, x.modes, rest),
        None => Ok(List::new(alloc)),
    }
}

#[tactic(auto, using(crate::proofs::HandleSteps::selves_step))]
fn selves_from(
    alloc: Global,
    session: Session,
    modes: Modes,
    handles: &[Handle],
) -> Result<List<(Session, Modes)>, Memory>
    ensures { IfOk result (λ told. told ≡ selves_from session modes handles.now) }
{
    let mut told = List::new(alloc);
    let mut of = session;
    let mut has = modes;
    for x in handles {
        if x.session.0 == of.0 {
            has = has.or(x.modes);
        } else {
            told.push((of, has))?;
            of = x.session;
            has = x.modes;
        }
    }
    told.push((of, has))?;
    Ok(told)
}
