//! The lines of scripts, as a node takes them.
ghost use Rattle.std.specs.Prelude.{◌≡◌, ◌<◌, length, slice_get, IfOk, IfSome};
ghost use Rattle.fs_node.specs.Scripts.{AreAskable, CanBeAsked, asked_by, event_by};
ghost use Rattle.fs_server.specs.Step.{CanBeTold};

use fs_ident::{Memory, Twin};
use fs_model::Op;
use fs_schedule::Script;
use fs_server::ServerEvent;
use std::alloc::Global;

/// The operation that the line of this number, from 0, asks for, if there is one.
pub(crate) fn asked_by(alloc: Global, script: &[Script], at: usize) -> Result<Option<Op>, Memory>
    requires { AreAskable script.now }
    ensures op { IfOk result (λ op. op ≡ asked_by (slice_get script.now at)) }
    ensures can { IfOk result (λ op. IfSome op CanBeAsked) }
    ensures there { IfOk result (λ op. IfSome op (λ _. at < length script.now)) }
{
    match script.get(at) {
        Some(Script::Op(op)) => Ok(Some(op.copy(alloc)?)),
        Some(Script::Recall(_) | Script::Move { .. }) | None => Ok(None),
    }
}

/// The server's event that the line of this number, from 0, is, if there is one.
pub(crate) fn event_by(
    alloc: Global,
    script: &[Script],
    at: usize,
) -> Result<Option<ServerEvent>, Memory>
    ensures event { IfOk result (λ e. e ≡ event_by (slice_get script.now at)) }
    ensures told { IfOk result (λ e. IfSome e CanBeTold) }
    ensures there { IfOk result (λ e. IfSome e (λ _. at < length script.now)) }
{
    match script.get(at) {
        Some(Script::Recall(field)) => Ok(Some(ServerEvent::Recall(field.copy(alloc)?))),
        Some(Script::Move { prefix, to }) => Ok(Some(ServerEvent::Move {
            prefix: prefix.copy(alloc)?,
            to: *to,
        })),
        Some(Script::Op(_)) | None => Ok(None),
    }
}
