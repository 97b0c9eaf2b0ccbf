//! The handles of a file, in order of session and number.
ghost use Rattle.std.specs.Prelude.{◌≡◌, ◌<◌, ◌≤◌, length, unwrap_or, IsTrue, IfSome, OnOk, OnErr};
ghost use Rattle.std.specs.List.{position};
ghost use Rattle.fs_model.specs.Handles.{is_at, comes_before, handles_are_in_order, handle_at, with_handle, without_handle, without_session, any_conflicts, any_denies_delete};

use crate::node::Handle;
use fs_ident::{List, Memory, Session};
use fs_modes::Modes;

/// The modes of the session's handle of that number.
#[tactic(auto, using(crate::proofs::HandleOrder::handle_there, crate::proofs::HandleOrder::handle_absent))]
pub fn find(handles: &[Handle], session: Session, h: u32) -> Option<Modes>
    ensures { result ≡ handle_at handles.now session h }
{
    match first_at(handles, session, h) {
        Some(at) => Some(handles[at].modes),
        None => None,
    }
}

fn first_at(handles: &[Handle], session: Session, h: u32) -> Option<usize>
    ensures same { result ≡ position (is_at session h) handles.now }
    ensures within { IfSome result (λ at. at < length handles.now) }
{
    handles
        .iter()
        .position(|x| x.session.0 == session.0 && x.h == h)
}

/// Whether some handle, of any session, conflicts with the modes.
pub fn any_conflicts(handles: &[Handle], modes: Modes) -> bool
    ensures { result ≡ any_conflicts handles.now modes }
{
    handles.iter().any(|x| x.modes.conflicts(modes))
}

/// Whether some handle denies others to delete or to move the file.
pub fn any_denies_delete(handles: &[Handle]) -> bool
    ensures { result ≡ any_denies_delete handles.now }
{
    handles.iter().any(|x| x.modes.deny_d)
}

/// By session, and then by number.
pub fn comes_before(a: Handle, b: Handle) -> bool
    ensures { result ≡ comes_before a b }
{
    a.session.0 < b.session.0 || a.session.0 == b.session.0 && a.h < b.h
}

/// The place of the first handle that comes after this one, or the end.
fn place(handles: &[Handle], new: Handle) -> usize
    ensures place { result ≡ unwrap_or (position (comes_before new) handles.now)
        (length handles.now) }
    ensures within { result ≤ length handles.now }
{
    match first_after(handles, new) {
        Some(at) => at,
        None => handles.len(),
    }
}

fn first_after(handles: &[Handle], new: Handle) -> Option<usize>
    ensures same { result ≡ position (comes_before new) handles.now }
    ensures within { IfSome result (λ at. at < length handles.now) }
{
    handles.iter().position(|x| comes_before(new, *x))
}

/// Adds a handle in its place.
#[tactic(auto, using(fs_ident::proofs::Put::put_at))]
pub fn add(handles: &mut List<Handle>, new: Handle) -> Result<(), Memory>
    ensures ok { OnOk result (handles.new ≡ with_handle handles.old new) }
    ensures err { OnErr result (handles.new ≡ handles.old) }
{
    let at = place(handles.as_slice(), new);
    handles.insert(at, new)
}

/// Lets the session have this open under its number, in place of what it had under it.
#[tactic(auto, using(crate::proofs::HandleOrder::reopen_at, crate::proofs::HandleOrder::reopen_new))]
pub fn reopen(handles: &mut List<Handle>, new: Handle) -> Result<(), Memory>
    requires { IsTrue (handles_are_in_order handles.old) }
    ensures ok { OnOk result (handles.new ≡
        with_handle (without_handle handles.old new.session new.h) new) }
    ensures err { OnErr result (handles.new ≡ handles.old) }
{
    match first_at(handles.as_slice(), new.session, new.h) {
        Some(at) => {
            handles.replace(at, new);
            Ok(())
        }
        None => add(handles, new),
    }
}

/// Takes away the session's handle of that number.
pub fn close(handles: &mut List<Handle>, session: Session, h: u32)
    ensures { handles.new ≡ without_handle handles.old session h }
{
    keep_others(handles.items_mut(), session, h);
}

fn keep_others(handles: &mut Vec<Handle>, session: Session, h: u32)
    ensures { handles.new.items ≡ without_handle handles.old.items session h }
{
    handles.retain(|x| !(x.session.0 == session.0 && x.h == h));
}

/// Takes away every handle of the session.
pub fn reap(handles: &mut List<Handle>, session: Session)
    ensures { handles.new ≡ without_session handles.old session }
{
    keep_other_sessions(handles.items_mut(), session);
}

fn keep_other_sessions(handles: &mut Vec<Handle>, session: Session)
    ensures { handles.new.items ≡ without_session handles.old.items session }
{
    handles.retain(|x| x.session.0 != session.0);
}
