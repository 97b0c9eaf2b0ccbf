//! Path leases that are asked back and go back.
ghost use Rattle.std.specs.Prelude.{◌≡◌, [], ◌++◌, IfOk, OnOk};
ghost use Rattle.fs_msg.specs.declared.peer_msg.PeerMsg.TheVariants as peer;
ghost use Rattle.fs_msg.specs.declared.refusal.Refusal.TheVariants as refusal;
ghost use Rattle.fs_msg.specs.declared.server_note.ServerNote.TheVariants as note;
ghost use Rattle.fs_server.specs.Decided.{CanDecide, stepped_by};
ghost use Rattle.fs_server.specs.Follows.{to_server};
ghost use Rattle.fs_server.specs.Grants.{IsReady};
ghost use Rattle.fs_server.specs.PathSteps.{asks_back_in, goes_down, is_out_to, path_back, path_recall_step, path_recalls, path_release_step, path_releases, returns_sent};
ghost use Rattle.fs_server.specs.declared.state.Server.{Server as TheServer};

use crate::at_reading::AtReading;
use crate::change::Change;
use crate::decide::{Decided, only, strange};
use crate::follows::to_server;
use crate::out::ServerOut;
use crate::path_change::PathChange;
use fs_ident::{FileId, List, Memory, PathNo, Peer, Twin};
use fs_msg::{Msg, PeerMsg, Refusal, ServerNote};
use fs_path::{GiveBack, Recalled};
use std::alloc::Global;

/// Another server asks a path lease back that it gave out.
pub(crate) fn path_recall(alloc: Global, at: &AtReading<'_>, no: PathNo) -> Result<Decided, Memory>
    requires { IsReady at.now }
    ensures step { IfOk result (λ d. stepped_by d at.now ≡ path_recall_step no at.now) }
    ensures can { IfOk result (λ d. CanDecide d at.now) }
{
    let told = at.paths().recall_of(alloc, no)?;
    Ok(Decided {
        change: Change::Paths {
            change: PathChange::Recall { no },
        },
        out: goes_down(alloc, no, told)?,
    })
}

/// Those that rest on the lease are asked back first; where there are none, it goes back.
fn goes_down(alloc: Global, no: PathNo, told: Recalled) -> Result<ServerOut, Memory>
    ensures { (s : TheServer) →
        IfOk result (λ out. record { server = s; out = out } ≡ goes_down no told s) }
{
    match told {
        Recalled::Release { to } => {
            let send = only(alloc, release_to(to, no))?;
            Ok(sent(alloc, ServerNote::PathFrees { no }, send))
        }
        Recalled::Down(leases) => {
            let count = leases.len() as u64;
            let mut send = List::new(alloc);
            ask_all_back(leases.as_slice(), &mut send)?;
            Ok(sent(alloc, ServerNote::PathDown { no, count }, send))
        }
        Recalled::Unheld => Ok(sent(alloc, ServerNote::PathNone, List::new(alloc))),
    }
}

/// This is noted and sent, and nothing admitted.
fn sent(alloc: Global, note: ServerNote, send: List<(Peer, Msg)>) -> ServerOut
    ensures { result ≡ record { note = note; send = send; admitted = [] } }
{
    ServerOut {
        note,
        send,
        admitted: List::new(alloc),
    }
}

/// Another server gives a path lease back that was given out to it.
pub(crate) fn path_release(
    alloc: Global,
    at: &AtReading<'_>,
    from: u8,
    no: PathNo,
) -> Result<Decided, Memory>
    requires { IsReady at.now }
    ensures step { IfOk result (λ d. stepped_by d at.now ≡ path_release_step from no at.now) }
    ensures can { IfOk result (λ d. CanDecide d at.now) }
{
    if is_out_to(from, at.paths().issued_to(no)) {
        path_back(alloc, at, no)
    } else {
        Ok(strange(alloc))
    }
}

/// Whether it was given out to that server.
fn is_out_to(from: u8, to: Option<u8>) -> bool
    ensures { result ≡ is_out_to from to }
{
    match to {
        None => false,
        Some(to) => to == from,
    }
}

/// It is back, and with it those go back that rested on no other.
fn path_back(alloc: Global, at: &AtReading<'_>, no: PathNo) -> Result<Decided, Memory>
    requires { IsReady at.now }
    ensures step { IfOk result (λ d. stepped_by d at.now ≡ path_back no at.now) }
    ensures can { IfOk result (λ d. CanDecide d at.now) }
{
    let leases = at.paths().releases_with(alloc, no)?;
    let mut send = List::new(alloc);
    give_all_back(leases.as_slice(), &mut send)?;
    Ok(Decided {
        change: Change::Paths {
            change: PathChange::Back { no },
        },
        out: sent(alloc, ServerNote::PathBack { no }, send),
    })
}

/// What is below the prefix stays, since the path of this lease goes over it; all such leases are asked back.
pub(crate) fn ask_back(
    alloc: Global,
    at: &AtReading<'_>,
    prefix: &FileId,
    no: PathNo,
) -> Result<Decided, Memory>
    requires { IsReady at.now }
    ensures step { IfOk result (λ d. stepped_by d at.now ≡
        asks_back_in prefix.now (note.Stays (refusal.Paths no)) at.now) }
    ensures can { IfOk result (λ d. CanDecide d at.now) }
{
    let back = at.paths().back_from(alloc, prefix, at.map(), at.me())?;
    let send = returns_sent(alloc, &back)?;
    let refusal = Refusal::Paths { no };
    Ok(Decided {
        change: Change::Paths {
            change: PathChange::AskBack {
                prefix: prefix.copy(alloc)?,
            },
        },
        out: sent(alloc, ServerNote::Stays { refusal }, send),
    })
}

/// Who is told: first of those that are asked back, then of those that go back.
fn returns_sent(alloc: Global, back: &GiveBack) -> Result<List<(Peer, Msg)>, Memory>
    ensures { IfOk result (λ send. send ≡ returns_sent back.now) }
{
    let mut send = List::new(alloc);
    ask_all_back(back.recalls.as_slice(), &mut send)?;
    give_all_back(back.releases.as_slice(), &mut send)?;
    Ok(send)
}

/// Each of the leases is asked back from its server.
pub(crate) fn ask_all_back(
    leases: &[(u8, PathNo)],
    send: &mut List<(Peer, Msg)>,
) -> Result<(), Memory>
    ensures { OnOk result (send.new ≡ send.old ++ path_recalls leases.now) }
{
    for (to, no) in leases {
        send.push(to_server(*to, PeerMsg::PathRecall { no: *no }))?;
    }
    Ok(())
}

/// Each of the leases goes back to its server.
fn give_all_back(leases: &[(u8, PathNo)], send: &mut List<(Peer, Msg)>) -> Result<(), Memory>
    ensures { OnOk result (send.new ≡ send.old ++ path_releases leases.now) }
{
    for (to, no) in leases {
        send.push(release_to(*to, *no))?;
    }
    Ok(())
}

/// The lease goes back to that server.
pub(crate) fn release_to(to: u8, no: PathNo) -> (Peer, Msg)
    ensures { result ≡ to_server to (peer.PathRelease no) }
{
    to_server(to, PeerMsg::PathRelease { no })
}
