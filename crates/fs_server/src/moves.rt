//! What a server hands over to another, and what one hands over to it.
ghost use Rattle.std.specs.Prelude.{◌≡◌, Some, IfOk};
ghost use Rattle.std.specs.List.{list_all};
ghost use Rattle.fs_map.specs.Map.{server_of};
ghost use Rattle.fs_msg.specs.declared.server_note.ServerNote.TheVariants as note;
ghost use Rattle.fs_path.specs.Tables.{first_in};
ghost use Rattle.fs_parcel.specs.Parcel.{move_refusal};
ghost use Rattle.fs_server.specs.Decided.{CanDecide, noted_only, stepped_by};
ghost use Rattle.fs_server.specs.Grants.{IsReady};
ghost use Rattle.fs_server.specs.Moves.{fits_here, hands_over, move_at, move_step, parcel_at, refusal_of, was_given};
ghost use Rattle.fs_server.specs.Step.{AreNumbersLeft};

use crate::at_reading::AtReading;
use crate::change::Change;
use crate::decide::{Decided, only, only_noted, strange};
use crate::out::ServerOut;
use crate::path_returns::ask_back;
use fs_field::Row;
use fs_ident::{FileId, List, Memory, Peer, Twin};
use fs_msg::{Msg, PeerMsg, Refusal, ServerNote};
use fs_parcel::{MoveError, fits_at, packed, refusal};
use fs_record::Parcel;
use std::alloc::Global;

/// What the server has below the prefix goes to another, or it is noted why it stays.
pub(crate) fn move_to(
    alloc: Global,
    at: &AtReading<'_>,
    prefix: &FileId,
    to: u8,
) -> Result<Decided, Memory>
    requires { IsReady at.now }
    ensures step { IfOk result (λ d. stepped_by d at.now ≡ move_step prefix.now to at.now) }
    ensures can { IfOk result (λ d. CanDecide d at.now) }
{
    match refused(alloc, at, prefix, to)? {
        Some(why) => stays(alloc, at, prefix, to, why),
        None => hands_over(alloc, at, prefix, to),
    }
}

/// Why it stays.
fn refused(
    alloc: Global,
    at: &AtReading<'_>,
    prefix: &FileId,
    to: u8,
) -> Result<Option<MoveError>, Memory>
    ensures { IfOk result (λ why. why ≡
        move_refusal at.now.records at.now.rows at.now.map at.now.me prefix.now to
        (first_in at.now.map at.now.me prefix.now at.now.paths)) }
{
    let (plain, modes) = at.rows().tables();
    refusal(
        alloc,
        at.records(),
        plain,
        modes,
        at.map(),
        at.me(),
        prefix,
        to,
        at.paths().first_in(prefix, at.map(), at.me()),
    )
}

/// It is noted why it stays. Where paths go over what is to go they are asked back.
fn stays(
    alloc: Global,
    at: &AtReading<'_>,
    prefix: &FileId,
    to: u8,
    why: MoveError,
) -> Result<Decided, Memory>
    requires { IsReady at.now }
    ensures step { IfOk result (λ d.
        stepped_by d at.now ≡ move_at (Some why) prefix.now to at.now) }
    ensures can { IfOk result (λ d. CanDecide d at.now) }
{
    match why {
        MoveError::Paths { no } => ask_back(alloc, at, prefix, no),
        why => Ok(only_stays(alloc, why)),
    }
}

/// It is noted why it stays.
fn only_stays(alloc: Global, why: MoveError) -> Decided
    ensures { result ≡ noted_only (note.Stays (refusal_of why)) }
{
    let refusal = refusal_of(why);
    only_noted(alloc, ServerNote::Stays { refusal })
}

fn refusal_of(why: MoveError) -> Refusal
    ensures { result ≡ refusal_of why }
{
    match why {
        MoveError::NotMine { prefix, to } => Refusal::NotMine { prefix, to },
        MoveError::NoFile | MoveError::Memory => Refusal::NoFile,
        MoveError::Same => Refusal::Same,
        MoveError::Busy { txn } => Refusal::Busy { txn },
        MoveError::Paths { no } => Refusal::Paths { no },
    }
}

/// A copy of all that the server has below the prefix, which it manages, goes to the other.
fn hands_over(alloc: Global, at: &AtReading<'_>, prefix: &FileId, to: u8) -> Result<Decided, Memory>
    requires ready { IsReady at.now }
    requires mine { server_of at.now.map prefix.now ≡ at.now.me }
    ensures step { IfOk result (λ d. stepped_by d at.now ≡ hands_over prefix.now to at.now) }
    ensures can { IfOk result (λ d. CanDecide d at.now) }
{
    let (plain, modes) = at.rows().tables();
    let parcel = packed(alloc, at.records(), plain, modes, at.map(), at.me(), prefix)?;
    let piece = parcel.piece.copy(alloc)?;
    let moved = parcel.records.copy(alloc)?;
    let note = ServerNote::Moves {
        prefix: prefix.copy(alloc)?,
        to,
    };
    let sent = Msg::Peer(PeerMsg::Parcel { parcel });
    Ok(Decided {
        change: Change::Leave { to, piece, moved },
        out: ServerOut {
            note,
            send: only(alloc, (Peer::Server(to), sent))?,
            admitted: List::new(alloc),
        },
    })
}

/// What another server hands over is put in its place, if an honest one sends it.
pub(crate) fn installs(alloc: Global, at: &AtReading<'_>, p: &Parcel) -> Result<Decided, Memory>
    requires ready { IsReady at.now }
    requires told { AreNumbersLeft p.now.records }
    ensures step { IfOk result (λ d.
        stepped_by d at.now ≡ parcel_at (fits_here p.now at.now) p.now at.now) }
    ensures can { IfOk result (λ d. CanDecide d at.now) }
{
    if !fits_here(alloc, at, p)? {
        return Ok(strange(alloc));
    }
    Ok(Decided {
        change: Change::Install {
            parcel: p.copy(alloc)?,
        },
        out: ServerOut {
            note: ServerNote::Installs {
                prefix: p.prefix.copy(alloc)?,
            },
            send: List::new(alloc),
            admitted: List::new(alloc),
        },
    })
}

/// Whether an honest server sends the parcel.
fn fits_here(alloc: Global, at: &AtReading<'_>, p: &Parcel) -> Result<bool, Memory>
    ensures { IfOk result (λ fit. fit ≡ fits_here p.now at.now) }
{
    let (plain, modes) = at.rows().tables();
    let fit = fits_at(alloc, at.records(), plain, modes, at.map(), at.me(), p)?;
    Ok(fit && were_given(at.me(), at.given(), p.rows.as_slice()))
}

/// Whether each row's number of this server was given.
fn were_given(me: u8, given: u64, rows: &[Row]) -> bool
    ensures { result ≡ list_all (was_given me given) rows.now }
{
    rows.iter().all(|row| was_given(me, given, row))
}

fn was_given(me: u8, given: u64, row: &Row) -> bool
    ensures { result ≡ was_given me given row.now }
{
    row.no.server != me || row.no.count >= 1 && row.no.count <= given
}
