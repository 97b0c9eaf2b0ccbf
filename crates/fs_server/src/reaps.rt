//! A turn: sessions that let go of the lease on their handles lose these.
ghost use Rattle.std.specs.Prelude.{◌≡◌, ◌+◌, ◌<◌, ◌≤◌, ◌^◌, [], ◌∷◌, ◌++◌, length, not, ◌==◌, true, IfOk, OnOk, IfSome, IsErrOf, Some, unwrap_or};
ghost use Rattle.std.specs.FinMap.{get};
ghost use Rattle.std.specs.List.{filter, position};
ghost use Rattle.fs_field.specs.Table.{no_before};
ghost use Rattle.fs_msg.specs.declared.core_error.Counter.{Counter as TheCounter};
ghost use Rattle.fs_msg.specs.declared.core_error.Counter.TheVariants.{Reaps};
ghost use Rattle.fs_msg.specs.declared.core_error.CoreError.TheVariants as errors;
ghost use Rattle.fs_record.specs.Effects.{reap_effects};
ghost use Rattle.fs_record.specs.Opens.{are_apart};
ghost use Rattle.fs_record.specs.Records.{AreRecords};
ghost use Rattle.fs_record.specs.ValueOf.{selves_in};
ghost use Rattle.fs_server.specs.Decided.{CanDecide, stepped_by};
ghost use Rattle.fs_server.specs.Grants.{IsReady};
ghost use Rattle.fs_server.specs.Lost.{CanLose, reaping_by, turned_by};
ghost use Rattle.fs_server.specs.Reaps.{lapsed_among, lapsed_on, reap_from, reap_item, recalls_for, turn_step, with_blocker};
ghost use Rattle.fs_server.specs.Step.{counter_over};

use crate::at_reading::AtReading;
use crate::change::Change;
use crate::decide::{Decided, only_noted, recall};
use crate::out::ServerOut;
use fs_field::{Effect, Field};
use fs_ident::{FileId, LeaseNo, List, Memory, Peer, Session, Twin};
use fs_model::{Op, Reply};
use fs_modes::Modes;
use fs_msg::{CoreError, Counter, Item, Msg, ServerNote};
use std::alloc::Global;

/// What sessions lost so far: the effects of the reaps, these as items, and the leases in the way of others, in order.
#[derive(Drop)]
pub(crate) struct Lost {
    effects: List<Effect>,
    admitted: List<Item>,
    blockers: List<LeaseNo>,
}

/// Each session with handles on a file and no lease on them loses these, unless a row keeps it from that.
pub(crate) fn turn(alloc: Global, at: &AtReading<'_>) -> Result<Decided, CoreError>
    requires { IsReady at.now }
    ensures step { IfOk result (λ d. stepped_by d at.now ≡ turn_step at.now) }
    ensures can { IfOk result (λ d. CanDecide d at.now) }
    ensures spent { (counter : TheCounter) → IsErrOf result (errors.Spent counter) →
        counter_over (turn_step at.now).server ≡ Some counter }
{
    let files = at.records().open_files(alloc)?;
    let lost = lose_all(alloc, at, files.as_slice())?;
    Ok(told(alloc, at, lost)?)
}

/// The sessions on each of the files, in order.
fn lose_all(alloc: Global, at: &AtReading<'_>, files: &[FileId]) -> Result<Lost, CoreError>
    requires ready { IsReady at.now }
    requires valid { AreRecords at.now.records }
    requires apart { are_apart files.now ≡ true }
    ensures lost { IfOk result (λ l. reaping_by l at.now ≡
        reap_from (lapsed_among at.now files.now) at.now [] []) }
    ensures can { IfOk result (λ l. CanLose l at.now) }
    ensures spent { (counter : TheCounter) → IsErrOf result (errors.Spent counter) →
        (counter ≡ Reaps) ×
        (2 ^ 64 ≤ (reap_from (lapsed_among at.now files.now) at.now [] []).server.reaps) }
{
    let mut lost = Lost {
        effects: List::new(alloc),
        admitted: List::new(alloc),
        blockers: List::new(alloc),
    };
    for file in files {
        lose_on(alloc, at, file, &mut lost)?;
    }
    Ok(lost)
}

/// The sessions on the file, in order.
fn lose_on(
    alloc: Global,
    at: &AtReading<'_>,
    file: &FileId,
    lost: &mut Lost,
) -> Result<(), CoreError>
    requires valid { AreRecords at.now.records }
    requires still { get (reaping_by lost.old at.now).server.records file.now ≡
        get at.now.records file.now }
    requires can { CanLose lost.old at.now }
    ensures lost { OnOk result (reaping_by lost.new at.now ≡
        reap_from (lapsed_on at.now file.now) (reaping_by lost.old at.now).server
        lost.old.admitted lost.old.blockers) }
    ensures can { OnOk result (CanLose lost.new at.now) }
    ensures spent { (counter : TheCounter) → IsErrOf result (errors.Spent counter) →
        (counter ≡ Reaps) ×
        (2 ^ 64 ≤ (reap_from (lapsed_on at.now file.now) (reaping_by lost.old at.now).server
        lost.old.admitted lost.old.blockers).server.reaps) }
{
    let own = Field::Own(file.copy(alloc)?);
    let listed = at.records().selves(alloc, file)?;
    let mut selves = listed.copy(alloc)?;
    for (session, _) in listed.as_slice() {
        if !at.rows().has_on(&own, *session) {
            lose(alloc, at, file, *session, &mut selves, lost)?;
        }
    }
    Ok(())
}

/// The session loses its handles on the file, and is one of `selves` no more, or the lease in the way is noted.
fn lose(
    alloc: Global,
    at: &AtReading<'_>,
    file: &FileId,
    session: Session,
    selves: &mut List<(Session, Modes)>,
    lost: &mut Lost,
) -> Result<(), CoreError>
    requires valid { AreRecords at.now.records }
    requires selves { selves.old ≡
        selves_in (reaping_by lost.old at.now).server.records file.now }
    requires still { reap_effects (reaping_by lost.old at.now).server.records file.now session ≡
        reap_effects at.now.records file.now session }
    requires can { CanLose lost.old at.now }
    ensures lost { OnOk result (reaping_by lost.new at.now ≡
        reap_from ((file.now, session) ∷ []) (reaping_by lost.old at.now).server
        lost.old.admitted lost.old.blockers) }
    ensures selves { OnOk result (selves.new ≡
        selves_in (reaping_by lost.new at.now).server.records file.now) }
    ensures can { OnOk result (CanLose lost.new at.now) }
    ensures spent { (counter : TheCounter) → IsErrOf result (errors.Spent counter) →
        (counter ≡ Reaps) ×
        (2 ^ 64 ≤ (reap_from ((file.now, session) ∷ []) (reaping_by lost.old at.now).server
        lost.old.admitted lost.old.blockers).server.reaps) }
{
    match at.rows().may_reap(selves, session, file) {
        Some(no) => note_blocker(&mut lost.blockers, no)?,
        None => {
            reap(alloc, at, file, session, lost)?;
            retain_others(selves.items_mut(), session);
        }
    }
    Ok(())
}

/// The reap of the session's handles on the file. `Spent` where its number would be above u64::MAX.
fn reap(
    alloc: Global,
    at: &AtReading<'_>,
    file: &FileId,
    session: Session,
    lost: &mut Lost,
) -> Result<(), CoreError>
    requires { CanLose lost.old at.now }
    ensures effects { OnOk result (lost.new.effects ≡
        lost.old.effects ++ reap_effects at.now.records file.now session) }
    ensures admitted { OnOk result (lost.new.admitted ≡ lost.old.admitted ++
        reap_item at.now.me ((at.now.reaps + length lost.old.admitted) + 1) file.now session ∷ []) }
    ensures blockers { OnOk result (lost.new.blockers ≡ lost.old.blockers) }
    ensures can { OnOk result (CanLose lost.new at.now) }
    ensures spent { (counter : TheCounter) → IsErrOf result (errors.Spent counter) →
        (counter ≡ Reaps) × ((at.now.reaps + length lost.old.admitted) + 1 ≡ 2 ^ 64) }
{
    let so_far = at.reaps() + lost.admitted.len() as u64;
    if so_far == u64::MAX {
        return Err(CoreError::Spent {
            counter: Counter::Reaps,
        });
    }
    add_all(
        &mut lost.effects,
        at.records().reap_effects(alloc, file, session)?,
    )?;
    lost.admitted.push(Item {
        by: Peer::Server(at.me()),
        n: so_far + 1,
        op: Op::Reap {
            file: file.copy(alloc)?,
            session,
        },
        reply: Reply::Reaped,
    })?;
    Ok(())
}

/// Adds the effects at the end.
fn add_all(effects: &mut List<Effect>, more: List<Effect>) -> Result<(), Memory>
    ensures { OnOk result (effects.new ≡ effects.old ++ more) }
{
    for e in more.into_vec() {
        effects.push(e)?;
    }
    Ok(())
}

/// Drops the session.
fn retain_others(selves: &mut Vec<(Session, Modes)>, session: Session)
    ensures { selves.new.items ≡ filter (λ e. not (e.0.0 == session.0)) selves.old.items }
{
    selves.retain(|e| e.0.0 != session.0);
}

/// A lease more in the way.
#[tactic(auto, using(fs_ident::proofs::Put::put_at))]
fn note_blocker(blockers: &mut List<LeaseNo>, no: LeaseNo) -> Result<(), Memory>
    ensures { OnOk result (blockers.new ≡ with_blocker no blockers.old) }
{
    let at = place(blockers.as_slice(), no);
    blockers.insert(at, no)
}

/// Where the first greater number stands, or the length.
fn place(blockers: &[LeaseNo], no: LeaseNo) -> usize
    ensures place { result ≡ unwrap_or (position (no_before no) blockers.now)
        (length blockers.now) }
    ensures within { result ≤ length blockers.now }
{
    match first_after(blockers, no) {
        Some(at) => at,
        None => blockers.len(),
    }
}

fn first_after(blockers: &[LeaseNo], no: LeaseNo) -> Option<usize>
    ensures same { result ≡ position (no_before no) blockers.now }
    ensures within { IfSome result (λ at. at < length blockers.now) }
{
    blockers.iter().position(|other| no < *other)
}

/// The leases in the way are asked back, and the reaps are told.
fn told(alloc: Global, at: &AtReading<'_>, lost: Lost) -> Result<Decided, Memory>
    requires ready { IsReady at.now }
    requires can { CanLose lost at.now }
    ensures step { IfOk result (λ d. stepped_by d at.now ≡ turned_by lost at.now) }
    ensures can { IfOk result (λ d. CanDecide d at.now) }
{
    let Lost {
        effects,
        admitted,
        blockers,
    } = lost;
    if admitted.is_empty() && blockers.is_empty() {
        return Ok(only_noted(alloc, ServerNote::Idle));
    }
    let count = admitted.len() as u64;
    Ok(Decided {
        change: Change::Reap { count, effects },
        out: ServerOut {
            note: ServerNote::Reaps { count },
            send: recalls_for(alloc, at, blockers.as_slice())?,
            admitted,
        },
    })
}

/// Each of the leases is asked back from the session of its row.
fn recalls_for(
    alloc: Global,
    at: &AtReading<'_>,
    blockers: &[LeaseNo],
) -> Result<List<(Peer, Msg)>, Memory>
    ensures { IfOk result (λ send. send ≡ recalls_for at.now.rows blockers.now) }
{
    let mut send = List::new(alloc);
    for no in blockers {
        if let Some(row) = at.rows().row(*no) {
            send.push(recall(row.session, *no))?;
        }
    }
    Ok(send)
}
