//! What an event changes is carried out: all of it, or nothing.
ghost use Rattle.std.specs.Prelude.{◌≡◌, ◌+◌, ◌<◌, ◌^◌, ◌++◌, [], ◌∷◌, length, true, option_map, vec_capacity, vec_len, if◌then◌else◌, IfOk, OnOk, OnErr};
ghost use Rattle.std.specs.List.{filter, list_all};
ghost use Rattle.fs_field.specs.Table.{is_live};
ghost use Rattle.fs_map.specs.Lists.{map_after_take};
ghost use Rattle.fs_map.specs.Map.{IsPiece};
ghost use Rattle.fs_parcel.specs.Parcel.{fits};
ghost use Rattle.fs_path.specs.Tables.{with_all_frozen};
ghost use Rattle.fs_record.specs.Applied.{is_undoable, records_after_all, takes_away};
ghost use Rattle.fs_record.specs.Moving.{AreNumbersLeft, records_given, records_left, with_records};
ghost use Rattle.fs_rows.specs.Granted.{with_rows};
ghost use Rattle.fs_rows.specs.Moving.{rows_left};
ghost use Rattle.fs_server.specs.Pairs.{released_rows, renewed_rows};
ghost use Rattle.fs_server.specs.Counts.{done_with};
ghost use Rattle.fs_server.specs.Follows.{paths_freed, paths_kept, paths_left_by};
ghost use Rattle.fs_server.specs.Gathered.{begun_at, keeping};
ghost use Rattle.fs_server.specs.Plan.{AreRows, CanChange, CanEnd, IsNewGift, after_gift, changed};
ghost use Rattle.fs_server.specs.declared.change.Change.TheVariants as change;
ghost use Rattle.fs_server.specs.Grants.{IsReady};
ghost use Rattle.fs_server.specs.Server.{begun};
ghost use Rattle.fs_txn.specs.Leading.{ending_of, with_ending, with_leading, without_done, without_leading};
ghost use Rattle.fs_txn.specs.Locks.{rows_unlocked};
ghost use Rattle.fs_txn.specs.Preparing.{rows_locked};
ghost use Rattle.fs_txn.specs.Ready.{rows_left_by, without_prepared};

use crate::all_rows::AllRows;
use crate::change::{Change, Then};
use crate::path_changes::change_paths;
use crate::state::Server;
use fs_field::{Effect, Part, Row, Use};
use fs_ident::{FileId, LeaseNo, List, Memory, Twin, TxnNo};
use fs_map::MapPiece;
use fs_path::Paths;
use fs_record::{Parcel, Record, Records};
use fs_txn::{
    Ending, Leading, Ready, drop_leading, drop_prepared, find_ending, is_awaited, keep_ending,
    put_ending, put_leading,
};
use std::alloc::Global;

/// The rows that are over at the reading are dropped, and the change is carried out.
pub(crate) fn commit(
    alloc: Global,
    server: &mut Server,
    now: u64,
    change: Change,
) -> Result<(), Memory>
    requires can { CanChange change (begun now server.old) }
    requires ready { IsReady (changed change (begun now server.old)) }
    ensures ok { OnOk result (server.new ≡ changed change (begun now server.old)) }
    ensures err { OnErr result (server.new ≡ server.old) }
{
    let reading = server.last.max(now);
    match change {
        Change::Nothing => server.rows.lapse(reading, server.skew),
        Change::Grant { rows, gift } => grant(alloc, server, reading, rows, gift)?,
        Change::Renew { until, numbers } => {
            server.rows.lapse(reading, server.skew);
            renew_all(&mut server.rows, until, numbers.as_slice());
        }
        Change::Free { numbers } => {
            server.rows.lapse(reading, server.skew);
            release_all(&mut server.rows, numbers.as_slice());
        }
        Change::Admit { effects } => {
            server.records.apply_all(alloc, &effects)?;
            server.rows.lapse(reading, server.skew);
        }
        Change::Reap { count, effects } => {
            server.records.apply_all(alloc, &effects)?;
            server.rows.lapse(reading, server.skew);
            server.reaps += count;
        }
        Change::Lead {
            begins,
            txn,
            uses,
            files,
            then,
        } => {
            let (uses, files) = (uses.as_slice(), files.as_slice());
            return lead(alloc, server, reading, begins, txn, uses, files, then);
        }
        Change::Done { txn, number } => return done(alloc, server, reading, txn, number),
        Change::Prepare { ready } => prepare(alloc, server, reading, &ready)?,
        Change::Decide {
            txn,
            number,
            effects,
            removals,
        } => {
            let gone = removals.as_slice();
            decide(alloc, server, reading, txn, number, &effects, gone)?;
        }
        Change::Leave { to, piece, moved } => leave(alloc, server, reading, to, &piece, &moved)?,
        Change::Install { parcel } => install(alloc, server, reading, parcel)?,
        Change::Paths { change } => return change_paths(alloc, server, reading, change),
    }
    server.last = reading;
    Ok(())
}

/// The leases are given, and the directory's number with them.
fn grant(
    alloc: Global,
    server: &mut Server,
    reading: u64,
    rows: List<Row>,
    gift: Option<(FileId, u32)>,
) -> Result<(), Memory>
    requires table { AreRows
        (with_rows rows (filter (is_live reading server.old.skew) server.old.rows)) }
    requires given { server.old.given + length rows < 2 ^ 64 }
    requires gift { IsNewGift gift server.old.records }
    ensures ok { OnOk result (server.new ≡ record server.old {
      given = server.old.given + length rows;
      rows = with_rows rows (filter (is_live reading server.old.skew) server.old.rows);
      records = after_gift gift server.old.records;
    }) }
    ensures err { OnErr result (server.new ≡ server.old) }
{
    let count = rows.len() as u64;
    server.rows.grant_all(alloc, reading, server.skew, rows)?;
    server.given += count;
    give_number(&mut server.records, gift);
    Ok(())
}

/// The directory's next number rises above the one that it gave.
fn give_number(records: &mut Records, gift: Option<(FileId, u32)>)
    requires { IsNewGift gift records.old }
    ensures { records.new ≡ after_gift gift records.old }
{
    if let Some((dir, k)) = gift {
        records.gift(&dir, k);
    }
}

/// A transaction goes on, and keeps the rows of these leases and these files; where it begins, its number is used up.
fn lead(
    alloc: Global,
    server: &mut Server,
    reading: u64,
    begins: bool,
    txn: TxnNo,
    uses: &[Use],
    files: &[FileId],
    rest: Then,
) -> Result<(), Memory>
    requires can { CanEnd rest }
    requires few { begins ≡ true → server.old.txns + 1 < 2 ^ 64 }
    ensures ok { OnOk result (server.new ≡
        changed (change.Lead begins txn uses.now files.now rest) (begun_at reading server.old)) }
    ensures err { OnErr result (server.new ≡ server.old) }
{
    match rest {
        Then::Waits { leading } => {
            let waiting = server.leading.items_mut();
            wait(alloc, waiting, &mut server.paths, txn, files, leading)?;
            keep(server, reading, begins, txn, uses);
            Ok(())
        }
        Then::Ends {
            effects,
            removals,
            ending,
            keeps,
        } => {
            let gone = removals.as_slice();
            end(
                alloc,
                &mut server.records,
                server.ending.items_mut(),
                &effects,
                gone,
                ending,
            )?;
            keep(server, reading, begins, txn, uses);
            free(server, txn, keeps);
            Ok(())
        }
    }
}

/// Votes on it are awaited, and it keeps these files.
fn wait(
    alloc: Global,
    leading: &mut Vec<Leading>,
    paths: &mut Paths,
    txn: TxnNo,
    files: &[FileId],
    l: Leading,
) -> Result<(), Memory>
    ensures leading { OnOk result (leading.new.items ≡ with_leading l leading.old.items) }
    ensures paths { OnOk result (paths.new ≡
        record paths.old { frozen = with_all_frozen txn files.now paths.old.frozen }) }
    ensures err_leading { OnErr result (leading.new.items ≡ leading.old.items) }
    ensures err_paths { OnErr result (paths.new ≡ paths.old) }
{
    leading.reserve(1)?;
    paths.freeze_all(alloc, files, txn)?;
    put_leading(leading, l);
    Ok(())
}

/// No vote on it is awaited any more. It keeps no file, those of parts that said Yes just now not even put there, and no row unless it
/// keeps its rows.
fn free(server: &mut Server, txn: TxnNo, keeps: bool)
    ensures { server.new ≡ record server.old {
      rows = if keeps then server.old.rows else rows_unlocked txn server.old.rows;
      leading = without_leading txn server.old.leading;
      paths = paths_freed txn server.old.paths;
    } }
{
    drop_leading(server.leading.items_mut(), txn);
    server.paths.thaw(txn);
    if !keeps {
        server.rows.unlock(txn);
    }
}

/// Its effects are applied, and it is kept where others have to tell that all is done.
fn end(
    alloc: Global,
    records: &mut Records,
    ending: &mut Vec<Ending>,
    effects: &List<Effect>,
    gone: &[Effect],
    x: Ending,
) -> Result<(), Memory>
    requires effects { list_all is_undoable effects.now ≡ true }
    requires gone { list_all takes_away gone.now ≡ true }
    ensures records { OnOk result (records.new ≡
        records_after_all (records_after_all records.old effects.now) gone.now) }
    ensures ending { OnOk result (ending.new.items ≡ with_ending x ending.old.items) }
    ensures err_records { OnErr result (records.new ≡ records.old) }
    ensures err_ending { OnErr result (ending.new.items ≡ ending.old.items) }
{
    ending.reserve(1)?;
    records.apply_all(alloc, effects)?;
    take_all_away(records, gone);
    put_ending(ending, x);
    Ok(())
}

/// The rows of these leases are locked.
fn keep(server: &mut Server, reading: u64, begins: bool, txn: TxnNo, uses: &[Use])
    requires { begins ≡ true → server.old.txns + 1 < 2 ^ 64 }
    ensures { server.new ≡ keeping begins txn uses.now [] (begun_at reading server.old) }
{
    server.rows.lapse(reading, server.skew);
    lock_all(&mut server.rows, txn, uses);
    if begins {
        server.txns += 1;
    }
    server.last = reading;
}

/// The part of this number is done; with the last one the transaction's rows are unlocked.
fn done(
    alloc: Global,
    server: &mut Server,
    reading: u64,
    txn: TxnNo,
    number: u8,
) -> Result<(), Memory>
    ensures ok { OnOk result (server.new ≡
        changed (change.Done txn number) (begun_at reading server.old)) }
    ensures err { OnErr result (server.new ≡ server.old) }
{
    if let Some(x) = left_of(alloc, server.ending.as_slice(), txn, number)? {
        return finish(server, reading, x);
    }
    server.rows.lapse(reading, server.skew);
    server.last = reading;
    Ok(())
}

/// The transaction of this number without the part.
fn left_of(
    alloc: Global,
    ending: &[Ending],
    txn: TxnNo,
    number: u8,
) -> Result<Option<Ending>, Memory>
    ensures { IfOk result (λ x. x ≡ option_map (without_done number) (ending_of txn ending.now)) }
{
    match find_ending(ending, txn) {
        Some(x) => {
            let mut left = x.copy(alloc)?;
            left.forget(number);
            Ok(Some(left))
        }
        None => Ok(None),
    }
}

/// This is left of it.
fn finish(server: &mut Server, reading: u64, x: Ending) -> Result<(), Memory>
    ensures ok { OnOk result (server.new ≡
        (done_with x x.awaits (begun_at reading server.old)).server) }
    ensures err { OnErr result (server.new ≡ server.old) }
{
    let txn = x.txn;
    let is_over = x.awaits.is_empty();
    keep_ending(server.ending.items_mut(), x)?;
    server.rows.lapse(reading, server.skew);
    if is_over {
        server.rows.unlock(txn);
    }
    server.last = reading;
    Ok(())
}

/// The part waits for its decision, its rows are locked, and its file is kept.
fn prepare(alloc: Global, server: &mut Server, reading: u64, ready: &Ready) -> Result<(), Memory>
    ensures ok { OnOk result (server.new ≡ record server.old {
      rows = rows_locked ready.now.txn ready.now.part.uses
          (filter (is_live reading server.old.skew) server.old.rows);
      prepared = server.old.prepared ++ ready.now ∷ [];
      paths = paths_kept ready.now.txn ready.now.part.freeze server.old.paths;
    }) }
    ensures err { OnErr result (server.new ≡ server.old) }
{
    let prepared = server.prepared.items_mut();
    put_ready(alloc, prepared, &mut server.paths, ready)?;
    server.rows.lapse(reading, server.skew);
    lock_all(&mut server.rows, ready.txn, ready.part.uses.as_slice());
    Ok(())
}

/// The part waits behind the others, and its file is kept.
fn put_ready(
    alloc: Global,
    prepared: &mut Vec<Ready>,
    paths: &mut Paths,
    ready: &Ready,
) -> Result<(), Memory>
    ensures prepared { OnOk result (prepared.new.items ≡ prepared.old.items ++ ready.now ∷ []) }
    ensures paths { OnOk result (paths.new ≡
        paths_kept ready.now.txn ready.now.part.freeze paths.old) }
    ensures err_prepared { OnErr result (prepared.new.items ≡ prepared.old.items) }
    ensures err_paths { OnErr result (paths.new ≡ paths.old) }
{
    let ready = ready.copy(alloc)?;
    prepared.reserve(1)?;
    keep_file(alloc, paths, ready.txn, &ready.part)?;
    put_within(prepared, ready);
    Ok(())
}

/// The transaction keeps the file that the part names, if there is one.
fn keep_file(alloc: Global, paths: &mut Paths, txn: TxnNo, part: &Part) -> Result<(), Memory>
    ensures ok { OnOk result (paths.new ≡ paths_kept txn part.now.freeze paths.old) }
    ensures err { OnErr result (paths.new ≡ paths.old) }
{
    match &part.freeze {
        Some(file) => paths.freeze(alloc, file, txn),
        None => Ok(()),
    }
}

/// Puts the part behind the others, where there is room for it.
fn put_within(prepared: &mut Vec<Ready>, ready: Ready)
    requires { vec_len prepared.old < vec_capacity prepared.old }
    ensures { prepared.new.items ≡ prepared.old.items ++ ready ∷ [] }
{
    match prepared.push(ready) {
        Ok(()) => {}
        Err(_) => unreachable!(),
    }
}

/// The transaction keeps the rows of these leases, but for those that another one keeps.
fn lock_all(rows: &mut AllRows, txn: TxnNo, uses: &[Use])
    ensures { rows.new ≡ rows_locked txn uses.now rows.old }
{
    for used in uses {
        rows.lock(used.no, txn);
    }
}

/// The part of this number waits no more, and its effects are applied.
fn decide(
    alloc: Global,
    server: &mut Server,
    reading: u64,
    txn: TxnNo,
    number: u8,
    effects: &List<Effect>,
    gone: &[Effect],
) -> Result<(), Memory>
    requires effects { list_all is_undoable effects.now ≡ true }
    requires gone { list_all takes_away gone.now ≡ true }
    ensures ok { OnOk result (server.new ≡ record server.old {
      records = records_after_all (records_after_all server.old.records effects.now) gone.now;
      rows = rows_left_by txn (without_prepared txn number server.old.prepared)
          (filter (is_live reading server.old.skew) server.old.rows);
      prepared = without_prepared txn number server.old.prepared;
      paths = paths_left_by txn (without_prepared txn number server.old.prepared)
          server.old.paths;
    }) }
    ensures err { OnErr result (server.new ≡ server.old) }
{
    server.records.apply_all(alloc, effects)?;
    take_all_away(&mut server.records, gone);
    server.rows.lapse(reading, server.skew);
    drop_prepared(&mut server.prepared, txn, number);
    let left = server.prepared.as_slice();
    free_last(&mut server.rows, &mut server.paths, txn, left);
    Ok(())
}

/// Where these parts are left, the transaction's rows are unlocked with its last one, and it keeps no file any more.
fn free_last(rows: &mut AllRows, paths: &mut Paths, txn: TxnNo, left: &[Ready])
    ensures rows { rows.new ≡ rows_left_by txn left.now rows.old }
    ensures paths { paths.new ≡ paths_left_by txn left.now paths.old }
{
    if !is_awaited(left, txn) {
        rows.unlock(txn);
        paths.thaw(txn);
    }
}

/// These names and files are there no more.
fn take_all_away(records: &mut Records, removals: &[Effect])
    requires { list_all takes_away removals.now ≡ true }
    ensures { records.new ≡ records_after_all records.old removals.now }
{
    for e in removals {
        records.take_away(e);
    }
}

/// What the piece gives is at the other server. Of the records only those that go are looked at.
fn leave(
    alloc: Global,
    server: &mut Server,
    reading: u64,
    to: u8,
    piece: &MapPiece,
    moved: &List<(FileId, Record)>,
) -> Result<(), Memory>
    requires piece { IsPiece piece.now.prefix piece.now.given }
    requires moved { moved.now ≡
        records_given piece.now.prefix piece.now.given server.old.records }
    ensures ok { OnOk result (server.new ≡ record server.old {
      records = records_left piece.now.prefix piece.now.given server.old.records;
      rows = rows_left piece.now.prefix piece.now.given
          (filter (is_live reading server.old.skew) server.old.rows);
      map = map_after_take server.old.map to piece.now.prefix piece.now.given;
    }) }
    ensures err { OnErr result (server.new ≡ server.old) }
{
    server.map.take(alloc, to, piece)?;
    server.rows.lapse(reading, server.skew);
    server.rows.leave(piece);
    server.records.leave_these(piece, moved);
    Ok(())
}

/// All of the parcel is here.
fn install(alloc: Global, server: &mut Server, reading: u64, p: Parcel) -> Result<(), Memory>
    requires fits { fits server.old.records
        (filter (is_live reading server.old.skew) server.old.rows) server.old.map server.old.me p ≡
        true }
    requires nexts { AreNumbersLeft p.records }
    ensures ok { OnOk result (server.new ≡ record server.old {
      records = with_records p.records server.old.records;
      rows = with_rows p.rows (filter (is_live reading server.old.skew) server.old.rows);
      map = map_after_take server.old.map server.old.me p.prefix p.piece.given;
    }) }
    ensures err { OnErr result (server.new ≡ server.old) }
{
    server.rows.install(
        alloc,
        &mut server.records,
        &mut server.map,
        server.me,
        reading,
        server.skew,
        p,
    )
}

/// These leases end no sooner than `until`.
fn renew_all(rows: &mut AllRows, until: u64, numbers: &[LeaseNo])
    ensures { rows.new ≡ renewed_rows until numbers.now rows.old }
{
    for no in numbers {
        rows.renew(*no, until);
    }
}

/// These leases are given back.
fn release_all(rows: &mut AllRows, numbers: &[LeaseNo])
    ensures { rows.new ≡ released_rows numbers.now rows.old }
{
    for no in numbers {
        rows.release(*no);
    }
}
