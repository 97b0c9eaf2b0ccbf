//! An identifier for a new file.
ghost use Rattle.std.specs.Prelude.{◌≡◌, ◌+◌, ◌^◌, ℕ, nat_le, true, Some, None, IfOk, IsErrOf, option_map};
ghost use Rattle.fs_ident.specs.Ident.{child};
ghost use Rattle.fs_field.specs.Table.{borne_numbers, last_number};
ghost use Rattle.fs_msg.specs.declared.core_error.Counter.{Counter as TheCounter};
ghost use Rattle.fs_msg.specs.declared.core_error.Counter.TheVariants.{Leases};
ghost use Rattle.fs_msg.specs.declared.core_error.CoreError.TheVariants as errors;
ghost use Rattle.fs_msg.specs.declared.end.End.TheVariants.{All};
ghost use Rattle.fs_record.specs.Fresh.{fresh_number, is_borne, is_directory};
ghost use Rattle.fs_rows.specs.Granted.{with_rows};
ghost use Rattle.fs_server.specs.Asks.{ask_fresh, fresh_for, fresh_in, fresh_of, recalls_at};
ghost use Rattle.fs_server.specs.Grants.{IsLent, IsReady, end_without, got_by, lent_by, with_leases};
ghost use Rattle.fs_server.specs.Plan.{IsNewGift};

use crate::at_reading::AtReading;
use crate::grants::{Grants, lend};
use fs_field::{Field, LeaseKind, table};
use fs_ident::{FileId, List, Memory, Session, Twin};
use fs_msg::{CoreError, End};
use fs_record::FreshError;
use std::alloc::Global;

/// What a question got: leases, a fresh identifier, the number that its directory gave for it, and why no more.
#[derive(Drop)]
pub(crate) struct Got {
    pub(crate) lent: Grants,
    pub(crate) fresh: Option<FileId>,
    pub(crate) gift: Option<(FileId, u32)>,
    pub(crate) end: End,
}

/// The fresh identifier, where one is asked for and all leases were given.
pub(crate) fn ask_fresh(
    alloc: Global,
    at: &AtReading<'_>,
    by: Session,
    dir: &Option<FileId>,
    lent: Grants,
    end: End,
) -> Result<Got, CoreError>
    requires ready { IsReady at.now }
    requires so_far { IsLent by lent.rows at.now }
    requires found { recalls_at end (with_rows lent.rows at.now.rows) ≡
        recalls_at end at.now.rows }
    ensures asked { IfOk result (λ got. got_by got at.now ≡
        ask_fresh by dir.now end (lent_by lent end at.now)) }
    ensures recalls { IfOk result (λ got.
        recalls_at got.end (with_rows got.lent.rows at.now.rows) ≡ recalls_at got.end at.now.rows) }
    ensures ready { IfOk result (λ got. IsReady (got_by got at.now).server) }
    ensures gift { IfOk result (λ got. IsNewGift got.gift at.now.records) }
    ensures spent { (counter : TheCounter) → IsErrOf result (errors.Spent counter) →
        (counter ≡ Leases) ×
        (nat_le (2 ^ 64) (ask_fresh by dir.now end (lent_by lent end at.now)).server.given ≡ true) }
{
    match end {
        End::All => {}
        end => return Ok(without(lent, end)),
    }
    match dir {
        None => Ok(without(lent, End::All)),
        Some(dir) => fresh_below(alloc, at, by, dir, lent),
    }
}

/// The leases alone.
fn without(lent: Grants, end: End) -> Got
    ensures { result ≡ record { lent = lent; fresh = None; gift = None; end = end } }
{
    Got {
        lent,
        fresh: None,
        gift: None,
        end,
    }
}

/// An identifier below the directory, which may be with another server.
fn fresh_below(
    alloc: Global,
    at: &AtReading<'_>,
    by: Session,
    dir: &FileId,
    lent: Grants,
) -> Result<Got, CoreError>
    requires ready { IsReady at.now }
    requires so_far { IsLent by lent.rows at.now }
    ensures asked { IfOk result (λ got. got_by got at.now ≡
        fresh_for by (Some dir.now) (lent_by lent All at.now)) }
    ensures recalls { IfOk result (λ got.
        recalls_at got.end (with_rows got.lent.rows at.now.rows) ≡ recalls_at got.end at.now.rows) }
    ensures ready { IfOk result (λ got. IsReady (got_by got at.now).server) }
    ensures gift { IfOk result (λ got. IsNewGift got.gift at.now.records) }
    ensures spent { (counter : TheCounter) → IsErrOf result (errors.Spent counter) →
        (counter ≡ Leases) × (nat_le (2 ^ 64)
        (fresh_for by (Some dir.now) (lent_by lent All at.now)).server.given ≡ true) }
{
    if at.is_mine(dir) {
        fresh_in(alloc, at, by, dir, lent)
    } else {
        let end = at.moved(alloc, dir)?;
        Ok(without(lent, end))
    }
}

/// An identifier below what is managed here. One that is no directory gives none, and is not spoken of.
fn fresh_in(
    alloc: Global,
    at: &AtReading<'_>,
    by: Session,
    dir: &FileId,
    lent: Grants,
) -> Result<Got, CoreError>
    requires ready { IsReady at.now }
    requires so_far { IsLent by lent.rows at.now }
    ensures asked { IfOk result (λ got. got_by got at.now ≡
        fresh_in by dir.now (is_directory at.now.records dir.now) (lent_by lent All at.now)) }
    ensures recalls { IfOk result (λ got.
        recalls_at got.end (with_rows got.lent.rows at.now.rows) ≡ recalls_at got.end at.now.rows) }
    ensures ready { IfOk result (λ got. IsReady (got_by got at.now).server) }
    ensures gift { IfOk result (λ got. IsNewGift got.gift at.now.records) }
    ensures spent { (counter : TheCounter) → IsErrOf result (errors.Spent counter) →
        (counter ≡ Leases) × (nat_le (2 ^ 64)
        (fresh_in by dir.now (is_directory at.now.records dir.now)
        (lent_by lent All at.now)).server.given ≡ true) }
{
    let borne = borne(alloc, at, dir, &lent)?;
    match at.records().fresh_id(alloc, dir, &borne) {
        Ok(id) => give(alloc, at, by, dir, id, lent),
        Err(none) => {
            let dir = dir.copy(alloc)?;
            let end = end_without(none, dir)?;
            Ok(without(lent, end))
        }
    }
}

/// How a question ends that gets no identifier below the directory.
fn end_without(none: FreshError, dir: FileId) -> Result<End, CoreError>
    ensures { result ≡ end_without none dir }
{
    match none {
        FreshError::NoDir => Ok(End::All),
        FreshError::NoIds => Ok(End::NoIds { dir }),
        FreshError::Memory => Err(CoreError::Memory),
    }
}

/// The last numbers of the files right below the directory that rows are on, or that the question was given leases on,
/// in some order.
fn borne(
    alloc: Global,
    at: &AtReading<'_>,
    dir: &FileId,
    lent: &Grants,
) -> Result<List<u32>, Memory>
    ensures { IfOk result (λ told. (k : ℕ) → is_borne told k ≡
        is_borne (borne_numbers dir.now (with_rows lent.now.rows at.now.rows)) k) }
{
    let mut told = at.rows().borne(alloc, dir)?;
    let more = table::borne(alloc, lent.rows.as_slice(), dir)?;
    for k in more.as_slice() {
        told.push(*k)?;
    }
    Ok(told)
}

/// The directory's next free number, with an exclusive lease on the life of the file.
fn give(
    alloc: Global,
    at: &AtReading<'_>,
    by: Session,
    dir: &FileId,
    id: FileId,
    lent: Grants,
) -> Result<Got, CoreError>
    requires ready { IsReady at.now }
    requires so_far { IsLent by lent.rows at.now }
    requires fresh { Some id ≡ option_map (child dir.now) (fresh_number at.now.records dir.now
        (borne_numbers dir.now (with_rows lent.rows at.now.rows))) }
    ensures asked { IfOk result (λ got. got_by got at.now ≡
        fresh_of by dir.now (fresh_number at.now.records dir.now
        (borne_numbers dir.now (with_rows lent.rows at.now.rows))) (lent_by lent All at.now)) }
    ensures recalls { IfOk result (λ got. got.end ≡ All) }
    ensures ready { IfOk result (λ got. IsReady (got_by got at.now).server) }
    ensures gift { IfOk result (λ got. IsNewGift got.gift at.now.records) }
    ensures spent { (counter : TheCounter) → IsErrOf result (errors.Spent counter) →
        (counter ≡ Leases) × ((with_leases lent.rows at.now).given + 1 ≡ 2 ^ 64) }
{
    let Some(k) = last_number(&id) else {
        unreachable!()
    };
    let gift = Some((dir.copy(alloc)?, k));
    let field = Field::Life(id);
    let mut lent = lent;
    lend(alloc, at, by, &field, LeaseKind::Exclusive, None, &mut lent)?;
    Ok(Got {
        lent,
        fresh: Some(field.into_file()),
        gift,
        end: End::All,
    })
}

/// The last number of an identifier; none of the root's.
fn last_number(id: &FileId) -> Option<u32>
    ensures { result ≡ last_number id.now }
{
    match id.numbers().split_last() {
        None => None,
        Some((k, _)) => Some(*k),
    }
}
