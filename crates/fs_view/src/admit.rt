//! What becomes of the leases when effects are known to be admitted.
ghost use Rattle.std.specs.Prelude.{◌≡◌, drop, take, length, map, IfOk, OnOk, OnErr, unwrap_or};
ghost use Rattle.std.specs.List.{list_any};
ghost use Rattle.fs_field.specs.After.{touches};
ghost use Rattle.fs_view.specs.View.{value_after_log};
ghost use Rattle.fs_view.specs.Admit.{base_after_log, is_made_by, knowing_all, with_base, with_bases};

use crate::known::{after_log, is_pending};
use crate::view_lease::{Standing, ViewLease};
use fs_field::{Effect, Field, Value, touches};
use fs_ident::{List, Memory, Session, Twin};
use std::alloc::Global;

/// The base values follow the effects, and an identifier is no longer for a new file once that is made. `Memory`
/// when out of memory; the leases are as they were then.
pub fn admit(
    leases: &mut Vec<ViewLease>,
    alloc: Global,
    session: Session,
    log: &[List<Effect>],
) -> Result<(), Memory>
    ensures ok { OnOk result (leases.new.items ≡
        map (knowing_all session log.now) leases.old.items) }
    ensures err { OnErr result (leases.new.items ≡ leases.old.items) }
{
    let bases = new_bases(alloc, leases, session, log)?;
    put_bases(leases, bases, log);
    Ok(())
}

/// For each lease its base value after the effects, where it changes.
fn new_bases(
    alloc: Global,
    leases: &[ViewLease],
    session: Session,
    log: &[List<Effect>],
) -> Result<List<Option<Value>>, Memory>
    ensures each { IfOk result (λ bases. length bases ≡ length leases.now) }
    ensures after { IfOk result (λ bases.
        with_bases log.now leases.now bases ≡ map (knowing_all session log.now) leases.now) }
{
    let mut bases = List::from_vec(Vec::with_capacity(alloc, leases.len())?);
    for kept in leases {
        bases.push(new_base(alloc, kept, session, log)?)?;
    }
    Ok(bases)
}

/// The base value after the effects, where it changes.
fn new_base(
    alloc: Global,
    kept: &ViewLease,
    session: Session,
    log: &[List<Effect>],
) -> Result<Option<Value>, Memory>
    ensures { IfOk result (λ base.
        unwrap_or base kept.now.base ≡
        base_after_log session log.now kept.now.standing kept.now.base) }
{
    match &kept.standing {
        Standing::Held(held) => field_base(alloc, held.field(), &kept.base, session, log),
        Standing::Pinned(pinned) => field_base(alloc, pinned.field(), &kept.base, session, log),
        Standing::Leaving(_) => Ok(None),
    }
}

/// The value of the field after the effects, where one touches it.
#[tactic(auto, using(crate::proofs::Bases::untouched_by_log))]
fn field_base(
    alloc: Global,
    field: &Field,
    base: &Value,
    session: Session,
    log: &[List<Effect>],
) -> Result<Option<Value>, Memory>
    ensures { IfOk result (λ after.
        unwrap_or after base.now ≡ value_after_log session field.now base.now log.now) }
{
    if !is_touched(field, log) {
        return Ok(None);
    }
    let copy = base.copy(alloc)?;
    Ok(Some(after_log(alloc, session, field, copy, log)?))
}

fn is_touched(field: &Field, log: &[List<Effect>]) -> bool
    ensures { result ≡ list_any (λ es. list_any (λ e. touches e field.now) es) log.now }
{
    log.iter()
        .any(|effects| is_touched_by(field, effects.as_slice()))
}

fn is_touched_by(field: &Field, effects: &[Effect]) -> bool
    ensures { result ≡ list_any (λ e. touches e field.now) effects.now }
{
    effects.iter().any(|e| touches(e, field))
}

/// Puts the new base values in, each at the place of its lease.
fn put_bases(leases: &mut [ViewLease], bases: List<Option<Value>>, log: &[List<Effect>])
    requires { length bases ≡ length leases.old }
    ensures { leases.new ≡ with_bases log.now leases.old bases }
{
    let mut bases = bases;
    for at in 0..leases.len() {
        let base = bases.replace(at, None);
        put_base(&mut leases[at], base, log);
    }
}

fn put_base(kept: &mut ViewLease, base: Option<Value>, log: &[List<Effect>])
    ensures { kept.new ≡ with_base log.now kept.old base }
{
    if let Some(base) = base {
        kept.base = base;
    }
    if is_made_by(&kept.standing, log) {
        kept.below = None;
    }
}

/// Whether one of the entries makes the file that the lease is on.
fn is_made_by(standing: &Standing, log: &[List<Effect>]) -> bool
    ensures { result ≡ is_made_by log.now standing.now }
{
    match standing {
        Standing::Held(held) => is_pending(held.field().file(), log),
        Standing::Pinned(pinned) => is_pending(pinned.field().file(), log),
        Standing::Leaving(_) => false,
    }
}

/// The first so many, or all where there are fewer.
#[tactic(auto, using(std::proofs::lemmas::List::take_min))]
pub fn front(log: &[List<Effect>], count: usize) -> &[List<Effect>]
    ensures { result.now ≡ take count log.now }
{
    &log[..count.min(log.len())]
}

/// Drops the first so many, or all where there are fewer.
#[tactic(auto, using(std::proofs::lemmas::List::drop_min))]
pub fn drop_front(log: &mut Vec<List<Effect>>, count: usize)
    ensures { log.new.items ≡ drop count log.old.items }
{
    let count = count.min(log.len());
    let rest = log.len() - count;
    log.rotate_left(count);
    log.truncate(rest);
}
