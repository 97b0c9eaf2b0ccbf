//! What is known of a field, and which identifier is there for a new file.
ghost use Rattle.std.specs.Prelude.{◌≡◌, None, is_some, find, option_map, IfOk};
ghost use Rattle.std.specs.List.{list_any};
ghost use Rattle.std.specs.Option.{option_copied};
ghost use Rattle.fs_field.specs.Table.{is_parent};
ghost use Rattle.fs_view.specs.ViewLease.{is_better, is_life, is_pending, is_unused, makes, offers};
ghost use Rattle.fs_view.specs.View.{taken_from, value_after_all, value_after_log};

use crate::view_lease::{Standing, ViewLease};
use fs_field::{Effect, Field, LeaseKind, Value, apply};
use fs_ident::{FileId, List, Memory, Session};
use std::alloc::Global;

/// The lease that is taken for the field at the reading: of those that serve for it the one that ends last, and of
/// several that end together the one with the least number.
pub fn taken_of<'a>(
    leases: &'a [ViewLease],
    now: u64,
    field: &Field,
    kind: LeaseKind,
) -> Option<&'a ViewLease>
    ensures { option_copied result ≡ taken_from now field.now kind None leases.now }
{
    let mut best: Option<&'a ViewLease> = None;
    for kept in leases {
        if kept.standing.serves(now, field, kind) && is_better(kept, best) {
            best = Some(kept);
        }
    }
    best
}

/// Whether it is taken before the best so far.
pub fn is_better(kept: &ViewLease, best: Option<&ViewLease>) -> bool
    ensures { result ≡ is_better kept.now (option_copied best.entry) }
{
    match best {
        None => true,
        Some(other) => kept.is_better_than(other),
    }
}

/// The value of the field, as the session sees it, after the effects, one after another.
pub fn after_all(
    alloc: Global,
    session: Session,
    field: &Field,
    value: Value,
    effects: &[Effect],
) -> Result<Value, Memory>
    ensures { IfOk result (λ v. v ≡ value_after_all session field.now value effects.now) }
{
    let mut value = value;
    for e in effects {
        apply(alloc, &mut value, field, session, e)?;
    }
    Ok(value)
}

/// The value of the field, as the session sees it, after the effects of all entries.
pub fn after_log(
    alloc: Global,
    session: Session,
    field: &Field,
    value: Value,
    log: &[List<Effect>],
) -> Result<Value, Memory>
    ensures { IfOk result (λ v. v ≡ value_after_log session field.now value log.now) }
{
    let mut value = value;
    for effects in log {
        value = after_all(alloc, session, field, value, effects.as_slice())?;
    }
    Ok(value)
}

/// The first lease that offers an identifier below the directory.
#[tactic(auto, using(crate::proofs::Steps::find_step))]
pub fn offered<'a>(
    leases: &'a [ViewLease],
    now: u64,
    dir: &FileId,
    log: &[List<Effect>],
) -> Option<&'a ViewLease>
    ensures { option_copied result ≡ find (offers now dir.now log.now) leases.now }
{
    for kept in leases {
        if offers(kept, now, dir, log) {
            return Some(kept);
        }
    }
    None
}

/// Whether the lease is on an unused file whose identifier was given for the directory.
fn offers(kept: &ViewLease, now: u64, dir: &FileId, log: &[List<Effect>]) -> bool
    ensures { result ≡ offers now dir.now log.now kept.now }
{
    is_parent(dir, &kept.below) && is_unused(&kept.standing, now, log)
}

fn is_parent(dir: &FileId, below: &Option<FileId>) -> bool
    ensures { result ≡ is_parent dir.now below.now }
{
    match below {
        None => false,
        Some(other) => other == dir,
    }
}

/// Whether it is an exclusive lease on the life of its file at the reading, and no entry makes that file.
#[tactic(auto, using(crate::proofs::Offering::unused_by))]
fn is_unused(standing: &Standing, now: u64, log: &[List<Effect>]) -> bool
    ensures { result ≡ is_unused now log.now standing.now }
{
    match standing.field() {
        None => false,
        Some(field) => {
            is_life(field)
                && standing.serves(now, field, LeaseKind::Exclusive)
                && !is_pending(field.file(), log)
        }
    }
}

/// Whether the field is the life of its file.
fn is_life(field: &Field) -> bool
    ensures { result ≡ is_life field.now }
{
    matches!(field, Field::Life(_))
}

/// Whether an entry of the log makes the file.
pub fn is_pending(file: &FileId, log: &[List<Effect>]) -> bool
    ensures { result ≡ is_pending file.now log.now }
{
    log.iter().any(|effects| is_made(file, effects.as_slice()))
}

/// Whether one of the effects makes the file.
fn is_made(file: &FileId, effects: &[Effect]) -> bool
    ensures { result ≡ list_any (makes file.now) effects.now }
{
    effects.iter().any(|e| makes(file, e))
}

fn makes(file: &FileId, e: &Effect) -> bool
    ensures { result ≡ makes file.now e.now }
{
    match e {
        Effect::NewNode {
            file: new,
            kind: _,
            dir: _,
            name: _,
        } => new == file,
        _ => false,
    }
}
