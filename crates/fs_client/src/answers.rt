//! What a client makes of an answer of a server.
ghost use Rattle.std.specs.Prelude.{◌≡◌, ◌≤◌, true, length, map, take, IfOk};
ghost use Rattle.fs_ident.specs.declared.limits.TheConstants.{LATEST};
ghost use Rattle.fs_client.specs.Answers.{answer_plan, below_field, fits, full_told, granted_plan, hear, hints_told, lease_in, leases_in, noted_with, numbers_sent, over_after, released_plan, renewed_plan, shipped_plan, strange, fitting_plan};
ghost use Rattle.fs_client.specs.Client.{IsClient, can_change, can_commit};

use crate::acts::only_noted;
use crate::at_reading::AtReading;
use crate::change::Change;
use crate::ended::led_plan;
use crate::exchange::Exchange;
use crate::fits::{fits, is_life};
use crate::plan::{Plan, Ready};
use crate::state::Client;
use fs_field::Field;
use fs_ident::{FileId, LeaseNo, List, Memory, Twin};
use fs_map::FileMap;
use fs_msg::{Answer, ClientNote, ClientOut, End, Grant};
use fs_view::NewLease;
use std::alloc::Global;

/// What the answer of that server comes to at the reading; nothing changes.
pub(crate) fn plan(
    alloc: Global,
    client: &Client,
    now: u64,
    from: u8,
    a: &Answer,
) -> Result<Plan<ClientNote>, Memory>
    requires client { IsClient client.now }
    requires reading { now ≤ LATEST }
    ensures plan { IfOk result (λ p. p ≡ answer_plan client.now now from a.now) }
    ensures can { IfOk result (λ p. can_commit p.ready client.now ≡ true) }
{
    let at = AtReading::at(client, now);
    answer(alloc, &at, from, a)
}

/// What the answer of that server comes to at the event.
fn answer(
    alloc: Global,
    at: &AtReading<'_>,
    from: u8,
    a: &Answer,
) -> Result<Plan<ClientNote>, Memory>
    requires { IsClient at.now }
    ensures plan { IfOk result (λ p. p ≡ hear from a.now at.now) }
    ensures can { IfOk result (λ p. can_change p.ready.change at.now ≡ true) }
{
    if fits(at, from, a) {
        return fitting_plan(alloc, at, a);
    }
    Ok(strange(at))
}

/// It fits no question that stands.
pub(crate) fn strange(at: &AtReading<'_>) -> Plan<ClientNote>
    ensures { result ≡ strange at.now }
{
    only_noted(at, Change::Nothing, ClientNote::Strange)
}

/// It fits the question that stands, or is a recall.
fn fitting_plan(alloc: Global, at: &AtReading<'_>, a: &Answer) -> Result<Plan<ClientNote>, Memory>
    ensures { IfOk result (λ p. p ≡ fitting_plan a.now at.now) }
{
    match a {
        Answer::Granted { grants, fresh, end } => {
            granted(alloc, at, grants.as_slice(), fresh, end)
        }
        Answer::Renewed { rows, end } => renewed(alloc, at, rows, end),
        Answer::Released { count, end } => released(alloc, at, *count, end),
        Answer::Shipped { count, end } => shipped(alloc, at, *count, end),
        Answer::Led { end } => led_plan(alloc, at, end),
        Answer::Recall { no } => Ok(only_noted(
            at,
            Change::Recall { no: *no },
            ClientNote::Recall { no: *no },
        )),
    }
}

fn granted(
    alloc: Global,
    at: &AtReading<'_>,
    grants: &[Grant],
    fresh: &Option<FileId>,
    end: &End,
) -> Result<Plan<ClientNote>, Memory>
    ensures { IfOk result (λ p. p ≡ granted_plan grants.now fresh.now end.now at.now) }
{
    let leases = leases_in(alloc, fresh, grants)?;
    let full = full_told(alloc, end)?;
    let note = ClientNote::Granted {
        count: grants.len() as u64,
        end: end.copy(alloc)?,
    };
    noted_with(alloc, at, Change::Grant { leases, full }, end, note)
}

fn renewed(
    alloc: Global,
    at: &AtReading<'_>,
    rows: &List<(LeaseNo, Option<u64>)>,
    end: &End,
) -> Result<Plan<ClientNote>, Memory>
    ensures { IfOk result (λ p. p ≡ renewed_plan rows.now end.now at.now) }
{
    let ends = rows.copy(alloc)?;
    let note = ClientNote::Renewed {
        count: ends.len() as u64,
        end: end.copy(alloc)?,
    };
    noted_with(alloc, at, Change::Renew { ends }, end, note)
}

fn released(
    alloc: Global,
    at: &AtReading<'_>,
    count: u64,
    end: &End,
) -> Result<Plan<ClientNote>, Memory>
    ensures { IfOk result (λ p. p ≡ released_plan count end.now at.now) }
{
    let numbers = first_sent(alloc, at.exchange(), count)?;
    let note = ClientNote::Released {
        count,
        end: end.copy(alloc)?,
    };
    noted_with(alloc, at, Change::Release { numbers }, end, note)
}

fn shipped(
    alloc: Global,
    at: &AtReading<'_>,
    count: u64,
    end: &End,
) -> Result<Plan<ClientNote>, Memory>
    ensures { IfOk result (λ p. p ≡ shipped_plan count end.now at.now) }
{
    let over = over_after(end, at.over());
    let note = ClientNote::Shipped {
        count,
        end: end.copy(alloc)?,
    };
    noted_with(alloc, at, Change::Admit { count, over }, end, note)
}

/// The change, and what the end of the answer says of who manages what.
fn noted_with(
    alloc: Global,
    at: &AtReading<'_>,
    change: Change,
    end: &End,
    note: ClientNote,
) -> Result<Plan<ClientNote>, Memory>
    ensures { IfOk result (λ p. p ≡ noted_with change end.now note at.now) }
{
    let hints = hints_told(alloc, end, at.hints())?;
    Ok(Plan {
        ready: Ready {
            now: at.reading(),
            change,
            hints,
        },
        out: ClientOut {
            note,
            send: None,
            admitted: None,
        },
    })
}

/// The map once the answer ends where another server is said to manage what is next.
fn hints_told(alloc: Global, end: &End, hints: &FileMap) -> Result<Option<FileMap>, Memory>
    ensures { IfOk result (λ told. told ≡ hints_told end.now hints.now) }
{
    match end {
        End::Moved { prefix, to } => Ok(Some(hints.with_hint(alloc, prefix, *to)?)),
        _ => Ok(None),
    }
}

/// The leases that come, each with the directory for which its identifier was given.
#[tactic(auto, using(crate::proofs::Granted::leases_step))]
fn leases_in(
    alloc: Global,
    fresh: &Option<FileId>,
    grants: &[Grant],
) -> Result<List<NewLease>, Memory>
    ensures { IfOk result (λ leases. leases ≡ leases_in fresh.now grants.now) }
{
    let mut leases = List::new(alloc);
    for g in grants {
        leases.push(lease_in(alloc, fresh, g)?)?;
    }
    Ok(leases)
}

fn lease_in(alloc: Global, fresh: &Option<FileId>, g: &Grant) -> Result<NewLease, Memory>
    ensures { IfOk result (λ lease. lease ≡ lease_in fresh.now g.now) }
{
    Ok(NewLease {
        no: g.no,
        field: g.field.copy(alloc)?,
        kind: g.kind,
        until: g.until,
        value: g.value.copy(alloc)?,
        below: below_of(alloc, fresh, &g.field)?,
    })
}

/// The directory for which the identifier of the field's file was given, if it was given here.
fn below_of(alloc: Global, fresh: &Option<FileId>, field: &Field) -> Result<Option<FileId>, Memory>
    ensures { IfOk result (λ dir. dir ≡ below_field fresh.now field.now) }
{
    match fresh {
        None => Ok(None),
        Some(id) => {
            if is_life(id, field) {
                id.parent(alloc)
            } else {
                Ok(None)
            }
        }
    }
}

/// The directory of which the server said that it has no number left.
fn full_told(alloc: Global, end: &End) -> Result<Option<FileId>, Memory>
    ensures { IfOk result (λ dir. dir ≡ full_told end.now) }
{
    match end {
        End::NoIds { dir } => Ok(Some(dir.copy(alloc)?)),
        _ => Ok(None),
    }
}

/// The entry that was refused, now or before.
fn over_after(end: &End, over: Option<u64>) -> Option<u64>
    ensures { result ≡ over_after end.now over }
{
    match end {
        End::Ended {
            n,
            lease: _,
            until: _,
            now: _,
        } => Some(*n),
        _ => over,
    }
}

/// The first of the numbers of leases that were given back.
fn first_sent(
    alloc: Global,
    exchange: &Option<Exchange>,
    count: u64,
) -> Result<List<LeaseNo>, Memory>
    ensures { IfOk result (λ numbers. numbers ≡ take count (numbers_sent exchange.now)) }
{
    match exchange {
        Some(Exchange::Releases { to: _, numbers }) => first(alloc, numbers.as_slice(), count),
        _ => Ok(List::new(alloc)),
    }
}

#[tactic(auto, using(std::proofs::lemmas::List::take_min))]
fn first(alloc: Global, numbers: &[LeaseNo], count: u64) -> Result<List<LeaseNo>, Memory>
    ensures { IfOk result (λ some. some ≡ take count numbers.now) }
{
    let count = (count as usize).min(numbers.len());
    let mut some = List::new(alloc);
    for no in &numbers[..count] {
        some.push(*no)?;
    }
    Ok(some)
}
