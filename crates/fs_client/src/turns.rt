//! What a client does at its turn.
ghost use Rattle.std.specs.Prelude.{◌≡◌, ◌≤◌, ◌==◌, ◌+◌, ◌/◌, true, length, map, take, IfOk};
ghost use Rattle.std.specs.List.{filter};
ghost use Rattle.fs_ident.specs.declared.limits.TheConstants.{LATEST};
ghost use Rattle.fs_client.specs.Client.{IsClient, can_change, can_commit};
ghost use Rattle.fs_client.specs.Acts.{hinted};
ghost use Rattle.fs_client.specs.Turns.{ending, entries_at, idle, kept_at, pair_of, release_some, releases, renew_some, renews, returned, sends, ship_some, ships, turn_on, turn_plan};

use crate::acts::only_noted;
use crate::at_reading::AtReading;
use crate::change::Change;
use crate::exchange::Exchange;
use crate::plan::{Plan, Ready};
use crate::state::Client;
use fs_ident::{FileId, LeaseNo, List, Memory, Twin};
use fs_msg::{ClientMsg, ClientNote, ClientOut, Entry};
use std::alloc::Global;

/// What the turn comes to at the reading; nothing changes.
pub(crate) fn plan(alloc: Global, client: &Client, now: u64) -> Result<Plan<ClientNote>, Memory>
    requires client { IsClient client.now }
    requires reading { now ≤ LATEST }
    ensures plan { IfOk result (λ p. p ≡ turn_plan client.now now) }
    ensures can { IfOk result (λ p. can_commit p.ready client.now ≡ true) }
{
    let at = AtReading::at(client, now);
    turn(alloc, &at)
}

/// What the turn comes to at the event.
#[tactic(auto, using(crate::proofs::Turning::turn_can))]
fn turn(alloc: Global, at: &AtReading<'_>) -> Result<Plan<ClientNote>, Memory>
    requires { IsClient at.now }
    ensures plan { IfOk result (λ p. p ≡ turn_on at.now) }
    ensures can { IfOk result (λ p. can_change p.ready.change at.now ≡ true) }
{
    if at.exchange().is_some() {
        return Ok(idle(at));
    }
    if !at.log().is_empty() && at.over().is_none() {
        return ship_some(alloc, at);
    }
    release_some(alloc, at)
}

fn idle(at: &AtReading<'_>) -> Plan<ClientNote>
    ensures { result ≡ idle at.now }
{
    only_noted(at, Change::Nothing, ClientNote::Idle)
}

/// A message goes out to the server.
fn sends(
    at: &AtReading<'_>,
    to: u8,
    note: ClientNote,
    message: ClientMsg,
    change: Change,
) -> Plan<ClientNote>
    ensures { result ≡ sends to note message change at.now }
{
    Plan {
        ready: Ready {
            now: at.reading(),
            change,
            hints: None,
        },
        out: ClientOut {
            note,
            send: Some((to, message)),
            admitted: None,
        },
    }
}

/// The entries at the front of the log are handed in, those that go where the first one goes.
fn ship_some(alloc: Global, at: &AtReading<'_>) -> Result<Plan<ClientNote>, Memory>
    ensures { IfOk result (λ p. p ≡ ship_some at.now.log at.now) }
{
    let log = at.log().as_slice();
    match log.first() {
        None => Ok(idle(at)),
        Some(first) => {
            let to = at.hinted(first.op.home());
            Ok(ships(at, to, entries_at(alloc, at, to, log)?))
        }
    }
}

/// These entries are handed in.
fn ships(at: &AtReading<'_>, to: u8, entries: List<Entry>) -> Plan<ClientNote>
    ensures { result ≡ ships to entries at.now }
{
    let count = entries.len() as u64;
    let exchange = Exchange::Ships { to, count };
    sends(
        at,
        to,
        ClientNote::Ships { count, to },
        ClientMsg::Ship { entries },
        Change::Ask { exchange },
    )
}

/// The entries at the front that are handed in at the server.
fn entries_at(
    alloc: Global,
    at: &AtReading<'_>,
    to: u8,
    log: &[Entry],
) -> Result<List<Entry>, Memory>
    ensures { IfOk result (λ entries. entries ≡ entries_at at.now to log.now) }
{
    copies(alloc, &log[..count_at(at, to, log)])
}

/// How many entries at the front are handed in at the server.
#[tactic(auto, using(crate::proofs::Turning::entries_more, crate::proofs::Turning::entries_stop))]
fn count_at(at: &AtReading<'_>, to: u8, log: &[Entry]) -> usize
    ensures within { result ≤ length log.now }
    ensures front { take result log.now ≡ entries_at at.now to log.now }
{
    let mut count = 0;
    for entry in log {
        if at.hinted(entry.op.home()) != to {
            return count;
        }
        count += 1;
    }
    count
}

fn copies(alloc: Global, entries: &[Entry]) -> Result<List<Entry>, Memory>
    ensures { IfOk result (λ twins. twins ≡ entries.now) }
{
    let mut twins = List::from_vec(Vec::with_capacity(alloc, entries.len())?);
    for entry in entries {
        twins.push(entry.copy(alloc)?)?;
    }
    Ok(twins)
}

/// Leases go back, or else are kept.
#[tactic(auto, using(crate::proofs::Turning::none_returned, crate::proofs::Turning::some_returned, crate::proofs::Turning::pairs_at))]
fn release_some(alloc: Global, at: &AtReading<'_>) -> Result<Plan<ClientNote>, Memory>
    requires { IsClient at.now }
    ensures { IfOk result (λ p. p ≡ release_some (returned at.now.view) at.now) }
{
    let pairs = at.returned(alloc)?;
    let Some(first) = pairs.as_slice().first() else {
        return renew_some(alloc, at);
    };
    let to = at.hinted(&first.0);
    releases(alloc, at, to, pairs_at(at, to, pairs))
}

/// These leases go back, all of them to the server.
#[tactic(auto, using(crate::proofs::Turning::sent_back))]
fn releases(
    alloc: Global,
    at: &AtReading<'_>,
    to: u8,
    pairs: List<(FileId, LeaseNo)>,
) -> Result<Plan<ClientNote>, Memory>
    requires { pairs ≡ map pair_of (kept_at at.now to (returned at.now.view)) }
    ensures { IfOk result (λ p. p ≡
        releases to (kept_at at.now to (returned at.now.view)) at.now) }
{
    let numbers = numbers_in(alloc, pairs.as_slice())?;
    let count = pairs.len() as u64;
    Ok(sends(
        at,
        to,
        ClientNote::Releases { count, to },
        ClientMsg::Release { pairs },
        Change::Leave { to, numbers },
    ))
}

/// Leases are kept longer, or else there is nothing to do.
#[tactic(auto, using(crate::proofs::Turning::none_ending, crate::proofs::Turning::some_ending, crate::proofs::Turning::pairs_at))]
fn renew_some(alloc: Global, at: &AtReading<'_>) -> Result<Plan<ClientNote>, Memory>
    requires { IsClient at.now }
    ensures { IfOk result (λ p. p ≡
        renew_some (ending (at.now.last + at.now.term / 2) at.now.view) at.now) }
{
    let soon = at.reading() + at.term() / 2;
    let pairs = at.ending(alloc, soon)?;
    let Some(first) = pairs.as_slice().first() else {
        return Ok(idle(at));
    };
    let to = at.hinted(&first.0);
    renews(alloc, at, to, pairs_at(at, to, pairs), soon)
}

/// Later ends of these leases are asked for, all of them at the server.
#[tactic(auto, using(crate::proofs::Turning::sent_on))]
fn renews(
    alloc: Global,
    at: &AtReading<'_>,
    to: u8,
    pairs: List<(FileId, LeaseNo)>,
    soon: u64,
) -> Result<Plan<ClientNote>, Memory>
    requires { pairs ≡ map pair_of (kept_at at.now to (ending soon at.now.view)) }
    ensures { IfOk result (λ p. p ≡
        renews to (kept_at at.now to (ending soon at.now.view)) at.now) }
{
    let numbers = numbers_in(alloc, pairs.as_slice())?;
    let count = pairs.len() as u64;
    let exchange = Exchange::Renews { to, numbers };
    Ok(sends(
        at,
        to,
        ClientNote::Renews { count, to },
        ClientMsg::Renew { pairs },
        Change::Ask { exchange },
    ))
}

/// Those of the leases that are on files said to be at the server.
fn pairs_at(at: &AtReading<'_>, to: u8, pairs: List<(FileId, LeaseNo)>) -> List<(FileId, LeaseNo)>
    ensures { result ≡ filter (λ pair. hinted at.now pair.0 == to) pairs }
{
    let mut pairs = pairs.into_vec();
    pairs.retain(|pair| is_at(at, to, &pair.0));
    List::from_vec(pairs)
}

fn is_at(at: &AtReading<'_>, to: u8, id: &FileId) -> bool
    ensures { result ≡ (hinted at.now id.now == to) }
{
    at.hinted(id) == to
}

/// The numbers of the leases.
#[tactic(auto, using(crate::proofs::Turning::numbers_step))]
fn numbers_in(alloc: Global, pairs: &[(FileId, LeaseNo)]) -> Result<List<LeaseNo>, Memory>
    ensures { IfOk result (λ numbers. numbers ≡ map (λ pair. pair.1) pairs.now) }
{
    let mut numbers = List::new(alloc);
    for pair in pairs {
        numbers.push(pair.1)?;
    }
    Ok(numbers)
}
