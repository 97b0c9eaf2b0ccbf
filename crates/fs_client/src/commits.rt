//! What a plan says is done: memory first, then what cannot fail.
ghost use Rattle.std.specs.Prelude.{◌≡◌, ◌≤◌, true, OnOk, OnErr};
ghost use Rattle.fs_client.specs.Client.{begun, can_change, can_commit, changed, committed, with_exchange, with_hints, with_lead, with_led_done, with_led_freed, with_read, with_recalled, with_release, with_released, with_renewed};

use crate::admits::admit;
use crate::change::Change;
use crate::exchange::Exchange;
use crate::grants::grant;
use crate::led::Led;
use crate::plan::Ready;
use crate::replies::reply;
use crate::returns::{leave_all, release_all, renew_all};
use crate::state::Client;
use fs_field::Effect;
use fs_ident::{LeaseNo, List, Memory};
use fs_map::FileMap;
use std::alloc::Global;

/// What is ready is done to this very client, for which it was planned. `Memory` when out of memory; nothing
/// changed then.
pub(crate) fn commit(alloc: Global, client: &mut Client, ready: Ready) -> Result<(), Memory>
    requires { can_commit ready client.old ≡ true }
    ensures ok { OnOk result (client.new ≡ committed ready client.old) }
    ensures err { OnErr result (client.new ≡ client.old) }
{
    let Ready { now, change, hints } = ready;
    make(alloc, client, now, change)?;
    keep(client, hints);
    Ok(())
}

/// What a server said of who manages what is kept.
fn keep(client: &mut Client, hints: Option<FileMap>)
    ensures { client.new ≡ with_hints hints client.old }
{
    if let Some(hints) = hints {
        client.hints = hints;
    }
}

/// The change is made.
fn make(alloc: Global, client: &mut Client, now: u64, change: Change) -> Result<(), Memory>
    requires { can_change change (begun now client.old) ≡ true }
    ensures ok { OnOk result (client.new ≡ changed change (begun now client.old)) }
    ensures err { OnErr result (client.new ≡ client.old) }
{
    match change {
        Change::Nothing => begin(client, now),
        Change::Read => read(client, now),
        Change::Reply { entry, effects } => return reply(client, now, entry, effects),
        Change::Ask { exchange } => ask(client, now, exchange),
        Change::Leave { to, numbers } => leave(client, now, to, numbers),
        Change::Grant { leases, full } => return grant(alloc, client, now, leases, full),
        Change::Renew { ends } => renew(client, now, ends),
        Change::Release { numbers } => release(client, now, numbers),
        Change::Admit { count, over } => return admit(alloc, client, now, count, over),
        Change::Lead { to, led } => lead(client, now, to, led),
        Change::LedDone { effects } => return led_done(alloc, client, now, effects),
        Change::LedFreed => led_freed(client, now),
        Change::Recall { no } => recall(client, now, no),
    }
    Ok(())
}

/// What every event begins with: the reading is the greatest so far, and the leases that no entry uses and that are over
/// at it go.
pub(crate) fn begin(client: &mut Client, now: u64)
    ensures { client.new ≡ begun now client.old }
{
    let reading = client.last.max(now);
    client.last = reading;
    client.view.lapse(reading);
}

fn read(client: &mut Client, now: u64)
    requires { can_change Change.Read (begun now client.old) ≡ true }
    ensures { client.new ≡ with_read (begun now client.old) }
{
    begin(client, now);
    client.next += 1;
}

fn ask(client: &mut Client, now: u64, exchange: Exchange)
    ensures { client.new ≡ with_exchange exchange (begun now client.old) }
{
    begin(client, now);
    client.exchange = Some(exchange);
}

fn leave(client: &mut Client, now: u64, to: u8, numbers: List<LeaseNo>)
    ensures { client.new ≡ with_release to numbers (begun now client.old) }
{
    begin(client, now);
    leave_all(&mut client.view, numbers.as_slice());
    client.exchange = Some(Exchange::Releases { to, numbers });
}

fn renew(client: &mut Client, now: u64, ends: List<(LeaseNo, Option<u64>)>)
    ensures { client.new ≡ with_renewed ends (begun now client.old) }
{
    begin(client, now);
    renew_all(&mut client.view, ends.as_slice());
    client.exchange = None;
}

fn release(client: &mut Client, now: u64, numbers: List<LeaseNo>)
    ensures { client.new ≡ with_released numbers (begun now client.old) }
{
    begin(client, now);
    release_all(&mut client.view, numbers.as_slice());
    client.exchange = None;
}

/// The operation is led, and the leases that it uses are pinned.
fn lead(client: &mut Client, now: u64, to: u8, led: Led)
    requires { can_change (Change.Lead to led) (begun now client.old) ≡ true }
    ensures { client.new ≡ with_lead to led (begun now client.old) }
{
    begin(client, now);
    client.view.pin(&led.entry.uses);
    client.exchange = Some(Exchange::Leads { to });
    client.led = Some(led);
}

/// What was led is admitted: its effects are known, and its number is used up.
fn led_done(
    alloc: Global,
    client: &mut Client,
    now: u64,
    effects: List<Effect>,
) -> Result<(), Memory>
    requires { can_change (Change.LedDone effects) (begun now client.old) ≡ true }
    ensures ok { OnOk result (client.new ≡ with_led_done effects (begun now client.old)) }
    ensures err { OnErr result (client.new ≡ client.old) }
{
    client.view.admit(alloc, &effects)?;
    led_freed(client, now);
    client.next += 1;
    Ok(())
}

/// Nothing is led any more, and the leases that it used are unpinned.
fn led_freed(client: &mut Client, now: u64)
    ensures { client.new ≡ with_led_freed (begun now client.old) }
{
    begin(client, now);
    if let Some(led) = &client.led {
        client.view.unpin(&led.entry.uses);
    }
    client.exchange = None;
    client.led = None;
}

fn recall(client: &mut Client, now: u64, no: LeaseNo)
    ensures { client.new ≡ with_recalled no (begun now client.old) }
{
    begin(client, now);
    client.view.recall(no);
}
