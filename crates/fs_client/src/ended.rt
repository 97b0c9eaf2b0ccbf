//! How an operation that was led ends.
ghost use Rattle.std.specs.Prelude.{◌≡◌, IfOk};
ghost use Rattle.fs_client.specs.Answers.{ended_plan, led_plan};
ghost use Rattle.fs_client.specs.Led.{hints_again};
ghost use Rattle.fs_record.specs.declared.led_end.LedEnd.TheVariants as ends;

use crate::acts::only_noted;
use crate::answers::strange;
use crate::at_reading::AtReading;
use crate::change::Change;
use crate::led::Led;
use crate::plan::{Plan, Ready};
use fs_ident::{Memory, Twin};
use fs_map::FileMap;
use fs_model::Reply;
use fs_msg::{ClientNote, ClientOut};
use fs_record::{LedEnd, Why, led_effects};
use std::alloc::Global;

/// What was led has ended so.
pub(crate) fn led_plan(
    alloc: Global,
    at: &AtReading<'_>,
    end: &LedEnd,
) -> Result<Plan<ClientNote>, Memory>
    ensures { IfOk result (λ p. p ≡ led_plan at.now.led end.now at.now) }
{
    match at.led() {
        None => Ok(strange(at)),
        Some(led) => ended_plan(alloc, at, led, end),
    }
}

fn ended_plan(
    alloc: Global,
    at: &AtReading<'_>,
    led: &Led,
    end: &LedEnd,
) -> Result<Plan<ClientNote>, Memory>
    ensures { IfOk result (λ p. p ≡ ended_plan led.now end.now at.now) }
{
    match end {
        LedEnd::Done { reply } => done(alloc, at, led, reply),
        LedEnd::Ended { lease, until, now } => Ok(only_noted(
            at,
            Change::LedFreed,
            ClientNote::LedEnded {
                lease: *lease,
                until: *until,
                now: *now,
            },
        )),
        LedEnd::Again { why } => again(alloc, at, led, why),
    }
}

/// It is admitted with this reply, and its effects are known.
fn done(
    alloc: Global,
    at: &AtReading<'_>,
    led: &Led,
    reply: &Reply,
) -> Result<Plan<ClientNote>, Memory>
    ensures { IfOk result (λ p. p ≡ ended_plan led.now (ends.Done reply.now) at.now) }
{
    let effects = led_effects(alloc, &led.entry.op, &led.file, reply)?;
    let reply = reply.copy(alloc)?;
    Ok(only_noted(
        at,
        Change::LedDone { effects },
        ClientNote::Led {
            n: led.entry.n,
            reply,
        },
    ))
}

/// It may be asked for again.
fn again(
    alloc: Global,
    at: &AtReading<'_>,
    led: &Led,
    why: &Why,
) -> Result<Plan<ClientNote>, Memory>
    ensures { IfOk result (λ p. p ≡ ended_plan led.now (ends.Again why.now) at.now) }
{
    let hints = hints_again(alloc, why, at.hints())?;
    let why = why.copy(alloc)?;
    Ok(Plan {
        ready: Ready {
            now: at.reading(),
            change: Change::LedFreed,
            hints,
        },
        out: ClientOut {
            note: ClientNote::LedAgain { why },
            send: None,
            admitted: None,
        },
    })
}

/// The map once another server is said to manage a file of it.
fn hints_again(alloc: Global, why: &Why, hints: &FileMap) -> Result<Option<FileMap>, Memory>
    ensures { IfOk result (λ told. told ≡ hints_again why.now hints.now) }
{
    match why {
        Why::Moved { prefix, to } => Ok(Some(hints.with_hint(alloc, prefix, *to)?)),
        _ => Ok(None),
    }
}
