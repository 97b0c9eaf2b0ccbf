//! A client and the answers of its servers, by scripts.
ghost use Rattle.std.specs.Prelude.{◌≡◌, ◌≤◌, true};
ghost use Rattle.fs_ident.specs.declared.limits.TheConstants.{LATEST};
ghost use Rattle.fs_model.specs.Asking.{may_ask};

mod asked;
mod hints;
mod led;
mod opens;
mod said;

use crate::forms::{copied, none_such, reads, same, spend, text_of};
use asked::{Asking, op_of};
use fs_client::{ClientCore, Plan};
use fs_ident::{LATEST, Session, Twin};
use fs_model::Op;
use fs_msg::{Act, Answer, ClientMsg, ClientNote, ClientOut, Msg, read_whole};
use std::alloc::Global;
use std::process::Abort;
use std::test::Fail;

/// A note in short: its word and its number, and to which server something is sent.
pub(crate) type Short = (&'static str, u64, Option<u8>);

/// What comes to a client: an operation of its user, a turn, or the bytes of an answer of the server.
#[derive(Clone, Copy)]
pub(crate) enum Comes {
    Act(Asking),
    Turn,
    Heard(u8, &'static [u8]),
}

/// How it is told: by one call, or by a plan of which a copy is committed.
#[derive(Clone, Copy)]
pub(crate) enum Way {
    AtOnce,
    Planned,
}

/// A line of a script: a reading, what comes, and what is noted of it.
pub(crate) type Line = (u64, Comes, Short);

fn act_word(act: &Act) -> (&'static str, u64) {
    match act {
        Act::Replied { n, .. } => ("replied", *n),
        Act::ReadNow { n, .. } => ("read", *n),
        Act::Asked { needs, .. } => ("asked", needs.len() as u64),
        Act::Leading { n, .. } => ("leading", *n),
        Act::Busy { .. } => ("busy", 0),
        Act::NoIds { .. } => ("noids", 0),
        Act::Over { n } => ("over", *n),
    }
}

fn note_word(note: &ClientNote) -> (&'static str, u64) {
    match note {
        ClientNote::Ships { count, .. } => ("ships", *count),
        ClientNote::Releases { count, .. } => ("releases", *count),
        ClientNote::Renews { count, .. } => ("renews", *count),
        ClientNote::Idle => ("idle", 0),
        ClientNote::Granted { count, .. } => ("granted", *count),
        ClientNote::Renewed { count, .. } => ("renewed", *count),
        ClientNote::Released { count, .. } => ("released", *count),
        ClientNote::Shipped { count, .. } => ("shipped", *count),
        ClientNote::Recall { no } => ("recall", no.count),
        ClientNote::Led { n, .. } => ("led", *n),
        ClientNote::LedAgain { .. } => ("led again", 0),
        ClientNote::LedEnded { lease, .. } => ("led ended", lease.count),
        ClientNote::Strange => ("strange", 0),
    }
}

fn sent_to(send: &Option<(u8, ClientMsg)>) -> Option<u8> {
    match send {
        None => None,
        Some((to, _)) => Some(*to),
    }
}

fn acted(out: &ClientOut<Act>) -> Short {
    let (word, number) = act_word(&out.note);
    (word, number, sent_to(&out.send))
}

fn noted(out: &ClientOut<ClientNote>) -> Short {
    let (word, number) = note_word(&out.note);
    (word, number, sent_to(&out.send))
}

fn acts(
    alloc: Global,
    core: &mut ClientCore,
    now: u64,
    asking: Asking,
    way: Way,
) -> Result<Short, Fail>
    requires { now ≤ LATEST }
{
    let op = op_of(alloc, asking)?;
    let short = match way {
        Way::AtOnce => act(alloc, core, now, &op),
        Way::Planned => plan_act(alloc, core, now, &op),
    };
    spend(op);
    short
}

fn act(alloc: Global, core: &mut ClientCore, now: u64, op: &Op) -> Result<Short, Fail>
    requires reading { now ≤ LATEST }
    requires asked { may_ask op.now ≡ true }
{
    let out = core.act(alloc, now, op)?;
    let short = acted(&out);
    spend(out);
    Ok(short)
}

fn plan_act(alloc: Global, core: &mut ClientCore, now: u64, op: &Op) -> Result<Short, Fail>
    requires reading { now ≤ LATEST }
    requires asked { may_ask op.now ≡ true }
{
    let Plan { ready, out } = copied(alloc, core.plan_act(alloc, now, op)?)?;
    let short = acted(&out);
    spend(out);
    core.commit(alloc, ready)?;
    Ok(short)
}

fn turn(alloc: Global, core: &mut ClientCore, now: u64) -> Result<Short, Fail>
    requires { now ≤ LATEST }
{
    let out = core.turn(alloc, now)?;
    let short = noted(&out);
    spend(out);
    Ok(short)
}

fn plan_turn(alloc: Global, core: &mut ClientCore, now: u64) -> Result<Short, Fail>
    requires { now ≤ LATEST }
{
    let Plan { ready, out } = copied(alloc, core.plan_turn(alloc, now)?)?;
    let short = noted(&out);
    spend(out);
    core.commit(alloc, ready)?;
    Ok(short)
}

fn answer_of(alloc: Global, bytes: &[u8]) -> Result<Answer, Fail> {
    match read_whole(alloc, bytes)? {
        Msg::Answer(answer) => Ok(answer),
        Msg::Client(m) => none_such(m),
        Msg::Peer(m) => none_such(m),
    }
}

/// The answer of these bytes comes from the server.
pub(crate) fn hears(
    alloc: Global,
    core: &mut ClientCore,
    now: u64,
    from: u8,
    bytes: &[u8],
    way: Way,
) -> Result<Short, Fail>
    requires { now ≤ LATEST }
{
    let answer = answer_of(alloc, bytes)?;
    let short = match way {
        Way::AtOnce => hear(alloc, core, now, from, &answer),
        Way::Planned => plan_hear(alloc, core, now, from, &answer),
    };
    spend(answer);
    short
}

fn hear(
    alloc: Global,
    core: &mut ClientCore,
    now: u64,
    from: u8,
    answer: &Answer,
) -> Result<Short, Fail>
    requires { now ≤ LATEST }
{
    let out = core.on_answer(alloc, now, from, answer)?;
    let short = noted(&out);
    spend(out);
    Ok(short)
}

fn plan_hear(
    alloc: Global,
    core: &mut ClientCore,
    now: u64,
    from: u8,
    answer: &Answer,
) -> Result<Short, Fail>
    requires { now ≤ LATEST }
{
    let Plan { ready, out } = copied(alloc, core.plan_answer(alloc, now, from, answer)?)?;
    let short = noted(&out);
    spend(out);
    core.commit(alloc, ready)?;
    Ok(short)
}

/// What is noted.
fn come(
    alloc: Global,
    core: &mut ClientCore,
    now: u64,
    comes: Comes,
    way: Way,
) -> Result<Short, Fail> {
    if now > LATEST {
        return Err(Fail::from("it is too late"));
    }
    match comes {
        Comes::Act(asking) => acts(alloc, core, now, asking, way),
        Comes::Turn => match way {
            Way::AtOnce => turn(alloc, core, now),
            Way::Planned => plan_turn(alloc, core, now),
        },
        Comes::Heard(from, bytes) => hears(alloc, core, now, from, bytes, way),
    }
}

/// All that comes to the client, line by line.
pub(crate) fn plays(
    rt: &impl Abort,
    alloc: Global,
    core: &mut ClientCore,
    way: Way,
    script: &[Line],
) -> Result<(), Fail> {
    for (line, (now, comes, wanted)) in script.iter().enumerate() {
        let short = come(alloc, core, *now, *comes, way)?;
        same(rt, (line, short), (line, *wanted));
    }
    Ok(())
}

/// The scripts of a new client, one after another, in either way.
pub(crate) fn plays_new(rt: &impl Abort, alloc: Global, scripts: &[&[Line]]) -> Result<(), Fail> {
    for way in [Way::AtOnce, Way::Planned] {
        plays_in(rt, alloc, way, scripts)?;
    }
    Ok(())
}

fn plays_in(rt: &impl Abort, alloc: Global, way: Way, scripts: &[&[Line]]) -> Result<(), Fail> {
    let mut core = ClientCore::new(alloc, Session(1), 100)?;
    let done = plays_each(rt, alloc, &mut core, way, scripts);
    core.discard();
    done
}

fn plays_each(
    rt: &impl Abort,
    alloc: Global,
    core: &mut ClientCore,
    way: Way,
    scripts: &[&[Line]],
) -> Result<(), Fail> {
    for script in scripts {
        plays(rt, alloc, core, way, script)?;
    }
    Ok(())
}

/// A first create: asked for, granted, answered and handed in.
const CREATES: &[Line] = &[
    (0, Comes::Act(Asking::Create), ("asked", 3, Some(0))),
    (1, Comes::Heard(0, said::GRANTED), ("granted", 3, None)),
    (2, Comes::Act(Asking::Create), ("replied", 1, None)),
    (3, Comes::Turn, ("ships", 1, Some(0))),
    (3, Comes::Turn, ("idle", 0, None)),
];

/// It is admitted; then a read.
const ADMITTED: &[Line] = &[
    (4, Comes::Heard(0, said::SHIPPED_1), ("shipped", 1, None)),
    (5, Comes::Act(Asking::Lookup), ("read", 2, None)),
];

/// How many entries there are, whether the first is of the root, and whether an answer is waited for.
fn state(core: &ClientCore) -> (u64, bool, bool) {
    let is_of_root = match core.first_home() {
        Some(home) => home.numbers().is_empty(),
        None => false,
    };
    (core.entries(), is_of_root, core.waits())
}

/// The client as it is written for programmers, and a copy of it.
fn both_texts(alloc: Global, core: &ClientCore) -> Result<(String, String), Fail> {
    Ok((text_of(alloc, core)?, twin_text(alloc, core)?))
}

fn twin_text(alloc: Global, core: &ClientCore) -> Result<String, Fail> {
    let twin = core.copy(alloc)?;
    let text = text_of(alloc, &twin);
    twin.discard();
    text
}

/// A copy is the same.
fn is_copied(rt: &impl Abort, alloc: Global, core: &ClientCore) -> Result<(), Fail> {
    let (text, twin) = both_texts(alloc, core)?;
    reads(rt, twin, text.as_str());
    Ok(())
}

fn creates(rt: &impl Abort, alloc: Global, core: &mut ClientCore) -> Result<(), Fail> {
    plays(rt, alloc, core, Way::AtOnce, CREATES)?;
    same(rt, state(core), (1, true, true));
    is_copied(rt, alloc, core)?;
    plays(rt, alloc, core, Way::AtOnce, ADMITTED)?;
    same(rt, state(core), (0, false, false));
    Ok(())
}

#[test]
fn a_first_create(rt: HostRuntime) -> Result<(), Fail> {
    let mut core = ClientCore::new(rt.alloc(), Session(1), 100)?;
    let done = creates(&rt, rt.alloc(), &mut core);
    core.discard();
    done
}

const ENDS: &[Line] = &[
    (0, Comes::Act(Asking::Kind("/")), ("asked", 1, Some(0))),
    (0, Comes::Heard(0, said::ROOT), ("granted", 1, None)),
    (99, Comes::Act(Asking::Kind("/")), ("read", 1, None)),
    (100, Comes::Act(Asking::Kind("/")), ("asked", 1, Some(0))),
];

#[test]
fn a_lease_serves_to_its_last_reading(rt: HostRuntime) -> Result<(), Fail> {
    plays_new(&rt, rt.alloc(), &[ENDS])
}

/// A lease that its server asks for goes back once no entry uses it.
const RECALLS: &[Line] = &[
    (0, Comes::Act(Asking::Create), ("asked", 3, Some(0))),
    (1, Comes::Heard(0, said::GRANTED), ("granted", 3, None)),
    (2, Comes::Act(Asking::Create), ("replied", 1, None)),
    (3, Comes::Heard(0, said::RECALL_SECOND), ("recall", 2, None)),
    (4, Comes::Turn, ("ships", 1, Some(0))),
    (5, Comes::Heard(0, said::SHIPPED_1), ("shipped", 1, None)),
    (6, Comes::Turn, ("releases", 1, Some(0))),
    (7, Comes::Heard(0, said::RELEASED_2), ("strange", 0, None)),
    (7, Comes::Heard(0, said::RELEASED_1), ("released", 1, None)),
    (8, Comes::Act(Asking::Lookup), ("asked", 1, Some(0))),
    (9, Comes::Heard(0, said::NAME_FIRST), ("strange", 0, None)),
];

#[test]
fn a_recalled_lease_goes_back_when_it_is_free(rt: HostRuntime) -> Result<(), Fail> {
    plays_new(&rt, rt.alloc(), &[RECALLS])
}

/// A client whose entry is refused is over.
const REFUSED: &[Line] = &[
    (0, Comes::Act(Asking::Create), ("asked", 3, Some(0))),
    (1, Comes::Heard(0, said::GRANTED), ("granted", 3, None)),
    (2, Comes::Act(Asking::Create), ("replied", 1, None)),
    (2, Comes::Turn, ("ships", 1, Some(0))),
    (110, Comes::Heard(0, said::REFUSED_2), ("strange", 0, None)),
    (110, Comes::Heard(0, said::REFUSED_1), ("shipped", 0, None)),
];

const OVER: &[Line] = &[(110, Comes::Act(Asking::Kind("/")), ("over", 1, None))];

fn is_over(rt: &impl Abort, alloc: Global, core: &mut ClientCore) -> Result<(), Fail> {
    plays(rt, alloc, core, Way::AtOnce, REFUSED)?;
    same(rt, core.over(), Some(1));
    plays(rt, alloc, core, Way::AtOnce, OVER)
}

#[test]
fn a_refused_entry_ends_the_session(rt: HostRuntime) -> Result<(), Fail> {
    let mut core = ClientCore::new(rt.alloc(), Session(1), 100)?;
    let done = is_over(&rt, rt.alloc(), &mut core);
    core.discard();
    done
}

/// A directory without a number left.
const FULL: &[Line] = &[
    (0, Comes::Act(Asking::Create), ("asked", 3, Some(0))),
    (1, Comes::Heard(0, said::FULL), ("granted", 2, None)),
    (2, Comes::Act(Asking::Create), ("noids", 0, None)),
];

#[test]
fn a_full_directory_is_remembered(rt: HostRuntime) -> Result<(), Fail> {
    plays_new(&rt, rt.alloc(), &[FULL])
}

/// A lease has a later end, and is given up where its row is gone.
const RENEWS: &[Line] = &[
    (0, Comes::Act(Asking::Kind("/")), ("asked", 1, Some(0))),
    (0, Comes::Heard(0, said::ROOT), ("granted", 1, None)),
    (49, Comes::Turn, ("idle", 0, None)),
    (50, Comes::Turn, ("renews", 1, Some(0))),
    (
        51,
        Comes::Heard(0, said::RENEWED_SECOND),
        ("strange", 0, None),
    ),
    (51, Comes::Heard(0, said::RENEWED), ("renewed", 1, None)),
    (149, Comes::Act(Asking::Kind("/")), ("read", 1, None)),
    (149, Comes::Turn, ("renews", 1, Some(0))),
    (149, Comes::Heard(0, said::GONE), ("renewed", 1, None)),
    (149, Comes::Act(Asking::Kind("/")), ("asked", 1, Some(0))),
];

#[test]
fn leases_are_renewed(rt: HostRuntime) -> Result<(), Fail> {
    plays_new(&rt, rt.alloc(), &[RENEWS])
}

/// Answers that fit no question that stands, and answers to the question of a create that fit it in all but one thing:
/// they change nothing.
const STRANGE: &[Line] = &[
    (0, Comes::Heard(0, said::SHIPPED_0), ("strange", 0, None)),
    (0, Comes::Act(Asking::Create), ("asked", 3, Some(0))),
    // another server
    (1, Comes::Heard(1, said::ROOT), ("strange", 0, None)),
    // out of order
    (1, Comes::Heard(0, said::NAME_ALONE), ("strange", 0, None)),
    // of another kind
    (1, Comes::Heard(0, said::NAME_SHARED), ("strange", 0, None)),
    // with a value of another field
    (1, Comes::Heard(0, said::NAME_ALIVE), ("strange", 0, None)),
    // one number twice
    (1, Comes::Heard(0, said::ONE_NUMBER), ("strange", 0, None)),
    // an identifier of another directory
    (1, Comes::Heard(0, said::FRESH_BELOW), ("strange", 0, None)),
    // an identifier without the lease on its life
    (1, Comes::Heard(0, said::FRESH_ALONE), ("strange", 0, None)),
    // an identifier with the lease on its life behind what is not next
    (1, Comes::Heard(0, said::FRESH_BEHIND), ("strange", 0, None)),
    // and before it
    (1, Comes::Heard(0, said::FRESH_BEFORE), ("strange", 0, None)),
    // the answer to another question
    (1, Comes::Heard(0, said::GONE), ("strange", 0, None)),
    // the end of an operation that was not to be led
    (1, Comes::Heard(0, said::LED_AGAIN), ("strange", 0, None)),
    (1, Comes::Heard(0, said::GRANTED), ("granted", 3, None)),
    (2, Comes::Act(Asking::Create), ("replied", 1, None)),
    (2, Comes::Turn, ("ships", 1, Some(0))),
    // an entry that was written down meanwhile, and never handed in
    (3, Comes::Act(Asking::Kind("/")), ("replied", 2, None)),
    (
        3,
        Comes::Heard(0, said::REFUSED_BEHIND),
        ("strange", 0, None),
    ),
    (3, Comes::Heard(0, said::SHIPPED_2), ("strange", 0, None)),
    (3, Comes::Heard(0, said::SHIPPED_1), ("shipped", 1, None)),
];

/// An identifier comes with some of the items: then the others are asked for.
const EARLY: &[Line] = &[
    (0, Comes::Act(Asking::Create), ("asked", 3, Some(0))),
    (1, Comes::Heard(0, said::FRESH_EARLY), ("granted", 2, None)),
    (2, Comes::Act(Asking::Create), ("asked", 1, Some(0))),
];

#[test]
fn odd_answers_are_strange(rt: HostRuntime) -> Result<(), Fail> {
    plays_new(&rt, rt.alloc(), &[STRANGE])?;
    plays_new(&rt, rt.alloc(), &[EARLY])
}
