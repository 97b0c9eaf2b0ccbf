//! What a client makes of an operation of its user.
ghost use Rattle.std.specs.Prelude.{◌≡◌, ◌≤◌, ◌⊎◌, true, false, IfOk, IfErr, OnOk, IsErrOf};
ghost use Rattle.std.specs.List.{filter_map};
ghost use Rattle.fs_ident.specs.declared.limits.TheConstants.{LATEST};
ghost use Rattle.fs_model.specs.Sound.{is_change};
ghost use Rattle.fs_msg.specs.declared.act.Act.TheVariants as act;
ghost use Rattle.fs_msg.specs.declared.core_error.Counter.{Counter as TheCounter};
ghost use Rattle.fs_msg.specs.declared.core_error.Counter.TheVariants.{Entries};
ghost use Rattle.fs_msg.specs.declared.core_error.CoreError.TheVariants as errors;
ghost use Rattle.fs_record.specs.Effects.{tells_its_effects};
ghost use Rattle.fs_view.specs.View.{can_pin_all, fresh, item_use, reply_in, uses_in, walk_in};
ghost use Rattle.fs_client.specs.Acts.{act_on, act_plan, answer_with, answers, answers_plain, ask_for, asks, is_act_spent, only_noted, reads, replies, stays, unless_led, with_id, worth};
ghost use Rattle.fs_client.specs.Client.{IsClient, can_change, can_commit, may_use_number};
ghost use Rattle.fs_client.specs.Live.{absent_from};

use crate::at_reading::AtReading;
use crate::change::Change;
use crate::exchange::Exchange;
use crate::moves::answer_move;
use crate::needs::{fresh_asked, full_dir, items_of, need_file, needs_at, worth};
use crate::plan::{Plan, Ready};
use crate::state::Client;
use fs_field::{Need, Use};
use fs_ident::{FileId, List, Memory, Peer, Twin};
use fs_model::{Op, Reply};
use fs_msg::{Act, Busy, ClientMsg, ClientOut, CoreError, Counter, Entry, Item};
use fs_record::{effects, tells_its_effects};
use fs_view::Walk;
use std::alloc::Global;

/// What the operation comes to at the reading; nothing changes.
pub(crate) fn plan(
    alloc: Global,
    client: &Client,
    now: u64,
    op: &Op,
) -> Result<Plan<Act>, CoreError>
    requires client { IsClient client.now }
    requires reading { now ≤ LATEST }
    ensures plan { IfOk result (λ p. p ≡ act_plan client.now now op.now) }
    ensures can { IfOk result (λ p. can_commit p.ready client.now ≡ true) }
    ensures spent { (counter : TheCounter) → IsErrOf result (errors.Spent counter) →
        (counter ≡ Entries) × (is_act_spent client.now now op.now ≡ true) }
    ensures only { is_act_spent client.now now op.now ≡ true →
        (IsErrOf result (errors.Spent Entries)) ⊎ (IsErrOf result errors.Memory) }
{
    let at = AtReading::at(client, now);
    act(alloc, &at, op)
}

/// What the operation comes to at the event.
fn act(alloc: Global, at: &AtReading<'_>, op: &Op) -> Result<Plan<Act>, CoreError>
    ensures plan { IfOk result (λ p. p ≡ act_on at.now.over op.now at.now) }
    ensures can { IfOk result (λ p. can_change p.ready.change at.now ≡ true) }
    ensures spent { (counter : TheCounter) → IsErrOf result (errors.Spent counter) →
        (counter ≡ Entries) ×
        (can_change (act_on at.now.over op.now at.now).ready.change at.now ≡ false) }
{
    if let Some(n) = at.over() {
        return Ok(stays(at, Act::Over { n }));
    }
    unless_led(alloc, at, op)
}

/// Nothing else is done while an operation is led.
fn unless_led(alloc: Global, at: &AtReading<'_>, op: &Op) -> Result<Plan<Act>, CoreError>
    ensures plan { IfOk result (λ p. p ≡ unless_led at.now.led op.now at.now) }
    ensures can { IfOk result (λ p. can_change p.ready.change at.now ≡ true) }
    ensures spent { (counter : TheCounter) → IsErrOf result (errors.Spent counter) →
        (counter ≡ Entries) ×
        (can_change (unless_led at.now.led op.now at.now).ready.change at.now ≡ false) }
{
    if at.led().is_some() {
        return Ok(waits(at, Busy::Led));
    }
    walked(alloc, at, op)
}

/// It is answered where nothing is missing, and else what is missing is asked for.
#[tactic(auto, using(crate::proofs::Needed::asking_can))]
fn walked(alloc: Global, at: &AtReading<'_>, op: &Op) -> Result<Plan<Act>, CoreError>
    ensures plan { IfOk result (λ p. p ≡
        answer_with (reply_in at.now.view at.now.last op.now) op.now at.now) }
    ensures can { IfOk result (λ p. can_change p.ready.change at.now ≡ true) }
    ensures spent { (counter : TheCounter) → IsErrOf result (errors.Spent counter) →
        (counter ≡ Entries) ×
        (let p = answer_with (reply_in at.now.view at.now.last op.now) op.now at.now in
        can_change p.ready.change at.now ≡ false) }
{
    let Walk { items, reply } = at.walk(alloc, op)?;
    let Some(reply) = reply else {
        return Ok(ask_for(alloc, at, items)?);
    };
    answer(alloc, at, op, reply, &items)
}

/// The reading and this change, and nothing but this is noted.
pub(crate) fn only_noted<N: Drop>(at: &AtReading<'_>, change: Change, note: N) -> Plan<N>
    ensures { result ≡ only_noted change note at.now }
{
    Plan {
        ready: Ready {
            now: at.reading(),
            change,
            hints: None,
        },
        out: ClientOut {
            note,
            send: None,
            admitted: None,
        },
    }
}

/// Nothing changes.
pub(crate) fn stays(at: &AtReading<'_>, act: Act) -> Plan<Act>
    ensures { result ≡ stays act at.now }
{
    only_noted(at, Change::Nothing, act)
}

/// It has to wait.
pub(crate) fn waits(at: &AtReading<'_>, what: Busy) -> Plan<Act>
    ensures { result ≡ stays (act.Busy what) at.now }
{
    stays(at, Act::Busy { what })
}

/// Something is missing.
#[tactic(auto, using(crate::proofs::Needed::nothing_worth, crate::proofs::Needed::something_worth))]
fn ask_for(alloc: Global, at: &AtReading<'_>, items: List<Need>) -> Result<Plan<Act>, Memory>
    ensures { IfOk result (λ p. let missing = absent_from at.now items in
        p ≡ ask_for missing (worth at.now.full missing) at.now) }
{
    let missing = at.missing_of(items);
    let needs = worth(at.full(), missing.copy(alloc)?);
    let Some(first) = needs.as_slice().first() else {
        let dir = full_dir(alloc, missing.as_slice())?;
        return Ok(stays(at, Act::NoIds { dir }));
    };
    let to = at.hinted(need_file(first));
    if at.exchange().is_some() {
        return Ok(waits(at, Busy::Exchange));
    }
    asks(alloc, at, to, needs)
}

/// All that is missing is told, and what is said to be at that server is asked for there.
pub(crate) fn asks(
    alloc: Global,
    at: &AtReading<'_>,
    to: u8,
    needs: List<Need>,
) -> Result<Plan<Act>, Memory>
    ensures { IfOk result (λ p. p ≡ asks to needs at.now) }
{
    let there = needs_at(at, to, needs.copy(alloc)?);
    let items = items_of(alloc, there.as_slice())?;
    let fresh = fresh_asked(alloc, there.as_slice())?;
    let exchange = Exchange::Asks {
        to,
        items: items.copy(alloc)?,
        fresh: fresh.copy(alloc)?,
    };
    Ok(Plan {
        ready: Ready {
            now: at.reading(),
            change: Change::Ask { exchange },
            hints: None,
        },
        out: ClientOut {
            note: Act::Asked { needs, to },
            send: Some((to, ClientMsg::Ask { items, fresh })),
            admitted: None,
        },
    })
}

/// Nothing is missing.
fn answer(
    alloc: Global,
    at: &AtReading<'_>,
    op: &Op,
    reply: Reply,
    items: &List<Need>,
) -> Result<Plan<Act>, CoreError>
    requires walked { items.now ≡ (walk_in at.now.view at.now.last op.now).items }
    ensures plan { IfOk result (λ p. p ≡ answers op.now reply at.now) }
    ensures can { IfOk result (λ p. can_change p.ready.change at.now ≡ true) }
    ensures spent { (counter : TheCounter) → IsErrOf result (errors.Spent counter) →
        (counter ≡ Entries) ×
        (can_change (answers op.now reply at.now).ready.change at.now ≡ false) }
{
    if tells_its_effects(op) {
        return answer_plain(alloc, at, op, reply, items);
    }
    answer_move(alloc, at, op, reply, items)
}

/// Nothing is missing of an operation that is neither a delete nor a rename.
fn answer_plain(
    alloc: Global,
    at: &AtReading<'_>,
    op: &Op,
    reply: Reply,
    items: &List<Need>,
) -> Result<Plan<Act>, CoreError>
    requires plain { tells_its_effects op.now ≡ true }
    requires walked { items.now ≡ (walk_in at.now.view at.now.last op.now).items }
    ensures plan { IfOk result (λ p. p ≡ answers_plain op.now reply at.now) }
    ensures can { IfOk result (λ p. can_change p.ready.change at.now ≡ true) }
    ensures spent { (counter : TheCounter) → IsErrOf result (errors.Spent counter) →
        (counter ≡ Entries) ×
        (can_change (answers_plain op.now reply at.now).ready.change at.now ≡ false) }
{
    if !is_change(&reply) && at.log().is_empty() {
        return reads(alloc, at, op, reply);
    }
    replies(alloc, at, op, reply, items)
}

/// Whether a number is left that no operation that is led may need.
fn may_use_number(at: &AtReading<'_>) -> bool
    ensures { result ≡ may_use_number at.now }
{
    at.next() < u64::MAX && at.led().is_none()
}

/// The count of entries is spent exactly where none is left.
pub(crate) fn unless_spent(left: bool) -> Result<(), CoreError>
    ensures left { OnOk result (left ≡ true) }
    ensures spent { IfErr result (λ e. (left ≡ false) × (e ≡ errors.Spent Entries)) }
{
    if left {
        return Ok(());
    }
    Err(CoreError::Spent {
        counter: Counter::Entries,
    })
}

/// The leases that the items are answered from, where one entry more can use each of them.
pub(crate) fn uses_to_pin(
    alloc: Global,
    at: &AtReading<'_>,
    items: &List<Need>,
) -> Result<List<Use>, CoreError>
    ensures uses { IfOk result (λ uses. uses ≡
        filter_map (item_use at.now.view at.now.last) items.now) }
    ensures can { IfOk result (λ uses. can_pin_all uses at.now.view.leases ≡ true) }
    ensures spent { (counter : TheCounter) → IsErrOf result (errors.Spent counter) →
        (counter ≡ Entries) ×
        (can_pin_all (filter_map (item_use at.now.view at.now.last) items.now)
        at.now.view.leases ≡ false) }
{
    let uses = at.uses_of(alloc, items)?;
    unless_spent(at.can_pin(&uses))?;
    Ok(uses)
}

/// It is answered and admitted at once.
pub(crate) fn reads(
    alloc: Global,
    at: &AtReading<'_>,
    op: &Op,
    reply: Reply,
) -> Result<Plan<Act>, CoreError>
    ensures plan { IfOk result (λ p. p ≡ reads op.now reply at.now) }
    ensures can { IfOk result (λ p. may_use_number at.now ≡ true) }
    ensures spent { (counter : TheCounter) → IsErrOf result (errors.Spent counter) →
        (counter ≡ Entries) × (may_use_number at.now ≡ false) }
{
    unless_spent(may_use_number(at))?;
    Ok(read(alloc, at, op, reply)?)
}

/// The item that is admitted, and the reply.
fn read(alloc: Global, at: &AtReading<'_>, op: &Op, reply: Reply) -> Result<Plan<Act>, Memory>
    ensures { IfOk result (λ p. p ≡ reads op.now reply at.now) }
{
    let item = Item {
        by: Peer::Client(at.session()),
        n: at.next(),
        op: with_id(alloc, at, op, &reply)?,
        reply: reply.copy(alloc)?,
    };
    Ok(Plan {
        ready: Ready {
            now: at.reading(),
            change: Change::Read,
            hints: None,
        },
        out: ClientOut {
            note: Act::ReadNow {
                n: at.next(),
                reply,
            },
            send: None,
            admitted: Some(item),
        },
    })
}

/// It is answered, and its entry joins the log.
fn replies(
    alloc: Global,
    at: &AtReading<'_>,
    op: &Op,
    reply: Reply,
    items: &List<Need>,
) -> Result<Plan<Act>, CoreError>
    requires plain { tells_its_effects op.now ≡ true }
    requires walked { items.now ≡ (walk_in at.now.view at.now.last op.now).items }
    ensures plan { IfOk result (λ p. p ≡ replies op.now reply at.now) }
    ensures can { IfOk result (λ p. can_change p.ready.change at.now ≡ true) }
    ensures spent { (counter : TheCounter) → IsErrOf result (errors.Spent counter) →
        (counter ≡ Entries) ×
        (can_change (replies op.now reply at.now).ready.change at.now ≡ false) }
{
    unless_spent(may_use_number(at))?;
    let uses = uses_to_pin(alloc, at, items)?;
    Ok(entry(alloc, at, op, reply, uses)?)
}

/// The entry of the operation, with these leases that it used.
fn entry(
    alloc: Global,
    at: &AtReading<'_>,
    op: &Op,
    reply: Reply,
    uses: List<Use>,
) -> Result<Plan<Act>, Memory>
    requires plain { tells_its_effects op.now ≡ true }
    requires used { uses ≡ uses_in at.now.view at.now.last op.now }
    ensures { IfOk result (λ p. p ≡ replies op.now reply at.now) }
{
    let op = with_id(alloc, at, op, &reply)?;
    let effects = effects(alloc, at.session(), &op, &reply)?;
    let entry = Entry {
        n: at.next(),
        op,
        reply: reply.copy(alloc)?,
        uses,
    };
    Ok(only_noted(
        at,
        Change::Reply { entry, effects },
        Act::Replied {
            n: at.next(),
            reply,
        },
    ))
}

/// A create that is made has the identifier that the view offers, and any other create none.
fn with_id(alloc: Global, at: &AtReading<'_>, op: &Op, reply: &Reply) -> Result<Op, Memory>
    ensures { IfOk result (λ o. o ≡ with_id at.now.view at.now.last op.now reply.now) }
{
    match (op, reply) {
        (
            Op::Create {
                dir,
                name,
                kind,
                id: _,
            },
            Reply::Made,
        ) => Ok(Op::Create {
            dir: dir.copy(alloc)?,
            name: name.copy(alloc)?,
            kind: *kind,
            id: fresh_copy(alloc, at, dir)?,
        }),
        (
            Op::Create {
                dir,
                name,
                kind,
                id: _,
            },
            _,
        ) => Ok(Op::Create {
            dir: dir.copy(alloc)?,
            name: name.copy(alloc)?,
            kind: *kind,
            id: None,
        }),
        (op, _) => op.copy(alloc),
    }
}

/// The identifier that the view offers for a new file in the directory.
fn fresh_copy(alloc: Global, at: &AtReading<'_>, dir: &FileId) -> Result<Option<FileId>, Memory>
    ensures { IfOk result (λ id. id ≡ fresh at.now.view at.now.last dir.now) }
{
    match at.fresh(dir) {
        None => Ok(None),
        Some(id) => Ok(Some(id.copy(alloc)?)),
    }
}

/// Whether the reply is one of a change.
fn is_change(reply: &Reply) -> bool
    ensures { result ≡ is_change reply.now }
{
    matches!(
        reply,
        Reply::Made
            | Reply::Opened
            | Reply::Closed
            | Reply::Set
            | Reply::Deleted
            | Reply::Renamed
            | Reply::Reaped
    )
}
