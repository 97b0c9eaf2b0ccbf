//! What a client makes of a delete or a rename of which nothing is missing.
ghost use Rattle.std.specs.Prelude.{◌≡◌, true, false, Some, IfOk, IsErrOf};
ghost use Rattle.fs_field.specs.declared.field.Field.TheVariants.{Child};
ghost use Rattle.fs_field.specs.declared.lease_kind.LeaseKind.TheVariants.{Exclusive};
ghost use Rattle.fs_model.specs.Asking.{home_of};
ghost use Rattle.fs_msg.specs.declared.core_error.Counter.{Counter as TheCounter};
ghost use Rattle.fs_msg.specs.declared.core_error.Counter.TheVariants.{Entries};
ghost use Rattle.fs_msg.specs.declared.core_error.CoreError.TheVariants as errors;
ghost use Rattle.fs_view.specs.View.{known_by, uses_in, walk_in};
ghost use Rattle.fs_client.specs.Acts.{answers_move, hinted, leads, leads_on, leads_or_waits, led_with, reads_or_waits};
ghost use Rattle.fs_client.specs.Client.{can_change, has_number_left};
ghost use Rattle.fs_client.specs.Led.{file_known, file_told, is_led, kind_known, kind_told, life_kind, moved_known};

use crate::acts::{reads, stays, unless_spent, uses_to_pin, waits};
use crate::at_reading::AtReading;
use crate::change::Change;
use crate::led::{Led, lead};
use crate::plan::{Plan, Ready};
use fs_field::{Field, LeaseKind, Need, Use, Value};
use fs_ident::{FileId, Kind, List, Memory, Name, Twin, copy_two};
use fs_model::{Op, Reply};
use fs_msg::{Act, Busy, ClientMsg, ClientOut, CoreError, Entry};
use std::alloc::Global;

/// It is led where it changes something, and else it is a read.
pub(crate) fn answer_move(
    alloc: Global,
    at: &AtReading<'_>,
    op: &Op,
    reply: Reply,
    items: &List<Need>,
) -> Result<Plan<Act>, CoreError>
    requires walked { items.now ≡ (walk_in at.now.view at.now.last op.now).items }
    ensures plan { IfOk result (λ p. p ≡ answers_move op.now reply at.now) }
    ensures can { IfOk result (λ p. can_change p.ready.change at.now ≡ true) }
    ensures spent { (counter : TheCounter) → IsErrOf result (errors.Spent counter) →
        (counter ≡ Entries) ×
        (can_change (answers_move op.now reply at.now).ready.change at.now ≡ false) }
{
    if is_led(op, &reply) {
        return leads_or_waits(alloc, at, op, reply, items);
    }
    reads_or_waits(alloc, at, op, reply)
}

/// Whether the operation that gets this reply takes a file away, or moves it to another place.
fn is_led(op: &Op, reply: &Reply) -> bool
    ensures { result ≡ is_led op.now reply.now }
{
    match (op, reply) {
        (Op::Delete { dir: _, name: _ }, Reply::Deleted) => true,
        (
            Op::Rename {
                sdir,
                sname,
                ddir,
                dname,
            },
            Reply::Renamed,
        ) => !(sdir == ddir && sname == dname),
        _ => false,
    }
}

/// It is a read, and waits until the log is empty.
fn reads_or_waits(
    alloc: Global,
    at: &AtReading<'_>,
    op: &Op,
    reply: Reply,
) -> Result<Plan<Act>, CoreError>
    ensures plan { IfOk result (λ p. p ≡ reads_or_waits op.now reply at.now) }
    ensures can { IfOk result (λ p. can_change p.ready.change at.now ≡ true) }
    ensures spent { (counter : TheCounter) → IsErrOf result (errors.Spent counter) →
        (counter ≡ Entries) ×
        (can_change (reads_or_waits op.now reply at.now).ready.change at.now ≡ false) }
{
    if at.log().is_empty() {
        return reads(alloc, at, op, reply);
    }
    Ok(waits(at, Busy::Log))
}

/// It is led, unless a question stands or the log is not empty.
fn leads_or_waits(
    alloc: Global,
    at: &AtReading<'_>,
    op: &Op,
    reply: Reply,
    items: &List<Need>,
) -> Result<Plan<Act>, CoreError>
    requires walked { items.now ≡ (walk_in at.now.view at.now.last op.now).items }
    ensures plan { IfOk result (λ p. p ≡ leads_or_waits op.now reply at.now) }
    ensures can { IfOk result (λ p. can_change p.ready.change at.now ≡ true) }
    ensures spent { (counter : TheCounter) → IsErrOf result (errors.Spent counter) →
        (counter ≡ Entries) ×
        (can_change (leads_or_waits op.now reply at.now).ready.change at.now ≡ false) }
{
    if at.exchange().is_some() {
        return Ok(waits(at, Busy::Exchange));
    }
    if at.log().is_empty() {
        return leads_on(alloc, at, op, reply, items);
    }
    Ok(waits(at, Busy::Log))
}

/// It is led, as what is known tells which file moves or goes.
fn leads_on(
    alloc: Global,
    at: &AtReading<'_>,
    op: &Op,
    reply: Reply,
    items: &List<Need>,
) -> Result<Plan<Act>, CoreError>
    requires walked { items.now ≡ (walk_in at.now.view at.now.last op.now).items }
    ensures plan { IfOk result (λ p. p ≡
        leads_on (moved_known (known_by at.now.view at.now.last) op.now) op.now reply at.now) }
    ensures can { IfOk result (λ p. can_change p.ready.change at.now ≡ true) }
    ensures spent { (counter : TheCounter) → IsErrOf result (errors.Spent counter) →
        (counter ≡ Entries) ×
        (can_change (leads_on (moved_known (known_by at.now.view at.now.last) op.now)
        op.now reply at.now).ready.change at.now ≡ false) }
{
    match moved(alloc, at, op)? {
        None => Ok(stays(
            at,
            Act::NoIds {
                dir: FileId::root(alloc),
            },
        )),
        Some((file, kind)) => lead_moved(alloc, at, op, reply, items, file, kind),
    }
}

/// The server that is said to manage its home is asked to lead it.
fn lead_moved(
    alloc: Global,
    at: &AtReading<'_>,
    op: &Op,
    reply: Reply,
    items: &List<Need>,
    file: FileId,
    kind: Kind,
) -> Result<Plan<Act>, CoreError>
    requires walked { items.now ≡ (walk_in at.now.view at.now.last op.now).items }
    ensures plan { IfOk result (λ p. p ≡
        leads_on (Some (file, kind)) op.now reply at.now) }
    ensures can { IfOk result (λ p. can_change p.ready.change at.now ≡ true) }
    ensures spent { (counter : TheCounter) → IsErrOf result (errors.Spent counter) →
        (counter ≡ Entries) ×
        (can_change (leads_on (Some (file, kind)) op.now reply at.now).ready.change at.now
        ≡ false) }
{
    unless_spent(at.next() < u64::MAX)?;
    let uses = uses_to_pin(alloc, at, items)?;
    Ok(leads_with(alloc, at, op, reply, file, kind, uses)?)
}

/// The entry that is led, with these leases that it used.
fn leads_with(
    alloc: Global,
    at: &AtReading<'_>,
    op: &Op,
    reply: Reply,
    file: FileId,
    kind: Kind,
    uses: List<Use>,
) -> Result<Plan<Act>, Memory>
    requires used { uses ≡ uses_in at.now.view at.now.last op.now }
    ensures { IfOk result (λ p. p ≡ leads_on (Some (file, kind)) op.now reply at.now) }
{
    let entry = Entry {
        n: at.next(),
        op: op.copy(alloc)?,
        reply,
        uses,
    };
    let to = at.hinted(op.home());
    leads(alloc, at, to, Led { entry, file, kind })
}

/// The server is asked to lead it.
fn leads(alloc: Global, at: &AtReading<'_>, to: u8, led: Led) -> Result<Plan<Act>, Memory>
    ensures { IfOk result (λ p. p ≡ leads to led at.now) }
{
    let lead = lead(alloc, &led)?;
    let n = led.entry.n;
    Ok(Plan {
        ready: Ready {
            now: at.reading(),
            change: Change::Lead { to, led },
            hints: None,
        },
        out: ClientOut {
            note: Act::Leading { n, to },
            send: Some((to, ClientMsg::Lead { lead })),
            admitted: None,
        },
    })
}

/// The file that moves or goes, and what it is.
fn moved(alloc: Global, at: &AtReading<'_>, op: &Op) -> Result<Option<(FileId, Kind)>, Memory>
    ensures { IfOk result (λ moved. moved ≡
        moved_known (known_by at.now.view at.now.last) op.now) }
{
    let Some(file) = file_known(alloc, at, op)? else {
        return Ok(None);
    };
    match kind_known(alloc, at, op, &file)? {
        None => Ok(None),
        Some(kind) => Ok(Some((file, kind))),
    }
}

/// The file that moves or goes, as the lease of its name tells it.
fn file_known(alloc: Global, at: &AtReading<'_>, op: &Op) -> Result<Option<FileId>, Memory>
    ensures { IfOk result (λ file. file ≡
        file_known (known_by at.now.view at.now.last) op.now) }
{
    match op {
        Op::Delete { dir, name } => child_known(alloc, at, dir, name),
        Op::Rename {
            sdir,
            sname,
            ddir: _,
            dname: _,
        } => child_known(alloc, at, sdir, sname),
        _ => Ok(None),
    }
}

/// The file that has the name.
fn child_known(
    alloc: Global,
    at: &AtReading<'_>,
    dir: &FileId,
    name: &Name,
) -> Result<Option<FileId>, Memory>
    ensures { IfOk result (λ file. file ≡ file_told
        (known_by at.now.view at.now.last (Child dir.now name.now) Exclusive)) }
{
    let (dir, name) = copy_two(alloc, dir, name)?;
    let value = at.known(alloc, &Field::Child(dir, name), LeaseKind::Exclusive)?;
    Ok(file_told(value))
}

fn file_told(value: Option<Value>) -> Option<FileId>
    ensures { result ≡ file_told value }
{
    match value {
        Some(Value::Child(child)) => child,
        _ => None,
    }
}

/// What the file is, as the lease on its life tells that the operation asks for.
fn kind_known(
    alloc: Global,
    at: &AtReading<'_>,
    op: &Op,
    file: &FileId,
) -> Result<Option<Kind>, Memory>
    ensures { IfOk result (λ kind. kind ≡
        kind_known (known_by at.now.view at.now.last) op.now file.now) }
{
    let field = Field::Life(file.copy(alloc)?);
    let value = at.known(alloc, &field, life_kind(op))?;
    Ok(kind_told(&value))
}

fn life_kind(op: &Op) -> LeaseKind
    ensures { result ≡ life_kind op.now }
{
    match op {
        Op::Delete { dir: _, name: _ } => LeaseKind::Exclusive,
        _ => LeaseKind::Shared,
    }
}

fn kind_told(value: &Option<Value>) -> Option<Kind>
    ensures { result ≡ kind_told value.now }
{
    match value {
        Some(Value::Life(kind)) => *kind,
        _ => None,
    }
}
