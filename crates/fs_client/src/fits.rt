//! Which answers fit the question that stands.
ghost use Rattle.std.specs.Prelude.{◌≡◌, ◌&&◌, ◌≤◌, [], length, map, not};
ghost use Rattle.std.specs.List.{list_any};
ghost use Rattle.fs_ident.specs.Ident.{parent};
ghost use Rattle.fs_field.specs.Table.{same_no, is_parent};
ghost use Rattle.fs_field.specs.Field.{same_field};
ghost use Rattle.fs_field.specs.declared.field.Field.TheVariants.{Life};
ghost use Rattle.fs_field.specs.declared.lease_kind.LeaseKind.TheVariants.{Exclusive};
ghost use Rattle.fs_client.specs.Led.{can_end_with, end_fits};
ghost use Rattle.fs_client.specs.Answers.{answer_fits, begins_numbers, fits, fresh_fits, front_fits, grants_fit, is_entry_at, is_new, is_of_item, life_last, refusal_fits};

use crate::admits::front;
use crate::at_reading::AtReading;
use crate::exchange::Exchange;
use crate::led::Led;
use fs_field::{Field, LeaseKind};
use fs_ident::{FileId, LeaseNo};
use fs_model::{Op, Reply};
use fs_msg::{Answer, End, Entry, Grant};
use fs_record::LedEnd;

/// Whether the answer of that server fits the question that stands; a recall always does.
pub(crate) fn fits(at: &AtReading<'_>, from: u8, a: &Answer) -> bool
    ensures { result ≡ fits from at.now.exchange a.now at.now }
{
    match (at.exchange(), a) {
        (_, Answer::Recall { no: _ }) => true,
        (None, _) => false,
        (Some(exchange), a) => answer_fits(at, from, exchange, a),
    }
}

fn answer_fits(at: &AtReading<'_>, from: u8, exchange: &Exchange, a: &Answer) -> bool
    ensures { result ≡ answer_fits from exchange.now a.now at.now }
{
    match (exchange, a) {
        (
            Exchange::Asks { to, items, fresh },
            Answer::Granted {
                grants,
                fresh: given,
                end: _,
            },
        ) => {
            *to == from
                && fresh_fits(fresh, given)
                && grants_fit(at, items.as_slice(), given, grants.as_slice())
        }
        (Exchange::Renews { to, numbers }, Answer::Renewed { rows, end: _ }) => {
            *to == from && begins_numbers(numbers.as_slice(), rows.as_slice())
        }
        (Exchange::Releases { to, numbers }, Answer::Released { count, end: _ }) => {
            *to == from && *count <= numbers.len() as u64
        }
        (Exchange::Ships { to, count: sent }, Answer::Shipped { count, end }) => {
            *to == from
                && *count <= *sent
                && refusal_fits(end, *count, front(at.log().as_slice(), *sent as usize))
        }
        (Exchange::Leads { to }, Answer::Led { end }) => *to == from && end_fits(at.led(), end),
        _ => false,
    }
}

/// Whether something is led that can end so.
fn end_fits(led: &Option<Led>, end: &LedEnd) -> bool
    ensures { result ≡ end_fits led.now end.now }
{
    match (led, end) {
        (None, _) => false,
        (Some(led), LedEnd::Done { reply }) => can_end_with(&led.entry.op, reply),
        _ => true,
    }
}

/// Whether a server that led it can say that it is done with this reply.
fn can_end_with(op: &Op, reply: &Reply) -> bool
    ensures { result ≡ can_end_with op.now reply.now }
{
    matches!(
        (op, reply),
        (Op::Delete { .. }, Reply::Deleted)
            | (Op::Rename { .. }, Reply::Renamed)
            | (Op::Rename { .. }, Reply::Cycle)
    )
}

/// Whether the grants are of the items at the front, and behind them, where an identifier came, of that file's life.
fn grants_fit(
    at: &AtReading<'_>,
    items: &[(Field, LeaseKind)],
    fresh: &Option<FileId>,
    grants: &[Grant],
) -> bool
    ensures { result ≡ grants_fit items.now fresh.now at.now.view.leases grants.now }
{
    match fresh {
        None => front_fits(at, items, grants),
        Some(id) => life_last(at, items, id, grants),
    }
}

/// Whether the grants are of the items at the front, in order.
fn front_fits(at: &AtReading<'_>, items: &[(Field, LeaseKind)], grants: &[Grant]) -> bool
    ensures { result ≡ front_fits items.now at.now.view.leases [] grants.now }
{
    for done in 0..grants.len() {
        if done == items.len() {
            return false;
        }
        if !is_next(at, &items[done], &grants[..done], &grants[done]) {
            return false;
        }
    }
    true
}

/// Whether the last grant is the exclusive lease on the new file's life, and those before it are of the items at the
/// front.
#[tactic(auto, using(crate::proofs::FitsSteps::last_is, crate::proofs::FitsSteps::none_last))]
fn life_last(
    at: &AtReading<'_>,
    items: &[(Field, LeaseKind)],
    id: &FileId,
    grants: &[Grant],
) -> bool
    ensures { result ≡ life_last items.now id.now at.now.view.leases [] grants.now }
{
    match grants.split_last() {
        None => false,
        Some((last, before)) => {
            front_fits(at, items, before) && is_life_of(id, last) && is_new(at, before, last)
        }
    }
}

/// Whether the grant is of this item, and its number is new.
fn is_next(at: &AtReading<'_>, item: &(Field, LeaseKind), before: &[Grant], g: &Grant) -> bool
    ensures { result ≡
        (is_of_item item.now g.now && is_new at.now.view.leases before.now g.now) }
{
    is_of_item(&item.0, item.1, g) && is_new(at, before, g)
}

/// Whether the grant is of this item, with a value of its field.
fn is_of_item(field: &Field, kind: LeaseKind, g: &Grant) -> bool
    ensures { result ≡ is_of_item (field.now, kind) g.now }
{
    g.field.is(field) && g.kind == kind && g.value.is_of(&g.field)
}

/// Whether no lease has its number, and none of these grants.
fn is_new(at: &AtReading<'_>, before: &[Grant], g: &Grant) -> bool
    ensures { result ≡ is_new at.now.view.leases before.now g.now }
{
    !at.has(g.no) && !is_among(before, g.no)
}

fn is_among(grants: &[Grant], no: LeaseNo) -> bool
    ensures { result ≡ list_any (λ b. same_no b.no no) grants.now }
{
    grants.iter().any(|b| b.no == no)
}

fn is_life_of(id: &FileId, g: &Grant) -> bool
    ensures { result ≡ is_of_item (Life id.now, Exclusive) g.now }
{
    is_life(id, &g.field) && g.kind == LeaseKind::Exclusive && g.value.is_of(&g.field)
}

/// Whether an identifier comes only below the directory that was named.
fn fresh_fits(asked: &Option<FileId>, given: &Option<FileId>) -> bool
    ensures { result ≡ fresh_fits asked.now given.now }
{
    match (asked, given) {
        (_, None) => true,
        (None, Some(_)) => false,
        (Some(dir), Some(id)) => is_child(dir, id),
    }
}

/// Whether the file stands right below the directory.
fn is_child(dir: &FileId, id: &FileId) -> bool
    ensures { result ≡ is_parent dir.now (parent id.now) }
{
    match id.numbers().split_last() {
        None => false,
        Some((_, front)) => front == dir.numbers(),
    }
}

/// Whether it is the exclusive lease on the life of the file that the field is on.
pub(crate) fn is_life(id: &FileId, field: &Field) -> bool
    ensures { result ≡ same_field field.now (Life id.now) }
{
    match field {
        Field::Life(file) => file == id,
        _ => false,
    }
}

/// Whether the numbers are those at the front of the ones that were sent.
fn begins_numbers(sent: &[LeaseNo], rows: &[(LeaseNo, Option<u64>)]) -> bool
    ensures { result ≡ begins_numbers sent.now (map (λ row. row.0) rows.now) }
{
    for at in 0..rows.len() {
        if at == sent.len() {
            return false;
        }
        if sent[at] != rows[at].0 {
            return false;
        }
    }
    true
}

/// Whether a refused entry is the one behind those that were admitted, of these that were handed in.
fn refusal_fits(end: &End, count: u64, sent: &[Entry]) -> bool
    ensures { result ≡ refusal_fits end.now count sent.now }
{
    match end {
        End::Ended {
            n,
            lease: _,
            until: _,
            now: _,
        } => is_entry_at(*n, count as usize, sent),
        _ => true,
    }
}

/// Whether the entry at the place has the number.
fn is_entry_at(n: u64, at: usize, log: &[Entry]) -> bool
    ensures { result ≡ is_entry_at n at log.now }
{
    if at < log.len() {
        return log[at].n == n;
    }
    false
}
