//! Leases that are asked back: who is told, and which go.
ghost use Rattle.std.specs.Prelude.{◌≡◌, true, ◌<◌, ◌||◌, not, map, slice_index_or, slice_set, vec_len, IfOk};
ghost use Rattle.std.specs.List.{filter, remove};
ghost use Rattle.fs_path.specs.Asked.{asks, asks_issued};
ghost use Rattle.fs_path.specs.Index.{IsHad, IsOver, are_rising, no_of_held};
ghost use Rattle.fs_path.specs.Leases.{goes_over};
ghost use Rattle.fs_path.specs.Returns.{asked_back, goes_back, held_after, is_of, recalls, releases, rests_on_asked};
ghost use Rattle.fs_path.specs.Tables.{leaving};
ghost use Rattle.fs_path.specs.declared.having.Having.{Having as TheHaving};

use crate::asked::{Asked, is_needed};
use crate::having::Having;
use crate::held_index::HeldIndex;
use crate::index::FileIndex;
use crate::issued::Issued;
use crate::numbered::place_of_held;
use crate::reads::copy_names;
use fs_ident::{FileId, List, Memory, PathNo};
use std::alloc::Global;

/// Those given out whose path goes over the file, as their holders are told.
pub(crate) fn recalls_over(
    alloc: Global,
    issued: &[Issued],
    over: &FileIndex,
    file: &FileId,
) -> Result<List<(u8, PathNo)>, Memory>
    requires { IsOver over.now issued.now }
    ensures { IfOk result (λ list. list ≡ recalls (goes_over file.now) issued.now) }
{
    if over.is_whole() {
        copy_names(alloc, over.at(file))
    } else {
        walk_recalls_over(alloc, issued, file)
    }
}

/// Those given out whose path goes over the file, by a walk over all paths.
#[tactic(auto, using(crate::proofs::Steps::filter_step))]
fn walk_recalls_over(
    alloc: Global,
    issued: &[Issued],
    file: &FileId,
) -> Result<List<(u8, PathNo)>, Memory>
    ensures { IfOk result (λ list. list ≡ recalls (goes_over file.now) issued.now) }
{
    let mut list = List::new(alloc);
    for l in issued {
        if l.goes_over(file) {
            list.push(l.named_to_peer())?;
        }
    }
    Ok(list)
}

/// Those given out whose path goes over the file of the lease of the number, as their holders are told.
pub(crate) fn recalls_under(
    alloc: Global,
    issued: &[Issued],
    over: &FileIndex,
    held: &[Having],
    had: &HeldIndex,
    no: PathNo,
) -> Result<List<(u8, PathNo)>, Memory>
    requires over { IsOver over.now issued.now }
    requires had { IsHad had.now held.now }
    ensures { IfOk result (λ list. list ≡ recalls (rests_on_asked (is_of no) held.now) issued.now) }
{
    if had.own.is_whole() {
        found_under(alloc, issued, over, held, no)
    } else {
        recalls(alloc, issued, held, &Asked::Number(no))
    }
}

fn found_under(
    alloc: Global,
    issued: &[Issued],
    over: &FileIndex,
    held: &[Having],
    no: PathNo,
) -> Result<List<(u8, PathNo)>, Memory>
    requires over { IsOver over.now issued.now }
    requires rising { are_rising no_of_held held.now ≡ true }
    ensures { IfOk result (λ list. list ≡ recalls (rests_on_asked (is_of no) held.now) issued.now) }
{
    match place_of_held(held, no) {
        Some(at) => recalls_over(alloc, issued, over, held[at].file()),
        None => Ok(List::new(alloc)),
    }
}

/// Those given out that are asked back, by their own path or since it goes over the file of one that is.
#[tactic(auto, using(crate::proofs::Steps::filter_step))]
pub(crate) fn recalls(
    alloc: Global,
    issued: &[Issued],
    held: &[Having],
    asked: &Asked<'_>,
) -> Result<List<(u8, PathNo)>, Memory>
    ensures { IfOk result (λ list. list ≡
        recalls (λ l. asks_issued asked.now l || rests_on_asked (asks asked.now) held.now l)
        issued.now) }
{
    let mut list = List::new(alloc);
    for l in issued {
        if asked.asks_issued(l) || asked.stands_under(held, l) {
            list.push(l.named_to_peer())?;
        }
    }
    Ok(list)
}

/// Those from other servers that go back, as these are told.
#[tactic(auto, using(crate::proofs::Steps::filter_step))]
pub(crate) fn releases(
    alloc: Global,
    issued: &[Issued],
    over: &FileIndex,
    held: &[Having],
    asked: &Asked<'_>,
) -> Result<List<(u8, PathNo)>, Memory>
    requires { IsOver over.now issued.now }
    ensures { IfOk result (λ list. list ≡ releases (asks asked.now) issued.now held.now) }
{
    let mut list = List::new(alloc);
    for h in held {
        if asked.frees(h, issued, over) {
            list.push(h.named_to_peer())?;
        }
    }
    Ok(list)
}

/// Lets go the lease of the number where no path that was given out goes over its file; else it is leaving.
pub(crate) fn give_one_back(
    held: &mut Vec<Having>,
    had: &mut HeldIndex,
    issued: &[Issued],
    over: &FileIndex,
    no: PathNo,
)
    requires over { IsOver over.now issued.now }
    requires had { IsHad had.old held.old.items }
    ensures held { held.new.items ≡ held_after (is_of no) issued.now held.old.items }
    ensures had { IsHad had.new held.new.items }
{
    if had.own.is_whole() {
        give_found_back(held, had, issued, over, no);
    } else {
        give_back(held, had, issued, over, &Asked::Number(no));
    }
}

fn give_found_back(
    held: &mut Vec<Having>,
    had: &mut HeldIndex,
    issued: &[Issued],
    over: &FileIndex,
    no: PathNo,
)
    requires over { IsOver over.now issued.now }
    requires rising { are_rising no_of_held held.old.items ≡ true }
    requires had { IsHad had.old held.old.items }
    ensures held { held.new.items ≡ held_after (is_of no) issued.now held.old.items }
    ensures had { IsHad had.new held.new.items }
{
    match place_of_held(held, no) {
        Some(at) => {
            if is_needed(issued, over, &held[at]) {
                leave_at(held, at);
            } else {
                drop_held(held, had, at);
            }
        }
        None => {}
    }
}

/// Lets go what goes back; the others that are asked back are leaving.
pub(crate) fn give_back(
    held: &mut Vec<Having>,
    had: &mut HeldIndex,
    issued: &[Issued],
    over: &FileIndex,
    asked: &Asked<'_>,
)
    requires over { IsOver over.now issued.now }
    requires had { IsHad had.old held.old.items }
    ensures held { held.new.items ≡ held_after (asks asked.now) issued.now held.old.items }
    ensures had { IsHad had.new held.new.items }
{
    let_go(held, had, issued, over, asked);
    leave_all(held, asked);
}

/// Lets go what goes back.
fn let_go(
    held: &mut Vec<Having>,
    had: &mut HeldIndex,
    issued: &[Issued],
    over: &FileIndex,
    asked: &Asked<'_>,
)
    requires over { IsOver over.now issued.now }
    requires had { IsHad had.old held.old.items }
    ensures held { held.new.items ≡
        filter (λ h. not (goes_back (asks asked.now) issued.now h)) held.old.items }
    ensures had { IsHad had.new held.new.items }
{
    let mut at = 0;
    while at < held.len() {
        if asked.frees(&held[at], issued, over) {
            drop_held(held, had, at);
        } else {
            at += 1;
        }
    }
}

/// Spends the lease at the place.
pub(crate) fn drop_held(held: &mut Vec<Having>, had: &mut HeldIndex, at: usize)
    requires within { at < vec_len held.old }
    requires had { IsHad had.old held.old.items }
    ensures held { held.new.items ≡ remove held.old.items at }
    ensures had { IsHad had.new held.new.items }
    ensures whole { had.new.own.whole ≡ had.old.own.whole }
{
    let h = held.remove(at);
    had.forget(&h);
    h.released();
}

/// Those that are asked back are leaving.
fn leave_all(held: &mut Vec<Having>, asked: &Asked<'_>)
    ensures { held.new.items ≡ map (asked_back (asks asked.now)) held.old.items }
{
    let mut at = 0;
    while at < held.len() {
        if asked.asks(&held[at]) {
            leave_at(held, at);
        }
        at += 1;
    }
}

/// The lease at the place is leaving.
pub(crate) fn leave_at(held: &mut Vec<Having>, at: usize)
    requires { at < vec_len held.old }
    ensures len { vec_len held.new ≡ vec_len held.old }
    ensures set { (h : TheHaving) → h ≡ slice_index_or held.old.items at h →
        held.new.items ≡ slice_set held.old.items at (leaving h) }
{
    let h = held.remove(at).leave();
    match held.insert(at, h) {
        Ok(()) => {}
        Err(_) => unreachable!(),
    }
}
