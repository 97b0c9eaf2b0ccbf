//! All leases that go into a part of the files are asked back.
ghost use Rattle.std.specs.Prelude.{◌≡◌, ◌≤◌, ◌<◌, ◌++◌, ◌∷◌, [], true, take, drop, List as Seq, slice_index_or, vec_len, IfOk, OnOk};
ghost use Rattle.std.specs.FinMap.{entries};
ghost use Rattle.std.specs.List.{filter, find, remove};
ghost use Rattle.fs_ident.specs.Maps.{map_of};
ghost use Rattle.fs_path.specs.Index.{AreRisingAt, IsHad, IsOver, are_rising, no_of_held, no_of_named};
ghost use Rattle.fs_path.specs.Into.{AreSomeOf, HasLeases, given_names, is_free, names_there, names_under, parted, parted_each, parts_at, with_under, without_those};
ghost use Rattle.fs_path.specs.Leases.{PathLease};
ghost use Rattle.fs_path.specs.Merged.{with_each};
ghost use Rattle.fs_path.specs.Returns.{held_after, is_asked_in, is_into, is_of, recalls, releases};
ghost use Rattle.fs_path.specs.declared.having.Having.{Having as TheHaving};

use crate::asked::{Asked, is_needed};
use crate::files::is_given;
use crate::giving::{self, give_back, leave_at};
use crate::having::Having;
use crate::held_index::HeldIndex;
use crate::index::FileIndex;
use crate::issued::Issued;
use crate::merging::put_each;
use crate::numbered::place_of_held;
use fs_ident::{FileId, List, Memory, PathNo};
use fs_map::FileMap;
use std::alloc::Global;

/// Those given out that are asked back, by their own path or since it goes over the file of one that is, as their holders are told.
pub(crate) fn recalls_into(
    alloc: Global,
    issued: &[Issued],
    over: &FileIndex,
    held: &[Having],
    had: &HeldIndex,
    map: &FileMap,
    me: u8,
    prefix: &FileId,
) -> Result<List<(u8, PathNo)>, Memory>
    requires over { IsOver over.now issued.now }
    requires had { IsHad had.now held.now }
    ensures { IfOk result (λ list. list ≡
        recalls (is_asked_in map.now me prefix.now held.now) issued.now) }
{
    if over.is_whole() && had.via.is_whole() {
        let mut list = over.names_into(alloc, map, me, prefix)?;
        let names = had.via.names_into(alloc, map, me, prefix)?;
        put_each_under(&mut list, over, held, names.as_slice())?;
        Ok(list)
    } else {
        giving::recalls(alloc, issued, held, &Asked::Into(map, me, prefix))
    }
}

/// The names at the files of the leases of these names join the others.
fn put_each_under(
    list: &mut List<(u8, PathNo)>,
    over: &FileIndex,
    held: &[Having],
    names: &[(u8, PathNo)],
) -> Result<(), Memory>
    requires list { are_rising no_of_named list.old ≡ true }
    requires held { are_rising no_of_held held.now ≡ true }
    ensures { OnOk result (list.new ≡ with_under over.now.files held.now names.now list.old) }
{
    for name in names {
        put_under(list, over, held, name.1)?;
    }
    Ok(())
}

/// The names at the file of the lease of the number join the others.
fn put_under(
    list: &mut List<(u8, PathNo)>,
    over: &FileIndex,
    held: &[Having],
    no: PathNo,
) -> Result<(), Memory>
    requires list { are_rising no_of_named list.old ≡ true }
    requires held { are_rising no_of_held held.now ≡ true }
    ensures { OnOk result (list.new ≡
        with_each (names_under over.now.files (find (is_of no) held.now)) list.old) }
{
    match place_of_held(held, no) {
        Some(at) => put_each(list, over.at(held[at].file())),
        None => Ok(()),
    }
}

/// Those from other servers that go back, as these are told.
pub(crate) fn releases_into(
    alloc: Global,
    issued: &[Issued],
    over: &FileIndex,
    held: &[Having],
    had: &HeldIndex,
    map: &FileMap,
    me: u8,
    prefix: &FileId,
) -> Result<List<(u8, PathNo)>, Memory>
    requires over { IsOver over.now issued.now }
    requires had { IsHad had.now held.now }
    ensures { IfOk result (λ list. list ≡
        releases (is_into map.now me prefix.now) issued.now held.now) }
{
    if had.via.is_whole() {
        let names = had.via.names_into(alloc, map, me, prefix)?;
        free_names(alloc, issued, over, held, names.as_slice())
    } else {
        giving::releases(alloc, issued, over, held, &Asked::Into(map, me, prefix))
    }
}

/// Those of these names whose lease no path that was given out needs.
#[tactic(auto, using(crate::proofs::Steps::filter_step))]
fn free_names(
    alloc: Global,
    issued: &[Issued],
    over: &FileIndex,
    held: &[Having],
    names: &[(u8, PathNo)],
) -> Result<List<(u8, PathNo)>, Memory>
    requires over { IsOver over.now issued.now }
    requires held { are_rising no_of_held held.now ≡ true }
    ensures { IfOk result (λ list. list ≡
        filter (λ n. is_free issued.now (find (is_of n.1) held.now)) names.now) }
{
    let mut list = List::new(alloc);
    for name in names {
        if is_free(issued, over, held, name.1) {
            list.push(*name)?;
        }
    }
    Ok(list)
}

/// Whether there is a lease of the number that no path that was given out needs.
fn is_free(issued: &[Issued], over: &FileIndex, held: &[Having], no: PathNo) -> bool
    requires over { IsOver over.now issued.now }
    requires held { are_rising no_of_held held.now ≡ true }
    ensures { result ≡ is_free issued.now (find (is_of no) held.now) }
{
    match place_of_held(held, no) {
        Some(at) => !is_needed(issued, over, &held[at]),
        None => false,
    }
}

/// Those from other servers go, or are leaving.
pub(crate) fn ask_back(
    held: &mut Vec<Having>,
    had: &mut HeldIndex,
    issued: &[Issued],
    over: &FileIndex,
    map: &FileMap,
    me: u8,
    prefix: &FileId,
)
    requires over { IsOver over.now issued.now }
    requires had { IsHad had.old held.old.items }
    ensures held { held.new.items ≡
        held_after (is_into map.now me prefix.now) issued.now held.old.items }
    ensures had { IsHad had.new held.new.items }
{
    if had.via.is_whole() {
        let front = part_into(held, &had.via, issued, over, map, me, prefix);
        let_go_behind(held, had, front);
    } else {
        give_back(held, had, issued, over, &Asked::Into(map, me, prefix));
    }
}

/// The leases whose names stand below the prefix are leaving, or go behind the others: so many are in front of those.
fn part_into(
    held: &mut Vec<Having>,
    via: &FileIndex,
    issued: &[Issued],
    over: &FileIndex,
    map: &FileMap,
    me: u8,
    prefix: &FileId,
) -> usize
    requires over { IsOver over.now issued.now }
    requires rising { are_rising no_of_held held.old.items ≡ true }
    ensures within { result ≤ vec_len held.new }
    ensures parts { parts_at result held.new.items ≡ parted_each issued.now
        (names_there map.now me prefix.now (entries (map_of via.now.files)))
        (parts_at (vec_len held.old) held.old.items) }
{
    let mut front = held.len();
    for entry in via.files().range(prefix..) {
        if !entry.0.begins(prefix) {
            return front;
        }
        front = part_given(held, front, issued, over, map, me, prefix, entry.0, entry.1);
    }
    front
}

/// So do those whose names stand at the file, where it is below the prefix and `me`'s.
fn part_given(
    held: &mut Vec<Having>,
    front: usize,
    issued: &[Issued],
    over: &FileIndex,
    map: &FileMap,
    me: u8,
    prefix: &FileId,
    file: &FileId,
    names: &List<(u8, PathNo)>,
) -> usize
    requires over { IsOver over.now issued.now }
    requires within { front ≤ vec_len held.old }
    requires rising { are_rising no_of_held (take front held.old.items) ≡ true }
    ensures within { result ≤ vec_len held.new }
    ensures parts { parts_at result held.new.items ≡ parted_each issued.now
        (given_names map.now me prefix.now (file.now, names.now)) (parts_at front held.old.items) }
{
    if is_given(map, me, prefix, file) {
        part_each(held, front, issued, over, names.as_slice())
    } else {
        front
    }
}

/// So do those of these names.
fn part_each(
    held: &mut Vec<Having>,
    front: usize,
    issued: &[Issued],
    over: &FileIndex,
    names: &[(u8, PathNo)],
) -> usize
    requires over { IsOver over.now issued.now }
    requires within { front ≤ vec_len held.old }
    requires rising { are_rising no_of_held (take front held.old.items) ≡ true }
    ensures within { result ≤ vec_len held.new }
    ensures parts { parts_at result held.new.items ≡
        parted_each issued.now names.now (parts_at front held.old.items) }
{
    let mut left = front;
    for name in names {
        left = part_one(held, left, issued, over, name.1);
    }
    left
}

/// So does that of the number.
fn part_one(
    held: &mut Vec<Having>,
    front: usize,
    issued: &[Issued],
    over: &FileIndex,
    no: PathNo,
) -> usize
    requires over { IsOver over.now issued.now }
    requires within { front ≤ vec_len held.old }
    requires rising { are_rising no_of_held (take front held.old.items) ≡ true }
    ensures within { result ≤ vec_len held.new }
    ensures parts { parts_at result held.new.items ≡
        parted issued.now no (parts_at front held.old.items) }
{
    match place_of_held(&held[..front], no) {
        Some(at) => {
            if is_needed(issued, over, &held[at]) {
                leave_at(held, at);
                front
            } else {
                put_behind(held, at);
                front - 1
            }
        }
        None => front,
    }
}

/// The lease at the place goes behind all others.
fn put_behind(held: &mut Vec<Having>, at: usize)
    requires { at < vec_len held.old }
    ensures len { vec_len held.new ≡ vec_len held.old }
    ensures put { (h : TheHaving) → h ≡ slice_index_or held.old.items at h →
        held.new.items ≡ remove held.old.items at ++ h ∷ [] }
{
    let h = held.remove(at);
    match held.push(h) {
        Ok(()) => {}
        Err(_) => unreachable!(),
    }
}

/// Spends those behind the first so many.
fn let_go_behind(held: &mut Vec<Having>, had: &mut HeldIndex, front: usize)
    requires within { front ≤ vec_len held.old }
    requires own { had.old.own.whole ≡ true → AreRisingAt had.old.own.files }
    requires via { had.old.via.whole ≡ true → AreRisingAt had.old.via.files }
    ensures held { held.new.items ≡ take front held.old.items }
    ensures had { (ls : Seq PathLease) → AreSomeOf (drop front held.old.items) ls →
        HasLeases had.old ls → HasLeases had.new (without_those (drop front held.old.items) ls) }
{
    while held.len() > front {
        let last = held.len() - 1;
        let h = held.remove(last);
        had.forget(&h);
        h.released();
    }
}
