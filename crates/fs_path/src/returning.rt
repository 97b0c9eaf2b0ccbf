//! Leases given out that are back, and those from other servers that go with them.
ghost use Rattle.std.specs.Prelude.{◌≡◌, true, not, option_map, IfOk, OnOk};
ghost use Rattle.std.specs.List.{filter, find, list_any};
ghost use Rattle.fs_path.specs.Freed.{freed_names, leaves, leaves_at, without_freed};
ghost use Rattle.fs_path.specs.Index.{IsHad, IsOver, IsOwn, are_rising, has_other, no_of_held, no_of_named};
ghost use Rattle.fs_path.specs.Leases.{goes_over, has_no};
ghost use Rattle.fs_path.specs.Merged.{with_each};
ghost use Rattle.fs_path.specs.Returns.{AreNeeded, held_after, is_of, releases, without_no};
ghost use Rattle.fs_path.specs.Tables.{is_leaving};

use crate::asked::{Asked, any_over};
use crate::giving::{drop_held, give_back};
use crate::having::Having;
use crate::held_index::HeldIndex;
use crate::index::FileIndex;
use crate::issued::Issued;
use crate::merging::put_once;
use crate::numbered::{place_of_held, place_of_issued};
use fs_ident::{FileId, List, Memory, PathNo};
use std::alloc::Global;

/// The leaving leases that go back with the one of this number that was given out, as their servers are told.
pub(crate) fn releases_with(
    alloc: Global,
    issued: &[Issued],
    over: &FileIndex,
    held: &[Having],
    had: &HeldIndex,
    no: PathNo,
) -> Result<List<(u8, PathNo)>, Memory>
    requires over { IsOver over.now issued.now }
    requires had { IsHad had.now held.now }
    requires needed { AreNeeded issued.now held.now }
    ensures { IfOk result (λ list. list ≡ releases is_leaving (without_no no issued.now) held.now) }
{
    if over.is_whole() && had.own.is_whole() {
        releases_under(alloc, issued, over, held, &had.own, no)
    } else {
        releases_but(alloc, issued, over, held, no)
    }
}

/// The lease of this number that was given out is back, and the leaving ones go that no path which was given out needs any more.
pub(crate) fn release(
    issued: &mut Vec<Issued>,
    over: &mut FileIndex,
    held: &mut Vec<Having>,
    had: &mut HeldIndex,
    no: PathNo,
)
    requires over { IsOver over.old issued.old.items }
    requires had { IsHad had.old held.old.items }
    requires needed { AreNeeded issued.old.items held.old.items }
    ensures issued { issued.new.items ≡ without_no no issued.old.items }
    ensures held { held.new.items ≡
        held_after is_leaving (without_no no issued.old.items) held.old.items }
    ensures over { IsOver over.new issued.new.items }
    ensures had { IsHad had.new held.new.items }
{
    if over.is_whole() && had.own.is_whole() {
        release_found(issued, over, held, had, no);
    } else {
        drop_issued(issued, over, no);
        give_back(held, had, issued, over, &Asked::Leaving);
    }
}

/// Those that go back with the lease of the number, found at the files of its path.
fn releases_under(
    alloc: Global,
    issued: &[Issued],
    over: &FileIndex,
    held: &[Having],
    own: &FileIndex,
    no: PathNo,
) -> Result<List<(u8, PathNo)>, Memory>
    requires over_whole { over.now.whole ≡ true }
    requires own_whole { own.now.whole ≡ true }
    requires over { IsOver over.now issued.now }
    requires own { IsOwn own.now held.now }
    requires needed { AreNeeded issued.now held.now }
    ensures { IfOk result (λ list. list ≡ releases is_leaving (without_no no issued.now) held.now) }
{
    match place_of_issued(issued, no) {
        Some(at) => {
            let path = issued[at].path().as_slice();
            releases_along(alloc, issued, over, held, own, path, no)
        }
        None => Ok(List::new(alloc)),
    }
}

/// The leaving leases of these files over which no path of another number goes, as their servers are told.
fn releases_along(
    alloc: Global,
    issued: &[Issued],
    over: &FileIndex,
    held: &[Having],
    own: &FileIndex,
    files: &[FileId],
    no: PathNo,
) -> Result<List<(u8, PathNo)>, Memory>
    requires whole { own.now.whole ≡ true }
    requires over { IsOver over.now issued.now }
    requires own { IsOwn own.now held.now }
    ensures { IfOk result (λ list. list ≡
        freed_names (without_no no issued.now) files.now held.now) }
{
    let mut list = List::new(alloc);
    for file in files {
        if !any_over_but(issued, over, no, file) {
            put_leaving(&mut list, held, own.at(file))?;
        }
    }
    Ok(list)
}

/// Each of these names whose lease leaves, in order of number.
fn put_leaving(
    list: &mut List<(u8, PathNo)>,
    held: &[Having],
    names: &[(u8, PathNo)],
) -> Result<(), Memory>
    requires list { are_rising no_of_named list.old ≡ true }
    requires held { are_rising no_of_held held.now ≡ true }
    ensures { OnOk result
        (list.new ≡ with_each (filter (λ n. leaves n.1 held.now) names.now) list.old) }
{
    for name in names {
        if leaves(held, name.1) {
            put_once(list, *name)?;
        }
    }
    Ok(())
}

/// Whether the lease of the number leaves.
fn leaves(held: &[Having], no: PathNo) -> bool
    requires { are_rising no_of_held held.now ≡ true }
    ensures { result ≡ leaves no held.now }
{
    match place_of_held(held, no) {
        Some(at) => held[at].is_leaving(),
        None => false,
    }
}

/// The lease of the number is back, and those go that are found at the files of its path.
fn release_found(
    issued: &mut Vec<Issued>,
    over: &mut FileIndex,
    held: &mut Vec<Having>,
    had: &mut HeldIndex,
    no: PathNo,
)
    requires over_whole { over.old.whole ≡ true }
    requires own_whole { had.old.own.whole ≡ true }
    requires over { IsOver over.old issued.old.items }
    requires had { IsHad had.old held.old.items }
    requires needed { AreNeeded issued.old.items held.old.items }
    ensures issued { issued.new.items ≡ without_no no issued.old.items }
    ensures held { held.new.items ≡
        held_after is_leaving (without_no no issued.old.items) held.old.items }
    ensures over { IsOver over.new issued.new.items }
    ensures had { IsHad had.new held.new.items }
{
    if let Some(l) = take_issued(issued, over, no) {
        let_go_along(held, had, issued, over, l.path().as_slice());
        l.released();
    }
}

/// The leaving leases of these files go over which no path goes.
fn let_go_along(
    held: &mut Vec<Having>,
    had: &mut HeldIndex,
    issued: &[Issued],
    over: &FileIndex,
    files: &[FileId],
)
    requires whole { had.old.own.whole ≡ true }
    requires over { IsOver over.now issued.now }
    requires had { IsHad had.old held.old.items }
    ensures held { held.new.items ≡ without_freed issued.now files.now held.old.items }
    ensures had { IsHad had.new held.new.items }
{
    for file in files {
        if !any_over(issued, over, file) {
            let_go_at(held, had, file);
        }
    }
}

/// The leaving leases of the file go.
fn let_go_at(held: &mut Vec<Having>, had: &mut HeldIndex, file: &FileId)
    requires whole { had.old.own.whole ≡ true }
    requires had { IsHad had.old held.old.items }
    ensures held { held.new.items ≡ filter (λ h. not (leaves_at file.now h)) held.old.items }
    ensures had { IsHad had.new held.new.items }
    ensures whole { had.new.own.whole ≡ true }
{
    while let Some(no) = first_leaving(held, had.own.at(file)) {
        drop_of(held, had, no);
    }
}

/// The number of the first of these whose lease leaves.
#[tactic(auto, using(crate::proofs::Steps::find_step))]
fn first_leaving(held: &[Having], names: &[(u8, PathNo)]) -> Option<PathNo>
    requires { are_rising no_of_held held.now ≡ true }
    ensures { result ≡ option_map (λ n. n.1) (find (λ n. leaves n.1 held.now) names.now) }
{
    for name in names {
        if leaves(held, name.1) {
            return Some(name.1);
        }
    }
    None
}

/// Spends the lease of the number.
fn drop_of(held: &mut Vec<Having>, had: &mut HeldIndex, no: PathNo)
    requires whole { had.old.own.whole ≡ true }
    requires had { IsHad had.old held.old.items }
    ensures held { held.new.items ≡ filter (λ h. not (is_of no h)) held.old.items }
    ensures had { IsHad had.new held.new.items }
    ensures whole { had.new.own.whole ≡ true }
{
    match place_of_held(held, no) {
        Some(at) => drop_held(held, had, at),
        None => {}
    }
}

/// Those that were asked back before and go back with the lease of this number that was given out, as their servers are told.
#[tactic(auto, using(crate::proofs::Steps::filter_step))]
fn releases_but(
    alloc: Global,
    issued: &[Issued],
    over: &FileIndex,
    held: &[Having],
    no: PathNo,
) -> Result<List<(u8, PathNo)>, Memory>
    requires { IsOver over.now issued.now }
    ensures { IfOk result (λ list. list ≡ releases is_leaving (without_no no issued.now) held.now) }
{
    let mut list = List::new(alloc);
    for h in held {
        if h.is_leaving() && !any_over_but(issued, over, no, h.file()) {
            list.push(h.named_to_peer())?;
        }
    }
    Ok(list)
}

/// Whether one of these paths goes over the file, but for those of this number.
fn any_over_but(issued: &[Issued], over: &FileIndex, no: PathNo, file: &FileId) -> bool
    requires { IsOver over.now issued.now }
    ensures { result ≡ list_any (goes_over file.now) (without_no no issued.now) }
{
    if over.is_whole() {
        has_other(over.at(file), no)
    } else {
        walk_over_but(issued, no, file)
    }
}

/// Whether one of the names has another number. No two have one, so it looks at two at most.
#[tactic(auto, using(crate::proofs::Steps::any_step))]
fn has_other(names: &[(u8, PathNo)], no: PathNo) -> bool
    ensures { result ≡ has_other no names.now }
{
    for name in names {
        if name.1 != no {
            return true;
        }
    }
    false
}

/// Whether the path of another number goes over the file, by a walk over all paths.
#[tactic(auto, using(crate::proofs::Steps::any_step))]
fn walk_over_but(issued: &[Issued], no: PathNo, file: &FileId) -> bool
    ensures { result ≡ list_any (goes_over file.now) (without_no no issued.now) }
{
    for l in issued {
        if l.no() != no && l.goes_over(file) {
            return true;
        }
    }
    false
}

/// Spends the leases given out that have the number.
fn drop_issued(issued: &mut Vec<Issued>, over: &mut FileIndex, no: PathNo)
    requires { IsOver over.old issued.old.items }
    ensures issued { issued.new.items ≡ without_no no issued.old.items }
    ensures index { IsOver over.new issued.new.items }
{
    if over.is_whole() {
        drop_found(issued, over, no);
    } else {
        walk_drop(issued, no);
    }
}

/// Spends the one of the number.
fn drop_found(issued: &mut Vec<Issued>, over: &mut FileIndex, no: PathNo)
    requires whole { over.old.whole ≡ true }
    requires index { IsOver over.old issued.old.items }
    ensures issued { issued.new.items ≡ without_no no issued.old.items }
    ensures index { IsOver over.new issued.new.items }
{
    if let Some(l) = take_issued(issued, over, no) {
        l.released();
    }
}

/// Takes out the one of the number, which is given out no more.
fn take_issued(issued: &mut Vec<Issued>, over: &mut FileIndex, no: PathNo) -> Option<Issued>
    requires whole { over.old.whole ≡ true }
    requires index { IsOver over.old issued.old.items }
    ensures taken { result ≡ find (has_no no) issued.old.items }
    ensures issued { issued.new.items ≡ without_no no issued.old.items }
    ensures index { IsOver over.new issued.new.items }
{
    match place_of_issued(issued, no) {
        Some(at) => {
            let l = issued.remove(at);
            over.forget(l.path().as_slice(), no);
            Some(l)
        }
        None => None,
    }
}

/// Spends each lease of the number, by a walk over all leases.
fn walk_drop(issued: &mut Vec<Issued>, no: PathNo)
    ensures { issued.new.items ≡ without_no no issued.old.items }
{
    let mut at = 0;
    while at < issued.len() {
        if issued[at].no() == no {
            issued.remove(at).released();
        } else {
            at += 1;
        }
    }
}
