//! The list of a map that has changed, and of what is given away.
//!
//! A place is listed where its value differs from that of the place above it. A value can differ there only where a
//! list from which it comes has an entry. What does not begin with the prefix of a change stays as it is.
ghost use Rattle.std.specs.Prelude.{◌≡◌, ◌==◌, ◌&&◌, ◌≤◌, ℕ, Bool, true, [], IsTrue, IfOk, IfSome, IsNone, OnOk, OnErr, nat_eq, vec_len};
ghost use Rattle.std.specs.Bool.{beq};
ghost use Rattle.std.specs.List.{list_any, splice};
ghost use Rattle.fs_ident.specs.Ordered.{are_keys_in_order};
ghost use Rattle.fs_map.specs.Change.{turned, IsNext};
ghost use Rattle.fs_map.specs.Lists.{map_after_hint, map_after_take, owns_given, piece_of, places_of};
ghost use Rattle.fs_map.specs.Part.{IsPartOf, is_as_above, new_part, part_after};
ghost use Rattle.fs_map.specs.Map.{IsMap, IsPiece, Tells, after_hint, after_take, gives, is_given, server_of};

use crate::listed::{is_given, server_of};
use crate::part::span;
use crate::piece::{MapPiece, whole};
use crate::taking::{begin, replace_part};
use fs_ident::{FileId, List, Memory, Twin};
use std::alloc::Global;
use std::cmp::Ordering;

/// The first prefix of two lists in order, and what is left of both.
fn next_place<'a, A, B>(
    old: &'a [(FileId, A)],
    new: &'a [(FileId, B)],
) -> Option<(&'a FileId, &'a [(FileId, A)], &'a [(FileId, B)])>
    requires old { IsTrue (are_keys_in_order old.now) }
    requires new { IsTrue (are_keys_in_order new.now) }
    ensures next { IfSome result (λ r. IsNext old.now new.now r.0.now r.1.now r.2.now) }
    ensures old_end { IsNone result → old.now ≡ [] }
    ensures new_end { IsNone result → new.now ≡ [] }
{
    let Some((o, old_rest)) = old.split_first() else {
        let Some((n, new_rest)) = new.split_first() else {
            return None;
        };
        return Some((&n.0, old, new_rest));
    };
    let Some((n, new_rest)) = new.split_first() else {
        return Some((&o.0, old_rest, new));
    };
    match o.0.cmp(&n.0) {
        Ordering::Less => Some((&o.0, old_rest, new)),
        Ordering::Equal => Some((&o.0, old_rest, new_rest)),
        Ordering::Greater => Some((&n.0, old, new_rest)),
    }
}

/// The server of an identifier after what the piece gives has come to a server.
fn server_after(owners: &[(FileId, u8)], piece: &MapPiece, to: u8, id: &[u32]) -> u8
    requires owners { IsTrue (are_keys_in_order owners.now) }
    requires given { IsTrue (are_keys_in_order piece.now.given) }
    ensures { result ≡ after_take owners.now to piece.now.prefix piece.now.given id.now }
{
    if is_given(piece.prefix.numbers(), piece.given.as_slice(), id) {
        to
    } else {
        server_of(owners, id)
    }
}

/// That server, where the place is below the prefix and this is not the server of the place above.
fn turned_server(owners: &[(FileId, u8)], piece: &MapPiece, to: u8, place: &FileId) -> Option<u8>
    requires owners { IsTrue (are_keys_in_order owners.now) }
    requires given { IsTrue (are_keys_in_order piece.now.given) }
    ensures { result ≡ turned nat_eq (after_take owners.now to piece.now.prefix piece.now.given)
        piece.now.prefix place.now }
{
    match place.numbers().split_last() {
        None => None,
        Some((_, above)) => {
            let server = server_after(owners, piece, to, place.numbers());
            if !above.starts_with(piece.prefix.numbers())
                || server_after(owners, piece, to, above) == server
            {
                None
            } else {
                Some(server)
            }
        }
    }
}

/// The list from the piece's prefix on after what the piece gives has come to a server, of which these owners begin
/// with the prefix.
fn part_after(
    alloc: Global,
    owners: &[(FileId, u8)],
    part: &[(FileId, u8)],
    piece: &MapPiece,
    to: u8,
) -> Result<List<(FileId, u8)>, Memory>
    requires map { IsMap owners.now }
    requires piece { IsPiece piece.now.prefix piece.now.given }
    requires part { IsPartOf piece.now.prefix part.now owners.now }
    ensures { IfOk result (λ l. l ≡ part_after owners.now to piece.now.prefix piece.now.given) }
{
    let server = server_after(owners, piece, to, piece.prefix.numbers());
    let mut listed = List::new(alloc);
    listed.push((piece.prefix.copy(alloc)?, server))?;
    let mut old = part;
    let mut new = piece.given.as_slice();
    while let Some((place, old_rest, new_rest)) = next_place(old, new) {
        if let Some(server) = turned_server(owners, piece, to, place) {
            listed.push((place.copy(alloc)?, server))?;
        }
        old = old_rest;
        new = new_rest;
    }
    Ok(listed)
}

/// Whether the place above the piece's prefix is at the same server then.
fn is_as_above(owners: &[(FileId, u8)], piece: &MapPiece, to: u8) -> bool
    requires owners { IsTrue (are_keys_in_order owners.now) }
    requires given { IsTrue (are_keys_in_order piece.now.given) }
    ensures { result ≡
        is_as_above owners.now to piece.now.prefix piece.now.given piece.now.prefix }
{
    let prefix = piece.prefix.numbers();
    match prefix.split_last() {
        None => false,
        Some((_, above)) => {
            server_after(owners, piece, to, above) == server_after(owners, piece, to, prefix)
        }
    }
}

/// What stands in the place of those owners: the prefix is listed where it is not as the place above.
pub(crate) fn new_part(
    alloc: Global,
    owners: &[(FileId, u8)],
    part: &[(FileId, u8)],
    piece: &MapPiece,
    to: u8,
) -> Result<List<(FileId, u8)>, Memory>
    requires map { IsMap owners.now }
    requires piece { IsPiece piece.now.prefix piece.now.given }
    requires part { IsPartOf piece.now.prefix part.now owners.now }
    ensures { IfOk result (λ l. l ≡ new_part owners.now to piece.now.prefix piece.now.given) }
{
    let mut listed = part_after(alloc, owners, part, piece, to)?;
    if is_as_above(owners, piece, to) {
        listed.remove(0);
    }
    Ok(listed)
}

/// The list of the map after what the piece gives has come to a server. Only what begins with the piece's prefix is
/// looked at and replaced. `Memory` when out of memory; the list is as it was then.
pub(crate) fn change(
    alloc: Global,
    owners: &mut List<(FileId, u8)>,
    piece: &MapPiece,
    to: u8,
) -> Result<(), Memory>
    requires map { IsMap owners.old }
    requires piece { IsPiece piece.now.prefix piece.now.given }
    ensures map { OnOk result
        (owners.new ≡ map_after_take owners.old to piece.now.prefix piece.now.given) }
    ensures servers { OnOk result
        (Tells owners.new (after_take owners.old to piece.now.prefix piece.now.given)) }
    ensures valid { IsMap owners.new }
    ensures err { OnErr result (owners.new ≡ owners.old) }
{
    let bounds = begin(alloc, owners, piece, to)?;
    replace_part(owners.items_mut(), bounds);
    Ok(())
}

/// The list of the map after all below a prefix is said to be at a server. `Memory` when out of memory; the list is
/// as it was then.
pub(crate) fn hint_all(
    alloc: Global,
    owners: &mut List<(FileId, u8)>,
    prefix: &FileId,
    to: u8,
) -> Result<(), Memory>
    requires { IsMap owners.old }
    ensures map { OnOk result (owners.new ≡ map_after_hint owners.old prefix.now to) }
    ensures servers { OnOk result (Tells owners.new (after_hint owners.old prefix.now to)) }
    ensures valid { IsMap owners.new }
    ensures err { OnErr result (owners.new ≡ owners.old) }
{
    let whole = whole(alloc, prefix)?;
    change(alloc, owners, &whole, to)
}

/// Whether the identifier is given, where it is below the prefix and this is not as it is above.
fn turned_given(owners: &[(FileId, u8)], me: u8, prefix: &FileId, place: &FileId) -> Option<bool>
    requires { IsTrue (are_keys_in_order owners.now) }
    ensures { result ≡ turned beq (λ id. server_of owners.now id == me)
        prefix.now place.now }
{
    match place.numbers().split_last() {
        None => None,
        Some((_, above)) => {
            let given = server_of(owners, place.numbers()) == me;
            if !above.starts_with(prefix.numbers()) || (server_of(owners, above) == me) == given {
                None
            } else {
                Some(given)
            }
        }
    }
}

/// Which identifiers from the prefix on are the server's, where the prefix is, and these owners begin with the prefix.
fn given_of(
    alloc: Global,
    owners: &[(FileId, u8)],
    part: &[(FileId, u8)],
    me: u8,
    prefix: &FileId,
) -> Result<List<(FileId, bool)>, Memory>
    requires map { IsMap owners.now }
    requires mine { server_of owners.now prefix.now ≡ me }
    requires part { IsPartOf prefix.now part.now owners.now }
    ensures { IfOk result (λ l. l ≡ piece_of owners.now me prefix.now) }
{
    let mut given = List::new(alloc);
    given.push((prefix.copy(alloc)?, true))?;
    for (place, _) in part {
        if let Some(turned) = turned_given(owners, me, prefix, place) {
            given.push((place.copy(alloc)?, turned))?;
        }
    }
    Ok(given)
}

/// What a server has below the prefix. Only what begins with it is looked at.
pub(crate) fn piece_of(
    alloc: Global,
    owners: &[(FileId, u8)],
    me: u8,
    prefix: &FileId,
) -> Result<MapPiece, Memory>
    requires map { IsMap owners.now }
    requires mine { server_of owners.now prefix.now ≡ me }
    ensures prefix { IfOk result (λ p. p.prefix ≡ prefix.now) }
    ensures listed { IfOk result (λ p. p.given ≡ piece_of owners.now me prefix.now) }
    ensures piece { IfOk result (λ p. IsPiece prefix.now p.given) }
    ensures given { IfOk result (λ p. (id : List ℕ) →
        gives prefix.now p.given id ≡ is_given owners.now me prefix.now id) }
{
    let (start, end) = span(owners, prefix.numbers());
    let given = given_of(alloc, owners, &owners[start..end], me, prefix)?;
    Ok(MapPiece {
        prefix: prefix.copy(alloc)?,
        given,
    })
}

/// Whether a place of either list is given, and the server's. Of the map's only what begins with the prefix is looked at,
/// since nothing else is given.
pub(crate) fn owns_given(owners: &[(FileId, u8)], me: u8, piece: &MapPiece) -> bool
    requires map { IsTrue (are_keys_in_order owners.now) }
    requires given { IsTrue (are_keys_in_order piece.now.given) }
    ensures { result ≡ owns_given owners.now me piece.now.prefix piece.now.given }
{
    let (start, end) = span(owners, piece.prefix.numbers());
    any_is_mine(owners, me, piece, &owners[start..end])
        || any_is_mine(owners, me, piece, piece.given.as_slice())
}

/// Whether one of the listed places is given, and the server's.
fn any_is_mine<V>(owners: &[(FileId, u8)], me: u8, piece: &MapPiece, listed: &[(FileId, V)]) -> bool
    requires map { IsTrue (are_keys_in_order owners.now) }
    requires given { IsTrue (are_keys_in_order piece.now.given) }
    ensures { result ≡ list_any (λ id. gives piece.now.prefix piece.now.given id
        && (server_of owners.now id == me)) (places_of listed.now) }
{
    for (place, _) in listed {
        if is_mine(owners, me, piece, place) {
            return true;
        }
    }
    false
}

/// Whether the identifier is given, and the server's.
fn is_mine(owners: &[(FileId, u8)], me: u8, piece: &MapPiece, id: &FileId) -> bool
    requires map { IsTrue (are_keys_in_order owners.now) }
    requires given { IsTrue (are_keys_in_order piece.now.given) }
    ensures { result ≡ (gives piece.now.prefix piece.now.given id.now
        && (server_of owners.now id.now == me)) }
{
    is_given(piece.prefix.numbers(), piece.given.as_slice(), id.numbers())
        && server_of(owners, id.numbers()) == me
}
