//! A part of a map that goes from one server to another.
ghost use Rattle.std.specs.Prelude.{◌≡◌, ◌↔◌, ◌&&◌, IfOk, true, [], ◌∷◌};
ghost use Rattle.std.specs.List.{list_all};
ghost use Rattle.fs_ident.specs.Ident.{parent};
ghost use Rattle.fs_ident.specs.Ordered.{are_keys_in_order};
ghost use Rattle.fs_map.specs.Change.{before_all};
ghost use Rattle.fs_map.specs.Map.{IsPiece, gives, told_of};
ghost use Rattle.fs_map.specs.Lists.{begins_at, is_piece, tells_alike, tells_anew};

use crate::listed::{is_given, value_in};
use fs_ident::{FileId, List, Memory, Twin};
use std::alloc::Global;
use std::cmp::Ordering;

/// Which identifiers from the prefix on are given: the list begins with the prefix, is in order, and holds an identifier only
/// where it differs from the one above it.
#[derive(Debug, Drop)]
pub struct MapPiece {
    pub prefix: FileId,
    pub given: List<(FileId, bool)>,
}

impl MapPiece {
    /// Whether the list tells in the shortest way which identifiers from the prefix on are given.
    pub fn is_piece(&self) -> bool
        ensures test { result ≡ is_piece self.now.prefix self.now.given }
        ensures piece { result ≡ true ↔ IsPiece self.now.prefix self.now.given }
    {
        is_shortest(&self.prefix, self.given.as_slice())
    }

    /// Whether the identifier is given, where the list is in order (`is_in_order` is the test).
    pub fn finds(&self, id: &FileId) -> bool
        requires { are_keys_in_order self.now.given ≡ true }
        ensures { result ≡ gives self.now.prefix self.now.given id.now }
    {
        is_given(self.prefix.numbers(), self.given.as_slice(), id.numbers())
    }

    /// Whether the list is in order of identifier.
    pub fn is_in_order(&self) -> bool
        ensures { result ≡ are_keys_in_order self.now.given }
    {
        is_in_order(self.given.as_slice())
    }

    /// Whether the identifier is given. It goes over the whole piece, which may be in no order.
    pub fn gives(&self, id: &FileId) -> bool
        ensures { result ≡ gives self.now.prefix self.now.given id.now }
    {
        id.begins(&self.prefix) && last_told(self.given.as_slice(), id).unwrap_or(false)
    }
}

/// What the last prefix of the identifier tells, whatever the order of the list.
fn last_told(given: &[(FileId, bool)], id: &FileId) -> Option<bool>
    ensures { result ≡ told_of given.now id.now }
{
    let mut last = None;
    for (prefix, value) in given {
        if id.begins(prefix) {
            last = Some(*value);
        }
    }
    last
}

/// Whether the places rise.
fn is_in_order(given: &[(FileId, bool)]) -> bool
    ensures { result ≡ are_keys_in_order given.now }
{
    match given.split_first() {
        None => true,
        Some((first, rest)) => rises_from(&first.0, rest),
    }
}

/// Whether the places rise from the one on.
fn rises_from(first: &FileId, rest: &[(FileId, bool)]) -> bool
    ensures { result ≡ (before_all first.now rest.now && are_keys_in_order rest.now) }
{
    let mut last = first;
    for (place, _) in rest {
        match last.cmp(place) {
            Ordering::Less => last = place,
            _ => return false,
        }
    }
    true
}

/// Whether the first place is the prefix.
fn begins_at(prefix: &FileId, given: &[(FileId, bool)]) -> bool
    ensures { result ≡ begins_at prefix.now given.now }
{
    match given.first() {
        None => false,
        Some(entry) => entry.0 == *prefix,
    }
}

/// Whether the place above tells that too.
fn tells_alike(given: &[(FileId, bool)], place: &FileId, value: bool) -> bool
    requires { are_keys_in_order given.now ≡ true }
    ensures { result ≡ tells_alike given.now (parent place.now) value }
{
    match place.numbers().split_last() {
        None => false,
        Some((_, above)) => match value_in(given, above) {
            None => false,
            Some(other) => other == value,
        },
    }
}

/// Whether each place is the top one, or is below it and tells what the one above does not.
fn tell_anew(top: &FileId, given: &[(FileId, bool)]) -> bool
    requires { are_keys_in_order given.now ≡ true }
    ensures { result ≡ list_all (tells_anew top.now given.now) given.now }
{
    for (place, value) in given {
        if !place.begins(top) || place != top && tells_alike(given, place, *value) {
            return false;
        }
    }
    true
}

/// Whether the list tells in the shortest way which identifiers from the prefix on are given.
fn is_shortest(prefix: &FileId, given: &[(FileId, bool)]) -> bool
    ensures { result ≡ is_piece prefix.now given.now }
{
    begins_at(prefix, given) && is_in_order(given) && tell_anew(prefix, given)
}

/// All from the prefix on.
pub(crate) fn whole(alloc: Global, prefix: &FileId) -> Result<MapPiece, Memory>
    ensures prefix { IfOk result (λ p. p.prefix ≡ prefix.now) }
    ensures given { IfOk result (λ p. p.given ≡ (prefix.now, true) ∷ []) }
{
    let mut given = List::new(alloc);
    given.push((prefix.copy(alloc)?, true))?;
    Ok(MapPiece {
        prefix: prefix.copy(alloc)?,
        given,
    })
}

impl Twin for MapPiece {
    fn copy(&self, alloc: Global) -> Result<MapPiece, Memory> {
        Ok(MapPiece {
            prefix: self.prefix.copy(alloc)?,
            given: self.given.copy(alloc)?,
        })
    }

    fn discard(self) {}
}
