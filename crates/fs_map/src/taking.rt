//! A change of a map in two steps: what takes memory comes first, and nothing that stays is copied.
//!
//! What is to stand in the place of a part of the list is put behind the list. The change is then made by moves within it,
//! or given up by cutting that off.
ghost use Rattle.std.specs.Prelude.{◌≡◌, ◌≤◌, ◌+◌, ◌++◌, IfOk, OnOk, OnErr, length, take, drop, slice_range};
ghost use Rattle.std.specs.List.{splice};
ghost use Rattle.fs_map.specs.Lists.{map_after_take};
ghost use Rattle.fs_map.specs.Map.{IsMap, IsPiece};
ghost use Rattle.fs_map.specs.Part.{AreBounds, with_ends_exchanged, with_part_replaced};

use crate::change::new_part;
use crate::file_map::FileMap;
use crate::part::span;
use crate::piece::MapPiece;
use fs_ident::{FileId, List, Memory};
use std::alloc::Global;
use std::marker::Model;

/// A part of a list, from `start` to `end`, and how much of the list is kept where what stands behind does not come into
/// the part's place.
#[derive(Clone, Copy, Debug)]
pub(crate) struct Bounds {
    start: usize,
    end: usize,
    kept: usize,
}

/// A map that was taken out of its place for a change, with the memory that the change takes. It is not let go before
/// the change is made or given up.
#[derive(Debug)]
pub struct Taking {
    owners: List<(FileId, u8)>,
    bounds: Bounds,
}

impl Model for Taking {
    ghost use Rattle.std.specs.Prelude.{take};
    ghost use Rattle.fs_map.specs.Map.{IsMap, MapChange};
    ghost use Rattle.fs_map.specs.Part.{AreBounds, with_part_replaced};

    ghost Value = { MapChange };

    ghost view = { λ t. record {
      before = take t.bounds.kept t.owners;
      after = with_part_replaced t.owners t.bounds.start t.bounds.end t.bounds.kept;
    } };

    ghost invariant = { λ t. AreBounds t.owners t.bounds.start t.bounds.end t.bounds.kept ×
        (IsMap (take t.bounds.kept t.owners) ×
        IsMap (with_part_replaced t.owners t.bounds.start t.bounds.end t.bounds.kept)) };
}

impl Taking {
    /// The map of a list, with what is to stand in the place of a part of it behind it.
    pub(crate) fn new(owners: List<(FileId, u8)>, bounds: Bounds) -> Taking
        requires bounds { AreBounds owners bounds.start bounds.end bounds.kept }
        requires before { IsMap (take bounds.kept owners) }
        requires after { IsMap (with_part_replaced owners bounds.start bounds.end bounds.kept) }
        ensures before { result.before ≡ take bounds.kept owners }
        ensures after { result.after ≡
            with_part_replaced owners bounds.start bounds.end bounds.kept }
    {
        Taking { owners, bounds }
    }

    /// Makes the change: the map after it. It takes no memory.
    pub fn finish(self) -> FileMap
        ensures { result ≡ self.after }
    {
        let Taking { mut owners, bounds } = self;
        replace_part(owners.items_mut(), bounds);
        FileMap::of(owners)
    }

    /// Gives the change up: the map as it was. It takes no memory.
    pub fn give_up(self) -> FileMap
        ensures { result ≡ self.before }
    {
        let Taking { mut owners, bounds } = self;
        owners.truncate(bounds.kept);
        FileMap::of(owners)
    }
}

/// Puts what is to stand in the place of what begins with the piece's prefix, after what the piece gives has come to a
/// server, behind the list. Only what begins with the prefix is looked at. `Memory` when out of memory; the list is
/// as it was then.
pub(crate) fn begin(
    alloc: Global,
    owners: &mut List<(FileId, u8)>,
    piece: &MapPiece,
    to: u8,
) -> Result<Bounds, Memory>
    requires map { IsMap owners.old }
    requires piece { IsPiece piece.now.prefix piece.now.given }
    ensures bounds { IfOk result (λ b. AreBounds owners.new b.start b.end b.kept) }
    ensures before { IfOk result (λ b. take b.kept owners.new ≡ owners.old) }
    ensures after { IfOk result (λ b. with_part_replaced owners.new b.start b.end b.kept ≡
        map_after_take owners.old to piece.now.prefix piece.now.given) }
    ensures valid { IfOk result (λ b. IsMap (with_part_replaced owners.new b.start b.end b.kept)) }
    ensures err { OnErr result (owners.new ≡ owners.old) }
{
    let all = owners.as_slice();
    let (start, end) = span(all, piece.prefix.numbers());
    let kept = all.len();
    let part = new_part(alloc, all, &all[start..end], piece, to)?;
    put_behind(owners.items_mut(), part.into_vec())?;
    Ok(Bounds { start, end, kept })
}

/// Puts a part behind the list.
fn put_behind(owners: &mut Vec<(FileId, u8)>, part: Vec<(FileId, u8)>) -> Result<(), Memory>
    ensures ok { OnOk result (owners.new.items ≡ owners.old.items ++ part.items) }
    ensures err { OnErr result (owners.new.items ≡ owners.old.items) }
{
    let mut part = part;
    owners.append(&mut part)?;
    Ok(())
}

/// What stands behind the list comes into the place of the part.
pub(crate) fn replace_part(owners: &mut Vec<(FileId, u8)>, bounds: Bounds)
    requires { AreBounds owners.old.items bounds.start bounds.end bounds.kept }
    ensures { owners.new.items ≡
        with_part_replaced owners.old.items bounds.start bounds.end bounds.kept }
{
    bring_forward(owners.as_mut_slice(), bounds);
    owners.truncate(owners.len() - (bounds.end - bounds.start));
}

/// What stands behind the list comes into the place of the part, and the part to the end.
fn bring_forward(items: &mut [(FileId, u8)], bounds: Bounds)
    requires { AreBounds items.old bounds.start bounds.end bounds.kept }
    ensures { items.new ≡ with_part_replaced items.old bounds.start bounds.end bounds.kept ++
        slice_range items.old bounds.start bounds.end }
{
    let added = items.len() - bounds.kept;
    exchange_ends(&mut items[bounds.start..], bounds.end - bounds.start, added);
}

/// The last items come to the front, and the first to the end.
fn exchange_ends(items: &mut [(FileId, u8)], gone: usize, added: usize)
    requires { gone + added ≤ length items.old }
    ensures { items.new ≡ with_ends_exchanged items.old gone added }
{
    items.rotate_right(added);
    items[added..].rotate_left(gone);
}
