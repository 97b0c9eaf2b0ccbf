//! Segments that came before their turn, each at its place.
ghost use Rattle.std.specs.Prelude.{◌≡◌, ◌≤◌, ◌++◌, ◌∷◌, [], Some, None, length, replicate, IfOk, IsOk, OnOk};
ghost use Rattle.fs_window.specs.LinkEnd.{without_hole, with_kept, is_filled};
ghost use Rattle.fs_window.specs.Undo.{changed};

use crate::queue::{Change, no_change, values_from};
use fs_frag::Segment;
use fs_ident::{List, Memory, Twin};
use std::alloc::Global;
use std::collections::LinkedList;

/// Adds the segments up to the first hole.
pub(crate) fn add_front(
    alloc: Global,
    kept: &LinkedList<Option<Segment>>,
    segments: &mut List<Segment>,
) -> Result<(), Memory>
    ensures { OnOk result (segments.new ≡ segments.old ++ without_hole kept.now) }
{
    for slot in kept {
        let Some(segment) = slot else {
            return Ok(());
        };
        segments.push(segment.copy(alloc)?)?;
    }
    Ok(())
}

/// How many segments there are up to the first hole.
pub(crate) fn front_len(kept: &LinkedList<Option<Segment>>) -> usize
    ensures count { result ≡ length (without_hole kept.now) }
    ensures within { result ≤ length kept.now }
{
    let mut len = 0;
    for slot in kept {
        if slot.is_none() {
            return len;
        }
        len += 1;
    }
    len
}

/// What keeps a segment at its place, if there is none yet.
#[tactic(auto, using(crate::proofs::Slots::keeping))]
pub(crate) fn keeping(
    alloc: Global,
    kept: &LinkedList<Option<Segment>>,
    place: usize,
    segment: &Segment,
) -> Result<Change<Option<Segment>>, Memory>
    ensures change { IfOk result (λ c. changed c kept.now ≡ with_kept place segment.now kept.now) }
    ensures no_memory { with_kept place segment.now kept.now ≡ kept.now → IsOk result }
{
    if is_filled(kept, place) {
        return Ok(no_change(alloc));
    }
    let holes = place.saturating_sub(kept.len());
    Ok(Change {
        at: place,
        count: 1,
        more: behind_holes(alloc, holes, segment)?,
    })
}

/// Whether a segment stands at the place.
fn is_filled(kept: &LinkedList<Option<Segment>>, place: usize) -> bool
    ensures { result ≡ is_filled place kept.now }
{
    match values_from(kept, place as u64).next() {
        Some(slot) => slot.is_some(),
        None => false,
    }
}

/// A segment behind so many holes.
fn behind_holes(
    alloc: Global,
    holes: usize,
    segment: &Segment,
) -> Result<LinkedList<Option<Segment>>, Memory>
    ensures { IfOk result (λ slots. slots ≡ replicate holes None ++ Some segment.now ∷ []) }
{
    let mut slots = LinkedList::new(alloc);
    for _ in 0..holes {
        slots.push_back(None)?;
    }
    slots.push_back(Some(segment.copy(alloc)?))?;
    Ok(slots)
}
