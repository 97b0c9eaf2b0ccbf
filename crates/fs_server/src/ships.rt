//! A log that is handed in.
ghost use Rattle.std.specs.Prelude.{◌≡◌, true, map, [], ◌∷◌, ◌++◌, IfOk, OnOk};
ghost use Rattle.std.specs.List.{list_all};
ghost use Rattle.std.specs.Option.{option_copied};
ghost use Rattle.fs_msg.specs.declared.entry.Entry.{Entry as TheEntry};
ghost use Rattle.fs_record.specs.Applied.{is_undoable};
ghost use Rattle.fs_server.specs.declared.change.Change.TheVariants as change;
ghost use Rattle.fs_server.specs.declared.state.Server.{Server as TheServer};
ghost use Rattle.fs_record.specs.Effects.{effects_of, tells_its_effects};
ghost use Rattle.fs_model.specs.Asking.{home_of};
ghost use Rattle.fs_server.specs.Decided.{CanDecide, stepped_by};
ghost use Rattle.fs_server.specs.Grants.{IsReady};
ghost use Rattle.fs_server.specs.Server.{is_mine};
ghost use Rattle.fs_server.specs.Shipped.{shipped_by};
ghost use Rattle.fs_server.specs.Ships.{first_gone, has_row, item_of, ship_from, ship_step, shipped};

use crate::at_reading::AtReading;
use crate::change::Change;
use crate::decide::{Decided, only, strange, to_session};
use crate::out::ServerOut;
use fs_field::{Effect, Use};
use fs_ident::{List, Memory, Peer, Session, Twin};
use fs_model::Op;
use fs_msg::{Answer, End, Entry, Item, ServerNote};
use fs_record::{effects, tells_its_effects};
use std::alloc::Global;

/// What a log came to so far: the effects of the entries that are admitted, and these as items.
#[derive(Drop)]
pub(crate) struct Taken {
    effects: List<Effect>,
    admitted: List<Item>,
}

/// The session hands in entries of its log.
pub(crate) fn ship(
    alloc: Global,
    at: &AtReading<'_>,
    by: Session,
    entries: &List<Entry>,
) -> Result<Decided, Memory>
    requires { IsReady at.now }
    ensures step { IfOk result (λ d. stepped_by d at.now ≡ ship_step by entries.now at.now) }
    ensures can { IfOk result (λ d. CanDecide d at.now) }
{
    if !tell_their_effects(entries.as_slice()) {
        return Ok(strange(alloc));
    }
    let (taken, end, gaps) = ship_entries(alloc, at, by, entries.as_slice())?;
    told(alloc, by, taken, end, gaps)
}

/// Whether each entry tells its effects.
fn tell_their_effects(entries: &[Entry]) -> bool
    ensures { result ≡ list_all (λ (e : TheEntry). tells_its_effects e.op) entries.now }
{
    entries.iter().all(|entry| tells_its_effects(&entry.op))
}

/// The entries in order, up to the first that is handed in at the wrong server, or that used a lease whose row is gone,
/// and the numbers of those behind the latter.
fn ship_entries(
    alloc: Global,
    at: &AtReading<'_>,
    by: Session,
    entries: &[Entry],
) -> Result<(Taken, End, List<u64>), Memory>
    requires { list_all (λ (e : TheEntry). tells_its_effects e.op) entries.now ≡ true }
    ensures shipped { IfOk result (λ s. shipped_by s.0 s.1 s.2 at.now ≡
        ship_from by entries.now at.now []) }
    ensures undoable { IfOk result (λ s. list_all is_undoable s.0.effects ≡ true) }
{
    let mut taken = Taken {
        effects: List::new(alloc),
        admitted: List::new(alloc),
    };
    for (i, entry) in entries.iter().enumerate() {
        if !is_here(at, &entry.op) {
            return Ok((taken, at.moved(alloc, entry.op.home())?, List::new(alloc)));
        }
        if let Some(gone) = first_gone(at, by, entry.uses.as_slice()) {
            let end = End::Ended {
                n: entry.n,
                lease: gone.no,
                until: gone.until,
                now: at.reading(),
            };
            return Ok((taken, end, numbers_of(alloc, &entries[i + 1..])?));
        }
        take(alloc, by, entry, &mut taken)?;
    }
    Ok((taken, End::All, List::new(alloc)))
}

/// Whether the operation is handed in where it is to be.
fn is_here(at: &AtReading<'_>, op: &Op) -> bool
    ensures { result ≡ is_mine at.now (home_of op.now) }
{
    at.is_mine(op.home())
}

/// The first use without its row.
pub(crate) fn first_gone<'a>(at: &AtReading<'_>, by: Session, uses: &'a [Use]) -> Option<&'a Use>
    ensures { option_copied result ≡ first_gone at.now.rows by uses.now }
{
    uses.iter().find(|used| !has_row(at, by, used))
}

fn has_row(at: &AtReading<'_>, by: Session, used: &Use) -> bool
    ensures { result ≡ has_row at.now.rows by used.now }
{
    at.rows().holds(used.no, by, &used.field, used.kind)
}

/// The entry is admitted.
fn take(alloc: Global, by: Session, entry: &Entry, taken: &mut Taken) -> Result<(), Memory>
    requires { tells_its_effects entry.now.op ≡ true }
    ensures effects { OnOk result (taken.new.effects ≡
        taken.old.effects ++ effects_of by entry.now.op entry.now.reply) }
    ensures admitted { OnOk result (taken.new.admitted ≡
        taken.old.admitted ++ item_of by entry.now ∷ []) }
{
    for e in effects(alloc, by, &entry.op, &entry.reply)?.into_vec() {
        taken.effects.push(e)?;
    }
    taken.admitted.push(Item {
        by: Peer::Client(by),
        n: entry.n,
        op: entry.op.copy(alloc)?,
        reply: entry.reply.copy(alloc)?,
    })?;
    Ok(())
}

/// The numbers of the entries.
fn numbers_of(alloc: Global, entries: &[Entry]) -> Result<List<u64>, Memory>
    ensures { IfOk result (λ numbers. numbers ≡ map (λ (e : TheEntry). e.n) entries.now) }
{
    let mut numbers = List::new(alloc);
    for entry in entries {
        numbers.push(entry.n)?;
    }
    Ok(numbers)
}

/// The session is told how many entries are admitted, and why no more.
fn told(
    alloc: Global,
    by: Session,
    taken: Taken,
    end: End,
    gaps: List<u64>,
) -> Result<Decided, Memory>
    ensures step { (s : TheServer) → IfOk result (λ d.
        stepped_by d s ≡ shipped by (shipped_by taken end gaps s)) }
    ensures change { IfOk result (λ d. d.change ≡ change.Admit taken.effects) }
{
    let count = taken.admitted.len() as u64;
    let note = ServerNote::Admits {
        count,
        end: end.copy(alloc)?,
        gaps,
    };
    Ok(Decided {
        change: Change::Admit {
            effects: taken.effects,
        },
        out: ServerOut {
            note,
            send: only(alloc, to_session(by, Answer::Shipped { count, end }))?,
            admitted: taken.admitted,
        },
    })
}
