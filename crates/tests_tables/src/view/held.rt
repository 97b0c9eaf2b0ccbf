//! Leases that come together, are used, and go back.
ghost use Rattle.std.specs.Prelude.{◌≡◌, [], true, IfOk};
ghost use Rattle.fs_view.specs.View.{can_grant_all, lapsed_at};

use crate::forms::{count, kept, one, reads, same, shows, spend, text_of, with};
use crate::view::{FIRST, give_root};
use fs_field::{Field, LeaseKind, Need, Use, Value};
use fs_ident::{FileId, Kind, List, Session, Twin};
use fs_model::Op;
use fs_view::{NewLease, View, Walk};
use std::alloc::Global;
use std::process::Abort;
use std::test::Fail;

const SEEN: &str =
    "List { items: [Seen { no: LeaseNo { server: 0, count: 1 }, file: FileId { numbers: [] }, \
    until: Some(200), entries: 0, recalled: true }] }";

/// A copy of what others see of the leases is written so.
fn seen_are(rt: &impl Abort, alloc: Global, view: &View, wanted: &str) -> Result<(), Fail> {
    let leases = view.leases(alloc)?;
    let twin = leases.copy(alloc);
    spend(leases);
    shows(rt, alloc, twin?, wanted)
}

/// A lease is recalled, renewed, given back and released.
fn gives_back(rt: &impl Abort, alloc: Global, view: &mut View) -> Result<(), Fail> {
    give_root(alloc, view, 1, 100)?;
    view.recall(FIRST);
    view.renew(FIRST, 200);
    view.lapse(199);
    seen_are(rt, alloc, view, SEEN)?;
    view.leave(FIRST);
    same(rt, view.is_leaving(FIRST), true);
    view.lapse(200);
    if view.is_leaving(FIRST) {
        view.released(FIRST);
    }
    same(rt, view.has(FIRST), false);
    Ok(())
}

#[test]
fn a_lease_goes_back(rt: HostRuntime) -> Result<(), Fail> {
    let mut view = View::new(rt.alloc(), Session(1));
    let done = gives_back(&rt, rt.alloc(), &mut view);
    view.discard();
    done
}

/// The use of the first lease.
fn first_use(alloc: Global) -> Result<List<Use>, Fail> {
    let first = Use {
        field: Field::Life(FileId::root(alloc)),
        kind: LeaseKind::Shared,
        no: FIRST,
        until: 100,
    };
    Ok(one(alloc, first)?)
}

/// The lease is pinned, if it is there.
fn pin(view: &mut View, uses: &List<Use>) -> Result<(), Fail> {
    if !view.can_pin(uses) {
        return Err(Fail::from("it was granted"));
    }
    view.pin(uses);
    Ok(())
}

/// So a copy of it is written.
fn twin_text(alloc: Global, view: &View) -> Result<String, Fail> {
    let twin = view.copy(alloc)?;
    let shown = text_of(alloc, &twin);
    twin.discard();
    shown
}

/// A copy is written as the view is.
fn is_copied(rt: &impl Abort, alloc: Global, view: &View) -> Result<(), Fail> {
    let wanted = text_of(alloc, view)?;
    let (wanted, found) = with(wanted, twin_text(alloc, view))?;
    reads(rt, found, wanted.as_str());
    spend(wanted);
    Ok(())
}

/// A lease that an entry uses stays when its time is over, and when its row is gone.
fn is_pinned(rt: &impl Abort, view: &mut View, uses: &List<Use>) -> Result<(), Fail> {
    pin(view, uses)?;
    view.lapse(100);
    view.give_up(FIRST);
    same(rt, (view.has(FIRST), view.is_held(FIRST)), (true, false));
    Ok(())
}

/// Once no entry uses it, it goes, and none can.
fn is_given_up(rt: &impl Abort, view: &mut View, uses: &List<Use>) {
    view.unpin(uses);
    view.give_up(FIRST);
    same(rt, (view.has(FIRST), view.can_pin(uses)), (false, false));
}

fn pins_with(
    rt: &impl Abort,
    alloc: Global,
    view: &mut View,
    uses: &List<Use>,
) -> Result<(), Fail> {
    is_pinned(rt, view, uses)?;
    is_copied(rt, alloc, view)?;
    is_given_up(rt, view, uses);
    Ok(())
}

fn pins(rt: &impl Abort, alloc: Global, view: &mut View) -> Result<(), Fail> {
    give_root(alloc, view, 1, 100)?;
    let uses = first_use(alloc)?;
    let done = pins_with(rt, alloc, view, &uses);
    spend(uses);
    done
}

#[test]
fn a_pinned_lease_stays(rt: HostRuntime) -> Result<(), Fail> {
    let mut view = View::new(rt.alloc(), Session(1));
    let done = pins(&rt, rt.alloc(), &mut view);
    view.discard();
    done
}

/// The life of the root, which is a directory.
fn root_life(alloc: Global) -> Result<List<NewLease>, Fail>
    ensures { IfOk result (λ leases. can_grant_all leases [] ≡ true) }
{
    let lease = NewLease {
        no: FIRST,
        field: Field::Life(FileId::root(alloc)),
        kind: LeaseKind::Shared,
        until: 100,
        value: Value::Life(Some(Kind::Dir)),
        below: None,
    };
    Ok(one(alloc, lease)?)
}

const NAMES_ARE_MISSING: &str = "List { items: [Lease(Names(FileId { numbers: [] }), Shared)] }";

const WALK: &str = "Walk { items: List { items: [Lease(Life(FileId { numbers: [] }), Shared), \
    Lease(Names(FileId { numbers: [] }), Shared)] }, reply: None }";

/// A copy of the walk of the operation.
fn walk_of(alloc: Global, view: &View, op: &Op) -> Result<Walk, Fail> {
    let walk = view.walk(alloc, 99, op)?;
    let twin = walk.copy(alloc);
    spend(walk);
    Ok(twin?)
}

fn list_walk(alloc: Global, view: &View) -> Result<Walk, Fail> {
    let op = Op::List {
        dir: FileId::root(alloc),
    };
    let walk = walk_of(alloc, view, &op);
    spend(op);
    walk
}

/// How many leases are used for the items.
fn used(alloc: Global, view: &View, items: &List<Need>) -> Result<usize, Fail> {
    Ok(count(view.uses_of(alloc, 99, items)?))
}

/// So the walk is written, and one lease is used for it.
fn is_walked(rt: &impl Abort, alloc: Global, view: &View, walk: &Walk) -> Result<(), Fail> {
    reads(rt, text_of(alloc, walk)?, WALK);
    same(rt, used(alloc, view, &walk.items)?, 1);
    Ok(())
}

/// One walk tells what is missing, and what is used.
fn walks(rt: &impl Abort, alloc: Global, view: &View) -> Result<(), Fail> {
    let walk = list_walk(alloc, view)?;
    let done = is_walked(rt, alloc, view, &walk);
    let Walk { items, reply } = kept(walk, done)?;
    spend(reply);
    shows(rt, alloc, view.missing_of(99, items), NAMES_ARE_MISSING)
}

/// Leases that come together.
fn grants(
    rt: &impl Abort,
    alloc: Global,
    view: &mut View,
    leases: List<NewLease>,
) -> Result<(), Fail>
    requires { can_grant_all leases (lapsed_at 0 view.old).leases ≡ true }
{
    view.grant_all(alloc, 0, leases)?;
    same(rt, view.kept().len(), 1);
    walks(rt, alloc, view)
}

#[test]
fn leases_come_together(rt: HostRuntime) -> Result<(), Fail> {
    let leases = root_life(rt.alloc())?;
    let mut view = View::new(rt.alloc(), Session(1));
    let done = grants(&rt, rt.alloc(), &mut view, leases);
    view.discard();
    done
}
