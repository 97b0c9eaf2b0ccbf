//! Which lease offers an identifier for a new file, and which one is used for it.
use crate::forms::{same, shows, spend};
use crate::view::{create, first, give_child, give_root, takes};
use fs_field::{Field, LeaseKind, Value};
use fs_ident::{FileId, LeaseNo, List, Session};
use fs_view::View;
use std::alloc::Global;
use std::process::Abort;
use std::test::Fail;

/// Adds a lease with this value, whose identifier was given for this directory, if its number is new and the value fits.
fn grant(
    alloc: Global,
    view: &mut View,
    (count, kind, until): (u64, LeaseKind, u64),
    field: &Field,
    value: Value,
    below: Option<&FileId>,
) -> Result<(), Fail> {
    let no = LeaseNo { server: 0, count };
    if view.has(no) || !value.is_of(field) {
        spend(value);
        return Err(Fail::from("no such lease"));
    }
    view.grant(alloc, no, field, kind, until, value, below)?;
    Ok(())
}

/// Adds a lease on the life of the first file, of no matter for new files.
fn give_life(alloc: Global, view: &mut View, lease: (u64, LeaseKind, u64)) -> Result<(), Fail> {
    let life = Field::Life(first(alloc)?);
    let done = grant(alloc, view, lease, &life, Value::Life(None), None);
    spend(life);
    done
}

/// Adds a lease on the life of the first file, whose identifier was given for the root.
fn give_fresh(alloc: Global, view: &mut View, lease: (u64, LeaseKind, u64)) -> Result<(), Fail> {
    let life = Field::Life(first(alloc)?);
    let root = FileId::root(alloc);
    let done = grant(alloc, view, lease, &life, Value::Life(None), Some(&root));
    spend((life, root));
    done
}

/// Adds a lease on the names of the first file, as if its identifier had been given for the root with it.
fn give_names(alloc: Global, view: &mut View, lease: (u64, LeaseKind, u64)) -> Result<(), Fail> {
    let names = Field::Names(first(alloc)?);
    let root = FileId::root(alloc);
    let none = Value::Names(List::new(alloc));
    let done = grant(alloc, view, lease, &names, none, Some(&root));
    spend((names, root));
    done
}

/// The first identifier is offered at the reading for a file in the root, or none is.
fn offers(rt: &impl Abort, alloc: Global, view: &View, now: u64, wanted: bool) -> Result<(), Fail> {
    let root = FileId::root(alloc);
    let is_there = view.gives(now, &root);
    let offered = view.fresh(now, &root);
    spend(root);
    same(rt, is_there, wanted);
    let text = if wanted {
        "Some(FileId { numbers: [1] })"
    } else {
        "None"
    };
    shows(rt, alloc, offered, text)
}

/// A shared lease, one on another field and one that was not given for a new file offer nothing. An exclusive one on the
/// file's life does, until it is over, whatever else is known of that life.
fn offered_by_one(rt: &impl Abort, alloc: Global, view: &mut View) -> Result<(), Fail> {
    give_fresh(alloc, view, (3, LeaseKind::Shared, 300))?;
    give_names(alloc, view, (4, LeaseKind::Exclusive, 300))?;
    give_life(alloc, view, (5, LeaseKind::Exclusive, 300))?;
    offers(rt, alloc, view, 50, false)?;
    give_fresh(alloc, view, (6, LeaseKind::Exclusive, 100))?;
    offers(rt, alloc, view, 99, true)?;
    offers(rt, alloc, view, 100, false)
}

#[test]
fn an_exclusive_lease_on_the_life_offers_an_identifier(rt: HostRuntime) -> Result<(), Fail> {
    let mut view = View::new(rt.alloc(), Session(1));
    let done = offered_by_one(&rt, rt.alloc(), &mut view);
    view.discard();
    done
}

/// A create of the name takes these leases at the reading.
fn create_takes(
    rt: &impl Abort,
    alloc: Global,
    view: &View,
    now: u64,
    wanted: &[u64],
) -> Result<(), Fail> {
    let op = create(alloc, None)?;
    let done = takes(rt, alloc, view, now, &op, wanted);
    spend(op);
    done
}

/// Of the leases on the life the one that ends last is used, and not the one that offers the identifier.
fn used_is_best(rt: &impl Abort, alloc: Global, view: &mut View) -> Result<(), Fail> {
    give_root(alloc, view, 1, 200)?;
    give_child(alloc, view, None)?;
    give_fresh(alloc, view, (3, LeaseKind::Exclusive, 80))?;
    create_takes(rt, alloc, view, 50, &[1, 2, 3])?;
    give_life(alloc, view, (4, LeaseKind::Shared, 300))?;
    create_takes(rt, alloc, view, 50, &[1, 2, 3])?;
    give_life(alloc, view, (5, LeaseKind::Exclusive, 90))?;
    create_takes(rt, alloc, view, 50, &[1, 2, 5])?;
    create_takes(rt, alloc, view, 80, &[])
}

#[test]
fn the_best_lease_on_the_life_is_used_for_an_identifier(rt: HostRuntime) -> Result<(), Fail> {
    let mut view = View::new(rt.alloc(), Session(1));
    let done = used_is_best(&rt, rt.alloc(), &mut view);
    view.discard();
    done
}
