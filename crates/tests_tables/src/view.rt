//! A client that answers from its leases.
ghost use Rattle.std.specs.Prelude.{◌≡◌, true, IfOk};
ghost use Rattle.fs_record.specs.Effects.{tells_its_effects};

mod fresh;
mod held;

use crate::forms::{kept_by, same, shows, spend, with};
use fs_field::{Effect, Field, LeaseKind, Use, Value};
use fs_ident::{FileId, Kind, LeaseNo, List, Memory, Name, Session};
use fs_model::{Op, Reply};
use fs_record::effects;
use fs_view::View;
use std::alloc::Global;
use std::process::Abort;
use std::test::Fail;

/// The number of the first lease of server 0.
const FIRST: LeaseNo = LeaseNo {
    server: 0,
    count: 1,
};

/// Adds an exclusive lease, if its number is new and the value fits.
fn give(
    alloc: Global,
    view: &mut View,
    count: u64,
    field: &Field,
    value: Value,
    below: Option<&FileId>,
) -> Result<(), Fail> {
    let no = LeaseNo { server: 0, count };
    if view.has(no) || !value.is_of(field) {
        spend(value);
        return Err(Fail::from("no such lease"));
    }
    view.grant(alloc, no, field, LeaseKind::Exclusive, 100, value, below)?;
    Ok(())
}

/// Adds a shared lease on the life of the root, a directory, if its number is new.
fn give_root(alloc: Global, view: &mut View, count: u64, until: u64) -> Result<(), Fail> {
    let no = LeaseNo { server: 0, count };
    if view.has(no) {
        return Err(Fail::from("no such lease"));
    }
    let life = Field::Life(FileId::root(alloc));
    let value = Value::Life(Some(Kind::Dir));
    let done = view.grant(alloc, no, &life, LeaseKind::Shared, until, value, None);
    spend(life);
    Ok(done?)
}

/// Adds the second lease, on the name in the root.
fn give_child(alloc: Global, view: &mut View, to: Option<FileId>) -> Result<(), Fail> {
    let (to, name) = with(to, name_of(alloc, b"a"))?;
    let child = Field::Child(FileId::root(alloc), name);
    let done = give(alloc, view, 2, &child, Value::Child(to), None);
    spend(child);
    done
}

fn name_of(alloc: Global, bytes: &[u8]) -> Result<Name, Fail> {
    Ok(Name::new(alloc, bytes)?)
}

/// Adds the third lease, on the life of the first file.
fn give_file(alloc: Global, view: &mut View, kind: Option<Kind>) -> Result<(), Fail> {
    let life = Field::Life(first(alloc)?);
    let root = FileId::root(alloc);
    let done = give(alloc, view, 3, &life, Value::Life(kind), Some(&root));
    spend((life, root));
    done
}

/// The first file below the root.
fn first(alloc: Global) -> Result<FileId, Fail> {
    Ok(FileId::root(alloc).child(alloc, 1)?)
}

/// The reply at the reading, if nothing is missing.
fn reply_at(alloc: Global, view: &View, now: u64, op: &Op) -> Result<Option<Reply>, Fail> {
    let needs = view.missing(alloc, now, op)?;
    let is_missing = !needs.is_empty();
    spend(needs);
    if is_missing {
        return Ok(None);
    }
    Ok(Some(view.reply(alloc, now, op)?))
}

/// So it is replied at the reading; not at all where something is missing.
fn replies(
    rt: &impl Abort,
    alloc: Global,
    view: &View,
    now: u64,
    op: &Op,
    wanted: &str,
) -> Result<(), Fail> {
    shows(rt, alloc, reply_at(alloc, view, now, op)?, wanted)
}

/// The uses at the reading, if nothing is missing.
fn uses_at(alloc: Global, view: &View, now: u64, op: &Op) -> Result<List<Use>, Fail> {
    let needs = view.missing(alloc, now, op)?;
    let is_missing = !needs.is_empty();
    spend(needs);
    if is_missing {
        return Ok(List::new(alloc));
    }
    Ok(view.uses(alloc, now, op)?)
}

/// The numbers of the leases that are used.
fn numbers(alloc: Global, uses: &[Use]) -> Result<List<u64>, Fail> {
    let mut counts = List::new(alloc);
    let done = add_numbers(&mut counts, uses);
    kept_by(counts, done)
}

fn add_numbers(counts: &mut List<u64>, uses: &[Use]) -> Result<(), Memory> {
    for u in uses {
        counts.push(u.no.count)?;
    }
    Ok(())
}

/// The leases of these numbers are used at the reading.
fn takes(
    rt: &impl Abort,
    alloc: Global,
    view: &View,
    now: u64,
    op: &Op,
    wanted: &[u64],
) -> Result<(), Fail> {
    let uses = uses_at(alloc, view, now, op)?;
    let counts = numbers(alloc, uses.as_slice());
    spend(uses);
    let counts = counts?;
    same(rt, counts.as_slice(), wanted);
    spend(counts);
    Ok(())
}

/// So much is missing at the reading.
fn misses(
    rt: &impl Abort,
    alloc: Global,
    view: &View,
    now: u64,
    op: &Op,
    wanted: &str,
) -> Result<(), Fail> {
    shows(rt, alloc, view.missing(alloc, now, op)?, wanted)
}

const ROOT_IS_MISSING: &str = "List { items: [Lease(Life(FileId { numbers: [] }), Shared)] }";

/// Three leases on one field, of which two end together.
fn three_leases(alloc: Global, view: &mut View) -> Result<(), Fail> {
    give_root(alloc, view, 1, 100)?;
    give_root(alloc, view, 3, 200)?;
    give_root(alloc, view, 2, 200)
}

/// The one that ends last is used, and of two that end together the one with the lesser number, up to its last reading.
fn last_is_used(rt: &impl Abort, alloc: Global, view: &View, op: &Op) -> Result<(), Fail> {
    takes(rt, alloc, view, 50, op, &[2])?;
    replies(rt, alloc, view, 199, op, "Some(IsDir)")?;
    replies(rt, alloc, view, 200, op, "None")?;
    misses(rt, alloc, view, 200, op, ROOT_IS_MISSING)
}

fn choice(rt: &impl Abort, alloc: Global, view: &mut View) -> Result<(), Fail> {
    three_leases(alloc, view)?;
    let op = Op::Kind {
        file: FileId::root(alloc),
    };
    let done = last_is_used(rt, alloc, view, &op);
    spend(op);
    done
}

#[test]
fn the_lease_that_ends_last_is_used(rt: HostRuntime) -> Result<(), Fail> {
    let mut view = View::new(rt.alloc(), Session(1));
    let done = choice(&rt, rt.alloc(), &mut view);
    view.discard();
    done
}

/// The create of one name in the root, under this identifier.
fn create(alloc: Global, id: Option<FileId>) -> Result<Op, Fail>
    ensures { IfOk result (λ op. tells_its_effects op ≡ true) }
{
    let (id, name) = with(id, name_of(alloc, b"a"))?;
    Ok(Op::Create {
        dir: FileId::root(alloc),
        name,
        kind: Kind::File,
        id,
    })
}

/// What the create of the first file does.
fn made(alloc: Global) -> Result<List<Effect>, Fail> {
    let op = create(alloc, Some(first(alloc)?))?;
    let made = effects(alloc, Session(1), &op, &Reply::Made);
    spend(op);
    Ok(made?)
}

/// The log has the create of the first file.
fn append(alloc: Global, view: &mut View) -> Result<(), Fail> {
    let effects = made(alloc)?;
    view.append(effects)?;
    Ok(())
}

/// Nothing is below the root under the name, and the first file may be made.
fn know_none(alloc: Global, view: &mut View) -> Result<(), Fail> {
    give_root(alloc, view, 1, 100)?;
    give_child(alloc, view, None)?;
    give_file(alloc, view, None)
}

/// The identifier is offered for a file in the root.
fn offers(rt: &impl Abort, alloc: Global, view: &View, wanted: &str) -> Result<(), Fail> {
    let root = FileId::root(alloc);
    let offered = view.fresh(50, &root);
    spend(root);
    shows(rt, alloc, offered, wanted)
}

/// So a create of the name is replied.
fn create_replies(rt: &impl Abort, alloc: Global, view: &View, wanted: &str) -> Result<(), Fail> {
    let op = create(alloc, None)?;
    let done = replies(rt, alloc, view, 50, &op, wanted);
    spend(op);
    done
}

/// A create of the name uses all three leases.
fn create_takes(rt: &impl Abort, alloc: Global, view: &View) -> Result<(), Fail> {
    let op = create(alloc, None)?;
    let done = takes(rt, alloc, view, 50, &op, &[1, 2, 3]);
    spend(op);
    done
}

/// The name is there, and the identifier is offered no more.
fn is_made(rt: &impl Abort, alloc: Global, view: &View) -> Result<(), Fail> {
    offers(rt, alloc, view, "None")?;
    create_replies(rt, alloc, view, "Some(Exists)")
}

/// A file is made once: then the log shows it, and its identifier is offered no more.
fn creates(rt: &impl Abort, alloc: Global, view: &mut View) -> Result<(), Fail> {
    know_none(alloc, view)?;
    offers(rt, alloc, view, "Some(FileId { numbers: [1] })")?;
    create_replies(rt, alloc, view, "Some(Made)")?;
    create_takes(rt, alloc, view)?;
    append(alloc, view)?;
    is_made(rt, alloc, view)?;
    view.admit_front(alloc, 1)?;
    is_made(rt, alloc, view)
}

#[test]
fn an_identifier_is_offered_once(rt: HostRuntime) -> Result<(), Fail> {
    let mut view = View::new(rt.alloc(), Session(1));
    let done = creates(&rt, rt.alloc(), &mut view);
    view.discard();
    done
}

/// The needs of a delete that are of the file's children and handles.
const OF_FILE: &str =
    "List { items: [Lease(Names(FileId { numbers: [1] }), Shared), Lease(Own(FileId { numbers: \
    [1] }), Exclusive), Lease(Other(FileId { numbers: [1] }, AccR), Shared), Lease(Other(FileId { \
    numbers: [1] }, AccW), Shared), Lease(Other(FileId { numbers: [1] }, AccD), Shared)] }";

/// The needs of a rename that are of the new name and of the file's handles.
const OF_RENAME: &str =
    "List { items: [Lease(Child(FileId { numbers: [] }, Name { bytes: [98] }), Exclusive), \
    Lease(Own(FileId { numbers: [1] }), Exclusive), Lease(Other(FileId { numbers: [1] }, DenyD), \
    Shared)] }";

fn delete(alloc: Global) -> Result<Op, Fail> {
    let name = name_of(alloc, b"a")?;
    Ok(Op::Delete {
        dir: FileId::root(alloc),
        name,
    })
}

fn rename(alloc: Global) -> Result<Op, Fail> {
    let name = name_of(alloc, b"a")?;
    let (sname, dname) = with(name, name_of(alloc, b"b"))?;
    Ok(Op::Rename {
        sdir: FileId::root(alloc),
        sname,
        ddir: FileId::root(alloc),
        dname,
    })
}

/// The place and the life of the first file are known.
fn know_file(alloc: Global, view: &mut View) -> Result<(), Fail> {
    give_root(alloc, view, 1, 100)?;
    let file = first(alloc)?;
    give_child(alloc, view, Some(file))?;
    give_file(alloc, view, Some(Kind::File))
}

fn delete_misses(rt: &impl Abort, alloc: Global, view: &View) -> Result<(), Fail> {
    let op = delete(alloc)?;
    let done = misses(rt, alloc, view, 50, &op, OF_FILE);
    spend(op);
    done
}

fn rename_misses(rt: &impl Abort, alloc: Global, view: &View) -> Result<(), Fail> {
    let op = rename(alloc)?;
    let done = misses(rt, alloc, view, 50, &op, OF_RENAME);
    spend(op);
    done
}

/// A delete and a rename of that file.
fn removals(rt: &impl Abort, alloc: Global, view: &mut View) -> Result<(), Fail> {
    know_file(alloc, view)?;
    delete_misses(rt, alloc, view)?;
    rename_misses(rt, alloc, view)
}

#[test]
fn removals_need_the_handles_too(rt: HostRuntime) -> Result<(), Fail> {
    let mut view = View::new(rt.alloc(), Session(1));
    let done = removals(&rt, rt.alloc(), &mut view);
    view.discard();
    done
}
