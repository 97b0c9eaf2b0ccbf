//! Ample memory is enough, copies compared whole, and a few values from outside.
ghost use Rattle.std.specs.Prelude.{◌≡◌, true, IfOk};
ghost use Rattle.std.specs.List.{list_all};
ghost use Rattle.fs_record.specs.Applied.{is_undoable};

mod moving;

use crate::forms::{add, count, kept, one, reads, same, shows, spend, text_of};
use fs_field::{Effect, Field};
use fs_ident::{FileId, Kind, List, Memory, Name, Session, Twin};
use fs_model::{Node, Op, Reply};
use fs_modes::Modes;
use fs_record::{FreshError, Record, Records, effects, is_undoable, tells_its_effects};
use std::alloc::Global;
use std::process::Abort;
use std::test::Fail;

/// The records of one directory, so deep, with this next number.
fn one_directory(alloc: Global, dir: &FileId, next: u64) -> Result<Records, Fail> {
    let mut records = Records::new(alloc, false)?;
    let done = put_directory(alloc, &mut records, dir, next);
    kept(records, done)
}

/// Its record, if the number may be one.
fn put_directory(
    alloc: Global,
    records: &mut Records,
    dir: &FileId,
    next: u64,
) -> Result<(), Fail> {
    if next < 1 || next > 4294967296 || next < records.next_number(dir) {
        return Ok(());
    }
    let dir = dir.copy(alloc)?;
    let record = Record {
        node: Node::new(alloc, Kind::Dir, None),
        next,
    };
    records.put(dir, record)?;
    Ok(())
}

/// The directory so deep.
fn deep(alloc: Global, depth: usize) -> Result<FileId, Fail> {
    let mut dir = FileId::root(alloc);
    for _ in 0..depth {
        dir = dir.child(alloc, 7)?;
    }
    Ok(dir)
}

/// The last number of the identifier that a directory gives, so deep, with this next number; 0 for `NoIds` and
/// 4294967296 for `NoDir`, which a next number of 0 stands for too.
fn given(alloc: Global, depth: usize, next: u64, borne: u32) -> Result<u64, Fail> {
    let dir = deep(alloc, depth)?;
    let number = given_by(alloc, &dir, next, borne);
    spend(dir);
    number
}

fn given_by(alloc: Global, dir: &FileId, next: u64, borne: u32) -> Result<u64, Fail> {
    let mut records = one_directory(alloc, dir, next)?;
    let number = gift(alloc, &mut records, dir, borne);
    spend(records);
    number
}

/// The last number of the identifier that the directory gives in these records; 0 for `NoIds` and 4294967296 for
/// `NoDir`.
fn gift(alloc: Global, records: &mut Records, dir: &FileId, borne: u32) -> Result<u64, Fail> {
    let numbers = one(alloc, borne)?;
    let id = records.fresh(alloc, dir, &numbers);
    spend(numbers);
    match id {
        Ok(id) => Ok(last(id)),
        Err(FreshError::NoIds) => Ok(0),
        Err(FreshError::NoDir) => Ok(4294967296),
        Err(FreshError::Memory) => Err(Fail::from("memory")),
    }
}

fn last(id: FileId) -> u64 {
    let number = last_of(&id);
    spend(id);
    number
}

fn last_of(id: &FileId) -> u64 {
    match id.numbers().last() {
        Some(k) => u64::from(*k),
        None => 0,
    }
}

/// Depth, next number, a number that is borne, and what is given.
type Gift = (usize, u64, u32, u64);

const GIFTS: &[Gift] = &[
    (0, 1, 2, 1),
    (0, 1, 1, 2),
    (0, 4294967295, 1, 4294967295),
    (0, 4294967296, 1, 0),
    (31, 1, 2, 1),
    (32, 1, 2, 0),
    (0, 0, 1, 4294967296),
];

fn give_each(rt: &impl Abort, alloc: Global, gifts: &[Gift]) -> Result<(), Fail> {
    for (depth, next, borne, number) in gifts {
        same(rt, given(alloc, *depth, *next, *borne)?, *number);
    }
    Ok(())
}

#[test]
fn numbers_are_given(rt: HostRuntime) -> Result<(), Fail> {
    give_each(&rt, rt.alloc(), GIFTS)
}

fn create(alloc: Global) -> Result<Op, Fail> {
    let file = FileId::root(alloc).child(alloc, 1)?;
    let name = Name::new(alloc, b"a");
    create_of(alloc, name?, file)
}

fn create_of(alloc: Global, name: Name, file: FileId) -> Result<Op, Fail> {
    Ok(Op::Create {
        dir: FileId::root(alloc),
        name,
        kind: Kind::Dir,
        id: Some(file),
    })
}

const CREATED: &str =
    "List { items: [SetChild { dir: FileId { numbers: [] }, name: Name { bytes: [97] }, to: \
    Some(FileId { numbers: [1] }) }, NewNode { file: FileId { numbers: [1] }, kind: Dir, dir: \
    FileId { numbers: [] }, name: Name { bytes: [97] } }] }";

/// The effects of the operation, if it and its reply tell them.
#[tactic(auto, using(fs_record::proofs::Undoing::plain_effects))]
fn told(alloc: Global, op: &Op, reply: &Reply) -> Result<List<Effect>, Fail>
    ensures { IfOk result (λ told. list_all is_undoable told ≡ true) }
{
    if tells_its_effects(op) {
        return Ok(effects(alloc, Session(1), op, reply)?);
    }
    Err(Fail::from("the effects are not told"))
}

/// The effects of making a directory below the root.
fn made(alloc: Global) -> Result<List<Effect>, Fail>
    ensures { IfOk result (λ told. list_all is_undoable told ≡ true) }
{
    let op = create(alloc)?;
    let effects = told(alloc, &op, &Reply::Made);
    spend(op);
    effects
}

#[test]
fn a_create_has_two_effects(rt: HostRuntime) -> Result<(), Fail> {
    shows(&rt, rt.alloc(), made(rt.alloc())?, CREATED)
}

#[test]
fn a_reap_does_not_tell_its_effects(rt: HostRuntime) -> Result<(), Fail> {
    let reap = Op::Reap {
        file: FileId::root(rt.alloc()),
        session: Session(1),
    };
    let tells = tells_its_effects(&reap);
    spend(reap);
    same(&rt, tells, false);
    Ok(())
}

/// These effects are done one after the other.
fn apply_each(alloc: Global, records: &mut Records, effects: &[Effect]) -> Result<(), Fail> {
    for e in effects {
        records.apply(alloc, e)?;
    }
    Ok(())
}

/// A directory is made below the root.
fn make(alloc: Global, records: &mut Records) -> Result<(), Fail> {
    let effects = made(alloc)?;
    let done = apply_each(alloc, records, effects.as_slice());
    spend(effects);
    done
}

/// The session opens the root.
fn open(alloc: Global, records: &mut Records, session: u16, h: u32) -> Result<(), Memory> {
    let effect = Effect::AddHandle {
        file: FileId::root(alloc),
        session: Session(session),
        h,
        modes: Modes::NONE,
    };
    let done = records.apply(alloc, &effect);
    spend(effect);
    done
}

/// A directory is made, and the second session opens the root.
fn make_and_open(alloc: Global, records: &mut Records) -> Result<(), Fail> {
    make(alloc, records)?;
    open(alloc, records, 2, 1)?;
    Ok(())
}

/// The records after a directory was made below the root, and the root was opened.
fn busy(alloc: Global) -> Result<Records, Fail> {
    let mut records = Records::new(alloc, true)?;
    let done = make_and_open(alloc, &mut records);
    kept(records, done)
}

/// The files, and the record of each.
fn content(alloc: Global, records: &Records) -> Result<String, Fail> {
    let files = records.files(alloc)?;
    let text = content_of(alloc, records, &files);
    spend(files);
    text
}

fn content_of(alloc: Global, records: &Records, files: &List<FileId>) -> Result<String, Fail> {
    let mut text = text_of(alloc, files)?;
    let done = add_records(alloc, &mut text, records, files.as_slice());
    kept(text, done)
}

fn add_records(
    alloc: Global,
    text: &mut String,
    records: &Records,
    files: &[FileId],
) -> Result<(), Fail> {
    for file in files {
        add(text, format!(in alloc; " {:?}", records.get(file))?)?;
    }
    Ok(())
}

const BUSY: &str =
    "List { items: [FileId { numbers: [] }, FileId { numbers: [1] }] } Some(Record { node: \
    Node { kind: Dir, parent: None, children: List { items: [(Name { bytes: [97] }, FileId { \
    numbers: [1] })] }, size: 0, stamp: 0, handles: List { items: [Handle { session: \
    Session(2), h: 1, modes: Modes { acc_r: false, acc_w: false, acc_d: false, deny_r: false, \
    deny_w: false, deny_d: false } }] } }, next: 1 }) Some(Record { node: Node { kind: Dir, \
    parent: Some((FileId { numbers: [] }, Name { bytes: [97] })), children: List { items: [] \
    }, size: 0, stamp: 0, handles: List { items: [] } }, next: 1 })";

/// So the files are written, with the record of each.
fn has(rt: &impl Abort, alloc: Global, records: &Records, wanted: &str) -> Result<(), Fail> {
    reads(rt, content(alloc, records)?, wanted);
    Ok(())
}

/// The files of records that are let go are so written, with the record of each.
fn had(rt: &impl Abort, alloc: Global, records: Records, wanted: &str) -> Result<(), Fail> {
    let done = has(rt, alloc, &records, wanted);
    spend(records);
    done
}

#[test]
fn records_are_copied(rt: HostRuntime) -> Result<(), Fail> {
    let records = busy(rt.alloc())?;
    let twin = records.copy(rt.alloc());
    spend(records);
    had(&rt, rt.alloc(), twin?, BUSY)
}

const OPEN: &str =
    "Own(List { items: [(1, Modes { acc_r: false, acc_w: false, acc_d: false, deny_r: false, \
    deny_w: false, deny_d: false })] })";

const SELVES: &str =
    "List { items: [(Session(2), Modes { acc_r: false, acc_w: false, acc_d: false, deny_r: \
    false, deny_w: false, deny_d: false })] }";

/// So the session sees its handles on the root.
fn own_is(
    rt: &impl Abort,
    alloc: Global,
    records: &Records,
    session: u16,
    wanted: &str,
) -> Result<(), Fail> {
    let field = Field::Own(FileId::root(alloc));
    let own = records.value_of(alloc, Session(session), &field);
    spend(field);
    shows(rt, alloc, own?, wanted)
}

/// So the modes of each session on the root are written.
fn selves_are(rt: &impl Abort, alloc: Global, records: &Records, wanted: &str) -> Result<(), Fail> {
    let root = FileId::root(alloc);
    let selves = records.selves(alloc, &root);
    spend(root);
    shows(rt, alloc, selves?, wanted)
}

fn are_seen(rt: &impl Abort, alloc: Global, records: &Records) -> Result<(), Fail> {
    own_is(rt, alloc, records, 2, OPEN)?;
    own_is(rt, alloc, records, 1, "Own(List { items: [] })")?;
    selves_are(rt, alloc, records, SELVES)?;
    same(rt, count(records.open_files(alloc)?), 1);
    Ok(())
}

/// What sessions see of their handles on the root.
#[test]
fn a_handle_is_seen(rt: HostRuntime) -> Result<(), Fail> {
    let records = busy(rt.alloc())?;
    let done = are_seen(&rt, rt.alloc(), &records);
    spend(records);
    done
}

/// The number that the directory would give.
fn next_number(alloc: Global, records: &Records, dir: &FileId) -> Result<u64, Fail> {
    let borne = List::new(alloc);
    let id = records.fresh_id(alloc, dir, &borne);
    spend(borne);
    match id {
        Ok(id) => Ok(last(id)),
        Err(_) => Err(Fail::from("no number")),
    }
}

fn are_given(
    rt: &impl Abort,
    alloc: Global,
    records: &mut Records,
    root: &FileId,
) -> Result<(), Fail> {
    same(rt, records.is_directory(root), true);
    same(rt, next_number(alloc, records, root)?, 1);
    same(rt, next_number(alloc, records, root)?, 1);
    if records.next_number(root) <= 7 {
        records.gift(root, 7);
    }
    same(rt, next_number(alloc, records, root)?, 8);
    Ok(())
}

#[test]
fn a_number_is_read_and_then_given(rt: HostRuntime) -> Result<(), Fail> {
    let mut records = Records::new(rt.alloc(), true)?;
    let root = FileId::root(rt.alloc());
    let done = are_given(&rt, rt.alloc(), &mut records, &root);
    spend((records, root));
    done
}

/// The directory is made by all its effects at once, and the root is opened.
fn make_together(alloc: Global, records: &mut Records) -> Result<(), Fail> {
    let effects = made(alloc)?;
    let done = records.apply_all(alloc, &effects);
    spend(effects);
    done?;
    open(alloc, records, 2, 1)?;
    Ok(())
}

/// Effects done all at once come to what they come to one after the other.
#[test]
fn effects_are_done_together(rt: HostRuntime) -> Result<(), Fail> {
    let mut records = Records::new(rt.alloc(), true)?;
    let done = make_together(rt.alloc(), &mut records);
    had(&rt, rt.alloc(), kept(records, done)?, BUSY)
}

#[test]
fn a_removal_is_not_taken_back(rt: HostRuntime) -> Result<(), Fail> {
    let file = FileId::root(rt.alloc());
    let removal = Effect::RemoveNode { file };
    let can = is_undoable(&removal);
    spend(removal);
    same(&rt, can, false);
    Ok(())
}

/// The session opens the root twice.
fn open_twice(alloc: Global, records: &mut Records, session: u16) -> Result<(), Memory> {
    open(alloc, records, session, 1)?;
    open(alloc, records, session, 2)
}

/// The first session loses its handles on the root.
fn reap(alloc: Global, records: &mut Records) -> Result<(), Fail> {
    let root = FileId::root(alloc);
    let effects = records.reap_effects(alloc, &root, Session(1));
    spend(root);
    let effects = effects?;
    let done = apply_each(alloc, records, effects.as_slice());
    spend(effects);
    done
}

/// Sessions 1 and 2 open the root, and then session 1 loses its handles.
fn open_and_reap(alloc: Global, records: &mut Records) -> Result<(), Fail> {
    open_twice(alloc, records, 1)?;
    open_twice(alloc, records, 2)?;
    reap(alloc, records)
}

/// What the root has then.
fn reaps(rt: &impl Abort, alloc: Global, records: &mut Records) -> Result<(), Fail> {
    open_and_reap(alloc, records)?;
    selves_are(rt, alloc, records, SELVES)
}

#[test]
fn a_session_loses_its_handles(rt: HostRuntime) -> Result<(), Fail> {
    let mut records = Records::new(rt.alloc(), true)?;
    let done = reaps(&rt, rt.alloc(), &mut records);
    spend(records);
    done
}

#[test]
fn no_file_is_open_at_first(rt: HostRuntime) -> Result<(), Fail> {
    let records = Records::new(rt.alloc(), true)?;
    let files = records.open_files(rt.alloc());
    spend(records);
    same(&rt, count(files?), 0);
    Ok(())
}

fn is_in_order(records: &Records, root: &FileId) -> bool {
    match records.get(root) {
        Some(record) => record.is_in_order(),
        None => false,
    }
}

#[test]
fn new_records_are_in_order(rt: HostRuntime) -> Result<(), Fail> {
    let records = busy(rt.alloc())?;
    let root = FileId::root(rt.alloc());
    let is = is_in_order(&records, &root);
    spend((records, root));
    same(&rt, is, true);
    Ok(())
}

/// The record of a directory with this next number.
fn numbered(alloc: Global, next: u64) -> Record {
    Record {
        node: Node::new(alloc, Kind::Dir, None),
        next,
    }
}

/// Next numbers, and whether one may be a record's.
const NEXTS: [(u64, bool); 5] = [
    (0, false),
    (1, true),
    (4294967295, true),
    (4294967296, true),
    (4294967297, false),
];

#[test]
fn next_numbers_have_two_ends(rt: HostRuntime) -> Result<(), Fail> {
    for (next, wanted) in NEXTS {
        let record = numbered(rt.alloc(), next);
        let is_left = record.has_number_left();
        spend(record);
        same(&rt, (next, is_left), (next, wanted));
    }
    Ok(())
}
