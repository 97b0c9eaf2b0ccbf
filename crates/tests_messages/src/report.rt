mod led;
mod notes;

use crate::{same, spend, with};
use fs_ident::{FileId, IdError, Kind, List, Memory, Name, Peer, Session};
use fs_model::{Handle, Node, Op, Reply, Space};
use fs_modes::Modes;
use fs_msg::{Item, Note};
use fs_record::Record;
use fs_report::{done_line, item_line, outcome_line, space_lines};
use fs_schedule::Outcome;
use std::alloc::Global;
use std::process::Abort;
use std::test::Fail;

/// The identifier that is written like this.
pub(crate) fn id(alloc: Global, text: &[u8]) -> Result<FileId, IdError> {
    FileId::parse(alloc, text)
}

/// The name of these bytes.
pub(crate) fn name(alloc: Global, bytes: &[u8]) -> Result<Name, IdError> {
    Name::new(alloc, bytes)
}

/// These accesses and denials: read 1, write 2, delete 4.
fn modes(acc: u8, deny: u8) -> Modes {
    Modes::new(acc, deny).unwrap_or(Modes::NONE)
}

/// A list of two names.
fn names(alloc: Global) -> Result<List<Name>, Fail> {
    let mut names = List::new(alloc);
    let done = add_names(alloc, &mut names);
    Ok(with(names, done)?.0)
}

fn add_names(alloc: Global, names: &mut List<Name>) -> Result<(), Fail> {
    names.push(name(alloc, b"a")?)?;
    names.push(name(alloc, b"b c")?)?;
    Ok(())
}

/// The reply of this number: those that hold something, then those that do not.
fn reply(alloc: Global, k: u64) -> Result<Reply, Fail> {
    match k {
        0 => Ok(Reply::Found(id(alloc, b"/1/3")?)),
        1 => Ok(Reply::Names(List::new(alloc))),
        2 => Ok(Reply::Names(names(alloc)?)),
        3 => Ok(Reply::Info { size: 10, stamp: 5 }),
        _ => Ok(bare_reply(k)),
    }
}

fn bare_reply(k: u64) -> Reply {
    match k {
        4 => Reply::Gone,
        5 => Reply::NotDir,
        6 => Reply::GoneTo,
        7 => Reply::NotDirTo,
        8 => Reply::NoName,
        9 => Reply::IsFile,
        10 => Reply::IsDir,
        11 => Reply::Exists,
        12 => Reply::BadId,
        13 => Reply::Made,
        14 => Reply::HandleUsed,
        15 => Reply::Sharing,
        16 => Reply::Opened,
        17 => Reply::NoHandle,
        18 => Reply::Closed,
        19 => Reply::NoAccess,
        20 => Reply::Set,
        21 => Reply::NotEmpty,
        22 => Reply::InUse,
        23 => Reply::Deleted,
        24 => Reply::Cycle,
        25 => Reply::Renamed,
        _ => Reply::Reaped,
    }
}

/// The texts of the replies, by their numbers.
const REPLIES: [&[u8]; 27] = [
    b"found /1/3",
    b"names",
    b"names \"a\" \"b c\"",
    b"info 10 5",
    b"gone",
    b"notdir",
    b"goneto",
    b"notdirto",
    b"noname",
    b"isfile",
    b"isdir",
    b"exists",
    b"badid",
    b"made",
    b"handleused",
    b"sharing",
    b"opened",
    b"nohandle",
    b"closed",
    b"noaccess",
    b"set",
    b"notempty",
    b"inuse",
    b"deleted",
    b"cycle",
    b"renamed",
    b"reaped",
];

/// The line of the text behind a head.
pub(crate) fn line(alloc: Global, head: &[u8], text: &[u8]) -> Result<Vec<u8>, Fail> {
    let mut line = Vec::from_slice(alloc, head)?;
    line.extend_from_slice(text)?;
    line.push(b'\n')?;
    Ok(line)
}

/// The line of an item, behind what was there.
fn line_of(alloc: Global, item: &Item) -> Result<Vec<u8>, Fail> {
    let mut out = Vec::from_slice(alloc, b"j0\n")?;
    item_line(alloc, item.n, item, &mut out)?;
    Ok(out)
}

/// The line of the first session's operation of this number with this reply.
fn line_of_item(alloc: Global, n: u64, op: Op, reply: Reply) -> Result<Vec<u8>, Fail> {
    let by = Peer::Client(Session(1));
    let item = Item { by, n, op, reply };
    let line = line_of(alloc, &item);
    spend(item);
    line
}

/// The reply of this number is so written.
fn writes_reply(rt: &impl Abort, alloc: Global, k: u64, text: &[u8]) -> Result<(), Fail> {
    let (op, reply) = with(op(alloc, 6)?, reply(alloc, k))?;
    let found = line_of_item(alloc, 1, op, reply)?;
    let (found, wanted) = with(found, line(alloc, b"j0\nj1 c1 1 kind /1 ", text))?;
    same(rt, found.as_slice(), wanted.as_slice());
    Ok(())
}

#[test]
fn writes_replies(rt: HostRuntime) -> Result<(), Fail> {
    for (k, text) in REPLIES.iter().enumerate() {
        writes_reply(&rt, rt.alloc(), k as u64, *text)?;
    }
    Ok(())
}

/// Who does something, in the line of this number.
fn who(k: u64) -> Option<Peer> {
    match k {
        1 | 2 => Some(Peer::Client(Session(1))),
        9 => Some(Peer::Server(0)),
        _ => None,
    }
}

/// What is noted.
fn noted(alloc: Global, k: u64) -> Result<List<Note>, Memory> {
    let mut notes = List::new(alloc);
    let done = add_notes(&mut notes, k);
    Ok(with(notes, done)?.0)
}

fn add_notes(notes: &mut List<Note>, k: u64) -> Result<(), Memory> {
    if k == 1 || k == 9 {
        notes.push(Note::Joined)?;
    }
    if k == 2 {
        let reply = Reply::Made;
        notes.push(Note::Answered { n: 1, reply })?;
    }
    if k > 2 {
        notes.push(Note::Nothing)?;
    }
    Ok(())
}

/// What is sent.
fn sent(alloc: Global, k: u64) -> Result<List<u64>, Memory> {
    let mut sent = List::new(alloc);
    if k == 9 {
        sent.push(4)?;
        sent.push(5)?;
    }
    Ok(sent)
}

fn outcome(alloc: Global, k: u64) -> Result<Outcome, Memory> {
    let (sent, notes) = with(sent(alloc, k)?, noted(alloc, k))?;
    Ok(Outcome {
        who: who(k),
        notes,
        sent,
    })
}

const OUTCOMES: [(u64, &[u8]); 4] = [
    (1, b"e0\ne1 c1 joined\n"),
    (2, b"e0\ne2 c1 answered 1 made\n"),
    (9, b"e0\ne9 s0 joined; nothing sends 4 5\n"),
    (10, b"e0\ne10 - nothing\n"),
];

/// The line of an outcome, which is let go, behind what was there.
pub(crate) fn line_of_outcome(
    alloc: Global,
    there: &[u8],
    k: u64,
    outcome: Outcome,
) -> Result<Vec<u8>, Fail> {
    let mut out = Vec::new(alloc);
    let done = add_outcome(alloc, there, k, &outcome, &mut out);
    spend(outcome);
    Ok(with(out, done)?.0)
}

fn add_outcome(
    alloc: Global,
    there: &[u8],
    k: u64,
    outcome: &Outcome,
    out: &mut Vec<u8>,
) -> Result<(), Fail> {
    out.extend_from_slice(there)?;
    outcome_line(alloc, k, outcome, out)?;
    Ok(())
}

/// The outcome of this number is so written, behind what was there.
fn writes_outcome(rt: &impl Abort, alloc: Global, k: u64, text: &[u8]) -> Result<(), Fail> {
    let line = line_of_outcome(alloc, b"e0\n", k, outcome(alloc, k)?)?;
    same(rt, line.as_slice(), text);
    Ok(())
}

#[test]
fn writes_outcomes(rt: HostRuntime) -> Result<(), Fail> {
    for (k, text) in &OUTCOMES {
        writes_outcome(&rt, rt.alloc(), *k, text)?;
    }
    Ok(())
}

/// The operation that the line of this number tells.
fn op(alloc: Global, k: u64) -> Result<Op, IdError> {
    match k {
        5..=12 => Ok(op_on_file(id(alloc, b"/1")?, k)),
        _ => op_on_name(alloc, k),
    }
}

fn op_on_file(file: FileId, k: u64) -> Op {
    match k {
        5 => Op::List { dir: file },
        6 => Op::Kind { file },
        7 => Op::Info { file },
        8 | 9 => open(file, k),
        10 => Op::Close { file, h: 1 },
        11 => set(file),
        _ => reap(file),
    }
}

fn open(file: FileId, k: u64) -> Op {
    if k == 8 {
        return Op::OpenFile {
            file,
            h: 1,
            modes: modes(1, 6),
        };
    }
    Op::OpenFile {
        file,
        h: 2,
        modes: modes(2, 0),
    }
}

fn set(file: FileId) -> Op {
    Op::Set {
        file,
        h: 1,
        size: 10,
        stamp: 5,
    }
}

fn reap(file: FileId) -> Op {
    Op::Reap {
        file,
        session: Session(2),
    }
}

/// The operation that the line of this number tells, where it has a name.
fn op_on_name(alloc: Global, k: u64) -> Result<Op, IdError> {
    let (dir, name) = place(alloc, b"/", b"a")?;
    match k {
        1 => create_numbered(alloc, dir, name),
        2 => Ok(Op::Lookup { dir, name }),
        13 => Ok(Op::Delete { dir, name }),
        3 => Ok(create(dir, name, Kind::File, None)),
        _ => rename(alloc, dir, name),
    }
}

/// A directory, and a name in it.
fn place(alloc: Global, dir: &[u8], as_name: &[u8]) -> Result<(FileId, Name), IdError> {
    with(id(alloc, dir)?, name(alloc, as_name))
}

fn create_numbered(alloc: Global, dir: FileId, name: Name) -> Result<Op, IdError> {
    let ((dir, name), id) = with((dir, name), id(alloc, b"/1"))?;
    Ok(create(dir, name, Kind::Dir, Some(id)))
}

fn create(dir: FileId, name: Name, kind: Kind, id: Option<FileId>) -> Op {
    Op::Create {
        dir,
        name,
        kind,
        id,
    }
}

fn rename(alloc: Global, sdir: FileId, sname: Name) -> Result<Op, IdError> {
    let ((sdir, sname), (ddir, dname)) = with((sdir, sname), place(alloc, b"/1/1", b"c"))?;
    Ok(Op::Rename {
        sdir,
        sname,
        ddir,
        dname,
    })
}

const ITEMS: [(u64, &[u8]); 13] = [
    (1, b"j0\nj1 c1 1 create / \"a\" dir /1 exists\n"),
    (2, b"j0\nj2 c1 2 lookup / \"a\" exists\n"),
    (3, b"j0\nj3 c1 3 create / \"a\" file - exists\n"),
    (4, b"j0\nj4 c1 4 rename / \"a\" /1/1 \"c\" exists\n"),
    (5, b"j0\nj5 c1 5 list /1 exists\n"),
    (6, b"j0\nj6 c1 6 kind /1 exists\n"),
    (7, b"j0\nj7 c1 7 info /1 exists\n"),
    (8, b"j0\nj8 c1 8 open /1 1 R WD exists\n"),
    (9, b"j0\nj9 c1 9 open /1 2 W - exists\n"),
    (10, b"j0\nj10 c1 10 close /1 1 exists\n"),
    (11, b"j0\nj11 c1 11 set /1 1 10 5 exists\n"),
    (12, b"j0\nj12 c1 12 reap /1 c2 exists\n"),
    (13, b"j0\nj13 c1 13 delete / \"a\" exists\n"),
];

/// The item of this number is so written, behind what was there.
fn writes_item(rt: &impl Abort, alloc: Global, k: u64, text: &[u8]) -> Result<(), Fail> {
    let line = line_of_item(alloc, k, op(alloc, k)?, Reply::Exists)?;
    same(rt, line.as_slice(), text);
    Ok(())
}

#[test]
fn writes_items(rt: HostRuntime) -> Result<(), Fail> {
    for (k, text) in &ITEMS {
        writes_item(&rt, rt.alloc(), *k, text)?;
    }
    Ok(())
}

/// A handle of each of two sessions where it is no directory.
fn handles(alloc: Global, kind: Kind) -> Result<List<Handle>, Fail> {
    let mut handles = List::new(alloc);
    if kind == Kind::File {
        for session in [Session(1), Session(2)] {
            handles.push(Handle {
                session,
                h: 1,
                modes: modes(1, 6),
            })?;
        }
    }
    Ok(handles)
}

/// A file in a directory, with its handles.
fn node(alloc: Global, kind: Kind, dir: &[u8], as_name: &[u8]) -> Result<Node, Fail> {
    let (parent, handles) = with(place(alloc, dir, as_name)?, handles(alloc, kind))?;
    Ok(Node {
        kind,
        parent: Some(parent),
        children: List::new(alloc),
        size: 10,
        stamp: 5,
        handles,
    })
}

/// The space is so written.
fn writes_space(rt: &impl Abort, alloc: Global, space: &Space, wanted: &[u8]) -> Result<(), Fail> {
    let mut out = Vec::new(alloc);
    space_lines(alloc, space, &mut out)?;
    same(rt, out.as_slice(), wanted);
    Ok(())
}

/// The space that has this node alone is so written.
fn writes_node(rt: &impl Abort, alloc: Global, node: Node, wanted: &[u8]) -> Result<(), Fail> {
    let (node, id) = with(node, id(alloc, b"/1"))?;
    let record = Record { node, next: 1 };
    if !record.is_in_order() {
        spend((record, id));
        return Err(Fail::from("no node of a space"));
    }
    let mut space = Space::empty(alloc);
    let done = space.put(alloc, &id, record.node);
    spend(id);
    let (space, ()) = with(space, done)?;
    let written = writes_space(rt, alloc, &space, wanted);
    spend(space);
    written
}

const DIRECTORY: &[u8] = b"n /1 dir 10 5 in /1/1 \"c\"\n";

const FILE: &[u8] = b"n /1 file 10 5 in / \"f\"\nh /1 c1 1 R WD\nh /1 c2 1 R WD\n";

#[test]
fn writes_files(rt: HostRuntime) -> Result<(), Fail> {
    let alloc = rt.alloc();
    writes_node(
        &rt,
        alloc,
        node(alloc, Kind::Dir, b"/1/1", b"c")?,
        DIRECTORY,
    )?;
    writes_node(&rt, alloc, node(alloc, Kind::File, b"/", b"f")?, FILE)
}

#[test]
fn writes_the_last_line(rt: HostRuntime) -> Result<(), Fail> {
    let mut out = Vec::new(rt.alloc());
    done_line(rt.alloc(), 4, 3, 2, &mut out)?;
    same(&rt, out.as_slice(), b"done events 4 journal 3 nodes 2\n");
    Ok(())
}

const OPENED: &[u8] = b"n / dir 0 0\nn /1 dir 0 0 in / \"a\"\nh /1 c1 1 R WD\n";

/// The space after the first and the eighth operation.
fn stepped(alloc: Global) -> Result<Space, Fail> {
    let mut space = Space::new(alloc)?;
    let done = step_twice(alloc, &mut space);
    Ok(with(space, done)?.0)
}

fn step_twice(alloc: Global, space: &mut Space) -> Result<(), Fail> {
    step(alloc, space, 1)?;
    step(alloc, space, 8)
}

fn step(alloc: Global, space: &mut Space, k: u64) -> Result<(), Fail> {
    let op = op(alloc, k)?;
    let reply = space.step(alloc, Session(1), &op);
    spend(op);
    spend(reply?);
    Ok(())
}

#[test]
fn writes_spaces(rt: HostRuntime) -> Result<(), Fail> {
    let space = stepped(rt.alloc())?;
    let written = writes_space(&rt, rt.alloc(), &space, OPENED);
    spend(space);
    written
}
