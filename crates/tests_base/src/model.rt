//! Replies and nodes whole, by what they print.
ghost use Rattle.std.specs.Prelude.{IfOk};
ghost use Rattle.fs_model.specs.Namespace.{IsInOrder};

use crate::{copied, reads, same, shows, spend};
use fs_ident::{FileId, Kind, Memory, Name, Session, Twin};
use fs_model::{Handle, Node, Op, Reply, Space};
use fs_modes::Modes;
use std::alloc::Global;
use std::process::Abort;
use std::test::Fail;

/// A copy of the reply to a copy of the operation.
fn reply(alloc: Global, space: &mut Space, op: Op) -> Result<Reply, Memory> {
    let twin = copied(alloc, op)?;
    let reply = space.step(alloc, Session(1), &twin);
    spend(twin);
    copied(alloc, reply?)
}

fn create(alloc: Global) -> Result<Op, Fail> {
    let dir = FileId::root(alloc);
    let name = Name::new(alloc, b"a")?;
    let kind = Kind::Dir;
    let id = Some(dir.child(alloc, 1)?);
    Ok(Op::Create {
        dir,
        name,
        kind,
        id,
    })
}

fn look_up(alloc: Global) -> Result<Op, Fail> {
    let dir = FileId::root(alloc);
    let name = Name::new(alloc, b"a")?;
    Ok(Op::Lookup { dir, name })
}

fn list(alloc: Global) -> Op {
    let dir = FileId::root(alloc);
    Op::List { dir }
}

fn open(alloc: Global) -> Op {
    let file = FileId::root(alloc);
    let h = 3;
    let modes = Modes::NONE;
    Op::OpenFile { file, h, modes }
}

/// The operation is so replied.
fn replies(
    rt: &impl Abort,
    alloc: Global,
    space: &mut Space,
    op: Op,
    wanted: &str,
) -> Result<(), Fail> {
    reads(rt, alloc, reply(alloc, space, op)?, wanted)
}

const NAMES: &str = "Names(List { items: [Name { bytes: [97] }] })";

fn makes(rt: &impl Abort, alloc: Global, space: &mut Space) -> Result<(), Fail> {
    replies(rt, alloc, space, create(alloc)?, "Made")?;
    replies(
        rt,
        alloc,
        space,
        look_up(alloc)?,
        "Found(FileId { numbers: [1] })",
    )?;
    replies(rt, alloc, space, list(alloc), NAMES)
}

#[test]
fn a_directory_is_made_and_found(rt: HostRuntime) -> Result<(), Fail> {
    let mut space = Space::new(rt.alloc())?;
    let done = makes(&rt, rt.alloc(), &mut space);
    spend(space);
    done
}

fn opens_once(rt: &impl Abort, alloc: Global, space: &mut Space) -> Result<(), Fail> {
    replies(rt, alloc, space, open(alloc), "Opened")?;
    replies(rt, alloc, space, open(alloc), "HandleUsed")
}

#[test]
fn a_file_is_opened_once(rt: HostRuntime) -> Result<(), Fail> {
    let mut space = Space::new(rt.alloc())?;
    let done = opens_once(&rt, rt.alloc(), &mut space);
    spend(space);
    done
}

/// Copies of both.
fn child(alloc: Global, id: &FileId, name: &Name) -> Result<(Name, FileId), Memory> {
    Ok((name.copy(alloc)?, id.copy(alloc)?))
}

/// A node with one of each.
fn node(alloc: Global, id: &FileId, name: &Name) -> Result<Node, Memory>
    ensures { IfOk result IsInOrder }
{
    let child = child(alloc, id, name)?;
    let mut node = Node::new(alloc, Kind::Dir, None);
    node.children.push(child)?;
    node.handles.push(Handle {
        session: Session(2),
        h: 5,
        modes: Modes::NONE,
    })?;
    node.stamp = 4;
    Ok(node)
}

/// A copy of the node is put into the space.
fn put(alloc: Global, space: &mut Space, id: &FileId, node: &Node) -> Result<(), Memory>
    requires { IsInOrder node.now }
{
    space.put(alloc, id, node.copy(alloc)?)
}

/// The copy of a space with that node alone.
fn space_of(alloc: Global, id: &FileId, node: &Node) -> Result<Space, Memory>
    requires { IsInOrder node.now }
{
    let mut space = Space::empty(alloc);
    match put(alloc, &mut space, id, node) {
        Ok(()) => copied(alloc, space),
        Err(Memory) => {
            spend(space);
            Err(Memory)
        }
    }
}

/// The space has the node alone.
fn has(
    rt: &impl Abort,
    alloc: Global,
    space: &Space,
    id: &FileId,
    whole: &Node,
) -> Result<(), Fail> {
    let wanted = format!(in alloc; "{:?}", Some(whole))?;
    shows(rt, alloc, &space.node(id), wanted.as_str())?;
    reads(
        rt,
        alloc,
        space.files(alloc)?,
        "List { items: [FileId { numbers: [7] }] }",
    )?;
    same(rt, space.len(), 1);
    Ok(())
}

/// The copy of the space with the node alone has it.
fn is_put(rt: &impl Abort, alloc: Global, id: &FileId, whole: &Node) -> Result<(), Fail>
    requires { IsInOrder whole.now }
{
    let space = space_of(alloc, id, whole)?;
    let done = has(rt, alloc, &space, id, whole);
    spend(space);
    done
}

/// A node with a child of that identifier is put below it.
fn puts(rt: &impl Abort, alloc: Global, id: &FileId, name: &Name) -> Result<(), Fail> {
    let whole = node(alloc, id, name)?;
    let done = is_put(rt, alloc, id, &whole);
    spend(whole);
    done
}

fn puts_seventh(rt: &impl Abort, alloc: Global, name: &Name) -> Result<(), Fail> {
    let id = FileId::root(alloc).child(alloc, 7)?;
    let done = puts(rt, alloc, &id, name);
    spend(id);
    done
}

#[test]
fn a_node_is_put_and_copied_whole(rt: HostRuntime) -> Result<(), Fail> {
    let name = Name::new(rt.alloc(), b"b")?;
    let done = puts_seventh(&rt, rt.alloc(), &name);
    spend(name);
    done
}
