//! The lines of one file: its node's and its handles'.
ghost use Rattle.std.specs.Prelude.{◌≡◌, ◌++◌, OnOk, flat_map, Some};
ghost use Rattle.std.specs.Str.{IsUtf8};
ghost use Rattle.fs_report.specs.Report.{ended, file_text, handle_line, node_line, parent_text};

use crate::pieces::{
    next_id, next_kind, next_modes, next_name, next_number, next_session, put_text,
};
use fs_ident::{FileId, Memory, Name};
use fs_model::{Handle, Node};
use std::alloc::Global;

/// A node's line and those of its handles.
pub(crate) fn put_file(
    alloc: Global,
    id: &FileId,
    node: &Node,
    out: &mut Vec<u8>,
) -> Result<(), Memory>
    ensures { OnOk result (out.new.items ≡ out.old.items ++ file_text id.now (Some node.now)) }
{
    put_node(alloc, id, node, out)?;
    out.push(b'\n')?;
    for handle in node.handles.as_slice() {
        put_handle(alloc, id, *handle, out)?;
        out.push(b'\n')?;
    }
    Ok(())
}

/// A node's line, without its line feed.
pub(crate) fn put_node(
    alloc: Global,
    id: &FileId,
    node: &Node,
    out: &mut Vec<u8>,
) -> Result<(), Memory>
    ensures bytes { OnOk result (out.new.items ≡ out.old.items ++ node_line id.now node.now) }
    ensures text { IsUtf8 out.old.items → OnOk result (IsUtf8 out.new.items) }
{
    put_text("n", out)?;
    next_id(alloc, id, out)?;
    next_kind(node.kind, out)?;
    next_number(alloc, node.size, out)?;
    next_number(alloc, node.stamp, out)?;
    put_parent(alloc, &node.parent, out)
}

/// The directory and the name, for all but the root.
fn put_parent(
    alloc: Global,
    parent: &Option<(FileId, Name)>,
    out: &mut Vec<u8>,
) -> Result<(), Memory>
    ensures bytes { OnOk result (out.new.items ≡ out.old.items ++ parent_text parent.now) }
    ensures text { IsUtf8 out.old.items → OnOk result (IsUtf8 out.new.items) }
{
    let Some((dir, name)) = parent else {
        return Ok(());
    };
    put_text(" in", out)?;
    next_id(alloc, dir, out)?;
    next_name(name, out)
}

/// A handle's line, without its line feed.
pub(crate) fn put_handle(
    alloc: Global,
    id: &FileId,
    handle: Handle,
    out: &mut Vec<u8>,
) -> Result<(), Memory>
    ensures bytes { OnOk result (out.new.items ≡ out.old.items ++ handle_line id.now handle) }
    ensures text { IsUtf8 out.old.items → OnOk result (IsUtf8 out.new.items) }
{
    put_text("h", out)?;
    next_id(alloc, id, out)?;
    next_session(alloc, handle.session, out)?;
    next_number(alloc, u64::from(handle.h), out)?;
    next_modes(handle.modes, out)
}
