//! The lines of the namespace.
ghost use Rattle.std.specs.Prelude.{◌≡◌, ◌++◌, OnOk, OnErr};
ghost use Rattle.std.specs.Option.{option_copied};
ghost use Rattle.fs_report.specs.Report.{file_text, space_text};

use crate::node_lines::put_file;
use fs_ident::{FileId, Memory};
use fs_model::{Node, Space};
use std::alloc::Global;

/// Adds the lines of the namespace: by identifier, each node and its handles.
pub fn space_lines(alloc: Global, s: &Space, out: &mut Vec<u8>) -> Result<(), Memory>
    ensures ok { OnOk result (out.new.items ≡ out.old.items ++ space_text s.now) }
    ensures err { OnErr result (out.new.items ≡ out.old.items) }
{
    let mut lines = Vec::new(alloc);
    put_space(alloc, s, &mut lines)?;
    out.extend_from_slice(&lines)?;
    Ok(())
}

fn put_space(alloc: Global, s: &Space, out: &mut Vec<u8>) -> Result<(), Memory>
    ensures { OnOk result (out.new.items ≡ out.old.items ++ space_text s.now) }
{
    let files = s.files(alloc)?;
    for id in files.as_slice() {
        put_found(alloc, id, s.node(id), out)?;
    }
    Ok(())
}

/// The lines of a file, if there is one.
fn put_found(
    alloc: Global,
    id: &FileId,
    node: Option<&Node>,
    out: &mut Vec<u8>,
) -> Result<(), Memory>
    ensures { OnOk result (out.new.items ≡ out.old.items ++
        file_text id.now (option_copied node.entry)) }
{
    match node {
        None => Ok(()),
        Some(node) => put_file(alloc, id, node, out),
    }
}
