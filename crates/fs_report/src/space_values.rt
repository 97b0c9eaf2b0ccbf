//! The lines of the namespace as values of JSON.
ghost use Rattle.std.specs.Prelude.{◌≡◌, ◌∷◌, [], ◌++◌, IfOk, OnOk, Some, map, string_bytes};
ghost use Rattle.std.specs.Option.{option_copied};
ghost use Rattle.fs_report.specs.Report.{file_lines, space_lines};
ghost use Rattle.serde_json.specs.Data.{string};
ghost use Rattle.serde_json.specs.View.{view};

use crate::strings::{handle_string, node_string};
use fs_ident::{FileId, Memory};
use fs_model::{Node, Space};
use serde_json::Value;
use std::alloc::Global;

/// A value for each line of the namespace.
pub(crate) fn space_values(alloc: Global, s: &Space) -> Result<Vec<Value>, Memory>
    ensures { IfOk result (λ v. map view v.items ≡ map string (space_lines s.now)) }
{
    let files = s.files(alloc)?;
    let mut values = Vec::new(alloc);
    for id in files.as_slice() {
        add_found(alloc, id, s.node(id), &mut values)?;
    }
    Ok(values)
}

/// A value for each line of a file, if there is one.
fn add_found(
    alloc: Global,
    id: &FileId,
    node: Option<&Node>,
    values: &mut Vec<Value>,
) -> Result<(), Memory>
    ensures { OnOk result (map view values.new.items ≡ map view values.old.items ++
        map string (file_lines id.now (option_copied node.entry))) }
{
    match node {
        None => Ok(()),
        Some(node) => add_file(alloc, id, node, values),
    }
}

/// Adds a value for each line of this file.
fn add_file(alloc: Global, id: &FileId, node: &Node, values: &mut Vec<Value>) -> Result<(), Memory>
    ensures { OnOk result (map view values.new.items ≡ map view values.old.items ++
        map string (file_lines id.now (Some node.now))) }
{
    let line = node_string(alloc, id, node)?;
    add_text(values, line)?;
    for handle in node.handles.as_slice() {
        let line = handle_string(alloc, id, *handle)?;
        add_text(values, line)?;
    }
    Ok(())
}

/// One text more.
fn add_text(values: &mut Vec<Value>, text: String) -> Result<(), Memory>
    ensures { OnOk result (map view values.new.items ≡ map view values.old.items ++
        string (string_bytes text) ∷ []) }
{
    values.push(Value::String(text))?;
    Ok(())
}
