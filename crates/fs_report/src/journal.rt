//! The journal and the namespace in JSON.
ghost use Rattle.std.specs.Prelude.{◌≡◌, ◌++◌, IfOk, OnOk, OnErr, map, string_bytes};
ghost use Rattle.fs_report.specs.Json.{journal_json};
ghost use Rattle.fs_report.specs.Values.{item_value, journal_value};
ghost use Rattle.serde_json.specs.View.{view};

use crate::space_values::space_values;
use crate::strings::{op_string, reply_string};
use fs_ident::{List, Memory};
use fs_model::Space;
use fs_msg::Item;
use serde_json::{Map, Value, json};
use std::alloc::Global;

/// Adds the journal and the lines of the namespace as a line of JSON.
pub fn journal_json(
    alloc: Global,
    j: &List<Item>,
    s: &Space,
    out: &mut Vec<u8>,
) -> Result<(), Memory>
    ensures ok { OnOk result (out.new.items ≡ out.old.items ++ journal_json j.now s.now) }
    ensures err { OnErr result (out.new.items ≡ out.old.items) }
{
    let line = json_line(alloc, j.as_slice(), s)?;
    out.extend_from_slice(line.as_bytes())?;
    Ok(())
}

/// The line, with its line feed.
#[tactic(auto, using(crate::proofs::JsonText::no_floats, crate::proofs::JsonText::journal_text))]
fn json_line(alloc: Global, journal: &[Item], s: &Space) -> Result<String, Memory>
    ensures { IfOk result (λ text. string_bytes text ≡ journal_json journal.now s.now) }
{
    let value = journal_value(alloc, journal, s)?;
    let mut line = value.to_string(alloc)?;
    line.push('\n')?;
    Ok(line)
}

fn journal_value(alloc: Global, journal: &[Item], s: &Space) -> Result<Value, Memory>
    ensures { IfOk result (λ v. view v ≡ journal_value journal.now s.now) }
{
    let items = item_values(alloc, journal)?;
    let lines = space_values(alloc, s)?;
    let mut object = Map::new(alloc);
    serde_json::put(&mut object, alloc, "journal", Value::Array(items))?;
    serde_json::put(&mut object, alloc, "space", Value::Array(lines))?;
    Ok(Value::Object(object))
}

fn item_values(alloc: Global, items: &[Item]) -> Result<Vec<Value>, Memory>
    ensures { IfOk result (λ v. map view v.items ≡ map item_value items.now) }
{
    let mut values = Vec::new(alloc);
    for item in items {
        values.push(item_value(alloc, item)?)?;
    }
    Ok(values)
}

fn item_value(alloc: Global, item: &Item) -> Result<Value, Memory>
    ensures { IfOk result (λ v. view v ≡ item_value item.now) }
{
    let by = item.by.to_string(alloc)?;
    let op = op_string(alloc, &item.op)?;
    let reply = reply_string(alloc, &item.reply)?;
    let value = json!(in alloc; {
        "by": by.as_str(),
        "n": item.n,
        "op": op.as_str(),
        "reply": reply.as_str(),
    });
    Ok(value?)
}
