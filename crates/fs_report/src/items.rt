//! The lines of the journal.
ghost use Rattle.std.specs.Prelude.{◌≡◌, ◌++◌, OnOk, OnErr};
ghost use Rattle.fs_report.specs.Report.{item_line, item_text};

use crate::op_text::next_op;
use crate::pieces::{LINE, next_number, put_bytes, put_number};
use crate::reply_text::next_reply;
use fs_ident::Memory;
use fs_msg::Item;
use std::alloc::Global;

/// Adds the line of the journal's item number `k`.
pub fn item_line(alloc: Global, k: u64, i: &Item, out: &mut Vec<u8>) -> Result<(), Memory>
    ensures ok { OnOk result (out.new.items ≡ out.old.items ++ item_line k i.now) }
    ensures err { OnErr result (out.new.items ≡ out.old.items) }
{
    let mut line = Vec::with_capacity(alloc, LINE)?;
    line.push(b'j')?;
    put_number(alloc, k, &mut line)?;
    line.push(b' ')?;
    put_item(alloc, i, &mut line)?;
    out.extend_from_slice(&line)?;
    Ok(())
}

/// Adds the line of an item where items have no numbers.
pub fn item_text(alloc: Global, i: &Item, out: &mut Vec<u8>) -> Result<(), Memory>
    ensures ok { OnOk result (out.new.items ≡ out.old.items ++ item_text i.now) }
    ensures err { OnErr result (out.new.items ≡ out.old.items) }
{
    let mut line = Vec::with_capacity(alloc, LINE)?;
    put_item(alloc, i, &mut line)?;
    out.extend_from_slice(&line)?;
    Ok(())
}

fn put_item(alloc: Global, i: &Item, out: &mut Vec<u8>) -> Result<(), Memory>
    ensures { OnOk result (out.new.items ≡ out.old.items ++ item_text i.now) }
{
    let by = i.by.to_string(alloc)?;
    put_bytes(by.as_bytes(), out)?;
    next_number(alloc, i.n, out)?;
    next_op(alloc, &i.op, out)?;
    next_reply(alloc, &i.reply, out)?;
    out.push(b'\n')?;
    Ok(())
}
