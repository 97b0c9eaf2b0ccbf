//! Writing messages.
ghost use Rattle.std.specs.Prelude.{◌≡◌, ◌++◌, [], OnOk, OnErr, true};
ghost use Rattle.fs_msg.specs.Spelling.{message};
ghost use Rattle.fs_msg.specs.Ranges.{FitsMessage};
ghost use Rattle.fs_msg.specs.Readable.{is_readable};

use crate::msg::Msg;
use fs_ident::Memory;
use fs_wire::Wire;
use std::alloc::Global;

/// Adds the one spelling of a message at the end. When out of memory, nothing is added.
pub fn write(alloc: Global, m: &Msg, out: &mut Vec<u8>) -> Result<(), Memory>
    ensures ok { OnOk result (out.new.items ≡ out.old.items ++ message m.now) }
    ensures fits { OnOk result (is_readable m.now ≡ true → FitsMessage m.now) }
    ensures err { OnErr result (out.new.items ≡ out.old.items) }
{
    if out.is_empty() {
        return write_first(m, out);
    }
    let mut text = Vec::new(alloc);
    write_first(m, &mut text)?;
    out.extend_from_slice(&text)?;
    Ok(())
}

/// Adds the spelling of a message to nothing.
fn write_first(m: &Msg, out: &mut Vec<u8>) -> Result<(), Memory>
    requires { out.old.items ≡ [] }
    ensures ok { OnOk result (out.new.items ≡ message m.now) }
    ensures fits { OnOk result (is_readable m.now ≡ true → FitsMessage m.now) }
    ensures err { OnErr result (out.new.items ≡ []) }
{
    match m.put(out) {
        Ok(()) => Ok(()),
        Err(_) => {
            out.clear();
            Err(Memory)
        }
    }
}
