//! The texts of what a client needs.
ghost use Rattle.std.specs.Prelude.{◌≡◌, ◌++◌, OnOk};
ghost use Rattle.fs_field.specs.Texts.{field_text};
ghost use Rattle.fs_report.specs.Notes.{sharing_text, need_text, needs_text};

use crate::pieces::{next_id, put_bytes};
use fs_field::{Field, LeaseKind, Need};
use fs_ident::Memory;
use std::alloc::Global;

/// The needs, parted by a comma and a space.
pub(crate) fn put_needs(alloc: Global, needs: &[Need], out: &mut Vec<u8>) -> Result<(), Memory>
    ensures { OnOk result (out.new.items ≡ out.old.items ++ needs_text needs.now) }
{
    let [first, rest @ ..] = needs else {
        return Ok(());
    };
    put_need(alloc, first, out)?;
    for need in rest {
        put_bytes(b", ", out)?;
        put_need(alloc, need, out)?;
    }
    Ok(())
}

/// A field and how it is leased, or a directory below which an identifier is needed.
fn put_need(alloc: Global, need: &Need, out: &mut Vec<u8>) -> Result<(), Memory>
    ensures { OnOk result (out.new.items ≡ out.old.items ++ need_text need.now) }
{
    match need {
        Need::Lease(field, kind) => {
            put_field(alloc, field, out)?;
            put_sharing(field, *kind, out)
        }
        Need::Fresh(dir) => {
            put_bytes(b"fresh", out)?;
            next_id(alloc, dir, out)
        }
    }
}

/// A field.
fn put_field(alloc: Global, field: &Field, out: &mut Vec<u8>) -> Result<(), Memory>
    ensures { OnOk result (out.new.items ≡ out.old.items ++ field_text field.now) }
{
    let text = field.to_string(alloc)?;
    put_bytes(text.as_bytes(), out)
}

/// A space and the kind of a lease on the field; nothing for a session's own handles.
fn put_sharing(field: &Field, kind: LeaseKind, out: &mut Vec<u8>) -> Result<(), Memory>
    ensures { OnOk result (out.new.items ≡ out.old.items ++ sharing_text field.now kind) }
{
    match (field, kind) {
        (Field::Own(_), _) => Ok(()),
        (_, LeaseKind::Shared) => put_bytes(b" shared", out),
        (_, LeaseKind::Exclusive) => put_bytes(b" exclusive", out),
    }
}
