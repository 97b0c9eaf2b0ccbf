//! The lines of items.
ghost use Rattle.std.specs.Prelude.{◌≡◌, ◌++◌, IfOk, OnOk, flat_map};
ghost use Rattle.fs_report.specs.Report.{item_text};

use fs_ident::Memory;
use fs_msg::Item;
use fs_report::item_text;
use std::alloc::Global;

/// The lines of these items.
pub(crate) fn lines_of(alloc: Global, items: &[Item]) -> Result<Vec<u8>, Memory>
    ensures { IfOk result (λ lines. lines.items ≡ flat_map item_text items.now) }
{
    let mut lines = Vec::new(alloc);
    for item in items {
        item_text(alloc, item, &mut lines)?;
    }
    Ok(lines)
}
