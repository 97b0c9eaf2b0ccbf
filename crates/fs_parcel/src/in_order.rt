//! Whether records stand in order.
ghost use Rattle.std.specs.Prelude.{◌≡◌, ◌&&◌};
ghost use Rattle.std.specs.Cmp.Lexicographic.{slice_cmp};
ghost use Rattle.std.specs.FinMap.Entries.{below_all};
ghost use Rattle.std.specs.Ordering.{nat_cmp};
ghost use Rattle.fs_ident.specs.Ordered.{are_keys_in_order};

use fs_ident::FileId;
use fs_record::Record;
use std::cmp::Ordering;

/// Whether their files rise strictly.
pub(crate) fn files_rise(records: &[(FileId, Record)]) -> bool
    ensures { result ≡ are_keys_in_order records.now }
{
    match records.split_first() {
        None => true,
        Some((first, rest)) => files_rise_from(&first.0, rest),
    }
}

/// Whether they rise strictly from the file on.
fn files_rise_from(first: &FileId, rest: &[(FileId, Record)]) -> bool
    ensures { result ≡
        (below_all (slice_cmp nat_cmp) first.now rest.now && are_keys_in_order rest.now) }
{
    let mut last = first;
    for (file, _) in rest {
        match last.cmp(file) {
            Ordering::Less => last = file,
            _ => return false,
        }
    }
    true
}
