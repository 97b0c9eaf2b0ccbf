//! Whether two tables make one list.
ghost use Rattle.std.specs.Prelude.{◌≡◌, []};

use crate::forms::{same, spend};
use fs_field::{Field, LeaseKind};
use fs_ident::{FileId, LeaseNo, List, Session};
use fs_moderows::ModeRows;
use fs_modes::Mode;
use fs_parcel::are_one_list;
use fs_rows::Rows;
use std::alloc::Global;
use std::test::Fail;

/// The number of a row of the one table, that of a row of the other, and whether they make one list.
const NUMBERS: [(u64, u64, bool); 3] = [(1, 2, true), (2, 1, true), (7, 7, false)];

/// The life of the root is leased under this number.
fn lease_life(alloc: Global, rows: &mut Rows, count: u64) -> Result<(), Fail>
    requires { rows.old ≡ [] }
{
    let field = Field::Life(FileId::root(alloc));
    let no = LeaseNo { server: 0, count };
    let done = rows.ask(alloc, no, Session(1), &field, LeaseKind::Shared, 100);
    spend(field);
    done?;
    Ok(())
}

/// A mode of the root is leased under this number.
fn lease_mode(alloc: Global, modes: &mut ModeRows, count: u64) -> Result<(), Fail>
    requires { modes.old ≡ [] }
{
    let root = FileId::root(alloc);
    let no = LeaseNo { server: 0, count };
    let none = List::new(alloc);
    let done = modes.ask_self(alloc, &none, no, Session(1), &root, Mode::AccR, 100);
    spend(root);
    spend(none);
    done?;
    Ok(())
}

/// Whether the tables make one list once each has a row of this number.
fn are_one(
    alloc: Global,
    rows: &mut Rows,
    modes: &mut ModeRows,
    off: u64,
    on: u64,
) -> Result<bool, Fail>
    requires rows { rows.old ≡ [] }
    requires modes { modes.old ≡ [] }
{
    lease_life(alloc, rows, off)?;
    lease_mode(alloc, modes, on)?;
    Ok(are_one_list(alloc, rows, modes)?)
}

/// Whether new tables make one list once one has a row of the first number and the other has one of the second.
fn make_one(alloc: Global, off: u64, on: u64) -> Result<bool, Fail> {
    let mut rows = Rows::new(alloc);
    let mut modes = ModeRows::new(alloc);
    let one = are_one(alloc, &mut rows, &mut modes, off, on);
    spend(rows);
    spend(modes);
    one
}

#[test]
fn a_number_stands_in_one_table(rt: HostRuntime) -> Result<(), Fail> {
    for (off, on, wanted) in NUMBERS {
        same(&rt, make_one(rt.alloc(), off, on)?, wanted);
    }
    Ok(())
}
