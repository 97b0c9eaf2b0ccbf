//! Rows by table, and the rows of both tables in order.
ghost use Rattle.std.specs.Prelude.{◌≡◌, ◌+◌, ◌<◌, true, reverse, vec_len, IfOk, IsSome};
ghost use Rattle.fs_field.specs.Table.{is_ordered};
ghost use Rattle.fs_parcel.specs.Merged.{AreFalling, IsLeastTaken, is_first};
ghost use Rattle.fs_parcel.specs.Rows.{in_one_list, rows_off_modes, rows_on_modes};

use fs_field::Row;
use fs_ident::{List, Memory, Twin};
use std::alloc::Global;

/// Rows by table.
#[derive(Drop)]
pub struct Parts {
    /// Those that are on no part of what sessions tell of modes.
    pub plain: List<Row>,
    /// Those on what sessions tell of modes.
    pub modes: List<Row>,
}

impl Parts {
    /// The rows by table, each part in the order in which they stand.
    pub fn of(alloc: Global, rows: List<Row>) -> Result<Parts, Memory>
        ensures plain { IfOk result (λ parts. parts.plain ≡ rows_off_modes rows) }
        ensures modes { IfOk result (λ parts. parts.modes ≡ rows_on_modes rows) }
    {
        let mut plain = List::new(alloc);
        let mut modes = List::new(alloc);
        for row in rows.into_vec() {
            if row.field.tells_no_mode() {
                plain.push(row)?;
            } else {
                modes.push(row)?;
            }
        }
        Ok(Parts { plain, modes })
    }
}

impl Twin for Parts {
    fn copy(&self, alloc: Global) -> Result<Parts, Memory> {
        Ok(Parts {
            plain: self.plain.copy(alloc)?,
            modes: self.modes.copy(alloc)?,
        })
    }

    fn discard(self) {}
}

/// The rows of two tables, each in order of number, as one list in order.
pub(crate) fn merged(alloc: Global, plain: List<Row>, modes: List<Row>) -> Result<List<Row>, Memory>
    requires plain { is_ordered plain ≡ true }
    requires modes { is_ordered modes ≡ true }
    requires both { is_ordered (in_one_list plain modes) ≡ true }
    ensures { IfOk result (λ rows. rows ≡ in_one_list plain modes) }
{
    let mut falling_plain = plain.into_vec();
    let mut falling_modes = modes.into_vec();
    falling_plain.reverse();
    falling_modes.reverse();
    let mut rows = List::new(alloc);
    while let Some(row) = least(&mut falling_plain, &mut falling_modes) {
        rows.push(row)?;
    }
    Ok(rows)
}

/// Takes the row of the least number out of two tables in falling order.
fn least(plain: &mut Vec<Row>, modes: &mut Vec<Row>) -> Option<Row>
    requires { AreFalling plain.old.items modes.old.items }
    ensures taken { IsLeastTaken result plain.old.items modes.old.items
        plain.new.items modes.new.items }
    ensures fewer { IsSome result →
        vec_len plain.new + vec_len modes.new < vec_len plain.old + vec_len modes.old }
{
    if is_first(plain, modes) {
        plain.pop()
    } else {
        modes.pop()
    }
}

/// Whether the last row of the first table comes before that of the second, if there is one.
fn is_first(plain: &[Row], modes: &[Row]) -> bool
    ensures { result ≡ is_first (reverse plain.now) (reverse modes.now) }
{
    let Some((a, _)) = plain.split_last() else {
        return false;
    };
    let Some((b, _)) = modes.split_last() else {
        return true;
    };
    a.no < b.no
}
