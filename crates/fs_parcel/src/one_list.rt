//! Whether two tables make one list.
ghost use Rattle.std.specs.Prelude.{◌≡◌, IfOk, true, [], ◌∷◌};
ghost use Rattle.fs_parcel.specs.Rows.{are_one_list};

use fs_ident::{FileId, List, Memory};
use fs_map::MapPiece;
use fs_moderows::ModeRows;
use fs_rows::Rows;
use std::alloc::Global;

/// Whether no number stands in both tables, as `pack_up`, `fits` and `install` ask it of them. It copies the rows of the second
/// table.
pub fn are_one_list(alloc: Global, rows: &Rows, modes: &ModeRows) -> Result<bool, Memory>
    ensures { IfOk result (λ one. one ≡ are_one_list rows.now modes.now) }
{
    let all = everything(alloc)?;
    let of_modes = modes.all().given(alloc, &all)?;
    Ok(rows.all().are_new(&of_modes))
}

/// The piece that gives every identifier.
fn everything(alloc: Global) -> Result<MapPiece, Memory>
    ensures prefix { IfOk result (λ all. all.prefix ≡ []) }
    ensures given { IfOk result (λ all. all.given ≡ ([], true) ∷ []) }
{
    let mut given = List::new(alloc);
    given.push((FileId::root(alloc), true))?;
    Ok(MapPiece {
        prefix: FileId::root(alloc),
        given,
    })
}
