//! Laws of tables of rows.
ghost use Rattle.std.specs.Prelude.{◌≡◌, ℕ, Bool, true, List};
ghost use Rattle.fs_field.specs.declared.row.Row.{Row};
ghost use Rattle.fs_ident.specs.In.{In};
ghost use Rattle.fs_field.specs.Conflict.{Selves, NoConflict};
ghost use Rattle.fs_ident.specs.Ordered.{Keyed};
ghost use Rattle.fs_rows.specs.Granted.{with_rows};
ghost use Rattle.fs_rows.specs.Moving.{are_off_modes, fits, rows_left};
ghost use Rattle.fs_rows.specs.Table.{IsTable};

/// No two rows of a table conflict, whoever has a handle.
pub fn tables_are_without_conflict()
    ensures { (selves : Selves) (rows : List Row) → IsTable rows → NoConflict selves rows }
{}

/// No two rows of a table have one number.
pub fn numbers_tell_rows_apart()
    ensures { (rows : List Row) → IsTable rows → (a b : Row) → In a rows → In b rows → a.no ≡ b.no →
        a ≡ b }
{}

/// A table with rows that fit is one, and so is what stays of one.
pub fn rows_that_move_leave_tables()
    ensures came { (rows more : List Row) → IsTable rows → are_off_modes more ≡ true →
        fits rows more ≡ true → IsTable (with_rows more rows) }
    ensures gone { (prefix : List ℕ) (given : Keyed Bool) (rows : List Row) → IsTable rows →
        IsTable (rows_left prefix given rows) }
{}
