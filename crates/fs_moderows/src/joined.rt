//! The rows of a table beside others, as if all were in one table.
ghost use Rattle.std.specs.Prelude.{◌≡◌};
ghost use Rattle.fs_rows.specs.Granted.{with_rows};

use crate::live::Live;
use fs_field::Row;
use std::marker::Model;

/// The rows of a table that are not over, and others, all in one table. Nothing is copied: what is asked of it is asked
/// of both.
#[derive(Drop)]
pub struct Joined<'a> {
    pub here: Live<'a>,
    pub came: Live<'a>,
}

impl<'a> Model for Joined<'a> {
    ghost use Rattle.std.specs.Prelude.{List};
    ghost use Rattle.fs_field.specs.declared.row.Row.{Row};
    ghost use Rattle.fs_rows.specs.Granted.{with_rows};

    ghost Value = { List Row };

    ghost view = { λ j. with_rows j.came j.here };
}

impl<'a> Joined<'a> {
    /// The rows, and all of these.
    pub fn of(rows: &Live<'a>, came: &'a [Row]) -> Joined<'a>
        ensures { result ≡ with_rows came.now rows.now }
    {
        Joined {
            here: rows.again(),
            came: Live::all(came),
        }
    }

    /// The rows alone.
    pub fn only(rows: &Live<'a>) -> Joined<'a>
        ensures { result ≡ rows.now }
    {
        Joined::of(rows, &[])
    }
}
