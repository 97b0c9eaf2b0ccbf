//! Fields.
ghost use Rattle.std.specs.Prelude.{true};
ghost use Rattle.fs_wire.specs.Spelling.{field};
ghost use Rattle.fs_wire.specs.Reading.{field_at};
ghost use Rattle.fs_wire.specs.Ranges.{FitsField};

use crate::fault::ReadError;
use crate::numbers::tag_of;
use crate::puts::{put_tag_1, put_tag_2};
use crate::wire::Wire;
use fs_field::Field;
use fs_ident::{FileId, Name};
use fs_modes::Mode;
use std::alloc::{AllocError, Global};

impl Wire for Field {
    ghost text = { field };

    ghost at = { field_at };

    ghost fits = { FitsField };

    ghost readable = { λ _. true };

    #[tactic(auto, unfolding(crate::specs::Spelling::field))]
    fn put(&self, out: &mut Vec<u8>) -> Result<(), AllocError> {
        match self {
            Field::Life(file) => put_tag_1(0, file, out),
            Field::Child(dir, name) => put_tag_2(1, dir, name, out),
            Field::Names(dir) => put_tag_1(2, dir, out),
            Field::Info(file) => put_tag_1(3, file, out),
            Field::Own(file) => put_tag_1(4, file, out),
            Field::SelfW(file, mode) => put_tag_2(5, file, mode, out),
            Field::Other(file, mode) => put_tag_2(6, file, mode, out),
        }
    }

    #[tactic(auto, unfolding(crate::specs::Reading::field_at, crate::specs::Readers::then_at, crate::specs::Readers::either_at, crate::specs::Readers::always_at, crate::specs::Readers::map_at))]
    fn get(alloc: Global, bytes: &[u8]) -> Result<(Field, &[u8]), ReadError> {
        let (tag, rest) = tag_of(7, bytes)?;
        match tag {
            0 => {
                let (file, rest) = FileId::get(alloc, rest)?;
                Ok((Field::Life(file), rest))
            }
            1 => {
                let ((dir, name), rest) = <(FileId, Name)>::get(alloc, rest)?;
                Ok((Field::Child(dir, name), rest))
            }
            2 => {
                let (dir, rest) = FileId::get(alloc, rest)?;
                Ok((Field::Names(dir), rest))
            }
            3 => {
                let (file, rest) = FileId::get(alloc, rest)?;
                Ok((Field::Info(file), rest))
            }
            4 => {
                let (file, rest) = FileId::get(alloc, rest)?;
                Ok((Field::Own(file), rest))
            }
            5 => {
                let ((file, mode), rest) = <(FileId, Mode)>::get(alloc, rest)?;
                Ok((Field::SelfW(file, mode), rest))
            }
            _ => {
                let ((file, mode), rest) = <(FileId, Mode)>::get(alloc, rest)?;
                Ok((Field::Other(file, mode), rest))
            }
        }
    }
}
