//! The values of fields.
ghost use Rattle.fs_wire.specs.Spelling.{value};
ghost use Rattle.fs_wire.specs.Reading.{value_at};
ghost use Rattle.fs_wire.specs.Ranges.{FitsValue};
ghost use Rattle.fs_wire.specs.Readable.{is_readable_value};

use crate::fault::ReadError;
use crate::numbers::tag_of;
use crate::puts::{put_tag, put_tag_1, put_tag_2};
use crate::wire::Wire;
use fs_field::Value;
use fs_ident::{FileId, Kind, List, Name};
use fs_modes::Modes;
use std::alloc::{AllocError, Global};

impl Wire for Value {
    ghost text = { value };

    ghost at = { value_at };

    ghost fits = { FitsValue };

    ghost readable = { is_readable_value };

    #[tactic(auto, unfolding(crate::specs::Spelling::value), using(crate::proofs::Readable::always_list))]
    fn put(&self, out: &mut Vec<u8>) -> Result<(), AllocError> {
        match self {
            Value::Life(kind) => put_tag_1(0, kind, out),
            Value::Child(file) => put_tag_1(1, file, out),
            Value::Names(names) => put_tag_1(2, names, out),
            Value::Info(size, stamp) => put_tag_2(3, size, stamp, out),
            Value::Own(handles) => put_tag_1(4, handles, out),
            Value::SelfW => put_tag(5, out),
            Value::Other(held) => put_tag_1(6, held, out),
        }
    }

    #[tactic(auto, unfolding(crate::specs::Reading::value_at, crate::specs::Readers::then_at, crate::specs::Readers::either_at, crate::specs::Readers::always_at, crate::specs::Readers::map_at))]
    fn get(alloc: Global, bytes: &[u8]) -> Result<(Value, &[u8]), ReadError> {
        let (tag, rest) = tag_of(7, bytes)?;
        match tag {
            0 => {
                let (kind, rest) = <Option<Kind>>::get(alloc, rest)?;
                Ok((Value::Life(kind), rest))
            }
            1 => {
                let (file, rest) = <Option<FileId>>::get(alloc, rest)?;
                Ok((Value::Child(file), rest))
            }
            2 => {
                let (names, rest) = <List<Name>>::get(alloc, rest)?;
                Ok((Value::Names(names), rest))
            }
            3 => {
                let ((size, stamp), rest) = <(u64, u64)>::get(alloc, rest)?;
                Ok((Value::Info(size, stamp), rest))
            }
            4 => {
                let (handles, rest) = <List<(u32, Modes)>>::get(alloc, rest)?;
                Ok((Value::Own(handles), rest))
            }
            5 => Ok((Value::SelfW, rest)),
            _ => {
                let (held, rest) = bool::get(alloc, rest)?;
                Ok((Value::Other(held), rest))
            }
        }
    }
}
