//! What a field says.
ghost use Rattle.std.specs.Prelude.{◌≡◌};
ghost use Rattle.fs_field.specs.Value.{is_value_of};

use crate::field::Field;
use fs_ident::{FileId, Kind, List, Memory, Name, Twin};
use fs_modes::Modes;
use std::alloc::Global;

/// The value of the field of the same name.
#[derive(Debug, Drop)]
pub enum Value {
    /// What the file is, if it lives.
    Life(Option<Kind>),
    /// The file that has the name, if one has.
    Child(Option<FileId>),
    /// The names, in byte order.
    Names(List<Name>),
    /// Size and stamp.
    Info(u64, u64),
    /// The handles of the session and their modes, by handle.
    Own(List<(u32, Modes)>),
    /// The session tells it itself.
    SelfW,
    /// Whether any other session has the mode.
    Other(bool),
}

impl Value {
    /// Whether it can be the value of the field.
    pub fn is_of(&self, field: &Field) -> bool
        ensures { result ≡ is_value_of field.now self.now }
    {
        match (field, self) {
            (Field::Life(_), Value::Life(_)) => true,
            (Field::Child(_, _), Value::Child(_)) => true,
            (Field::Names(_), Value::Names(_)) => true,
            (Field::Info(_), Value::Info(_, _)) => true,
            (Field::Own(_), Value::Own(_)) => true,
            (Field::SelfW(_, _), Value::SelfW) => true,
            (Field::Other(_, _), Value::Other(_)) => true,
            _ => false,
        }
    }
}

impl Twin for Value {
    fn copy(&self, alloc: Global) -> Result<Value, Memory> {
        match self {
            Value::Life(kind) => Ok(Value::Life(*kind)),
            Value::Child(file) => Ok(Value::Child(file.copy(alloc)?)),
            Value::Names(names) => Ok(Value::Names(names.copy(alloc)?)),
            Value::Info(size, stamp) => Ok(Value::Info(*size, *stamp)),
            Value::Own(handles) => Ok(Value::Own(handles.copy(alloc)?)),
            Value::SelfW => Ok(Value::SelfW),
            Value::Other(held) => Ok(Value::Other(*held)),
        }
    }

    fn discard(self) {}
}
