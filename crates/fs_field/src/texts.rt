//! How fields are written.
use crate::field::Field;
use std::fmt;

impl fmt::Display for Field {
    ghost use Rattle.std.specs.Prelude.{Some};
    ghost use Rattle.fs_field.specs.Texts.{field_text};

    ghost output = { λ f. Some (field_text f) };

    fn fmt<W: fmt::Write>(&self, f: &mut fmt::Formatter<W>) -> fmt::Result {
        match self {
            Field::Life(file) => write!(f, "life {file}"),
            Field::Child(dir, name) => write!(f, "child {dir} \"{name}\""),
            Field::Names(dir) => write!(f, "names {dir}"),
            Field::Info(file) => write!(f, "info {file}"),
            Field::Own(file) => write!(f, "own {file}"),
            Field::SelfW(file, mode) => write!(f, "self {file} {mode}"),
            Field::Other(file, mode) => write!(f, "other {file} {mode}"),
        }
    }
}
