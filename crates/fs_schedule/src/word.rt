//! Words of a line.

/// A word of a line, where it stands there: bare bytes, or a name between double quotes.
#[derive(Clone, Copy, Debug, Drop)]
pub enum Word<'a> {
    Bare(&'a [u8]),
    Quoted(&'a [u8]),
}
