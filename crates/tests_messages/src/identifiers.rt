//! Identifiers as messages carry them, worked out bit by bit by a second reader that stands apart from these crates.
use crate::same;
use fs_ident::{DEPTH, FileId};
use fs_wire::{ReadError, Wire, stop};
use std::alloc::Global;
use std::process::Abort;
use std::test::Fail;

/// Texts of identifiers, and their bytes.
const IDENTIFIERS: [(&[u8], &[u8]); 22] = [
    (b"/", b"\x80"),
    (b"/1", b"\x50"),
    (b"/2", b"\x48"),
    (b"/3", b"\x4c"),
    (b"/5", b"\x45"),
    (b"/1/1", b"\x78"),
    (b"/1/3", b"\x76"),
    (b"/3/1", b"\x6e"),
    (b"/8", b"\x42\x00"),
    (b"/9", b"\x42\x40"),
    (b"/127", b"\x40\x7f"),
    (b"/128", b"\x40\x20\x00"),
    (b"/65535", b"\x40\x00\x3f\xff\xc0"),
    (b"/65536", b"\x40\x00\x10\x00\x00"),
    (b"/2147483647", b"\x40\x00\x00\x00\x7f\xff\xff\xff"),
    (b"/2147483648", b"\x40\x00\x00\x00\x20\x00\x00\x00\x00"),
    (b"/4294967295", b"\x40\x00\x00\x00\x3f\xff\xff\xff\xc0"),
    (b"/1/2/3/4/5/6", b"\x3d\x32\x14\xc0"),
    (b"/7/7/7/7/7/7/7", b"\x10\x73\x9c\xe7\x39\xc0"),
    (b"/1/4294967295/1", b"\x24\x00\x00\x00\x07\xff\xff\xff\xfc"),
    (b"/16/31/17", b"\x20\x40\x3e\x11"),
    (b"/1/1/1/1/1/1/1/1/1/1/1/1/1/1/1", b"\x08\x7f\xff"),
];

/// The bytes of the identifier with this text.
fn bytes_of(alloc: Global, text: &[u8]) -> Result<Vec<u8>, Fail> {
    let id = FileId::parse(alloc, text)?;
    let mut out = Vec::new(alloc);
    id.put(&mut out)?;
    Ok(out)
}

/// Why no identifier is read, if none is.
fn error_of(alloc: Global, bytes: &[u8]) -> Option<ReadError> {
    FileId::get(alloc, bytes).err()
}

/// The identifier with this text is written as these bytes. It is read again of these with others behind them, and each cut is too short.
fn is_identifier(rt: &impl Abort, alloc: Global, text: &[u8], bytes: &[u8]) -> Result<(), Fail> {
    let mut longer = bytes_of(alloc, text)?;
    same(rt, longer.as_slice(), bytes);
    longer.extend_from_slice(b"\xff\x00")?;
    let (read, rest) = FileId::get(alloc, &longer)?;
    same(
        rt,
        (&read, rest),
        (&FileId::parse(alloc, text)?, b"\xff\x00"),
    );
    for place in 0..bytes.len() {
        stops(rt, alloc, &bytes[..place], 0);
    }
    Ok(())
}

#[test]
fn identifiers(rt: HostRuntime) -> Result<(), Fail> {
    for (text, bytes) in &IDENTIFIERS {
        is_identifier(&rt, rt.alloc(), text, bytes)?;
    }
    Ok(())
}

/// No identifier is read, and so many bytes are left where it goes wrong.
fn stops(rt: &impl Abort, alloc: Global, bytes: &[u8], left: usize) {
    same(rt, error_of(alloc, bytes), Some(stop(false, left)));
}

/// Bytes that begin with no identifier, and how many of them are left from the byte on that holds the bit from which none goes on.
const NO_IDENTIFIERS: [(&[u8], usize); 32] = [
    (b"", 0),
    (b"\x00", 1),
    (b"\x04", 0),
    (b"\x07", 1),
    (b"\x07\x80", 2),
    (b"\x04\x20", 0),
    (b"\x04\x40", 1),
    (b"\x05\x00", 2),
    (b"\x81", 1),
    (b"\x90", 1),
    (b"\xa0", 1),
    (b"\xc0\x00", 2),
    (b"\xff", 1),
    (b"\x40", 0),
    (b"\x41", 0),
    (b"\x4f", 1),
    (b"\x60", 0),
    (b"\x70\x00", 0),
    (b"\x77", 1),
    (b"\x7a", 1),
    (b"\x42", 0),
    (b"\x42\x01", 1),
    (b"\x42\x04", 1),
    (b"\x40\x00\x00\x00", 0),
    (b"\x40\x00\x00\x00\x00", 1),
    (b"\x40\x00\x00\x00\x00\x00", 2),
    (b"\x40\x00\x00\x00\x20\x00\x00\x00", 0),
    (b"\x40\x00\x00\x00\x20\x00\x00\x00\x01", 1),
    (b"\x3d\x32\x14", 0),
    (b"\x3d\x32\x14\xc1", 1),
    (b"\x21\x04\x21\x09", 2),
    (b"\x20\x00\x00\x00\x00\x01", 2),
];

#[test]
fn no_identifiers(rt: HostRuntime) {
    for (bytes, left) in &NO_IDENTIFIERS {
        stops(&rt, rt.alloc(), bytes, *left);
    }
}

/// The deepest identifier with the greatest numbers takes 254 bytes.
#[test]
fn the_greatest_identifier(rt: HostRuntime) -> Result<(), Fail> {
    let alloc = rt.alloc();
    let text = b"/4294967295".repeat(alloc, DEPTH)?;
    let bytes = bytes_of(alloc, &text)?;
    same(&rt, bytes.len(), 254);
    is_identifier(&rt, alloc, &text, &bytes)
}
