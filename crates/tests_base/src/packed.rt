use crate::same;
use fs_ident::{DEPTH, FileId, IdError};
use std::alloc::Global;
use std::process::Abort;
use std::test::Fail;

/// Texts of identifiers, and their packed bytes.
const PACKED: [(&[u8], &[u8]); 19] = [
    (b"/", b"\x80"),
    (b"/5", b"\x45"),
    (b"/1/3", b"\x76"),
    (b"/4294967295", b"\x40\x00\x00\x00\x3f\xff\xff\xff\xc0"),
    (b"/1", b"\x50"),
    (b"/2", b"\x48"),
    (b"/7", b"\x47"),
    (b"/8", b"\x42\x00"),
    (b"/255", b"\x40\x3f\xc0"),
    (b"/256", b"\x40\x10\x00"),
    (b"/65535/65536", b"\x60\x00\x3f\xff\xc0\x00\x20\x00\x00"),
    (b"/1/1", b"\x78"),
    (b"/1/1/1/1/1/1/1", b"\x11\xfc"),
    (b"/3/5/9", b"\x23\x28\x90"),
    (b"/1/2/3/4/5/6", b"\x3d\x32\x14\xc0"),
    (
        b"/4294967295/4294967295",
        b"\x60\x00\x00\x00\x3f\xff\xff\xff\xc0\x00\x00\x00\x7f\xff\xff\xff\x80",
    ),
    (b"/2147483648", b"\x40\x00\x00\x00\x20\x00\x00\x00\x00"),
    (b"/1000000/1", b"\x60\x00\x03\xd0\x90\x20"),
    (b"/128/1/128", b"\x20\x08\x08\x08\x00"),
];

/// The identifier is packed so, behind what was there.
fn packs(rt: &impl Abort, alloc: Global, text: &[u8], bytes: &[u8]) -> Result<(), Fail> {
    let id = FileId::parse(alloc, text)?;
    let mut out = Vec::from_slice(alloc, b"id ")?;
    id.pack(&mut out)?;
    same(rt, out.split_at(3), (b"id ", bytes));
    unpacks(rt, alloc, &id, bytes)
}

/// The bytes, with others behind them, are read as the identifier.
fn unpacks(rt: &impl Abort, alloc: Global, id: &FileId, bytes: &[u8]) -> Result<(), Fail> {
    let mut longer = Vec::from_slice(alloc, bytes)?;
    longer.extend_from_slice(b"\xff\x00")?;
    let (read, used) = FileId::unpack(alloc, &longer)?;
    same(rt, (&read, used), (id, bytes.len()));
    Ok(())
}

#[test]
fn packs_and_unpacks_identifiers(rt: HostRuntime) -> Result<(), Fail> {
    for (text, bytes) in &PACKED {
        packs(&rt, rt.alloc(), text, bytes)?;
    }
    packs(
        &rt,
        rt.alloc(),
        &b"/1".repeat(rt.alloc(), DEPTH)?,
        b"\x04\x3f\xff\xff\xff\xe0",
    )
}

/// Bytes that begin with no packed identifier, and how many of their bits begin one.
const NOT_PACKED: [(&[u8], usize); 35] = [
    (b"", 0),
    (b"\x00", 5),
    (b"\x04", 8),
    (b"\x07", 6),
    (b"\x07\x80", 6),
    (b"\x03\xff", 5),
    (b"\x04\x00", 16),
    (b"\x04\x20", 16),
    (b"\x04\x40", 9),
    (b"\x04\x21", 16),
    (b"\xc0", 1),
    (b"\x81", 7),
    (b"\xa0", 2),
    (b"\x40", 8),
    (b"\x41", 8),
    (b"\x60", 8),
    (b"\x60\x00", 16),
    (b"\x70", 8),
    (b"\x77", 7),
    (b"\x75", 7),
    (b"\x40\x00\x00\x00\x00", 34),
    (b"\x40\x00\x00\x00\x00\x00\x00\x00\x00", 34),
    (b"\x40\x00\x00\x00", 32),
    (b"\x4f\xff", 6),
    (b"\x01\x00\x00", 5),
    (b"\x01\x00", 5),
    (b"\x05\x00", 7),
    (b"\x04\x80", 8),
    (b"\x04\x3f", 16),
    (b"\xff", 1),
    (b"\x20\x80", 16),
    (b"\x08", 8),
    (b"\x30", 8),
    (b"\x20", 8),
    (b"\x29\x00\x00\x00\x00\x00\x00\x00", 41),
];

#[test]
fn refuses_bits(rt: HostRuntime) -> Result<(), Fail> {
    for (bytes, at) in &NOT_PACKED {
        same(
            &rt,
            FileId::unpack(rt.alloc(), bytes).err(),
            Some(IdError::BadBits { at: *at }),
        );
    }
    Ok(())
}
