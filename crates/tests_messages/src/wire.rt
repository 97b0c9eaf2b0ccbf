//! The bytes of values, worked out from the table of bytes: each field at its least and at its greatest value.
use crate::same;
use fs_field::{Field, Row, Use, Value};
use fs_ident::{Kind, LeaseNo, List, Name, Session, TxnNo};
use fs_model::{Node, Op, Reply};
use fs_modes::{Mode, Modes};
use fs_wire::{ReadError, Wire, next_of, put_next, stop};
use std::alloc::Global;
use std::process::Abort;
use std::test::Fail;

/// Whether the bytes are read as a value that is written as these bytes again.
fn is_spelled_again<T: Wire>(alloc: Global, bytes: &[u8]) -> Result<bool, ReadError> {
    let (value, rest) = T::get(alloc, bytes)?;
    let mut out = Vec::new(alloc);
    value.put(&mut out)?;
    Ok(rest.is_empty() && out.as_slice() == bytes)
}

/// Whether each row is.
fn are_spelled_again<T: Wire>(alloc: Global, table: &[&[u8]]) -> Result<bool, ReadError> {
    for bytes in table {
        if !is_spelled_again::<T>(alloc, bytes)? {
            return Ok(false);
        }
    }
    Ok(true)
}

/// Why no value is read.
fn error_of<T: Wire>(alloc: Global, bytes: &[u8]) -> Option<ReadError> {
    T::get(alloc, bytes).err()
}

const FIELDS: [&[u8]; 7] = [
    &[0, 64, 0, 0, 0, 63, 255, 255, 255, 192],
    &[1, 128, 1, 33],
    &[2, 128],
    &[3, 128],
    &[4, 128],
    &[5, 128, 0],
    &[6, 128, 5],
];

#[test]
fn fields(rt: HostRuntime) -> Result<(), Fail> {
    same(&rt, are_spelled_again::<Field>(rt.alloc(), &FIELDS)?, true);
    same(
        &rt,
        error_of::<Field>(rt.alloc(), &[7]),
        Some(stop(true, 1)),
    );
    Ok(())
}

const VALUES: [&[u8]; 8] = [
    &[0, 0],
    &[0, 1, 1],
    &[1, 1, 128],
    &[2, 0, 0, 0, 0, 0, 0, 0, 2, 1, 33, 2, 46, 97],
    &[
        3, 0, 0, 0, 0, 0, 0, 0, 9, 255, 255, 255, 255, 255, 255, 255, 255,
    ],
    &[4, 0, 0, 0, 0, 0, 0, 0, 1, 255, 255, 255, 255, 63],
    &[5],
    &[6, 1],
];

#[test]
fn values(rt: HostRuntime) -> Result<(), Fail> {
    same(&rt, are_spelled_again::<Value>(rt.alloc(), &VALUES)?, true);
    Ok(())
}

const OPERATIONS: [&[u8]; 12] = [
    &[0, 128, 1, 33],
    &[1, 128],
    &[2, 128],
    &[3, 128],
    &[4, 128, 1, 33, 0, 0],
    &[4, 128, 1, 33, 1, 1, 80],
    &[5, 128, 255, 255, 255, 255, 1],
    &[6, 128, 0, 0, 0, 2],
    &[
        7, 128, 0, 0, 0, 2, 0, 0, 0, 0, 0, 0, 0, 3, 255, 255, 255, 255, 255, 255, 255, 255,
    ],
    &[8, 128, 1, 126],
    &[9, 128, 1, 33, 71, 1, 35],
    &[10, 128, 3, 232],
];

#[test]
fn operations(rt: HostRuntime) -> Result<(), Fail> {
    same(&rt, are_spelled_again::<Op>(rt.alloc(), &OPERATIONS)?, true);
    same(
        &rt,
        error_of::<Op>(rt.alloc(), &[11, 0]),
        Some(stop(true, 2)),
    );
    Ok(())
}

const ROWS: [&[u8]; 2] = [
    &[
        0, 0, 0, 0, 0, 0, 0, 0, 0, 0, 1, 0, 128, 0, 0, 0, 0, 0, 0, 0, 0, 0, 0, 0,
    ],
    &[
        15, 255, 255, 255, 255, 255, 255, 255, 255, 3, 232, 6, 128, 5, 1, 255, 255, 255, 255, 255,
        255, 255, 255, 1, 1, 1, 15, 0, 0, 0, 0, 0, 0, 0, 9,
    ],
];

#[test]
fn rows(rt: HostRuntime) -> Result<(), Fail> {
    same(&rt, are_spelled_again::<Row>(rt.alloc(), &ROWS)?, true);
    Ok(())
}

const NODES: [&[u8]; 2] = [
    &[
        1, 0, 0, 0, 0, 0, 0, 0, 0, 0, 0, 0, 0, 0, 0, 0, 0, 0, 0, 0, 0, 0, 0, 0, 0, 0, 0, 0, 0, 0,
        0, 0, 0, 0,
    ],
    &[
        0, 1, 128, 1, 33, 0, 0, 0, 0, 0, 0, 0, 1, 1, 33, 66, 64, 0, 0, 0, 0, 0, 0, 0, 9, 255, 255,
        255, 255, 255, 255, 255, 255, 0, 0, 0, 0, 0, 0, 0, 1, 3, 232, 255, 255, 255, 255, 63,
    ],
];

#[test]
fn nodes(rt: HostRuntime) -> Result<(), Fail> {
    same(&rt, are_spelled_again::<Node>(rt.alloc(), &NODES)?, true);
    Ok(())
}

const REPLIES: [&[u8]; 3] = [
    &[5, 128],
    &[6, 0, 0, 0, 0, 0, 0, 0, 1, 1, 33],
    &[
        9, 0, 0, 0, 0, 0, 0, 0, 9, 255, 255, 255, 255, 255, 255, 255, 255,
    ],
];

#[test]
fn replies(rt: HostRuntime) -> Result<(), Fail> {
    same(&rt, are_spelled_again::<Reply>(rt.alloc(), &REPLIES)?, true);
    for tag in 0..26u8 {
        if tag != 5 && tag != 6 && tag != 9 {
            same(
                &rt,
                (tag, is_spelled_again::<Reply>(rt.alloc(), &[tag])?),
                (tag, true),
            );
        }
    }
    Ok(())
}

const USE: [u8; 20] = [
    2, 128, 1, 255, 0, 0, 0, 0, 0, 0, 0, 9, 255, 255, 255, 255, 255, 255, 255, 255,
];

const NUMBER: [u8; 9] = [15, 0, 0, 0, 0, 0, 0, 0, 9];

const LIST: [u8; 12] = [0, 0, 0, 0, 0, 0, 0, 1, 0, 0, 0, 5];

#[test]
fn uses_and_numbers(rt: HostRuntime) -> Result<(), Fail> {
    let alloc = rt.alloc();
    same(&rt, is_spelled_again::<Use>(alloc, &USE)?, true);
    same(&rt, is_spelled_again::<LeaseNo>(alloc, &NUMBER)?, true);
    same(&rt, is_spelled_again::<TxnNo>(alloc, &NUMBER)?, true);
    Ok(())
}

#[test]
fn pairs_lists_and_sessions(rt: HostRuntime) -> Result<(), Fail> {
    let alloc = rt.alloc();
    same(
        &rt,
        is_spelled_again::<(Kind, Option<bool>)>(alloc, &[1, 1, 0])?,
        true,
    );
    same(&rt, is_spelled_again::<List<u32>>(alloc, &LIST)?, true);
    same(&rt, is_spelled_again::<Session>(alloc, &[3, 232])?, true);
    Ok(())
}

const NEXT: [(&[u8], u64); 3] = [
    (&[0, 0, 0, 0, 0, 0, 0, 1], 1),
    (&[0, 0, 0, 0, 255, 255, 255, 255], 4294967295),
    (&[0, 0, 0, 1, 0, 0, 0, 0], 4294967296),
];

/// The bytes are the next number, which is written as these bytes again.
fn is_next(rt: &impl Abort, alloc: Global, bytes: &[u8], next: u64) -> Result<(), Fail> {
    let (found, rest) = next_of(alloc, bytes)?;
    same(rt, (found, rest.len()), (next, 0));
    let mut out = Vec::new(alloc);
    put_next(next, &mut out)?;
    same(rt, out.as_slice(), bytes);
    Ok(())
}

#[test]
fn next_numbers(rt: HostRuntime) -> Result<(), Fail> {
    for (bytes, next) in NEXT {
        is_next(&rt, rt.alloc(), bytes, next)?;
    }
    Ok(())
}

const NO_NEXT: [(&[u8], usize); 5] = [
    (&[0, 0, 1, 0, 0, 0, 0, 0], 6),
    (&[0, 0, 0, 2, 0, 0, 0, 0], 5),
    (&[0, 0, 0, 1, 0, 0, 1, 0], 2),
    (&[0, 0, 0, 0, 0, 0, 0, 0], 1),
    (&[0, 0, 0, 1, 0, 0, 0], 0),
];

#[test]
fn no_next_numbers(rt: HostRuntime) -> Result<(), Fail> {
    for (bytes, left) in NO_NEXT {
        same(
            &rt,
            next_of(rt.alloc(), bytes).err(),
            Some(stop(false, left)),
        );
    }
    Ok(())
}

/// There is no value, and so many bytes are left where it goes wrong.
fn stops<T: Wire>(rt: &impl Abort, alloc: Global, bytes: &[u8], left: usize) {
    same(rt, error_of::<T>(alloc, bytes), Some(stop(false, left)));
}

#[test]
fn what_goes_wrong(rt: HostRuntime) {
    let alloc = rt.alloc();
    stops::<Session>(&rt, alloc, &[0, 0, 9], 2);
    stops::<Session>(&rt, alloc, &[3, 233], 1);
    stops::<Name>(&rt, alloc, &[0, 33], 2);
    stops::<Name>(&rt, alloc, &[2, 46, 46, 9], 2);
    stops::<Mode>(&rt, alloc, &[6], 1);
    stops::<Modes>(&rt, alloc, &[8], 1);
    stops::<u64>(&rt, alloc, &[1, 2, 3, 4, 5, 6, 7], 0);
}

/// Whether the bytes with this one before them are spelled again.
fn is_spelled_behind<T: Wire>(alloc: Global, first: u8, bytes: &[u8]) -> Result<bool, Fail> {
    let mut all = Vec::new(alloc);
    all.push(first)?;
    all.extend_from_slice(bytes)?;
    Ok(is_spelled_again::<T>(alloc, &all)?)
}

/// The longest name.
#[test]
fn the_greatest(rt: HostRuntime) -> Result<(), Fail> {
    same(
        &rt,
        is_spelled_behind::<Name>(rt.alloc(), 255, &[65; 255])?,
        true,
    );
    Ok(())
}
