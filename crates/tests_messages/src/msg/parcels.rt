//! The bytes of parcels, worked out from the table of bytes, and the places of faults in a next number.
use crate::msg::fault_of;
use crate::msg::messages::is_spelled_again;
use crate::same;
use fs_msg::MsgError;
use std::alloc::Global;
use std::process::Abort;
use std::test::Fail;

/// The fault where a byte of a message is another, if there is one.
fn changed_fault_of(
    alloc: Global,
    bytes: &[u8],
    place: usize,
    byte: u8,
) -> Result<Option<MsgError>, Fail> {
    let mut changed = Vec::from_slice(alloc, bytes)?;
    if let Some(there) = changed.get_mut(place) {
        *there = byte;
    }
    Ok(fault_of(alloc, &changed))
}

const NOTHING: [u8; 27] = [
    37, 128, 128, 0, 0, 0, 0, 0, 0, 0, 0, 0, 0, 0, 0, 0, 0, 0, 0, 0, 0, 0, 0, 0, 0, 0, 0,
];

#[test]
fn nothing_is_handed_over(rt: HostRuntime) -> Result<(), Fail> {
    same(&rt, is_spelled_again(rt.alloc(), &NOTHING)?, true);
    Ok(())
}

const WHOLE: [u8; 120] = [
    // The tag, the prefix, and all from it on.
    37, 71, 71, 0, 0, 0, 0, 0, 0, 0, 1, 71, 1,
    // One record: a file with a parent, a child, a size, a stamp and a handle.
    0, 0, 0, 0, 0, 0, 0, 1, 71, 0, 1, 128, 1, 33, 0, 0, 0, 0, 0, 0, 0, 1, 1, 33, 66, 64, 0, 0, 0,
    0, 0, 0, 0, 9, 255, 255, 255, 255, 255, 255, 255, 255, 0, 0, 0, 0, 0, 0, 0, 1, 0, 1, 255, 255,
    255, 255, 63,
    // Its next number, from place 70 on.
    0, 0, 0, 1, 0, 0, 0, 0,
    // One row.
    0, 0, 0, 0, 0, 0, 0, 1, 15, 0, 0, 0, 0, 0, 0, 0, 2, 0, 1, 0, 71, 1, 255, 255, 255, 255, 255,
    255, 255, 255, 1, 1, 1, 15, 0, 0, 0, 0, 0, 0, 0, 3,
];

#[test]
fn a_file_and_a_row_are_handed_over(rt: HostRuntime) -> Result<(), Fail> {
    same(&rt, is_spelled_again(rt.alloc(), &WHOLE)?, true);
    for place in 0..WHOLE.len() {
        same(
            &rt,
            fault_of(rt.alloc(), &WHOLE[..place]),
            Some(MsgError::Short),
        );
    }
    Ok(())
}

/// A next number goes wrong at the first byte after which it cannot be from 1 to 4294967296: the place of a byte, what
/// stands there, and where it goes wrong.
const FAULTS: [(usize, u8, usize); 10] = [
    (70, 1, 70),
    (71, 1, 71),
    (72, 255, 72),
    (73, 0, 77),
    (73, 2, 73),
    (73, 255, 73),
    (74, 1, 74),
    (75, 1, 75),
    (76, 1, 76),
    (77, 1, 77),
];

/// So it is with each of a table.
fn are_out_of_range(
    rt: &impl Abort,
    alloc: Global,
    bytes: &[u8],
    table: &[(usize, u8, usize)],
) -> Result<(), Fail> {
    for (place, byte, at) in table {
        let fault = changed_fault_of(alloc, bytes, *place, *byte)?;
        same(rt, fault, Some(MsgError::Range { at: *at }));
    }
    Ok(())
}

#[test]
fn a_next_number_is_in_its_range(rt: HostRuntime) -> Result<(), Fail> {
    are_out_of_range(&rt, rt.alloc(), &WHOLE, &FAULTS)
}
