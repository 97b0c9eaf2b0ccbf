//! Lists that say to have many more items than bytes are left for.
use crate::msg::fault_of;
use crate::same;
use fs_msg::MsgError;
use std::alloc::Global;
use std::test::Fail;

/// Each list of each message with a count of 2^60, and nothing behind it.
const COUNTS: &[&[u8]] = &[
    // The items of a question.
    &[1, 16, 0, 0, 0, 0, 0, 0, 0],
    // The leases that are renewed, and that are released.
    &[2, 16, 0, 0, 0, 0, 0, 0, 0],
    &[3, 16, 0, 0, 0, 0, 0, 0, 0],
    // Entries, the uses of one, and the names of its reply.
    &[4, 16, 0, 0, 0, 0, 0, 0, 0],
    &[
        4, 0, 0, 0, 0, 0, 0, 0, 1, 0, 0, 0, 0, 0, 0, 0, 1, 2, 128, 8, 16, 0, 0, 0, 0, 0, 0, 0,
    ],
    &[
        4, 0, 0, 0, 0, 0, 0, 0, 1, 0, 0, 0, 0, 0, 0, 0, 1, 1, 128, 6, 16, 0, 0, 0, 0, 0, 0, 0,
    ],
    // Leases that are granted, names, and handles.
    &[17, 16, 0, 0, 0, 0, 0, 0, 0],
    &[
        17, 0, 0, 0, 0, 0, 0, 0, 1, 0, 0, 0, 0, 0, 0, 0, 0, 1, 2, 128, 0, 0, 0, 0, 0, 0, 0, 0, 100,
        2, 16, 0, 0, 0, 0, 0, 0, 0,
    ],
    &[
        17, 0, 0, 0, 0, 0, 0, 0, 1, 0, 0, 0, 0, 0, 0, 0, 0, 1, 4, 128, 1, 0, 0, 0, 0, 0, 0, 0, 100,
        4, 16, 0, 0, 0, 0, 0, 0, 0,
    ],
    // Leases that were renewed.
    &[18, 16, 0, 0, 0, 0, 0, 0, 0],
    // What a parcel gives, its records, the children and the handles of one, and its rows.
    &[37, 128, 128, 16, 0, 0, 0, 0, 0, 0, 0],
    &[
        37, 128, 128, 0, 0, 0, 0, 0, 0, 0, 0, 16, 0, 0, 0, 0, 0, 0, 0,
    ],
    &[
        37, 128, 128, 0, 0, 0, 0, 0, 0, 0, 0, 0, 0, 0, 0, 0, 0, 0, 1, 128, 1, 0, 16, 0, 0, 0, 0, 0,
        0, 0,
    ],
    &[
        37, 128, 128, 0, 0, 0, 0, 0, 0, 0, 0, 0, 0, 0, 0, 0, 0, 0, 1, 128, 1, 0, 0, 0, 0, 0, 0, 0,
        0, 0, 0, 0, 0, 0, 0, 0, 0, 0, 0, 0, 0, 0, 0, 0, 0, 0, 16, 0, 0, 0, 0, 0, 0, 0,
    ],
    &[
        37, 128, 128, 0, 0, 0, 0, 0, 0, 0, 0, 0, 0, 0, 0, 0, 0, 0, 0, 16, 0, 0, 0, 0, 0, 0, 0,
    ],
    // A path.
    &[39, 2, 0, 0, 0, 0, 0, 0, 0, 7, 128, 16, 0, 0, 0, 0, 0, 0, 0],
];

/// Whether each of them is too short.
fn are_short(alloc: Global, table: &[&[u8]]) -> bool {
    for bytes in table {
        if fault_of(alloc, bytes) != Some(MsgError::Short) {
            return false;
        }
    }
    true
}

#[test]
fn no_room_is_taken_for_what_is_not_there(rt: HostRuntime) -> Result<(), Fail> {
    same(&rt, are_short(rt.alloc(), COUNTS), true);
    Ok(())
}
