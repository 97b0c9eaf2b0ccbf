//! The bytes of the answers of servers, by the table of bytes.

/// What a create of `a` in the root wants: the life of the root, shared, the name, and the life of the file 1, which is new; of
/// server 0, under the numbers 1, 2 and 3, until 100.
pub(crate) const GRANTED: &[u8] = &[
    17, 0, 0, 0, 0, 0, 0, 0, 3, 0, 0, 0, 0, 0, 0, 0, 0, 1, 0, 128, 0, 0, 0, 0, 0, 0, 0, 0, 100, 0,
    1, 1, 0, 0, 0, 0, 0, 0, 0, 0, 2, 1, 128, 1, 97, 1, 0, 0, 0, 0, 0, 0, 0, 100, 1, 0, 0, 0, 0, 0,
    0, 0, 0, 0, 3, 0, 80, 1, 0, 0, 0, 0, 0, 0, 0, 100, 0, 0, 1, 80, 0,
];

/// The first two of them, since the root has no number left.
pub(crate) const FULL: &[u8] = &[
    17, 0, 0, 0, 0, 0, 0, 0, 2, 0, 0, 0, 0, 0, 0, 0, 0, 1, 0, 128, 0, 0, 0, 0, 0, 0, 0, 0, 100, 0,
    1, 1, 0, 0, 0, 0, 0, 0, 0, 0, 2, 1, 128, 1, 97, 1, 0, 0, 0, 0, 0, 0, 0, 100, 1, 0, 0, 4, 128,
];

/// The first of them.
pub(crate) const ROOT: &[u8] = &[
    17, 0, 0, 0, 0, 0, 0, 0, 1, 0, 0, 0, 0, 0, 0, 0, 0, 1, 0, 128, 0, 0, 0, 0, 0, 0, 0, 0, 100, 0,
    1, 1, 0, 0,
];

/// The second without the first.
pub(crate) const NAME_ALONE: &[u8] = &[
    17, 0, 0, 0, 0, 0, 0, 0, 1, 0, 0, 0, 0, 0, 0, 0, 0, 2, 1, 128, 1, 97, 1, 0, 0, 0, 0, 0, 0, 0,
    100, 1, 0, 0, 0,
];

/// The first two, the name shared.
pub(crate) const NAME_SHARED: &[u8] = &[
    17, 0, 0, 0, 0, 0, 0, 0, 2, 0, 0, 0, 0, 0, 0, 0, 0, 1, 0, 128, 0, 0, 0, 0, 0, 0, 0, 0, 100, 0,
    1, 1, 0, 0, 0, 0, 0, 0, 0, 0, 2, 1, 128, 1, 97, 0, 0, 0, 0, 0, 0, 0, 0, 100, 1, 0, 0, 4, 128,
];

/// The first two, the name with a value of a life.
pub(crate) const NAME_ALIVE: &[u8] = &[
    17, 0, 0, 0, 0, 0, 0, 0, 2, 0, 0, 0, 0, 0, 0, 0, 0, 1, 0, 128, 0, 0, 0, 0, 0, 0, 0, 0, 100, 0,
    1, 1, 0, 0, 0, 0, 0, 0, 0, 0, 2, 1, 128, 1, 97, 1, 0, 0, 0, 0, 0, 0, 0, 100, 0, 0, 0, 4, 128,
];

/// The first two under one number.
pub(crate) const ONE_NUMBER: &[u8] = &[
    17, 0, 0, 0, 0, 0, 0, 0, 2, 0, 0, 0, 0, 0, 0, 0, 0, 1, 0, 128, 0, 0, 0, 0, 0, 0, 0, 0, 100, 0,
    1, 1, 0, 0, 0, 0, 0, 0, 0, 0, 1, 1, 128, 1, 97, 1, 0, 0, 0, 0, 0, 0, 0, 100, 1, 0, 0, 4, 128,
];

/// All three, with an identifier below the file 1.
pub(crate) const FRESH_BELOW: &[u8] = &[
    17, 0, 0, 0, 0, 0, 0, 0, 3, 0, 0, 0, 0, 0, 0, 0, 0, 1, 0, 128, 0, 0, 0, 0, 0, 0, 0, 0, 100, 0,
    1, 1, 0, 0, 0, 0, 0, 0, 0, 0, 2, 1, 128, 1, 97, 1, 0, 0, 0, 0, 0, 0, 0, 100, 1, 0, 0, 0, 0, 0,
    0, 0, 0, 0, 3, 0, 80, 1, 0, 0, 0, 0, 0, 0, 0, 100, 0, 0, 1, 120, 0,
];

/// The first two, with the identifier of the file 1.
pub(crate) const FRESH_ALONE: &[u8] = &[
    17, 0, 0, 0, 0, 0, 0, 0, 2, 0, 0, 0, 0, 0, 0, 0, 0, 1, 0, 128, 0, 0, 0, 0, 0, 0, 0, 0, 100, 0,
    1, 1, 0, 0, 0, 0, 0, 0, 0, 0, 2, 1, 128, 1, 97, 1, 0, 0, 0, 0, 0, 0, 0, 100, 1, 0, 1, 80, 0,
];

/// The first and the third, with the identifier of the file 1.
pub(crate) const FRESH_EARLY: &[u8] = &[
    17, 0, 0, 0, 0, 0, 0, 0, 2, 0, 0, 0, 0, 0, 0, 0, 0, 1, 0, 128, 0, 0, 0, 0, 0, 0, 0, 0, 100, 0,
    1, 1, 0, 0, 0, 0, 0, 0, 0, 0, 3, 0, 80, 1, 0, 0, 0, 0, 0, 0, 0, 100, 0, 0, 1, 80, 0,
];

/// The second and the third, with it.
pub(crate) const FRESH_BEHIND: &[u8] = &[
    17, 0, 0, 0, 0, 0, 0, 0, 2, 0, 0, 0, 0, 0, 0, 0, 0, 2, 1, 128, 1, 97, 1, 0, 0, 0, 0, 0, 0, 0,
    100, 1, 0, 0, 0, 0, 0, 0, 0, 0, 0, 3, 0, 80, 1, 0, 0, 0, 0, 0, 0, 0, 100, 0, 0, 1, 80, 0,
];

/// The third and the first, with it.
pub(crate) const FRESH_BEFORE: &[u8] = &[
    17, 0, 0, 0, 0, 0, 0, 0, 2, 0, 0, 0, 0, 0, 0, 0, 0, 3, 0, 80, 1, 0, 0, 0, 0, 0, 0, 0, 100, 0,
    0, 0, 0, 0, 0, 0, 0, 0, 0, 1, 0, 128, 0, 0, 0, 0, 0, 0, 0, 0, 100, 0, 1, 1, 1, 80, 0,
];

/// The name, shared, under the number 1.
pub(crate) const NAME_FIRST: &[u8] = &[
    17, 0, 0, 0, 0, 0, 0, 0, 1, 0, 0, 0, 0, 0, 0, 0, 0, 1, 1, 128, 1, 97, 0, 0, 0, 0, 0, 0, 0, 0,
    100, 1, 0, 0, 0,
];

/// The life of the file 1, which is a directory, shared, as the first lease of server 1.
pub(crate) const FILE_BY_1: &[u8] = &[
    17, 0, 0, 0, 0, 0, 0, 0, 1, 1, 0, 0, 0, 0, 0, 0, 0, 1, 0, 80, 0, 0, 0, 0, 0, 0, 0, 0, 100, 0,
    1, 1, 0, 0,
];

/// Nothing, since what begins with `/1` is with server 1.
pub(crate) const MOVED: &[u8] = &[17, 0, 0, 0, 0, 0, 0, 0, 0, 0, 3, 80, 1];

/// So many entries are admitted.
pub(crate) const SHIPPED_0: &[u8] = &[20, 0, 0, 0, 0, 0, 0, 0, 0, 0];

pub(crate) const SHIPPED_1: &[u8] = &[20, 0, 0, 0, 0, 0, 0, 0, 1, 0];

pub(crate) const SHIPPED_2: &[u8] = &[20, 0, 0, 0, 0, 0, 0, 0, 2, 0];

/// No entry is admitted, since the lease of entry 1 has ended.
pub(crate) const REFUSED_1: &[u8] = &[
    20, 0, 0, 0, 0, 0, 0, 0, 0, 5, 0, 0, 0, 0, 0, 0, 0, 1, 0, 0, 0, 0, 0, 0, 0, 0, 1, 0, 0, 0, 0,
    0, 0, 0, 100, 0, 0, 0, 0, 0, 0, 0, 110,
];

/// No entry is admitted, since the lease of entry 2 has ended.
pub(crate) const REFUSED_2: &[u8] = &[
    20, 0, 0, 0, 0, 0, 0, 0, 0, 5, 0, 0, 0, 0, 0, 0, 0, 2, 0, 0, 0, 0, 0, 0, 0, 0, 1, 0, 0, 0, 0,
    0, 0, 0, 100, 0, 0, 0, 0, 0, 0, 0, 110,
];

/// One entry is admitted, and entry 2 is not, since a lease of it has ended.
pub(crate) const REFUSED_BEHIND: &[u8] = &[
    20, 0, 0, 0, 0, 0, 0, 0, 1, 5, 0, 0, 0, 0, 0, 0, 0, 2, 0, 0, 0, 0, 0, 0, 0, 0, 1, 0, 0, 0, 0,
    0, 0, 0, 100, 0, 0, 0, 0, 0, 0, 0, 110,
];

/// So many pairs are given back.
pub(crate) const RELEASED_1: &[u8] = &[19, 0, 0, 0, 0, 0, 0, 0, 1, 0];

pub(crate) const RELEASED_2: &[u8] = &[19, 0, 0, 0, 0, 0, 0, 0, 2, 0];

/// The first lease of server 0 ends at 150.
pub(crate) const RENEWED: &[u8] = &[
    18, 0, 0, 0, 0, 0, 0, 0, 1, 0, 0, 0, 0, 0, 0, 0, 0, 1, 1, 0, 0, 0, 0, 0, 0, 0, 150, 0,
];

/// The second does.
pub(crate) const RENEWED_SECOND: &[u8] = &[
    18, 0, 0, 0, 0, 0, 0, 0, 1, 0, 0, 0, 0, 0, 0, 0, 0, 2, 1, 0, 0, 0, 0, 0, 0, 0, 150, 0,
];

/// The first of server 1 does.
pub(crate) const RENEWED_BY_1: &[u8] = &[
    18, 0, 0, 0, 0, 0, 0, 0, 1, 1, 0, 0, 0, 0, 0, 0, 0, 1, 1, 0, 0, 0, 0, 0, 0, 0, 150, 0,
];

/// The first of server 0 is gone.
pub(crate) const GONE: &[u8] = &[18, 0, 0, 0, 0, 0, 0, 0, 1, 0, 0, 0, 0, 0, 0, 0, 0, 1, 0, 0];

/// Server 0 wants its first lease back.
pub(crate) const RECALL: &[u8] = &[22, 0, 0, 0, 0, 0, 0, 0, 0, 1];

/// Its second.
pub(crate) const RECALL_SECOND: &[u8] = &[22, 0, 0, 0, 0, 0, 0, 0, 0, 2];

/// Server 1 wants its first back.
pub(crate) const RECALL_BY_1: &[u8] = &[22, 1, 0, 0, 0, 0, 0, 0, 0, 1];

/// What an open of the file 1 keeps from the others: its life, its handles, and that no other writes, deletes, or denies
/// reading, under the numbers 1 to 5.
pub(crate) const OTHERS: &[u8] = &[
    17, 0, 0, 0, 0, 0, 0, 0, 5, 0, 0, 0, 0, 0, 0, 0, 0, 1, 0, 80, 0, 0, 0, 0, 0, 0, 0, 0, 100, 0,
    1, 0, 0, 0, 0, 0, 0, 0, 0, 0, 2, 4, 80, 1, 0, 0, 0, 0, 0, 0, 0, 100, 4, 0, 0, 0, 0, 0, 0, 0, 0,
    0, 0, 0, 0, 0, 0, 0, 0, 3, 6, 80, 1, 0, 0, 0, 0, 0, 0, 0, 0, 100, 6, 0, 0, 0, 0, 0, 0, 0, 0, 0,
    4, 6, 80, 2, 0, 0, 0, 0, 0, 0, 0, 0, 100, 6, 0, 0, 0, 0, 0, 0, 0, 0, 0, 5, 6, 80, 3, 0, 0, 0,
    0, 0, 0, 0, 0, 100, 6, 0, 0, 0,
];

/// What it turns on: reading, and denying of writes and deletes, under the numbers 6 to 8.
pub(crate) const SELVES: &[u8] = &[
    17, 0, 0, 0, 0, 0, 0, 0, 3, 0, 0, 0, 0, 0, 0, 0, 0, 6, 5, 80, 0, 1, 0, 0, 0, 0, 0, 0, 0, 100,
    5, 0, 0, 0, 0, 0, 0, 0, 0, 7, 5, 80, 4, 1, 0, 0, 0, 0, 0, 0, 0, 100, 5, 0, 0, 0, 0, 0, 0, 0, 0,
    8, 5, 80, 5, 1, 0, 0, 0, 0, 0, 0, 0, 100, 5, 0, 0,
];

/// An operation that was to be led may be asked for again, since something is no longer what it was.
pub(crate) const LED_AGAIN: &[u8] = &[21, 2, 4];

/// It is done: the file is deleted.
pub(crate) const LED_DELETED: &[u8] = &[21, 0, 22];

/// It is done: a file is renamed.
pub(crate) const LED_RENAMED: &[u8] = &[21, 0, 24];

/// It is refused: its first lease had ended at 100, and the server read 110.
pub(crate) const LED_ENDED: &[u8] = &[
    21, 1, 0, 0, 0, 0, 0, 0, 0, 0, 1, 0, 0, 0, 0, 0, 0, 0, 100, 0, 0, 0, 0, 0, 0, 0, 110,
];

/// What a delete of `a` in the root wants first: the life of the root and the name, which the file 1 has, under the numbers 1
/// and 2.
pub(crate) const NAMED: &[u8] = &[
    17, 0, 0, 0, 0, 0, 0, 0, 2, 0, 0, 0, 0, 0, 0, 0, 0, 1, 0, 128, 0, 0, 0, 0, 0, 0, 0, 0, 100, 0,
    1, 1, 0, 0, 0, 0, 0, 0, 0, 0, 2, 1, 128, 1, 97, 1, 0, 0, 0, 0, 0, 0, 0, 100, 1, 1, 80, 0, 0,
];

/// What it wants of that file: its life, its names, its handles, and that no other opened it, under the numbers 3 to 8.
pub(crate) const UNUSED: &[u8] = &[
    17, 0, 0, 0, 0, 0, 0, 0, 6, 0, 0, 0, 0, 0, 0, 0, 0, 3, 0, 80, 1, 0, 0, 0, 0, 0, 0, 0, 100, 0,
    1, 0, 0, 0, 0, 0, 0, 0, 0, 0, 4, 2, 80, 0, 0, 0, 0, 0, 0, 0, 0, 100, 2, 0, 0, 0, 0, 0, 0, 0, 0,
    0, 0, 0, 0, 0, 0, 0, 0, 5, 4, 80, 1, 0, 0, 0, 0, 0, 0, 0, 100, 4, 0, 0, 0, 0, 0, 0, 0, 0, 0, 0,
    0, 0, 0, 0, 0, 0, 6, 6, 80, 0, 0, 0, 0, 0, 0, 0, 0, 0, 100, 6, 0, 0, 0, 0, 0, 0, 0, 0, 0, 7, 6,
    80, 1, 0, 0, 0, 0, 0, 0, 0, 0, 100, 6, 0, 0, 0, 0, 0, 0, 0, 0, 0, 8, 6, 80, 2, 0, 0, 0, 0, 0,
    0, 0, 0, 100, 6, 0, 0, 0,
];
