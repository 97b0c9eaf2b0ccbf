//! The bytes of messages that come to servers, by the table of bytes.

/// For what a create of `a` in the root wants: the life of the root, the name, and an identifier below the root.
pub(crate) const ASK_TO_CREATE: &[u8] = &[
    1, 0, 0, 0, 0, 0, 0, 0, 2, 0, 128, 0, 1, 128, 1, 97, 1, 1, 128,
];

/// For the life of the file 1.
pub(crate) const ASK_FIRST: &[u8] = &[1, 0, 0, 0, 0, 0, 0, 0, 1, 0, 80, 0, 0];

/// For the life of the root, and that of the file 1.
pub(crate) const ASK_ROOT_AND_FIRST: &[u8] = &[1, 0, 0, 0, 0, 0, 0, 0, 2, 0, 128, 0, 0, 80, 0, 0];

/// For the life of the root, and an identifier below it.
pub(crate) const ASK_ROOT_AND_FRESH: &[u8] = &[1, 0, 0, 0, 0, 0, 0, 0, 1, 0, 128, 0, 1, 128];

/// For an identifier below the root alone.
pub(crate) const ASK_FRESH: &[u8] = &[1, 0, 0, 0, 0, 0, 0, 0, 0, 1, 128];

/// For its handles on the file 1, what it tells of writing, and whether another denies that.
pub(crate) const ASK_TO_OPEN: &[u8] = &[
    1, 0, 0, 0, 0, 0, 0, 0, 3, 4, 80, 0, 5, 80, 1, 0, 6, 80, 4, 1, 0,
];

/// For what it tells of writing to the file 1.
pub(crate) const ASK_SELF_WRITES: &[u8] = &[1, 0, 0, 0, 0, 0, 0, 0, 1, 5, 80, 1, 0, 0];

/// For what it tells of denying writes.
pub(crate) const ASK_SELF_DENIES: &[u8] = &[1, 0, 0, 0, 0, 0, 0, 0, 1, 5, 80, 4, 0, 0];

/// For what others tell of writing.
pub(crate) const ASK_OTHER_WRITES: &[u8] = &[1, 0, 0, 0, 0, 0, 0, 0, 1, 6, 80, 1, 1, 0];

/// A log of the create of a file, as the file 1, and of a look at the root behind it, each by the first lease.
pub(crate) const LOG: &[u8] = &[
    4, 0, 0, 0, 0, 0, 0, 0, 2, 0, 0, 0, 0, 0, 0, 0, 1, 4, 128, 1, 97, 0, 1, 80, 12, 0, 0, 0, 0, 0,
    0, 0, 1, 0, 128, 0, 0, 0, 0, 0, 0, 0, 0, 0, 1, 0, 0, 0, 0, 0, 0, 0, 100, 0, 0, 0, 0, 0, 0, 0,
    2, 2, 128, 8, 0, 0, 0, 0, 0, 0, 0, 1, 0, 128, 0, 0, 0, 0, 0, 0, 0, 0, 0, 1, 0, 0, 0, 0, 0, 0,
    0, 100,
];

/// A log in which it opens the file 1 for writing, by no lease.
pub(crate) const LOG_OF_OPEN: &[u8] = &[
    4, 0, 0, 0, 0, 0, 0, 0, 1, 0, 0, 0, 0, 0, 0, 0, 3, 5, 80, 0, 0, 0, 1, 2, 15, 0, 0, 0, 0, 0, 0,
    0, 0,
];

/// A log in which it deletes `a`, by the first lease.
pub(crate) const LOG_OF_DELETE: &[u8] = &[
    4, 0, 0, 0, 0, 0, 0, 0, 1, 0, 0, 0, 0, 0, 0, 0, 1, 8, 128, 1, 97, 22, 0, 0, 0, 0, 0, 0, 0, 1,
    0, 128, 0, 0, 0, 0, 0, 0, 0, 0, 0, 1, 0, 0, 0, 0, 0, 0, 0, 100,
];

/// It renews the first lease, and one that was never given.
pub(crate) const RENEW: &[u8] = &[
    2, 0, 0, 0, 0, 0, 0, 0, 2, 128, 0, 0, 0, 0, 0, 0, 0, 0, 1, 128, 0, 0, 0, 0, 0, 0, 0, 0, 9,
];

/// It gives them back.
pub(crate) const RELEASE: &[u8] = &[
    3, 0, 0, 0, 0, 0, 0, 0, 2, 128, 0, 0, 0, 0, 0, 0, 0, 0, 1, 128, 0, 0, 0, 0, 0, 0, 0, 0, 9,
];

/// It gives the fourth lease back, on the file 1.
pub(crate) const RELEASE_FOURTH: &[u8] = &[
    3, 0, 0, 0, 0, 0, 0, 0, 1, 80, 0, 0, 0, 0, 0, 0, 0, 0, 4,
];

/// The parcel of the file 1, which the first session has open for writing and whose life it has leased.
pub(crate) const PARCEL: &[u8] = &[
    37, 80, 80, 0, 0, 0, 0, 0, 0, 0, 1, 80, 1, 0, 0, 0, 0, 0, 0, 0, 1, 80, 0, 1, 128, 1, 97, 0, 0,
    0, 0, 0, 0, 0, 0, 0, 0, 0, 0, 0, 0, 0, 0, 0, 0, 0, 0, 0, 0, 0, 0, 0, 0, 0, 0, 0, 0, 0, 1, 0, 1,
    0, 0, 0, 1, 2, 0, 0, 0, 0, 0, 0, 0, 1, 0, 0, 0, 0, 0, 0, 0, 1, 0, 0, 0, 0, 0, 0, 0, 0, 3, 0, 1,
    0, 80, 1, 0, 0, 0, 0, 0, 0, 0, 100, 0, 0,
];

/// The parcel of the file 1 with a row whose number is one of the server's that it comes to, which never gave it.
pub(crate) const ODD_PARCEL: &[u8] = &[
    37, 80, 80, 0, 0, 0, 0, 0, 0, 0, 1, 80, 1, 0, 0, 0, 0, 0, 0, 0, 1, 80, 0, 1, 128, 1, 97, 0, 0,
    0, 0, 0, 0, 0, 0, 0, 0, 0, 0, 0, 0, 0, 0, 0, 0, 0, 0, 0, 0, 0, 0, 0, 0, 0, 0, 0, 0, 0, 1, 0, 1,
    0, 0, 0, 1, 2, 0, 0, 0, 0, 0, 0, 0, 1, 0, 0, 0, 0, 0, 0, 0, 1, 1, 0, 0, 0, 0, 0, 0, 0, 1, 0, 1,
    0, 80, 1, 0, 0, 0, 0, 0, 0, 0, 100, 0, 0,
];

/// The parcel of the directory 1, whose numbers are all given.
pub(crate) const FULL_PARCEL: &[u8] = &[
    37, 80, 80, 0, 0, 0, 0, 0, 0, 0, 1, 80, 1, 0, 0, 0, 0, 0, 0, 0, 1, 80, 1, 1, 128, 1, 97, 0, 0,
    0, 0, 0, 0, 0, 0, 0, 0, 0, 0, 0, 0, 0, 0, 0, 0, 0, 0, 0, 0, 0, 0, 0, 0, 0, 0, 0, 0, 0, 0, 0, 0,
    0, 1, 0, 0, 0, 0, 0, 0, 0, 0, 0, 0, 0, 0,
];

/// For an identifier below the directory 1.
pub(crate) const ASK_FRESH_BELOW: &[u8] = &[1, 0, 0, 0, 0, 0, 0, 0, 0, 1, 80];

/// The fifth part of the seventh transaction that the server 2 leads is done.
pub(crate) const DONE: &[u8] = &[36, 2, 0, 0, 0, 0, 0, 0, 0, 7, 4];

/// To lead the delete of `a`, the file 1, by its first three leases.
pub(crate) const LEAD_DELETE: &[u8] = &[
    5, 0, 0, 0, 0, 0, 0, 0, 3, 8, 128, 1, 97, 80, 0, 0, 0, 0, 0, 0, 0, 0, 3, 0, 128, 0, 0, 0, 0, 0,
    0, 0, 0, 0, 1, 0, 0, 0, 0, 0, 0, 0, 100, 1, 128, 1, 97, 1, 0, 0, 0, 0, 0, 0, 0, 0, 2, 0, 0, 0,
    0, 0, 0, 0, 100, 0, 80, 1, 0, 0, 0, 0, 0, 0, 0, 0, 3, 0, 0, 0, 0, 0, 0, 0, 100,
];

/// To lead the delete of `a`, the directory 1, by its first three leases.
pub(crate) const LEAD_DELETE_OF_DIR: &[u8] = &[
    5, 0, 0, 0, 0, 0, 0, 0, 3, 8, 128, 1, 97, 80, 1, 0, 0, 0, 0, 0, 0, 0, 3, 0, 128, 0, 0, 0, 0, 0,
    0, 0, 0, 0, 1, 0, 0, 0, 0, 0, 0, 0, 100, 1, 128, 1, 97, 1, 0, 0, 0, 0, 0, 0, 0, 0, 2, 0, 0, 0,
    0, 0, 0, 0, 100, 0, 80, 1, 0, 0, 0, 0, 0, 0, 0, 0, 3, 0, 0, 0, 0, 0, 0, 0, 100,
];

/// To lead the rename of `a`, the file 1, to `b` in the same directory, by these leases.
pub(crate) const LEAD_RENAME: &[u8] = &[
    5, 0, 0, 0, 0, 0, 0, 0, 3, 9, 128, 1, 97, 128, 1, 98, 80, 0, 0, 0, 0, 0, 0, 0, 0, 3, 0, 128, 0,
    0, 0, 0, 0, 0, 0, 0, 0, 1, 0, 0, 0, 0, 0, 0, 0, 100, 1, 128, 1, 97, 1, 0, 0, 0, 0, 0, 0, 0, 0,
    2, 0, 0, 0, 0, 0, 0, 0, 100, 0, 80, 1, 0, 0, 0, 0, 0, 0, 0, 0, 3, 0, 0, 0, 0, 0, 0, 0, 100,
];

/// To lead a look-up, which no server leads.
pub(crate) const LEAD_LOOKUP: &[u8] = &[
    5, 0, 0, 0, 0, 0, 0, 0, 3, 0, 128, 1, 97, 80, 0, 0, 0, 0, 0, 0, 0, 0, 0,
];

/// For what `b` stands for in the root.
pub(crate) const ASK_B: &[u8] = &[1, 0, 0, 0, 0, 0, 0, 0, 1, 1, 128, 1, 98, 0, 0];

/// Whether the second part of the seventh transaction that the server 0 leads is ready: the file 1, by the lease of the parcel.
pub(crate) const PREPARE: &[u8] = &[
    33, 0, 0, 0, 0, 0, 0, 0, 0, 7, 1, 0, 1, 80, 0, 0, 0, 0, 0, 0, 0, 1, 0, 80, 1, 0, 0, 0, 0, 0, 0,
    0, 0, 3, 0, 0, 0, 0, 0, 0, 0, 100, 0,
];

/// Whether its third part is: the same file, by no lease.
pub(crate) const PREPARE_MORE: &[u8] = &[
    33, 0, 0, 0, 0, 0, 0, 0, 0, 7, 2, 0, 1, 80, 0, 0, 0, 0, 0, 0, 0, 0, 0,
];

/// What the second part does: the file 1 stands under `b` in the root.
pub(crate) const DECIDE: &[u8] = &[
    35, 0, 0, 0, 0, 0, 0, 0, 0, 7, 1, 0, 0, 0, 0, 0, 0, 0, 1, 1, 80, 128, 1, 98,
];

/// What the third part does: nothing.
pub(crate) const DECIDE_MORE: &[u8] = &[35, 0, 0, 0, 0, 0, 0, 0, 0, 7, 2, 0, 0, 0, 0, 0, 0, 0, 0];

/// A log of the create of a directory, as the file 1, by the first lease.
pub(crate) const LOG_OF_DIR: &[u8] = &[
    4, 0, 0, 0, 0, 0, 0, 0, 1, 0, 0, 0, 0, 0, 0, 0, 1, 4, 128, 1, 97, 1, 1, 80, 12, 0, 0, 0, 0, 0,
    0, 0, 1, 0, 128, 0, 0, 0, 0, 0, 0, 0, 0, 0, 1, 0, 0, 0, 0, 0, 0, 0, 100,
];

/// For the name `f` in the directory 1, and an identifier below it.
pub(crate) const ASK_BELOW: &[u8] = &[1, 0, 0, 0, 0, 0, 0, 0, 1, 1, 80, 1, 102, 1, 1, 80];

/// A log of the create of `f` there, as the file 1/1, by the fourth lease.
pub(crate) const LOG_BELOW: &[u8] = &[
    4, 0, 0, 0, 0, 0, 0, 0, 1, 0, 0, 0, 0, 0, 0, 0, 2, 4, 80, 1, 102, 0, 1, 120, 12, 0, 0, 0, 0, 0,
    0, 0, 1, 1, 80, 1, 102, 1, 0, 0, 0, 0, 0, 0, 0, 0, 4, 0, 0, 0, 0, 0, 0, 0, 102,
];

/// The parcel of the directory 1, but for the file 1/1, with the leases of the first session.
pub(crate) const DIR_PARCEL: &[u8] = &[
    37, 80, 80, 0, 0, 0, 0, 0, 0, 0, 2, 80, 1, 120, 0, 0, 0, 0, 0, 0, 0, 0, 1, 80, 1, 1, 128, 1,
    97, 0, 0, 0, 0, 0, 0, 0, 1, 1, 102, 120, 0, 0, 0, 0, 0, 0, 0, 0, 0, 0, 0, 0, 0, 0, 0, 0, 0, 0,
    0, 0, 0, 0, 0, 0, 0, 0, 0, 0, 0, 0, 0, 2, 0, 0, 0, 0, 0, 0, 0, 2, 0, 0, 0, 0, 0, 0, 0, 0, 3, 0,
    1, 0, 80, 1, 0, 0, 0, 0, 0, 0, 0, 100, 0, 0, 0, 0, 0, 0, 0, 0, 0, 0, 4, 0, 1, 1, 80, 1, 102, 1,
    0, 0, 0, 0, 0, 0, 0, 102, 0, 0,
];

/// The parcel of the file 1/1, whose life the first session has leased.
pub(crate) const FILE_PARCEL: &[u8] = &[
    37, 120, 120, 0, 0, 0, 0, 0, 0, 0, 1, 120, 1, 0, 0, 0, 0, 0, 0, 0, 1, 120, 0, 1, 80, 1, 102, 0,
    0, 0, 0, 0, 0, 0, 0, 0, 0, 0, 0, 0, 0, 0, 0, 0, 0, 0, 0, 0, 0, 0, 0, 0, 0, 0, 0, 0, 0, 0, 0, 0,
    0, 0, 0, 0, 0, 0, 1, 0, 0, 0, 0, 0, 0, 0, 1, 0, 0, 0, 0, 0, 0, 0, 0, 5, 0, 1, 0, 120, 1, 0, 0,
    0, 0, 0, 0, 0, 102, 0, 0,
];

/// To lead the rename of `f`, the file 1/1, from the directory 1 to `g` in the root, with a lease on each of the three.
pub(crate) const LEAD_OVER_THREE: &[u8] = &[
    5, 0, 0, 0, 0, 0, 0, 0, 3, 9, 80, 1, 102, 128, 1, 103, 120, 0, 0, 0, 0, 0, 0, 0, 0, 3, 0, 128,
    0, 0, 0, 0, 0, 0, 0, 0, 0, 1, 0, 0, 0, 0, 0, 0, 0, 100, 1, 80, 1, 102, 1, 0, 0, 0, 0, 0, 0, 0,
    0, 4, 0, 0, 0, 0, 0, 0, 0, 102, 0, 120, 1, 0, 0, 0, 0, 0, 0, 0, 0, 5, 0, 0, 0, 0, 0, 0, 0, 102,
];

/// Whether the second part of the first transaction that the server 0 leads is ready: the directory 1, by its lease.
pub(crate) const PREPARE_DIR: &[u8] = &[
    33, 0, 0, 0, 0, 0, 0, 0, 0, 1, 1, 0, 1, 80, 0, 0, 0, 0, 0, 0, 0, 1, 1, 80, 1, 102, 1, 0, 0, 0,
    0, 0, 0, 0, 0, 4, 0, 0, 0, 0, 0, 0, 0, 102, 0,
];

/// Whether its third part is: the file 1/1, by its lease.
pub(crate) const PREPARE_FILE: &[u8] = &[
    33, 0, 0, 0, 0, 0, 0, 0, 0, 1, 2, 0, 1, 120, 0, 0, 0, 0, 0, 0, 0, 1, 0, 120, 1, 0, 0, 0, 0, 0,
    0, 0, 0, 5, 0, 0, 0, 0, 0, 0, 0, 102, 0,
];

/// The second part is ready.
pub(crate) const YES_OF_DIR: &[u8] = &[34, 0, 0, 0, 0, 0, 0, 0, 0, 1, 1, 0];

/// The third part is.
pub(crate) const YES_OF_FILE: &[u8] = &[34, 0, 0, 0, 0, 0, 0, 0, 0, 1, 2, 0];

/// The lease of the third part is over.
pub(crate) const ENDED_OF_FILE: &[u8] = &[
    34, 0, 0, 0, 0, 0, 0, 0, 0, 1, 2, 1, 0, 0, 0, 0, 0, 0, 0, 0, 5, 0, 0, 0, 0, 0, 0, 0, 102, 0, 0,
    0, 0, 0, 0, 0, 200,
];

/// The file of the third part is with the server 2.
pub(crate) const FILE_AT_2: &[u8] = &[34, 0, 0, 0, 0, 0, 0, 0, 0, 1, 2, 2, 120, 2];

/// What begins with the root, and so the file of the third part, is with the server 0.
pub(crate) const ROOT_AT_0: &[u8] = &[34, 0, 0, 0, 0, 0, 0, 0, 0, 1, 2, 2, 128, 0];

/// What the second part does: the name `f` goes from the directory 1.
pub(crate) const DECIDE_DIR: &[u8] = &[
    35, 0, 0, 0, 0, 0, 0, 0, 0, 1, 1, 0, 0, 0, 0, 0, 0, 0, 1, 0, 80, 1, 102, 0,
];

/// What the third part does: the file 1/1 stands under `g` in the root.
pub(crate) const DECIDE_FILE: &[u8] = &[
    35, 0, 0, 0, 0, 0, 0, 0, 0, 1, 2, 0, 0, 0, 0, 0, 0, 0, 1, 1, 120, 128, 1, 103,
];

/// The second part does nothing.
pub(crate) const DECIDE_NONE: &[u8] = &[35, 0, 0, 0, 0, 0, 0, 0, 0, 1, 1, 0, 0, 0, 0, 0, 0, 0, 0];

/// What the second part had to do is done.
pub(crate) const DONE_OF_DIR: &[u8] = &[36, 0, 0, 0, 0, 0, 0, 0, 0, 1, 1];

/// What the third part had to do is done.
pub(crate) const DONE_OF_FILE: &[u8] = &[36, 0, 0, 0, 0, 0, 0, 0, 0, 1, 2];

/// To lead the rename of `f`, the directory 1/1, from the directory 1 to `g` in the root.
pub(crate) const LEAD_DIR_INTO_ROOT: &[u8] = &[
    5, 0, 0, 0, 0, 0, 0, 0, 3, 9, 80, 1, 102, 128, 1, 103, 120, 1, 0, 0, 0, 0, 0, 0, 0, 0,
];

/// For the path of the directory 1 in the root.
pub(crate) const PATH_ASK: &[u8] = &[38, 80, 128];

/// For the path of the file 1/1 in the directory 1.
pub(crate) const PATH_ASK_BELOW: &[u8] = &[38, 120, 80];

/// The path of the directory 1, the first that the server 0 gave.
pub(crate) const PATH_OF_DIR: &[u8] = &[
    39, 0, 0, 0, 0, 0, 0, 0, 0, 1, 80, 0, 0, 0, 0, 0, 0, 0, 2, 128, 80,
];

/// The first path that the server 0 gave is back.
pub(crate) const FIRST_PATH_BACK: &[u8] = &[42, 0, 0, 0, 0, 0, 0, 0, 0, 1];

/// The second one is.
pub(crate) const SECOND_PATH_BACK: &[u8] = &[42, 0, 0, 0, 0, 0, 0, 0, 0, 2];

/// The first path that the server 1 gave is back.
pub(crate) const PATH_BELOW_BACK: &[u8] = &[42, 1, 0, 0, 0, 0, 0, 0, 0, 1];

/// Whether the second part of the first transaction that the server 0 leads is ready: the directory 1, which is to go, by its lease.
pub(crate) const PREPARE_TO_GO: &[u8] = &[
    33, 0, 0, 0, 0, 0, 0, 0, 0, 1, 1, 0, 1, 80, 0, 0, 0, 0, 0, 0, 0, 1, 0, 80, 1, 0, 0, 0, 0, 0, 0,
    0, 0, 3, 0, 0, 0, 0, 0, 0, 0, 100, 1, 80,
];

/// Whether its third part is: the same, by no lease.
pub(crate) const PREPARE_TO_GO_TOO: &[u8] = &[
    33, 0, 0, 0, 0, 0, 0, 0, 0, 1, 2, 0, 1, 80, 0, 0, 0, 0, 0, 0, 0, 0, 1, 80,
];

/// The third part does nothing.
pub(crate) const DECIDE_NONE_TOO: &[u8] = &[
    35, 0, 0, 0, 0, 0, 0, 0, 0, 1, 2, 0, 0, 0, 0, 0, 0, 0, 0,
];

/// The first path that the server 1 gave is in the way of the second part.
pub(crate) const PATH_IN_THE_WAY: &[u8] = &[
    34, 0, 0, 0, 0, 0, 0, 0, 0, 1, 1, 3, 1, 0, 0, 0, 0, 0, 0, 0, 1,
];

/// The second part of the second transaction is ready.
pub(crate) const YES_OF_SECOND: &[u8] = &[34, 0, 0, 0, 0, 0, 0, 0, 0, 2, 1, 0];

/// What it had to do is done.
pub(crate) const DONE_OF_SECOND: &[u8] = &[36, 0, 0, 0, 0, 0, 0, 0, 0, 2, 1];

/// The second part of the third transaction is ready.
pub(crate) const YES_OF_THIRD: &[u8] = &[34, 0, 0, 0, 0, 0, 0, 0, 0, 3, 1, 0];

/// What it had to do is done.
pub(crate) const DONE_OF_THIRD: &[u8] = &[36, 0, 0, 0, 0, 0, 0, 0, 0, 3, 1];

/// A log of the create of `f` in the directory 1, as the directory 1/1, by the fourth lease.
pub(crate) const LOG_OF_DIR_BELOW: &[u8] = &[
    4, 0, 0, 0, 0, 0, 0, 0, 1, 0, 0, 0, 0, 0, 0, 0, 2, 4, 80, 1, 102, 1, 1, 120, 12, 0, 0, 0, 0, 0,
    0, 0, 1, 1, 80, 1, 102, 1, 0, 0, 0, 0, 0, 0, 0, 0, 4, 0, 0, 0, 0, 0, 0, 0, 102,
];

/// To lead the rename of `a`, the directory 1, from the root to `h` in the directory 1/1.
pub(crate) const LEAD_DIR_DOWN: &[u8] = &[
    5, 0, 0, 0, 0, 0, 0, 0, 3, 9, 128, 1, 97, 120, 1, 104, 80, 1, 0, 0, 0, 0, 0, 0, 0, 0,
];

/// To lead the rename of `b`, the directory 2, from the root to `g` in the directory 1.
pub(crate) const LEAD_SECOND_INTO_FIRST: &[u8] = &[
    5, 0, 0, 0, 0, 0, 0, 0, 3, 9, 128, 1, 98, 80, 1, 103, 72, 1, 0, 0, 0, 0, 0, 0, 0, 0,
];

/// For the path of the directory 1 in the directory 1/1.
pub(crate) const PATH_ASK_DOWN: &[u8] = &[38, 80, 120];

/// The first path that the server 0 gave is asked back.
pub(crate) const FIRST_PATH_ASKED_BACK: &[u8] = &[41, 0, 0, 0, 0, 0, 0, 0, 0, 1];

/// The second part of the first transaction that the server 1 leads is ready.
pub(crate) const YES_OF_SOURCE: &[u8] = &[34, 1, 0, 0, 0, 0, 0, 0, 0, 1, 1, 0];

/// Its third part is.
pub(crate) const YES_OF_MOVED: &[u8] = &[34, 1, 0, 0, 0, 0, 0, 0, 0, 1, 2, 0];

/// What its second part had to do is done.
pub(crate) const DONE_OF_SOURCE: &[u8] = &[36, 1, 0, 0, 0, 0, 0, 0, 0, 1, 1];

/// What its third part had to do is done.
pub(crate) const DONE_OF_MOVED: &[u8] = &[36, 1, 0, 0, 0, 0, 0, 0, 0, 1, 2];
