//! The bytes of what messages of led operations carry, worked out from the table of bytes: each tag with its fields.
use crate::{reads, same};
use fs_field::{Effect, Part, Vote};
use fs_ident::FileId;
use fs_msg::{Decide, Done, Lead, Msg, Prepare, Voted, led_end_of, put_led_end, put_why, why_of};
use fs_wire::{ReadError, Wire, stop};
use std::alloc::Global;
use std::fmt::Debug;
use std::process::Abort;
use std::test::Fail;

/// A stretch of bytes.
#[derive(Clone, Copy)]
pub(crate) enum Piece {
    /// These bytes.
    These(&'static [u8]),
    /// Those of the identifier with this text.
    Id(&'static [u8]),
}

/// The bytes of the pieces, one after another.
pub(crate) fn joined(alloc: Global, pieces: &[Piece]) -> Result<Vec<u8>, Fail> {
    let mut out = Vec::new(alloc);
    for piece in pieces {
        match piece {
            Piece::These(bytes) => out.extend_from_slice(bytes)?,
            Piece::Id(text) => FileId::parse(alloc, text)?.put(&mut out)?,
        }
    }
    Ok(out)
}

/// Why nothing is read of the bytes, if nothing is.
fn error_of<T: Wire>(alloc: Global, bytes: &[u8]) -> Option<ReadError> {
    T::get(alloc, bytes).err()
}

/// The pieces are read as the value that is written so for programmers, and it is written as these bytes again. Each cut is too short.
fn is_value<T: Wire + Debug>(
    rt: &impl Abort,
    alloc: Global,
    pieces: &[Piece],
    text: &str,
) -> Result<(), Fail> {
    let bytes = joined(alloc, pieces)?;
    for place in 0..bytes.len() {
        same(
            rt,
            error_of::<T>(alloc, &bytes[..place]).map(left_of),
            Some(0),
        );
    }
    let (value, rest) = T::get(alloc, bytes.as_slice())?;
    same(rt, rest.len(), 0);
    let mut out = Vec::new(alloc);
    value.put(&mut out)?;
    same(rt, out.as_slice(), bytes.as_slice());
    reads(rt, alloc, value, text)
}

/// How many bytes are left where reading stops; more than there may be when out of memory.
fn left_of(error: ReadError) -> usize {
    match error {
        ReadError::Memory => usize::MAX,
        ReadError::Fault(fault) => fault.left,
    }
}

/// Each row is.
pub(crate) fn are_values<T: Wire + Debug>(
    rt: &impl Abort,
    alloc: Global,
    table: &[(&[Piece], &str)],
) -> Result<(), Fail> {
    for (pieces, text) in table {
        is_value::<T>(rt, alloc, pieces, text)?;
    }
    Ok(())
}

/// Nothing is read of the pieces: reading stops at a tag or at another byte, with so many bytes left.
pub(crate) fn stops<T: Wire>(
    rt: &impl Abort,
    alloc: Global,
    pieces: &[Piece],
    tag: bool,
    left: usize,
) -> Result<(), Fail> {
    let bytes = joined(alloc, pieces)?;
    same(
        rt,
        error_of::<T>(alloc, bytes.as_slice()),
        Some(stop(tag, left)),
    );
    Ok(())
}

/// The count of a list with 2^60 values. With nothing behind it the bytes are too few: a tag is wanting, and no room is taken.
pub(crate) const MANY: Piece = Piece::These(&[16, 0, 0, 0, 0, 0, 0, 0]);

pub(crate) const ONE: Piece = Piece::These(&[0, 0, 0, 0, 0, 0, 0, 1]);

const EFFECTS: [(&[Piece], &str); 8] = [
    (
        &[
            Piece::These(&[0]),
            Piece::Id(b"/9"),
            Piece::These(&[1, 33, 0]),
        ],
        "SetChild { dir: FileId { numbers: [9] }, name: Name { bytes: [33] }, to: None }",
    ),
    (
        &[
            Piece::These(&[0]),
            Piece::Id(b"/"),
            Piece::These(&[1, 33, 1]),
            Piece::Id(b"/5"),
        ],
        "SetChild { dir: FileId { numbers: [] }, name: Name { bytes: [33] }, \
            to: Some(FileId { numbers: [5] }) }",
    ),
    (
        &[
            Piece::These(&[1]),
            Piece::Id(b"/9"),
            Piece::Id(b"/5"),
            Piece::These(&[1, 33]),
        ],
        "SetParent { file: FileId { numbers: [9] }, dir: FileId { numbers: [5] }, \
            name: Name { bytes: [33] } }",
    ),
    (
        &[
            Piece::These(&[2]),
            Piece::Id(b"/9"),
            Piece::These(&[1]),
            Piece::Id(b"/5"),
            Piece::These(&[1, 33]),
        ],
        "NewNode { file: FileId { numbers: [9] }, kind: Dir, dir: FileId { numbers: [5] }, \
            name: Name { bytes: [33] } }",
    ),
    (
        &[Piece::These(&[3]), Piece::Id(b"/9")],
        "RemoveNode { file: FileId { numbers: [9] } }",
    ),
    (
        &[
            Piece::These(&[4]),
            Piece::Id(b"/9"),
            Piece::These(&[3, 232, 255, 255, 255, 255, 9]),
        ],
        "AddHandle { file: FileId { numbers: [9] }, session: Session(1000), h: 4294967295, \
            modes: Modes { acc_r: true, acc_w: false, acc_d: false, deny_r: true, deny_w: false, \
            deny_d: false } }",
    ),
    (
        &[
            Piece::These(&[5]),
            Piece::Id(b"/9"),
            Piece::These(&[0, 1, 0, 0, 0, 2]),
        ],
        "RemoveHandle { file: FileId { numbers: [9] }, session: Session(1), h: 2 }",
    ),
    (
        &[
            Piece::These(&[6]),
            Piece::Id(b"/9"),
            Piece::These(&[
                0, 0, 0, 0, 0, 0, 0, 7, 255, 255, 255, 255, 255, 255, 255, 255,
            ]),
        ],
        "SetInfo { file: FileId { numbers: [9] }, size: 7, stamp: 18446744073709551615 }",
    ),
];

#[test]
fn effects(rt: HostRuntime) -> Result<(), Fail> {
    let alloc = rt.alloc();
    are_values::<Effect>(&rt, alloc, &EFFECTS)?;
    stops::<Effect>(&rt, alloc, &[Piece::These(&[7, 0])], true, 2)?;
    let no_access = [
        Piece::These(&[4]),
        Piece::Id(b"/9"),
        Piece::These(&[0, 1, 0, 0, 0, 2, 8]),
    ];
    stops::<Effect>(&rt, alloc, &no_access, false, 1)
}

/// The use of a shared lease on the names of the root.
const USE: Piece = Piece::These(&[0, 1, 0, 0, 0, 0, 0, 0, 0, 8, 0, 0, 0, 0, 0, 0, 0, 9]);

const PARTS: [(&[Piece], &str); 2] = [
    (
        &[
            Piece::Id(b"/9"),
            Piece::These(&[0, 0, 0, 0, 0, 0, 0, 0, 1]),
            Piece::Id(b"/5"),
        ],
        "Part { file: FileId { numbers: [9] }, uses: List { items: [] }, \
            freeze: Some(FileId { numbers: [5] }) }",
    ),
    (
        &[
            Piece::Id(b"/9"),
            ONE,
            Piece::These(&[2]),
            Piece::Id(b"/9"),
            USE,
            Piece::These(&[0]),
        ],
        "Part { file: FileId { numbers: [9] }, uses: List { items: [Use { \
            field: Names(FileId { numbers: [9] }), kind: Shared, \
            no: LeaseNo { server: 1, count: 8 }, until: 9 }] }, freeze: None }",
    ),
];

#[test]
fn parts(rt: HostRuntime) -> Result<(), Fail> {
    let alloc = rt.alloc();
    are_values::<Part>(&rt, alloc, &PARTS)?;
    stops::<Part>(&rt, alloc, &[Piece::Id(b"/9"), MANY], true, 0)?;
    stops::<Part>(
        &rt,
        alloc,
        &[Piece::Id(b"/9"), ONE, Piece::These(&[7, 0, 0])],
        true,
        3,
    )
}

const VOTES: [(&[Piece], &str); 4] = [
    (&[Piece::These(&[0])], "Yes"),
    (
        &[Piece::These(&[
            1, 15, 0, 0, 0, 0, 0, 0, 0, 7, 0, 0, 0, 0, 0, 0, 0, 8, 0, 0, 0, 0, 0, 0, 0, 9,
        ])],
        "Ended { lease: LeaseNo { server: 15, count: 7 }, until: 8, now: 9 }",
    ),
    (
        &[Piece::These(&[2]), Piece::Id(b"/9"), Piece::These(&[3])],
        "Moved { prefix: FileId { numbers: [9] }, to: 3 }",
    ),
    (
        &[Piece::These(&[3, 2, 0, 0, 0, 0, 0, 0, 0, 7])],
        "PathsOut { no: PathNo { server: 2, count: 7 } }",
    ),
];

#[test]
fn votes(rt: HostRuntime) -> Result<(), Fail> {
    are_values::<Vote>(&rt, rt.alloc(), &VOTES)?;
    stops::<Vote>(&rt, rt.alloc(), &[Piece::These(&[4])], true, 1)
}

/// The seventh transaction that the server 2 leads, and its fifth part.
const PLACE: Piece = Piece::These(&[2, 0, 0, 0, 0, 0, 0, 0, 7, 4]);

#[test]
fn what_is_asked_of_a_leader(rt: HostRuntime) -> Result<(), Fail> {
    let number = Piece::These(&[0, 0, 0, 0, 0, 0, 0, 6, 8]);
    let file = [
        number,
        Piece::Id(b"/"),
        Piece::These(&[1, 33]),
        Piece::Id(b"/9"),
        Piece::These(&[1]),
    ];
    let mut pieces = Vec::from_slice(rt.alloc(), &file)?;
    pieces.extend_from_slice(&[ONE, Piece::These(&[2]), Piece::Id(b"/"), USE])?;
    is_value::<Lead>(
        &rt,
        rt.alloc(),
        pieces.as_slice(),
        "Lead { n: 6, op: Delete { dir: FileId { numbers: [] }, name: Name { bytes: [33] } }, \
            file: FileId { numbers: [9] }, kind: Dir, uses: List { items: [Use { \
            field: Names(FileId { numbers: [] }), kind: Shared, \
            no: LeaseNo { server: 1, count: 8 }, until: 9 }] } }",
    )
}

#[test]
fn what_goes_wrong_for_a_leader(rt: HostRuntime) -> Result<(), Fail> {
    let tag = [Piece::These(&[0, 0, 0, 0, 0, 0, 0, 6, 11, 0])];
    stops::<Lead>(&rt, rt.alloc(), &tag, true, 2)?;
    let many = [
        Piece::These(&[0, 0, 0, 0, 0, 0, 0, 6, 8]),
        Piece::Id(b"/"),
        Piece::These(&[1, 33]),
        Piece::Id(b"/9"),
        Piece::These(&[0]),
        MANY,
    ];
    stops::<Lead>(&rt, rt.alloc(), &many, true, 0)
}

#[test]
fn what_is_asked_of_a_part(rt: HostRuntime) -> Result<(), Fail> {
    let alloc = rt.alloc();
    let session = Piece::These(&[3, 232]);
    let none = Piece::These(&[0, 0, 0, 0, 0, 0, 0, 0, 0]);
    is_value::<Prepare>(
        &rt,
        alloc,
        &[PLACE, session, Piece::Id(b"/9"), none],
        "Prepare { txn: TxnNo { server: 2, count: 7 }, number: 4, session: Session(1000), \
            part: Part { file: FileId { numbers: [9] }, uses: List { items: [] }, freeze: None } }",
    )?;
    stops::<Prepare>(
        &rt,
        alloc,
        &[PLACE, session, Piece::Id(b"/9"), MANY],
        true,
        0,
    )?;
    stops::<Prepare>(&rt, alloc, &[PLACE, Piece::These(&[0, 0])], false, 1)
}

#[test]
fn what_a_part_answers(rt: HostRuntime) -> Result<(), Fail> {
    let alloc = rt.alloc();
    let moved = [
        PLACE,
        Piece::These(&[2]),
        Piece::Id(b"/9"),
        Piece::These(&[3]),
    ];
    is_value::<Voted>(
        &rt,
        alloc,
        &moved,
        "Voted { txn: TxnNo { server: 2, count: 7 }, number: 4, \
            vote: Moved { prefix: FileId { numbers: [9] }, to: 3 } }",
    )?;
    stops::<Voted>(&rt, alloc, &[PLACE, Piece::These(&[4, 0])], true, 2)?;
    is_value::<Done>(
        &rt,
        alloc,
        &[PLACE],
        "Done { txn: TxnNo { server: 2, count: 7 }, number: 4 }",
    )
}

/// The effects stand in order.
#[test]
fn what_is_decided(rt: HostRuntime) -> Result<(), Fail> {
    let alloc = rt.alloc();
    let two = [
        PLACE,
        Piece::These(&[0, 0, 0, 0, 0, 0, 0, 2, 3]),
        Piece::Id(b"/9"),
        Piece::These(&[3]),
        Piece::Id(b"/5"),
    ];
    is_value::<Decide>(
        &rt,
        alloc,
        &two,
        "Decide { txn: TxnNo { server: 2, count: 7 }, number: 4, effects: List { items: [\
            RemoveNode { file: FileId { numbers: [9] } }, \
            RemoveNode { file: FileId { numbers: [5] } }] } }",
    )?;
    stops::<Decide>(&rt, alloc, &[PLACE, MANY], true, 0)?;
    stops::<Decide>(&rt, alloc, &[PLACE, ONE, Piece::These(&[7])], true, 1)
}

/// The end of an operation is read and written so.
fn is_end(rt: &impl Abort, alloc: Global, pieces: &[Piece], text: &str) -> Result<(), Fail> {
    let bytes = joined(alloc, pieces)?;
    let (end, rest) = led_end_of(alloc, bytes.as_slice())?;
    same(rt, rest.len(), 0);
    let mut out = Vec::new(alloc);
    put_led_end(&end, &mut out)?;
    same(rt, out.as_slice(), bytes.as_slice());
    reads(rt, alloc, end, text)
}

const ENDS: [(&[Piece], &str); 8] = [
    (&[Piece::These(&[0, 24])], "Done { reply: Renamed }"),
    (
        &[Piece::These(&[
            1, 15, 0, 0, 0, 0, 0, 0, 0, 7, 0, 0, 0, 0, 0, 0, 0, 8, 0, 0, 0, 0, 0, 0, 0, 9,
        ])],
        "Ended { lease: LeaseNo { server: 15, count: 7 }, until: 8, now: 9 }",
    ),
    (
        &[Piece::These(&[2, 0]), Piece::Id(b"/9"), Piece::These(&[3])],
        "Again { why: Moved { prefix: FileId { numbers: [9] }, to: 3 } }",
    ),
    (
        &[Piece::These(&[2, 1]), Piece::Id(b"/9")],
        "Again { why: Wanted { file: FileId { numbers: [9] } } }",
    ),
    (
        &[
            Piece::These(&[2, 2]),
            Piece::Id(b"/9"),
            Piece::These(&[2, 0, 0, 0, 0, 0, 0, 0, 7]),
        ],
        "Again { why: Frozen { file: FileId { numbers: [9] }, \
            txn: TxnNo { server: 2, count: 7 } } }",
    ),
    (
        &[Piece::These(&[2, 3, 2, 0, 0, 0, 0, 0, 0, 0, 7])],
        "Again { why: PathsOut { no: PathNo { server: 2, count: 7 } } }",
    ),
    (&[Piece::These(&[2, 4])], "Again { why: Changed }"),
    (&[Piece::These(&[2, 5])], "Again { why: NoChild }"),
];

#[test]
fn ends(rt: HostRuntime) -> Result<(), Fail> {
    for (pieces, text) in ENDS {
        is_end(&rt, rt.alloc(), pieces, text)?;
    }
    Ok(())
}

const NO_ENDS: [(&[u8], bool, usize); 7] = [
    (&[3, 0], true, 2),
    // A tag that no reply has, and one that no reason has.
    (&[0, 26], true, 1),
    (&[2, 6, 0], true, 2),
    // Nothing behind the tag, and less than a lease.
    (&[2], true, 0),
    (&[0], true, 0),
    (&[1, 15, 0], false, 0),
    // A reply with 2^60 names.
    (&[0, 6, 16, 0, 0, 0, 0, 0, 0, 0], false, 0),
];

#[test]
fn no_ends(rt: HostRuntime) -> Result<(), Fail> {
    for (bytes, tag, left) in NO_ENDS {
        same(
            &rt,
            led_end_of(rt.alloc(), bytes).err(),
            Some(stop(tag, left)),
        );
    }
    Ok(())
}

#[test]
fn a_reason_alone(rt: HostRuntime) -> Result<(), Fail> {
    let (why, rest) = why_of(rt.alloc(), &[4, 9])?;
    same(&rt, rest, &[9]);
    let mut out = Vec::new(rt.alloc());
    put_why(&why, &mut out)?;
    same(&rt, out.as_slice(), &[4]);
    reads(&rt, rt.alloc(), why, "Changed")
}

/// Each message that carries one of these, behind its tag.
const MESSAGES: [(&[Piece], &str); 6] = [
    (
        &[
            Piece::These(&[5, 0, 0, 0, 0, 0, 0, 0, 6, 8]),
            Piece::Id(b"/"),
            Piece::These(&[1, 33]),
            Piece::Id(b"/9"),
            Piece::These(&[0, 0, 0, 0, 0, 0, 0, 0, 0]),
        ],
        "Client(Lead { lead: Lead { n: 6, op: Delete { dir: FileId { numbers: [] }, \
            name: Name { bytes: [33] } }, file: FileId { numbers: [9] }, kind: File, \
            uses: List { items: [] } } })",
    ),
    (
        &[Piece::These(&[21, 2, 4])],
        "Answer(Led { end: Again { why: Changed } })",
    ),
    (
        &[
            Piece::These(&[33]),
            PLACE,
            Piece::These(&[3, 232]),
            Piece::Id(b"/9"),
            Piece::These(&[0, 0, 0, 0, 0, 0, 0, 0, 0]),
        ],
        "Peer(Prepare { prepare: Prepare { txn: TxnNo { server: 2, count: 7 }, number: 4, \
            session: Session(1000), part: Part { file: FileId { numbers: [9] }, \
            uses: List { items: [] }, freeze: None } } })",
    ),
    (
        &[Piece::These(&[34]), PLACE, Piece::These(&[0])],
        "Peer(Vote { voted: Voted { txn: TxnNo { server: 2, count: 7 }, number: 4, vote: Yes } })",
    ),
    (
        &[
            Piece::These(&[35]),
            PLACE,
            Piece::These(&[0, 0, 0, 0, 0, 0, 0, 0]),
        ],
        "Peer(Decide { decide: Decide { txn: TxnNo { server: 2, count: 7 }, number: 4, \
            effects: List { items: [] } } })",
    ),
    (
        &[Piece::These(&[36]), PLACE],
        "Peer(Done { done: Done { txn: TxnNo { server: 2, count: 7 }, number: 4 } })",
    ),
];

#[test]
fn messages_that_carry_them(rt: HostRuntime) -> Result<(), Fail> {
    let alloc = rt.alloc();
    are_values::<Msg>(&rt, alloc, &MESSAGES)?;
    stops::<Msg>(&rt, alloc, &[Piece::These(&[6])], true, 1)?;
    stops::<Msg>(&rt, alloc, &[Piece::These(&[23])], true, 1)?;
    stops::<Msg>(&rt, alloc, &[Piece::These(&[32])], true, 1)?;
    stops::<Msg>(&rt, alloc, &[Piece::These(&[43])], true, 1)
}
