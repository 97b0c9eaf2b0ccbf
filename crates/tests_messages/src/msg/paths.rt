//! The bytes of messages of path leases, worked out from the table of bytes: each tag with its fields.
use crate::led::{MANY, ONE, Piece, are_values, joined, stops};
use crate::msg::messages::is_spelled_again;
use crate::same;
use fs_msg::Msg;
use std::test::Fail;

/// The number of a path lease.
const NO: Piece = Piece::These(&[2, 0, 0, 0, 0, 0, 0, 0, 7]);

const MESSAGES: [(&[Piece], &str); 11] = [
    (
        &[Piece::These(&[38]), Piece::Id(b"/9"), Piece::Id(b"/5")],
        "Peer(PathAsk { file: FileId { numbers: [9] }, parent: FileId { numbers: [5] } })",
    ),
    (
        &[
            Piece::These(&[39]),
            NO,
            Piece::Id(b"/9"),
            Piece::These(&[0, 0, 0, 0, 0, 0, 0, 2]),
            Piece::Id(b"/"),
            Piece::Id(b"/9"),
        ],
        "Peer(PathGrant { no: PathNo { server: 2, count: 7 }, file: FileId { numbers: [9] }, \
            path: List { items: [FileId { numbers: [] }, FileId { numbers: [9] }] } })",
    ),
    (
        &[
            Piece::These(&[39]),
            NO,
            Piece::Id(b"/9"),
            Piece::These(&[0, 0, 0, 0, 0, 0, 0, 0]),
        ],
        "Peer(PathGrant { no: PathNo { server: 2, count: 7 }, file: FileId { numbers: [9] }, \
            path: List { items: [] } })",
    ),
    (
        &[
            Piece::These(&[40]),
            Piece::Id(b"/9"),
            Piece::These(&[0]),
            Piece::Id(b"/5"),
            Piece::These(&[3]),
        ],
        "Peer(PathNo { file: FileId { numbers: [9] }, \
            why: Moved { prefix: FileId { numbers: [5] }, to: 3 } })",
    ),
    (
        &[
            Piece::These(&[40]),
            Piece::Id(b"/9"),
            Piece::These(&[1]),
            Piece::Id(b"/5"),
        ],
        "Peer(PathNo { file: FileId { numbers: [9] }, \
            why: Wanted { file: FileId { numbers: [5] } } })",
    ),
    (
        &[
            Piece::These(&[40]),
            Piece::Id(b"/9"),
            Piece::These(&[2]),
            Piece::Id(b"/5"),
            Piece::These(&[1, 0, 0, 0, 0, 0, 0, 0, 8]),
        ],
        "Peer(PathNo { file: FileId { numbers: [9] }, \
            why: Frozen { file: FileId { numbers: [5] }, txn: TxnNo { server: 1, count: 8 } } })",
    ),
    (
        &[
            Piece::These(&[40]),
            Piece::Id(b"/9"),
            Piece::These(&[3]),
            NO,
        ],
        "Peer(PathNo { file: FileId { numbers: [9] }, \
            why: PathsOut { no: PathNo { server: 2, count: 7 } } })",
    ),
    (
        &[Piece::These(&[40]), Piece::Id(b"/9"), Piece::These(&[4])],
        "Peer(PathNo { file: FileId { numbers: [9] }, why: Changed })",
    ),
    (
        &[Piece::These(&[40]), Piece::Id(b"/9"), Piece::These(&[5])],
        "Peer(PathNo { file: FileId { numbers: [9] }, why: NoChild })",
    ),
    (
        &[Piece::These(&[41]), NO],
        "Peer(PathRecall { no: PathNo { server: 2, count: 7 } })",
    ),
    (
        &[Piece::These(&[42]), NO],
        "Peer(PathRelease { no: PathNo { server: 2, count: 7 } })",
    ),
];

#[test]
fn messages_of_path_leases(rt: HostRuntime) -> Result<(), Fail> {
    are_values::<Msg>(&rt, rt.alloc(), &MESSAGES)
}

/// No message begins like this: reading stops at the last byte, which is no identifier's first.
const NO_IDENTIFIERS: [&[Piece]; 8] = [
    &[Piece::These(&[38, 0])],
    &[Piece::These(&[38]), Piece::Id(b"/9"), Piece::These(&[0])],
    &[Piece::These(&[39]), NO, Piece::These(&[0])],
    &[
        Piece::These(&[39]),
        NO,
        Piece::Id(b"/9"),
        ONE,
        Piece::These(&[0]),
    ],
    &[Piece::These(&[40, 0])],
    &[Piece::These(&[40]), Piece::Id(b"/9"), Piece::These(&[0, 0])],
    &[Piece::These(&[40]), Piece::Id(b"/9"), Piece::These(&[1, 0])],
    &[Piece::These(&[40]), Piece::Id(b"/9"), Piece::These(&[2, 0])],
];

#[test]
fn no_messages_of_path_leases(rt: HostRuntime) -> Result<(), Fail> {
    let alloc = rt.alloc();
    for pieces in NO_IDENTIFIERS {
        stops::<Msg>(&rt, alloc, pieces, false, 1)?;
    }
    let no_reason = [Piece::These(&[40]), Piece::Id(b"/9"), Piece::These(&[6])];
    stops::<Msg>(&rt, alloc, &no_reason, true, 1)?;
    let many = [Piece::These(&[39]), NO, Piece::Id(b"/9"), MANY];
    stops::<Msg>(&rt, alloc, &many, false, 0)
}

#[test]
fn messages_of_path_leases_are_copied(rt: HostRuntime) -> Result<(), Fail> {
    let alloc = rt.alloc();
    for (pieces, _) in MESSAGES {
        let bytes = joined(alloc, pieces)?;
        same(&rt, is_spelled_again(alloc, &bytes)?, true);
    }
    Ok(())
}
