//! What is told, copied, written and read.
mod counts;
mod faults;
mod messages;
mod parcels;
mod paths;

use crate::{copied, err_of, reads};
use fs_ident::{FileId, Peer, Session};
use fs_model::{Op, Reply};
use fs_msg::{Item, MsgError, Note, read_whole};
use std::alloc::Global;
use std::test::Fail;

/// Why the bytes are no message, if they are none.
pub(crate) fn fault_of(alloc: Global, bytes: &[u8]) -> Option<MsgError> {
    err_of(read_whole(alloc, bytes))
}

fn item(alloc: Global) -> Item {
    Item {
        by: Peer::Client(Session(1)),
        n: 2,
        op: Op::Kind {
            file: FileId::root(alloc),
        },
        reply: Reply::IsDir,
    }
}

const ITEM: &str =
    "Item { by: Client(Session(1)), n: 2, op: Kind { file: FileId { numbers: [] } }, \
    reply: IsDir }";

#[test]
fn an_item_is_copied(rt: HostRuntime) -> Result<(), Fail> {
    reads(&rt, rt.alloc(), copied(rt.alloc(), item(rt.alloc()))?, ITEM)
}

#[test]
fn a_note_is_copied(rt: HostRuntime) -> Result<(), Fail> {
    let note = Note::Answered {
        n: 2,
        reply: Reply::IsDir,
    };
    reads(
        &rt,
        rt.alloc(),
        copied(rt.alloc(), note)?,
        "Answered { n: 2, reply: IsDir }",
    )
}
