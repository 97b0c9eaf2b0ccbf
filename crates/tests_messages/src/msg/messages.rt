//! The bytes of messages, worked out from the table of bytes: each message with nothing in it and with something.
use crate::msg::fault_of;
use crate::{copied, same, spend};
use fs_ident::Memory;
use fs_msg::{Msg, MsgError, read, read_whole, write};
use std::alloc::Global;
use std::test::Fail;

/// Whether all of the bytes are read as a message whose twin is written as these bytes again.
pub(crate) fn is_spelled_again(alloc: Global, bytes: &[u8]) -> Result<bool, Memory> {
    match read_whole(alloc, bytes) {
        Ok(message) => is_twin_spelled(alloc, message, bytes),
        Err(_) => Ok(false),
    }
}

/// Whether the twin of the message, which is let go, is written as these bytes.
fn is_twin_spelled(alloc: Global, message: Msg, bytes: &[u8]) -> Result<bool, Memory> {
    let twin = copied(alloc, message)?;
    let spelled = spelled(alloc, &twin);
    spend(twin);
    Ok(spelled?.as_slice() == bytes)
}

/// The bytes of the message.
fn spelled(alloc: Global, message: &Msg) -> Result<Vec<u8>, Memory> {
    let mut out = Vec::new(alloc);
    write(alloc, message, &mut out)?;
    Ok(out)
}

/// Whether each row is.
fn are_spelled_again(alloc: Global, table: &[&[u8]]) -> Result<bool, Memory> {
    for bytes in table {
        if !is_spelled_again(alloc, bytes)? {
            return Ok(false);
        }
    }
    Ok(true)
}

const ASK: [u8; 13] = [1, 0, 0, 0, 0, 0, 0, 0, 1, 0, 128, 0, 0];

const MORE: [u8; 14] = [1, 0, 0, 0, 0, 0, 0, 0, 1, 0, 128, 0, 0, 1];

#[test]
fn an_ask_for_the_life_of_the_root(rt: HostRuntime) -> Result<(), Fail> {
    let alloc = rt.alloc();
    same(&rt, is_spelled_again(alloc, &ASK)?, true);
    same(&rt, fault_of(alloc, &ASK[..8]), Some(MsgError::Short));
    same(&rt, fault_of(alloc, &[7]), Some(MsgError::Tag { at: 0 }));
    same(
        &rt,
        fault_of(alloc, &MORE),
        Some(MsgError::Trailing { at: 13 }),
    );
    Ok(())
}

#[test]
fn the_beginning_is_read(rt: HostRuntime) -> Result<(), Fail> {
    match read(rt.alloc(), &MORE) {
        Ok((message, len)) => {
            spend(message);
            same(&rt, len, 13);
            Ok(())
        }
        Err(_) => Err(Fail::from("its beginning is read")),
    }
}

const OF_CLIENTS: [&[u8]; 7] = [
    // Ask for nothing, and for a name and a fresh identifier.
    &[1, 0, 0, 0, 0, 0, 0, 0, 0, 0],
    &[1, 0, 0, 0, 0, 0, 0, 0, 1, 1, 128, 1, 33, 1, 1, 66, 64],
    // Renew nothing, and release one lease.
    &[2, 0, 0, 0, 0, 0, 0, 0, 0],
    &[
        3, 0, 0, 0, 0, 0, 0, 0, 1, 128, 15, 255, 255, 255, 255, 255, 255, 255, 255,
    ],
    // Ship nothing, one entry without uses, and one with a use.
    &[4, 0, 0, 0, 0, 0, 0, 0, 0],
    &[
        4, 0, 0, 0, 0, 0, 0, 0, 1, 255, 255, 255, 255, 255, 255, 255, 255, 2, 128, 8, 0, 0, 0, 0,
        0, 0, 0, 0,
    ],
    &[
        4, 0, 0, 0, 0, 0, 0, 0, 1, 0, 0, 0, 0, 0, 0, 0, 7, 2, 128, 8, 0, 0, 0, 0, 0, 0, 0, 1, 0,
        128, 0, 3, 0, 0, 0, 0, 0, 0, 0, 4, 0, 0, 0, 0, 0, 0, 0, 5,
    ],
];

#[test]
fn what_clients_send(rt: HostRuntime) -> Result<(), Fail> {
    same(&rt, are_spelled_again(rt.alloc(), &OF_CLIENTS)?, true);
    Ok(())
}

const OF_SERVERS: [&[u8]; 6] = [
    // Granted nothing, and the life of the root with a fresh identifier.
    &[17, 0, 0, 0, 0, 0, 0, 0, 0, 0, 0],
    &[
        17, 0, 0, 0, 0, 0, 0, 0, 1, 1, 0, 0, 0, 0, 0, 0, 0, 2, 0, 128, 1, 255, 255, 255, 255, 255,
        255, 255, 255, 0, 1, 1, 1, 66, 64, 0,
    ],
    // Renewed one lease, and had no other.
    &[
        18, 0, 0, 0, 0, 0, 0, 0, 2, 1, 0, 0, 0, 0, 0, 0, 0, 2, 0, 1, 0, 0, 0, 0, 0, 0, 0, 3, 1, 0,
        0, 0, 0, 0, 0, 0, 4, 0,
    ],
    &[19, 255, 255, 255, 255, 255, 255, 255, 255, 0],
    &[20, 0, 0, 0, 0, 0, 0, 0, 0, 0],
    &[22, 15, 255, 255, 255, 255, 255, 255, 255, 255],
];

#[test]
fn what_servers_send(rt: HostRuntime) -> Result<(), Fail> {
    same(&rt, are_spelled_again(rt.alloc(), &OF_SERVERS)?, true);
    Ok(())
}

/// Released with each end.
const ENDS: [&[u8]; 5] = [
    &[19, 0, 0, 0, 0, 0, 0, 0, 1, 1, 15, 0, 0, 0, 0, 0, 0, 0, 2],
    &[19, 0, 0, 0, 0, 0, 0, 0, 1, 2, 15, 0, 0, 0, 0, 0, 0, 0, 2],
    &[19, 0, 0, 0, 0, 0, 0, 0, 1, 3, 66, 64, 15],
    &[19, 0, 0, 0, 0, 0, 0, 0, 1, 4, 66, 64],
    &[
        19, 0, 0, 0, 0, 0, 0, 0, 1, 5, 0, 0, 0, 0, 0, 0, 0, 6, 15, 0, 0, 0, 0, 0, 0, 0, 7, 0, 0, 0,
        0, 0, 0, 0, 8, 0, 0, 0, 0, 0, 0, 0, 9,
    ],
];

#[test]
fn each_end(rt: HostRuntime) -> Result<(), Fail> {
    same(&rt, are_spelled_again(rt.alloc(), &ENDS)?, true);
    Ok(())
}
