use crate::report::{id, line, line_of_outcome, name};
use crate::{same, with};
use fs_field::{Field, LeaseKind, Need};
use fs_ident::{LeaseNo, List, PathNo, Peer, Session, TxnNo};
use fs_model::Reply;
use fs_modes::Mode;
use fs_msg::{Act, Busy, ClientNote, End, Note, Refusal, ServerNote};
use fs_schedule::Outcome;
use std::alloc::Global;
use std::process::Abort;
use std::test::Fail;

/// The texts of notes, by their numbers.
const NOTES: [&[u8]; 42] = [
    b"grants 3 all",
    b"grants 1 wait s0.2",
    b"grants 0 locked s0#1",
    b"grants 0 moved /1 s1",
    b"grants 2 noids /1",
    b"renews 2 all",
    b"frees 1 all",
    b"admits 1 all",
    b"admits 0 ended 1 s0.1 100 110 gap 2 gap 3",
    b"reaps 2",
    b"recalls 1",
    b"idle",
    b"strange",
    b"ships 1 s0",
    b"releases 1 s0",
    b"renews 2 s0",
    b"idle",
    b"granted 1 wait s0.2",
    b"renewed 2 all",
    b"released 1 all",
    b"shipped 0 ended 1 s0.1 100 110",
    b"recall s0.2",
    b"strange",
    b"replied 1 made",
    b"read 2 found /1",
    b"asked s0 life / shared, child / \"a\" exclusive, fresh /",
    b"asked s1 own /1, other /1 dD shared",
    b"busy exchange",
    b"busy log",
    b"busy led",
    b"noids /1",
    b"over 1",
    b"none",
    b"part",
    b"strange",
    b"installs /1",
    b"moves /1 s1",
    b"stays notmine /1 s1",
    b"stays nofile",
    b"stays same",
    b"stays busy s0#1",
    b"stays paths s0@1",
];

/// Why an answer goes no further, by the number of the note that says so.
fn end(alloc: Global, k: u64) -> Result<End, Fail> {
    match k {
        1 | 17 => Ok(End::Wait {
            blocker: LeaseNo {
                server: 0,
                count: 2,
            },
        }),
        2 => Ok(End::Locked {
            txn: TxnNo {
                server: 0,
                count: 1,
            },
        }),
        3 => Ok(End::Moved {
            prefix: id(alloc, b"/1")?,
            to: 1,
        }),
        4 => Ok(End::NoIds {
            dir: id(alloc, b"/1")?,
        }),
        8 | 20 => Ok(End::Ended {
            n: 1,
            lease: LeaseNo {
                server: 0,
                count: 1,
            },
            until: 100,
            now: 110,
        }),
        _ => Ok(End::All),
    }
}

/// The numbers of two entries behind a refused one, where the note tells of one.
fn gaps(alloc: Global, k: u64) -> Result<List<u64>, Fail> {
    let mut gaps = List::new(alloc);
    if k == 8 {
        gaps.push(2)?;
        gaps.push(3)?;
    }
    Ok(gaps)
}

/// A note of a server that has an end.
fn server_note_with(alloc: Global, k: u64, end: End) -> Result<ServerNote, Fail> {
    match k {
        0 => Ok(ServerNote::Grants { count: 3, end }),
        1 => Ok(ServerNote::Grants { count: 1, end }),
        2 | 3 => Ok(ServerNote::Grants { count: 0, end }),
        4 => Ok(ServerNote::Grants { count: 2, end }),
        5 => Ok(ServerNote::Renews { count: 2, end }),
        6 => Ok(ServerNote::Frees { count: 1, end }),
        _ => admits(alloc, k, end),
    }
}

fn admits(alloc: Global, k: u64, end: End) -> Result<ServerNote, Fail> {
    let (end, gaps) = with(end, gaps(alloc, k))?;
    let count = 8_u64.saturating_sub(k);
    Ok(ServerNote::Admits { count, end, gaps })
}

fn server_note(alloc: Global, k: u64) -> Result<ServerNote, Fail> {
    match k {
        0..=8 => server_note_with(alloc, k, end(alloc, k)?),
        9 => Ok(ServerNote::Reaps { count: 2 }),
        10 => Ok(ServerNote::Recalls { count: 1 }),
        11 => Ok(ServerNote::Idle),
        _ => Ok(ServerNote::Strange),
    }
}

/// Why a server keeps what it was to hand over, by the number of the note that says so.
fn refusal(alloc: Global, k: u64) -> Result<Refusal, Fail> {
    match k {
        37 => Ok(Refusal::NotMine {
            prefix: id(alloc, b"/1")?,
            to: 1,
        }),
        38 => Ok(Refusal::NoFile),
        39 => Ok(Refusal::Same),
        40 => Ok(Refusal::Busy {
            txn: TxnNo {
                server: 0,
                count: 1,
            },
        }),
        _ => Ok(Refusal::Paths {
            no: PathNo {
                server: 0,
                count: 1,
            },
        }),
    }
}

fn note_of_a_move(alloc: Global, k: u64) -> Result<ServerNote, Fail> {
    match k {
        35 => Ok(ServerNote::Installs {
            prefix: id(alloc, b"/1")?,
        }),
        36 => Ok(ServerNote::Moves {
            prefix: id(alloc, b"/1")?,
            to: 1,
        }),
        _ => Ok(ServerNote::Stays {
            refusal: refusal(alloc, k)?,
        }),
    }
}

/// A note of a client that has an end.
fn client_note_with(k: u64, end: End) -> ClientNote {
    match k {
        17 => ClientNote::Granted { count: 1, end },
        18 => ClientNote::Renewed { count: 2, end },
        19 => ClientNote::Released { count: 1, end },
        _ => ClientNote::Shipped { count: 0, end },
    }
}

fn client_note(alloc: Global, k: u64) -> Result<ClientNote, Fail> {
    match k {
        13 => Ok(ClientNote::Ships { count: 1, to: 0 }),
        14 => Ok(ClientNote::Releases { count: 1, to: 0 }),
        15 => Ok(ClientNote::Renews { count: 2, to: 0 }),
        16 => Ok(ClientNote::Idle),
        17..=20 => Ok(client_note_with(k, end(alloc, k)?)),
        21 => Ok(ClientNote::Recall {
            no: LeaseNo {
                server: 0,
                count: 2,
            },
        }),
        _ => Ok(ClientNote::Strange),
    }
}

/// What the create of a name in the root needs.
fn needs_of_a_create(alloc: Global) -> Result<List<Need>, Fail> {
    let mut needs = List::new(alloc);
    let done = add_needs_of_a_create(alloc, &mut needs);
    Ok(with(needs, done)?.0)
}

fn add_needs_of_a_create(alloc: Global, needs: &mut List<Need>) -> Result<(), Fail> {
    needs.push(Need::Lease(Field::Life(id(alloc, b"/")?), LeaseKind::Shared))?;
    needs.push(Need::Lease(child(alloc)?, LeaseKind::Exclusive))?;
    needs.push(Need::Fresh(id(alloc, b"/")?))?;
    Ok(())
}

fn child(alloc: Global) -> Result<Field, Fail> {
    let (dir, name) = with(id(alloc, b"/")?, name(alloc, b"a"))?;
    Ok(Field::Child(dir, name))
}

/// What a rename needs of the file that it moves.
fn needs_of_a_rename(alloc: Global) -> Result<List<Need>, Fail> {
    let mut needs = List::new(alloc);
    let done = add_needs_of_a_rename(alloc, &mut needs);
    Ok(with(needs, done)?.0)
}

fn add_needs_of_a_rename(alloc: Global, needs: &mut List<Need>) -> Result<(), Fail> {
    let own = Field::Own(id(alloc, b"/1")?);
    needs.push(Need::Lease(own, LeaseKind::Exclusive))?;
    let other = Field::Other(id(alloc, b"/1")?, Mode::DenyD);
    needs.push(Need::Lease(other, LeaseKind::Shared))?;
    Ok(())
}

fn act(alloc: Global, k: u64) -> Result<Act, Fail> {
    match k {
        23 => Ok(Act::Replied {
            n: 1,
            reply: Reply::Made,
        }),
        24 => Ok(Act::ReadNow {
            n: 2,
            reply: Reply::Found(id(alloc, b"/1")?),
        }),
        25 => Ok(Act::Asked {
            needs: needs_of_a_create(alloc)?,
            to: 0,
        }),
        26 => Ok(Act::Asked {
            needs: needs_of_a_rename(alloc)?,
            to: 1,
        }),
        27 => Ok(Act::Busy {
            what: Busy::Exchange,
        }),
        28 => Ok(Act::Busy { what: Busy::Log }),
        29 => Ok(Act::Busy { what: Busy::Led }),
        30 => Ok(Act::NoIds {
            dir: id(alloc, b"/1")?,
        }),
        _ => Ok(Act::Over { n: 1 }),
    }
}

fn note(alloc: Global, k: u64) -> Result<Note, Fail> {
    match k {
        0..=12 => Ok(Note::Server(server_note(alloc, k)?)),
        13..=22 => Ok(Note::Client(client_note(alloc, k)?)),
        23..=31 => Ok(Note::Act(act(alloc, k)?)),
        32 => Ok(Note::None),
        33 => Ok(Note::Part),
        34 => Ok(Note::Strange),
        _ => Ok(Note::Server(note_of_a_move(alloc, k)?)),
    }
}

fn add_note(notes: &mut List<Note>, note: Note) -> Result<(), Fail> {
    notes.push(note)?;
    Ok(())
}

/// The note, and nothing that is sent.
fn outcome(alloc: Global, note: Note) -> Result<Outcome, Fail> {
    let mut notes = List::new(alloc);
    let done = add_note(&mut notes, note);
    let (notes, ()) = with(notes, done)?;
    Ok(Outcome {
        who: Some(Peer::Client(Session(1))),
        notes,
        sent: List::new(alloc),
    })
}

/// The note is so written.
pub(crate) fn writes_note(
    rt: &impl Abort,
    alloc: Global,
    note: Note,
    text: &[u8],
) -> Result<(), Fail> {
    let found = line_of_outcome(alloc, b"", 1, outcome(alloc, note)?)?;
    let (found, wanted) = with(found, line(alloc, b"e1 c1 ", text))?;
    same(rt, found.as_slice(), wanted.as_slice());
    Ok(())
}

#[test]
fn writes_notes(rt: HostRuntime) -> Result<(), Fail> {
    for (k, text) in NOTES.iter().enumerate() {
        writes_note(&rt, rt.alloc(), note(rt.alloc(), k as u64)?, *text)?;
    }
    Ok(())
}
