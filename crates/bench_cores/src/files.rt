//! Files that sessions make at a server.
ghost use Rattle.std.specs.Prelude.{◌≡◌, ◌≤◌, IfOk};

use fs_field::{Field, LeaseKind, Use};
use fs_ident::{FileId, Kind, LeaseNo, List, Memory, Name, Peer, Session, Twin, zip_ok};
use fs_model::{Op, Reply};
use fs_msg::{Answer, ClientMsg, CoreError, Entry, Grant, Msg};
use fs_server::{ServerCore, ServerEvent, ServerOut};
use std::alloc::Global;

/// How many files a directory gets.
const IN_DIRECTORY: u32 = 64;

/// The one reading of all events, and the term of all leases.
const NOW: u64 = 1;

const TERM: u64 = 1_000_000;

const SESSION: Session = Session(1);

/// A server gets so many files, and then so many questions or so many files more.
pub fn run(alloc: Global, files: u32, rounds: u32, makes: bool) -> Result<(), CoreError> {
    let mut server = ServerCore::new(alloc, 0, 0, TERM)?;
    let done = run_at(alloc, &mut server, files, rounds, makes);
    drop(server);
    done
}

/// Makes so many files at this server, and then asks so many questions or makes so many files more.
fn run_at(
    alloc: Global,
    server: &mut ServerCore,
    files: u32,
    rounds: u32,
    makes: bool,
) -> Result<(), CoreError> {
    let mut dir = FileId::root(alloc);
    for k in 0..files {
        if k % IN_DIRECTORY == 0 {
            dir = made(alloc, server, &FileId::root(alloc), k, Kind::Dir)?;
        }
        made(alloc, server, &dir, k, Kind::File)?;
    }
    for k in 0..rounds {
        if makes {
            made(alloc, server, &dir, k.saturating_add(files), Kind::File)?;
        } else {
            asked(alloc, server, &dir, k)?;
        }
    }
    Ok(())
}

/// Asks for what a create stands on, and gives the leases back.
fn asked(alloc: Global, server: &mut ServerCore, dir: &FileId, k: u32) -> Result<(), CoreError> {
    let (grants, _) = granted(alloc, server, dir, k)?;
    released(alloc, server, grants.as_slice())
}

/// Makes a file of that number: asks for the leases, hands in the create, and gives the leases back.
fn made(
    alloc: Global,
    server: &mut ServerCore,
    dir: &FileId,
    k: u32,
    kind: Kind,
) -> Result<FileId, CoreError> {
    let (grants, fresh) = granted(alloc, server, dir, k)?;
    let entry = Entry {
        n: u64::from(k) + 1,
        op: Op::Create {
            dir: dir.copy(alloc)?,
            name: name_of(alloc, k)?,
            kind,
            id: Some(fresh.copy(alloc)?),
        },
        reply: Reply::Made,
        uses: uses_of(alloc, grants.as_slice())?,
    };
    let mut entries = List::new(alloc);
    entries.push(entry)?;
    hears(alloc, server, ClientMsg::Ship { entries })?;
    released(alloc, server, grants.as_slice())?;
    Ok(fresh)
}

/// The leases that a create of that number stands on, and the identifier of the new file.
fn granted(
    alloc: Global,
    server: &mut ServerCore,
    dir: &FileId,
    k: u32,
) -> Result<(List<Grant>, FileId), CoreError> {
    let mut items = List::new(alloc);
    let life = Field::Life(dir.copy(alloc)?);
    items.push((life, LeaseKind::Shared))?;
    let child = Field::Child(dir.copy(alloc)?, name_of(alloc, k)?);
    items.push((child, LeaseKind::Exclusive))?;
    let ask = ClientMsg::Ask {
        items,
        fresh: Some(dir.copy(alloc)?),
    };
    let out = told(alloc, server, ask)?;
    let given = given(alloc, out.send.as_slice());
    drop(out);
    Ok(given?)
}

/// Copies of the leases that the last message gives, and of the fresh identifier.
fn given(alloc: Global, send: &[(Peer, Msg)]) -> Result<(List<Grant>, FileId), Memory> {
    match send.last() {
        Some((_, Msg::Answer(answer))) => given_by(alloc, answer),
        _ => Ok((List::new(alloc), FileId::root(alloc))),
    }
}

fn given_by(alloc: Global, answer: &Answer) -> Result<(List<Grant>, FileId), Memory> {
    match answer {
        Answer::Granted {
            grants,
            fresh,
            end: _,
        } => zip_ok(grants.copy(alloc)?, id_or_root(alloc, fresh)),
        _ => Ok((List::new(alloc), FileId::root(alloc))),
    }
}

/// A copy of the identifier, or the root.
fn id_or_root(alloc: Global, id: &Option<FileId>) -> Result<FileId, Memory> {
    match id {
        Some(id) => id.copy(alloc),
        None => Ok(FileId::root(alloc)),
    }
}

/// The leases go back.
fn released(alloc: Global, server: &mut ServerCore, grants: &[Grant]) -> Result<(), CoreError> {
    let mut pairs = List::new(alloc);
    for grant in grants {
        pairs.push((grant.field.file().copy(alloc)?, grant.no))?;
    }
    hears(alloc, server, ClientMsg::Release { pairs })
}

/// The server is told the message, and what it sends is let go.
fn hears(alloc: Global, server: &mut ServerCore, message: ClientMsg) -> Result<(), CoreError> {
    drop(told(alloc, server, message)?);
    Ok(())
}

/// What comes of the message at the server.
fn told(
    alloc: Global,
    server: &mut ServerCore,
    message: ClientMsg,
) -> Result<ServerOut, CoreError> {
    let event = ServerEvent::FromClient(SESSION, message);
    let out = server.step(alloc, NOW, &event);
    drop(event);
    out
}

/// The leases as an entry names them.
fn uses_of(alloc: Global, grants: &[Grant]) -> Result<List<Use>, Memory> {
    let mut uses = List::new(alloc);
    for grant in grants {
        uses.push(Use {
            field: grant.field.copy(alloc)?,
            kind: grant.kind,
            no: grant.no,
            until: grant.until,
        })?;
    }
    Ok(uses)
}

/// The name of that number.
fn name_of(alloc: Global, k: u32) -> Result<Name, Memory> {
    let text = format!(in alloc; "f{k}")?;
    match Name::new(alloc, text.as_bytes()) {
        Ok(name) => Ok(name),
        Err(_) => Err(Memory),
    }
}
