//! What becomes of path leases is carried out: all of it, or nothing.
ghost use Rattle.std.specs.Prelude.{◌≡◌, ◌+◌, ◌<◌, ◌^◌, ◌++◌, [], ◌∷◌, not, OnOk, OnErr};
ghost use Rattle.std.specs.List.{filter, list_any};
ghost use Rattle.fs_ident.specs.Ident.{same};
ghost use Rattle.fs_server.specs.Gathered.{begun_at};
ghost use Rattle.fs_server.specs.Grants.{IsReady};
ghost use Rattle.fs_server.specs.PathSteps.{lease_to, with_asking, with_held_path, with_path, without_asking};
ghost use Rattle.fs_server.specs.Plan.{changed};
ghost use Rattle.fs_server.specs.declared.change.Change.TheVariants.{Paths};

use crate::path_change::PathChange;
use crate::state::Server;
use fs_ident::{FileId, List, Memory, PathNo, add_copy};
use std::alloc::Global;

/// The rows that are over at the reading are dropped, and the change is carried out.
pub(crate) fn change_paths(
    alloc: Global,
    server: &mut Server,
    reading: u64,
    change: PathChange,
) -> Result<(), Memory>
    requires { IsReady (changed (Paths change) (begun_at reading server.old)) }
    ensures ok { OnOk result (server.new ≡
        changed (Paths change) (begun_at reading server.old)) }
    ensures err { OnErr result (server.new ≡ server.old) }
{
    match change {
        PathChange::Ask { file } => ask(server, file)?,
        PathChange::Stop { file } => stop(server.asking.items_mut(), &file),
        PathChange::Give { to, file, above } => give(alloc, server, to, &file, above)?,
        PathChange::Keep {
            from,
            no,
            file,
            path,
        } => keep(alloc, server, from, no, &file, &path)?,
        PathChange::Recall { no } => server.paths.recall(no),
        PathChange::Back { no } => server.paths.release(no),
        PathChange::AskBack { prefix } => server.paths.ask_back(&prefix, &server.map, server.me),
    }
    server.rows.lapse(reading, server.skew);
    server.last = reading;
    Ok(())
}

/// The path of the file is asked for.
fn ask(server: &mut Server, file: FileId) -> Result<(), Memory>
    ensures ok { OnOk result (server.new ≡ with_asking file server.old) }
    ensures err { OnErr result (server.new ≡ server.old) }
{
    if is_among(server.asking.as_slice(), &file) {
        return Ok(());
    }
    server.asking.push(file)
}

/// Whether the file is one of these.
pub(crate) fn is_among(files: &[FileId], file: &FileId) -> bool
    ensures { result ≡ list_any (λ f. same f file.now) files.now }
{
    files.iter().any(|f| f == file)
}

/// No answer to what was asked for the path of the file is awaited any more.
fn stop(asking: &mut Vec<FileId>, file: &FileId)
    ensures { asking.new.items ≡ filter (λ f. not (same f file.now)) asking.old.items }
{
    asking.retain(|f| f != file);
}

/// The path of the file, of which that of its directory is `above`, is given out to that server.
fn give(
    alloc: Global,
    server: &mut Server,
    to: u8,
    file: &FileId,
    above: List<FileId>,
) -> Result<(), Memory>
    requires few { server.old.paths_given + 1 < 2 ^ 64 }
    ensures ok { OnOk result (server.new ≡
        with_path (lease_to to file.now above server.old) server.old) }
    ensures err { OnErr result (server.new ≡ server.old) }
{
    let mut path = above;
    add_copy(alloc, &mut path, file)?;
    let no = PathNo {
        server: server.me,
        count: server.paths_given + 1,
    };
    server.paths.issue(alloc, no, to, file, &path)?;
    server.paths_given += 1;
    Ok(())
}

/// The path of the file comes from that server, and is awaited no more.
fn keep(
    alloc: Global,
    server: &mut Server,
    from: u8,
    no: PathNo,
    file: &FileId,
    path: &List<FileId>,
) -> Result<(), Memory>
    ensures ok { OnOk result (server.new ≡ with_held_path
        (record { no = no; peer = from; file = file.now; path = path.now })
        (without_asking file.now server.old)) }
    ensures err { OnErr result (server.new ≡ server.old) }
{
    server.paths.granted(alloc, from, no, file, path)?;
    stop(server.asking.items_mut(), file);
    Ok(())
}
