//! Worked maps.
ghost use Rattle.std.specs.Prelude.{IfOk};
ghost use Rattle.fs_map.specs.Map.{IsPiece};

mod pieces;

use crate::{same, spend};
use fs_ident::{DEPTH, FileId, Twin};
use fs_map::{FileMap, MapPiece};
use std::alloc::Global;
use std::process::Abort;
use std::test::Fail;

/// The line is added to the text.
fn add(text: &mut String, line: String) -> Result<(), Fail> {
    text.push_str(&line)?;
    Ok(())
}

/// The prefixes of a map with their servers.
fn text(alloc: Global, map: &FileMap) -> Result<String, Fail> {
    let mut text = String::new(alloc);
    for (prefix, server) in map.listed().as_slice() {
        add(&mut text, format!(in alloc; "{prefix} s{server}, ")?)?;
    }
    Ok(text)
}

/// The prefixes of a piece, and whether they are given.
fn piece_text(alloc: Global, piece: &MapPiece) -> Result<String, Fail> {
    let mut text = String::new(alloc);
    for (prefix, given) in piece.given.as_slice() {
        add(&mut text, format!(in alloc; "{prefix} {given}, ")?)?;
    }
    Ok(text)
}

/// The prefixes of a map with their servers are these.
pub(crate) fn tells(
    rt: &impl Abort,
    alloc: Global,
    map: &FileMap,
    wanted: &str,
) -> Result<(), Fail> {
    let text = text(alloc, map)?;
    same(rt, text.as_str(), wanted);
    Ok(())
}

/// The prefixes of a map that is let go, with their servers, are these.
pub(crate) fn tells_and_goes(
    rt: &impl Abort,
    alloc: Global,
    map: FileMap,
    wanted: &str,
) -> Result<(), Fail> {
    let done = tells(rt, alloc, &map, wanted);
    spend(map);
    done
}

/// The prefixes of a piece are these.
pub(crate) fn gives(
    rt: &impl Abort,
    alloc: Global,
    piece: &MapPiece,
    wanted: &str,
) -> Result<(), Fail> {
    let text = piece_text(alloc, piece)?;
    same(rt, text.as_str(), wanted);
    Ok(())
}

/// A server gives what it has below the prefix.
fn given(alloc: Global, from: &mut FileMap, me: u8, prefix: &str, you: u8) -> Result<MapPiece, Fail>
    ensures { IfOk result (λ p. IsPiece p.prefix p.given) }
{
    let prefix = FileId::parse(alloc, prefix.as_bytes())?;
    let piece = given_from(alloc, from, me, &prefix, you);
    spend(prefix);
    piece
}

fn given_from(
    alloc: Global,
    from: &mut FileMap,
    me: u8,
    prefix: &FileId,
    you: u8,
) -> Result<MapPiece, Fail>
    ensures { IfOk result (λ p. IsPiece p.prefix p.given) }
{
    if from.owner(prefix).1 != me {
        return Err(Fail::from("it is another's"));
    }
    Ok(from.give(alloc, me, prefix, you)?)
}

/// What is given, and both maps after another took it.
fn passes(
    rt: &impl Abort,
    alloc: Global,
    (from, me): (&mut FileMap, u8),
    prefix: &str,
    (to, you): (&mut FileMap, u8),
    wanted: &[&str; 3],
) -> Result<(), Fail> {
    let piece = given(alloc, from, me, prefix, you)?;
    let done = is_taken(rt, alloc, to, you, &piece, wanted[0]);
    spend(piece);
    done?;
    tells(rt, alloc, from, wanted[1])?;
    tells(rt, alloc, to, wanted[2])
}

/// The server takes the piece, which gives this.
fn is_taken(
    rt: &impl Abort,
    alloc: Global,
    to: &mut FileMap,
    you: u8,
    piece: &MapPiece,
    wanted: &str,
) -> Result<(), Fail>
    requires { IsPiece piece.now.prefix piece.now.given }
{
    to.take(alloc, you, piece)?;
    gives(rt, alloc, piece, wanted)
}

/// To which server one who asks for the first file below the root is sent, and then from there.
fn sends(
    rt: &impl Abort,
    alloc: Global,
    asked: &FileMap,
    asked_next: &FileMap,
) -> Result<(), Fail> {
    let id = FileId::parse(alloc, b"/1")?;
    let owners = (asked.owner(&id).1, asked_next.owner(&id).1);
    spend(id);
    same(rt, owners, (0, 1));
    Ok(())
}

fn three_servers_pass(
    rt: &impl Abort,
    alloc: Global,
    s0: &mut FileMap,
    s1: &mut FileMap,
    s2: &mut FileMap,
) -> Result<(), Fail> {
    passes(rt, alloc, (s0, 0), "/1", (s1, 1), &FIRST)?;
    passes(rt, alloc, (s1, 1), "/1/2", (s0, 0), &SECOND)?;
    passes(rt, alloc, (s0, 0), "/", (s2, 2), &THIRD)?;
    sends(rt, alloc, s2, s0)?;
    passes(rt, alloc, (s2, 2), "/", (s1, 1), &FOURTH)
}

/// A third server beside the two.
fn third_server_passes(
    rt: &impl Abort,
    alloc: Global,
    s0: &mut FileMap,
    s1: &mut FileMap,
) -> Result<(), Fail> {
    let mut s2 = FileMap::new(alloc)?;
    let done = three_servers_pass(rt, alloc, s0, s1, &mut s2);
    spend(s2);
    done
}

/// A second server beside the first.
fn second_server_passes(rt: &impl Abort, alloc: Global, s0: &mut FileMap) -> Result<(), Fail> {
    let mut s1 = FileMap::new(alloc)?;
    let done = third_server_passes(rt, alloc, s0, &mut s1);
    spend(s1);
    done
}

#[test]
fn three_servers(rt: HostRuntime) -> Result<(), Fail> {
    let mut s0 = FileMap::new(rt.alloc())?;
    let done = second_server_passes(&rt, rt.alloc(), &mut s0);
    spend(s0);
    done
}

const FIRST: [&str; 3] = ["/1 true, ", "/ s0, /1 s1, ", "/ s0, /1 s1, "];

const SECOND: [&str; 3] = [
    "/1/2 true, ",
    "/ s0, /1 s1, /1/2 s0, ",
    "/ s0, /1 s1, /1/2 s0, ",
];

const THIRD: [&str; 3] = [
    "/ true, /1 false, /1/2 true, ",
    "/ s2, /1 s1, /1/2 s2, ",
    "/ s2, /1 s0, /1/2 s2, ",
];

const FOURTH: [&str; 3] = [
    "/ true, /1 false, /1/2 true, ",
    "/ s1, /1 s0, /1/2 s1, ",
    "/ s1, ",
];

/// The prefix and the server of a hint, and the map after it. Neighbours alike are one entry, and what is known changes
/// nothing.
const HINTS: [(&str, u8, &str); 8] = [
    ("/", 0, "/ s0, "),
    ("/1", 1, "/ s0, /1 s1, "),
    ("/1/2", 1, "/ s0, /1 s1, "),
    ("/1/2/3", 2, "/ s0, /1 s1, /1/2/3 s2, "),
    ("/3", 1, "/ s0, /1 s1, /1/2/3 s2, /3 s1, "),
    ("/1/2", 0, "/ s0, /1 s1, /1/2 s0, /3 s1, "),
    ("/1", 0, "/ s0, /3 s1, "),
    ("/", 1, "/ s1, "),
];

fn takes_hint(
    rt: &impl Abort,
    alloc: Global,
    map: &mut FileMap,
    prefix: &FileId,
    to: u8,
    wanted: &str,
) -> Result<(), Fail> {
    tells_and_goes(rt, alloc, map.with_hint(alloc, prefix, to)?, wanted)?;
    map.hint(alloc, prefix, to)?;
    tells(rt, alloc, map, wanted)
}

fn takes_hints(rt: &impl Abort, alloc: Global, map: &mut FileMap) -> Result<(), Fail> {
    for (prefix, to, wanted) in &HINTS {
        let prefix = FileId::parse(alloc, prefix.as_bytes())?;
        let done = takes_hint(rt, alloc, map, &prefix, *to, wanted);
        spend(prefix);
        done?;
    }
    Ok(())
}

#[test]
fn hints(rt: HostRuntime) -> Result<(), Fail> {
    let mut map = FileMap::new(rt.alloc())?;
    let done = takes_hints(&rt, rt.alloc(), &mut map);
    spend(map);
    done
}

fn hint_deepest(
    rt: &impl Abort,
    alloc: Global,
    map: &mut FileMap,
    root: &FileId,
    deepest: &FileId,
) -> Result<(), Fail> {
    same(rt, map.owner(deepest), (root, 0));
    map.hint(alloc, deepest, 5)?;
    same(rt, map.owner(deepest), (deepest, 5));
    let twin = map.copy(alloc)?;
    same(rt, twin.owner(root), (root, 0));
    spend(twin);
    Ok(())
}

/// The deepest identifier is hinted to a new map.
fn hint_to_first(
    rt: &impl Abort,
    alloc: Global,
    root: &FileId,
    deepest: &FileId,
) -> Result<(), Fail> {
    let mut map = FileMap::new(alloc)?;
    let done = hint_deepest(rt, alloc, &mut map, root, deepest);
    spend(map);
    done
}

/// The deepest identifier.
fn deepest(alloc: Global) -> Result<FileId, Fail> {
    let text = b"/7".repeat(alloc, DEPTH)?;
    let deepest = FileId::parse(alloc, &text);
    spend(text);
    Ok(deepest?)
}

/// The root and the deepest identifier.
#[test]
fn from_the_root_to_the_deepest(rt: HostRuntime) -> Result<(), Fail> {
    let deepest = deepest(rt.alloc())?;
    let root = FileId::root(rt.alloc());
    let done = hint_to_first(&rt, rt.alloc(), &root, &deepest);
    spend((root, deepest));
    done
}
