//! What pieces give, and maps before and after they take them.
ghost use Rattle.std.specs.Prelude.{IfOk};
ghost use Rattle.fs_map.specs.Map.{IsPiece};

use crate::map::{gives, tells, tells_and_goes};
use crate::{same, spend};
use fs_ident::{FileId, List};
use fs_map::{FileMap, MapPiece};
use std::alloc::Global;
use std::process::Abort;
use std::test::Fail;

/// All from the root on but what is below its first file, of which the part below the second file there is given.
fn with_a_hole(rt: &impl Abort, alloc: Global) -> Result<MapPiece, Fail>
    ensures { IfOk result (λ p. IsPiece p.prefix p.given) }
{
    let mut s0 = hinted(alloc, "/1", 9, "/1/2", 0)?;
    let root = FileId::root(alloc);
    let owner = s0.owner(&root).1;
    assert!(rt; owner == 0);
    let given = s0.give(alloc, 0, &root, 4);
    spend((s0, root));
    Ok(given?)
}

/// A map that knows of another server there takes the piece.
fn is_taken_beside_others(
    rt: &impl Abort,
    alloc: Global,
    map: &mut FileMap,
    piece: &MapPiece,
) -> Result<(), Fail>
    requires { IsPiece piece.now.prefix piece.now.given }
{
    hint(alloc, map, "/1", 3)?;
    map.take(alloc, 4, piece)?;
    tells(rt, alloc, map, "/ s4, /1 s3, /1/2 s4, ")
}

fn is_taken_by_first(rt: &impl Abort, alloc: Global, piece: &MapPiece) -> Result<(), Fail>
    requires { IsPiece piece.now.prefix piece.now.given }
{
    let mut map = FileMap::new(alloc)?;
    let done = is_taken_beside_others(rt, alloc, &mut map, piece);
    spend(map);
    done
}

#[test]
fn what_is_not_given_stays_as_it_was_known(rt: HostRuntime) -> Result<(), Fail> {
    let piece = with_a_hole(&rt, rt.alloc())?;
    let done = is_taken_by_first(&rt, rt.alloc(), &piece);
    spend(piece);
    done
}

/// A map that takes the piece, and gives it up where not `kept`.
fn takes(
    alloc: Global,
    map: &mut FileMap,
    me: u8,
    piece: &MapPiece,
    kept: bool,
) -> Result<FileMap, Fail>
    requires { IsPiece piece.now.prefix piece.now.given }
{
    let taking = map.begin_take(alloc, me, piece)?;
    Ok(if kept {
        taking.finish()
    } else {
        taking.give_up()
    })
}

/// What the map, which takes the piece and gives it up, comes to; then what it does where it keeps the piece.
fn gives_up_and_keeps(
    rt: &impl Abort,
    alloc: Global,
    map: &mut FileMap,
    piece: &MapPiece,
) -> Result<(), Fail>
    requires { IsPiece piece.now.prefix piece.now.given }
{
    hint(alloc, map, "/1", 1)?;
    hint(alloc, map, "/5", 1)?;
    let mut same_map = takes(alloc, map, 7, piece, false)?;
    let done = keeps(rt, alloc, &mut same_map, piece);
    spend(same_map);
    done
}

/// The map, which has given up the piece, takes it.
fn keeps(rt: &impl Abort, alloc: Global, map: &mut FileMap, piece: &MapPiece) -> Result<(), Fail>
    requires { IsPiece piece.now.prefix piece.now.given }
{
    tells(rt, alloc, map, "/ s0, /1 s1, /3 s2, /3/4 s1, /5 s1, ")?;
    let changed = takes(alloc, map, 7, piece, true)?;
    tells_and_goes(rt, alloc, changed, "/ s0, /1 s1, /3 s7, /5 s1, ")
}

fn changes(rt: &impl Abort, alloc: Global, piece: &MapPiece) -> Result<(), Fail>
    requires { IsPiece piece.now.prefix piece.now.given }
{
    let mut map = hinted(alloc, "/3", 2, "/3/4", 1)?;
    let done = gives_up_and_keeps(rt, alloc, &mut map, piece);
    spend(map);
    done
}

#[test]
fn a_change_is_made_or_given_up(rt: HostRuntime) -> Result<(), Fail> {
    let piece = listed(rt.alloc(), "/3", &[("/3", true)])?;
    assert!(rt; piece.is_piece());
    let done = changes(&rt, rt.alloc(), &piece);
    spend(piece);
    done
}

/// What the server of the root has.
fn piece_of_all(alloc: Global, map: &FileMap, me: u8) -> Result<MapPiece, Fail> {
    let root = FileId::root(alloc);
    let piece = piece_from(alloc, map, me, &root);
    spend(root);
    piece
}

fn piece_from(alloc: Global, map: &FileMap, me: u8, prefix: &FileId) -> Result<MapPiece, Fail> {
    if map.owner(prefix).1 != me {
        return Err(Fail::from("it is another's"));
    }
    Ok(map.piece(alloc, me, prefix)?)
}

/// A map where the first server has all but what is below the first file, of which it has what is below the second file
/// there.
fn tells_piece(rt: &impl Abort, alloc: Global, map: &FileMap) -> Result<(), Fail> {
    let told = piece_of_all(alloc, map, 0)?;
    let done = gives(rt, alloc, &told, "/ true, /1 false, /1/2 true, ");
    spend(told);
    done?;
    tells(rt, alloc, map, "/ s0, /1 s3, /1/2 s0, ")
}

#[test]
fn a_piece_is_told_before_it_is_given(rt: HostRuntime) -> Result<(), Fail> {
    let map = hinted(rt.alloc(), "/1", 3, "/1/2", 0)?;
    let done = tells_piece(&rt, rt.alloc(), &map);
    spend(map);
    done
}

/// A server, and whether something of the piece is its, after these two hints to a map where all is server 0's.
const OWNED: [(&str, u8, &str, u8, u8, bool); 4] = [
    ("/", 0, "/", 0, 0, true),
    ("/", 0, "/", 0, 1, false),
    ("/", 3, "/1", 0, 0, true),
    ("/1/2", 3, "/1", 0, 3, false),
];

/// The map takes a hint.
fn hint(alloc: Global, map: &mut FileMap, prefix: &str, to: u8) -> Result<(), Fail> {
    let prefix = FileId::parse(alloc, prefix.as_bytes())?;
    let done = map.hint(alloc, &prefix, to);
    spend(prefix);
    Ok(done?)
}

/// The map takes two hints.
fn hint_twice(
    alloc: Global,
    map: &mut FileMap,
    (first, to): (&str, u8),
    (second, next_to): (&str, u8),
) -> Result<(), Fail> {
    hint(alloc, map, first, to)?;
    hint(alloc, map, second, next_to)
}

/// A map after two hints.
fn hinted(alloc: Global, first: &str, to: u8, second: &str, next_to: u8) -> Result<FileMap, Fail> {
    let mut map = FileMap::new(alloc)?;
    match hint_twice(alloc, &mut map, (first, to), (second, next_to)) {
        Ok(()) => Ok(map),
        Err(fail) => {
            spend(map);
            Err(fail)
        }
    }
}

/// Each server owns something of the piece or not.
fn is_owned(rt: &impl Abort, alloc: Global, piece: &MapPiece) -> Result<(), Fail>
    requires { IsPiece piece.now.prefix piece.now.given }
{
    for (first, to, second, next_to, me, owned) in OWNED {
        let map = hinted(alloc, first, to, second, next_to)?;
        let owns = map.owns_given(me, piece);
        spend(map);
        same(rt, owns, owned);
    }
    Ok(())
}

#[test]
fn what_is_given_has_owners(rt: HostRuntime) -> Result<(), Fail> {
    let piece = with_a_hole(&rt, rt.alloc())?;
    let done = is_owned(&rt, rt.alloc(), &piece);
    spend(piece);
    done
}

const GIVEN: [(&str, bool); 4] = [
    ("/", true),
    ("/1", false),
    ("/1/2/9", true),
    ("/1/3", false),
];

/// Whether the piece gives the identifier, as both calls tell.
fn is_given(alloc: Global, piece: &MapPiece, id: &str) -> Result<(bool, bool), Fail>
    requires { IsPiece piece.now.prefix piece.now.given }
{
    let id = FileId::parse(alloc, id.as_bytes())?;
    let found = (piece.gives(&id), piece.finds(&id));
    spend(id);
    Ok(found)
}

/// The piece gives each identifier or not.
fn tells_what_is_given(rt: &impl Abort, alloc: Global, piece: &MapPiece) -> Result<(), Fail>
    requires { IsPiece piece.now.prefix piece.now.given }
{
    for (id, given) in GIVEN {
        same(rt, is_given(alloc, piece, id)?, (given, given));
    }
    Ok(())
}

#[test]
fn a_piece_tells_what_is_given(rt: HostRuntime) -> Result<(), Fail> {
    let piece = with_a_hole(&rt, rt.alloc())?;
    let done = tells_what_is_given(&rt, rt.alloc(), &piece);
    spend(piece);
    done
}

/// A prefix, places with what they tell, whether they are in order, and whether they are a piece of the prefix.
const LISTS: [(&str, &[(&str, bool)], bool, bool); 8] = [
    ("/1", &[("/1", true)], true, true),
    ("/1", &[], true, false),
    ("/1", &[("/1/2", true)], true, false),
    ("/", &[("/", true), ("/1", true)], true, false),
    (
        "/",
        &[("/", true), ("/1", false), ("/1/2", true)],
        true,
        true,
    ),
    (
        "/",
        &[("/", true), ("/1/2", false), ("/1", false)],
        false,
        false,
    ),
    ("/1", &[("/1", true), ("/1", false)], false, false),
    ("/1", &[("/1", true), ("/2", false)], true, false),
];

/// The list as it stands, which may be none of a piece.
fn listed(alloc: Global, prefix: &str, places: &[(&str, bool)]) -> Result<MapPiece, Fail> {
    let mut given = List::new(alloc);
    match prefix_and_places(alloc, prefix, places, &mut given) {
        Ok(prefix) => Ok(MapPiece { prefix, given }),
        Err(fail) => {
            spend(given);
            Err(fail)
        }
    }
}

/// The prefix, after the places are added to the list.
fn prefix_and_places(
    alloc: Global,
    prefix: &str,
    places: &[(&str, bool)],
    given: &mut List<(FileId, bool)>,
) -> Result<FileId, Fail> {
    for (place, value) in places {
        given.push((FileId::parse(alloc, place.as_bytes())?, *value))?;
    }
    Ok(FileId::parse(alloc, prefix.as_bytes())?)
}

#[test]
fn the_shortest_list_alone_is_a_piece(rt: HostRuntime) -> Result<(), Fail> {
    let alloc = rt.alloc();
    for (prefix, places, ordered, shortest) in LISTS {
        let piece = listed(alloc, prefix, places)?;
        let found = (piece.is_in_order(), piece.is_piece());
        spend(piece);
        same(&rt, found, (ordered, shortest));
    }
    Ok(())
}
