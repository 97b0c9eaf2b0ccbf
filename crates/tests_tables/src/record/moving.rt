//! Records that go with their files, and come again.
ghost use Rattle.std.specs.Prelude.{◌≡◌, ◌+◌};
ghost use Rattle.fs_record.specs.Records.{IsRecord};

use crate::forms::{add, kept, kept_by, one, reads, same, spend, with};
use crate::parcel::{id, piece as pieces};
use fs_ident::{FileId, Kind};
use fs_map::MapPiece;
use fs_model::Node;
use fs_record::{Record, Records};
use std::alloc::Global;
use std::process::Abort;
use std::test::Fail;

/// The files of the records that move.
const FILES: &[&str] = &["/", "/1", "/1/2", "/1/2/5", "/1/3", "/10", "/2"];

/// The record of a directory in which so many files were made.
fn directory(alloc: Global, made: u32) -> Record
    ensures record { IsRecord result }
    ensures next { result.next ≡ made + 1 }
{
    Record {
        node: Node::new(alloc, Kind::Dir, None),
        next: u64::from(made) + 1,
    }
}

/// The record of the file, in which so many files were made, if more were not made before.
fn put_new(alloc: Global, records: &mut Records, file: FileId, made: u32) -> Result<(), Fail> {
    if u64::from(made) + 1 < records.next_number(&file) {
        return Ok(());
    }
    records.put(file, directory(alloc, made))?;
    Ok(())
}

/// The records of these files, each with another next number.
fn put_each(alloc: Global, records: &mut Records, files: &[&str]) -> Result<(), Fail> {
    let mut made = 0u32;
    for file in files {
        let file = id(alloc, file)?;
        put_new(alloc, records, file, made)?;
        made = made.wrapping_add(1);
    }
    Ok(())
}

fn tree(alloc: Global) -> Result<Records, Fail> {
    let mut records = Records::new(alloc, false)?;
    let done = put_each(alloc, &mut records, FILES);
    kept(records, done)
}

/// All from the prefix on, but for what is below the second file, unless that is the prefix too.
fn piece(alloc: Global, prefix: &str, but: &str) -> Result<MapPiece, Fail> {
    if but == prefix {
        return pieces(alloc, prefix, &[(prefix, true)]);
    }
    pieces(alloc, prefix, &[(prefix, true), (but, false)])
}

/// The files with their next numbers.
fn numbered(alloc: Global, moved: &[(FileId, Record)]) -> Result<String, Fail> {
    let mut text = String::new(alloc);
    let done = add_numbers(alloc, &mut text, moved);
    kept(text, done)
}

fn add_numbers(alloc: Global, text: &mut String, moved: &[(FileId, Record)]) -> Result<(), Fail> {
    for (file, record) in moved {
        add(text, format!(in alloc; "{file}:{} ", record.next)?)?;
    }
    Ok(())
}

/// All records, as the whole piece gives them.
fn all_numbered(alloc: Global, records: &Records) -> Result<String, Fail> {
    let all = piece(alloc, "/", "/")?;
    let given = records.given(alloc, &all);
    spend(all);
    let given = given?;
    let text = numbered(alloc, given.as_slice());
    spend(given);
    text
}

/// The prefix, what below it stays, the files that go with their next numbers, and those that are left.
type Move = (&'static str, &'static str, &'static str, &'static str);

const MOVES: &[Move] = &[
    (
        "/1",
        "/1",
        "/1:2 /1/2:3 /1/2/5:4 /1/3:5 ",
        "/:1 /2:7 /10:6 ",
    ),
    (
        "/1",
        "/1/2",
        "/1:2 /1/3:5 ",
        "/:1 /1/2:3 /1/2/5:4 /2:7 /10:6 ",
    ),
    (
        "/1/2/5",
        "/1/2/5",
        "/1/2/5:4 ",
        "/:1 /1:2 /1/2:3 /1/3:5 /2:7 /10:6 ",
    ),
    (
        "/9",
        "/9",
        "",
        "/:1 /1:2 /1/2:3 /1/2/5:4 /1/3:5 /2:7 /10:6 ",
    ),
    ("/", "/1", "/:1 /2:7 /10:6 ", "/1:2 /1/2:3 /1/2/5:4 /1/3:5 "),
];

const ALL: &str = "/:1 /1:2 /1/2:3 /1/2/5:4 /1/3:5 /2:7 /10:6 ";

/// What went, and what is left.
fn went_and_left(
    alloc: Global,
    records: &Records,
    moved: &[(FileId, Record)],
) -> Result<(String, String), Fail> {
    let went = numbered(alloc, moved)?;
    with(went, all_numbered(alloc, records))
}

/// The records of files that the piece gives go, and come again; tells what went and what was left.
fn moved_and_back(
    alloc: Global,
    records: &mut Records,
    piece: &MapPiece,
) -> Result<(String, String), Fail> {
    let moved = records.split(alloc, piece)?;
    let told = went_and_left(alloc, records, moved.as_slice());
    let done = records.join(alloc, moved);
    let told = told?;
    kept_by(told, done)
}

/// The records of files that the piece gives go and come again, these go, and those are left.
fn moves(
    rt: &impl Abort,
    alloc: Global,
    records: &mut Records,
    piece: &MapPiece,
    (goes, stays): (&str, &str),
) -> Result<(), Fail> {
    same(rt, records.has_given(piece), !goes.is_empty());
    let (went, left) = moved_and_back(alloc, records, piece)?;
    reads(rt, went, goes);
    reads(rt, left, stays);
    Ok(())
}

fn move_each(
    rt: &impl Abort,
    alloc: Global,
    records: &mut Records,
    cases: &[Move],
) -> Result<(), Fail> {
    for (prefix, but, goes, stays) in cases {
        let piece = piece(alloc, prefix, but)?;
        let done = moves(rt, alloc, records, &piece, (goes, stays));
        spend(piece);
        done?;
        all_are(rt, alloc, records, ALL)?;
    }
    Ok(())
}

#[test]
fn records_go_and_come(rt: HostRuntime) -> Result<(), Fail> {
    let mut records = tree(rt.alloc())?;
    let done = move_each(&rt, rt.alloc(), &mut records, MOVES);
    spend(records);
    done
}

/// So all records are written.
fn all_are(rt: &impl Abort, alloc: Global, records: &Records, wanted: &str) -> Result<(), Fail> {
    reads(rt, all_numbered(alloc, records)?, wanted);
    Ok(())
}

/// The records that the piece gives are dropped.
fn drop_given(alloc: Global, records: &mut Records, piece: &MapPiece) -> Result<(), Fail> {
    let moved = records.given(alloc, piece)?;
    records.leave_these(piece, &moved);
    spend(moved);
    Ok(())
}

/// The deepest record, which is read first, is dropped.
fn drop_deepest(alloc: Global, records: &mut Records) -> Result<(), Fail> {
    let deepest = piece(alloc, "/1/2/5", "/1/2/5")?;
    let done = drop_given(alloc, records, &deepest);
    spend(deepest);
    done
}

/// The record of the file is dropped.
fn drop_file(alloc: Global, records: &mut Records, file: &str) -> Result<(), Fail> {
    let files = one(alloc, id(alloc, file)?)?;
    records.leave_files(&files);
    spend(files);
    Ok(())
}

fn drops(rt: &impl Abort, alloc: Global, records: &mut Records) -> Result<(), Fail> {
    drop_deepest(alloc, records)?;
    all_are(rt, alloc, records, "/:1 /1:2 /1/2:3 /1/3:5 /2:7 /10:6 ")?;
    drop_file(alloc, records, "/1/2")?;
    all_are(rt, alloc, records, "/:1 /1:2 /1/3:5 /2:7 /10:6 ")
}

#[test]
fn records_are_dropped(rt: HostRuntime) -> Result<(), Fail> {
    let mut records = tree(rt.alloc())?;
    let done = drops(&rt, rt.alloc(), &mut records);
    spend(records);
    done
}
