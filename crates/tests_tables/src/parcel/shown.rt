//! What servers have, in a few words.
use crate::forms::{add, kept, reads, spend};
use crate::parcel::{Server, piece};
use fs_field::Row;
use fs_ident::FileId;
use fs_map::MapPiece;
use fs_record::{Parcel, Record};
use std::alloc::Global;
use std::process::Abort;
use std::test::Fail;

/// So the server is written.
pub(super) fn is_written(
    rt: &impl Abort,
    alloc: Global,
    s: &Server,
    wanted: &str,
) -> Result<(), Fail> {
    reads(rt, server_text(alloc, s)?, wanted);
    Ok(())
}

/// Which identifiers the parcel gives, its files with how many names are in each, and the numbers of its rows.
pub(super) fn parcel_text(alloc: Global, p: &Parcel) -> Result<String, Fail> {
    let mut text = String::new(alloc);
    let done = add_parcel(alloc, &mut text, p);
    kept(text, done)
}

fn add_parcel(alloc: Global, text: &mut String, p: &Parcel) -> Result<(), Fail> {
    add_given(alloc, text, p.piece.given.as_slice())?;
    text.push_str("| ")?;
    add_records(alloc, text, p.records.as_slice())?;
    text.push_str("| ")?;
    add_rows(alloc, text, p.rows.as_slice())
}

/// The server's map, its files with how many names are in each, and the numbers of its rows in each table.
pub(super) fn server_text(alloc: Global, s: &Server) -> Result<String, Fail> {
    let all = piece(alloc, "/", &[("/", true)])?;
    let text = text_in(alloc, s, &all);
    spend(all);
    text
}

/// The server's part of the piece: its map, its files, and the numbers of its rows in each table.
fn text_in(alloc: Global, s: &Server, all: &MapPiece) -> Result<String, Fail> {
    let mut text = String::new(alloc);
    let done = add_server(alloc, &mut text, s, all);
    kept(text, done)
}

fn add_server(alloc: Global, text: &mut String, s: &Server, all: &MapPiece) -> Result<(), Fail> {
    add_map(alloc, text, s.map.listed().as_slice())?;
    text.push_str("| ")?;
    add_files(alloc, text, s, all)?;
    text.push_str("| ")?;
    add_off(alloc, text, s, all)?;
    text.push_str("| ")?;
    add_on(alloc, text, s, all)
}

fn add_files(alloc: Global, text: &mut String, s: &Server, all: &MapPiece) -> Result<(), Fail> {
    let records = s.records.given(alloc, all)?;
    let done = add_records(alloc, text, records.as_slice());
    spend(records);
    done
}

fn add_off(alloc: Global, text: &mut String, s: &Server, all: &MapPiece) -> Result<(), Fail> {
    let rows = s.rows.live(0, 1).given(alloc, all)?;
    let done = add_rows(alloc, text, rows.as_slice());
    spend(rows);
    done
}

fn add_on(alloc: Global, text: &mut String, s: &Server, all: &MapPiece) -> Result<(), Fail> {
    let rows = s.modes.live(0, 1).given(alloc, all)?;
    let done = add_rows(alloc, text, rows.as_slice());
    spend(rows);
    done
}

fn add_given(alloc: Global, text: &mut String, places: &[(FileId, bool)]) -> Result<(), Fail> {
    for (place, given) in places {
        add(text, format!(in alloc; "{place} {given} ")?)?;
    }
    Ok(())
}

fn add_map(alloc: Global, text: &mut String, places: &[(FileId, u8)]) -> Result<(), Fail> {
    for (place, server) in places {
        add(text, format!(in alloc; "{place} s{server} ")?)?;
    }
    Ok(())
}

fn add_records(alloc: Global, text: &mut String, records: &[(FileId, Record)]) -> Result<(), Fail> {
    for (file, record) in records {
        let names = record.node.children.len();
        add(text, format!(in alloc; "{file}:{names} ")?)?;
    }
    Ok(())
}

fn add_rows(alloc: Global, text: &mut String, rows: &[Row]) -> Result<(), Fail> {
    for row in rows {
        add(text, format!(in alloc; "{} ", row.no.count)?)?;
    }
    Ok(())
}
