//! Parcels made by hand, and servers that they come to.
ghost use Rattle.std.specs.Prelude.{◌≡◌, true, IfOk, OnOk};
ghost use Rattle.fs_record.specs.Moving.{AreEachRecords};
ghost use Rattle.fs_record.specs.Records.{IsRecord};
ghost use Rattle.fs_parcel.specs.Rows.{AreRows, in_one_list};

mod fitting;
mod moving;
mod one_list;
mod refusing;
mod shown;

use crate::forms::{kept, spend, with};
use crate::moderows::{TXN, WRITES};
use fs_field::{Field, LeaseKind, Row};
use fs_ident::{FileId, Kind, LeaseNo, List, Name, Session, TxnNo};
use fs_map::{FileMap, MapPiece};
use fs_model::{Handle, Node};
use fs_moderows::ModeRows;
use fs_modes::Mode;
use fs_parcel::{fits, install};
use fs_record::{Parcel, Record, Records};
use fs_rows::Rows;
use std::alloc::Global;
use std::test::Fail;

/// What a row is on: the life of a file, which a transaction may keep; whether its session writes a file; and what it
/// was told of others that do.
#[derive(Clone, Copy)]
pub(crate) enum On {
    Life,
    KeptLife,
    Own,
    Others(Option<bool>),
}

/// A row: its number, its session, its file and what it is on.
pub(crate) type Told = (u64, u16, &'static str, On);

/// A record: its file, the names in it, each of one letter, and the sessions that write it.
type Kept = (&'static str, &'static [u8], &'static [u16]);

/// A parcel: its prefix, which identifiers it gives, its records and its rows.
type Sent = (
    &'static str,
    &'static [(&'static str, bool)],
    &'static [Kept],
    &'static [Told],
);

pub(crate) fn id(alloc: Global, text: &str) -> Result<FileId, Fail> {
    Ok(FileId::parse(alloc, text.as_bytes())?)
}

pub(crate) fn row(alloc: Global, (count, session, file, on): Told) -> Result<Row, Fail> {
    Ok(Row {
        no: LeaseNo { server: 0, count },
        session: Session(session),
        field: field(id(alloc, file)?, on),
        kind: kind(on),
        until: 100,
        promise: promise(on),
        lock: lock(on),
    })
}

fn field(file: FileId, on: On) -> Field {
    match on {
        On::Life | On::KeptLife => Field::Life(file),
        On::Own => Field::SelfW(file, Mode::AccW),
        On::Others(_) => Field::Other(file, Mode::AccW),
    }
}

fn kind(on: On) -> LeaseKind {
    match on {
        On::Others(_) => LeaseKind::Shared,
        _ => LeaseKind::Exclusive,
    }
}

fn promise(on: On) -> Option<bool> {
    match on {
        On::Others(promise) => promise,
        _ => None,
    }
}

fn lock(on: On) -> Option<TxnNo> {
    match on {
        On::KeptLife => Some(TXN),
        _ => None,
    }
}

fn record(alloc: Global, names: &[u8], writers: &[u16]) -> Result<Record, Fail> {
    let mut node = Node::new(alloc, Kind::Dir, None);
    let done = fill(alloc, &mut node, names, writers);
    let node = kept(node, done)?;
    Ok(Record { node, next: 1 })
}

fn fill(alloc: Global, node: &mut Node, names: &[u8], writers: &[u16]) -> Result<(), Fail> {
    add_names(alloc, node, names)?;
    add_writers(node, writers)
}

fn add_names(alloc: Global, node: &mut Node, names: &[u8]) -> Result<(), Fail> {
    for letter in names {
        let name = Name::new(alloc, &[*letter])?;
        node.children.push((name, FileId::root(alloc)))?;
    }
    Ok(())
}

fn add_writers(node: &mut Node, writers: &[u16]) -> Result<(), Fail> {
    for session in writers {
        node.handles.push(Handle {
            session: Session(*session),
            h: 1,
            modes: WRITES,
        })?;
    }
    Ok(())
}

fn records(alloc: Global, told: &[Kept]) -> Result<List<(FileId, Record)>, Fail> {
    let mut records = List::new(alloc);
    let done = add_records(alloc, &mut records, told);
    kept(records, done)
}

fn add_records(
    alloc: Global,
    records: &mut List<(FileId, Record)>,
    told: &[Kept],
) -> Result<(), Fail> {
    for (file, names, writers) in told {
        let file = id(alloc, file)?;
        let file_and_record = with(file, record(alloc, names, writers))?;
        records.push(file_and_record)?;
    }
    Ok(())
}

pub(crate) fn rows(alloc: Global, told: &[Told]) -> Result<List<Row>, Fail> {
    let mut rows = List::new(alloc);
    let done = add_rows(alloc, &mut rows, told);
    kept(rows, done)
}

fn add_rows(alloc: Global, rows: &mut List<Row>, told: &[Told]) -> Result<(), Fail> {
    for one in told {
        let row = row(alloc, *one)?;
        rows.push(row)?;
    }
    Ok(())
}

/// Which identifiers are given: places, and whether what begins with them is.
fn places(alloc: Global, places: &[(&str, bool)]) -> Result<List<(FileId, bool)>, Fail> {
    let mut given = List::new(alloc);
    let done = add_places(alloc, &mut given, places);
    kept(given, done)
}

fn add_places(
    alloc: Global,
    given: &mut List<(FileId, bool)>,
    places: &[(&str, bool)],
) -> Result<(), Fail> {
    for (place, value) in places {
        let place = id(alloc, place)?;
        given.push((place, *value))?;
    }
    Ok(())
}

pub(crate) fn piece(alloc: Global, prefix: &str, told: &[(&str, bool)]) -> Result<MapPiece, Fail> {
    let given = places(alloc, told)?;
    let (given, prefix) = with(given, id(alloc, prefix))?;
    Ok(MapPiece { prefix, given })
}

fn parcel(alloc: Global, sent: &Sent) -> Result<Parcel, Fail> {
    let (prefix, given, told_records, told) = sent;
    let piece = piece(alloc, prefix, given)?;
    let (piece, inside) = with(piece, contents(alloc, prefix, told_records, told))?;
    let (prefix, (records, rows)) = inside;
    Ok(Parcel {
        prefix,
        piece,
        records,
        rows,
    })
}

/// The prefix, the records and the rows of a parcel.
type Contents = (FileId, (List<(FileId, Record)>, List<Row>));

fn contents(
    alloc: Global,
    prefix: &str,
    told_records: &[Kept],
    told: &[Told],
) -> Result<Contents, Fail> {
    let prefix = id(alloc, prefix)?;
    with(prefix, records_and_rows(alloc, told_records, told))
}

fn records_and_rows(
    alloc: Global,
    told_records: &[Kept],
    told: &[Told],
) -> Result<(List<(FileId, Record)>, List<Row>), Fail> {
    let records = records(alloc, told_records)?;
    with(records, rows(alloc, told))
}

/// A server: its number and its tables.
#[derive(Drop)]
struct Server {
    me: u8,
    records: Records,
    rows: Rows,
    modes: ModeRows,
    map: FileMap,
}

/// A server with no record and no row; it knows of this other one as that of all files.
fn begun(alloc: Global, me: u8, other: u8) -> Result<Server, Fail>
    ensures { IfOk result (λ s. AreRows (in_one_list s.rows s.modes)) }
{
    let map = map_of(alloc, other)?;
    let (map, records) = with(map, no_records(alloc))?;
    Ok(Server {
        me,
        records,
        rows: Rows::new(alloc),
        modes: ModeRows::new(alloc),
        map,
    })
}

fn no_records(alloc: Global) -> Result<Records, Fail> {
    Ok(Records::new(alloc, false)?)
}

/// The map on which all files are at the server.
fn map_of(alloc: Global, server: u8) -> Result<FileMap, Fail> {
    let mut map = FileMap::new(alloc)?;
    let done = hint(alloc, &mut map, "/", server);
    kept(map, done)
}

/// What begins with the prefix is at the server.
fn hint(alloc: Global, map: &mut FileMap, prefix: &str, server: u8) -> Result<(), Fail> {
    let prefix = id(alloc, prefix)?;
    let done = map.hint(alloc, &prefix, server);
    spend(prefix);
    Ok(done?)
}

/// Whether the parcel fits, and is put in its place then.
fn come(alloc: Global, s: &mut Server, p: Parcel) -> Result<bool, Fail>
    requires { AreRows (in_one_list s.old.rows s.old.modes) }
    ensures { OnOk result (AreRows (in_one_list s.new.rows s.new.modes)) }
{
    s.rows.all();
    s.modes.all();
    if !fits(alloc, &s.records, &s.rows, &s.modes, &s.map, s.me, &p)? {
        spend(p);
        return Ok(false);
    }
    if !are_records(p.records.as_slice()) {
        spend(p);
        return Err(Fail::from("no record"));
    }
    let me = s.me;
    install(
        alloc,
        &mut s.records,
        &mut s.rows,
        &mut s.modes,
        &mut s.map,
        me,
        p,
    )?;
    Ok(true)
}

/// Whether each is a record.
fn are_records(records: &[(FileId, Record)]) -> bool
    ensures { result ≡ true → AreEachRecords records.now }
{
    let mut rest = records;
    while let Some((first, later)) = rest.split_first() {
        if !is_record(&first.1) {
            return false;
        }
        rest = later;
    }
    true
}

fn is_record(kept: &Record) -> bool
    ensures { result ≡ true → IsRecord kept.now }
{
    kept.has_number_left() && kept.is_in_order()
}
