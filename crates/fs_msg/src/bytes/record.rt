//! The records of files as bytes.
ghost use Rattle.std.specs.Prelude.{◌≡◌, ◌++◌, true, OnOk, flat_map};
ghost use Rattle.std.specs.List.{list_all, AllByRecursion};
ghost use Rattle.fs_ident.specs.Ident.{IsId};
ghost use Rattle.fs_wire.specs.Spelling.{list, pair, identifier};
ghost use Rattle.fs_wire.specs.Readers.{Gives, pair_at, many_at, list_at};
ghost use Rattle.fs_wire.specs.Reading.{identifier_at};
ghost use Rattle.fs_wire.specs.Ranges.{FitsList, FitsPair};
ghost use Rattle.fs_msg.specs.Spelling.{file_record};
ghost use Rattle.fs_msg.specs.Reading.{record_at};
ghost use Rattle.fs_msg.specs.Ranges.{FitsRecord};
ghost use Rattle.fs_msg.specs.Readable.{is_readable_record};

use fs_ident::{FileId, List};
use fs_model::Node;
use fs_record::Record;
use fs_wire::{ReadError, Wire, next_of, put_next};
use std::alloc::{AllocError, Global};

/// Adds the spelling of a record at the end.
#[tactic(auto, unfolding(crate::specs::Spelling::file_record))]
fn put_record(r: &Record, out: &mut Vec<u8>) -> Result<(), AllocError>
    ensures text { OnOk result (out.new.items ≡ out.old.items ++ file_record r.now) }
    ensures fits { OnOk result (is_readable_record r.now ≡ true → FitsRecord r.now) }
{
    r.node.put(out)?;
    put_next(r.next, out)
}

/// Adds the spelling of a file with its record at the end.
fn put_filed(filed: &(FileId, Record), out: &mut Vec<u8>) -> Result<(), AllocError>
    ensures text { OnOk result (out.new.items ≡
        out.old.items ++ pair identifier file_record filed.now) }
    ensures fits { OnOk result (is_readable_record filed.now.1 ≡ true →
        FitsPair IsId FitsRecord filed.now) }
{
    filed.0.put(out)?;
    put_record(&filed.1, out)
}

/// Adds the spelling of each file with its record, in order.
fn put_each_record(records: &[(FileId, Record)], out: &mut Vec<u8>) -> Result<(), AllocError>
    ensures text { OnOk result (out.new.items ≡
        out.old.items ++ flat_map (pair identifier file_record) records.now) }
    ensures fits { OnOk result (list_all (λ e. is_readable_record e.1) records.now ≡ true →
        AllByRecursion (FitsPair IsId FitsRecord) records.now) }
{
    for filed in records {
        put_filed(filed, out)?;
    }
    Ok(())
}

/// Adds how many there are, and the spelling of each file with its record.
#[tactic(auto, unfolding(fs_wire::specs::Spelling::list))]
pub(crate) fn put_records(
    records: &List<(FileId, Record)>,
    out: &mut Vec<u8>,
) -> Result<(), AllocError>
    ensures text { OnOk result (out.new.items ≡
        out.old.items ++ list (pair identifier file_record) records.now) }
    ensures fits { OnOk result (list_all (λ e. is_readable_record e.1) records.now ≡ true →
        FitsList (FitsPair IsId FitsRecord) records.now) }
{
    (records.len() as u64).put(out)?;
    put_each_record(records.as_slice(), out)
}

/// The record at the beginning, and the bytes behind it.
#[tactic(auto, unfolding(crate::specs::Reading::record_at, fs_wire::specs::Readers::pair_at, fs_wire::specs::Readers::then_at, fs_wire::specs::Readers::map_at))]
fn record_of(alloc: Global, bytes: &[u8]) -> Result<(Record, &[u8]), ReadError>
    ensures { Gives (λ x. (x.0, x.1.now)) result (record_at bytes.now) }
{
    let (node, rest) = Node::get(alloc, bytes)?;
    let (next, rest) = next_of(alloc, rest)?;
    Ok((Record { node, next }, rest))
}

/// A file with its record, and the bytes behind them.
#[tactic(auto, unfolding(fs_wire::specs::Readers::pair_at, fs_wire::specs::Readers::then_at, fs_wire::specs::Readers::map_at))]
fn filed_of(alloc: Global, bytes: &[u8]) -> Result<((FileId, Record), &[u8]), ReadError>
    ensures { Gives (λ x. (x.0, x.1.now)) result (pair_at identifier_at record_at bytes.now) }
{
    let (file, rest) = FileId::get(alloc, bytes)?;
    let (r, rest) = record_of(alloc, rest)?;
    Ok(((file, r), rest))
}

/// So many files with their records, in order, and the bytes behind them.
fn many_records_of(
    alloc: Global,
    count: u64,
    bytes: &[u8],
) -> Result<(List<(FileId, Record)>, &[u8]), ReadError>
    ensures { Gives (λ x. (x.0, x.1.now)) result
        (many_at (pair_at identifier_at record_at) count bytes.now) }
{
    let mut records = List::new(alloc);
    let mut rest = bytes;
    for _ in 0..count {
        let (filed, after) = filed_of(alloc, rest)?;
        records.push(filed)?;
        rest = after;
    }
    Ok((records, rest))
}

/// The files with their records behind their count, and the bytes behind them.
#[tactic(auto, unfolding(fs_wire::specs::Readers::list_at, fs_wire::specs::Readers::then_at))]
pub(crate) fn records_of(
    alloc: Global,
    bytes: &[u8],
) -> Result<(List<(FileId, Record)>, &[u8]), ReadError>
    ensures { Gives (λ x. (x.0, x.1.now)) result
        (list_at (pair_at identifier_at record_at) bytes.now) }
{
    let (count, rest) = u64::get(alloc, bytes)?;
    many_records_of(alloc, count, rest)
}
