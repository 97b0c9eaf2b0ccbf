//! What goes from one server to another.
use crate::record::Record;
use fs_field::Row;
use fs_ident::{FileId, List, Memory, Twin, copy_two};
use fs_map::MapPiece;
use std::alloc::Global;

/// What a server managed below a prefix, on its way to another: which identifiers these are, the records of files among
/// them in order of identifier, and the rows on these in order of number.
#[derive(Debug, Drop)]
pub struct Parcel {
    pub prefix: FileId,
    pub piece: MapPiece,
    pub records: List<(FileId, Record)>,
    pub rows: List<Row>,
}

impl Twin for Parcel {
    fn copy(&self, alloc: Global) -> Result<Parcel, Memory> {
        let (prefix, piece) = copy_two(alloc, &self.prefix, &self.piece)?;
        let (records, rows) = copy_two(alloc, &self.records, &self.rows)?;
        Ok(Parcel {
            prefix,
            piece,
            records,
            rows,
        })
    }

    fn discard(self) {}
}
