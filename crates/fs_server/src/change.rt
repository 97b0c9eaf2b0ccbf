//! What an event changes.
use crate::path_change::PathChange;
use fs_field::{Effect, Row, Use};
use fs_ident::{FileId, LeaseNo, List, Memory, Twin, TxnNo, copy_three, copy_two};
use fs_map::MapPiece;
use fs_record::{Parcel, Record};
use fs_txn::{Ending, Leading, Ready};
use std::alloc::Global;

/// What an event changes, beside the rows that are over.
#[derive(Drop)]
pub(crate) enum Change {
    Nothing,
    /// These leases are given; the directory gave the number to a new file.
    Grant {
        rows: List<Row>,
        gift: Option<(FileId, u32)>,
    },
    /// These leases end no sooner than `until`.
    Renew {
        until: u64,
        numbers: List<LeaseNo>,
    },
    /// These leases are given back.
    Free {
        numbers: List<LeaseNo>,
    },
    /// The effects of the entries that are admitted.
    Admit {
        effects: List<Effect>,
    },
    /// So many reaps, and their effects.
    Reap {
        count: u64,
        effects: List<Effect>,
    },
    /// A transaction of its own goes on; `begins`: it is a new one. It keeps the rows of these leases, and these files: those of parts that
    /// said Yes here just now.
    Lead {
        begins: bool,
        txn: TxnNo,
        uses: List<Use>,
        files: List<FileId>,
        then: Then,
    },
    /// The part of this number, of a transaction of its own, is done.
    Done {
        txn: TxnNo,
        number: u8,
    },
    /// The part waits for its decision, and its rows are locked.
    Prepare {
        ready: Ready,
    },
    /// The part of this number waits no more. Of its effects those of `removals` take a file or a name away, and come behind the others.
    Decide {
        txn: TxnNo,
        number: u8,
        effects: List<Effect>,
        removals: List<Effect>,
    },
    /// What the piece gives goes to that server, these records among it.
    Leave {
        to: u8,
        piece: MapPiece,
        moved: List<(FileId, Record)>,
    },
    /// What another server hands over is put in its place.
    Install {
        parcel: Parcel,
    },
    /// What becomes of path leases.
    Paths {
        change: PathChange,
    },
}

/// What becomes of a transaction that goes on.
#[derive(Drop)]
pub(crate) enum Then {
    /// Votes are awaited.
    Waits {
        leading: Leading,
    },
    /// It is decided: these effects are applied, and its rows are unlocked unless it keeps them. The effects are as those of `Decide`.
    Ends {
        effects: List<Effect>,
        removals: List<Effect>,
        ending: Ending,
        keeps: bool,
    },
}

impl Twin for Change {
    fn copy(&self, alloc: Global) -> Result<Change, Memory> {
        match self {
            Change::Nothing => Ok(Change::Nothing),
            Change::Grant { rows, gift } => {
                let (rows, gift) = copy_two(alloc, rows, gift)?;
                Ok(Change::Grant { rows, gift })
            }
            Change::Renew { until, numbers } => Ok(Change::Renew {
                until: *until,
                numbers: numbers.copy(alloc)?,
            }),
            Change::Free { numbers } => Ok(Change::Free {
                numbers: numbers.copy(alloc)?,
            }),
            Change::Admit { effects } => Ok(Change::Admit {
                effects: effects.copy(alloc)?,
            }),
            Change::Reap { count, effects } => Ok(Change::Reap {
                count: *count,
                effects: effects.copy(alloc)?,
            }),
            Change::Lead {
                begins,
                txn,
                uses,
                files,
                then,
            } => {
                let (uses, files, then) = copy_three(alloc, uses, files, then)?;
                Ok(Change::Lead {
                    begins: *begins,
                    txn: *txn,
                    uses,
                    files,
                    then,
                })
            }
            Change::Done { txn, number } => Ok(Change::Done {
                txn: *txn,
                number: *number,
            }),
            Change::Prepare { ready } => Ok(Change::Prepare {
                ready: ready.copy(alloc)?,
            }),
            Change::Decide {
                txn,
                number,
                effects,
                removals,
            } => {
                let (effects, removals) = copy_two(alloc, effects, removals)?;
                Ok(Change::Decide {
                    txn: *txn,
                    number: *number,
                    effects,
                    removals,
                })
            }
            Change::Leave { to, piece, moved } => {
                let (piece, moved) = copy_two(alloc, piece, moved)?;
                Ok(Change::Leave {
                    to: *to,
                    piece,
                    moved,
                })
            }
            Change::Install { parcel } => Ok(Change::Install {
                parcel: parcel.copy(alloc)?,
            }),
            Change::Paths { change } => Ok(Change::Paths {
                change: change.copy(alloc)?,
            }),
        }
    }

    fn discard(self) {
        drop(self);
    }
}

impl Twin for Then {
    fn copy(&self, alloc: Global) -> Result<Then, Memory> {
        match self {
            Then::Waits { leading } => Ok(Then::Waits {
                leading: leading.copy(alloc)?,
            }),
            Then::Ends {
                effects,
                removals,
                ending,
                keeps,
            } => {
                let (effects, removals, ending) = copy_three(alloc, effects, removals, ending)?;
                Ok(Then::Ends {
                    effects,
                    removals,
                    ending,
                    keeps: *keeps,
                })
            }
        }
    }

    fn discard(self) {
        drop(self);
    }
}
