//! What a server notes of an event.
use crate::end::End;
use crate::refusal::Refusal;
use fs_field::Vote;
use fs_ident::{FileId, LeaseNo, List, Memory, PathNo, Twin, TxnNo, copy_two};
use fs_model::Reply;
use fs_record::Why;
use std::alloc::Global;

/// What a server notes of an event.
#[derive(Debug, Drop)]
pub enum ServerNote {
    /// So many leases were given to a question, and why no more.
    Grants {
        count: u64,
        end: End,
    },
    /// So many pairs of a renewal were answered.
    Renews {
        count: u64,
        end: End,
    },
    /// So many pairs of a release were answered.
    Frees {
        count: u64,
        end: End,
    },
    /// So many entries were admitted; the numbers of those behind a refused one.
    Admits {
        count: u64,
        end: End,
        gaps: List<u64>,
    },
    /// What it was to lead may be asked for again.
    Refuses {
        why: Why,
    },
    /// It began to lead the transaction, and waits for votes.
    Prepares {
        txn: TxnNo,
    },
    /// The operation that it led is admitted, with this reply.
    Commits {
        txn: TxnNo,
        reply: Reply,
    },
    /// The operation that it led is not admitted, and may be asked for again.
    Aborts {
        txn: TxnNo,
        why: Why,
    },
    /// The operation that it led is refused: the lease ended at the first reading, and the reading of the vote was the second.
    AbortsEnded {
        txn: TxnNo,
        lease: LeaseNo,
        until: u64,
        now: u64,
    },
    /// Its vote on a part of the transaction.
    Votes {
        txn: TxnNo,
        vote: Vote,
    },
    /// More votes, or more parts that are done, are awaited.
    Waits {
        txn: TxnNo,
    },
    /// The part was sent on to that server.
    Seeks {
        txn: TxnNo,
        to: u8,
    },
    /// The part did what was decided.
    Applies {
        txn: TxnNo,
    },
    /// All parts did what was decided.
    Ends {
        txn: TxnNo,
    },
    /// It gave out a path.
    PathGrants {
        no: PathNo,
    },
    /// It gave out no path that was asked for.
    PathDenies {
        why: Why,
    },
    /// It keeps a path that came.
    PathHolds {
        no: PathNo,
    },
    /// It gives a path back as soon as it came, since the file is no longer there.
    PathDrops {
        no: PathNo,
    },
    /// What is asked for the path of the file was sent on to that server.
    PathSeeks {
        file: FileId,
        to: u8,
    },
    /// It asked for a path in vain.
    PathFails {
        why: Why,
    },
    /// It gives back a path that was asked back.
    PathFrees {
        no: PathNo,
    },
    /// It was asked for a path back, and first asks back so many that rest on it.
    PathDown {
        no: PathNo,
        count: u64,
    },
    /// A path that it gave out came back.
    PathBack {
        no: PathNo,
    },
    /// It was asked for a path back that it does not hold.
    PathNone,
    /// So many times a session lost its handles on a file.
    Reaps {
        count: u64,
    },
    /// So many leases were asked back.
    Recalls {
        count: u64,
    },
    /// What another server handed over below the prefix is here now.
    Installs {
        prefix: FileId,
    },
    /// What was managed below the prefix goes to another server.
    Moves {
        prefix: FileId,
        to: u8,
    },
    /// What was to be handed over stays.
    Stays {
        refusal: Refusal,
    },
    /// There was nothing to do.
    Idle,
    /// No honest actor sends such a message.
    Strange,
}

impl Twin for ServerNote {
    fn copy(&self, alloc: Global) -> Result<ServerNote, Memory> {
        match self {
            ServerNote::Grants { count, end } => Ok(ServerNote::Grants {
                count: *count,
                end: end.copy(alloc)?,
            }),
            ServerNote::Renews { count, end } => Ok(ServerNote::Renews {
                count: *count,
                end: end.copy(alloc)?,
            }),
            ServerNote::Frees { count, end } => Ok(ServerNote::Frees {
                count: *count,
                end: end.copy(alloc)?,
            }),
            ServerNote::Admits { count, end, gaps } => {
                let (end, gaps) = copy_two(alloc, end, gaps)?;
                Ok(ServerNote::Admits {
                    count: *count,
                    end,
                    gaps,
                })
            }
            ServerNote::Refuses { why } => Ok(ServerNote::Refuses {
                why: why.copy(alloc)?,
            }),
            ServerNote::Prepares { txn } => Ok(ServerNote::Prepares { txn: *txn }),
            ServerNote::Commits { txn, reply } => Ok(ServerNote::Commits {
                txn: *txn,
                reply: reply.copy(alloc)?,
            }),
            ServerNote::Aborts { txn, why } => Ok(ServerNote::Aborts {
                txn: *txn,
                why: why.copy(alloc)?,
            }),
            ServerNote::AbortsEnded {
                txn,
                lease,
                until,
                now,
            } => Ok(ServerNote::AbortsEnded {
                txn: *txn,
                lease: *lease,
                until: *until,
                now: *now,
            }),
            ServerNote::Votes { txn, vote } => Ok(ServerNote::Votes {
                txn: *txn,
                vote: vote.copy(alloc)?,
            }),
            ServerNote::Waits { txn } => Ok(ServerNote::Waits { txn: *txn }),
            ServerNote::Seeks { txn, to } => Ok(ServerNote::Seeks { txn: *txn, to: *to }),
            ServerNote::Applies { txn } => Ok(ServerNote::Applies { txn: *txn }),
            ServerNote::Ends { txn } => Ok(ServerNote::Ends { txn: *txn }),
            ServerNote::PathGrants { no } => Ok(ServerNote::PathGrants { no: *no }),
            ServerNote::PathDenies { why } => Ok(ServerNote::PathDenies {
                why: why.copy(alloc)?,
            }),
            ServerNote::PathHolds { no } => Ok(ServerNote::PathHolds { no: *no }),
            ServerNote::PathDrops { no } => Ok(ServerNote::PathDrops { no: *no }),
            ServerNote::PathSeeks { file, to } => Ok(ServerNote::PathSeeks {
                file: file.copy(alloc)?,
                to: *to,
            }),
            ServerNote::PathFails { why } => Ok(ServerNote::PathFails {
                why: why.copy(alloc)?,
            }),
            ServerNote::PathFrees { no } => Ok(ServerNote::PathFrees { no: *no }),
            ServerNote::PathDown { no, count } => Ok(ServerNote::PathDown {
                no: *no,
                count: *count,
            }),
            ServerNote::PathBack { no } => Ok(ServerNote::PathBack { no: *no }),
            ServerNote::PathNone => Ok(ServerNote::PathNone),
            ServerNote::Reaps { count } => Ok(ServerNote::Reaps { count: *count }),
            ServerNote::Recalls { count } => Ok(ServerNote::Recalls { count: *count }),
            ServerNote::Installs { prefix } => Ok(ServerNote::Installs {
                prefix: prefix.copy(alloc)?,
            }),
            ServerNote::Moves { prefix, to } => Ok(ServerNote::Moves {
                prefix: prefix.copy(alloc)?,
                to: *to,
            }),
            ServerNote::Stays { refusal } => Ok(ServerNote::Stays {
                refusal: refusal.copy(alloc)?,
            }),
            ServerNote::Idle => Ok(ServerNote::Idle),
            ServerNote::Strange => Ok(ServerNote::Strange),
        }
    }

    fn discard(self) {
        drop(self);
    }
}
