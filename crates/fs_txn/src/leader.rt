//! The leader of a transaction, until it has decided.
ghost use Rattle.std.specs.Prelude.{◌≡◌, true, slice_get, IfOk};
ghost use Rattle.std.specs.Option.{option_copied};
ghost use Rattle.fs_txn.specs.Deciding.{decision};
ghost use Rattle.fs_txn.specs.Votes.{after_vote, awaits, is_empty_place, is_full, no_votes, tally, votes_after};

use crate::deciding::decided;
use crate::decision::Decision;
use crate::mode::Mode2;
use crate::tally::Tally;
use fs_field::{Part, PathAnswer, Vote};
use fs_ident::{FileId, List, Memory, Session, Twin, TxnNo, copy_three, copy_two};
use fs_model::Op;
use std::alloc::Global;

/// A rename or a delete that a server leads: who asked for it, its parts, and the votes counted so far, one place for each part.
#[derive(Debug, Drop)]
pub struct Leader {
    pub txn: TxnNo,
    pub session: Session,
    /// The operation's number in its session.
    pub n: u64,
    pub op: Op,
    /// The file that moves or goes.
    pub file: FileId,
    pub parts: List<Part>,
    pub mode: Mode2,
    /// Yes, Ended and PathsOut; no vote says that a file is elsewhere.
    pub votes: List<Option<Vote>>,
}

impl Leader {
    /// A leader of these parts, of which none has voted. `Memory` when out of memory.
    pub fn begin(
        alloc: Global,
        txn: TxnNo,
        session: Session,
        n: u64,
        op: Op,
        file: FileId,
        parts: List<Part>,
        mode: Mode2,
    ) -> Result<Leader, Memory>
        ensures txn { IfOk result (λ l. l.txn ≡ txn) }
        ensures session { IfOk result (λ l. l.session ≡ session) }
        ensures number { IfOk result (λ l. l.n ≡ n) }
        ensures op { IfOk result (λ l. l.op ≡ op) }
        ensures file { IfOk result (λ l. l.file ≡ file) }
        ensures parts { IfOk result (λ l. l.parts ≡ parts) }
        ensures mode { IfOk result (λ l. l.mode ≡ mode) }
        ensures votes { IfOk result (λ l. l.votes ≡ no_votes parts) }
    {
        let votes = no_votes(alloc, parts.as_slice())?;
        Ok(Leader {
            txn,
            session,
            n,
            op,
            file,
            parts,
            mode,
            votes,
        })
    }

    /// Whether the vote of the part is awaited: it is one of the parts, by its number from 0, and has not voted.
    pub fn awaits(&self, part: u8) -> bool
        ensures { result ≡ awaits self.now part }
    {
        (part as usize) < self.parts.len() && is_empty_place(self.votes.as_slice(), part as usize)
    }

    /// Counts the vote of a part, which is awaited (`awaits` is the test), and tells what is left to do. A vote that the file is
    /// at another server is not counted: the part is to be asked there.
    pub fn vote(&mut self, part: u8, vote: Vote) -> Tally
        requires { awaits self.old part ≡ true }
        ensures counted { self.new ≡ after_vote part vote self.old }
        ensures tally { result ≡ tally part vote (votes_after self.old.votes part vote) }
    {
        if let Vote::Moved { to, .. } = vote {
            return Tally::Seek { part, to };
        }
        drop(self.votes.replace(part as usize, Some(vote)));
        if self.is_full() {
            Tally::Full
        } else {
            Tally::Waiting
        }
    }

    /// Whether every part has voted.
    pub fn is_full(&self) -> bool
        ensures { result ≡ is_full self.now.votes }
    {
        have_voted(self.votes.as_slice())
    }

    /// Decides, once every part has voted (`is_full` is the test). `path` is the path of the destination as the leader knows it now, or none where that is
    /// no living directory there; it counts where a directory comes into another one. `Memory` when out of memory.
    pub fn decide(&self, alloc: Global, path: Option<&PathAnswer>) -> Result<Decision, Memory>
        requires { is_full self.now.votes ≡ true }
        ensures { IfOk result (λ d. d ≡ decision self.now (option_copied path.entry)) }
    {
        decided(alloc, self, path)
    }
}

impl Twin for Leader {
    fn copy(&self, alloc: Global) -> Result<Leader, Memory> {
        let (op, file) = copy_two(alloc, &self.op, &self.file)?;
        let (parts, votes) = copy_two(alloc, &self.parts, &self.votes)?;
        Ok(Leader {
            txn: self.txn,
            session: self.session,
            n: self.n,
            op,
            file,
            parts,
            mode: self.mode,
            votes,
        })
    }

    fn discard(self) {
        drop(self);
    }
}

/// One empty place for each part.
fn no_votes(alloc: Global, parts: &[Part]) -> Result<List<Option<Vote>>, Memory>
    ensures { IfOk result (λ votes. votes ≡ no_votes parts.now) }
{
    let mut votes = List::new(alloc);
    for _part in parts {
        votes.push(None)?;
    }
    Ok(votes)
}

/// Whether there is such a place, and it is empty.
fn is_empty_place(votes: &[Option<Vote>], part: usize) -> bool
    ensures { result ≡ is_empty_place (slice_get votes.now part) }
{
    match votes.get(part) {
        Some(vote) => vote.is_none(),
        None => false,
    }
}

/// Whether every part has voted.
#[tactic(auto, using(crate::proofs::Steps::full_step))]
fn have_voted(votes: &[Option<Vote>]) -> bool
    ensures { result ≡ is_full votes.now }
{
    for vote in votes {
        if vote.is_none() {
            return false;
        }
    }
    true
}
