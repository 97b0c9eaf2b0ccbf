//! A transaction that begins: its parts vote at once where they are here, and others are asked for.
ghost use Rattle.std.specs.Prelude.{◌≡◌, ◌++◌, ◌<◌, ◌^◌, [], ◌∷◌, None, Some, length, IfOk, IsErrOf, OnOk};
ghost use Rattle.fs_msg.specs.declared.core_error.Counter.{Counter as TheCounter};
ghost use Rattle.fs_msg.specs.declared.core_error.CoreError.TheVariants as errors;
ghost use Rattle.fs_server.specs.Begins.{begins, first_round, leader_with, part_round, parts_in, rounds};
ghost use Rattle.fs_server.specs.Decided.{CanDecide, stepped_by};
ghost use Rattle.fs_server.specs.Gathered.{gathered_by};
ghost use Rattle.fs_server.specs.Grants.{IsReady};
ghost use Rattle.fs_server.specs.Step.{counter_over};
ghost use Rattle.fs_txn.specs.Numbers.{next_txn};

use crate::at_reading::AtReading;
use crate::concludes::goes_on;
use crate::counts::{add_recalls, ask_for, files_kept, uses_kept};
use crate::decide::Decided;
use crate::follows::vote_on;
use fs_field::{Part, Use, Vote};
use fs_ident::{FileId, List, Memory, Peer, Session, TxnNo, copy_two};
use fs_msg::{CoreError, Counter, Lead, Msg, ServerNote};
use fs_txn::{Leader, Leading, Mode2, next_txn, parts};
use std::alloc::Global;

/// What became of the first parts: their votes, whom they were asked of, the leases of those that said Yes here, the files that those keep, and
/// what is sent.
#[derive(Drop)]
pub(crate) struct Gathered {
    pub(crate) votes: List<Option<Vote>>,
    pub(crate) at: List<u8>,
    pub(crate) uses: List<Use>,
    pub(crate) files: List<FileId>,
    pub(crate) send: List<(Peer, Msg)>,
}

/// A transaction begins, in this mode. `Spent` where it would have a number above u64::MAX.
pub(crate) fn begin(
    alloc: Global,
    at: &AtReading<'_>,
    mode: Mode2,
    by: Session,
    m: &Lead,
) -> Result<Decided, CoreError>
    requires ready { IsReady at.now }
    ensures step { IfOk result (λ d. stepped_by d at.now ≡ begins mode by m.now at.now) }
    ensures can { IfOk result (λ d. CanDecide d at.now) }
    ensures spent { (counter : TheCounter) → IsErrOf result (errors.Spent counter) →
        counter_over (begins mode by m.now at.now).server ≡ Some counter }
{
    match next_txn(at.me(), at.txns()) {
        Some(txn) => Ok(prepares(alloc, at, mode, by, m, txn)?),
        None => Err(CoreError::Spent {
            counter: Counter::Transactions,
        }),
    }
}

/// Every part votes or is asked for; where all have voted it is decided.
fn prepares(
    alloc: Global,
    at: &AtReading<'_>,
    mode: Mode2,
    by: Session,
    m: &Lead,
    txn: TxnNo,
) -> Result<Decided, Memory>
    requires ready { IsReady at.now }
    requires txn { next_txn at.now.me at.now.txns ≡ Some txn }
    ensures step { IfOk result (λ d. stepped_by d at.now ≡ begins mode by m.now at.now) }
    ensures can { IfOk result (λ d. CanDecide d at.now) }
{
    let parts = parts(alloc, &m.op, &m.file, &m.uses, mode)?;
    let gathered = gather(alloc, at, txn, by, parts.as_slice())?;
    let Gathered {
        votes,
        at: servers,
        uses,
        files,
        send,
    } = gathered;
    let leader = leader_with(alloc, mode, txn, by, m, parts, votes)?;
    let leading = Leading {
        leader,
        at: servers,
    };
    goes_on(
        alloc,
        at,
        true,
        ServerNote::Prepares { txn },
        leading,
        uses,
        files,
        send,
    )
}

/// The leader of the transaction, with the votes of the parts that are here.
fn leader_with(
    alloc: Global,
    mode: Mode2,
    txn: TxnNo,
    by: Session,
    m: &Lead,
    parts: List<Part>,
    votes: List<Option<Vote>>,
) -> Result<Leader, Memory>
    requires { parts ≡ parts_in mode m.now }
    ensures { IfOk result (λ l. l ≡ leader_with mode txn by m.now votes) }
{
    let (op, file) = copy_two(alloc, &m.op, &m.file)?;
    Ok(Leader {
        txn,
        session: by,
        n: m.n,
        op,
        file,
        parts,
        mode,
        votes,
    })
}

/// The parts in order: those that are here vote at once, any other is asked for.
fn gather(
    alloc: Global,
    at: &AtReading<'_>,
    txn: TxnNo,
    by: Session,
    parts: &[Part],
) -> Result<Gathered, Memory>
    requires { length parts.now < 2 ^ 8 }
    ensures { IfOk result (λ g. gathered_by g txn at.now ≡
        rounds txn 0 by parts.now (first_round at.now)) }
{
    let mut gathered = Gathered {
        votes: List::new(alloc),
        at: List::new(alloc),
        uses: List::new(alloc),
        files: List::new(alloc),
        send: List::new(alloc),
    };
    for (i, part) in parts.iter().enumerate() {
        gather_part(alloc, at, txn, i as u8, by, part, &mut gathered)?;
    }
    Ok(gathered)
}

/// One part more.
fn gather_part(
    alloc: Global,
    at: &AtReading<'_>,
    txn: TxnNo,
    number: u8,
    by: Session,
    part: &Part,
    gathered: &mut Gathered,
) -> Result<(), Memory>
    ensures { OnOk result (gathered_by gathered.new txn at.now ≡
        part_round txn number by part.now (gathered_by gathered.old txn at.now)) }
{
    if at.is_mine(&part.file) {
        let vote = vote_on(alloc, at, by, part)?;
        uses_kept(alloc, part, &vote, &mut gathered.uses)?;
        files_kept(alloc, part, &vote, &mut gathered.files)?;
        add_recalls(alloc, at, part, &vote, &mut gathered.send)?;
        gathered.votes.push(Some(vote))?;
        gathered.at.push(at.me())
    } else {
        let to = at.map().owner(&part.file).1;
        gathered
            .send
            .push(ask_for(alloc, txn, number, by, part, to)?)?;
        gathered.votes.push(None)?;
        gathered.at.push(to)
    }
}
