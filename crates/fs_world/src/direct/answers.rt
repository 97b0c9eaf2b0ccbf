//! Operations, carried out and put into the journal. When out of memory nothing changes.
ghost use Rattle.std.specs.Prelude.{if◌then◌else◌, ◌≡◌, ◌+◌, ◌^◌, ◌<◌, length, slice_set, false, IfOk, OnOk, OnErr, Some, None};
ghost use Rattle.std.specs.FinMap as map;
ghost use Rattle.fs_model.specs.Step.{step};
ghost use Rattle.fs_model.specs.Sound.{is_change};
ghost use Rattle.fs_world.specs.Direct.{answer, candidate, candidate_of, with_item, create_answer, is_made, with_answer};

use crate::direct::world::Direct;
use fs_ident::{FileId, IdError, Kind, List, Memory, Name, Peer, Session, Twin};
use fs_model::{Op, Reply, Space};
use fs_msg::Item;
use std::alloc::Global;

/// An operation that was carried out, with the identifier that it was given, and its reply twice.
#[derive(Drop)]
pub(crate) struct Answered {
    op: Op,
    reply: Reply,
    twin: Reply,
}

impl Direct {
    /// Carries out a session's operation of number `n`, a create with the identifier that the directory gives it.
    pub(crate) fn answer(
        &mut self,
        alloc: Global,
        by: Session,
        n: u64,
        op: &Op,
    ) -> Result<Reply, Memory>
        ensures reply { IfOk result (λ reply. reply ≡
            (answer self.old.space self.old.next by op.now).reply) }
        ensures world { OnOk result (self.new ≡
            with_item self.old by n (answer self.old.space self.old.next by op.now)) }
        ensures err { OnErr result (self.new ≡ self.old) }
    {
        let at = self.journal.len();
        self.journal.push(blank(alloc))?;
        match self.carry_out(alloc, by, op) {
            Ok(Answered { op, reply, twin }) => {
                let by = Peer::Client(by);
                put(&mut self.journal, at, Item { by, n, op, reply });
                Ok(twin)
            }
            Err(e) => {
                self.journal.truncate(at);
                Err(e)
            }
        }
    }

    /// The operation on the namespace and the numbers of children.
    fn carry_out(&mut self, alloc: Global, by: Session, op: &Op) -> Result<Answered, Memory>
        ensures op { IfOk result (λ d. d.op ≡ (answer self.old.space self.old.next by op.now).op) }
        ensures reply { IfOk result (λ d. d.reply ≡
            (answer self.old.space self.old.next by op.now).reply) }
        ensures twin { IfOk result (λ d. d.twin ≡
            (answer self.old.space self.old.next by op.now).reply) }
        ensures world { OnOk result (self.new ≡
            with_answer self.old (answer self.old.space self.old.next by op.now)) }
        ensures err { OnErr result (self.new ≡ self.old) }
    {
        match op {
            Op::Create {
                dir,
                name,
                kind,
                ..
            } => self.create(alloc, by, dir, name, *kind),
            _ => ask(alloc, &mut self.space, by, op.copy(alloc)?),
        }
    }

    /// A create, whatever identifier its caller named.
    fn create(
        &mut self,
        alloc: Global,
        by: Session,
        dir: &FileId,
        name: &Name,
        kind: Kind,
    ) -> Result<Answered, Memory>
        ensures op { IfOk result (λ d. d.op ≡
            (create_answer self.old.space self.old.next by dir.now name.now kind
            (candidate self.old.next dir.now)).op) }
        ensures reply { IfOk result (λ d. d.reply ≡
            (create_answer self.old.space self.old.next by dir.now name.now kind
            (candidate self.old.next dir.now)).reply) }
        ensures twin { IfOk result (λ d. d.twin ≡
            (create_answer self.old.space self.old.next by dir.now name.now kind
            (candidate self.old.next dir.now)).reply) }
        ensures world { OnOk result (self.new ≡ with_answer self.old
            (create_answer self.old.space self.old.next by dir.now name.now kind
            (candidate self.old.next dir.now))) }
        ensures err { OnErr result (self.new ≡ self.old) }
    {
        let number = self.next.next(dir);
        let plain = create_op(alloc, dir, name, kind, None)?;
        match candidate(alloc, number, dir)? {
            Some(id) => {
                let tried = create_op(alloc, dir, name, kind, Some(id))?;
                self.create_as(alloc, by, dir, number, tried, plain)
            }
            None => ask(alloc, &mut self.space, by, plain),
        }
    }

    /// A create with the identifier of the directory's next number, and where it is then not made, without one.
    fn create_as(
        &mut self,
        alloc: Global,
        by: Session,
        dir: &FileId,
        number: u64,
        tried: Op,
        plain: Op,
    ) -> Result<Answered, Memory>
        requires { number < 2 ^ 32 }
        ensures op { IfOk result (λ d. d.op ≡ (
            if is_made (step self.old.space by tried).reply then tried else plain)) }
        ensures reply { IfOk result (λ d. d.reply ≡ (step self.old.space by tried).reply) }
        ensures twin { IfOk result (λ d. d.twin ≡ (step self.old.space by tried).reply) }
        ensures world { OnOk result (self.new ≡ record self.old {
          space = (step self.old.space by tried).nodes;
          next = (if is_made (step self.old.space by tried).reply
              then map.insert self.old.next dir.now (number + 1) else self.old.next);
        }) }
        ensures err { OnErr result (self.new ≡ self.old) }
    {
        let before = self.next.get(dir);
        self.next.set(alloc, dir, number + 1)?;
        match ask(alloc, &mut self.space, by, tried) {
            Ok(answered) => {
                if is_made(&answered.reply) {
                    return Ok(answered);
                }
                self.next.restore(dir, before);
                Ok(Answered {
                    op: plain,
                    ..answered
                })
            }
            Err(e) => {
                self.next.restore(dir, before);
                Err(e)
            }
        }
    }
}

/// The operation on the namespace.
#[tactic(auto, using(fs_model::proofs::SoundRuns::step_reads))]
fn ask(alloc: Global, space: &mut Space, by: Session, op: Op) -> Result<Answered, Memory>
    ensures op { IfOk result (λ d. d.op ≡ op) }
    ensures reply { IfOk result (λ d. d.reply ≡ (step space.old by op).reply) }
    ensures twin { IfOk result (λ d. d.twin ≡ (step space.old by op).reply) }
    ensures space { OnOk result (space.new ≡ (step space.old by op).nodes) }
    ensures err { OnErr result (space.new ≡ space.old) }
{
    let reply = space.step(alloc, by, &op)?;
    let twin = copy_of(alloc, &reply)?;
    Ok(Answered { op, reply, twin })
}

/// An equal reply. Only one that carries memory can fail to be copied, and such a reply is a read's.
fn copy_of(alloc: Global, reply: &Reply) -> Result<Reply, Memory>
    ensures ok { IfOk result (λ twin. twin ≡ reply.now) }
    ensures err { OnErr result (is_change reply.now ≡ false) }
{
    match reply {
        Reply::Made => Ok(Reply::Made),
        Reply::Opened => Ok(Reply::Opened),
        Reply::Closed => Ok(Reply::Closed),
        Reply::Set => Ok(Reply::Set),
        Reply::Deleted => Ok(Reply::Deleted),
        Reply::Renamed => Ok(Reply::Renamed),
        Reply::Reaped => Ok(Reply::Reaped),
        _ => reply.copy(alloc),
    }
}

/// An item that keeps a place in the journal, and takes no memory.
fn blank(alloc: Global) -> Item {
    Item {
        by: Peer::Client(Session(0)),
        n: 0,
        op: Op::Kind {
            file: FileId::root(alloc),
        },
        reply: Reply::Gone,
    }
}

/// Puts an item into a place of the journal.
fn put(journal: &mut List<Item>, at: usize, item: Item)
    requires { at < length journal.old }
    ensures { journal.new ≡ slice_set journal.old at item }
{
    journal.replace(at, item);
}

/// A create of these words.
fn create_op(
    alloc: Global,
    dir: &FileId,
    name: &Name,
    kind: Kind,
    id: Option<FileId>,
) -> Result<Op, Memory>
    ensures { IfOk result (λ op. op ≡ Op.Create dir.now name.now kind id) }
{
    Ok(Op::Create {
        dir: dir.copy(alloc)?,
        name: name.copy(alloc)?,
        kind,
        id,
    })
}

/// The directory's child of that number, where there can be one.
fn candidate(alloc: Global, number: u64, dir: &FileId) -> Result<Option<FileId>, Memory>
    ensures { IfOk result (λ id. id ≡ candidate_of number dir.now) }
{
    let Ok(k) = u32::try_from(number) else {
        return Ok(None);
    };
    match dir.child(alloc, k) {
        Ok(id) => Ok(Some(id)),
        Err(IdError::Memory) => Err(Memory),
        Err(_) => Ok(None),
    }
}

fn is_made(reply: &Reply) -> bool
    ensures { result ≡ is_made reply.now }
{
    matches!(reply, Reply::Made)
}
