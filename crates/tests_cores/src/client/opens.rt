//! An open and a close of the file 1, all at one reading.
ghost use Rattle.std.specs.Prelude.{◌≡◌, true, IfOk};
ghost use Rattle.fs_model.specs.Asking.{may_ask};

use crate::client::{Way, hears, said};
use crate::forms::{reads, same, spend, text_of};
use fs_client::ClientCore;
use fs_field::Use;
use fs_ident::{FileId, List, Session};
use fs_model::Op;
use fs_modes::Modes;
use fs_msg::{ClientMsg, Entry};
use std::alloc::Global;
use std::process::Abort;
use std::test::Fail;

const NOW: u64 = 1;

const READS: Modes = Modes {
    acc_r: true,
    ..Modes::NONE
};

const WRITES: Modes = Modes {
    acc_w: true,
    ..Modes::NONE
};

/// Reads, and lets no other write or delete.
const GUARDS: Modes = Modes {
    deny_w: true,
    deny_d: true,
    ..READS
};

/// What the user asks for.
#[derive(Clone, Copy)]
enum Asking {
    /// The first handle.
    Guard,
    /// A second handle that the first denies.
    Write,
    /// A second handle that may stand beside the first.
    Read,
    /// The first handle goes.
    Close,
}

fn op_of(alloc: Global, asking: Asking) -> Result<Op, Fail>
    ensures { IfOk result (λ op. may_ask op ≡ true) }
{
    let file = FileId::parse(alloc, b"/1")?;
    match asking {
        Asking::Guard => Ok(Op::OpenFile {
            file,
            h: 1,
            modes: GUARDS,
        }),
        Asking::Write => Ok(Op::OpenFile {
            file,
            h: 2,
            modes: WRITES,
        }),
        Asking::Read => Ok(Op::OpenFile {
            file,
            h: 2,
            modes: READS,
        }),
        Asking::Close => Ok(Op::Close { file, h: 1 }),
    }
}

/// What is noted of it.
fn noted(alloc: Global, core: &mut ClientCore, asking: Asking) -> Result<String, Fail> {
    let op = op_of(alloc, asking)?;
    let text = noted_of(alloc, core, &op);
    spend(op);
    text
}

fn noted_of(alloc: Global, core: &mut ClientCore, op: &Op) -> Result<String, Fail>
    requires { may_ask op.now ≡ true }
{
    let out = core.act(alloc, NOW, op)?;
    let text = text_of(alloc, &out.note);
    spend(out);
    text
}

/// The user asks for the operation, and this is noted.
fn asks(
    rt: &impl Abort,
    alloc: Global,
    core: &mut ClientCore,
    asking: Asking,
    wanted: &str,
) -> Result<(), Fail> {
    reads(rt, noted(alloc, core, asking)?, wanted);
    Ok(())
}

/// The answer of these bytes comes, and so many leases with it or so many entries admitted.
fn hears_of(
    rt: &impl Abort,
    alloc: Global,
    core: &mut ClientCore,
    bytes: &[u8],
    wanted: (&'static str, u64),
) -> Result<(), Fail> {
    let (word, number, _) = hears(alloc, core, NOW, 0, bytes, Way::AtOnce)?;
    same(rt, (word, number), wanted);
    Ok(())
}

/// The numbers of the leases that the entry uses, behind these.
fn add_used(used: &mut List<u64>, uses: &[Use]) -> Result<(), Fail> {
    for u in uses {
        used.push(u.no.count)?;
    }
    Ok(())
}

/// The numbers of the leases that the entries use, one entry after another.
fn used_by(alloc: Global, entries: &[Entry]) -> Result<List<u64>, Fail> {
    let mut used = List::new(alloc);
    for entry in entries {
        add_used(&mut used, entry.uses.as_slice())?;
    }
    Ok(used)
}

/// The numbers of the leases that the entries use that are handed in.
fn used_in(alloc: Global, sent: &Option<(u8, ClientMsg)>) -> Result<List<u64>, Fail> {
    match sent {
        Some((_, ClientMsg::Ship { entries })) => used_by(alloc, entries.as_slice()),
        _ => Err(Fail::from("nothing is handed in")),
    }
}

/// The numbers of the leases that the entries use that the client hands in at its turn.
fn handed_in(alloc: Global, core: &mut ClientCore) -> Result<List<u64>, Fail> {
    let out = core.turn(alloc, NOW)?;
    let used = used_in(alloc, &out.send);
    spend(out);
    used
}

/// The log is handed in, in entries that use these leases.
fn ships(
    rt: &impl Abort,
    alloc: Global,
    core: &mut ClientCore,
    wanted: &[u64],
) -> Result<(), Fail> {
    let used = handed_in(alloc, core)?;
    same(rt, used.as_slice(), wanted);
    Ok(())
}

const OTHERS: &str = "Asked { needs: List { items: [Lease(Life(FileId { numbers: [1] }), Shared), \
    Lease(Own(FileId { numbers: [1] }), Exclusive), Lease(Other(FileId { numbers: [1] }, AccW), Shared), \
    Lease(Other(FileId { numbers: [1] }, AccD), Shared), Lease(Other(FileId { numbers: [1] }, DenyR), Shared)] }, to: 0 }";

const SELVES: &str =
    "Asked { needs: List { items: [Lease(SelfW(FileId { numbers: [1] }, AccR), Exclusive), \
    Lease(SelfW(FileId { numbers: [1] }, DenyW), Exclusive), Lease(SelfW(FileId { numbers: [1] }, DenyD), Exclusive)] }, \
    to: 0 }";

const OPENED: &str = "Replied { n: 1, reply: Opened }";

const REFUSED: &str = "ReadNow { n: 2, reply: Sharing }";

const OPENED_TOO: &str = "Replied { n: 3, reply: Opened }";

const CLOSED: &str = "Replied { n: 4, reply: Closed }";

/// An open asks for what it keeps from the others, and then, knowing the session's handles, for what it turns on.
fn opens(rt: &impl Abort, alloc: Global, core: &mut ClientCore) -> Result<(), Fail> {
    asks(rt, alloc, core, Asking::Guard, OTHERS)?;
    hears_of(rt, alloc, core, said::OTHERS, ("granted", 5))?;
    asks(rt, alloc, core, Asking::Guard, SELVES)?;
    hears_of(rt, alloc, core, said::SELVES, ("granted", 3))?;
    asks(rt, alloc, core, Asking::Guard, OPENED)?;
    ships(rt, alloc, core, &[1, 2, 3, 4, 5, 6, 7, 8])?;
    hears_of(rt, alloc, core, said::SHIPPED_1, ("shipped", 1))
}

/// An open beside the first is answered at once, and a close turns off only what the other handle does not have.
fn closes(rt: &impl Abort, alloc: Global, core: &mut ClientCore) -> Result<(), Fail> {
    asks(rt, alloc, core, Asking::Write, REFUSED)?;
    asks(rt, alloc, core, Asking::Read, OPENED_TOO)?;
    asks(rt, alloc, core, Asking::Close, CLOSED)?;
    ships(rt, alloc, core, &[1, 2, 5, 2, 7, 8])?;
    hears_of(rt, alloc, core, said::SHIPPED_2, ("shipped", 2))
}

/// One after the other.
fn opens_and_closes(rt: &impl Abort, alloc: Global, core: &mut ClientCore) -> Result<(), Fail> {
    opens(rt, alloc, core)?;
    closes(rt, alloc, core)
}

#[test]
fn a_close_keeps_what_another_handle_has(rt: HostRuntime) -> Result<(), Fail> {
    let mut core = ClientCore::new(rt.alloc(), Session(1), 100)?;
    let done = opens_and_closes(&rt, rt.alloc(), &mut core);
    core.discard();
    done
}
