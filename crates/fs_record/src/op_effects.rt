//! What an operation does to fields, by its reply.
ghost use Rattle.std.specs.Prelude.{◌≡◌, true, [], ◌∷◌, ◌++◌, map, Some, IfOk, OnOk};
ghost use Rattle.fs_field.specs.declared.effect.Effect.TheVariants.{SetChild, NewNode, RemoveHandle};
ghost use Rattle.fs_record.specs.Effects.{tells_its_effects, effects_of};
ghost use Rattle.fs_record.specs.ValueOf.{own_of};

use fs_field::Effect;
use fs_ident::{FileId, Kind, List, Memory, Name, Session, Twin, copy_two};
use fs_model::{Handle, Op, Reply};
use std::alloc::Global;

/// Whether the operation and its reply tell its effects: it is no rename, no delete and no reap.
pub fn tells_its_effects(op: &Op) -> bool
    ensures { result ≡ tells_its_effects op.now }
{
    !matches!(op, Op::Rename { .. } | Op::Delete { .. } | Op::Reap { .. })
}

/// The effects of the session's operation that got the reply, in order. `tells_its_effects` is the test of which
/// operations it takes.
pub fn effects(alloc: Global, by: Session, op: &Op, reply: &Reply) -> Result<List<Effect>, Memory>
    requires { tells_its_effects op.now ≡ true }
    ensures { IfOk result (λ told. told ≡ effects_of by op.now reply.now) }
{
    match (op, reply) {
        (
            Op::Create {
                dir,
                name,
                kind,
                id: Some(file),
            },
            Reply::Made,
        ) => made(alloc, dir, name, *kind, file),
        (Op::OpenFile { file, h, modes }, Reply::Opened) => single(
            alloc,
            Effect::AddHandle {
                file: file.copy(alloc)?,
                session: by,
                h: *h,
                modes: *modes,
            },
        ),
        (Op::Close { file, h }, Reply::Closed) => single(
            alloc,
            Effect::RemoveHandle {
                file: file.copy(alloc)?,
                session: by,
                h: *h,
            },
        ),
        (
            Op::Set {
                file,
                h: _,
                size,
                stamp,
            },
            Reply::Set,
        ) => single(
            alloc,
            Effect::SetInfo {
                file: file.copy(alloc)?,
                size: *size,
                stamp: *stamp,
            },
        ),
        _ => Ok(List::new(alloc)),
    }
}

/// The name stands for the new file, and the file begins to live.
fn made(
    alloc: Global,
    dir: &FileId,
    name: &Name,
    kind: Kind,
    file: &FileId,
) -> Result<List<Effect>, Memory>
    ensures { IfOk result (λ told. told ≡ SetChild dir.now name.now (Some file.now) ∷
        NewNode file.now kind dir.now name.now ∷ []) }
{
    let mut told = single(alloc, linked(alloc, dir, name, file)?)?;
    told.push(begun(alloc, dir, name, kind, file)?)?;
    Ok(told)
}

/// The name stands for the file.
fn linked(alloc: Global, dir: &FileId, name: &Name, file: &FileId) -> Result<Effect, Memory>
    ensures { IfOk result (λ e. e ≡ SetChild dir.now name.now (Some file.now)) }
{
    let to = file.copy(alloc)?;
    let (dir, name) = copy_two(alloc, dir, name)?;
    Ok(Effect::SetChild {
        dir,
        name,
        to: Some(to),
    })
}

/// The file begins to live.
fn begun(
    alloc: Global,
    dir: &FileId,
    name: &Name,
    kind: Kind,
    file: &FileId,
) -> Result<Effect, Memory>
    ensures { IfOk result (λ e. e ≡ NewNode file.now kind dir.now name.now) }
{
    let file = file.copy(alloc)?;
    let (dir, name) = copy_two(alloc, dir, name)?;
    Ok(Effect::NewNode {
        file,
        kind,
        dir,
        name,
    })
}

/// One effect alone.
fn single(alloc: Global, e: Effect) -> Result<List<Effect>, Memory>
    ensures { IfOk result (λ told. told ≡ e ∷ []) }
{
    let mut told = List::new(alloc);
    told.push(e)?;
    Ok(told)
}

/// The effects of a reap: each of the session's handles, of these on the file, is taken away.
#[tactic(auto, using(crate::proofs::Reaping::reap_step))]
pub fn reap(
    alloc: Global,
    file: &FileId,
    handles: &[Handle],
    by: Session,
) -> Result<List<Effect>, Memory>
    ensures { IfOk result (λ told. told ≡
        map (λ h. RemoveHandle file.now by h.0) (own_of by handles.now)) }
{
    let mut told = List::new(alloc);
    for x in handles {
        if x.session.0 == by.0 {
            add_close(alloc, &mut told, file, by, x.h)?;
        }
    }
    Ok(told)
}

/// Adds that the handle is taken away.
fn add_close(
    alloc: Global,
    told: &mut List<Effect>,
    file: &FileId,
    by: Session,
    h: u32,
) -> Result<(), Memory>
    ensures { OnOk result (told.new ≡ told.old ++ RemoveHandle file.now by h ∷ []) }
{
    told.push(Effect::RemoveHandle {
        file: file.copy(alloc)?,
        session: by,
        h,
    })
}
