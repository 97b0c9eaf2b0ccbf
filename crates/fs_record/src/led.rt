//! What a delete or a rename does to fields, by its reply and the file that goes or moves.
ghost use Rattle.std.specs.Prelude.{◌≡◌, [], ◌∷◌, Some, None, IfOk};
ghost use Rattle.fs_field.specs.declared.effect.Effect.TheVariants.{SetChild, SetParent, RemoveNode};
ghost use Rattle.fs_record.specs.LedEffects.{led_effects, move_effects, removal_effects};

use fs_field::Effect;
use fs_ident::{FileId, List, Memory, Name, Twin, copy_two, zip_ok};
use fs_model::{Op, Reply};
use std::alloc::Global;

/// The effects of the operation that got the reply, in order, where it is a delete or a rename; `file` is the file that goes
/// or moves. None for every other operation, and for every reply but `Deleted` to a delete and `Renamed` to a rename.
pub fn led_effects(
    alloc: Global,
    op: &Op,
    file: &FileId,
    reply: &Reply,
) -> Result<List<Effect>, Memory>
    ensures { IfOk result (λ told. told ≡ led_effects op.now file.now reply.now) }
{
    match (op, reply) {
        (
            Op::Rename {
                sdir,
                sname,
                ddir,
                dname,
            },
            Reply::Renamed,
        ) => moved(alloc, file, sdir, sname, ddir, dname),
        (Op::Delete { dir, name }, Reply::Deleted) => removed(alloc, file, dir, name),
        _ => Ok(List::new(alloc)),
    }
}

/// The file gets its new place and leaves the old one.
fn moved(
    alloc: Global,
    file: &FileId,
    sdir: &FileId,
    sname: &Name,
    ddir: &FileId,
    dname: &Name,
) -> Result<List<Effect>, Memory>
    ensures { IfOk result (λ told. told ≡
        move_effects file.now sdir.now sname.now ddir.now dname.now) }
{
    let mut told = List::new(alloc);
    told.push(named(alloc, ddir, dname, file)?)?;
    told.push(unnamed(alloc, sdir, sname)?)?;
    told.push(placed(alloc, file, ddir, dname)?)?;
    Ok(told)
}

/// The file leaves its place and lives no longer.
fn removed(alloc: Global, file: &FileId, dir: &FileId, name: &Name) -> Result<List<Effect>, Memory>
    ensures { IfOk result (λ told. told ≡ removal_effects file.now dir.now name.now) }
{
    let mut told = List::new(alloc);
    told.push(unnamed(alloc, dir, name)?)?;
    told.push(Effect::RemoveNode {
        file: file.copy(alloc)?,
    })?;
    Ok(told)
}

/// The name stands for the file.
fn named(alloc: Global, dir: &FileId, name: &Name, file: &FileId) -> Result<Effect, Memory>
    ensures { IfOk result (λ e. e ≡ SetChild dir.now name.now (Some file.now)) }
{
    let to = file.copy(alloc)?;
    let (to, (dir, name)) = zip_ok(to, copy_two(alloc, dir, name))?;
    Ok(Effect::SetChild {
        dir,
        name,
        to: Some(to),
    })
}

/// The name stands for none.
fn unnamed(alloc: Global, dir: &FileId, name: &Name) -> Result<Effect, Memory>
    ensures { IfOk result (λ e. e ≡ SetChild dir.now name.now None) }
{
    let (dir, name) = copy_two(alloc, dir, name)?;
    Ok(Effect::SetChild {
        dir,
        name,
        to: None,
    })
}

/// The file stands in this place.
fn placed(alloc: Global, file: &FileId, dir: &FileId, name: &Name) -> Result<Effect, Memory>
    ensures { IfOk result (λ e. e ≡ SetParent file.now dir.now name.now) }
{
    let file = file.copy(alloc)?;
    let (file, (dir, name)) = zip_ok(file, copy_two(alloc, dir, name))?;
    Ok(Effect::SetParent { file, dir, name })
}
