//! The operations of made schedules.
ghost use Rattle.std.specs.Prelude.{◌≡◌, ◌≤◌, ◌∷◌, [], IfOk};
ghost use Rattle.fs_ident.specs.Name.{IsName};
ghost use Rattle.fs_schedule.specs.Made.{creates_dir, drawn_op, file_name, moves_dir, numbered_name, op_of, state_behind};

use crate::draws::{Draws, drawn, stirred};
use fs_ident::{FileId, IdError, Kind, Memory, Name, zip_ok};
use fs_model::Op;
use fs_modes::Modes;
use std::alloc::Global;

/// Reading, and nothing is denied.
const READING: Modes = Modes {
    acc_r: true,
    acc_w: false,
    acc_d: false,
    deny_r: false,
    deny_w: false,
    deny_d: false,
};

/// The operation that was drawn, and the state of the draws behind it: where it is a rename, the
/// directory to which it goes is drawn too.
pub(crate) fn drawn_op(alloc: Global, draws: &Draws) -> Result<(Op, u64), Memory>
    requires dir { 1 ≤ draws.now.dir }
    requires file { 1 ≤ draws.now.file }
    requires few { draws.now.file ≤ 5 }
    ensures { IfOk result (λ r.
        (r.0 ≡ drawn_op draws.now) × (r.1 ≡ state_behind draws.now)) }
{
    let after = stirred(draws.state);
    let to = 1 + drawn(after, 8) as u32;
    let state = if draws.kind == 6 { after } else { draws.state };
    let op = op_of(alloc, draws.kind, draws.dir, draws.file, to)?;
    Ok((op, state))
}

/// The operation of a kind on a file of a directory; a file that goes away goes to the other
/// directory.
fn op_of(alloc: Global, kind: u64, dir: u32, file: u32, to: u32) -> Result<Op, Memory>
    requires dir { 1 ≤ dir }
    requires file { 1 ≤ file }
    requires few { file ≤ 5 }
    requires to { 1 ≤ to }
    ensures { IfOk result (λ o. o ≡ op_of kind dir file to) }
{
    match kind {
        0 => create_file(alloc, dir, file),
        1 => lookup(alloc, dir, file),
        2 => list(alloc, dir),
        3 => open(alloc, dir, file),
        4 => close(alloc, dir, file),
        5 => info(alloc, dir, file),
        6 => rename(alloc, dir, file, to),
        _ => delete(alloc, dir, file),
    }
}

fn create_file(alloc: Global, dir: u32, file: u32) -> Result<Op, Memory>
    requires dir { 1 ≤ dir }
    requires few { file ≤ 5 }
    ensures { IfOk result (λ o. o ≡ op_of 0 dir file 0) }
{
    let (dir, name) = place(alloc, dir, file)?;
    Ok(Op::Create {
        dir,
        name,
        kind: Kind::File,
        id: None,
    })
}

fn lookup(alloc: Global, dir: u32, file: u32) -> Result<Op, Memory>
    requires dir { 1 ≤ dir }
    requires few { file ≤ 5 }
    ensures { IfOk result (λ o. o ≡ op_of 1 dir file 0) }
{
    let (dir, name) = place(alloc, dir, file)?;
    Ok(Op::Lookup { dir, name })
}

fn list(alloc: Global, dir: u32) -> Result<Op, Memory>
    requires { 1 ≤ dir }
    ensures { IfOk result (λ o. o ≡ op_of 2 dir 0 0) }
{
    Ok(Op::List {
        dir: dir_id(alloc, dir)?,
    })
}

fn open(alloc: Global, dir: u32, file: u32) -> Result<Op, Memory>
    requires dir { 1 ≤ dir }
    requires file { 1 ≤ file }
    ensures { IfOk result (λ o. o ≡ op_of 3 dir file 0) }
{
    Ok(Op::OpenFile {
        file: file_id(alloc, dir, file)?,
        h: 1,
        modes: READING,
    })
}

fn close(alloc: Global, dir: u32, file: u32) -> Result<Op, Memory>
    requires dir { 1 ≤ dir }
    requires file { 1 ≤ file }
    ensures { IfOk result (λ o. o ≡ op_of 4 dir file 0) }
{
    Ok(Op::Close {
        file: file_id(alloc, dir, file)?,
        h: 1,
    })
}

fn info(alloc: Global, dir: u32, file: u32) -> Result<Op, Memory>
    requires dir { 1 ≤ dir }
    requires file { 1 ≤ file }
    ensures { IfOk result (λ o. o ≡ op_of 5 dir file 0) }
{
    Ok(Op::Info {
        file: file_id(alloc, dir, file)?,
    })
}

fn rename(alloc: Global, dir: u32, file: u32, to: u32) -> Result<Op, Memory>
    requires dir { 1 ≤ dir }
    requires few { file ≤ 5 }
    requires to { 1 ≤ to }
    ensures { IfOk result (λ o. o ≡ op_of 6 dir file to) }
{
    let (source, target) = zip_ok(place(alloc, dir, file)?, place(alloc, to, file))?;
    Ok(Op::Rename {
        sdir: source.0,
        sname: source.1,
        ddir: target.0,
        dname: target.1,
    })
}

fn delete(alloc: Global, dir: u32, file: u32) -> Result<Op, Memory>
    requires dir { 1 ≤ dir }
    requires few { file ≤ 5 }
    ensures { IfOk result (λ o. o ≡ op_of 7 dir file 0) }
{
    let (dir, name) = place(alloc, dir, file)?;
    Ok(Op::Delete { dir, name })
}

/// The directory of a number is created in the root.
pub(crate) fn create_dir(alloc: Global, k: u8) -> Result<Op, Memory>
    requires { k ≤ 9 }
    ensures { IfOk result (λ o. o ≡ creates_dir k) }
{
    Ok(Op::Create {
        dir: FileId::root(alloc),
        name: name_of(alloc, b'd', k)?,
        kind: Kind::Dir,
        id: None,
    })
}

/// The first directory goes into the second one, under its name.
pub(crate) fn move_dir(alloc: Global) -> Result<Op, Memory>
    ensures { IfOk result (λ o. o ≡ moves_dir) }
{
    let names = zip_ok(name_of(alloc, b'd', 1)?, name_of(alloc, b'd', 1))?;
    let (names, ddir) = zip_ok(names, dir_id(alloc, 2))?;
    Ok(Op::Rename {
        sdir: FileId::root(alloc),
        sname: names.0,
        ddir,
        dname: names.1,
    })
}

/// The directory, and the name of the file in it.
fn place(alloc: Global, dir: u32, file: u32) -> Result<(FileId, Name), Memory>
    requires dir { 1 ≤ dir }
    requires few { file ≤ 5 }
    ensures { IfOk result (λ p. (p.0 ≡ dir ∷ []) × (p.1 ≡ file_name file)) }
{
    zip_ok(dir_id(alloc, dir)?, name_of(alloc, b'f', file as u8))
}

/// The directory of a number.
#[tactic(auto, using(crate::proofs::Parts::dir_valid))]
pub(crate) fn dir_id(alloc: Global, dir: u32) -> Result<FileId, Memory>
    requires { 1 ≤ dir }
    ensures { IfOk result (λ id. id ≡ dir ∷ []) }
{
    let numbers = Vec::from_slice(alloc, &[dir])?;
    Ok(FileId::from_numbers(numbers))
}

/// The file of a number in the directory.
#[tactic(auto, using(crate::proofs::Parts::file_valid))]
fn file_id(alloc: Global, dir: u32, file: u32) -> Result<FileId, Memory>
    requires dir { 1 ≤ dir }
    requires file { 1 ≤ file }
    ensures { IfOk result (λ id. id ≡ dir ∷ file ∷ []) }
{
    let numbers = Vec::from_slice(alloc, &[dir, file])?;
    Ok(FileId::from_numbers(numbers))
}

/// The name of a letter and a digit.
fn name_of(alloc: Global, letter: u8, digit: u8) -> Result<Name, Memory>
    requires digit { digit ≤ 9 }
    requires name { IsName (numbered_name letter digit) }
    ensures { IfOk result (λ name. name ≡ numbered_name letter digit) }
{
    match Name::new(alloc, &[letter, b'0' + digit]) {
        Ok(name) => Ok(name),
        Err(IdError::Memory) => Err(Memory),
        Err(IdError::BadName { .. }) => unreachable!(),
        Err(_) => unreachable!(),
    }
}
