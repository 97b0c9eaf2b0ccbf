//! What a led operation asks of the servers of its files.
ghost use Rattle.std.specs.Prelude.{◌≡◌, map, IfOk, OnOk};
ghost use Rattle.std.specs.List.{list_any};
ghost use Rattle.fs_ident.specs.Ident.{same};
ghost use Rattle.fs_txn.specs.Parts.{source_of, with_file, led_files, uses_on, freeze_at, part_at, parts_of};

use crate::mode::Mode2;
use fs_field::{Part, Use};
use fs_ident::{FileId, List, Memory, Twin, add_copy, copy_two};
use fs_model::Op;
use std::alloc::Global;

/// The parts of a rename or a delete: one for each file among its home, the directory that loses a name, and `file`, which
/// moves or goes, in this order; each with the leases among `uses` on fields of its file. Where the mode is `Freeze` those of
/// the latter two freeze `file`. `Memory` when out of memory.
pub fn parts(
    alloc: Global,
    op: &Op,
    file: &FileId,
    uses: &List<Use>,
    mode: Mode2,
) -> Result<List<Part>, Memory>
    ensures { IfOk result (λ told. told ≡ parts_of op.now file.now uses.now mode) }
{
    let files = led_files(alloc, op, file)?;
    parts_at(alloc, mode, op, file, uses.as_slice(), files.as_slice())
}

/// What is asked of the servers of these files.
fn parts_at(
    alloc: Global,
    mode: Mode2,
    op: &Op,
    file: &FileId,
    uses: &[Use],
    files: &[FileId],
) -> Result<List<Part>, Memory>
    ensures { IfOk result (λ told. told ≡
        map (part_at mode op.now file.now uses.now) files.now) }
{
    let mut told = List::new(alloc);
    for at in files {
        told.push(part_at(alloc, mode, op, file, uses, at)?)?;
    }
    Ok(told)
}

/// The files of the operation, each once.
fn led_files(alloc: Global, op: &Op, file: &FileId) -> Result<List<FileId>, Memory>
    ensures { IfOk result (λ files. files ≡ led_files op.now file.now) }
{
    let mut files = List::new(alloc);
    add_copy(alloc, &mut files, op.home())?;
    add_file(alloc, &mut files, source(op))?;
    add_file(alloc, &mut files, file)?;
    Ok(files)
}

/// The directory that loses a name.
fn source(op: &Op) -> &FileId
    ensures { result.now ≡ source_of op.now }
{
    match op {
        Op::Rename { sdir, .. } => sdir,
        _ => op.home(),
    }
}

/// Adds the file, unless it is there.
fn add_file(alloc: Global, files: &mut List<FileId>, file: &FileId) -> Result<(), Memory>
    ensures { OnOk result (files.new ≡ with_file file.now files.old) }
{
    if has_file(files.as_slice(), file) {
        return Ok(());
    }
    add_copy(alloc, files, file)
}

/// Whether the file is one of these.
#[tactic(auto, using(crate::proofs::Steps::file_step))]
pub(crate) fn has_file(files: &[FileId], file: &FileId) -> bool
    ensures { result ≡ list_any (λ f. same f file.now) files.now }
{
    for x in files {
        if x == file {
            return true;
        }
    }
    false
}

/// What is asked of the server of the file `at`.
fn part_at(
    alloc: Global,
    mode: Mode2,
    op: &Op,
    file: &FileId,
    uses: &[Use],
    at: &FileId,
) -> Result<Part, Memory>
    ensures { IfOk result (λ p. p ≡ part_at mode op.now file.now uses.now at.now) }
{
    let uses = uses_on(alloc, uses, at)?;
    let (file, freeze) = copy_two(alloc, at, &freeze_at(alloc, mode, op, file, at)?)?;
    Ok(Part { file, uses, freeze })
}

/// The leases on fields of the file.
#[tactic(auto, using(crate::proofs::Steps::use_step))]
fn uses_on(alloc: Global, uses: &[Use], at: &FileId) -> Result<List<Use>, Memory>
    ensures { IfOk result (λ told. told ≡ uses_on at.now uses.now) }
{
    let mut told = List::new(alloc);
    for used in uses {
        if used.field.file() == at {
            add_copy(alloc, &mut told, used)?;
        }
    }
    Ok(told)
}

/// The file over which no path may be given out.
fn freeze_at(
    alloc: Global,
    mode: Mode2,
    op: &Op,
    file: &FileId,
    at: &FileId,
) -> Result<Option<FileId>, Memory>
    ensures { IfOk result (λ told. told ≡ freeze_at mode op.now file.now at.now) }
{
    if mode == Mode2::Freeze && (at == source(op) || at == file) {
        Ok(Some(file.copy(alloc)?))
    } else {
        Ok(None)
    }
}
