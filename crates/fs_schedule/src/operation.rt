//! Operations, read from words.
ghost use Rattle.std.specs.Prelude.{◌∷◌, codes};
ghost use Rattle.fs_schedule.specs.Words.{Bare};
ghost use Rattle.fs_schedule.specs.Spelling.{op_words, FitsOp};
ghost use Rattle.fs_schedule.specs.Reading.{Reads, word_of, words_in};

use crate::operand::is_bare;
use crate::operands::{entry_in, file_in, handle_in, opening_in, place_in, places_in, setting_in};
use crate::unread::Unread;
use crate::word::Word;
use fs_model::Op;
use std::alloc::Global;

/// The operation that the words ask for.
pub fn op_at(alloc: Global, words: &[Word]) -> Result<Op, Unread>
    ensures { Reads op_words FitsOp result (words_in words.now) }
{
    let [first, operands @ ..] = words else {
        return Err(Unread::Outside);
    };
    op_by(alloc, first, operands)
}

/// The operation that the first word asks for, with its operands.
fn op_by(alloc: Global, first: &Word, operands: &[Word]) -> Result<Op, Unread>
    ensures { Reads op_words FitsOp result (word_of first.now ∷ words_in operands.now) }
{
    if is_bare(first, b"lookup") {
        lookup_of(alloc, operands)
    } else if is_bare(first, b"list") {
        list_of(alloc, operands)
    } else if is_bare(first, b"kind") {
        kind_of(alloc, operands)
    } else if is_bare(first, b"info") {
        info_of(alloc, operands)
    } else if is_bare(first, b"create") {
        create_of(alloc, operands)
    } else if is_bare(first, b"open") {
        open_of(alloc, operands)
    } else if is_bare(first, b"close") {
        close_of(alloc, operands)
    } else if is_bare(first, b"set") {
        set_of(alloc, operands)
    } else if is_bare(first, b"delete") {
        delete_of(alloc, operands)
    } else if is_bare(first, b"rename") {
        rename_of(alloc, operands)
    } else {
        Err(Unread::Outside)
    }
}

fn lookup_of(alloc: Global, operands: &[Word]) -> Result<Op, Unread>
    ensures { Reads op_words FitsOp result
        (Bare (codes "lookup") ∷ words_in operands.now) }
{
    let (dir, name) = place_in(alloc, operands)?;
    Ok(Op::Lookup { dir, name })
}

fn list_of(alloc: Global, operands: &[Word]) -> Result<Op, Unread>
    ensures { Reads op_words FitsOp result
        (Bare (codes "list") ∷ words_in operands.now) }
{
    let dir = file_in(alloc, operands)?;
    Ok(Op::List { dir })
}

fn kind_of(alloc: Global, operands: &[Word]) -> Result<Op, Unread>
    ensures { Reads op_words FitsOp result
        (Bare (codes "kind") ∷ words_in operands.now) }
{
    let file = file_in(alloc, operands)?;
    Ok(Op::Kind { file })
}

fn info_of(alloc: Global, operands: &[Word]) -> Result<Op, Unread>
    ensures { Reads op_words FitsOp result
        (Bare (codes "info") ∷ words_in operands.now) }
{
    let file = file_in(alloc, operands)?;
    Ok(Op::Info { file })
}

fn create_of(alloc: Global, operands: &[Word]) -> Result<Op, Unread>
    ensures { Reads op_words FitsOp result
        (Bare (codes "create") ∷ words_in operands.now) }
{
    let (dir, name, kind) = entry_in(alloc, operands)?;
    Ok(Op::Create {
        dir,
        name,
        kind,
        id: None,
    })
}

fn open_of(alloc: Global, operands: &[Word]) -> Result<Op, Unread>
    ensures { Reads op_words FitsOp result
        (Bare (codes "open") ∷ words_in operands.now) }
{
    let (file, h, modes) = opening_in(alloc, operands)?;
    Ok(Op::OpenFile { file, h, modes })
}

fn close_of(alloc: Global, operands: &[Word]) -> Result<Op, Unread>
    ensures { Reads op_words FitsOp result
        (Bare (codes "close") ∷ words_in operands.now) }
{
    let (file, h) = handle_in(alloc, operands)?;
    Ok(Op::Close { file, h })
}

fn set_of(alloc: Global, operands: &[Word]) -> Result<Op, Unread>
    ensures { Reads op_words FitsOp result
        (Bare (codes "set") ∷ words_in operands.now) }
{
    let (file, h, size, stamp) = setting_in(alloc, operands)?;
    Ok(Op::Set {
        file,
        h,
        size,
        stamp,
    })
}

fn delete_of(alloc: Global, operands: &[Word]) -> Result<Op, Unread>
    ensures { Reads op_words FitsOp result
        (Bare (codes "delete") ∷ words_in operands.now) }
{
    let (dir, name) = place_in(alloc, operands)?;
    Ok(Op::Delete { dir, name })
}

fn rename_of(alloc: Global, operands: &[Word]) -> Result<Op, Unread>
    ensures { Reads op_words FitsOp result
        (Bare (codes "rename") ∷ words_in operands.now) }
{
    let (sdir, sname, ddir, dname) = places_in(alloc, operands)?;
    Ok(Op::Rename {
        sdir,
        sname,
        ddir,
        dname,
    })
}
