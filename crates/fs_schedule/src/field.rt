//! Fields, read from words.
ghost use Rattle.std.specs.Prelude.{◌∷◌, codes};
ghost use Rattle.fs_schedule.specs.Words.{Bare};
ghost use Rattle.fs_schedule.specs.Spelling.{field_words, FitsField};
ghost use Rattle.fs_schedule.specs.Reading.{Reads, word_of, words_in};

use crate::operand::is_bare;
use crate::operands::{file_in, file_mode_in, place_in};
use crate::unread::Unread;
use crate::word::Word;
use fs_field::Field;
use std::alloc::Global;

/// The field that the words name.
pub fn field_at(alloc: Global, words: &[Word]) -> Result<Field, Unread>
    ensures { Reads field_words FitsField result (words_in words.now) }
{
    let [first, operands @ ..] = words else {
        return Err(Unread::Outside);
    };
    field_by(alloc, first, operands)
}

/// The field that the first word and its operands name.
fn field_by(alloc: Global, first: &Word, operands: &[Word]) -> Result<Field, Unread>
    ensures { Reads field_words FitsField result (word_of first.now ∷ words_in operands.now) }
{
    if is_bare(first, b"life") {
        life_of(alloc, operands)
    } else if is_bare(first, b"child") {
        child_of(alloc, operands)
    } else if is_bare(first, b"names") {
        names_of(alloc, operands)
    } else if is_bare(first, b"info") {
        info_of(alloc, operands)
    } else if is_bare(first, b"self") {
        self_of(alloc, operands)
    } else if is_bare(first, b"other") {
        other_of(alloc, operands)
    } else {
        Err(Unread::Outside)
    }
}

fn life_of(alloc: Global, operands: &[Word]) -> Result<Field, Unread>
    ensures { Reads field_words FitsField result (Bare (codes "life") ∷ words_in operands.now) }
{
    let file = file_in(alloc, operands)?;
    Ok(Field::Life(file))
}

fn child_of(alloc: Global, operands: &[Word]) -> Result<Field, Unread>
    ensures { Reads field_words FitsField result (Bare (codes "child") ∷ words_in operands.now) }
{
    let (dir, name) = place_in(alloc, operands)?;
    Ok(Field::Child(dir, name))
}

fn names_of(alloc: Global, operands: &[Word]) -> Result<Field, Unread>
    ensures { Reads field_words FitsField result (Bare (codes "names") ∷ words_in operands.now) }
{
    let dir = file_in(alloc, operands)?;
    Ok(Field::Names(dir))
}

fn info_of(alloc: Global, operands: &[Word]) -> Result<Field, Unread>
    ensures { Reads field_words FitsField result (Bare (codes "info") ∷ words_in operands.now) }
{
    let file = file_in(alloc, operands)?;
    Ok(Field::Info(file))
}

fn self_of(alloc: Global, operands: &[Word]) -> Result<Field, Unread>
    ensures { Reads field_words FitsField result (Bare (codes "self") ∷ words_in operands.now) }
{
    let (file, mode) = file_mode_in(alloc, operands)?;
    Ok(Field::SelfW(file, mode))
}

fn other_of(alloc: Global, operands: &[Word]) -> Result<Field, Unread>
    ensures { Reads field_words FitsField result (Bare (codes "other") ∷ words_in operands.now) }
{
    let (file, mode) = file_mode_in(alloc, operands)?;
    Ok(Field::Other(file, mode))
}
