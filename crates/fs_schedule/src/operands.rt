//! What operations are asked of and fields are of, read from all the words behind the first one.
ghost use Rattle.std.specs.Prelude.{◌∷◌, []};
ghost use Rattle.fs_ident.specs.Ident.{IsId};
ghost use Rattle.fs_ident.specs.IdText.{id_text};
ghost use Rattle.fs_schedule.specs.Words.{Bare};
ghost use Rattle.fs_schedule.specs.Operands.{file_mode_words, IsFileMode, place_words, IsPlace, entry_words, IsEntry, places_words, ArePlaces, handle_words, IsHandle, opening_words, IsOpening, values_words, AreValues, setting_words, IsSetting};
ghost use Rattle.fs_schedule.specs.Reading.{Reads, ReadsSurely, word_of, words_in};

use crate::operand::{handle_at, id_at, kind_at, mode_at, modes_at, name_at, number_at};
use crate::unread::Unread;
use crate::word::Word;
use fs_ident::{FileId, Kind, Name};
use fs_modes::{Mode, Modes};
use std::alloc::Global;

/// A file.
pub fn file_in(alloc: Global, words: &[Word]) -> Result<FileId, Unread>
    ensures { Reads (λ file. Bare (id_text file) ∷ []) IsId result (words_in words.now) }
{
    let [file] = words else {
        return Err(Unread::Outside);
    };
    id_at(alloc, file)
}

/// A file and a mode.
pub fn file_mode_in(alloc: Global, words: &[Word]) -> Result<(FileId, Mode), Unread>
    ensures { Reads file_mode_words IsFileMode result (words_in words.now) }
{
    let [file, mode] = words else {
        return Err(Unread::Outside);
    };
    let file = id_at(alloc, file)?;
    let mode = mode_at(mode)?;
    Ok((file, mode))
}

/// A directory and a name in it.
pub fn place_in(alloc: Global, words: &[Word]) -> Result<(FileId, Name), Unread>
    ensures { Reads place_words IsPlace result (words_in words.now) }
{
    let [dir, name] = words else {
        return Err(Unread::Outside);
    };
    place_at(alloc, dir, name)
}

fn place_at(alloc: Global, dir: &Word, name: &Word) -> Result<(FileId, Name), Unread>
    ensures { Reads place_words IsPlace result (word_of dir.now ∷ word_of name.now ∷ []) }
{
    let dir = id_at(alloc, dir)?;
    let name = name_at(alloc, name)?;
    Ok((dir, name))
}

/// A directory, a name in it, and a kind.
pub fn entry_in(alloc: Global, words: &[Word]) -> Result<(FileId, Name, Kind), Unread>
    ensures { Reads entry_words IsEntry result (words_in words.now) }
{
    let [dir, name, kind] = words else {
        return Err(Unread::Outside);
    };
    let (dir, name) = place_at(alloc, dir, name)?;
    let kind = kind_at(kind)?;
    Ok((dir, name, kind))
}

/// A directory and a name in it, and the same again.
pub fn places_in(alloc: Global, words: &[Word]) -> Result<(FileId, Name, FileId, Name), Unread>
    ensures { Reads places_words ArePlaces result (words_in words.now) }
{
    let [sdir, sname, rest @ ..] = words else {
        return Err(Unread::Outside);
    };
    let (sdir, sname) = place_at(alloc, sdir, sname)?;
    let (ddir, dname) = place_in(alloc, rest)?;
    Ok((sdir, sname, ddir, dname))
}

/// A file and the number of a handle.
pub fn handle_in(alloc: Global, words: &[Word]) -> Result<(FileId, u32), Unread>
    ensures { Reads handle_words IsHandle result (words_in words.now) }
{
    let [file, h] = words else {
        return Err(Unread::Outside);
    };
    handle_of(alloc, file, h)
}

fn handle_of(alloc: Global, file: &Word, h: &Word) -> Result<(FileId, u32), Unread>
    ensures { Reads handle_words IsHandle result (word_of file.now ∷ word_of h.now ∷ []) }
{
    let file = id_at(alloc, file)?;
    let h = handle_at(h)?;
    Ok((file, h))
}

/// A file, the number of a handle, and modes.
pub fn opening_in(alloc: Global, words: &[Word]) -> Result<(FileId, u32, Modes), Unread>
    ensures { Reads opening_words IsOpening result (words_in words.now) }
{
    let [file, h, rest @ ..] = words else {
        return Err(Unread::Outside);
    };
    let (file, h) = handle_of(alloc, file, h)?;
    let modes = modes_at(rest)?;
    Ok((file, h, modes))
}

/// A file, the number of a handle, a size and a stamp.
pub fn setting_in(alloc: Global, words: &[Word]) -> Result<(FileId, u32, u64, u64), Unread>
    ensures { Reads setting_words IsSetting result (words_in words.now) }
{
    let [file, h, rest @ ..] = words else {
        return Err(Unread::Outside);
    };
    let (file, h) = handle_of(alloc, file, h)?;
    let (size, stamp) = values_in(rest)?;
    Ok((file, h, size, stamp))
}

fn values_in(words: &[Word]) -> Result<(u64, u64), Unread>
    ensures { ReadsSurely values_words AreValues result (words_in words.now) }
{
    let [size, stamp] = words else {
        return Err(Unread::Outside);
    };
    let size = number_at(u64::MAX, size)?;
    let stamp = number_at(u64::MAX, stamp)?;
    Ok((size, stamp))
}
