//! What operations are asked of, each read from one word.
ghost use Rattle.std.specs.Prelude.{◌≡◌, ◌∷◌, ◌≤◌, ◌<◌, ◌^◌, ◌↔◌, [], true, IfSome, IsTrue};
ghost use Rattle.std.specs.Fmt.{decimal};
ghost use Rattle.fs_ident.specs.Ident.{IsId};
ghost use Rattle.fs_ident.specs.IdText.{id_text};
ghost use Rattle.fs_ident.specs.Name.{IsName};
ghost use Rattle.fs_modes.specs.Modes.{has_access};
ghost use Rattle.fs_modes.specs.Letters.{acc_text, deny_text, mode_text};
ghost use Rattle.fs_schedule.specs.Words.{Bare, Quoted};
ghost use Rattle.fs_schedule.specs.Spelling.{kind_text, packet_word};
ghost use Rattle.fs_schedule.specs.Reading.{Reads, ReadsSurely, Refuses, word_of, words_in, Always};

use crate::number::number_of;
use crate::unread::Unread;
use crate::word::Word;
use fs_ident::{FileId, IdError, Kind, Name};
use fs_modes::{Mode, Modes};
use std::alloc::Global;

/// Whether the word is these bare bytes.
pub fn is_bare(word: &Word, text: &[u8]) -> bool
    ensures { IsTrue result ↔ (word_of word.now ≡ Bare text.now) }
{
    match word {
        Word::Bare(bytes) => *bytes == text,
        Word::Quoted(_) => false,
    }
}

/// A number, `most` at most.
pub fn number_at(most: u64, word: &Word) -> Result<u64, Unread>
    ensures { ReadsSurely (λ n. Bare (decimal n)) (λ n. n ≤ most) result (word_of word.now) }
{
    let Word::Bare(digits) = word else {
        return Err(Unread::Outside);
    };
    let n = number_of(digits)?;
    if most < n {
        return Err(Unread::Outside);
    }
    Ok(n)
}

/// A number from 1, `most` at most.
pub fn count_at(most: u64, word: &Word) -> Result<u64, Unread>
    ensures { ReadsSurely (λ n. Bare (decimal n)) (λ n. (1 ≤ n) × (n ≤ most)) result
        (word_of word.now) }
{
    let n = number_at(most, word)?;
    if n == 0 {
        return Err(Unread::Outside);
    }
    Ok(n)
}

/// The number of a handle.
pub fn handle_at(word: &Word) -> Result<u32, Unread>
    ensures { ReadsSurely (λ h. Bare (decimal h)) (λ h. h < 2 ^ 32) result (word_of word.now) }
{
    let n = number_at(u64::from(u32::MAX), word)?;
    Ok(n as u32)
}

/// The number of a packet, or nothing for the least one that was never told.
pub fn packet_at(word: &Word) -> Result<Option<u64>, Unread>
    ensures { ReadsSurely packet_word (λ number. IfSome number (λ n. n < 2 ^ 64)) result
        (word_of word.now) }
{
    if is_bare(word, b"next") {
        return Ok(None);
    }
    let n = number_at(u64::MAX, word)?;
    Ok(Some(n))
}

/// An identifier.
pub fn id_at(alloc: Global, word: &Word) -> Result<FileId, Unread>
    ensures { Reads (λ id. Bare (id_text id)) IsId result (word_of word.now) }
{
    let Word::Bare(text) = word else {
        return Err(Unread::Outside);
    };
    match FileId::parse(alloc, text) {
        Ok(id) => Ok(id),
        Err(IdError::BadText { .. }) => Err(Unread::Outside),
        Err(IdError::Memory) => Err(Unread::Memory),
        Err(_) => unreachable!(),
    }
}

/// A name.
pub fn name_at(alloc: Global, word: &Word) -> Result<Name, Unread>
    ensures read { Reads (λ name. Quoted name) IsName result (word_of word.now) }
    ensures outside { Refuses (λ name. Quoted name) IsName result (word_of word.now) }
{
    let Word::Quoted(bytes) = word else {
        return Err(Unread::Outside);
    };
    match Name::new(alloc, bytes) {
        Ok(name) => Ok(name),
        Err(IdError::BadName { .. }) => Err(Unread::Outside),
        Err(IdError::Memory) => Err(Unread::Memory),
        Err(_) => unreachable!(),
    }
}

/// A kind.
pub fn kind_at(word: &Word) -> Result<Kind, Unread>
    ensures { ReadsSurely (λ kind. Bare (kind_text kind)) Always result (word_of word.now) }
{
    if is_bare(word, b"file") {
        Ok(Kind::File)
    } else if is_bare(word, b"dir") {
        Ok(Kind::Dir)
    } else {
        Err(Unread::Outside)
    }
}

/// One of the six modes.
pub fn mode_at(word: &Word) -> Result<Mode, Unread>
    ensures { ReadsSurely (λ mode. Bare (mode_text mode)) Always result (word_of word.now) }
{
    if is_bare(word, b"aR") {
        Ok(Mode::AccR)
    } else if is_bare(word, b"aW") {
        Ok(Mode::AccW)
    } else if is_bare(word, b"aD") {
        Ok(Mode::AccD)
    } else if is_bare(word, b"dR") {
        Ok(Mode::DenyR)
    } else if is_bare(word, b"dW") {
        Ok(Mode::DenyW)
    } else if is_bare(word, b"dD") {
        Ok(Mode::DenyD)
    } else {
        Err(Unread::Outside)
    }
}

/// The modes that the two words are.
pub fn modes_at(words: &[Word]) -> Result<Modes, Unread>
    ensures { ReadsSurely (λ m. Bare (acc_text m) ∷ Bare (deny_text m) ∷ [])
        (λ m. has_access m ≡ true) result (words_in words.now) }
{
    let [Word::Bare(acc), Word::Bare(deny)] = words else {
        return Err(Unread::Outside);
    };
    match Modes::read(acc, deny) {
        Some(modes) => Ok(modes),
        None => Err(Unread::Outside),
    }
}
