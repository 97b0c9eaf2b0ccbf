//! Lines read as words.
ghost use Rattle.std.specs.Prelude.{◌≡◌, ◌++◌, ◌∷◌, List as Seq, ℕ, Option, option_map, IfOk, IfSome, IfNone, IsErrOf};
ghost use Rattle.fs_schedule.specs.declared.unread.Unread.TheVariants.{Outside};
ghost use Rattle.fs_schedule.specs.Words.{Word as Spelled, word_text};
ghost use Rattle.fs_schedule.specs.Separated.{FitsWord, AreWords, rest_from};
ghost use Rattle.fs_schedule.specs.Reading.{word_of, words_in};

use crate::cut::cut;
use crate::unread::Unread;
use crate::word::Word;
use fs_ident::List;
use std::alloc::Global;

/// The words that the line is made of.
pub fn words_of<'a>(alloc: Global, line: &'a [u8]) -> Result<List<Word<'a>>, Unread>
    ensures found { IfOk result (λ ws. AreWords (words_in ws) line.now) }
    ensures none { IsErrOf result Outside → (ws : Seq Spelled) → AreWords ws line.now → ⊥ }
{
    let mut words = List::new(alloc);
    let mut rest = line;
    loop {
        let Some((word, after)) = next_word(rest) else {
            return Err(Unread::Outside);
        };
        words.push(word)?;
        match after {
            Some(more) => rest = more,
            None => return Ok(words),
        }
    }
}

/// The word at the front, and the bytes behind the space that ends it, where one does.
fn next_word<'a>(bytes: &'a [u8]) -> Option<(Word<'a>, Option<&'a [u8]>)>
    ensures fits { IfSome result (λ p. FitsWord (word_of p.0)) }
    ensures found { IfSome result
        (λ p. bytes.now ≡ word_text (word_of p.0) ++ rest_from 32 (option_map (λ r. r.now) p.1)) }
    ensures none { IfNone result ((w : Spelled) (more : Option (Seq ℕ)) → FitsWord w →
        bytes.now ≡ word_text w ++ rest_from 32 more → ⊥) }
{
    match bytes {
        [b'"', quoted @ ..] => quoted_word(quoted),
        _ => {
            let (word, rest) = cut(bytes, b' ');
            Some((Word::Bare(word), rest))
        }
    }
}

/// The quoted word behind its opening quote, and the bytes behind the space that ends it, where one does.
fn quoted_word<'a>(bytes: &'a [u8]) -> Option<(Word<'a>, Option<&'a [u8]>)>
    ensures fits { IfSome result (λ p. FitsWord (word_of p.0)) }
    ensures found { IfSome result (λ p. 34 ∷ bytes.now ≡
        word_text (word_of p.0) ++ rest_from 32 (option_map (λ r. r.now) p.1)) }
    ensures none { IfNone result ((w : Spelled) (more : Option (Seq ℕ)) → FitsWord w →
        34 ∷ bytes.now ≡ word_text w ++ rest_from 32 more → ⊥) }
{
    let (name, rest) = cut(bytes, b'"');
    let Some(rest) = rest else {
        return None;
    };
    let Some(after) = behind_space(rest) else {
        return None;
    };
    Some((Word::Quoted(name), after))
}

/// What stands behind a word that ends here: nothing, or a space and more.
fn behind_space(bytes: &[u8]) -> Option<Option<&[u8]>>
    ensures found { IfSome result (λ o. bytes.now ≡ rest_from 32 (option_map (λ r. r.now) o)) }
    ensures none { IfNone result ((o : Option (Seq ℕ)) → bytes.now ≡ rest_from 32 o → ⊥) }
{
    match bytes {
        [] => Some(None),
        [b' ', after @ ..] => Some(Some(after)),
        _ => None,
    }
}
