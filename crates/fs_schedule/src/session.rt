//! Numbers of sessions, which the grammar does not bound.
ghost use Rattle.std.specs.Prelude.{◌≡◌, ◌∷◌, ℕ, List as Seq, IfSome, IfNone};
ghost use Rattle.fs_schedule.specs.Reading.{TellsSurely, word_of, IsToldSession};

use crate::number::count_up_to;
use crate::unread::Unread;
use crate::word::Word;
use fs_ident::SESSIONS;

/// The number of a session, `SESSIONS` and one for each greater one.
pub fn session_at(word: &Word) -> Result<u16, Unread>
    ensures { TellsSurely IsToldSession result (word_of word.now) }
{
    let Word::Bare(text) = word else {
        return Err(Unread::Outside);
    };
    let Some(digits) = behind(text, b'c') else {
        return Err(Unread::Outside);
    };
    count_up_to(SESSIONS, digits)
}

/// What stands behind the first byte, where that is `b`.
pub fn behind(text: &[u8], b: u8) -> Option<&[u8]>
    ensures found { IfSome result (λ digits. text.now ≡ b ∷ digits.now) }
    ensures none { IfNone result ((digits : Seq ℕ) → text.now ≡ b ∷ digits → ⊥) }
{
    let [first, digits @ ..] = text else {
        return None;
    };
    if *first == b { Some(digits) } else { None }
}
