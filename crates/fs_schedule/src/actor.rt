//! The actors of a form, each read from one word.
ghost use Rattle.fs_schedule.specs.Spelling.{IsServerIn, server_word};
ghost use Rattle.fs_schedule.specs.Reading.{ReadsSurely, TellsSurely, word_of, IsToldPeer};

use crate::event::Head;
use crate::head::servers_in;
use crate::number::number_of;
use crate::session::{behind, session_at};
use crate::unread::Unread;
use crate::word::Word;
use fs_ident::{Peer, Session};

/// A server of the form.
pub fn server_at(head: Head, word: &Word) -> Result<u8, Unread>
    ensures { ReadsSurely server_word (IsServerIn head) result (word_of word.now) }
{
    let Word::Bare(text) = word else {
        return Err(Unread::Outside);
    };
    let Some(digits) = behind(text, b's') else {
        return Err(Unread::Outside);
    };
    let k = number_of(digits)?;
    if u64::from(servers_in(head)) <= k {
        return Err(Unread::Outside);
    }
    Ok(k as u8)
}

/// A server of the form, or a client's session with one above the limit as one more than the limit.
pub fn peer_at(head: Head, word: &Word) -> Result<Peer, Unread>
    ensures { TellsSurely (IsToldPeer head) result (word_of word.now) }
{
    let Word::Bare(text) = word else {
        return Err(Unread::Outside);
    };
    match behind(text, b's') {
        Some(_) => {
            let k = server_at(head, word)?;
            Ok(Peer::Server(k))
        }
        None => {
            let number = session_at(word)?;
            Ok(Peer::Client(Session(number)))
        }
    }
}
