//! Messages as bytes.
ghost use Rattle.std.specs.Prelude.{◌≡◌, true};
ghost use Rattle.fs_wire.specs.Readers.{Gives, one_at};
ghost use Rattle.fs_msg.specs.Spelling.{message};
ghost use Rattle.fs_msg.specs.Reading.{is_message_tag, message_at};
ghost use Rattle.fs_msg.specs.Ranges.{FitsMessage};
ghost use Rattle.fs_msg.specs.Readable.{is_readable};

use crate::bytes::answer::{answer_of, is_answer_tag, put_answer};
use crate::bytes::client_msg::{client_of, is_client_tag, put_client};
use crate::bytes::peer_msg::{is_peer_tag, peer_of, put_peer};
use crate::msg::Msg;
use fs_wire::{ReadError, Wire, stop};
use std::alloc::{AllocError, Global};

/// Whether a message has the tag.
fn is_message_tag(b: u8) -> bool
    ensures { result ≡ is_message_tag b }
{
    is_client_tag(b) || is_answer_tag(b) || is_peer_tag(b)
}

/// The tag of a message.
#[tactic(auto, unfolding(fs_wire::specs::Readers::one_at))]
fn message_tag_of(bytes: &[u8]) -> Result<(u8, &[u8]), ReadError>
    ensures { Gives (λ x. (x.0, x.1.now)) result (one_at true is_message_tag bytes.now) }
{
    match bytes {
        [] => Err(stop(true, 0)),
        [first, rest @ ..] if is_message_tag(*first) => Ok((*first, rest)),
        [_, ..] => Err(stop(true, bytes.len())),
    }
}

impl Wire for Msg {
    ghost text = { message };

    ghost at = { message_at };

    ghost fits = { FitsMessage };

    ghost readable = { is_readable };

    #[tactic(auto, unfolding(crate::specs::Spelling::message))]
    fn put(&self, out: &mut Vec<u8>) -> Result<(), AllocError> {
        match self {
            Msg::Client(m) => put_client(m, out),
            Msg::Answer(a) => put_answer(a, out),
            Msg::Peer(m) => put_peer(m, out),
        }
    }

    #[tactic(auto, unfolding(crate::specs::Reading::message_at, fs_wire::specs::Readers::then_at, fs_wire::specs::Readers::either_at, fs_wire::specs::Readers::map_at))]
    fn get(alloc: Global, bytes: &[u8]) -> Result<(Msg, &[u8]), ReadError> {
        let (tag, rest) = message_tag_of(bytes)?;
        if is_client_tag(tag) {
            let (m, rest) = client_of(alloc, tag, rest)?;
            return Ok((Msg::Client(m), rest));
        }
        if is_answer_tag(tag) {
            let (a, rest) = answer_of(alloc, tag, rest)?;
            return Ok((Msg::Answer(a), rest));
        }
        let (m, rest) = peer_of(alloc, tag, rest)?;
        Ok((Msg::Peer(m), rest))
    }
}
