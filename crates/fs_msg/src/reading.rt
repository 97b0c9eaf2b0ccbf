//! Reading messages.
ghost use Rattle.std.specs.Prelude.{◌≡◌, ◌++◌, ◌<◌, ◌≤◌, ℕ, List, length, take, IfOk, IsErrOf};
ghost use Rattle.fs_msg.specs.declared.msg.Msg.{Msg};
ghost use Rattle.fs_msg.specs.declared.error.MsgError.TheVariants as errors;
ghost use Rattle.fs_msg.specs.Spelling.{message};
ghost use Rattle.fs_msg.specs.Ranges.{FitsMessage};
ghost use Rattle.fs_msg.specs.Prefixes.{IsMessage, IsProperMessagePrefix, IsTagPlace, GoWrongAt};
ghost use Rattle.fs_msg.specs.Answers.{IsOkOrMemory, IsErrOrMemory, IsAnswer, error_at, with_length, as_whole};
ghost use Rattle.fs_msg.specs.Reading.{message_at};

use crate::error::MsgError;
use crate::msg::Msg;
use fs_wire::{Fault, ReadError, Wire};
use std::alloc::Global;

/// The message that the bytes begin with, and its length in bytes.
///
/// `Short`: the bytes begin a message and are none. `Tag` and `Range`: no prefix of the bytes is a message, and they go
/// wrong at the place, which is a tag's or another. Never `Trailing`.
pub fn read(alloc: Global, bytes: &[u8]) -> Result<(Msg, usize), MsgError>
    // What is read is spelled so.
    ensures found { IfOk result (λ x. FitsMessage x.0 × (x.1 ≤ length bytes.now) ×
        (take x.1 bytes.now ≡ message x.0)) }
    // What is spelled so is read, whatever follows.
    ensures only { (m : Msg) (rest : List ℕ) → FitsMessage m → bytes.now ≡ message m ++ rest →
        IsOkOrMemory result (m, length (message m)) }
    ensures short { IsErrOf result errors.Short → IsProperMessagePrefix bytes.now }
    ensures cut { IsProperMessagePrefix bytes.now → IsErrOrMemory result errors.Short }
    ensures tag { (at : ℕ) → IsErrOf result (errors.Tag at) → GoWrongAt bytes.now at ×
        IsTagPlace (take at bytes.now) }
    ensures at_tag { (at : ℕ) → GoWrongAt bytes.now at → IsTagPlace (take at bytes.now) →
        IsErrOrMemory result (errors.Tag at) }
    ensures range { (at : ℕ) → IsErrOf result (errors.Range at) → GoWrongAt bytes.now at ×
        (IsTagPlace (take at bytes.now) → ⊥) }
    ensures at_other { (at : ℕ) → GoWrongAt bytes.now at → (IsTagPlace (take at bytes.now) → ⊥) →
        IsErrOrMemory result (errors.Range at) }
    ensures trailing { (at : ℕ) → IsErrOf result (errors.Trailing at) → ⊥ }
{
    prefix_of(alloc, bytes)
}

/// The message that all of the bytes are.
///
/// `Short`, `Tag` and `Range` as in `read`. `Trailing`: a message ends at the place, and bytes follow.
pub fn read_whole(alloc: Global, bytes: &[u8]) -> Result<Msg, MsgError>
    // What is read is spelled so.
    ensures found { IfOk result (λ m. FitsMessage m × (bytes.now ≡ message m)) }
    // What is spelled so is read.
    ensures only { (m : Msg) → FitsMessage m → bytes.now ≡ message m → IsOkOrMemory result m }
    ensures short { IsErrOf result errors.Short → IsProperMessagePrefix bytes.now }
    ensures cut { IsProperMessagePrefix bytes.now → IsErrOrMemory result errors.Short }
    ensures tag { (at : ℕ) → IsErrOf result (errors.Tag at) → GoWrongAt bytes.now at ×
        IsTagPlace (take at bytes.now) }
    ensures at_tag { (at : ℕ) → GoWrongAt bytes.now at → IsTagPlace (take at bytes.now) →
        IsErrOrMemory result (errors.Tag at) }
    ensures range { (at : ℕ) → IsErrOf result (errors.Range at) → GoWrongAt bytes.now at ×
        (IsTagPlace (take at bytes.now) → ⊥) }
    ensures at_other { (at : ℕ) → GoWrongAt bytes.now at → (IsTagPlace (take at bytes.now) → ⊥) →
        IsErrOrMemory result (errors.Range at) }
    ensures trailing { (at : ℕ) → IsErrOf result (errors.Trailing at) →
        IsMessage (take at bytes.now) × (at < length bytes.now) }
    ensures followed { (at : ℕ) → at < length bytes.now → IsMessage (take at bytes.now) →
        IsErrOrMemory result (errors.Trailing at) }
{
    whole_of(alloc, bytes)
}

/// The message at the beginning and its length, as reading from left to right gives them.
fn prefix_of(alloc: Global, bytes: &[u8]) -> Result<(Msg, usize), MsgError>
    ensures { IsAnswer result (with_length bytes.now (message_at bytes.now)) }
{
    match Msg::get(alloc, bytes) {
        Ok((m, rest)) => Ok((m, bytes.len() - rest.len())),
        Err(ReadError::Memory) => Err(MsgError::Memory),
        Err(ReadError::Fault(fault)) => Err(error_of(bytes.len(), fault)),
    }
}

/// The message and nothing behind it, as reading from left to right gives it.
fn whole_of(alloc: Global, bytes: &[u8]) -> Result<Msg, MsgError>
    ensures { IsAnswer result (as_whole bytes.now (message_at bytes.now)) }
{
    match Msg::get(alloc, bytes) {
        Ok((m, rest)) => {
            if rest.is_empty() {
                return Ok(m);
            }
            drop(m);
            Err(MsgError::Trailing {
                at: bytes.len() - rest.len(),
            })
        }
        Err(ReadError::Memory) => Err(MsgError::Memory),
        Err(ReadError::Fault(fault)) => Err(error_of(bytes.len(), fault)),
    }
}

/// The error of a fault in so many bytes.
fn error_of(len: usize, fault: Fault) -> MsgError
    requires { fault.left ≤ len }
    ensures { result ≡ error_at len fault.left fault.tag }
{
    if fault.left == 0 {
        return MsgError::Short;
    }
    let at = len - fault.left;
    if fault.tag {
        MsgError::Tag { at }
    } else {
        MsgError::Range { at }
    }
}
