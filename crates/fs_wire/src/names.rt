//! Names.
ghost use Rattle.std.specs.Prelude.{◌≡◌, ◌≤◌, ℕ, List, ◌++◌, ◌∷◌, [], length, take, nat_le, false, None, OnOk, IfOk, true};
ghost use Rattle.fs_ident.specs.Name.{IsName};
ghost use Rattle.fs_wire.specs.Spelling.{name};
ghost use Rattle.fs_wire.specs.Readers.{Gives, one_at};
ghost use Rattle.fs_wire.specs.Reading.{chars_at, name_at};

use crate::fault::{ReadError, stop};
use crate::wire::Wire;
use fs_ident::{IdError, Memory, Name, first_bad, is_dots};
use std::alloc::{AllocError, Global};
use std::cmp::min;

impl Wire for Name {
    ghost text = { name };

    ghost at = { name_at };

    ghost fits = { IsName };

    ghost readable = { λ _. true };

    fn put(&self, out: &mut Vec<u8>) -> Result<(), AllocError> {
        let bytes = self.bytes();
        out.push(bytes.len() as u8)?;
        out.extend_from_slice(bytes)
    }

    #[tactic(auto, unfolding(crate::specs::Reading::name_at, crate::specs::Readers::then_at))]
    fn get(alloc: Global, bytes: &[u8]) -> Result<(Name, &[u8]), ReadError> {
        let (len, rest) = length_of(bytes)?;
        let (chars, rest) = chars_of(len, rest)?;
        Ok((name_of(alloc, chars)?, rest))
    }
}

/// The name of bytes that are one.
fn name_of(alloc: Global, chars: &[u8]) -> Result<Name, Memory>
    requires { IsName chars.now }
    ensures { IfOk result (λ name. name ≡ chars.now) }
{
    match Name::new(alloc, chars) {
        Ok(name) => Ok(name),
        Err(IdError::Memory) => Err(Memory),
        Err(IdError::BadName { at: _ }) => unreachable!(),
        Err(_) => unreachable!(),
    }
}

/// The length of a name.
#[tactic(auto, unfolding(crate::specs::Readers::one_at))]
fn length_of(bytes: &[u8]) -> Result<(u8, &[u8]), ReadError>
    ensures read { Gives (λ x. (x.0, x.1.now)) result (one_at false (λ b. nat_le 1 b) bytes.now) }
    ensures some { IfOk result (λ x. 1 ≤ x.0) }
{
    match bytes {
        [] => Err(stop(false, 0)),
        [first, rest @ ..] if 1 <= *first => Ok((*first, rest)),
        [_, ..] => Err(stop(false, bytes.len())),
    }
}

/// The bytes of a name of this length.
#[tactic(auto, unfolding(crate::specs::Reading::chars_at))]
fn chars_of(len: u8, bytes: &[u8]) -> Result<(&[u8], &[u8]), ReadError>
    requires { 1 ≤ len }
    ensures read { Gives (λ x. (x.0.now, x.1.now)) result (chars_at len bytes.now) }
    ensures name { IfOk result (λ x. IsName x.0.now) }
{
    let len = len as usize;
    if let Some(at) = first_bad(&bytes[..min(len, bytes.len())]) {
        return Err(stop(false, bytes.len() - at));
    }
    if bytes.len() < len {
        return Err(stop(false, 0));
    }
    let (chars, rest) = bytes.split_at(len);
    if is_dots(chars) {
        return Err(stop(false, rest.len() + 1));
    }
    Ok((chars, rest))
}
