//! What admitted operations do.
ghost use Rattle.fs_wire.specs.Spelling.{effect};
ghost use Rattle.fs_wire.specs.Readers.{Gives};
ghost use Rattle.fs_wire.specs.Reading.{effect_at, set_child_to_remove_node_of, add_handle_to_set_info_of};
ghost use Rattle.fs_wire.specs.Ranges.{FitsEffect};
ghost use Rattle.fs_wire.specs.Readable.{is_readable_effect};

use crate::fault::ReadError;
use crate::numbers::tag_of;
use crate::puts::{put_tag_1, put_tag_3, put_tag_4};
use crate::wire::Wire;
use fs_field::Effect;
use fs_ident::{FileId, Kind, Name, Session};
use fs_modes::Modes;
use std::alloc::{AllocError, Global};

impl Wire for Effect {
    ghost text = { effect };

    ghost at = { effect_at };

    ghost fits = { FitsEffect };

    ghost readable = { is_readable_effect };

    #[tactic(auto, unfolding(crate::specs::Spelling::effect))]
    fn put(&self, out: &mut Vec<u8>) -> Result<(), AllocError> {
        match self {
            Effect::SetChild { dir, name, to } => put_tag_3(0, dir, name, to, out),
            Effect::SetParent { file, dir, name } => put_tag_3(1, file, dir, name, out),
            Effect::NewNode {
                file,
                kind,
                dir,
                name,
            } => put_tag_4(2, file, kind, dir, name, out),
            Effect::RemoveNode { file } => put_tag_1(3, file, out),
            Effect::AddHandle {
                file,
                session,
                h,
                modes,
            } => put_tag_4(4, file, session, h, modes, out),
            Effect::RemoveHandle { file, session, h } => put_tag_3(5, file, session, h, out),
            Effect::SetInfo { file, size, stamp } => put_tag_3(6, file, size, stamp, out),
        }
    }

    #[tactic(auto, unfolding(crate::specs::Reading::effect_at, crate::specs::Readers::then_at, crate::specs::Readers::either_at))]
    fn get(alloc: Global, bytes: &[u8]) -> Result<(Effect, &[u8]), ReadError> {
        let (tag, rest) = tag_of(7, bytes)?;
        if tag < 4 {
            return set_child_to_remove_node_of(alloc, tag, rest);
        }
        add_handle_to_set_info_of(alloc, tag, rest)
    }
}

/// The effect behind a tag from 0 to 3.
#[tactic(auto, unfolding(crate::specs::Readers::either_at, crate::specs::Readers::map_at))]
fn set_child_to_remove_node_of(
    alloc: Global,
    tag: u8,
    bytes: &[u8],
) -> Result<(Effect, &[u8]), ReadError>
    ensures { Gives (λ x. (x.0, x.1.now)) result (set_child_to_remove_node_of tag bytes.now) }
{
    match tag {
        0 => {
            let ((dir, (name, to)), rest) = <(FileId, (Name, Option<FileId>))>::get(alloc, bytes)?;
            Ok((Effect::SetChild { dir, name, to }, rest))
        }
        1 => {
            let ((file, (dir, name)), rest) = <(FileId, (FileId, Name))>::get(alloc, bytes)?;
            Ok((Effect::SetParent { file, dir, name }, rest))
        }
        2 => {
            let (x, rest) = <(FileId, (Kind, (FileId, Name)))>::get(alloc, bytes)?;
            let (file, (kind, (dir, name))) = x;
            let effect = Effect::NewNode {
                file,
                kind,
                dir,
                name,
            };
            Ok((effect, rest))
        }
        _ => {
            let (file, rest) = FileId::get(alloc, bytes)?;
            Ok((Effect::RemoveNode { file }, rest))
        }
    }
}

/// The effect behind a tag from 4 on.
#[tactic(auto, unfolding(crate::specs::Readers::either_at, crate::specs::Readers::map_at))]
fn add_handle_to_set_info_of(
    alloc: Global,
    tag: u8,
    bytes: &[u8],
) -> Result<(Effect, &[u8]), ReadError>
    ensures { Gives (λ x. (x.0, x.1.now)) result (add_handle_to_set_info_of tag bytes.now) }
{
    match tag {
        4 => {
            let (x, rest) = <(FileId, (Session, (u32, Modes)))>::get(alloc, bytes)?;
            let (file, (session, (h, modes))) = x;
            let effect = Effect::AddHandle {
                file,
                session,
                h,
                modes,
            };
            Ok((effect, rest))
        }
        5 => {
            let ((file, (session, h)), rest) = <(FileId, (Session, u32))>::get(alloc, bytes)?;
            Ok((Effect::RemoveHandle { file, session, h }, rest))
        }
        _ => {
            let ((file, (size, stamp)), rest) = <(FileId, (u64, u64))>::get(alloc, bytes)?;
            Ok((Effect::SetInfo { file, size, stamp }, rest))
        }
    }
}
