//! The handles of one session on a file, by handle.
ghost use Rattle.std.specs.Prelude.{◌≡◌, ◌==◌, not, length, unwrap_or, ◌≤◌, OnOk, OnErr};
ghost use Rattle.std.specs.List.{position, filter};
ghost use Rattle.fs_field.specs.After.{is_above, with_handle, without_handle};

use fs_ident::{List, Memory, Twin};
use fs_modes::Modes;
use std::alloc::Global;

/// Puts the modes under the handle, before the first greater one, in place of what was under it.
#[tactic(auto, using(fs_ident::proofs::Put::put_at))]
pub fn with_handle(
    alloc: Global,
    handles: &mut List<(u32, Modes)>,
    h: u32,
    modes: Modes,
) -> Result<(), Memory>
    ensures ok { OnOk result (handles.new ≡ with_handle handles.old h modes) }
    ensures err { OnErr result (handles.new ≡ handles.old) }
{
    let mut more = handles.copy(alloc)?;
    without_handle(&mut more, h);
    let at = place(more.as_slice(), h);
    more.insert(at, (h, modes))?;
    *handles = more;
    Ok(())
}

/// Takes out what is under the handle.
pub fn without_handle(handles: &mut List<(u32, Modes)>, h: u32)
    ensures { handles.new ≡ without_handle handles.old h }
{
    retain_others(handles.items_mut(), h);
}

/// Where the first greater handle stands, or the length.
#[tactic(auto, using(crate::proofs::Places::place_is, crate::proofs::Places::place_step))]
fn place(handles: &[(u32, Modes)], h: u32) -> usize
    ensures place { result ≡ unwrap_or (position (is_above h) handles.now) (length handles.now) }
    ensures within { result ≤ length handles.now }
{
    for at in 0..handles.len() {
        if h < handles[at].0 {
            return at;
        }
    }
    handles.len()
}

/// Drops what is under the handle.
fn retain_others(handles: &mut Vec<(u32, Modes)>, h: u32)
    ensures { handles.new.items ≡ filter (λ x. not (x.0 == h)) handles.old.items }
{
    handles.retain(|other| other.0 != h);
}
