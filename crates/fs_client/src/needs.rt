//! What is worth asking for.
ghost use Rattle.std.specs.Prelude.{◌≡◌, ◌==◌, [], unwrap_or, IfOk};
ghost use Rattle.std.specs.List.{list_any};
ghost use Rattle.fs_ident.specs.Ident.{same};
ghost use Rattle.fs_client.specs.Acts.{fresh_asked, hinted, is_full, is_futile, items_of, need_file, needs_at, worth};

use crate::at_reading::AtReading;
use fs_field::{Field, LeaseKind, Need};
use fs_ident::{DEPTH, FileId, List, Memory, Twin};
use std::alloc::Global;

/// Those of the needs that are no identifier in a full directory.
pub(crate) fn worth(full: &[FileId], needs: List<Need>) -> List<Need>
    ensures { result ≡ worth full.now needs }
{
    let mut needs = needs.into_vec();
    needs.retain(|need| !is_futile(full, need));
    List::from_vec(needs)
}

fn is_futile(full: &[FileId], need: &Need) -> bool
    ensures { result ≡ is_futile full.now need.now }
{
    match need {
        Need::Lease(_, _) => false,
        Need::Fresh(dir) => is_full(full, dir),
    }
}

/// Whether no number is left for a new file in the directory.
fn is_full(full: &[FileId], dir: &FileId) -> bool
    ensures { result ≡ is_full full.now dir.now }
{
    dir.numbers().len() == DEPTH || is_among(full, dir)
}

/// Whether the directory is one of these.
pub(crate) fn is_among(full: &[FileId], dir: &FileId) -> bool
    ensures { result ≡ list_any (λ d. same d dir.now) full.now }
{
    full.iter().any(|other| is_same(other, dir))
}

fn is_same(other: &FileId, dir: &FileId) -> bool
    ensures { result ≡ same other.now dir.now }
{
    other == dir
}

/// The file of which the need speaks: of an identifier the directory.
pub(crate) fn need_file(need: &Need) -> &FileId
    ensures { result.now ≡ need_file need.now }
{
    match need {
        Need::Lease(field, _) => field.file(),
        Need::Fresh(dir) => dir,
    }
}

/// Those of the needs that are said to be at the server.
pub(crate) fn needs_at(at: &AtReading<'_>, to: u8, needs: List<Need>) -> List<Need>
    ensures { result ≡ needs_at at.now to needs }
{
    let mut needs = needs.into_vec();
    needs.retain(|need| is_at(at, to, need));
    List::from_vec(needs)
}

fn is_at(at: &AtReading<'_>, to: u8, need: &Need) -> bool
    ensures { result ≡ (hinted at.now (need_file need.now) == to) }
{
    at.hinted(need_file(need)) == to
}

/// The fields and kinds of the leases among the needs.
#[tactic(auto, using(crate::proofs::Needed::items_step))]
pub(crate) fn items_of(alloc: Global, needs: &[Need]) -> Result<List<(Field, LeaseKind)>, Memory>
    ensures { IfOk result (λ items. items ≡ items_of needs.now) }
{
    let mut items = List::new(alloc);
    for need in needs {
        if let Need::Lease(field, kind) = need {
            items.push((field.copy(alloc)?, *kind))?;
        }
    }
    Ok(items)
}

/// The directory below which an identifier is asked for.
pub(crate) fn fresh_asked(alloc: Global, needs: &[Need]) -> Result<Option<FileId>, Memory>
    ensures { IfOk result (λ dir. dir ≡ fresh_asked needs.now) }
{
    for need in needs {
        if let Need::Fresh(dir) = need {
            return Ok(Some(dir.copy(alloc)?));
        }
    }
    Ok(None)
}

/// The directory that has no number left, where an identifier in it alone is missing.
pub(crate) fn full_dir(alloc: Global, needs: &[Need]) -> Result<FileId, Memory>
    ensures { IfOk result (λ dir. dir ≡ unwrap_or (fresh_asked needs.now) []) }
{
    match fresh_asked(alloc, needs)? {
        Some(dir) => Ok(dir),
        None => Ok(FileId::root(alloc)),
    }
}
