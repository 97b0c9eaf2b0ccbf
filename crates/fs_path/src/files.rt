//! Over which files a path goes.
ghost use Rattle.std.specs.Prelude.{◌≡◌};
ghost use Rattle.std.specs.List.{list_any};
ghost use Rattle.fs_ident.specs.Ident.{same};
ghost use Rattle.fs_map.specs.Map.{is_given};

use fs_ident::FileId;
use fs_map::FileMap;

/// Whether the file is one of these.
#[tactic(auto, using(crate::proofs::Steps::any_step))]
pub(crate) fn goes_over(files: &[FileId], file: &FileId) -> bool
    ensures { result ≡ list_any (λ f. same f file.now) files.now }
{
    for x in files {
        if x == file {
            return true;
        }
    }
    false
}

/// Whether one of these is below the prefix and `me`'s.
#[tactic(auto, using(crate::proofs::Steps::any_step))]
pub(crate) fn goes_into(files: &[FileId], map: &FileMap, me: u8, prefix: &FileId) -> bool
    ensures { result ≡ list_any (λ f. is_given map.now me prefix.now f) files.now }
{
    for x in files {
        if is_given(map, me, prefix, x) {
            return true;
        }
    }
    false
}

/// Whether the file is below the prefix and `me`'s.
pub(crate) fn is_given(map: &FileMap, me: u8, prefix: &FileId, file: &FileId) -> bool
    ensures { result ≡ is_given map.now me prefix.now file.now }
{
    file.begins(prefix) && map.owner(file).1 == me
}
