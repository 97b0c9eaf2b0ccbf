//! Leases that are found by their number, by a search by halves: the numbers rise.
ghost use Rattle.std.specs.Prelude.{◌≡◌, ◌≤◌, true, length, unwrap_or};
ghost use Rattle.std.specs.List.{list_any, position};
ghost use Rattle.fs_path.specs.Index.{are_rising, is_numbered, no_of_held, no_of_issued};
ghost use Rattle.fs_path.specs.Leases.{path_before};

use crate::having::Having;
use crate::issued::Issued;
use fs_ident::PathNo;

/// Where the lease of the number that was given out stands.
pub(crate) fn place_of_issued(issued: &[Issued], no: PathNo) -> Option<usize>
    requires { are_rising no_of_issued issued.now ≡ true }
    ensures { result ≡ position (is_numbered no_of_issued no) issued.now }
{
    let at = issued.partition_point(|l| l.no() < no);
    match issued.get(at) {
        Some(l) => { if l.no() == no { Some(at) } else { None } }
        None => None,
    }
}

/// Whether one of these has the number.
pub(crate) fn has_issued(issued: &[Issued], no: PathNo) -> bool
    requires { are_rising no_of_issued issued.now ≡ true }
    ensures { result ≡ list_any (is_numbered no_of_issued no) issued.now }
{
    match place_of_issued(issued, no) {
        Some(_) => true,
        None => false,
    }
}

/// Where the first lease given out with a greater number stands, or the length.
pub(crate) fn place_behind_issued(issued: &[Issued], no: PathNo) -> usize
    requires { are_rising no_of_issued issued.now ≡ true }
    ensures place { result ≡ unwrap_or (position (λ x. path_before no (no_of_issued x)) issued.now)
        (length issued.now) }
    ensures within { result ≤ length issued.now }
{
    issued.partition_point(|l| !(no < l.no()))
}

/// Where the lease of the number from another server stands.
pub(crate) fn place_of_held(held: &[Having], no: PathNo) -> Option<usize>
    requires { are_rising no_of_held held.now ≡ true }
    ensures { result ≡ position (is_numbered no_of_held no) held.now }
{
    let at = held.partition_point(|l| l.no() < no);
    match held.get(at) {
        Some(l) => { if l.no() == no { Some(at) } else { None } }
        None => None,
    }
}

/// Whether one from another server has the number.
pub(crate) fn has_held(held: &[Having], no: PathNo) -> bool
    requires { are_rising no_of_held held.now ≡ true }
    ensures { result ≡ list_any (is_numbered no_of_held no) held.now }
{
    match place_of_held(held, no) {
        Some(_) => true,
        None => false,
    }
}

/// Where the first lease from another server with a greater number stands, or the length.
pub(crate) fn place_behind_held(held: &[Having], no: PathNo) -> usize
    requires { are_rising no_of_held held.now ≡ true }
    ensures place { result ≡ unwrap_or (position (λ x. path_before no (no_of_held x)) held.now)
        (length held.now) }
    ensures within { result ≤ length held.now }
{
    held.partition_point(|l| !(no < l.no()))
}
