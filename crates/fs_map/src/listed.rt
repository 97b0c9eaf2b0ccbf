//! Prefixes in order, each with what it tells.
ghost use Rattle.std.specs.Prelude.{◌≡◌, ◌<◌, ◌&&◌, IsTrue, IfOk, IsErr, IfErr, None, Some, length, slice_index_or, false, unwrap_or};
ghost use Rattle.std.specs.Option.{option_copied};
ghost use Rattle.fs_ident.specs.Ordered.{are_keys_in_order};
ghost use Rattle.fs_map.specs.Map.{begins, gives, longest, server_of, told_of};
ghost use Rattle.fs_map.specs.Change.{at};

use fs_ident::FileId;

/// Where the prefix of these numbers is listed.
fn search<V>(listed: &[(FileId, V)], numbers: &[u32]) -> Result<usize, usize>
    requires { IsTrue (are_keys_in_order listed.now) }
    ensures within { IfOk result (λ place. place < length listed.now) }
    ensures found { IfOk result (λ place. (e : _) →
        longest listed.now numbers.now ≡ Some (slice_index_or listed.now place e)) }
    ensures absent { IfErr result (λ _. at numbers.now listed.now ≡ None) }
{
    listed.binary_search_by(|entry| entry.0.numbers().cmp(numbers))
}

/// The longest listed prefix of the identifier of these numbers.
pub(crate) fn longest<'a, V>(listed: &'a [(FileId, V)], id: &[u32]) -> Option<&'a (FileId, V)>
    requires { IsTrue (are_keys_in_order listed.now) }
    ensures { option_copied result ≡ longest listed.now id.now }
{
    let mut prefix = id;
    loop {
        if let Ok(place) = search(listed, prefix) {
            return Some(&listed[place]);
        }
        match prefix.split_last() {
            None => return None,
            Some((_, above)) => prefix = above,
        }
    }
}

/// The value of the longest prefix listed that the identifier of these numbers has.
pub(crate) fn value_in<V: Copy>(listed: &[(FileId, V)], id: &[u32]) -> Option<V>
    requires { IsTrue (are_keys_in_order listed.now) }
    ensures { result ≡ told_of listed.now id.now }
{
    match longest(listed, id) {
        None => None,
        Some(entry) => Some(entry.1),
    }
}

/// The server that manages the identifier of these numbers.
pub(crate) fn server_of(owners: &[(FileId, u8)], id: &[u32]) -> u8
    requires { IsTrue (are_keys_in_order owners.now) }
    ensures { result ≡ server_of owners.now id.now }
{
    match value_in(owners, id) {
        None => 0,
        Some(server) => server,
    }
}

/// Whether the identifier of these numbers is given.
pub(crate) fn is_given(prefix: &[u32], given: &[(FileId, bool)], id: &[u32]) -> bool
    requires { IsTrue (are_keys_in_order given.now) }
    ensures { result ≡ gives prefix.now given.now id.now }
{
    id.starts_with(prefix) && value_in(given, id).unwrap_or(false)
}
