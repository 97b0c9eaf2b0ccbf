//! The part of a map's list that begins with a prefix.
ghost use Rattle.std.specs.Prelude.{◌≡◌, ◌≤◌, ℕ, List, true, false, length, take, drop, slice_range};
ghost use Rattle.std.specs.Ordering.{nat_cmp};
ghost use Rattle.std.specs.Cmp.Lexicographic.{slice_cmp};
ghost use Rattle.std.specs.declared.cmp.Ordering.TheVariants.{Less};
ghost use Rattle.fs_ident.specs.In.{In};
ghost use Rattle.fs_ident.specs.Ordered.{are_keys_in_order};
ghost use Rattle.fs_map.specs.Map.{begins};
ghost use Rattle.fs_map.specs.Part.{IsSpan};

use fs_ident::FileId;

/// How many places come before the prefix.
fn earlier(owners: &[(FileId, u8)], prefix: &[u32]) -> usize
    requires { are_keys_in_order owners.now ≡ true }
    ensures within { result ≤ length owners.now }
    ensures earlier { (e : List ℕ × ℕ) → In e (take result owners.now) →
        slice_cmp nat_cmp e.0 prefix.now ≡ Less }
    ensures rest { (e : List ℕ × ℕ) → In e (drop result owners.now) →
        slice_cmp nat_cmp e.0 prefix.now ≡ Less → ⊥ }
{
    owners.partition_point(|entry| entry.0.numbers().cmp(prefix).is_lt())
}

/// How many places begin with the prefix, where none comes before it.
fn begun(owners: &[(FileId, u8)], prefix: &[u32]) -> usize
    requires order { are_keys_in_order owners.now ≡ true }
    requires from { (e : List ℕ × ℕ) → In e owners.now →
        slice_cmp nat_cmp e.0 prefix.now ≡ Less → ⊥ }
    ensures within { result ≤ length owners.now }
    ensures inside { (e : List ℕ × ℕ) → In e (take result owners.now) →
        begins prefix.now e.0 ≡ true }
    ensures later { (e : List ℕ × ℕ) → In e (drop result owners.now) →
        (slice_cmp nat_cmp prefix.now e.0 ≡ Less) × (begins prefix.now e.0 ≡ false) }
{
    owners.partition_point(|entry| entry.0.numbers().starts_with(prefix))
}

/// Where the places that begin with the prefix start, and where they end.
pub(crate) fn span(owners: &[(FileId, u8)], prefix: &[u32]) -> (usize, usize)
    requires { are_keys_in_order owners.now ≡ true }
    ensures { IsSpan owners.now prefix.now result.0 result.1 }
{
    let start = earlier(owners, prefix);
    let count = begun(&owners[start..], prefix);
    (start, start + count)
}
