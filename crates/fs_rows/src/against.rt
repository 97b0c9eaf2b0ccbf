//! Which rows keep a session from a lease.
ghost use Rattle.std.specs.Prelude.{◌≡◌};
ghost use Rattle.std.specs.Option.{option_copied};
ghost use Rattle.fs_rows.specs.Sought.{directory_of, is_list};
ghost use Rattle.fs_field.specs.Conflict.{is_exclusive, one_shared, names_over, meets, stands_against};

use fs_field::{Field, LeaseKind, Row};
use fs_ident::{FileId, Session};

/// Whether the row keeps the session from such a lease: another session's does, where the two leases do not go
/// together.
pub fn stands_against(row: &Row, session: Session, field: &Field, kind: LeaseKind) -> bool
    ensures { result ≡ stands_against session field.now kind row.now }
{
    session != row.session && meets(field, kind, &row.field, row.kind)
}

/// Whether leases of two sessions on these fields, of these kinds, do not go together.
fn meets(f: &Field, k: LeaseKind, g: &Field, l: LeaseKind) -> bool
    ensures { result ≡ meets f.now k g.now l }
{
    one_shared(f, g) && (is_exclusive(k) || is_exclusive(l))
        || names_over(f, g) && is_exclusive(l)
        || names_over(g, f) && is_exclusive(k)
}

fn is_exclusive(kind: LeaseKind) -> bool
    ensures { result ≡ is_exclusive kind }
{
    match kind {
        LeaseKind::Shared => false,
        LeaseKind::Exclusive => true,
    }
}

/// Whether both are one life, child, names or info field.
fn one_shared(f: &Field, g: &Field) -> bool
    ensures { result ≡ one_shared f.now g.now }
{
    match (f, g) {
        (Field::Life(a), Field::Life(b)) => a == b,
        (Field::Child(a, m), Field::Child(b, n)) => a == b && m == n,
        (Field::Names(a), Field::Names(b)) => a == b,
        (Field::Info(a), Field::Info(b)) => a == b,
        _ => false,
    }
}

/// Whether the first is the names of a directory, and the second one of its children.
fn names_over(f: &Field, g: &Field) -> bool
    ensures { result ≡ names_over f.now g.now }
{
    match (f, g) {
        (Field::Names(a), Field::Child(b, _)) => a == b,
        _ => false,
    }
}

/// Whether it is the names of a directory, against which rows on other fields than itself can be.
pub fn is_list(field: &Field) -> bool
    ensures { result ≡ is_list field.now }
{
    matches!(field, Field::Names(_))
}

/// The directory of a child, against which rows on the names of that directory can be too.
pub fn directory_of(field: &Field) -> Option<&FileId>
    ensures { option_copied result ≡ directory_of field.now }
{
    match field {
        Field::Child(dir, _) => Some(dir),
        _ => None,
    }
}
