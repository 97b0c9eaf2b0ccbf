//! The pieces of which lines are made: each is added behind what stands.
ghost use Rattle.std.specs.Prelude.{◌≡◌, ◌++◌, ◌∷◌, OnOk};
ghost use Rattle.std.specs.Fmt.{decimal};
ghost use Rattle.std.specs.Str.{IsUtf8};
ghost use Rattle.fs_ident.specs.IdText.{id_text};
ghost use Rattle.fs_modes.specs.Letters.{acc_text, deny_text};
ghost use Rattle.fs_schedule.specs.Spelling.{kind_text};
ghost use Rattle.fs_ident.specs.Texts.{quoted, session_text, peer_text, lease_text, txn_text, path_text};
ghost use Rattle.fs_report.specs.Texts.{who_text, id_or_dash};

use fs_ident::{FileId, Kind, LeaseNo, Memory, Name, PathNo, Peer, Session, TxnNo};
use fs_modes::Modes;
use std::alloc::Global;

/// The bytes that most lines fit in.
pub(crate) const LINE: usize = 96;

/// These very bytes.
pub(crate) fn put_bytes(bytes: &[u8], out: &mut Vec<u8>) -> Result<(), Memory>
    ensures { OnOk result (out.new.items ≡ out.old.items ++ bytes.now) }
{
    out.extend_from_slice(bytes)?;
    Ok(())
}

/// This very text.
pub(crate) fn put_text(text: &str, out: &mut Vec<u8>) -> Result<(), Memory>
    ensures bytes { OnOk result (out.new.items ≡ out.old.items ++ text.now) }
    ensures text { IsUtf8 out.old.items → OnOk result (IsUtf8 out.new.items) }
{
    out.extend_from_slice(text.as_bytes())?;
    Ok(())
}

/// A number in decimal.
pub(crate) fn put_number(alloc: Global, n: u64, out: &mut Vec<u8>) -> Result<(), Memory>
    ensures bytes { OnOk result (out.new.items ≡ out.old.items ++ decimal n) }
    ensures text { IsUtf8 out.old.items → OnOk result (IsUtf8 out.new.items) }
{
    let digits = n.to_string(alloc)?;
    put_text(&digits, out)
}

/// A space and a number.
pub(crate) fn next_number(alloc: Global, n: u64, out: &mut Vec<u8>) -> Result<(), Memory>
    ensures bytes { OnOk result (out.new.items ≡ out.old.items ++ 32 ∷ decimal n) }
    ensures text { IsUtf8 out.old.items → OnOk result (IsUtf8 out.new.items) }
{
    put_text(" ", out)?;
    put_number(alloc, n, out)
}

/// A space and an identifier.
pub(crate) fn next_id(alloc: Global, id: &FileId, out: &mut Vec<u8>) -> Result<(), Memory>
    ensures bytes { OnOk result (out.new.items ≡ out.old.items ++ 32 ∷ id_text id.now) }
    ensures text { IsUtf8 out.old.items → OnOk result (IsUtf8 out.new.items) }
{
    let text = id.to_string(alloc)?;
    put_text(" ", out)?;
    put_text(&text, out)
}

/// A space and the identifier, or a dash where there is none.
pub(crate) fn next_id_or_dash(
    alloc: Global,
    id: &Option<FileId>,
    out: &mut Vec<u8>,
) -> Result<(), Memory>
    ensures bytes { OnOk result (out.new.items ≡ out.old.items ++ 32 ∷ id_or_dash id.now) }
    ensures text { IsUtf8 out.old.items → OnOk result (IsUtf8 out.new.items) }
{
    match id {
        None => put_text(" -", out),
        Some(id) => next_id(alloc, id, out),
    }
}

/// A space and a name in double quotes.
pub(crate) fn next_name(name: &Name, out: &mut Vec<u8>) -> Result<(), Memory>
    ensures bytes { OnOk result (out.new.items ≡ out.old.items ++ 32 ∷ quoted name.now) }
    ensures text { IsUtf8 out.old.items → OnOk result (IsUtf8 out.new.items) }
{
    put_text(" \"", out)?;
    put_bare_name(name, out)?;
    put_text("\"", out)
}

/// A name.
fn put_bare_name(name: &Name, out: &mut Vec<u8>) -> Result<(), Memory>
    ensures bytes { OnOk result (out.new.items ≡ out.old.items ++ name.now) }
    ensures text { IsUtf8 out.old.items → OnOk result (IsUtf8 out.new.items) }
{
    out.extend_from_slice(name.bytes())?;
    Ok(())
}

/// A space and the kind.
pub(crate) fn next_kind(kind: Kind, out: &mut Vec<u8>) -> Result<(), Memory>
    ensures bytes { OnOk result (out.new.items ≡ out.old.items ++ 32 ∷ kind_text kind) }
    ensures text { IsUtf8 out.old.items → OnOk result (IsUtf8 out.new.items) }
{
    match kind {
        Kind::File => put_text(" file", out),
        Kind::Dir => put_text(" dir", out),
    }
}

/// A space and a session.
pub(crate) fn next_session(alloc: Global, session: Session, out: &mut Vec<u8>) -> Result<(), Memory>
    ensures bytes { OnOk result (out.new.items ≡ out.old.items ++ 32 ∷ session_text session) }
    ensures text { IsUtf8 out.old.items → OnOk result (IsUtf8 out.new.items) }
{
    let text = session.to_string(alloc)?;
    put_text(" ", out)?;
    put_text(&text, out)
}

/// A space and a server or a client.
pub(crate) fn next_peer(alloc: Global, peer: Peer, out: &mut Vec<u8>) -> Result<(), Memory>
    ensures bytes { OnOk result (out.new.items ≡ out.old.items ++ 32 ∷ peer_text peer) }
    ensures text { IsUtf8 out.old.items → OnOk result (IsUtf8 out.new.items) }
{
    let text = peer.to_string(alloc)?;
    put_text(" ", out)?;
    put_text(&text, out)
}

/// A space and the number of a lease.
pub(crate) fn next_lease(alloc: Global, no: LeaseNo, out: &mut Vec<u8>) -> Result<(), Memory>
    ensures { OnOk result (out.new.items ≡ out.old.items ++ 32 ∷ lease_text no) }
{
    let text = no.to_string(alloc)?;
    out.push(b' ')?;
    put_bytes(text.as_bytes(), out)
}

/// A space and the number of a transaction.
pub(crate) fn next_txn(alloc: Global, no: TxnNo, out: &mut Vec<u8>) -> Result<(), Memory>
    ensures { OnOk result (out.new.items ≡ out.old.items ++ 32 ∷ txn_text no) }
{
    let text = no.to_string(alloc)?;
    out.push(b' ')?;
    put_bytes(text.as_bytes(), out)
}

/// A space and the number of a path lease.
pub(crate) fn next_path(alloc: Global, no: PathNo, out: &mut Vec<u8>) -> Result<(), Memory>
    ensures { OnOk result (out.new.items ≡ out.old.items ++ 32 ∷ path_text no) }
{
    let text = no.to_string(alloc)?;
    out.push(b' ')?;
    put_bytes(text.as_bytes(), out)
}

/// A space and the actor, or a dash where there is none.
pub(crate) fn next_who(alloc: Global, who: Option<Peer>, out: &mut Vec<u8>) -> Result<(), Memory>
    ensures { OnOk result (out.new.items ≡ out.old.items ++ 32 ∷ who_text who) }
{
    match who {
        None => put_bytes(b" -", out),
        Some(peer) => next_peer(alloc, peer, out),
    }
}

/// A space and the accesses, a space and the denials.
pub(crate) fn next_modes(modes: Modes, out: &mut Vec<u8>) -> Result<(), Memory>
    ensures bytes { OnOk result (out.new.items ≡ out.old.items ++
        (32 ∷ acc_text modes ++ 32 ∷ deny_text modes)) }
    ensures text { IsUtf8 out.old.items → OnOk result (IsUtf8 out.new.items) }
{
    put_text(" ", out)?;
    put_text(modes.acc_text(), out)?;
    put_text(" ", out)?;
    put_text(modes.deny_text(), out)
}

/// A space, and how many there are of what the word names.
pub(crate) fn next_count(
    alloc: Global,
    word: &[u8],
    n: u64,
    out: &mut Vec<u8>,
) -> Result<(), Memory>
    ensures { OnOk result (out.new.items ≡ out.old.items ++ (32 ∷ word.now ++ 32 ∷ decimal n)) }
{
    out.push(b' ')?;
    put_bytes(word, out)?;
    next_number(alloc, n, out)
}
