//! Clients' messages as bytes.
ghost use Rattle.std.specs.Prelude.{◌≡◌, ◌++◌, ◌≤◌, OnOk, true};
ghost use Rattle.fs_wire.specs.Readers.{Gives};
ghost use Rattle.fs_msg.specs.Spelling.{client_message};
ghost use Rattle.fs_msg.specs.Reading.{is_client_tag, client_of};
ghost use Rattle.fs_msg.specs.Ranges.{FitsClientMessage};
ghost use Rattle.fs_msg.specs.Readable.{is_readable_request};

use crate::client_msg::ClientMsg;
use crate::entry::Entry;
use crate::lead::Lead;
use fs_field::{Field, LeaseKind};
use fs_ident::{FileId, LeaseNo, List};
use fs_wire::{ReadError, Wire, put_tag_1, put_tag_2};
use std::alloc::{AllocError, Global};

/// Whether a client's message has the tag.
pub(crate) fn is_client_tag(b: u8) -> bool
    ensures { result ≡ is_client_tag b }
{
    1 <= b && b <= 5
}

/// Adds the spelling of a client's request at the end.
#[tactic(auto, unfolding(crate::specs::Spelling::client_message), using(fs_wire::proofs::Readable::always_pairs))]
pub(crate) fn put_client(m: &ClientMsg, out: &mut Vec<u8>) -> Result<(), AllocError>
    ensures text { OnOk result (out.new.items ≡ out.old.items ++ client_message m.now) }
    ensures fits { OnOk result (is_readable_request m.now ≡ true → FitsClientMessage m.now) }
{
    match m {
        ClientMsg::Ask { items, fresh } => put_tag_2(1, items, fresh, out),
        ClientMsg::Renew { pairs } => put_tag_1(2, pairs, out),
        ClientMsg::Release { pairs } => put_tag_1(3, pairs, out),
        ClientMsg::Ship { entries } => put_tag_1(4, entries, out),
        ClientMsg::Lead { lead } => put_tag_1(5, lead, out),
    }
}

/// The request of a client behind its tag.
#[tactic(auto, unfolding(fs_wire::specs::Readers::either_at, fs_wire::specs::Readers::map_at))]
pub(crate) fn client_of(
    alloc: Global,
    tag: u8,
    rest: &[u8],
) -> Result<(ClientMsg, &[u8]), ReadError>
    ensures { Gives (λ x. (x.0, x.1.now)) result (client_of tag rest.now) }
{
    match tag {
        1 => {
            let ((items, fresh), rest) = <(List<(Field, LeaseKind)>, Option<FileId>)>::get(
                alloc, rest,
            )?;
            Ok((ClientMsg::Ask { items, fresh }, rest))
        }
        2 => {
            let (pairs, rest) = <List<(FileId, LeaseNo)>>::get(alloc, rest)?;
            Ok((ClientMsg::Renew { pairs }, rest))
        }
        3 => {
            let (pairs, rest) = <List<(FileId, LeaseNo)>>::get(alloc, rest)?;
            Ok((ClientMsg::Release { pairs }, rest))
        }
        4 => {
            let (entries, rest) = <List<Entry>>::get(alloc, rest)?;
            Ok((ClientMsg::Ship { entries }, rest))
        }
        _ => {
            let (lead, rest) = Lead::get(alloc, rest)?;
            Ok((ClientMsg::Lead { lead }, rest))
        }
    }
}
