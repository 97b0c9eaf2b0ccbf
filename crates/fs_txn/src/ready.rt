//! Parts that wait for their decision.
ghost use Rattle.std.specs.Prelude.{◌≡◌};
ghost use Rattle.fs_field.specs.Table.{same_txn};
ghost use Rattle.fs_txn.specs.Ready.{is_awaited, is_part, is_prepared, without_prepared};

use fs_field::Part;
use fs_ident::{List, Memory, Session, Twin, TxnNo};
use std::alloc::Global;

/// A part of another server's transaction: this server voted Yes, and waits for the decision.
#[derive(Debug, Drop)]
pub struct Ready {
    pub txn: TxnNo,
    /// The place of the part among those of the transaction.
    pub number: u8,
    /// The session whose operation it is.
    pub session: Session,
    pub part: Part,
}

/// Whether the part of this number of the transaction waits.
pub fn is_prepared(prepared: &[Ready], txn: TxnNo, number: u8) -> bool
    ensures { result ≡ is_prepared txn number prepared.now }
{
    prepared.iter().any(|x| is_part(x, txn, number))
}

/// Whether a part of the transaction waits.
pub fn is_awaited(prepared: &[Ready], txn: TxnNo) -> bool
    ensures { result ≡ is_awaited txn prepared.now }
{
    prepared.iter().any(|x| is_of(x, txn))
}

/// Drops the part of this number of the transaction, where it waits.
pub fn drop_prepared(prepared: &mut List<Ready>, txn: TxnNo, number: u8)
    ensures { prepared.new ≡ without_prepared txn number prepared.old }
{
    retain_others(prepared.items_mut(), txn, number);
}

fn retain_others(prepared: &mut Vec<Ready>, txn: TxnNo, number: u8)
    ensures { prepared.new.items ≡ without_prepared txn number prepared.old.items }
{
    prepared.retain(|x| !is_part(x, txn, number));
}

/// Whether it is the part of this number.
fn is_part(x: &Ready, txn: TxnNo, number: u8) -> bool
    ensures { result ≡ is_part txn number x.now }
{
    is_of(x, txn) && x.number == number
}

/// Whether it is a part of the transaction.
fn is_of(x: &Ready, txn: TxnNo) -> bool
    ensures { result ≡ same_txn x.now.txn txn }
{
    x.txn == txn
}

impl Twin for Ready {
    fn copy(&self, alloc: Global) -> Result<Ready, Memory> {
        Ok(Ready {
            txn: self.txn,
            number: self.number,
            session: self.session,
            part: self.part.copy(alloc)?,
        })
    }

    fn discard(self) {
        drop(self);
    }
}
