//! The state of a client.
use crate::exchange::Exchange;
use crate::led::Led;
use fs_ident::{FileId, List, Memory, Session, Twin, copy_three, copy_two, zip_ok};
use fs_map::FileMap;
use fs_msg::Entry;
use fs_view::View;
use std::alloc::Global;

/// All that a client knows.
#[derive(Debug)]
pub(crate) struct Client {
    pub(crate) session: Session,
    /// How long a lease lasts.
    pub(crate) term: u64,
    /// The greatest reading so far.
    pub(crate) last: u64,
    pub(crate) view: View,
    /// What was answered and is not known to be admitted, in order.
    pub(crate) log: List<Entry>,
    pub(crate) exchange: Option<Exchange>,
    /// The operation that a server leads.
    pub(crate) led: Option<Led>,
    /// Which server manages which files, as far as servers said.
    pub(crate) hints: FileMap,
    /// The directories of which a server said that they have no number left.
    pub(crate) full: List<FileId>,
    /// The number of the next operation.
    pub(crate) next: u64,
    /// The entry that was refused.
    pub(crate) over: Option<u64>,
}

impl Twin for Client {
    fn copy(&self, alloc: Global) -> Result<Client, Memory> {
        let parts = copy_three(alloc, &self.log, &self.exchange, &self.hints)?;
        let (parts, others) = zip_ok(parts, copy_two(alloc, &self.led, &self.full))?;
        let ((parts, others), view) = zip_ok((parts, others), self.view.copy(alloc))?;
        let (log, exchange, hints) = parts;
        let (led, full) = others;
        Ok(Client {
            session: self.session,
            term: self.term,
            last: self.last,
            view,
            log,
            exchange,
            led,
            hints,
            full,
            next: self.next,
            over: self.over,
        })
    }

    fn discard(self) {
        let Client {
            session: _,
            term: _,
            last: _,
            view,
            log: _,
            exchange: _,
            led: _,
            hints: _,
            full: _,
            next: _,
            over: _,
        } = self;
        view.discard();
    }
}
