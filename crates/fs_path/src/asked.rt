//! Which of the leases from other servers are asked back.
ghost use Rattle.std.specs.Prelude.{◌≡◌};
ghost use Rattle.std.specs.List.{list_any};
ghost use Rattle.fs_path.specs.Asked.{asks, asks_issued};
ghost use Rattle.fs_path.specs.Index.{IsOver};
ghost use Rattle.fs_path.specs.Leases.{goes_over};
ghost use Rattle.fs_path.specs.Returns.{goes_back, is_needed, rests_on_asked};

use crate::having::Having;
use crate::index::FileIndex;
use crate::issued::Issued;
use fs_ident::{FileId, PathNo};
use fs_map::FileMap;

/// Which leases are asked back.
#[derive(Drop)]
pub(crate) enum Asked<'a> {
    /// That of the number.
    Number(PathNo),
    /// Those that were asked back before.
    Leaving,
    /// Those whose path goes over a file below the prefix that is the server's.
    Into(&'a FileMap, u8, &'a FileId),
}

impl<'a> Asked<'a> {
    /// Whether the lease from another server is.
    pub fn asks(&self, h: &Having) -> bool
        ensures { result ≡ asks self.now h.now }
    {
        match self {
            Asked::Number(no) => h.no() == *no,
            Asked::Leaving => h.is_leaving(),
            Asked::Into(map, me, prefix) => h.goes_into(map, *me, prefix),
        }
    }

    /// Whether one that was given out is, by its own path.
    pub fn asks_issued(&self, l: &Issued) -> bool
        ensures { result ≡ asks_issued self.now l.now }
    {
        match self {
            Asked::Number(_) | Asked::Leaving => false,
            Asked::Into(map, me, prefix) => l.goes_into(map, *me, prefix),
        }
    }

    /// Whether the path of one that was given out goes over the file of one that is asked back.
    #[tactic(auto, using(crate::proofs::Steps::any_step))]
    pub fn stands_under(&self, held: &[Having], l: &Issued) -> bool
        ensures { result ≡ rests_on_asked (asks self.now) held.now l.now }
    {
        for h in held {
            if self.asks(h) && l.goes_over(h.file()) {
                return true;
            }
        }
        false
    }

    /// Whether the lease is asked back and nothing that was given out needs it.
    pub fn frees(&self, h: &Having, issued: &[Issued], over: &FileIndex) -> bool
        requires { IsOver over.now issued.now }
        ensures { result ≡ goes_back (asks self.now) issued.now h.now }
    {
        self.asks(h) && !is_needed(issued, over, h)
    }
}

/// Whether a path that was given out goes over the lease's file.
pub(crate) fn is_needed(issued: &[Issued], over: &FileIndex, h: &Having) -> bool
    requires { IsOver over.now issued.now }
    ensures { result ≡ is_needed issued.now h.now }
{
    any_over(issued, over, h.file())
}

/// Whether one of these paths goes over the file.
pub(crate) fn any_over(issued: &[Issued], over: &FileIndex, file: &FileId) -> bool
    requires { IsOver over.now issued.now }
    ensures { result ≡ list_any (goes_over file.now) issued.now }
{
    if over.is_whole() {
        !over.at(file).is_empty()
    } else {
        walk_over(issued, file)
    }
}

/// Whether one of these paths goes over the file, by a walk over all paths.
#[tactic(auto, using(crate::proofs::Steps::any_step))]
fn walk_over(issued: &[Issued], file: &FileId) -> bool
    ensures { result ≡ list_any (goes_over file.now) issued.now }
{
    for l in issued {
        if l.goes_over(file) {
            return true;
        }
    }
    false
}
