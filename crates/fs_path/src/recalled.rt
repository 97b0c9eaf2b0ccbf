//! What is to be told when leases are asked back.
ghost use Rattle.std.specs.Prelude.{◌≡◌};
ghost use Rattle.fs_path.specs.Returns.{first_down};

use fs_ident::{List, PathNo};

/// What a lease that is asked back by its number is for its holder.
#[derive(Debug, Drop)]
pub enum Recalled {
    /// Nothing rests on it: it goes back to that server.
    Release { to: u8 },
    /// These, which rest on it, are asked back first, each of its holder.
    Down(List<(u8, PathNo)>),
    /// It is not had.
    Unheld,
}

impl Recalled {
    /// Those that rest on it are asked back first; where there are none, it goes back to that server.
    pub(crate) fn first_down(to: u8, down: List<(u8, PathNo)>) -> Recalled
        ensures { result ≡ first_down to down }
    {
        if down.is_empty() {
            Recalled::Release { to }
        } else {
            Recalled::Down(down)
        }
    }
}

/// What is to be told where all leases over a part of the files are asked back.
#[derive(Debug, Drop)]
pub struct GiveBack {
    /// Those given out that are asked back, each of its holder, in order of number.
    pub recalls: List<(u8, PathNo)>,
    /// Those that go back, each to its server, in order of number.
    pub releases: List<(u8, PathNo)>,
}
