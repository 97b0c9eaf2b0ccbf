//! What a leader decides.
ghost use Rattle.std.specs.Prelude.{◌≡◌};
ghost use Rattle.fs_txn.specs.Deciding.{keeps_rows, told_effects};

use fs_field::Effect;
use fs_ident::{List, Memory, Twin, copy_two};
use fs_model::Reply;
use fs_record::LedEnd;
use std::alloc::Global;

/// Whether a led operation is admitted.
#[derive(Debug, Drop)]
pub enum Decision {
    /// It is, with this reply; for each part the effects on its file.
    Commit {
        reply: Reply,
        effects: List<List<Effect>>,
    },
    /// It is not.
    Abort {
        end: LedEnd,
    },
}

impl Decision {
    /// The effects that the part of this number, from 0, is to apply: none where nothing is admitted, and none where there is no
    /// such part.
    pub fn effects_of(&self, part: u8) -> &[Effect]
        ensures { result.now ≡ told_effects self.now part }
    {
        match self {
            Decision::Commit { effects, .. } => match effects.as_slice().get(part as usize) {
                Some(told) => told.as_slice(),
                None => &[],
            },
            Decision::Abort { .. } => &[],
        }
    }

    /// Whether the leader's own rows stay locked while another server has not told that it applied its effects: where a file is
    /// renamed. In every other case they are unlocked with the decision.
    pub fn keeps_rows(&self) -> bool
        ensures { result ≡ keeps_rows self.now }
    {
        matches!(
            self,
            Decision::Commit {
                reply: Reply::Renamed,
                ..
            }
        )
    }
}

impl Twin for Decision {
    fn copy(&self, alloc: Global) -> Result<Decision, Memory> {
        match self {
            Decision::Commit { reply, effects } => {
                let (reply, effects) = copy_two(alloc, reply, effects)?;
                Ok(Decision::Commit { reply, effects })
            }
            Decision::Abort { end } => Ok(Decision::Abort {
                end: end.copy(alloc)?,
            }),
        }
    }

    fn discard(self) {
        drop(self);
    }
}
