//! Why a directory gives no number.
ghost use Rattle.std.specs.Prelude.{◌≡◌};
ghost use Rattle.fs_record.specs.declared.error.FreshError.TheVariants.{Memory};

use thiserror::Error;

/// Why there is no identifier for a new file.
#[derive(Clone, Copy, Debug, PartialEq, Eq, Error)]
pub enum FreshError {
    /// The directory has 32 numbers already, or no number below 4294967296 is left.
    #[error("no identifier is left below the directory")]
    NoIds,
    /// There is no such directory here.
    #[error("no such directory is here")]
    NoDir,
    /// Memory is wanting.
    #[error("memory is wanting")]
    Memory,
}

impl From<fs_ident::Memory> for FreshError {
    ghost from_gives = { λ _ e. e ≡ Memory };

    fn from(_: fs_ident::Memory) -> FreshError {
        FreshError::Memory
    }
}
