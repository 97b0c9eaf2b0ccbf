//! What opens may do beside one another.
ghost use Rattle.std.specs.Prelude.{◌≡◌, false};
ghost use Rattle.fs_modes.specs.Modes.{has, conflicts, opposing};
ghost use Rattle.fs_modes.specs.declared.modes.Mode.{Mode};
ghost use Rattle.fs_modes.specs.declared.modes.Modes.{Modes as Six};

use crate::modes::Modes;

/// `NONE` has none of the six.
pub fn none_has_no_mode()
    ensures { (m : Mode) → has Modes.NONE m ≡ false }
{}

/// Conflicts are mutual, and there is one exactly where no others may have what the other has.
pub fn conflicts_are_mutual()
    ensures mutual { (a b : Six) → conflicts a b ≡ conflicts b a }
    ensures opposed { (a b : Six) → conflicts a b ≡ conflicts (opposing a) (opposing b) }
{}
