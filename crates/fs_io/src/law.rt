//! Laws of what comes and goes.
ghost use Rattle.std.specs.Prelude.{◌≡◌};
ghost use Rattle.fs_io.specs.declared.call_log.TheConstants.{PIECE};
ghost use Rattle.fs_io.specs.declared.reading.TheConstants.{AT_ONCE, LIMIT};

/// The limits, each as a number: how many bytes an input has at most, how many are asked for at once, and how many a
/// datagram in memory has room for.
pub fn limits_of_input()
    ensures limit { LIMIT ≡ 16777216 }
    ensures piece { AT_ONCE ≡ 4096 }
    ensures datagram { PIECE ≡ 1100 }
{}
