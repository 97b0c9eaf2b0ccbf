//! Laws of what every crate speaks of.
ghost use Rattle.std.specs.Prelude.{◌≡◌, ◌+◌, ◌^◌, ◌<◌, ◌≤◌, ◌++◌, [], ℕ, List as Seq, length};
ghost use Rattle.fs_ident.specs.Ident.{IsId, IsNumber};
ghost use Rattle.fs_ident.specs.Name.{IsName};
ghost use Rattle.fs_ident.specs.Packed.{log2, packed, packed_bits, bits_of};
ghost use Rattle.fs_ident.specs.declared.file_id.TheConstants.{DEPTH};
ghost use Rattle.fs_ident.specs.declared.limits.TheConstants.{LATEST, SESSIONS};

/// The limits, each as a number: how many numbers an identifier has at most, how many bytes a name, the greatest number
/// of a session, and the latest reading in milliseconds.
pub fn limits_of_names()
    ensures depth { DEPTH ≡ 32 }
    ensures id { (id : Seq ℕ) → IsId id → length id ≤ 32 }
    ensures name { (bytes : Seq ℕ) → IsName bytes → length bytes ≤ 255 }
    ensures sessions { SESSIONS ≡ 1000 }
    ensures latest { LATEST ≡ 1000000000000000 }
{}

/// Packed identifiers: the logarithm that their codes go by, that their bytes have their bits, that none is a proper
/// prefix of another, and that bytes that begin with one tell it and what is behind it.
pub fn packed_identifiers()
    ensures log { (n : ℕ) → IsNumber n → (2 ^ log2 n ≤ n) × (n < 2 ^ (log2 n + 1)) }
    ensures bits { (id : Seq ℕ) → bits_of (packed id) ≡ packed_bits id }
    ensures prefix { (a b rest : Seq ℕ) → IsId a → IsId b → packed b ≡ packed a ++ rest →
        (a ≡ b) × (rest ≡ []) }
    ensures one { (a b x y : Seq ℕ) → IsId a → IsId b → packed a ++ x ≡ packed b ++ y →
        (a ≡ b) × (x ≡ y) }
{}
