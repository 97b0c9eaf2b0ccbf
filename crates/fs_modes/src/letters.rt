//! How modes are written and read.
ghost use Rattle.std.specs.Prelude.{◌≡◌, ◌||◌, Bool, true, Some, IfSome, IfNone};
ghost use Rattle.fs_modes.specs.Letters.{letters, dashed, acc_text, deny_text};
ghost use Rattle.fs_modes.specs.Modes.{has_access};
ghost use Rattle.fs_modes.specs.declared.modes.Modes.{Modes as Six};

use crate::modes::{Mode, Modes};
use std::fmt;

impl fmt::Display for Mode {
    ghost use Rattle.fs_modes.specs.Letters.{mode_text};

    ghost output = { λ m. Some (mode_text m) };

    fn fmt<W: fmt::Write>(&self, f: &mut fmt::Formatter<W>) -> fmt::Result {
        match self {
            Mode::AccR => f.write_str("aR"),
            Mode::AccW => f.write_str("aW"),
            Mode::AccD => f.write_str("aD"),
            Mode::DenyR => f.write_str("dR"),
            Mode::DenyW => f.write_str("dW"),
            Mode::DenyD => f.write_str("dD"),
        }
    }
}

impl Modes {
    /// The accesses as letters of `RWD`, in this order.
    pub fn acc_text(self) -> &'static str
        ensures { result.now ≡ acc_text self }
    {
        letters(self.acc_r, self.acc_w, self.acc_d)
    }

    /// The denials as letters of `RWD`, in this order, or `-` for none.
    pub fn deny_text(self) -> &'static str
        ensures { result.now ≡ deny_text self }
    {
        if self.deny_r || self.deny_w || self.deny_d {
            letters(self.deny_r, self.deny_w, self.deny_d)
        } else {
            "-"
        }
    }

    /// The modes that are written like this; None exactly where none with an access are.
    pub fn read(acc: &[u8], deny: &[u8]) -> Option<Modes>
        ensures accesses { IfSome result (λ m. acc.now ≡ acc_text m) }
        ensures denials { IfSome result (λ m. deny.now ≡ deny_text m) }
        ensures some_access { IfSome result (λ m. has_access m ≡ true) }
        ensures none { IfNone result ((m : Six) → has_access m ≡ true → acc.now ≡ acc_text m →
            deny.now ≡ deny_text m → ⊥) }
    {
        let (acc_r, acc_w, acc_d) = read_letters(acc)?;
        let (deny_r, deny_w, deny_d) = read_denials(deny)?;
        Some(Modes {
            acc_r,
            acc_w,
            acc_d,
            deny_r,
            deny_w,
            deny_d,
        })
    }
}

/// The letters of those that are there.
fn letters(r: bool, w: bool, d: bool) -> &'static str
    ensures { result.now ≡ letters r w d }
{
    match (r, w, d) {
        (false, false, false) => "",
        (true, false, false) => "R",
        (false, true, false) => "W",
        (true, true, false) => "RW",
        (false, false, true) => "D",
        (true, false, true) => "RD",
        (false, true, true) => "WD",
        (true, true, true) => "RWD",
    }
}

/// Those of the three that the letters name, at least one.
fn read_letters(text: &[u8]) -> Option<(bool, bool, bool)>
    ensures found { IfSome result (λ t. text.now ≡ letters t.0 t.1 t.2) }
    ensures some { IfSome result (λ t. ((t.0 || t.1) || t.2) ≡ true) }
    ensures none { IfNone result ((r w d : Bool) → ((r || w) || d) ≡ true →
        text.now ≡ letters r w d → ⊥) }
{
    match text {
        b"R" => Some((true, false, false)),
        b"W" => Some((false, true, false)),
        b"RW" => Some((true, true, false)),
        b"D" => Some((false, false, true)),
        b"RD" => Some((true, false, true)),
        b"WD" => Some((false, true, true)),
        b"RWD" => Some((true, true, true)),
        _ => None,
    }
}

/// Those of the three that the letters name, or none of them for a dash.
fn read_denials(text: &[u8]) -> Option<(bool, bool, bool)>
    ensures found { IfSome result (λ t. text.now ≡ dashed (letters t.0 t.1 t.2)) }
    ensures none { IfNone result ((r w d : Bool) → text.now ≡ dashed (letters r w d) → ⊥) }
{
    if text == b"-".as_slice() {
        return Some((false, false, false));
    }
    read_letters(text)
}
