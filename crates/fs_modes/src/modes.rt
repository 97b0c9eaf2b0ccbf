//! Six bits: accesses and denials.
ghost use Rattle.std.specs.Prelude.{◌≡◌, ◌↔◌, ◌<◌, ◌⊎◌, IfSome, IsNone};
ghost use Rattle.fs_modes.specs.Modes.{has, number_of, acc_of, deny_of, has_access, is_denied, conflicts, or, opposing, without};
ghost use Rattle.fs_modes.specs.declared.modes.Modes.{Modes};

use fs_ident::{Memory, Twin};
use std::alloc::Global;

/// One of the six: an access, or a denial of that access to others.
#[derive(Clone, Copy, Debug, PartialEq, Eq, PartialOrd, Ord)]
pub enum Mode {
    AccR,
    AccW,
    AccD,
    DenyR,
    DenyW,
    DenyD,
}

/// What an open may do (read, write, delete) and what it denies to others.
#[derive(Clone, Copy, Debug, PartialEq, Eq)]
pub struct Modes {
    pub acc_r: bool,
    pub acc_w: bool,
    pub acc_d: bool,
    pub deny_r: bool,
    pub deny_w: bool,
    pub deny_d: bool,
}

impl Modes {
    /// No access and no denial.
    pub const NONE: Modes = Modes {
        acc_r: false,
        acc_w: false,
        acc_d: false,
        deny_r: false,
        deny_w: false,
        deny_d: false,
    };

    /// The modes of two numbers from 0 to 7, read 1, write 2 and delete 4. None exactly where there is no
    /// access or a number is above 7.
    pub fn new(acc: u8, deny: u8) -> Option<Modes>
        ensures none { IsNone result ↔ ((acc ≡ 0) ⊎ ((7 < acc) ⊎ (7 < deny))) }
        ensures accesses { IfSome result (λ m. acc_of m ≡ acc) }
        ensures denials { IfSome result (λ m. deny_of m ≡ deny) }
    {
        if acc == 0 || acc > 7 || deny > 7 {
            return None;
        }
        Some(Modes {
            acc_r: acc % 2 == 1,
            acc_w: acc / 2 % 2 == 1,
            acc_d: acc / 4 == 1,
            deny_r: deny % 2 == 1,
            deny_w: deny / 2 % 2 == 1,
            deny_d: deny / 4 == 1,
        })
    }

    /// The accesses as a number: read 1, write 2, delete 4.
    pub fn acc(self) -> u8
        ensures { result ≡ acc_of self }
    {
        number(self.acc_r, self.acc_w, self.acc_d)
    }

    /// The denials as a number: read 1, write 2, delete 4.
    pub fn deny(self) -> u8
        ensures { result ≡ deny_of self }
    {
        number(self.deny_r, self.deny_w, self.deny_d)
    }

    /// Whether it is there.
    pub fn has(self, m: Mode) -> bool
        ensures { result ≡ has self m }
    {
        match m {
            Mode::AccR => self.acc_r,
            Mode::AccW => self.acc_w,
            Mode::AccD => self.acc_d,
            Mode::DenyR => self.deny_r,
            Mode::DenyW => self.deny_w,
            Mode::DenyD => self.deny_d,
        }
    }

    /// Whether there is at least one access.
    pub fn has_access(self) -> bool
        ensures { result ≡ has_access self }
    {
        self.acc_r || self.acc_w || self.acc_d
    }

    /// What one of the two has.
    pub fn or(self, other: Modes) -> Modes
        ensures { result ≡ or self other }
    {
        Modes {
            acc_r: self.acc_r || other.acc_r,
            acc_w: self.acc_w || other.acc_w,
            acc_d: self.acc_d || other.acc_d,
            deny_r: self.deny_r || other.deny_r,
            deny_w: self.deny_w || other.deny_w,
            deny_d: self.deny_d || other.deny_d,
        }
    }

    /// Whether an access of one is denied by the other.
    pub fn conflicts(self, other: Modes) -> bool
        ensures { result ≡ conflicts self other }
    {
        self.is_denied_by(other) || other.is_denied_by(self)
    }

    fn is_denied_by(self, other: Modes) -> bool
        ensures { result ≡ is_denied self other }
    {
        self.acc_r && other.deny_r || self.acc_w && other.deny_w || self.acc_d && other.deny_d
    }

    /// Accesses and denials exchanged: what no other open may have beside these modes.
    pub fn opposing(self) -> Modes
        ensures { result ≡ opposing self }
    {
        Modes {
            acc_r: self.deny_r,
            acc_w: self.deny_w,
            acc_d: self.deny_d,
            deny_r: self.acc_r,
            deny_w: self.acc_w,
            deny_d: self.acc_d,
        }
    }

    /// What is there after and was not there before.
    pub fn turned_on(before: Modes, after: Modes) -> Modes
        ensures { result ≡ without after before }
    {
        after.without(before)
    }

    /// What was there before and is not there after.
    pub fn turned_off(before: Modes, after: Modes) -> Modes
        ensures { result ≡ without before after }
    {
        before.without(after)
    }

    fn without(self, other: Modes) -> Modes
        ensures { result ≡ without self other }
    {
        Modes {
            acc_r: self.acc_r && !other.acc_r,
            acc_w: self.acc_w && !other.acc_w,
            acc_d: self.acc_d && !other.acc_d,
            deny_r: self.deny_r && !other.deny_r,
            deny_w: self.deny_w && !other.deny_w,
            deny_d: self.deny_d && !other.deny_d,
        }
    }
}

/// Three bits as a number.
fn number(r: bool, w: bool, d: bool) -> u8
    ensures { result ≡ number_of r w d }
{
    let read = if r { 1 } else { 0 };
    let write = if w { 2 } else { 0 };
    let delete = if d { 4 } else { 0 };
    read + write + delete
}

impl Twin for Modes {
    fn copy(&self, _: Global) -> Result<Modes, Memory> {
        Ok(*self)
    }

    fn discard(self) {}
}

impl Twin for Mode {
    fn copy(&self, _: Global) -> Result<Mode, Memory> {
        Ok(*self)
    }

    fn discard(self) {}
}
