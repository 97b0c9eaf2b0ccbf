//! Modes by their numbers and by their letters.
use crate::same;
use fs_ident::Twin;
use fs_modes::{Mode, Modes, conflicts_are_mutual, none_has_no_mode};
use std::process::Abort;
use std::test::Fail;

/// An open for reading that denies writing and deleting.
const READS_ALONE: Modes = Modes {
    acc_r: true,
    acc_w: false,
    acc_d: false,
    deny_r: false,
    deny_w: true,
    deny_d: true,
};

/// The accesses and denials as numbers and as letters.
const LETTERS: [(u8, u8, &str, &str); 5] = [
    (1, 6, "R", "WD"),
    (1, 0, "R", "-"),
    (2, 0, "W", "-"),
    (7, 7, "RWD", "RWD"),
    (5, 1, "RD", "R"),
];

/// Modes are of these numbers and letters, and are read from the letters.
fn are_lettered(
    rt: &impl Abort,
    modes: Modes,
    (acc, deny, accesses, denials): (u8, u8, &str, &str),
) {
    same(rt, (modes.acc(), modes.deny()), (acc, deny));
    same(
        rt,
        (modes.acc_text(), modes.deny_text()),
        (accesses, denials),
    );
    same(
        rt,
        Modes::read(accesses.as_bytes(), denials.as_bytes()),
        Some(modes),
    );
}

#[test]
fn numbers_and_letters(rt: HostRuntime) -> Result<(), Fail> {
    for row in LETTERS {
        let modes = Modes::new(row.0, row.1).ok_or("no modes")?;
        are_lettered(&rt, modes, row);
    }
    Ok(())
}

#[test]
fn letters_that_are_no_modes(rt: HostRuntime) {
    same(&rt, Modes::read(b"DR", b"-"), None);
    same(&rt, Modes::read(b"-", b"-"), None);
    same(&rt, Modes::read(b"R", b""), None);
}

/// An open for writing.
fn writes() -> Result<Modes, Fail> {
    Ok(Modes::new(2, 0).ok_or("no modes")?)
}

#[test]
fn opens_beside_one_another(rt: HostRuntime) -> Result<(), Fail> {
    let writes = writes()?;
    same(&rt, READS_ALONE.conflicts(READS_ALONE), false);
    same(&rt, READS_ALONE.conflicts(writes), true);
    same(&rt, Modes::NONE.conflicts(READS_ALONE), false);
    same(&rt, READS_ALONE.opposing().has(Mode::AccW), true);
    same(
        &rt,
        Modes::turned_on(READS_ALONE, READS_ALONE.or(writes)),
        writes,
    );
    same(&rt, Modes::turned_off(writes, READS_ALONE), writes);
    same(&rt, Modes::NONE.has_access(), false);
    Ok(())
}

#[test]
fn modes_are_copied(rt: HostRuntime) -> Result<(), Fail> {
    let modes = READS_ALONE.copy(rt.alloc())?;
    same(&rt, modes.has(Mode::DenyW.copy(rt.alloc())?), true);
    Ok(())
}

const MODES: [(Mode, &str); 6] = [
    (Mode::AccR, "aR"),
    (Mode::AccW, "aW"),
    (Mode::AccD, "aD"),
    (Mode::DenyR, "dR"),
    (Mode::DenyW, "dW"),
    (Mode::DenyD, "dD"),
];

#[test]
fn prints_each_mode(rt: HostRuntime) -> Result<(), Fail> {
    for (mode, text) in &MODES {
        same(&rt, mode.to_string(rt.alloc())?.as_str(), *text);
    }
    Ok(())
}

#[test]
fn laws() {
    conflicts_are_mutual();
    none_has_no_mode();
}
