//! Schedules that are read, and texts that are refused.
use crate::{err_of, reads, same, shows, spend};
use fs_ident::Twin;
use fs_schedule::{ScheduleError, read_schedule};
use std::alloc::Global;
use std::fmt::{Debug, Display};
use std::process::Abort;
use std::test::Fail;

/// A schedule of the direct form with an event of each kind.
const DIRECT: &str = "farsite 1 direct
0 join c1
1000000000000000 join c1000
7 do c2 lookup / \"a b\"
7 do c2 list /1/3
7 do c2 kind /1
7 do c2 info /4294967295
7 do c2 create / \"a\" dir
7 do c2 create / \"a\" file
7 do c2 open /1 4294967295 RWD -
7 do c2 open /1 0 R WD
7 do c2 close /1 3
7 do c2 set /1 3 10 18446744073709551615
7 do c2 delete / \"a\"
7 do c2 rename / \"a\" /1 \"b\"
";

/// What it is read as.
const DIRECT_SHOWN: &str =
    "Schedule { head: Direct, events: List { items: [Event { reading: 0, what: Join(Session(1)) }, Event { reading: 1000000000000000, what: Join(Session(1000)) }, Event { reading: 7, what: Do(Session(2), Lookup { dir: FileId { numbers: [] }, name: Name { bytes: [97, 32, 98] } }) }, Event { reading: 7, what: Do(Session(2), List { dir: FileId { numbers: [1, 3] } }) }, Event { reading: 7, what: Do(Session(2), Kind { file: FileId { numbers: [1] } }) }, Event { reading: 7, what: Do(Session(2), Info { file: FileId { numbers: [4294967295] } }) }, Event { reading: 7, what: Do(Session(2), Create { dir: FileId { numbers: [] }, name: Name { bytes: [97] }, kind: Dir, id: None }) }, Event { reading: 7, what: Do(Session(2), Create { dir: FileId { numbers: [] }, name: Name { bytes: [97] }, kind: File, id: None }) }, Event { reading: 7, what: Do(Session(2), OpenFile { file: FileId { numbers: [1] }, h: 4294967295, modes: Modes { acc_r: true, acc_w: true, acc_d: true, deny_r: false, deny_w: false, deny_d: false } }) }, Event { reading: 7, what: Do(Session(2), OpenFile { file: FileId { numbers: [1] }, h: 0, modes: Modes { acc_r: true, acc_w: false, acc_d: false, deny_r: false, deny_w: true, deny_d: true } }) }, Event { reading: 7, what: Do(Session(2), Close { file: FileId { numbers: [1] }, h: 3 }) }, Event { reading: 7, what: Do(Session(2), Set { file: FileId { numbers: [1] }, h: 3, size: 10, stamp: 18446744073709551615 }) }, Event { reading: 7, what: Do(Session(2), Delete { dir: FileId { numbers: [] }, name: Name { bytes: [97] } }) }, Event { reading: 7, what: Do(Session(2), Rename { sdir: FileId { numbers: [] }, sname: Name { bytes: [97] }, ddir: FileId { numbers: [1] }, dname: Name { bytes: [98] } }) }] } }";

/// A schedule of the servers form with an event of each kind.
const SERVED: &str = "farsite 1 servers 1 skew 10 term 100
0 join c1
7 do c2 lookup / \"a\"
7 do c2 list /
7 do c2 kind /1
7 do c2 info /1
7 do c2 create / \"a\" dir
7 do c2 open /1 3 RW D
7 do c2 close /1 3
7 do c2 set /1 3 10 5
7 tell 0
7 tell 18446744073709551615
7 tell next
7 turn c1000
7 turn s0
7 recall s0 life /
7 recall s0 child /1 \"a b\"
7 recall s0 names /
7 recall s0 info /1
7 recall s0 self /1 aR
7 recall s0 other /1/2 dD
";

/// What it is read as.
const SERVED_SHOWN: &str =
    "Schedule { head: Servers { servers: 1, skew: 10, term: 100 }, events: List { items: [Event { reading: 0, what: Join(Session(1)) }, Event { reading: 7, what: Do(Session(2), Lookup { dir: FileId { numbers: [] }, name: Name { bytes: [97] } }) }, Event { reading: 7, what: Do(Session(2), List { dir: FileId { numbers: [] } }) }, Event { reading: 7, what: Do(Session(2), Kind { file: FileId { numbers: [1] } }) }, Event { reading: 7, what: Do(Session(2), Info { file: FileId { numbers: [1] } }) }, Event { reading: 7, what: Do(Session(2), Create { dir: FileId { numbers: [] }, name: Name { bytes: [97] }, kind: Dir, id: None }) }, Event { reading: 7, what: Do(Session(2), OpenFile { file: FileId { numbers: [1] }, h: 3, modes: Modes { acc_r: true, acc_w: true, acc_d: false, deny_r: false, deny_w: false, deny_d: true } }) }, Event { reading: 7, what: Do(Session(2), Close { file: FileId { numbers: [1] }, h: 3 }) }, Event { reading: 7, what: Do(Session(2), Set { file: FileId { numbers: [1] }, h: 3, size: 10, stamp: 5 }) }, Event { reading: 7, what: Tell(Some(0)) }, Event { reading: 7, what: Tell(Some(18446744073709551615)) }, Event { reading: 7, what: Tell(None) }, Event { reading: 7, what: Turn(Client(Session(1000))) }, Event { reading: 7, what: Turn(Server(0)) }, Event { reading: 7, what: Recall(0, Life(FileId { numbers: [] })) }, Event { reading: 7, what: Recall(0, Child(FileId { numbers: [1] }, Name { bytes: [97, 32, 98] })) }, Event { reading: 7, what: Recall(0, Names(FileId { numbers: [] })) }, Event { reading: 7, what: Recall(0, Info(FileId { numbers: [1] })) }, Event { reading: 7, what: Recall(0, SelfW(FileId { numbers: [1] }, AccR)) }, Event { reading: 7, what: Recall(0, Other(FileId { numbers: [1, 2] }, DenyD)) }] } }";

/// A schedule with two servers: what names the greater one, and moves.
const TWO: &str = "farsite 1 servers 2 skew 0 term 1
3 turn s1
3 recall s1 life /
3 move s0 /1 s1
3 move s0 / s0
3 move s1 /4294967295/2 s0
";

/// What it is read as.
const TWO_SHOWN: &str =
    "Schedule { head: Servers { servers: 2, skew: 0, term: 1 }, events: List { items: [Event { reading: 3, what: Turn(Server(1)) }, Event { reading: 3, what: Recall(1, Life(FileId { numbers: [] })) }, Event { reading: 3, what: Move { at: 0, prefix: FileId { numbers: [1] }, to: 1 } }, Event { reading: 3, what: Move { at: 0, prefix: FileId { numbers: [] }, to: 0 } }, Event { reading: 3, what: Move { at: 1, prefix: FileId { numbers: [4294967295, 2] }, to: 0 } }] } }";

/// A schedule with as many servers as there may be.
const FIFTEEN: &str = "farsite 1 servers 15 skew 10 term 100
0 turn s14
0 move s14 / s10";

/// What it is read as.
const FIFTEEN_SHOWN: &str =
    "Schedule { head: Servers { servers: 15, skew: 10, term: 100 }, events: List { items: [Event { reading: 0, what: Turn(Server(14)) }, Event { reading: 0, what: Move { at: 14, prefix: FileId { numbers: [] }, to: 10 } }] } }";

/// The text is read as this, and a copy is the same.
fn is_read(rt: &impl Abort, alloc: Global, text: &str, wanted: &str) -> Result<(), Fail> {
    shows_with_copy(rt, alloc, read_schedule(alloc, text.as_bytes())?, wanted)
}

/// So the value, which is let go, is written, and its copy too.
fn shows_with_copy<T: Twin + Debug + Drop>(
    rt: &impl Abort,
    alloc: Global,
    x: T,
    wanted: &str,
) -> Result<(), Fail> {
    shows(rt, alloc, &x, wanted)?;
    reads(rt, alloc, x.copy(alloc)?, wanted)
}

#[test]
fn every_event_is_read_and_copied(rt: HostRuntime) -> Result<(), Fail> {
    is_read(&rt, rt.alloc(), DIRECT, DIRECT_SHOWN)?;
    is_read(&rt, rt.alloc(), SERVED, SERVED_SHOWN)?;
    is_read(&rt, rt.alloc(), TWO, TWO_SHOWN)?;
    is_read(&rt, rt.alloc(), FIFTEEN, FIFTEEN_SHOWN)
}

/// Texts with the greatest numbers of a first line, and texts that are refused for it, each behind what comes of it.
const FIRST_LINES: [(&str, &str); 26] = [
    (
        "read",
        "farsite 1 servers 15 skew 1000000000 term 1000000000\n",
    ),
    ("1", ""),
    ("1", "\n"),
    ("1", "farsite 1 direct\r\n"),
    ("1", "farsite 1 direct 1\n"),
    ("1", "farsite 1 servers 0 skew 10 term 100\n"),
    ("1", "farsite 1 servers 00 skew 10 term 100\n"),
    ("1", "farsite 1 servers 01 skew 10 term 100\n"),
    ("1", "farsite 1 servers 016 skew 10 term 100\n"),
    ("1", "farsite 1 servers +1 skew 10 term 100\n"),
    ("1", "farsite 1 servers s1 skew 10 term 100\n"),
    ("1", "farsite 1 servers skew 10 term 100\n"),
    ("servers 1", "farsite 1 servers 16 skew 10 term 100\n"),
    (
        "servers 1",
        "farsite 1 servers 99999999999999999999999999 skew 10 term 100\n",
    ),
    (
        "servers 1",
        "farsite 1 servers 16 skew 10 term 100\n0 join c1001",
    ),
    ("1", "farsite 1 servers 16 skew 10 term 0\n"),
    ("1", "farsite 1 servers 16 skew 1000000001 term 100\n"),
    ("2", "farsite 1 servers 15 skew 10 term 100\n0 turn s15"),
    (
        "2",
        "farsite 1 servers 2 skew 10 term 100\n0 recall s2 life /",
    ),
    ("2", "farsite 1 servers 2 skew 10 term 100\n0 move s0 /1 s2"),
    ("1", "farsite 1 servers 1 skew 1000000001 term 100\n"),
    ("1", "farsite 1 servers 1 skew 10 term 1000000001\n"),
    ("1", "farsite 1 servers 1 skew 10 term 0\n"),
    ("1", "farsite 1 servers 1 skew 010 term 100\n"),
    ("1", "farsite 1 servers 1 term 100 skew 10\n"),
    ("1", "farsite 1 servers 1 skew 10 term 100 \n"),
];

/// Texts behind the first line of the direct form, each behind what comes of it.
const DIRECT_LINES: [(&str, &str); 25] = [
    ("2", "0 move s0 / s0"),
    ("2", "\n"),
    ("3", "0 join c1\n\n"),
    ("2", "0 join c1\r\n"),
    ("2", "0 join  c1"),
    ("2", "0 join c1 "),
    ("2", "0 tell 0"),
    ("2", "0 tell next"),
    ("2", "0 turn c1"),
    ("2", "0 turn s0"),
    ("2", "0 recall s0 life /"),
    ("2", "00 join c1"),
    ("2", "1000000000000001 join c1"),
    ("2", "0 join c0"),
    ("2", "0 join c01"),
    ("2", "0 join c"),
    ("sessions 2", "0 join c1001"),
    ("sessions 2", "0 join c99999999999999999999999999"),
    ("sessions 2", "0 join c1001\n0 jo"),
    ("2", "0 jo\n0 join c1001"),
    ("2", "0 do c1001 open /1 1 - R"),
    ("2", "0 do c1 lookup / \"a:b\""),
    ("2", "0 do c1 lookup / a"),
    ("2", "0 do c1 lookup / \"a\"b"),
    ("2", "0 do c1 reap /1 c2"),
];

/// Texts behind the first line of the servers form, each behind what comes of it.
const SERVED_LINES: [(&str, &str); 35] = [
    ("2", "0 tell"),
    ("2", "0 tell 00"),
    ("2", "0 tell last"),
    ("2", "0 tell 18446744073709551616"),
    ("2", "0 turn s1"),
    ("2", "0 turn s00"),
    ("2", "0 turn s"),
    ("2", "0 turn c0"),
    ("2", "0 turn x1"),
    ("sessions 2", "0 turn c1001"),
    ("sessions 2", "0 join c1001"),
    ("2", "0 do s0 kind /"),
    ("2", "0 recall s1 life /"),
    ("2", "0 recall c1 life /"),
    ("2", "0 recall s0 child /"),
    ("2", "0 recall s0 own /1"),
    ("2", "0 recall s0 own /1 aR"),
    ("2", "0 recall s0 self /1"),
    ("2", "0 recall s0 self /1 aX"),
    ("2", "0 recall s0 other /1 R"),
    ("2", "0 recall s0 other /1 aR aW"),
    ("read", "0 move s0 /1 s0"),
    ("2", "0 move s0 /1 s1"),
    ("2", "0 move s1 /1 s0"),
    ("2", "0 move s0 /1 c1"),
    ("2", "0 move s0 /0 s0"),
    ("2", "0 move s0 s0"),
    ("2", "0 move s0 /1"),
    ("2", "0 move s0 /1 s0 s0"),
    ("2", "0 do c1 open /1 1 - R"),
    ("2", "0 do c1 reap /1 c2"),
    ("read", "0 do c1 delete / \"a\""),
    ("read", "0 do c1 rename / \"a\" / \"b\""),
    ("2", "0 do c1 delete /"),
    ("2", "0 do c1 rename / \"a\" /"),
];

/// Readings behind the first line of the servers form with a skew of 10, each behind what comes of it.
const READINGS: [(&str, &str); 5] = [
    ("read", "100 join c1\n90 join c2"),
    (
        "line 3 is more than the skew before line 2",
        "100 join c1\n89 join c2",
    ),
    (
        "line 4 is more than the skew before line 2",
        "100 join c1\n95 join c2\n89 join c3\n0 join c4",
    ),
    (
        "line 5 is more than the skew before line 3",
        "99 join c1\n100 join c2\n101 join c3\n89 join c4",
    ),
    ("5", "100 join c1\n0 join c2\n0 join c3\n0 jo"),
];

/// What comes of a text: `read`, a line, the limit that it passes and its line, or what else is wrong.
fn told_of(alloc: Global, text: &[u8]) -> Result<String, Fail> {
    match err_of(read_schedule(alloc, text)) {
        None => written(alloc, "read"),
        Some(why) => told_of_error(alloc, why),
    }
}

fn told_of_error(alloc: Global, why: ScheduleError) -> Result<String, Fail> {
    match why {
        ScheduleError::BadLine { line } => written(alloc, line),
        ScheduleError::Limit { which, at } => Ok(format!(in alloc; "{which} {at}")?),
        other => written(alloc, other),
    }
}

/// So the value, which is let go, is written for users.
fn written<T: Display + Drop>(alloc: Global, x: T) -> Result<String, Fail> {
    Ok(format!(in alloc; "{x}")?)
}

/// This comes of the lines behind the others.
fn is_told(
    rt: &impl Abort,
    alloc: Global,
    first: &str,
    lines: &str,
    wanted: &str,
) -> Result<(), Fail> {
    let told = told_behind(alloc, first, lines)?;
    same(rt, (lines, told.as_str()), (lines, wanted));
    Ok(())
}

/// What comes of the lines behind the others.
fn told_behind(alloc: Global, first: &str, lines: &str) -> Result<String, Fail> {
    let text = format!(in alloc; "{first}{lines}")?;
    told_of(alloc, text.as_bytes())
}

/// So it is with each of a table.
fn are_told(
    rt: &impl Abort,
    alloc: Global,
    first: &str,
    table: &[(&str, &str)],
) -> Result<(), Fail> {
    for (wanted, lines) in table {
        is_told(rt, alloc, first, lines, wanted)?;
    }
    Ok(())
}

const SERVERS: &str = "farsite 1 servers 1 skew 10 term 100\n";

#[test]
fn faults_of_first_lines(rt: HostRuntime) -> Result<(), Fail> {
    are_told(&rt, rt.alloc(), "", &FIRST_LINES)
}

#[test]
fn faults_of_lines_in_the_direct_form(rt: HostRuntime) -> Result<(), Fail> {
    are_told(&rt, rt.alloc(), "farsite 1 direct\n", &DIRECT_LINES)
}

#[test]
fn faults_of_lines_in_the_servers_form(rt: HostRuntime) -> Result<(), Fail> {
    are_told(&rt, rt.alloc(), SERVERS, &SERVED_LINES)
}

#[test]
fn faults_of_readings(rt: HostRuntime) -> Result<(), Fail> {
    are_told(&rt, rt.alloc(), SERVERS, &READINGS)
}

/// A schedule of the direct form with so many times this behind its head.
fn repeated(alloc: Global, piece: &[u8], times: usize) -> Result<Vec<u8>, Fail> {
    let mut text = Vec::from_slice(alloc, b"farsite 1 direct\n")?;
    for _ in 0..times {
        text.extend_from_slice(piece)?;
    }
    Ok(text)
}

/// Why the schedule whose one line has so many bytes is refused.
fn is_refused(rt: &impl Abort, alloc: Global, length: usize, wanted: &str) -> Result<(), Fail> {
    let text = repeated(alloc, b"x", length)?;
    let found = err_of(read_schedule(alloc, &text));
    spend(text);
    match found {
        None => Err(Fail::from("it is read")),
        Some(why) => is_written(rt, alloc, why, wanted),
    }
}

fn is_written(
    rt: &impl Abort,
    alloc: Global,
    why: ScheduleError,
    wanted: &str,
) -> Result<(), Fail> {
    let told = written(alloc, why)?;
    same(rt, told.as_str(), wanted);
    Ok(())
}

#[test]
fn lines_have_a_length(rt: HostRuntime) -> Result<(), Fail> {
    is_refused(&rt, rt.alloc(), 4_096, "line 2 is not in the grammar")?;
    is_refused(&rt, rt.alloc(), 4_097, "line 2 passes the limit of bytes")
}

/// How many events so many lines are; none where they are refused.
fn events(alloc: Global, lines: usize) -> Result<usize, Fail> {
    let text = repeated(alloc, b"0 join c1\n", lines)?;
    let found = read_schedule(alloc, &text);
    spend(text);
    match found {
        Ok(schedule) => {
            let count = schedule.events.len();
            spend(schedule);
            Ok(count)
        }
        Err(_) => Ok(0),
    }
}

#[test]
fn schedules_have_a_length(rt: HostRuntime) -> Result<(), Fail> {
    same(&rt, events(rt.alloc(), 65_536)?, 65_536);
    same(&rt, events(rt.alloc(), 65_537)?, 0);
    Ok(())
}
