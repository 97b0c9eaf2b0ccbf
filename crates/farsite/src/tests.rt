mod generated;
mod led;
mod moves;
mod nodes;
mod paths;
mod poor;
mod schedules;
mod served;

use crate::run::flooded;
use crate::status::Status;
use crate::top::farsite;
use fs_io::{MemClock, MemSink, MemSource, SureLink};
use fs_schedule::Which;
use led::{
    DELETE_BEGINS, DELETE_ENDS, MOVE_MEANWHILE, OVER_THREE_ABORTS, OVER_THREE_BEGINS,
    OVER_THREE_ENDS, Piece, RENAME_BEGINS, RENAME_ENDS, RENAME_IS_DECIDED,
};
use moves::{
    DELEGATION, DELEGATION_REPORT, OVERTAKEN, OVERTAKEN_REPORT, REFUSED_MOVES,
    REFUSED_MOVES_REPORT, SENT_ON, SENT_ON_REPORT,
};
use paths::{MOVES_WAIT_FOR_PATHS, ONE_WINS, PATHS_BEGIN};
use schedules::{
    FIRST, FIRST_JOURNAL, FIRST_REPORT, HEAD, OPENS, OPENS_REPORT, OTHERS, OTHERS_OUTCOMES,
    RENAMES, RENAMES_REPORT, SAVE, SAVE_REPORT,
};
use served::{
    FIRST_CREATE, FIRST_CREATE_NOT_SENT, FIRST_CREATE_NOT_SENT_REPORT, FIRST_CREATE_REPORT,
    FIRST_CREATE_TOLD_TWICE, FIRST_CREATE_TOLD_TWICE_REPORT, LEASE_USED_TO_ITS_END,
    LEASE_USED_TO_ITS_END_REPORT, RECALL_MEETS_PENDING, RECALL_MEETS_PENDING_REPORT, SHARING,
    SHARING_REPORT, SHIPPED_AT_100, SHIPPED_AT_100_REPORT, SHIPPED_AT_109, SHIPPED_AT_109_REPORT,
    SHIPPED_AT_110, SHIPPED_AT_110_REPORT, UNBORN_FILE_IS_LEASED, UNBORN_FILE_IS_LEASED_REPORT,
    WITHIN_SKEW, WITHIN_SKEW_REPORT,
};
use std::alloc::Global;
use std::fmt::Debug;
use std::process::Abort;
use std::test::Fail;

/// The room that the sinks of these tests have.
const ROOM: usize = 100_000;

fn same<T: PartialEq + Debug + Drop>(rt: &impl Abort, found: T, wanted: T) {
    assert_eq!(rt; found, wanted);
}

fn words(alloc: Global, words: &[&str]) -> Result<Vec<String>, Fail> {
    let mut all = Vec::new(alloc);
    for word in words {
        all.push(String::from_str(alloc, word)?)?;
    }
    Ok(all)
}

/// How a call ends with these words.
fn ended(
    alloc: Global,
    words: &[String],
    source: &mut MemSource,
    sink: &mut MemSink,
) -> Result<Status, Fail> {
    let mut clock = MemClock::new(Vec::new(alloc));
    let mut link = SureLink::new(alloc, Vec::new(alloc), 0)?;
    Ok(farsite(alloc, words, source, sink, &mut clock, &mut link))
}

/// How a call ends whose reads and writes fail at these calls, and what is written.
fn called(
    alloc: Global,
    given: &[&str],
    input: Vec<u8>,
    reads: &[u64],
    writes: &[u64],
) -> Result<(Status, Vec<u8>), Fail> {
    let mut source = MemSource::new(input, Vec::from_slice(alloc, reads)?);
    let mut sink = MemSink::new(alloc, ROOM, Vec::from_slice(alloc, writes)?)?;
    let status = ended(alloc, &words(alloc, given)?, &mut source, &mut sink)?;
    Ok((status, Vec::from_slice(alloc, sink.bytes())?))
}

/// How a replay ends of a head, so many copies of a piece and a tail, and what is written.
fn replayed(
    alloc: Global,
    head: &[u8],
    copy: &[u8],
    times: usize,
    tail: &[u8],
) -> Result<(Status, Vec<u8>), Fail> {
    let mut bytes = Vec::from_slice(alloc, head)?;
    add_copies(&mut bytes, copy, times)?;
    bytes.extend_from_slice(tail)?;
    called(alloc, &["replay"], bytes, &[], &[])
}

fn add_copies(bytes: &mut Vec<u8>, copy: &[u8], times: usize) -> Result<(), Fail> {
    for _ in 0..times {
        bytes.extend_from_slice(copy)?;
    }
    Ok(())
}

/// The report of the schedule.
fn reports(rt: &impl Abort, alloc: Global, input: &[u8], report: &[u8]) -> Result<(), Fail> {
    let (status, written) = replayed(alloc, input, NONE, 0, NONE)?;
    same(rt, status, Status::Done);
    same(rt, written.as_slice(), report);
    Ok(())
}

#[test]
fn reports_to_the_byte(rt: HostRuntime) -> Result<(), Fail> {
    reports(&rt, rt.alloc(), FIRST, FIRST_REPORT)?;
    reports(&rt, rt.alloc(), RENAMES, RENAMES_REPORT)?;
    reports(&rt, rt.alloc(), OPENS, OPENS_REPORT)?;
    reports(&rt, rt.alloc(), SAVE, SAVE_REPORT)
}

/// The journal in JSON.
#[test]
fn journals_to_the_byte(rt: HostRuntime) -> Result<(), Fail> {
    let input = Vec::from_slice(rt.alloc(), FIRST)?;
    let (status, written) = called(rt.alloc(), &["journal"], input, &[], &[])?;
    same(&rt, status, Status::Done);
    same(&rt, written.as_slice(), FIRST_JOURNAL);
    Ok(())
}

#[test]
fn outcomes_to_the_byte(rt: HostRuntime) -> Result<(), Fail> {
    let (status, written) = replayed(rt.alloc(), OTHERS, NONE, 0, NONE)?;
    same(&rt, status, Status::Done);
    same(&rt, written.starts_with(OTHERS_OUTCOMES), true);
    Ok(())
}

/// A server and its clients: leases, logs, opens, recalls and repeats.
#[test]
fn reports_of_a_server_to_the_byte(rt: HostRuntime) -> Result<(), Fail> {
    let alloc = rt.alloc();
    reports(&rt, alloc, FIRST_CREATE, FIRST_CREATE_REPORT)?;
    reports(
        &rt,
        alloc,
        FIRST_CREATE_NOT_SENT,
        FIRST_CREATE_NOT_SENT_REPORT,
    )?;
    reports(
        &rt,
        alloc,
        FIRST_CREATE_TOLD_TWICE,
        FIRST_CREATE_TOLD_TWICE_REPORT,
    )?;
    reports(
        &rt,
        alloc,
        RECALL_MEETS_PENDING,
        RECALL_MEETS_PENDING_REPORT,
    )?;
    reports(&rt, alloc, SHARING, SHARING_REPORT)?;
    reports(
        &rt,
        alloc,
        UNBORN_FILE_IS_LEASED,
        UNBORN_FILE_IS_LEASED_REPORT,
    )
}

/// Clocks that differ, and leases that end.
#[test]
fn reports_of_readings_to_the_byte(rt: HostRuntime) -> Result<(), Fail> {
    let alloc = rt.alloc();
    reports(
        &rt,
        alloc,
        LEASE_USED_TO_ITS_END,
        LEASE_USED_TO_ITS_END_REPORT,
    )?;
    reports(&rt, alloc, SHIPPED_AT_100, SHIPPED_AT_100_REPORT)?;
    reports(&rt, alloc, SHIPPED_AT_109, SHIPPED_AT_109_REPORT)?;
    reports(&rt, alloc, SHIPPED_AT_110, SHIPPED_AT_110_REPORT)?;
    reports(&rt, alloc, WITHIN_SKEW, WITHIN_SKEW_REPORT)
}

#[test]
fn reports_of_moves_to_the_byte(rt: HostRuntime) -> Result<(), Fail> {
    reports(&rt, rt.alloc(), DELEGATION, DELEGATION_REPORT)?;
    reports(&rt, rt.alloc(), OVERTAKEN, OVERTAKEN_REPORT)?;
    reports(&rt, rt.alloc(), REFUSED_MOVES, REFUSED_MOVES_REPORT)?;
    reports(&rt, rt.alloc(), SENT_ON, SENT_ON_REPORT)
}

/// The report of a beginning of a schedule and an end.
fn goes_on(rt: &impl Abort, alloc: Global, begun: Piece, end: Piece) -> Result<(), Fail> {
    let (status, written) = replayed(alloc, begun.0, end.0, 1, NONE)?;
    let mut report = Vec::from_slice(alloc, begun.1)?;
    report.extend_from_slice(end.1)?;
    same(rt, status, Status::Done);
    same(rt, written.as_slice(), report.as_slice());
    Ok(())
}

/// A delete that a server leads alone, and a rename with another server.
#[test]
fn reports_of_led_operations_to_the_byte(rt: HostRuntime) -> Result<(), Fail> {
    let alloc = rt.alloc();
    goes_on(&rt, alloc, DELETE_BEGINS, DELETE_ENDS)?;
    goes_on(&rt, alloc, RENAME_BEGINS, RENAME_ENDS)?;
    goes_on(&rt, alloc, RENAME_BEGINS, RENAME_IS_DECIDED)?;
    goes_on(&rt, alloc, RENAME_BEGINS, MOVE_MEANWHILE)
}

#[test]
fn reports_of_a_rename_over_three_servers_to_the_byte(rt: HostRuntime) -> Result<(), Fail> {
    goes_on(&rt, rt.alloc(), OVER_THREE_BEGINS, OVER_THREE_ENDS)?;
    goes_on(&rt, rt.alloc(), OVER_THREE_BEGINS, OVER_THREE_ABORTS)
}

/// Two renames of directories that together would make a cycle, and moves of what paths go over.
#[test]
fn reports_of_renames_of_directories_to_the_byte(rt: HostRuntime) -> Result<(), Fail> {
    goes_on(&rt, rt.alloc(), PATHS_BEGIN, ONE_WINS)?;
    goes_on(&rt, rt.alloc(), PATHS_BEGIN, MOVES_WAIT_FOR_PATHS)
}

/// How a replay ends that writes nothing.
fn refuses(
    rt: &impl Abort,
    alloc: Global,
    head: &[u8],
    copy: &[u8],
    times: usize,
    tail: &[u8],
    wanted: Status,
) -> Result<(), Fail> {
    let (status, written) = replayed(alloc, head, copy, times, tail)?;
    same(rt, status, wanted);
    same(rt, written.len(), 0);
    Ok(())
}

/// A clock that reads more than the skew behind an earlier reading, and heads that no form has.
const SKEWS_AND_HEADS: [(&[u8], &[u8], Status); 6] = [
    (
        b"farsite 1 servers 1 skew 10 term 100\n100 join c1\n",
        b"89 join c2\n",
        Status::Skewed {
            line: 3,
            earlier: 2,
        },
    ),
    (
        b"farsite 1 servers 0 skew 10 term 100\n",
        NONE,
        Status::BadLine { line: 1 },
    ),
    (
        b"farsite 1 servers 16 skew 10 term 100\n",
        NONE,
        Status::Limit {
            which: Which::Servers,
            at: 1,
        },
    ),
    (
        b"farsite 1 servers 15 skew 10 term 100\n",
        b"0 move s0 / s15\n",
        Status::BadLine { line: 2 },
    ),
    (
        b"farsite 1 servers 1 skew 10 term 0\n",
        NONE,
        Status::BadLine { line: 1 },
    ),
    (
        b"farsite 1 servers 1 skew 10 term 100\n",
        b"0 do c1 reap / c2\n",
        Status::BadLine { line: 2 },
    ),
];

#[test]
fn skews_and_heads(rt: HostRuntime) -> Result<(), Fail> {
    for (head, tail, wanted) in SKEWS_AND_HEADS {
        refuses(&rt, rt.alloc(), head, NONE, 0, tail, wanted)?;
    }
    Ok(())
}

/// How many lines are written, and whether the report begins with them.
fn begun(written: &[u8], report: &[u8]) -> (usize, bool) {
    let lines = written.iter().filter(|b| **b == b'\n').count();
    (lines, report.starts_with(written))
}

/// The write of this number fails: so many lines less one are written.
fn is_cut_off(
    rt: &impl Abort,
    alloc: Global,
    input: &[u8],
    report: &[u8],
    call: u64,
) -> Result<(), Fail> {
    let input = Vec::from_slice(alloc, input)?;
    let (status, written) = called(alloc, &["replay"], input, &[], &[call])?;
    same(rt, status, Status::WriteFault);
    let (lines, begins) = begun(written.as_slice(), report);
    same(rt, (lines as u64, begins), (call.saturating_sub(1), true));
    Ok(())
}

/// The read of this number fails: nothing is written.
fn is_unread(rt: &impl Abort, alloc: Global, input: &[u8], call: u64) -> Result<(), Fail> {
    let input = Vec::from_slice(alloc, input)?;
    let (status, written) = called(alloc, &["replay"], input, &[call], &[])?;
    same(rt, status, Status::ReadFault);
    same(rt, written.len(), 0);
    Ok(())
}

/// A report of a server whose third line cannot be written, and a schedule that cannot be read.
#[test]
fn a_server_whose_report_is_cut_off(rt: HostRuntime) -> Result<(), Fail> {
    is_cut_off(&rt, rt.alloc(), FIRST_CREATE, FIRST_CREATE_REPORT, 3)?;
    is_unread(&rt, rt.alloc(), FIRST_CREATE, 1)
}

/// A create in the directory so deep.
fn add_create(bytes: &mut Vec<u8>, depth: usize) -> Result<(), Fail> {
    bytes.extend_from_slice(b"0 do c1 create /")?;
    for at in 0..depth {
        bytes.extend_from_slice(if at == 0 { b"1" } else { b"/1" })?;
    }
    bytes.extend_from_slice(b" \"d\" dir\n")?;
    Ok(())
}

/// No directory is deeper than 32 names.
#[test]
fn the_deepest_directory(rt: HostRuntime) -> Result<(), Fail> {
    let mut bytes = Vec::from_slice(rt.alloc(), HEAD)?;
    for depth in 0..33 {
        add_create(&mut bytes, depth)?;
    }
    let (status, written) = replayed(rt.alloc(), &bytes, NONE, 0, NONE)?;
    same(&rt, status, Status::Done);
    same(
        &rt,
        written.ends_with(b"done events 34 journal 33 nodes 33\n"),
        true,
    );
    Ok(())
}

const NONE: &[u8] = b"";

const CREATE: &[u8] = b"farsite 1 direct\n0 do c1 create / \"";

/// A head, how many times `x` is behind it, a tail, and how the replay ends.
const FAULTY: [(&[u8], usize, &[u8], Status); 8] = [
    (NONE, 0, NONE, Status::BadLine { line: 1 }),
    (NONE, 0, b"\n", Status::BadLine { line: 1 }),
    (
        HEAD,
        0,
        b"0 do c1 create / \"a:b\" dir\n",
        Status::BadLine { line: 3 },
    ),
    (CREATE, 256, b"\" dir\n", Status::BadLine { line: 2 }),
    (HEAD, 4_096, NONE, Status::BadLine { line: 3 }),
    (
        HEAD,
        4_097,
        NONE,
        Status::Limit {
            which: Which::Bytes,
            at: 3,
        },
    ),
    (
        HEAD,
        0,
        b"0 join c1001\nx\n",
        Status::Limit {
            which: Which::Sessions,
            at: 3,
        },
    ),
    (HEAD, 0, b"x\n0 join c1001\n", Status::BadLine { line: 3 }),
];

#[test]
fn faulty_lines(rt: HostRuntime) -> Result<(), Fail> {
    for (head, times, tail, wanted) in FAULTY {
        refuses(&rt, rt.alloc(), head, b"x", times, tail, wanted)?;
    }
    Ok(())
}

#[test]
fn the_longest_name(rt: HostRuntime) -> Result<(), Fail> {
    let (status, written) = replayed(rt.alloc(), CREATE, b"x", 255, b"\" dir\n")?;
    same(&rt, status, Status::Done);
    same(&rt, written.is_empty(), false);
    Ok(())
}

/// What is repeated behind a head, how many times, and how the replay ends.
const TOO_MUCH: [(&[u8], usize, Status); 2] = [
    (
        b"0 join c1\n",
        65_537,
        Status::Limit {
            which: Which::Events,
            at: 65_538,
        },
    ),
    (b"x", 16_777_200, Status::TooLong { limit: 16_777_216 }),
];

#[test]
fn limits_of_the_input(rt: HostRuntime) -> Result<(), Fail> {
    for (copy, times, wanted) in TOO_MUCH {
        refuses(
            &rt,
            rt.alloc(),
            b"farsite 1 direct\n",
            copy,
            times,
            NONE,
            wanted,
        )?;
    }
    Ok(())
}

/// A schedule that is read in four parts.
fn long(alloc: Global) -> Result<Vec<u8>, Fail> {
    let mut long = Vec::from_slice(alloc, HEAD)?;
    for _ in 0..1_000 {
        long.extend_from_slice(b"0 join c1\n")?;
    }
    Ok(long)
}

/// Each read fails in turn, and each write.
#[test]
fn sources_and_sinks_that_fail(rt: HostRuntime) -> Result<(), Fail> {
    let long = long(rt.alloc())?;
    for call in 1..=4u64 {
        is_unread(&rt, rt.alloc(), &long, call)?;
    }
    for call in 1..=10u64 {
        is_cut_off(&rt, rt.alloc(), FIRST, FIRST_REPORT, call)?;
    }
    Ok(())
}

/// Which word is of no form: nothing is written then.
fn is_no_form(rt: &impl Abort, alloc: Global, given: &[&str], word: u64) -> Result<(), Fail> {
    let input = Vec::from_slice(alloc, FIRST)?;
    let (status, written) = called(alloc, given, input, &[], &[])?;
    same(rt, status, Status::Usage { word });
    same(rt, written.len(), 0);
    Ok(())
}

#[test]
fn words_that_are_no_form(rt: HostRuntime) -> Result<(), Fail> {
    is_no_form(&rt, rt.alloc(), &[], 1)?;
    is_no_form(&rt, rt.alloc(), &["replay", "x"], 2)?;
    is_no_form(&rt, rt.alloc(), &["journal", "x"], 2)?;
    is_no_form(&rt, rt.alloc(), &["journals"], 1)?;
    is_no_form(&rt, rt.alloc(), &["gen"], 2)?;
    is_no_form(&rt, rt.alloc(), &["gen", "-1"], 2)?;
    is_no_form(&rt, rt.alloc(), &["gen", "01"], 2)?;
    is_no_form(&rt, rt.alloc(), &["gen", "18446744073709551616"], 2)?;
    is_no_form(&rt, rt.alloc(), &["gen", "1", "x"], 3)?;
    is_no_form(&rt, rt.alloc(), &["node", "s1", "1"], 3)?;
    let alone = ["node", "s0", "1", "10", "100", "2"];
    is_no_form(&rt, rt.alloc(), &alone, 7)
}

#[test]
fn packets_have_a_limit(rt: HostRuntime) {
    same(&rt, flooded(1_048_576, 7), None);
    same(&rt, flooded(1_048_577, 7), Some(7));
}

/// Four packets are sent, of which the last is never told.
const FOUR: &[u8] = b"farsite 1 servers 1 skew 10 term 100
0 join c1
0 do c1 lookup / \"a\"
0 tell 0
0 tell 1
0 tell 2
0 join c2
0 do c2 lookup / \"a\"
";

/// How a run ends in which 63 packets follow, one by one, and all these again at each of 16,643 turns: as many as may be. Then
/// comes the tail.
fn flood(alloc: Global, tail: &[u8]) -> Result<(Status, Vec<u8>), Fail> {
    let mut bytes = Vec::from_slice(alloc, FOUR)?;
    add_copies(&mut bytes, b"0 recall s0 child / \"a\"\n", 63)?;
    add_copies(&mut bytes, b"0 turn s0\n", 16_643)?;
    bytes.extend_from_slice(tail)?;
    called(alloc, &["journal"], bytes, &[], &[])
}

/// The run ends so, and writes something or nothing.
fn floods(
    rt: &impl Abort,
    alloc: Global,
    tail: &[u8],
    wanted: Status,
    told: bool,
) -> Result<(), Fail> {
    let (status, written) = flood(alloc, tail)?;
    same(rt, status, wanted);
    same(rt, written.is_empty(), !told);
    Ok(())
}

/// One more is a packet that is sent again.
#[test]
fn a_run_sends_as_many_packets_as_may_be(rt: HostRuntime) -> Result<(), Fail> {
    floods(&rt, rt.alloc(), NONE, Status::Done, true)?;
    let wanted = Status::Limit {
        which: Which::Packets,
        at: 16_715,
    };
    floods(&rt, rt.alloc(), b"0 turn c2\n", wanted, false)
}
