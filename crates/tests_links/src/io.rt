use crate::same;
use fs_ident::List;
use fs_io::{
    Addr, Clock, Failed, Link, MemClock, MemLink, MemSink, MemSource, ReadError, Sink, Source,
    StdinSource, StdoutSink, SureLink, SureSink, SureSource, SystemClock, UdpLink, read_all,
    standard_input, standard_output, write_all,
};
use std::alloc::Global;
use std::io::{self, Read, Write};
use std::process::Abort;
use std::test::Fail;

fn is_read(alloc: Global, len: usize) -> Result<bool, Fail> {
    let mut input = SureSource::new(vec![in alloc; 7; len]?);
    Ok(read_all(alloc, &mut input).is_ok())
}

#[test]
fn the_longest_input_is_read_and_a_longer_one_is_not(rt: HostRuntime) -> Result<(), Fail> {
    let alloc = rt.alloc();
    for (len, read) in [(0, true), (16_777_216, true), (16_777_217, false)] {
        same(&rt, is_read(alloc, len)?, read);
    }
    Ok(())
}

/// The answer to an input of so many bytes, of which the read of this number fails, and whether it is all of them.
fn is_read_past(alloc: Global, len: u32, fail: u64) -> Result<Result<bool, ReadError>, Fail> {
    let bytes: Vec<u8> = (0..len).map(|i| (i % 251) as u8).collect(alloc)?;
    let mut input = MemSource::new(bytes.clone()?, vec![in alloc; fail]?);
    Ok(read_all(alloc, &mut input).map(|read| read == bytes))
}

#[test]
fn each_read_fails_in_turn(rt: HostRuntime) -> Result<(), Fail> {
    for fail in 1..=4 {
        same(
            &rt,
            is_read_past(rt.alloc(), 9000, fail)?,
            Err(ReadError::ReadFault),
        );
    }
    same(&rt, is_read_past(rt.alloc(), 9000, 5)?, Ok(true));
    Ok(())
}

#[test]
fn the_first_write_fails(rt: HostRuntime) -> Result<(), Fail> {
    let alloc = rt.alloc();
    let mut out = MemSink::new(alloc, 4, vec![in alloc; 1]?)?;
    same(&rt, out.write(b"abc").is_err(), true);
    same(&rt, write_all(&mut out, b"abcd").is_ok(), true);
    same(&rt, out.write(b"e").is_err(), true);
    same(&rt, out.bytes(), b"abcd".as_slice());
    Ok(())
}

#[test]
fn a_sink_takes_what_fits(rt: HostRuntime) -> Result<(), Fail> {
    let mut out = SureSink::new(rt.alloc(), 3)?;
    same(&rt, write_all(&mut out, b"abcd").is_err(), true);
    same(&rt, out.bytes(), b"abc".as_slice());
    Ok(())
}

/// A clock of two readings.
fn clock(alloc: Global) -> Result<MemClock, Fail> {
    let mut readings = Vec::new(alloc);
    readings.push(5)?;
    readings.push(3)?;
    Ok(MemClock::new(readings))
}

/// The clock, which is let go, tells these.
fn tells(rt: &impl Abort, clock: MemClock, told: &[u64]) {
    let mut clock = clock;
    for reading in told {
        same(rt, clock.now(), *reading);
    }
}

#[test]
fn a_clock_repeats_its_last_reading(rt: HostRuntime) -> Result<(), Fail> {
    tells(&rt, MemClock::new(Vec::new(rt.alloc())), &[0]);
    tells(&rt, clock(rt.alloc())?, &[5, 3, 3]);
    Ok(())
}

/// So many bytes are read into the buffer.
fn is_read_into<S: Source + Drop>(
    rt: &impl Abort,
    input: S,
    buf: &mut [u8],
    count: usize,
) -> Result<(), Fail> {
    let mut input = input;
    same(rt, input.read(buf)?, count);
    Ok(())
}

/// All of the bytes are written.
fn is_written<K: Sink + Drop>(rt: &impl Abort, out: K, bytes: &[u8]) -> Result<(), Fail> {
    let mut out = out;
    same(rt, out.write(bytes)?, bytes.len());
    Ok(())
}

#[test]
fn a_reader_and_a_writer_serve(rt: HostRuntime) -> Result<(), Fail> {
    is_read_into(&rt, StdinSource::new(b"ab".as_slice()), &mut [0; 4], 2)?;
    is_read_into(&rt, standard_input(&rt), &mut [], 0)?;
    is_written(&rt, StdoutSink::new(Vec::new(rt.alloc())), b"ab")?;
    is_written(&rt, standard_output(&rt), b"")
}

const AT: Addr = Addr {
    ip: [127, 0, 0, 1],
    port: 4000,
};

/// A link at which these bytes wait, with room for two calls.
fn link_with(alloc: Global, bytes: &[u8]) -> Result<SureLink, Fail> {
    let mut waiting = Vec::new(alloc);
    waiting.push((AT, List::from_vec(bytes.to_vec(alloc)?)))?;
    Ok(SureLink::new(alloc, waiting, 2)?)
}

/// What fits of the bytes comes once, and then no call has room.
fn is_given(rt: &impl Abort, link: &mut SureLink, wanted: [u8; 4]) -> Result<(), Fail> {
    let mut buf = [0; 4];
    same(rt, link.receive(&mut buf)?.is_some(), true);
    same(rt, buf, wanted);
    same(rt, link.receive(&mut buf)?.is_none(), true);
    same(rt, link.bind(AT).is_err(), true);
    Ok(())
}

#[test]
fn a_link_gives_what_waits(rt: HostRuntime) -> Result<(), Fail> {
    let mut link = link_with(rt.alloc(), b"hello")?;
    is_given(&rt, &mut link, *b"hell")
}

/// A call and then one with these bytes are kept.
fn are_kept(rt: &impl Abort, link: &mut SureLink, bytes: &[u8]) -> Result<(), Fail> {
    same(rt, link.bind(AT).is_ok(), true);
    same(rt, link.send(AT, bytes).is_ok(), true);
    if link.calls().len() != 2 {
        return Err(Fail::from("two calls"));
    }
    same(rt, link.bytes(1), bytes);
    Ok(())
}

#[test]
fn a_link_keeps_its_calls(rt: HostRuntime) -> Result<(), Fail> {
    let mut link = SureLink::new(rt.alloc(), Vec::new(rt.alloc()), 2)?;
    are_kept(&rt, &mut link, b"more")
}

/// A link of whose calls the second fails: whether each went, and whether each was kept as one that failed.
fn goes_past_a_fault(rt: &impl Abort, link: &mut MemLink) -> Result<(), Fail> {
    let went = [
        link.bind(AT).is_ok(),
        link.send(AT, b"lost").is_ok(),
        link.send(AT, b"more").is_ok(),
    ];
    same(rt, went, [true, false, true]);
    let [first, second, third] = link.calls() else {
        return Err(Fail::from("three calls"));
    };
    same(
        rt,
        [first.failed, second.failed, third.failed],
        [false, true, false],
    );
    Ok(())
}

#[test]
fn a_planned_fault_of_a_link_is_kept(rt: HostRuntime) -> Result<(), Fail> {
    let alloc = rt.alloc();
    let mut link = MemLink::new(alloc, Vec::new(alloc), 3, vec![in alloc; 2]?)?;
    goes_past_a_fault(&rt, &mut link)
}

const HERE: Addr = Addr {
    ip: [127, 0, 0, 1],
    port: 7102,
};

const THERE: Addr = Addr {
    ip: [127, 0, 0, 1],
    port: 7103,
};

/// A datagram goes from one link to the other, and then none waits.
fn is_carried<A: Link, B: Link>(rt: &impl Abort, from: &mut A, to: &mut B) {
    same(rt, from.send(HERE, b"hello").is_ok(), true);
    let mut buf = [0; 1100];
    same(rt, to.receive(&mut buf), Ok(Some((THERE, 5))));
    same(rt, buf.starts_with(b"hello"), true);
    same(rt, to.receive(&mut buf), Ok(None));
}

#[test]
fn a_datagram_comes_over_a_socket(rt: HostRuntime) -> Result<(), Fail> {
    let mut here = UdpLink::new(&rt);
    let mut there = UdpLink::new(&rt);
    same(&rt, there.send(HERE, b"unbound").is_err(), true);
    same(
        &rt,
        here.bind(HERE).is_ok() && there.bind(THERE).is_ok(),
        true,
    );
    same(&rt, UdpLink::new(&rt).bind(HERE).is_err(), true);
    is_carried(&rt, &mut there, &mut here);
    Ok(())
}

#[test]
fn the_clock_of_the_system_tells_a_time(rt: HostRuntime) -> Result<(), Fail> {
    same(&rt, SystemClock::new(&rt).now() > 1_577_836_800_000, true);
    Ok(())
}

/// A reader and a writer of at most two bytes a call, of whose calls one fails.
#[derive(Drop)]
struct Halting {
    bytes: Vec<u8>,
    at: usize,
    calls: u64,
    fail: u64,
}

impl Halting {
    /// How many of so many bytes this call moves.
    fn turn(&mut self, len: usize) -> io::Result<usize> {
        self.calls = self.calls.saturating_add(1);
        if self.calls == self.fail {
            return Err(io::Error::from(io::ErrorKind::WouldBlock));
        }
        Ok(len.min(2))
    }
}

impl Read for Halting {
    fn read(&mut self, buf: &mut [u8]) -> io::Result<usize> {
        let most = self.turn(buf.len())?.min(buf.len());
        let left = &self.bytes[self.at.min(self.bytes.len())..];
        let n = most.min(left.len());
        buf[..n].copy_from_slice(&left[..n]);
        self.at = self.at.saturating_add(n);
        Ok(n)
    }
}

impl Write for Halting {
    fn write(&mut self, bytes: &[u8]) -> io::Result<usize> {
        let n = self.turn(bytes.len())?.min(bytes.len());
        self.bytes.extend_from_slice(&bytes[..n])?;
        Ok(n)
    }

    fn flush(&mut self) -> io::Result<()> {
        Ok(())
    }
}

/// One whose call of this number fails.
fn failing_at(bytes: Vec<u8>, fail: u64) -> Halting {
    Halting {
        bytes,
        at: 0,
        calls: 0,
        fail,
    }
}

const FAULT: Result<bool, ReadError> = Err(ReadError::ReadFault);

/// The call that fails, how many calls there are, and whether all five bytes are read.
const READS: [(u64, u64, Result<bool, ReadError>); 5] = [
    (1, 1, FAULT),
    (2, 2, FAULT),
    (3, 3, FAULT),
    (4, 4, FAULT),
    (5, 4, Ok(true)),
];

/// The reader, one of whose calls fails, is so read.
fn ends_input(
    rt: &impl Abort,
    alloc: Global,
    fail: u64,
    calls: u64,
    answer: Result<bool, ReadError>,
) -> Result<(), Fail> {
    let mut reader = failing_at(b"abcde".to_vec(alloc)?, fail);
    let read = read_all(alloc, &mut StdinSource::new(&mut reader));
    same(rt, read.map(|bytes| bytes == reader.bytes), answer);
    same(rt, reader.calls, calls);
    Ok(())
}

#[test]
fn an_error_of_a_reader_ends_the_input(rt: HostRuntime) -> Result<(), Fail> {
    for (fail, calls, answer) in &READS {
        ends_input(&rt, rt.alloc(), *fail, *calls, *answer)?;
    }
    Ok(())
}

/// The call that fails, how many calls there are, and what is written.
const WRITES: [(u64, u64, &str); 4] = [(1, 1, ""), (2, 2, "ab"), (3, 3, "abcd"), (4, 3, "abcde")];

/// The writer, one of whose calls fails, is so written to.
fn ends_output(rt: &impl Abort, alloc: Global, fail: u64, calls: u64, written: &str) {
    let mut writer = failing_at(Vec::new(alloc), fail);
    let wrote = write_all(&mut StdoutSink::new(&mut writer), b"abcde");
    same(rt, wrote.is_ok(), fail == 4);
    same(rt, writer.bytes.as_slice(), written.as_bytes());
    same(rt, writer.calls, calls);
}

#[test]
fn an_error_of_a_writer_ends_the_output(rt: HostRuntime) {
    for (fail, calls, written) in &WRITES {
        ends_output(&rt, rt.alloc(), *fail, *calls, written);
    }
}

#[test]
fn a_failed_call_is_printed(rt: HostRuntime) -> Result<(), Fail> {
    let text = Failed.to_string(rt.alloc())?;
    same(&rt, text.as_str(), "the outside failed");
    Ok(())
}
