//! Writing a report line by line.
ghost use Rattle.std.specs.Prelude.{◌≡◌, ◌+◌, ◌<◌, ◌≤◌, ◌==◌, drop, length, position, IfSome, OnOk, OnErr};
ghost use Rattle.std.specs.Io.KnownBytes.{Appends};
ghost use Rattle.fs_io.specs.Bytes.{IsPrefixWritten};
ghost use Rattle.fs_io.specs.Faults.{Rose};
ghost use Rattle.farsite.specs.Lines.{line_len};

use fs_io::{Failed, Sink, write_all};

/// Writes all of the lines, each by itself.
pub(crate) fn write_lines<K: Sink>(out: &mut K, lines: &[u8]) -> Result<(), Failed>
    ensures ok { OnOk result (Appends (K.written out.old) (K.written out.new) lines.now) }
    ensures some { OnErr result
        (IsPrefixWritten (K.written out.old) (K.written out.new) lines.now) }
    ensures fault { OnErr result (Rose (K.faults out.old) (K.faults out.new)) }
    ensures answered { OnOk result (K.faults out.new ≡ K.faults out.old) }
{
    let mut at = 0;
    while at < lines.len() {
        let end = line_end(lines, at);
        write_all(out, &lines[at..end])?;
        at = end;
    }
    Ok(())
}

/// The place behind the first line feed from a place on, or the end.
fn line_end(lines: &[u8], at: usize) -> usize
    requires { at < length lines.now }
    ensures exact { result ≡ at + line_len (drop at lines.now) }
    ensures after { at < result }
    ensures within { result ≤ length lines.now }
{
    at + line_len(&lines[at..])
}

/// How many bytes the first line has, with its line feed.
fn line_len(bytes: &[u8]) -> usize
    requires { 0 < length bytes.now }
    ensures exact { result ≡ line_len bytes.now }
    ensures some { 0 < result }
    ensures within { result ≤ length bytes.now }
{
    match feed_at(bytes) {
        Some(k) => k + 1,
        None => bytes.len(),
    }
}

/// The place of the first line feed.
fn feed_at(bytes: &[u8]) -> Option<usize>
    ensures first { result ≡ position (λ b. b == 10) bytes.now }
    ensures within { IfSome result (λ k. k < length bytes.now) }
{
    bytes.iter().position(|b| *b == b'\n')
}
