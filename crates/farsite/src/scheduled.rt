//! The run of the schedule that the input is.
ghost use Rattle.std.specs.Prelude.{◌≡◌, ◌≢◌, ◌<◌, ◌≤◌, ℕ, length, IfSome};
ghost use Rattle.std.specs.Io.KnownBytes.{IsAtEnd};
ghost use Rattle.fs_io.specs.Faults.{Rose};
ghost use Rattle.fs_io.specs.declared.reading.TheConstants.{LIMIT};
ghost use Rattle.fs_msg.specs.declared.core_error.Counter.{Counter};
ghost use Rattle.fs_schedule.specs.Faults.{AtLine, IsFirstFault, IsOutside, IsSkewed};
ghost use Rattle.fs_schedule.specs.declared.error.Which.{Which as Limited};
ghost use Rattle.fs_world.specs.World.{AtCounter};
ghost use Rattle.farsite.specs.Headline.{IsLimit, IsPartOfRun, IsReadWhole, IsRun, IsStopped};

use crate::causes::{read_status, run_status, schedule_status};
use crate::lines::write_lines;
use crate::replay::text_of;
use crate::status::Status;
use fs_io::{Failed, Sink, Source, read_all};
use fs_schedule::read_schedule;
use fs_words::Format;
use std::alloc::Global;

/// Reads a schedule from the input to its end, runs it, and writes it in the format.
pub(crate) fn scheduled<S: Source, K: Sink>(
    alloc: Global,
    format: Format,
    input: &mut S,
    out: &mut K,
) -> Status
    ensures done { result ≡ Status.Done → IfSome (S.left input.old)
        (λ bytes. IsRun format bytes (K.written out.old) (K.written out.new)) }
    ensures end { result ≡ Status.Done → IsAtEnd (S.left input.new) }
    ensures usage { (word : ℕ) → result ≢ Status.Usage word }
    ensures linked { result ≢ Status.LinkFault }
    ensures bad_line { (line : ℕ) → result ≡ Status.BadLine line →
        IfSome (S.left input.old) (λ bytes. IsFirstFault (AtLine line IsOutside) bytes) }
    ensures skewed { (line earlier : ℕ) → result ≡ Status.Skewed line earlier →
        IfSome (S.left input.old) (λ bytes. IsFirstFault (IsSkewed line earlier) bytes) }
    ensures limit { (which : Limited) (at : ℕ) → result ≡ Status.Limit which at →
        IfSome (S.left input.old) (λ bytes. IsLimit which at bytes) }
    ensures spent { (counter : Counter) → result ≡ Status.Spent counter →
        IfSome (S.left input.old) (λ bytes. IsStopped (AtCounter counter) bytes) }
    ensures short { IsReadWhole result →
        IfSome (S.left input.old) (λ bytes. length bytes ≤ LIMIT) }
    ensures too_long { (limit : ℕ) → result ≡ Status.TooLong limit → (limit ≡ LIMIT) ×
        IfSome (S.left input.old) (λ bytes. LIMIT < length bytes) }
    ensures read_fault { result ≡ Status.ReadFault →
        Rose (S.faults input.old) (S.faults input.new) }
    ensures write_fault { result ≡ Status.WriteFault → Rose (K.faults out.old) (K.faults out.new) }
    ensures quiet_input { result ≢ Status.ReadFault → S.faults input.new ≡ S.faults input.old }
    ensures quiet_output { result ≢ Status.WriteFault → K.faults out.new ≡ K.faults out.old }
    ensures prefix { result ≡ Status.WriteFault → IfSome (S.left input.old)
        (λ bytes. IsPartOfRun format bytes (K.written out.old) (K.written out.new)) }
    ensures silent { result ≢ Status.Done → result ≢ Status.WriteFault → out.new ≡ out.old }
{
    match read_all(alloc, input) {
        Ok(bytes) => replay(alloc, format, &bytes, out),
        Err(e) => read_status(e),
    }
}

/// Runs the schedule that the bytes are, and writes it in the format.
fn replay<K: Sink>(alloc: Global, format: Format, bytes: &[u8], out: &mut K) -> Status
    ensures done { result ≡ Status.Done →
        IsRun format bytes.now (K.written out.old) (K.written out.new) }
    ensures usage { (word : ℕ) → result ≢ Status.Usage word }
    ensures linked { result ≢ Status.LinkFault }
    ensures bad_line { (line : ℕ) → result ≡ Status.BadLine line →
        IsFirstFault (AtLine line IsOutside) bytes.now }
    ensures skewed { (line earlier : ℕ) → result ≡ Status.Skewed line earlier →
        IsFirstFault (IsSkewed line earlier) bytes.now }
    ensures limit { (which : Limited) (at : ℕ) → result ≡ Status.Limit which at →
        IsLimit which at bytes.now }
    ensures spent { (counter : Counter) → result ≡ Status.Spent counter →
        IsStopped (AtCounter counter) bytes.now }
    ensures too_long { (limit : ℕ) → result ≢ Status.TooLong limit }
    ensures read_fault { result ≢ Status.ReadFault }
    ensures write_fault { result ≡ Status.WriteFault → Rose (K.faults out.old) (K.faults out.new) }
    ensures quiet { result ≢ Status.WriteFault → K.faults out.new ≡ K.faults out.old }
    ensures prefix { result ≡ Status.WriteFault →
        IsPartOfRun format bytes.now (K.written out.old) (K.written out.new) }
    ensures silent { result ≢ Status.Done → result ≢ Status.WriteFault → out.new ≡ out.old }
{
    match read_schedule(alloc, bytes) {
        Ok(schedule) => match text_of(alloc, format, &schedule) {
            Ok(text) => match write_lines(out, &text) {
                Ok(()) => Status::Done,
                Err(Failed) => Status::WriteFault,
            },
            Err(e) => run_status(e),
        },
        Err(e) => schedule_status(e),
    }
}
