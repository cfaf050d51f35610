ghost use Rattle.std.specs.Prelude.{◌≡◌, ◌+◌, ◌<◌, [], false, if◌then◌else◌, length, OnErr};
ghost use Rattle.std.specs.Io.{ReadsAtMost};
ghost use Rattle.swi_devices.specs.Counts.{ended_after, failures_after};
ghost use Rattle.swi_devices.specs.Streams.{HandsOn, sink_of, source_of};
ghost use Rattle.swi_outside.specs.Causes.{HasCause, counted};
ghost use Rattle.swi_outside.specs.Sink.{WasWritten};
ghost use Rattle.swi_outside.specs.Source.{WasRead};

use crate::byte_log::{ByteLog, note_bytes};
use crate::watched::Watched;
use std::io::{Read, Write};
use std::marker::Model;
use std::snapshot::Snapshot;
use swi_outside::{Failed, Sink, Source};

/// Input from a reader of std. It tells the bytes that it gave, and of those that are left what the reader tells; std's
/// input and files tell none.
///
/// Each `Err` of the reader is a fault, and is answered at once. Where the reader gave none, the input has ended, and the
/// reader is not asked again. What contracts see of the bytes and of the calls takes no bytes and no time when it runs.
#[derive(Drop)]
pub struct RealSource<R: Read> {
    reader: Watched<R>,
    faults: u64,
    given: Snapshot<ByteLog>,
}

impl<R: Read> Model for RealSource<R> {
    ghost use Rattle.swi_devices.specs.ByteLog.{bytes_in};
    ghost use Rattle.swi_devices.specs.Streams.{ReaderSource};

    ghost Value = { ReaderSource };

    ghost view = { λ s. record {
      given = bytes_in s.given.value;
      remaining = R.remaining s.reader.device;
      ended = s.reader.ended;
      asks = s.reader.asks;
      failures = s.reader.failures;
      faults = s.faults;
    } };
}

impl<R: Read> RealSource<R> {
    /// A source over a reader, as `rt.stdin()`, without a fault.
    pub fn new(reader: R) -> RealSource<R>
        ensures { result
            ≡ record { given = []; remaining = R.remaining reader; ended = false; asks = 0; failures = 0; faults = 0 } }
    {
        RealSource {
            reader: Watched::new(reader),
            faults: 0,
            given: Snapshot::of(&ByteLog::None),
        }
    }
}

impl<R: Read> Source for RealSource<R> {
    ghost state = { source_of };

    fn read(&mut self, buf: &mut [u8]) -> Result<usize, Failed>
        requires { 0 < length buf.old }
        ensures bound { ReadsAtMost result buf.new }
        ensures read { WasRead (source_of self.old) (source_of self.new) result buf.new }

        // The reader is asked once, and behind the end not at all.
        ensures asked { self.new.asks ≡ (if self.old.ended then self.old.asks else self.old.asks + 1) }
        ensures ended { self.new.ended ≡ ended_after self.old.ended result }
        ensures failed { self.new.failures ≡ failures_after self.old.failures result }
    {
        if self.reader.has_ended() {
            return Ok(0);
        }
        let count = count_failure(&mut self.faults, self.reader.read(buf))?;
        note_bytes(&mut self.given, &buf[..count]);
        Ok(count)
    }
}

/// Output to a writer of std. It tells the bytes that the writer took.
///
/// Each `Err` of the writer is a fault, and is answered at once; so is a writer that takes nothing of
/// a piece that is not empty. It flushes nothing: hand in a writer that keeps nothing back, or `&mut`
/// one that you flush afterwards. What contracts see of the bytes takes no bytes and no time when it runs.
#[derive(Drop)]
pub struct RealSink<W: Write> {
    writer: Watched<W>,
    faults: u64,
    took: Snapshot<ByteLog>,
}

impl<W: Write> Model for RealSink<W> {
    ghost use Rattle.swi_devices.specs.ByteLog.{bytes_in};
    ghost use Rattle.swi_devices.specs.Streams.{WriterSink};

    ghost Value = { WriterSink };

    ghost view = { λ s. record {
      contents = W.contents s.writer.device;
      took = bytes_in s.took.value;
      failures = s.writer.failures;
      faults = s.faults;
    } };
}

impl<W: Write> RealSink<W> {
    /// A sink over a writer, as `rt.stdout()`, without a fault.
    pub fn new(writer: W) -> RealSink<W>
        ensures { result ≡ record { contents = W.contents writer; took = []; failures = 0; faults = 0 } }
    {
        RealSink {
            writer: Watched::new(writer),
            faults: 0,
            took: Snapshot::of(&ByteLog::None),
        }
    }
}

impl<W: Write> Sink for RealSink<W> {
    ghost state = { sink_of };

    fn write(&mut self, piece: &[u8]) -> Result<(), Failed>
        ensures written { WasWritten (sink_of self.old) (sink_of self.new) result piece.now }

        // The writer was handed just what is noted.
        ensures handed { HandsOn self.old.contents self.new.contents self.old.took self.new.took result piece.now }

        // Its first failure is answered, and it is not asked again.
        ensures failed { self.new.failures ≡ failures_after self.old.failures result }
    {
        count_failure(
            &mut self.faults,
            self.writer.write_whole(piece, &mut self.took),
        )
    }
}

/// Hands an answer on, and counts a failure.
fn count_failure<T>(faults: &mut u64, answer: Result<T, Failed>) -> Result<T, Failed>
    ensures handed { result ≡ answer }
    ensures cause { HasCause faults.old faults.new answer }
    ensures once { OnErr answer (faults.new ≡ counted faults.old) }
{
    if answer.is_err() {
        *faults = faults.saturating_add(1);
    }
    answer
}
