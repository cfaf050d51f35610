ghost use Rattle.std.specs.Prelude.{◌≡◌, ◌+◌, ◌<◌, false, take, IfOk, MatchResult};
ghost use Rattle.std.specs.Io.{ReadsAtMost, WritesAtMost};
ghost use Rattle.std.specs.Io.KnownBytes.{Appends, Keeps, ReadConsumes};
ghost use Rattle.swi_devices.specs.ByteLog.{bytes_in};
ghost use Rattle.swi_devices.specs.Counts.{ended_after, failures_after, late_after};
ghost use Rattle.swi_devices.specs.Streams.{HandsOn};

use crate::byte_log::{ByteLog, note_bytes};
use crate::count::Count;
use std::io::{Read, Write};
use std::snapshot::Snapshot;
use swi_outside::Failed;

/// A reader or a writer, whether a read has given no byte, how often it was asked, how often behind such a read, and how often
/// it failed. It is all that an adapter holds of the two, so that no call of theirs goes uncounted: std's contracts count
/// none. Of the built program `tools/check_streams` tests it.
#[derive(Drop)]
pub struct Watched<T> {
    device: T,
    ended: bool,
    asks: Count,
    late: Count,
    failures: Count,
}

impl<T> Watched<T> {
    /// A reader or a writer that was not asked yet.
    pub fn new(device: T) -> Watched<T>
        ensures { result ≡ record { device = device; ended = false; asks = 0; late = 0; failures = 0 } }
    {
        Watched {
            device,
            ended: false,
            asks: Count::new(),
            late: Count::new(),
            failures: Count::new(),
        }
    }

    /// Whether a read has given no byte.
    pub fn has_ended(&self) -> bool
        ensures { result ≡ self.now.ended }
    {
        self.ended
    }

    /// The reader or the writer.
    pub fn into_inner(self) -> T
        ensures { result ≡ self.device }
    {
        self.device
    }

    /// Adds how often it was asked behind its end, and how often it failed, to counts.
    pub fn add_to(&self, late: &mut Count, failures: &mut Count)
        ensures late { late.new ≡ late.old + self.now.late }
        ensures failures { failures.new ≡ failures.old + self.now.failures }
    {
        late.add(&self.late);
        failures.add(&self.failures);
    }
}

impl<R: Read> Watched<R> {
    /// Asks the reader once.
    pub fn read(&mut self, buf: &mut [u8]) -> Result<usize, Failed>
        ensures bound { ReadsAtMost result buf.new }
        ensures bytes { ReadConsumes (R.remaining self.old.device) (R.remaining self.new.device) result buf.new }
        ensures asked { self.new.asks ≡ self.old.asks + 1 }
        ensures late { self.new.late ≡ late_after self.old.late self.old.ended }
        ensures ended { self.new.ended ≡ ended_after self.old.ended result }
        ensures failed { self.new.failures ≡ failures_after self.old.failures result }
    {
        self.asks.rise();
        if self.ended {
            self.late.rise();
        }
        match self.device.read(buf) {
            Ok(count) => {
                self.ended = count == 0;
                Ok(count)
            }
            Err(_) => {
                self.failures.rise();
                Err(Failed)
            }
        }
    }
}

impl<W: Write> Watched<W> {
    /// Asks the writer once to take some of a piece that is not empty, and answers how many bytes it took. It has failed where
    /// it took none.
    pub fn write(&mut self, piece: &[u8]) -> Result<usize, Failed>
        ensures bound { WritesAtMost result piece.now }
        ensures some { IfOk result (λ n. 0 < n) }
        ensures bytes { MatchResult result
            (λ n. Appends (W.contents self.old.device) (W.contents self.new.device) (take n piece.now))
            (λ _. Keeps (W.contents self.old.device) (W.contents self.new.device)) }
        ensures asked { self.new.asks ≡ self.old.asks + 1 }
        ensures late { self.new.late ≡ self.old.late }
        ensures failed { self.new.failures ≡ failures_after self.old.failures result }
    {
        self.asks.rise();
        match self.device.write(piece) {
            Ok(0) | Err(_) => {
                self.failures.rise();
                Err(Failed)
            }
            Ok(count) => Ok(count),
        }
    }
    /// Writes the whole piece, and gives up where the writer fails. What the writer took is noted.
    pub fn write_whole(&mut self, piece: &[u8], took: &mut Snapshot<ByteLog>) -> Result<(), Failed>
        ensures handed { HandsOn (W.contents self.old.device) (W.contents self.new.device) (bytes_in took.old.value)
            (bytes_in took.new.value) result piece.now }
        ensures late { self.new.late ≡ self.old.late }
        ensures failed { self.new.failures ≡ failures_after self.old.failures result }
    {
        let mut rest = piece;
        while !rest.is_empty() {
            let count = self.write(rest)?;
            note_bytes(took, &rest[..count]);
            rest = &rest[count..];
        }
        Ok(())
    }
}
