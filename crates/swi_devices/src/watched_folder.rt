ghost use Rattle.std.specs.Prelude.{◌≡◌, IfOk, OnOk};
ghost use Rattle.std.specs.Io.{ReadsAtMost};
ghost use Rattle.std.specs.Io.KnownBytes.{ReadConsumes};
ghost use Rattle.swi_devices.specs.ByteLog.{bytes_in};
ghost use Rattle.swi_devices.specs.Counts.{ended_after, failures_after, late_after};
ghost use Rattle.swi_devices.specs.FolderCalls.{answered, calls_of, closed, created, opened, unasked, with_file};
ghost use Rattle.swi_devices.specs.Folders.{Gives, IsNew, Keeps};
ghost use Rattle.swi_devices.specs.Streams.{HandsOn};
ghost use Rattle.swi_outside.specs.Shelf.{Same, SameElsewhere};

use crate::Folder;
use crate::byte_log::ByteLog;
use crate::count::Count;
use crate::watched::Watched;
use std::io::{Read, Write};
use std::snapshot::Snapshot;
use swi_outside::Failed;

/// A file that a watched folder opened or created. It can't be dropped: it goes back to the folder, which adds its counts.
pub struct OpenFile<F> {
    file: Watched<F>,
}

impl<F: Read> OpenFile<F> {
    /// `Watched::read`.
    pub fn read(&mut self, buf: &mut [u8]) -> Result<usize, Failed>
        ensures bound { ReadsAtMost result buf.new }
        ensures bytes { ReadConsumes (F.remaining self.old.file.device) (F.remaining self.new.file.device) result buf.new }
        ensures late { self.new.file.late ≡ late_after self.old.file.late self.old.file.ended }
        ensures ended { self.new.file.ended ≡ ended_after self.old.file.ended result }
        ensures failed { self.new.file.failures ≡ failures_after self.old.file.failures result }
    {
        self.file.read(buf)
    }
}

impl<F: Write> OpenFile<F> {
    /// `Watched::write_whole`.
    pub fn write_whole(&mut self, piece: &[u8], took: &mut Snapshot<ByteLog>) -> Result<(), Failed>
        ensures handed { HandsOn (F.contents self.old.file.device) (F.contents self.new.file.device)
            (bytes_in took.old.value) (bytes_in took.new.value) result piece.now }
        ensures late { self.new.file.late ≡ self.old.file.late }
        ensures failed { self.new.file.failures ≡ failures_after self.old.file.failures result }
    {
        self.file.write_whole(piece, took)
    }
}

/// A folder, and how often it was asked to open, to create and to close a file; and of these calls, and of those of the files
/// that came back, how many failed, and how many read a file behind its end. It is all that a shelf holds of the folder, so
/// that no call of it or of a file goes uncounted.
#[derive(Drop)]
pub struct WatchedFolder<D> {
    folder: D,
    opens: Count,
    creates: Count,
    closes: Count,
    late: Count,
    failures: Count,
}

impl<D: Folder> WatchedFolder<D> {
    /// A folder that was not asked yet.
    pub fn new(folder: D) -> WatchedFolder<D>
        ensures { result ≡ record { folder = folder; opens = 0; creates = 0; closes = 0; late = 0; failures = 0 } }
    {
        WatchedFolder {
            folder,
            opens: Count::new(),
            creates: Count::new(),
            closes: Count::new(),
            late: Count::new(),
            failures: Count::new(),
        }
    }

    /// `Folder::open`, once.
    pub fn open(&mut self, name: &str) -> Result<OpenFile<D::Reader>, Failed>
        ensures same { Same (D.contents self.old.folder) (D.contents self.new.folder) }
        ensures whole { IfOk result (λ f. Gives (D.contents self.old.folder) name.now (D.Reader.remaining f.file.device)) }
        ensures unasked { IfOk result (λ f. f.file ≡ unasked f.file.device) }
        ensures counted { calls_of self.new ≡ answered (opened (calls_of self.old)) result }
    {
        self.opens.rise();
        let answer = self.folder.open(name);
        self.note(&answer);
        answer.map(|file| OpenFile {
            file: Watched::new(file),
        })
    }

    /// `Folder::create`, once.
    pub fn create(&mut self, name: &str) -> Result<OpenFile<D::Writer>, Failed>
        ensures others { SameElsewhere (D.contents self.old.folder) (D.contents self.new.folder) name.now }
        ensures empty { IfOk result (λ f. IsNew (D.contents self.new.folder) (D.Writer.contents f.file.device)) }
        ensures unasked { IfOk result (λ f. f.file ≡ unasked f.file.device) }
        ensures counted { calls_of self.new ≡ answered (created (calls_of self.old)) result }
    {
        self.creates.rise();
        let answer = self.folder.create(name);
        self.note(&answer);
        answer.map(|file| OpenFile {
            file: Watched::new(file),
        })
    }

    /// `Folder::close`, once.
    pub fn close(&mut self, name: &str, file: OpenFile<D::Writer>) -> Result<(), Failed>
        ensures others { SameElsewhere (D.contents self.old.folder) (D.contents self.new.folder) name.now }
        ensures stands { OnOk result
            (Keeps (D.contents self.old.folder) (D.contents self.new.folder) name.now (D.Writer.contents file.file.device)) }
        ensures counted { calls_of self.new ≡ answered (closed (with_file (calls_of self.old) file.file)) result }
    {
        let file = self.take(file);
        self.closes.rise();
        let answer = self.folder.close(name, file);
        self.note(&answer);
        answer
    }

    /// Lets go of a file.
    pub fn release<F: Drop>(&mut self, file: OpenFile<F>)
        ensures same { self.new.folder ≡ self.old.folder }
        ensures counted { calls_of self.new ≡ with_file (calls_of self.old) file.file }
    {
        let _ = self.take(file);
    }

    // Adds the counts of a file that comes back.
    fn take<F>(&mut self, file: OpenFile<F>) -> F
        ensures device { result ≡ file.file.device }
        ensures same { self.new.folder ≡ self.old.folder }
        ensures counted { calls_of self.new ≡ with_file (calls_of self.old) file.file }
    {
        let OpenFile { file } = file;
        file.add_to(&mut self.late, &mut self.failures);
        file.into_inner()
    }

    // Counts an answer that is a failure.
    fn note<T>(&mut self, answer: &Result<T, Failed>)
        ensures same { self.new.folder ≡ self.old.folder }
        ensures counted { calls_of self.new ≡ answered (calls_of self.old) answer.now }
    {
        if answer.is_err() {
            self.failures.rise();
        }
    }
}
