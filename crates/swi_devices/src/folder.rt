ghost use Rattle.std.specs.Prelude.{Option, None, IfOk, OnOk};
ghost use Rattle.swi_outside.specs.Shelf.{Contents, Same, SameElsewhere};
ghost use Rattle.swi_devices.specs.Folders.{Gives, IsNew, Keeps};

use std::fs;
use std::io::{Read, Write};
use std::rt::Files;
use swi_outside::Failed;

/// Files by their names, as a folder of an operating system has them.
pub trait Folder {
    /// What stands under each name, where the folder tells it.
    ghost contents: { Self → Option Contents };

    /// A file that is being read.
    type Reader: Read + Drop;

    /// A file that is being written.
    type Writer: Write + Drop;

    /// Opens the file of a name, at its first byte. It changes no file.
    fn open(&mut self, name: &str) -> Result<Self::Reader, Failed>
        ensures same { Same (contents self.old) (contents self.new) }
        ensures whole { IfOk result (λ file. Gives (contents self.old) name.now (Self.Reader.remaining file)) };

    /// Begins a file that is to have a name, without a byte. It changes no file of another name.
    fn create(&mut self, name: &str) -> Result<Self::Writer, Failed>
        ensures others { SameElsewhere (contents self.old) (contents self.new) name.now }
        ensures empty { IfOk result (λ file. IsNew (contents self.new) (Self.Writer.contents file)) };

    /// Ends a file that `create` began: what was written stands under its name. It changes no file of
    /// another name.
    fn close(&mut self, name: &str, file: Self::Writer) -> Result<(), Failed>
        ensures others { SameElsewhere (contents self.old) (contents self.new) name.now }
        ensures stands { OnOk result
            (Keeps (contents self.old) (contents self.new) name.now (Self.Writer.contents file)) };
}

/// The files that a runtime reaches, by their paths. It tells no contents: no contract of std names them. That it asks for the
/// file of just that name, once, `tools/check_streams` tests.
#[derive(Drop)]
pub struct SystemFolder<R> {
    files: R,
}

impl<R: Files> SystemFolder<R> {
    /// The files that a runtime reaches, as `&rt`.
    pub fn new(files: R) -> SystemFolder<R> {
        SystemFolder { files }
    }
}

impl<R: Files> Folder for SystemFolder<R> {
    ghost contents = { λ _. None };

    type Reader = R::File;

    type Writer = R::File;

    fn open(&mut self, name: &str) -> Result<R::File, Failed> {
        fs::open(&self.files, name).map_err(|_| Failed)
    }

    fn create(&mut self, name: &str) -> Result<R::File, Failed> {
        fs::create(&self.files, name).map_err(|_| Failed)
    }

    // std closes a file where it is dropped, and loses what the system answers to that.
    fn close(&mut self, _name: &str, _file: R::File) -> Result<(), Failed> {
        Ok(())
    }
}
