//! A command over devices of the types that the program hands in: a shelf over a folder, a reader and writers of std.

ghost use Rattle.std.specs.Prelude.{◌≡◌, ◌++◌, ◌∷◌, ℕ, List, [], None, Some, OnOk, map, string_bytes};
ghost use Rattle.swi_outside.specs.Source.{ForInput};
ghost use Rattle.swi_devices.specs.FolderCalls.{shelf_of};
ghost use Rattle.swi_devices.specs.Streams.{source_of};
ghost use Rattle.swi_command.specs.CommandLine.{RunPlain, command_of};
ghost use Rattle.swi_command.specs.declared.command.RunOptions.{RunOptions};
ghost use Rattle.swi_task.specs.Task.{GaveFirst};
ghost use Rattle.swi_file_commands.specs.RunPlain.{plain_report, plain_run};

use crate::texts::{ECHO, file_of};
use std::alloc::Global;
use std::io::{Cursor, Read, Write};
use std::test::Fail;
use swi_devices::{Folder, FolderShelf, RealSink, RealSource, VecRam};
use swi_outside::Failed;
use swi_top::Ending::{self, *};
use swi_top::{Refusal, top};

/// A folder of one file, under whatever name. As the system's it tells no contents.
#[derive(Drop)]
struct OneFile {
    alloc: Global,
    bytes: Vec<u8>,
}

impl Folder for OneFile {
    ghost contents = { λ _. None };

    type Reader = Cursor<Vec<u8>>;

    type Writer = Vec<u8>;

    fn open(&mut self, _name: &str) -> Result<Cursor<Vec<u8>>, Failed> {
        let bytes = Vec::from_slice(self.alloc, &self.bytes).map_err(|_| Failed)?;
        Ok(Cursor::new(bytes))
    }

    fn create(&mut self, _name: &str) -> Result<Vec<u8>, Failed> {
        Ok(Vec::new(self.alloc))
    }

    fn close(&mut self, _name: &str, _file: Vec<u8>) -> Result<(), Failed> {
        Ok(())
    }
}

/// Does what the words ask for. Where they are those of `plain`, and it ends, the writer of the output took just the bytes of
/// the run and its report: of the file that the folder gave, on each input from which what the reader gave may have been
/// read.
fn plain_over<D: Folder, R: Read, W: Write, V: Write>(
    alloc: Global,
    words: &[String],
    shelf: &mut FolderShelf<D>,
    input: &mut RealSource<R>,
    out: &mut RealSink<W>,
    err: &mut RealSink<V>,
    ram: &mut VecRam,
) -> Result<Ending, Refusal>
    ensures took { (name file : List ℕ) (o : RunOptions) →
        command_of (map (λ w. string_bytes w) words.now) ≡ Some (RunPlain name o) →
        GaveFirst (name ∷ []) (file ∷ []) (shelf_of D.contents shelf.old) (shelf_of D.contents shelf.new) →
        ForInput (source_of input.old) (source_of input.new) (λ given rest. OnOk result (out.new.took
        ≡ out.old.took ++ ((plain_run o file given o.limits.steps).output
        ++ plain_report o (plain_run o file given o.limits.steps)))) }
{
    top(alloc, words, shelf, input, out, err, ram)
}

#[test]
fn an_echo_over_streams_writes_what_its_run_writes(rt: HostRuntime) -> Result<(), Fail> {
    let alloc = rt.alloc();
    let mut words = Vec::new(alloc);
    for word in ["plain", "A", "--heap", "0"] {
        words.push(String::from_str(alloc, word)?)?;
    }
    let bytes = file_of(alloc, ECHO, 5, 0x10000)?;
    let mut shelf = FolderShelf::new(OneFile { alloc, bytes });
    let mut input = RealSource::new(b"abc".as_slice());
    let mut written = Vec::new(alloc);
    let mut lines = Vec::new(alloc);
    let mut out = RealSink::new(&mut written);
    let mut err = RealSink::new(&mut lines);
    let mut ram = VecRam::new(alloc, 16)?;
    let answer = plain_over(
        alloc, &words, &mut shelf, &mut input, &mut out, &mut err, &mut ram,
    );
    drop(out);
    drop(err);
    assert_eq!(rt; answer, Ok(Exited(0, 12)));
    assert_eq!(rt; written.as_slice(), b"abc".as_slice());
    assert_eq!(rt; lines.as_slice(), b"".as_slice());
    Ok(())
}
