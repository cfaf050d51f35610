//! `swic`: the words of the command line, the files and the streams go to the top call, and its answer
//! is the exit status.
#![tactic(auto)]

ghost use Rattle.std.specs.Prelude.{◌≡◌, ◌≢◌, ◌^◌, ◌≤◌, Some, IfOk, drop, length, map, string_bytes};
ghost use Rattle.std.specs.Vec.Iter.{into_iter_items};
ghost use Rattle.std.specs.IoError.{error_kind};
ghost use Rattle.swi_command.specs.CommandLine.{Request, command_of};
ghost use Rattle.swi_devices.specs.FolderCalls.{shelf_of};
ghost use Rattle.swi_devices.specs.Streams.{sink_of, source_of};
ghost use Rattle.swi_outside.specs.Told.{AsTold};
ghost use Rattle.swi_task.specs.Answers.{AnswersWithLine};
ghost use Rattle.swi_task.specs.Devices.{seen};
ghost use Rattle.swi_top.specs.Tasks.{task_of};

use std::alloc::Global;
use std::env::{self, Args};
use std::io::{self, ErrorKind};
use std::process::ExitCode;
use std::rt::{Stderr, Stdin, Stdout};
use swi_devices::{Folder, FolderShelf, RealSink, RealSource, SystemFolder, VecRam};
use swi_outside::Memory;
use swi_top::{Ending, Refusal, status_of, top};

/// The words of cache RAM: those of the largest cache, of 2^23 bytes.
const RAM_WORDS: u32 = 1 << 21;

/// The words after the program's name.
fn words_of(rt: &HostRuntime) -> io::Result<Vec<String>> {
    behind_name(env::args(rt)?, rt.alloc())
}

/// All arguments but the first.
fn behind_name(args: Args, alloc: Global) -> io::Result<Vec<String>>
    ensures { IfOk result (λ words. words.items ≡ drop 1 (into_iter_items args)) }
{
    let words = args.skip(1).collect(alloc)?;
    Ok(words)
}

/// What is answered where the words could not be read: Memory where there was none for them, and else Usage,
/// as where one is no text.
fn refusal_of(error: &io::Error) -> Refusal
    ensures memory { error_kind error.now ≡ ErrorKind.OutOfMemory → result ≡ Refusal.Memory }
    ensures usage { error_kind error.now ≢ ErrorKind.OutOfMemory → result ≡ Refusal.Usage }
{
    match error.kind() {
        ErrorKind::OutOfMemory => Refusal::Memory,
        _ => Refusal::Usage,
    }
}

/// A cache RAM of so many words, which holds the largest cache.
fn cache_ram(alloc: Global, words: u32) -> Result<VecRam, Memory>
    requires { 2 ^ 21 ≤ words }
    ensures { IfOk result (λ ram. words ≤ length ram.words) }
{
    VecRam::new(alloc, words)
}

/// Does what the words ask for, as `top` does: each stream, by its type, is what `top` takes it for.
fn command<D: Folder>(
    alloc: Global,
    words: &[String],
    shelf: &mut FolderShelf<D>,
    input: &mut RealSource<Stdin>,
    out: &mut RealSink<Stdout>,
    err: &mut RealSink<Stderr>,
    ram: &mut VecRam,
) -> Result<Ending, Refusal>
    ensures { (request : Request) → command_of (map (λ w. string_bytes w) words.now) ≡ Some request →
        AsTold (source_of input.old) (source_of input.new) (λ before after. AnswersWithLine (task_of request)
        (seen (shelf_of D.contents shelf.old) before (sink_of out.old) (sink_of err.old) ram.old)
        (seen (shelf_of D.contents shelf.new) after (sink_of out.new) (sink_of err.new) ram.new) result) }
{
    top(alloc, words, shelf, input, out, err, ram)
}

/// The status of the command that the words mean.
fn run(rt: &HostRuntime, words: &[String]) -> u8 {
    let Ok(mut ram) = cache_ram(rt.alloc(), RAM_WORDS) else {
        return status_of(&Err(Refusal::Memory));
    };
    let mut shelf = FolderShelf::new(SystemFolder::new(rt));
    let mut input = RealSource::new(rt.stdin());
    let mut out = RealSink::new(rt.stdout());
    let mut err = RealSink::new(rt.stderr());
    let answer = command(
        rt.alloc(),
        words,
        &mut shelf,
        &mut input,
        &mut out,
        &mut err,
        &mut ram,
    );
    status_of(&answer)
}

/// The status of a refusal for which there are no words: Usage with its line, which the top call writes where it
/// has no word; any other without a line.
fn refuse(rt: &HostRuntime, refusal: Refusal) -> u8 {
    match refusal {
        Refusal::Usage => run(rt, &[]),
        refusal => status_of(&Err(refusal)),
    }
}

fn main(rt: HostRuntime) -> ExitCode {
    ExitCode::from(match words_of(&rt) {
        Ok(words) => run(&rt, words.as_slice()),
        Err(error) => refuse(&rt, refusal_of(&error)),
    })
}
