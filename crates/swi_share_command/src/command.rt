//! The command `share`: the programs of several files over one cache.
#![tactic(auto)]

ghost use Rattle.std.specs.Prelude.{◌≡◌, ◌*◌, ◌^◌, ◌<◌, ◌≤◌, None, true, IfOk, IfErr, OnOk, [], length, map, string_bytes};
ghost use Rattle.swi_command.specs.CommandLine.{IsBlockSize, IsCacheInRange, IsInRange, IsShareCount, IsShareInRange};
ghost use Rattle.swi_outside.specs.Sink.{WasWritten};
ghost use Rattle.swi_share.specs.Run.{CanRun, ScheduleRan};
ghost use Rattle.swi_share.specs.Sharing.{IsSharing, seen as seen_of};
ghost use Rattle.swi_share.specs.Starting.{AreGuests, IsGuest, most_words};
ghost use Rattle.swi_task.specs.Answers.{Answers};
ghost use Rattle.swi_task.specs.Checks.{IsAccepted, IsRefusedOr, file_limit};
ghost use Rattle.swi_task.specs.Devices.{Devices};
ghost use Rattle.swi_share_command.specs.RunShared.{FilesUnread, GuestsRead, HaveEnded, IsGuestOf, SharesOver, guest_checks, guest_lines, limits_by, order_of, share_report, share_task, shared_work};

use std::alloc::Global;
use std::array;
use swi_answer::{Ending, Refusal, line_of_guest};
use swi_command::{RunLimits, Schedule, ShareCommand, ShareOptions};
use swi_hart::BoardFault;
use swi_image::Image;
use swi_make::next_number;
use swi_outside::{CacheRam, Failed, Shelf, Sink};
use swi_report::{SharedWork, shared_text};
use swi_share::{Guest, Share, most_words};
use swi_task::{
    Prepared, Subject, SubjectImage, accept, check_block, check_size, ending_by, prepare,
    read_file, refusal_of, subject_of,
};

/// What the program of a file borrows: the file's bytes, and the greedy cut of its text where the file has no image.
#[derive(Drop)]
struct GuestFile {
    bytes: Vec<u8>,
    cut: Option<Image>,
}

/// The limits of each program: none makes more steps than there are events.
fn limits_by(options: &ShareOptions) -> RunLimits
    requires ranges { IsShareInRange options.now }
    ensures value { result ≡ limits_by options.now }
    ensures ranges { IsInRange result }
{
    RunLimits {
        steps: u64::from(options.schedule.events),
        heap: options.heap,
        stack: options.stack,
    }
}

/// The program of a file, with the file's image or else the greedy cut of its text, and an empty input. The file passes the
/// checks of a program that is to run.
fn guest_of<'a>(
    alloc: Global,
    file: &'a mut GuestFile,
    limits: &RunLimits,
    block_words: u32,
) -> Result<Guest<'a>, Refusal>
    requires within { length file.old.bytes.items ≤ file_limit }
    requires ranges { IsInRange limits.now }
    requires size { IsBlockSize block_words }
    ensures guest { IfOk result (IsGuestOf limits.now block_words file.old.bytes.items) }
    ensures own { IfOk result IsGuest }
    ensures accepted { OnOk result (IsAccepted (guest_checks limits.now block_words file.old.bytes.items)) }
    ensures refused { IfErr result (IsRefusedOr (guest_checks limits.now block_words file.old.bytes.items)) }
{
    let GuestFile { bytes, cut } = file;
    let elf = accept(bytes)?;
    let Prepared { program, layout } = prepare(alloc, &elf, limits)?;
    let Subject { program, image } = subject_of(alloc, &elf, program, block_words)?;
    let image = match image {
        SubjectImage::Own(view) => view,
        SubjectImage::Cut(image) => cut.insert(image).view(),
    };
    Ok(Guest {
        program,
        image,
        layout,
        input: Vec::new(alloc),
    })
}

/// The programs of the files, in their order: each file is read, and its program made, before the next one is read.
fn read_guests<'a, F: Shelf>(
    alloc: Global,
    shelf: &mut F,
    names: &[String],
    files: &'a mut [GuestFile],
    limits: &RunLimits,
    block_words: u32,
) -> Result<Vec<Guest<'a>>, Refusal>
    requires places { length names.now ≤ length files.old }
    requires ranges { IsInRange limits.now }
    requires size { IsBlockSize block_words }
    ensures read { IfOk result (λ guests. GuestsRead limits.now block_words (map (λ n. string_bytes n) names.now)
        (F.state shelf.old) (F.state shelf.new) guests.items) }
    ensures unread { IfErr result (FilesUnread limits.now block_words (map (λ n. string_bytes n) names.now)
        (F.state shelf.old) (F.state shelf.new)) }
{
    let mut guests = Vec::new(alloc);
    let places = names.iter().zip(files);
    for (name, file) in places {
        file.bytes = read_file(alloc, shelf, name.as_str())?;
        let guest = guest_of(alloc, file, limits, block_words)?;
        if guests.push(guest).is_err() {
            return Err(Refusal::Memory);
        }
    }
    Ok(guests)
}

/// Whether each of so many programs has ended.
fn have_ended(share: &Share<'_>, programs: u32) -> bool
    requires programs { programs ≡ length share.now.processes }
    requires unfailed { share.now.rom ≡ None → ⊥ }
    ensures { result ≡ true → HaveEnded (seen_of share.now).contexts }
{
    for g in 0..programs {
        if share.hart(g).ending().is_none() {
            return false;
        }
    }
    true
}

/// The events of a schedule in their order, until all are made or all programs have ended.
fn run_schedule<O: Sink, E: Sink, R: CacheRam>(
    share: &mut Share<'_>,
    programs: u32,
    schedule: Schedule,
    out: &mut O,
    err: &mut E,
    ram: &mut R,
) -> Result<(), BoardFault>
    requires programs { programs ≡ length share.old.processes }
    requires some { 0 < programs }
    requires sharing { IsSharing share.old (R.state ram.old).words }
    requires room { CanRun (order_of programs schedule) (seen_of share.old) }
    ensures { ScheduleRan (order_of programs schedule)
        (record { share = share.old; ram = R.state ram.old; out = O.state out.old; err = E.state err.old })
        (record { share = share.new; ram = R.state ram.new; out = O.state out.new; err = E.state err.new }) result }
{
    let mut x = schedule.seed;
    for _ in 0..schedule.events {
        if have_ended(share, programs) {
            return Ok(());
        }
        x = next_number(x);
        share.event((x >> 16) % programs, ram, out, err)?;
    }
    Ok(())
}

/// Writes how each of so many programs ended, a line each.
fn write_guests<O: Sink>(share: &Share<'_>, programs: u32, out: &mut O) -> Result<(), Failed>
    requires programs { programs ≡ length share.now.processes }
    requires unfailed { share.now.rom ≡ None → ⊥ }
    ensures { WasWritten (O.state out.old) (O.state out.new) result (guest_lines (seen_of share.now).contexts) }
{
    for g in 0..programs {
        let hart = share.hart(g);
        let ending = ending_by(hart.ending(), hart.origin_pc(), hart.steps());
        out.write(line_of_guest(g, &ending).as_bytes())?;
    }
    Ok(())
}

/// What so many programs have done, all together.
fn shared_work(share: &Share<'_>, programs: u32) -> SharedWork
    requires programs { programs ≡ length share.now.processes }
    requires unfailed { share.now.rom ≡ None → ⊥ }
    ensures { result ≡ shared_work (seen_of share.now) }
{
    let mut instructions: u64 = 0;
    for g in 0..programs {
        instructions = instructions.saturating_add(share.hart(g).machine_steps());
    }
    let counts = share.counts();
    SharedWork {
        instructions,
        misses: counts.misses,
        evictions: counts.evictions,
        links: counts.links,
        unlinks: counts.unlinks,
        writes: counts
            .copied
            .saturating_add(counts.links)
            .saturating_add(counts.unlinks),
    }
}

/// Writes what is told of so many programs behind their events.
fn report_share<O: Sink>(
    share: &Share<'_>,
    programs: u32,
    options: &ShareOptions,
    out: &mut O,
) -> Result<(), Failed>
    requires programs { programs ≡ length share.now.processes }
    requires unfailed { share.now.rom ≡ None → ⊥ }
    ensures { WasWritten (O.state out.old) (O.state out.new) result (share_report options.now (seen_of share.now)) }
{
    write_guests(share, programs, out)?;
    if !options.stats {
        return Ok(());
    }
    shared_text(&shared_work(share, programs), out)
}

/// Runs programs over one cache of so many bytes, and writes what is told of them.
fn run_guests<O: Sink, E: Sink, R: CacheRam>(
    alloc: Global,
    guests: Vec<Guest<'_>>,
    cache_bytes: u32,
    options: &ShareOptions,
    out: &mut O,
    err: &mut E,
    ram: &mut R,
) -> Result<Ending, Refusal>
    requires ranges { IsShareInRange options.now }
    requires count { IsShareCount (length guests.items) }
    requires guests { AreGuests guests.items }
    requires bytes { 4 * most_words guests.items ≤ cache_bytes }
    requires limit { cache_bytes ≤ 2 ^ 23 }
    requires held { cache_bytes ≤ 4 * length (R.state ram.old).words }
    ensures { (d : Devices) → SharesOver options.now cache_bytes guests.entry.items
        (record d { output = O.state out.old; error = E.state err.old; ram = R.state ram.old })
        (record d { output = O.state out.new; error = E.state err.new; ram = R.state ram.new }) result }
{
    let programs = guests.len() as u32;
    let Ok(mut share) = Share::new(alloc, cache_bytes, guests) else {
        return Err(Refusal::Memory);
    };
    if let Err(fault) = run_schedule(&mut share, programs, options.schedule, out, err, ram) {
        return Err(refusal_of(fault));
    }
    match report_share(&share, programs, options, out) {
        Ok(()) => Ok(Ending::Done),
        Err(_) => Err(Refusal::SinkFault),
    }
}

/// Runs the programs of two to eight files over one cache, an original instruction of one of them at a time, in an order that
/// is made of a number. Their inputs are empty. How each ended is written to the output, and the counts where they are
/// asked for.
///
/// The checks are, in this order: the cache's size, before a file is read; those of each file, one file behind the other;
/// that the cache holds a block. A refusal by one of them, and Memory, leave the sinks and the ram as they were.
///
/// A fault of the shelf, a sink or the ram comes only where its count rose, and each that rose is answered. After RamFault
/// and SinkFault each sink holds what the events made have written, and a front of what comes next. The files stay, and so do
/// the words of the ram behind the cache. The one ending is Done; the line of a refusal is the caller's to write.
pub fn share<F: Shelf, O: Sink, E: Sink, R: CacheRam>(
    alloc: Global,
    command: &ShareCommand,
    shelf: &mut F,
    out: &mut O,
    err: &mut E,
    ram: &mut R,
) -> Result<Ending, Refusal>
    requires count { IsShareCount (length command.now.files.items) }
    requires sizes { IsCacheInRange command.now.cache }
    requires ranges { IsShareInRange command.now.options }
    ensures { (d : Devices) → Answers
        (share_task (map (λ n. string_bytes n) command.now.files.items) command.now.cache command.now.options)
        (record d { shelf = F.state shelf.old; output = O.state out.old; error = E.state err.old; ram = R.state ram.old })
        (record d { shelf = F.state shelf.new; output = O.state out.new; error = E.state err.new; ram = R.state ram.new }) result [] }
{
    let (cache, options) = (&command.cache, &command.options);
    check_size(cache.cache_bytes, ram)?;
    let names = command.files.as_slice();
    let limits = limits_by(options);
    // There are eight names at most.
    let mut files: [GuestFile; 8] = array::from_fn(|_| GuestFile {
        bytes: Vec::new(alloc),
        cut: None,
    });
    let guests = read_guests(alloc, shelf, names, &mut files, &limits, cache.block_words)?;
    check_block(cache.cache_bytes, most_words(&guests))?;
    run_guests(alloc, guests, cache.cache_bytes, options, out, err, ram)
}
