//! The files of a command: some are read, and one may be written.
#![tactic(auto)]

ghost use Rattle.std.specs.Prelude.{◌≡◌, ◌≤◌, IfOk, OnErr, Err, length};
ghost use Rattle.swi_elf_write.specs.Rewritten.{rewritten_file};
ghost use Rattle.swi_task.specs.Checks.{file_limit};
ghost use Rattle.swi_task.specs.Files.{FileRead, FileWritten, refusal_by};

use std::alloc::Global;
use swi_answer::Refusal;
use swi_elf_write::write_elf;
use swi_image::Image;
use swi_outside::{Shelf, ShelfError};
use swi_program::Program;

/// The most bytes that a file may have.
const FILE_LIMIT: u32 = 1 << 26;

/// What a command is refused with, for such an answer of the shelf.
fn refusal_by(error: ShelfError) -> Refusal
    ensures { result ≡ refusal_by error }
{
    match error {
        ShelfError::Failed => Refusal::ShelfFault,
        ShelfError::Long => Refusal::FileLong { limit: FILE_LIMIT },
        ShelfError::Memory => Refusal::Memory,
    }
}

/// The content of a file that a command reads, of at most 2^26 bytes. The shelf is asked once, and all that stands on it
/// stays.
///
/// ShelfFault comes where the shelf failed, FileLong where more bytes stand under the name, and Memory where there was none
/// for the content.
pub fn read_file<F: Shelf>(alloc: Global, shelf: &mut F, name: &str) -> Result<Vec<u8>, Refusal>
    ensures read { FileRead (F.state shelf.old) (F.state shelf.new) name.now result }
    ensures within { IfOk result (λ bytes. length bytes.items ≤ file_limit) }
{
    match shelf.get(alloc, name, FILE_LIMIT) {
        Ok(bytes) => Ok(bytes),
        Err(error) => Err(refusal_by(error)),
    }
}

/// Puts a content under the name of the file that a command writes. The shelf is asked once, and what stands under any other
/// name stays.
///
/// After ShelfFault, where the shelf failed, nothing is known of that name; after Memory every content is as it was. No
/// other error comes.
pub fn write_file<F: Shelf>(
    alloc: Global,
    shelf: &mut F,
    name: &str,
    bytes: &[u8],
) -> Result<(), Refusal>
    ensures written { FileWritten (F.state shelf.old) (F.state shelf.new) name.now bytes.now result }
{
    match shelf.put(alloc, name, bytes) {
        Ok(()) => Ok(()),
        Err(error) => Err(refusal_by(error)),
    }
}

/// The bytes of the file of a program with an image, as `swi_elf_write` lays them out. The only error is Memory.
pub fn file_with(alloc: Global, program: &Program<'_>, image: &Image) -> Result<Vec<u8>, Refusal>
    ensures file { IfOk result (λ v. v.items ≡ rewritten_file program.now image.now) }
    ensures memory { OnErr result (result ≡ Err Refusal.Memory) }
{
    match write_elf(alloc, program, image) {
        Ok(file) => Ok(file),
        Err(_) => Err(Refusal::Memory),
    }
}
