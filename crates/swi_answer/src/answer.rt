//! What a command answers.
#![tactic(auto)]

use swi_check::Mismatch;
use swi_elf_read::ElfRefusal;
use swi_exec::FaultKind;
use swi_image::ImageRefusal;
use thiserror::Error;

/// How a command ended that was not refused.
#[derive(Clone, Copy, Debug, PartialEq, Eq)]
pub enum Ending {
    /// The guest exited: its code, and the number of steps.
    Exited(u32, u64),
    /// The step limit came first: the number of steps, and the pc of the next instruction.
    Spent(u64, u32),
    /// An instruction faulted: the kind, its pc, the address of the fault, and the number of steps.
    Faulted(FaultKind, u32, u32, u64),
    /// An instruction would have stored into the text: its pc, that address, and the number of steps.
    StoreText(u32, u32, u64),
    /// The command runs no guest, and is done.
    Done,
}

/// Why a command was refused, or which device failed.
#[derive(Clone, Copy, Debug, PartialEq, Eq, Error)]
pub enum Refusal {
    #[error("the words are no command")]
    Usage,
    #[error("a cache of {bytes} bytes is larger than 8 MiB")]
    CacheLarge { bytes: u32 },
    #[error("a cache of {bytes} bytes is larger than the ram of {held} bytes")]
    RamSmall { bytes: u32, held: u64 },
    #[error("the file could not be read or written")]
    ShelfFault,
    #[error("the file has more than {limit} bytes")]
    FileLong { limit: u32 },
    #[error("the file is not accepted: {0:?}")]
    Elf(ElfRefusal),
    #[error("the stack would end at {end}, past the last address")]
    Room { end: u64 },
    #[error("the file has no cache image")]
    NoImage,
    #[error("the file's cache image is not accepted: {0:?}")]
    Image(ImageRefusal),
    #[error("the file's cache image is not one of its text: {0:?}")]
    Mismatch(Mismatch),
    #[error("the instruction at {address} needs {needs} words of a block")]
    Long { address: u32, needs: u32 },
    #[error("a cache of {bytes} bytes holds no block, which takes {least}")]
    CacheSmall { bytes: u32, least: u32 },
    #[error("the input failed")]
    SourceFault,
    #[error("the output or the error stream failed")]
    SinkFault,
    #[error("the cache ram failed")]
    RamFault,
    #[error("there is no memory")]
    Memory,
}
