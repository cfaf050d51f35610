//! The exit status of an answer.
#![tactic(auto)]

ghost use Rattle.std.specs.Prelude.{◌≡◌};
ghost use Rattle.swi_answer.specs.Status.{status};

use crate::{Ending, Refusal};

/// The exit status of an answer. A guest may exit with any of these numbers itself; the line on the error
/// sink tells them apart.
pub fn status_of(answer: &Result<Ending, Refusal>) -> u8
    ensures { result ≡ status answer.now }
{
    match answer {
        Ok(Ending::Exited(code, _)) => (code & 0xFF) as u8,
        Ok(Ending::Done) => 0,
        Ok(Ending::Spent(..)) => 240,
        Ok(Ending::Faulted(..)) => 241,
        Ok(Ending::StoreText(..)) => 242,
        Err(Refusal::Elf(_) | Refusal::Room { .. }) => 243,
        Err(Refusal::Image(_)) => 244,
        Err(Refusal::Mismatch(_)) => 245,
        Err(Refusal::Long { .. }) => 246,
        Err(Refusal::CacheLarge { .. } | Refusal::RamSmall { .. } | Refusal::CacheSmall { .. }) =>
            247,
        Err(Refusal::ShelfFault | Refusal::FileLong { .. }) => 248,
        Err(Refusal::SourceFault | Refusal::SinkFault | Refusal::RamFault) => 249,
        Err(Refusal::Usage) => 250,
        Err(Refusal::Memory) => 251,
        Err(Refusal::NoImage) => 252,
    }
}
