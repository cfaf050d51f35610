//! The programs that share a cache, before their first events.
#![tactic(auto)]

ghost use Rattle.std.specs.Prelude.{◌≡◌, ◌<◌, ◌≤◌, length, IfOk};
ghost use Rattle.swi_share.specs.Starting.{IsGuest, AreGuests, most_words, Started, AllStarted};

use crate::input::Input;
use std::alloc::Global;
use swi_hart::Hart;
use swi_image::ImageView;
use swi_memory::Layout;
use swi_outside::Memory;
use swi_program::Program;

/// A program that is to run beside others: its image, where its heap and stack are, and the bytes of its input.
#[derive(Drop)]
pub struct Guest<'a> {
    pub program: Program<'a>,
    pub image: ImageView<'a>,
    pub layout: Layout,
    pub input: Vec<u8>,
}

/// A guest that runs.
#[derive(Drop)]
pub(crate) struct Process<'a> {
    pub(crate) hart: Hart,
    pub(crate) image: ImageView<'a>,
    pub(crate) input: Input,
}

/// The most words of a block of these guests: 2 to 1024. There is one at least.
pub fn most_words(guests: &[Guest<'_>]) -> u32
    requires some { 0 < length guests.now }
    ensures most { result ≡ most_words guests.now }
    ensures least { 2 ≤ result }
    ensures few { result ≤ 1024 }
{
    let mut most = 0;
    for guest in guests {
        most = guest.image.block_words().max(most);
    }
    most
}

/// A guest before its first event.
fn start<'a>(alloc: Global, guest: Guest<'a>) -> Result<Process<'a>, Memory>
    requires { IsGuest guest }
    ensures { IfOk result (λ p. Started guest.entry p) }
{
    let Guest {
        program,
        image,
        layout,
        input,
    } = guest;
    let _blocks = image.blocks();
    let _text = program.text();
    let Ok(hart) = Hart::start(alloc, &program, &layout, false) else {
        return Err(Memory);
    };
    Ok(Process {
        hart,
        image,
        input: Input::new(input),
    })
}

/// All guests before their first events.
pub(crate) fn start_all<'a>(
    alloc: Global,
    guests: Vec<Guest<'a>>,
) -> Result<Vec<Process<'a>>, Memory>
    requires { AreGuests guests.items }
    ensures { IfOk result (λ ps. AllStarted guests.entry.items ps.items) }
{
    let Ok(mut processes) = Vec::with_capacity(alloc, guests.len()) else {
        return Err(Memory);
    };
    for guest in guests {
        let process = start(alloc, guest)?;
        if processes.push(process).is_err() {
            return Err(Memory);
        }
    }
    Ok(processes)
}
