//! Runs with known answers.

ghost use Rattle.std.specs.Prelude.{◌≤◌};
ghost use Rattle.swi_program.specs.Layout.{IsLayoutOf};
ghost use Rattle.swi_program.specs.Text.{text_of};
ghost use Rattle.swi_render.specs.ImageOf.{IsImageOf};

use crate::programs::{COUNT, carry, file_with, program_in};
use std::alloc::Global;
use std::test::Fail;
use swi_cut::cut;
use swi_devices::{FaultRam, MemSink, MemSource};
use swi_image::ImageView;
use swi_memory::Layout;
use swi_outside::CacheRam;
use swi_prefetch::Prefetch;
use swi_program::{Program, lay_out};
use swi_rom::CacheRom;

/// Steps, instructions, services, misses, evictions, links, unlinks, fetches, writes, and what the engine copied.
fn counts_after(alloc: Global, rate: u32) -> Result<[u64; 11], Fail>
    requires rate { rate ≤ 1024 }
{
    let file = file_with(alloc, COUNT, 5)?;
    let program = program_in(alloc, &file)?;
    let Ok(layout) = lay_out(&program, 1 << 20, 1 << 16) else {
        return Err(Fail::from("no room"));
    };
    let Ok(image) = cut(alloc, &program, 5) else {
        return Err(Fail::from("no image"));
    };
    counts_over(alloc, &image.view(), &program, &layout, rate)
}

/// The same over an image of a program.
fn counts_over(
    alloc: Global,
    image: &ImageView<'_>,
    program: &Program<'_>,
    layout: &Layout,
    rate: u32,
) -> Result<[u64; 11], Fail>
    requires laid_out { IsLayoutOf program.now.segments layout.now }
    requires own { IsImageOf (text_of program.now.segments) image.now }
    requires short { image.now.block_words ≤ 5 }
    requires rate { rate ≤ 1024 }
{
    carry(image, program);
    let mut input = MemSource::new(Vec::new(alloc), Vec::new(alloc));
    let mut out = MemSink::new(alloc, 4096, Vec::new(alloc))?;
    let mut err = MemSink::new(alloc, 4096, Vec::new(alloc))?;
    let mut ram = FaultRam::new(alloc, 2048, Vec::new(alloc))?;
    let Ok(mut prefetch) = Prefetch::boot(alloc, image, program, layout, false, 60, &mut ram) else {
        return Err(Fail::from("no boot"));
    };
    let run = prefetch.run(image, &mut ram, &mut input, &mut out, &mut err, 1000, rate);
    if run.is_err() || prefetch.failed() {
        return Err(Fail::from("a device failed"));
    }
    let counts = prefetch.board().rom().counts();
    let (words, copies) = prefetch.copied();
    Ok([
        prefetch.board().steps(),
        prefetch.board().machine_steps(),
        counts.services,
        counts.misses,
        counts.evictions,
        counts.links,
        counts.unlinks,
        ram.fetches(),
        ram.sets(),
        words,
        copies,
    ])
}

#[test]
fn engine_runs_ahead(rt: HostRuntime) -> Result<(), Fail> {
    let alloc = rt.alloc();
    assert_eq!(rt;
        counts_after(alloc, 5)?,
        [9, 16, 3, 1, 0, 3, 0, 15, 16, 9, 2]
    );
    assert_eq!(rt;
        counts_after(alloc, 1)?,
        [9, 16, 3, 2, 0, 3, 0, 15, 16, 6, 1]
    );
    assert_eq!(rt;
        counts_after(alloc, 0)?,
        [9, 16, 3, 3, 0, 3, 0, 15, 16, 0, 0]
    );
    Ok(())
}
