//! What is written of each cache.
#![tactic(auto)]

ghost use Rattle.std.specs.Prelude.{◌≡◌, ◌<◌, ℕ, Some, length};
ghost use Rattle.std.specs.List.{flat_map};
ghost use Rattle.swi_outside.specs.Sink.{WasWritten};
ghost use Rattle.swi_report.specs.declared.stats.Work.{Work as WorkData};
ghost use Rattle.swi_tally.specs.Tallies.{Row, row_at};
ghost use Rattle.swi_survey_command.specs.Rows.{CountsAs, size_line, size_text, spaced, work_by};

use swi_line::Line;
use swi_outside::{Failed, Sink};
use swi_report::Work;
use swi_survey::Surveyed;

/// A cache's size.
fn size_text(bytes: u32) -> Line
    ensures { result ≡ size_text bytes }
{
    let mut line = Line::new();
    line.push_decimal(u64::from(bytes));
    line
}

/// A number behind a space.
fn spaced(number: u64) -> Line
    ensures { result ≡ spaced number }
{
    let mut line = Line::new();
    line.push_text(" ");
    line.push_decimal(number);
    line
}

/// Writes numbers, each behind a space.
fn write_numbers<O: Sink>(numbers: &[u64], out: &mut O) -> Result<(), Failed>
    ensures { WasWritten (O.state out.old) (O.state out.new) result (flat_map spaced numbers.now) }
{
    for number in numbers {
        out.write(spaced(*number).as_bytes())?;
    }
    Ok(())
}

/// Writes the line of a cache: its size, and behind it the numbers of `--stats`, in their order.
#[tactic(auto, unfolding(swi_report::specs::Stats::work_counts))]
fn write_row<O: Sink>(bytes: u32, steps: u64, work: &Work, out: &mut O) -> Result<(), Failed>
    ensures { WasWritten (O.state out.old) (O.state out.new) result (size_line bytes steps work.now) }
{
    let counts = work.counts;
    let numbers = [
        steps,
        work.machine,
        counts.services,
        counts.misses,
        counts.evictions,
        counts.links,
        counts.unlinks,
        work.fetches,
        work.writes,
    ];
    out.write(size_text(bytes).as_bytes())?;
    write_numbers(&numbers, out)?;
    out.write(b"\n")
}

/// What the cache with number `k` has counted, as `--stats` tells it.
fn work_of(surveyed: &Surveyed, k: u32) -> Work
    requires cache { k < length surveyed.now.caches.caches }
    ensures { (r : Row) → row_at surveyed.now.caches k ≡ Some r → result ≡ work_by surveyed.now r.kept }
{
    let counts = surveyed.caches.counts(k);
    Work {
        machine: surveyed.instructions,
        fetches: surveyed.fetches,
        writes: counts.writes(),
        counts,
    }
}

/// Writes a line for each cache, in their order.
pub(crate) fn write_rows<O: Sink>(
    surveyed: &Surveyed,
    sizes: &[u32],
    out: &mut O,
) -> Result<(), Failed>
    requires caches { length surveyed.now.caches.caches ≡ length sizes.now }
    ensures { (work : ℕ → WorkData) → CountsAs surveyed.now sizes.now work → WasWritten (O.state out.old) (O.state out.new) result
        (flat_map (λ bytes. size_line bytes surveyed.now.steps (work bytes)) sizes.now) }
{
    for k in 0..surveyed.caches.len() {
        let work = work_of(surveyed, k);
        write_row(sizes[k as usize], surveyed.steps, &work, out)?;
    }
    Ok(())
}
