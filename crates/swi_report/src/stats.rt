//! The counts of a run.

ghost use Rattle.std.specs.Prelude.{◌≡◌, ◌≤◌, All, length};
ghost use Rattle.std.specs.List.{flat_map};
ghost use Rattle.std.specs.Option.{option_copied};
ghost use Rattle.swi_outside.specs.Sink.{WasWritten};
ghost use Rattle.swi_report.specs.Stats.{count_line, work_text, stats_text_of};

use swi_line::Line;
use swi_outside::{Failed, Sink};
use swi_rom::Counts;

/// What a run on the cached machine has done.
#[derive(Clone, Copy, Debug, PartialEq, Eq)]
pub struct Work {
    /// The steps of the machine itself, each of which executes one fetched word.
    pub machine: u64,
    /// The words that were fetched from the ram.
    pub fetches: u64,
    /// The words that were written to the ram.
    pub writes: u64,
    /// What the cache's service has done.
    pub counts: Counts,
}

fn count_line(name: &str, count: u64) -> Line
    requires { length name.now ≤ 16 }
    ensures { result ≡ count_line name.now count }
{
    let mut line = Line::new();
    line.push_text(name);
    line.push_text(" ");
    line.push_decimal(count);
    line.push_text("\n");
    line
}

/// Writes counts with their names, a line each.
pub(crate) fn write_counts<S: Sink>(counts: &[(&str, u64)], sink: &mut S) -> Result<(), Failed>
    requires { All (λ c. length c.0.now ≤ 16) counts.now }
    ensures { WasWritten (S.state sink.old) (S.state sink.new) result
        (flat_map (λ c. count_line c.0.now c.1) counts.now) }
{
    for (name, count) in counts {
        sink.write(count_line(name, *count).as_bytes())?;
    }
    Ok(())
}

/// Writes what the cached machine has done.
#[tactic(auto, unfolding(crate::specs::Stats::work_counts))]
fn write_work<S: Sink>(work: &Work, sink: &mut S) -> Result<(), Failed>
    ensures { WasWritten (S.state sink.old) (S.state sink.new) result (work_text work.now) }
{
    let counts = work.counts;
    let lines = [
        ("instructions", work.machine),
        ("services", counts.services),
        ("misses", counts.misses),
        ("evictions", counts.evictions),
        ("links", counts.links),
        ("unlinks", counts.unlinks),
        ("fetches", work.fetches),
        ("writes", work.writes),
    ];
    write_counts(&lines, sink)
}

/// Writes the counts of a run to the sink, a line each: the steps, and of a run on the cached machine
/// the instructions that it executed, what the cache's service has done, and the words that were
/// fetched from the ram and written to it.
///
/// Failed only where the sink's count of faults rose; it then holds a front of the text.
pub fn stats_text<S: Sink>(steps: u64, work: Option<&Work>, sink: &mut S) -> Result<(), Failed>
    ensures { WasWritten (S.state sink.old) (S.state sink.new) result
        (stats_text_of steps (option_copied work.entry)) }
{
    sink.write(count_line("steps", steps).as_bytes())?;
    match work {
        Some(work) => write_work(work, sink),
        None => Ok(()),
    }
}
