//! A command and its options, read from `clap`'s matches.

ghost use Rattle.std.specs.Prelude.{◌≡◌, ◌<◌, ◌≤◌, ◌^◌, ◌+◌, All, ◌++◌, ◌%◌, IfSome, IfOk, OnOk, OnErr, Err, Some, None, [], ◌∷◌, length, map, option_map, string_bytes};
ghost use Rattle.clap.specs.Words.{rows_of, found_of, all_of, first_of};
ghost use Rattle.swi_command.specs.Arguments.{positional_name, form_of_number, flag_name, form_of};
ghost use Rattle.swi_command.specs.CommandLine.{number_of, number_at, seed_of, count_of, is_set, limits_of, options_of, trace_options_of, kind_of, cache_of, cache_with, rate_form, more_places, given_at, shared_files, schedule_of, share_options_of, request_of, sizes_in, sizes_of, AreSizes, IsBlockSize, IsFunctionCount, IsShareCount, IsCacheInRange, IsInRange, IsShareInRange, HasLimitsInRange};

use crate::argument::{Flag, NumberOption, Positional};
use crate::name::CommandName;
use crate::number::{NumberRule, read_number_in};
use crate::{
    CacheKind, CacheOptions, CachedCommand, CheckCommand, Command, CommandError, ListCommand,
    MeasureCommand, PlainCommand, PrefetchCommand, ProfileCommand, Reports, RewriteCommand,
    RunLimits, RunOptions, Schedule, ShareCommand, ShareOptions, SurveyCommand, UpgradeCommand,
};
use clap::ArgMatches;
use std::alloc::Global;
use swi_line::Trace;

/// The first value that the words give the argument.
fn value_of<'a>(matches: &ArgMatches<'a>, name: &str) -> Option<&'a str>
    ensures { option_map (λ s. s.now) result ≡ first_of name.now (rows_of (found_of matches.now)) }
{
    matches.get_str(name)
}

/// All values that the words give the argument.
fn values_of<'a, 'b>(matches: &'b ArgMatches<'a>, name: &str) -> Option<&'b [&'a str]>
    ensures { option_map (λ s. map (λ t. t.now) s.now) result ≡ all_of name.now (rows_of (found_of matches.now)) }
{
    matches.get_strs(name)
}

/// The name of a file.
fn file_name(
    alloc: Global,
    matches: &ArgMatches<'_>,
    place: Positional,
) -> Result<String, CommandError>
    ensures ok { IfOk result (λ s. first_of (positional_name place)
        (rows_of (found_of matches.now)) ≡ Some (string_bytes s)) }
    ensures usage { result ≡ Err CommandError.Usage
        → first_of (positional_name place) (rows_of (found_of matches.now)) ≡ None }
{
    let Some(text) = value_of(matches, place.name()) else {
        return Err(CommandError::Usage);
    };
    text.to_string(alloc).map_err(|_| CommandError::Memory)
}

/// The number of an option, or its default.
fn number(matches: &ArgMatches<'_>, option: NumberOption) -> Option<u64>
    ensures value { result ≡ number_of (form_of_number option) (rows_of (found_of matches.now)) }
    ensures least { IfSome result (λ n. (form_of_number option).least ≤ n) }
    ensures most { IfSome result (λ n. n ≤ (form_of_number option).most) }
    ensures aligned { IfSome result (λ n. n % (form_of_number option).unit ≡ 0) }
{
    let rule = option.rule();
    match value_of(matches, option.name()) {
        Some(text) => read_number_in(text, rule),
        None => Some(option.default()),
    }
}

/// The number from `least` to `most` that stands at a place.
fn number_at(matches: &ArgMatches<'_>, place: Positional, least: u64, most: u64) -> Option<u64>
    ensures value { result ≡ number_at (positional_name place) least most (rows_of (found_of matches.now)) }
    ensures least { IfSome result (λ n. least ≤ n) }
    ensures most { IfSome result (λ n. n ≤ most) }
{
    let text = value_of(matches, place.name())?;
    read_number_in(
        text,
        NumberRule {
            least,
            most,
            unit: 1,
        },
    )
}

/// Whether the flag was given.
fn is_given(matches: &ArgMatches<'_>, flag: Flag) -> bool
    ensures { result ≡ is_set (flag_name flag) (rows_of (found_of matches.now)) }
{
    match value_of(matches, flag.name()) {
        Some(text) => text == "true",
        None => false,
    }
}

fn run_limits(matches: &ArgMatches<'_>) -> Option<RunLimits>
    ensures value { result ≡ limits_of (rows_of (found_of matches.now)) }
    ensures ranges { IfSome result IsInRange }
{
    let steps = number(matches, NumberOption::Steps)?;
    let heap = number(matches, NumberOption::Heap)?;
    let stack = number(matches, NumberOption::Stack)?;
    Some(RunLimits {
        steps,
        heap: heap as u32,
        stack: stack as u32,
    })
}

fn run_options(matches: &ArgMatches<'_>) -> Option<RunOptions>
    ensures value { result ≡ options_of (rows_of (found_of matches.now)) }
    ensures ranges { IfSome result (λ o. IsInRange o.limits) }
{
    let limits = run_limits(matches)?;
    let reports = Reports {
        state: is_given(matches, Flag::State),
        calls: is_given(matches, Flag::Calls),
        stats: is_given(matches, Flag::Stats),
        trace: Trace::Off,
    };
    Some(RunOptions { limits, reports })
}

/// The options of a run whose steps are told.
fn trace_options(matches: &ArgMatches<'_>) -> Option<RunOptions>
    ensures value { result ≡ trace_options_of (rows_of (found_of matches.now)) }
    ensures ranges { IfSome result (λ o. IsInRange o.limits) }
{
    let limits = run_limits(matches)?;
    let trace = if is_given(matches, Flag::Last) {
        Trace::Last
    } else {
        Trace::Each
    };
    let reports = Reports {
        state: false,
        calls: false,
        stats: false,
        trace,
    };
    Some(RunOptions { limits, reports })
}

fn block_words(matches: &ArgMatches<'_>) -> Option<u32>
    ensures value { result ≡ number_of (form_of_number NumberOption.Block) (rows_of (found_of matches.now)) }
    ensures ranges { IfSome result IsBlockSize }
{
    let words = number(matches, NumberOption::Block)?;
    Some(words as u32)
}

fn cache_kind(matches: &ArgMatches<'_>) -> CacheKind
    ensures { result ≡ kind_of (rows_of (found_of matches.now)) }
{
    if is_given(matches, Flag::Ring) {
        CacheKind::Ring
    } else {
        CacheKind::Slots
    }
}

/// The sizes of a cache in which blocks stand so.
fn cache_with(matches: &ArgMatches<'_>, kind: CacheKind) -> Option<CacheOptions>
    ensures value { result ≡ cache_with kind (rows_of (found_of matches.now)) }
    ensures ranges { IfSome result IsCacheInRange }
{
    let cache = number(matches, NumberOption::Cache)?;
    Some(CacheOptions {
        cache_bytes: cache as u32,
        block_words: block_words(matches)?,
        kind,
    })
}

fn cache_options(matches: &ArgMatches<'_>) -> Option<CacheOptions>
    ensures value { result ≡ cache_of (rows_of (found_of matches.now)) }
    ensures ranges { IfSome result IsCacheInRange }
{
    cache_with(matches, cache_kind(matches))
}

fn seed(matches: &ArgMatches<'_>) -> Option<u32>
    ensures { result ≡ seed_of (rows_of (found_of matches.now)) }
{
    let number = number_at(matches, Positional::Seed, 0, (1 << 32) - 1)?;
    Some(number as u32)
}

fn function_count(matches: &ArgMatches<'_>) -> Option<u32>
    ensures value { result ≡ count_of (rows_of (found_of matches.now)) }
    ensures ranges { IfSome result IsFunctionCount }
{
    let number = number_at(matches, Positional::Count, 1, 4096)?;
    Some(number as u32)
}

/// The places at which files may stand behind the second one.
const MORE_PLACES: &[Positional] = &[
    Positional::File3,
    Positional::File4,
    Positional::File5,
    Positional::File6,
    Positional::File7,
    Positional::File8,
];

/// Appends the file at a place, where one is given.
fn push_file(
    alloc: Global,
    matches: &ArgMatches<'_>,
    place: Positional,
    files: &mut Vec<String>,
) -> Result<(), CommandError>
    ensures files { OnOk result (map (λ s. string_bytes s) files.new.items
        ≡ map (λ s. string_bytes s) files.old.items ++ given_at (positional_name place ∷ []) (rows_of (found_of matches.now))) }
    ensures size { length files.new.items ≤ length files.old.items + 1 }
    ensures memory { OnErr result (result ≡ Err CommandError.Memory) }
{
    let Some(text) = value_of(matches, place.name()) else {
        return Ok(());
    };
    let Ok(file) = text.to_string(alloc) else {
        return Err(CommandError::Memory);
    };
    if files.push(file).is_err() {
        return Err(CommandError::Memory);
    }
    Ok(())
}

/// Appends the files that are given behind the second one.
fn push_more(
    alloc: Global,
    matches: &ArgMatches<'_>,
    files: &mut Vec<String>,
) -> Result<(), CommandError>
    ensures files { OnOk result (map (λ s. string_bytes s) files.new.items
        ≡ map (λ s. string_bytes s) files.old.items ++ given_at more_places (rows_of (found_of matches.now))) }
    ensures size { length files.new.items ≤ length files.old.items + 6 }
    ensures memory { OnErr result (result ≡ Err CommandError.Memory) }
{
    for place in MORE_PLACES {
        push_file(alloc, matches, *place, files)?;
    }
    Ok(())
}

/// The files of programs that share a cache: two to eight.
fn shared_files(alloc: Global, matches: &ArgMatches<'_>) -> Result<Vec<String>, CommandError>
    ensures ok { IfOk result (λ fs. shared_files (rows_of (found_of matches.now))
        ≡ Some (map (λ s. string_bytes s) fs.items)) }
    ensures usage { result ≡ Err CommandError.Usage → shared_files (rows_of (found_of matches.now)) ≡ None }
    ensures ranges { IfOk result (λ fs. IsShareCount (length fs.items)) }
{
    let first = file_name(alloc, matches, Positional::File1)?;
    let second = file_name(alloc, matches, Positional::File2)?;
    let Ok(mut files) = Vec::from_array(alloc, [first, second]) else {
        return Err(CommandError::Memory);
    };
    push_more(alloc, matches, &mut files)?;
    Ok(files)
}

fn schedule(matches: &ArgMatches<'_>) -> Option<Schedule>
    ensures { result ≡ schedule_of (rows_of (found_of matches.now)) }
{
    let events = number(matches, NumberOption::Events)?;
    let seed = number(matches, NumberOption::Seed)?;
    Some(Schedule {
        events: events as u32,
        seed: seed as u32,
    })
}

fn share_options(matches: &ArgMatches<'_>) -> Option<ShareOptions>
    ensures value { result ≡ share_options_of (rows_of (found_of matches.now)) }
    ensures ranges { IfSome result IsShareInRange }
{
    let schedule = schedule(matches)?;
    let heap = number(matches, NumberOption::Heap)?;
    let stack = number(matches, NumberOption::Stack)?;
    Some(ShareOptions {
        schedule,
        heap: heap as u32,
        stack: stack as u32,
        stats: is_given(matches, Flag::Stats),
    })
}

/// The sizes that words write, each as `--cache` takes it.
fn sizes_in(alloc: Global, texts: &[&str]) -> Result<Vec<u32>, CommandError>
    ensures ok { IfOk result (λ ns. sizes_in (map (λ t. t.now) texts.now) ≡ Some ns.items) }
    ensures usage { result ≡ Err CommandError.Usage → sizes_in (map (λ t. t.now) texts.now) ≡ None }
    ensures ranges { IfOk result (λ ns. All (λ n. (8 ≤ n) × (n < 2 ^ 32)) ns.items) }
{
    let rule = NumberOption::Cache.rule();
    let mut sizes = Vec::new(alloc);
    for text in texts {
        let Some(size) = read_number_in(text, rule) else {
            return Err(CommandError::Usage);
        };
        if sizes.push(size as u32).is_err() {
            return Err(CommandError::Memory);
        }
    }
    Ok(sizes)
}

/// The sizes of caches, 1 to 64.
fn sizes(alloc: Global, matches: &ArgMatches<'_>) -> Result<Vec<u32>, CommandError>
    ensures ok { IfOk result (λ ns. sizes_of (rows_of (found_of matches.now)) ≡ Some ns.items) }
    ensures usage { result ≡ Err CommandError.Usage → sizes_of (rows_of (found_of matches.now)) ≡ None }
    ensures ranges { IfOk result (λ ns. AreSizes ns.items) }
{
    let Some(texts) = values_of(matches, Positional::Sizes.name()) else {
        return Err(CommandError::Usage);
    };
    let sizes = sizes_in(alloc, texts)?;
    if sizes.is_empty() || sizes.len() > 64 {
        return Err(CommandError::Usage);
    }
    Ok(sizes)
}

/// The events of the engine for each one of the hart.
fn engine_rate(matches: &ArgMatches<'_>) -> Option<u32>
    ensures value { result ≡ number_of rate_form (rows_of (found_of matches.now)) }
    ensures most { IfSome result (λ n. n ≤ 1024) }
{
    let rate = number(matches, NumberOption::Rate)?;
    Some(rate as u32)
}

/// The command of that name with what the matches give its arguments.
pub fn command_from(
    alloc: Global,
    name: CommandName,
    matches: &ArgMatches<'_>,
) -> Result<Command, CommandError>
    ensures ok { IfOk result (λ c. (form_of name).request (rows_of (found_of matches.now))
        ≡ Some (request_of c)) }
    ensures usage { result ≡ Err CommandError.Usage
        → (form_of name).request (rows_of (found_of matches.now)) ≡ None }
    ensures ranges { IfOk result HasLimitsInRange }
{
    let usage = CommandError::Usage;
    match name {
        CommandName::Rewrite => Ok(Command::Rewrite(RewriteCommand {
            input: file_name(alloc, matches, Positional::Input)?,
            output: file_name(alloc, matches, Positional::Output)?,
            block_words: block_words(matches).ok_or(usage)?,
            whole_loops: is_given(matches, Flag::WholeLoops),
        })),
        CommandName::Cached => Ok(Command::Cached(CachedCommand {
            file: file_name(alloc, matches, Positional::File)?,
            cache: cache_options(matches).ok_or(usage)?,
            options: run_options(matches).ok_or(usage)?,
        })),
        CommandName::Plain => Ok(Command::Plain(PlainCommand {
            file: file_name(alloc, matches, Positional::File)?,
            options: run_options(matches).ok_or(usage)?,
        })),
        CommandName::Trace => Ok(Command::Cached(CachedCommand {
            file: file_name(alloc, matches, Positional::File)?,
            cache: cache_options(matches).ok_or(usage)?,
            options: trace_options(matches).ok_or(usage)?,
        })),
        CommandName::Listing => Ok(Command::List(ListCommand {
            file: file_name(alloc, matches, Positional::File)?,
            block_words: block_words(matches).ok_or(usage)?,
        })),
        CommandName::Check => Ok(Command::Check(CheckCommand {
            file: file_name(alloc, matches, Positional::File)?,
        })),
        CommandName::Upgrade => Ok(Command::Upgrade(UpgradeCommand {
            input: file_name(alloc, matches, Positional::Input)?,
            output: file_name(alloc, matches, Positional::Output)?,
        })),
        CommandName::Measure => Ok(Command::Measure(MeasureCommand {
            seed: seed(matches).ok_or(usage)?,
            functions: function_count(matches).ok_or(usage)?,
            cache: cache_options(matches).ok_or(usage)?,
        })),
        CommandName::Share => Ok(Command::Share(ShareCommand {
            files: shared_files(alloc, matches)?,
            cache: cache_with(matches, CacheKind::Slots).ok_or(usage)?,
            options: share_options(matches).ok_or(usage)?,
        })),
        CommandName::Survey => Ok(Command::Survey(SurveyCommand {
            file: file_name(alloc, matches, Positional::File)?,
            sizes: sizes(alloc, matches)?,
            block_words: block_words(matches).ok_or(usage)?,
            kind: cache_kind(matches),
            limits: run_limits(matches).ok_or(usage)?,
        })),
        CommandName::Profile => Ok(Command::Profile(ProfileCommand {
            file: file_name(alloc, matches, Positional::File)?,
            limits: run_limits(matches).ok_or(usage)?,
        })),
        CommandName::Prefetch => Ok(Command::Prefetch(PrefetchCommand {
            file: file_name(alloc, matches, Positional::File)?,
            cache: cache_with(matches, CacheKind::Slots).ok_or(usage)?,
            options: run_options(matches).ok_or(usage)?,
            rate: engine_rate(matches).ok_or(usage)?,
        })),
    }
}
