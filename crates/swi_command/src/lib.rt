//! The command line of `swic`: the words after the program's name, read as one command.
//!
//! The first word names the command. The rest is read by `clap` as that command's own words,
//! without subcommands and without a help flag. No type of `clap` stands in the surface.
#![tactic(auto)]

ghost use Rattle.std.specs.Prelude.{◌≡◌, IfOk, Some, None, map, string_bytes};
ghost use Rattle.swi_command.specs.Arguments.{form_of};
ghost use Rattle.swi_command.specs.CommandLine.{command_of, form_first, request_by, request_of, HasLimitsInRange};

mod argument;
mod command;
mod name;
mod number;
mod read;
mod syntax;

pub use command::{
    CacheKind, CacheOptions, CachedCommand, CheckCommand, Command, CommandError, ListCommand,
    MeasureCommand, PlainCommand, PrefetchCommand, ProfileCommand, Reports, RewriteCommand,
    RunLimits, RunOptions, Schedule, ShareCommand, ShareOptions, SurveyCommand, UpgradeCommand,
};
use name::CommandName;
use read::command_from;
use std::alloc::Global;
use syntax::command_matches;

/// The command that the words after the program's name ask for. Usage comes where no command takes
/// the words. Memory may come in place of any answer, but not where the first word names no command.
///
/// | Command | Words |
/// |---|---|
/// | `rewrite` | IN OUT `--block` `--whole-loops` |
/// | `cached` | FILE `--steps` `--cache` `--block` `--heap` `--stack` `--ring` `--state` `--calls` `--stats` |
/// | `plain` | FILE `--steps` `--heap` `--stack` `--state` `--calls` `--stats` |
/// | `trace` | FILE `--steps` `--cache` `--block` `--heap` `--stack` `--ring` `--last` |
/// | `list` | FILE `--block` |
/// | `check` | FILE |
/// | `upgrade` | IN OUT |
/// | `measure` | SEED COUNT `--cache` `--block` `--ring` |
/// | `share` | FILE FILE, up to six FILE more, `--events` `--seed` `--cache` `--block` `--heap` `--stack` `--stats` |
/// | `prefetch` | FILE `--rate` `--steps` `--cache` `--block` `--heap` `--stack` `--state` `--calls` `--stats` |
/// | `survey` | FILE BYTES, up to 63 BYTES more, `--steps` `--block` `--heap` `--stack` `--ring` |
/// | `profile` | FILE `--steps` `--heap` `--stack` |
///
/// | Option | Range | Where not given |
/// |---|---|---|
/// | `--steps` | 0 to 2^48 | 1000000000 |
/// | `--cache` in bytes | 8 to 2^32 - 1 | 4096 |
/// | `--block` in words | 2 to 1024 | 64 |
/// | `--heap` in bytes | 0 to 67108864 | 1048576 |
/// | `--stack` in bytes | 4096 to 16777216, a multiple of 16 | 65536 |
/// | `--events` | 0 to 2^32 - 1 | 1000000 |
/// | `--seed` | 0 to 2^32 - 1 | 0 |
/// | `--rate` in events of the engine | 0 to 1024 | 1 |
///
/// SEED is a number from 0 to 2^32 - 1, COUNT one from 1 to 4096, each of BYTES one that `--cache` takes; the other words by
/// place are names of files.
/// `--ring`, `--whole-loops`, `--state`, `--calls`, `--stats` and `--last` are flags. Options may stand before, between and after the
/// files, as `--x v` or `--x=v`, each at most once. An option's value that begins with `-` is taken
/// only as `--x=v`. `--` ends the options; a file that begins with `-` is `-` itself or stands
/// behind it. A number is 1 to 19 decimal digits.
pub fn parse_command(alloc: Global, words: &[String]) -> Result<Command, CommandError>
    ensures ok { IfOk result (λ c. command_of (map (λ w. string_bytes w) words.now)
        ≡ Some (request_of c)) }
    ensures usage { result ≡ Err CommandError.Usage
        → command_of (map (λ w. string_bytes w) words.now) ≡ None }
    ensures unknown { form_first (map (λ w. string_bytes w) words.now) ≡ None
        → result ≡ Err CommandError.Usage }
    ensures ranges { IfOk result HasLimitsInRange }
{
    let Some(word) = words.first() else {
        return Err(CommandError::Usage);
    };
    let Some(name) = CommandName::named(word.as_str()) else {
        return Err(CommandError::Usage);
    };
    parse_named(alloc, name, words)
}

/// The command that words ask for of which the first is its name.
fn parse_named(alloc: Global, name: CommandName, words: &[String]) -> Result<Command, CommandError>
    ensures ok { IfOk result (λ c. request_by (map (λ w. string_bytes w) words.now) (form_of name)
        ≡ Some (request_of c)) }
    ensures usage { result ≡ Err CommandError.Usage
        → request_by (map (λ w. string_bytes w) words.now) (form_of name) ≡ None }
    ensures ranges { IfOk result HasLimitsInRange }
{
    let matches = command_matches(alloc, name, words)?;
    command_from(alloc, name, &matches)
}
