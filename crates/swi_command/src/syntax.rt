//! The commands as `clap` takes them, and its matches of the words.

ghost use Rattle.std.specs.Prelude.{◌≡◌, true, false, IfOk, IfErr, Some, None, map, string_bytes};
ghost use Rattle.clap.specs.Words.{app_of, rule_of, with_rule, kind_of, rows_of, found_of, is_simple_and_free};
ghost use Rattle.clap.specs.declared.error.kind.ErrorKind.TheVariants.{OutOfMemory};
ghost use Rattle.swi_command.specs.Arguments.{form_of, rule_of_argument};
ghost use Rattle.swi_command.specs.CommandLine.{app_by, matches_on};

use crate::CommandError;
use crate::argument::Argument;
use crate::name::CommandName;
use clap::error::ErrorKind;
use clap::{Arg, ArgAction, ArgMatches};
use std::alloc::Global;

/// The argument as `clap` takes it.
fn arg_of<'a>(alloc: Global, argument: Argument) -> Arg<'a>
    ensures rule { rule_of result ≡ rule_of_argument argument }
    ensures own { result.global ≡ false }
{
    let name: &'a str = argument.name();
    let arg = Arg::new(alloc, name);
    match argument {
        Argument::Positional(_) => arg.required(true),
        Argument::Further(_) => arg.required(false),
        Argument::Many(_) => arg.required(true).action(ArgAction::Append),
        Argument::Number(_) => arg.long(name).action(ArgAction::Set),
        Argument::Flag(_) => arg.long(name).action(ArgAction::SetTrue),
    }
}

type Built<'a> = Result<clap::Command<'a>, clap::Error>;

fn with_argument<'a>(alloc: Global, command: clap::Command<'a>, argument: Argument) -> Built<'a>
    ensures app { IfOk result (λ r. app_of r
        ≡ with_rule (app_of command.entry) (rule_of_argument argument)) }
    ensures err { IfErr result (λ e. kind_of e ≡ OutOfMemory) }
{
    Ok(command.arg(arg_of(alloc, argument))?)
}

/// The command as `clap` takes it.
fn built<'a>(alloc: Global, name: CommandName) -> Built<'a>
    ensures app { IfOk result (λ r. app_of r ≡ app_by (form_of name)) }
    ensures err { IfErr result (λ e. kind_of e ≡ OutOfMemory) }
{
    let word: &'a str = name.word();
    let mut command = clap::Command::new(alloc, word).disable_help_flag(true);
    for argument in name.arguments() {
        command = with_argument(alloc, command, *argument)?;
    }
    Ok(command)
}

/// The matches of the words, of which the first is the command's name.
fn matches_by<'a>(
    command: clap::Command<'a>,
    words: &'a [String],
) -> Result<ArgMatches<'a>, CommandError>
    ensures ok { is_simple_and_free (app_of command.entry) ≡ true
        → IfOk result (λ m. matches_on (app_of command.entry)
        (map (λ w. string_bytes w) words.entry.now) ≡ Some (rows_of (found_of m))) }
    ensures usage { is_simple_and_free (app_of command.entry) ≡ true
        → result ≡ Err CommandError.Usage → matches_on (app_of command.entry)
        (map (λ w. string_bytes w) words.entry.now) ≡ None }
{
    match command.try_get_matches_from(words) {
        Ok(matches) => Ok(matches),
        Err(error) if error.kind() == ErrorKind::OutOfMemory => Err(CommandError::Memory),
        Err(_) => Err(CommandError::Usage),
    }
}

/// The matches of words that begin with the command's name.
pub fn command_matches<'a>(
    alloc: Global,
    name: CommandName,
    words: &'a [String],
) -> Result<ArgMatches<'a>, CommandError>
    ensures ok { IfOk result (λ m. matches_on (app_by (form_of name))
        (map (λ w. string_bytes w) words.entry.now) ≡ Some (rows_of (found_of m))) }
    ensures usage { result ≡ Err CommandError.Usage → matches_on (app_by (form_of name))
        (map (λ w. string_bytes w) words.entry.now) ≡ None }
{
    let Ok(command) = built(alloc, name) else {
        return Err(CommandError::Memory);
    };
    matches_by(command, words)
}
