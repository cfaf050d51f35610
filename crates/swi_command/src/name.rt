//! The table of the commands: their names, and the arguments that each takes.

ghost use Rattle.std.specs.Prelude.{◌≡◌, map, option_map};
ghost use Rattle.swi_command.specs.Arguments.{form_of, rule_of_argument};
ghost use Rattle.swi_command.specs.CommandLine.{form_named};

use crate::argument::{Argument, Flag, NumberOption, Positional};

// The arguments that each command takes.
const REWRITE: &[Argument] = &[
    Argument::Positional(Positional::Input),
    Argument::Positional(Positional::Output),
    Argument::Number(NumberOption::Block),
    Argument::Flag(Flag::WholeLoops),
];

const CACHED: &[Argument] = &[
    Argument::Positional(Positional::File),
    Argument::Number(NumberOption::Steps),
    Argument::Number(NumberOption::Cache),
    Argument::Number(NumberOption::Block),
    Argument::Number(NumberOption::Heap),
    Argument::Number(NumberOption::Stack),
    Argument::Flag(Flag::Ring),
    Argument::Flag(Flag::State),
    Argument::Flag(Flag::Calls),
    Argument::Flag(Flag::Stats),
];

const PLAIN: &[Argument] = &[
    Argument::Positional(Positional::File),
    Argument::Number(NumberOption::Steps),
    Argument::Number(NumberOption::Heap),
    Argument::Number(NumberOption::Stack),
    Argument::Flag(Flag::State),
    Argument::Flag(Flag::Calls),
    Argument::Flag(Flag::Stats),
];

const TRACE: &[Argument] = &[
    Argument::Positional(Positional::File),
    Argument::Number(NumberOption::Steps),
    Argument::Number(NumberOption::Cache),
    Argument::Number(NumberOption::Block),
    Argument::Number(NumberOption::Heap),
    Argument::Number(NumberOption::Stack),
    Argument::Flag(Flag::Ring),
    Argument::Flag(Flag::Last),
];

const LISTING: &[Argument] = &[
    Argument::Positional(Positional::File),
    Argument::Number(NumberOption::Block),
];

const CHECK: &[Argument] = &[Argument::Positional(Positional::File)];

const UPGRADE: &[Argument] = &[
    Argument::Positional(Positional::Input),
    Argument::Positional(Positional::Output),
];

const MEASURE: &[Argument] = &[
    Argument::Positional(Positional::Seed),
    Argument::Positional(Positional::Count),
    Argument::Number(NumberOption::Cache),
    Argument::Number(NumberOption::Block),
    Argument::Flag(Flag::Ring),
];

const SHARE: &[Argument] = &[
    Argument::Positional(Positional::File1),
    Argument::Positional(Positional::File2),
    Argument::Further(Positional::File3),
    Argument::Further(Positional::File4),
    Argument::Further(Positional::File5),
    Argument::Further(Positional::File6),
    Argument::Further(Positional::File7),
    Argument::Further(Positional::File8),
    Argument::Number(NumberOption::Events),
    Argument::Number(NumberOption::Seed),
    Argument::Number(NumberOption::Cache),
    Argument::Number(NumberOption::Block),
    Argument::Number(NumberOption::Heap),
    Argument::Number(NumberOption::Stack),
    Argument::Flag(Flag::Stats),
];

const SURVEY: &[Argument] = &[
    Argument::Positional(Positional::File),
    Argument::Many(Positional::Sizes),
    Argument::Number(NumberOption::Steps),
    Argument::Number(NumberOption::Block),
    Argument::Number(NumberOption::Heap),
    Argument::Number(NumberOption::Stack),
    Argument::Flag(Flag::Ring),
];

const PROFILE: &[Argument] = &[
    Argument::Positional(Positional::File),
    Argument::Number(NumberOption::Steps),
    Argument::Number(NumberOption::Heap),
    Argument::Number(NumberOption::Stack),
];

const PREFETCH: &[Argument] = &[
    Argument::Positional(Positional::File),
    Argument::Number(NumberOption::Rate),
    Argument::Number(NumberOption::Steps),
    Argument::Number(NumberOption::Cache),
    Argument::Number(NumberOption::Block),
    Argument::Number(NumberOption::Heap),
    Argument::Number(NumberOption::Stack),
    Argument::Flag(Flag::State),
    Argument::Flag(Flag::Calls),
    Argument::Flag(Flag::Stats),
];

#[derive(Clone, Copy)]
pub enum CommandName {
    Rewrite,
    Cached,
    Plain,
    Trace,
    Listing,
    Check,
    Upgrade,
    Measure,
    Share,
    Prefetch,
    Survey,
    Profile,
}

impl CommandName {
    /// The command that the word names.
    pub fn named(word: &str) -> Option<CommandName>
        ensures { option_map form_of result ≡ form_named word.now }
    {
        match word {
            "rewrite" => Some(CommandName::Rewrite),
            "cached" => Some(CommandName::Cached),
            "plain" => Some(CommandName::Plain),
            "trace" => Some(CommandName::Trace),
            "list" => Some(CommandName::Listing),
            "check" => Some(CommandName::Check),
            "upgrade" => Some(CommandName::Upgrade),
            "measure" => Some(CommandName::Measure),
            "share" => Some(CommandName::Share),
            "prefetch" => Some(CommandName::Prefetch),
            "survey" => Some(CommandName::Survey),
            "profile" => Some(CommandName::Profile),
            _ => None,
        }
    }

    /// The word that names the command.
    pub fn word(self) -> &'static str
        ensures { result.now ≡ (form_of self).name }
    {
        match self {
            CommandName::Rewrite => "rewrite",
            CommandName::Cached => "cached",
            CommandName::Plain => "plain",
            CommandName::Trace => "trace",
            CommandName::Listing => "list",
            CommandName::Check => "check",
            CommandName::Upgrade => "upgrade",
            CommandName::Measure => "measure",
            CommandName::Share => "share",
            CommandName::Prefetch => "prefetch",
            CommandName::Survey => "survey",
            CommandName::Profile => "profile",
        }
    }

    /// The arguments that the command takes.
    pub fn arguments(self) -> &'static [Argument]
        ensures { map rule_of_argument result.now ≡ (form_of self).rules }
    {
        match self {
            CommandName::Rewrite => REWRITE,
            CommandName::Cached => CACHED,
            CommandName::Plain => PLAIN,
            CommandName::Trace => TRACE,
            CommandName::Listing => LISTING,
            CommandName::Check => CHECK,
            CommandName::Upgrade => UPGRADE,
            CommandName::Measure => MEASURE,
            CommandName::Share => SHARE,
            CommandName::Prefetch => PREFETCH,
            CommandName::Survey => SURVEY,
            CommandName::Profile => PROFILE,
        }
    }
}
