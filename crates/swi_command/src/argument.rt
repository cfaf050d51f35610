//! The arguments of the commands: words by place, options with a number, and flags.

ghost use Rattle.std.specs.Prelude.{◌≡◌, ◌<◌};
ghost use Rattle.swi_command.specs.Arguments.{positional_name, form_of_number, flag_name, argument_name};

use crate::number::NumberRule;

/// A word by its place.
#[derive(Clone, Copy)]
pub enum Positional {
    File,
    Input,
    Output,
    Seed,
    Count,
    /// The first of several files, and the others in their order.
    File1,
    File2,
    File3,
    File4,
    File5,
    File6,
    File7,
    File8,
    /// The sizes of caches.
    Sizes,
}

/// An option with a number.
#[derive(Clone, Copy)]
pub enum NumberOption {
    Steps,
    Cache,
    Block,
    Heap,
    Stack,
    Events,
    Seed,
    Rate,
}

/// An option without a value.
#[derive(Clone, Copy)]
pub enum Flag {
    State,
    Calls,
    Stats,
    Last,
    Ring,
    WholeLoops,
}

/// What a command takes behind its name.
#[derive(Clone, Copy)]
pub enum Argument {
    /// A word that must be given.
    Positional(Positional),
    /// A word that may be given, behind those that must be.
    Further(Positional),
    /// One or more words, behind all others.
    Many(Positional),
    Number(NumberOption),
    Flag(Flag),
}

/// The rule of all numbers from `least` to `most`.
fn between(least: u64, most: u64) -> NumberRule
    ensures least { result.least ≡ least }
    ensures most { result.most ≡ most }
    ensures unit { result.unit ≡ 1 }
{
    NumberRule {
        least,
        most,
        unit: 1,
    }
}

impl Positional {
    pub fn name(self) -> &'static str
        ensures { result.now ≡ positional_name self }
    {
        match self {
            Positional::File => "FILE",
            Positional::Input => "IN",
            Positional::Output => "OUT",
            Positional::Seed => "SEED",
            Positional::Count => "COUNT",
            Positional::File1 => "FILE1",
            Positional::File2 => "FILE2",
            Positional::File3 => "FILE3",
            Positional::File4 => "FILE4",
            Positional::File5 => "FILE5",
            Positional::File6 => "FILE6",
            Positional::File7 => "FILE7",
            Positional::File8 => "FILE8",
            Positional::Sizes => "BYTES",
        }
    }
}

impl NumberOption {
    pub fn name(self) -> &'static str
        ensures { result.now ≡ (form_of_number self).name }
    {
        match self {
            NumberOption::Steps => "steps",
            NumberOption::Cache => "cache",
            NumberOption::Block => "block",
            NumberOption::Heap => "heap",
            NumberOption::Stack => "stack",
            NumberOption::Events => "events",
            NumberOption::Seed => "seed",
            NumberOption::Rate => "rate",
        }
    }

    /// Steps, bytes of the cache, words of a block, bytes of the heap and of the stack; events, the number that their order
    /// is made of, and events of an engine for each one of the hart.
    pub fn rule(self) -> NumberRule
        ensures least { result.least ≡ (form_of_number self).least }
        ensures most { result.most ≡ (form_of_number self).most }
        ensures unit { result.unit ≡ (form_of_number self).unit }
    {
        match self {
            NumberOption::Steps => between(0, 1 << 48),
            NumberOption::Cache => between(8, (1 << 32) - 1),
            NumberOption::Block => between(2, 1024),
            NumberOption::Heap => between(0, 67_108_864),
            NumberOption::Stack => NumberRule {
                least: 4096,
                most: 16_777_216,
                unit: 16,
            },
            NumberOption::Events => between(0, 4_294_967_295),
            NumberOption::Seed => between(0, 4_294_967_295),
            NumberOption::Rate => between(0, 1024),
        }
    }

    /// What stands where the words do not give it.
    pub fn default(self) -> u64
        ensures { result ≡ (form_of_number self).default }
    {
        match self {
            NumberOption::Steps => 1_000_000_000,
            NumberOption::Cache => 4096,
            NumberOption::Block => 64,
            NumberOption::Heap => 1_048_576,
            NumberOption::Stack => 65_536,
            NumberOption::Events => 1_000_000,
            NumberOption::Seed => 0,
            NumberOption::Rate => 1,
        }
    }
}

impl Flag {
    pub fn name(self) -> &'static str
        ensures { result.now ≡ flag_name self }
    {
        match self {
            Flag::State => "state",
            Flag::Calls => "calls",
            Flag::Stats => "stats",
            Flag::Last => "last",
            Flag::Ring => "ring",
            Flag::WholeLoops => "whole-loops",
        }
    }
}

impl Argument {
    pub fn name(self) -> &'static str
        ensures { result.now ≡ argument_name self }
    {
        match self {
            Argument::Positional(place) | Argument::Further(place) | Argument::Many(place) => {
                place.name()
            }
            Argument::Number(option) => option.name(),
            Argument::Flag(flag) => flag.name(),
        }
    }
}
