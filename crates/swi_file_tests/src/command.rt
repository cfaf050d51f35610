use self::Said::*;
use std::alloc::Global;
use std::test::Fail;
use swi_command::CacheKind::{self, Ring, Slots};
use swi_command::{CacheOptions, Command, CommandError, Reports, RunLimits, parse_command};
use swi_line::Trace;

/// A cache's bytes, the most words of its blocks, and its kind.
type Cache = (u32, u32, CacheKind);

/// The most steps of a run, and the bytes of its heap and of its stack.
type Limits = (u64, u32, u32);

/// What a line is read as: a command with its files and numbers, or a refusal. The names of shared files stand in brackets.
#[derive(Clone, Copy, PartialEq, Debug)]
enum Said<'a> {
    Refused(CommandError),
    /// The input, the output, the most words of a block, and whether loops stay whole.
    Rewrite(&'a str, &'a str, u32, bool),
    Cached(&'a str, Cache, Limits, Reports),
    Plain(&'a str, Limits, Reports),
    Listing(&'a str, u32),
    Check(&'a str),
    Upgrade(&'a str, &'a str),
    /// The seed, and how many functions.
    Measure(u32, u32, Cache),
    /// The events and the seed, the bytes of each heap and stack, and whether counts are written.
    Share(&'a str, Cache, (u32, u32), (u32, u32), bool),
    /// The rate of the engine behind the cache.
    Prefetch(&'a str, Cache, u32, Limits, Reports),
    /// The caches' bytes, the most words of their blocks, and their kind.
    Survey(&'a str, &'a [u32], u32, CacheKind, Limits),
    Profile(&'a str, Limits),
}

const USAGE: Said<'static> = Refused(CommandError::Usage);

const QUIET: Reports = Reports {
    state: false,
    calls: false,
    stats: false,
    trace: Trace::Off,
};

const STATE: Reports = Reports {
    state: true,
    ..QUIET
};

const CALLS: Reports = Reports {
    calls: true,
    ..QUIET
};

const STATS: Reports = Reports {
    stats: true,
    ..QUIET
};

const STATE_CALLS: Reports = Reports {
    state: true,
    ..CALLS
};

const STATE_STATS: Reports = Reports {
    state: true,
    ..STATS
};

const EACH: Reports = Reports {
    trace: Trace::Each,
    ..QUIET
};

const LAST: Reports = Reports {
    trace: Trace::Last,
    ..QUIET
};

/// The words of a line, where EMPTY stands for the empty word. A line without words has none.
fn words_of(alloc: Global, line: &str) -> Result<Vec<String>, Fail> {
    let mut words: Vec<String> = Vec::new(alloc);
    for word in line.split_ascii_whitespace() {
        let word = if word == "EMPTY" { "" } else { word };
        words.push(word.to_string(alloc)?)?;
    }
    Ok(words)
}

/// The names of shared files in brackets, and of other commands none.
fn names_of(alloc: Global, read: &Result<Command, CommandError>) -> Result<String, Fail> {
    let mut names = String::new(alloc);
    if let Ok(Command::Share(command)) = read {
        for file in command.files.as_slice() {
            names.push_str("[")?;
            names.push_str(file.as_str())?;
            names.push_str("]")?;
        }
    }
    Ok(names)
}

fn cache_of(cache: &CacheOptions) -> Cache {
    (cache.cache_bytes, cache.block_words, cache.kind)
}

fn limits_of(limits: &RunLimits) -> Limits {
    (limits.steps, limits.heap, limits.stack)
}

fn said_by<'a>(command: &'a Command, names: &'a str) -> Said<'a> {
    match command {
        Command::Rewrite(c) => {
            Rewrite(
                c.input.as_str(),
                c.output.as_str(),
                c.block_words,
                c.whole_loops,
            )
        }
        Command::Cached(c) => Cached(
            c.file.as_str(),
            cache_of(&c.cache),
            limits_of(&c.options.limits),
            c.options.reports,
        ),
        Command::Plain(c) => Plain(
            c.file.as_str(),
            limits_of(&c.options.limits),
            c.options.reports,
        ),
        Command::List(c) => Listing(c.file.as_str(), c.block_words),
        Command::Check(c) => Check(c.file.as_str()),
        Command::Upgrade(c) => Upgrade(c.input.as_str(), c.output.as_str()),
        Command::Measure(c) => Measure(c.seed, c.functions, cache_of(&c.cache)),
        Command::Share(c) => Share(
            names,
            cache_of(&c.cache),
            (c.options.schedule.events, c.options.schedule.seed),
            (c.options.heap, c.options.stack),
            c.options.stats,
        ),
        Command::Prefetch(c) => Prefetch(
            c.file.as_str(),
            cache_of(&c.cache),
            c.rate,
            limits_of(&c.options.limits),
            c.options.reports,
        ),
        Command::Profile(c) => Profile(c.file.as_str(), limits_of(&c.limits)),
        Command::Survey(c) => Survey(
            c.file.as_str(),
            c.sizes.as_slice(),
            c.block_words,
            c.kind,
            limits_of(&c.limits),
        ),
    }
}

/// Lines of words, and how each is read.
static LINES: [(&str, Said<'static>); 188] = [
    // One to 64 sizes, as `--cache` takes them.
    (
        "survey A 256",
        Survey("A", &[256], 64, Slots, (1000000000, 1048576, 65536)),
    ),
    (
        "survey A 0256 8 --ring --block 2 4294967295",
        Survey(
            "A",
            &[256, 8, 4294967295],
            2,
            Ring,
            (1000000000, 1048576, 65536),
        ),
    ),
    ("survey A", USAGE),
    ("survey A 7", USAGE),
    ("survey A 256 4294967296", USAGE),
    ("survey A 256 --stats", USAGE),
    ("profile A", Profile("A", (1000000000, 1048576, 65536))),
    (
        "profile --steps 0 A --heap=8 --stack 4096",
        Profile("A", (0, 8, 4096)),
    ),
    ("profile", USAGE),
    ("profile A B", USAGE),
    ("profile A --stats", USAGE),
    // Options stand before and after the file, in both forms.
    (
        "cached --steps 4 A --state",
        Cached("A", (4096, 64, Slots), (4, 1048576, 65536), STATE),
    ),
    (
        "cached A --state --steps=4",
        Cached("A", (4096, 64, Slots), (4, 1048576, 65536), STATE),
    ),
    (
        "plain --heap 0 A --calls --stack=4096",
        Plain("A", (1000000000, 0, 4096), CALLS),
    ),
    (
        "cached A",
        Cached("A", (4096, 64, Slots), (1000000000, 1048576, 65536), QUIET),
    ),
    ("plain A", Plain("A", (1000000000, 1048576, 65536), QUIET)),
    (
        "plain A --stack 4112 --calls --state",
        Plain("A", (1000000000, 1048576, 4112), STATE_CALLS),
    ),
    // Nothing may be given twice.
    ("cached A --steps 4 --steps 5", USAGE),
    ("cached A --steps 4 --steps=4", USAGE),
    ("cached A --state --state", USAGE),
    ("cached A B", USAGE),
    // A number is 1 to 19 decimal digits in its range.
    ("cached A --steps +4", USAGE),
    ("cached A --steps 0x4", USAGE),
    ("cached A --steps 4k", USAGE),
    ("cached A --steps EMPTY", USAGE),
    ("cached A --steps=", USAGE),
    (
        "cached A --steps 0000000000000000004",
        Cached("A", (4096, 64, Slots), (4, 1048576, 65536), QUIET),
    ),
    ("cached A --steps 00000000000000000004", USAGE),
    ("cached A --steps 9999999999999999999", USAGE),
    (
        "cached A --steps 281474976710656",
        Cached(
            "A",
            (4096, 64, Slots),
            (281474976710656, 1048576, 65536),
            QUIET,
        ),
    ),
    ("cached A --steps 281474976710657", USAGE),
    (
        "cached A --heap 67108864",
        Cached("A", (4096, 64, Slots), (1000000000, 67108864, 65536), QUIET),
    ),
    ("cached A --heap 67108865", USAGE),
    ("cached A --stack 4104", USAGE),
    ("cached A --stack 4080", USAGE),
    (
        "cached A --stack 16777216",
        Cached(
            "A",
            (4096, 64, Slots),
            (1000000000, 1048576, 16777216),
            QUIET,
        ),
    ),
    ("cached A --stack 16777232", USAGE),
    // The cache and its blocks.
    (
        "cached A --cache 8 --block=2 --stats",
        Cached("A", (8, 2, Slots), (1000000000, 1048576, 65536), STATS),
    ),
    (
        "cached --cache=4294967295 A --block 1024",
        Cached(
            "A",
            (4294967295, 1024, Slots),
            (1000000000, 1048576, 65536),
            QUIET,
        ),
    ),
    ("cached A --cache 7", USAGE),
    ("cached A --cache 4294967296", USAGE),
    ("cached A --block 1", USAGE),
    ("cached A --block 1025", USAGE),
    ("cached A --cache 8 --cache 8", USAGE),
    ("cached A --stats --stats", USAGE),
    ("cached A --stats=1", USAGE),
    (
        "plain --stats A --state",
        Plain("A", (1000000000, 1048576, 65536), STATE_STATS),
    ),
    ("plain A --cache 4096", USAGE),
    ("plain A --block 64", USAGE),
    // Two files stand in their order.
    ("rewrite A B", Rewrite("A", "B", 64, false)),
    ("rewrite --block 8 A B", Rewrite("A", "B", 8, false)),
    ("rewrite B --block=1024 A", Rewrite("B", "A", 1024, false)),
    ("rewrite A -- --block", Rewrite("A", "--block", 64, false)),
    ("rewrite A", USAGE),
    ("rewrite A B C", USAGE),
    ("rewrite A B --block 8 --block 8", USAGE),
    ("rewrite A B --block=1", USAGE),
    ("rewrite A B --cache 4096", USAGE),
    ("rewrite A B --state", USAGE),
    ("upgrade A B", Upgrade("A", "B")),
    ("upgrade -- -A EMPTY", Upgrade("-A", "")),
    ("upgrade A", USAGE),
    ("upgrade A B --block 64", USAGE),
    // Two numbers stand in their order, each in its range.
    ("measure 1 2", Measure(1, 2, (4096, 64, Slots))),
    (
        "measure 7 2048 --cache 2048",
        Measure(7, 2048, (2048, 64, Slots)),
    ),
    ("measure --block=5 0 0001", Measure(0, 1, (4096, 5, Slots))),
    (
        "measure 4294967295 4096",
        Measure(4294967295, 4096, (4096, 64, Slots)),
    ),
    ("measure -- 1 2", Measure(1, 2, (4096, 64, Slots))),
    ("measure 4294967296 1", USAGE),
    ("measure 1 0", USAGE),
    ("measure 1 4097", USAGE),
    ("measure 1", USAGE),
    ("measure", USAGE),
    ("measure 1 2 3", USAGE),
    ("measure +1 2", USAGE),
    ("measure -1 2", USAGE),
    ("measure -- -1 2", USAGE),
    ("measure 0x1 2", USAGE),
    ("measure 1 A", USAGE),
    ("measure 1 EMPTY", USAGE),
    ("measure 1 2 --cache 7", USAGE),
    ("measure 1 2 --block 1", USAGE),
    ("measure 1 2 --steps 4", USAGE),
    ("measure 1 2 --stats", USAGE),
    // A command may take no option.
    ("check A", Check("A")),
    ("check -- -A", Check("-A")),
    ("check A B", USAGE),
    ("check", USAGE),
    ("check A --steps 4", USAGE),
    ("check A --stats", USAGE),
    ("list A", Listing("A", 64)),
    ("list --block 8 A", Listing("A", 8)),
    ("list A --block 1025", USAGE),
    ("list A --cache 64", USAGE),
    ("list", USAGE),
    // A trace takes the limits and its flag.
    (
        "trace A",
        Cached("A", (4096, 64, Slots), (1000000000, 1048576, 65536), EACH),
    ),
    (
        "trace --last A --steps 2 --block=16",
        Cached("A", (4096, 16, Slots), (2, 1048576, 65536), LAST),
    ),
    (
        "trace A --cache 8 --heap 0 --stack 4096",
        Cached("A", (8, 64, Slots), (1000000000, 0, 4096), EACH),
    ),
    ("trace", USAGE),
    ("trace A B", USAGE),
    ("trace A --last --last", USAGE),
    ("trace A --last=1", USAGE),
    ("trace A --steps +1", USAGE),
    ("trace A --state", USAGE),
    ("trace A --calls", USAGE),
    ("trace A --stats", USAGE),
    ("cached A --last", USAGE),
    ("plain A --last", USAGE),
    // A ring and whole loops are flags.
    (
        "cached A --ring",
        Cached("A", (4096, 64, Ring), (1000000000, 1048576, 65536), QUIET),
    ),
    (
        "trace --ring A --last",
        Cached("A", (4096, 64, Ring), (1000000000, 1048576, 65536), LAST),
    ),
    (
        "measure 1 2 --ring --cache 64 --block 8",
        Measure(1, 2, (64, 8, Ring)),
    ),
    ("rewrite A B --whole-loops", Rewrite("A", "B", 64, true)),
    (
        "rewrite --whole-loops --block 8 A B",
        Rewrite("A", "B", 8, true),
    ),
    ("cached A --ring --ring", USAGE),
    ("cached A --ring=1", USAGE),
    ("cached A --whole-loops", USAGE),
    ("rewrite A B --whole-loops --whole-loops", USAGE),
    ("rewrite A B --ring", USAGE),
    ("plain A --ring", USAGE),
    ("list A --ring", USAGE),
    // A value that begins with `-` is taken only behind `=`, and then is no number.
    ("cached A --steps -4", USAGE),
    ("cached A --steps=-4", USAGE),
    ("cached A --steps", USAGE),
    ("cached A --steps --", USAGE),
    ("cached A --steps --state", USAGE),
    ("cached A --state=true", USAGE),
    ("cached A --state true", USAGE),
    // `--` ends the options.
    (
        "plain -- A",
        Plain("A", (1000000000, 1048576, 65536), QUIET),
    ),
    (
        "plain --state -- --calls",
        Plain("--calls", (1000000000, 1048576, 65536), STATE),
    ),
    (
        "plain -- -- ",
        Plain("--", (1000000000, 1048576, 65536), QUIET),
    ),
    ("plain -- A --state", USAGE),
    ("plain --", USAGE),
    // `-` and the empty word are names of files; other words with a dash are options.
    (
        "cached -",
        Cached("-", (4096, 64, Slots), (1000000000, 1048576, 65536), QUIET),
    ),
    (
        "cached EMPTY",
        Cached("", (4096, 64, Slots), (1000000000, 1048576, 65536), QUIET),
    ),
    ("cached -A", USAGE),
    ("cached A -1", USAGE),
    // An option's name is written whole.
    ("cached A --step 4", USAGE),
    ("cached A --stat", USAGE),
    ("cached A --STEPS 4", USAGE),
    // There is no help and no version.
    ("cached -h", USAGE),
    ("cached --help", USAGE),
    ("cached A --help", USAGE),
    ("cached A -V", USAGE),
    ("cached A --version", USAGE),
    (
        "cached help",
        Cached(
            "help",
            (4096, 64, Slots),
            (1000000000, 1048576, 65536),
            QUIET,
        ),
    ),
    ("--help", USAGE),
    ("help", USAGE),
    // The first word is the name of a command, written whole.
    ("", USAGE),
    ("EMPTY A", USAGE),
    ("cache A", USAGE),
    ("Cached A", USAGE),
    ("--state cached A", USAGE),
    ("cached", USAGE),
    ("plain --state", USAGE),
    // Two to eight files, and options anywhere.
    (
        "share A B",
        Share(
            "[A][B]",
            (4096, 64, Slots),
            (1000000, 0),
            (1048576, 65536),
            false,
        ),
    ),
    (
        "share A B C D E F G H --stats",
        Share(
            "[A][B][C][D][E][F][G][H]",
            (4096, 64, Slots),
            (1000000, 0),
            (1048576, 65536),
            true,
        ),
    ),
    (
        "share --events 0 A --seed=7 B --heap 0 --stack 4096 C",
        Share("[A][B][C]", (4096, 64, Slots), (0, 7), (0, 4096), false),
    ),
    (
        "share A A --block 8 --cache 32",
        Share(
            "[A][A]",
            (32, 8, Slots),
            (1000000, 0),
            (1048576, 65536),
            false,
        ),
    ),
    (
        "share A -- --seed",
        Share(
            "[A][--seed]",
            (4096, 64, Slots),
            (1000000, 0),
            (1048576, 65536),
            false,
        ),
    ),
    (
        "share A B --events 4294967295 --seed 4294967295",
        Share(
            "[A][B]",
            (4096, 64, Slots),
            (4294967295, 4294967295),
            (1048576, 65536),
            false,
        ),
    ),
    ("share A B --events 4294967296", USAGE),
    ("share A B --seed 4294967296", USAGE),
    ("share A B --seed -1", USAGE),
    ("share", USAGE),
    ("share A", USAGE),
    ("share A --stats", USAGE),
    ("share A B C D E F G H I", USAGE),
    ("share A B --events 1 --events 1", USAGE),
    ("share A B --steps 4", USAGE),
    ("share A B --ring", USAGE),
    ("share A B --state", USAGE),
    ("share A B --calls", USAGE),
    ("share A B --cache 7", USAGE),
    ("share A B --stack 4104", USAGE),
    // An engine has a rate.
    (
        "prefetch A",
        Prefetch(
            "A",
            (4096, 64, Slots),
            1,
            (1000000000, 1048576, 65536),
            QUIET,
        ),
    ),
    (
        "prefetch --rate 5 A --block 5 --cache=60 --stats",
        Prefetch("A", (60, 5, Slots), 5, (1000000000, 1048576, 65536), STATS),
    ),
    (
        "prefetch A --rate=0 --state --calls",
        Prefetch(
            "A",
            (4096, 64, Slots),
            0,
            (1000000000, 1048576, 65536),
            STATE_CALLS,
        ),
    ),
    (
        "prefetch A --rate 1024 --steps 4",
        Prefetch("A", (4096, 64, Slots), 1024, (4, 1048576, 65536), QUIET),
    ),
    ("prefetch A --rate 1025", USAGE),
    ("prefetch A --rate", USAGE),
    ("prefetch A --rate 1 --rate 1", USAGE),
    ("prefetch A --ring", USAGE),
    ("prefetch A --last", USAGE),
    ("prefetch A --seed 1", USAGE),
    ("prefetch A B", USAGE),
    ("prefetch", USAGE),
    ("cached A --rate 1", USAGE),
    ("cached A --events 1", USAGE),
];

#[test]
fn lines_are_read_or_refused(rt: HostRuntime) -> Result<(), Fail> {
    for &(line, wanted) in LINES.iter() {
        let words = words_of(rt.alloc(), line)?;
        let read = parse_command(rt.alloc(), words.as_slice());
        let names = names_of(rt.alloc(), &read)?;
        let said = match &read {
            Ok(command) => said_by(command, names.as_str()),
            Err(error) => Refused(*error),
        };
        assert_eq!(rt; said, wanted, "{line}");
    }
    Ok(())
}
