//! What words can ask for.

use swi_line::Trace;

/// The most that a run takes.
#[derive(Clone, Copy, Debug, PartialEq, Eq)]
pub struct RunLimits {
    /// The most steps that the run takes, at most 2^48.
    pub steps: u64,
    /// The heap's size in bytes, at most 67108864.
    pub heap: u32,
    /// The stack's size in bytes, 4096 to 16777216 and a multiple of 16.
    pub stack: u32,
}

/// What is written of a run.
#[derive(Clone, Copy, Debug, PartialEq, Eq)]
pub struct Reports {
    /// The state after the run.
    pub state: bool,
    /// A line for each system call.
    pub calls: bool,
    /// The counts after the run.
    pub stats: bool,
    /// Lines of steps.
    pub trace: Trace,
}

/// What a run needs besides the file.
#[derive(Clone, Copy, Debug, PartialEq, Eq)]
pub struct RunOptions {
    pub limits: RunLimits,
    pub reports: Reports,
}

/// The order in which programs that share a cache make their events, each of which is one original instruction.
#[derive(Clone, Copy, Debug, PartialEq, Eq)]
pub struct Schedule {
    /// The most events of all programs together.
    pub events: u32,
    /// The number that the order is made of.
    pub seed: u32,
}

/// What programs that share a cache need besides their files.
#[derive(Clone, Copy, Debug, PartialEq, Eq)]
pub struct ShareOptions {
    pub schedule: Schedule,
    /// The size of each program's heap in bytes, at most 67108864.
    pub heap: u32,
    /// The size of each program's stack in bytes, 4096 to 16777216 and a multiple of 16.
    pub stack: u32,
    /// The counts are written after the run.
    pub stats: bool,
}

/// How blocks stand in a cache.
#[derive(Clone, Copy, Debug, PartialEq, Eq)]
pub enum CacheKind {
    /// In slots of the longest block's words, one block in each.
    Slots,
    /// One behind the other, each with its own words; the oldest leave where a block is to stand.
    Ring,
}

/// A cache: its sizes, and how blocks stand in it.
#[derive(Clone, Copy, Debug, PartialEq, Eq)]
pub struct CacheOptions {
    /// The cache's size in bytes, 8 to 2^32 - 1.
    pub cache_bytes: u32,
    /// The size of a block in words, 2 to 1024.
    pub block_words: u32,
    pub kind: CacheKind,
}

/// `rewrite`: the input's program, cut into blocks, is put under the output's name.
#[derive(Debug, Drop, PartialEq, Eq)]
pub struct RewriteCommand {
    /// The name of the file that is read.
    pub input: String,
    /// The name of the file that is written.
    pub output: String,
    /// The most words of a block, 2 to 1024.
    pub block_words: u32,
    /// LR.W and its SC.W stand in one block where a block has room for them.
    pub whole_loops: bool,
}

/// `cached` and `trace`: a run of the file's program on the cached machine, with a trace or without one.
#[derive(Debug, Drop, PartialEq, Eq)]
pub struct CachedCommand {
    /// The file's name.
    pub file: String,
    pub cache: CacheOptions,
    pub options: RunOptions,
}

/// `plain`: a run of the file's program on the flat machine, which has no cache.
#[derive(Debug, Drop, PartialEq, Eq)]
pub struct PlainCommand {
    /// The file's name.
    pub file: String,
    pub options: RunOptions,
}

/// `list`: the blocks of the file's program are listed: those of its image, or, where it has none, those of the greedy cut.
#[derive(Debug, Drop, PartialEq, Eq)]
pub struct ListCommand {
    /// The file's name.
    pub file: String,
    /// The most words of a block that is cut, 2 to 1024.
    pub block_words: u32,
}

/// `check`: the file's image is checked against its text.
#[derive(Debug, Drop, PartialEq, Eq)]
pub struct CheckCommand {
    /// The file's name.
    pub file: String,
}

/// `upgrade`: the input with its image in the newest version is put under the output's name.
#[derive(Debug, Drop, PartialEq, Eq)]
pub struct UpgradeCommand {
    /// The name of the file that is read.
    pub input: String,
    /// The name of the file that is written.
    pub output: String,
}

/// `measure`: a run on the cached machine of a program that is made.
#[derive(Clone, Copy, Debug, PartialEq, Eq)]
pub struct MeasureCommand {
    /// The number that the program is made of.
    pub seed: u32,
    /// How many functions it has, 1 to 4096.
    pub functions: u32,
    pub cache: CacheOptions,
}

/// `share`: a run of several programs, which share a cache with slots.
#[derive(Debug, Drop, PartialEq, Eq)]
pub struct ShareCommand {
    /// The names of their files, two to eight.
    pub files: Vec<String>,
    pub cache: CacheOptions,
    pub options: ShareOptions,
}

/// `prefetch`: a run of the file's program on the cached machine, with slots, beside an engine that copies the next block.
#[derive(Debug, Drop, PartialEq, Eq)]
pub struct PrefetchCommand {
    /// The file's name.
    pub file: String,
    pub cache: CacheOptions,
    pub options: RunOptions,
    /// How many events of the engine come behind each machine step, at most 1024.
    pub rate: u32,
}

/// `survey`: a run of the file's program on the cached machine, once for many caches of the same cut.
#[derive(Debug, Drop, PartialEq, Eq)]
pub struct SurveyCommand {
    /// The file's name.
    pub file: String,
    /// The sizes of the caches in bytes: 1 to 64 of them, 8 to 2^32 - 1 each.
    pub sizes: Vec<u32>,
    /// The most words of a block, 2 to 1024.
    pub block_words: u32,
    pub kind: CacheKind,
    pub limits: RunLimits,
}

/// `profile`: a run of the file's program on the flat machine, of which is told how often it executed each word of its text.
#[derive(Debug, Drop, PartialEq, Eq)]
pub struct ProfileCommand {
    /// The file's name.
    pub file: String,
    pub limits: RunLimits,
}

/// What the words ask for.
#[derive(Debug, Drop, PartialEq, Eq)]
pub enum Command {
    Rewrite(RewriteCommand),
    Cached(CachedCommand),
    Plain(PlainCommand),
    List(ListCommand),
    Check(CheckCommand),
    Upgrade(UpgradeCommand),
    Measure(MeasureCommand),
    Share(ShareCommand),
    Prefetch(PrefetchCommand),
    Survey(SurveyCommand),
    Profile(ProfileCommand),
}

/// Why words give no command.
#[derive(Clone, Copy, Debug, PartialEq, Eq)]
pub enum CommandError {
    /// No command takes the words.
    Usage,
    /// Memory ran out, and the words are not judged.
    Memory,
}
