use std::snapshot::Snapshot;

/// The calls that were made to a ram, the last one first, each with its index, a fetch also with its word: what a ram
/// keeps of them, a snapshot, takes no bytes when it runs.
#[derive(Drop)]
pub enum RamCalls {
    None,
    Fetched(Snapshot<Snapshot<RamCalls>>, u32, u32),
    Set(Snapshot<Snapshot<RamCalls>>, u32),
}
