//! Why a text is not cut.
#![tactic(auto)]

/// Why a text is not cut.
#[derive(Clone, Copy, PartialEq, Eq, Debug)]
pub enum CutRefusal {
    /// The first text word that needs more words than a block may have: its address, and how many
    /// words it needs.
    Long { address: u32, needs: u32 },
    /// Memory ran out.
    Memory,
}
