//! How an instruction ends.
#![tactic(auto)]

/// Why a run stops at an instruction, after the exceptions of the RISC-V privileged specification. A misaligned
/// load or store goes byte by byte, and a misaligned LR.W, SC.W or AMO is an access fault.
#[derive(Clone, Copy, PartialEq, Eq, Debug)]
pub enum FaultKind {
    /// A taken branch, JAL or JALR goes to an address that is not a multiple of 4.
    FetchMisaligned,
    /// No text word stands at the pc.
    FetchAccess,
    /// The word at the pc is no instruction.
    Illegal,
    /// EBREAK.
    Break,
    /// A load or LR.W from bytes that cannot be read, or a misaligned LR.W.
    LoadAccess,
    /// A store or SC.W to bytes that cannot be written, an AMO on bytes that cannot be both read and
    /// written, or a misaligned SC.W or AMO.
    StoreAccess,
}

/// What comes after an instruction.
#[derive(Clone, Copy, PartialEq, Eq, Debug)]
pub enum Done {
    /// The instruction at this address.
    Next(u32),
    /// The system call that ECALL asks for.
    Call,
    /// EBREAK stops the run.
    Break,
    /// A fault of this kind stops the run. It names an address: the target of a jump, or that of the
    /// access.
    Fault(FaultKind, u32),
}
