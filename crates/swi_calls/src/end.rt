//! How a run ends: in an ending of its own, or broken off by a device.

use swi_exec::FaultKind;

/// How a run ends.
#[derive(Clone, Copy, Debug, PartialEq, Eq)]
pub enum End {
    /// The guest exited with this code.
    Exited(u32),
    /// An instruction faulted. The address is the target of a jump or that of an access, and for fetch-access,
    /// illegal and break the pc.
    Faulted(FaultKind, u32),
    /// An instruction would have stored into the text, by an access or a read's buffer that begins at this address.
    /// Only the cached machine ends so.
    StoreText(u32),
}

/// A device that failed in a system call.
#[derive(Clone, Copy, Debug, PartialEq, Eq)]
pub enum CallFault {
    /// The input failed.
    SourceFault,
    /// The output or the error sink failed.
    SinkFault,
}
