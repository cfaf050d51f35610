//! The rights of an area.
#![tactic(auto)]

ghost use Rattle.std.specs.Prelude.{◌≡◌};
ghost use Rattle.swi_memory.specs.Rights.{grants};

/// What an access needs: the right to read, to write or to execute.
#[derive(Clone, Copy, PartialEq, Eq, Debug)]
pub enum Right {
    /// PF_R, which is 4.
    Read,
    /// PF_W, which is 2.
    Write,
    /// PF_X, which is 1.
    Execute,
}

impl Right {
    /// Whether flags, the sum of 4 (read), 2 (write) and 1 (execute), grant this right.
    #[inline(always)]
    pub fn grants(self, flags: u32) -> bool
        ensures { result ≡ grants self flags }
    {
        match self {
            Right::Read => flags >> 2 & 1 == 1,
            Right::Write => flags >> 1 & 1 == 1,
            Right::Execute => flags & 1 == 1,
        }
    }
}
