ghost use Rattle.swi_outside.specs.Sink.{SinkState, WasWritten};

use crate::Failed;

/// Output, byte after byte.
pub trait Sink {
    /// Its bytes, and its count of failed calls.
    ghost state: { Self → SinkState };

    /// Appends the whole piece. `Failed` appends a prefix of it.
    fn write(&mut self, piece: &[u8]) -> Result<(), Failed>
        ensures written { WasWritten (state self.old) (state self.new) result piece.now };
}
