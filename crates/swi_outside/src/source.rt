ghost use Rattle.std.specs.Prelude.{◌<◌, length};
ghost use Rattle.std.specs.Io.{ReadsAtMost};
ghost use Rattle.swi_outside.specs.Source.{SourceState, WasRead};

use crate::Failed;

/// Input, byte after byte.
pub trait Source {
    /// The bytes that it gave, those that are left, and its count of failed calls.
    ghost state: { Self → SourceState };

    /// Puts the next bytes at the front of a buffer that is not empty, and answers how many: at most
    /// the buffer's length, and 0 where the input has ended. No byte comes behind its end.
    ///
    /// `Failed` takes nothing from the input. What the buffer holds behind these bytes, and all of it
    /// after `Failed`, is not said.
    fn read(&mut self, buf: &mut [u8]) -> Result<usize, Failed>
        requires { 0 < length buf.old }
        ensures bound { ReadsAtMost result buf.new }
        ensures read { WasRead (state self.old) (state self.new) result buf.new };
}
