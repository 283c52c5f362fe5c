//! A source of bytes.

ghost use Rattle.std.specs.Prelude.{◌<◌, ◌^◌, length};
ghost use Rattle.std.specs.Io.{ReadsAtMost};
ghost use Rattle.trap_bank.specs.Faults.{HasCause};
ghost use Rattle.trap_bank.specs.Stream.{Stream, Takes};

use crate::Failed;

/// A source of bytes, taken in pieces.
pub trait Source {
    ghost stream: { Self → Stream };

    /// Places the next bytes at the front of `buf`, and answers how many. 0 is the end of the
    /// input.
    fn take(&mut self, buf: &mut [u8]) -> Result<usize, Failed>
        requires room { 0 < length buf.old }
        requires below { (stream self.old).given < 2 ^ 63 }
        ensures bound { ReadsAtMost result buf.new }
        ensures taken { Takes result buf.new (stream self.old) (stream self.new) }
        ensures cause { HasCause (stream self.old).faults (stream self.new).faults result };
}
