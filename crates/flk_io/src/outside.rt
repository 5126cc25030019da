// What the program asks of the outside.
ghost use Rattle.std.specs.Prelude.{◌<◌, length};
ghost use Rattle.flk_io.specs.Causes.{HasCause, Takes, Adds};
ghost use Rattle.flk_io.specs.Told.{ShelfTold, SinkTold, OnlyReads, OnlyAppends, ReadsUnder, AppendsUnder};

/// A call of the outside failed.
#[derive(Clone, Copy, Debug, PartialEq, Eq)]
pub struct Failed;

/// Named files, to read from their start and to add to at their end.
pub trait Shelf {
    /// What it tells of its names, and how many of its calls failed.
    ghost told: { Self → ShelfTold };

    /// Reads the next bytes under a name into the front of `buf`, and answers how many, at most
    /// `buf.len()`. 0 is the end of what is left. `Failed` took nothing.
    fn read(&mut self, name: &str, buf: &mut [u8]) -> Result<usize, Failed>
        requires { 0 < length buf.old }
        ensures takes { Takes ((told self.old).left name.now) ((told self.new).left name.now) result buf.new }
        ensures others { ReadsUnder name.now (told self.old) (told self.new) }
        ensures only_reads { OnlyReads (told self.old) (told self.new) }
        ensures cause { HasCause (told self.old).read_faults (told self.new).read_faults result };

    /// Adds a front of the bytes under a name, at least one, and answers how many. `Failed` added
    /// nothing.
    fn append(&mut self, name: &str, bytes: &[u8]) -> Result<usize, Failed>
        requires { 0 < length bytes.now }
        ensures adds { Adds ((told self.old).added name.now) ((told self.new).added name.now) result bytes.now }
        ensures others { AppendsUnder name.now (told self.old) (told self.new) }
        ensures only_appends { OnlyAppends (told self.old) (told self.new) }
        ensures cause { HasCause (told self.old).append_faults (told self.new).append_faults result };
}

/// Where the program's text goes.
pub trait Sink {
    /// What was written, and how many writes failed.
    ghost told: { Self → SinkTold };

    /// Writes a front of the bytes, at least one, and answers how many. `Failed` wrote nothing.
    fn write(&mut self, bytes: &[u8]) -> Result<usize, Failed>
        requires { 0 < length bytes.now }
        ensures adds { Adds (told self.old).written (told self.new).written result bytes.now }
        ensures cause { HasCause (told self.old).faults (told self.new).faults result };
}
