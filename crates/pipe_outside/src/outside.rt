// Where bytes come from and go to. A fault is a call that failed; each object counts its own.
ghost use Rattle.std.specs.Prelude.{List, Option, ℕ};
ghost use Rattle.std.specs.Io.{ReadsAtMost};
ghost use Rattle.std.specs.Io.KnownBytes.{ReadConsumes, WriteAppends};
ghost use Rattle.pipe_outside.specs.Outside.{HasCause, WritesSome};

/// A call to the outside failed: a fault that the object counts.
#[derive(Clone, Copy, Debug, PartialEq, Eq)]
pub struct Failed;

/// A reader that ends.
pub trait Source {
    /// The bytes that are left, where the source tells.
    ghost left: { Self → Option (List ℕ) };

    /// How many calls have failed.
    ghost faults: { Self → ℕ };

    /// 0 for a buffer that is not empty is the end.
    fn read(&mut self, buf: &mut [u8]) -> Result<usize, Failed>
        ensures bound { ReadsAtMost result buf.new }
        ensures bytes { ReadConsumes (left self.old) (left self.new) result buf.new }
        ensures cause { HasCause (faults self.old) (faults self.new) result };
}

/// A writer. It takes at least one byte of a piece that is not empty, or fails.
pub trait Sink {
    /// The bytes written so far, where the sink tells.
    ghost written: { Self → Option (List ℕ) };

    /// How many calls have failed.
    ghost faults: { Self → ℕ };

    fn write(&mut self, bytes: &[u8]) -> Result<usize, Failed>
        ensures some { WritesSome bytes.now result }
        ensures bytes { WriteAppends (written self.old) (written self.new) result bytes.now }
        ensures cause { HasCause (faults self.old) (faults self.new) result };
}
