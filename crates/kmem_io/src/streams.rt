//! Sources and sinks. Each counts its faults, so that a caller's contract can say when it fails.

ghost use Rattle.std.specs.Prelude.{◌≡◌, ℕ, ◌<◌, ◌≤◌, List, length, take, IfOk, OnErr, Option};
ghost use Rattle.std.specs.Io.KnownBytes.{Appends, Consumes, Keeps, IsAtEnd};
ghost use Rattle.kmem_io.specs.Streams.{CanRise, CountsFaults};

/// A read or a write failed. The object that it failed at has counted a fault.
#[derive(Clone, Copy, Debug, PartialEq, Eq)]
pub struct Failed;

/// Where bytes come from. Its count of faults never falls.
pub trait Source {
    /// The bytes that are left, where the source tells them.
    ghost left: { Self → Option (List ℕ) };

    /// How often it has failed.
    ghost faults: { Self → ℕ };

    /// Gives the next bytes at the front of the buffer, and answers how many. With a buffer that isn't empty, 0 means
    /// the end of input. At `Failed` no byte was given.
    fn read(&mut self, buffer: &mut [u8]) -> Result<usize, Failed>
        requires { CanRise (faults self.old) }
        ensures within { IfOk result (λ n. n ≤ length buffer.new) }
        ensures given { IfOk result (λ n. Consumes (left self.old) (left self.new) (take n buffer.new)) }
        ensures end { IfOk result (λ n. n ≡ 0 → 0 < length buffer.new → IsAtEnd (left self.new)) }
        ensures kept { OnErr result (Keeps (left self.old) (left self.new)) }
        ensures counted { CountsFaults (faults self.old) (faults self.new) result };
}

/// Where bytes go. Its count of faults never falls.
pub trait Sink {
    /// The bytes that were written, where the sink tells them.
    ghost written: { Self → Option (List ℕ) };

    /// How often it has failed.
    ghost faults: { Self → ℕ };

    /// Appends bytes from the front of the piece, and answers how many: at least one of a piece that isn't empty. At
    /// `Failed` nothing was appended.
    fn write(&mut self, piece: &[u8]) -> Result<usize, Failed>
        requires { CanRise (faults self.old) }
        ensures within { IfOk result (λ n. n ≤ length piece.now) }
        ensures some { IfOk result (λ n. 0 < length piece.now → 0 < n) }
        ensures appended { IfOk result (λ n. Appends (written self.old) (written self.new) (take n piece.now)) }
        ensures kept { OnErr result (Keeps (written self.old) (written self.new)) }
        ensures counted { CountsFaults (faults self.old) (faults self.new) result };
}
