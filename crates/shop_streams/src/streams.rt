//! Where bytes come from and where they go: what is promised of a source and of a sink.

ghost use Rattle.std.specs.Prelude.{◌≡◌, ◌<◌, ◌≤◌, ℕ, List, Option, IfOk, length};
ghost use Rattle.std.specs.Io.KnownBytes.{ReadConsumes, WriteAppends};

use std::error::Error;
use std::fmt;

/// A read or a write failed.
#[derive(Clone, Copy, Debug, PartialEq, Eq)]
pub struct Failed;

impl fmt::Display for Failed {
    ghost use Rattle.std.specs.Prelude.{Some, codes};

    ghost output = { λ _. Some (codes "a read or a write failed") };

    fn fmt<W: fmt::Write>(&self, f: &mut fmt::Formatter<W>) -> fmt::Result {
        f.write_str("a read or a write failed")
    }
}

impl Error for Failed {}

/// Where bytes come from.
pub trait Source {
    ghost use Rattle.shop_streams.specs.Streams.{TalliesFailure, one_more};

    /// The bytes that are left, where the source reports them.
    ghost left: { Self → Option (List ℕ) };

    /// How often a read failed, up to the greatest number that is counted.
    ghost failed: { Self → ℕ };

    /// How often it was read, up to the greatest number that is counted.
    ghost reads: { Self → ℕ };

    /// Reads some of the bytes that are left; 0 means that there are none. An Err consumes nothing and raises the
    /// failures by one, unless they stand at 18446744073709551615; an Ok leaves them.
    fn read(&mut self, buffer: &mut [u8]) -> Result<usize, Failed>
        requires { 0 < length buffer.old }
        ensures within { IfOk result (λ count. count ≤ length buffer.old) }
        ensures bytes { ReadConsumes (left self.old) (left self.new) result buffer.new }
        ensures failures { TalliesFailure (failed self.old) result (failed self.new) }
        ensures reads { reads self.new ≡ one_more (reads self.old) };

    /// How often a read failed.
    fn failures(&self) -> u64
        ensures { result ≡ failed self.now };
}

/// Where bytes go.
pub trait Sink {
    ghost use Rattle.shop_streams.specs.Streams.{TalliesFailure};

    /// The bytes that were written, where the sink reports them.
    ghost held: { Self → Option (List ℕ) };

    /// How often a write failed, up to the greatest number that is counted.
    ghost failed: { Self → ℕ };

    /// Appends the first of the bytes, at least one, and returns how many. An Err appends nothing and raises the failures
    /// by one, unless they stand at 18446744073709551615; an Ok leaves them.
    fn write(&mut self, bytes: &[u8]) -> Result<usize, Failed>
        requires { 0 < length bytes.now }
        ensures some { IfOk result (λ count. 0 < count) }
        ensures within { IfOk result (λ count. count ≤ length bytes.now) }
        ensures bytes { WriteAppends (held self.old) (held self.new) result bytes.now }
        ensures failures { TalliesFailure (failed self.old) result (failed self.new) };

    /// How often a write failed.
    fn failures(&self) -> u64
        ensures { result ≡ failed self.now };
}
