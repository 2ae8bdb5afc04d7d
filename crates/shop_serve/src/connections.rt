//! Connections that a server reads and writes without waiting, and sockets as such.

ghost use Rattle.std.specs.Prelude.{◌≡◌, ◌<◌, ◌≤◌, ℕ, List, Option, None, Err, length, IfOk, ⊤};
ghost use Rattle.shop_serve.specs.declared.connections.Stall.TheVariants.{Waits, Lost};
ghost use Rattle.std.specs.Io.KnownBytes.{ReadConsumes, WriteAppends};

use mio::net::TcpStream;
use std::io::{ErrorKind, Read, Write};
use std::net::Shutdown;

// How often a call is made that is interrupted each time.
const MAX_TRIES: u32 = 1000;

/// Why a call moved no byte.
#[derive(Clone, Copy, PartialEq, Eq)]
pub(crate) enum Stall {
    Waits,
    Lost,
}

/// A connection, read and written without waiting.
pub(crate) trait Connection {
    /// The input that is still to be read, if it is known.
    ghost remaining: { Self → Option (List ℕ) };

    /// The output that it took, if it is known.
    ghost contents: { Self → Option (List ℕ) };

    /// The end of its output was sent.
    ghost has_ended: { Self → Type 0 };

    /// No more input arrived so far.
    ghost is_drained: { Self → Type 0 };

    /// It takes no more output now.
    ghost is_full: { Self → Type 0 };

    /// It can't be read any more, or takes no more output.
    ghost is_lost: { Self → Type 0 };

    /// Reads the next bytes that arrived, or none at their end.
    fn read_some(&mut self, buffer: &mut [u8]) -> Result<usize, Stall>
        ensures within { IfOk result (λ count. count ≤ length buffer.old) }
        ensures long { length buffer.new ≡ length buffer.old }
        ensures bytes { ReadConsumes (remaining self.old) (remaining self.new) result buffer.new }
        ensures drained { result ≡ Err Waits → is_drained self.new }
        ensures lost { result ≡ Err Lost → is_lost self.new }
        ensures kept { contents self.new ≡ contents self.old }
        ensures ended { has_ended self.old → has_ended self.new };

    /// Lets it take a prefix of some bytes.
    fn write_some(&mut self, bytes: &[u8]) -> Result<usize, Stall>
        ensures within { IfOk result (λ count. count ≤ length bytes.now) }
        ensures some { IfOk result (λ count. 0 < count) }
        ensures bytes { WriteAppends (contents self.old) (contents self.new) result bytes.now }
        ensures full { result ≡ Err Waits → is_full self.new }
        ensures lost { result ≡ Err Lost → is_lost self.new }
        ensures kept { remaining self.new ≡ remaining self.old };

    /// Ends its output.
    fn end_writing(&mut self)
        ensures ended { has_ended self.new }
        ensures kept { contents self.new ≡ contents self.old };
}

impl Connection for TcpStream {
    ghost remaining = { λ _. None };

    ghost contents = { λ _. None };

    ghost has_ended = { λ _. ⊤ };

    ghost is_drained = { λ _. ⊤ };

    ghost is_full = { λ _. ⊤ };

    ghost is_lost = { λ _. ⊤ };

    // A call that is interrupted is made again.
    fn read_some(&mut self, buffer: &mut [u8]) -> Result<usize, Stall> {
        for _ in 0..MAX_TRIES {
            match self.read(buffer) {
                Ok(count) => return Ok(count),
                Err(error) => match error.kind() {
                    ErrorKind::Interrupted => (),
                    ErrorKind::WouldBlock => return Err(Stall::Waits),
                    _ => return Err(Stall::Lost),
                },
            }
        }
        Err(Stall::Lost)
    }

    // A call that is interrupted is made again. A socket that takes none of the bytes is lost.
    fn write_some(&mut self, bytes: &[u8]) -> Result<usize, Stall> {
        for _ in 0..MAX_TRIES {
            match self.write(bytes) {
                Ok(0) => return Err(Stall::Lost),
                Ok(count) => return Ok(count),
                Err(error) => match error.kind() {
                    ErrorKind::Interrupted => (),
                    ErrorKind::WouldBlock => return Err(Stall::Waits),
                    _ => return Err(Stall::Lost),
                },
            }
        }
        Err(Stall::Lost)
    }

    fn end_writing(&mut self) {
        let _ = self.shutdown(Shutdown::Write);
    }
}
