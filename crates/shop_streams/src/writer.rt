//! Bytes written to the last.

ghost use Rattle.std.specs.Prelude.{◌≡◌, ◌++◌, ℕ, List, OnErr, OnOk};
ghost use Rattle.std.specs.Io.KnownBytes.{Appends};
ghost use Rattle.shop_streams.specs.Streams.{HasFailed};

use crate::streams::{Failed, Sink};

/// Writes bytes to the last. After an Err the first of them were written.
pub fn write_all<W: Sink>(sink: &mut W, bytes: &[u8]) -> Result<(), Failed>
    ensures ok { OnOk result (Appends (W.held sink.old) (W.held sink.new) bytes.now) }
    ensures err { OnErr result
        ((done : List ℕ) × (rest : List ℕ) × (done ++ rest ≡ bytes.now)
        × Appends (W.held sink.old) (W.held sink.new) done) }
    ensures failed { OnErr result (HasFailed (W.failed sink.old) (W.failed sink.new)) }
    ensures worked { OnOk result (W.failed sink.new ≡ W.failed sink.old) }
{
    let mut rest = bytes;
    while !rest.is_empty() {
        let count = sink.write(rest)?;
        rest = &rest[count..];
    }
    Ok(())
}
