//! One more piece of a request, read from a source.

ghost use Rattle.std.specs.Prelude.{◌≡◌, ◌⊎◌, ◌+◌, ◌++◌, ◌<◌, ◌≤◌, ℕ, List, length, IfErr, OnOk, Ok, Err, [], true, false};
ghost use Rattle.std.specs.Io.KnownBytes.{Consumes, IsAtEnd};
ghost use Rattle.shop_streams.specs.Streams.{HasFailed};
ghost use Rattle.shop_request.specs.declared.faults.StreamFault.TheVariants.{Read, NoMemory};

use crate::faults::StreamFault;
use shop_streams::Source;

const BUFFER_SIZE: usize = 8192;

/// Reads a piece more, and returns whether there was one.
pub(crate) fn read_piece<S: Source>(
    source: &mut S,
    received: &mut Vec<u8>,
) -> Result<bool, StreamFault>
    ensures kept { length received.old.items ≤ length received.new.items }
    ensures more { result ≡ Ok true → (piece : List ℕ) × (0 < length piece)
        × (received.new.items ≡ received.old.items ++ piece)
        × Consumes (S.left source.old) (S.left source.new) piece }
    ensures none { result ≡ Ok false → (received.new.items ≡ received.old.items)
        × IsAtEnd (S.left source.new) × Consumes (S.left source.old) (S.left source.new) [] }
    ensures fault { IfErr result
        (λ fault. (fault ≡ NoMemory) ⊎ (fault ≡ Read)
        × HasFailed (S.failed source.old) (S.failed source.new)) }
    ensures memory { result ≡ Err NoMemory → S.failed source.new ≡ S.failed source.old }
    ensures worked { OnOk result (S.failed source.new ≡ S.failed source.old) }
    ensures reads { S.reads source.new ≤ S.reads source.old + 1 }
{
    let mut piece = [0; BUFFER_SIZE];
    let Ok(count) = source.read(&mut piece) else {
        return Err(StreamFault::Read);
    };
    if count == 0 {
        return Ok(false);
    }
    match received.extend_from_slice(&piece[..count]) {
        Ok(()) => Ok(true),
        Err(_) => Err(StreamFault::NoMemory),
    }
}
