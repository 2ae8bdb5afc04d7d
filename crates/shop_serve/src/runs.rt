//! The run of a server, which distinguishes a restarted server from the one before.

ghost use Rattle.std.specs.Prelude.{IfOk, IfSome, string_bytes};
ghost use Rattle.shop_serve.specs.Runs.{IsRun};

use std::alloc::{AllocError, Global};
use std::random::RandomSource;

/// Draws a run: 16 hexadecimal digits from the system's random bytes, or none if the system gives no such bytes. The
/// only error is lack of memory.
pub fn draw_run<R: RandomSource>(rt: &R, alloc: Global) -> Result<Option<String>, AllocError>
    ensures { IfOk result (λ drawn. IfSome drawn (λ run. IsRun (string_bytes run))) }
{
    let mut bytes = [0u8; 8];
    if rt.fill_bytes(&mut bytes).is_err() {
        return Ok(None);
    }
    let run = hex::encode(alloc, bytes)?;
    Ok(Some(run))
}
