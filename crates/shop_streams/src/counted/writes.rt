//! A writer as a sink: what a write takes, and when it counts as failed.

use crate::counted::{Counted, MAX_TRIES};
use crate::streams::{Failed, Sink};
use std::io::{ErrorKind, Write};

impl<W: Write> Sink for Counted<W> {
    ghost held = { λ s. W.contents s.inner };

    ghost failed = { λ s. s.failures };

    fn write(&mut self, bytes: &[u8]) -> Result<usize, Failed> {
        for _ in 0..MAX_TRIES {
            match self.inner.write(bytes) {
                Ok(0) => break,
                Ok(count) => return Ok(count),
                Err(error) => {
                    if error.kind() != ErrorKind::Interrupted {
                        break;
                    }
                }
            }
        }
        Err(self.fail())
    }

    fn failures(&self) -> u64 {
        self.failures
    }
}
