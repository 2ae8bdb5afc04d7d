//! A reader as a source: what a read brings, and when it counts as failed.

use crate::counted::{Counted, MAX_TRIES};
use crate::streams::{Failed, Source};
use std::io::{ErrorKind, Read};

impl<R: Read> Source for Counted<R> {
    ghost left = { λ s. R.remaining s.inner };

    ghost failed = { λ s. s.failures };

    ghost reads = { λ s. s.reads };

    fn read(&mut self, buffer: &mut [u8]) -> Result<usize, Failed> {
        self.reads = self.reads.saturating_add(1);
        for _ in 0..MAX_TRIES {
            match self.inner.read(buffer) {
                Ok(count) => return Ok(count),
                Err(error) => {
                    if error.kind() != ErrorKind::Interrupted {
                        break;
                    }
                }
            }
        }
        Err(self.fail())
    }

    fn failures(&self) -> u64 {
        self.failures
    }
}
