//! A source over any reader and a sink over any writer, which count what fails.

ghost use Rattle.std.specs.Prelude.{◌≡◌};
ghost use Rattle.shop_streams.specs.Streams.{one_more};

mod reads;
mod writes;

use crate::streams::Failed;
use std::marker::Model;

const MAX_TRIES: u32 = 1000;

/// A source over any reader, or a sink over any writer: it reports the bytes that the reader or the writer reports. An
/// error, Interrupted 1000 times in a row, and a write that takes 0 bytes are failures.
#[derive(Drop)]
pub struct Counted<T> {
    inner: T,
    failures: u64,
    // read by proofs alone
    reads: u64,
}

impl<T> Model for Counted<T> {
    ghost use Rattle.shop_streams.specs.Streams.{Tally};

    ghost Value = { Tally T };

    ghost view = { λ c. record { inner = c.inner; failures = c.failures; reads = c.reads } };
}

impl<T> Counted<T> {
    /// Nothing has failed yet, and nothing was read.
    pub fn new(inner: T) -> Self
        ensures inner { result.inner ≡ inner }
        ensures none { result.failures ≡ 0 }
        ensures unread { result.reads ≡ 0 }
    {
        Counted {
            inner,
            failures: 0,
            reads: 0,
        }
    }

    // Counts a failure.
    fn fail(&mut self) -> Failed
        ensures inner { self.new.inner ≡ self.old.inner }
        ensures failures { self.new.failures ≡ one_more self.old.failures }
        ensures reads { self.new.reads ≡ self.old.reads }
    {
        self.failures = self.failures.saturating_add(1);
        Failed
    }
}
