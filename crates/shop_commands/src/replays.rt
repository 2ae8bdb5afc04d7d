//! `cutshop replay`: answers lines over a new book in memory.

ghost use Rattle.std.specs.Prelude.{◌+◌, ◌≤◌, IfErr, OnOk};
ghost use Rattle.shop_wire.specs.Streams.{most_reads};
ghost use Rattle.shop_commands.specs.Performs.{IsReplayDone, IsReplayStopped};
ghost use Rattle.shop_commands.specs.Sinks.{change_of};
ghost use Rattle.shop_commands.specs.Sources.{source_change};

use crate::faults::Fault;
use shop_store::MemBook;
use shop_text::{Sink, Source};
use shop_wire::replay;
use std::alloc::Global;

/// Writes the replies to the lines of the input, over a new book in memory, whose store can't fail.
pub fn replay_fresh<S: Source, W: Sink>(
    alloc: Global,
    source: &mut S,
    sink: &mut W,
) -> Result<(), Fault>
    ensures ok { OnOk result (IsReplayDone (source_change S.Source source.old source.new)
        (change_of W.Sink sink.old sink.new)) }
    ensures err { IfErr result
        (λ f. IsReplayStopped f (source_change S.Source source.old source.new) (change_of W.Sink sink.old sink.new)) }
    ensures reads { S.reads source.new ≤ S.reads source.old + most_reads }
{
    let mut book = MemBook::new(alloc);
    match replay(alloc, source, sink, &mut book) {
        Ok(_) => Ok(()),
        Err(fault) => Err(Fault::from(fault)),
    }
}
