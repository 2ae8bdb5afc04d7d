//! What no line asks of a book.

ghost use Rattle.std.specs.Prelude.{⊤};

use crate::lines::answered;
use crate::messages::{MESSAGES, send};
use anyhow::{Error, Result};
use cut_measure::{Code, PartName};
use shop_records::{Part, PartVisitor, State, no_totals};
use shop_store::{Book, MemBook};
use std::alloc::Global;

/// A copy of a book equals it, up to the next message.
pub fn compare_copies(alloc: Global) -> Result<()> {
    let mut book = MemBook::new(alloc);
    send(alloc, &mut book, 4)?;
    let copy = book.copy(alloc)?;
    if book != copy {
        return Err(Error::msg("a copy is another book"));
    }
    answered(alloc, &mut book, MESSAGES[4])?;
    if book == copy {
        return Err(Error::msg("a message changes no book"));
    }
    Ok(())
}

// Keeps the names of the parts that it looks at, and asks for so many.
#[derive(Drop)]
struct Names {
    names: Vec<PartName>,
    most: usize,
    has_memory: bool,
}

impl PartVisitor for Names {
    ghost looks = { λ _ _ _ _. ⊤ };

    fn part(&mut self, part: &Part) -> bool {
        self.has_memory = self.names.push(part.name).is_ok();
        self.has_memory && self.names.len() < self.most
    }
}

// A material and two bars of it.
const BARS: &str =
    r#"{"do":"material","kerf":3,"kind":"bar","material":"IRON","min_long":20,"min_short":1,"number":1,"terminal":1}
{"batch":"B-1","count":2,"do":"receive","h":1,"material":"IRON","number":2,"terminal":1,"w":100}
"#;

/// The first of the parts are handed out, in order, up to the one at which the visitor stops.
pub fn stop_visits(alloc: Global) -> Result<()> {
    let mut book = MemBook::new(alloc);
    answered(alloc, &mut book, BARS)?;
    let code = Code::read("IRON").ok_or(Error::msg("no code"))?;
    let bars = [PartName::new(1, 0), PartName::new(1, 1)];
    for (most, seen, all) in [(1, 1, false), (2, 2, false), (3, 2, true)] {
        let mut visitor = Names {
            names: Vec::new(alloc),
            most,
            has_memory: true,
        };
        let reported = book.visit_parts(code, &mut visitor)?;
        if !visitor.has_memory {
            return Err(Error::msg("no memory"));
        }
        if reported != all || visitor.names.as_slice() != &bars[..seen] {
            return Err(Error::msg("other parts"));
        }
    }
    Ok(())
}

/// The parts that stand are given as a list, with their states, and of a code without a material none.
pub fn list_parts(alloc: Global) -> Result<()> {
    let mut book = MemBook::new(alloc);
    answered(alloc, &mut book, BARS)?;
    let code = Code::read("IRON").ok_or(Error::msg("no code"))?;
    let other = Code::read("STEEL").ok_or(Error::msg("no code"))?;
    let parts = book.parts_of(alloc, code)?;
    let [first, second] = parts.as_slice() else {
        return Err(Error::msg("more parts or fewer"));
    };
    if first.name != PartName::new(1, 0) || second.name != PartName::new(1, 1) {
        return Err(Error::msg("other parts"));
    }
    if first.state != State::Standing || second.state != State::Standing {
        return Err(Error::msg("another state"));
    }
    if !book.parts_of(alloc, other)?.as_slice().is_empty() || book.totals(other)? != no_totals() {
        return Err(Error::msg("parts of another material"));
    }
    Ok(())
}
