//! The program at its own runtime: its words, its three streams and the books of its stores.

use crate::faults::Fault;
use crate::performing::{perform, report_fault};
use shop_opening::Opens;
use shop_store::SqlBook;
use shop_text::{Counted, Sink, write_all};
use sqlite::Alter;
use std::{env, io};

// The words of the command line, the program's name before them.
fn read_words(rt: &HostRuntime) -> io::Result<Vec<String>> {
    let words = env::args(rt)?.collect(rt.alloc())?;
    Ok(words)
}

// Reports why the words can't be read: memory ran out, or one is no UTF-8, which is a mistake in the words.
fn refuse_words<E: Sink>(rt: &HostRuntime, error: &io::Error, errors: &mut E) -> u8 {
    if error.kind() == io::ErrorKind::OutOfMemory {
        return report_fault(rt.alloc(), Fault::NoMemory, errors);
    }
    let _ = write_all(errors, b"error: a word is no UTF-8\n");
    2
}

/// Does what the words of the command line ask for, over the standard streams and the book of the store that is opened
/// (`stores`), or whose files are only read (`apart`), and returns the status.
pub fn run<D: Alter + Drop, M: Alter + Drop, O: Opens<SqlBook<D>>, P: Opens<SqlBook<M>>>(
    rt: &HostRuntime,
    stores: O,
    apart: P,
) -> u8 {
    let mut source = Counted::new(rt.stdin());
    let mut sink = Counted::new(rt.stdout());
    let mut errors = Counted::new(rt.stderr());
    match read_words(rt) {
        Ok(words) => perform(
            rt,
            stores,
            apart,
            rt.alloc(),
            &words,
            &mut source,
            &mut sink,
            &mut errors,
        ),
        Err(error) => refuse_words(rt, &error, &mut errors),
    }
}
