//! What no run of the program from outside can show. The file `stdin` names a check a line, after a space what it is done
//! with; `stdout` has each with what came of it. Lines that begin with `#` say what the checks after them show.
#![tactic(auto)]

mod books;
mod desk;
mod lines;
mod messages;
mod rules;

use anyhow::{Error, Result};
use std::alloc::Global;
use std::io::{self, BufRead, BufReader, BufWriter, Write};

// Does the check of books that has this name.
fn check(alloc: Global, name: &str) -> Result<()> {
    match name {
        "copies" => books::compare_copies(alloc),
        "visits" => books::stop_visits(alloc),
        "parts" => books::list_parts(alloc),
        _ => Err(Error::msg("no check has this name")),
    }
}

// What comes of a check of values, or else of one of books, which holds.
fn reported(alloc: Global, name: &str, given: &str) -> Result<String> {
    match name {
        "messages" => desk::run_over_memory(alloc, given),
        "last-cells" => desk::last_cells(alloc),
        "message" => rules::message_reported(alloc, given),
        "reply" => rules::reply_reported(alloc, given),
        "greatest-bound" => rules::greatest_bound(alloc),
        _ => {
            check(alloc, name)?;
            Ok(String::from_str(alloc, "ok\n")?)
        }
    }
}

// Does the checks that a source names.
fn do_all<B: BufRead + Drop, W: Write>(alloc: Global, source: B, output: &mut W) -> Result<()> {
    for line in source.lines(alloc) {
        let line = line?;
        let line = line.as_str();
        if line.starts_with('#') {
            writeln!(output, "{line}")?;
        } else {
            let (name, given) = line.split_once(' ').unwrap_or((line, ""));
            let reported = reported(alloc, name, given)?;
            write!(output, "> {line}\n{}", reported.as_str())?;
        }
    }
    output.flush()?;
    Ok(())
}

fn main(rt: HostRuntime) -> Result<()> {
    let alloc = rt.alloc();
    let mut output = BufWriter::new(alloc, io::writer(&rt))?;
    let source = BufReader::new(alloc, rt.reader())?;
    do_all(alloc, source, &mut output)
}
