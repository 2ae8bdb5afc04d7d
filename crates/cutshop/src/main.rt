//! The shop's program. `cutshop replay` answers the lines of standard input on standard output, over a book in memory;
//! `cutshop plan` plans the rectangle of a problem file; `cutshop serve`, `cutshop ticket` and `cutshop yield` work on the
//! book of a store file; `cutshop restore` puts a backup in its place.
#![tactic(auto)]

use shop_commands::run;
use shop_opening::{ApartOpener, Opener, Opens};
use shop_store::SqlBook;
use sqlite::{Alter, Start, Unknown};
use std::process::ExitCode;

// Does what the words ask for, whatever the files of the store hold: `start` stands for that. `apart` opens a store whose files are only
// read.
fn run_over<S: Start, M: Alter + Drop, P: Opens<SqlBook<M>>>(
    rt: &HostRuntime,
    start: S,
    apart: P,
) -> u8 {
    run(rt, Opener::new(rt, start), apart)
}

fn main(rt: HostRuntime) -> ExitCode {
    ExitCode::from(run_over(&rt, Unknown, ApartOpener::new(&rt)))
}
