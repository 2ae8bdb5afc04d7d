//! How sizes, places, numbers and names are set in lines, and why a text may not be printed.

ghost use Rattle.std.specs.Prelude.{◌≡◌, ◌++◌, ◌∷◌, [], ℕ, List, OnOk, OnErr, Ok, Err, replicate, string_bytes};
ghost use Rattle.std.specs.Fmt.{decimal};
ghost use Rattle.std.specs.Io.KnownBytes.{Appends};
ghost use Rattle.shop_text.specs.Printing.{part_start, place_text, size_text, to_the_right};
ghost use Rattle.shop_text.specs.declared.printing.PrintFault.TheVariants.{Write};
ghost use Rattle.shop_streams.specs.Streams.{HasFailed};

use cut_measure::{Kind, PartName, write_mm};
use shop_records::Refusal;
use shop_streams::{Sink, write_all};
use std::alloc::AllocError;
use std::error::Error;
use std::fmt;

/// Why a text wasn't printed.
#[derive(Clone, Copy, Debug, PartialEq, Eq)]
pub enum PrintFault {
    /// There is nothing to print for this refusal, memory ran out (98), or the store failed (99), as do rows that no
    /// history gives where they contradict each other. Nothing was written.
    Refused(Refusal),
    /// The sink failed. A first part of the text was written.
    Write,
}

impl fmt::Display for PrintFault {
    ghost use Rattle.std.specs.Prelude.{Some};
    ghost use Rattle.shop_text.specs.Printing.{print_fault_text};

    ghost output = { λ fault. Some (print_fault_text fault) };

    fn fmt<W: fmt::Write>(&self, f: &mut fmt::Formatter<W>) -> fmt::Result {
        match self {
            PrintFault::Refused(refusal) => {
                write!(f, "refused {} {}", refusal.number(), refusal.name())
            }
            PrintFault::Write => f.write_str("fault write"),
        }
    }
}

impl Error for PrintFault {}

impl From<Refusal> for PrintFault {
    ghost use Rattle.std.specs.Prelude.{◌≡◌};
    ghost use Rattle.shop_text.specs.declared.printing.PrintFault.TheVariants.{Refused};

    ghost from_gives = { λ refusal fault. fault ≡ Refused refusal };

    fn from(refusal: Refusal) -> PrintFault {
        PrintFault::Refused(refusal)
    }
}

// Appends spaces.
fn push_spaces(count: usize, text: &mut String) -> Result<(), AllocError>
    ensures { OnOk result (string_bytes text.new ≡ string_bytes text.old ++ replicate count 32) }
{
    for _done in 0..count {
        text.push_str(" ")?;
    }
    Ok(())
}

/// Appends a number at the right end of so many places.
pub fn push_number(n: u64, places: usize, text: &mut String) -> Result<(), AllocError>
    ensures { OnOk result (string_bytes text.new ≡ string_bytes text.old
        ++ to_the_right places (decimal n)) }
{
    let alloc = *text.allocator();
    let numeral = format!(in alloc; "{n}")?;
    push_spaces(places.saturating_sub(numeral.len()), text)?;
    text.push_str(numeral.as_str())
}

/// Appends a size of a unit of this kind.
pub fn push_size(kind: Kind, w: u32, h: u32, text: &mut String) -> Result<(), AllocError>
    ensures { OnOk result (string_bytes text.new ≡ string_bytes text.old ++ size_text kind w h) }
{
    write_mm(w, text)?;
    match kind {
        Kind::Bar => Ok(()),
        Kind::Sheet => {
            text.push_str(" x ")?;
            write_mm(h, text)
        }
    }
}

/// Appends a place in a unit of this kind.
pub fn push_place(kind: Kind, x: u32, y: u32, text: &mut String) -> Result<(), AllocError>
    ensures { OnOk result (string_bytes text.new ≡ string_bytes text.old ++ place_text kind x y) }
{
    write_mm(x, text)?;
    match kind {
        Kind::Bar => Ok(()),
        Kind::Sheet => {
            text.push_str(" ")?;
            write_mm(y, text)
        }
    }
}

/// Appends how a line on a part begins.
pub fn push_part_start(name: PartName, text: &mut String) -> Result<(), AllocError>
    ensures { OnOk result (string_bytes text.new ≡ string_bytes text.old ++ part_start name) }
{
    text.push_str("part ")?;
    name.write(text)?;
    text.push_str(" ")
}

/// Writes a text that is finished.
pub fn print<W: Sink>(text: &str, sink: &mut W) -> Result<(), PrintFault>
    ensures ok { OnOk result (Appends (W.held sink.old) (W.held sink.new) text.now) }
    ensures err { OnErr result
        ((done : List ℕ) × (rest : List ℕ) × (done ++ rest ≡ text.now)
        × Appends (W.held sink.old) (W.held sink.new) done) }
    ensures write { OnErr result (result ≡ Err Write) }
    ensures failed { OnErr result (HasFailed (W.failed sink.old) (W.failed sink.new)) }
    ensures worked { OnOk result (W.failed sink.new ≡ W.failed sink.old) }
{
    match write_all(sink, text.as_bytes()) {
        Ok(()) => Ok(()),
        Err(_) => Err(PrintFault::Write),
    }
}
