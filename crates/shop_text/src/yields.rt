//! The yield report of a material: its totals, what share became pieces, and the parts that stand.

ghost use Rattle.std.specs.Prelude.{◌≡◌, ◌++◌, OnOk, Err, string_bytes};
ghost use Rattle.cut_measure.specs.Lengths.{mm_text};
ghost use Rattle.shop_records.specs.declared.refusals.Refusal.{Refusal as RefusalOf};
ghost use Rattle.shop_book.specs.Kept.{Unchanged, OnContent};
ghost use Rattle.shop_text.specs.declared.printing.PrintFault.TheVariants.{Refused, Write};
ghost use Rattle.shop_text.specs.Printing.{IsTextMade, IsPrinted, CountsRefusal, CountsPrint};
ghost use Rattle.shop_streams.specs.Streams.{HasFailed};
ghost use Rattle.shop_text.specs.Yields.{TakesLine, kind_text, line_end, part_line, per_mille, standing_text, total_line, total_lines, yield_head, yield_of};

use crate::printing::{PrintFault, print, push_number, push_part_start, push_size};
use cut_measure::{Code, Kind};
use shop_book::Book;
use shop_records::{Part, PartVisitor, Refusal, State, Totals};
use shop_streams::Sink;
use std::alloc::{AllocError, Global};

fn kind_word(kind: Kind) -> &'static str
    ensures { result.now ≡ kind_text kind }
{
    match kind {
        Kind::Bar => "bar",
        Kind::Sheet => "sheet",
    }
}

// A word of 8 places, and its number in 17.
fn push_total(word: &str, n: u64, text: &mut String) -> Result<(), AllocError>
    ensures { OnOk result (string_bytes text.new ≡ string_bytes text.old ++ total_line word.now n) }
{
    text.push_str(word)?;
    push_number(n, 17, text)?;
    text.push_str("\n")
}

fn push_totals(totals: Totals, text: &mut String) -> Result<(), AllocError>
    ensures { OnOk result (string_bytes text.new ≡ string_bytes text.old ++ total_lines totals) }
{
    push_total("received", totals.received, text)?;
    push_total("stock   ", totals.stock, text)?;
    push_total("rack    ", totals.rack, text)?;
    push_total("pieces  ", totals.pieces, text)?;
    push_total("kerf    ", totals.kerf, text)?;
    push_total("scrap   ", totals.scrap, text)?;
    push_total("returned", totals.returned, text)
}

// How many of a thousand cells that were received and not returned became pieces.
fn share(totals: Totals) -> u128
    ensures { result ≡ per_mille totals }
{
    let kept = totals.received.saturating_sub(totals.returned);
    if kept == 0 {
        return 0;
    }
    u128::from(totals.pieces) * 1000 / u128::from(kept)
}

fn push_share(totals: Totals, text: &mut String) -> Result<(), AllocError>
    ensures { OnOk result (string_bytes text.new ≡ string_bytes text.old
        ++ mm_text (per_mille totals)) }
{
    let share = share(totals);
    write!(text, "{}.{}", share / 10, share % 10)
}

// The lines in front of the parts.
fn push_head(code: Code, kind: Kind, totals: Totals, text: &mut String) -> Result<(), AllocError>
    ensures { OnOk result (string_bytes text.new ≡ string_bytes text.old
        ++ yield_head code kind totals) }
{
    text.push_str("yield ")?;
    code.write(text)?;
    text.push_str(" ")?;
    text.push_str(kind_word(kind))?;
    text.push_str("\n")?;
    push_totals(totals, text)?;
    text.push_str("yield ")?;
    push_share(totals, text)?;
    text.push_str(" %\n")
}

// What a part that stands is printed as.
fn push_standing(state: State, text: &mut String) -> Result<(), AllocError>
    ensures { OnOk result (string_bytes text.new ≡ string_bytes text.old ++ standing_text state) }
{
    match state {
        State::Standing => text.push_str("standing"),
        State::Reserved(job) => write!(text, "reserved {job}"),
        State::Cut(_)
        | State::Piece(_)
        | State::Kerf
        | State::Scrap
        | State::Returned
        | State::Undone(_) => Ok(()),
    }
}

fn push_line_end(state: State, text: &mut String) -> Result<(), AllocError>
    ensures { OnOk result (string_bytes text.new ≡ string_bytes text.old ++ line_end state) }
{
    text.push_str(" ")?;
    push_standing(state, text)?;
    text.push_str("\n")
}

fn push_part(kind: Kind, part: &Part, text: &mut String) -> Result<(), AllocError>
    ensures { OnOk result (string_bytes text.new ≡ string_bytes text.old
        ++ part_line kind part.now) }
{
    push_part_start(part.name, text)?;
    push_size(kind, part.size.w(), part.size.h(), text)?;
    push_line_end(part.state, text)
}

// Appends a line for each part. It stops when memory runs out.
#[derive(Drop)]
pub struct PartLines {
    pub kind: Kind,
    pub text: String,
}

impl PartVisitor for PartLines {
    ghost looks = { TakesLine };

    fn part(&mut self, part: &Part) -> bool {
        push_part(self.kind, part, &mut self.text).is_ok()
    }
}

/// The yield report of a material as text. An unknown material is refused 20; 98 is lack of memory, and 99 comes where the
/// store failed.
pub fn report_text<B: Book>(alloc: Global, book: &mut B, code: Code) -> Result<String, Refusal>
    ensures reported { OnContent B.Book book.old book.new
        (λ m. IsTextMade (B.failed book.old) (B.failed book.new) result (yield_of m code)) }
    ensures keeps { Unchanged B.Book (CountsRefusal result) book.old book.new }
{
    let Some(material) = book.material(code)? else {
        return Err(Refusal::NoMaterial);
    };
    let totals = book.totals(code)?;
    let mut lines = PartLines {
        kind: material.kind,
        text: String::new(alloc),
    };
    push_head(code, material.kind, totals, &mut lines.text)?;
    if !book.visit_parts(code, &mut lines)? {
        return Err(Refusal::NoMemory);
    }
    lines.text.push_str("end\n")?;
    Ok(lines.text)
}

/// Prints the yield report of a material: its totals, how much of what was received and not returned became pieces, and
/// the parts that stand. An unknown material is refused 20. The text is finished before its first byte is written, so a
/// refusal writes nothing.
pub fn yield_report<B: Book, W: Sink>(
    alloc: Global,
    book: &mut B,
    material: Code,
    sink: &mut W,
) -> Result<(), PrintFault>
    ensures printed { OnContent B.Book book.old book.new
        (λ m. IsPrinted (B.failed book.old) (B.failed book.new) (W.held sink.old)
        (W.held sink.new) result (yield_of m material)) }
    ensures refused { (refusal : RefusalOf) → result ≡ Err (Refused refusal) → sink.new ≡ sink.old }
    ensures write { result ≡ Err Write → HasFailed (W.failed sink.old) (W.failed sink.new) }
    ensures worked { OnOk result (W.failed sink.new ≡ W.failed sink.old) }
    ensures keeps { Unchanged B.Book (CountsPrint result) book.old book.new }
{
    let text = report_text(alloc, book, material)?;
    print(text.as_str(), sink)
}
