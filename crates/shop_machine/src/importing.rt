//! An order is made from the text of an order file or of a problem file: what is decided on it.

ghost use Rattle.std.specs.Prelude.{◌≡◌, ◌≤◌, ℕ, List, [], Option, Some, IfOk, IfSome, IsTrue, ◌↔◌, MatchOption, length};
ghost use Rattle.shop_files.specs.declared.limits.TheConstants.{MAX_PIECES};
ghost use Rattle.shop_records.specs.declared.records.Material.{Material as MaterialOf};
ghost use Rattle.shop_records.specs.Messages.{is_accepted};
ghost use Rattle.shop_machine.specs.Decisions.{Decides, no_change};
ghost use Rattle.shop_machine.specs.Ordering.{order_refusal, lines_in, AreMaterialsFound};
ghost use Rattle.shop_machine.specs.Importing.{IsRepeat, problem_lines, piece_line, unit_refusal, problem_refusal, again_refusal, lines_change, problem_change, unread_refusal as refusal_unread};

use crate::decisions::no_change;
use crate::ordering::{FoundLine, decide_order, lines_refusal};
use crate::receiving::decide_receive;
use cut_measure::{Code, Size};
use shop_files::{OrderLine, Piece};
use shop_records::{Change, Form, ImportRow, LineList, Material, Refusal, Reply, Text, Totals};
use std::alloc::{AllocError, Global};

/// Whether an import is the one of this row: of the same form, material and text.
pub fn repeats(row: &ImportRow, form: Form, text: &Text) -> bool
    ensures { IsTrue result ↔ IsRepeat form text.now row.now }
{
    row.form == form && row.text == *text
}

/// Why an import is refused whose text spells nothing, from whether its order's code is used.
pub fn unread_refusal(used: bool) -> Refusal
    ensures { result ≡ refusal_unread used }
{
    if used {
        Refusal::OrderExists
    } else {
        Refusal::BadText
    }
}

fn piece_line(material: Code, number: u32, piece: &Piece) -> OrderLine
    ensures { result ≡ piece_line material number piece.now }
{
    OrderLine {
        line: number,
        material,
        w: piece.w,
        h: piece.h,
        turn: false,
        count: piece.most,
        worth: piece.worth,
    }
}

/// The lines of a problem's pieces: from 1 on, not turning, the greatest number of a piece being its count.
pub fn problem_lines(
    alloc: Global,
    material: Code,
    pieces: &[Piece],
) -> Result<LineList, AllocError>
    requires { length pieces.now ≤ MAX_PIECES }
    ensures { IfOk result (λ lines. lines ≡ problem_lines material pieces.now) }
{
    let mut lines = LineList::new(alloc);
    let mut number = 1;
    for piece in pieces {
        lines.push(piece_line(material, number, piece))?;
        number += 1;
    }
    Ok(lines)
}

/// Accepts an import that came before, with its first reply. Refused `StoreFault` where there is none.
pub fn decide_again(alloc: Global, earlier: Option<Reply>) -> Result<Change, Refusal>
    requires { IfSome earlier (λ answer. IsTrue (is_accepted answer)) }
    ensures decision { Decides (again_refusal earlier)
        (λ change. MatchOption earlier ⊥ (λ answer. change ≡ no_change answer)) result }
    ensures reported { IfOk result (λ change. IsTrue (is_accepted change.reply)) }
{
    match earlier {
        Some(reply) => Ok(no_change(alloc, reply)),
        None => Err(Refusal::StoreFault),
    }
}

// The change of an order that came by an import.
fn imported(change: Change, row: ImportRow, reply: Reply) -> Change
    ensures { result ≡ record change { import = Some row; reply = reply } }
{
    Change {
        import: Some(row),
        reply,
        ..change
    }
}

/// Imports an order file, from whether its order's code is used, its lines with the rows of their materials, and the next
/// demand's number. Refused as an order.
pub fn decide_lines(
    alloc: Global,
    used: bool,
    order: Code,
    text: Text,
    lines: &[FoundLine],
    first: u32,
) -> Result<Change, Refusal>
    requires { 1 ≤ first }
    ensures decision { (at : List ℕ → Option MaterialOf) → AreMaterialsFound at lines.now
        → Decides (order_refusal used at (lines_in lines.now) first)
        (λ change. change ≡ lines_change order text (lines_in lines.now) first) result }
    ensures reported { IfOk result (λ change. IsTrue (is_accepted change.reply)) }
{
    let change = decide_order(alloc, used, order, lines, first)?;
    let count = lines.len() as u32;
    let row = ImportRow {
        order,
        form: Form::Csv,
        text,
        reply: Text::new(alloc),
    };
    let reply = Reply::Import {
        act: 0,
        count,
        first,
        order,
    };
    Ok(imported(change, row, reply))
}

// Whether the material is known, and the rectangle is one of its sizes.
fn unit_refusal(known: &Option<Material>, size: Size) -> Option<Refusal>
    ensures { result ≡ unit_refusal known.now size }
{
    match known {
        None => Some(Refusal::NoMaterial),
        Some(material) => match Size::new(material.kind, size.w(), size.h()) {
            None => Some(Refusal::BadSize),
            Some(_) => None,
        },
    }
}

// The change of an order, and of the receipt of its unit.
fn with_receipt(change: Change, receipt: Change) -> Change
    ensures { result ≡ record change {
      parts = receipt.parts;
      totals = receipt.totals;
      act = receipt.act;
    } }
{
    let Change {
        parts,
        totals,
        act,
        ..
    } = receipt;
    Change {
        parts,
        totals,
        act,
        ..change
    }
}

/// Imports a problem file as an order, and receives a unit of its rectangle, the order's code being its batch: from whether
/// the code is used, the row of the material and its totals, the problem's lines with the rows of their materials, and the
/// next act's and the next demand's number. Refused, in this order, `OrderExists`, `NoMaterial`, `BadSize`, line by line
/// `NoMaterial` and `BadLine`, then as a receipt and as an order.
pub fn decide_problem(
    alloc: Global,
    used: bool,
    known: Option<Material>,
    totals: Totals,
    order: Code,
    material: Code,
    text: Text,
    size: Size,
    lines: &[FoundLine],
    act: u32,
    first: u32,
) -> Result<Change, Refusal>
    requires act { 1 ≤ act }
    requires first { 1 ≤ first }
    ensures decision { (at : List ℕ → Option MaterialOf) → AreMaterialsFound at lines.now
        → Decides (problem_refusal used at known totals act first size (lines_in lines.now))
        (λ change. change ≡ problem_change order material text size
        (lines_in lines.now) totals act first) result }
    ensures reported { IfOk result (λ change. IsTrue (is_accepted change.reply)) }
{
    if used {
        return Err(Refusal::OrderExists);
    }
    if let Some(refusal) = unit_refusal(&known, size) {
        return Err(refusal);
    }
    if let Some(refusal) = lines_refusal(0, lines) {
        return Err(refusal);
    }
    let receipt = decide_receive(
        alloc,
        known,
        totals,
        act,
        material,
        order,
        size.w(),
        size.h(),
        1,
    )?;
    let change = decide_order(alloc, used, order, lines, first)?;
    let count = lines.len() as u32;
    let row = ImportRow {
        order,
        form: Form::Cgcut(material),
        text,
        reply: Text::new(alloc),
    };
    let reply = Reply::Import {
        act,
        count,
        first,
        order,
    };
    Ok(imported(with_receipt(change, receipt), row, reply))
}
