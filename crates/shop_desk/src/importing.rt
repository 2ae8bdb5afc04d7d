//! Imports of order files and problem files: their texts are read, and decided from a book's rows.

ghost use Rattle.std.specs.Prelude.{◌≡◌, ◌≤◌, ℕ, List, Option, Some, IfOk, IfSome, IsTrue, MatchOption};
ghost use Rattle.cut_measure.specs.Measures.{Size};
ghost use Rattle.shop_files.specs.declared.orders.OrderLine.{OrderLine as OrderLineOf};
ghost use Rattle.shop_files.specs.declared.problems.Piece.{Piece as PieceOf};
ghost use Rattle.shop_files.specs.Orders.{IsOrders};
ghost use Rattle.shop_files.specs.Problems.{IsProblem, ArePieces};
ghost use Rattle.shop_records.specs.declared.imports.Form.{Form as FormOf};
ghost use Rattle.shop_records.specs.declared.imports.Form.TheVariants.{Csv, Cgcut};
ghost use Rattle.shop_records.specs.declared.messages.Command.TheVariants.{Import};
ghost use Rattle.shop_records.specs.declared.messages.Reply.{Reply as ReplyOf};
ghost use Rattle.shop_records.specs.Messages.{IsMade, is_accepted};
ghost use Rattle.shop_records.specs.Content.{Content, import_at};
ghost use Rattle.shop_machine.specs.Importing.{IsRepeat};
ghost use Rattle.shop_records.specs.WellFormed.{IsWellFormed};
ghost use Rattle.shop_forms.specs.Forms.{json_texts};
ghost use Rattle.shop_book.specs.Failures.{CountsFailure};
ghost use Rattle.shop_book.specs.Kept.{Unchanged, OnContent};
ghost use Rattle.shop_desk.specs.Decided.{IsJudged, Judges, CountsOrDisagrees, AreReceiptRows};

use crate::found::found_lines;
use cut_measure::Code;
use shop_book::{Book, BookFault};
use shop_files::{OrdersFault, Problem, TextCause, read_cgcut, read_orders};
use shop_machine::importing::{
    decide_again, decide_lines, decide_problem, problem_lines, repeats, unread_refusal,
};
use shop_rules::{
    Change, Form, ImportRow, LineList, Material, Refusal, Reply, Text, Totals, kept_reply,
};
use std::alloc::{AllocError, Global};

// The lines of an order file, where the text is one.
fn file_lines(alloc: Global, text: &Text) -> Result<Option<LineList>, AllocError>
    ensures { IfOk result (λ read. MatchOption read
        ((lines : List OrderLineOf) → IsOrders text.now lines → ⊥)
        (λ lines. IsOrders text.now lines)) }
{
    match read_orders(alloc, text.as_str().as_bytes()) {
        Ok(lines) => Ok(Some(lines)),
        Err(OrdersFault::At { .. }) => Ok(None),
        Err(OrdersFault::NoMemory) => Err(AllocError),
    }
}

// The problem of a problem file, where the text is one.
fn file_problem(alloc: Global, text: &Text) -> Result<Option<Problem>, AllocError>
    ensures spelled { IfOk result
        (λ read. MatchOption read
        ((size : Size) (pieces : List PieceOf) → IsProblem text.now size pieces → ⊥)
        (λ p. IsProblem text.now p.size p.pieces)) }
    ensures in_range { IfOk result (λ read. IfSome read (λ p. ArePieces p.pieces)) }
{
    match read_cgcut(alloc, text.as_str().as_bytes()) {
        Ok(problem) => Ok(Some(problem)),
        Err(fault) => match fault.cause {
            TextCause::NoMemory => Err(AllocError),
            _ => Ok(None),
        },
    }
}

// Imports an order file whose import isn't kept.
fn import_lines<B: Book>(
    alloc: Global,
    book: &mut B,
    order: Code,
    text: &Text,
) -> Result<Change, Refusal>
    ensures decision { OnContent B.Book book.old book.new
        (λ m. IfSome (import_at m order) (λ row. IsRepeat Csv text.now row → ⊥)
        → IsJudged json_texts m (Import order Csv text.now) (B.failed book.old) result
        (B.failed book.new)) }
    ensures keeps { Unchanged B.Book (CountsOrDisagrees result) book.old book.new }
    ensures reported { IfOk result (λ change. IsTrue (is_accepted change.reply)) }
{
    let used = book.order(order)?;
    let first = book.next_demand()?;
    let Some(lines) = file_lines(alloc, text)? else {
        return Err(unread_refusal(used));
    };
    let found = found_lines(alloc, book, lines.as_slice())?;
    let body = text.copy(alloc)?;
    decide_lines(alloc, used, order, body, &found, first)
}

// What a receipt is decided by: the material, its totals, and the number of the next act.
#[derive(Clone, Copy)]
struct ReceiptRows {
    known: Option<Material>,
    totals: Totals,
    act: u32,
}

// The rows that a receipt of a material is decided by.
fn receipt_rows<B: Book>(book: &mut B, material: Code) -> Result<ReceiptRows, BookFault>
    ensures rows { OnContent B.Book book.old book.new
        (λ m. IfOk result (λ rows. AreReceiptRows m material rows.known rows.totals rows.act)) }
    ensures least { IfOk result (λ rows. 1 ≤ rows.act) }
    ensures keeps { Unchanged B.Book (CountsFailure result) book.old book.new }
{
    let known = book.material(material)?;
    let totals = book.totals(material)?;
    let act = book.next_act()?;
    Ok(ReceiptRows { known, totals, act })
}

// Imports a problem file whose import isn't kept.
fn import_problem<B: Book>(
    alloc: Global,
    book: &mut B,
    order: Code,
    material: Code,
    text: &Text,
) -> Result<Change, Refusal>
    ensures decision { OnContent B.Book book.old book.new
        (λ m. IfSome (import_at m order) (λ row. IsRepeat (Cgcut material) text.now row → ⊥)
        → IsJudged json_texts m (Import order (Cgcut material) text.now) (B.failed book.old) result
        (B.failed book.new)) }
    ensures keeps { Unchanged B.Book (CountsOrDisagrees result) book.old book.new }
    ensures reported { IfOk result (λ change. IsTrue (is_accepted change.reply)) }
{
    let used = book.order(order)?;
    let ReceiptRows { known, totals, act } = receipt_rows(book, material)?;
    let first = book.next_demand()?;
    let Some(problem) = file_problem(alloc, text)? else {
        return Err(unread_refusal(used));
    };
    let lines = problem_lines(alloc, material, problem.pieces.as_slice())?;
    let found = found_lines(alloc, book, lines.as_slice())?;
    let body = text.copy(alloc)?;
    decide_problem(
        alloc,
        used,
        known,
        totals,
        order,
        material,
        body,
        problem.size,
        &found,
        act,
        first,
    )
}

// The reply, unless it is a refusal: no kept import reports one.
fn accepted(reported: Option<Reply>) -> Option<Reply>
    ensures accepted { IfSome result (λ answer. IsTrue (is_accepted answer)) }
    ensures made { (answer : ReplyOf) → IsMade answer → reported ≡ Some answer → result ≡ Some answer }
{
    match reported {
        Some(Reply::Refused(_)) => None,
        reported => reported,
    }
}

// Imports once more what a kept row was imported from.
fn import_again(alloc: Global, row: &ImportRow) -> Result<Change, Refusal>
    ensures decision { (m : Content) → (order : List ℕ) → (form : FormOf) → (text : List ℕ)
        → (before after : ℕ) → IsWellFormed json_texts m
        → import_at m order ≡ Some row.now → IsRepeat form text row.now
        → IsJudged json_texts m (Import order form text) before result after }
    ensures reported { IfOk result (λ change. IsTrue (is_accepted change.reply)) }
{
    let earlier = accepted(kept_reply(alloc, row.reply.as_str())?);
    decide_again(alloc, earlier)
}

// Imports an order whose import isn't kept.
fn import_new<B: Book>(
    alloc: Global,
    book: &mut B,
    order: Code,
    form: &Form,
    text: &Text,
) -> Result<Change, Refusal>
    ensures decision { OnContent B.Book book.old book.new
        (λ m. IfSome (import_at m order) (λ row. IsRepeat form.now text.now row → ⊥)
        → IsJudged json_texts m (Import order form.now text.now) (B.failed book.old) result
        (B.failed book.new)) }
    ensures keeps { Unchanged B.Book (CountsOrDisagrees result) book.old book.new }
    ensures reported { IfOk result (λ change. IsTrue (is_accepted change.reply)) }
{
    match form {
        Form::Csv => import_lines(alloc, book, order, text),
        Form::Cgcut(material) => import_problem(alloc, book, order, *material, text),
    }
}

// Imports an order of whose code an import is kept.
fn import_known<B: Book>(
    alloc: Global,
    book: &mut B,
    row: &ImportRow,
    order: Code,
    form: &Form,
    text: &Text,
) -> Result<Change, Refusal>
    ensures decision { OnContent B.Book book.old book.new
        (λ m. IsWellFormed json_texts m → import_at m order ≡ Some row.now
        → IsJudged json_texts m (Import order form.now text.now) (B.failed book.old) result
        (B.failed book.new)) }
    ensures keeps { Unchanged B.Book (CountsOrDisagrees result) book.old book.new }
    ensures reported { IfOk result (λ change. IsTrue (is_accepted change.reply)) }
{
    if repeats(row, *form, text) {
        import_again(alloc, row)
    } else {
        import_new(alloc, book, order, form, text)
    }
}

/// Imports an order.
pub fn import_order<B: Book>(
    alloc: Global,
    book: &mut B,
    order: Code,
    form: &Form,
    text: &Text,
) -> Result<Change, Refusal>
    ensures decision { Judges B.Book json_texts
        (Import order form.now text.now) book.old result book.new }
    ensures keeps { Unchanged B.Book (CountsOrDisagrees result) book.old book.new }
    ensures reported { IfOk result (λ change. IsTrue (is_accepted change.reply)) }
{
    match book.import(alloc, order)? {
        Some(row) => import_known(alloc, book, &row, order, form, text),
        None => import_new(alloc, book, order, form, text),
    }
}
