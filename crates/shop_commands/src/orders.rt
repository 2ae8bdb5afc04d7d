//! `cutshop orders`: checks an order file, or makes a message of it.

ghost use Rattle.std.specs.Prelude.{◌≡◌, None, Some, option_map, IfOk, IfErr, OnOk, string_bytes};
ghost use Rattle.shop_files.specs.Orders.{IsOrders};
ghost use Rattle.shop_problems.specs.Judged.{AreSized, first_bad_field};
ghost use Rattle.shop_commands.specs.Orders as spec;
ghost use Rattle.shop_commands.specs.Sinks.{change_of};

use crate::faults::{Fault, OrderCause, OrderFault};
use crate::files::{Reads, read_file, write_text};
use crate::stored::shop_entries;
use shop_files::{
    MAX_LINES, MAX_TEXT_LEN, MaterialEntry, OrderLine, OrdersFault, RowList, read_orders,
};
use shop_problems::{BadField, first_bad_field};
use shop_records::{Command, Form, Message, Text};
use shop_rules::message_text;
use shop_text::Sink;
use shop_words::ImportAs;
use std::alloc::{AllocError, Global};
use std::str;

// Whether the first line of a text has a byte.
fn first_line_has(text: &[u8], wanted: u8) -> bool
    ensures { result ≡ spec.first_line_has wanted text.now }
{
    for byte in text {
        if *byte == b'\n' {
            return false;
        }
        if *byte == wanted {
            return true;
        }
    }
    false
}

// Whether the first line has semicolons, and no comma.
fn has_semicolons(text: &[u8]) -> bool
    ensures { result ≡ spec.has_semicolons text.now }
{
    first_line_has(text, b';') && !first_line_has(text, b',')
}

// What is wrong in the first line.
fn header_cause(text: &[u8]) -> OrderCause
    ensures { result ≡ spec.header_cause text.now }
{
    if text.len() > MAX_TEXT_LEN {
        return OrderCause::Long;
    }
    if has_semicolons(text) {
        return OrderCause::Semicolons;
    }
    OrderCause::Header
}

// What is wrong in a field.
fn field_cause(field: usize) -> OrderCause
    ensures { result ≡ spec.field_cause field }
{
    match field {
        0 => OrderCause::Line,
        1 => OrderCause::Material,
        2 => OrderCause::Length,
        3 => OrderCause::Width,
        4 => OrderCause::Turn,
        5 => OrderCause::Count,
        6 => OrderCause::Worth,
        _ => OrderCause::Fields,
    }
}

// What is wrong at a place.
fn cause_of(text: &[u8], row: usize, field: usize) -> OrderCause
    ensures { result ≡ spec.cause_of text.now row field }
{
    if row == 0 {
        return header_cause(text);
    }
    if row > MAX_LINES {
        return OrderCause::Many;
    }
    field_cause(field)
}

// What stops the work at a fault of a text.
fn fault_in(text: &[u8], fault: OrdersFault) -> Fault
    ensures { result ≡ spec.fault_in text.now fault }
{
    match fault {
        OrdersFault::NoMemory => Fault::NoMemory,
        OrdersFault::At { row, field } => Fault::Order(OrderFault {
            row,
            field,
            cause: cause_of(text, row, field),
        }),
    }
}

// The lines of a text.
pub(crate) fn lines_in(alloc: Global, text: &[u8]) -> Result<RowList<OrderLine>, Fault>
    ensures ok { IfOk result (IsOrders text.now) }
    ensures err { IfErr result (spec.IsUnordered text.now) }
{
    match read_orders(alloc, text) {
        Ok(lines) => Ok(lines),
        Err(fault) => Err(fault_in(text, fault)),
    }
}

// What is wrong in a field that can be read.
fn judged_cause(field: usize) -> OrderCause
    ensures { result ≡ spec.judged_cause field }
{
    match field {
        0 => OrderCause::Rising,
        1 => OrderCause::Unknown,
        2 => OrderCause::FarLength,
        3 => OrderCause::FarWidth,
        4 => OrderCause::Turned,
        5 => OrderCause::FarCount,
        6 => OrderCause::FarWorth,
        _ => OrderCause::None,
    }
}

// What stops the work at a bad field.
fn bad_fault(bad: BadField) -> Fault
    ensures { result ≡ spec.bad_fault bad }
{
    Fault::Order(OrderFault {
        row: bad.row,
        field: bad.field,
        cause: judged_cause(bad.field),
    })
}

/// Judges lines by all that needs no store and, if there is a shop file, by its materials.
pub(crate) fn judge(shop: Option<&[MaterialEntry]>, lines: &[OrderLine]) -> Result<(), Fault>
    ensures ok { OnOk result
        (first_bad_field (option_map (λ entries. entries.now) shop.entry) lines.now ≡ None) }
    ensures sized { OnOk result (AreSized lines.now) }
    ensures err { IfErr result
        (spec.IsBadBy (option_map (λ entries. entries.now) shop.entry) lines.now) }
{
    match first_bad_field(shop, lines) {
        None => Ok(()),
        Some(bad) => Err(bad_fault(bad)),
    }
}

// Judges lines by the materials of a shop file, too.
#[tactic(auto, using(crate::proofs::JudgedFiles::good_by_shop, crate::proofs::JudgedFiles::bad_by_shop))]
fn judge_by_shop<R: Reads>(
    rt: &R,
    alloc: Global,
    path: &str,
    lines: &[OrderLine],
) -> Result<(), Fault>
    ensures ok { OnOk result (spec.IsJudgedGood (R.holds rt.now) (Some path.now) lines.now) }
    ensures err { IfErr result (spec.IsJudgedBad (R.holds rt.now) (Some path.now) lines.now) }
{
    let entries = shop_entries(rt, alloc, path)?;
    judge(Some(entries.as_slice()), lines)
}

// Judges lines by all that needs no store, and where a shop file is given, by its materials.
#[tactic(auto, using(crate::proofs::JudgedFiles::alone_ok, crate::proofs::JudgedFiles::alone_err, crate::proofs::JudgedFiles::known_ok, crate::proofs::JudgedFiles::known_err))]
fn judge_by<R: Reads>(
    rt: &R,
    alloc: Global,
    shop: Option<&str>,
    lines: &[OrderLine],
) -> Result<(), Fault>
    ensures ok { OnOk result (spec.IsJudgedGood (R.holds rt.now) (option_map (λ p. p.now) shop.entry) lines.now) }
    ensures err { IfErr result (spec.IsJudgedBad (R.holds rt.now) (option_map (λ p. p.now) shop.entry) lines.now) }
{
    match shop {
        None => judge(None, lines),
        Some(path) => judge_by_shop(rt, alloc, path, lines),
    }
}

fn count_line(alloc: Global, count: usize) -> Result<String, AllocError>
    ensures { IfOk result (λ line. string_bytes line ≡ spec.count_line count) }
{
    format!(in alloc; "{count} lines\n")
}

// The line of the message that makes an order of a text.
fn import_line(alloc: Global, reported: ImportAs, text: &str) -> Result<String, AllocError>
    ensures { IfOk result (λ line. string_bytes line ≡ spec.import_line reported text.now) }
{
    let message = Message {
        terminal: reported.terminal,
        number: reported.number,
        command: Command::Import {
            order: reported.order,
            form: Form::Csv,
            text: Text::from_str(alloc, text)?,
        },
    };
    let text = message_text(alloc, &message)?;
    format!(in alloc; "{}\n", text.as_str())
}

// The line that is written of a text that has so many lines.
fn line_of(
    alloc: Global,
    reported: Option<ImportAs>,
    text: &[u8],
    count: usize,
) -> Result<String, Fault>
    ensures ok { IfOk result (λ line. string_bytes line ≡ spec.orders_line reported text.now count) }
    ensures err { IfErr result (spec.IsUnsaid text.now) }
{
    let Some(reported) = reported else {
        let line = count_line(alloc, count)?;
        return Ok(line);
    };
    match str::from_utf8(text) {
        Ok(text) => {
            let line = import_line(alloc, reported, text)?;
            Ok(line)
        }
        Err(_) => Err(Fault::File),
    }
}

/// The line for an order file: how many lines it has, or the message that makes an order of them. An `Err` is the
/// file's first error, the shop file's, the first bad field of the lines, or lack of memory; `File` if the text isn't
/// UTF-8 and has no other error.
#[tactic(auto, using(crate::proofs::JudgedFiles::line_ok, crate::proofs::JudgedFiles::line_err, crate::proofs::JudgedFiles::bad_file))]
pub fn orders_line<R: Reads>(
    rt: &R,
    alloc: Global,
    shop: Option<&str>,
    reported: Option<ImportAs>,
    text: &[u8],
) -> Result<String, Fault>
    ensures ok { IfOk result
        (λ line. spec.IsOrdersLine (R.holds rt.now) (option_map (λ p. p.now) shop.entry) reported text.now (string_bytes line)) }
    ensures err { IfErr result (spec.IsOrderFileFault (R.holds rt.now) (option_map (λ p. p.now) shop.entry) text.now) }
{
    let lines = lines_in(alloc, text)?;
    let rows = lines.as_slice();
    judge_by(rt, alloc, shop, rows)?;
    line_of(alloc, reported, text, rows.len())
}

/// Writes the line for an order file.
pub fn check_orders<R: Reads, W: Sink>(
    rt: &R,
    alloc: Global,
    file: &str,
    shop: Option<&str>,
    reported: Option<ImportAs>,
    sink: &mut W,
) -> Result<(), Fault>
    ensures ok { OnOk result
        (spec.IsOrdersDone (R.holds rt.now) file.now (option_map (λ p. p.now) shop.entry) reported (change_of W.Sink sink.old sink.new)) }
    ensures err { IfErr result
        (λ f. spec.IsOrdersStopped (R.holds rt.now) file.now (option_map (λ p. p.now) shop.entry) reported f (change_of W.Sink sink.old sink.new)) }
{
    let bytes = read_file(rt, alloc, file)?;
    let line = orders_line(rt, alloc, shop, reported, &bytes)?;
    write_text(sink, line.as_str())
}
