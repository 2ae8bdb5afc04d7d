//! Order files: records in CSV after a header, each a line of an order.

ghost use Rattle.std.specs.Prelude.{◌≡◌, ◌≢◌, ◌≤◌, ◌<◌, ◌+◌, ◌^◌, ◌⊎◌, ℕ, List, [], ◌∷◌, ◌++◌, IfOk, IfErr, MatchOption, MatchResult, IsTrue, ◌↔◌, Bool, Some, true, false, get_or, length};
ghost use Rattle.csv.specs.Records.{fields_of};
ghost use Rattle.cut_measure.specs.Codes.{code_of};
ghost use Rattle.cut_measure.specs.Lengths.{IsLengthText};
ghost use Rattle.shop_files.specs.Orders.{IsShortNumber, turn_word, IsLineRecord, IsBadLine, IsBadHeader, header, Fields, HasRead, HasNext, IsOrders, HasOrdersFault};
ghost use Rattle.shop_files.specs.declared.orders.OrdersFault.TheVariants.{NoMemory};

use crate::limits::{MAX_LINES, MAX_TEXT_LEN};
use csv::{ByteRecord, Reader, ReaderBuilder};
use cut_measure::{Code, RowList, digits_value_of, read_mm};
use std::alloc::Global;

/// A line of an order file. Its sides are 0 to 9999999 tenths of a millimetre and its other numbers of 32 bits: whoever
/// makes demands of it judges their ranges.
#[derive(Clone, Copy, Debug)]
pub struct OrderLine {
    pub line: u32,
    pub material: Code,
    /// The length in tenths of a millimetre.
    pub w: u32,
    /// The width in tenths of a millimetre.
    pub h: u32,
    /// Whether the piece may be turned.
    pub turn: bool,
    /// How many pieces are wanted.
    pub count: u32,
    /// What one piece is worth.
    pub worth: u32,
}

/// Why a text is no order's.
#[derive(Clone, Copy, Debug, PartialEq, Eq)]
pub enum OrdersFault {
    /// The first bad record, the header being number 0, and in it the first bad field from 0. Field 7 stands for a
    /// record of more or fewer fields, for a record too many, and in record 0 for a text too long.
    At { row: usize, field: usize },
    /// Memory ran out.
    NoMemory,
}

// The number that one to ten digits stand for, if it has 32 bits.
fn number_in(field: &[u8]) -> Option<u32>
    ensures { MatchOption result ((n : ℕ) → IsShortNumber field.now n → ⊥)
        (λ n. IsShortNumber field.now n) }
{
    if field.is_empty() || field.len() > 10 {
        return None;
    }
    digits_value_of(field)
}

fn code_in(field: &[u8]) -> Option<Code>
    ensures { result ≡ code_of field.now }
{
    match str::from_utf8(field) {
        Ok(text) => Code::read(text),
        Err(_) => None,
    }
}

fn length_in(field: &[u8]) -> Option<u32>
    ensures { MatchOption result ((n : ℕ) → IsLengthText field.now n → ⊥)
        (λ n. IsLengthText field.now n) }
{
    match str::from_utf8(field) {
        Ok(text) => read_mm(text),
        Err(_) => None,
    }
}

fn turn_in(field: &[u8]) -> Option<bool>
    ensures { MatchOption result ((turn : Bool) → field.now ≡ turn_word turn → ⊥)
        (λ turn. field.now ≡ turn_word turn) }
{
    if field == b"yes".as_slice() {
        Some(true)
    } else if field == b"no".as_slice() {
        Some(false)
    } else {
        None
    }
}

// The field at a place.
fn field_of(record: &ByteRecord, i: usize) -> &[u8]
    requires { i < length (fields_of record.now) }
    ensures { result.now ≡ get_or (fields_of record.now) i [] }
{
    match record.get(i) {
        Some(field) => field,
        None => unreachable!(),
    }
}

// Whether a record has seven fields.
fn is_seven(record: &ByteRecord) -> bool
    ensures { IsTrue result ↔ (length (fields_of record.now) ≡ 7) }
{
    record.len() == 7
}

// The line that a record is, or its first bad field.
fn line_of(record: &ByteRecord) -> Result<OrderLine, usize>
    ensures ok { IfOk result (λ line. IsLineRecord (fields_of record.now) line) }
    ensures err { IfErr result (λ i. IsBadLine (fields_of record.now) i) }
{
    if !is_seven(record) {
        return Err(7);
    }
    let Some(line) = number_in(field_of(record, 0)) else {
        return Err(0);
    };
    let Some(material) = code_in(field_of(record, 1)) else {
        return Err(1);
    };
    let Some(w) = length_in(field_of(record, 2)) else {
        return Err(2);
    };
    let Some(h) = length_in(field_of(record, 3)) else {
        return Err(3);
    };
    let Some(turn) = turn_in(field_of(record, 4)) else {
        return Err(4);
    };
    let Some(count) = number_in(field_of(record, 5)) else {
        return Err(5);
    };
    let Some(worth) = number_in(field_of(record, 6)) else {
        return Err(6);
    };
    Ok(OrderLine {
        line,
        material,
        w,
        h,
        turn,
        count,
        worth,
    })
}

// A word of the header.
fn header_word(i: usize) -> &'static [u8]
    requires { i < 7 }
    ensures { result.now ≡ get_or header i [] }
{
    match i {
        0 => b"line".as_slice(),
        1 => b"material".as_slice(),
        2 => b"length".as_slice(),
        3 => b"width".as_slice(),
        4 => b"turn".as_slice(),
        5 => b"count".as_slice(),
        _ => b"worth".as_slice(),
    }
}

// The first field of a record that isn't the header's.
fn header_fault(record: &ByteRecord) -> Option<usize>
    ensures { MatchOption result (fields_of record.now ≡ header)
        (IsBadHeader (fields_of record.now)) }
{
    if !is_seven(record) {
        return Some(7);
    }
    for i in 0..7 {
        if field_of(record, i) != header_word(i) {
            return Some(i);
        }
    }
    None
}

// Reads the next record into the buffer, if there is one.
fn next_row(reader: &mut Reader<&[u8]>, record: &mut ByteRecord) -> Result<bool, OrdersFault>
    ensures found { IfOk result
        (λ found. (text : List ℕ) (rows : List Fields)
        → HasRead (λ s. Some s.now) reader.old text rows
        → HasNext (λ s. Some s.now) found text rows (fields_of record.new) reader.new) }
    ensures err { IfErr result (λ f. f ≡ NoMemory) }
{
    let found = match reader.read_byte_record(record) {
        Ok(found) => found,
        Err(_) => return Err(OrdersFault::NoMemory),
    };
    Ok(found)
}

// Reads the lines after the header.
fn read_lines(
    alloc: Global,
    reader: &mut Reader<&[u8]>,
    record: &mut ByteRecord,
) -> Result<RowList<OrderLine>, OrdersFault>
    ensures ok { IfOk result (λ lines. (text : List ℕ) → length text ≤ MAX_TEXT_LEN
        → HasRead (λ s. Some s.now) reader.old text (header ∷ []) → IsOrders text lines) }
    ensures err { IfErr result
        (λ f. (text : List ℕ) → length text ≤ MAX_TEXT_LEN
        → HasRead (λ s. Some s.now) reader.old text (header ∷ []) → HasOrdersFault text f) }
{
    let mut lines = RowList::new(alloc);
    for number in 0..MAX_LINES {
        if !next_row(reader, record)? {
            return Ok(lines);
        }
        match line_of(record) {
            Ok(line) => {
                if lines.push(line).is_err() {
                    return Err(OrdersFault::NoMemory);
                }
            }
            Err(field) => {
                return Err(OrdersFault::At {
                    row: number + 1,
                    field,
                });
            }
        }
    }
    if next_row(reader, record)? {
        return Err(OrdersFault::At {
            row: MAX_LINES + 1,
            field: 7,
        });
    }
    Ok(lines)
}

// A reader that has read nothing of a text. Each record is one to it, whatever its length.
fn reader_of(alloc: Global, text: &[u8]) -> Reader<&[u8]>
    ensures { HasRead (λ s. Some s.now) result text.now [] }
{
    ReaderBuilder::new()
        .has_headers(false)
        .flexible(true)
        .from_reader(alloc, text)
}

// The lines or the first fault.
fn orders_of(alloc: Global, text: &[u8]) -> Result<RowList<OrderLine>, OrdersFault>
    ensures ok { IfOk result (λ lines. IsOrders text.now lines) }
    ensures err { IfErr result (λ f. HasOrdersFault text.now f) }
{
    if text.len() > MAX_TEXT_LEN {
        return Err(OrdersFault::At { row: 0, field: 7 });
    }
    let mut reader = reader_of(alloc, text);
    let mut record = ByteRecord::new(alloc);
    if !next_row(&mut reader, &mut record)? {
        return Err(OrdersFault::At { row: 0, field: 7 });
    }
    if let Some(field) = header_fault(&record) {
        return Err(OrdersFault::At { row: 0, field });
    }
    read_lines(alloc, &mut reader, &mut record)
}

/// The order lines of a text: at most 200 records after the header `line,material,length,width,turn,count,worth`.
/// `line`, `count` and `worth` are one to ten digits of a number of 32 bits, `material` is a code, `length` and `width`
/// are lengths in millimetres, and `turn` is `yes` or `no`.
pub fn read_orders(alloc: Global, text: &[u8]) -> Result<RowList<OrderLine>, OrdersFault>
    ensures spelled { IfOk result (λ lines. IsOrders text.now lines) }
    ensures fault { IfErr result (λ f. HasOrdersFault text.now f) }
    ensures only { (lines : List OrderLine) → IsOrders text.now lines
        → MatchResult result (λ l. l ≡ lines) (λ f. f ≡ NoMemory) }
{
    orders_of(alloc, text)
}
