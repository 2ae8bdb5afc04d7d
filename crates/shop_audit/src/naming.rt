//! Which row two books differ by first, the tables by their names and each by its key.

use crate::compared::unread;
use crate::rows::Row;
use cut_measure::{Code, MAX_NUMBERS, PartName};
use shop_book::{Book, BookFault, Ledger, StrayUse, is_same_halt};
use shop_records::{Entry, Job, JobHalt, Material, MessageId};
use std::alloc::{AllocError, Global};
use std::cmp::Ordering;

/// More parts than bear the number of an act.
const MAX_NODES: u32 = 1024;

fn first_begun<B: Book, F: Book>(book: &mut B, anew: &mut F) -> Result<Option<Row>, BookFault> {
    let behind = book.next_act()?.max(anew.next_act()?);
    for number in 1..behind {
        if book.begun(number)? != anew.begun(number)? {
            return Ok(Some(Row::Begun(number)));
        }
    }
    Ok(None)
}

fn first_demand<B: Book, F: Book>(book: &mut B, anew: &mut F) -> Result<Option<Row>, BookFault> {
    let behind = book.next_demand()?.max(anew.next_demand()?);
    for number in 1..behind {
        if book.demand(number)? != anew.demand(number)? {
            return Ok(Some(Row::Demand(number)));
        }
    }
    Ok(None)
}

fn same_halt(one: &Option<JobHalt>, other: &Option<JobHalt>) -> bool {
    match (one, other) {
        (None, None) => true,
        (Some(a), Some(b)) => is_same_halt(a, b),
        _ => false,
    }
}

fn is_other_halt<B: Book, F: Book>(
    alloc: Global,
    book: &mut B,
    anew: &mut F,
    number: u32,
) -> Result<bool, BookFault> {
    match book.halt(alloc, number) {
        Ok(found) => Ok(!same_halt(&found, &anew.halt(alloc, number)?)),
        Err(fault) => {
            unread(fault)?;
            Ok(true)
        }
    }
}

fn first_halt<B: Book, F: Book>(
    alloc: Global,
    book: &mut B,
    anew: &mut F,
) -> Result<Option<Row>, BookFault> {
    let behind = book.next_act()?.max(anew.next_act()?);
    for number in 1..behind {
        if is_other_halt(alloc, book, anew, number)? {
            return Ok(Some(Row::Halt(number)));
        }
    }
    if book.text_counts()?.2 != anew.text_counts()?.2 {
        return Ok(Some(Row::OtherHalt));
    }
    Ok(None)
}

// The text of a job's tree.
fn tree_of(alloc: Global, job: &Job) -> Result<String, AllocError> {
    let mut text = String::new(alloc);
    job.plan.write(&mut text)?;
    Ok(text)
}

// Whether the rows of two jobs are the same. The sides and the kerf of a plan stand in other tables.
fn is_same_row(alloc: Global, one: &Job, other: &Job) -> Result<bool, AllocError> {
    if one.part != other.part || one.state != other.state {
        return Ok(false);
    }
    let tree = tree_of(alloc, one)?;
    let other = tree_of(alloc, other)?;
    Ok(tree.as_str() == other.as_str())
}

fn same_job(alloc: Global, one: &Option<Job>, other: &Option<Job>) -> Result<bool, AllocError> {
    match (one, other) {
        (None, None) => Ok(true),
        (Some(a), Some(b)) => is_same_row(alloc, a, b),
        _ => Ok(false),
    }
}

fn first_job<B: Book, F: Book>(
    alloc: Global,
    book: &mut B,
    anew: &mut F,
) -> Result<Option<Row>, BookFault> {
    let behind = book.next_act()?.max(anew.next_act()?);
    for number in 1..behind {
        if !same_job(alloc, &book.job(alloc, number)?, &anew.job(alloc, number)?)? {
            return Ok(Some(Row::Job(number)));
        }
    }
    Ok(None)
}

fn is_other_import<B: Book, F: Book>(
    alloc: Global,
    book: &mut B,
    anew: &mut F,
    code: Code,
) -> Result<bool, BookFault> {
    match book.import(alloc, code) {
        Ok(found) => Ok(found != anew.import(alloc, code)?),
        Err(fault) => {
            unread(fault)?;
            Ok(true)
        }
    }
}

// The first of the orders of one book of whose import the books don't keep the same.
fn first_import_of<B: Book, F: Book>(
    alloc: Global,
    book: &mut B,
    anew: &mut F,
    codes: &[Code],
) -> Result<Option<Code>, BookFault> {
    for code in codes {
        if is_other_import(alloc, book, anew, *code)? {
            return Ok(Some(*code));
        }
    }
    Ok(None)
}

// The one of two codes that stands first.
fn lesser(one: Option<Code>, other: Option<Code>) -> Option<Code> {
    match (one, other) {
        (Some(a), Some(b)) => match a.order(&b) {
            Ordering::Greater => Some(b),
            _ => Some(a),
        },
        (Some(a), None) => Some(a),
        (None, found) => found,
    }
}

fn first_import<B: Book, F: Book>(
    alloc: Global,
    book: &mut B,
    anew: &mut F,
) -> Result<Option<Row>, BookFault> {
    let codes = book.first_orders(alloc, None, usize::MAX)?;
    let one = first_import_of(alloc, book, anew, codes.as_slice())?;
    let codes = anew.first_orders(alloc, None, usize::MAX)?;
    let other = first_import_of(alloc, book, anew, codes.as_slice())?;
    match lesser(one, other) {
        Some(code) => Ok(Some(Row::Import(code))),
        None => Ok(None),
    }
}

fn first_entry<B: Book, F: Book>(
    book: &mut B,
    anew: &mut F,
    entries: u64,
) -> Result<Option<Row>, BookFault> {
    for before in 0..entries {
        let number = before + 1;
        if book.entry(number)? != anew.entry(number)? {
            return Ok(Some(Row::Journal(number)));
        }
    }
    Ok(None)
}

// The message ID that stands first, of one that was found and of one that may differ.
fn earlier(found: Option<MessageId>, message_id: MessageId) -> MessageId {
    let Some(least) = found else {
        return message_id;
    };
    if least.terminal < message_id.terminal {
        return least;
    }
    if least.terminal == message_id.terminal && least.number < message_id.number {
        return least;
    }
    message_id
}

// Whether the books don't keep the same of an entry's message.
fn is_kept_otherwise<B: Book, F: Book>(
    alloc: Global,
    book: &mut B,
    anew: &mut F,
    message_id: MessageId,
) -> Result<bool, BookFault> {
    let one = book.kept(alloc, message_id.terminal, message_id.number)?;
    let other = anew.kept(alloc, message_id.terminal, message_id.number)?;
    Ok(one != other)
}

// The message of an entry, where the books don't keep the same of it and it stands before one that was found.
fn least_kept<B: Book, F: Book>(
    alloc: Global,
    book: &mut B,
    anew: &mut F,
    found: Option<MessageId>,
    entry: Option<Entry>,
) -> Result<Option<MessageId>, BookFault> {
    let Some(entry) = entry else {
        return Ok(found);
    };
    if is_kept_otherwise(alloc, book, anew, entry.message_id)? {
        return Ok(Some(earlier(found, entry.message_id)));
    }
    Ok(found)
}

fn first_kept<B: Book, F: Book>(
    alloc: Global,
    book: &mut B,
    anew: &mut F,
    entries: u64,
) -> Result<Option<Row>, BookFault> {
    let mut found = None;
    for before in 0..entries {
        let entry = anew.entry(before + 1)?;
        found = least_kept(alloc, book, anew, found, entry)?;
    }
    match found {
        Some(message_id) => Ok(Some(Row::Kept(message_id))),
        None => Ok(None),
    }
}

// The code of the material of a place in a list, if there is one.
fn code_at(materials: &[Material], at: usize) -> Option<Code> {
    match materials.get(at) {
        Some(material) => Some(material.code),
        None => None,
    }
}

fn first_material<B: Book, F: Book>(
    alloc: Global,
    book: &mut B,
    anew: &mut F,
) -> Result<Option<Row>, BookFault> {
    let one = book.materials(alloc)?;
    let other = anew.materials(alloc)?;
    let most = one.as_slice().len().max(other.as_slice().len());
    for at in 0..most {
        if one.as_slice().get(at) != other.as_slice().get(at) {
            let first = lesser(code_at(one.as_slice(), at), code_at(other.as_slice(), at));
            return match first {
                Some(code) => Ok(Some(Row::Material(code))),
                None => Ok(None),
            };
        }
    }
    Ok(None)
}

// The first of the orders of one book of which the books don't have the same note.
fn first_note_of<B: Book, F: Book>(
    alloc: Global,
    book: &mut B,
    anew: &mut F,
    codes: &[Code],
) -> Result<Option<Code>, BookFault> {
    for code in codes {
        if book.note(alloc, *code)? != anew.note(alloc, *code)? {
            return Ok(Some(*code));
        }
    }
    Ok(None)
}

fn first_note<B: Book, F: Book>(
    alloc: Global,
    book: &mut B,
    anew: &mut F,
) -> Result<Option<Row>, BookFault> {
    let codes = book.first_orders(alloc, None, usize::MAX)?;
    let one = first_note_of(alloc, book, anew, codes.as_slice())?;
    let codes = anew.first_orders(alloc, None, usize::MAX)?;
    let other = first_note_of(alloc, book, anew, codes.as_slice())?;
    match lesser(one, other) {
        Some(code) => Ok(Some(Row::Note(code))),
        None => Ok(None),
    }
}

fn first_order<B: Book, F: Book>(
    alloc: Global,
    book: &mut B,
    anew: &mut F,
) -> Result<Option<Row>, BookFault> {
    let one = book.first_orders(alloc, None, usize::MAX)?;
    let other = anew.first_orders(alloc, None, usize::MAX)?;
    let most = one.as_slice().len().max(other.as_slice().len());
    for at in 0..most {
        let a = one.as_slice().get(at).copied();
        let b = other.as_slice().get(at).copied();
        if a != b {
            return match lesser(a, b) {
                Some(code) => Ok(Some(Row::Order(code))),
                None => Ok(None),
            };
        }
    }
    Ok(None)
}

fn first_part_of(one: &Ledger, other: &Ledger, act: u32) -> Option<Row> {
    if act < 1 {
        return None;
    }
    if act > MAX_NUMBERS {
        return None;
    }
    for node in 0..MAX_NODES {
        let name = PartName::new(act, node);
        if one.part(name) != other.part(name) {
            return Some(Row::Part(name));
        }
    }
    None
}

fn first_part(one: &Ledger, other: &Ledger, behind: u32) -> Option<Row> {
    for act in 1..behind {
        if let Some(row) = first_part_of(one, other, act) {
            return Some(row);
        }
    }
    None
}

// The first row of the tables whose names stand before `jobs`.
fn first_before_jobs<B: Book, F: Book>(
    alloc: Global,
    book: &mut B,
    anew: &mut F,
) -> Result<Option<Row>, BookFault> {
    if let Some(row) = first_begun(book, anew)? {
        return Ok(Some(row));
    }
    if let Some(row) = first_demand(book, anew)? {
        return Ok(Some(row));
    }
    if let Some(row) = first_halt(alloc, book, anew)? {
        return Ok(Some(row));
    }
    if let Some(row) = first_import(alloc, book, anew)? {
        return Ok(Some(row));
    }
    if book.text_counts()?.1 != anew.text_counts()?.1 {
        return Ok(Some(Row::OtherImport));
    }
    Ok(None)
}

// The first row of the tables whose names stand before `meta`.
fn first_before_meta<B: Book, F: Book>(
    alloc: Global,
    book: &mut B,
    anew: &mut F,
    entries: u64,
) -> Result<Option<Row>, BookFault> {
    if let Some(row) = first_before_jobs(alloc, book, anew)? {
        return Ok(Some(row));
    }
    if let Some(row) = first_job(alloc, book, anew)? {
        return Ok(Some(row));
    }
    if let Some(row) = first_entry(book, anew, entries)? {
        return Ok(Some(row));
    }
    if let Some(row) = first_kept(alloc, book, anew, entries)? {
        return Ok(Some(row));
    }
    first_material(alloc, book, anew)
}

// The row that a stray order of a job is reported as.
fn use_row(stray: &StrayUse) -> Row {
    match stray {
        StrayUse::Use(job, order) => Row::Use(*job, *order),
        StrayUse::Other => Row::OtherUse,
    }
}

// The first order of a job by which a book differs from its own jobs' plans, which is the last row that may differ.
fn first_use<B: Book>(alloc: Global, book: &mut B) -> Result<Row, BookFault> {
    let found = book.stray_use(alloc)?;
    match &found {
        Some(stray) => Ok(use_row(stray)),
        None => Ok(Row::LastAct),
    }
}

/// The first row by which two books with so many entries differ, where their contents do, or what the first one lists of its jobs.
pub fn first_row<B: Book, F: Book>(
    alloc: Global,
    book: &mut B,
    anew: &mut F,
    entries: u64,
) -> Result<Row, BookFault> {
    if let Some(row) = first_before_meta(alloc, book, anew, entries)? {
        return Ok(row);
    }
    if book.next_act()? != anew.next_act()? {
        return Ok(Row::LastAct);
    }
    if book.next_demand()? != anew.next_demand()? {
        return Ok(Row::LastDemand);
    }
    if let Some(row) = first_note(alloc, book, anew)? {
        return Ok(row);
    }
    if let Some(row) = first_order(alloc, book, anew)? {
        return Ok(row);
    }
    let behind = book.next_act()?.max(anew.next_act()?);
    match first_part(book.rows(), anew.rows(), behind) {
        Some(row) => Ok(row),
        None => first_use(alloc, book),
    }
}
