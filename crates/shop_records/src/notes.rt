//! What is said of an order: the day on which it is due, and a text.

ghost use Rattle.std.specs.Prelude.{◌≡◌};
ghost use Rattle.shop_records.specs.Notes.{begins_control, begins_low, days_in, has_control, is_day, is_due, is_leap, is_note, is_note_text};

use crate::texts::Text;
use cut_measure::Code;
use std::alloc::{AllocError, Global};

/// The most bytes of the text that is said of an order.
pub const MAX_NOTE_LEN: usize = 200;

/// What is said of an order.
#[derive(Debug, Drop, PartialEq)]
pub struct OrderNote {
    pub order: Code,
    /// The day on which it is due, as 20261203 for the 3rd of December 2026, or 0.
    pub due: u32,
    /// Up to 200 bytes, none of them of a control character.
    pub text: Text,
}

impl OrderNote {
    ghost use Rattle.std.specs.Prelude.{◌≡◌, IfOk};

    /// The same note in memory of its own.
    pub fn copy(&self, alloc: Global) -> Result<OrderNote, AllocError>
        ensures { IfOk result (λ copy. copy ≡ self.now) }
    {
        let text = self.text.copy(alloc)?;
        Ok(OrderNote {
            order: self.order,
            due: self.due,
            text,
        })
    }
}

// Whether a year of the calendar has a 29th of February.
fn is_leap(year: u32) -> bool
    ensures { result ≡ is_leap year }
{
    year % 4 == 0 && (year % 100 != 0 || year % 400 == 0)
}

// How many days a month of a year has.
fn days_in(year: u32, month: u32) -> u32
    ensures { result ≡ days_in year month }
{
    if month == 2 {
        if is_leap(year) { 29 } else { 28 }
    } else if month == 4 || month == 6 || month == 9 || month == 11 {
        30
    } else {
        31
    }
}

// Whether a number is a day of the calendar, from 19700101 to 99991231.
fn is_day(number: u32) -> bool
    ensures { result ≡ is_day number }
{
    let year = number / 10000;
    let month = number / 100 % 100;
    let day = number % 100;
    1970 <= year
        && year <= 9999
        && 1 <= month
        && month <= 12
        && 1 <= day
        && day <= days_in(year, month)
}

fn is_due(due: u32) -> bool
    ensures { result ≡ is_due due }
{
    due == 0 || is_day(due)
}

// Whether the first byte is one from 0x80 to 0x9F.
fn begins_low(bytes: &[u8]) -> bool
    ensures { result ≡ begins_low bytes.now }
{
    match bytes {
        [] => false,
        [first, ..] => 0x80 <= *first && *first <= 0x9F,
    }
}

// Whether a control character begins with this byte and those after it.
fn begins_control(first: u8, more: &[u8]) -> bool
    ensures { result ≡ begins_control first more.now }
{
    first < 0x20 || first == 0x7F || (first == 0xC2 && begins_low(more))
}

// Whether a control character begins at some byte.
fn has_control(bytes: &[u8]) -> bool
    ensures { result ≡ has_control bytes.now }
{
    let [first, more @ ..] = bytes else {
        return false;
    };
    begins_control(*first, more) || has_control(more)
}

fn is_note_text(text: &str) -> bool
    ensures { result ≡ is_note_text text.now }
{
    text.len() <= MAX_NOTE_LEN && !has_control(text.as_bytes())
}

/// Whether this may be said of an order: a day of the calendar from 19700101 to 99991231, or 0, and a text of up to 200 bytes
/// without a control character.
pub fn is_note(due: u32, text: &str) -> bool
    ensures { result ≡ is_note due text.now }
{
    is_due(due) && is_note_text(text)
}
