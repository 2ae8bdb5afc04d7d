//! The rows of the basis: the inverse of its matrix, row by row, and last in each row the amount of
//! its column. A pivot is a step of Gauss and Jordan on them all.

use crate::column::{Choice, Column};
use crate::fixed::{ONE, TINY, add_times, divide};

/// What a row has of the column that enters, and the row's amount.
#[derive(Clone, Copy)]
struct Share {
    row: usize,
    slope: i128,
    amount: i128,
}

impl Share {
    /// Whether the row's amount is used up before another's; of two at once the one with the
    /// greater slope.
    fn is_before(self, other: Share) -> Option<bool> {
        let mine = self.amount.max(0).checked_mul(other.slope)?;
        let others = other.amount.max(0).checked_mul(self.slope)?;
        Some(mine < others || mine == others && self.slope > other.slope)
    }

    /// The first to be used up of a row and what was found so far.
    fn first(self, found: Option<Share>) -> Option<Share> {
        match found {
            None => Some(self),
            Some(other) => {
                if self.is_before(other)? {
                    Some(self)
                } else {
                    Some(other)
                }
            }
        }
    }
}

/// Writes what the column takes of each row's column.
pub fn find_slopes(
    slopes: &mut [i128],
    rows: &[Vec<i128>],
    choice: &Choice,
    column: Column,
) -> Option<()> {
    for (slope, row) in slopes.iter_mut().zip(rows) {
        *slope = choice.worth(column, row)?;
    }
    Some(())
}

/// The row whose amount is used up first as the column enters, so that no amount falls below 0.
pub fn leaving_row(rows: &[Vec<i128>], slopes: &[i128]) -> Option<usize> {
    let mut found = None;
    for (row, slope) in slopes.iter().enumerate() {
        if *slope > TINY {
            let amount = *rows.get(row)?.last()?;
            let share = Share {
                row,
                slope: *slope,
                amount,
            };
            found = Some(share.first(found)?);
        }
    }
    Some(found?.row)
}

/// The place of the slope that is farthest from 0, at a first place or after it.
fn steepest(slopes: &[i128], first: usize) -> usize {
    let mut place = first;
    let mut most = 0u128;
    for (row, slope) in slopes.iter().enumerate() {
        if row >= first && slope.unsigned_abs() > most {
            place = row;
            most = slope.unsigned_abs();
        }
    }
    place
}

/// Takes the base from each row as often as its slope says.
fn clear(rows: &mut [Vec<i128>], slopes: &[i128], base: &[i128]) -> Option<()> {
    for (row, slope) in rows.iter_mut().zip(slopes) {
        add_times(row, slope.checked_neg()?, base)?;
    }
    Some(())
}

/// Makes the column with these slopes that of a row.
pub fn pivot(rows: &mut [Vec<i128>], slopes: &[i128], row: usize) -> Option<()> {
    if row >= rows.len() || row >= slopes.len() {
        return None;
    }
    let (before, rest) = rows.split_at_mut(row);
    let (base, after) = rest.split_first_mut()?;
    divide(base, slopes[row])?;
    clear(before, &slopes[..row], base)?;
    clear(after, &slopes[row + 1..], base)
}

/// Writes the rows of the columns that the program begins with.
pub fn reset(rows: &mut [Vec<i128>], amounts: &[i128]) {
    for (place, (row, amount)) in rows.iter_mut().zip(amounts).enumerate() {
        row.fill(0);
        if let Some(cell) = row.get_mut(place) {
            *cell = ONE;
        }
        if let Some(last) = row.last_mut() {
            *last = *amount;
        }
    }
}

/// Swaps two rows and their slopes.
fn swap_rows(rows: &mut [Vec<i128>], slopes: &mut [i128], a: usize, b: usize) -> Option<()> {
    if a.max(b) >= rows.len().min(slopes.len()) {
        return None;
    }
    rows.swap(a, b);
    slopes.swap(a, b);
    Some(())
}

/// Makes a column that of the row at a place, by a pivot on the steepest of the rows that have none
/// of theirs yet.
pub fn place(
    rows: &mut [Vec<i128>],
    slopes: &mut [i128],
    choice: &Choice,
    column: Column,
    place: usize,
) -> Option<()> {
    find_slopes(slopes, rows, choice, column)?;
    let found = steepest(slopes, place);
    swap_rows(rows, slopes, place, found)?;
    if slopes.get(place)?.unsigned_abs() < TINY as u128 {
        return None;
    }
    pivot(rows, slopes, place)
}
