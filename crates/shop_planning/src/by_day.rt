//! The demands that are planned for where none are named: the first by the day on which their order is due.

ghost use Rattle.std.specs.Prelude.{◌≡◌, ◌<◌, ◌++◌, ◌∷◌, [], IfOk, OnOk, filter, map};
ghost use Rattle.shop_book.specs.Failures.{CountsFailure};
ghost use Rattle.shop_book.specs.Kept.{Unchanged, OnContent};
ghost use Rattle.shop_planning.specs.Asked.{first_by_day, with_row};
ghost use Rattle.shop_planning.specs.ByDay.{HaveRanks, IsLast, rank_by, ranks_in};
ghost use Rattle.shop_planning.specs.ByDay as by_day;

use cut_bound::MAX_ORDER_WANTS;
use shop_answers::FoundDemand;
use shop_book::{Book, BookFault};
use shop_records::Demand;
use std::alloc::{AllocError, Global};

/// A demand, and what it is taken by.
#[derive(Clone, Copy)]
pub struct Ranked {
    pub row: Demand,
    pub rank: u64,
}

// One number for a day and a demand's number: days rise, none is last, and of one day numbers rise.
fn make_rank(day: u32, number: u32) -> u64
    ensures value { result ≡ rank_by day number }
    ensures ranges { (day < 4294967296) × (number < 4294967296) }
{
    let place = if day == 0 { u32::MAX } else { day - 1 };
    u64::from(place) * 4_294_967_296 + u64::from(number)
}

fn push_rank(ranks: &mut Vec<Ranked>, row: Demand, rank: u64) -> Result<(), AllocError>
    ensures { OnOk result (ranks.new.items ≡ ranks.old.items
        ++ record { row = row; rank = rank } ∷ []) }
{
    ranks.push(Ranked { row, rank })?;
    Ok(())
}

// The demands, each with its rank.
fn ranks_of<B: Book>(alloc: Global, book: &mut B, rows: &[Demand]) -> Result<Vec<Ranked>, BookFault>
    ensures ranks { OnContent B.Book book.old book.new
        (λ m. IfOk result (λ ranks. HaveRanks m rows.now ranks.items)) }
    ensures keeps { Unchanged B.Book (CountsFailure result) book.old book.new }
{
    let mut ranks = Vec::new(alloc);
    for row in rows {
        let day = book.due(row.order)?;
        push_rank(&mut ranks, *row, make_rank(day, row.number))?;
    }
    Ok(ranks)
}

// The numbers of the ranks.
fn numbers_of(alloc: Global, ranks: &[Ranked]) -> Result<Vec<u64>, AllocError>
    ensures { IfOk result (λ numbers. numbers.items ≡ ranks_in ranks.now) }
{
    ranks.iter().map(|row| row.rank).collect(alloc)
}

// The last rank that is taken, if not all are.
fn last_rank(alloc: Global, ranks: &[Ranked]) -> Result<Option<u64>, AllocError>
    ensures { IfOk result (λ last. IsLast last (ranks_in ranks.now)) }
{
    let mut numbers = numbers_of(alloc, ranks)?;
    numbers.sort()?;
    Ok(numbers.get(MAX_ORDER_WANTS - 1).copied())
}

fn is_taken(last: Option<u64>, rank: u64) -> bool
    ensures { result ≡ by_day.is_taken last rank }
{
    match last {
        None => true,
        Some(last) => rank <= last,
    }
}

// Those that are taken.
fn taken(alloc: Global, ranks: &[Ranked], last: Option<u64>) -> Result<Vec<FoundDemand>, AllocError>
    ensures { IfOk result (λ found. found.items ≡ map (λ t. with_row t.row)
        (filter (λ t. by_day.is_taken last t.rank) ranks.now)) }
{
    ranks
        .iter()
        .filter(|row| is_taken(last, row.rank))
        .map(|row| FoundDemand {
            number: row.row.number,
            demand: Some(row.row),
        })
        .collect(alloc)
}

/// The first 100 of these demands by day.
pub fn first_demands<B: Book>(
    alloc: Global,
    book: &mut B,
    rows: &[Demand],
) -> Result<Vec<FoundDemand>, BookFault>
    ensures found { OnContent B.Book book.old book.new
        (λ m. IfOk result (λ found. found.items ≡ map with_row (first_by_day m rows.now))) }
    ensures keeps { Unchanged B.Book (CountsFailure result) book.old book.new }
{
    let ranks = ranks_of(alloc, book, rows)?;
    let last = last_rank(alloc, &ranks)?;
    let found = taken(alloc, &ranks, last)?;
    Ok(found)
}
