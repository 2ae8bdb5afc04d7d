//! The demands and the parts that a query asks for, found in a book.

ghost use Rattle.std.specs.Prelude.{◌≡◌, ◌≤◌, ◌++◌, ◌∷◌, [], IfOk, OnOk, filter, length, map, take, Some, None};
ghost use Rattle.cut_bound.specs.declared.limits.TheConstants.{MAX_PARTS};
ghost use Rattle.shop_records.specs.Content.{part_at};
ghost use Rattle.shop_records.specs.Lists.{parts_after};
ghost use Rattle.shop_book.specs.Failures.{CountsFailure};
ghost use Rattle.shop_book.specs.Kept.{Unchanged, OnContent};
ghost use Rattle.shop_planning.specs.Asked as asked;

use crate::by_day::first_demands;
use cut_bound::MAX_PARTS;
use cut_measure::{Code, Kind, MAX_NUMBERS, PartName};
use cut_plan::MAX_BAR_LENGTH;
use shop_answers::{FoundDemand, left_of};
use shop_book::{Book, BookFault};
use shop_plans::{NameList, PlansQuery};
use shop_records::{Demand, NumberList, Part};
use std::alloc::{AllocError, Global};

/// So many rows are read before all are.
const FIRST_ROWS: usize = 2000;

/// As many rows as there may be of a list.
const ALL_ROWS: usize = MAX_NUMBERS as usize;

/// The demands and the parts that a query asks for, as far as they were found.
#[derive(Drop)]
pub struct AskedRows {
    pub demands: Vec<FoundDemand>,
    pub parts: Vec<Option<Part>>,
}

// Whether something is left of a demand.
fn has_left(demand: &Demand) -> bool
    ensures { result ≡ asked.has_left demand.now }
{
    0 < left_of(demand)
}

// Those of the rows of which something is left.
fn left_rows(alloc: Global, rows: &[Demand]) -> Result<Vec<Demand>, AllocError>
    ensures { IfOk result (λ left. left.items ≡ filter asked.has_left rows.now) }
{
    rows.iter()
        .filter(|demand| has_left(demand))
        .copied()
        .collect(alloc)
}

// The first demands of a material by day of which something is left.
fn left_demands<B: Book>(
    alloc: Global,
    book: &mut B,
    material: Code,
) -> Result<Vec<FoundDemand>, BookFault>
    ensures found { OnContent B.Book book.old book.new
        (λ m. IfOk result (λ found. found.items ≡ asked.demands_for m material None)) }
    ensures keeps { Unchanged B.Book (CountsFailure result) book.old book.new }
{
    let rows = book.first_demands(alloc, 0, Some(material), ALL_ROWS)?;
    let left = left_rows(alloc, rows.as_slice())?;
    first_demands(alloc, book, &left)
}

fn push_demand(
    found: &mut Vec<FoundDemand>,
    number: u32,
    demand: Option<Demand>,
) -> Result<(), AllocError>
    ensures { OnOk result (found.new.items ≡ found.old.items
        ++ record { number = number; demand = demand } ∷ []) }
{
    found.push(FoundDemand { number, demand })?;
    Ok(())
}

// The demands of these numbers.
fn named_demands<B: Book>(
    alloc: Global,
    book: &mut B,
    numbers: &[u32],
) -> Result<Vec<FoundDemand>, BookFault>
    ensures found { OnContent B.Book book.old book.new
        (λ m. IfOk result (λ found. found.items ≡ map (asked.found_demand m) numbers.now)) }
    ensures keeps { Unchanged B.Book (CountsFailure result) book.old book.new }
{
    let mut found = Vec::new(alloc);
    for number in numbers {
        let demand = book.demand(*number)?;
        push_demand(&mut found, *number, demand)?;
    }
    Ok(found)
}

// The demands that are named, or the first of which something is left.
fn demands_for<B: Book>(
    alloc: Global,
    book: &mut B,
    material: Code,
    demands: &Option<NumberList>,
) -> Result<Vec<FoundDemand>, BookFault>
    ensures found { OnContent B.Book book.old book.new
        (λ m. IfOk result (λ found. found.items ≡ asked.demands_for m material demands.now)) }
    ensures keeps { Unchanged B.Book (CountsFailure result) book.old book.new }
{
    match demands {
        Some(numbers) => named_demands(alloc, book, numbers.as_slice()),
        None => left_demands(alloc, book, material),
    }
}

// Whether a bar is longer than what is planned.
fn is_long(kind: Kind, part: &Part) -> bool
    ensures { result ≡ asked.is_long kind part.now }
{
    match kind {
        Kind::Bar => part.size.w() > MAX_BAR_LENGTH,
        Kind::Sheet => false,
    }
}

// Whether a part may be planned.
fn can_be_planned(kind: Kind, part: &Part) -> bool
    ensures { result ≡ asked.can_be_planned kind part.now }
{
    part.state.is_free() && !is_long(kind, part)
}

// The first of the rows that may be planned.
fn first_planned(alloc: Global, kind: Kind, rows: &[Part]) -> Result<Vec<Option<Part>>, AllocError>
    ensures found { IfOk result (λ found. found.items ≡ asked.first_planned kind rows.now) }
    ensures few { IfOk result (λ found. length found.items ≤ MAX_PARTS) }
{
    rows.iter()
        .filter(|part| can_be_planned(kind, part))
        .take(MAX_PARTS as usize)
        .map(|part| Some(*part))
        .collect(alloc)
}

// The same of the first standing and reserved parts of a material, so many of them.
fn first_standing<B: Book>(
    alloc: Global,
    book: &mut B,
    material: Code,
    kind: Kind,
    most: usize,
) -> Result<Vec<Option<Part>>, BookFault>
    ensures found { OnContent B.Book book.old book.new (λ m. IfOk result (λ found. found.items
        ≡ asked.first_planned kind (take most (parts_after m material None)))) }
    ensures few { IfOk result (λ found. length found.items ≤ MAX_PARTS) }
    ensures keeps { Unchanged B.Book (CountsFailure result) book.old book.new }
{
    let rows = book.first_parts(alloc, material, None, most)?;
    let found = first_planned(alloc, kind, rows.as_slice())?;
    Ok(found)
}

// The first standing parts of a material that may be planned.
fn planned_parts<B: Book>(
    alloc: Global,
    book: &mut B,
    material: Code,
    kind: Kind,
) -> Result<Vec<Option<Part>>, BookFault>
    ensures found { OnContent B.Book book.old book.new
        (λ m. IfOk result (λ found. found.items ≡ asked.parts_for m material kind None)) }
    ensures few { IfOk result (λ found. length found.items ≤ MAX_PARTS) }
    ensures keeps { Unchanged B.Book (CountsFailure result) book.old book.new }
{
    let found = first_standing(alloc, book, material, kind, FIRST_ROWS)?;
    if found.len() == MAX_PARTS as usize {
        return Ok(found);
    }
    first_standing(alloc, book, material, kind, ALL_ROWS)
}

fn push_part(found: &mut Vec<Option<Part>>, part: Option<Part>) -> Result<(), AllocError>
    ensures { OnOk result (found.new.items ≡ found.old.items ++ part ∷ []) }
{
    found.push(part)?;
    Ok(())
}

// The parts of these names.
fn named_parts<B: Book>(
    alloc: Global,
    book: &mut B,
    names: &[PartName],
) -> Result<Vec<Option<Part>>, BookFault>
    ensures found { OnContent B.Book book.old book.new
        (λ m. IfOk result (λ found. found.items ≡ map (part_at m) names.now)) }
    ensures each { IfOk result (λ found. length found.items ≡ length names.now) }
    ensures keeps { Unchanged B.Book (CountsFailure result) book.old book.new }
{
    let mut found = Vec::new(alloc);
    for name in names {
        let part = book.part(*name)?;
        push_part(&mut found, part)?;
    }
    Ok(found)
}

// The parts that are named, or the first that may be planned.
fn parts_for<B: Book>(
    alloc: Global,
    book: &mut B,
    material: Code,
    kind: Kind,
    parts: &Option<NameList>,
) -> Result<Vec<Option<Part>>, BookFault>
    requires { asked.AreFewNames parts.now }
    ensures found { OnContent B.Book book.old book.new
        (λ m. IfOk result (λ found. found.items ≡ asked.parts_for m material kind parts.now)) }
    ensures few { IfOk result (λ found. length found.items ≤ MAX_PARTS) }
    ensures keeps { Unchanged B.Book (CountsFailure result) book.old book.new }
{
    match parts {
        Some(names) => named_parts(alloc, book, names.as_slice()),
        None => planned_parts(alloc, book, material, kind),
    }
}

/// The demands and the parts that a query asks for. Its lists are ones that are planned.
pub fn asked_rows<B: Book>(
    alloc: Global,
    book: &mut B,
    query: &PlansQuery,
    kind: Kind,
) -> Result<AskedRows, BookFault>
    requires { asked.AreFewNames query.now.parts }
    ensures rows { OnContent B.Book book.old book.new (λ m. IfOk result (asked.AreAsked m kind query.now)) }
    ensures few { IfOk result (λ rows. length rows.parts.items ≤ MAX_PARTS) }
    ensures keeps { Unchanged B.Book (CountsFailure result) book.old book.new }
{
    let demands = demands_for(alloc, book, query.material, &query.demands)?;
    let parts = parts_for(alloc, book, query.material, kind, &query.parts)?;
    Ok(AskedRows { demands, parts })
}
