//! Answers to queries, from a book's rows.

ghost use Rattle.std.specs.Prelude.{◌≡◌, ◌≢◌, IfOk};
ghost use Rattle.shop_records.specs.Content.{demand_at, material_at, material_of, part_at, parts_of, rack_rows};
ghost use Rattle.shop_answers.specs.Planning.{AreAsked};
ghost use Rattle.shop_answers.specs.Queries.{Answers};
ghost use Rattle.shop_records.specs.declared.messages.Query.TheVariants.{Totals, Rack, Trace, Demand, Plan, Bound};
ghost use Rattle.shop_records.specs.declared.messages.Reply.TheVariants.{Refused, Rack as RackParts};
ghost use Rattle.shop_records.specs.declared.refusals.Refusal.TheVariants.{NoMemory, StoreFault};
ghost use Rattle.shop_book.specs.Failures.{CountsFailure};
ghost use Rattle.shop_book.specs.Kept.{Unchanged, OnContent};
ghost use Rattle.shop_desk.specs.Faults.{CountsReply, StoreFailed};

use crate::found::{demands_for, material_for};
use crate::history::{history, shop, story};
use crate::listing::{demands, job, jobs, lines, materials, orders, parts, terminal};
use crate::nodes::steps;
use crate::pieces::pieces;
use crate::racks::RackTaker;
use cut_measure::PartName;
use shop_book::{Book, BookFault};
use shop_rules::{
    Code, FoundList, Material, Part, Query, RackList, Refusal, Reply, answer_bound, answer_plan,
};
use std::alloc::Global;

// The cells of a material.
fn totals<B: Book>(book: &mut B, material: Code) -> Reply
    ensures answer { OnContent B.Book book.old book.new (λ m. Answers m (Totals material) result) }
    ensures keeps { Unchanged B.Book (CountsReply result) book.old book.new }
{
    match book.material(material) {
        Err(fault) => Reply::Refused(Refusal::from(fault)),
        Ok(None) => Reply::Refused(Refusal::NoMaterial),
        Ok(Some(_)) => match book.totals(material) {
            Err(fault) => Reply::Refused(Refusal::from(fault)),
            Ok(totals) => Reply::Totals {
                material,
                received: totals.received,
                stock: totals.stock,
                rack: totals.rack,
                pieces: totals.pieces,
                kerf: totals.kerf,
                scrap: totals.scrap,
                returned: totals.returned,
            },
        },
    }
}

// The parts on the rack of a material that is there.
fn known_rack<B: Book>(alloc: Global, book: &mut B, material: Code) -> Reply
    ensures answer { OnContent B.Book book.old book.new
        (λ m. result ≢ Refused NoMemory → result ≢ Refused StoreFault
        → result ≡ RackParts material (rack_rows (parts_of m material))) }
    ensures keeps { Unchanged B.Book (CountsReply result) book.old book.new }
{
    let mut taker = RackTaker {
        parts: RackList::new(alloc),
    };
    match book.visit_parts(material, &mut taker) {
        Err(fault) => Reply::Refused(Refusal::from(fault)),
        Ok(false) => Reply::Refused(Refusal::NoMemory),
        Ok(true) => Reply::Rack {
            material,
            parts: taker.parts,
        },
    }
}

// A material's parts on the rack.
fn rack<B: Book>(alloc: Global, book: &mut B, material: Code) -> Reply
    ensures answer { OnContent B.Book book.old book.new (λ m. Answers m (Rack material) result) }
    ensures keeps { Unchanged B.Book (CountsReply result) book.old book.new }
{
    match book.material(material) {
        Err(fault) => Reply::Refused(Refusal::from(fault)),
        Ok(found) => match found {
            Some(_) => known_rack(alloc, book, material),
            None => Reply::Refused(Refusal::NoMaterial),
        },
    }
}

// What became of a part.
fn trace<B: Book>(book: &mut B, part: PartName) -> Reply
    ensures answer { OnContent B.Book book.old book.new (λ m. Answers m (Trace part) result) }
    ensures keeps { Unchanged B.Book (CountsReply result) book.old book.new }
{
    match book.part(part) {
        Err(fault) => Reply::Refused(Refusal::from(fault)),
        Ok(None) => Reply::Refused(Refusal::NoPart),
        Ok(Some(part)) => Reply::Trace {
            batch: part.batch,
            h: part.size.h(),
            of: part.state.of(),
            part: part.name,
            root: part.root,
            state: part.state.word(),
            w: part.size.w(),
            x: part.x,
            y: part.y,
        },
    }
}

// How a demand stands.
fn demand<B: Book>(book: &mut B, number: u32) -> Reply
    ensures answer { OnContent B.Book book.old book.new (λ m. Answers m (Demand number) result) }
    ensures keeps { Unchanged B.Book (CountsReply result) book.old book.new }
{
    match book.demand(number) {
        Err(fault) => Reply::Refused(Refusal::from(fault)),
        Ok(None) => Reply::Refused(Refusal::NoDemand),
        Ok(Some(demand)) => Reply::Demand {
            demand: demand.number,
            line: demand.line,
            made: demand.made,
            material: demand.material,
            order: demand.order,
            reserved: demand.reserved,
            wanted: demand.wanted,
        },
    }
}

// A part, its material and the demands of a query, as far as they were found.
struct PlanRows {
    part: Option<Part>,
    material: Option<Material>,
    demands: Option<FoundList>,
}

fn plan_rows<B: Book>(
    alloc: Global,
    book: &mut B,
    part: PartName,
    numbers: &[u32],
) -> Result<PlanRows, BookFault>
    ensures rows { OnContent B.Book book.old book.new
        (λ m. IfOk result (λ rows. (rows.part ≡ part_at m part)
        × (rows.material ≡ material_of m rows.part)
        × AreAsked (demand_at m) numbers.now rows.demands)) }
    ensures keeps { Unchanged B.Book (CountsFailure result) book.old book.new }
{
    let part = book.part(part)?;
    let material = material_for(book, &part)?;
    let demands = demands_for(alloc, book, numbers)?;
    Ok(PlanRows {
        part,
        material,
        demands,
    })
}

// Which plan to cut a part by.
fn plan<B: Book>(alloc: Global, book: &mut B, part: PartName, numbers: &[u32], step: u32) -> Reply
    ensures answer { OnContent B.Book book.old book.new
        (λ m. Answers m (Plan part numbers.now step) result) }
    ensures keeps { Unchanged B.Book (CountsReply result) book.old book.new }
{
    match plan_rows(alloc, book, part, numbers) {
        Err(fault) => Reply::Refused(Refusal::from(fault)),
        Ok(
            PlanRows {
                part,
                material,
                demands,
            },
        ) => answer_plan(alloc, part, material, &demands, step),
    }
}

// A material and the demands of a query, as far as they were found.
struct BoundRows {
    material: Option<Material>,
    demands: Option<FoundList>,
}

fn bound_rows<B: Book>(
    alloc: Global,
    book: &mut B,
    material: Code,
    numbers: &[u32],
) -> Result<BoundRows, BookFault>
    ensures rows { OnContent B.Book book.old book.new
        (λ m. IfOk result (λ rows. (rows.material ≡ material_at m material)
        × AreAsked (demand_at m) numbers.now rows.demands)) }
    ensures keeps { Unchanged B.Book (CountsFailure result) book.old book.new }
{
    let material = book.material(material)?;
    let demands = demands_for(alloc, book, numbers)?;
    Ok(BoundRows { material, demands })
}

// How many units of a size it takes at least.
fn bound<B: Book>(
    alloc: Global,
    book: &mut B,
    material: Code,
    w: u32,
    h: u32,
    numbers: &[u32],
    step: u32,
) -> Reply
    ensures answer { OnContent B.Book book.old book.new
        (λ m. Answers m (Bound material w h numbers.now step) result) }
    ensures keeps { Unchanged B.Book (CountsReply result) book.old book.new }
{
    match bound_rows(alloc, book, material, numbers) {
        Err(fault) => Reply::Refused(Refusal::from(fault)),
        Ok(
            BoundRows {
                material: row,
                demands,
            },
        ) => answer_bound(alloc, material, row, w, h, &demands, step),
    }
}

/// Answers a query, and changes nothing.
pub fn ask<B: Book>(alloc: Global, book: &mut B, query: &Query) -> Reply
    ensures answer { OnContent B.Book book.old book.new (λ m. Answers m query.now result) }
    ensures keeps { Unchanged B.Book (CountsReply result) book.old book.new }
    ensures store_fault { result ≡ Refused StoreFault
        → StoreFailed (B.failed book.old) (B.failed book.new) }
{
    match query {
        Query::Totals { material } => totals(book, *material),
        Query::Rack { material } => rack(alloc, book, *material),
        Query::Trace { part } => trace(book, *part),
        Query::Demand { demand: number } => demand(book, *number),
        Query::Plan {
            part,
            demands,
            step,
        } => plan(alloc, book, *part, demands.as_slice(), *step),
        Query::Bound {
            material,
            w,
            h,
            demands,
            step,
        } => bound(alloc, book, *material, *w, *h, demands.as_slice(), *step),
        Query::Materials => materials(alloc, book),
        Query::Parts { material, after } => parts(alloc, book, *material, *after),
        Query::Demands { after, material } => demands(alloc, book, *after, *material),
        Query::Jobs { after } => jobs(alloc, book, *after),
        Query::Job { job: number } => job(alloc, book, *number),
        Query::Terminal { terminal: number } => terminal(book, *number),
        Query::Orders { after } => orders(alloc, book, *after),
        Query::Lines { order } => lines(alloc, book, *order),
        Query::Shop => shop(book),
        Query::History { after } => history(alloc, book, *after),
        Query::Story { about, after } => story(alloc, book, *about, *after),
        Query::Pieces { of, after } => pieces(alloc, book, *of, *after),
        Query::Steps { job: number } => steps(alloc, book, *number),
    }
}
