//! Answers to the queries for lists, for a job, for the lines of an order and for a terminal, from a book's rows.

ghost use Rattle.std.specs.Prelude.{◌≡◌, ◌≢◌, ◌+◌, ◌∷◌, ◌++◌, [], List, IfOk, OnOk, Some, filter_map, map, take, true};
ghost use Rattle.shop_records.specs.declared.records.Demand.{Demand as DemandOf};
ghost use Rattle.shop_answers.specs.Queries.{Answers};
ghost use Rattle.shop_records.specs.declared.messages.Query.TheVariants as query;
ghost use Rattle.shop_records.specs.declared.messages.Reply.TheVariants.{Refused, Parts, Demands};
ghost use Rattle.shop_records.specs.declared.refusals.Refusal.TheVariants.{NoMemory, StoreFault};
ghost use Rattle.shop_answers.specs.declared.listing.TheConstants.{MAX_LISTED};
ghost use Rattle.shop_answers.specs.Listing.{AreOrderRows, IsLinesAnswer, IsOrderRow, are_more, first_reported, job_row_at, job_with_part, reported_job};
ghost use Rattle.shop_records.specs.Lists.{AreLines, begun_by, demand_row, job_numbers, open_demands, orders_after, parts_after, waiting_jobs};
ghost use Rattle.shop_book.specs.Failures.{CountsFailure};
ghost use Rattle.shop_book.specs.Kept.{Unchanged, OnContent};
ghost use Rattle.shop_desk.specs.Faults.{CountsReply};
ghost use Rattle.shop_desk.specs.ListedJobs.{both, head_with_part, reported_row};

use cut_measure::PartName;
use shop_book::{Book, BookFault, JobHead};
use shop_rules::{
    Code, CodeList, Demand, DemandList, DemandRow, DemandRows, Job, JobList, JobRow, MAX_LISTED,
    OrderList, OrderRow, Part, Refusal, Reply, answer_demands, answer_job, answer_orders,
    answer_parts, are_more, demand_row, first_reported, job_row, order_row,
};
use std::alloc::{AllocError, Global};

/// All materials.
pub fn materials<B: Book>(alloc: Global, book: &mut B) -> Reply
    ensures answer { OnContent B.Book book.old book.new (λ m. Answers m query.Materials result) }
    ensures keeps { Unchanged B.Book (CountsReply result) book.old book.new }
{
    match book.materials(alloc) {
        Err(fault) => Reply::Refused(Refusal::from(fault)),
        Ok(materials) => Reply::Materials { materials },
    }
}

// The parts after a name of a material that is there.
fn known_parts<B: Book>(
    alloc: Global,
    book: &mut B,
    material: Code,
    after: Option<PartName>,
) -> Reply
    ensures answer { OnContent B.Book book.old book.new
        (λ m. result ≢ Refused NoMemory → result ≢ Refused StoreFault
        → result ≡ Parts material (are_more (parts_after m material after))
        (first_reported (parts_after m material after))) }
    ensures keeps { Unchanged B.Book (CountsReply result) book.old book.new }
{
    match book.first_parts(alloc, material, after, MAX_LISTED + 1) {
        Err(fault) => Reply::Refused(Refusal::from(fault)),
        Ok(rows) => answer_parts(alloc, material, rows.as_slice()),
    }
}

/// The standing and reserved parts of a material after a name.
pub fn parts<B: Book>(alloc: Global, book: &mut B, material: Code, after: Option<PartName>) -> Reply
    ensures answer { OnContent B.Book book.old book.new
        (λ m. Answers m (query.Parts material after) result) }
    ensures keeps { Unchanged B.Book (CountsReply result) book.old book.new }
{
    match book.material(material) {
        Err(fault) => Reply::Refused(Refusal::from(fault)),
        Ok(found) => match found {
            Some(_) => known_parts(alloc, book, material, after),
            None => Reply::Refused(Refusal::NoMaterial),
        },
    }
}

// A demand as it is reported.
fn row_of_demand<B: Book>(book: &mut B, demand: &Demand) -> Result<DemandRow, BookFault>
    ensures row { OnContent B.Book book.old book.new
        (λ m. IfOk result (λ row. row ≡ demand_row m demand.now)) }
    ensures keeps { Unchanged B.Book (CountsFailure result) book.old book.new }
{
    let due = book.due(demand.order)?;
    Ok(demand_row(demand, due))
}

// Demands as they are reported.
fn demand_rows<B: Book>(
    alloc: Global,
    book: &mut B,
    demands: &[Demand],
) -> Result<DemandRows, BookFault>
    ensures rows { OnContent B.Book book.old book.new
        (λ m. IfOk result (λ rows. rows ≡ map (demand_row m) demands.now)) }
    ensures keeps { Unchanged B.Book (CountsFailure result) book.old book.new }
{
    let mut rows = DemandRows::new(alloc);
    for demand in demands {
        let row = row_of_demand(book, demand)?;
        rows.push(row)?;
    }
    Ok(rows)
}

// The first open demands after a number, one more than are reported, and the rows of those that are.
fn first_open<B: Book>(
    alloc: Global,
    book: &mut B,
    after: u32,
    material: Option<Code>,
) -> Result<(DemandList, DemandRows), BookFault>
    ensures demands { OnContent B.Book book.old book.new (λ m. IfOk result (λ found.
        (found.0 ≡ take (MAX_LISTED + 1) (open_demands m after material))
        × (found.1 ≡ map (demand_row m) (first_reported found.0)))) }
    ensures keeps { Unchanged B.Book (CountsFailure result) book.old book.new }
{
    let open = book.first_demands(alloc, after, material, MAX_LISTED + 1)?;
    let rows = demand_rows(alloc, book, first_reported(open.as_slice()))?;
    Ok((open, rows))
}

// The open demands after a number, of a material that is there or of all.
fn known_demands<B: Book>(alloc: Global, book: &mut B, after: u32, material: Option<Code>) -> Reply
    ensures answer { OnContent B.Book book.old book.new
        (λ m. result ≢ Refused NoMemory → result ≢ Refused StoreFault
        → result ≡ Demands (map (demand_row m) (first_reported (open_demands m after material)))
        (are_more (open_demands m after material))) }
    ensures keeps { Unchanged B.Book (CountsReply result) book.old book.new }
{
    match first_open(alloc, book, after, material) {
        Err(fault) => Reply::Refused(Refusal::from(fault)),
        Ok((open, rows)) => answer_demands(open.as_slice(), rows),
    }
}

// The open demands of a material after a number.
fn material_demands<B: Book>(alloc: Global, book: &mut B, after: u32, material: Code) -> Reply
    ensures answer { OnContent B.Book book.old book.new
        (λ m. Answers m (query.Demands after (Some material)) result) }
    ensures keeps { Unchanged B.Book (CountsReply result) book.old book.new }
{
    match book.material(material) {
        Err(fault) => Reply::Refused(Refusal::from(fault)),
        Ok(found) => match found {
            Some(_) => known_demands(alloc, book, after, Some(material)),
            None => Reply::Refused(Refusal::NoMaterial),
        },
    }
}

/// The open demands after a number, of one material or of all.
pub fn demands<B: Book>(alloc: Global, book: &mut B, after: u32, material: Option<Code>) -> Reply
    ensures answer { OnContent B.Book book.old book.new
        (λ m. Answers m (query.Demands after material) result) }
    ensures keeps { Unchanged B.Book (CountsReply result) book.old book.new }
{
    match material {
        None => known_demands(alloc, book, after, None),
        Some(material) => material_demands(alloc, book, after, material),
    }
}

// Both, where both are there.
fn both(job: Option<Job>, part: Option<Part>) -> Option<(Job, Part)>
    ensures { result ≡ both job part }
{
    let (Some(job), Some(part)) = (job, part) else {
        return None;
    };
    Some((job, part))
}

/// A job and its part, where both are there.
pub fn job_with_part<B: Book>(
    alloc: Global,
    book: &mut B,
    number: u32,
) -> Result<Option<(Job, Part)>, BookFault>
    ensures found { OnContent B.Book book.old book.new
        (λ m. IfOk result (λ found. found ≡ job_with_part m number)) }
    ensures keeps { Unchanged B.Book (CountsFailure result) book.old book.new }
{
    let found = book.found_job(alloc, number)?;
    Ok(both(found.job, found.part))
}

// A job as lists report it, and its part, where both are there.
fn head_with_part<B: Book>(
    alloc: Global,
    book: &mut B,
    number: u32,
) -> Result<Option<(JobHead, Part)>, BookFault>
    ensures found { OnContent B.Book book.old book.new
        (λ m. IfOk result (λ found. found ≡ head_with_part m number)) }
    ensures keeps { Unchanged B.Book (CountsFailure result) book.old book.new }
{
    let Some(head) = book.job_head(alloc, number)? else {
        return Ok(None);
    };
    match book.part(head.part)? {
        Some(part) => Ok(Some((head, part))),
        None => Ok(None),
    }
}

// How a job is reported that lists report so, with its part.
fn reported_head(head: &JobHead, part: &Part) -> JobRow
    ensures { Some result ≡ reported_row (Some (head.now, part.now)) }
{
    job_row(head.begun, head.due, head.act, head.part, head.cuts, part)
}

// Puts a job's row after others, where the job is there with its part.
fn push_job(rows: &mut JobList, found: Option<(JobHead, Part)>) -> Result<(), AllocError>
    ensures { OnOk result (rows.new ≡ rows.old ++ filter_map reported_row (found ∷ [])) }
{
    match found {
        Some((head, part)) => rows.push(reported_head(&head, &part)),
        None => Ok(()),
    }
}

// The rows of jobs, as they are reported; none of a job that isn't there with its part.
fn job_rows<B: Book>(alloc: Global, book: &mut B, numbers: &[u32]) -> Result<JobList, BookFault>
    ensures rows { OnContent B.Book book.old book.new
        (λ m. IfOk result (λ rows. rows ≡ filter_map (job_row_at m) numbers.now)) }
    ensures keeps { Unchanged B.Book (CountsFailure result) book.old book.new }
{
    let mut rows = JobList::new(alloc);
    for number in numbers {
        let found = head_with_part(alloc, book, *number)?;
        push_job(&mut rows, found)?;
    }
    Ok(rows)
}

// The first waiting jobs after a number, and whether others follow them.
fn first_jobs<B: Book>(
    alloc: Global,
    book: &mut B,
    after: u32,
) -> Result<(JobList, bool), BookFault>
    ensures jobs { OnContent B.Book book.old book.new (λ m. IfOk result (λ found.
        (found.0 ≡ filter_map (job_row_at m) (first_reported (job_numbers (waiting_jobs m after))))
        × (found.1 ≡ are_more (job_numbers (waiting_jobs m after))))) }
    ensures keeps { Unchanged B.Book (CountsFailure result) book.old book.new }
{
    let numbers = book.first_jobs(alloc, after, MAX_LISTED + 1)?;
    let rows = job_rows(alloc, book, first_reported(numbers.as_slice()))?;
    Ok((rows, are_more(numbers.as_slice())))
}

/// The waiting jobs after a number.
pub fn jobs<B: Book>(alloc: Global, book: &mut B, after: u32) -> Reply
    ensures answer { OnContent B.Book book.old book.new (λ m. Answers m (query.Jobs after) result) }
    ensures keeps { Unchanged B.Book (CountsReply result) book.old book.new }
{
    match first_jobs(alloc, book, after) {
        Err(fault) => Reply::Refused(Refusal::from(fault)),
        Ok((jobs, more)) => Reply::Jobs { jobs, more },
    }
}

// The terminal that has begun a job, or 0.
fn begun_by<B: Book>(book: &mut B, job: u32) -> Result<u32, BookFault>
    ensures terminal { OnContent B.Book book.old book.new
        (λ m. IfOk result (λ terminal. terminal ≡ begun_by m job)) }
    ensures keeps { Unchanged B.Book (CountsFailure result) book.old book.new }
{
    match book.begun(job)? {
        Some(row) => Ok(row.terminal),
        None => Ok(0),
    }
}

// A job that is there with its part.
fn known_job<B: Book>(alloc: Global, book: &mut B, job: &Job, part: &Part) -> Reply
    ensures answer { OnContent B.Book book.old book.new
        (λ m. result ≢ Refused NoMemory → result ≢ Refused StoreFault
        → result ≡ reported_job m (Some (job.now, part.now))) }
    ensures keeps { Unchanged B.Book (CountsReply result) book.old book.new }
{
    match begun_by(book, job.act) {
        Err(fault) => Reply::Refused(Refusal::from(fault)),
        Ok(begun) => answer_job(alloc, job, part, begun),
    }
}

/// A job and its plan.
pub fn job<B: Book>(alloc: Global, book: &mut B, number: u32) -> Reply
    ensures answer { OnContent B.Book book.old book.new (λ m. Answers m (query.Job number) result) }
    ensures keeps { Unchanged B.Book (CountsReply result) book.old book.new }
{
    match job_with_part(alloc, book, number) {
        Err(fault) => Reply::Refused(Refusal::from(fault)),
        Ok(None) => Reply::Refused(Refusal::NoJob),
        Ok(Some((job, part))) => known_job(alloc, book, &job, &part),
    }
}

// How an order is reported, from its lines.
fn row_of_order<B: Book>(alloc: Global, book: &mut B, order: Code) -> Result<OrderRow, BookFault>
    ensures row { OnContent B.Book book.old book.new (λ m. IfOk result (IsOrderRow m order)) }
    ensures keeps { Unchanged B.Book (CountsFailure result) book.old book.new }
{
    let note = book.note(alloc, order)?;
    let lines = book.lines_of(alloc, order)?;
    Ok(order_row(alloc, order, note, lines.as_slice()))
}

// The rows of orders, as they are reported.
fn order_rows<B: Book>(alloc: Global, book: &mut B, orders: &[Code]) -> Result<OrderList, BookFault>
    ensures rows { OnContent B.Book book.old book.new
        (λ m. IfOk result (AreOrderRows m orders.now)) }
    ensures keeps { Unchanged B.Book (CountsFailure result) book.old book.new }
{
    let mut rows = OrderList::new(alloc);
    for order in orders {
        let row = row_of_order(alloc, book, *order)?;
        rows.push(row)?;
    }
    Ok(rows)
}

// The codes of the first orders after a code, one more than are reported, and the rows of those that are.
fn first_orders<B: Book>(
    alloc: Global,
    book: &mut B,
    after: Option<Code>,
) -> Result<(CodeList, OrderList), BookFault>
    ensures orders { OnContent B.Book book.old book.new (λ m. IfOk result (λ found.
        (found.0 ≡ take (MAX_LISTED + 1) (orders_after m after))
        × AreOrderRows m (first_reported found.0) found.1)) }
    ensures keeps { Unchanged B.Book (CountsFailure result) book.old book.new }
{
    let codes = book.first_orders(alloc, after, MAX_LISTED + 1)?;
    let rows = order_rows(alloc, book, first_reported(codes.as_slice()))?;
    Ok((codes, rows))
}

/// The first orders after a code, or from the first on.
pub fn orders<B: Book>(alloc: Global, book: &mut B, after: Option<Code>) -> Reply
    ensures answer { OnContent B.Book book.old book.new
        (λ m. Answers m (query.Orders after) result) }
    ensures keeps { Unchanged B.Book (CountsReply result) book.old book.new }
{
    match first_orders(alloc, book, after) {
        Err(fault) => Reply::Refused(Refusal::from(fault)),
        Ok((codes, rows)) => answer_orders(codes.as_slice(), rows),
    }
}

// The lines of an order as they are reported.
fn line_rows<B: Book>(alloc: Global, book: &mut B, order: Code) -> Result<DemandRows, BookFault>
    ensures rows { OnContent B.Book book.old book.new (λ m. IfOk result
        (λ rows. (lines : List DemandOf) × AreLines m order lines
        × (rows ≡ map (demand_row m) lines))) }
    ensures keeps { Unchanged B.Book (CountsFailure result) book.old book.new }
{
    let lines = book.lines_of(alloc, order)?;
    let rows = demand_rows(alloc, book, lines.as_slice())?;
    Ok(rows)
}

// The lines of an order that is there.
fn known_lines<B: Book>(alloc: Global, book: &mut B, order: Code) -> Reply
    ensures answer { OnContent B.Book book.old book.new
        (λ m. result ≢ Refused NoMemory → result ≢ Refused StoreFault
        → IsLinesAnswer m order true result) }
    ensures keeps { Unchanged B.Book (CountsReply result) book.old book.new }
{
    match line_rows(alloc, book, order) {
        Err(fault) => Reply::Refused(Refusal::from(fault)),
        Ok(lines) => Reply::Lines { lines, order },
    }
}

/// All lines of an order.
pub fn lines<B: Book>(alloc: Global, book: &mut B, order: Code) -> Reply
    ensures answer { OnContent B.Book book.old book.new (λ m. Answers m (query.Lines order) result) }
    ensures keeps { Unchanged B.Book (CountsReply result) book.old book.new }
{
    match book.order(order) {
        Err(fault) => Reply::Refused(Refusal::from(fault)),
        Ok(true) => known_lines(alloc, book, order),
        Ok(false) => Reply::Refused(Refusal::NoOrder),
    }
}

/// The last number of a terminal.
pub fn terminal<B: Book>(book: &mut B, terminal: u32) -> Reply
    ensures answer { OnContent B.Book book.old book.new
        (λ m. Answers m (query.Terminal terminal) result) }
    ensures keeps { Unchanged B.Book (CountsReply result) book.old book.new }
{
    match book.last_number(terminal) {
        Err(fault) => Reply::Refused(Refusal::from(fault)),
        Ok(last) => Reply::Terminal { last, terminal },
    }
}
