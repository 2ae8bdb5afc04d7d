//! Answers to the query for pieces, from a book's rows.

ghost use Rattle.std.specs.Prelude.{◌≡◌, ◌≢◌, ◌+◌, ◌++◌, IfOk, OnOk, None, filter_map, option_map, take};
ghost use Rattle.std.specs.Option.{option_to_list};
ghost use Rattle.shop_answers.specs.Queries.{Answers};
ghost use Rattle.shop_answers.specs.declared.listing.TheConstants.{MAX_LISTED};
ghost use Rattle.shop_answers.specs.Listing.{first_reported, reported_piece, reported_pieces};
ghost use Rattle.shop_records.specs.declared.messages.Query.TheVariants as query;
ghost use Rattle.shop_records.specs.declared.messages.Reply.TheVariants.{Refused};
ghost use Rattle.shop_records.specs.declared.pieces.PieceSource.TheVariants as source;
ghost use Rattle.shop_records.specs.declared.records.Demand.{Demand as DemandOf};
ghost use Rattle.shop_records.specs.declared.refusals.Refusal.TheVariants.{NoMemory, StoreFault};
ghost use Rattle.shop_records.specs.Lists.{demand_for, piece_row, pieces_after};
ghost use Rattle.shop_book.specs.Failures.{CountsFailure};
ghost use Rattle.shop_book.specs.Kept.{Unchanged, OnContent};
ghost use Rattle.shop_desk.specs.Faults.{CountsReply};

use cut_measure::{Code, PartName};
use shop_book::{Book, BookFault};
use shop_rules::{
    Demand, MAX_LISTED, Part, PartList, PieceList, PieceRow, PieceSource, Refusal, Reply, State,
    answer_pieces, first_reported, piece_row,
};
use std::alloc::{AllocError, Global};

// The first pieces of an order, of units of a batch or of a unit whose names come after a name: at most so many.
fn first_pieces<B: Book>(
    alloc: Global,
    book: &mut B,
    of: PieceSource,
    after: Option<PartName>,
    most: usize,
) -> Result<PartList, BookFault>
    ensures rows { OnContent B.Book book.old book.new
        (λ m. IfOk result (λ rows. rows ≡ take most (pieces_after m of after))) }
    ensures keeps { Unchanged B.Book (CountsFailure result) book.old book.new }
{
    let rows = book.rows().first_pieces(alloc, of, after, most)?;
    Ok(rows)
}

// The demand whose piece a part is.
fn demand_for<B: Book>(book: &mut B, part: &Part) -> Result<Option<Demand>, BookFault>
    ensures row { OnContent B.Book book.old book.new
        (λ m. IfOk result (λ row. row ≡ demand_for m part.now)) }
    ensures keeps { Unchanged B.Book (CountsFailure result) book.old book.new }
{
    match part.state {
        State::Piece(demand) => book.demand(demand),
        State::Standing
        | State::Reserved(_)
        | State::Cut(_)
        | State::Kerf
        | State::Scrap
        | State::Returned
        | State::Undone(_) => Ok(None),
    }
}

// How a part is reported that is a piece of a demand, and was made at this time.
fn row_with(part: &Part, demand: Option<Demand>, at: u64) -> Option<PieceRow>
    ensures { result ≡ option_map (λ (d : DemandOf). reported_piece part.now d at) demand }
{
    match demand {
        Some(demand) => Some(piece_row(part, &demand, at)),
        None => None,
    }
}

// How a part is reported that is a piece, if its demand is there.
fn row_of_piece<B: Book>(book: &mut B, part: &Part) -> Result<Option<PieceRow>, BookFault>
    ensures row { OnContent B.Book book.old book.new
        (λ m. IfOk result (λ row. row ≡ piece_row m part.now)) }
    ensures keeps { Unchanged B.Book (CountsFailure result) book.old book.new }
{
    let demand = demand_for(book, part)?;
    let at = book.ended(part.name.act());
    Ok(row_with(part, demand, at))
}

// Puts a piece's row after others, if there is one.
fn push_piece(rows: &mut PieceList, found: Option<PieceRow>) -> Result<(), AllocError>
    ensures { OnOk result (rows.new ≡ rows.old ++ option_to_list found) }
{
    match found {
        Some(row) => rows.push(row),
        None => Ok(()),
    }
}

// The rows of pieces, as they are reported; none of a piece whose demand isn't there.
fn piece_rows<B: Book>(alloc: Global, book: &mut B, parts: &[Part]) -> Result<PieceList, BookFault>
    ensures rows { OnContent B.Book book.old book.new
        (λ m. IfOk result (λ rows. rows ≡ filter_map (piece_row m) parts.now)) }
    ensures keeps { Unchanged B.Book (CountsFailure result) book.old book.new }
{
    let mut rows = PieceList::new(alloc);
    for part in parts {
        let found = row_of_piece(book, part)?;
        push_piece(&mut rows, found)?;
    }
    Ok(rows)
}

// The first pieces after a name, one more than are reported, and the rows of those that are.
fn first_rows<B: Book>(
    alloc: Global,
    book: &mut B,
    of: PieceSource,
    after: Option<PartName>,
) -> Result<(PartList, PieceList), BookFault>
    ensures pieces { OnContent B.Book book.old book.new (λ m. IfOk result (λ found.
        (found.0 ≡ take (MAX_LISTED + 1) (pieces_after m of after))
        × (found.1 ≡ filter_map (piece_row m) (first_reported found.0)))) }
    ensures keeps { Unchanged B.Book (CountsFailure result) book.old book.new }
{
    let parts = first_pieces(alloc, book, of, after, MAX_LISTED + 1)?;
    let rows = piece_rows(alloc, book, first_reported(parts.as_slice()))?;
    Ok((parts, rows))
}

// The pieces after a name of what is there.
fn known_pieces<B: Book>(
    alloc: Global,
    book: &mut B,
    of: PieceSource,
    after: Option<PartName>,
) -> Reply
    ensures answer { OnContent B.Book book.old book.new
        (λ m. result ≢ Refused NoMemory → result ≢ Refused StoreFault
        → result ≡ reported_pieces m None (pieces_after m of after)) }
    ensures keeps { Unchanged B.Book (CountsReply result) book.old book.new }
{
    match first_rows(alloc, book, of, after) {
        Err(fault) => Reply::Refused(Refusal::from(fault)),
        Ok((parts, rows)) => answer_pieces(parts.as_slice(), rows),
    }
}

// The pieces of an order.
fn order_pieces<B: Book>(alloc: Global, book: &mut B, order: Code, after: Option<PartName>) -> Reply
    ensures answer { OnContent B.Book book.old book.new
        (λ m. Answers m (query.Pieces (source.Order order) after) result) }
    ensures keeps { Unchanged B.Book (CountsReply result) book.old book.new }
{
    match book.order(order) {
        Err(fault) => Reply::Refused(Refusal::from(fault)),
        Ok(true) => known_pieces(alloc, book, PieceSource::Order(order), after),
        Ok(false) => Reply::Refused(Refusal::NoOrder),
    }
}

// The pieces of a unit.
fn unit_pieces<B: Book>(
    alloc: Global,
    book: &mut B,
    unit: PartName,
    after: Option<PartName>,
) -> Reply
    ensures answer { OnContent B.Book book.old book.new
        (λ m. Answers m (query.Pieces (source.Unit unit) after) result) }
    ensures keeps { Unchanged B.Book (CountsReply result) book.old book.new }
{
    match book.part(unit) {
        Err(fault) => Reply::Refused(Refusal::from(fault)),
        Ok(None) => Reply::Refused(Refusal::NoPart),
        Ok(Some(part)) => {
            if part.is_whole() {
                known_pieces(alloc, book, PieceSource::Unit(unit), after)
            } else {
                Reply::Refused(Refusal::NotWhole)
            }
        }
    }
}

/// The first pieces of an order, of units of a batch or of a unit whose names come after a name.
pub fn pieces<B: Book>(
    alloc: Global,
    book: &mut B,
    of: PieceSource,
    after: Option<PartName>,
) -> Reply
    ensures answer { OnContent B.Book book.old book.new
        (λ m. Answers m (query.Pieces of after) result) }
    ensures keeps { Unchanged B.Book (CountsReply result) book.old book.new }
{
    match of {
        PieceSource::Order(order) => order_pieces(alloc, book, order, after),
        PieceSource::Batch(_) => known_pieces(alloc, book, of, after),
        PieceSource::Unit(unit) => unit_pieces(alloc, book, unit, after),
    }
}
