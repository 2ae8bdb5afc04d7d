//! The ticket of a job: what is cut in which order, where, and for whom.

ghost use Rattle.std.specs.Prelude.{◌≡◌, ◌++◌, ◌∷◌, [], ℕ, Option, OnOk, IfOk, Ok, Err, string_bytes};
ghost use Rattle.cut_tree.specs.Stepping.{AreSteps};
ghost use Rattle.shop_records.specs.declared.records.Demand.{Demand as DemandOf};
ghost use Rattle.shop_records.specs.declared.refusals.Refusal.{Refusal as RefusalOf};
ghost use Rattle.shop_records.specs.Columns.{is_piece as has_become_piece};
ghost use Rattle.shop_records.specs.Content.{demand_at};
ghost use Rattle.shop_text.specs.declared.printing.PrintFault.TheVariants.{Refused, Write};
ghost use Rattle.shop_book.specs.Kept.{Unchanged, OnContent};
ghost use Rattle.shop_book.specs.Failures.{CountsFailure};
ghost use Rattle.shop_text.specs.Printing.{IsTextMade, IsPrinted, CountsRefusal, CountsPrint};
ghost use Rattle.shop_streams.specs.Streams.{HasFailed};
ghost use Rattle.shop_text.specs.Tickets.{AddsLine, AreNodesFound, IsTicketMade, cut_text, demand_for, demand_text, job_line, job_state_text, made_line, made_of, node_line, node_lines, node_text, piece_count, piece_text, rest_text, location_text, steps_in, ticket_end, ticket_of, ticket_with, unit_line};

use crate::printing::{PrintFault, print, push_number, push_part_start, push_place, push_size};
use cut_measure::{Axis, Kind, write_mm};
use cut_tree::{Plan, Step, Token};
use shop_book::{Book, BookFault};
use shop_records::{Demand, Job, JobState, Material, Part, Refusal, State};
use shop_streams::Sink;
use std::alloc::{AllocError, Global};

/// A node of a plan, with the row of its demand where it is a piece.
#[derive(Clone, Copy)]
pub struct FoundNode {
    pub step: Step,
    pub demand: Option<Demand>,
}

fn push_node(
    nodes: &mut Vec<FoundNode>,
    step: Step,
    demand: Option<Demand>,
) -> Result<(), AllocError>
    ensures { OnOk result (nodes.new.items ≡ nodes.old.items
        ++ record { step = step; demand = demand } ∷ []) }
{
    nodes.push(FoundNode { step, demand })?;
    Ok(())
}

// The row of a piece's demand.
fn demand_of<B: Book>(book: &mut B, what: Token) -> Result<Option<Demand>, BookFault>
    ensures row { OnContent B.Book book.old book.new
        (λ m. IfOk result (λ row. row ≡ demand_for (demand_at m) what)) }
    ensures keeps { Unchanged B.Book (CountsFailure result) book.old book.new }
{
    match what {
        Token::Cut(..) | Token::Rest => Ok(None),
        Token::Piece(demand, _) => book.demand(demand),
    }
}

// The nodes of a plan, with the rows of their demands.
fn found_nodes<B: Book>(
    alloc: Global,
    book: &mut B,
    plan: &Plan,
) -> Result<Vec<FoundNode>, BookFault>
    ensures found { OnContent B.Book book.old book.new
        (λ m. IfOk result (λ nodes. AreNodesFound (demand_at m) nodes.items)) }
    ensures steps { IfOk result
        (λ nodes. AreSteps plan.now.tree plan.now.w plan.now.h plan.now.kerf
        (steps_in nodes.items)) }
    ensures keeps { Unchanged B.Book (CountsFailure result) book.old book.new }
{
    let steps = plan.steps(alloc)?;
    let mut nodes = Vec::new(alloc);
    for step in &steps {
        let demand = demand_of(book, step.what)?;
        push_node(&mut nodes, *step, demand)?;
    }
    Ok(nodes)
}

// Whether a part is a piece.
fn is_piece(state: State) -> bool
    ensures { result ≡ has_become_piece state }
{
    match state {
        State::Piece(_) => true,
        State::Standing
        | State::Reserved(_)
        | State::Cut(_)
        | State::Kerf
        | State::Scrap
        | State::Returned
        | State::Undone(_) => false,
    }
}

// How many of these parts are pieces.
fn pieces_in(parts: &[Part]) -> usize
    ensures { result ≡ piece_count parts.now }
{
    parts.iter().filter(|part| is_piece(part.state)).count()
}

// How many pieces were made of a job that was broken or undone.
fn made_pieces<B: Book>(alloc: Global, book: &mut B, job: &Job) -> Result<Option<usize>, BookFault>
    ensures made { OnContent B.Book book.old book.new
        (λ m. IfOk result (λ made. made ≡ made_of m job.now)) }
    ensures keeps { Unchanged B.Book (CountsFailure result) book.old book.new }
{
    match job.state {
        JobState::Waiting | JobState::Done | JobState::Released => Ok(None),
        JobState::Broken | JobState::Undone => {
            let parts = book.parts_named(alloc, job.act)?;
            Ok(Some(pieces_in(parts.as_slice())))
        }
    }
}

fn push_location(kind: Kind, step: Step, text: &mut String) -> Result<(), AllocError>
    ensures { OnOk result (string_bytes text.new ≡ string_bytes text.old ++ location_text kind step) }
{
    text.push_str(" at ")?;
    push_place(kind, step.x, step.y, text)?;
    text.push_str(" of ")?;
    push_size(kind, step.w, step.h, text)
}

fn push_cut(
    kind: Kind,
    step: Step,
    axis: Axis,
    place: u32,
    text: &mut String,
) -> Result<(), AllocError>
    ensures { OnOk result (string_bytes text.new ≡ string_bytes text.old
        ++ cut_text kind step axis place) }
{
    text.push_str(match axis {
        Axis::X => "cut x ",
        Axis::Y => "cut y ",
    })?;
    write_mm(place, text)?;
    push_location(kind, step, text)
}

fn push_demand(row: &Demand, text: &mut String) -> Result<(), AllocError>
    ensures { OnOk result (string_bytes text.new ≡ string_bytes text.old ++ demand_text row.now) }
{
    write!(text, " demand {} ", row.number)?;
    row.order.write(text)?;
    write!(text, " line {}", row.line)
}

fn push_piece(
    kind: Kind,
    step: Step,
    turned: bool,
    row: &Demand,
    text: &mut String,
) -> Result<(), AllocError>
    ensures { OnOk result (string_bytes text.new ≡ string_bytes text.old
        ++ piece_text kind step turned row.now) }
{
    text.push_str("piece")?;
    push_location(kind, step, text)?;
    push_demand(row, text)?;
    text.push_str(if turned { " turned" } else { "" })
}

fn push_rest(kind: Kind, step: Step, text: &mut String) -> Result<(), AllocError>
    ensures { OnOk result (string_bytes text.new ≡ string_bytes text.old ++ rest_text kind step) }
{
    text.push_str("rest")?;
    push_location(kind, step, text)
}

// What is done at a node.
fn push_what(kind: Kind, node: &FoundNode, text: &mut String) -> Result<(), Refusal>
    ensures { AddsLine (string_bytes text.old) (string_bytes text.new) result
        (node_text kind node.now.step node.now.step.what node.now.demand) }
{
    let step = node.step;
    match (step.what, node.demand) {
        (Token::Cut(axis, place), _) => push_cut(kind, step, axis, place, text)?,
        (Token::Piece(_, turned), Some(row)) => push_piece(kind, step, turned, &row, text)?,
        (Token::Piece(..), None) => return Err(Refusal::StoreFault),
        (Token::Rest, _) => push_rest(kind, step, text)?,
    }
    Ok(())
}

// A node's line.
fn push_line(kind: Kind, node: &FoundNode, text: &mut String) -> Result<(), Refusal>
    ensures { AddsLine (string_bytes text.old) (string_bytes text.new) result
        (node_line kind node.now.step node.now.demand) }
{
    push_number(u64::from(node.step.node), 4, text)?;
    text.push_str(" ")?;
    push_what(kind, node, text)?;
    text.push_str("\n")?;
    Ok(())
}

fn job_state_word(state: JobState) -> &'static str
    ensures { result.now ≡ job_state_text state }
{
    match state {
        JobState::Waiting => "waiting",
        JobState::Done => "done",
        JobState::Broken => "broken",
        JobState::Released => "released",
        JobState::Undone => "undone",
    }
}

fn push_job(job: &Job, text: &mut String) -> Result<(), AllocError>
    ensures { OnOk result (string_bytes text.new ≡ string_bytes text.old ++ job_line job.now) }
{
    write!(text, "job {} ", job.act)?;
    text.push_str(job_state_word(job.state))?;
    text.push_str("\n")
}

// The part that is cut.
fn push_unit(
    job: &Job,
    part: &Part,
    material: &Material,
    text: &mut String,
) -> Result<(), AllocError>
    ensures { OnOk result (string_bytes text.new ≡ string_bytes text.old
        ++ unit_line job.now part.now material.now) }
{
    push_part_start(part.name, text)?;
    part.material.write(text)?;
    text.push_str(" ")?;
    push_size(material.kind, part.size.w(), part.size.h(), text)?;
    text.push_str(" kerf ")?;
    write_mm(job.kerf, text)?;
    text.push_str("\n")
}

// How many pieces were made of a job that was broken or undone.
fn push_made(made: Option<usize>, text: &mut String) -> Result<(), AllocError>
    ensures { OnOk result (string_bytes text.new ≡ string_bytes text.old ++ made_line made) }
{
    match made {
        None => Ok(()),
        Some(n) => writeln!(text, "made {n} pieces"),
    }
}

// The last line.
fn push_end(alloc: Global, plan: &Plan, text: &mut String) -> Result<(), AllocError>
    ensures { OnOk result (string_bytes text.new ≡ string_bytes text.old ++ ticket_end plan.now) }
{
    let leaves = plan.leaves(alloc)?;
    writeln!(text, "cuts {} pieces {}", plan.cuts(), leaves.len())
}

// The lines of the nodes.
fn push_lines(
    kind: Kind,
    plan: &Plan,
    nodes: &[FoundNode],
    text: &mut String,
) -> Result<(), Refusal>
    requires { AreSteps plan.now.tree plan.now.w plan.now.h plan.now.kerf (steps_in nodes.now) }
    ensures { (at : ℕ → Option DemandOf) → AreNodesFound at nodes.now
        → AddsLine (string_bytes text.old) (string_bytes text.new) result
        (node_lines kind at plan.now) }
{
    for node in nodes {
        push_line(kind, node, text)?;
    }
    Ok(())
}

// The ticket of rows that were found.
fn ticket_lines(
    alloc: Global,
    job: &Job,
    part: &Part,
    material: &Material,
    made: Option<usize>,
    nodes: &[FoundNode],
) -> Result<String, Refusal>
    requires { AreSteps job.now.plan.tree job.now.plan.w job.now.plan.h job.now.plan.kerf
        (steps_in nodes.now) }
    ensures { (at : ℕ → Option DemandOf) → AreNodesFound at nodes.now
        → IsTicketMade result (ticket_with job.now part.now material.now made at) }
{
    let mut text = String::new(alloc);
    push_job(job, &mut text)?;
    push_unit(job, part, material, &mut text)?;
    push_lines(material.kind, &job.plan, nodes, &mut text)?;
    push_made(made, &mut text)?;
    push_end(alloc, &job.plan, &mut text)?;
    Ok(text)
}

/// The ticket of a job as text. An unknown job is refused 70; 98 is lack of memory, and 99 comes where the store failed, or
/// where rows that no history gives contradict each other.
pub fn ticket_text<B: Book>(alloc: Global, book: &mut B, number: u32) -> Result<String, Refusal>
    ensures reported { OnContent B.Book book.old book.new
        (λ m. IsTextMade (B.failed book.old) (B.failed book.new) result (ticket_of m number)) }
    ensures keeps { Unchanged B.Book (CountsRefusal result) book.old book.new }
{
    let Some(job) = book.job(alloc, number)? else {
        return Err(Refusal::NoJob);
    };
    let Some(part) = book.part(job.part)? else {
        return Err(Refusal::StoreFault);
    };
    let Some(material) = book.material(part.material)? else {
        return Err(Refusal::StoreFault);
    };
    let nodes = found_nodes(alloc, book, &job.plan)?;
    let made = made_pieces(alloc, book, &job)?;
    ticket_lines(alloc, &job, &part, &material, made, &nodes)
}

/// Prints the ticket of a job: what is cut in which order, where, and for whom. An unknown job is refused 70. The text is
/// finished before its first byte is written, so a refusal writes nothing.
pub fn ticket<B: Book, W: Sink>(
    alloc: Global,
    book: &mut B,
    job: u32,
    sink: &mut W,
) -> Result<(), PrintFault>
    ensures printed { OnContent B.Book book.old book.new
        (λ m. IsPrinted (B.failed book.old) (B.failed book.new) (W.held sink.old)
        (W.held sink.new) result (ticket_of m job)) }
    ensures refused { (refusal : RefusalOf) → result ≡ Err (Refused refusal) → sink.new ≡ sink.old }
    ensures write { result ≡ Err Write → HasFailed (W.failed sink.old) (W.failed sink.new) }
    ensures worked { OnOk result (W.failed sink.new ≡ W.failed sink.old) }
    ensures keeps { Unchanged B.Book (CountsPrint result) book.old book.new }
{
    let text = ticket_text(alloc, book, job)?;
    print(text.as_str(), sink)
}
