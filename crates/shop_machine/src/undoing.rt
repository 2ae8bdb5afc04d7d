//! A job that was done or broken is undone: whether that can be, and what becomes of its part, of what it made, and of its demands.

ghost use Rattle.std.specs.Prelude.{◌≡◌, ◌*◌, ◌≤◌, ◌&&◌, ℕ, List, Option, Some, IfOk, IfErr, IfSome, IsTrue, All, MatchOption, map};
ghost use Rattle.std.specs.List.{list_all};
ghost use Rattle.cut_tree.specs.Tree.{Tree};
ghost use Rattle.cut_tree.specs.Laying.{IsLaid};
ghost use Rattle.cut_tree.specs.Stops.{IsStopOf, outcome_of};
ghost use Rattle.shop_records.specs.SameRows.{word_number, same_state, same_size, same_origin, same_place, same_part, same_parts};
ghost use Rattle.shop_records.specs.Same.{same_name, same_code};
ghost use Rattle.shop_records.specs.Content.{in_state};
ghost use Rattle.shop_records.specs.Messages.{is_accepted};
ghost use Rattle.shop_records.specs.declared.records.Part.{Part as PartOf};
ghost use Rattle.shop_records.specs.declared.records.Demand.{Demand as DemandOf};
ghost use Rattle.shop_records.specs.declared.records.Totals.{Totals as TotalsOf};
ghost use Rattle.shop_records.specs.declared.records.State.TheVariants.{Cut, Undone};
ghost use Rattle.shop_machine.specs.Decisions.{Decides};
ghost use Rattle.shop_machine.specs.Moving.{tally, AreFew};
ghost use Rattle.shop_machine.specs.Ending.{fits_part};
ghost use Rattle.shop_machine.specs.Recounts.{plan_leaves, AreDemandsFound, AreRecounted, leaves_in, HasRow, IsNumbered, pieces_in, with_unmade};
ghost use Rattle.shop_machine.specs.Undoing.{stop_of, laid_by, left_parts, totals_after, have_cells, has_made, taking_refusal, undo_change, IsUndo};

use crate::decisions::no_change;
use crate::ending::{can_end, ended_parts};
use crate::moving::{can_move, moved_total, tally_one};
use crate::recounts::{FoundLeaf, Recount, pieces_in, recounted_rows, wide};
use cut_measure::{Code, Limits, MAX_HEIGHT, MAX_NUMBERS, MAX_WIDTH, PartName, Size};
use cut_tree::{Row, Stop, halted};
use shop_records::{
    Change, Demand, Job, JobHalt, JobState, Material, MaterialTotals, Part, PartList, Refusal,
    Reply, State, StateWord, Totals,
};
use std::alloc::{AllocError, Global};
use std::cmp::Ordering;

fn word_number(word: StateWord) -> u32
    ensures { result ≡ word_number word }
{
    match word {
        StateWord::Standing => 0,
        StateWord::Reserved => 1,
        StateWord::Cut => 2,
        StateWord::Piece => 3,
        StateWord::Kerf => 4,
        StateWord::Scrap => 5,
        StateWord::Returned => 6,
        StateWord::Undone => 7,
    }
}

fn same_state(a: State, b: State) -> bool
    ensures { result ≡ same_state a b }
{
    word_number(a.word()) == word_number(b.word()) && a.of() == b.of()
}

fn same_size(a: Size, b: Size) -> bool
    ensures { result ≡ same_size a b }
{
    a.w() == b.w() && a.h() == b.h()
}

fn same_name(a: PartName, b: PartName) -> bool
    ensures { result ≡ same_name a b }
{
    a.act() == b.act() && a.node() == b.node()
}

fn same_code(a: &Code, b: &Code) -> bool
    ensures { result ≡ same_code a.now b.now }
{
    a.order(b) == Ordering::Equal
}

fn same_origin(a: &Part, b: &Part) -> bool
    ensures { result ≡ same_origin a.now b.now }
{
    same_name(a.name, b.name)
        && same_code(&a.material, &b.material)
        && same_code(&a.batch, &b.batch)
        && same_name(a.root, b.root)
}

fn same_place(a: &Part, b: &Part) -> bool
    ensures { result ≡ same_place a.now b.now }
{
    a.x == b.x && a.y == b.y && same_size(a.size, b.size)
}

// Whether two parts are equal in all that a row has.
fn same_part(a: &Part, b: &Part) -> bool
    ensures { result ≡ same_part a.now b.now }
{
    same_origin(a, b) && same_place(a, b) && same_state(a.state, b.state)
}

fn same_parts(a: &[Part], b: &[Part]) -> bool
    ensures { result ≡ same_parts a.now b.now }
{
    let [first, others @ ..] = a else {
        return b.is_empty();
    };
    let [second, more @ ..] = b else {
        return false;
    };
    same_part(first, second) && same_parts(others, more)
}

// How the work on a job's plan ended, where that is known.
fn stop_of(job: &Job, halt: Option<JobHalt>) -> Option<Stop>
    ensures stop { result ≡ stop_of job.now job.now.state halt }
    ensures allowed { IfSome result (λ end. IsStopOf job.now.plan.tree end) }
{
    match job.state {
        JobState::Done => Some(Stop::All),
        JobState::Broken => {
            let JobHalt { halt, rest, .. } = halt?;
            let stop = halted(halt, rest);
            if can_end(&job.plan, &stop) {
                Some(stop)
            } else {
                None
            }
        }
        JobState::Waiting | JobState::Released | JobState::Undone => None,
    }
}

fn fits_part(job: &Job, part: &Part) -> bool
    ensures { result ≡ fits_part job.now part.now }
{
    let size = job.plan.size();
    let w = part.size.w();
    let h = part.size.h();
    1 <= job.act
        && job.act <= MAX_NUMBERS
        && w == size.w()
        && h == size.h()
        && wide(part.x) + wide(w) <= wide(MAX_WIDTH)
        && wide(part.y) + wide(h) <= wide(MAX_HEIGHT)
}

// A job that is over, with how the work on it ended, its part, and the limits of that one's material.
#[derive(Drop)]
struct Over {
    end: Stop,
    job: Job,
    part: Part,
    limits: Limits,
}

// The rows of a job that is over, or why it can't be undone.
fn find_over(
    job: Option<Job>,
    halt: Option<JobHalt>,
    part: Option<Part>,
    material: Option<Material>,
) -> Result<Over, Refusal>
    ensures refused { IfErr result
        (λ refusal. (found : List PartOf) (at : ℕ → Option DemandOf) (totals : TotalsOf)
        → taking_refusal job halt part material found at totals ≡ Some refusal) }
    ensures over { IfOk result
        (λ over. (job ≡ Some over.job) × (part ≡ Some over.part)
        × MatchOption material ⊥ (λ m. m.limits ≡ over.limits)) }
    ensures stop { IfOk result (λ over. stop_of over.job over.job.state halt ≡ Some over.end) }
    ensures allowed { IfOk result (λ over. IsStopOf over.job.plan.tree over.end) }
    ensures fits { IfOk result (λ over. IsTrue (fits_part over.job over.part)) }
{
    let Some(job) = job else {
        return Err(Refusal::NoJob);
    };
    let Some(end) = stop_of(&job, halt) else {
        return Err(Refusal::NotOver);
    };
    let Some(part) = part else {
        return Err(Refusal::StoreFault);
    };
    let Some(material) = material else {
        return Err(Refusal::StoreFault);
    };
    if !fits_part(&job, &part) {
        return Err(Refusal::StoreFault);
    }
    Ok(Over {
        end,
        job,
        part,
        limits: material.limits,
    })
}

// What was laid of a job's plan when the work on it ended so.
fn laid_by(alloc: Global, end: &Stop, job: &Job) -> Result<Vec<Row>, AllocError>
    requires { IsStopOf job.now.plan.tree end.now }
    ensures rows { IfOk result (λ rows. rows.items ≡ laid_by end.now job.now) }
    ensures laid { IfOk result
        (λ rows. IsLaid job.now.plan.tree job.now.plan.w job.now.plan.h job.now.plan.kerf
        (outcome_of end.now) rows.items) }
{
    job.plan.see();
    let rows = job.plan.lay_as(alloc, end)?;
    Ok(rows)
}

// Whether the part is cut by the job, and the parts that are named after the job are those that it left.
fn are_as_left(job: u32, part: &Part, left: &[Part], found: &[Part]) -> bool
    ensures { result ≡ same_state part.now.state (Cut job) && same_parts found.now left.now }
{
    same_state(part.state, State::Cut(job)) && same_parts(found, left)
}

// Whether totals hold the cells that go, and have room for as many more as a part has.
fn have_cells(most: u64, outgoing: &Totals, totals: &Totals) -> bool
    ensures { result ≡ have_cells most outgoing.now totals.now }
{
    can_move(outgoing.stock, most, totals.stock)
        && can_move(outgoing.rack, most, totals.rack)
        && can_move(outgoing.pieces, most, totals.pieces)
        && can_move(outgoing.kerf, most, totals.kerf)
        && can_move(outgoing.scrap, most, totals.scrap)
        && can_move(outgoing.returned, most, totals.returned)
}

// The totals when these cells go and those come.
fn totals_after(most: u64, outgoing: &Totals, incoming: &Totals, totals: &Totals) -> Totals
    requires holds { IsTrue (have_cells most outgoing.now totals.now) }
    requires few { AreFew most incoming.now }
    ensures { result ≡ totals_after outgoing.now incoming.now totals.now }
{
    Totals {
        received: totals.received,
        stock: moved_total(outgoing.stock, incoming.stock, totals.stock, most),
        rack: moved_total(outgoing.rack, incoming.rack, totals.rack, most),
        pieces: moved_total(outgoing.pieces, incoming.pieces, totals.pieces, most),
        kerf: moved_total(outgoing.kerf, incoming.kerf, totals.kerf, most),
        scrap: moved_total(outgoing.scrap, incoming.scrap, totals.scrap, most),
        returned: moved_total(outgoing.returned, incoming.returned, totals.returned, most),
    }
}

fn has_made(count: usize, demand: &Option<Demand>) -> bool
    ensures { result ≡ has_made count demand.now }
{
    match demand {
        None => false,
        Some(demand) => count <= demand.made as usize,
    }
}

// Whether of each leaf's demand as many are made as were laid.
fn are_made(rows: &[Row], leaves: &[FoundLeaf]) -> bool
    requires numbered { All IsNumbered leaves.now }
    ensures test { (at : ℕ → Option DemandOf) → AreDemandsFound at leaves.now
        → result ≡ list_all (λ leaf. has_made (pieces_in leaf.demand rows.now)
        (at leaf.demand)) (leaves_in leaves.now) }
    ensures rows { (tree : Tree) → IsTrue result
        → All (HasRow (λ n demand. pieces_in demand.number rows.now ≤ demand.made) tree)
        leaves.now }
{
    let [found, more @ ..] = leaves else {
        return true;
    };
    match has_made(pieces_in(rows, found.leaf.demand), &found.demand) {
        true => are_made(rows, more),
        false => false,
    }
}

// The parts, in the state of the job that was undone.
fn undone_parts(alloc: Global, job: u32, left: &[Part]) -> Result<PartList, AllocError>
    ensures { IfOk result (λ parts. parts ≡ map (in_state (Undone job)) left.now) }
{
    let mut parts = PartList::new(alloc);
    for part in left {
        parts.push(Part {
            state: State::Undone(job),
            ..*part
        })?;
    }
    Ok(parts)
}

// The change of a job that is undone, from what it left and what was laid of its plan.
fn undo(
    alloc: Global,
    over: Over,
    left: &[Part],
    outgoing: &Totals,
    laid: &[Row],
    totals: &Totals,
    leaves: &[FoundLeaf],
) -> Result<Change, AllocError>
    requires left { left.now ≡ left_parts over.end over.job over.part over.limits }
    requires outgoing { outgoing.now ≡ tally left.now }
    requires laid { laid.now ≡ laid_by over.end over.job }
    requires leaves { leaves_in leaves.now ≡ plan_leaves over.job.plan }
    requires cells { IsTrue (have_cells (over.part.size.w * over.part.size.h)
        outgoing.now totals.now) }
    requires rows { All (HasRow (λ n demand. pieces_in demand.number laid.now ≤ demand.made)
        over.job.plan.tree) leaves.now }
    ensures change { IfOk result
        (λ change. (at : ℕ → Option DemandOf) → AreDemandsFound at leaves.now
        → (rows : List DemandOf)
        × AreRecounted at (with_unmade (laid_by over.end over.job)) over.job.plan.tree rows
        × (change ≡ undo_change over.end over.job over.part over.limits totals.now rows)) }
    ensures reported { IfOk result (λ change. IsTrue (is_accepted change.reply)) }
{
    let Over {
        end: _,
        job,
        part,
        limits: _,
    } = over;
    let demands = recounted_rows(alloc, Recount::Unmade(laid), &job.plan, leaves)?;
    let undone = undone_parts(alloc, job.act, left)?;
    let moved = Part {
        state: State::Standing,
        ..part
    };
    let incoming = tally_one(&moved);
    let most = part.size.cells();
    let after = totals_after(most, outgoing, &incoming, totals);
    let reply = Reply::Undo {
        job: job.act,
        part: job.part,
    };
    Ok(Change {
        moved: Some(moved),
        undone,
        job: Some(Job {
            state: JobState::Undone,
            ..job
        }),
        demands,
        totals: Some(MaterialTotals {
            material: part.material,
            totals: after,
        }),
        ..no_change(alloc, reply)
    })
}

/// Undoes a job that was done or broken, from its row, where the work on it halted, the rows of its part and that one's material,
/// the parts that are named after it, by rising node, the material's totals, and its plan's leaves with the rows of their
/// demands. Refused, in this order, `NoJob`; `NotOver` where it is neither done nor broken, or it isn't kept how it was broken;
/// `PartsMoved` where a part that it made isn't as it left it; and `StoreFault` where a row on which it rests is missing or
/// contradicts it.
pub fn decide_undo(
    alloc: Global,
    job: Option<Job>,
    halt: Option<JobHalt>,
    part: Option<Part>,
    material: Option<Material>,
    found: &[Part],
    totals: Totals,
    leaves: &[FoundLeaf],
) -> Result<Change, Refusal>
    requires numbered { All IsNumbered leaves.now }
    requires leaves { IfSome job (λ j. leaves_in leaves.now ≡ plan_leaves j.plan) }
    ensures decision { (at : ℕ → Option DemandOf) → AreDemandsFound at leaves.now
        → Decides (taking_refusal job halt part material found.now at totals)
        (λ change. MatchOption job ⊥
        (λ j. MatchOption part ⊥ (λ p. MatchOption material ⊥
        (λ m. IsUndo j halt p m.limits totals at change)))) result }
    ensures reported { IfOk result (λ change. IsTrue (is_accepted change.reply)) }
{
    let over = find_over(job, halt, part, material)?;
    let rows = laid_by(alloc, &over.end, &over.job)?;
    let laid: &[Row] = &rows;
    let (left, outgoing) = ended_parts(alloc, &over.job, &over.part, over.limits, &over.end, laid)?;
    let parts = left.as_slice();
    if !are_as_left(over.job.act, &over.part, parts, found) {
        return Err(Refusal::PartsMoved);
    }
    let most = over.part.size.cells();
    if !have_cells(most, &outgoing, &totals) {
        return Err(Refusal::StoreFault);
    }
    if !are_made(laid, leaves) {
        return Err(Refusal::StoreFault);
    }
    let change = undo(alloc, over, parts, &outgoing, laid, &totals, leaves)?;
    Ok(change)
}
