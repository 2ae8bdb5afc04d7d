//! A job is done, breaks off or is released: what becomes of its part, its rests and its demands.

ghost use Rattle.std.specs.Prelude.{◌≡◌, ◌*◌, ◌≤◌, IfOk, IfErr, IsTrue, ◌+◌, ◌∷◌, ℕ, Option, None, All, map, ◌<◌, ◌^◌, Some, IfSome, MatchOption};
ghost use Rattle.std.specs.List.{list_all};
ghost use Rattle.cut_measure.specs.declared.ranges.TheConstants.{MAX_HEIGHT, MAX_NUMBERS, MAX_WIDTH};
ghost use Rattle.cut_tree.specs.Tree.{count_of};
ghost use Rattle.cut_tree.specs.Laying.{IsLaid};
ghost use Rattle.cut_tree.specs.Stops.{outcome_of, halted, IsStopOf};
ghost use Rattle.cut_tree.specs.declared.halts.Stop.TheVariants.{All as AllCuts};
ghost use Rattle.shop_records.specs.declared.records.Material.{Material as MaterialOf};
ghost use Rattle.shop_records.specs.declared.records.Demand.{Demand as DemandOf};
ghost use Rattle.shop_machine.specs.declared.recounts.Recount.TheVariants.{Freed};
ghost use Rattle.shop_records.specs.declared.records.State.TheVariants.{Cut};
ghost use Rattle.shop_records.specs.Messages.{is_accepted};
ghost use Rattle.shop_machine.specs.Decisions.{Decides};
ghost use Rattle.shop_machine.specs.Recounts.{plan_leaves, AreDemandsFound, AreRecounted, leaves_in, HasRow, CanBeMade, IsNumbered, pieces_in, with_laid};
ghost use Rattle.shop_machine.specs.Ending.{has_reserved, IsEnd, IsDone, IsBroken, IsRelease, ended_reply, ended_state, kept_halt, state_after_cut, has_begun, can_end, is_part_of, fits_part, is_held, job_refusal, rests, row_part};
ghost use Rattle.shop_machine.specs.Moving.{has_cells, tally, AreFew};

use crate::decisions::no_change;
use crate::moving::{has_cells, moved_totals, tally};
use crate::recounts::{FoundLeaf, Recount, recounted_rows, stands_again, wide};
use cut_measure::{Kind, Limits, MAX_HEIGHT, MAX_NUMBERS, MAX_WIDTH, PartName, Size};
use cut_tree::{Halt, Owner, Plan, Row, Stop, halted};
use shop_records::{
    Change, Demand, DemandList, Job, JobHalt, JobState, Material, MaterialTotals, Part, PartList,
    Refusal, Reply, State, Totals,
};
use std::alloc::{AllocError, Global};

// What becomes of a laid rectangle.
fn state_after_cut(limits: Limits, owner: Owner, size: Size) -> State
    ensures { result ≡ state_after_cut limits owner size }
{
    match owner {
        Owner::Piece(demand) => State::Piece(demand),
        Owner::Kerf => State::Kerf,
        Owner::Lost => State::Scrap,
        Owner::Rest | Owner::Uncut => {
            if limits.keeps(size) {
                State::Standing
            } else {
                State::Scrap
            }
        }
    }
}

// The part that a laid row of a job on a part becomes.
fn row_part(part: &Part, limits: Limits, act: u32, row: &Row) -> Part
    requires act { (1 ≤ act) × (act ≤ MAX_NUMBERS) }
    requires across { (1 ≤ row.now.w) × (part.now.x + row.now.x + row.now.w ≤ MAX_WIDTH) }
    requires down { (1 ≤ row.now.h) × (part.now.y + row.now.y + row.now.h ≤ MAX_HEIGHT) }
    ensures { result ≡ row_part part.now limits act row.now }
{
    let Some(size) = Size::new(Kind::Sheet, row.w, row.h) else {
        unreachable!()
    };
    Part {
        name: PartName::new(act, row.node),
        material: part.material,
        batch: part.batch,
        root: part.root,
        x: part.x + row.x,
        y: part.y + row.y,
        size,
        state: state_after_cut(limits, row.owner, size),
    }
}

// The parts that the laid rows of a job on a part become.
fn cut_parts(
    alloc: Global,
    part: &Part,
    limits: Limits,
    act: u32,
    rows: &[Row],
) -> Result<PartList, AllocError>
    requires act { (1 ≤ act) × (act ≤ MAX_NUMBERS) }
    requires across { All (λ row. (1 ≤ row.w)
        × (part.now.x + row.x + row.w ≤ MAX_WIDTH)) rows.now }
    requires down { All (λ row. (1 ≤ row.h) × (part.now.y + row.y + row.h ≤ MAX_HEIGHT)) rows.now }
    ensures { IfOk result (λ parts. parts ≡ map (row_part part.now limits act) rows.now) }
{
    let mut parts = PartList::new(alloc);
    for row in rows {
        parts.push(row_part(part, limits, act, row))?;
    }
    Ok(parts)
}

// Whether of each leaf's demand all pieces of the plan are reserved.
fn are_reserved(plan: &Plan, leaves: &[FoundLeaf]) -> bool
    requires numbered { All IsNumbered leaves.now }
    ensures test { (at : ℕ → Option DemandOf) → AreDemandsFound at leaves.now
        → result ≡ list_all (λ leaf. has_reserved (count_of plan.now.tree leaf.demand)
        (at leaf.demand)) (leaves_in leaves.now) }
    ensures rows { IsTrue result → All (HasRow CanBeMade plan.now.tree) leaves.now }
{
    let [found, more @ ..] = leaves else {
        return true;
    };
    if stands_again(found, more) {
        return are_reserved(plan, more);
    }
    match has_reserved(plan.count(found.leaf.demand), &found.demand) {
        true => are_reserved(plan, more),
        false => false,
    }
}

fn has_reserved(count: u32, demand: &Option<Demand>) -> bool
    ensures test { result ≡ has_reserved count demand.now }
    ensures made { IsTrue result → IfSome demand.now (CanBeMade count) }
{
    match demand {
        None => false,
        Some(demand) => {
            count <= demand.reserved
                && wide(demand.reserved) + wide(demand.made) <= wide(demand.wanted)
        }
    }
}

fn is_part_of(job: &Job, part: &Part) -> bool
    ensures { result ≡ is_part_of job.now part.now }
{
    let size = job.plan.size();
    let w = part.size.w();
    let h = part.size.h();
    1 <= job.act
        && job.act <= MAX_NUMBERS
        && part.state.is_reserved_for(job.act)
        && w == size.w()
        && h == size.h()
        && wide(part.x) + wide(w) <= wide(MAX_WIDTH)
        && wide(part.y) + wide(h) <= wide(MAX_HEIGHT)
}

fn is_held(job: &Job, part: &Part, totals: &Totals) -> bool
    ensures test { result ≡ is_held job.now part.now totals.now }
    ensures part { IsTrue result → IsTrue (is_part_of job.now part.now) }
    ensures cells { IsTrue result → IsTrue (has_cells part.now totals.now) }
{
    is_part_of(job, part) && has_cells(part, totals)
}

// Whether the rows on which a waiting job rests are there.
fn rests(job: &Job, part: &Part, totals: &Totals, leaves: &[FoundLeaf]) -> bool
    requires numbered { All IsNumbered leaves.now }
    requires leaves { leaves_in leaves.now ≡ plan_leaves job.now.plan }
    ensures test { (at : ℕ → Option DemandOf) → (material : MaterialOf)
        → AreDemandsFound at leaves.now
        → result ≡ rests job.now (Some part.now) (Some material) at totals.now }
    ensures part { IsTrue result → IsTrue (is_part_of job.now part.now) }
    ensures cells { IsTrue result → IsTrue (has_cells part.now totals.now) }
    ensures rows { IsTrue result → All (HasRow CanBeMade job.now.plan.tree) leaves.now }
{
    is_held(job, part, totals) && are_reserved(&job.plan, leaves)
}

// Whether a cut was made, or one went wrong.
fn has_begun(halt: &Halt) -> bool
    ensures { result ≡ has_begun halt.now }
{
    match halt {
        Halt::First { cuts, lost } => 1 <= *cuts || *lost,
        Halt::Listed { cuts, lost } => 1 <= cuts.as_slice().len() || lost.is_some(),
    }
}

/// Whether the work on a plan can have ended so.
pub fn can_end(plan: &Plan, stop: &Stop) -> bool
    ensures test { result ≡ can_end plan.now stop.now }
    ensures stop { IsTrue result → IsStopOf plan.now.tree stop.now }
{
    match stop {
        Stop::All => true,
        Stop::After(halt) => plan.allows(halt) && has_begun(halt),
        Stop::Saved(halt, rest) => plan.allows(halt) && plan.can_save(halt, *rest),
    }
}

// A waiting job with the rows on which it rests.
struct Work {
    job: Job,
    part: Part,
    limits: Limits,
}

// The rows on which a job rests, or why it can't end so.
fn work_of(
    job: Option<Job>,
    part: Option<Part>,
    material: Option<Material>,
    totals: &Totals,
    leaves: &[FoundLeaf],
    stop: &Stop,
) -> Result<Work, Refusal>
    requires numbered { All IsNumbered leaves.now }
    requires leaves { IfSome job (λ j. leaves_in leaves.now ≡ plan_leaves j.plan) }
    ensures allowed { IfOk result
        (λ _. (at : ℕ → Option DemandOf) → AreDemandsFound at leaves.now
        → job_refusal stop.now job part material at totals.now ≡ None) }
    ensures refused { IfErr result
        (λ refusal. (at : ℕ → Option DemandOf) → AreDemandsFound at leaves.now
        → job_refusal stop.now job part material at totals.now ≡ Some refusal) }
    ensures work { IfOk result
        (λ work. (job ≡ Some work.job) × (part ≡ Some work.part)
        × IfSome material (λ m. m.limits ≡ work.limits)) }
    ensures part { IfOk result (λ work. IsTrue (is_part_of work.job work.part)) }
    ensures cells { IfOk result (λ work. IsTrue (has_cells work.part totals.now)) }
    ensures stop { IfOk result (λ work. IsStopOf work.job.plan.tree stop.now) }
    ensures rows { IfOk result (λ work. All (HasRow CanBeMade work.job.plan.tree) leaves.now) }
{
    let Some(job) = job else {
        return Err(Refusal::NoJob);
    };
    if !job.state.is_waiting() {
        return Err(Refusal::JobOver);
    }
    if !can_end(&job.plan, stop) {
        return Err(Refusal::BadCut);
    }
    let Some(part) = part else {
        return Err(Refusal::StoreFault);
    };
    let Some(material) = material else {
        return Err(Refusal::StoreFault);
    };
    if !rests(&job, &part, totals, leaves) {
        return Err(Refusal::StoreFault);
    }
    Ok(Work {
        job,
        part,
        limits: material.limits,
    })
}

// How far a job is whose work ended so.
fn ended_state(stop: &Stop) -> JobState
    ensures { result ≡ ended_state stop.now }
{
    match stop {
        Stop::All => JobState::Done,
        Stop::After(_) | Stop::Saved(..) => JobState::Broken,
    }
}

// What is reported of a job that ended so: the cells of its new parts.
fn ended_reply(stop: &Stop, job: u32, incoming: &Totals) -> Reply
    ensures { result ≡ ended_reply stop.now job incoming.now }
{
    let Totals {
        kerf,
        pieces,
        rack,
        scrap,
        ..
    } = *incoming;
    match stop {
        Stop::All => Reply::Done {
            job,
            kerf,
            pieces,
            rack,
            scrap,
        },
        Stop::After(_) | Stop::Saved(..) => Reply::Break {
            job,
            kerf,
            pieces,
            rack,
            scrap,
        },
    }
}

// Where the work on a job's plan halted, to be kept.
fn kept_halt(alloc: Global, stop: &Stop, job: u32) -> Result<Option<JobHalt>, AllocError>
    ensures { IfOk result (λ halt. halt ≡ kept_halt stop.now job) }
{
    match stop {
        Stop::All => Ok(None),
        Stop::After(halt) => {
            let halt = halt.copy(alloc)?;
            Ok(Some(JobHalt {
                job,
                halt,
                rest: None,
            }))
        }
        Stop::Saved(halt, rest) => {
            let halt = halt.copy(alloc)?;
            Ok(Some(JobHalt {
                job,
                halt,
                rest: Some(*rest),
            }))
        }
    }
}

// What is laid of a plan; of no demand more pieces than the plan has.
fn laid_rows(alloc: Global, plan: &Plan, stop: &Stop) -> Result<Vec<Row>, AllocError>
    requires { IsStopOf plan.now.tree stop.now }
    ensures laid { IfOk result
        (λ rows. IsLaid plan.now.tree plan.now.w plan.now.h plan.now.kerf
        (outcome_of stop.now) rows.items) }
    ensures few { IfOk result
        (λ rows. (d : ℕ) → pieces_in d rows.items ≤ count_of plan.now.tree d) }
{
    plan.see();
    let rows = plan.lay_as(alloc, stop)?;
    Ok(rows)
}

/// The parts that a job made that ended so, and their cells, column by column.
pub(crate) fn ended_parts(
    alloc: Global,
    job: &Job,
    part: &Part,
    limits: Limits,
    stop: &Stop,
    rows: &[Row],
) -> Result<(PartList, Totals), AllocError>
    requires part { IsTrue (fits_part job.now part.now) }
    requires laid { IsLaid job.now.plan.tree job.now.plan.w job.now.plan.h job.now.plan.kerf
        (outcome_of stop.now) rows.now }
    ensures parts { IfOk result
        (λ made. made.0 ≡ map (row_part part.now limits job.now.act) rows.now) }
    ensures cells { IfOk result
        (λ made. made.1 ≡ tally (map (row_part part.now limits job.now.act) rows.now)) }
    ensures few { IfOk result (λ made. AreFew (part.now.size.w * part.now.size.h) made.1) }
{
    let _stop = stop;
    let parts = cut_parts(alloc, part, limits, job.act, rows)?;
    let incoming = tally(parts.as_slice());
    Ok((parts, incoming))
}

// The rows of a plan's demands once its pieces aren't reserved any more, and those that were laid are made.
fn laid_demands(
    alloc: Global,
    plan: &Plan,
    rows: &[Row],
    leaves: &[FoundLeaf],
) -> Result<DemandList, AllocError>
    requires leaves { leaves_in leaves.now ≡ plan_leaves plan.now }
    requires rows { All (HasRow CanBeMade plan.now.tree) leaves.now }
    requires few { (d : ℕ) → pieces_in d rows.now ≤ count_of plan.now.tree d }
    ensures { IfOk result (λ demands. (at : ℕ → Option DemandOf) → AreDemandsFound at leaves.now
        → AreRecounted at (with_laid rows.now) plan.now.tree demands) }
{
    recounted_rows(alloc, Recount::Laid(rows), plan, leaves)
}

// The change of a job whose work ended so.
fn end(
    alloc: Global,
    work: Work,
    totals: &Totals,
    leaves: &[FoundLeaf],
    stop: &Stop,
) -> Result<Change, AllocError>
    requires leaves { leaves_in leaves.now ≡ plan_leaves work.job.plan }
    requires part { IsTrue (is_part_of work.job work.part) }
    requires cells { IsTrue (has_cells work.part totals.now) }
    requires stop { IsStopOf work.job.plan.tree stop.now }
    requires rows { All (HasRow CanBeMade work.job.plan.tree) leaves.now }
    ensures change { IfOk result
        (λ change. (at : ℕ → Option DemandOf) → AreDemandsFound at leaves.now
        → IsEnd stop.now work.job work.part work.limits totals.now at change) }
    ensures reported { IfOk result (λ change. IsTrue (is_accepted change.reply)) }
{
    let Work { job, part, limits } = work;
    let rows = laid_rows(alloc, &job.plan, stop)?;
    let laid: &[Row] = &rows;
    let demands = laid_demands(alloc, &job.plan, laid, leaves)?;
    let (parts, incoming) = ended_parts(alloc, &job, &part, limits, stop, laid)?;
    let reply = ended_reply(stop, job.act, &incoming);
    let halt = kept_halt(alloc, stop, job.act)?;
    Ok(Change {
        parts,
        moved: Some(Part {
            state: State::Cut(job.act),
            ..part
        }),
        job: Some(Job {
            state: ended_state(stop),
            ..job
        }),
        halt,
        demands,
        totals: Some(MaterialTotals {
            material: part.material,
            totals: moved_totals(&part, &incoming, totals),
        }),
        ..no_change(alloc, reply)
    })
}

// The change of a job that is released.
fn release(alloc: Global, work: Work, leaves: &[FoundLeaf]) -> Result<Change, AllocError>
    requires leaves { leaves_in leaves.now ≡ plan_leaves work.job.plan }
    requires rows { All (HasRow CanBeMade work.job.plan.tree) leaves.now }
    ensures change { IfOk result
        (λ change. (at : ℕ → Option DemandOf) → AreDemandsFound at leaves.now
        → IsRelease work.job work.part at change) }
    ensures reported { IfOk result (λ change. IsTrue (is_accepted change.reply)) }
{
    let Work {
        job,
        part,
        limits: _,
    } = work;
    let demands = recounted_rows(alloc, Recount::Freed, &job.plan, leaves)?;
    let reply = Reply::Release { job: job.act };
    Ok(Change {
        moved: Some(Part {
            state: State::Standing,
            ..part
        }),
        job: Some(Job {
            state: JobState::Released,
            ..job
        }),
        demands,
        ..no_change(alloc, reply)
    })
}

// How a job's end is decided, the work on its plan having ended so.
fn decide_end(
    alloc: Global,
    job: Option<Job>,
    part: Option<Part>,
    material: Option<Material>,
    totals: &Totals,
    leaves: &[FoundLeaf],
    stop: &Stop,
) -> Result<Change, Refusal>
    requires numbered { All IsNumbered leaves.now }
    requires leaves { IfSome job (λ j. leaves_in leaves.now ≡ plan_leaves j.plan) }
    ensures decision { (at : ℕ → Option DemandOf) → AreDemandsFound at leaves.now
        → Decides (job_refusal stop.now job part material at totals.now)
        (λ change. MatchOption job ⊥
        (λ j. MatchOption part ⊥ (λ p. MatchOption material ⊥
        (λ m. IsEnd stop.now j p m.limits totals.now at change)))) result }
    ensures reported { IfOk result (λ change. IsTrue (is_accepted change.reply)) }
{
    let work = work_of(job, part, material, totals, leaves, stop)?;
    let change = end(alloc, work, totals, leaves, stop)?;
    Ok(change)
}

/// Finishes a job, from its row, the rows of its part and the part's material, the material's totals, and its plan's
/// leaves with the rows of their demands. Refused, in this order, `NoJob`, `JobOver`, and `StoreFault` where a row on which it
/// rests is missing or contradicts it.
pub fn decide_done(
    alloc: Global,
    job: Option<Job>,
    part: Option<Part>,
    material: Option<Material>,
    totals: Totals,
    leaves: &[FoundLeaf],
) -> Result<Change, Refusal>
    requires numbered { All IsNumbered leaves.now }
    requires leaves { IfSome job (λ j. leaves_in leaves.now ≡ plan_leaves j.plan) }
    ensures decision { (at : ℕ → Option DemandOf) → AreDemandsFound at leaves.now
        → Decides (job_refusal AllCuts job part material at totals)
        (λ change. MatchOption job ⊥
        (λ j. MatchOption part ⊥ (λ p. MatchOption material ⊥
        (λ m. IsDone j p m.limits totals at change)))) result }
    ensures reported { IfOk result (λ change. IsTrue (is_accepted change.reply)) }
{
    let stop = Stop::All;
    let change = decide_end(alloc, job, part, material, &totals, leaves, &stop)?;
    Ok(change)
}

/// Breaks a job off, the work on its plan having halted so, from the same rows. Refused, in this order, `NoJob`, `JobOver`,
/// `BadCut` where the work can't have halted so or hadn't begun, and `StoreFault` as a job that is finished.
pub fn decide_break(
    alloc: Global,
    job: Option<Job>,
    part: Option<Part>,
    material: Option<Material>,
    totals: Totals,
    leaves: &[FoundLeaf],
    halt: &Halt,
    rest: Option<u32>,
) -> Result<Change, Refusal>
    requires numbered { All IsNumbered leaves.now }
    requires leaves { IfSome job (λ j. leaves_in leaves.now ≡ plan_leaves j.plan) }
    ensures decision { (at : ℕ → Option DemandOf) → AreDemandsFound at leaves.now
        → Decides (job_refusal (halted halt.now rest) job part material at totals)
        (λ change. MatchOption job ⊥
        (λ j. MatchOption part ⊥ (λ p. MatchOption material ⊥
        (λ m. IsBroken halt.now rest j p m.limits totals at change)))) result }
    ensures reported { IfOk result (λ change. IsTrue (is_accepted change.reply)) }
{
    let halt = halt.copy(alloc)?;
    let stop = halted(halt, rest);
    let change = decide_end(alloc, job, part, material, &totals, leaves, &stop)?;
    Ok(change)
}

/// Releases a job, from the same rows. Refused as one that is finished.
pub fn decide_release(
    alloc: Global,
    job: Option<Job>,
    part: Option<Part>,
    material: Option<Material>,
    totals: Totals,
    leaves: &[FoundLeaf],
) -> Result<Change, Refusal>
    requires numbered { All IsNumbered leaves.now }
    requires leaves { IfSome job (λ j. leaves_in leaves.now ≡ plan_leaves j.plan) }
    ensures decision { (at : ℕ → Option DemandOf) → AreDemandsFound at leaves.now
        → Decides (job_refusal AllCuts job part material at totals)
        (λ change. MatchOption job ⊥
        (λ j. MatchOption part ⊥ (λ p. MatchOption material ⊥ (λ _. IsRelease j p at change))))
        result }
    ensures reported { IfOk result (λ change. IsTrue (is_accepted change.reply)) }
{
    let stop = Stop::All;
    let work = work_of(job, part, material, &totals, leaves, &stop)?;
    let change = release(alloc, work, leaves)?;
    Ok(change)
}
