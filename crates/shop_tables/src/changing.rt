//! What a change writes, inside a transaction. Its kept message comes first, and where it has none the store is asked all
//! the same whether it is open.

ghost use Rattle.std.specs.Prelude.{◌≡◌, ⊤, IfOk, None, is_some, not, IfSome, MatchOption, OnOk};
ghost use Rattle.std.specs.FinMap.{get};
ghost use Rattle.std.specs.Option.{option_or};
ghost use Rattle.sqlite.specs.Held.{state};
ghost use Rattle.shop_records.specs.Content.{halt_at, kept_at};
ghost use Rattle.shop_records.specs.WellFormed.{Fits, IsMovedJob, IsNewJob};
ghost use Rattle.shop_statements.specs.Beside.{Spares};
ghost use Rattle.shop_statements.specs.Layout.{our_trees};
ghost use Rattle.shop_statements.specs.Shown.{Books, Makes, Ran, Within};
ghost use Rattle.shop_tables.specs.Changing.{HasSums, HasTrail, AreDemandsFit, AreNewUses, is_ordered, uses_of, uses_of_job, with_uses, HasStockOf, HasWorkOf, Writes, with_change, with_jobs, with_demands, with_messages, with_sums, with_stock, with_work, with_halts, with_said, with_numbers};

use crate::writing::{Known, LastAct, LastDemand, New, Placed, write_all, write_some};
use cut_measure::Code;
use shop_records::{
    Change, Demand, Entry, ImportRow, Job, JobBegin, JobHalt, KeptMessage, Material,
    MaterialTotals, OrderNote, Part,
};
use shop_statements::{
    JobOrder, TableFault, move_job, put_halt, put_job, put_kept, put_totals, set_totals,
};
use sqlite::{Alter, Transaction};
use std::alloc::{AllocError, Global};

// Keeps the message; it runs a statement in any case.
fn keep<S: Alter>(
    tx: &mut Transaction<'_, S>,
    message: &Option<KeptMessage>,
) -> Result<(), TableFault>
    ensures same_reference { tx.new.conn.ghost_name ≡ tx.old.conn.ghost_name }
    ensures ran { OnOk result
        (Ran (state S.Store tx.old.conn.now) (state S.Store tx.new.conn.now)) }
    ensures put { (b : Books) → IfSome message.now (λ row. kept_at b.content row.message_id ≡ None)
        → OnOk result (Makes (state S.Store tx.old.conn.now) (state S.Store tx.new.conn.now) b
        (with_messages message.now b)) }
    ensures others { OnOk result
        (Spares our_trees (state S.Store tx.old.conn.now) (state S.Store tx.new.conn.now)) }
    ensures within { Within (state S.Store tx.old.conn.now) (state S.Store tx.new.conn.now) }
{
    match message {
        Some(message) => put_kept(tx, message),
        None => {
            tx.prepare("SELECT value FROM meta WHERE name = ?1")?;
            Ok(())
        }
    }
}

// Puts a new job, or gives one that is there its new state.
fn write_job<S: Alter>(
    alloc: Global,
    tx: &mut Transaction<'_, S>,
    job: &Option<Job>,
    act: Option<u32>,
) -> Result<(), TableFault>
    ensures same_reference { tx.new.conn.ghost_name ≡ tx.old.conn.ghost_name }
    ensures writes { Writes (state S.Store tx.old.conn.now) (state S.Store tx.new.conn.now) result
        (λ b. IfSome job.now (λ row. MatchOption act (IsMovedJob b.content row)
        (λ number. IsNewJob b.content number row))) (with_jobs job.now) }
{
    let Some(job) = job else {
        return Ok(());
    };
    match act {
        None => move_job(tx, job),
        Some(_) => {
            job.plan.see();
            put_job(alloc, tx, job)
        }
    }
}

// Puts the totals of a new material, or gives one that is there new ones.
fn write_totals<S: Alter>(
    tx: &mut Transaction<'_, S>,
    row: &Option<MaterialTotals>,
    is_new: bool,
) -> Result<(), TableFault>
    ensures same_reference { tx.new.conn.ghost_name ≡ tx.old.conn.ghost_name }
    ensures writes { Writes (state S.Store tx.old.conn.now) (state S.Store tx.new.conn.now) result
        (λ b. IfSome row.now (λ row. is_some (get b.totals row.material) ≡ not is_new))
        (with_sums row.now) }
{
    let Some(row) = row else {
        return Ok(());
    };
    if is_new {
        put_totals(tx, row.material, &row.totals)
    } else {
        set_totals(tx, row.material, &row.totals)
    }
}

// The order's demands, which are new, or demands that are there.
fn write_demands<S: Alter>(
    tx: &mut Transaction<'_, S>,
    order: Option<Code>,
    demands: &[Demand],
) -> Result<(), TableFault>
    ensures same_reference { tx.new.conn.ghost_name ≡ tx.old.conn.ghost_name }
    ensures writes { Writes (state S.Store tx.old.conn.now) (state S.Store tx.new.conn.now) result
        (AreDemandsFit order demands.now) (with_demands demands.now) }
{
    match order {
        Some(_) => write_all::<New, Demand, S>(tx, demands),
        None => write_all::<Known, Demand, S>(tx, demands),
    }
}

// The material, the part that moves, those that are undone, the new parts and the totals.
#[tactic(auto, using(crate::proofs::InTurn::stops, shop_statements::proofs::Steps::within_then))]
fn write_stock<S: Alter>(tx: &mut Transaction<'_, S>, change: &Change) -> Result<(), TableFault>
    ensures same_reference { tx.new.conn.ghost_name ≡ tx.old.conn.ghost_name }
    ensures writes { Writes (state S.Store tx.old.conn.now) (state S.Store tx.new.conn.now) result
        (HasStockOf change.now) (with_stock change.now) }
{
    write_some::<New, Material, S>(tx, &change.material)?;
    write_some::<Known, Part, S>(tx, &change.moved)?;
    write_all::<Known, Part, S>(tx, change.undone.as_slice())?;
    write_all::<New, Part, S>(tx, change.parts.as_slice())?;
    write_totals(tx, &change.totals, change.material.is_some())
}

// The order whose new lines the demands are: one that is new, or one that gets further lines.
fn lines_for(order: Option<Code>, extended: Option<Code>) -> Option<Code>
    ensures { result ≡ option_or order extended }
{
    match order {
        Some(code) => Some(code),
        None => extended,
    }
}

// The order, the import that it came by, and its demands or others.
#[tactic(auto, using(crate::proofs::InTurn::stops, shop_statements::proofs::Steps::within_then))]
fn write_work<S: Alter>(tx: &mut Transaction<'_, S>, change: &Change) -> Result<(), TableFault>
    ensures same_reference { tx.new.conn.ghost_name ≡ tx.old.conn.ghost_name }
    ensures writes { Writes (state S.Store tx.old.conn.now) (state S.Store tx.new.conn.now) result
        (HasWorkOf change.now) (with_work change.now) }
{
    write_some::<New, Code, S>(tx, &change.order)?;
    write_some::<New, ImportRow, S>(tx, &change.import)?;
    write_demands(
        tx,
        lines_for(change.order, change.extended),
        change.demands.as_slice(),
    )
}

// The orders of the demands under a job, each once.
fn uses_of(alloc: Global, job: u32, demands: &[Demand]) -> Result<Vec<JobOrder>, AllocError>
    ensures { IfOk result (λ uses. uses.items ≡ uses_of job demands.now) }
{
    let Some((first, more)) = demands.split_first() else {
        return Ok(Vec::new(alloc));
    };
    let mut uses = uses_of(alloc, job, more)?;
    if is_ordered(first.order, more) {
        return Ok(uses);
    }
    uses.push(JobOrder {
        job,
        order: first.order,
    })?;
    Ok(uses)
}

// Whether one of the demands is of the order.
fn is_ordered(order: Code, demands: &[Demand]) -> bool
    ensures { result ≡ is_ordered order demands.now }
{
    let Some((first, more)) = demands.split_first() else {
        return false;
    };
    first.order == order || is_ordered(order, more)
}

// The orders of the demands under a job.
#[tactic(auto, using(crate::proofs::InTurn::stops, shop_statements::proofs::Steps::within_itself))]
fn put_uses<S: Alter>(
    alloc: Global,
    tx: &mut Transaction<'_, S>,
    job: u32,
    demands: &[Demand],
) -> Result<(), TableFault>
    ensures same_reference { tx.new.conn.ghost_name ≡ tx.old.conn.ghost_name }
    ensures writes { Writes (state S.Store tx.old.conn.now) (state S.Store tx.new.conn.now) result
        (AreNewUses (uses_of job demands.now)) (with_uses (uses_of job demands.now)) }
{
    let uses = uses_of(alloc, job, demands)?;
    write_all::<New, JobOrder, S>(tx, &uses)
}

// The orders of a new job.
fn write_uses<S: Alter>(
    alloc: Global,
    tx: &mut Transaction<'_, S>,
    job: &Option<Job>,
    act: Option<u32>,
    demands: &[Demand],
) -> Result<(), TableFault>
    ensures same_reference { tx.new.conn.ghost_name ≡ tx.old.conn.ghost_name }
    ensures writes { Writes (state S.Store tx.old.conn.now) (state S.Store tx.new.conn.now) result
        (AreNewUses (uses_of_job job.now act demands.now))
        (with_uses (uses_of_job job.now act demands.now)) }
{
    let Some(job) = job else {
        return Ok(());
    };
    match act {
        None => Ok(()),
        Some(_) => put_uses(alloc, tx, job.act, demands),
    }
}

// Puts where the work on a job halted, of which that isn't kept yet.
fn write_halt<S: Alter>(
    alloc: Global,
    tx: &mut Transaction<'_, S>,
    row: &Option<JobHalt>,
) -> Result<(), TableFault>
    ensures same_reference { tx.new.conn.ghost_name ≡ tx.old.conn.ghost_name }
    ensures writes { Writes (state S.Store tx.old.conn.now) (state S.Store tx.new.conn.now) result
        (λ b. IfSome row.now (λ row. halt_at b.content row.job ≡ None)) (with_halts row.now) }
{
    match row {
        Some(row) => put_halt(alloc, tx, row),
        None => Ok(()),
    }
}

// What is said beside: where a job halted, which terminal has begun one, and what is said of an order.
#[tactic(auto, using(crate::proofs::InTurn::stops, shop_statements::proofs::Steps::within_then))]
fn write_said<S: Alter>(
    alloc: Global,
    tx: &mut Transaction<'_, S>,
    change: &Change,
) -> Result<(), TableFault>
    ensures same_reference { tx.new.conn.ghost_name ≡ tx.old.conn.ghost_name }
    ensures writes { Writes (state S.Store tx.old.conn.now) (state S.Store tx.new.conn.now) result
        (λ b. IfSome change.now.halt (λ row. halt_at b.content row.job ≡ None))
        (with_said change.now) }
{
    write_halt(alloc, tx, &change.halt)?;
    write_some::<Placed, JobBegin, S>(tx, &change.begun)?;
    write_some::<Placed, OrderNote, S>(tx, &change.note)
}

// The numbers that were given.
#[tactic(auto, using(crate::proofs::InTurn::stops, shop_statements::proofs::Steps::within_then))]
fn write_numbers<S: Alter>(tx: &mut Transaction<'_, S>, change: &Change) -> Result<(), TableFault>
    ensures same_reference { tx.new.conn.ghost_name ≡ tx.old.conn.ghost_name }
    ensures writes { Writes (state S.Store tx.old.conn.now) (state S.Store tx.new.conn.now) result
        (λ _. ⊤) (with_numbers change.now) }
{
    write_some::<LastAct, u32, S>(tx, &change.act)?;
    write_some::<LastDemand, u32, S>(tx, &change.demand)
}

/// Writes the rows of a change, its kept message first, and runs a statement in any case. A change that fits the content
/// makes the changed content of it.
#[tactic(auto, using(crate::proofs::InTurn::stops, shop_statements::proofs::Steps::within_then))]
pub(crate) fn write_change<S: Alter>(
    alloc: Global,
    tx: &mut Transaction<'_, S>,
    change: &Change,
) -> Result<(), TableFault>
    ensures same_reference { tx.new.conn.ghost_name ≡ tx.old.conn.ghost_name }
    ensures ran { OnOk result
        (Ran (state S.Store tx.old.conn.now) (state S.Store tx.new.conn.now)) }
    ensures writes { Writes (state S.Store tx.old.conn.now) (state S.Store tx.new.conn.now) result
        (λ b. HasSums b × HasTrail b × Fits b.content change.now) (with_change change.now) }
{
    keep(tx, &change.kept)?;
    write_some::<New, Entry, S>(tx, &change.entry)?;
    write_job(alloc, tx, &change.job, change.act)?;
    write_stock(tx, change)?;
    write_work(tx, change)?;
    write_uses(
        alloc,
        tx,
        &change.job,
        change.act,
        change.demands.as_slice(),
    )?;
    write_said(alloc, tx, change)?;
    write_numbers(tx, change)
}
