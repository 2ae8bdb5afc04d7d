//! The table of jobs, whose plans are kept as texts: put and moved.

ghost use Rattle.std.specs.Prelude.{◌≡◌, [], ◌∷◌, Some, IfOk};
ghost use Rattle.shop_statements.specs.Beside.{Spares};
ghost use Rattle.shop_statements.specs.Layout.{jobs_table};
ghost use Rattle.sqlite.specs.Held.{state};
ghost use Rattle.cut_tree.specs.Spelling.{text_of};
ghost use Rattle.shop_records.specs.Content.{job_at};
ghost use Rattle.shop_records.specs.declared.records.Job.{Job as JobRecord};
ghost use Rattle.shop_statements.specs.Rows.{IsOwnJob};
ghost use Rattle.std.specs.Prelude.{None, OnOk, string_bytes};
ghost use Rattle.shop_statements.specs.Changes.{with_job};
ghost use Rattle.shop_statements.specs.Shown.{Books, Makes, Ran, Within};

use crate::TableFault;
use crate::columns::number_of_job_state;
use crate::running::run;
use shop_records::Job;
use sqlite::{Alter, Transaction, params};
use std::alloc::{AllocError, Global};

fn tree_text(alloc: Global, job: &Job) -> Result<String, AllocError>
    ensures { IfOk result (λ text. string_bytes text ≡ text_of job.now.plan.tree) }
{
    let mut text = String::new(alloc);
    job.plan.write(&mut text)?;
    Ok(text)
}

/// Puts a new job.
pub fn put_job<S: Alter>(
    alloc: Global,
    tx: &mut Transaction<'_, S>,
    job: &Job,
) -> Result<(), TableFault>
    ensures same_reference { tx.new.conn.ghost_name ≡ tx.old.conn.ghost_name }
    ensures ran { OnOk result
        (Ran (state S.Store tx.old.conn.now) (state S.Store tx.new.conn.now)) }
    ensures put { (b : Books) → job_at b.content job.now.act ≡ None
        → IsOwnJob b.content job.now.act job.now
        → OnOk result (Makes (state S.Store tx.old.conn.now) (state S.Store tx.new.conn.now) b
        (with_job job.now b)) }
    ensures others { OnOk result (Spares (jobs_table.tree ∷ [])
        (state S.Store tx.old.conn.now) (state S.Store tx.new.conn.now)) }
    ensures within { Within (state S.Store tx.old.conn.now) (state S.Store tx.new.conn.now) }
{
    let tree = tree_text(alloc, job)?;
    run(
        tx,
        "INSERT INTO jobs (job, part_act, part_node, tree, state) VALUES (?1, ?2, ?3, ?4, ?5)",
        params![
            job.act,
            job.part.act(),
            job.part.node(),
            &tree,
            number_of_job_state(job.state)
        ],
    )
}

/// Gives a job that is there the state of this one, which is the same but for it.
pub fn move_job<S: Alter>(tx: &mut Transaction<'_, S>, job: &Job) -> Result<(), TableFault>
    ensures same_reference { tx.new.conn.ghost_name ≡ tx.old.conn.ghost_name }
    ensures ran { OnOk result
        (Ran (state S.Store tx.old.conn.now) (state S.Store tx.new.conn.now)) }
    ensures put { (b : Books) → (was : JobRecord) → job_at b.content job.now.act ≡ Some was
        → job.now ≡ record was { state = job.now.state }
        → OnOk result (Makes (state S.Store tx.old.conn.now) (state S.Store tx.new.conn.now) b
        (with_job job.now b)) }
    ensures others { OnOk result (Spares (jobs_table.tree ∷ [])
        (state S.Store tx.old.conn.now) (state S.Store tx.new.conn.now)) }
    ensures within { Within (state S.Store tx.old.conn.now) (state S.Store tx.new.conn.now) }
{
    run(
        tx,
        "UPDATE jobs SET state = ?2 WHERE job = ?1",
        params![job.act, number_of_job_state(job.state)],
    )
}
