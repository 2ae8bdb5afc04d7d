//! A terminal begins to cut a waiting job: what is decided on it.

ghost use Rattle.std.specs.Prelude.{◌≡◌, IfOk, IsTrue};
ghost use Rattle.shop_records.specs.Messages.{is_accepted};
ghost use Rattle.shop_machine.specs.Decisions.{Decides};
ghost use Rattle.shop_machine.specs.Beginning.{begin_refusal, begin_change};

use crate::decisions::no_change;
use shop_records::{Change, Job, JobBegin, Refusal, Reply};
use std::alloc::Global;

/// Begins a job, from its row and from which terminal had begun it. Refused `NoJob`, then `JobOver`. The change names terminal
/// 0 until the message is kept.
pub fn decide_begin(
    alloc: Global,
    number: u32,
    job: Option<Job>,
    before: Option<JobBegin>,
) -> Result<Change, Refusal>
    ensures decision { Decides (begin_refusal job)
        (λ change. change ≡ begin_change number before) result }
    ensures reported { IfOk result (λ change. IsTrue (is_accepted change.reply)) }
{
    let Some(job) = job else {
        return Err(Refusal::NoJob);
    };
    if !job.state.is_waiting() {
        return Err(Refusal::JobOver);
    }
    let before = match before {
        Some(row) => row.terminal,
        None => 0,
    };
    let reply = Reply::Begin {
        before,
        job: number,
    };
    Ok(Change {
        begun: Some(JobBegin {
            job: number,
            terminal: 0,
        }),
        ..no_change(alloc, reply)
    })
}
