//! The entry of an accepted message.

ghost use Rattle.std.specs.Prelude.{◌≡◌, ◌≤◌, ◌+◌, ◌^◌, IfOk, IfErr};
ghost use Rattle.shop_records.specs.declared.refusals.Refusal.TheVariants.{StoreFault};
ghost use Rattle.shop_machine.specs.Machine.{entry_order, entry_part, first_order, changed_job, entry_job, entry_of, entering};

use cut_measure::{Code, PartName};
use shop_records::{Change, Command, Demand, Entry, Job, Message, MessageId, Refusal, word_of};

// The code of the first demand's order.
fn first_order(demands: &[Demand]) -> Option<Code>
    ensures { result ≡ first_order demands.now }
{
    match demands {
        [] => None,
        [demand, ..] => Some(demand.order),
    }
}

// The order that a command makes, also by an import that came again, extends, notes, or of which it amends a demand.
fn entry_order(command: &Command, demands: &[Demand]) -> Option<Code>
    ensures { result ≡ entry_order command.now demands.now }
{
    match command {
        Command::AddOrder { order, .. }
        | Command::Import { order, .. }
        | Command::Note { order, .. }
        | Command::Extend { order, .. } => Some(*order),
        Command::Amend { .. } => first_order(demands),
        _ => None,
    }
}

// The part that a command reserves, scraps or returns.
fn entry_part(command: &Command) -> Option<PartName>
    ensures { result ≡ entry_part command.now }
{
    match command {
        Command::Reserve { part, .. } | Command::Scrap { part } | Command::GiveBack { part } =>
            Some(*part),
        _ => None,
    }
}

// The number of the job that a change reserves, ends, releases or undoes, or 0.
fn changed_job(job: &Option<Job>) -> u32
    ensures { result ≡ changed_job job.now }
{
    match job {
        Some(job) => job.act,
        None => 0,
    }
}

// The job that a command reserves, begins, ends, releases or undoes, or 0.
fn entry_job(command: &Command, found: &Option<Job>) -> u32
    ensures { result ≡ entry_job command.now found.now }
{
    match command {
        Command::Begin { job } => *job,
        _ => changed_job(found),
    }
}

// The entry of a message, under this number and with this time: what it made.
fn entry_of(number: u64, at: u64, message: &Message, change: &Change) -> Entry
    ensures { result ≡ entry_of number at message.now change.now }
{
    Entry {
        number,
        message_id: MessageId {
            terminal: message.terminal,
            number: message.number,
        },
        at,
        word: word_of(&message.command),
        act: change.act.unwrap_or(0),
        job: entry_job(&message.command, &change.job),
        order: entry_order(&message.command, change.demands.as_slice()),
        part: entry_part(&message.command),
    }
}

/// The change that also writes the message's entry, from the number and the time of the last one, 0 and 0 where there is none.
/// The entry has the next number, and the given time, or the last one's where that is greater; a message without a time gives
/// 0. Refused `StoreFault` where no number is left in 64 bits.
pub fn enter(
    last_number: u64,
    last_at: u64,
    at: u64,
    message: &Message,
    change: Change,
) -> Result<Change, Refusal>
    ensures entered { IfOk result (λ entered. entered
        ≡ entering last_number last_at at message.now change) }
    ensures spent { IfErr result
        (λ refusal. (refusal ≡ StoreFault) × (2 ^ 64 ≤ last_number + 1)) }
{
    let Some(number) = last_number.checked_add(1) else {
        return Err(Refusal::StoreFault);
    };
    let entry = entry_of(number, at.max(last_at), message, &change);
    Ok(Change {
        entry: Some(entry),
        ..change
    })
}
