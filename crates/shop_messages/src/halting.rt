//! JSON of a job that breaks off: which cuts were made and which one went wrong, read and written.

ghost use Rattle.std.specs.Prelude.{◌≡◌, IfOk, OnOk, All, Some, None, codes};
ghost use Rattle.std.specs.Option.{option_or};
ghost use Rattle.serde_json.specs.View.{view};
ghost use Rattle.shop_records.specs.declared.messages.Command.TheVariants.{Break};
ghost use Rattle.shop_records.specs.Messages.{IsCommand, IsNumber, IsHalt};
ghost use Rattle.shop_forms.specs.Forms as form;
ghost use Rattle.shop_forms.specs.Forms.{sent_data};
ghost use Rattle.shop_forms.specs.Members.{IsAt};
ghost use Rattle.shop_forms.specs.Tokens.{AddsValue};

use cut_tree::{Halt, MAX_CUTS};
use json::Writer;
use serde_json::Value;
use shop_forms::{Member, flag_at, has_keys, number_at, rows_at, wide, write_object};
use shop_records::Command;
use std::alloc::{AllocError, Global};

// The cut that went wrong by its number, or `false` where none did.
fn lost_cut(value: &Value, key: &str) -> Option<Option<u32>>
    ensures { result ≡ form.lost_cut key.now (view value.now) }
{
    if let Some(cut) = number_at(value, key) {
        return Some(Some(cut));
    }
    match flag_at(value, key) {
        Some(false) => Some(None),
        _ => None,
    }
}

// How many first cuts were made, and whether the next one went wrong.
fn first_cuts(value: &Value) -> Option<Halt>
    ensures { result ≡ form.first_cuts (view value.now) }
{
    let cuts = number_at(value, "cuts")?;
    let lost = flag_at(value, "lost")?;
    Some(Halt::First { cuts, lost })
}

// The cuts that were made, and the one that went wrong.
fn listed_cuts(alloc: Global, value: &Value) -> Result<Option<Halt>, AllocError>
    ensures { IfOk result (λ halt. halt ≡ form.listed_cuts (view value.now)) }
{
    match rows_at(alloc, value, "cuts")? {
        Some(cuts) => match lost_cut(value, "lost") {
            Some(lost) => Ok(Some(Halt::Listed { cuts, lost })),
            None => Ok(None),
        },
        None => Ok(None),
    }
}

// Which cuts were made, and whether one went wrong.
fn halt_of(alloc: Global, value: &Value) -> Result<Option<Halt>, AllocError>
    ensures { IfOk result (λ halt. halt
        ≡ option_or (form.first_cuts (view value.now)) (form.listed_cuts (view value.now))) }
{
    if let Some(halt) = first_cuts(value) {
        return Ok(Some(halt));
    }
    let halt = listed_cuts(alloc, value)?;
    Ok(halt)
}

// The command that the work on a job halted, without a rest of the cut that went wrong.
fn plain_break(alloc: Global, value: &Value) -> Result<Option<Command>, AllocError>
    ensures { IfOk result (λ command. command ≡ form.plain_break (view value.now)) }
{
    let Some(job) = number_at(value, "job") else {
        return Ok(None);
    };
    match halt_of(alloc, value)? {
        Some(halt) => Ok(Some(Command::Break {
            job,
            halt,
            rest: None,
        })),
        None => Ok(None),
    }
}

// The same with a rest.
fn saving_break(alloc: Global, value: &Value) -> Result<Option<Command>, AllocError>
    ensures { IfOk result (λ command. command ≡ form.saving_break (view value.now)) }
{
    let Some(job) = number_at(value, "job") else {
        return Ok(None);
    };
    match halt_of(alloc, value)? {
        Some(halt) => match number_at(value, "rest") {
            Some(rest) => Ok(Some(Command::Break {
                job,
                halt,
                rest: Some(rest),
            })),
            None => Ok(None),
        },
        None => Ok(None),
    }
}

// The command that the work on a job halted.
pub(crate) fn break_command(alloc: Global, value: &Value) -> Result<Option<Command>, AllocError>
    ensures { IfOk result (λ command. command ≡ form.break_command (view value.now)) }
{
    if has_keys(value, 6) {
        plain_break(alloc, value)
    } else if has_keys(value, 7) {
        saving_break(alloc, value)
    } else {
        Ok(None)
    }
}

// Whether a command lists at most 255 cuts.
pub(crate) fn has_few_cuts(command: &Command) -> bool
    ensures { result ≡ form.has_few_cuts command.now }
{
    match command {
        Command::Break {
            halt: Halt::Listed { cuts, .. },
            ..
        } => cuts.as_slice().len() <= MAX_CUTS as usize,
        _ => true,
    }
}

// The cuts that were made: their number, or a list.
fn cuts_member(halt: &Halt) -> Member<'_>
    ensures { IsAt result (codes "cuts") (form.cuts_data halt.now) }
{
    match halt {
        Halt::First { cuts, .. } => Member::Number("cuts", wide(*cuts)),
        Halt::Listed { cuts, .. } => Member::Numbers("cuts", cuts.as_slice()),
    }
}

// Whether a cut went wrong, or which.
fn lost_member(halt: &Halt) -> Member<'static>
    ensures { IsAt result (codes "lost") (form.lost_data halt.now) }
{
    match halt {
        Halt::First { lost, .. } => Member::Flag("lost", *lost),
        Halt::Listed { lost, .. } => match lost {
            Some(cut) => Member::Number("lost", wide(*cut)),
            None => Member::Flag("lost", false),
        },
    }
}

// Writes a message that breaks a job off.
fn write_plain(
    writer: &mut Writer,
    message_id: (u64, u64),
    job: u32,
    halt: &Halt,
) -> Result<(), AllocError>
    ensures value { OnOk result (AddsValue writer.old writer.new
        (sent_data message_id.0 message_id.1 (form.break_members job halt.now None))) }
    ensures seen { IsNumber job }
{
    write_object(
        writer,
        &[
            cuts_member(halt),
            Member::Text("do", "break"),
            Member::Number("job", wide(job)),
            lost_member(halt),
            Member::Number("number", message_id.1),
            Member::Number("terminal", message_id.0),
        ],
    )
}

// The same with a rest of the cut that went wrong.
fn write_saving(
    writer: &mut Writer,
    message_id: (u64, u64),
    job: u32,
    halt: &Halt,
    rest: u32,
) -> Result<(), AllocError>
    ensures value { OnOk result (AddsValue writer.old writer.new
        (sent_data message_id.0 message_id.1 (form.break_members job halt.now (Some rest)))) }
    ensures seen { IsNumber job }
    ensures rest { IsNumber rest }
{
    write_object(
        writer,
        &[
            cuts_member(halt),
            Member::Text("do", "break"),
            Member::Number("job", wide(job)),
            lost_member(halt),
            Member::Number("number", message_id.1),
            Member::Number("rest", wide(rest)),
            Member::Number("terminal", message_id.0),
        ],
    )
}

// Writes a message that breaks a job off, with a rest of the cut that went wrong or without.
pub(crate) fn write_break(
    writer: &mut Writer,
    message_id: (u64, u64),
    job: u32,
    halt: &Halt,
    rest: Option<u32>,
) -> Result<(), AllocError>
    ensures value { OnOk result (AddsValue writer.old writer.new
        (sent_data message_id.0 message_id.1 (form.break_members job halt.now rest))) }
    ensures seen { IsCommand (Break job halt.now rest) }
{
    see_halt(halt);
    match rest {
        Some(rest) => write_saving(writer, message_id, job, halt, rest),
        None => write_plain(writer, message_id, job, halt),
    }
}

// Reads each cut, so that all are known to be in range.
fn see_cuts(cuts: &[u32])
    ensures { All IsNumber cuts.now }
{
    for cut in cuts {
        let _cut = wide(*cut);
    }
}

// Reads a halt, which so is known to be in range.
fn see_halt(halt: &Halt)
    ensures { IsHalt halt.now }
{
    match halt {
        Halt::First { cuts, .. } => {
            let _cuts = wide(*cuts);
        }
        Halt::Listed { cuts, lost } => {
            see_cuts(cuts.as_slice());
            if let Some(cut) = lost {
                let _cut = wide(*cut);
            }
        }
    }
}
