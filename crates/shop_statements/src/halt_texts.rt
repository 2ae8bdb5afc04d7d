//! Where the work on a job halted, as the text that stands for it: written and read.

ghost use Rattle.std.specs.Prelude.{◌≡◌, ◌++◌, IfOk, IfSome, IsTrue, OnOk, string_bytes};
ghost use Rattle.std.specs.List.{AllByRecursion};
ghost use Rattle.shop_records.specs.declared.records.JobHalt.{JobHalt as HaltRecord};
ghost use Rattle.shop_statements.specs.Halts.{AreCutValues, IsHaltValue, IsSmall, cuts_text, flag_text, halt_text, list_text, lost_text, more_numbers, rest_text};

use crate::TableFault;
use cut_measure::read_number;
use cut_tree::{CutList, Halt, MAX_CUTS};
use shop_records::JobHalt;
use std::alloc::{AllocError, Global};

fn write_flag(flag: bool, out: &mut String) -> Result<(), AllocError>
    ensures { OnOk result (string_bytes out.new ≡ string_bytes out.old ++ flag_text flag) }
{
    if flag {
        out.push_str("true")
    } else {
        out.push_str("false")
    }
}

// Numbers, each behind a comma.
fn write_more(numbers: &[u32], out: &mut String) -> Result<(), AllocError>
    ensures { OnOk result (string_bytes out.new ≡ string_bytes out.old
        ++ more_numbers numbers.now) }
{
    let Some((first, more)) = numbers.split_first() else {
        return Ok(());
    };
    write!(out, ",{first}")?;
    write_more(more, out)
}

fn write_list(numbers: &[u32], out: &mut String) -> Result<(), AllocError>
    ensures { OnOk result (string_bytes out.new ≡ string_bytes out.old ++ list_text numbers.now) }
{
    let Some((first, more)) = numbers.split_first() else {
        return out.push_str("[]");
    };
    write!(out, "[{first}")?;
    write_more(more, out)?;
    out.push_str("]")
}

fn write_cuts(halt: &Halt, out: &mut String) -> Result<(), AllocError>
    ensures { OnOk result (string_bytes out.new ≡ string_bytes out.old ++ cuts_text halt.now) }
{
    match halt {
        Halt::First { cuts, .. } => write!(out, "{cuts}"),
        Halt::Listed { cuts, .. } => write_list(cuts.as_slice(), out),
    }
}

fn write_lost(halt: &Halt, out: &mut String) -> Result<(), AllocError>
    ensures { OnOk result (string_bytes out.new ≡ string_bytes out.old ++ lost_text halt.now) }
{
    match halt {
        Halt::First { lost, .. } => write_flag(*lost, out),
        Halt::Listed {
            lost: Some(cut),
            ..
        } => write!(out, "{cut}"),
        Halt::Listed { lost: None, .. } => write_flag(false, out),
    }
}

fn write_rest(rest: Option<u32>, out: &mut String) -> Result<(), AllocError>
    ensures { OnOk result (string_bytes out.new ≡ string_bytes out.old ++ rest_text rest) }
{
    match rest {
        Some(rest) => {
            out.push_str(",\"rest\":")?;
            write!(out, "{rest}")
        }
        None => Ok(()),
    }
}

fn write_halt(row: &JobHalt, out: &mut String) -> Result<(), AllocError>
    ensures { OnOk result (string_bytes out.new ≡ string_bytes out.old ++ halt_text row.now) }
{
    out.push_str("{\"cuts\":")?;
    write_cuts(&row.halt, out)?;
    out.push_str(",\"lost\":")?;
    write_lost(&row.halt, out)?;
    write_rest(row.rest, out)?;
    out.push_str("}")
}

/// The text of where the work on a job halted.
pub(crate) fn text_of_halt(alloc: Global, row: &JobHalt) -> Result<String, AllocError>
    ensures { IfOk result (λ text. string_bytes text ≡ halt_text row.now) }
{
    let mut text = String::new(alloc);
    write_halt(row, &mut text)?;
    Ok(text)
}

// ---- its numbers

fn see_cuts(cuts: &[u32])
    ensures { AllByRecursion IsSmall cuts.now }
{
    if let Some((first, more)) = cuts.split_first() {
        let _first = *first;
        see_cuts(more);
    }
}

fn see_cut(cut: Option<u32>)
    ensures { IfSome cut IsSmall }
{
    if let Some(cut) = cut {
        let _cut = cut;
    }
}

fn see_cuts_of(halt: &Halt)
    ensures { AreCutValues halt.now }
{
    match halt {
        Halt::First { cuts, .. } => {
            let _cuts = *cuts;
        }
        Halt::Listed { cuts, lost } => {
            see_cuts(cuts.as_slice());
            see_cut(*lost);
        }
    }
}

/// Where the work of the program halted has numbers of their types.
pub(crate) fn see_halt(row: &JobHalt)
    ensures { IsHaltValue row.now }
{
    see_cuts_of(&row.halt);
    see_cut(row.rest);
}

// ---- reading

fn number_of(digits: &[u8]) -> Result<u32, TableFault> {
    match read_number(digits) {
        Some(number) => Ok(number),
        None => Err(TableFault::Store),
    }
}

// At most as many as a plan has.
fn list_of(alloc: Global, text: &str) -> Result<CutList, TableFault> {
    let mut cuts = CutList::new(alloc);
    if text.is_empty() {
        return Ok(cuts);
    }
    for word in text.as_bytes().split(|byte| *byte == b',') {
        if cuts.as_slice().len() >= MAX_CUTS as usize {
            return Err(TableFault::Store);
        }
        let number = number_of(word)?;
        cuts.push(number)?;
    }
    Ok(cuts)
}

fn lost_of(text: &str) -> Result<Option<u32>, TableFault> {
    if text == "false" {
        return Ok(None);
    }
    let cut = number_of(text.as_bytes())?;
    Ok(Some(cut))
}

fn listed_of(alloc: Global, list: &str, lost: &str) -> Result<Halt, TableFault> {
    let Some(list) = list.strip_suffix("]") else {
        return Err(TableFault::Store);
    };
    let lost = lost_of(lost)?;
    let cuts = list_of(alloc, list)?;
    Ok(Halt::Listed { cuts, lost })
}

fn halt_of(alloc: Global, cuts: &str, lost: &str) -> Result<Halt, TableFault> {
    match cuts.strip_prefix("[") {
        Some(list) => listed_of(alloc, list, lost),
        None => {
            let cuts = number_of(cuts.as_bytes())?;
            let lost = lost == "true";
            Ok(Halt::First { cuts, lost })
        }
    }
}

fn rest_of(text: &str) -> Result<Option<u32>, TableFault> {
    if text.is_empty() {
        return Ok(None);
    }
    let rest = number_of(text.as_bytes())?;
    Ok(Some(rest))
}

// The values of the three keys; that of the last is empty where it isn't there.
fn values_of(text: &str) -> Option<(&str, &str, &str)> {
    let object = text.strip_prefix("{\"cuts\":")?;
    let members = object.strip_suffix("}")?;
    let (cuts, after) = members.split_once(",\"lost\":")?;
    match after.split_once(",\"rest\":") {
        Some((lost, rest)) => Some((cuts, lost, rest)),
        None => Some((cuts, after, "")),
    }
}

// What the text may stand for.
fn candidate(alloc: Global, job: u32, text: &str) -> Result<JobHalt, TableFault>
    ensures { IfOk result (λ read. read.job ≡ job) }
{
    let Some((cuts, lost, rest)) = values_of(text) else {
        return Err(TableFault::Store);
    };
    let rest = rest_of(rest)?;
    let halt = halt_of(alloc, cuts, lost)?;
    Ok(JobHalt { job, halt, rest })
}

fn is_text_of(alloc: Global, row: &JobHalt, text: &str) -> Result<bool, AllocError>
    ensures { IfOk result (λ same. IsTrue same → halt_text row.now ≡ text.now) }
{
    let own = text_of_halt(alloc, row)?;
    Ok(own.as_str() == text)
}

// What the text stands for, which is written as it is.
fn read_back(alloc: Global, job: u32, text: &str) -> Result<JobHalt, TableFault>
    ensures key { IfOk result (λ read. read.job ≡ job) }
    ensures exact { IfOk result (λ read. halt_text read ≡ text.now) }
    ensures value { IfOk result IsHaltValue }
{
    let row = candidate(alloc, job, text)?;
    see_halt(&row);
    if is_text_of(alloc, &row, text)? {
        Ok(row)
    } else {
        Err(TableFault::Store)
    }
}

/// Where the work on the job of a number halted, of the text that stands for it.
pub fn read_halt(alloc: Global, job: u32, text: &str) -> Result<JobHalt, TableFault>
    ensures key { IfOk result (λ read. read.job ≡ job) }
    ensures exact { IfOk result (λ read. halt_text read ≡ text.now) }
    ensures halt { (halt : HaltRecord) → halt.job ≡ job → IsHaltValue halt
        → text.now ≡ halt_text halt → IfOk result (λ read. read ≡ halt) }
{
    let halt = read_back(alloc, job, text)?;
    Ok(halt)
}
