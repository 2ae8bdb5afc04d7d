//! What helps if a plan is refused.

ghost use Rattle.std.specs.Prelude.{◌≡◌, IfSome};
ghost use Rattle.shop_commands.specs.Advice.{IsAdviceOf, IsOfStep, IsStepHelp};
ghost use Rattle.shop_commands.specs.Advice as spec;
ghost use Rattle.shop_commands.specs.declared.faults.Fault.TheVariants as fault;

use crate::advice::{Advice, Cause, advice_of};
use crate::files::{Reads, read_file};
use cut_measure::MAX_KERF;
use shop_files::{Problem, read_cgcut};
use shop_problems::{StepHelp, Steps, help_of_all, help_of_one};
use shop_records::Refusal;
use shop_words::Request;
use std::alloc::Global;
use std::fs;

// The problem of a file, as it is now. None where it can't be read again: what came through a pipe is gone.
fn problem_of<R: Reads>(rt: &R, alloc: Global, file: &str) -> Option<Problem> {
    if !fs::metadata(rt, file).ok()?.is_file() {
        return None;
    }
    let bytes = read_file(rt, alloc, file).ok()?;
    read_cgcut(alloc, &bytes).ok()
}

// What helps where the plan of a problem is refused for its step or its size.
fn step_help<R: Reads>(rt: &R, alloc: Global, request: &Request<'_>) -> Option<StepHelp> {
    match request {
        Request::Plan { file, kerf, step } => {
            let problem = problem_of(rt, alloc, file)?;
            Some(help_of_one(&problem, (*kerf).min(MAX_KERF), *step))
        }
        Request::PlanOrder {
            file,
            kerf,
            step,
            ..
        } => {
            let problem = problem_of(rt, alloc, file)?;
            Some(help_of_all(&problem, (*kerf).min(MAX_KERF), *step))
        }
        _ => Some(StepHelp::ShorterBar),
    }
}

// An advice of some steps.
#[tactic(auto, using(crate::proofs::StepAdvice::of_step))]
fn steps_advice(alloc: Global, file: &str, steps: Steps) -> Option<Advice>
    ensures { IfSome result IsStepHelp }
{
    let word = format!(in alloc; "{} to {}", steps.least, steps.most).ok()?;
    advice_of(alloc, file, Cause::Steps, word.as_str())
}

// An advice of what helps.
#[tactic(auto, using(crate::proofs::StepAdvice::of_step))]
fn help_advice(alloc: Global, file: &str, help: StepHelp) -> Option<Advice>
    ensures { IfSome result IsStepHelp }
{
    match help {
        StepHelp::Whole => advice_of(alloc, file, Cause::Whole, ""),
        StepHelp::ShorterBar => advice_of(alloc, file, Cause::LongBar, ""),
        StepHelp::Steps(steps) => steps_advice(alloc, file, steps),
    }
}

/// What helps if the plan of a file is refused for its step or as too large: the steps that serve it, `--whole`, or a
/// shorter bar; or to write the problem to a file, if it can't be read again. None if memory ran out.
#[tactic(auto, using(crate::proofs::StepAdvice::of_help, crate::proofs::StepAdvice::of_refused))]
pub(crate) fn step_advice<R: Reads>(
    rt: &R,
    alloc: Global,
    request: &Request<'_>,
    file: &str,
    refusal: Refusal,
) -> Option<Advice>
    ensures { IsOfStep refusal → IfSome result (IsAdviceOf (fault.Refused refusal)) }
{
    match step_help(rt, alloc, request) {
        Some(help) => help_advice(alloc, file, help),
        None => advice_of(alloc, file, Cause::Refused(refusal), ""),
    }
}

/// Why the lines of an order file aren't planned.
pub(crate) fn lines_cause(refusal: Refusal) -> Cause
    ensures cause { result ≡ spec.lines_cause refusal }
    ensures fits { spec.FitsFault (fault.Refused refusal) result }
{
    match refusal {
        Refusal::BadSize => Cause::Size,
        Refusal::NothingFits => Cause::NoFit,
        Refusal::BadWant => Cause::Lines,
        other => Cause::Refused(other),
    }
}
