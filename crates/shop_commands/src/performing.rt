//! From the words of a command line to the command that they ask for, and its status.

ghost use Rattle.std.specs.Prelude.{◌≡◌, ◌+◌, ◌≤◌, IfOk, IfErr, IfSome, OnOk, map, string_bytes};
ghost use Rattle.cut_measure.specs.declared.ranges.TheConstants.{MAX_KERF};
ghost use Rattle.clap.specs.Words.{kind_of};
ghost use Rattle.clap.specs.declared.error.kind.ErrorKind.TheVariants as kind;
ghost use Rattle.shop_wire.specs.Streams.{most_reads};
ghost use Rattle.cut_order.specs.Stocks.{IsStageLimit};
ghost use Rattle.shop_words.specs.CommandLine.{HasMeasures};
ghost use Rattle.shop_commands.specs.Advice.{IsAdviceOf};
ghost use Rattle.shop_commands.specs.Performs as spec;
ghost use Rattle.shop_commands.specs.Performs.{Concludes, IsDone, IsHelped, IsMadeStopped, IsMistakeReported, IsPerformed, IsPlanDone, IsPlanStopped, IsStopped, IsReported, ReportsFault};
ghost use Rattle.shop_commands.specs.Plans.{IsFileFault, IsFileLines, IsFileLinesFault, IsFilePlan, IsFileWhole, IsFileWholeFault};
ghost use Rattle.shop_commands.specs.Sinks.{change_of};
ghost use Rattle.shop_commands.specs.Stored.{IsAddressOf};
ghost use Rattle.shop_commands.specs.Sources.{source_change};

use crate::advice::{Advice, NO_MEMORY_REPORTED, advise, fault_lines, makes_store, stream_advice};
use crate::audits::{audit_store, print_history};
use crate::faults::Fault;
use crate::files::{Reads, read_file, write_text};
use crate::orders::check_orders;
use crate::plans::{plan_file, plan_order_file, plan_whole_file};
use crate::progress::note_opening;
use crate::replays::replay_fresh;
use crate::restoring::restore;
use crate::stored::{StoreText, print_stored, serve};
use clap::Error;
use clap::error::ErrorKind;
use shop_advice::printed_lines;
use shop_opening::Opens;
use shop_problems::{DEFAULT_CALLS, WholePlan};
use shop_request::Address;
use shop_store::Book;
use shop_text::{Sink, Source};
use shop_words::{
    Mistake, OrderPlan, Reading, Request, Serving, VERSION, mistake_text, request_of,
};
use std::alloc::{AllocError, Global};
use std::fs::Files;
use std::io::Eprint;
use std::net::Net;
use std::random::RandomSource;
use std::time::Clock;

// Writes the lines of a fault, and gives the status of a program that stopped.
fn write_fault<E: Sink>(alloc: Global, fault: Fault, advice: Option<Advice>, errors: &mut E) -> u8
    requires { IfSome advice (IsAdviceOf fault) }
    ensures status { result ≡ 1 }
    ensures reported { ReportsFault fault (change_of E.Sink errors.old errors.new) }
{
    let _ = match fault_lines(alloc, fault, advice) {
        Ok(lines) => write_text(errors, lines.as_str()),
        Err(_) => write_text(errors, NO_MEMORY_REPORTED),
    };
    1
}

/// Writes the lines of an error of a stream or of memory, and returns the status of a program that stopped.
pub(crate) fn report_fault<E: Sink>(alloc: Global, fault: Fault, errors: &mut E) -> u8
    ensures status { result ≡ 1 }
    ensures reported { ReportsFault fault (change_of E.Sink errors.old errors.new) }
{
    let advice = stream_advice(alloc, &fault);
    write_fault(alloc, fault, advice, errors)
}

// Writes the plan of a problem file.
fn plan<R: Reads, W: Sink>(
    rt: &R,
    alloc: Global,
    file: &str,
    kerf: u32,
    step: u32,
    sink: &mut W,
) -> Result<(), Fault>
    requires { kerf ≤ MAX_KERF }
    ensures ok { OnOk result (IsPlanDone (R.holds rt.now) file.now (λ bytes. IsFilePlan bytes kerf step)
        (change_of W.Sink sink.old sink.new)) }
    ensures err { IfErr result (λ f. IsPlanStopped (R.holds rt.now) file.now (λ bytes. IsFilePlan bytes kerf step)
        (λ bytes. IsFileFault bytes kerf step) f (change_of W.Sink sink.old sink.new)) }
{
    let bytes = read_file(rt, alloc, file)?;
    let lines = plan_file(alloc, &bytes, kerf, step)?;
    write_text(sink, lines.as_str())
}

// Writes the plans of all pieces of a problem file.
fn plan_order<R: Reads, W: Sink>(
    rt: &R,
    alloc: Global,
    file: &str,
    kerf: u32,
    step: Option<u32>,
    calls: Option<u32>,
    stages: Option<u32>,
    sink: &mut W,
) -> Result<(), Fault>
    requires kerf { kerf ≤ MAX_KERF }
    requires limit { IsStageLimit stages }
    ensures ok { OnOk result (IsPlanDone (R.holds rt.now) file.now (λ bytes. IsFileWhole bytes kerf step stages)
        (change_of W.Sink sink.old sink.new)) }
    ensures err { IfErr result (λ f. IsPlanStopped (R.holds rt.now) file.now (λ bytes. IsFileWhole bytes kerf step stages)
        (λ bytes. IsFileWholeFault bytes kerf step) f (change_of W.Sink sink.old sink.new)) }
{
    let calls = calls.unwrap_or(DEFAULT_CALLS);
    let bytes = read_file(rt, alloc, file)?;
    let how = WholePlan {
        kerf,
        step,
        calls,
        stages,
    };
    let lines = plan_whole_file(alloc, &bytes, how)?;
    write_text(sink, lines.as_str())
}

// Where a server is reached.
fn address_of<'a>(serving: &'a Serving<'a>) -> Address<'a>
    ensures { IsAddressOf serving.now result }
{
    Address {
        port: serving.port,
        hosts: &serving.hosts,
        origins: &serving.origins,
    }
}

// Writes the plans of the lines of an order file.
fn plan_lines<R: Reads, W: Sink>(
    rt: &R,
    alloc: Global,
    asked: &OrderPlan<'_>,
    sink: &mut W,
) -> Result<(), Fault>
    requires { IsStageLimit asked.now.stages }
    ensures ok { OnOk result (IsPlanDone (R.holds rt.now) asked.now.file.now (λ bytes. IsFileLines (R.holds rt.now) bytes asked.now)
        (change_of W.Sink sink.old sink.new)) }
    ensures err { IfErr result (λ f. IsMadeStopped (R.holds rt.now) asked.now.file.now (λ bytes. IsFileLines (R.holds rt.now) bytes asked.now)
        (λ bytes. IsFileLinesFault (R.holds rt.now) bytes asked.now) f (change_of W.Sink sink.old sink.new)) }
{
    let bytes = read_file(rt, alloc, asked.file)?;
    let lines = plan_order_file(rt, alloc, &bytes, asked)?;
    write_text(sink, lines.as_str())
}

// Does what is asked, or stops.
fn do_request<
    R: Reads + Net + Clock + Eprint + RandomSource,
    B: Book + Drop,
    A: Book + Drop,
    O: Opens<B>,
    P: Opens<A>,
    S: Source,
    W: Sink,
>(
    rt: &R,
    stores: O,
    apart: P,
    alloc: Global,
    request: &Request<'_>,
    source: &mut S,
    sink: &mut W,
) -> Result<(), Fault>
    requires { HasMeasures request.now }
    ensures ok { OnOk result
        (IsDone B.Book A.Book (O.gives stores) (P.gives apart) (R.holds rt.now) request.now (source_change S.Source source.old source.new)
        (change_of W.Sink sink.old sink.new)) }
    ensures err { IfErr result (λ f.
        IsStopped B.Book A.Book (O.gives stores) (P.gives apart) (R.holds rt.now) request.now f (source_change S.Source source.old source.new)
        (change_of W.Sink sink.old sink.new)) }
    ensures reads { S.reads source.new ≤ S.reads source.old + most_reads }
{
    match request {
        Request::Replay => replay_fresh(alloc, source, sink),
        Request::Plan { file, kerf, step } => plan(rt, alloc, file, *kerf, *step, sink),
        Request::PlanOrder {
            file,
            kerf,
            step,
            calls,
            stages,
        } => plan_order(rt, alloc, file, *kerf, *step, *calls, *stages, sink),
        Request::PlanLines(asked) => plan_lines(rt, alloc, asked, sink),
        Request::Orders {
            file,
            shop,
            reported,
        } => check_orders(rt, alloc, file, *shop, *reported, sink),
        Request::Serve(serving) => serve(
            rt,
            stores,
            alloc,
            &address_of(serving),
            serving.store,
            serving.shop,
            serving.limit,
            serving.page,
            serving.backup,
            serving.existing,
            serving.keep,
            sink,
        ),
        Request::Ticket {
            store,
            job,
            read_only: false,
        } => print_stored(stores, alloc, store, StoreText::Ticket(*job), sink),
        Request::Ticket {
            store,
            job,
            read_only: true,
        } => print_stored(apart, alloc, store, StoreText::Ticket(*job), sink),
        Request::Yield {
            store,
            material,
            read_only: false,
        } => print_stored(stores, alloc, store, StoreText::Yield(*material), sink),
        Request::Yield {
            store,
            material,
            read_only: true,
        } => print_stored(apart, alloc, store, StoreText::Yield(*material), sink),
        Request::History {
            store,
            after,
            read_only: false,
        } => print_history(rt, stores, alloc, store, *after, false, sink),
        Request::History {
            store,
            after,
            read_only: true,
        } => print_history(rt, apart, alloc, store, *after, true, sink),
        Request::Audit { store, read_only } => audit_store(
            rt, apart, alloc, store, *read_only, sink,
        ),
        Request::Restore { store, from } => restore(rt, apart, alloc, store, from, sink),
    }
}

// The store that a request opens under its own name, if it opens one.
fn opened_store<'a>(request: &Request<'a>) -> Option<&'a str> {
    match request {
        Request::Serve(serving) => Some(serving.store),
        Request::Ticket { store, .. } => Some(store),
        Request::Yield { store, .. } => Some(store),
        Request::History { store, .. } => Some(store),
        Request::Audit { store, .. } => Some(store),
        _ => None,
    }
}

// Shows on a terminal that a request's large store is being opened.
fn note_store<R: Files + Eprint>(rt: &R, alloc: Global, request: &Request<'_>) {
    if let Some(store) = opened_store(request) {
        note_opening(rt, alloc, store);
    }
}

// The status of what was done, or of what stopped, which is reported.
fn conclude<R: Reads, E: Sink>(
    rt: &R,
    alloc: Global,
    request: &Request<'_>,
    is_new: bool,
    outcome: Result<(), Fault>,
    errors: &mut E,
) -> u8
    ensures { Concludes outcome (change_of E.Sink errors.old errors.new) result }
{
    match outcome {
        Ok(()) => 0,
        Err(fault) => {
            let advice = advise(rt, alloc, request, is_new, &fault);
            write_fault(alloc, fault, advice, errors)
        }
    }
}

// What `clap` says, as it is printed.
fn error_text(alloc: Global, error: &Error) -> Result<String, AllocError> {
    let mut text = String::new(alloc);
    write!(text, "{error}")?;
    printed_lines(alloc, text.as_str())
}

// Writes help.
fn write_help<W: Sink, E: Sink>(alloc: Global, text: &str, sink: &mut W, errors: &mut E) -> u8
    ensures { IsHelped (change_of W.Sink sink.old sink.new)
        (change_of E.Sink errors.old errors.new) result }
{
    match write_text(sink, text) {
        Ok(()) => 0,
        Err(unwritten) => report_fault(alloc, unwritten, errors),
    }
}

// The line that reports the version.
fn version_line(alloc: Global) -> Result<String, AllocError>
    ensures { IfOk result (λ line. string_bytes line ≡ spec.version_line) }
{
    format!(in alloc; "cutshop {VERSION}\n")
}

// Reports the version.
fn write_version<W: Sink, E: Sink>(alloc: Global, sink: &mut W, errors: &mut E) -> u8
    ensures { IsReported (change_of W.Sink sink.old sink.new)
        (change_of E.Sink errors.old errors.new) kind.DisplayVersion result }
{
    let Ok(line) = version_line(alloc) else {
        return report_fault(alloc, Fault::NoMemory, errors);
    };
    match write_text(sink, line.as_str()) {
        Ok(()) => 0,
        Err(unwritten) => report_fault(alloc, unwritten, errors),
    }
}

// Says what `clap` says where the words ask for nothing.
fn explain<W: Sink, E: Sink>(alloc: Global, error: &Error, sink: &mut W, errors: &mut E) -> u8
    ensures { IsReported (change_of W.Sink sink.old sink.new) (change_of E.Sink errors.old errors.new)
        (kind_of error.now) result }
{
    let Ok(text) = error_text(alloc, error) else {
        return report_fault(alloc, Fault::NoMemory, errors);
    };
    match error.kind() {
        ErrorKind::OutOfMemory => report_fault(alloc, Fault::NoMemory, errors),
        ErrorKind::DisplayHelp => write_help(alloc, text.as_str(), sink, errors),
        ErrorKind::DisplayVersion => write_version(alloc, sink, errors),
        _ => {
            let _ = write_text(errors, text.as_str());
            2
        }
    }
}

// The text that reports a mistake in words that `clap` takes, as it is printed.
fn printed_mistake(alloc: Global, mistake: Mistake<'_>) -> Result<String, AllocError>
    ensures { IfOk result (λ text. string_bytes text ≡ spec.printed_mistake mistake.entry) }
{
    let text = mistake_text(alloc, mistake)?;
    printed_lines(alloc, text.as_str())
}

// Reports a mistake.
fn report_mistake<E: Sink>(alloc: Global, mistake: Mistake<'_>, errors: &mut E) -> u8
    ensures { IsMistakeReported mistake.entry (change_of E.Sink errors.old errors.new) result }
{
    let Ok(text) = printed_mistake(alloc, mistake) else {
        return report_fault(alloc, Fault::NoMemory, errors);
    };
    let _ = write_text(errors, text.as_str());
    2
}

/// Does what the words ask for (the first is the program's name) and returns the status: 0 if it was done, and for
/// help; 2 for a mistake in the words; otherwise 1. Then `errors` has the error's line and, except for an order file's,
/// a second line, which begins with two spaces and says why.
pub fn perform<
    R: Reads + Net + Clock + Eprint + RandomSource,
    B: Book + Drop,
    A: Book + Drop,
    O: Opens<B>,
    P: Opens<A>,
    S: Source,
    W: Sink,
    E: Sink,
>(
    rt: &R,
    stores: O,
    apart: P,
    alloc: Global,
    words: &[String],
    source: &mut S,
    sink: &mut W,
    errors: &mut E,
) -> u8
    ensures done { IsPerformed B.Book A.Book (O.gives stores) (P.gives apart) (R.holds rt.now) (map string_bytes words.now)
        (source_change S.Source source.old source.new) (change_of W.Sink sink.old sink.new)
        (change_of E.Sink errors.old errors.new) result }
    ensures reads { S.reads source.new ≤ S.reads source.old + most_reads }
{
    match request_of(alloc, words) {
        Ok(Reading::Request(request)) => {
            let is_new = makes_store(rt, &request);
            note_store(rt, alloc, &request);
            let outcome = do_request(rt, stores, apart, alloc, &request, source, sink);
            conclude(rt, alloc, &request, is_new, outcome, errors)
        }
        Ok(Reading::Mistake(mistake)) => report_mistake(alloc, mistake, errors),
        Err(error) => explain(alloc, &error, sink, errors),
    }
}
