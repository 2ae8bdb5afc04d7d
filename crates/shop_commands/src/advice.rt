//! The second line of an error: which file, entry or port it is about, and why, in words to act on.

ghost use Rattle.std.specs.Prelude.{◌≡◌, ◌++◌, ℕ, List, false, IfSome, IfOk, string_bytes};
ghost use Rattle.shop_advice.specs.declared.causes.ShopCause.{ShopCause as ShopCauseOf};
ghost use Rattle.shop_commands.specs.Advice as spec;
ghost use Rattle.shop_commands.specs.Advice.{IsAdviceOf, IsOf, IsPlain};
ghost use Rattle.shop_commands.specs.declared.advice.Cause.TheVariants as kind;
ghost use Rattle.shop_commands.specs.declared.faults.Fault.{Fault as FaultOf};
ghost use Rattle.shop_commands.specs.declared.faults.Fault.TheVariants as fault;

use crate::faults::{Fault, Torn};
use crate::files::{Reads, read_file};
use crate::helping::{lines_cause, step_advice};
use crate::memory::memory_advice;
use shop_advice::{
    BackupCause, FileCause, ShopCause, StoreCause, VersionCause, is_there, look_at_file,
    look_at_shop, printed_text,
};
use shop_audit::Row;
use shop_files::TextCause;
use shop_records::Refusal;
use shop_serve::PortCause;
use shop_words::{Request, Serving};
use std::alloc::{AllocError, Global};

/// The second line of an error if memory ran out.
const NO_MEMORY: &str = "  memory ran out; end other programs, or give this one more\n";

/// Both lines, if there is no memory even to report an error.
pub(crate) const NO_MEMORY_REPORTED: &str =
    "fault memory\n  memory ran out; end other programs, or give this one more\n";

/// Why an error occurred, as far as it is known.
#[derive(Clone, Copy, Debug, PartialEq)]
pub enum Cause {
    /// A file can't be read.
    File(FileCause),
    /// A problem's text has an error.
    Problem(TextCause),
    /// A shop file has an error.
    Shop(ShopCause),
    /// This refusal.
    Refused(Refusal),
    /// A step is refused, or a rectangle is too large, and `--whole` helps: a plan of all pieces, without a step.
    Whole,
    /// A bar is too long.
    LongBar,
    /// A step is refused, or a rectangle is too large, and other steps serve.
    Steps,
    /// A text is no size of the material.
    Size,
    /// No piece fits one of the sizes.
    NoFit,
    /// No lines are of the material, or they can't be planned.
    Lines,
    /// The store wasn't there, and was created.
    Made,
    /// A store can't be opened.
    Store(StoreCause),
    /// A database isn't a store of this program.
    Version(VersionCause),
    /// A port can't be listened to.
    Port(PortCause),
    /// No backup can be made in a folder, or the folder isn't a backup.
    Backup(BackupCause),
    /// Memory ran out, and a store takes this much.
    Memory,
    /// Standard input can't be read.
    Input,
    /// Standard output can't be written.
    Output,
    /// Messages were kept before entries began.
    Before,
    /// A message gets another reply.
    Reply,
    /// A row differs.
    Row,
}

/// What a second line says: what it is about, why, and a word after that, or none.
#[derive(Drop)]
pub struct Advice {
    pub about: String,
    pub cause: Cause,
    pub word: String,
}

// What is reported about the first fault of a problem's text.
fn problem_text(cause: TextCause) -> &'static str
    ensures { result.now ≡ spec.problem_text cause }
{
    match cause {
        TextCause::Long => "the text is over 65536 bytes long, or this number is one too many",
        TextCause::Byte => "only digits, spaces, tabs and line ends may stand here",
        TextCause::Number => "this number is out of its range",
        TextCause::Short => "the text ends before its last number",
        TextCause::NoMemory => "memory ran out",
    }
}

// What is reported about a refusal.
fn refused_text(refusal: Refusal) -> &'static str
    ensures { result.now ≡ spec.refused_text refusal }
{
    match refusal {
        Refusal::NumberReused => {
            "another entry was read here before; put it back, and write new ones behind the last"
        }
        Refusal::NoMaterial => "it has no such material",
        Refusal::MaterialExists => {
            "the store has this material with another kind, kerf or limits"
        }
        Refusal::BadMaterial => "the kerf or a limit is out of its range for this kind",
        Refusal::NoJob => "it has no such job",
        Refusal::NothingFits => "no piece fits the rectangle",
        Refusal::BadWant => {
            "it has too many kinds of pieces; write at most 40, and 100 with --whole"
        }
        Refusal::TableTooLarge | Refusal::BadStep => {
            "it can't be read again; write it to a file to be told what helps"
        }
        Refusal::NoMemory => "memory ran out",
        Refusal::StoreFault => {
            "the store failed, or its rows contradict each other; look at its disk"
        }
        _ => "the shop refuses it",
    }
}

// What is reported about a port.
fn port_text(cause: PortCause) -> &'static str
    ensures { result.now ≡ spec.port_text cause }
{
    match cause {
        PortCause::InUse => "another program listens to it; end that one, or take another port",
        PortCause::NotAllowed => "this account may not listen to it; take one from 1024 on",
        PortCause::Refused => "the system refuses it, or accepts no connection any more",
        PortCause::NoRun =>
            "the system gives no random numbers, by which each start is told from others",
    }
}

// What is reported about a cause.
fn cause_text(cause: Cause) -> &'static str
    ensures { result.now ≡ spec.cause_text cause }
{
    match cause {
        Cause::File(cause) => cause.text(),
        Cause::Problem(cause) => problem_text(cause),
        Cause::Shop(cause) => cause.text(),
        Cause::Refused(refusal) => refused_text(refusal),
        Cause::Whole => "plan it with --whole, and without --step",
        Cause::LongBar => "a bar is at most 15000.0 mm long",
        Cause::Steps => "a step is ",
        Cause::Size => {
            "a size is 0.1x0.1 to 20000.0x6000.0 in millimetres, and of a bar 0.1 to 20000.0"
        }
        Cause::NoFit => "no piece fits a unit of these sizes",
        Cause::Lines => {
            "it has no line of the material, or over 100; or a bar's that isn't 0.1 wide or may be turned; or a size stands twice"
        }
        Cause::Made => "there was no store, and an empty one was made",
        Cause::Store(cause) => cause.text(),
        Cause::Version(cause) => cause.text(),
        Cause::Port(cause) => port_text(cause),
        Cause::Backup(cause) => cause.text(),
        Cause::Memory => {
            "memory ran out; end other programs, or give this one more; its shop takes some "
        }
        Cause::Input => "it can't be read to its end",
        Cause::Output => "it can't be written; is its disk full, or its reader gone?",
        Cause::Before => " messages were kept before entries began",
        Cause::Reply => "another reply",
        Cause::Row => "",
    }
}

// What stands between the subject of a second line and its cause.
fn joint(cause: Cause) -> &'static str
    ensures { result.now ≡ spec.joint cause }
{
    match cause {
        Cause::Before => "",
        _ => ": ",
    }
}

// A text as it is printed, on one line. None because memory ran out, as below.
fn plain(alloc: Global, text: &str) -> Option<String>
    ensures { IfSome result (λ plain. IsPlain (string_bytes plain)) }
{
    printed_text(alloc, text).ok()
}

/// The advice for a cause; none if memory ran out.
pub(crate) fn advice_of(alloc: Global, about: &str, cause: Cause, word: &str) -> Option<Advice>
    ensures { IfSome result (IsOf cause) }
{
    let about = plain(alloc, about)?;
    let word = plain(alloc, word)?;
    Some(Advice { about, cause, word })
}

// What is wrong at a place of a file.
fn advice_at(alloc: Global, path: &str, place: &str, number: usize, cause: Cause) -> Option<Advice>
    ensures { IfSome result (IsOf cause) }
{
    let about = format!(in alloc; "{path}, {place} {number}").ok()?;
    advice_of(alloc, about.as_str(), cause, "")
}

// The file that a request reads first, or its store.
fn first_name<'a>(request: &Request<'a>) -> &'a str {
    match request {
        Request::Replay => "",
        Request::Plan { file, .. } => file,
        Request::PlanOrder { file, .. } => file,
        Request::PlanLines(asked) => asked.file,
        Request::Orders { file, .. } => file,
        Request::Serve(serving) => serving.shop,
        Request::Ticket { store, .. } => store,
        Request::Yield { store, .. } => store,
        Request::History { store, .. } => store,
        Request::Audit { store, .. } => store,
        Request::Restore { store, .. } => store,
    }
}

// The store of a request.
fn store_name<'a>(request: &Request<'a>) -> &'a str {
    match request {
        Request::Serve(serving) => serving.store,
        _ => first_name(request),
    }
}

// The folder of a request's backups, or of the one that is restored.
fn backup_name<'a>(request: &Request<'a>) -> &'a str {
    match request {
        Request::Serve(
            Serving {
                backup: Some(backup),
                ..
            },
        ) => backup,
        Request::Restore { from, .. } => from,
        _ => first_name(request),
    }
}

// Whether a file can be read to its end, or to that of the longest text.
fn can_be_read<R: Reads>(rt: &R, alloc: Global, path: &str) -> bool {
    match read_file(rt, alloc, path) {
        Ok(_) => true,
        Err(_) => false,
    }
}

// The shop file of a request.
fn shop_name<'a>(request: &Request<'a>) -> &'a str {
    match request {
        Request::Orders {
            shop: Some(shop),
            ..
        } => shop,
        Request::PlanLines(asked) => asked.shop,
        _ => first_name(request),
    }
}

// The page of a server, where its shop file can be read.
fn unread_of_serving<'a, R: Reads>(rt: &R, alloc: Global, serving: &Serving<'a>) -> &'a str {
    match serving.page {
        Some(page) if can_be_read(rt, alloc, serving.shop) => page,
        _ => serving.shop,
    }
}

// The shop file beside an order file, where it can't be read and the order file can be.
fn unread_of_order<'a, R: Reads>(rt: &R, alloc: Global, file: &'a str, shop: &'a str) -> &'a str {
    if can_be_read(rt, alloc, file) && !can_be_read(rt, alloc, shop) {
        shop
    } else {
        file
    }
}

// The file that can't be read.
fn unread_name<'a, R: Reads>(rt: &R, alloc: Global, request: &Request<'a>) -> &'a str {
    match request {
        Request::Serve(serving) => unread_of_serving(rt, alloc, serving),
        Request::Orders { file, .. } => unread_of_order(rt, alloc, file, shop_name(request)),
        Request::PlanLines(asked) => unread_of_order(rt, alloc, asked.file, asked.shop),
        _ => first_name(request),
    }
}

// Why a file can't be used that can be read: it is too long for a page, or no text of an order.
fn unused_cause(request: &Request<'_>) -> FileCause {
    match request {
        Request::Serve(serving) if serving.page.is_some() => FileCause::Long,
        Request::Orders { .. } => FileCause::NoText,
        _ => FileCause::Unreadable,
    }
}

// Why a file of a request can't be read.
fn file_cause<R: Reads>(rt: &R, alloc: Global, request: &Request<'_>, path: &str) -> FileCause {
    match look_at_file(rt, path) {
        FileCause::NoText => {
            if can_be_read(rt, alloc, path) {
                unused_cause(request)
            } else {
                FileCause::Unreadable
            }
        }
        cause => cause,
    }
}

// Why a file of a request can't be read.
fn file_advice<R: Reads>(rt: &R, alloc: Global, request: &Request<'_>) -> Option<Advice>
    ensures { IfSome result (IsAdviceOf fault.File) }
{
    let path = unread_name(rt, alloc, request);
    let cause = file_cause(rt, alloc, request, path);
    advice_of(alloc, path, Cause::File(cause), "")
}

// Where in a shop file a fault is.
fn shop_about(
    alloc: Global,
    path: &str,
    line: Option<usize>,
    entry: Option<usize>,
) -> Option<String> {
    match (line, entry) {
        (Some(line), _) => format!(in alloc; "{path}, line {line}").ok(),
        (None, Some(entry)) => format!(in alloc; "{path}, material {entry}").ok(),
        (None, None) => format!(in alloc; "{path}").ok(),
    }
}

// What is wrong in a shop file, of which this entry is bad, from 1, or the whole.
fn shop_advice<R: Reads>(rt: &R, alloc: Global, path: &str, entry: Option<usize>) -> Option<Advice>
    ensures { IfSome result (λ a. (c : ShopCauseOf) × IsOf (kind.Shop c) a) }
{
    let bytes = read_file(rt, alloc, path).ok()?;
    let found = look_at_shop(alloc, &bytes, entry).ok()?;
    let about = shop_about(alloc, path, found.line, entry)?;
    advice_of(
        alloc,
        about.as_str(),
        Cause::Shop(found.cause),
        found.word.as_str(),
    )
}

// Which file a refusal of an order file's plan is about: the one that lacks the material, and else the order file.
fn lines_name<'a>(request: &Request<'a>, refusal: Refusal) -> &'a str {
    match refusal {
        Refusal::NoMaterial => shop_name(request),
        _ => first_name(request),
    }
}

// Why a ticket, a report or a plan is refused.
#[tactic(auto, using(crate::proofs::StepAdvice::fitting))]
fn plain_advice(
    alloc: Global,
    request: &Request<'_>,
    is_new: bool,
    refusal: Refusal,
) -> Option<Advice>
    ensures { IfSome result (IsAdviceOf (fault.Refused refusal)) }
{
    if is_new {
        return advice_of(alloc, first_name(request), Cause::Made, "");
    }
    match request {
        Request::PlanLines(_) => {
            let name = lines_name(request, refusal);
            advice_of(alloc, name, lines_cause(refusal), "")
        }
        _ => advice_of(alloc, first_name(request), Cause::Refused(refusal), ""),
    }
}

// The same, and what helps where a step is refused, or what is planned is too large.
#[tactic(auto, using(crate::proofs::StepAdvice::large_help, crate::proofs::StepAdvice::bad_help))]
fn refused_advice<R: Reads>(
    rt: &R,
    alloc: Global,
    request: &Request<'_>,
    is_new: bool,
    refusal: Refusal,
) -> Option<Advice>
    ensures { IfSome result (IsAdviceOf (fault.Refused refusal)) }
{
    let name = first_name(request);
    match refusal {
        Refusal::TableTooLarge => step_advice(rt, alloc, request, name, refusal),
        Refusal::BadStep => step_advice(rt, alloc, request, name, refusal),
        other => plain_advice(alloc, request, is_new, other),
    }
}

// The port of a request.
fn port_of(request: &Request<'_>) -> u32 {
    match request {
        Request::Serve(serving) => serving.port,
        _ => 0,
    }
}

// Why a port can't be listened to.
fn port_advice(alloc: Global, request: &Request<'_>, cause: PortCause) -> Option<Advice>
    ensures { IfSome result (IsOf (kind.Port cause)) }
{
    let number = port_of(request);
    let about = format!(in alloc; "port {number}").ok()?;
    advice_of(alloc, about.as_str(), Cause::Port(cause), "")
}

// Why a database is no shop's, and which of its rows stands for nothing.
fn version_advice(alloc: Global, name: &str, cause: VersionCause) -> Option<Advice>
    ensures { IfSome result (IsOf (kind.Version cause)) }
{
    if let VersionCause::Row(row) = &cause {
        let word = row.text(alloc).ok()?;
        return advice_of(alloc, name, Cause::Version(cause), word.as_str());
    }
    advice_of(alloc, name, Cause::Version(cause), "")
}

/// Why a stream failed; none for another error, or if memory ran out.
pub(crate) fn stream_advice(alloc: Global, fault: &Fault) -> Option<Advice>
    ensures { IfSome result (IsAdviceOf fault.now) }
{
    match fault {
        Fault::Read => advice_of(alloc, "standard input", Cause::Input, ""),
        Fault::Write => advice_of(alloc, "standard output", Cause::Output, ""),
        _ => None,
    }
}

// Why a store isn't whole.
fn torn_advice(alloc: Global, torn: Torn) -> Option<Advice>
    ensures { IfSome result (IsAdviceOf (fault.Audit torn)) }
{
    match torn {
        Torn::Before(count) => {
            let about = format!(in alloc; "{count}").ok()?;
            advice_of(alloc, about.as_str(), Cause::Before, "")
        }
        Torn::Reply(number) => {
            let about = format!(in alloc; "entry {number}").ok()?;
            advice_of(alloc, about.as_str(), Cause::Reply, "")
        }
        Torn::Row(row) => {
            let table = row.table();
            let key = row_words(alloc, row).ok()?;
            advice_of(alloc, table, Cause::Row, key.as_str())
        }
    }
}

// The key of a row that differs.
fn row_words(alloc: Global, row: Row) -> Result<String, AllocError> {
    let mut words = String::new(alloc);
    row.write_key(&mut words)?;
    words.push_str(" differs")?;
    Ok(words)
}

// Why a store, a port or a folder of backups of a request couldn't be used. None of another fault, and because memory ran out.
fn system_advice(alloc: Global, request: &Request<'_>, fault: Fault) -> Option<Advice>
    ensures { IfSome result (IsAdviceOf fault) }
{
    match fault {
        Fault::Store(cause) => advice_of(alloc, store_name(request), Cause::Store(cause), ""),
        Fault::Version(cause) => version_advice(alloc, store_name(request), cause),
        Fault::Port(cause) => port_advice(alloc, request, cause),
        Fault::Backup(cause) => advice_of(alloc, backup_name(request), Cause::Backup(cause), ""),
        Fault::Audit(torn) => torn_advice(alloc, torn),
        _ => stream_advice(alloc, &fault),
    }
}

/// Why the work on a request stopped; `is_new`: its store wasn't there before. None for an order file's error, if
/// memory ran out and there is no store, or if memory runs out here.
pub(crate) fn advise<R: Reads>(
    rt: &R,
    alloc: Global,
    request: &Request<'_>,
    is_new: bool,
    fault: &Fault,
) -> Option<Advice>
    ensures { IfSome result (IsAdviceOf fault.now) }
{
    let name = first_name(request);
    match fault {
        Fault::File => file_advice(rt, alloc, request),
        Fault::Text(text) => advice_at(
            alloc,
            name,
            "byte",
            text.offset,
            Cause::Problem(text.cause),
        ),
        Fault::ShopText => shop_advice(rt, alloc, shop_name(request), None),
        Fault::ShopEntry(entry) => shop_advice(rt, alloc, shop_name(request), Some(*entry)),
        Fault::Entry(refused) => advice_at(
            alloc,
            shop_name(request),
            "material",
            refused.entry,
            Cause::Refused(refused.refusal),
        ),
        Fault::Refused(refusal) => refused_advice(rt, alloc, request, is_new, *refusal),
        Fault::NoMemory => memory_advice(rt, alloc, request),
        _ => system_advice(alloc, request, *fault),
    }
}

/// Whether a request will create its store, because none is there now.
pub(crate) fn makes_store<R: Reads>(rt: &R, request: &Request<'_>) -> bool {
    match request {
        Request::Ticket {
            store,
            read_only: false,
            ..
        }
        | Request::Yield {
            store,
            read_only: false,
            ..
        } => !is_there(rt, store),
        _ => false,
    }
}

// Whether a fault is an order file's.
fn is_order(fault: &Fault) -> bool
    ensures { result ≡ spec.is_order fault.now }
{
    match fault {
        Fault::Order(_) => true,
        _ => false,
    }
}

fn line_alone(alloc: Global, fault: Fault) -> Result<String, AllocError>
    ensures { IfOk result (λ text. string_bytes text ≡ spec.fault_line fault) }
{
    let mut text = String::new(alloc);
    write!(text, "{fault}\n")?;
    Ok(text)
}

// Both lines of a fault.
fn both_lines(alloc: Global, fault: Fault, advice: &Advice) -> Result<String, AllocError>
    ensures { IfOk result
        (λ text. string_bytes text ≡ spec.fault_line fault ++ spec.advice_line advice.now) }
{
    let mut text = line_alone(alloc, fault)?;
    write!(
        text,
        "  {}{}{}{}\n",
        advice.about,
        joint(advice.cause),
        cause_text(advice.cause),
        advice.word
    )?;
    Ok(text)
}

// The line of a fault of which memory ran out to say more.
fn lines_without(alloc: Global, fault: Fault) -> Result<String, AllocError>
    ensures { IfOk result
        (λ text. string_bytes text ≡ spec.fault_line fault ++ spec.no_memory_line) }
{
    let mut text = line_alone(alloc, fault)?;
    text.push_str(NO_MEMORY)?;
    Ok(text)
}

/// The lines of an error: its own and, except for an order file's, a second one: the advice, or that memory ran out.
pub(crate) fn fault_lines(
    alloc: Global,
    fault: Fault,
    advice: Option<Advice>,
) -> Result<String, AllocError>
    requires { IfSome advice (IsAdviceOf fault) }
    ensures { IfOk result (λ text. spec.IsFaultReported fault (string_bytes text)) }
{
    if is_order(&fault) {
        return line_alone(alloc, fault);
    }
    match advice {
        Some(advice) => both_lines(alloc, fault, &advice),
        None => lines_without(alloc, fault),
    }
}

/// After the line of an error, except an order file's, there is exactly one line, which begins with two spaces.
pub fn second_lines_are_lines()
    ensures { (fault : FaultOf) (line : List ℕ) → spec.is_order fault ≡ false
        → spec.FollowsFault fault line → spec.IsSecondLine line }
{}
