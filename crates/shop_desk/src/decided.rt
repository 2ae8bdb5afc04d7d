//! What is decided on each command, from the rows that a book has for it.

ghost use Rattle.std.specs.Prelude.{◌≡◌, ◌⊎◌, option_map, IfOk, IfSome, IsTrue, All, Some};
ghost use Rattle.shop_records.specs.declared.records.JobBegin.{JobBegin as JobBeginOf};
ghost use Rattle.shop_records.specs.declared.imports.ImportRow.{ImportRow as ImportRowOf};
ghost use Rattle.shop_records.specs.Messages.{is_accepted};
ghost use Rattle.shop_records.specs.Content.{demand_at, last_line};
ghost use Rattle.shop_machine.specs.Recounts.{plan_leaves, AreDemandsFound, IsNumbered, leaves_in};
ghost use Rattle.shop_book.specs.Failures.{CountsFailure};
ghost use Rattle.shop_book.specs.Kept.{Unchanged, OnContent};
ghost use Rattle.shop_records.specs.declared.messages.Command.TheVariants.{AddMaterial, Receive, AddOrder, Reserve, Done, Break, Release, Scrap, GiveBack, Amend, Undo, Note, Extend, Begin};
ghost use Rattle.shop_records.specs.declared.messages.Reply.TheVariants.{Refused};
ghost use Rattle.shop_records.specs.declared.refusals.Refusal.TheVariants.{BadMessage};
ghost use Rattle.shop_forms.specs.Forms.{json_texts};
ghost use Rattle.shop_desk.specs.Decided.{Judges, CountsOrDisagrees, AreJobRows, halt_for, left_for};

use crate::found::{found_leaves, found_lines, material_for, plan_for, totals_for};
use crate::importing::import_order;
use cut_measure::{Kind, PartName};
use cut_tree::{Halt, Plan};
use shop_book::{Book, BookFault, FoundJob};
use shop_machine::FoundLeaf;
use shop_machine::adding::decide_material;
use shop_machine::amending::decide_amend;
use shop_machine::beginning::decide_begin;
use shop_machine::ending::{decide_break, decide_done, decide_release};
use shop_machine::extending::decide_extend;
use shop_machine::noting::decide_note;
use shop_machine::ordering::decide_order;
use shop_machine::receiving::decide_receive;
use shop_machine::reserving::decide_reserve;
use shop_machine::retiring::{decide_give_back, decide_scrap};
use shop_machine::undoing::decide_undo;
use shop_rules::{
    Change, Code, Command, Demand, ImportRow, Job, JobBegin, JobHalt, KeptMessage, LineList,
    Material, Part, PartList, Refusal, Reply, Text, Totals,
};
use std::alloc::{AllocError, Global};

// Adds a material.
fn add_material<B: Book>(
    alloc: Global,
    book: &mut B,
    material: Code,
    kind: Kind,
    kerf: u32,
    min_long: u32,
    min_short: u32,
) -> Result<Change, Refusal>
    ensures decision { Judges B.Book json_texts
        (AddMaterial material kind kerf min_long min_short) book.old result book.new }
    ensures keeps { Unchanged B.Book (CountsOrDisagrees result) book.old book.new }
    ensures reported { IfOk result (λ change. IsTrue (is_accepted change.reply)) }
{
    let known = book.material(material)?;
    decide_material(alloc, known, material, kind, kerf, min_long, min_short)
}

// Receives units.
fn receive<B: Book>(
    alloc: Global,
    book: &mut B,
    material: Code,
    batch: Code,
    w: u32,
    h: u32,
    count: u32,
) -> Result<Change, Refusal>
    ensures decision { Judges B.Book json_texts
        (Receive material batch w h count) book.old result book.new }
    ensures keeps { Unchanged B.Book (CountsOrDisagrees result) book.old book.new }
    ensures reported { IfOk result (λ change. IsTrue (is_accepted change.reply)) }
{
    let known = book.material(material)?;
    let totals = book.totals(material)?;
    let act = book.next_act()?;
    decide_receive(alloc, known, totals, act, material, batch, w, h, count)
}

// Adds an order.
fn add_order<B: Book>(
    alloc: Global,
    book: &mut B,
    order: Code,
    lines: &LineList,
) -> Result<Change, Refusal>
    ensures decision { Judges B.Book json_texts
        (AddOrder order lines.now) book.old result book.new }
    ensures keeps { Unchanged B.Book (CountsOrDisagrees result) book.old book.new }
    ensures reported { IfOk result (λ change. IsTrue (is_accepted change.reply)) }
{
    let used = book.order(order)?;
    let found = found_lines(alloc, book, lines.as_slice())?;
    let first = book.next_demand()?;
    decide_order(alloc, used, order, &found, first)
}

// The piece leaves of a plan that was read, with the rows of their demands.
fn leaves_for<B: Book>(
    alloc: Global,
    book: &mut B,
    plan: &Option<Plan>,
) -> Result<Vec<FoundLeaf>, BookFault>
    ensures found { OnContent B.Book book.old book.new
        (λ m. IfOk result (λ found. AreDemandsFound (demand_at m) found.items)) }
    ensures leaves { IfOk result
        (λ found. IfSome plan.now (λ p. leaves_in found.items ≡ plan_leaves p)) }
    ensures numbered { IfOk result (λ found. All IsNumbered found.items) }
    ensures keeps { Unchanged B.Book (CountsFailure result) book.old book.new }
{
    match plan {
        Some(plan) => found_leaves(alloc, book, plan),
        None => Ok(Vec::new(alloc)),
    }
}

// The same of the plan of a job that was found.
fn job_leaves<B: Book>(
    alloc: Global,
    book: &mut B,
    job: &Option<Job>,
) -> Result<Vec<FoundLeaf>, BookFault>
    ensures found { OnContent B.Book book.old book.new
        (λ m. IfOk result (λ found. AreDemandsFound (demand_at m) found.items)) }
    ensures leaves { IfOk result
        (λ found. IfSome job.now (λ j. leaves_in found.items ≡ plan_leaves j.plan)) }
    ensures numbered { IfOk result (λ found. All IsNumbered found.items) }
    ensures keeps { Unchanged B.Book (CountsFailure result) book.old book.new }
{
    match job {
        Some(job) => found_leaves(alloc, book, &job.plan),
        None => Ok(Vec::new(alloc)),
    }
}

// Reserves a part.
fn reserve<B: Book>(
    alloc: Global,
    book: &mut B,
    part: PartName,
    tree: &Text,
) -> Result<Change, Refusal>
    ensures decision { Judges B.Book json_texts (Reserve part tree.now) book.old result book.new }
    ensures keeps { Unchanged B.Book (CountsOrDisagrees result) book.old book.new }
    ensures reported { IfOk result (λ change. IsTrue (is_accepted change.reply)) }
{
    let row = book.part(part)?;
    let material = material_for(book, &row)?;
    let plan = plan_for(alloc, &row, &material, tree.as_str())?;
    let leaves = leaves_for(alloc, book, &plan)?;
    let act = book.next_act()?;
    decide_reserve(alloc, row, material, plan, &leaves, act)
}

// A job, its part, its material and that one's totals, as far as they were found, and its plan's leaves with the rows of
// their demands.
struct JobRows {
    job: Option<Job>,
    part: Option<Part>,
    material: Option<Material>,
    totals: Totals,
    leaves: Vec<FoundLeaf>,
}

fn job_rows<B: Book>(alloc: Global, book: &mut B, number: u32) -> Result<JobRows, BookFault>
    ensures rows { OnContent B.Book book.old book.new
        (λ m. IfOk result (λ rows.
        AreJobRows m number rows.job rows.part rows.material rows.totals
        rows.leaves.items)) }
    ensures leaves { IfOk result
        (λ rows. IfSome rows.job (λ j. leaves_in rows.leaves.items ≡ plan_leaves j.plan)) }
    ensures numbered { IfOk result (λ rows. All IsNumbered rows.leaves.items) }
    ensures keeps { Unchanged B.Book (CountsFailure result) book.old book.new }
{
    let FoundJob {
        job,
        part,
        material,
    } = book.found_job(alloc, number)?;
    let totals = totals_for(book, &part)?;
    let leaves = job_leaves(alloc, book, &job)?;
    Ok(JobRows {
        job,
        part,
        material,
        totals,
        leaves,
    })
}

// Finishes a job.
fn done<B: Book>(alloc: Global, book: &mut B, number: u32) -> Result<Change, Refusal>
    ensures decision { Judges B.Book json_texts (Done number) book.old result book.new }
    ensures keeps { Unchanged B.Book (CountsOrDisagrees result) book.old book.new }
    ensures reported { IfOk result (λ change. IsTrue (is_accepted change.reply)) }
{
    let JobRows {
        job,
        part,
        material,
        totals,
        leaves,
    } = job_rows(alloc, book, number)?;
    decide_done(alloc, job, part, material, totals, &leaves)
}

// Breaks a job off.
fn break_off<B: Book>(
    alloc: Global,
    book: &mut B,
    number: u32,
    halt: &Halt,
    rest: Option<u32>,
) -> Result<Change, Refusal>
    ensures decision { Judges B.Book json_texts (Break number halt.now rest) book.old result book.new }
    ensures keeps { Unchanged B.Book (CountsOrDisagrees result) book.old book.new }
    ensures reported { IfOk result (λ change. IsTrue (is_accepted change.reply)) }
{
    let JobRows {
        job,
        part,
        material,
        totals,
        leaves,
    } = job_rows(alloc, book, number)?;
    decide_break(alloc, job, part, material, totals, &leaves, halt, rest)
}

// Releases a job.
fn release<B: Book>(alloc: Global, book: &mut B, number: u32) -> Result<Change, Refusal>
    ensures decision { Judges B.Book json_texts (Release number) book.old result book.new }
    ensures keeps { Unchanged B.Book (CountsOrDisagrees result) book.old book.new }
    ensures reported { IfOk result (λ change. IsTrue (is_accepted change.reply)) }
{
    let JobRows {
        job,
        part,
        material,
        totals,
        leaves,
    } = job_rows(alloc, book, number)?;
    decide_release(alloc, job, part, material, totals, &leaves)
}

// Makes a part scrap.
fn scrap<B: Book>(alloc: Global, book: &mut B, part: PartName) -> Result<Change, Refusal>
    ensures decision { Judges B.Book json_texts (Scrap part) book.old result book.new }
    ensures keeps { Unchanged B.Book (CountsOrDisagrees result) book.old book.new }
    ensures reported { IfOk result (λ change. IsTrue (is_accepted change.reply)) }
{
    let row = book.part(part)?;
    let totals = totals_for(book, &row)?;
    decide_scrap(alloc, row, totals)
}

// Returns a unit to its supplier.
fn give_back<B: Book>(alloc: Global, book: &mut B, part: PartName) -> Result<Change, Refusal>
    ensures decision { Judges B.Book json_texts (GiveBack part) book.old result book.new }
    ensures keeps { Unchanged B.Book (CountsOrDisagrees result) book.old book.new }
    ensures reported { IfOk result (λ change. IsTrue (is_accepted change.reply)) }
{
    let row = book.part(part)?;
    let totals = totals_for(book, &row)?;
    decide_give_back(alloc, row, totals)
}

// Says how many pieces of a demand are wanted from now on.
fn amend<B: Book>(alloc: Global, book: &mut B, demand: u32, wanted: u32) -> Result<Change, Refusal>
    ensures decision { Judges B.Book json_texts (Amend demand wanted) book.old result book.new }
    ensures keeps { Unchanged B.Book (CountsOrDisagrees result) book.old book.new }
    ensures reported { IfOk result (λ change. IsTrue (is_accepted change.reply)) }
{
    let row = book.demand(demand)?;
    decide_amend(alloc, row, wanted)
}

// Where the work on the plan of a job that was found halted, if that is kept.
fn halt_of_job<B: Book>(
    alloc: Global,
    book: &mut B,
    job: &Option<Job>,
) -> Result<Option<JobHalt>, BookFault>
    ensures row { OnContent B.Book book.old book.new
        (λ m. IfOk result (λ halt. halt ≡ halt_for m job.now)) }
    ensures keeps { Unchanged B.Book (CountsFailure result) book.old book.new }
{
    match job {
        Some(job) => book.halt(alloc, job.act),
        None => Ok(None),
    }
}

// The parts that are named after a job that was found.
fn left_by_job<B: Book>(
    alloc: Global,
    book: &mut B,
    job: &Option<Job>,
) -> Result<PartList, BookFault>
    ensures rows { OnContent B.Book book.old book.new
        (λ m. IfOk result (λ parts. parts ≡ left_for m job.now)) }
    ensures keeps { Unchanged B.Book (CountsFailure result) book.old book.new }
{
    match job {
        Some(job) => book.parts_named(alloc, job.act),
        None => Ok(PartList::new(alloc)),
    }
}

// Takes back that a job was done or broken.
fn undo<B: Book>(alloc: Global, book: &mut B, number: u32) -> Result<Change, Refusal>
    ensures decision { Judges B.Book json_texts (Undo number) book.old result book.new }
    ensures keeps { Unchanged B.Book (CountsOrDisagrees result) book.old book.new }
    ensures reported { IfOk result (λ change. IsTrue (is_accepted change.reply)) }
{
    let JobRows {
        job,
        part,
        material,
        totals,
        leaves,
    } = job_rows(alloc, book, number)?;
    let halt = halt_of_job(alloc, book, &job)?;
    let left = left_by_job(alloc, book, &job)?;
    decide_undo(
        alloc,
        job,
        halt,
        part,
        material,
        left.as_slice(),
        totals,
        &leaves,
    )
}

// Says something of an order.
fn note<B: Book>(
    alloc: Global,
    book: &mut B,
    order: Code,
    due: u32,
    text: &Text,
) -> Result<Change, Refusal>
    ensures decision { Judges B.Book json_texts (Note order due text.now) book.old result book.new }
    ensures keeps { Unchanged B.Book (CountsOrDisagrees result) book.old book.new }
    ensures reported { IfOk result (λ change. IsTrue (is_accepted change.reply)) }
{
    let known = book.order(order)?;
    let said = text.copy(alloc)?;
    decide_note(alloc, known, order, due, said)
}

// The greatest line of demands, or 0.
fn last_of(rows: &[Demand]) -> u32
    ensures { result ≡ last_line rows.now }
{
    let [first, others @ ..] = rows else {
        return 0;
    };
    first.line.max(last_of(others))
}

// Adds lines to an order.
fn extend<B: Book>(
    alloc: Global,
    book: &mut B,
    order: Code,
    lines: &LineList,
) -> Result<Change, Refusal>
    ensures decision { Judges B.Book json_texts (Extend order lines.now) book.old result book.new }
    ensures keeps { Unchanged B.Book (CountsOrDisagrees result) book.old book.new }
    ensures reported { IfOk result (λ change. IsTrue (is_accepted change.reply)) }
{
    let known = book.order(order)?;
    let there = book.lines_of(alloc, order)?;
    let found = found_lines(alloc, book, lines.as_slice())?;
    let first = book.next_demand()?;
    let rows = there.as_slice();
    decide_extend(
        alloc,
        known,
        order,
        rows.len(),
        last_of(rows),
        &found,
        first,
    )
}

// Begins a job.
fn begin<B: Book>(alloc: Global, book: &mut B, number: u32) -> Result<Change, Refusal>
    ensures decision { Judges B.Book json_texts (Begin number) book.old result book.new }
    ensures keeps { Unchanged B.Book (CountsOrDisagrees result) book.old book.new }
    ensures reported { IfOk result (λ change. IsTrue (is_accepted change.reply)) }
{
    let job = book.job(alloc, number)?;
    let before = book.begun(number)?;
    decide_begin(alloc, number, job, before)
}

/// What is decided on a command, from the rows that it needs.
pub fn decide<B: Book>(alloc: Global, book: &mut B, command: &Command) -> Result<Change, Refusal>
    ensures decision { Judges B.Book json_texts command.now book.old result book.new }
    ensures keeps { Unchanged B.Book (CountsOrDisagrees result) book.old book.new }
    ensures reported { IfOk result (λ change. IsTrue (is_accepted change.reply)) }
{
    match command {
        Command::AddMaterial {
            material,
            kind,
            kerf,
            min_long,
            min_short,
        } => add_material(alloc, book, *material, *kind, *kerf, *min_long, *min_short),
        Command::Receive {
            material,
            batch,
            w,
            h,
            count,
        } => receive(alloc, book, *material, *batch, *w, *h, *count),
        Command::AddOrder { order, lines } => add_order(alloc, book, *order, lines),
        Command::Reserve { part, tree } => reserve(alloc, book, *part, tree),
        Command::Done { job } => done(alloc, book, *job),
        Command::Break { job, halt, rest } => break_off(alloc, book, *job, halt, *rest),
        Command::Release { job } => release(alloc, book, *job),
        Command::Scrap { part } => scrap(alloc, book, *part),
        Command::GiveBack { part } => give_back(alloc, book, *part),
        Command::Import { order, form, text } => import_order(alloc, book, *order, form, text),
        Command::Amend { demand, wanted } => amend(alloc, book, *demand, *wanted),
        Command::Undo { job } => undo(alloc, book, *job),
        Command::Note { order, due, text } => note(alloc, book, *order, *due, text),
        Command::Extend { order, lines } => extend(alloc, book, *order, lines),
        Command::Begin { job } => begin(alloc, book, *job),
    }
}

// What is kept of an import, with the text of its reply.
fn response(
    alloc: Global,
    import: Option<ImportRow>,
    reported: &Text,
) -> Result<Option<ImportRow>, AllocError>
    ensures { IfOk result (λ row. row
        ≡ option_map (λ (r : ImportRowOf). record r { reply = reported.now }) import) }
{
    match import {
        Some(row) => {
            let reply = reported.copy(alloc)?;
            Ok(Some(ImportRow { reply, ..row }))
        }
        None => Ok(None),
    }
}

// Which terminal has begun a job, as it is kept.
fn begun_by(begun: Option<JobBegin>, terminal: u32) -> Option<JobBegin>
    ensures { result ≡ option_map (λ (r : JobBeginOf). record r { terminal = terminal }) begun }
{
    match begun {
        Some(row) => Some(JobBegin {
            job: row.job,
            terminal,
        }),
        None => None,
    }
}

/// The change with the message to keep, of an import with the text of its reply too, of a begun job with the message's terminal, and
/// the reply that was taken out of it.
pub fn keeping_message(
    alloc: Global,
    change: Change,
    message: KeptMessage,
) -> Result<(Change, Reply), AllocError>
    ensures change { IfOk result (λ kept. kept.0 ≡ record change {
      begun = option_map (λ (r : JobBeginOf). record r { terminal = message.message_id.terminal }) change.begun;
      import = option_map (λ (r : ImportRowOf). record r { reply = message.kept.reply })
          change.import;
      kept = Some message;
      reply = Refused BadMessage;
    }) }
    ensures reply { IfOk result (λ kept. kept.1 ≡ change.reply) }
{
    let Change {
        material,
        parts,
        moved,
        undone,
        job,
        halt,
        begun,
        order,
        extended,
        note,
        demands,
        totals,
        act,
        demand,
        import,
        kept: _,
        entry,
        reply,
    } = change;
    let import = response(alloc, import, &message.kept.reply)?;
    let begun = begun_by(begun, message.message_id.terminal);
    let kept = Change {
        material,
        parts,
        moved,
        undone,
        job,
        halt,
        begun,
        order,
        extended,
        note,
        demands,
        totals,
        act,
        demand,
        import,
        kept: Some(message),
        entry,
        reply: Reply::Refused(Refusal::BadMessage),
    };
    Ok((kept, reply))
}
