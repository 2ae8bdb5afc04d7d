//! Rows that stand for no part, no totals, no material, no job, no demand, no note, no begun job and no entry.

ghost use Rattle.std.specs.Prelude.{◌≡◌, ◌<◌, ◌≤◌, ◌+◌, ◌^◌, ℕ, ℤ, Bool, List, Option, pos, Some, IfSome, IsTrue, ◌↔◌};
ghost use Rattle.sqlite_value.specs.declared.value.Value.TheVariants.{Int, Text as Word};
ghost use Rattle.cut_measure.specs.Codes.{is_code};
ghost use Rattle.cut_measure.specs.Measures.{is_size};
ghost use Rattle.cut_measure.specs.Names.{Name, IsName};
ghost use Rattle.cut_measure.specs.declared.sizes.Kind.{Kind as KindOf};
ghost use Rattle.cut_measure.specs.declared.sizes.Kind.TheVariants.{Sheet};
ghost use Rattle.shop_records.specs.Columns.{state_of};
ghost use Rattle.shop_records.specs.Journal.{word_name};
ghost use Rattle.shop_records.specs.declared.journal.Entry.{Entry as EntryRecord};
ghost use Rattle.shop_records.specs.declared.journal.Word.{Word as CommandWord};
ghost use Rattle.shop_records.specs.declared.records.Demand.{Demand as DemandRecord};
ghost use Rattle.shop_records.specs.declared.records.Job.{Job as JobRecord};
ghost use Rattle.shop_records.specs.declared.records.JobBegin.{JobBegin as BeginRecord};
ghost use Rattle.shop_records.specs.declared.records.JobState.{JobState as JobStateOf};
ghost use Rattle.shop_records.specs.declared.notes.OrderNote.{OrderNote as NoteRecord};
ghost use Rattle.shop_records.specs.declared.records.Material.{Material as MaterialRecord};
ghost use Rattle.shop_records.specs.declared.records.Part.{Part as PartRecord};
ghost use Rattle.shop_records.specs.declared.records.State.{State as PartState};
ghost use Rattle.shop_records.specs.declared.records.Totals.{Totals as TotalsRecord};
ghost use Rattle.shop_tables.specs.Listing.{listed_row};
ghost use Rattle.shop_tables.specs.ListedRows.{listed_begun, listed_demand, listed_entry, listed_job, listed_material, listed_note};
ghost use Rattle.shop_statements.specs.Rows.{act_number, job_state_number, kind_number, node_number, order_text, part_row, state_number, turn_number};
ghost use Rattle.shop_tables.specs.Invalid.{HasCounts, HasValue};
ghost use Rattle.shop_statements.specs.Values.{IsEntryValue, IsPartValue};

use cut_measure::{Code, MAX_HEIGHT, MAX_NUMBERS, MAX_WIDTH};
use sqlite::Row;
use sqlite::types::ValueRef;

pub(crate) fn int_in(row: &Row, at: usize) -> Option<i64>
    ensures known { (n : ℤ) → HasValue row.now at (Int n) → result ≡ Some n }
    ensures shown { IfSome result (λ n. HasValue row.now at (Int n)) }
{
    match row.get_ref(at) {
        Ok(ValueRef::Int(number)) => Some(number),
        Ok(ValueRef::Null) => None,
        Ok(ValueRef::Real(_)) => None,
        Ok(ValueRef::Text(_)) => None,
        Ok(ValueRef::Blob(_)) => None,
        Err(_) => None,
    }
}

// A number from the least to the most.
pub(crate) fn has_number(row: &Row, at: usize, least: u32, most: u32) -> bool
    ensures known { (n : ℕ) → least ≤ n → n ≤ most → HasValue row.now at (Int (pos n))
        → IsTrue result }
    ensures shown { IsTrue result → (n : ℕ) × (least ≤ n) × (n ≤ most)
        × HasValue row.now at (Int (pos n)) }
{
    match int_in(row, at) {
        Some(number) => i64::from(least) <= number && number <= i64::from(most),
        None => false,
    }
}

fn is_code_text(bytes: &[u8]) -> bool
    ensures { IsTrue (is_code bytes.now) → IsTrue result }
{
    match str::from_utf8(bytes) {
        Ok(text) => Code::read(text).is_some(),
        Err(_) => false,
    }
}

// This text.
pub(crate) fn has_word(row: &Row, at: usize, word: &str) -> bool
    ensures { IsTrue result ↔ HasValue row.now at (Word word.now) }
{
    match row.get_ref(at) {
        Ok(ValueRef::Text(bytes)) => bytes == word.as_bytes(),
        Ok(ValueRef::Null) => false,
        Ok(ValueRef::Int(_)) => false,
        Ok(ValueRef::Real(_)) => false,
        Ok(ValueRef::Blob(_)) => false,
        Err(_) => false,
    }
}

fn has_code(row: &Row, at: usize) -> bool
    ensures { (code : List ℕ) → IsTrue (is_code code) → HasValue row.now at (Word code)
        → IsTrue result }
{
    match row.get_ref(at) {
        Ok(ValueRef::Text(bytes)) => is_code_text(bytes),
        Ok(ValueRef::Null) => false,
        Ok(ValueRef::Int(_)) => false,
        Ok(ValueRef::Real(_)) => false,
        Ok(ValueRef::Blob(_)) => false,
        Err(_) => false,
    }
}

// A name's act and its node, side by side.
fn has_name(row: &Row, at: usize) -> bool
    requires { at < 100 }
    ensures { (name : Name) → IsName name → HasValue row.now at (Int (pos name.act))
        → HasValue row.now (at + 1) (Int (pos name.node)) → IsTrue result }
{
    has_number(row, at, 1, MAX_NUMBERS) && has_number(row, at + 1, 0, u32::MAX)
}

// A width and a height, side by side.
fn has_size(row: &Row, at: usize) -> bool
    requires { at < 100 }
    ensures { (w h : ℕ) → IsTrue (is_size Sheet w h) → HasValue row.now at (Int (pos w))
        → HasValue row.now (at + 1) (Int (pos h)) → IsTrue result }
{
    has_number(row, at, 1, MAX_WIDTH) && has_number(row, at + 1, 1, MAX_HEIGHT)
}

fn has_count(row: &Row, at: usize) -> bool
    ensures { (n : ℕ) → HasValue row.now at (Int (pos n)) → IsTrue result }
{
    match int_in(row, at) {
        Some(number) => 0 <= number,
        None => false,
    }
}

// From the first column up to the second.
fn has_counts(row: &Row, from: usize, to: usize) -> bool
    ensures { HasCounts row.now from to → IsTrue result }
{
    for at in from..to {
        if !has_count(row, at) {
            return false;
        }
    }
    true
}

fn are_of_state(word: i64, detail: i64) -> bool
    ensures { (state : PartState) → state_of state < 2 ^ 32 → word ≡ pos (state_number state)
        → detail ≡ pos (state_of state) → IsTrue result }
{
    if (1 <= word && word <= 3) || word == 7 {
        0 <= detail && detail <= i64::from(u32::MAX)
    } else {
        0 <= word && word <= 6 && detail == 0
    }
}

// A state and its job or demand, side by side.
fn has_state(row: &Row, at: usize) -> bool
    requires { at < 100 }
    ensures { (state : PartState) → state_of state < 2 ^ 32
        → HasValue row.now at (Int (pos (state_number state)))
        → HasValue row.now (at + 1) (Int (pos (state_of state))) → IsTrue result }
{
    match (int_in(row, at), int_in(row, at + 1)) {
        (Some(word), Some(detail)) => are_of_state(word, detail),
        (Some(_), None) => false,
        (None, _) => false,
    }
}

/// Whether a row may be a part's: each column has a value as parts have them, in its range.
pub(crate) fn may_be_part(row: &Row) -> bool
    ensures { (part : PartRecord) → IsPartValue part → row.now ≡ part_row (part.name, part)
        → IsTrue result }
{
    has_name(row, 0)
        && (has_code(row, 2)
            && (has_code(row, 3)
                && (has_name(row, 4)
                    && (has_number(row, 6, 0, u32::MAX)
                        && (has_number(row, 7, 0, u32::MAX)
                            && (has_size(row, 8) && has_state(row, 10)))))))
}

/// Whether a row may be that of totals, their code after them.
pub(crate) fn may_be_totals(row: &Row) -> bool
    ensures { (e : List ℕ × TotalsRecord) → IsTrue (is_code e.0) → row.now ≡ listed_row e
        → IsTrue result }
{
    has_counts(row, 0, 7) && has_code(row, 7)
}

fn has_turn(row: &Row, at: usize) -> bool
    ensures { (turn : Bool) → HasValue row.now at (Int (pos (turn_number turn))) → IsTrue result }
{
    has_number(row, at, 0, 1)
}

fn has_kind(row: &Row, at: usize) -> bool
    ensures { (kind : KindOf) → HasValue row.now at (Int (pos (kind_number kind)))
        → IsTrue result }
{
    has_number(row, at, 0, 1)
}

fn has_job_state(row: &Row, at: usize) -> bool
    ensures { (state : JobStateOf) → HasValue row.now at (Int (pos (job_state_number state)))
        → IsTrue result }
{
    has_number(row, at, 0, 4)
}

/// Whether a row may be a material's, its code after it. The ranges of its limits aren't tested.
pub(crate) fn may_be_material(row: &Row) -> bool
    ensures { (material : MaterialRecord) → row.now ≡ listed_material material → IsTrue result }
{
    has_kind(row, 0) && (has_count(row, 1) && (has_count(row, 2) && has_count(row, 3)))
}

/// Whether a row may be a job's, its number after it. Its plan isn't read.
pub(crate) fn may_be_job(row: &Row) -> bool
    ensures { (job : JobRecord) → row.now ≡ listed_job job → IsTrue result }
{
    has_count(row, 0) && (has_count(row, 1) && (has_job_state(row, 3) && has_count(row, 4)))
}

/// Whether a row may be what is said of an order, its code after it. The ranges of its numbers aren't tested.
pub(crate) fn may_be_note(row: &Row) -> bool
    ensures { (note : NoteRecord) → row.now ≡ listed_note note → IsTrue result }
{
    has_count(row, 0)
}

/// Whether a row may be that of a terminal that has begun a job, its number after it. The ranges of its numbers aren't tested.
pub(crate) fn may_be_begun(row: &Row) -> bool
    ensures { (begun : BeginRecord) → row.now ≡ listed_begun begun → IsTrue result }
{
    has_count(row, 0) && has_count(row, 1)
}

/// Whether a row may be a demand's, its number after it. The ranges of its numbers aren't tested.
pub(crate) fn may_be_demand(row: &Row) -> bool
    ensures { (demand : DemandRecord) → row.now ≡ listed_demand demand → IsTrue result }
{
    has_count(row, 1)
        && (has_count(row, 3)
            && (has_count(row, 4)
                && (has_turn(row, 5)
                    && (has_count(row, 6)
                        && (has_count(row, 7)
                            && (has_count(row, 8) && (has_count(row, 9) && has_count(row, 10))))))))
}

// The word of a command.
fn has_command_word(row: &Row, at: usize) -> bool
    ensures { (word : CommandWord) → HasValue row.now at (Word (word_name word))
        → IsTrue result }
{
    has_word(row, at, "material")
        || has_word(row, at, "receive")
        || has_word(row, at, "order")
        || has_word(row, at, "reserve")
        || has_word(row, at, "done")
        || has_word(row, at, "break")
        || has_word(row, at, "release")
        || has_word(row, at, "scrap")
        || has_word(row, at, "return")
        || has_word(row, at, "import")
        || has_word(row, at, "amend")
        || has_word(row, at, "undo")
        || has_word(row, at, "note")
        || has_word(row, at, "extend")
        || has_word(row, at, "begin")
}

// The order of an entry, empty if it has none.
fn has_entry_order(row: &Row, at: usize) -> bool
    ensures { (order : Option (List ℕ)) → IfSome order (λ code. IsTrue (is_code code))
        → HasValue row.now at (Word (order_text order)) → IsTrue result }
{
    has_word(row, at, "") || has_code(row, at)
}

fn may_be_part_of_entry(act: i64, node: i64) -> bool
    ensures { (part : Option Name) → IfSome part IsName → act ≡ pos (act_number part)
        → node ≡ pos (node_number part) → IsTrue result }
{
    if act == 0 {
        node == 0
    } else {
        0 < act && 0 <= node
    }
}

// The act and the node of an entry's part, side by side, both 0 if it has none.
fn has_entry_part(row: &Row, at: usize) -> bool
    requires { at < 100 }
    ensures { (part : Option Name) → IfSome part IsName
        → HasValue row.now at (Int (pos (act_number part)))
        → HasValue row.now (at + 1) (Int (pos (node_number part))) → IsTrue result }
{
    match (int_in(row, at), int_in(row, at + 1)) {
        (Some(act), Some(node)) => may_be_part_of_entry(act, node),
        (Some(_), None) => false,
        (None, _) => false,
    }
}

/// Whether a row may be an entry's, its number after it. The ranges of its numbers aren't tested.
pub(crate) fn may_be_entry(row: &Row) -> bool
    ensures { (entry : EntryRecord) → IsEntryValue entry → row.now ≡ listed_entry entry
        → IsTrue result }
{
    has_count(row, 0)
        && (has_count(row, 1)
            && (has_count(row, 2)
                && (has_command_word(row, 3)
                    && (has_count(row, 4)
                        && (has_count(row, 5)
                            && (has_entry_order(row, 6)
                                && (has_entry_part(row, 7) && has_count(row, 9))))))))
}
