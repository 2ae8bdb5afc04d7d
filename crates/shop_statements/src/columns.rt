//! Values of columns.

ghost use Rattle.std.specs.Prelude.{◌≡◌, ◌<◌, ◌+◌, pos, IfOk, IfSome};
ghost use Rattle.sqlite_value.specs.declared.value.Value.TheVariants.{Int, Text as Word};
ghost use Rattle.sqlite_value.specs.Order.{column};
ghost use Rattle.cut_measure.specs.declared.ranges.TheConstants.{MAX_NUMBERS};
ghost use Rattle.shop_records.specs.Columns.{state_of};
ghost use Rattle.shop_statements.specs.Rows.{kind_number, state_number, job_state_number, turn_number, form_number, form_material, order_text, act_number, node_number};
ghost use Rattle.shop_records.specs.Journal.{word_name};

use crate::TableFault;
use cut_measure::{Code, Kind, Limits, MAX_NUMBERS, PartName, Size};
use shop_records::{Form, JobState, State, Text, Word as CommandWord};
use sqlite::Row;
use sqlite::types::ValueRef;

/// The number in a column.
pub fn number_in(row: &Row, at: usize) -> Result<u32, TableFault>
    ensures { IfOk result (λ number. column row.now at ≡ Int (pos number)) }
{
    Ok(row.get(at)?)
}

/// The number in a column, up to 9223372036854775807.
pub fn count_in(row: &Row, at: usize) -> Result<u64, TableFault>
    ensures { IfOk result (λ number. column row.now at ≡ Int (pos number)) }
{
    Ok(row.get(at)?)
}

// A text, borrowed from its row.
fn word_in(row: &Row, at: usize) -> Result<&str, TableFault>
    ensures { IfOk result (λ word. column row.now at ≡ Word word.now) }
{
    let ValueRef::Text(bytes) = row.get_ref(at)? else {
        return Err(TableFault::Store);
    };
    str::from_utf8(bytes).map_err(|_| TableFault::Store)
}

/// The code in a column.
pub fn code_in(row: &Row, at: usize) -> Result<Code, TableFault>
    ensures { IfOk result (λ code. column row.now at ≡ Word code) }
{
    Code::read(word_in(row, at)?).ok_or(TableFault::Store)
}

pub(crate) fn text_in(row: &Row, at: usize) -> Result<Text, TableFault>
    ensures { IfOk result (λ text. column row.now at ≡ Word text) }
{
    let string: String = row.get(at)?;
    Ok(Text::of(string))
}

/// The name in two columns: its act and its node.
pub fn name_in(row: &Row, at: usize) -> Result<PartName, TableFault>
    requires { at < 100 }
    ensures act { IfOk result (λ name. column row.now at ≡ Int (pos name.act)) }
    ensures node { IfOk result (λ name. column row.now (at + 1) ≡ Int (pos name.node)) }
{
    let act = number_in(row, at)?;
    let node = number_in(row, at + 1)?;
    if act < 1 || act > MAX_NUMBERS {
        return Err(TableFault::Store);
    }
    Ok(PartName::new(act, node))
}

/// The size in two columns: a width and a height; a bar's is a sheet's too.
pub fn size_in(row: &Row, at: usize) -> Result<Size, TableFault>
    requires { at < 100 }
    ensures w { IfOk result (λ size. column row.now at ≡ Int (pos size.w)) }
    ensures h { IfOk result (λ size. column row.now (at + 1) ≡ Int (pos size.h)) }
{
    let w = number_in(row, at)?;
    let h = number_in(row, at + 1)?;
    Size::new(Kind::Sheet, w, h).ok_or(TableFault::Store)
}

// A kerf and the least sides of a rest, side by side.
pub(crate) fn limits_in(kind: Kind, row: &Row, at: usize) -> Result<Limits, TableFault>
    requires { at < 100 }
    ensures kerf { IfOk result (λ limits. column row.now at ≡ Int (pos limits.kerf)) }
    ensures min_long { IfOk result (λ limits. column row.now (at + 1) ≡ Int (pos limits.min_long)) }
    ensures min_short { IfOk result
        (λ limits. column row.now (at + 2) ≡ Int (pos limits.min_short)) }
{
    let kerf = number_in(row, at)?;
    let min_long = number_in(row, at + 1)?;
    let min_short = number_in(row, at + 2)?;
    Limits::new(kind, kerf, min_long, min_short).ok_or(TableFault::Store)
}

fn state_of_numbers(word: u32, detail: u32) -> Option<State>
    ensures word { IfSome result (λ state. state_number state ≡ word) }
    ensures detail { IfSome result (λ state. state_of state ≡ detail) }
{
    match (word, detail) {
        (0, 0) => Some(State::Standing),
        (1, job) => Some(State::Reserved(job)),
        (2, job) => Some(State::Cut(job)),
        (3, demand) => Some(State::Piece(demand)),
        (4, 0) => Some(State::Kerf),
        (5, 0) => Some(State::Scrap),
        (6, 0) => Some(State::Returned),
        (7, job) => Some(State::Undone(job)),
        _ => None,
    }
}

/// The state in two columns: its number, and its job or demand.
pub fn state_in(row: &Row, at: usize) -> Result<State, TableFault>
    requires { at < 100 }
    ensures word { IfOk result (λ state. column row.now at ≡ Int (pos (state_number state))) }
    ensures detail { IfOk result (λ state. column row.now (at + 1) ≡ Int (pos (state_of state))) }
{
    let word = number_in(row, at)?;
    let detail = number_in(row, at + 1)?;
    state_of_numbers(word, detail).ok_or(TableFault::Store)
}

pub(crate) fn kind_in(row: &Row, at: usize) -> Result<Kind, TableFault>
    ensures { IfOk result (λ kind. column row.now at ≡ Int (pos (kind_number kind))) }
{
    match number_in(row, at)? {
        0 => Ok(Kind::Bar),
        1 => Ok(Kind::Sheet),
        _ => Err(TableFault::Store),
    }
}

pub(crate) fn turn_in(row: &Row, at: usize) -> Result<bool, TableFault>
    ensures { IfOk result (λ turn. column row.now at ≡ Int (pos (turn_number turn))) }
{
    match number_in(row, at)? {
        0 => Ok(false),
        1 => Ok(true),
        _ => Err(TableFault::Store),
    }
}

// A form and its material, side by side.
pub(crate) fn form_in(row: &Row, at: usize) -> Result<Form, TableFault>
    requires { at < 100 }
    ensures word { IfOk result (λ form. column row.now at ≡ Int (pos (form_number form))) }
    ensures material { IfOk result (λ form. column row.now (at + 1) ≡ Word (form_material form)) }
{
    let word = number_in(row, at)?;
    let material = word_in(row, at + 1)?;
    form_of_words(word, material).ok_or(TableFault::Store)
}

fn form_of_words(word: u32, material: &str) -> Option<Form>
    ensures word { IfSome result (λ form. form_number form ≡ word) }
    ensures material { IfSome result (λ form. form_material form ≡ material.now) }
{
    if word == 0 && material.is_empty() {
        Some(Form::Csv)
    } else if word == 1 {
        Some(Form::Cgcut(Code::read(material)?))
    } else {
        None
    }
}

fn word_of_text(text: &str) -> Option<CommandWord>
    ensures { IfSome result (λ word. word_name word ≡ text.now) }
{
    if text == "material" {
        Some(CommandWord::Material)
    } else if text == "receive" {
        Some(CommandWord::Receive)
    } else if text == "order" {
        Some(CommandWord::Order)
    } else if text == "reserve" {
        Some(CommandWord::Reserve)
    } else if text == "done" {
        Some(CommandWord::Done)
    } else {
        later_word_of_text(text)
    }
}

fn later_word_of_text(text: &str) -> Option<CommandWord>
    ensures { IfSome result (λ word. word_name word ≡ text.now) }
{
    if text == "break" {
        Some(CommandWord::Break)
    } else if text == "release" {
        Some(CommandWord::Release)
    } else if text == "scrap" {
        Some(CommandWord::Scrap)
    } else if text == "return" {
        Some(CommandWord::Return)
    } else if text == "import" {
        Some(CommandWord::Import)
    } else {
        last_word_of_text(text)
    }
}

fn last_word_of_text(text: &str) -> Option<CommandWord>
    ensures { IfSome result (λ word. word_name word ≡ text.now) }
{
    if text == "amend" {
        Some(CommandWord::Amend)
    } else if text == "undo" {
        Some(CommandWord::Undo)
    } else if text == "note" {
        Some(CommandWord::Note)
    } else if text == "extend" {
        Some(CommandWord::Extend)
    } else if text == "begin" {
        Some(CommandWord::Begin)
    } else {
        None
    }
}

/// The word of a command in a column.
pub(crate) fn word_of_entry(row: &Row, at: usize) -> Result<CommandWord, TableFault>
    ensures { IfOk result (λ word. column row.now at ≡ Word (word_name word)) }
{
    word_of_text(word_in(row, at)?).ok_or(TableFault::Store)
}

// The order of a text, none of an empty one.
fn order_of_text(text: &str) -> Result<Option<Code>, TableFault>
    ensures { IfOk result (λ order. order_text order ≡ text.now) }
{
    if text.is_empty() {
        return Ok(None);
    }
    match Code::read(text) {
        Some(code) => Ok(Some(code)),
        None => Err(TableFault::Store),
    }
}

/// The order in a column, none where it is empty.
pub(crate) fn order_in(row: &Row, at: usize) -> Result<Option<Code>, TableFault>
    ensures { IfOk result (λ order. column row.now at ≡ Word (order_text order)) }
{
    let text = word_in(row, at)?;
    let order = order_of_text(text)?;
    Ok(order)
}

/// The part in two columns, none where both are 0.
pub(crate) fn part_in(row: &Row, at: usize) -> Result<Option<PartName>, TableFault>
    requires { at < 100 }
    ensures act { IfOk result (λ part. column row.now at ≡ Int (pos (act_number part))) }
    ensures node { IfOk result (λ part. column row.now (at + 1) ≡ Int (pos (node_number part))) }
{
    let act = number_in(row, at)?;
    let node = number_in(row, at + 1)?;
    if act == 0 && node == 0 {
        return Ok(None);
    }
    let name = name_in(row, at)?;
    Ok(Some(name))
}

// An entry's order as a column has it, empty where it has none.
pub(crate) fn text_of_order(order: &Option<Code>) -> &str
    ensures { result.now ≡ order_text order.now }
{
    match order {
        Some(code) => code.as_str(),
        None => "",
    }
}

pub(crate) fn act_of_part(part: Option<PartName>) -> u32
    ensures { result ≡ act_number part }
{
    match part {
        Some(name) => name.act(),
        None => 0,
    }
}

pub(crate) fn node_of_part(part: Option<PartName>) -> u32
    ensures { result ≡ node_number part }
{
    match part {
        Some(name) => name.node(),
        None => 0,
    }
}

pub(crate) fn number_of_kind(kind: Kind) -> u32
    ensures { result ≡ kind_number kind }
{
    match kind {
        Kind::Bar => 0,
        Kind::Sheet => 1,
    }
}

pub(crate) fn number_of_state(state: State) -> u32
    ensures { result ≡ state_number state }
{
    match state {
        State::Standing => 0,
        State::Reserved(_) => 1,
        State::Cut(_) => 2,
        State::Piece(_) => 3,
        State::Kerf => 4,
        State::Scrap => 5,
        State::Returned => 6,
        State::Undone(_) => 7,
    }
}

pub(crate) fn number_of_job_state(state: JobState) -> u32
    ensures { result ≡ job_state_number state }
{
    match state {
        JobState::Waiting => 0,
        JobState::Done => 1,
        JobState::Broken => 2,
        JobState::Released => 3,
        JobState::Undone => 4,
    }
}

pub(crate) fn number_of_turn(turn: bool) -> u32
    ensures { result ≡ turn_number turn }
{
    u32::from(turn)
}

pub(crate) fn number_of_form(form: Form) -> u32
    ensures { result ≡ form_number form }
{
    match form {
        Form::Csv => 0,
        Form::Cgcut(_) => 1,
    }
}

// A form's material, nothing where it has none.
pub(crate) fn material_of_form(form: &Form) -> &str
    ensures { result.now ≡ form_material form.now }
{
    match form {
        Form::Csv => "",
        Form::Cgcut(material) => material.as_str(),
    }
}

// A count as a column has it, below 9223372036854775808.
pub(crate) fn counted(count: u64) -> Result<i64, TableFault>
    ensures { IfOk result (λ number. number ≡ pos count) }
{
    match i64::try_from(count) {
        Ok(number) => Ok(number),
        Err(_) => Err(TableFault::Store),
    }
}
