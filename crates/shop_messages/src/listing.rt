//! JSON of the queries for lists, for a job and its plan, for a terminal, for an order's lines, for entries and for pieces.

ghost use Rattle.std.specs.Prelude.{◌≡◌, codes};
ghost use Rattle.serde_json.specs.View.{view};
ghost use Rattle.shop_forms.specs.Fields.{after_at, code_after_at, row};
ghost use Rattle.shop_forms.specs.Forms as form;

use cut_measure::{Code, PartName};
use serde_json::Value;
use shop_forms::{code_at, has_keys, name_at, number_at, text_at};
use shop_records::{PieceSource, Query, Subject};

// The name after which parts are asked for: none in an empty text.
fn name_after(value: &Value) -> Option<Option<PartName>>
    ensures { result ≡ after_at (codes "after") (view value.now) }
{
    let text = text_at(value, "after")?;
    if text == "" {
        return Some(None);
    }
    let name = PartName::read(text)?;
    Some(Some(name))
}

// The query for a material's parts after a name.
fn parts_query(value: &Value) -> Option<Query>
    ensures { result ≡ form.parts_query (view value.now) }
{
    let material = code_at(value, "material")?;
    let after = name_after(value)?;
    Some(Query::Parts { material, after })
}

// The query for the open demands of all materials.
fn all_demands(value: &Value) -> Option<Query>
    ensures { result ≡ form.all_demands (view value.now) }
{
    let after = number_at(value, "after")?;
    Some(Query::Demands {
        after,
        material: None,
    })
}

// The query for a material's open demands.
fn demands_of(value: &Value) -> Option<Query>
    ensures { result ≡ form.demands_of (view value.now) }
{
    let material = code_at(value, "material")?;
    let after = number_at(value, "after")?;
    Some(Query::Demands {
        after,
        material: Some(material),
    })
}

// The query for open demands.
fn demands_query(value: &Value) -> Option<Query>
    ensures { result ≡ form.demands_query (view value.now) }
{
    if has_keys(value, 2) {
        all_demands(value)
    } else if has_keys(value, 3) {
        demands_of(value)
    } else {
        None
    }
}

// The query for waiting jobs.
pub(crate) fn jobs_query(value: &Value) -> Option<Query>
    ensures { result ≡ form.jobs_query (view value.now) }
{
    let after = number_at(value, "after")?;
    Some(Query::Jobs { after })
}

// The query for a job.
pub(crate) fn job_query(value: &Value) -> Option<Query>
    ensures { result ≡ form.job_query (view value.now) }
{
    let job = number_at(value, "job")?;
    Some(Query::Job { job })
}

// The query for a terminal's last number.
pub(crate) fn terminal_query(value: &Value) -> Option<Query>
    ensures { result ≡ form.terminal_query (view value.now) }
{
    let terminal = number_at(value, "terminal")?;
    Some(Query::Terminal { terminal })
}

// The code after which orders are asked for: none in an empty text.
fn code_after(value: &Value) -> Option<Option<Code>>
    ensures { result ≡ code_after_at (codes "after") (view value.now) }
{
    let text = text_at(value, "after")?;
    if text == "" {
        return Some(None);
    }
    let code = Code::read(text)?;
    Some(Some(code))
}

// The query for orders after a code.
pub(crate) fn orders_query(value: &Value) -> Option<Query>
    ensures { result ≡ form.orders_query (view value.now) }
{
    let after = code_after(value)?;
    Some(Query::Orders { after })
}

// The query for an order's lines.
pub(crate) fn lines_query(value: &Value) -> Option<Query>
    ensures { result ≡ form.lines_query (view value.now) }
{
    let order = code_at(value, "order")?;
    Some(Query::Lines { order })
}

// The query for entries behind a number.
pub(crate) fn history_query(value: &Value) -> Option<Query>
    ensures { result ≡ form.history_query (view value.now) }
{
    let after = number_at(value, "after")?;
    Some(Query::History { after })
}

// What a story is asked of.
fn subject(value: &Value) -> Option<Subject>
    ensures { result ≡ form.subject_of (view value.now) }
{
    if let Some(order) = code_at(value, "order") {
        Some(Subject::Order(order))
    } else if let Some(job) = number_at(value, "job") {
        Some(Subject::Job(job))
    } else {
        let part = name_at(value, "part")?;
        Some(Subject::Part(part))
    }
}

// The query for the entries about a subject, behind a number.
fn story_query(value: &Value) -> Option<Query>
    ensures { result ≡ form.story_query (view value.now) }
{
    let about = subject(value)?;
    let after = number_at(value, "after")?;
    Some(Query::Story { about, after })
}

// The query for the entries about a subject, among exactly its keys.
fn whole_story(value: &Value) -> Option<Query>
    ensures { result ≡ row 3 form.story_query (view value.now) }
{
    if has_keys(value, 3) {
        story_query(value)
    } else {
        None
    }
}

// Whose pieces are asked for.
fn source(value: &Value) -> Option<PieceSource>
    ensures { result ≡ form.source_of (view value.now) }
{
    if let Some(order) = code_at(value, "order") {
        Some(PieceSource::Order(order))
    } else if let Some(batch) = code_at(value, "batch") {
        Some(PieceSource::Batch(batch))
    } else {
        let unit = name_at(value, "unit")?;
        Some(PieceSource::Unit(unit))
    }
}

// The query for pieces after a name.
fn pieces_query(value: &Value) -> Option<Query>
    ensures { result ≡ form.pieces_query (view value.now) }
{
    let of = source(value)?;
    let after = name_after(value)?;
    Some(Query::Pieces { of, after })
}

// The query for pieces, among exactly its keys.
fn whole_pieces(value: &Value) -> Option<Query>
    ensures { result ≡ row 3 form.pieces_query (view value.now) }
{
    if has_keys(value, 3) {
        pieces_query(value)
    } else {
        None
    }
}

// The query for the nodes of a job's plan.
pub(crate) fn steps_query(value: &Value) -> Option<Query>
    ensures { result ≡ form.steps_query (view value.now) }
{
    let job = number_at(value, "job")?;
    Some(Query::Steps { job })
}

// The query for a list of what is there, open or listed after a name, for the history as a whole, for a story, or for pieces.
pub(crate) fn list_query(value: &Value, word: &str) -> Option<Query>
    ensures { result ≡ form.list_query word.now (view value.now) }
{
    if word == "materials" {
        if has_keys(value, 1) {
            Some(Query::Materials)
        } else {
            None
        }
    } else if word == "parts" {
        if has_keys(value, 3) {
            parts_query(value)
        } else {
            None
        }
    } else if word == "demands" {
        demands_query(value)
    } else if word == "shop" {
        if has_keys(value, 1) {
            Some(Query::Shop)
        } else {
            None
        }
    } else if word == "story" {
        whole_story(value)
    } else if word == "pieces" {
        whole_pieces(value)
    } else {
        None
    }
}
