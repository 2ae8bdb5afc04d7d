//! The words for kinds and states in JSON, how a plan's node is reported, and readings by which the range of a number or a name is
//! known.

ghost use Rattle.std.specs.Prelude.{◌≡◌};
ghost use Rattle.cut_measure.specs.Names.{IsName};
ghost use Rattle.shop_records.specs.Messages.{IsNumber};
ghost use Rattle.shop_forms.specs.Fields.{job_state_text, kind_text, state_text};
ghost use Rattle.shop_forms.specs.Reported.{what_text, cut_place, demand_cut, is_turned, order_or_none, state_or_none};

use cut_measure::{Axis, Code, Kind, PartName};
use cut_tree::Token;
use shop_records::{JobState, StateWord};

/// The word for a kind of material.
pub fn kind_word(kind: Kind) -> &'static str
    ensures { result.now ≡ kind_text kind }
{
    match kind {
        Kind::Bar => "bar",
        Kind::Sheet => "sheet",
    }
}

/// The word for the state of a part.
pub fn state_word(state: StateWord) -> &'static str
    ensures { result.now ≡ state_text state }
{
    match state {
        StateWord::Standing => "standing",
        StateWord::Reserved => "reserved",
        StateWord::Cut => "cut",
        StateWord::Piece => "piece",
        StateWord::Kerf => "kerf",
        StateWord::Scrap => "scrap",
        StateWord::Returned => "returned",
        StateWord::Undone => "undone",
    }
}

/// The word for the state of a job.
pub fn job_state_word(state: JobState) -> &'static str
    ensures { result.now ≡ job_state_text state }
{
    match state {
        JobState::Waiting => "waiting",
        JobState::Done => "done",
        JobState::Broken => "broken",
        JobState::Released => "released",
        JobState::Undone => "undone",
    }
}

// What is done at a node of a plan.
pub(crate) fn what_word(what: Token) -> &'static str
    ensures { result.now ≡ what_text what }
{
    match what {
        Token::Cut(Axis::X, _) => "cut x",
        Token::Cut(Axis::Y, _) => "cut y",
        Token::Piece(_, _) => "piece",
        Token::Rest => "rest",
    }
}

// The place of a cut, else 0.
pub(crate) fn cut_place(what: Token) -> u32
    ensures { result ≡ cut_place what }
{
    match what {
        Token::Cut(_, place) => place,
        Token::Piece(_, _) | Token::Rest => 0,
    }
}

// The demand of a piece, else 0.
pub(crate) fn demand_cut(what: Token) -> u32
    ensures { result ≡ demand_cut what }
{
    match what {
        Token::Piece(demand, _) => demand,
        Token::Cut(_, _) | Token::Rest => 0,
    }
}

// Whether it is a piece that is turned.
pub(crate) fn is_turned(what: Token) -> bool
    ensures { result ≡ is_turned what }
{
    match what {
        Token::Piece(_, turned) => turned,
        Token::Cut(_, _) | Token::Rest => false,
    }
}

// An order's code, or an empty text.
pub(crate) fn order_or_none(order: &Option<Code>) -> &str
    ensures { result.now ≡ order_or_none order.now }
{
    match order {
        Some(order) => order.as_str(),
        None => "",
    }
}

// The word for the state of a part, or an empty text.
pub(crate) fn state_or_none(state: Option<StateWord>) -> &'static str
    ensures { result.now ≡ state_or_none state }
{
    match state {
        Some(state) => state_word(state),
        None => "",
    }
}

/// A number of 32 bits as one of 64.
pub fn wide(n: u32) -> u64
    ensures value { result ≡ n }
    ensures range { IsNumber n }
{
    u64::from(n)
}

/// Reads a name, which so is known to be one.
pub fn see_part(part: &PartName)
    ensures { IsName part.now }
{
    let _act = part.act();
    let _node = part.node();
}
