//! What the fields of a head say of hosts, of codings and of the body's length.

ghost use Rattle.std.specs.Prelude.{◌≡◌, ◌<◌, ◌≤◌, ℕ, List, length, map, All, IsTrue, MatchOption};
ghost use Rattle.std.specs.List.{list_all};
ghost use Rattle.std.specs.Char.{is_ascii_digit};
ghost use Rattle.std.specs.Str.Parse.{digits_value};
ghost use Rattle.httparse.specs.Spans.{IsHeaderWithin, header_bytes};
ghost use Rattle.shop_request.specs.Heads.{is_named, values_of, has_hosts, is_some_list, is_number, said_length, most_body};
ghost use Rattle.shop_request.specs.Reading.{AreValues, IsSaid};

use crate::faults::RequestFault;
use httparse::spans::HeaderSpan;

const MAX_BODY_LEN: usize = 131_072;

/// The values of the fields with one name.
#[derive(Clone, Copy)]
pub(crate) enum Values<'b> {
    None,
    One(&'b [u8]),
    Many,
}

/// What the fields say of the body's length.
#[derive(Clone, Copy)]
pub(crate) enum Said {
    Nothing,
    Length(usize),
    Large,
}

/// Whether two names are one, capitals aside.
pub(crate) fn is_name(a: &[u8], b: &[u8]) -> bool
    ensures { (value : List ℕ) → result ≡ is_named b.now (a.now, value) }
{
    a.eq_ignore_ascii_case(b)
}

/// The values of the fields with a name.
pub(crate) fn values_named<'b>(buf: &'b [u8], headers: &[HeaderSpan], name: &[u8]) -> Values<'b>
    requires { All (IsHeaderWithin (length buf.now)) headers.now }
    ensures { AreValues result (values_of name.now (map (header_bytes buf.now) headers.now)) }
{
    let [first, rest @ ..] = headers else {
        return Values::None;
    };
    let others = values_named(buf, rest, name);
    if !is_name(first.name.of(buf), name) {
        return others;
    }
    match others {
        Values::None => Values::One(first.value.of(buf)),
        _ => Values::Many,
    }
}

/// Whether HTTP/1.1 says one host, or HTTP/1.0 at most one.
pub(crate) fn has_hosts(minor: u8, values: Values) -> bool
    ensures { (all : List (List ℕ)) → AreValues values.entry all → result ≡ has_hosts minor all }
{
    match values {
        Values::None => minor == 0,
        Values::One(_) => true,
        Values::Many => false,
    }
}

/// Whether there is a field.
pub(crate) fn is_there(values: Values) -> bool
    ensures { (all : List (List ℕ)) → AreValues values.entry all → result ≡ is_some_list all }
{
    !matches!(values, Values::None)
}

fn is_digit(byte: u8) -> bool
    ensures { result ≡ is_ascii_digit byte }
{
    byte.is_ascii_digit()
}

// Whether each byte is a digit.
fn are_digits(text: &[u8]) -> bool
    ensures { result ≡ list_all is_ascii_digit text.now }
{
    text.iter().all(|byte| is_digit(*byte))
}

// Whether a text is one or more digits.
fn is_number(text: &[u8]) -> bool
    ensures { result ≡ is_number text.now }
{
    if text.is_empty() {
        return false;
    }
    are_digits(text)
}

// The number that digits are, where a body may have that length.
fn short_number(digits: &[u8]) -> Option<usize>
    requires { IsTrue (list_all is_ascii_digit digits.now) }
    ensures { MatchOption result (most_body < digits_value 10 digits.now)
        (λ n. (n ≡ digits_value 10 digits.now) × (n ≤ most_body)) }
{
    let mut value: usize = 0;
    for digit in digits {
        value = value * 10 + usize::from(*digit - b'0');
        if value > MAX_BODY_LEN {
            return None;
        }
    }
    Some(value)
}

/// The length of the body that the fields say.
pub(crate) fn said_length(values: Values) -> Result<Said, RequestFault>
    ensures { (all : List (List ℕ)) → AreValues values.entry all → IsSaid result (said_length all) }
{
    let text = match values {
        Values::None => return Ok(Said::Nothing),
        Values::Many => return Err(RequestFault::BadRequest),
        Values::One(text) => text,
    };
    if !is_number(text) {
        return Err(RequestFault::BadRequest);
    }
    match short_number(text) {
        Some(length) => Ok(Said::Length(length)),
        None => Ok(Said::Large),
    }
}
