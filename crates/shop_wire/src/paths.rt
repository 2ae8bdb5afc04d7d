//! Numbers, terminals and queries of two parts, as the paths of requests say them.

ghost use Rattle.std.specs.Prelude.{◌≡◌, ◌≤◌, IfSome};
ghost use Rattle.shop_wire.specs.Serves as serves;
ghost use Rattle.shop_wire.specs.Serves.{after_slash, before_slash, path_query, ranged};
ghost use Rattle.cut_measure.specs.declared.ranges.TheConstants.{MAX_NUMBERS};
ghost use Rattle.shop_request.specs.declared.routes.Route.TheVariants.{BatchPiecesAfter, DemandsOf, JobStory, OrderPiecesAfter, OrderStory, PartStory, PartsAfter, UnitPiecesAfter};

use cut_measure::{MAX_NUMBERS, read_number};
use shop_rules::{Code, PartName, PieceSource, Query, Subject};
use std::str;

/// The number of a range that a path says.
pub(crate) fn number_of(part: &[u8], least: u32, most: u32) -> Option<u32>
    ensures value { result ≡ ranged least most part.now }
    ensures range { IfSome result (λ number. (least ≤ number) × (number ≤ most)) }
{
    let number = read_number(part)?;
    if number < least || number > most {
        return None;
    }
    Some(number)
}

/// The number that a path says, after which numbers are asked for.
pub(crate) fn number_before(part: &[u8]) -> Option<u32>
    ensures { result ≡ serves.number_before part.now }
{
    number_of(part, 0, MAX_NUMBERS)
}

/// The number from 1 on that a path says.
pub(crate) fn number_in(part: &[u8]) -> Option<u32>
    ensures value { result ≡ serves.numbered part.now }
    ensures range { IfSome result (λ number. (1 ≤ number) × (number ≤ MAX_NUMBERS)) }
{
    number_of(part, 1, MAX_NUMBERS)
}

/// The terminal that a path says.
pub(crate) fn terminal_in(part: &[u8]) -> Option<u32>
    ensures { result ≡ serves.terminal_of part.now }
{
    number_of(part, 0, u32::MAX)
}

// The node that a path says.
fn node_in(part: &[u8]) -> Option<u32>
    ensures { result ≡ serves.node_of part.now }
{
    number_of(part, 0, u32::MAX)
}

// What stands in front of the first slash.
fn before_slash(text: &str) -> &str
    ensures { result.now ≡ before_slash text.now }
{
    match text.split_once('/') {
        Some((prefix, _)) => prefix,
        None => text,
    }
}

// What stands after the first slash.
fn after_slash(text: &str) -> &str
    ensures { result.now ≡ after_slash text.now }
{
    match text.split_once('/') {
        Some((_, after_slash)) => after_slash,
        None => "",
    }
}

// The query for a material's parts after a name, in a text that says both.
fn parts_asked(text: &str) -> Option<Query>
    ensures { result ≡ serves.parts_asked text.now }
{
    let material = Code::read(before_slash(text))?;
    let after = PartName::read(after_slash(text))?;
    Some(Query::Parts {
        material,
        after: Some(after),
    })
}

/// The query for a material's parts after a name, that a path says.
pub(crate) fn parts_at(part: &[u8]) -> Option<Query>
    ensures { result ≡ path_query PartsAfter part.now }
{
    match str::from_utf8(part) {
        Ok(text) => parts_asked(text),
        Err(_) => None,
    }
}

// The query for a material's open demands after a number, in a text that says both.
fn demands_asked(text: &str) -> Option<Query>
    ensures { result ≡ serves.demands_asked text.now }
{
    let after = number_before(before_slash(text).as_bytes())?;
    let material = Code::read(after_slash(text))?;
    Some(Query::Demands {
        after,
        material: Some(material),
    })
}

/// The query for a material's open demands after a number, that a path says.
pub(crate) fn demands_at(part: &[u8]) -> Option<Query>
    ensures { result ≡ path_query DemandsOf part.now }
{
    match str::from_utf8(part) {
        Ok(text) => demands_asked(text),
        Err(_) => None,
    }
}

// The query for the entries about an order after a number, in a text that says both.
fn order_story_asked(text: &str) -> Option<Query>
    ensures { result ≡ serves.order_story_asked text.now }
{
    let order = Code::read(before_slash(text))?;
    let after = number_before(after_slash(text).as_bytes())?;
    Some(Query::Story {
        about: Subject::Order(order),
        after,
    })
}

/// The query for the entries about an order after a number, that a path says.
pub(crate) fn order_story_at(part: &[u8]) -> Option<Query>
    ensures { result ≡ path_query OrderStory part.now }
{
    match str::from_utf8(part) {
        Ok(text) => order_story_asked(text),
        Err(_) => None,
    }
}

// The query for the entries about a job after a number, in a text that says both.
fn job_story_asked(text: &str) -> Option<Query>
    ensures { result ≡ serves.job_story_asked text.now }
{
    let job = number_in(before_slash(text).as_bytes())?;
    let after = number_before(after_slash(text).as_bytes())?;
    Some(Query::Story {
        about: Subject::Job(job),
        after,
    })
}

/// The query for the entries about a job after a number, that a path says.
pub(crate) fn job_story_at(part: &[u8]) -> Option<Query>
    ensures { result ≡ path_query JobStory part.now }
{
    match str::from_utf8(part) {
        Ok(text) => job_story_asked(text),
        Err(_) => None,
    }
}

// The query for the entries about a part after a number, in a text that says its act, its node and the number.
fn part_story_asked(text: &str) -> Option<Query>
    ensures { result ≡ serves.part_story_asked text.now }
{
    let act = number_in(before_slash(text).as_bytes())?;
    let rest = after_slash(text);
    let node = node_in(before_slash(rest).as_bytes())?;
    let after = number_before(after_slash(rest).as_bytes())?;
    Some(Query::Story {
        about: Subject::Part(PartName::new(act, node)),
        after,
    })
}

/// The query for the entries about a part after a number, that a path says.
pub(crate) fn part_story_at(part: &[u8]) -> Option<Query>
    ensures { result ≡ path_query PartStory part.now }
{
    match str::from_utf8(part) {
        Ok(text) => part_story_asked(text),
        Err(_) => None,
    }
}

// The query for an order's pieces after a name, in a text that says both.
fn order_pieces_asked(text: &str) -> Option<Query>
    ensures { result ≡ serves.order_pieces_asked text.now }
{
    let order = Code::read(before_slash(text))?;
    let name = PartName::read(after_slash(text))?;
    Some(Query::Pieces {
        of: PieceSource::Order(order),
        after: Some(name),
    })
}

/// The query for an order's pieces after a name, that a path says.
pub(crate) fn order_pieces_at(part: &[u8]) -> Option<Query>
    ensures { result ≡ path_query OrderPiecesAfter part.now }
{
    match str::from_utf8(part) {
        Ok(text) => order_pieces_asked(text),
        Err(_) => None,
    }
}

// The query for a batch's pieces after a name, in a text that says both.
fn batch_pieces_asked(text: &str) -> Option<Query>
    ensures { result ≡ serves.batch_pieces_asked text.now }
{
    let batch = Code::read(before_slash(text))?;
    let name = PartName::read(after_slash(text))?;
    Some(Query::Pieces {
        of: PieceSource::Batch(batch),
        after: Some(name),
    })
}

/// The query for a batch's pieces after a name, that a path says.
pub(crate) fn batch_pieces_at(part: &[u8]) -> Option<Query>
    ensures { result ≡ path_query BatchPiecesAfter part.now }
{
    match str::from_utf8(part) {
        Ok(text) => batch_pieces_asked(text),
        Err(_) => None,
    }
}

// The query for a unit's pieces after a name, in a text that says the unit's act, its node and the name.
fn unit_pieces_asked(text: &str) -> Option<Query>
    ensures { result ≡ serves.unit_pieces_asked text.now }
{
    let act = number_in(before_slash(text).as_bytes())?;
    let rest = after_slash(text);
    let node = node_in(before_slash(rest).as_bytes())?;
    let name = PartName::read(after_slash(rest))?;
    Some(Query::Pieces {
        of: PieceSource::Unit(PartName::new(act, node)),
        after: Some(name),
    })
}

/// The query for a unit's pieces after a name, that a path says.
pub(crate) fn unit_pieces_at(part: &[u8]) -> Option<Query>
    ensures { result ≡ path_query UnitPiecesAfter part.now }
{
    match str::from_utf8(part) {
        Ok(text) => unit_pieces_asked(text),
        Err(_) => None,
    }
}
