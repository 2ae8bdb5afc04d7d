//! The values that options and flags were given.

ghost use Rattle.std.specs.Prelude.{◌≡◌, ◌↔◌, is_some, IfOk, IsTrue};
ghost use Rattle.clap.specs.Words.{first_of, rows_of, found_of};
ghost use Rattle.shop_words.specs.CommandLine as line;

use clap::ArgMatches;
use std::alloc::{AllocError, Global};

/// An option's number, if it is in a range.
pub(crate) fn number_of(matches: &ArgMatches<'_>, name: &str, least: u32, most: u32) -> Option<u32>
    ensures { line.AsAsked result
        (line.HasNumber name.now (rows_of (found_of matches.now)) least most) }
{
    let number = matches.get_one::<u32>(name)?;
    if number < least {
        return None;
    }
    if number > most {
        return None;
    }
    Some(number)
}

/// Whether an option of this name is given.
pub(crate) fn has_option(matches: &ArgMatches<'_>, name: &str) -> bool
    ensures { result ≡ is_some (first_of name.now (rows_of (found_of matches.now))) }
{
    matches.get_str(name).is_some()
}

/// An option's number, if it is in a range; or none, if the option isn't given.
pub(crate) fn number_if_any(
    matches: &ArgMatches<'_>,
    name: &str,
    least: u32,
    most: u32,
) -> Option<Option<u32>>
    ensures { line.AsAsked result
        (line.MayHaveNumber name.now (rows_of (found_of matches.now)) least most) }
{
    if !has_option(matches, name) {
        return Some(None);
    }
    let number = number_of(matches, name, least, most)?;
    Some(Some(number))
}

/// Whether a flag is given.
pub(crate) fn has_flag(matches: &ArgMatches<'_>, name: &str) -> bool
    ensures { IsTrue result ↔ line.HasFlag name.now (rows_of (found_of matches.now)) }
{
    match matches.get_str(name) {
        Some(value) => value == "true",
        None => false,
    }
}

/// How often an option is given.
pub(crate) fn times_given(matches: &ArgMatches<'_>, name: &str) -> usize
    ensures { result ≡ line.times_given name.now (rows_of (found_of matches.now)) }
{
    match matches.get_strs(name) {
        Some(texts) => texts.len(),
        None => 0,
    }
}

// A list of texts.
fn listed<'a>(alloc: Global, texts: &[&'a str]) -> Result<Vec<&'a str>, AllocError>
    ensures { IfOk result (λ list. list.items ≡ texts.now) }
{
    texts.to_vec(alloc)
}

/// The texts of an option, one for each time that it is given.
pub(crate) fn texts_under<'a>(
    alloc: Global,
    matches: &ArgMatches<'a>,
    name: &str,
) -> Result<Vec<&'a str>, AllocError>
    ensures { IfOk result (λ texts.
        line.AreTexts name.now (rows_of (found_of matches.now)) texts.items) }
{
    match matches.get_strs(name) {
        Some(texts) => listed(alloc, texts),
        None => Ok(Vec::new(alloc)),
    }
}
