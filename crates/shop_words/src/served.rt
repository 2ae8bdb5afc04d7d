//! What `serve` asks for.

ghost use Rattle.std.specs.Prelude.{◌≡◌, ◌↔◌, codes, option_map, IfOk, IsTrue, map};
ghost use Rattle.std.specs.List.{list_all};
ghost use Rattle.clap.specs.Words.{rows_of, found_of};
ghost use Rattle.shop_words.specs.CommandLine as line;

use crate::values::{has_flag, has_option, number_of, texts_under, times_given};
use crate::words::{LAST_PORT, MAX_CONNECTIONS, MAX_KEPT, MAX_NAMES, Request, Serving};
use clap::ArgMatches;
use std::alloc::{AllocError, Global};

// How many connections are asked for.
fn limit_of(serve: &ArgMatches<'_>) -> Option<Option<u32>>
    ensures { line.AsAsked result (line.IsLimit (rows_of (found_of serve.now))) }
{
    if has_option(serve, "limit") {
        let limit = number_of(serve, "limit", 1, MAX_CONNECTIONS)?;
        return Some(Some(limit));
    }
    if has_option(serve, "page") {
        return Some(None);
    }
    Some(Some(MAX_CONNECTIONS))
}

// How many backups stay, where that is said.
fn keep_of(serve: &ArgMatches<'_>) -> Option<Option<u32>>
    ensures { line.AsAsked result (line.IsKeep (rows_of (found_of serve.now))) }
{
    if !has_option(serve, "keep") {
        return Some(None);
    }
    let keep = number_of(serve, "keep", 1, MAX_KEPT)?;
    if !has_option(serve, "backup") {
        return None;
    }
    Some(Some(keep))
}

fn is_host_char(byte: u8) -> bool
    ensures { result ≡ line.is_host_byte byte }
{
    byte.is_ascii_alphanumeric()
        || byte == b'-'
        || byte == b'.'
        || byte == b'_'
        || byte == b':'
        || byte == b'['
        || byte == b']'
}

// Whether each byte is one of a host and a port.
fn has_host_bytes(text: &[u8]) -> bool
    ensures { result ≡ list_all line.is_host_byte text.now }
{
    text.iter().all(|byte| is_host_char(*byte))
}

// Whether a text is a host, or one and a port.
fn is_host(text: &[u8]) -> bool
    ensures { result ≡ line.is_host text.now }
{
    if text.is_empty() {
        return false;
    }
    text[0] != b':' && has_host_bytes(text)
}

// Whether a text is this and a host behind it.
fn is_host_behind(scheme: &[u8], text: &[u8]) -> bool
    ensures { result ≡ line.is_host_behind scheme.now text.now }
{
    match text.strip_prefix(scheme) {
        Some(host) => is_host(host),
        None => false,
    }
}

// Whether a text is an origin.
fn is_origin(text: &[u8]) -> bool
    ensures { result ≡ line.is_origin text.now }
{
    is_host_behind(b"http://".as_slice(), text) || is_host_behind(b"https://".as_slice(), text)
}

// The first of these texts that is no origin.
fn first_bad<'a>(texts: &[&'a str]) -> Option<&'a str>
    ensures { option_map (λ text. text.now) result
        ≡ line.bad_origin (map (λ text. text.now) texts.now) }
{
    for text in texts {
        if !is_origin(text.as_bytes()) {
            return Some(*text);
        }
    }
    None
}

/// The first text of an `--origin` that isn't an origin.
pub(crate) fn bad_origin<'a>(serve: &ArgMatches<'a>) -> Option<&'a str>
    ensures { option_map (λ text. text.now) result
        ≡ line.bad_origin (line.texts_under (codes "origin") (rows_of (found_of serve.now))) }
{
    match serve.get_strs("origin") {
        Some(texts) => first_bad(texts),
        None => None,
    }
}

// Whether the names and origins of a server are few enough, and each origin is one.
fn has_good_names(serve: &ArgMatches<'_>) -> bool
    ensures { IsTrue result ↔ line.HasGoodNames (rows_of (found_of serve.now)) }
{
    if times_given(serve, "host") > MAX_NAMES || times_given(serve, "origin") > MAX_NAMES {
        return false;
    }
    bad_origin(serve).is_none()
}

// What is served with these names and origins.
fn serving_of<'a>(
    serve: &ArgMatches<'a>,
    hosts: Vec<&'a str>,
    origins: Vec<&'a str>,
) -> Option<Serving<'a>>
    requires hosts { line.AreTexts (codes "host") (rows_of (found_of serve.now)) hosts.items }
    requires origins { line.AreTexts (codes "origin") (rows_of (found_of serve.now)) origins.items }
    ensures { line.AsAsked result (line.IsServing (rows_of (found_of serve.now))) }
{
    let port = number_of(serve, "port", 1, LAST_PORT)?;
    let store = serve.get_str("store")?;
    let shop = serve.get_str("shop")?;
    let limit = limit_of(serve)?;
    let keep = keep_of(serve)?;
    let page = serve.get_str("page");
    let backup = serve.get_str("backup");
    let existing = has_flag(serve, "existing");
    if !has_good_names(serve) {
        return None;
    }
    Some(Serving {
        port,
        store,
        shop,
        limit,
        page,
        backup,
        existing,
        keep,
        hosts,
        origins,
    })
}

/// What `serve` asks for.
pub(crate) fn serve_request<'a>(
    alloc: Global,
    serve: &ArgMatches<'a>,
) -> Result<Option<Request<'a>>, AllocError>
    ensures { IfOk result
        (λ found. line.AsAsked found (line.IsServeAsked (rows_of (found_of serve.now)))) }
{
    let hosts = texts_under(alloc, serve, "host")?;
    let origins = texts_under(alloc, serve, "origin")?;
    match serving_of(serve, hosts, origins) {
        Some(serving) => Ok(Some(Request::Serve(serving))),
        None => Ok(None),
    }
}
