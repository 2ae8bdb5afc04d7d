//! Where a server is reached, and what the fields of requests for it say of that: its hosts, the origins of its pages and its run.

ghost use Rattle.std.specs.Prelude.{◌≡◌, ◌==◌, ◌++◌, IfOk, OnOk, map, string_bytes};
ghost use Rattle.std.specs.List.{after_first, before_first, flat_map};
ghost use Rattle.shop_request.specs.Addresses.{authority_of, bare_host, has_others, hosts_of, own_hosts, own_origins, quoted_run, texts_of, with_port};

use std::alloc::{AllocError, Global};

/// Where a server is reached: the port of this machine that is served, and the names and the origins that others have for it.
#[derive(Clone, Copy)]
pub struct Address<'a> {
    pub port: u32,
    /// Names, as `shop.example`.
    pub hosts: &'a [&'a str],
    /// Origins, as `https://shop.example:8443`.
    pub origins: &'a [&'a str],
}

impl Address<'_> {
    /// Whether others have names or origins for it.
    pub fn has_others(&self) -> bool
        ensures { result ≡ has_others self.now }
    {
        !self.hosts.is_empty() || !self.origins.is_empty()
    }
}

// The hosts that each machine has for itself.
const LOCAL_HOSTS: [&str; 3] = ["127.0.0.1", "localhost", "[::1]"];

// Puts a host, alone and with a port.
fn put_host(alloc: Global, host: &str, port: u32, own: &mut Vec<String>) -> Result<(), AllocError>
    ensures { OnOk result (map string_bytes own.new.items
        ≡ map string_bytes own.old.items ++ with_port port host.now) }
{
    let alone = String::from_str(alloc, host)?;
    own.push(alone)?;
    let at_port = format!(in alloc; "{host}:{port}")?;
    own.push(at_port)?;
    Ok(())
}

// Puts hosts in turn, each alone and with a port.
fn put_hosts(
    alloc: Global,
    hosts: &[&str],
    port: u32,
    own: &mut Vec<String>,
) -> Result<(), AllocError>
    ensures { OnOk result (map string_bytes own.new.items
        ≡ map string_bytes own.old.items ++ flat_map (with_port port) (texts_of hosts.now)) }
{
    let [host, rest @ ..] = hosts else {
        return Ok(());
    };
    put_host(alloc, host, port, own)?;
    put_hosts(alloc, rest, port, own)
}

// What stands behind the first slash of a text.
fn behind_slash(text: &str) -> &str
    ensures { result.now ≡ after_first (λ b. b == 47) text.now }
{
    match text.split_once('/') {
        Some((_, behind)) => behind,
        None => "",
    }
}

// The host of an origin and its port, if it has one: what stands behind its two slashes.
fn authority(origin: &str) -> &str
    ensures { result.now ≡ authority_of origin.now }
{
    behind_slash(behind_slash(origin))
}

// What stands before the first colon of a text.
fn before_colon(text: &str) -> &str
    ensures { result.now ≡ before_first (λ b. b == 58) text.now }
{
    match text.split_once(':') {
        Some((front, _)) => front,
        None => text,
    }
}

// A host without its port.
fn bare_host(alloc: Global, authority: &str) -> Result<String, AllocError>
    ensures { IfOk result (λ host. string_bytes host ≡ bare_host authority.now) }
{
    match authority.split_once(']') {
        Some((front, _)) => format!(in alloc; "{front}]"),
        None => String::from_str(alloc, before_colon(authority)),
    }
}

// Puts the hosts of an origin: with its own port, alone, and with a port.
fn put_origin_hosts(
    alloc: Global,
    origin: &str,
    port: u32,
    own: &mut Vec<String>,
) -> Result<(), AllocError>
    ensures { OnOk result (map string_bytes own.new.items
        ≡ map string_bytes own.old.items ++ hosts_of port origin.now) }
{
    let authority = authority(origin);
    let whole = String::from_str(alloc, authority)?;
    own.push(whole)?;
    let host = bare_host(alloc, authority)?;
    put_host(alloc, host.as_str(), port, own)
}

// Puts the hosts of origins in turn.
fn put_origins_hosts(
    alloc: Global,
    origins: &[&str],
    port: u32,
    own: &mut Vec<String>,
) -> Result<(), AllocError>
    ensures { OnOk result (map string_bytes own.new.items
        ≡ map string_bytes own.old.items ++ flat_map (hosts_of port) (texts_of origins.now)) }
{
    let [origin, rest @ ..] = origins else {
        return Ok(());
    };
    put_origin_hosts(alloc, origin, port, own)?;
    put_origins_hosts(alloc, rest, port, own)
}

/// The values that a field `Host` has in a request for what is reached at an address.
pub(crate) fn own_hosts(alloc: Global, address: &Address) -> Result<Vec<String>, AllocError>
    ensures { IfOk result (λ own. map string_bytes own.items ≡ own_hosts address.now) }
{
    let mut own = Vec::new(alloc);
    put_hosts(alloc, &LOCAL_HOSTS, address.port, &mut own)?;
    put_hosts(alloc, address.hosts, address.port, &mut own)?;
    put_origins_hosts(alloc, address.origins, address.port, &mut own)?;
    Ok(own)
}

// Puts texts in turn.
fn put_texts(alloc: Global, texts: &[&str], own: &mut Vec<String>) -> Result<(), AllocError>
    ensures { OnOk result (map string_bytes own.new.items
        ≡ map string_bytes own.old.items ++ texts_of texts.now) }
{
    let [text, rest @ ..] = texts else {
        return Ok(());
    };
    let own_text = String::from_str(alloc, text)?;
    own.push(own_text)?;
    put_texts(alloc, rest, own)
}

/// The values that a field `Origin` has in a request of a page of what is reached at an address.
pub(crate) fn own_origins(alloc: Global, address: &Address) -> Result<Vec<String>, AllocError>
    ensures { IfOk result (λ own. map string_bytes own.items ≡ own_origins address.now) }
{
    let port = address.port;
    let mut own = Vec::new(alloc);
    let number = format!(in alloc; "http://127.0.0.1:{port}")?;
    own.push(number)?;
    let name = format!(in alloc; "http://localhost:{port}")?;
    own.push(name)?;
    put_texts(alloc, address.origins, &mut own)?;
    Ok(own)
}

/// A run of a server, as a field `If-Match` names it.
pub(crate) fn quoted_run(alloc: Global, run: &str) -> Result<String, AllocError>
    ensures { IfOk result (λ quoted. string_bytes quoted ≡ quoted_run run.now) }
{
    format!(in alloc; "\"{run}\"")
}
