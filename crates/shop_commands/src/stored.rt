//! `cutshop serve`, `cutshop ticket` and `cutshop yield`: the commands over the book of a store file.

ghost use Rattle.std.specs.Prelude.{◌≡◌, ◌≤◌, ◌⊎◌, IfOk, IfErr, OnOk, length, option_map, string_bytes};
ghost use Rattle.shop_files.specs.declared.limits.TheConstants.{MAX_ENTRIES};
ghost use Rattle.shop_commands.specs.declared.faults.Fault.TheVariants as fault;
ghost use Rattle.shop_commands.specs.Faults.{shop_fault};
ghost use Rattle.shop_commands.specs.Stored as spec;
ghost use Rattle.shop_commands.specs.Stored.{Prints, text_of, IsTextDone, IsTextStopped, IsShopRead, IsShopUnread, IsUnopened, IsShopped, AddFailed, IsUnannounced, IsUnaccepted, IsBookServed, IsBookUnserved, IsPageRead, IsPageUnread, IsServeDone, IsServeStopped, IsSite, IsUnbacked, IsUndrawn, IsUnnamed};
ghost use Rattle.shop_serve.specs.Runs.{IsRun};
ghost use Rattle.shop_files.specs.Shops.{IsShopFile, IsShopFault};
ghost use Rattle.shop_files.specs.declared.shops.ShopFault.{ShopFault as ShopFaultOf};
ghost use Rattle.shop_serve.specs.Serving.{HasServed, most_served};
ghost use Rattle.shop_serve.specs.declared.ports.PortCause.{PortCause as PortCauseOf};
ghost use Rattle.shop_commands.specs.Sinks.{Adds, change_of};

use crate::faults::Fault;
use crate::files::{Reads, read_file, read_page, write_text};
use crate::log::{note_begin, note_disk, note_end, note_host, note_last};
use cut_measure::Code;
use shop_advice::StoreCause;
use shop_backup::{BackupFault, Backups, Names, test_folder};
use shop_files::{MaterialEntry, RowList, read_shop};
use shop_opening::{Made, OpenAs, Opens, add_shop};
use shop_request::Address;
use shop_serve::{Lines, Listener, PortCause, Site, draw_run, listen, second_now, serve_on};
use shop_store::Book;
use shop_text::{PrintFault, Sink, ticket, yield_report};
use shop_words::VERSION;
use std::alloc::{AllocError, Global};
use std::fs::Files;
use std::io::Eprint;
use std::net::Net;
use std::random::RandomSource;
use std::time::Clock;

// Opens the book of a store.
fn open_store<B: Book + Drop, O: Opens<B>>(
    stores: O,
    alloc: Global,
    store: &str,
    how: OpenAs,
    made: &mut Made,
) -> Result<B, Fault>
    ensures ok { IfOk result (λ book. O.gives stores store.now (Ok book)) }
    ensures err { IfErr result (IsUnopened (O.gives stores store.now)) }
{
    match stores.open(alloc, store, how, made) {
        Ok(book) => Ok(book),
        Err(fault) => Err(Fault::from(fault)),
    }
}

/// A text of a store: the ticket of a job, or the yield report of a material.
#[derive(Clone, Copy)]
pub enum StoreText {
    Ticket(u32),
    Yield(Code),
}

// Prints a text of a book.
fn print_text<B: Book, W: Sink>(
    alloc: Global,
    book: &mut B,
    text: StoreText,
    sink: &mut W,
) -> Result<(), PrintFault>
    ensures { Prints B.Book book.old book.new (text_of text)
        (change_of W.Sink sink.old sink.new) result }
{
    match text {
        StoreText::Ticket(job) => ticket(alloc, book, job, sink),
        StoreText::Yield(material) => yield_report(alloc, book, material, sink),
    }
}

/// Prints a text of a store.
pub fn print_stored<B: Book + Drop, O: Opens<B>, W: Sink>(
    stores: O,
    alloc: Global,
    store: &str,
    text: StoreText,
    sink: &mut W,
) -> Result<(), Fault>
    ensures ok { OnOk result
        (IsTextDone B.Book (O.gives stores store.now) (text_of text)
        (change_of W.Sink sink.old sink.new)) }
    ensures err { IfErr result (λ f.
        IsTextStopped B.Book (O.gives stores store.now) (text_of text) f
        (change_of W.Sink sink.old sink.new)) }
{
    let how = OpenAs {
        existing: false,
        merged: false,
    };
    let mut made = Made::nothing();
    let mut book = open_store(stores, alloc, store, how, &mut made)?;
    let printed = print_text(alloc, &mut book, text, sink);
    O::close(book);
    match printed {
        Ok(()) => Ok(()),
        Err(fault) => Err(Fault::from(fault)),
    }
}

// The entries that bytes spell.
fn entries_in(alloc: Global, bytes: &[u8]) -> Result<RowList<MaterialEntry>, Fault>
    ensures ok { IfOk result (λ entries. IsShopFile bytes.now entries
        × (length entries ≤ MAX_ENTRIES)) }
    ensures err { IfErr result
        (λ f. (g : ShopFaultOf) × IsShopFault bytes.now g × (f ≡ shop_fault g)) }
{
    match read_shop(alloc, bytes) {
        Ok(entries) => Ok(entries),
        Err(fault) => Err(Fault::from(fault)),
    }
}

/// The entries of a shop file.
pub(crate) fn shop_entries<R: Reads>(
    rt: &R,
    alloc: Global,
    path: &str,
) -> Result<RowList<MaterialEntry>, Fault>
    ensures ok { IfOk result (λ entries. IsShopRead (R.holds rt.now) path.now entries
        × (length entries ≤ MAX_ENTRIES)) }
    ensures err { IfErr result (IsShopUnread (R.holds rt.now) path.now) }
{
    let bytes = read_file(rt, alloc, path)?;
    let entries = entries_in(alloc, &bytes)?;
    Ok(entries)
}

// The page of a file, where there is one.
fn page_in<R: Reads>(rt: &R, alloc: Global, path: Option<&str>) -> Result<Option<Vec<u8>>, Fault>
    ensures ok { IfOk result (λ page.
        IsPageRead (R.holds rt.now) (option_map (λ p. p.now) path.entry) (option_map (λ b. b.items) page)) }
    ensures err { IfErr result IsPageUnread }
{
    match path {
        Some(path) => {
            let page = read_page(rt, alloc, path)?;
            Ok(Some(page))
        }
        None => Ok(None),
    }
}

// Tests the folder of backups, where there is one.
fn test_backup<R: Files>(rt: &R, alloc: Global, backup: Option<&str>) -> Result<(), Fault>
    ensures { IfErr result IsUnbacked }
{
    let Some(folder) = backup else {
        return Ok(());
    };
    match test_folder(rt, alloc, folder) {
        Ok(()) => Ok(()),
        Err(fault) => Err(Fault::from(fault)),
    }
}

// The backups of a store that is open, where there is a folder for them, and how many of them stay.
fn backups_of<R: Files>(
    rt: &R,
    alloc: Global,
    store: &str,
    backup: Option<&str>,
    keep: Option<u32>,
) -> Result<Option<Backups>, Fault>
    ensures { IfErr result IsUnbacked }
{
    let Some(folder) = backup else {
        return Ok(None);
    };
    match Backups::new(rt, alloc, store, folder, keep) {
        Ok(backups) => Ok(Some(backups)),
        Err(fault) => Err(Fault::from(fault)),
    }
}

// The names of a store that is open.
fn names_of<R: Files>(rt: &R, alloc: Global, store: &str) -> Result<Names, Fault>
    ensures { IfErr result IsUnnamed }
{
    match Names::new(rt, alloc, store) {
        Ok(names) => Ok(names),
        Err(BackupFault::NoMemory) => Err(Fault::NoMemory),
        Err(BackupFault::Failed(_)) => Err(Fault::Store(StoreCause::Moved)),
    }
}

// The run of a server that begins now.
fn run_of<R: RandomSource>(rt: &R, alloc: Global) -> Result<String, Fault>
    ensures ok { IfOk result (λ run. IsRun (string_bytes run)) }
    ensures err { IfErr result IsUndrawn }
{
    match draw_run(rt, alloc) {
        Ok(Some(run)) => Ok(run),
        Ok(None) => Err(Fault::Port(PortCause::NoRun)),
        Err(_) => Err(Fault::NoMemory),
    }
}

// The site of an address, with the page of a file or without one, and with backups in a folder or without any, and its run.
fn site_of<R: Reads + RandomSource>(
    rt: &R,
    alloc: Global,
    address: &Address,
    page: Option<&str>,
    backup: Option<&str>,
) -> Result<Site, Fault>
    ensures ok { IfOk result (λ site. IsSite (R.holds rt.now) address.now (option_map (λ p. p.now) page.entry)
        (option_map (λ p. p.now) backup.entry) site) }
    ensures err { IfErr result (λ f. IsPageUnread f ⊎ IsUnbacked f ⊎ IsUndrawn f) }
{
    let page = page_in(rt, alloc, page)?;
    test_backup(rt, alloc, backup)?;
    let run = run_of(rt, alloc)?;
    let version = String::from_str(alloc, VERSION)?;
    let site = Site::new(alloc, address, page, backup.is_some(), run, version)?;
    Ok(site)
}

// Adds the entries to a book, as messages of this second.
fn add_entries<B: Book>(
    alloc: Global,
    book: &mut B,
    entries: &[MaterialEntry],
    at: u64,
) -> Result<(), Fault>
    requires { length entries.now ≤ MAX_ENTRIES }
    ensures ok { OnOk result (IsShopped B.Book book.old book.new entries.now) }
    ensures err { IfErr result (AddFailed B.Book book.old book.new entries.now) }
{
    match add_shop(alloc, book, entries, at) {
        Ok(()) => Ok(()),
        Err(fault) => Err(Fault::from(fault)),
    }
}

// The line that reports the port.
fn listening_line(alloc: Global, port: u32) -> Result<String, AllocError>
    ensures { IfOk result (λ text. string_bytes text ≡ spec.listening_line port) }
{
    format!(in alloc; "listening on 127.0.0.1:{port}\n")
}

// Listens on a port of this machine alone.
fn bind<R: Net>(rt: &R, port: u32) -> Result<Listener, Fault>
    ensures { IfErr result (λ f. (cause : PortCauseOf) × (f ≡ fault.Port cause)) }
{
    match listen(rt, port) {
        Ok(listener) => Ok(listener),
        Err(cause) => Err(Fault::Port(cause)),
    }
}

// Reports the port, once it is listened to.
fn bind_and_announce<R: Net, W: Sink>(
    rt: &R,
    alloc: Global,
    port: u32,
    sink: &mut W,
) -> Result<Listener, Fault>
    ensures ok { OnOk result (Adds (change_of W.Sink sink.old sink.new)
        (spec.listening_line port)) }
    ensures err { IfErr result (λ f. IsUnannounced port f (change_of W.Sink sink.old sink.new)) }
{
    let listener = bind(rt, port)?;
    let line = listening_line(alloc, port)?;
    write_text(sink, line.as_str())?;
    Ok(listener)
}

// Serves connections.
fn serve_connections<R: Net + Clock + Eprint + Files, B: Book>(
    rt: &R,
    alloc: Global,
    listener: &Listener,
    limit: Option<u32>,
    site: &Site,
    names: &Names,
    backups: Option<&Backups>,
    lines: &mut Lines,
    book: &mut B,
) -> Result<(), Fault>
    ensures ok { OnOk result (HasServed site.now B.Book book.old book.new (most_served limit)) }
    ensures err { IfErr result (IsUnaccepted B.Book site.now book.old book.new limit) }
{
    match serve_on(
        rt, alloc, listener, limit, site, names, backups, lines, book,
    ) {
        Ok(()) => Ok(()),
        Err(fault) => Err(Fault::from(fault)),
    }
}

// Adds the shop's entries to a book and serves it on a port; `begun` once it does.
fn serve_book<R: Net + Clock + Eprint + Files, B: Book, W: Sink>(
    rt: &R,
    alloc: Global,
    port: u32,
    store: &str,
    is_new: bool,
    limit: Option<u32>,
    site: &Site,
    backup: Option<&str>,
    keep: Option<u32>,
    entries: &[MaterialEntry],
    sink: &mut W,
    lines: &mut Lines,
    book: &mut B,
    begun: &mut bool,
) -> Result<(), Fault>
    requires { length entries.now ≤ MAX_ENTRIES }
    ensures ok { OnOk result
        (IsBookServed B.Book site.now book.old book.new entries.now port limit
        (change_of W.Sink sink.old sink.new)) }
    ensures err { IfErr result (λ f.
        IsBookUnserved B.Book site.now book.old book.new entries.now port limit f
        (change_of W.Sink sink.old sink.new)) }
{
    let names = names_of(rt, alloc, store)?;
    let backups = backups_of(rt, alloc, store, backup, keep)?;
    add_entries(alloc, book, entries, second_now(rt))?;
    let listener = bind_and_announce(rt, alloc, port, sink)?;
    *begun = true;
    let kept = book.kept_count().ok();
    let last = book.last_entry();
    note_begin(rt, alloc, lines, store, is_new, kept);
    note_host(rt, lines, site);
    note_disk(rt, lines, backups.as_ref());
    note_last(rt, lines, last);
    match serve_connections(
        rt,
        alloc,
        &listener,
        limit,
        site,
        &names,
        backups.as_ref(),
        lines,
        book,
    ) {
        Ok(()) => Ok(()),
        Err(fault) => Err(fault),
    }
}

// Closes a store; one that was made for a start that ended before it served is taken away instead.
fn end_store<R: Files, B: Book + Drop, O: Opens<B>>(
    rt: &R,
    alloc: Global,
    store: &str,
    made: Made,
    begun: bool,
    book: B,
) {
    if made.is_new() && !begun {
        made.take_away(rt, alloc, store);
        drop(book);
    } else {
        O::close(book);
    }
}

/// Adds the materials of a shop file to a store's book, prints the port, and serves connections on it. If it ends
/// before it serves, a store that was created for it is removed.
pub fn serve<R: Reads + Net + Clock + Eprint + RandomSource, B: Book + Drop, O: Opens<B>, W: Sink>(
    rt: &R,
    stores: O,
    alloc: Global,
    address: &Address,
    store: &str,
    shop: &str,
    limit: Option<u32>,
    page: Option<&str>,
    backup: Option<&str>,
    existing: bool,
    keep: Option<u32>,
    sink: &mut W,
) -> Result<(), Fault>
    ensures ok { OnOk result (IsServeDone B.Book (O.gives stores store.now) (R.holds rt.now) address.now shop.now limit
        (option_map (λ p. p.now) page.entry) (option_map (λ p. p.now) backup.entry)
        (change_of W.Sink sink.old sink.new)) }
    ensures err { IfErr result (λ f. IsServeStopped B.Book (O.gives stores store.now) (R.holds rt.now) address.now shop.now limit
        (option_map (λ p. p.now) page.entry) (option_map (λ p. p.now) backup.entry) f
        (change_of W.Sink sink.old sink.new)) }
{
    let entries = shop_entries(rt, alloc, shop)?;
    let site = site_of(rt, alloc, address, page, backup)?;
    let how = OpenAs {
        existing,
        merged: true,
    };
    let mut made = Made::nothing();
    let mut book = open_store(stores, alloc, store, how, &mut made)?;
    let mut begun = false;
    let mut lines = Lines::new(alloc);
    let served = serve_book(
        rt,
        alloc,
        address.port,
        store,
        made.is_new(),
        limit,
        &site,
        backup,
        keep,
        entries.as_slice(),
        sink,
        &mut lines,
        &mut book,
        &mut begun,
    );
    end_store::<R, B, O>(rt, alloc, store, made, begun, book);
    match served {
        Ok(()) => {
            note_end(rt, alloc, &mut lines, store);
            Ok(())
        }
        Err(fault) => Err(fault),
    }
}
