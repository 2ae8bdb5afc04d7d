//! Reads whole files up to a limit, and writes whole texts.

ghost use Rattle.std.specs.Prelude.{◌≡◌, ◌⊎◌, ◌≤◌, IfOk, IfErr, OnOk, length};
ghost use Rattle.shop_files.specs.declared.limits.TheConstants.{MAX_TEXT_LEN};
ghost use Rattle.shop_commands.specs.declared.faults.Fault.TheVariants as fault;
ghost use Rattle.shop_commands.specs.declared.files.TheConstants.{MAX_PAGE_LEN};
ghost use Rattle.shop_commands.specs.Sinks.{Adds, AddsPrefix, IsWritten, SinkFailed, change_of};

use crate::faults::Fault;
use shop_files::MAX_TEXT_LEN;
use shop_text::{Sink, write_all};
use std::alloc::Global;
use std::fs::{File, Files};
use std::io::{self, Read};

/// The longest page, in bytes.
pub(crate) const MAX_PAGE_LEN: usize = 1_048_576;

/// Reads the files that the command line names.
pub trait Reads: Files {
    ghost use Rattle.std.specs.Prelude.{List, ℕ};

    /// Reading the file of this path with this limit may give these bytes: the whole file or, if it is longer, one byte
    /// more than the limit.
    ghost holds: { Self → List ℕ → ℕ → List ℕ → Type 0 };

    /// Reads a whole file, or, if it is longer than `most` bytes, its first `most` bytes and one more.
    fn read_first(&self, alloc: Global, path: &str, most: usize) -> io::Result<Vec<u8>>
        ensures { IfOk result (λ bytes. holds self.now path.now most bytes.items) };
}

impl Reads for HostRuntime {
    ghost holds = { λ _ _ _ _. Unit {0} };

    fn read_first(&self, alloc: Global, path: &str, most: usize) -> io::Result<Vec<u8>> {
        bytes_of(self, alloc, path, most)
    }
}

// Reads a whole file, or, if it is longer than `most` bytes, its first `most` bytes and one more.
fn bytes_of<R: Files>(rt: &R, alloc: Global, path: &str, most: usize) -> io::Result<Vec<u8>> {
    let mut bytes = Vec::new(alloc);
    let file = File::open(rt, path)?;
    let _count = file
        .take((most as u64).saturating_add(1))
        .read_to_end(&mut bytes)?;
    Ok(bytes)
}

// The same, with the fault that a command reports.
fn read_up_to<R: Reads>(rt: &R, alloc: Global, path: &str, most: usize) -> Result<Vec<u8>, Fault>
    ensures ok { IfOk result (λ bytes. R.holds rt.now path.now most bytes.items) }
    ensures err { IfErr result (λ f. (f ≡ fault.NoMemory) ⊎ (f ≡ fault.File)) }
{
    match rt.read_first(alloc, path, most) {
        Ok(bytes) => Ok(bytes),
        Err(error) if error.kind() == io::ErrorKind::OutOfMemory => Err(Fault::NoMemory),
        Err(_) => Err(Fault::File),
    }
}

/// A file's bytes, up to one more than the longest text that is read.
pub fn read_file<R: Reads>(rt: &R, alloc: Global, path: &str) -> Result<Vec<u8>, Fault>
    ensures ok { IfOk result (λ bytes. R.holds rt.now path.now MAX_TEXT_LEN bytes.items) }
    ensures err { IfErr result (λ f. (f ≡ fault.NoMemory) ⊎ (f ≡ fault.File)) }
{
    read_up_to(rt, alloc, path, MAX_TEXT_LEN)
}

/// The page in a file, of at most 1048576 bytes.
pub fn read_page<R: Reads>(rt: &R, alloc: Global, path: &str) -> Result<Vec<u8>, Fault>
    ensures ok { IfOk result (λ page. R.holds rt.now path.now MAX_PAGE_LEN page.items
        × (length page.items ≤ MAX_PAGE_LEN)) }
    ensures err { IfErr result (λ f. (f ≡ fault.NoMemory) ⊎ (f ≡ fault.File)) }
{
    let page = read_up_to(rt, alloc, path, MAX_PAGE_LEN)?;
    if page.len() > MAX_PAGE_LEN {
        return Err(Fault::File);
    }
    Ok(page)
}

/// Writes a text to the last byte. The only error is `Write`.
pub fn write_text<W: Sink>(sink: &mut W, text: &str) -> Result<(), Fault>
    ensures ok { OnOk result (Adds (change_of W.Sink sink.old sink.new) text.now) }
    ensures prefix { AddsPrefix (change_of W.Sink sink.old sink.new) text.now }
    ensures written { IsWritten (change_of W.Sink sink.old sink.new) text.now }
    ensures err { IfErr result
        (λ f. (f ≡ fault.Write) × SinkFailed (change_of W.Sink sink.old sink.new)) }
{
    match write_all(sink, text.as_bytes()) {
        Ok(()) => Ok(()),
        Err(_) => Err(Fault::Write),
    }
}
