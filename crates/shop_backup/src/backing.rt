//! The steps of a backup, over any place for it.

ghost use Rattle.std.specs.Prelude.{◌≡◌, ◌∷◌, ◌++◌, [], ℕ, List, Ok, true, false, All, ◌≤◌, IfOk, IfSome, IsSome, OnErr, OnOk};
ghost use Rattle.std.specs.Io.KnownBytes.{Appends, Consumes, IsAtEnd};
ghost use Rattle.shop_backup.specs.Steps.{Adds, ArePassed, BackupStep, IsAllBut, IsBackupMade, IsBegun, IsNoBackupMade, IsOld, IsPart, IsPassing, IsUnbegun, begins, finished, greatest, kept, made, next_number};
ghost use Rattle.shop_backup.specs.declared.shelves.StoreFile.TheVariants.{Store, Log};

use crate::faults::BackupFault;
use crate::shelves::{BackupTarget, Numbers, StoreFile};
use shop_advice::BackupCause;
use shop_streams::{Sink, Source, write_all};
use std::alloc::AllocError;

// How many bytes are in memory at once.
const BUFFER_SIZE: usize = 65536;

/// The greatest number of a backup.
pub const MAX_BACKUPS: u32 = 1_000_000;

// Why not all bytes were copied.
#[derive(Clone, Copy, PartialEq, Eq)]
pub(crate) enum CopyFault {
    Read,
    Write,
}

// Copies a piece of what is left of a source, and reports whether there was one.
fn copy_piece<S: Source, W: Sink>(source: &mut S, sink: &mut W) -> Result<bool, CopyFault>
    ensures more { result ≡ Ok true → (piece : List ℕ)
        × Consumes (S.left source.old) (S.left source.new) piece
        × Appends (W.held sink.old) (W.held sink.new) piece }
    ensures end { result ≡ Ok false → Consumes (S.left source.old) (S.left source.new) []
        × IsAtEnd (S.left source.new) × (W.held sink.new ≡ W.held sink.old) }
{
    let mut buffer = [0; BUFFER_SIZE];
    let Ok(count) = source.read(&mut buffer) else {
        return Err(CopyFault::Read);
    };
    if count == 0 {
        return Ok(false);
    }
    match write_all(sink, &buffer[..count]) {
        Ok(()) => Ok(true),
        Err(_) => Err(CopyFault::Write),
    }
}

// Copies all that is left of a source, in pieces.
pub(crate) fn copy_all<S: Source, W: Sink>(source: &mut S, sink: &mut W) -> Result<(), CopyFault>
    ensures { OnOk result (IfSome (S.left source.old)
        (λ bytes. Appends (W.held sink.old) (W.held sink.new) bytes)) }
{
    for _ in 0..u64::MAX {
        if !copy_piece(source, sink)? {
            return Ok(());
        }
    }
    Err(CopyFault::Read)
}

// Copies a file of the store to the backup that was begun.
fn copy_half<S: Source + Drop, W: Sink + Drop, T: BackupTarget<S, W>>(
    target: &mut T,
    number: u32,
    which: StoreFile,
) -> Result<(), BackupFault>
    ensures holds { T.holds target.new ≡ T.holds target.old }
    ensures ok { OnOk result (Adds (T.done target.old) (T.done target.new)
        (kept number which (T.holds target.old which) ∷ [])) }
    ensures err { OnErr result (T.done target.new ≡ T.done target.old) }
{
    let mut from = target.source(which)?;
    let mut to = target.sink(number, which)?;
    match copy_all(&mut from, &mut to) {
        Ok(()) => target.keep(number, which, to),
        Err(CopyFault::Read) => Err(BackupFault::Failed(BackupCause::Unread)),
        Err(CopyFault::Write) => Err(BackupFault::Failed(target.cause(&to))),
    }
}

// Copies both files to the backup that was begun, and gives it its name.
fn fill<S: Source + Drop, W: Sink + Drop, T: BackupTarget<S, W>>(
    target: &mut T,
    number: u32,
) -> Result<(), BackupFault>
    ensures holds { T.holds target.new ≡ T.holds target.old }
    ensures ok { OnOk result (Adds (T.done target.old) (T.done target.new)
        (kept number Store (T.holds target.old Store) ∷ kept number Log (T.holds target.old Log)
        ∷ finished number ∷ [])) }
    ensures err { OnErr result ((part : List BackupStep) × IsPart (T.holds target.old) number part
        × Adds (T.done target.old) (T.done target.new) part) }
{
    copy_half(target, number, StoreFile::Store)?;
    copy_half(target, number, StoreFile::Log)?;
    target.finish(number)
}

// The greatest of these numbers, or 0 where there is none.
fn greatest_of(numbers: &[u32]) -> u32
    ensures { result ≡ greatest numbers.now }
{
    let mut greatest = 0;
    for number in numbers {
        if *number > greatest {
            greatest = *number;
        }
    }
    greatest
}

// Begins the backup of the number behind these.
fn begin_behind<S: Source, W: Sink, T: BackupTarget<S, W>>(
    target: &mut T,
    there: &[u32],
) -> Result<u32, BackupFault>
    ensures holds { T.holds target.new ≡ T.holds target.old }
    ensures ok { IfOk result (λ number. (number ≡ next_number there.now)
        × Adds (T.done target.old) (T.done target.new) (made number ∷ [])) }
    ensures err { OnErr result (T.done target.new ≡ T.done target.old) }
{
    let before = greatest_of(there);
    if before >= MAX_BACKUPS {
        return Err(BackupFault::Failed(BackupCause::NoNumber));
    }
    let number = before + 1;
    target.begin(number)?;
    Ok(number)
}

// These numbers without the greatest, of which so many are left out.
fn all_but(newest: usize, mut numbers: Vec<u32>) -> Result<Vec<u32>, AllocError>
    ensures { IfOk result (λ old. IsAllBut newest numbers.items old.items) }
{
    numbers.sort()?;
    let count = numbers.len().saturating_sub(newest);
    numbers.truncate(count);
    Ok(numbers)
}

// Those of the whole backups that were there which are to be taken away, once one more is made of which so many are kept.
fn old_of(keep: Option<u32>, wholes: Vec<u32>) -> Result<Vec<u32>, AllocError>
    ensures { IfOk result (λ old. IsOld keep wholes.items old.items) }
{
    match keep {
        Some(keep) => all_but((keep as usize).saturating_sub(1), wholes),
        None => {
            let mut none = wholes;
            none.clear();
            Ok(none)
        }
    }
}

// A backup that was begun: its number, and those that are to be taken away once it is whole.
#[derive(Drop)]
struct Begun {
    number: u32,
    old: Vec<u32>,
}

// Begins the backup of the next number beside these.
fn begin_beside<S: Source, W: Sink, T: BackupTarget<S, W>>(
    target: &mut T,
    keep: Option<u32>,
    there: Numbers,
) -> Result<Begun, BackupFault>
    ensures holds { T.holds target.new ≡ T.holds target.old }
    ensures ok { IfOk result (λ begun. (begun.number ≡ next_number there.all.items)
        × IsOld keep there.whole.items begun.old.items
        × Adds (T.done target.old) (T.done target.new) (made begun.number ∷ [])) }
    ensures err { OnErr result (T.done target.new ≡ T.done target.old) }
{
    let old = old_of(keep, there.whole)?;
    let number = begin_behind(target, &there.all)?;
    Ok(Begun { number, old })
}

// Begins the backup of the next number, in the folder of the start.
fn begin_next<S: Source, W: Sink, T: BackupTarget<S, W>>(
    target: &mut T,
    keep: Option<u32>,
) -> Result<Begun, BackupFault>
    ensures holds { T.holds target.new ≡ T.holds target.old }
    ensures ok { IfOk result (λ begun. IsBegun keep (T.done target.old) (T.done target.new)
        begun.number begun.old.items) }
    ensures err { OnErr result ((steps : List BackupStep) × IsUnbegun steps
        × Adds (T.done target.old) (T.done target.new) steps) }
{
    target.look()?;
    let there = target.list()?;
    let begun = begin_beside(target, keep, there)?;
    Ok(begun)
}

// Takes one backup away, or has it reported that it stays.
fn pass<S: Source, W: Sink, T: BackupTarget<S, W>>(target: &mut T, number: u32)
    ensures { (step : BackupStep) × IsPassing number step
        × Adds (T.done target.old) (T.done target.new) (step ∷ []) }
{
    if !target.take_away(number) {
        target.stay(number);
    }
}

// Takes these backups away, as far as that goes.
fn pass_all<S: Source, W: Sink, T: BackupTarget<S, W>>(target: &mut T, old: &[u32])
    ensures { (steps : List BackupStep) × ArePassed old.now steps
        × Adds (T.done target.old) (T.done target.new) steps }
{
    for number in old {
        pass(target, *number);
    }
}

/// Makes a backup under the number after the greatest one there, complete or not, from 1 on, and returns the number. It
/// makes none if the place isn't the one of the start, or if others may write in it.
///
/// After an `Ok` both files were copied whole and synced before the backup got its name, and that is synced, too. With
/// `keep`, older complete backups were then removed, except the newest, so that `keep` stay together with this one; the
/// place reports each that couldn't be removed. An `Err` is lack of memory, or what hindered the backup: no backup has
/// a name, what was made of it was removed, and no older one was. At most 64 KiB of the files are in memory at once.
pub fn back_up<S: Source + Drop, W: Sink + Drop, T: BackupTarget<S, W>>(
    target: &mut T,
    keep: Option<u32>,
) -> Result<u32, BackupFault>
    ensures ok { IfOk result
        (IsBackupMade keep (T.holds target.old) (T.done target.old) (T.done target.new)) }
    ensures err { OnErr result
        (IsNoBackupMade (T.holds target.old) (T.done target.old) (T.done target.new)) }
{
    let begun = begin_next(target, keep)?;
    match fill(target, begun.number) {
        Ok(()) => {
            pass_all(target, &begun.old);
            Ok(begun.number)
        }
        Err(fault) => {
            target.clear(begun.number);
            Err(fault)
        }
    }
}
