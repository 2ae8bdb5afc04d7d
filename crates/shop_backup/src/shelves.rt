//! Where backups are made, and the steps in which they are.

ghost use Rattle.std.specs.Prelude.{◌≡◌, ◌≤◌, ◌∷◌, [], ℕ, List, Option, All, IfOk, IsSome, IsTrue, OnErr, OnOk, Some, false};
ghost use Rattle.shop_backup.specs.Steps.{Adds, BackupStep, cleared, finished, greatest, kept, listed, looked, made, stayed, taken};

use crate::faults::BackupFault;
use shop_advice::BackupCause;
use shop_streams::{Sink, Source};

/// A file of a store: that of its database, or its log.
#[derive(Clone, Copy, Debug, PartialEq, Eq)]
pub enum StoreFile {
    Store,
    Log,
}

/// The numbers of all folders named as a backup, complete or not, and those of the complete ones.
#[derive(Drop)]
pub struct Numbers {
    pub all: Vec<u32>,
    pub whole: Vec<u32>,
}

/// A place where backups of a store are made, each under a number.
pub trait BackupTarget<S: Source, W: Sink> {
    ghost use Rattle.shop_backup.specs.declared.shelves.StoreFile.{StoreFile};

    /// The steps done so far, if they are known.
    ghost done: { Self → Option (List BackupStep) };

    /// The bytes of a file of the store, if it is known what was done.
    ghost holds: { Self → StoreFile → List ℕ };

    /// Checks that this is the place of the start, where nobody but its owner may write.
    fn look(&mut self) -> Result<(), BackupFault>
        ensures holds { holds self.new ≡ holds self.old }
        ensures ok { OnOk result (Adds (done self.old) (done self.new) (looked ∷ [])) }
        ensures err { OnErr result (done self.new ≡ done self.old) };

    /// The numbers of the backups that are there.
    fn list(&mut self) -> Result<Numbers, BackupFault>
        ensures holds { holds self.new ≡ holds self.old }
        ensures ok { IfOk result (λ numbers. Adds (done self.old) (done self.new)
            (listed numbers.all.items numbers.whole.items ∷ [])) }
        ensures within { IfOk result (λ numbers. IsSome (done self.old)
            → All (λ n. n ≤ greatest numbers.all.items) numbers.whole.items) }
        ensures err { OnErr result (done self.new ≡ done self.old) };

    /// Begins the backup of a number that isn't there.
    fn begin(&mut self, number: u32) -> Result<(), BackupFault>
        ensures holds { holds self.new ≡ holds self.old }
        ensures ok { OnOk result (Adds (done self.old) (done self.new) (made number ∷ [])) }
        ensures err { OnErr result (done self.new ≡ done self.old) };

    /// A file of the store, read from its first byte on.
    fn source(&mut self, which: StoreFile) -> Result<S, BackupFault>
        ensures holds { holds self.new ≡ holds self.old }
        ensures done { done self.new ≡ done self.old }
        ensures left { IfOk result
            (λ source. IsSome (done self.old) → S.left source ≡ Some (holds self.old which)) };

    /// A new, empty file of the backup that was begun.
    fn sink(&mut self, number: u32, which: StoreFile) -> Result<W, BackupFault>
        ensures holds { holds self.new ≡ holds self.old }
        ensures done { done self.new ≡ done self.old }
        ensures empty { IfOk result (λ sink. IsSome (done self.old) → W.held sink ≡ Some []) };

    /// Why a file couldn't be written.
    fn cause(&self, sink: &W) -> BackupCause;

    /// Syncs a file of the backup, as it was written.
    fn keep(&mut self, number: u32, which: StoreFile, sink: W) -> Result<(), BackupFault>
        ensures holds { holds self.new ≡ holds self.old }
        ensures ok { OnOk result ((bytes : List ℕ) → W.held sink ≡ Some bytes
            → Adds (done self.old) (done self.new) (kept number which bytes ∷ [])) }
        ensures err { OnErr result (done self.new ≡ done self.old) };

    /// Gives the backup its name, once its files are synced, and syncs that.
    fn finish(&mut self, number: u32) -> Result<(), BackupFault>
        ensures holds { holds self.new ≡ holds self.old }
        ensures ok { OnOk result (Adds (done self.old) (done self.new) (finished number ∷ [])) }
        ensures err { OnErr result (done self.new ≡ done self.old) };

    /// Removes what was made of an incomplete backup, as far as that is possible.
    fn clear(&mut self, number: u32)
        ensures holds { holds self.new ≡ holds self.old }
        ensures cleared { Adds (done self.old) (done self.new) (cleared number ∷ []) };

    /// Removes a complete backup if it holds its two files and nothing else, and returns whether it did.
    fn take_away(&mut self, number: u32) -> bool
        ensures gone { IsTrue result → Adds (done self.old) (done self.new) (taken number ∷ []) }
        ensures stays { result ≡ false → done self.new ≡ done self.old };

    /// Has it logged that a backup couldn't be removed.
    fn stay(&mut self, number: u32)
        ensures { Adds (done self.old) (done self.new) (stayed number ∷ []) };
}
