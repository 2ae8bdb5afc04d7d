//! A backup that was made, and what is reported about older ones that should have been removed.

ghost use Rattle.std.specs.Prelude.{◌≡◌, IfOk, string_bytes};
ghost use Rattle.shop_backup.specs.Notes as spec;

use std::alloc::{AllocError, Global};

/// A backup that was made: its number, and the numbers of older ones that should have been removed and couldn't be,
/// rising. If memory runs out for that list, some of them are missing in it.
#[derive(Drop)]
pub struct Made {
    pub number: u32,
    pub stayed: Vec<u32>,
}

/// The report about an older backup that should have been removed from a folder and couldn't be.
pub fn stayed_note(alloc: Global, number: u32, folder: &str) -> Result<String, AllocError>
    ensures { IfOk result (λ note. string_bytes note ≡ spec.stayed_note number folder.now) }
{
    format!(in alloc;
        "cutshop: backup {number} in {folder} wasn't taken away; look what is in it\n"
    )
}
