//! Why a file, a store or a shop file can't be used, in words to act on, and the looks that find out. A look changes
//! nothing, except that the look at a full disk makes a file and removes it.
#![tactic(auto)]

mod causes;
mod looks;
mod notes;
mod printing;
mod shop_lines;

pub use causes::{
    BackupCause, FailureCause, FileCause, RowKey, RowName, ShopCause, StoreCause, StoreTable,
    VersionCause,
};
pub use looks::{backup_cause, is_disk_full, is_there, kind_cause, look_at_file, look_at_store};
pub use notes::{answer_note, backup_note, no_backup_note, reports_failure};
pub use printing::{has_control, printed_lines, printed_text};
pub use shop_lines::{ShopPlace, look_at_shop};
