//! What lasts as long as a program runs: the long texts, the entries and where the work on jobs halted, in memory.

ghost use Rattle.std.specs.Prelude.{◌≡◌, ◌<◌, IsTrue, OnOk, OnErr, IfOk, IsSome, IfErr};
ghost use Rattle.std.specs.FinMap.{is_sorted};
ghost use Rattle.std.specs.Ordering.{nat_cmp};
ghost use Rattle.cut_measure.specs.Codes.{code_cmp};
ghost use Rattle.shop_records.specs.Content.{message_id_cmp};
ghost use Rattle.shop_rows.specs.Keys.{entry_key, halt_key, import_key};
ghost use Rattle.shop_rows.specs.Rows.{rise};
ghost use Rattle.shop_book.specs.FiledEntries.{AreEntriesFiled};

use crate::keeping::KeptText;
use crate::number_index::NumberIndex;
use shop_records::{Entry, ImportRow, JobHalt, MessageId};
use std::alloc::Global;
use std::collections::BTreeMap;

/// A storage in memory, which leaves nothing when it ends.
#[derive(Drop)]
pub struct MemStorage {
    pub(crate) alloc: Global,
    pub(crate) kept: BTreeMap<MessageId, KeptText>,
    pub(crate) imports: Vec<ImportRow>,
    pub(crate) halts: Vec<JobHalt>,
    pub(crate) entries: Vec<Entry>,
    pub(crate) index: NumberIndex,
    ghost kept_rise: { IsTrue (is_sorted message_id_cmp kept.entries) },
    ghost imports_rise: { IsTrue (rise import_key code_cmp imports.items) },
    ghost halts_rise: { IsTrue (rise halt_key nat_cmp halts.items) },
    ghost entries_rise: { IsTrue (rise entry_key nat_cmp entries.items) },
    ghost filed: { AreEntriesFiled index entries.items },
}
