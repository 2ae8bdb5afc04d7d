//! The index of entries: under their job or their act, their order and their part.

ghost use Rattle.std.specs.Prelude.{◌≡◌, [], ◌∷◌, ◌<◌, IfSome, IsTrue, List, OnOk, Some};
ghost use Rattle.std.specs.Option.{option_to_list};
ghost use Rattle.shop_records.specs.declared.journal.Entry.{Entry as EntryOf};
ghost use Rattle.shop_book.specs.FiledEntries.{filed_number, AreEntriesFiled, IsNamedIn, IsUnderAny, IsUnderSome, SkipsNone};
ghost use Rattle.shop_book.specs.Filing.{is_filed_in, is_filed_of, PassesNone, StaysFiled};

use crate::number_index::{NumberIndex, lesser};
use cut_measure::{Code, PartName};
use shop_records::{Entry, Subject};
use std::alloc::AllocError;

/// The number under which entries from there on are filed.
const LAST_NUMBER: u64 = 4294967295;

// The number under which an entry is filed.
fn filed_number(number: u64) -> u32
    ensures { result ≡ filed_number number }
{
    number.min(LAST_NUMBER) as u32
}

impl NumberIndex {
    // Files a number under another one, unless this is 0.
    fn file_for_some(&mut self, under: u32, number: u32) -> Result<(), AllocError>
        ensures filed { OnOk result (IsUnderSome self.new under number) }
        ensures stays { StaysFiled self.old self.new }
    {
        if under == 0 {
            return Ok(());
        }
        self.file_for(under, number)
    }

    // Files a number under a code, if there is one.
    fn file_of_order(&mut self, order: &Option<Code>, number: u32) -> Result<(), AllocError>
        ensures filed { OnOk result
            (IfSome order.now (λ code. IsTrue (is_filed_of self.new code number))) }
        ensures stays { StaysFiled self.old self.new }
    {
        match order {
            Some(code) => self.file_of(*code, number),
            None => Ok(()),
        }
    }

    // Files a number under a name, if there is one.
    fn file_in_part(&mut self, part: Option<PartName>, number: u32) -> Result<(), AllocError>
        ensures filed { OnOk result
            (IfSome part (λ name. IsTrue (is_filed_in self.new name number))) }
        ensures stays { StaysFiled self.old self.new }
    {
        match part {
            Some(name) => self.file_in(name, number),
            None => Ok(()),
        }
    }

    // Files an entry.
    fn file_entry(&mut self, entry: &Entry) -> Result<(), AllocError>
        ensures filed { OnOk result (AreEntriesFiled self.new (entry.now ∷ [])) }
        ensures stays { StaysFiled self.old self.new }
    {
        let number = filed_number(entry.number);
        self.file_for_some(entry.job, number)?;
        self.file_for_some(entry.act, number)?;
        self.file_of_order(&entry.order, number)?;
        self.file_in_part(entry.part, number)
    }

    /// Files entries.
    pub fn file_entries(&mut self, entries: &[Entry]) -> Result<(), AllocError>
        ensures filed { OnOk result (AreEntriesFiled self.new entries.now) }
        ensures stays { StaysFiled self.old self.new }
    {
        for entry in entries {
            self.file_entry(entry)?;
        }
        Ok(())
    }

    /// Files an entry, if there is one.
    pub fn file_new_entry(&mut self, entry: &Option<Entry>) -> Result<(), AllocError>
        ensures filed { OnOk result (AreEntriesFiled self.new (option_to_list entry.now)) }
        ensures stays { StaysFiled self.old self.new }
    {
        match entry {
            Some(entry) => self.file_entry(entry),
            None => Ok(()),
        }
    }

    // The first number after the last one that is filed under the code of an order or the name of a part.
    fn next_named(&self, about: &Subject, last: u32) -> Option<u32>
        ensures { PassesNone (IsNamedIn self.now about.now) (Some last) result }
    {
        match about {
            Subject::Order(code) => self.next_of(*code, Some(last)),
            Subject::Job(_) => None,
            Subject::Part(name) => self.next_in(*name, Some(last)),
        }
    }

    // The first number after the last one that is filed under a number; under 0 it may be each.
    fn next_for_some(&self, under: u32, last: u32) -> Option<u32>
        requires { last < 4294967295 }
        ensures { PassesNone (IsUnderSome self.now under) (Some last) result }
    {
        if under == 0 {
            return Some(last + 1);
        }
        self.next_for(under, Some(last))
    }

    // The first number after the last one that is filed under one of these.
    fn next_for_any(&self, acts: &[u32], last: u32) -> Option<u32>
        requires { last < 4294967295 }
        ensures { PassesNone (IsUnderAny self.now acts.now) (Some last) result }
    {
        let mut first = None;
        for act in acts {
            first = lesser(first, self.next_for_some(*act, last));
        }
        first
    }

    // The first number after the last one that is filed under what a story is about, or under one of these acts.
    fn next_number(&self, about: &Subject, acts: &[u32], last: u32) -> Option<u32>
        requires { last < 4294967295 }
        ensures named { PassesNone (IsNamedIn self.now about.now) (Some last) result }
        ensures worked { PassesNone (IsUnderAny self.now acts.now) (Some last) result }
    {
        lesser(self.next_named(about, last), self.next_for_any(acts, last))
    }

    /// Behind which number the entries go on that have the code of an order, the name of a part, or one of these jobs or acts.
    pub fn next_about(&self, about: &Subject, acts: &[u32], after: u64) -> Option<u64>
        ensures { (entries : List EntryOf) → AreEntriesFiled self.now entries
            → SkipsNone entries about.now acts.now after result }
    {
        if LAST_NUMBER <= after {
            return Some(after);
        }
        match self.next_number(about, acts, after as u32) {
            Some(number) => Some(number as u64 - 1),
            None => None,
        }
    }
}
