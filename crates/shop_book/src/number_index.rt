//! An index of numbers: of the acts that made pieces, of jobs, or of entries.

ghost use Rattle.std.specs.Prelude.{◌≡◌, ◌≤◌, ℕ, IfOk, IfSome, IsTrue, OnOk};
ghost use Rattle.std.specs.BTreeSet.{contains};
ghost use Rattle.std.specs.Option.{IsSomeAnd};
ghost use Rattle.shop_book.specs.Filing.{is_filed_for, is_filed_in, is_filed_of, IsLeast, PassesNone, StaysFiled};

use crate::index_keys::{CodeKey, NameKey, NumberKey};
use cut_measure::{Code, PartName};
use std::alloc::{AllocError, Global};
use std::collections::BTreeSet;
use std::ops::Bound;

/// Numbers that are filed under a number, a code or a name. It may have some that are asked for no more; a question looks at what
/// each stands for.
#[derive(Drop)]
pub struct NumberIndex {
    pub(crate) numbers: BTreeSet<NumberKey>,
    pub(crate) codes: BTreeSet<CodeKey>,
    pub(crate) names: BTreeSet<NameKey>,
}

// Puts a key into a set, where it may be already.
fn add<K: Ord + Copy + Drop>(set: &mut BTreeSet<K>, key: K) -> Result<(), AllocError>
    ensures there { OnOk result (IsTrue (contains K.cmp set.new key)) }
    ensures stay { (other : K) → IsTrue (contains K.cmp set.old other)
        → IsTrue (contains K.cmp set.new other) }
{
    set.insert(key)?;
    Ok(())
}

// The least key of a set from a start on.
fn least<K: Ord + Copy + Drop>(set: &BTreeSet<K>, start: Bound<K>) -> Option<K>
    ensures { IsLeast K.cmp start set.now result }
{
    match set.range((start, Bound::Unbounded)).next() {
        Some(key) => Some(*key),
        None => None,
    }
}

/// The lesser one of two numbers.
pub(crate) fn lesser(a: Option<u32>, b: Option<u32>) -> Option<u32>
    ensures first { (number : ℕ) → IsSomeAnd a (λ x. x ≤ number)
        → IsSomeAnd result (λ x. x ≤ number) }
    ensures second { (number : ℕ) → IsSomeAnd b (λ x. x ≤ number)
        → IsSomeAnd result (λ x. x ≤ number) }
    ensures left { (from : ℕ) → IfSome a (λ x. from ≤ x) → IfSome b (λ x. from ≤ x)
        → IfSome result (λ x. from ≤ x) }
{
    match (a, b) {
        (Some(a), Some(b)) => Some(a.min(b)),
        (Some(a), None) => Some(a),
        (None, b) => b,
    }
}

impl NumberIndex {
    /// With nothing filed.
    pub fn new(alloc: Global) -> NumberIndex {
        NumberIndex {
            numbers: BTreeSet::new(alloc),
            codes: BTreeSet::new(alloc),
            names: BTreeSet::new(alloc),
        }
    }

    /// With the same numbers filed.
    pub(crate) fn copy(&self) -> Result<NumberIndex, AllocError>
        ensures { IfOk result (λ copy. StaysFiled self.now copy) }
    {
        let numbers = self.numbers.clone()?;
        let codes = self.codes.clone()?;
        let names = self.names.clone()?;
        Ok(NumberIndex {
            numbers,
            codes,
            names,
        })
    }

    /// Files a number under a number.
    pub(crate) fn file_for(&mut self, under: u32, number: u32) -> Result<(), AllocError>
        ensures filed { OnOk result (IsTrue (is_filed_for self.new under number)) }
        ensures stays { StaysFiled self.old self.new }
    {
        add(&mut self.numbers, NumberKey { under, number })
    }

    /// Files a number under a code.
    pub(crate) fn file_of(&mut self, under: Code, number: u32) -> Result<(), AllocError>
        ensures filed { OnOk result (IsTrue (is_filed_of self.new under number)) }
        ensures stays { StaysFiled self.old self.new }
    {
        add(&mut self.codes, CodeKey { under, number })
    }

    /// Files a number under a name.
    pub(crate) fn file_in(&mut self, under: PartName, number: u32) -> Result<(), AllocError>
        ensures filed { OnOk result (IsTrue (is_filed_in self.new under number)) }
        ensures stays { StaysFiled self.old self.new }
    {
        add(&mut self.names, NameKey { under, number })
    }

    /// The first number after the last one that is filed under a number.
    pub(crate) fn next_for(&self, under: u32, last: Option<u32>) -> Option<u32>
        ensures { PassesNone (λ number. IsTrue (is_filed_for self.now under number)) last result }
    {
        let key = least(&self.numbers, NumberKey::after(under, last))?;
        if key.under == under {
            Some(key.number)
        } else {
            None
        }
    }

    /// The first number after the last one that is filed under a code.
    pub(crate) fn next_of(&self, under: Code, last: Option<u32>) -> Option<u32>
        ensures { PassesNone (λ number. IsTrue (is_filed_of self.now under number)) last result }
    {
        let key = least(&self.codes, CodeKey::after(under, last))?;
        if key.under.is(&under) {
            Some(key.number)
        } else {
            None
        }
    }

    /// The first number after the last one that is filed under a name.
    pub(crate) fn next_in(&self, under: PartName, last: Option<u32>) -> Option<u32>
        ensures { PassesNone (λ number. IsTrue (is_filed_in self.now under number)) last result }
    {
        let key = least(&self.names, NameKey::after(under, last))?;
        if key.under.order(&under).is_eq() {
            Some(key.number)
        } else {
            None
        }
    }
}
