//! Under which keys numbers are filed: a number, a code or a name, and then the filed number.

ghost use Rattle.std.specs.Prelude.{◌≡◌};
ghost use Rattle.shop_book.specs.Filing.{code_at, number_at, start_after, name_at};

use cut_measure::{Code, PartName};
use std::cmp::Ordering;
use std::ops::Bound;

/// A number that is filed under a number.
#[derive(Clone, Copy, Debug, PartialEq, Eq, PartialOrd, Ord)]
pub struct NumberKey {
    pub(crate) under: u32,
    pub(crate) number: u32,
}

/// A number that is filed under a code.
#[derive(Clone, Copy, Debug)]
pub struct CodeKey {
    pub(crate) under: Code,
    pub(crate) number: u32,
}

/// A number that is filed under a name.
#[derive(Clone, Copy, Debug)]
pub struct NameKey {
    pub(crate) under: PartName,
    pub(crate) number: u32,
}

impl NumberKey {
    /// After the last number, or from the first one on.
    pub(crate) fn after(under: u32, last: Option<u32>) -> Bound<NumberKey>
        ensures { result ≡ start_after (number_at under) last }
    {
        match last {
            None => Bound::Included(NumberKey { under, number: 0 }),
            Some(number) => Bound::Excluded(NumberKey { under, number }),
        }
    }
}

impl CodeKey {
    /// After the last number, or from the first one on.
    pub(crate) fn after(under: Code, last: Option<u32>) -> Bound<CodeKey>
        ensures { result ≡ start_after (code_at under) last }
    {
        match last {
            None => Bound::Included(CodeKey { under, number: 0 }),
            Some(number) => Bound::Excluded(CodeKey { under, number }),
        }
    }
}

impl NameKey {
    /// After the last number, or from the first one on.
    pub(crate) fn after(under: PartName, last: Option<u32>) -> Bound<NameKey>
        ensures { result ≡ start_after (name_at under) last }
    {
        match last {
            None => Bound::Included(NameKey { under, number: 0 }),
            Some(number) => Bound::Excluded(NameKey { under, number }),
        }
    }
}

impl PartialEq for CodeKey {
    ghost use Rattle.std.specs.Cmp.{eq_by_cmp_equiv, partial_equiv_from_equiv};
    ghost use Rattle.std.specs.Ordering.{eq_by_cmp};
    ghost use Rattle.shop_book.specs.Filing.{code_key_cmp, code_keys_total};

    ghost eq = { eq_by_cmp code_key_cmp };

    ghost laws = { partial_equiv_from_equiv (eq_by_cmp_equiv code_keys_total) };

    fn eq(&self, other: &CodeKey) -> bool {
        self.cmp(other).is_eq()
    }
}

impl Eq for CodeKey {
    ghost use Rattle.std.specs.Cmp.{eq_by_cmp_equiv};
    ghost use Rattle.shop_book.specs.Filing.{code_keys_total};

    ghost laws = { eq_by_cmp_equiv code_keys_total };
}

impl PartialOrd for CodeKey {
    ghost use Rattle.std.specs.Cmp.{partial_order_from_total};
    ghost use Rattle.std.specs.Ordering.{as_partial_cmp};
    ghost use Rattle.shop_book.specs.Filing.{code_key_cmp, code_keys_total};

    ghost partial_cmp = { as_partial_cmp code_key_cmp };

    ghost laws = { partial_order_from_total code_keys_total };

    fn partial_cmp(&self, other: &CodeKey) -> Option<Ordering> {
        Some(self.cmp(other))
    }
}

impl Ord for CodeKey {
    ghost use Rattle.std.proofs.Common.{refl};
    ghost use Rattle.shop_book.specs.Filing.{code_key_cmp, code_keys_total};

    ghost cmp = { code_key_cmp };

    ghost total = { code_keys_total };

    ghost matches_partial_cmp = { λ a b. refl };

    ghost matches_eq = { λ a b. refl };

    fn cmp(&self, other: &CodeKey) -> Ordering {
        self.under
            .order(&other.under)
            .then(self.number.cmp(&other.number))
    }
}

impl PartialEq for NameKey {
    ghost use Rattle.std.specs.Cmp.{eq_by_cmp_equiv, partial_equiv_from_equiv};
    ghost use Rattle.std.specs.Ordering.{eq_by_cmp};
    ghost use Rattle.shop_book.specs.Filing.{name_key_cmp, name_keys_total};

    ghost eq = { eq_by_cmp name_key_cmp };

    ghost laws = { partial_equiv_from_equiv (eq_by_cmp_equiv name_keys_total) };

    fn eq(&self, other: &NameKey) -> bool {
        self.cmp(other).is_eq()
    }
}

impl Eq for NameKey {
    ghost use Rattle.std.specs.Cmp.{eq_by_cmp_equiv};
    ghost use Rattle.shop_book.specs.Filing.{name_keys_total};

    ghost laws = { eq_by_cmp_equiv name_keys_total };
}

impl PartialOrd for NameKey {
    ghost use Rattle.std.specs.Cmp.{partial_order_from_total};
    ghost use Rattle.std.specs.Ordering.{as_partial_cmp};
    ghost use Rattle.shop_book.specs.Filing.{name_key_cmp, name_keys_total};

    ghost partial_cmp = { as_partial_cmp name_key_cmp };

    ghost laws = { partial_order_from_total name_keys_total };

    fn partial_cmp(&self, other: &NameKey) -> Option<Ordering> {
        Some(self.cmp(other))
    }
}

impl Ord for NameKey {
    ghost use Rattle.std.proofs.Common.{refl};
    ghost use Rattle.shop_book.specs.Filing.{name_key_cmp, name_keys_total};

    ghost cmp = { name_key_cmp };

    ghost total = { name_keys_total };

    ghost matches_partial_cmp = { λ a b. refl };

    ghost matches_eq = { λ a b. refl };

    fn cmp(&self, other: &NameKey) -> Ordering {
        self.under
            .order(&other.under)
            .then(self.number.cmp(&other.number))
    }
}
