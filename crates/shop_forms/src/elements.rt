//! Lists in JSON: what their elements stand for, and how their elements are written.

ghost use Rattle.std.specs.Prelude.{◌≡◌, IfOk, OnOk, All, Option, map, option_and_then};
ghost use Rattle.serde_json.specs.Data.{Data, array};
ghost use Rattle.serde_json.specs.View.{view, items_of};
ghost use Rattle.shop_forms.specs.Fields.{all_of, number_of as number_in, elements_at as elements_in};
ghost use Rattle.shop_forms.specs.Tokens.{AddsValue};

use crate::fields::{elements_at, number_of};
use cut_measure::RowList;
use json::Writer;
use serde_json::Value;
use std::alloc::{AllocError, Global};

/// What an element of a list stands for.
pub trait Read: Drop {
    /// What a value stands for, if anything.
    ghost meant: { Data → Option Self };

    /// Reads a value.
    fn read(value: &Value) -> Option<Self>
        ensures { result ≡ meant (view value.now) };
}

impl Read for u32 {
    ghost meant = { number_in };

    fn read(value: &Value) -> Option<u32> {
        number_of(value)
    }
}

// What all values stand for, where each stands for something.
fn read_all<T: Read>(alloc: Global, values: &[Value]) -> Result<Option<RowList<T>>, AllocError>
    ensures { IfOk result (λ rows. rows ≡ all_of T.meant (map view values.now)) }
{
    let mut rows = RowList::new(alloc);
    for value in values {
        let Some(row) = T::read(value) else {
            return Ok(None);
        };
        rows.push(row)?;
    }
    Ok(Some(rows))
}

/// What the elements of the list at a key stand for.
pub fn rows_at<T: Read>(
    alloc: Global,
    value: &Value,
    key: &str,
) -> Result<Option<RowList<T>>, AllocError>
    ensures { IfOk result (λ rows. rows
        ≡ option_and_then (all_of T.meant) (elements_in key.now (view value.now))) }
{
    match elements_at(value, key) {
        Some(values) => read_all(alloc, values),
        None => Ok(None),
    }
}

/// A row of a list, as it is reported: an object.
pub trait Listed {
    /// The object.
    ghost said: { Self → Data };

    /// Each of its numbers has 64 bits.
    ghost is_wide: { Self → Type 0 };

    /// Writes it.
    fn write(&self, alloc: Global, writer: &mut Writer) -> Result<(), AllocError>
        ensures value { OnOk result (AddsValue writer.old writer.new (said self.now)) }
        ensures wide { OnOk result (is_wide self.now) };
}

/// Writes a list of rows.
pub fn write_rows<T: Listed>(
    alloc: Global,
    writer: &mut Writer,
    rows: &[T],
) -> Result<(), AllocError>
    ensures value { OnOk result
        (AddsValue writer.old writer.new (array (items_of (map T.said rows.now)))) }
    ensures wide { OnOk result (All T.is_wide rows.now) }
{
    writer.begin_array()?;
    for row in rows {
        row.write(alloc, writer)?;
    }
    writer.end_array()?;
    Ok(())
}
