//! Lines about sizes, limits, codes, names, numbers and lengths.

use anyhow::{Context, Error, Result};
use cut_measure::{Code, Kind, Limits, PartName, Size, read_mm, read_number, write_mm};
use std::alloc::Global;

/// The size of two sides, where a unit of the kind may have them.
pub fn size_reported(alloc: Global, kind: Kind, w: u32, h: u32) -> Result<String> {
    let Some(size) = Size::new(kind, w, h) else {
        return Ok(String::from_str(alloc, "no size")?);
    };
    let (w, h, cells) = (size.w(), size.h(), size.cells());
    Ok(format!(in alloc; "{w} by {h}, {cells} cells")?)
}

/// A kerf and the sides that a remnant has at least, where a material of the kind may have them.
pub fn limits_reported(
    alloc: Global,
    kind: Kind,
    kerf: u32,
    long: u32,
    short: u32,
) -> Result<String> {
    let Some(limits) = Limits::new(kind, kerf, long, short) else {
        return Ok(String::from_str(alloc, "no limits")?);
    };
    let (kerf, long, short) = (limits.kerf(), limits.min_long(), limits.min_short());
    Ok(format!(in alloc; "kerf {kerf}, long {long}, short {short}")?)
}

/// Whether limits of a sheet with a kerf of 1 keep a sheet.
pub fn kept_reported(alloc: Global, long: u32, short: u32, w: u32, h: u32) -> Result<String> {
    let limits = Limits::new(Kind::Sheet, 1, long, short).context("no limits")?;
    let size = Size::new(Kind::Sheet, w, h).context("no size")?;
    let kept = limits.keeps(size);
    Ok(format!(in alloc; "{kept}")?)
}

/// The code of a text, which is what the code is read as and written as.
pub fn code_reported(alloc: Global, text: &str) -> Result<String> {
    let Some(code) = Code::read(text) else {
        return Ok(String::from_str(alloc, "no code")?);
    };
    let mut written = String::from_str(alloc, "=")?;
    code.write(&mut written)?;
    if code.as_str() != text {
        return Err(Error::msg("the code reads otherwise"));
    }
    Ok(written)
}

/// How two codes stand to each other.
pub fn codes_reported(alloc: Global, text: &str) -> Result<String> {
    let (first, second) = text.split_once(' ').unwrap_or((text, ""));
    let first = Code::read(first).context("no code")?;
    let second = Code::read(second).context("no code")?;
    let (same, order) = (first.is(&second), first.order(&second));
    Ok(format!(in alloc; "same {same}, {order:?}")?)
}

/// The name of a part that a text names, and the text that it is written as.
pub fn part_reported(alloc: Global, text: &str) -> Result<String> {
    let Some(name) = PartName::read(text) else {
        return Ok(String::from_str(alloc, "no part")?);
    };
    let (act, node) = (name.act(), name.node());
    let mut reported = format!(in alloc; "act {act}, node {node} =")?;
    name.write(&mut reported)?;
    Ok(reported)
}

/// How two parts are ordered.
pub fn parts_reported(alloc: Global, text: &str) -> Result<String> {
    let (first, second) = text.split_once(' ').unwrap_or((text, ""));
    let first = PartName::read(first).context("no part")?;
    let second = PartName::read(second).context("no part")?;
    let order = first.order(&second);
    Ok(format!(in alloc; "{order:?}")?)
}

/// A number without leading zeros.
pub fn number_reported(alloc: Global, text: &str) -> Result<String> {
    match read_number(text.as_bytes()) {
        Some(number) => Ok(format!(in alloc; "{number}")?),
        None => Ok(String::from_str(alloc, "no number")?),
    }
}

/// The tenths of a length in millimetres, and the text that they are written as.
pub fn length_reported(alloc: Global, text: &str) -> Result<String> {
    let Some(tenths) = read_mm(text) else {
        return Ok(String::from_str(alloc, "no length")?);
    };
    let mut reported = format!(in alloc; "{tenths} =")?;
    write_mm(tenths, &mut reported)?;
    Ok(reported)
}
