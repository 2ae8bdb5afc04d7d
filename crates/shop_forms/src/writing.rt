//! How JSON objects are written member by member, with their keys in byte order.

ghost use Rattle.std.specs.Prelude.{◌≡◌, ◌∷◌, [], IfOk, OnOk, Some, decimal};
ghost use Rattle.json.specs.Print.{print};
ghost use Rattle.json.specs.Token as token;
ghost use Rattle.json.specs.Tree.{json_tokens};
ghost use Rattle.serde_json.specs.Read.{read};
ghost use Rattle.serde_json.specs.Data.{object};
ghost use Rattle.serde_json.specs.View.{view};
ghost use Rattle.serde_json.specs.Written.{outline};
ghost use Rattle.cut_measure.specs.Names.{name_text};
ghost use Rattle.shop_forms.specs.Forms.{list_data};
ghost use Rattle.shop_forms.specs.Members.{members_of, member_tokens};
ghost use Rattle.shop_forms.specs.Tokens.{Adds, AddsValue};

use crate::words::wide;
use cut_measure::PartName;
use json::Writer;
use serde_json::Value;
use shop_records::Text;
use std::alloc::{AllocError, Global};

/// A writer into memory of its own, with room for most texts where there is memory for it.
pub fn new_writer(alloc: Global) -> Writer
    ensures before { result.before ≡ [] }
    ensures tokens { result.tokens ≡ [] }
{
    let mut bytes = Vec::new(alloc);
    let _ = bytes.reserve(128);
    Writer::new(bytes)
}

/// The text that was written.
pub fn written_text(writer: Writer) -> Text
    requires { writer.before ≡ [] }
    ensures { result ≡ print writer.tokens }
{
    match String::from_utf8(writer.into_inner()) {
        Ok(text) => Text::of(text),
        Err(_) => unreachable!(),
    }
}

/// A member of an object: a key, and the text, the number, the flag, the numbers or the part's name at it. The text of a name
/// takes memory.
#[derive(Clone, Copy)]
pub enum Member<'a> {
    Text(&'static str, &'a str),
    Number(&'static str, u64),
    Flag(&'static str, bool),
    Numbers(&'static str, &'a [u32]),
    Name(&'static str, &'a PartName, Global),
}

/// Writes an object of these members.
pub fn write_object(writer: &mut Writer, members: &[Member<'_>]) -> Result<(), AllocError>
    ensures { OnOk result (AddsValue writer.old writer.new (object (members_of members.now))) }
{
    writer.begin_object()?;
    for member in members {
        write_member(writer, member)?;
    }
    writer.end_object()?;
    Ok(())
}

// Writes a member.
fn write_member(writer: &mut Writer, member: &Member<'_>) -> Result<(), AllocError>
    ensures { OnOk result (Adds writer.old writer.new (member_tokens member.now)) }
{
    match *member {
        Member::Text(key, text) => write_text(writer, key, text),
        Member::Number(key, n) => write_number(writer, key, n),
        Member::Flag(key, flag) => write_flag(writer, key, flag),
        Member::Numbers(key, numbers) => write_numbers(writer, key, numbers),
        Member::Name(key, part, alloc) => write_name(alloc, writer, key, part),
    }
}

/// Writes a key with a text.
pub fn write_text(writer: &mut Writer, key: &str, text: &str) -> Result<(), AllocError>
    ensures { OnOk result (Adds writer.old writer.new
        (token.key key.now ∷ token.string text.now ∷ [])) }
{
    writer.key(key)?;
    writer.string(text)?;
    Ok(())
}

/// Writes a key with a number.
pub fn write_number(writer: &mut Writer, key: &str, n: u64) -> Result<(), AllocError>
    ensures { OnOk result (Adds writer.old writer.new
        (token.key key.now ∷ token.number (decimal n) ∷ [])) }
{
    writer.key(key)?;
    writer.u64(n)?;
    Ok(())
}

/// Writes a key with a flag.
pub fn write_flag(writer: &mut Writer, key: &str, flag: bool) -> Result<(), AllocError>
    ensures { OnOk result (Adds writer.old writer.new
        (token.key key.now ∷ token.boolean flag ∷ [])) }
{
    writer.key(key)?;
    writer.boolean(flag)?;
    Ok(())
}

// Writes a key with numbers.
fn write_numbers(writer: &mut Writer, key: &str, numbers: &[u32]) -> Result<(), AllocError>
    ensures { OnOk result (Adds writer.old writer.new
        (token.key key.now ∷ json_tokens (outline (list_data numbers.now)))) }
{
    writer.key(key)?;
    write_list(writer, numbers)
}

// Writes a list of numbers.
fn write_list(writer: &mut Writer, numbers: &[u32]) -> Result<(), AllocError>
    ensures { OnOk result (AddsValue writer.old writer.new (list_data numbers.now)) }
{
    writer.begin_array()?;
    for n in numbers {
        writer.u64(wide(*n))?;
    }
    writer.end_array()?;
    Ok(())
}

/// Writes a key with a part's name.
pub fn write_name(
    alloc: Global,
    writer: &mut Writer,
    key: &str,
    part: &PartName,
) -> Result<(), AllocError>
    ensures { OnOk result (Adds writer.old writer.new
        (token.key key.now ∷ token.string (name_text part.now) ∷ [])) }
{
    let mut name = String::new(alloc);
    part.write(&mut name)?;
    write_text(writer, key, name.as_str())
}

/// The value that a text stands for. A text that was written stands for one, so an Err is lack of memory.
pub fn value_of(alloc: Global, text: &Text) -> Result<Value, AllocError>
    ensures { IfOk result (λ value. read text.now ≡ Some (view value)) }
{
    let Ok(value) = Value::from_str(alloc, text.as_str()) else {
        return Err(AllocError);
    };
    Ok(value)
}
