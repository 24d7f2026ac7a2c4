//! How values stand in lines: `null`, `true`, `-12`, `"text"`, and `list:0` or the like for what has an address. In a text,
//! `\` and four hexadecimal digits stand for a unit.

use anyhow::{Context, Result, bail};
use bumpalo::Bump;
use code_units::Text;
use dart_store::Value;
use std::alloc::{AllocError, Global};
use store_lists::SharedText;

// The units between the quotes.
fn units_of(alloc: Global, quoted: &str) -> Result<Text> {
    let mut parts = quoted.split('\\');
    let mut units = Text::from_str(alloc, parts.next().unwrap_or(""))?;
    for part in parts {
        let (digits, rest) = part.split_at_checked(4).context("a unit has four digits")?;
        units.push(u16::from_str_radix(digits, 16)?)?;
        units.push_str(rest)?;
    }
    Ok(units)
}

/// The text that stands so.
pub fn text_of<'a>(alloc: Global, arena: &'a Bump, word: &str) -> Result<SharedText<'a>> {
    let inner = word
        .strip_prefix('"')
        .and_then(|rest| rest.strip_suffix('"'));
    let units = units_of(alloc, inner.context("a text has two quotes")?)?;
    Ok(SharedText::copied(arena, units.as_slice())?)
}

fn addressed<'a>(kind: &str, digits: &str) -> Result<Value<'a>> {
    let address = digits.parse::<usize>()?;
    match kind {
        "object" => Ok(Value::Object(address)),
        "list" => Ok(Value::List(address)),
        "map" => Ok(Value::Map(address)),
        "function" => Ok(Value::Function(address)),
        "static" => Ok(Value::Static(digits.parse::<u32>()?)),
        _ => bail!("no value is of this kind"),
    }
}

/// The value that stands so.
pub fn value_of<'a>(alloc: Global, arena: &'a Bump, word: &str) -> Result<Value<'a>> {
    match word {
        "null" => Ok(Value::Null),
        "true" => Ok(Value::Bool(true)),
        "false" => Ok(Value::Bool(false)),
        _ if word.starts_with('"') => Ok(Value::Text(text_of(alloc, arena, word)?)),
        _ => match word.split_once(':') {
            Some((kind, digits)) => addressed(kind, digits),
            None => Ok(Value::Int(word.parse::<i64>()?)),
        },
    }
}

/// The text as it stands in a line.
pub fn shown_text(alloc: Global, text: &SharedText) -> Result<String, AllocError> {
    let mut shown = String::from_str(alloc, "\"")?;
    for unit in text.to_text(alloc)?.as_slice() {
        match char::from_u32(u32::from(*unit)) {
            Some(c @ (' ' | '!' | '#'..='[' | ']'..='~')) => shown.push(c)?,
            _ => write!(shown, "\\{unit:04x}")?,
        }
    }
    shown.push('"')?;
    Ok(shown)
}

/// The value as it stands in a line.
pub fn shown(alloc: Global, value: &Value) -> Result<String, AllocError> {
    match value {
        Value::Null => format!(in alloc; "null"),
        Value::Bool(truth) => format!(in alloc; "{truth}"),
        Value::Int(number) => format!(in alloc; "{number}"),
        Value::Text(text) => shown_text(alloc, text),
        Value::Object(address) => format!(in alloc; "object:{address}"),
        Value::List(address) => format!(in alloc; "list:{address}"),
        Value::Map(address) => format!(in alloc; "map:{address}"),
        Value::Function(address) => format!(in alloc; "function:{address}"),
        Value::Static(member) => format!(in alloc; "static:{member}"),
    }
}
