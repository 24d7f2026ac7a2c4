//! How characters stand in rows: each as itself, or as its hexadecimal number between `⟨` and `⟩`.

use anyhow::{Context, Result};
use std::alloc::{AllocError, Global};

fn numbered(digits: &str) -> Result<char> {
    let number = u32::from_str_radix(digits, 16)?;
    char::from_u32(number).context("no character has the number")
}

/// The characters that stand so.
pub fn chars_of(alloc: Global, text: &str) -> Result<String> {
    let mut parts = text.split('⟨');
    let mut chars = String::from_str(alloc, parts.next().unwrap_or(""))?;
    for part in parts {
        let (digits, rest) = part.split_once('⟩').context("a number has no end")?;
        chars.push(numbered(digits)?)?;
        chars.push_str(rest)?;
    }
    Ok(chars)
}

/// The characters on one line: what is printable in ASCII as itself.
pub fn on_one_line(alloc: Global, chars: &str) -> Result<String, AllocError> {
    let mut line = String::new(alloc);
    for c in chars.chars() {
        match c {
            ' '..='~' => line.push(c)?,
            _ => write!(line, "⟨{:x}⟩", c as u32)?,
        }
    }
    Ok(line)
}
