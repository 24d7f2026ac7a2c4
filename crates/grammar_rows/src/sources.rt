//! The source that a line is.

use anyhow::{Context, Result, bail};
use percent_encoding::percent_decode_str;
use std::alloc::{AllocError, Global};

// `%` and two hexadecimal digits are a byte.
fn decoded(alloc: Global, line: &str) -> Result<Vec<u8>, AllocError> {
    let mut bytes = Vec::new(alloc);
    percent_decode_str(line).append_to(&mut bytes)?;
    Ok(bytes)
}

// `COUNT FIRST|LEFT|MIDDLE|RIGHT|LAST`, where LEFT and RIGHT stand so many times.
fn repeated(alloc: Global, line: &str) -> Result<Vec<u8>> {
    let (count, parts) = line.split_once(' ').context("no number")?;
    let count: usize = count.parse()?;
    let mut bytes = Vec::new(alloc);
    for (place, part) in parts.split('|').enumerate() {
        let times = if place % 2 == 1 { count } else { 1 };
        bytes.extend_from_slice(part.repeat(alloc, times)?.as_bytes())?;
    }
    Ok(bytes)
}

/// The source that a line is by itself in a section of this manner.
pub fn source_of(alloc: Global, manner: &str, line: &str) -> Result<Vec<u8>> {
    match manner {
        "" => Ok(line.as_bytes().to_vec(alloc)?),
        "encoded" => Ok(decoded(alloc, line)?),
        "repeated" => repeated(alloc, line),
        _ => bail!("no manner {manner}"),
    }
}
