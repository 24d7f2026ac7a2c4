//! Files whose gaps a row chooses.

use crate::chars::chars_of;
use anyhow::{Context, Result};
use std::alloc::Global;

/// The text with these characters for each blank, and with others for each `~`, where no line may end.
pub fn with_gaps(alloc: Global, gaps: &str, text: &str) -> Result<String> {
    let (gap, on_line) = gaps.split_once(' ').context("there are two gaps")?;
    let gap = chars_of(alloc, gap)?;
    let on_line = chars_of(alloc, on_line)?;
    let mut file = String::new(alloc);
    for c in text.chars() {
        match c {
            ' ' => file.push_str(gap.as_str())?,
            '~' => file.push_str(on_line.as_str())?,
            _ => file.push(c)?,
        }
    }
    Ok(file)
}
