//! Numbers and texts, as no native gives them.

use crate::values::shown_text;
use bumpalo::Bump;
use std::alloc::{AllocError, Global};
use store_lists::{MAX_NUMBER, SharedText, in_range};

// `a`, `b` and `c`.
const LETTERS: [u16; 3] = [0x61, 0x62, 0x63];

// The digits from 0 to 9.
const DIGITS: [u16; 10] = [48, 49, 50, 51, 52, 53, 54, 55, 56, 57];

pub fn numbers_in_range(alloc: Global) -> Result<String, AllocError> {
    let least = in_range(-MAX_NUMBER);
    let beyond = in_range(MAX_NUMBER + 1);
    format!(in alloc; "the least: {least:?}\nbeyond the greatest: {beyond:?}\n")
}

pub fn digits(alloc: Global) -> Result<String, AllocError> {
    let arena = Bump::new(alloc);
    let text = SharedText::decimal(&arena, -MAX_NUMBER)?;
    format!(in alloc; "the least: {}\n", shown_text(alloc, &text)?)
}

// The units from one place to another, where there are such.
fn part(
    alloc: Global,
    arena: &Bump,
    text: &SharedText,
    from: i64,
    to: i64,
) -> Result<String, AllocError> {
    match text.part(arena, from, to)? {
        Some(part) => shown_text(alloc, &part),
        None => format!(in alloc; "none"),
    }
}

pub fn parts(alloc: Global) -> Result<String, AllocError> {
    let arena = Bump::new(alloc);
    let text = SharedText::new(&LETTERS);
    let inner = part(alloc, &arena, &text, 1, 2)?;
    let beyond = part(alloc, &arena, &text, 2, 4)?;
    format!(in alloc; "from 1 to 2: {inner}\nfrom 2 to 4: {beyond}\n")
}

// The ten digits, so many times behind each other.
fn ten_times<'a>(arena: &'a Bump, count: u32) -> Result<SharedText<'a>, AllocError> {
    let piece = SharedText::new(&DIGITS);
    let mut text = SharedText::new(&[]);
    for _ in 0..count {
        text = text.joined(arena, &piece)?;
    }
    Ok(text)
}

pub fn long_text(alloc: Global) -> Result<String, AllocError> {
    let arena = Bump::new(alloc);
    let text = ten_times(&arena, 1000)?;
    let same = text == ten_times(&arena, 1000)?;
    let mut answers = String::new(alloc);
    writeln!(answers, "length: {}", text.len())?;
    writeln!(answers, "the same as another: {same}")?;
    writeln!(answers, "unit 4321: {:?}", text.unit(4321))?;
    writeln!(answers, "unit 10000: {:?}", text.unit(10000))?;
    writeln!(answers, "unit -1: {:?}", text.unit(-1))?;
    Ok(answers)
}

pub fn part_of_long_text(alloc: Global) -> Result<String, AllocError> {
    let arena = Bump::new(alloc);
    let text = ten_times(&arena, 100)?;
    match text.part(&arena, 3, 998)? {
        Some(part) => {
            let unit = part.unit(500);
            format!(in alloc; "length: {}\nunit 500: {unit:?}\n", part.len())
        }
        None => format!(in alloc; "none\n"),
    }
}
