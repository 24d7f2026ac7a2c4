//! The tokens of a source.

use anyhow::{Result, bail};
use dart_syntax::{Form, Tokens};
use dart_tokens::scan;
use std::alloc::{AllocError, Global};

/// The tokens of the file of this number.
pub fn scanned(alloc: Global, number: u32, source: &[u8]) -> Result<Tokens> {
    if source.len() > 1_000_000 {
        bail!("the source is too long");
    }
    Ok(scan(alloc, number, source)?)
}

// A control character is shown by its number.
fn show_piece(alloc: Global, text: &mut String, bytes: &[u8]) -> Result<(), AllocError> {
    let piece = String::from_utf8_lossy(alloc, bytes)?;
    for c in piece.as_str().chars() {
        if c.is_control() {
            text.push_str(format!(in alloc; "\\u{{{:x}}}", u32::from(c))?.as_str())?;
        } else {
            text.push(c)?;
        }
    }
    Ok(())
}

fn show_bytes(alloc: Global, text: &mut String, bytes: &[u8]) -> Result<(), AllocError> {
    text.push_str(String::from_utf8_lossy(alloc, bytes)?.as_str())
}

fn show(alloc: Global, text: &mut String, form: &Form) -> Result<(), AllocError> {
    match form {
        Form::Name(name) => show_bytes(alloc, text, name.to_utf8()?.as_slice()),
        Form::Word(word) => {
            text.push_str("@")?;
            show_bytes(alloc, text, word.spelling())
        }
        Form::Sign(sign) => show_bytes(alloc, text, sign.spelling()),
        Form::Number(value) => text.push_str(format!(in alloc; "{value}")?.as_str()),
        Form::TextOpen => text.push_str("<"),
        Form::Piece(piece) => {
            text.push_str("[")?;
            show_piece(alloc, text, piece.to_utf8()?.as_slice())?;
            text.push_str("]")
        }
        Form::Enter => text.push_str("${"),
        Form::Leave => text.push_str("}"),
        Form::TextClose => text.push_str(">"),
    }
}

// A blank, unless the text is empty.
fn part(text: &mut String) -> Result<(), AllocError> {
    if text.is_empty() {
        Ok(())
    } else {
        text.push_str(" ")
    }
}

/// The tokens in words: names, numbers and signs as they are spelled, reserved words behind an `@`, and of texts `<`,
/// their pieces' units in brackets, `${`, `}` and `>`.
pub fn in_words(alloc: Global, tokens: &Tokens) -> Result<String> {
    let mut text = String::new(alloc);
    for token in tokens.items.as_slice() {
        part(&mut text)?;
        show(alloc, &mut text, &token.form)?;
    }
    if text.is_empty() {
        text.push_str("no tokens")?;
    }
    Ok(text)
}

/// The number of the file and its length, and where each token stands.
pub fn places(alloc: Global, tokens: &Tokens) -> Result<String> {
    let (file, length) = (tokens.file, tokens.length);
    let mut text = format!(in alloc; "file {file}, {length} bytes:")?;
    for token in tokens.items.as_slice() {
        let (from, to) = (token.from, token.to);
        text.push_str(format!(in alloc; " {from}-{to}")?.as_str())?;
    }
    Ok(text)
}

/// The code units of the pieces of texts.
pub fn units(alloc: Global, tokens: &Tokens) -> Result<String> {
    let mut text = String::new(alloc);
    for token in tokens.items.as_slice() {
        if let Form::Piece(piece) = &token.form {
            for unit in piece.as_slice() {
                part(&mut text)?;
                text.push_str(format!(in alloc; "{unit:X}")?.as_str())?;
            }
        }
    }
    Ok(text)
}
