//! The lines that are said, each ended by LF.
ghost use Rattle.std.specs.Prelude.{◌≡◌, ◌++◌, ◌∷◌, IfOk, OnOk, codes, decimal, map};
ghost use Rattle.std.specs.Fmt.{signed_decimal};
ghost use Rattle.code_units.specs.Text.{utf8_of};
ghost use Rattle.code_units.specs.declared.ends.Shown.TheVariants as shows;
ghost use Rattle.dart_web_cli.specs.Answers.{usage_line, refused_line, cannot_line, outside_line};
ghost use Rattle.dart_web_cli.specs.RunLines as spec;

use code_units::{Bytes, End, Shown, Text};
use dart_syntax::Rule;
use itoa::Buffer;
use js_tree::NamedTree;
use std::alloc::{AllocError, Global};

/// What is said of words that are no command.
pub fn usage_line(alloc: Global) -> Result<Bytes, AllocError>
    ensures { IfOk result (λ line. line ≡ usage_line) }
{
    Bytes::from_slice(alloc, b"usage\n")
}

/// What is said of an entry that breaks a rule at this offset in bytes.
pub fn refused_line(alloc: Global, rule: Rule, entry: &str, at: u32) -> Result<Bytes, AllocError>
    ensures { IfOk result (λ line. line ≡ refused_line rule entry.now at) }
{
    let mut digits = Buffer::new();
    let mut line = Bytes::from_slice(alloc, b"refused ")?;
    line.extend(rule.name().as_bytes())?;
    line.push(b' ')?;
    line.extend(entry.as_bytes())?;
    line.push(b' ')?;
    line.extend(digits.format(at).as_bytes())?;
    line.push(b'\n')?;
    Ok(line)
}

/// What is said where a read of this file failed.
pub fn cannot_line(alloc: Global, entry: &str) -> Result<Bytes, AllocError>
    ensures { IfOk result (λ line. line ≡ cannot_line entry.now) }
{
    let mut line = Bytes::from_slice(alloc, b"cannot read ")?;
    line.extend(entry.as_bytes())?;
    line.push(b'\n')?;
    Ok(line)
}

fn push_number(line: &mut Bytes, n: u64) -> Result<(), AllocError>
    ensures { OnOk result (line.new ≡ line.old ++ decimal n) }
{
    let mut digits = Buffer::new();
    line.extend(digits.format(n).as_bytes())
}

/// What is said of a file that is not in the subset, as shows at this offset in bytes.
pub fn outside_line(alloc: Global, name: &str, at: u64) -> Result<Bytes, AllocError>
    ensures { IfOk result (λ line. line ≡ outside_line name.now at) }
{
    let mut line = Bytes::from_slice(alloc, b"not in profile ")?;
    line.extend(name.as_bytes())?;
    line.push(b' ')?;
    push_number(&mut line, at)?;
    line.push(b'\n')?;
    Ok(line)
}

/// A printed text on a line of its own.
pub fn text_line(text: &Text) -> Result<Bytes, AllocError>
    ensures { IfOk result (λ line. line ≡ spec.line (utf8_of text.now)) }
{
    let mut line = text.to_utf8()?;
    line.push(b'\n')?;
    Ok(line)
}

fn push_text(line: &mut Bytes, text: &Text) -> Result<(), AllocError>
    ensures { OnOk result (line.new ≡ line.old ++ utf8_of text.now) }
{
    let bytes = text.to_utf8()?;
    line.extend(bytes.as_slice())
}

fn push_signed(line: &mut Bytes, n: i64) -> Result<(), AllocError>
    ensures { OnOk result (line.new ≡ line.old ++ signed_decimal n) }
{
    let mut digits = Buffer::new();
    line.extend(digits.format(n).as_bytes())
}

fn push_truth(line: &mut Bytes, holds: bool) -> Result<(), AllocError>
    ensures { OnOk result (line.new ≡ line.old ++ spec.shown_text (shows.Bool holds)) }
{
    if holds {
        line.extend(b"true")
    } else {
        line.extend(b"false")
    }
}

// A value that nothing caught.
fn push_shown(line: &mut Bytes, shown: &Shown) -> Result<(), AllocError>
    ensures { OnOk result (line.new ≡ line.old ++ spec.shown_text shown.now) }
{
    match shown {
        Shown::Null => line.extend(b"null"),
        Shown::Bool(holds) => push_truth(line, *holds),
        Shown::Int(n) => push_signed(line, *n),
        Shown::Str(text) => push_text(line, text),
        Shown::Class(name) => push_text(line, name),
    }
}

// The name of the file of this number.
fn push_name(line: &mut Bytes, files: &[NamedTree], file: u32) -> Result<(), AllocError>
    ensures { OnOk result (line.new ≡ line.old ++ spec.name_at (map (λ tree. tree.name) files.now) file) }
{
    match files.get(file as usize) {
        Some(named) => push_text(line, &named.name),
        None => Ok(()),
    }
}

fn uncaught_line(alloc: Global, shown: &Shown) -> Result<Bytes, AllocError>
    ensures { IfOk result (λ line. line ≡ spec.line (codes "uncaught " ++ spec.shown_text shown.now)) }
{
    let mut line = Bytes::from_slice(alloc, b"uncaught ")?;
    push_shown(&mut line, shown)?;
    line.push(b'\n')?;
    Ok(line)
}

fn spent_line(alloc: Global, steps: u64) -> Result<Bytes, AllocError>
    ensures { IfOk result (λ line. line ≡ spec.line (codes "spent " ++ decimal steps)) }
{
    let mut line = Bytes::from_slice(alloc, b"spent ")?;
    push_number(&mut line, steps)?;
    line.push(b'\n')?;
    Ok(line)
}

fn stuck_line(alloc: Global, files: &[NamedTree], file: u32, at: u64) -> Result<Bytes, AllocError>
    ensures { IfOk result (λ line. line ≡ spec.line (codes "stuck " ++ (spec.name_at (map (λ tree. tree.name) files.now) file ++ (32 ∷ decimal at)))) }
{
    let mut line = Bytes::from_slice(alloc, b"stuck ")?;
    push_name(&mut line, files, file)?;
    line.push(b' ')?;
    push_number(&mut line, at)?;
    line.push(b'\n')?;
    Ok(line)
}

/// What is said of the end of a run of these files, which had so many steps.
pub fn end_line(
    alloc: Global,
    steps: u64,
    files: &[NamedTree],
    end: &End,
) -> Result<Bytes, AllocError>
    ensures { IfOk result (λ line. line ≡ spec.end_line steps (map (λ tree. tree.name) files.now) end.now) }
{
    match end {
        End::Done => Ok(Bytes::new(alloc)),
        End::Threw(shown) => uncaught_line(alloc, shown),
        End::Spent => spent_line(alloc, steps),
        End::Left => Bytes::from_slice(alloc, b"left\n"),
        End::Deep => Bytes::from_slice(alloc, b"deep\n"),
        End::Stuck { file, at } => stuck_line(alloc, files, *file, *at),
    }
}
