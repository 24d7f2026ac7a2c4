//! One item of a file: a gap, a token, or a part of a text.
ghost use Rattle.std.specs.Prelude.{◌≡◌, ◌-◌, ◌∷◌, [], Some, IfOk, length};
ghost use Rattle.dart_syntax.specs.Table as table;
ghost use Rattle.dart_syntax.specs.Table.{front};
ghost use Rattle.dart_syntax.specs.Texts as texts;
ghost use Rattle.dart_syntax.specs.Texts.{is_inner};
ghost use Rattle.dart_syntax.specs.Tokens as tokens;
ghost use Rattle.dart_syntax.specs.Reader as reader;
ghost use Rattle.dart_syntax.specs.declared.tokens.Form.TheVariants as form;
ghost use Rattle.dart_syntax.specs.declared.levels.Level.TheVariants as opened;
ghost use Rattle.dart_tokens.specs.Answers.{step_shown, read_shown, StaysOnBad, tail_of};

use crate::bytes::{Class, before, has_line_end, next, quote_of, tail};
use crate::escapes::is_numbered;
use crate::levels::Levels;
use crate::steps::{Step, next_step};
use crate::texts::{form_behind, is_tripled, opening, run};
use code_units::Text;
use dart_syntax::{Form, Level, Rule, Sign, Token};
use std::alloc::{AllocError, Global};

/// An item's tokens and what follows it; or a broken rule, where it is broken, and what is left behind it.
#[derive(Drop)]
pub enum Read<'a> {
    Took(Vec<Token>, &'a [u8]),
    Bad(Rule, &'a [u8], &'a [u8]),
}

/// The token of this form that takes what stands before `rest`, in a file of `count` bytes.
fn token(count: u32, form: Form, bytes: &[u8], rest: &[u8]) -> Token
    ensures { result ≡ tokens.token count form bytes.now rest.now }
{
    Token {
        form,
        from: place(count, bytes),
        to: place(count, rest),
    }
}

/// The place at which these bytes begin that end a file of `count` bytes.
pub fn place(count: u32, bytes: &[u8]) -> u32
    ensures { result ≡ count - length bytes.now }
{
    u64::from(count).saturating_sub(bytes.len() as u64) as u32
}

fn one(alloc: Global, token: Token) -> Result<Vec<Token>, AllocError>
    ensures { IfOk result (λ ts. ts.items ≡ token ∷ []) }
{
    let mut tokens = Vec::new(alloc);
    tokens.push(token)?;
    Ok(tokens)
}

// ---- code

// The form of a token in this place; opens and closes braces.
fn turn(held: &mut Levels, form: Form) -> Result<Form, AllocError>
    ensures { IfOk result (λ turned. tokens.turned form held.old ≡ (turned, held.new)) }
{
    match form {
        Form::Sign(sign) => turn_sign(held, sign),
        other => Ok(other),
    }
}

#[tactic(auto, using(crate::proofs::Stacks::plain_sign))]
fn turn_sign(held: &mut Levels, sign: Sign) -> Result<Form, AllocError>
    ensures { IfOk result (λ turned. tokens.turned (form.Sign sign) held.old ≡ (turned, held.new)) }
{
    if sign == Sign::OpenBrace {
        open_brace(held)?;
        return Ok(Form::Sign(sign));
    }
    if sign == Sign::CloseBrace {
        return Ok(close_brace(held));
    }
    Ok(Form::Sign(sign))
}

fn open_brace(held: &mut Levels) -> Result<(), AllocError>
    ensures { IfOk result (λ _. held.new ≡ tokens.opened held.old) }
{
    if held.top().is_some() {
        held.push(Level::Brace)?;
    }
    Ok(())
}

fn close_brace(held: &mut Levels) -> Form
    ensures { tokens.closed held.old ≡ (result, held.new) }
{
    match held.top() {
        None => Form::Sign(Sign::CloseBrace),
        Some(Level::Text { double: _, raw: _ }) => Form::Sign(Sign::CloseBrace),
        Some(Level::Hole) => {
            held.close();
            Form::Leave
        }
        Some(Level::Brace) => {
            held.close();
            Form::Sign(Sign::CloseBrace)
        }
    }
}

fn coded<'a>(
    alloc: Global,
    count: u32,
    held: &mut Levels,
    bytes: &'a [u8],
    found: Step<'a>,
) -> Result<Read<'a>, AllocError>
    ensures read { IfOk result (λ x. reader.coded count held.old bytes.now (step_shown found.entry) ≡ read_shown held.new x) }
    ensures stays { IfOk result (StaysOnBad held.old held.new) }
{
    match found {
        Step::Gap(rest) => Ok(gap(alloc, held, bytes, rest)),
        Step::Found(form, rest) => {
            let form = turn(held, form)?;
            Ok(Read::Took(one(alloc, token(count, form, bytes, rest))?, rest))
        }
        Step::Broken(rule, after) => Ok(Read::Bad(rule, bytes, after)),
    }
}

fn gap<'a>(alloc: Global, held: &Levels, bytes: &'a [u8], rest: &'a [u8]) -> Read<'a>
    ensures { reader.coded 0 held.now bytes.now (reader.Gap rest.now) ≡ read_shown held.now result }
{
    let breaks = held.in_text() && has_line_end(before(bytes, rest));
    if breaks {
        Read::Bad(Rule::S3, bytes, &[])
    } else {
        Read::Took(Vec::new(alloc), rest)
    }
}

fn begun<'a>(
    alloc: Global,
    count: u32,
    held: &mut Levels,
    bytes: &'a [u8],
    level: Level,
    rest: &'a [u8],
) -> Result<Read<'a>, AllocError>
    ensures read { IfOk result (λ x. reader.begun count held.old bytes.now (Some (level, rest.now)) ≡ read_shown held.new x) }
    ensures stays { IfOk result (StaysOnBad held.old held.new) }
{
    if is_tripled(level, rest) {
        return Ok(Read::Bad(Rule::S7, bytes, tail(tail(rest))));
    }
    let tokens = one(alloc, token(count, Form::TextOpen, bytes, rest))?;
    held.push(level)?;
    Ok(Read::Took(tokens, rest))
}

#[tactic(auto, unfolding(dart_syntax::specs::Reader::code_step))]
fn code_step<'a>(
    alloc: Global,
    count: u32,
    held: &mut Levels,
    bytes: &'a [u8],
) -> Result<Read<'a>, AllocError>
    ensures read { IfOk result (λ x. reader.code_step count held.old bytes.now ≡ read_shown held.new x) }
    ensures stays { IfOk result (StaysOnBad held.old held.new) }
{
    match opening(bytes) {
        Some((level, rest)) => begun(alloc, count, held, bytes, level, rest),
        None => {
            let found = next_step(alloc, bytes)?;
            coded(alloc, count, held, bytes, found)
        }
    }
}

// ---- texts

#[tactic(auto, using(dart_syntax::proofs::Fronts::front_take))]
fn named<'a>(
    alloc: Global,
    count: u32,
    held: &Levels,
    piece: Token,
    whole: &'a [u8],
    bytes: &'a [u8],
) -> Result<Read<'a>, AllocError>
    requires { whole.now ≡ 36 ∷ bytes.now }
    ensures { IfOk result (λ x. reader.ended_by piece whole.now bytes.now (tokens.named count bytes.now held.now (texts.form_behind (front is_inner bytes.now) (table.word_of (front is_inner bytes.now)))) ≡ read_shown held.now x) }
{
    let rest = Class::Inner.past(bytes);
    let Some(form) = form_behind(alloc, before(bytes, rest))? else {
        return Ok(Read::Bad(Rule::S5, whole, bytes));
    };
    let mut tokens = one(alloc, piece)?;
    tokens.push(token(count, Form::Enter, whole, bytes))?;
    tokens.push(token(count, form, bytes, rest))?;
    tokens.push(token(count, Form::Leave, rest, rest))?;
    Ok(Read::Took(tokens, rest))
}

fn entered<'a>(
    alloc: Global,
    count: u32,
    held: &mut Levels,
    piece: Token,
    whole: &'a [u8],
    bytes: &'a [u8],
) -> Result<Read<'a>, AllocError>
    requires { whole.now ≡ 36 ∷ bytes.now }
    ensures read { IfOk result (λ x. reader.ended_by piece whole.now bytes.now (tokens.entered count bytes.now held.old) ≡ read_shown held.new x) }
    ensures stays { IfOk result (StaysOnBad held.old held.new) }
{
    let Some((first, rest)) = next(bytes) else {
        return Ok(Read::Bad(Rule::S5, whole, bytes));
    };
    if first == b'{' {
        let mut tokens = one(alloc, piece)?;
        tokens.push(token(count, Form::Enter, whole, rest))?;
        held.push(Level::Hole)?;
        return Ok(Read::Took(tokens, rest));
    }
    named(alloc, count, held, piece, whole, bytes)
}

fn ended<'a>(
    alloc: Global,
    count: u32,
    held: &mut Levels,
    double: bool,
    raw: bool,
    bytes: &'a [u8],
    units: Text,
    rest: &'a [u8],
) -> Result<Read<'a>, AllocError>
    requires { held.old ≡ opened.Text double raw ∷ tail_of held.old }
    ensures read { IfOk result (λ x. reader.ended count double raw (tail_of held.old) bytes.now units rest.now ≡ read_shown held.new x) }
    ensures stays { IfOk result (StaysOnBad held.old held.new) }
{
    let Some((first, more)) = next(rest) else {
        return Ok(Read::Bad(Rule::S3, &[], &[]));
    };
    if first == quote_of(double) {
        let mut tokens = one(alloc, token(count, Form::Piece(units), bytes, rest))?;
        tokens.push(token(count, Form::TextClose, rest, more))?;
        held.close();
        return Ok(Read::Took(tokens, more));
    }
    let enters = !raw && first == b'$';
    if enters {
        return entered(
            alloc,
            count,
            held,
            token(count, Form::Piece(units), bytes, rest),
            rest,
            more,
        );
    }
    let is_bad = !raw && first == b'\\' && is_numbered(more);
    if is_bad {
        return Ok(Read::Bad(Rule::S5, rest, more));
    }
    Ok(Read::Bad(Rule::S3, rest, &[]))
}

#[tactic(auto, using(dart_syntax::proofs::Parts::part_is))]
fn part_step<'a>(
    alloc: Global,
    count: u32,
    held: &mut Levels,
    double: bool,
    raw: bool,
    bytes: &'a [u8],
) -> Result<Read<'a>, AllocError>
    requires { held.old ≡ opened.Text double raw ∷ tail_of held.old }
    ensures read { IfOk result (λ x. reader.part_step count double raw (tail_of held.old) bytes.now ≡ read_shown held.new x) }
    ensures stays { IfOk result (StaysOnBad held.old held.new) }
{
    let (units, rest) = run(alloc, double, raw, bytes)?;
    ended(alloc, count, held, double, raw, bytes, units, rest)
}

// ---- items

/// The item that begins here, in a file of `count` bytes.
pub fn next_item<'a>(
    alloc: Global,
    count: u32,
    held: &mut Levels,
    bytes: &'a [u8],
) -> Result<Read<'a>, AllocError>
    ensures read { IfOk result (λ x. reader.read count held.old bytes.now ≡ read_shown held.new x) }
    ensures stays { IfOk result (StaysOnBad held.old held.new) }
{
    match held.top() {
        Some(Level::Text { double, raw }) => part_step(alloc, count, held, double, raw, bytes),
        Some(Level::Hole) => code_step(alloc, count, held, bytes),
        Some(Level::Brace) => code_step(alloc, count, held, bytes),
        None => code_step(alloc, count, held, bytes),
    }
}
