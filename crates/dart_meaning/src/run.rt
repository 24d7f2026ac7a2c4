//! Runs a first program, with a bound on its steps.

ghost use Rattle.std.specs.Prelude.{◌≡◌, ◌+ℤ◌, ◌-ℤ◌, ◌*ℤ◌, [], ◌∷◌, ◌++◌, List, ℕ, ℤ, map, IfOk, Some, None, MatchOption};
ghost use Rattle.std.specs.Option.{option_map};
ghost use Rattle.meanings.specs.Runs.{IsMeaning};
ghost use Rattle.meanings.specs.Ends.{run_end_of};
ghost use Rattle.dart_meaning.specs.declared.program.Statement.{Statement};
ghost use Rattle.dart_meaning.specs.Program as program;
ghost use Rattle.dart_meaning.specs.Program.{IsProgram};
ghost use Rattle.dart_meaning.specs.Meaning as meaning;
ghost use Rattle.dart_meaning.specs.Meaning.{dart};
ghost use Rattle.dart_meaning.specs.Runner as spec;
ghost use Rattle.dart_meaning.specs.Runner.{datum_of, turned};

use crate::program::{Addend, Expression, MAX_NUMBER, Operand, Product, Sign, Statement, Sum};
use crate::read::read_program;
use code_units::{End, Lines, RunEnd, Text};
use dart_syntax::Token;
use itoa::Buffer;
use std::alloc::{AllocError, Global};

/// A value: a whole number, which may have any `u64` as its digits; or the units of a text of the program.
#[derive(Clone, Copy, Debug)]
pub enum Value<'a> {
    Whole(i128),
    Letters(&'a [u16]),
}

/// What a statement comes to: the steps that are left, or how it ended the run.
#[derive(Clone, Copy, Debug)]
pub enum Turn {
    Next(u64),
    Spends,
    Leaves,
}

/// A law: the runs of each first program begin with nothing printed, print at most one text a step, and keep their end.
pub fn runs_are_of_a_meaning()
    ensures { (program : List Statement) (order : List ℕ) → IsMeaning (dart program order) }
{}

/// The number, unless it is farther than 2^53 - 1 from 0.
fn in_range(number: i128) -> Option<i128>
    ensures { result ≡ meaning.in_range number }
{
    if number.unsigned_abs() <= u128::from(MAX_NUMBER) {
        Some(number)
    } else {
        None
    }
}

#[tactic(auto, using(crate::proofs::Numbers::too_wide))]
fn times(total: i128, factor: i128) -> Option<i128>
    ensures { result ≡ meaning.in_range (total *ℤ factor) }
{
    let product = total.checked_mul(factor)?;
    in_range(product)
}

#[tactic(auto, using(crate::proofs::Numbers::too_wide))]
fn plus(total: i128, value: i128) -> Option<i128>
    ensures { result ≡ meaning.in_range (total +ℤ value) }
{
    let sum = total.checked_add(value)?;
    in_range(sum)
}

#[tactic(auto, using(crate::proofs::Numbers::too_wide))]
fn minus(total: i128, value: i128) -> Option<i128>
    ensures { result ≡ meaning.in_range (total -ℤ value) }
{
    let difference = total.checked_sub(value)?;
    in_range(difference)
}

fn signed(sign: Sign, total: i128, value: i128) -> Option<i128>
    ensures { result ≡ meaning.in_range (meaning.signed sign total value) }
{
    match sign {
        Sign::Plus => plus(total, value),
        Sign::Minus => minus(total, value),
    }
}

fn operand_value<'a>(values: &[Value<'a>], operand: Operand) -> Option<Value<'a>>
    ensures { option_map datum_of result ≡ meaning.operand_value (map datum_of values.now) operand }
{
    match operand {
        Operand::Number(number) => Some(Value::Whole(i128::from(number))),
        Operand::Variable(place) => values.get(place as usize).copied(),
    }
}

fn number_in(values: &[Value], operand: Operand) -> Option<i128>
    ensures { result ≡ meaning.number_in (meaning.operand_value (map datum_of values.now) operand) }
{
    match operand_value(values, operand) {
        Some(Value::Whole(number)) => Some(number),
        Some(Value::Letters(_)) => None,
        None => None,
    }
}

fn product_from(values: &[Value], first: i128, operands: &[Operand]) -> Option<i128>
    ensures { result ≡ meaning.product_from (map datum_of values.now) first operands.now }
{
    let mut total = first;
    for operand in operands {
        let factor = number_in(values, *operand)?;
        total = times(total, factor)?;
    }
    Some(total)
}

fn product_value(values: &[Value], product: &Product) -> Option<i128>
    ensures { result ≡ meaning.product_value (map datum_of values.now) product.now }
{
    let first = number_in(values, product.first)?;
    product_from(values, first, product.rest.as_slice())
}

fn sum_from(values: &[Value], first: i128, addends: &[Addend]) -> Option<i128>
    ensures { result ≡ meaning.sum_from (map datum_of values.now) first addends.now }
{
    let mut total = first;
    for addend in addends {
        let value = product_value(values, &addend.product)?;
        total = signed(addend.sign, total, value)?;
    }
    Some(total)
}

fn sum_value(values: &[Value], sum: &Sum) -> Option<i128>
    ensures { result ≡ meaning.sum_value (map datum_of values.now) sum.now }
{
    let first = product_value(values, &sum.first)?;
    sum_from(values, first, sum.rest.as_slice())
}

/// The operand of a sum that has no operator.
fn lone(sum: &Sum) -> Option<Operand>
    ensures { result ≡ program.lone sum.now }
{
    if sum.first.rest.as_slice().is_empty() && sum.rest.as_slice().is_empty() {
        Some(sum.first.first)
    } else {
        None
    }
}

fn lone_or_sum<'a>(values: &[Value<'a>], sum: &Sum) -> Option<Value<'a>>
    ensures { option_map datum_of result ≡ meaning.lone_or_sum (map datum_of values.now) sum.now (program.lone sum.now) }
{
    match lone(sum) {
        Some(operand) => operand_value(values, operand),
        None => {
            let number = sum_value(values, sum)?;
            Some(Value::Whole(number))
        }
    }
}

fn expression_value<'a>(values: &[Value<'a>], expression: &'a Expression) -> Option<Value<'a>>
    ensures { option_map datum_of result ≡ meaning.expression_value (map datum_of values.now) expression.now }
{
    match expression {
        Expression::Text(text) => Some(Value::Letters(text.as_slice())),
        Expression::Sum(sum) => lone_or_sum(values, sum),
    }
}

/// The text that has each byte as a unit.
fn text_of(alloc: Global, bytes: &[u8]) -> Result<Text, AllocError>
    ensures { IfOk result (λ text. text ≡ bytes.now) }
{
    let mut text = Text::new(alloc);
    for byte in bytes {
        text.push(u16::from(*byte))?;
    }
    Ok(text)
}

fn decimal_text(alloc: Global, number: i128) -> Result<Text, AllocError>
    ensures { IfOk result (λ text. text ≡ meaning.text_of (meaning.Whole number)) }
{
    let mut buffer = Buffer::new();
    text_of(alloc, buffer.format(number).as_bytes())
}

fn value_text(alloc: Global, value: Value) -> Result<Text, AllocError>
    ensures { IfOk result (λ text. text ≡ meaning.text_of (datum_of value.entry)) }
{
    match value {
        Value::Whole(number) => decimal_text(alloc, number),
        Value::Letters(units) => Text::from_slice(alloc, units),
    }
}

/// One step for the statement, one for its expression, and one for the call of print.
fn print_statement(
    alloc: Global,
    expression: &Expression,
    steps: u64,
    values: &[Value],
    output: &mut Lines,
) -> Result<Turn, AllocError>
    ensures { IfOk result (λ turn. turned (map datum_of values.now) output.new turn ≡ spec.print_turn expression.now (map datum_of values.now) steps output.old) }
{
    if steps < 2 {
        return Ok(Turn::Spends);
    }
    let Some(value) = expression_value(values, expression) else {
        return Ok(Turn::Leaves);
    };
    if steps == 2 {
        return Ok(Turn::Spends);
    }
    let text = value_text(alloc, value)?;
    output.push(text)?;
    Ok(Turn::Next(steps - 3))
}

/// One step for the statement, and one for its expression.
fn declare_statement<'a>(
    expression: &'a Expression,
    steps: u64,
    values: &mut Vec<Value<'a>>,
) -> Result<Turn, AllocError>
    ensures { (output : List (List ℕ)) → IfOk result (λ turn. turned (map datum_of values.new.items) output turn ≡ spec.declare_turn expression.now (map datum_of values.old.items) steps output) }
{
    if steps < 2 {
        return Ok(Turn::Spends);
    }
    let Some(value) = expression_value(values.as_slice(), expression) else {
        return Ok(Turn::Leaves);
    };
    values.push(value)?;
    Ok(Turn::Next(steps - 2))
}

fn statement<'a>(
    alloc: Global,
    statement: &'a Statement,
    steps: u64,
    values: &mut Vec<Value<'a>>,
    output: &mut Lines,
) -> Result<Turn, AllocError>
    ensures { IfOk result (λ turn. turned (map datum_of values.new.items) output.new turn ≡ spec.turn statement.now (map datum_of values.old.items) steps output.old) }
{
    match statement {
        Statement::Print(expression) => print_statement(
            alloc,
            expression,
            steps,
            values.as_slice(),
            output,
        ),
        Statement::Declare { value, .. } => declare_statement(value, steps, values),
    }
}

fn run_program(alloc: Global, program: &[Statement], steps: u64) -> Result<RunEnd, AllocError>
    ensures { IfOk result (λ run. (order : List ℕ) → run ≡ run_end_of (dart program.now order steps)) }
{
    let mut output = Lines::new(alloc);
    if steps == 0 {
        return Ok(RunEnd {
            output,
            end: End::Spent,
        });
    }
    let mut values = Vec::new(alloc);
    let mut left = steps - 1;
    for item in program {
        match statement(alloc, item, left, &mut values, &mut output)? {
            Turn::Next(next) => left = next,
            Turn::Spends => {
                return Ok(RunEnd {
                    output,
                    end: End::Spent,
                });
            }
            Turn::Leaves => {
                return Ok(RunEnd {
                    output,
                    end: End::Left,
                });
            }
        }
    }
    Ok(RunEnd {
        output,
        end: End::Done,
    })
}

/// The run of the first program that these tokens are, of so many steps at most; None exactly where they are none.
pub fn run_first(alloc: Global, tokens: &[Token], steps: u64) -> Result<Option<RunEnd>, AllocError>
    ensures { IfOk result (λ run. MatchOption run ((p : List Statement) → IsProgram tokens.now p → ⊥) (λ run. (p : List Statement) × IsProgram tokens.now p × ((order : List ℕ) → run ≡ run_end_of (dart p order steps)))) }
{
    let Some(program) = read_program(alloc, tokens)? else {
        return Ok(None);
    };
    Ok(Some(run_program(alloc, program.as_slice(), steps)?))
}
