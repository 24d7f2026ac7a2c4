//! From a first program to JavaScript.
ghost use Rattle.std.specs.Prelude.{◌≡◌, ◌≤◌, List, [], ◌∷◌, ◌++◌, length, IfOk, OnOk, MatchOption};
ghost use Rattle.dart_meaning.specs.declared.program.Statement.{Statement};
ghost use Rattle.dart_meaning.specs.Program.{is_text, lone};
ghost use Rattle.dart_web_cli.specs.Translation.{Behind, operand_of, operator_of, operation, operation_let, product_then, addends_then, expression_then, statements_from, file_of, TranslationIsRight, Translates};

use crate::parts::{
    alone, file_with, last_statement, operation, operation_let, print_of, variable, variable_let,
};
use code_units::Bytes;
use dart_meaning::{Addend, Expression, Operand, Product, Sign, Statement, Sum, read_program};
use dart_syntax::Token;
use js_tree::{JsFile, JsHead, JsOperator, JsPrimary, JsStmt, print_file};
use sqlite_items::Items;
use std::alloc::{AllocError, Global};

/// The translation of a program, read back, runs as the program does.
pub fn translation_is_right()
    ensures { TranslationIsRight }
{}

// The statements so far.
type Body = Items<JsStmt>;

// What stands for the value of an expression, and the number of the next operator.
#[derive(Drop)]
struct Translated {
    operators: u64,
    value: JsPrimary,
}

fn translate_operand(alloc: Global, operand: Operand) -> Result<JsPrimary, AllocError>
    ensures { IfOk result (λ value. value ≡ operand_of operand) }
{
    match operand {
        Operand::Number(number) => Ok(alone(alloc, JsHead::Digits(number))),
        Operand::Variable(i) => variable(alloc, i),
    }
}

fn translate_sign(sign: Sign) -> JsOperator
    ensures { result ≡ operator_of sign }
{
    match sign {
        Sign::Plus => JsOperator::Plus,
        Sign::Minus => JsOperator::Minus,
    }
}

// The operand, where there is no operator.
fn lone(sum: &Sum) -> Option<Operand>
    ensures { result ≡ lone sum.now }
{
    if sum.first.rest.is_empty() && sum.rest.is_empty() {
        Some(sum.first.first)
    } else {
        None
    }
}

// Whether the value is a text, where the names have these kinds.
fn is_text(kinds: &[bool], value: &Expression) -> bool
    ensures { result ≡ is_text kinds.now value.now }
{
    match value {
        Expression::Text(_) => true,
        Expression::Sum(sum) => match lone(sum) {
            Some(Operand::Variable(k)) => kinds.get(k as usize).copied().unwrap_or(false),
            Some(Operand::Number(_)) | None => false,
        },
    }
}

// Adds the let of the operator of this number, and gives what stands for its value.
fn push_operation(
    alloc: Global,
    body: &mut Body,
    number: u64,
    operator: JsOperator,
    left: JsPrimary,
    right: JsPrimary,
) -> Result<JsPrimary, AllocError>
    ensures statement { OnOk result (body.new ≡ body.old ++ operation_let number operator left right ∷ []) }
    ensures value { IfOk result (λ value. value ≡ operation number) }
{
    body.push(operation_let(alloc, number, operator, left, right)?)?;
    operation(alloc, number)
}

// The operators of a product, numbered from `operators` on.
fn translate_product(
    alloc: Global,
    body: &mut Body,
    operators: u64,
    product: &Product,
) -> Result<Translated, AllocError>
    requires { operators ≤ length body.old }
    ensures lets { IfOk result (λ r. (behind : Behind) → body.new ++ behind r.operators r.value ≡ body.old ++ product_then operators (operand_of product.now.first) product.now.rest behind) }
    ensures few { IfOk result (λ r. r.operators ≤ length body.new) }
{
    let mut operators = operators;
    let mut value = translate_operand(alloc, product.first)?;
    for factor in product.rest.as_slice() {
        let right = translate_operand(alloc, *factor)?;
        value = push_operation(alloc, body, operators, JsOperator::Times, value, right)?;
        let _length = body.len();
        operators += 1;
    }
    Ok(Translated { operators, value })
}

// The operators of the addends behind a first product, for which `value` stands.
fn translate_addends(
    alloc: Global,
    body: &mut Body,
    operators: u64,
    value: JsPrimary,
    addends: &[Addend],
) -> Result<Translated, AllocError>
    requires { operators ≤ length body.old }
    ensures lets { IfOk result (λ r. (behind : Behind) → body.new ++ behind r.operators r.value ≡ body.old ++ addends_then operators value addends.now behind) }
    ensures few { IfOk result (λ r. r.operators ≤ length body.new) }
{
    let mut operators = operators;
    let mut value = value;
    for addend in addends {
        let product = translate_product(alloc, body, operators, &addend.product)?;
        let Translated {
            operators: number,
            value: right,
        } = product;
        let operator = translate_sign(addend.sign);
        value = push_operation(alloc, body, number, operator, value, right)?;
        let _length = body.len();
        operators = number + 1;
    }
    Ok(Translated { operators, value })
}

fn translate_expression(
    alloc: Global,
    body: &mut Body,
    operators: u64,
    value: &Expression,
) -> Result<Translated, AllocError>
    requires { operators ≤ length body.old }
    ensures lets { IfOk result (λ r. (behind : Behind) → body.new ++ behind r.operators r.value ≡ body.old ++ expression_then operators value.now behind) }
    ensures few { IfOk result (λ r. r.operators ≤ length body.new) }
{
    match value {
        Expression::Text(text) => {
            let units = Items::from_slice(alloc, text.as_slice())?;
            Ok(Translated {
                operators,
                value: alone(alloc, JsHead::Str(units)),
            })
        }
        Expression::Sum(sum) => {
            let first = translate_product(alloc, body, operators, &sum.first)?;
            translate_addends(
                alloc,
                body,
                first.operators,
                first.value,
                sum.rest.as_slice(),
            )
        }
    }
}

// Translates one statement, behind `operators` operators and names of these kinds, and gives the number of the next
// operator.
fn translate_statement(
    alloc: Global,
    body: &mut Body,
    operators: u64,
    kinds: &mut Vec<bool>,
    statement: &Statement,
) -> Result<u64, AllocError>
    requires { operators ≤ length body.old }
    ensures statements { IfOk result (λ next. (program : List Statement) → body.new ++ statements_from next kinds.new.items program ≡ body.old ++ statements_from operators kinds.old.items (statement.now ∷ program)) }
    ensures few { IfOk result (λ next. next ≤ length body.new) }
{
    match statement {
        Statement::Print(value) => {
            let printed = translate_expression(alloc, body, operators, value)?;
            let Translated {
                operators,
                value: p,
            } = printed;
            body.push(print_of(alloc, is_text(kinds.as_slice(), value), p)?)?;
            Ok(operators)
        }
        Statement::Declare { value, .. } => {
            let declared = translate_expression(alloc, body, operators, value)?;
            let Translated {
                operators,
                value: p,
            } = declared;
            body.push(variable_let(alloc, kinds.len() as u64, p)?)?;
            let is_text = is_text(kinds.as_slice(), value);
            kinds.push(is_text)?;
            Ok(operators)
        }
    }
}

// The statements, and behind them the last one.
fn translate_all(alloc: Global, program: &[Statement]) -> Result<Body, AllocError>
    ensures { IfOk result (λ body. body ≡ statements_from 0 [] program.now) }
{
    let mut body = Items::new(alloc);
    let mut operators = 0u64;
    let mut kinds = Vec::new(alloc);
    for statement in program {
        operators = translate_statement(alloc, &mut body, operators, &mut kinds, statement)?;
    }
    body.push(last_statement(alloc))?;
    Ok(body)
}

// The tree of the translation, without places.
fn translate(alloc: Global, program: &[Statement]) -> Result<JsFile, AllocError>
    ensures { IfOk result (λ file. file ≡ file_of program.now) }
{
    let body = translate_all(alloc, program)?;
    file_with(alloc, body)
}

/// The translation of the first program that these tokens are, which runs as that program does; None exactly where they
/// are none.
pub fn compile_first(alloc: Global, tokens: &[Token]) -> Result<Option<Bytes>, AllocError>
    ensures { IfOk result (Translates tokens.now) }
{
    let Some(program) = read_program(alloc, tokens)? else {
        return Ok(None);
    };
    let file = translate(alloc, program.as_slice())?;
    Ok(Some(print_file(alloc, &file)?))
}
