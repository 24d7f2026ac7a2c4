//! The program that tokens are. Each function here is given tokens, and answers what it read from their front, and what is
//! behind it.

ghost use Rattle.std.specs.Prelude.{◌≡◌, [], List, ℕ, length, IfOk, Some, MatchOption, codes};
ghost use Rattle.std.specs.Option.{option_map};
ghost use Rattle.std.specs.Str.{bytes_eq};
ghost use Rattle.dart_meaning.specs.declared.program.Statement.{Statement};
ghost use Rattle.dart_meaning.specs.Program as program;
ghost use Rattle.dart_meaning.specs.Program.{forms_of, IsProgram, OneProgram};
ghost use Rattle.dart_meaning.specs.Scope as scope;
ghost use Rattle.dart_meaning.specs.Reader as spec;

use crate::names::Names;
use crate::program::{Addend, Expression, MAX_NUMBER, Operand, Product, Program, Statement, Sum};
use crate::tokens::{
    begins_declaration, begins_text, name, named, next, plus_or_minus, sign, text, var_word,
};
use code_units::Text;
use dart_syntax::{Form, Sign as Mark, Token};
use sqlite_items::Items;
use std::alloc::{AllocError, Global};

/// `main`
const MAIN: [u16; 4] = [109, 97, 105, 110];

/// `print`
const PRINT: [u16; 5] = [112, 114, 105, 110, 116];

/// Whether a name isn't `print`.
fn may_name(name: &[u16]) -> bool
    ensures { result ≡ program.may_name name.now }
{
    name != PRINT.as_slice()
}

#[tactic(auto, unfolding(crate::specs::Reader::constant_of))]
fn constant_of(number: u64) -> Option<(Operand, bool)>
    ensures { result ≡ spec.constant_of number }
{
    if number <= MAX_NUMBER {
        Some((Operand::Number(number), false))
    } else {
        None
    }
}

#[tactic(auto, unfolding(crate::specs::Reader::variable_of))]
fn variable_of(names: &Names, name: &[u16]) -> Option<(Operand, bool)>
    ensures { result ≡ spec.variable_of names.now name.now }
{
    let (place, is_text) = names.find(name)?;
    Some((Operand::Variable(place), is_text))
}

fn operand_of(names: &Names, form: &Form) -> Option<(Operand, bool)>
    ensures { result ≡ spec.operand_of names.now form.now }
{
    match form {
        Form::Name(name) => variable_of(names, name.as_slice()),
        Form::Number(number) => constant_of(*number),
        _ => None,
    }
}

/// An operand, and whether it stands for a text.
#[tactic(auto, unfolding(crate::specs::Reader::operand))]
fn operand<'a>(names: &Names, tokens: &'a [Token]) -> Option<(Operand, bool, &'a [Token])>
    ensures { option_map (λ x. (x.0, x.1, forms_of x.2.now)) result ≡ spec.operand names.now (forms_of tokens.now) }
{
    let (form, rest) = next(tokens)?;
    let (operand, is_text) = operand_of(names, form)?;
    Some((operand, is_text, rest))
}

/// An operand of an operator: one that stands for no text.
#[tactic(auto, unfolding(crate::specs::Reader::factor))]
fn factor<'a>(names: &Names, tokens: &'a [Token]) -> Option<(Operand, &'a [Token])>
    ensures { option_map (λ x. (x.0, forms_of x.1.now)) result ≡ spec.factor names.now (forms_of tokens.now) }
{
    let (operand, is_text, rest) = operand(names, tokens)?;
    if is_text { None } else { Some((operand, rest)) }
}

/// The operands behind the first one of a product. Each takes a token at least.
#[tactic(auto, using(crate::proofs::Turns::one_turn, crate::proofs::Turns::no_turn), unfolding(crate::specs::Reader::factors))]
fn factors<'a>(
    alloc: Global,
    names: &Names,
    tokens: &'a [Token],
) -> Result<Option<(Items<Operand>, &'a [Token])>, AllocError>
    ensures { IfOk result (λ found. option_map (λ x. (x.0, forms_of x.1.now)) found ≡ spec.factors (length tokens.now) names.now [] (forms_of tokens.now)) }
{
    let mut operands = Items::new(alloc);
    let mut rest = tokens;
    for _turn in 0..tokens.len() {
        let Some(after) = sign(Mark::Times, rest) else {
            return Ok(Some((operands, rest)));
        };
        let Some((operand, after)) = factor(names, after) else {
            return Ok(None);
        };
        operands.push(operand)?;
        rest = after;
    }
    Ok(Some((operands, rest)))
}

/// A product, behind its first operand.
#[tactic(auto, using(crate::proofs::Turns::as_many), unfolding(crate::specs::Reader::product_behind))]
fn product_behind<'a>(
    alloc: Global,
    names: &Names,
    first: Operand,
    tokens: &'a [Token],
) -> Result<Option<(Product, &'a [Token])>, AllocError>
    ensures { IfOk result (λ found. option_map (λ x. (x.0, forms_of x.1.now)) found ≡ spec.product_behind names.now first (forms_of tokens.now)) }
{
    let Some((operands, after)) = factors(alloc, names, tokens)? else {
        return Ok(None);
    };
    Ok(Some((
        Product {
            first,
            rest: operands,
        },
        after,
    )))
}

#[tactic(auto, unfolding(crate::specs::Reader::product))]
fn product<'a>(
    alloc: Global,
    names: &Names,
    tokens: &'a [Token],
) -> Result<Option<(Product, &'a [Token])>, AllocError>
    ensures { IfOk result (λ found. option_map (λ x. (x.0, forms_of x.1.now)) found ≡ spec.product names.now (forms_of tokens.now)) }
{
    let Some((first, after)) = factor(names, tokens) else {
        return Ok(None);
    };
    product_behind(alloc, names, first, after)
}

/// The addends behind the first product of a sum. Each takes a token at least.
#[tactic(auto, using(crate::proofs::Turns::one_turn, crate::proofs::Turns::no_turn), unfolding(crate::specs::Reader::addends))]
fn addends<'a>(
    alloc: Global,
    names: &Names,
    tokens: &'a [Token],
) -> Result<Option<(Items<Addend>, &'a [Token])>, AllocError>
    ensures { IfOk result (λ found. option_map (λ x. (x.0, forms_of x.1.now)) found ≡ spec.addends (length tokens.now) names.now [] (forms_of tokens.now)) }
{
    let mut addends = Items::new(alloc);
    let mut rest = tokens;
    for _turn in 0..tokens.len() {
        let Some((sign, after)) = plus_or_minus(rest) else {
            return Ok(Some((addends, rest)));
        };
        let Some((product, after)) = product(alloc, names, after)? else {
            return Ok(None);
        };
        addends.push(Addend { sign, product })?;
        rest = after;
    }
    Ok(Some((addends, rest)))
}

/// A sum of numbers, behind its first operand.
#[tactic(auto, using(crate::proofs::Turns::as_many), unfolding(crate::specs::Reader::sum_behind))]
fn sum_behind<'a>(
    alloc: Global,
    names: &Names,
    first: Operand,
    tokens: &'a [Token],
) -> Result<Option<(Sum, &'a [Token])>, AllocError>
    ensures { IfOk result (λ found. option_map (λ x. (x.0, forms_of x.1.now)) found ≡ spec.sum_behind names.now first (forms_of tokens.now)) }
{
    let Some((first, after)) = product_behind(alloc, names, first, tokens)? else {
        return Ok(None);
    };
    let Some((rest, after)) = addends(alloc, names, after)? else {
        return Ok(None);
    };
    Ok(Some((Sum { first, rest }, after)))
}

/// The sum of one operand.
fn alone(alloc: Global, operand: Operand) -> Sum
    ensures { result ≡ spec.alone operand }
{
    let first = Product {
        first: operand,
        rest: Items::new(alloc),
    };
    Sum {
        first,
        rest: Items::new(alloc),
    }
}

/// A sum of numbers, or the name of a text; and whether it is this name.
#[tactic(auto, unfolding(crate::specs::Reader::sum))]
fn sum<'a>(
    alloc: Global,
    names: &Names,
    tokens: &'a [Token],
) -> Result<Option<(Sum, bool, &'a [Token])>, AllocError>
    ensures { IfOk result (λ found. option_map (λ x. (x.0, x.1, forms_of x.2.now)) found ≡ spec.sum names.now (forms_of tokens.now)) }
{
    let Some((first, is_text, after)) = operand(names, tokens) else {
        return Ok(None);
    };
    if is_text {
        return Ok(Some((alone(alloc, first), true, after)));
    }
    let Some((sum, after)) = sum_behind(alloc, names, first, after)? else {
        return Ok(None);
    };
    Ok(Some((sum, false, after)))
}

#[tactic(auto, unfolding(crate::specs::Reader::text_expression))]
fn text_expression(tokens: &[Token]) -> Result<Option<(Expression, bool, &[Token])>, AllocError>
    ensures { IfOk result (λ found. option_map (λ x. (x.0, x.1, forms_of x.2.now)) found ≡ spec.text_expression (forms_of tokens.now)) }
{
    let Some((units, after)) = text(tokens) else {
        return Ok(None);
    };
    let units = units.copy()?;
    Ok(Some((Expression::Text(units), true, after)))
}

#[tactic(auto, unfolding(crate::specs::Reader::sum_expression))]
fn sum_expression<'a>(
    alloc: Global,
    names: &Names,
    tokens: &'a [Token],
) -> Result<Option<(Expression, bool, &'a [Token])>, AllocError>
    ensures { IfOk result (λ found. option_map (λ x. (x.0, x.1, forms_of x.2.now)) found ≡ spec.sum_expression names.now (forms_of tokens.now)) }
{
    let Some((sum, is_text, after)) = sum(alloc, names, tokens)? else {
        return Ok(None);
    };
    Ok(Some((Expression::Sum(sum), is_text, after)))
}

/// An expression, and whether it stands for a text.
#[tactic(auto, unfolding(crate::specs::Reader::expression))]
fn expression<'a>(
    alloc: Global,
    names: &Names,
    tokens: &'a [Token],
) -> Result<Option<(Expression, bool, &'a [Token])>, AllocError>
    ensures { IfOk result (λ found. option_map (λ x. (x.0, x.1, forms_of x.2.now)) found ≡ spec.expression names.now (forms_of tokens.now)) }
{
    if begins_text(tokens) {
        text_expression(tokens)
    } else {
        sum_expression(alloc, names, tokens)
    }
}

/// `print ( e ) ;`
#[tactic(auto, unfolding(crate::specs::Reader::print_statement))]
fn print_statement<'a>(
    alloc: Global,
    names: &Names,
    tokens: &'a [Token],
) -> Result<Option<(Statement, &'a [Token])>, AllocError>
    ensures { IfOk result (λ found. option_map (λ x. (x.0, names.now, forms_of x.1.now)) found ≡ spec.print_statement names.now (forms_of tokens.now)) }
{
    let Some(after) = print_opening(tokens) else {
        return Ok(None);
    };
    let Some((value, _, after)) = expression(alloc, names, after)? else {
        return Ok(None);
    };
    let Some(rest) = print_closing(after) else {
        return Ok(None);
    };
    Ok(Some((Statement::Print(value), rest)))
}

/// `print (`
#[tactic(auto, unfolding(crate::specs::Reader::print_opening))]
fn print_opening(tokens: &[Token]) -> Option<&[Token]>
    ensures { option_map (λ x. forms_of x.now) result ≡ spec.print_opening (forms_of tokens.now) }
{
    let after = named(PRINT.as_slice(), tokens)?;
    sign(Mark::OpenParen, after)
}

/// `) ;`
#[tactic(auto, unfolding(crate::specs::Reader::print_closing))]
fn print_closing(tokens: &[Token]) -> Option<&[Token]>
    ensures { option_map (λ x. forms_of x.now) result ≡ spec.print_closing (forms_of tokens.now) }
{
    let after = sign(Mark::CloseParen, tokens)?;
    sign(Mark::Semicolon, after)
}

/// `var name =`
#[tactic(auto, unfolding(crate::specs::Reader::declaration_opening))]
fn declaration_opening(tokens: &[Token]) -> Option<(&[u16], &[Token])>
    ensures { option_map (λ x. (x.0.now, forms_of x.1.now)) result ≡ spec.declaration_opening (forms_of tokens.now) }
{
    let after = var_word(tokens)?;
    let (name, after) = name(after)?;
    if !may_name(name) {
        return None;
    }
    let rest = sign(Mark::Assign, after)?;
    Some((name, rest))
}

/// `var name = e ;`
#[tactic(auto, unfolding(crate::specs::Reader::declaration))]
fn declaration<'a>(
    alloc: Global,
    names: &mut Names<'a>,
    tokens: &'a [Token],
) -> Result<Option<(Statement, &'a [Token])>, AllocError>
    ensures { IfOk result (λ found. option_map (λ x. (x.0, names.new, forms_of x.1.now)) found ≡ spec.declaration names.old (forms_of tokens.now)) }
{
    let Some((name, after)) = declaration_opening(tokens) else {
        return Ok(None);
    };
    let Some((value, is_text, after)) = expression(alloc, names, after)? else {
        return Ok(None);
    };
    let Some(rest) = sign(Mark::Semicolon, after) else {
        return Ok(None);
    };
    if !names.declare(name, is_text)? {
        return Ok(None);
    }
    let name = Text::from_slice(alloc, name)?;
    Ok(Some((Statement::Declare { name, value }, rest)))
}

#[tactic(auto, unfolding(crate::specs::Reader::statement))]
fn statement<'a>(
    alloc: Global,
    names: &mut Names<'a>,
    tokens: &'a [Token],
) -> Result<Option<(Statement, &'a [Token])>, AllocError>
    ensures { IfOk result (λ found. option_map (λ x. (x.0, names.new, forms_of x.1.now)) found ≡ spec.statement names.old (forms_of tokens.now)) }
{
    if begins_declaration(tokens) {
        declaration(alloc, names, tokens)
    } else {
        print_statement(alloc, names, tokens)
    }
}

/// `main ( ) {`
#[tactic(auto, unfolding(crate::specs::Reader::opening))]
fn opening(tokens: &[Token]) -> Option<&[Token]>
    ensures { option_map (λ x. forms_of x.now) result ≡ spec.opening (forms_of tokens.now) }
{
    let after = named(MAIN.as_slice(), tokens)?;
    let after = sign(Mark::OpenParen, after)?;
    let after = sign(Mark::CloseParen, after)?;
    sign(Mark::OpenBrace, after)
}

/// The program, where nothing is behind it.
fn closed(program: Program, rest: &[Token]) -> Option<Program>
    ensures { result ≡ spec.closed program (forms_of rest.now) }
{
    match next(rest) {
        Some(_) => None,
        None => Some(program),
    }
}

/// The statements up to the `}` that is the last token. Each takes a token at least.
#[tactic(auto, using(crate::proofs::Turns::one_turn, crate::proofs::Turns::no_turn), unfolding(crate::specs::Reader::statements))]
fn statements(alloc: Global, tokens: &[Token]) -> Result<Option<Program>, AllocError>
    ensures { IfOk result (λ found. found ≡ spec.statements (length tokens.now) scope.no_names [] (forms_of tokens.now)) }
{
    let mut names = Names::new(alloc);
    let mut program = Items::new(alloc);
    let mut rest = tokens;
    for _turn in 0..tokens.len() {
        if let Some(after) = sign(Mark::CloseBrace, rest) {
            return Ok(closed(program, after));
        }
        let Some((statement, after)) = statement(alloc, &mut names, rest)? else {
            return Ok(None);
        };
        program.push(statement)?;
        rest = after;
    }
    Ok(None)
}

#[tactic(auto, using(crate::proofs::Turns::as_many), unfolding(crate::specs::Reader::read))]
fn read(alloc: Global, tokens: &[Token]) -> Result<Option<Program>, AllocError>
    ensures { IfOk result (λ found. found ≡ spec.read (forms_of tokens.now)) }
{
    let Some(rest) = opening(tokens) else {
        return Ok(None);
    };
    statements(alloc, rest)
}

/// The first program that these tokens are, all of them; None exactly where they are none. Takes time linear in the
/// tokens, where a look-up of a name takes constant time.
pub fn read_program(alloc: Global, tokens: &[Token]) -> Result<Option<Program>, AllocError>
    ensures exact { IfOk result (λ program. MatchOption program ((p : List Statement) → IsProgram tokens.now p → ⊥) (IsProgram tokens.now)) }
    ensures one { IfOk result (λ program. (p : List Statement) → IsProgram tokens.now p → program ≡ Some p) }
{
    read(alloc, tokens)
}

/// A law: tokens are one program at most.
pub fn tokens_are_one_program()
    ensures { OneProgram }
{}
