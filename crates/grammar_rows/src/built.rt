//! Trees that are built with no parser, faults too, and what is told of them.

use anyhow::{Result, bail};
use code_units::Text;
use dart_grammar::spans::{
    fits, head_span, is_super, joined, selectors_end, span_of, stmt_span, target_span,
};
use dart_grammar::trees::{Chain, Expr, Head, Name, Operator, Span, Stmt, Target};
use decl_parser::laws::one_file;
use expr_parser::SyntaxFault;
use sqlite_items::{Boxed, Items};
use std::alloc::{AllocError, Global};

fn chain_of(alloc: Global, head: Head) -> Result<Expr, AllocError> {
    let span = head_span(&head);
    let selectors = Items::new(alloc);
    let chain = Chain {
        span: Span {
            from: span.from,
            to: selectors_end(span.to, selectors.as_slice()),
        },
        head,
        selectors,
    };
    Ok(Expr::Chained(Boxed::new(alloc, chain)?))
}

// `super` at 2-7.
fn whole(alloc: Global) -> Result<Expr, AllocError> {
    chain_of(alloc, Head::Super(Span { from: 2, to: 7 }))
}

// A number at 9-10.
fn number(alloc: Global) -> Result<Expr, AllocError> {
    chain_of(alloc, Head::Number(Span { from: 9, to: 10 }, 1))
}

fn shown(alloc: Global, span: Span) -> Result<String, AllocError> {
    format!(in alloc; "{}-{}", span.from, span.to)
}

fn name(alloc: Global) -> Result<Name, AllocError> {
    Ok(Name {
        text: Text::from_str(alloc, "x")?,
        span: Span { from: 2, to: 7 },
    })
}

fn statement(alloc: Global) -> Result<Stmt, AllocError> {
    let value = Boxed::new(alloc, number(alloc)?)?;
    Ok(Stmt::Evaluate(Span { from: 2, to: 7 }, value))
}

// Whether the operator fits between `super` and the number.
fn fits_between(alloc: Global, operator: Operator) -> Result<bool, AllocError> {
    Ok(fits(operator, &whole(alloc)?, &number(alloc)?))
}

/// What is told of the tree that the words name: of `super` at 2-7, of a number at 9-10, and of a target and a statement
/// at 2-7. Faults are shown, and the law that tokens are those of one file at most is called.
pub fn built(alloc: Global, words: &[u8]) -> Result<String> {
    Ok(match words {
        b"super is super" => format!(in alloc; "{}", is_super(&whole(alloc)?))?,
        b"number is super" => format!(in alloc; "{}", is_super(&number(alloc)?))?,
        b"super + number fits" => format!(in alloc; "{}", fits_between(alloc, Operator::Plus)?)?,
        b"super == number fits" => format!(in alloc; "{}", fits_between(alloc, Operator::Equal)?)?,
        b"super" => shown(alloc, span_of(&whole(alloc)?))?,
        b"super and number" => shown(alloc, joined(&whole(alloc)?, &number(alloc)?))?,
        b"target" => shown(alloc, target_span(&Target::Bare(name(alloc)?)))?,
        b"statement" => shown(alloc, stmt_span(&statement(alloc)?))?,
        b"not derived" => return Err(SyntaxFault::NotDerived { at: 7 }.into()),
        b"too deep" => return Err(SyntaxFault::TooDeep { at: 7 }.into()),
        b"one file" => {
            one_file();
            String::from_str(alloc, "a law")?
        }
        _ => bail!("no such tree"),
    })
}
