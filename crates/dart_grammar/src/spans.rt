//! Where trees stand in the file, and parts of trees that the grammar asks for.
ghost use Rattle.std.specs.Prelude.{◌≡◌};
ghost use Rattle.dart_grammar.specs.Trees as spec;
ghost use Rattle.dart_grammar.specs.declared.trees.Head.{out-Head};

use crate::marks::is_declared;
use crate::trees::{Expr, Head, Operator, Selector, Span, Stmt, Target};

/// The bytes of an expression.
#[tactic(auto, unfolding(crate::specs::Trees::span_of))]
pub fn span_of(expr: &Expr) -> Span
    ensures { result ≡ spec.span_of expr.now }
{
    match expr {
        Expr::Chained(chain) => chain.get().span,
        Expr::StepBefore(span, _, _) => *span,
        Expr::StepBehind(span, _, _) => *span,
        Expr::Prefixed(span, _, _) => *span,
        Expr::Operated(span, _, _, _) => *span,
        Expr::Is(span, _, _) => *span,
        Expr::IsNot(span, _, _) => *span,
        Expr::As(span, _, _) => *span,
        Expr::Conditional(span, _, _, _) => *span,
        Expr::Assigned(span, _, _, _) => *span,
        Expr::Throw(span, _) => *span,
    }
}

/// The bytes of what a chain begins with.
#[tactic(auto, unfolding(crate::specs::Trees::head_span))]
pub fn head_span(head: &Head) -> Span
    ensures { result ≡ spec.head_span head.now }
{
    match head {
        Head::Named(name) => name.span,
        Head::This(span) => *span,
        Head::Super(span) => *span,
        Head::Null(span) => *span,
        Head::True(span) => *span,
        Head::False(span) => *span,
        Head::Number(span, _) => *span,
        Head::Texts(span, _, _) => *span,
        Head::New(span, _, _) => *span,
        Head::Parenthesised(span, _) => *span,
        Head::Literal(span, _, _) => *span,
        Head::List(span, _) => *span,
        Head::Map(span, _) => *span,
    }
}

/// The bytes of a selector.
#[tactic(auto, unfolding(crate::specs::Trees::selector_span))]
pub fn selector_span(selector: &Selector) -> Span
    ensures { result ≡ spec.selector_span selector.now }
{
    match selector {
        Selector::Member(span, _) => *span,
        Selector::Invoke(span, _, _) => *span,
        Selector::Index(span, _) => *span,
        Selector::Call(arguments) => arguments.span,
    }
}

/// Where the last selector ends; `end` if there is none.
#[tactic(auto, using(crate::proofs::Selectors::ends_at_last))]
pub fn selectors_end(end: u32, selectors: &[Selector]) -> u32
    ensures { result ≡ spec.selectors_end end selectors.now }
{
    match selectors.last() {
        Some(last) => selector_span(last).to,
        None => end,
    }
}

/// The bytes of what can take a new value.
#[tactic(auto, unfolding(crate::specs::Trees::target_span))]
pub fn target_span(target: &Target) -> Span
    ensures { result ≡ spec.target_span target.now }
{
    match target {
        Target::Bare(name) => name.span,
        Target::MemberOf(chain, name) => Span {
            from: chain.get().span.from,
            to: name.span.to,
        },
        Target::IndexOf(chain, brackets, _) => Span {
            from: chain.get().span.from,
            to: brackets.to,
        },
    }
}

/// The bytes of a statement.
#[tactic(auto, unfolding(crate::specs::Trees::stmt_span))]
pub fn stmt_span(stmt: &Stmt) -> Span
    ensures { result ≡ spec.stmt_span stmt.now }
{
    match stmt {
        Stmt::Nested(span, _) => *span,
        Stmt::Declare(span, _) => *span,
        Stmt::LocalFunction(span, _, _, _) => *span,
        Stmt::Empty(span) => *span,
        Stmt::Evaluate(span, _) => *span,
        Stmt::If(span, _, _) => *span,
        Stmt::IfElse(span, _, _, _) => *span,
        Stmt::While(span, _, _) => *span,
        Stmt::Do(span, _, _) => *span,
        Stmt::ForDeclared(span, _, _, _, _) => *span,
        Stmt::For(span, _, _, _, _) => *span,
        Stmt::ForInDeclared(span, _, _, _, _) => *span,
        Stmt::ForIn(span, _, _, _) => *span,
        Stmt::Break(span) => *span,
        Stmt::Continue(span) => *span,
        Stmt::Return(span) => *span,
        Stmt::ReturnValue(span, _) => *span,
        Stmt::Rethrow(span) => *span,
        Stmt::Assert(span) => *span,
        Stmt::Try(span, _, _) => *span,
        Stmt::TryFinally(span, _, _, _) => *span,
    }
}

/// From the beginning of the one expression to the end of the other.
pub fn joined(left: &Expr, right: &Expr) -> Span
    ensures { result ≡ spec.joined left.now right.now }
{
    Span {
        from: span_of(left).from,
        to: span_of(right).to,
    }
}

fn is_super_head(head: &Head) -> bool
    ensures { result ≡ spec.is_super_head (out-Head head.now) }
{
    matches!(head, Head::Super(_))
}

fn has_none(selectors: &[Selector]) -> bool
    ensures { result ≡ spec.has_none selectors.now }
{
    selectors.is_empty()
}

/// Whether this is `super` alone.
#[tactic(auto, unfolding(crate::specs::Trees::is_super))]
pub fn is_super(expr: &Expr) -> bool
    ensures { result ≡ spec.is_super expr.now }
{
    match expr {
        Expr::Chained(chain) => {
            let chain = chain.get();
            is_super_head(&chain.head) && has_none(chain.selectors.as_slice())
        }
        _ => false,
    }
}

/// Whether these operands may stand on the two sides of the operator.
pub fn fits(operator: Operator, left: &Expr, right: &Expr) -> bool
    ensures { result ≡ spec.fits operator left.now right.now }
{
    (is_declared(operator) || !is_super(left)) && !is_super(right)
}
