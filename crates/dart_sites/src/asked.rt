//! What is asked of a part of a tree where it stands in another one.
#![tactic(auto, using(crate::proofs::Parts::chain_parts))]

ghost use Rattle.std.specs.Prelude.{◌≡◌, map};
ghost use Rattle.dart_sites.specs.Expressions as spec;
ghost use Rattle.dart_sites.specs.Trees.{expr_in, chain_in, head_in, interpolation_in, selector_in, has_no_parts};

use crate::lent::Lent;
use crate::sites::{Receiver, Use};
use dart_grammar::declarations::OperatorName;
use dart_grammar::spans::span_of;
use dart_grammar::trees::{
    Assignment, Chain, Expr, Head, Interpolation, Name, Operator, PrefixOperator, Selector, Span,
    Step,
};

// ---- operators

/// The method that an operator between operands calls.
pub fn method_of(operator: Operator) -> Option<OperatorName>
    ensures { result ≡ spec.method_of operator }
{
    match operator {
        Operator::Plus => Some(OperatorName::Plus),
        Operator::Minus => Some(OperatorName::Minus),
        Operator::Times => Some(OperatorName::Times),
        Operator::Divide => Some(OperatorName::Divide),
        Operator::Modulo => Some(OperatorName::Modulo),
        Operator::Less => Some(OperatorName::Less),
        Operator::Greater => Some(OperatorName::Greater),
        Operator::LessEqual => Some(OperatorName::LessEqual),
        Operator::GreaterEqual => Some(OperatorName::GreaterEqual),
        Operator::Equal => None,
        Operator::NotEqual => None,
        Operator::And => None,
        Operator::Or => None,
    }
}

/// The method that an assignment calls before it assigns.
pub fn assignment_method(assignment: Assignment) -> Option<OperatorName>
    ensures { result ≡ spec.assignment_method assignment }
{
    match assignment {
        Assignment::Set => None,
        Assignment::Plus => Some(OperatorName::Plus),
        Assignment::Minus => Some(OperatorName::Minus),
        Assignment::Times => Some(OperatorName::Times),
        Assignment::Divide => Some(OperatorName::Divide),
        Assignment::Modulo => Some(OperatorName::Modulo),
    }
}

/// The method that `++` or `--` calls.
pub fn step_method(step: Step) -> OperatorName
    ensures { result ≡ spec.step_method step }
{
    match step {
        Step::Increment => OperatorName::Plus,
        Step::Decrement => OperatorName::Minus,
    }
}

/// What an assignment does with its target.
pub fn assignment_use(assignment: Assignment) -> Use
    ensures { result ≡ spec.assignment_use assignment }
{
    match assignment {
        Assignment::Set => Use::Assigned,
        Assignment::Plus => Use::Changed,
        Assignment::Minus => Use::Changed,
        Assignment::Times => Use::Changed,
        Assignment::Divide => Use::Changed,
        Assignment::Modulo => Use::Changed,
    }
}

// ---- receivers

/// Whether it is `super`.
pub fn is_super(receiver: &Receiver<'_>) -> bool
    ensures { result ≡ spec.is_super receiver.now }
{
    match receiver {
        Receiver::Super => true,
        Receiver::Named(_) => false,
        Receiver::Dotted(_, _) => false,
        Receiver::Other => false,
    }
}

/// The same receiver.
pub fn again<'a>(receiver: &Receiver<'a>) -> Receiver<'a>
    ensures { result ≡ receiver.now }
{
    match receiver {
        Receiver::Super => Receiver::Super,
        Receiver::Named(name) => Receiver::Named(Lent::new(name.get())),
        Receiver::Dotted(first, second) => Receiver::Dotted(
            Lent::new(first.get()),
            Lent::new(second.get()),
        ),
        Receiver::Other => Receiver::Other,
    }
}

/// What `.name` behind it is to a selector further on.
pub fn behind_dot<'a>(receiver: &Receiver<'a>, name: &'a Name) -> Receiver<'a>
    ensures { result ≡ spec.behind_dot receiver.now name.now }
{
    match receiver {
        Receiver::Super => Receiver::Other,
        Receiver::Named(first) => Receiver::Dotted(Lent::new(first.get()), Lent::new(name)),
        Receiver::Dotted(_, _) => Receiver::Other,
        Receiver::Other => Receiver::Other,
    }
}

/// What a selector is to one further on.
pub fn behind<'a>(receiver: &Receiver<'a>, selector: &'a Selector) -> Receiver<'a>
    ensures { result ≡ (selector_in selector.now).receiver receiver.now }
{
    match selector {
        Selector::Member(_, name) => behind_dot(receiver, name),
        Selector::Invoke(_, _, _) => Receiver::Other,
        Selector::Index(_, _) => Receiver::Other,
        Selector::Call(_) => Receiver::Other,
    }
}

/// What a selector does with the value before it.
pub fn does(selector: &Selector) -> Use
    ensures { result ≡ (selector_in selector.now).does }
{
    match selector {
        Selector::Member(_, _) => Use::ReadBeforeDot,
        Selector::Invoke(_, _, _) => Use::ReadBeforeDot,
        Selector::Index(_, _) => Use::Read,
        Selector::Call(arguments) => Use::Called(arguments.items.len()),
    }
}

/// What is done with the value that these selectors stand behind.
pub fn use_before(selectors: &[Selector], last: Use) -> Use
    ensures { result ≡ spec.use_before (map selector_in selectors.now) last }
{
    match selectors.first() {
        Some(selector) => does(selector),
        None => last,
    }
}

/// What a head is to a selector behind it.
pub fn head_receiver(head: &Head) -> Receiver<'_>
    ensures { result ≡ (head_in head.now).receiver }
{
    match head {
        Head::Named(name) => Receiver::Named(Lent::new(name)),
        Head::This(_) => Receiver::Other,
        Head::Super(_) => Receiver::Super,
        Head::Null(_) => Receiver::Other,
        Head::True(_) => Receiver::Other,
        Head::False(_) => Receiver::Other,
        Head::Number(_, _) => Receiver::Other,
        Head::Texts(_, _, _) => Receiver::Other,
        Head::New(_, _, _) => Receiver::Other,
        Head::Parenthesised(_, _) => Receiver::Other,
        Head::Literal(_, _, _) => Receiver::Other,
        Head::List(_, _) => Receiver::Other,
        Head::Map(_, _) => Receiver::Other,
    }
}

// ---- what defaults and operands may be

/// The bytes of an expression.
#[tactic(auto, using(crate::proofs::Parts::expr_span))]
pub fn span_in(expr: &Expr) -> Span
    ensures { result ≡ (expr_in expr.now).span }
{
    span_of(expr)
}

fn head_is_number(head: &Head) -> bool
    ensures { result ≡ (head_in head.now).is_number }
{
    match head {
        Head::Named(_) => false,
        Head::This(_) => false,
        Head::Super(_) => false,
        Head::Null(_) => false,
        Head::True(_) => false,
        Head::False(_) => false,
        Head::Number(_, _) => true,
        Head::Texts(_, _, _) => false,
        Head::New(_, _, _) => false,
        Head::Parenthesised(_, _) => false,
        Head::Literal(_, _, _) => false,
        Head::List(_, _) => false,
        Head::Map(_, _) => false,
    }
}

fn has_no_parts(parts: &[Interpolation]) -> bool
    ensures { result ≡ has_no_parts (map interpolation_in parts.now) }
{
    match parts.first() {
        Some(_) => false,
        None => true,
    }
}

fn head_is_constant(head: &Head) -> bool
    ensures { result ≡ (head_in head.now).is_constant }
{
    match head {
        Head::Named(_) => false,
        Head::This(_) => false,
        Head::Super(_) => false,
        Head::Null(_) => true,
        Head::True(_) => true,
        Head::False(_) => true,
        Head::Number(_, _) => true,
        Head::Texts(_, _, parts) => has_no_parts(parts.as_slice()),
        Head::New(_, _, _) => false,
        Head::Parenthesised(_, _) => false,
        Head::Literal(_, _, _) => false,
        Head::List(_, _) => false,
        Head::Map(_, _) => false,
    }
}

fn is_alone(selectors: &[Selector]) -> bool
    ensures { result ≡ spec.is_alone (map selector_in selectors.now) }
{
    match selectors.first() {
        Some(_) => false,
        None => true,
    }
}

/// Whether a chain is `super` alone.
pub fn chain_is_super(chain: &Chain) -> bool
    ensures { result ≡ (chain_in chain.now).is_super }
{
    is_super(&head_receiver(&chain.head)) && is_alone(chain.selectors.as_slice())
}

fn chain_is_number(chain: &Chain) -> bool
    ensures { result ≡ (chain_in chain.now).is_number }
{
    head_is_number(&chain.head) && is_alone(chain.selectors.as_slice())
}

fn chain_is_constant(chain: &Chain) -> bool
    ensures { result ≡ (chain_in chain.now).is_constant }
{
    head_is_constant(&chain.head) && is_alone(chain.selectors.as_slice())
}

/// Whether an expression is `super` alone.
pub fn expr_is_super(expr: &Expr) -> bool
    ensures { result ≡ (expr_in expr.now).is_super }
{
    match expr {
        Expr::Chained(chain) => chain_is_super(chain.get()),
        Expr::StepBefore(_, _, _) => false,
        Expr::StepBehind(_, _, _) => false,
        Expr::Prefixed(_, PrefixOperator::Negate, _) => false,
        Expr::Prefixed(_, PrefixOperator::Not, _) => false,
        Expr::Operated(_, _, _, _) => false,
        Expr::Is(_, _, _) => false,
        Expr::IsNot(_, _, _) => false,
        Expr::As(_, _, _) => false,
        Expr::Conditional(_, _, _, _) => false,
        Expr::Assigned(_, _, _, _) => false,
        Expr::Throw(_, _) => false,
    }
}

fn is_number(expr: &Expr) -> bool
    ensures { result ≡ (expr_in expr.now).is_number }
{
    match expr {
        Expr::Chained(chain) => chain_is_number(chain.get()),
        Expr::StepBefore(_, _, _) => false,
        Expr::StepBehind(_, _, _) => false,
        Expr::Prefixed(_, PrefixOperator::Negate, _) => false,
        Expr::Prefixed(_, PrefixOperator::Not, _) => false,
        Expr::Operated(_, _, _, _) => false,
        Expr::Is(_, _, _) => false,
        Expr::IsNot(_, _, _) => false,
        Expr::As(_, _, _) => false,
        Expr::Conditional(_, _, _, _) => false,
        Expr::Assigned(_, _, _, _) => false,
        Expr::Throw(_, _) => false,
    }
}

/// Whether it is null, a truth value, a whole number, one behind `-`, or a text without interpolation.
pub fn is_constant(expr: &Expr) -> bool
    ensures { result ≡ (expr_in expr.now).is_constant }
{
    match expr {
        Expr::Chained(chain) => chain_is_constant(chain.get()),
        Expr::StepBefore(_, _, _) => false,
        Expr::StepBehind(_, _, _) => false,
        Expr::Prefixed(_, PrefixOperator::Negate, operand) => is_number(operand.get()),
        Expr::Prefixed(_, PrefixOperator::Not, _) => false,
        Expr::Operated(_, _, _, _) => false,
        Expr::Is(_, _, _) => false,
        Expr::IsNot(_, _, _) => false,
        Expr::As(_, _, _) => false,
        Expr::Conditional(_, _, _, _) => false,
        Expr::Assigned(_, _, _, _) => false,
        Expr::Throw(_, _) => false,
    }
}
