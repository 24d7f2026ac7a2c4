//! Expressions by their levels.
ghost use Rattle.std.specs.Prelude.{◌≡◌, if◌then◌else◌, List, Some, None, length};
ghost use Rattle.dart_grammar.specs.Grammar as grammar;
ghost use Rattle.dart_grammar.specs.Trees as trees;
ghost use Rattle.dart_grammar.specs.declared.trees.Expr.TheVariants as e;
ghost use Rattle.expr_parser.specs.Cursor.{Gives};
ghost use Rattle.expr_parser.specs.Knot.{inner_at};
ghost use Rattle.expr_parser.specs.Nests.{Nests};
ghost use Rattle.expr_parser.specs.Operators as spec;

use crate::chains::{chain_in, target_of};
use crate::cursor::{sign_at, start};
use crate::fault::Fault;
use crate::grammar::{Grammar, boxed};
use crate::types::type_at;
use dart_grammar::marks::{
    assignment_of, behind, joins, looseness, next, next_as, next_sign, next_word, operator_of,
    prefix_of, step_of,
};
use dart_grammar::spans::{fits, is_super, joined, span_of, target_span};
use dart_grammar::trees::{
    Assignment, Chain, Expr, Operator, Parameters, PrefixOperator, Span, Step, Stmt, Target,
};
use dart_syntax::{Form, Sign, Token, Word};
use sqlite_items::Boxed;
use std::alloc::Global;

fn form_prefix(form: &Form) -> Option<PrefixOperator>
    ensures { result ≡ spec.form_prefix form.now }
{
    match form {
        Form::Sign(sign) => prefix_of(*sign),
        _ => None,
    }
}

fn form_step(form: &Form) -> Option<Step>
    ensures { result ≡ spec.form_step form.now }
{
    match form {
        Form::Sign(sign) => step_of(*sign),
        _ => None,
    }
}

fn form_operator(form: &Form) -> Option<Operator>
    ensures { result ≡ spec.form_operator form.now }
{
    match form {
        Form::Sign(sign) => operator_of(*sign),
        _ => None,
    }
}

fn form_assignment(form: &Form) -> Option<Assignment>
    ensures { result ≡ spec.form_assignment form.now }
{
    match form {
        Form::Sign(sign) => assignment_of(*sign),
        _ => None,
    }
}

fn next_operator(ts: &[Token]) -> Option<Operator>
    ensures { result ≡ spec.spells spec.form_operator ts.now }
{
    match next(ts) {
        Some((first, _)) => form_operator(&first.form),
        None => None,
    }
}

fn next_step(ts: &[Token]) -> Option<Step>
    ensures { result ≡ spec.spells spec.form_step ts.now }
{
    match next(ts) {
        Some((first, _)) => form_step(&first.form),
        None => None,
    }
}

fn next_assignment(ts: &[Token]) -> Option<Assignment>
    ensures { result ≡ spec.spells spec.form_assignment ts.now }
{
    match next(ts) {
        Some((first, _)) => form_assignment(&first.form),
        None => None,
    }
}

fn first_end(ts: &[Token]) -> u32
    ensures { result ≡ spec.first_end ts.now }
{
    match next(ts) {
        Some((first, _)) => first.to,
        None => 0,
    }
}

fn is_once(level: u8) -> bool
    ensures { result ≡ grammar.is_once level }
{
    level == 4 || level == 5
}

// The operator between its operands, where they fit it.
fn operated(
    alloc: Global,
    operator: Operator,
    left: Boxed<Expr>,
    right: Boxed<Expr>,
    rest: &[Token],
) -> Result<(Boxed<Expr>, &[Token]), Fault>
    ensures { Gives {Y = Expr × List Token} (λ x. (x.0, x.1.now)) result (if trees.fits operator left right then Some (e.Operated (trees.joined left right) operator left right, rest.now) else None) }
{
    if !fits(operator, left.get(), right.get()) {
        return Err(Fault::NotDerived);
    }
    let span = joined(left.get(), right.get());
    boxed(alloc, Expr::Operated(span, operator, left, right), rest)
}

// `is` or `is!`, with the type behind it.
#[tactic(auto, unfolding(crate::specs::Operators::tested))]
fn tested(
    alloc: Global,
    operand: Boxed<Expr>,
    ts: &[Token],
) -> Result<(Boxed<Expr>, &[Token]), Fault>
    ensures { Gives (λ x. (x.0, x.1.now)) result (spec.tested operand ts.now) }
{
    if is_super(operand.get()) {
        return Err(Fault::NotDerived);
    }
    let from = span_of(operand.get()).from;
    let after = behind(ts);
    if next_sign(Sign::Not, after) {
        let ((names, to), rest) = type_at(alloc, behind(after))?;
        return boxed(alloc, Expr::IsNot(Span { from, to }, operand, names), rest);
    }
    let ((names, to), rest) = type_at(alloc, after)?;
    boxed(alloc, Expr::Is(Span { from, to }, operand, names), rest)
}

// `as` with the type behind it.
#[tactic(auto, unfolding(crate::specs::Operators::cast))]
fn cast(alloc: Global, operand: Boxed<Expr>, ts: &[Token]) -> Result<(Boxed<Expr>, &[Token]), Fault>
    ensures { Gives (λ x. (x.0, x.1.now)) result (spec.cast operand ts.now) }
{
    if is_super(operand.get()) {
        return Err(Fault::NotDerived);
    }
    let from = span_of(operand.get()).from;
    let ((names, to), rest) = type_at(alloc, behind(ts))?;
    boxed(alloc, Expr::As(Span { from, to }, operand, names), rest)
}

impl<
    E: Fn(Global, &[Token], usize) -> Result<(Boxed<Expr>, &[Token]), Fault>,
    S: Fn(Global, &[Token], usize) -> Result<(Boxed<Stmt>, &[Token]), Fault>,
    P: Fn(Global, &[Token], usize) -> Result<(Parameters, &[Token]), Fault>,
> Grammar<E, S, P> {
    // A chain, and a step behind it.
    #[tactic(auto, unfolding(crate::specs::Operators::postfix))]
    fn postfix<'t>(&self, ts: &'t [Token]) -> Result<(Boxed<Expr>, &'t [Token]), Fault>
        requires { Nests self.now.depth (E.pre self.now.expr) (E.post self.now.expr) (S.pre self.now.stmt) (S.post self.now.stmt) (P.pre self.now.parameters) (P.post self.now.parameters) }
        ensures { Gives (λ x. (x.0, x.1.now)) result (spec.postfix (inner_at self.now.depth) ts.now) }
    {
        let (chain, rest) = self.chain(ts)?;
        let Some(step) = next_step(rest) else {
            return boxed(self.alloc, Expr::Chained(chain), rest);
        };
        let target = target_of(self.alloc, chain)?;
        let span = Span {
            from: target_span(target.get()).from,
            to: first_end(rest),
        };
        boxed(
            self.alloc,
            Expr::StepBehind(span, step, target),
            behind(rest),
        )
    }

    // What stands behind a step that begins at `from`.
    #[tactic(auto, unfolding(crate::specs::Operators::step_before))]
    fn step_before<'t>(
        &self,
        step: Step,
        from: u32,
        ts: &'t [Token],
    ) -> Result<(Boxed<Expr>, &'t [Token]), Fault>
        requires { Nests self.now.depth (E.pre self.now.expr) (E.post self.now.expr) (S.pre self.now.stmt) (S.post self.now.stmt) (P.pre self.now.parameters) (P.post self.now.parameters) }
        ensures { Gives (λ x. (x.0, x.1.now)) result (spec.step_before (inner_at self.now.depth) step from ts.now) }
    {
        let (target, rest) = self.target(ts)?;
        let span = Span {
            from,
            to: target_span(target.get()).to,
        };
        boxed(self.alloc, Expr::StepBefore(span, step, target), rest)
    }

    // A unary expression. Each prefix is a call within.
    #[tactic(auto, unfolding(crate::specs::Operators::unary))]
    fn unary<'t>(&self, ts: &'t [Token]) -> Result<(Boxed<Expr>, &'t [Token]), Fault>
        requires { Nests self.now.depth (E.pre self.now.expr) (E.post self.now.expr) (S.pre self.now.stmt) (S.post self.now.stmt) (P.pre self.now.parameters) (P.post self.now.parameters) }
        ensures { Gives (λ x. (x.0, x.1.now)) result (spec.unary (inner_at self.now.depth) ts.now) }
    {
        let Some((first, rest)) = next(ts) else {
            return Err(Fault::NotDerived);
        };
        let Some(operator) = form_prefix(&first.form) else {
            return match form_step(&first.form) {
                Some(step) => self.step_before(step, first.from, rest),
                None => self.postfix(ts),
            };
        };
        let (operand, after) = self.unary(rest)?;
        if is_super(operand.get()) {
            return Err(Fault::NotDerived);
        }
        let span = Span {
            from: first.from,
            to: span_of(operand.get()).to,
        };
        boxed(self.alloc, Expr::Prefixed(span, operator, operand), after)
    }

    // Level 1 are unary expressions, 7 disjunctions.
    #[tactic(auto, using(crate::proofs::Turns::one_turn, crate::proofs::Turns::no_turn, crate::proofs::Turns::one_up), unfolding(crate::specs::Operators::level, crate::specs::Operators::operated_from, crate::specs::Operators::operation))]
    fn level<'t>(&self, level: u8, ts: &'t [Token]) -> Result<(Boxed<Expr>, &'t [Token]), Fault>
        requires { Nests self.now.depth (E.pre self.now.expr) (E.post self.now.expr) (S.pre self.now.stmt) (S.post self.now.stmt) (P.pre self.now.parameters) (P.post self.now.parameters) }
        ensures { Gives (λ x. (x.0, x.1.now)) result (spec.level (inner_at self.now.depth) level ts.now) }
    {
        if level == 0 {
            return Err(Fault::NotDerived);
        }
        if level == 1 {
            return self.unary(ts);
        }
        let (mut left, mut rest) = self.level(level - 1, ts)?;
        for _turn in 0..rest.len() {
            if looseness(rest) != level {
                return Ok((left, rest));
            }
            if next_word(Word::Is, rest) {
                return tested(self.alloc, left, rest);
            }
            if next_as(rest) {
                return cast(self.alloc, left, rest);
            }
            let Some(operator) = next_operator(rest) else {
                return Err(Fault::NotDerived);
            };
            let (right, after) = self.level(level - 1, behind(rest))?;
            (left, rest) = operated(self.alloc, operator, left, right, after)?;
            if is_once(level) {
                return Ok((left, rest));
            }
        }
        Ok((left, rest))
    }

    // What a test chooses between, behind its `?`.
    #[tactic(auto, unfolding(crate::specs::Operators::branches))]
    fn branches<'t>(
        &self,
        test: Boxed<Expr>,
        ts: &'t [Token],
    ) -> Result<(Boxed<Expr>, &'t [Token]), Fault>
        requires { Nests self.now.depth (E.pre self.now.expr) (E.post self.now.expr) (S.pre self.now.stmt) (S.post self.now.stmt) (P.pre self.now.parameters) (P.post self.now.parameters) }
        ensures { Gives (λ x. (x.0, x.1.now)) result (spec.branches (inner_at self.now.depth) test ts.now) }
    {
        let from = span_of(test.get()).from;
        let (holds, after) = self.expr(ts)?;
        let (_, after) = sign_at(Sign::Colon, after)?;
        let (fails, rest) = self.expr(after)?;
        let span = Span {
            from,
            to: span_of(fails.get()).to,
        };
        boxed(
            self.alloc,
            Expr::Conditional(span, test, holds, fails),
            rest,
        )
    }

    #[tactic(auto, unfolding(crate::specs::Operators::conditional))]
    fn conditional<'t>(&self, ts: &'t [Token]) -> Result<(Boxed<Expr>, &'t [Token]), Fault>
        requires { Nests self.now.depth (E.pre self.now.expr) (E.post self.now.expr) (S.pre self.now.stmt) (S.post self.now.stmt) (P.pre self.now.parameters) (P.post self.now.parameters) }
        ensures { Gives (λ x. (x.0, x.1.now)) result (spec.conditional (inner_at self.now.depth) ts.now) }
    {
        let (test, after) = self.level(7, ts)?;
        if is_super(test.get()) {
            return Err(Fault::NotDerived);
        }
        if next_sign(Sign::Question, after) {
            return self.branches(test, behind(after));
        }
        Ok((test, after))
    }

    // What is thrown by a `throw` that begins at `from`.
    #[tactic(auto, unfolding(crate::specs::Operators::thrown))]
    fn thrown<'t>(&self, from: u32, ts: &'t [Token]) -> Result<(Boxed<Expr>, &'t [Token]), Fault>
        requires { Nests self.now.depth (E.pre self.now.expr) (E.post self.now.expr) (S.pre self.now.stmt) (S.post self.now.stmt) (P.pre self.now.parameters) (P.post self.now.parameters) }
        ensures { Gives (λ x. (x.0, x.1.now)) result (spec.thrown (inner_at self.now.depth) from ts.now) }
    {
        let (value, rest) = self.expr(ts)?;
        let span = Span {
            from,
            to: span_of(value.get()).to,
        };
        boxed(self.alloc, Expr::Throw(span, value), rest)
    }

    // What the target becomes.
    #[tactic(auto, unfolding(crate::specs::Operators::assigned))]
    fn assigned<'t>(
        &self,
        target: Boxed<Target>,
        assignment: Assignment,
        ts: &'t [Token],
    ) -> Result<(Boxed<Expr>, &'t [Token]), Fault>
        requires { Nests self.now.depth (E.pre self.now.expr) (E.post self.now.expr) (S.pre self.now.stmt) (S.post self.now.stmt) (P.pre self.now.parameters) (P.post self.now.parameters) }
        ensures { Gives (λ x. (x.0, x.1.now)) result (spec.assigned (inner_at self.now.depth) target assignment ts.now) }
    {
        let (value, rest) = self.expr(ts)?;
        let span = Span {
            from: target_span(target.get()).from,
            to: span_of(value.get()).to,
        };
        boxed(
            self.alloc,
            Expr::Assigned(span, target, assignment, value),
            rest,
        )
    }

    // An assignment, if one stands behind the expression.
    #[tactic(auto, unfolding(crate::specs::Operators::assigned_by))]
    fn assigned_by<'t>(
        &self,
        assignment: Option<Assignment>,
        left: Boxed<Expr>,
        rest: &'t [Token],
    ) -> Result<(Boxed<Expr>, &'t [Token]), Fault>
        requires { Nests self.now.depth (E.pre self.now.expr) (E.post self.now.expr) (S.pre self.now.stmt) (S.post self.now.stmt) (P.pre self.now.parameters) (P.post self.now.parameters) }
        ensures { Gives (λ x. (x.0, x.1.now)) result (spec.assigned_by (inner_at self.now.depth) assignment left rest.now) }
    {
        let Some(assignment) = assignment else {
            return Ok((left, rest));
        };
        let chain = chain_in(left)?;
        let target = target_of(self.alloc, chain)?;
        self.assigned(target, assignment, behind(rest))
    }

    #[tactic(auto, unfolding(crate::specs::Operators::whole))]
    fn whole<'t>(&self, ts: &'t [Token]) -> Result<(Boxed<Expr>, &'t [Token]), Fault>
        requires { Nests self.now.depth (E.pre self.now.expr) (E.post self.now.expr) (S.pre self.now.stmt) (S.post self.now.stmt) (P.pre self.now.parameters) (P.post self.now.parameters) }
        ensures { Gives (λ x. (x.0, x.1.now)) result (spec.whole (inner_at self.now.depth) ts.now) }
    {
        if next_word(Word::Throw, ts) {
            return self.thrown(start(ts), behind(ts));
        }
        let (left, rest) = self.conditional(ts)?;
        self.assigned_by(next_assignment(rest), left, rest)
    }

    /// An expression, up to the one end that no joining token follows.
    #[tactic(auto, unfolding(crate::specs::Operators::ended))]
    pub fn ended<'t>(&self, ts: &'t [Token]) -> Result<(Boxed<Expr>, &'t [Token]), Fault>
        requires { Nests self.now.depth (E.pre self.now.expr) (E.post self.now.expr) (S.pre self.now.stmt) (S.post self.now.stmt) (P.pre self.now.parameters) (P.post self.now.parameters) }
        ensures { Gives (λ x. (x.0, x.1.now)) result (spec.ended (inner_at self.now.depth) ts.now) }
    {
        let (value, rest) = self.whole(ts)?;
        if joins(rest) {
            return Err(Fault::NotDerived);
        }
        Ok((value, rest))
    }
}
