//! Statements.
ghost use Rattle.std.specs.Prelude.{◌≡◌, length, []};
ghost use Rattle.expr_parser.specs.Cursor.{Gives};
ghost use Rattle.expr_parser.specs.Knot.{inner_at};
ghost use Rattle.expr_parser.specs.Nests.{Nests};
ghost use Rattle.expr_parser.specs.Statements as spec;

use crate::cursor::{name_at, sign_at, start, word_at};
use crate::fault::Fault;
use crate::grammar::{Grammar, boxed};
use crate::types::{lead, past_result, type_at};
use dart_grammar::marks::{behind, next, next_sign, next_word};
use dart_grammar::shapes::{begins_clause, begins_map, for_kind_of, kind_of};
use dart_grammar::spans::stmt_span;
use dart_grammar::trees::{Catch, Expr, Name, Parameters, Span, Stmt, Variable, Variables};
use dart_grammar::{ForKind, Kind};
use dart_syntax::{Form, Sign, Token, Word};
use sqlite_items::{Boxed, Items};
use std::alloc::Global;

// `(name)`
#[tactic(auto, unfolding(crate::specs::Statements::caught))]
fn caught(ts: &[Token]) -> Result<(Name, &[Token]), Fault>
    ensures { Gives (λ x. (x.0, x.1.now)) result (spec.caught ts.now) }
{
    let (_, after) = sign_at(Sign::OpenParen, ts)?;
    let (name, after) = name_at(after)?;
    let (_, rest) = sign_at(Sign::CloseParen, after)?;
    Ok((name, rest))
}

// `catch (name)`, if it stands here.
#[tactic(auto, unfolding(crate::specs::Statements::may_catch))]
fn may_catch(ts: &[Token]) -> Result<(Option<Name>, &[Token]), Fault>
    ensures { Gives (λ x. (x.0, x.1.now)) result (spec.may_catch ts.now) }
{
    if !next_word(Word::Catch, ts) {
        return Ok((None, ts));
    }
    let (name, rest) = caught(behind(ts))?;
    Ok((Some(name), rest))
}

// A `try` whose clauses end at `to`, from behind them.
#[tactic(auto, using(crate::proofs::Clauses::with_clauses))]
fn without_finally(
    alloc: Global,
    from: u32,
    body: Items<Stmt>,
    catches: Items<Catch>,
    to: u32,
    rest: &[Token],
) -> Result<(Boxed<Stmt>, &[Token]), Fault>
    ensures { Gives (λ x. (x.0, x.1.now)) result (spec.without_finally from body catches to rest.now) }
{
    if catches.is_empty() {
        return Err(Fault::NotDerived);
    }
    boxed(alloc, Stmt::Try(Span { from, to }, body, catches), rest)
}

impl<
    E: Fn(Global, &[Token], usize) -> Result<(Boxed<Expr>, &[Token]), Fault>,
    S: Fn(Global, &[Token], usize) -> Result<(Boxed<Stmt>, &[Token]), Fault>,
    P: Fn(Global, &[Token], usize) -> Result<(Parameters, &[Token]), Fault>,
> Grammar<E, S, P> {
    #[tactic(auto, unfolding(crate::specs::Statements::variable))]
    fn variable<'t>(&self, ts: &'t [Token]) -> Result<(Variable, &'t [Token]), Fault>
        requires { Nests self.now.depth (E.pre self.now.expr) (E.post self.now.expr) (S.pre self.now.stmt) (S.post self.now.stmt) (P.pre self.now.parameters) (P.post self.now.parameters) }
        ensures { Gives (λ x. (x.0, x.1.now)) result (spec.variable (inner_at self.now.depth) ts.now) }
    {
        let (name, after) = name_at(ts)?;
        if !next_sign(Sign::Assign, after) {
            return Ok((Variable::Unset(name), after));
        }
        let (value, rest) = self.expr(behind(after))?;
        Ok((Variable::Initialised(name, value), rest))
    }

    #[tactic(auto, using(crate::proofs::Turns::one_turn, crate::proofs::Turns::no_turn), unfolding(crate::specs::Statements::variables_from))]
    fn variable_items<'t>(&self, ts: &'t [Token]) -> Result<(Items<Variable>, &'t [Token]), Fault>
        requires { Nests self.now.depth (E.pre self.now.expr) (E.post self.now.expr) (S.pre self.now.stmt) (S.post self.now.stmt) (P.pre self.now.parameters) (P.post self.now.parameters) }
        ensures { Gives (λ x. (x.0, x.1.now)) result (spec.variables_from (inner_at self.now.depth) (length ts.now) [] ts.now) }
    {
        let mut found = Items::new(self.alloc);
        let mut rest = ts;
        for _turn in 0..ts.len() {
            let (item, after) = self.variable(rest)?;
            found.push(item)?;
            if !next_sign(Sign::Comma, after) {
                return Ok((found, after));
            }
            rest = behind(after);
        }
        Err(Fault::NotDerived)
    }

    // Variables that are declared, and where the `;` ends.
    #[tactic(auto, unfolding(crate::specs::Statements::variables))]
    pub fn variables<'t>(&self, ts: &'t [Token]) -> Result<((Variables, u32), &'t [Token]), Fault>
        requires { Nests self.now.depth (E.pre self.now.expr) (E.post self.now.expr) (S.pre self.now.stmt) (S.post self.now.stmt) (P.pre self.now.parameters) (P.post self.now.parameters) }
        ensures { Gives (λ x. ((x.0.0, x.0.1), x.1.now)) result (spec.variables (inner_at self.now.depth) ts.now) }
    {
        let (is_final, after) = lead(self.alloc, ts)?;
        let (items, after) = self.variable_items(after)?;
        let (close, rest) = sign_at(Sign::Semicolon, after)?;
        Ok(((Variables { is_final, items }, close.to), rest))
    }

    // `(value)`
    #[tactic(auto, unfolding(crate::specs::Statements::condition))]
    fn condition<'t>(&self, ts: &'t [Token]) -> Result<(Boxed<Expr>, &'t [Token]), Fault>
        requires { Nests self.now.depth (E.pre self.now.expr) (E.post self.now.expr) (S.pre self.now.stmt) (S.post self.now.stmt) (P.pre self.now.parameters) (P.post self.now.parameters) }
        ensures { Gives (λ x. (x.0, x.1.now)) result (spec.condition (inner_at self.now.depth) ts.now) }
    {
        let (_, after) = sign_at(Sign::OpenParen, ts)?;
        let (value, after) = self.expr(after)?;
        let (_, rest) = sign_at(Sign::CloseParen, after)?;
        Ok((value, rest))
    }

    #[tactic(auto, unfolding(crate::specs::Statements::declare))]
    fn declare<'t>(&self, ts: &'t [Token]) -> Result<(Boxed<Stmt>, &'t [Token]), Fault>
        requires { Nests self.now.depth (E.pre self.now.expr) (E.post self.now.expr) (S.pre self.now.stmt) (S.post self.now.stmt) (P.pre self.now.parameters) (P.post self.now.parameters) }
        ensures { Gives (λ x. (x.0, x.1.now)) result (spec.declare (inner_at self.now.depth) ts.now) }
    {
        let ((variables, to), rest) = self.variables(ts)?;
        let span = Span {
            from: start(ts),
            to,
        };
        boxed(self.alloc, Stmt::Declare(span, variables), rest)
    }

    // A local function from its name; the statement begins at `from`.
    #[tactic(auto, unfolding(crate::specs::Statements::local_function))]
    fn local_function<'t>(
        &self,
        from: u32,
        ts: &'t [Token],
    ) -> Result<(Boxed<Stmt>, &'t [Token]), Fault>
        requires { Nests self.now.depth (E.pre self.now.expr) (E.post self.now.expr) (S.pre self.now.stmt) (S.post self.now.stmt) (P.pre self.now.parameters) (P.post self.now.parameters) }
        ensures { Gives (λ x. (x.0, x.1.now)) result (spec.local_function (inner_at self.now.depth) from ts.now) }
    {
        let (name, after) = name_at(ts)?;
        let (parameters, after) = self.parameters(after)?;
        let ((body, to), rest) = self.local_body(after)?;
        let span = Span { from, to };
        boxed(
            self.alloc,
            Stmt::LocalFunction(span, name, parameters, body),
            rest,
        )
    }

    #[tactic(auto, unfolding(crate::specs::Statements::typed_function))]
    fn typed_function<'t>(&self, ts: &'t [Token]) -> Result<(Boxed<Stmt>, &'t [Token]), Fault>
        requires { Nests self.now.depth (E.pre self.now.expr) (E.post self.now.expr) (S.pre self.now.stmt) (S.post self.now.stmt) (P.pre self.now.parameters) (P.post self.now.parameters) }
        ensures { Gives (λ x. (x.0, x.1.now)) result (spec.typed_function (inner_at self.now.depth) ts.now) }
    {
        let after = past_result(self.alloc, ts)?;
        self.local_function(start(ts), after)
    }

    #[tactic(auto, unfolding(crate::specs::Statements::evaluate))]
    fn evaluate<'t>(&self, ts: &'t [Token]) -> Result<(Boxed<Stmt>, &'t [Token]), Fault>
        requires { Nests self.now.depth (E.pre self.now.expr) (E.post self.now.expr) (S.pre self.now.stmt) (S.post self.now.stmt) (P.pre self.now.parameters) (P.post self.now.parameters) }
        ensures { Gives (λ x. (x.0, x.1.now)) result (spec.evaluate (inner_at self.now.depth) ts.now) }
    {
        if begins_map(ts) {
            return Err(Fault::NotDerived);
        }
        let (value, after) = self.expr(ts)?;
        let (close, rest) = sign_at(Sign::Semicolon, after)?;
        let span = Span {
            from: start(ts),
            to: close.to,
        };
        boxed(self.alloc, Stmt::Evaluate(span, value), rest)
    }

    // A statement that begins with no word or sign of its own.
    #[tactic(auto, unfolding(crate::specs::Statements::simple))]
    fn simple<'t>(&self, ts: &'t [Token]) -> Result<(Boxed<Stmt>, &'t [Token]), Fault>
        requires { Nests self.now.depth (E.pre self.now.expr) (E.post self.now.expr) (S.pre self.now.stmt) (S.post self.now.stmt) (P.pre self.now.parameters) (P.post self.now.parameters) }
        ensures { Gives (λ x. (x.0, x.1.now)) result (spec.simple (inner_at self.now.depth) ts.now) }
    {
        match kind_of(ts) {
            Kind::Variables => self.declare(ts),
            Kind::Typed => self.typed_function(ts),
            Kind::Untyped => self.local_function(start(ts), ts),
            Kind::Expression => self.evaluate(ts),
        }
    }

    #[tactic(auto, unfolding(crate::specs::Statements::nested_block))]
    fn nested_block<'t>(&self, ts: &'t [Token]) -> Result<(Boxed<Stmt>, &'t [Token]), Fault>
        requires { Nests self.now.depth (E.pre self.now.expr) (E.post self.now.expr) (S.pre self.now.stmt) (S.post self.now.stmt) (P.pre self.now.parameters) (P.post self.now.parameters) }
        ensures { Gives (λ x. (x.0, x.1.now)) result (spec.nested_block (inner_at self.now.depth) ts.now) }
    {
        let ((items, to), rest) = self.block(ts)?;
        let span = Span {
            from: start(ts),
            to,
        };
        boxed(self.alloc, Stmt::Nested(span, items), rest)
    }

    // What stands behind the first statement of an `if`.
    #[tactic(auto, unfolding(crate::specs::Statements::otherwise))]
    fn otherwise<'t>(
        &self,
        from: u32,
        test: Boxed<Expr>,
        holds: Boxed<Stmt>,
        ts: &'t [Token],
    ) -> Result<(Boxed<Stmt>, &'t [Token]), Fault>
        requires { Nests self.now.depth (E.pre self.now.expr) (E.post self.now.expr) (S.pre self.now.stmt) (S.post self.now.stmt) (P.pre self.now.parameters) (P.post self.now.parameters) }
        ensures { Gives (λ x. (x.0, x.1.now)) result (spec.otherwise (inner_at self.now.depth) from test holds ts.now) }
    {
        if !next_word(Word::Else, ts) {
            let span = Span {
                from,
                to: stmt_span(holds.get()).to,
            };
            return boxed(self.alloc, Stmt::If(span, test, holds), ts);
        }
        let (fails, rest) = self.stmt(behind(ts))?;
        let span = Span {
            from,
            to: stmt_span(fails.get()).to,
        };
        boxed(self.alloc, Stmt::IfElse(span, test, holds, fails), rest)
    }

    #[tactic(auto, unfolding(crate::specs::Statements::choose))]
    fn choose<'t>(&self, from: u32, ts: &'t [Token]) -> Result<(Boxed<Stmt>, &'t [Token]), Fault>
        requires { Nests self.now.depth (E.pre self.now.expr) (E.post self.now.expr) (S.pre self.now.stmt) (S.post self.now.stmt) (P.pre self.now.parameters) (P.post self.now.parameters) }
        ensures { Gives (λ x. (x.0, x.1.now)) result (spec.choose (inner_at self.now.depth) from ts.now) }
    {
        let (test, after) = self.condition(ts)?;
        let (holds, after) = self.stmt(after)?;
        self.otherwise(from, test, holds, after)
    }

    #[tactic(auto, unfolding(crate::specs::Statements::repeat))]
    fn repeat<'t>(&self, from: u32, ts: &'t [Token]) -> Result<(Boxed<Stmt>, &'t [Token]), Fault>
        requires { Nests self.now.depth (E.pre self.now.expr) (E.post self.now.expr) (S.pre self.now.stmt) (S.post self.now.stmt) (P.pre self.now.parameters) (P.post self.now.parameters) }
        ensures { Gives (λ x. (x.0, x.1.now)) result (spec.repeat (inner_at self.now.depth) from ts.now) }
    {
        let (test, after) = self.condition(ts)?;
        let (body, rest) = self.stmt(after)?;
        let span = Span {
            from,
            to: stmt_span(body.get()).to,
        };
        boxed(self.alloc, Stmt::While(span, test, body), rest)
    }

    #[tactic(auto, unfolding(crate::specs::Statements::repeat_once))]
    fn repeat_once<'t>(
        &self,
        from: u32,
        ts: &'t [Token],
    ) -> Result<(Boxed<Stmt>, &'t [Token]), Fault>
        requires { Nests self.now.depth (E.pre self.now.expr) (E.post self.now.expr) (S.pre self.now.stmt) (S.post self.now.stmt) (P.pre self.now.parameters) (P.post self.now.parameters) }
        ensures { Gives (λ x. (x.0, x.1.now)) result (spec.repeat_once (inner_at self.now.depth) from ts.now) }
    {
        let (body, after) = self.stmt(ts)?;
        let (_, after) = word_at(Word::While, after)?;
        let (test, after) = self.condition(after)?;
        let (close, rest) = sign_at(Sign::Semicolon, after)?;
        let span = Span { from, to: close.to };
        boxed(self.alloc, Stmt::Do(span, body, test), rest)
    }

    // `break` that begins at `from`, from behind it.
    #[tactic(auto, unfolding(crate::specs::Statements::break_loop))]
    fn break_loop<'t>(
        &self,
        from: u32,
        ts: &'t [Token],
    ) -> Result<(Boxed<Stmt>, &'t [Token]), Fault>
        requires { Nests self.now.depth (E.pre self.now.expr) (E.post self.now.expr) (S.pre self.now.stmt) (S.post self.now.stmt) (P.pre self.now.parameters) (P.post self.now.parameters) }
        ensures { Gives (λ x. (x.0, x.1.now)) result (spec.break_loop (inner_at self.now.depth) from ts.now) }
    {
        let (close, rest) = sign_at(Sign::Semicolon, ts)?;
        let span = Span { from, to: close.to };
        boxed(self.alloc, Stmt::Break(span), rest)
    }

    // `continue` that begins at `from`, from behind it.
    #[tactic(auto, unfolding(crate::specs::Statements::continue_loop))]
    fn continue_loop<'t>(
        &self,
        from: u32,
        ts: &'t [Token],
    ) -> Result<(Boxed<Stmt>, &'t [Token]), Fault>
        requires { Nests self.now.depth (E.pre self.now.expr) (E.post self.now.expr) (S.pre self.now.stmt) (S.post self.now.stmt) (P.pre self.now.parameters) (P.post self.now.parameters) }
        ensures { Gives (λ x. (x.0, x.1.now)) result (spec.continue_loop (inner_at self.now.depth) from ts.now) }
    {
        let (close, rest) = sign_at(Sign::Semicolon, ts)?;
        let span = Span { from, to: close.to };
        boxed(self.alloc, Stmt::Continue(span), rest)
    }

    // `rethrow` that begins at `from`, from behind it.
    #[tactic(auto, unfolding(crate::specs::Statements::throw_again))]
    fn throw_again<'t>(
        &self,
        from: u32,
        ts: &'t [Token],
    ) -> Result<(Boxed<Stmt>, &'t [Token]), Fault>
        requires { Nests self.now.depth (E.pre self.now.expr) (E.post self.now.expr) (S.pre self.now.stmt) (S.post self.now.stmt) (P.pre self.now.parameters) (P.post self.now.parameters) }
        ensures { Gives (λ x. (x.0, x.1.now)) result (spec.throw_again (inner_at self.now.depth) from ts.now) }
    {
        let (close, rest) = sign_at(Sign::Semicolon, ts)?;
        let span = Span { from, to: close.to };
        boxed(self.alloc, Stmt::Rethrow(span), rest)
    }

    #[tactic(auto, unfolding(crate::specs::Statements::leave))]
    fn leave<'t>(&self, from: u32, ts: &'t [Token]) -> Result<(Boxed<Stmt>, &'t [Token]), Fault>
        requires { Nests self.now.depth (E.pre self.now.expr) (E.post self.now.expr) (S.pre self.now.stmt) (S.post self.now.stmt) (P.pre self.now.parameters) (P.post self.now.parameters) }
        ensures { Gives (λ x. (x.0, x.1.now)) result (spec.leave (inner_at self.now.depth) from ts.now) }
    {
        if next_sign(Sign::Semicolon, ts) {
            let (close, rest) = sign_at(Sign::Semicolon, ts)?;
            let span = Span { from, to: close.to };
            return boxed(self.alloc, Stmt::Return(span), rest);
        }
        let (value, after) = self.expr(ts)?;
        let (close, rest) = sign_at(Sign::Semicolon, after)?;
        let span = Span { from, to: close.to };
        boxed(self.alloc, Stmt::ReturnValue(span, value), rest)
    }

    #[tactic(auto, unfolding(crate::specs::Statements::asserted))]
    fn asserted<'t>(&self, from: u32, ts: &'t [Token]) -> Result<(Boxed<Stmt>, &'t [Token]), Fault>
        requires { Nests self.now.depth (E.pre self.now.expr) (E.post self.now.expr) (S.pre self.now.stmt) (S.post self.now.stmt) (P.pre self.now.parameters) (P.post self.now.parameters) }
        ensures { Gives (λ x. (x.0, x.1.now)) result (spec.asserted (inner_at self.now.depth) from ts.now) }
    {
        let (_, after) = self.condition(ts)?;
        let (close, rest) = sign_at(Sign::Semicolon, after)?;
        let span = Span { from, to: close.to };
        boxed(self.alloc, Stmt::Assert(span), rest)
    }

    #[tactic(auto, unfolding(crate::specs::Statements::catch_all))]
    fn catch_all<'t>(&self, from: u32, ts: &'t [Token]) -> Result<(Catch, &'t [Token]), Fault>
        requires { Nests self.now.depth (E.pre self.now.expr) (E.post self.now.expr) (S.pre self.now.stmt) (S.post self.now.stmt) (P.pre self.now.parameters) (P.post self.now.parameters) }
        ensures { Gives (λ x. (x.0, x.1.now)) result (spec.catch_all (inner_at self.now.depth) from ts.now) }
    {
        let (name, after) = caught(ts)?;
        let ((body, to), rest) = self.block(after)?;
        let clause = Catch {
            span: Span { from, to },
            type_names: None,
            name: Some(name),
            body,
        };
        Ok((clause, rest))
    }

    #[tactic(auto, unfolding(crate::specs::Statements::catch_typed))]
    fn catch_typed<'t>(&self, from: u32, ts: &'t [Token]) -> Result<(Catch, &'t [Token]), Fault>
        requires { Nests self.now.depth (E.pre self.now.expr) (E.post self.now.expr) (S.pre self.now.stmt) (S.post self.now.stmt) (P.pre self.now.parameters) (P.post self.now.parameters) }
        ensures { Gives (λ x. (x.0, x.1.now)) result (spec.catch_typed (inner_at self.now.depth) from ts.now) }
    {
        let ((names, _), after) = type_at(self.alloc, ts)?;
        let (name, after) = may_catch(after)?;
        let ((body, to), rest) = self.block(after)?;
        let clause = Catch {
            span: Span { from, to },
            type_names: Some(names),
            name,
            body,
        };
        Ok((clause, rest))
    }

    #[tactic(auto, unfolding(crate::specs::Statements::clause))]
    fn clause<'t>(&self, ts: &'t [Token]) -> Result<(Catch, &'t [Token]), Fault>
        requires { Nests self.now.depth (E.pre self.now.expr) (E.post self.now.expr) (S.pre self.now.stmt) (S.post self.now.stmt) (P.pre self.now.parameters) (P.post self.now.parameters) }
        ensures { Gives (λ x. (x.0, x.1.now)) result (spec.clause (inner_at self.now.depth) ts.now) }
    {
        if next_word(Word::Catch, ts) {
            self.catch_all(start(ts), behind(ts))
        } else {
            self.catch_typed(start(ts), behind(ts))
        }
    }

    // An expression and the `;` behind it, or the `;` alone.
    #[tactic(auto, unfolding(crate::specs::Statements::loop_test))]
    fn loop_test<'t>(&self, ts: &'t [Token]) -> Result<(Option<Boxed<Expr>>, &'t [Token]), Fault>
        requires { Nests self.now.depth (E.pre self.now.expr) (E.post self.now.expr) (S.pre self.now.stmt) (S.post self.now.stmt) (P.pre self.now.parameters) (P.post self.now.parameters) }
        ensures { Gives (λ x. (x.0, x.1.now)) result (spec.loop_test (inner_at self.now.depth) ts.now) }
    {
        if next_sign(Sign::Semicolon, ts) {
            return Ok((None, behind(ts)));
        }
        let (test, after) = self.expr(ts)?;
        let (_, rest) = sign_at(Sign::Semicolon, after)?;
        Ok((Some(test), rest))
    }

    // Expressions and the sign that closes, or that sign alone.
    #[tactic(auto, unfolding(crate::specs::Statements::closed_exprs))]
    fn closed_exprs<'t>(
        &self,
        close: Sign,
        ts: &'t [Token],
    ) -> Result<(Items<Expr>, &'t [Token]), Fault>
        requires { Nests self.now.depth (E.pre self.now.expr) (E.post self.now.expr) (S.pre self.now.stmt) (S.post self.now.stmt) (P.pre self.now.parameters) (P.post self.now.parameters) }
        ensures { Gives (λ x. (x.0, x.1.now)) result (spec.closed_exprs (inner_at self.now.depth) close ts.now) }
    {
        if next_sign(close, ts) {
            return Ok((Items::new(self.alloc), behind(ts)));
        }
        let (items, after) = self.exprs(close, ts)?;
        let (_, rest) = sign_at(close, after)?;
        Ok((items, rest))
    }

    #[tactic(auto, unfolding(crate::specs::Statements::loop_declared))]
    fn loop_declared<'t>(
        &self,
        from: u32,
        ts: &'t [Token],
    ) -> Result<(Boxed<Stmt>, &'t [Token]), Fault>
        requires { Nests self.now.depth (E.pre self.now.expr) (E.post self.now.expr) (S.pre self.now.stmt) (S.post self.now.stmt) (P.pre self.now.parameters) (P.post self.now.parameters) }
        ensures { Gives (λ x. (x.0, x.1.now)) result (spec.loop_declared (inner_at self.now.depth) from ts.now) }
    {
        let ((variables, _), after) = self.variables(ts)?;
        let (test, after) = self.loop_test(after)?;
        let (updates, after) = self.closed_exprs(Sign::CloseParen, after)?;
        let (body, rest) = self.stmt(after)?;
        let span = Span {
            from,
            to: stmt_span(body.get()).to,
        };
        boxed(
            self.alloc,
            Stmt::ForDeclared(span, variables, test, updates, body),
            rest,
        )
    }

    #[tactic(auto, unfolding(crate::specs::Statements::loop_plain))]
    fn loop_plain<'t>(
        &self,
        from: u32,
        ts: &'t [Token],
    ) -> Result<(Boxed<Stmt>, &'t [Token]), Fault>
        requires { Nests self.now.depth (E.pre self.now.expr) (E.post self.now.expr) (S.pre self.now.stmt) (S.post self.now.stmt) (P.pre self.now.parameters) (P.post self.now.parameters) }
        ensures { Gives (λ x. (x.0, x.1.now)) result (spec.loop_plain (inner_at self.now.depth) from ts.now) }
    {
        let (firsts, after) = self.closed_exprs(Sign::Semicolon, ts)?;
        let (test, after) = self.loop_test(after)?;
        let (updates, after) = self.closed_exprs(Sign::CloseParen, after)?;
        let (body, rest) = self.stmt(after)?;
        let span = Span {
            from,
            to: stmt_span(body.get()).to,
        };
        boxed(
            self.alloc,
            Stmt::For(span, firsts, test, updates, body),
            rest,
        )
    }

    // The values behind `in`, the bracket that closes, and the body.
    #[tactic(auto, unfolding(crate::specs::Statements::each))]
    fn each<'t>(&self, ts: &'t [Token]) -> Result<((Boxed<Expr>, Boxed<Stmt>), &'t [Token]), Fault>
        requires { Nests self.now.depth (E.pre self.now.expr) (E.post self.now.expr) (S.pre self.now.stmt) (S.post self.now.stmt) (P.pre self.now.parameters) (P.post self.now.parameters) }
        ensures { Gives (λ x. ((x.0.0, x.0.1), x.1.now)) result (spec.each (inner_at self.now.depth) ts.now) }
    {
        let (values, after) = self.expr(ts)?;
        let (_, after) = sign_at(Sign::CloseParen, after)?;
        let (body, rest) = self.stmt(after)?;
        Ok(((values, body), rest))
    }

    #[tactic(auto, unfolding(crate::specs::Statements::loop_in_declared))]
    fn loop_in_declared<'t>(
        &self,
        from: u32,
        ts: &'t [Token],
    ) -> Result<(Boxed<Stmt>, &'t [Token]), Fault>
        requires { Nests self.now.depth (E.pre self.now.expr) (E.post self.now.expr) (S.pre self.now.stmt) (S.post self.now.stmt) (P.pre self.now.parameters) (P.post self.now.parameters) }
        ensures { Gives (λ x. (x.0, x.1.now)) result (spec.loop_in_declared (inner_at self.now.depth) from ts.now) }
    {
        let (is_final, after) = lead(self.alloc, ts)?;
        let (name, after) = name_at(after)?;
        let (_, after) = word_at(Word::In, after)?;
        let ((values, body), rest) = self.each(after)?;
        let span = Span {
            from,
            to: stmt_span(body.get()).to,
        };
        boxed(
            self.alloc,
            Stmt::ForInDeclared(span, is_final, name, values, body),
            rest,
        )
    }

    #[tactic(auto, unfolding(crate::specs::Statements::loop_in))]
    fn loop_in<'t>(&self, from: u32, ts: &'t [Token]) -> Result<(Boxed<Stmt>, &'t [Token]), Fault>
        requires { Nests self.now.depth (E.pre self.now.expr) (E.post self.now.expr) (S.pre self.now.stmt) (S.post self.now.stmt) (P.pre self.now.parameters) (P.post self.now.parameters) }
        ensures { Gives (λ x. (x.0, x.1.now)) result (spec.loop_in (inner_at self.now.depth) from ts.now) }
    {
        let (name, after) = name_at(ts)?;
        let (_, after) = word_at(Word::In, after)?;
        let ((values, body), rest) = self.each(after)?;
        let span = Span {
            from,
            to: stmt_span(body.get()).to,
        };
        boxed(self.alloc, Stmt::ForIn(span, name, values, body), rest)
    }

    #[tactic(auto, unfolding(crate::specs::Statements::for_loop))]
    fn for_loop<'t>(&self, from: u32, ts: &'t [Token]) -> Result<(Boxed<Stmt>, &'t [Token]), Fault>
        requires { Nests self.now.depth (E.pre self.now.expr) (E.post self.now.expr) (S.pre self.now.stmt) (S.post self.now.stmt) (P.pre self.now.parameters) (P.post self.now.parameters) }
        ensures { Gives (λ x. (x.0, x.1.now)) result (spec.for_loop (inner_at self.now.depth) from ts.now) }
    {
        let (_, after) = sign_at(Sign::OpenParen, ts)?;
        match for_kind_of(after) {
            ForKind::In => self.loop_in(from, after),
            ForKind::DeclaredIn => self.loop_in_declared(from, after),
            ForKind::Declared => self.loop_declared(from, after),
            ForKind::Expressions => self.loop_plain(from, after),
        }
    }

    // At most `turns` clauses behind a block that ends at `end`, and where the last of them ends.
    #[tactic(auto, using(crate::proofs::Turns::one_turn, crate::proofs::Turns::no_turn), unfolding(crate::specs::Statements::clauses_from))]
    fn clauses<'t>(
        &self,
        turns: usize,
        end: u32,
        ts: &'t [Token],
    ) -> Result<((Items<Catch>, u32), &'t [Token]), Fault>
        requires { Nests self.now.depth (E.pre self.now.expr) (E.post self.now.expr) (S.pre self.now.stmt) (S.post self.now.stmt) (P.pre self.now.parameters) (P.post self.now.parameters) }
        ensures { Gives (λ x. ((x.0.0, x.0.1), x.1.now)) result (spec.clauses_from (inner_at self.now.depth) turns [] end ts.now) }
    {
        let mut found = Items::new(self.alloc);
        let mut last = end;
        let mut rest = ts;
        for _turn in 0..turns {
            if !begins_clause(rest) {
                return Ok(((found, last), rest));
            }
            let (clause, after) = self.clause(rest)?;
            last = clause.span.to;
            found.push(clause)?;
            rest = after;
        }
        Err(Fault::NotDerived)
    }

    #[tactic(auto, unfolding(crate::specs::Statements::with_finally))]
    fn with_finally<'t>(
        &self,
        from: u32,
        body: Items<Stmt>,
        catches: Items<Catch>,
        ts: &'t [Token],
    ) -> Result<(Boxed<Stmt>, &'t [Token]), Fault>
        requires { Nests self.now.depth (E.pre self.now.expr) (E.post self.now.expr) (S.pre self.now.stmt) (S.post self.now.stmt) (P.pre self.now.parameters) (P.post self.now.parameters) }
        ensures { Gives (λ x. (x.0, x.1.now)) result (spec.with_finally (inner_at self.now.depth) from body catches ts.now) }
    {
        let ((last, to), rest) = self.block(ts)?;
        let span = Span { from, to };
        boxed(
            self.alloc,
            Stmt::TryFinally(span, body, catches, last),
            rest,
        )
    }

    #[tactic(auto, unfolding(crate::specs::Statements::attempt))]
    fn attempt<'t>(&self, from: u32, ts: &'t [Token]) -> Result<(Boxed<Stmt>, &'t [Token]), Fault>
        requires { Nests self.now.depth (E.pre self.now.expr) (E.post self.now.expr) (S.pre self.now.stmt) (S.post self.now.stmt) (P.pre self.now.parameters) (P.post self.now.parameters) }
        ensures { Gives (λ x. (x.0, x.1.now)) result (spec.attempt (inner_at self.now.depth) from ts.now) }
    {
        let ((body, to), after) = self.block(ts)?;
        let ((catches, to), after) = self.clauses(ts.len(), to, after)?;
        if next_word(Word::Finally, after) {
            return self.with_finally(from, body, catches, behind(after));
        }
        without_finally(self.alloc, from, body, catches, to, after)
    }

    // A statement that begins with the word, which begins at `from`.
    fn word_statement<'t>(
        &self,
        word: Word,
        from: u32,
        ts: &'t [Token],
        rest: &'t [Token],
    ) -> Result<(Boxed<Stmt>, &'t [Token]), Fault>
        requires { Nests self.now.depth (E.pre self.now.expr) (E.post self.now.expr) (S.pre self.now.stmt) (S.post self.now.stmt) (P.pre self.now.parameters) (P.post self.now.parameters) }
        ensures { Gives (λ x. (x.0, x.1.now)) result (spec.word_statement (inner_at self.now.depth) word from ts.now rest.now) }
    {
        match word {
            Word::If => self.choose(from, rest),
            Word::While => self.repeat(from, rest),
            Word::Do => self.repeat_once(from, rest),
            Word::For => self.for_loop(from, rest),
            Word::Break => self.break_loop(from, rest),
            Word::Continue => self.continue_loop(from, rest),
            Word::Return => self.leave(from, rest),
            Word::Rethrow => self.throw_again(from, rest),
            Word::Assert => self.asserted(from, rest),
            Word::Try => self.attempt(from, rest),
            _ => self.simple(ts),
        }
    }

    /// A statement, by its first token.
    #[tactic(auto, unfolding(crate::specs::Statements::statement))]
    pub fn statement<'t>(&self, ts: &'t [Token]) -> Result<(Boxed<Stmt>, &'t [Token]), Fault>
        requires { Nests self.now.depth (E.pre self.now.expr) (E.post self.now.expr) (S.pre self.now.stmt) (S.post self.now.stmt) (P.pre self.now.parameters) (P.post self.now.parameters) }
        ensures { Gives (λ x. (x.0, x.1.now)) result (spec.statement (inner_at self.now.depth) ts.now) }
    {
        let Some((first, rest)) = next(ts) else {
            return Err(Fault::NotDerived);
        };
        match &first.form {
            Form::Sign(Sign::OpenBrace) => self.nested_block(ts),
            Form::Sign(Sign::Semicolon) => {
                let span = Span {
                    from: first.from,
                    to: first.to,
                };
                boxed(self.alloc, Stmt::Empty(span), rest)
            }
            Form::Word(word) => self.word_statement(*word, first.from, ts, rest),
            _ => self.simple(ts),
        }
    }
}
