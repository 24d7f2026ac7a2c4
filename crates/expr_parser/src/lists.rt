//! Expressions and entries with commas between, and arguments.
ghost use Rattle.std.specs.Prelude.{◌≡◌};
ghost use Rattle.expr_parser.specs.Cursor.{Gives};
ghost use Rattle.expr_parser.specs.Knot.{inner_at};
ghost use Rattle.expr_parser.specs.Lists as spec;
ghost use Rattle.expr_parser.specs.Nests.{Nests};

use crate::cursor::sign_at;
use crate::fault::Fault;
use crate::grammar::Grammar;
use dart_grammar::marks::{behind, next_sign};
use dart_grammar::trees::{Arguments, Entry, Expr, Parameters, Span, Stmt};
use dart_syntax::{Sign, Token};
use sqlite_items::{Boxed, Items};
use std::alloc::Global;

fn goes_on(close: Sign, ts: &[Token]) -> bool
    ensures { result ≡ spec.goes_on close ts.now }
{
    next_sign(Sign::Comma, ts) && !next_sign(close, behind(ts))
}

/// A comma, if there is one, and the sign that closes, with where it ends.
#[tactic(auto, unfolding(crate::specs::Lists::last_comma))]
pub fn last_comma(close: Sign, ts: &[Token]) -> Result<(u32, &[Token]), Fault>
    ensures { Gives (λ x. (x.0, x.1.now)) result (spec.last_comma close ts.now) }
{
    let last = if next_sign(Sign::Comma, ts) {
        behind(ts)
    } else {
        ts
    };
    let (span, rest) = sign_at(close, last)?;
    Ok((span.to, rest))
}

impl<
    E: Fn(Global, &[Token], usize) -> Result<(Boxed<Expr>, &[Token]), Fault>,
    S: Fn(Global, &[Token], usize) -> Result<(Boxed<Stmt>, &[Token]), Fault>,
    P: Fn(Global, &[Token], usize) -> Result<(Parameters, &[Token]), Fault>,
> Grammar<E, S, P> {
    /// Expressions with commas between, before a sign that closes.
    #[tactic(auto, using(crate::proofs::Turns::one_turn, crate::proofs::Turns::no_turn), unfolding(crate::specs::Lists::exprs, crate::specs::Lists::exprs_from))]
    pub fn exprs<'t>(
        &self,
        close: Sign,
        ts: &'t [Token],
    ) -> Result<(Items<Expr>, &'t [Token]), Fault>
        requires { Nests self.now.depth (E.pre self.now.expr) (E.post self.now.expr) (S.pre self.now.stmt) (S.post self.now.stmt) (P.pre self.now.parameters) (P.post self.now.parameters) }
        ensures { Gives (λ x. (x.0, x.1.now)) result (spec.exprs (inner_at self.now.depth) close ts.now) }
    {
        let mut found = Items::new(self.alloc);
        let mut rest = ts;
        for _turn in 0..ts.len() {
            let (item, after) = self.expr(rest)?;
            found.push(item.into_inner())?;
            if !goes_on(close, after) {
                return Ok((found, after));
            }
            rest = behind(after);
        }
        Err(Fault::NotDerived)
    }

    // The value of an entry, with the colon before it.
    #[tactic(auto, unfolding(crate::specs::Lists::entry_value))]
    fn entry_value<'t>(&self, ts: &'t [Token]) -> Result<(Boxed<Expr>, &'t [Token]), Fault>
        requires { Nests self.now.depth (E.pre self.now.expr) (E.post self.now.expr) (S.pre self.now.stmt) (S.post self.now.stmt) (P.pre self.now.parameters) (P.post self.now.parameters) }
        ensures { Gives (λ x. (x.0, x.1.now)) result (spec.entry_value (inner_at self.now.depth) ts.now) }
    {
        let (_, after) = sign_at(Sign::Colon, ts)?;
        self.expr(after)
    }

    #[tactic(auto, unfolding(crate::specs::Lists::entry))]
    fn entry<'t>(&self, ts: &'t [Token]) -> Result<(Entry, &'t [Token]), Fault>
        requires { Nests self.now.depth (E.pre self.now.expr) (E.post self.now.expr) (S.pre self.now.stmt) (S.post self.now.stmt) (P.pre self.now.parameters) (P.post self.now.parameters) }
        ensures { Gives (λ x. (x.0, x.1.now)) result (spec.entry (inner_at self.now.depth) ts.now) }
    {
        let (key, after) = self.expr(ts)?;
        match self.entry_value(after) {
            Ok((value, rest)) => Ok((Entry { key, value }, rest)),
            Err(fault) => Err(fault),
        }
    }

    /// Entries of a map.
    #[tactic(auto, using(crate::proofs::Turns::one_turn, crate::proofs::Turns::no_turn), unfolding(crate::specs::Lists::entries, crate::specs::Lists::entries_from))]
    pub fn entries<'t>(&self, ts: &'t [Token]) -> Result<(Items<Entry>, &'t [Token]), Fault>
        requires { Nests self.now.depth (E.pre self.now.expr) (E.post self.now.expr) (S.pre self.now.stmt) (S.post self.now.stmt) (P.pre self.now.parameters) (P.post self.now.parameters) }
        ensures { Gives (λ x. (x.0, x.1.now)) result (spec.entries (inner_at self.now.depth) ts.now) }
    {
        let mut found = Items::new(self.alloc);
        let mut rest = ts;
        for _turn in 0..ts.len() {
            let (item, after) = self.entry(rest)?;
            found.push(item)?;
            if !goes_on(Sign::CloseBrace, after) {
                return Ok((found, after));
            }
            rest = behind(after);
        }
        Err(Fault::NotDerived)
    }

    /// Arguments in their brackets.
    #[tactic(auto, unfolding(crate::specs::Lists::arguments))]
    pub fn arguments<'t>(&self, ts: &'t [Token]) -> Result<(Arguments, &'t [Token]), Fault>
        requires { Nests self.now.depth (E.pre self.now.expr) (E.post self.now.expr) (S.pre self.now.stmt) (S.post self.now.stmt) (P.pre self.now.parameters) (P.post self.now.parameters) }
        ensures { Gives (λ x. (x.0, x.1.now)) result (spec.arguments (inner_at self.now.depth) ts.now) }
    {
        let (open, after) = sign_at(Sign::OpenParen, ts)?;
        if next_sign(Sign::CloseParen, after) {
            let (close, rest) = sign_at(Sign::CloseParen, after)?;
            let span = Span {
                from: open.from,
                to: close.to,
            };
            let items = Items::new(self.alloc);
            return Ok((Arguments { span, items }, rest));
        }
        let (items, after) = self.exprs(Sign::CloseParen, after)?;
        let (close, rest) = sign_at(Sign::CloseParen, after)?;
        let span = Span {
            from: open.from,
            to: close.to,
        };
        Ok((Arguments { span, items }, rest))
    }

    /// Behind arguments, where there are some.
    #[tactic(auto, unfolding(crate::specs::Lists::past_arguments))]
    pub fn past_arguments<'t>(&self, ts: &'t [Token]) -> Result<&'t [Token], Fault>
        requires { Nests self.now.depth (E.pre self.now.expr) (E.post self.now.expr) (S.pre self.now.stmt) (S.post self.now.stmt) (P.pre self.now.parameters) (P.post self.now.parameters) }
        ensures { Gives (λ x. x.now) result (spec.past_arguments (inner_at self.now.depth) ts.now) }
    {
        if !next_sign(Sign::OpenParen, ts) {
            return Ok(ts);
        }
        let (_, rest) = self.arguments(ts)?;
        Ok(rest)
    }
}
