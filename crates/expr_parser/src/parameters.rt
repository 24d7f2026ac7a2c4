//! Parameters, with the metadata before them.
ghost use Rattle.std.specs.Prelude.{◌≡◌, length, []};
ghost use Rattle.expr_parser.specs.Cursor.{Gives};
ghost use Rattle.expr_parser.specs.Knot.{inner_at};
ghost use Rattle.expr_parser.specs.Nests.{Nests};
ghost use Rattle.expr_parser.specs.Parameters as spec;

use crate::cursor::{name_at, sign_at, start, word_at};
use crate::fault::Fault;
use crate::grammar::Grammar;
use crate::types::{dotted, past_result};
use dart_grammar::marks::{behind, next_sign, next_word};
use dart_grammar::trees::{Expr, OptionalParameter, Parameter, Parameters, Span, Stmt};
use dart_syntax::{Sign, Token, Word};
use sqlite_items::{Boxed, Items};
use std::alloc::Global;

// Behind one name to three, with dots between.
#[tactic(auto, unfolding(crate::specs::Parameters::past_metadata_names))]
fn past_metadata_names(alloc: Global, ts: &[Token]) -> Result<&[Token], Fault>
    ensures { Gives (λ x. x.now) result (spec.past_metadata_names ts.now) }
{
    let (_, after) = dotted(alloc, ts)?;
    if !next_sign(Sign::Dot, after) {
        return Ok(after);
    }
    let (_, rest) = name_at(behind(after))?;
    Ok(rest)
}

// Behind `var` or `final`, if one stands here, and whether it is `final`.
fn finality(ts: &[Token]) -> (bool, &[Token])
    ensures { (result.0, result.1.now) ≡ spec.finality ts.now }
{
    if next_word(Word::Var, ts) {
        (false, behind(ts))
    } else if next_word(Word::Final, ts) {
        (true, behind(ts))
    } else {
        (false, ts)
    }
}

// Behind `this.`, if it stands here, and where `this` stands.
#[tactic(auto, unfolding(crate::specs::Parameters::this_at))]
fn this_at(ts: &[Token]) -> Result<(Option<Span>, &[Token]), Fault>
    ensures { Gives (λ x. (x.0, x.1.now)) result (spec.this_at ts.now) }
{
    if !next_word(Word::This, ts) {
        return Ok((None, ts));
    }
    let (span, after) = word_at(Word::This, ts)?;
    let (_, rest) = sign_at(Sign::Dot, after)?;
    Ok((Some(span), rest))
}

impl<
    E: Fn(Global, &[Token], usize) -> Result<(Boxed<Expr>, &[Token]), Fault>,
    S: Fn(Global, &[Token], usize) -> Result<(Boxed<Stmt>, &[Token]), Fault>,
    P: Fn(Global, &[Token], usize) -> Result<(Parameters, &[Token]), Fault>,
> Grammar<E, S, P> {
    // Behind metadata, as often as it stands here.
    #[tactic(auto, using(crate::proofs::Turns::one_turn, crate::proofs::Turns::no_turn), unfolding(crate::specs::Parameters::past_metadata, crate::specs::Parameters::metadata_from))]
    pub fn past_metadata<'t>(&self, ts: &'t [Token]) -> Result<&'t [Token], Fault>
        requires { Nests self.now.depth (E.pre self.now.expr) (E.post self.now.expr) (S.pre self.now.stmt) (S.post self.now.stmt) (P.pre self.now.parameters) (P.post self.now.parameters) }
        ensures { Gives (λ x. x.now) result (spec.past_metadata (inner_at self.now.depth) ts.now) }
    {
        let mut rest = ts;
        for _turn in 0..ts.len() {
            if !next_sign(Sign::At, rest) {
                return Ok(rest);
            }
            let after = past_metadata_names(self.alloc, behind(rest))?;
            rest = self.past_arguments(after)?;
        }
        Err(Fault::NotDerived)
    }

    // Behind the parameters of a parameter that is a function, and where they end; it ends at `end` if it is none.
    #[tactic(auto, unfolding(crate::specs::Parameters::nested_at))]
    fn nested_at<'t>(&self, end: u32, ts: &'t [Token]) -> Result<(u32, &'t [Token]), Fault>
        requires { Nests self.now.depth (E.pre self.now.expr) (E.post self.now.expr) (S.pre self.now.stmt) (S.post self.now.stmt) (P.pre self.now.parameters) (P.post self.now.parameters) }
        ensures { Gives (λ x. (x.0, x.1.now)) result (spec.nested_at (inner_at self.now.depth) end ts.now) }
    {
        if !next_sign(Sign::OpenParen, ts) {
            return Ok((end, ts));
        }
        let (parameters, rest) = self.parameters(ts)?;
        Ok((parameters.span.to, rest))
    }

    // A parameter whose metadata begins at `from`, from behind `final`.
    #[tactic(auto, unfolding(crate::specs::Parameters::declared_parameter))]
    fn declared_parameter<'t>(
        &self,
        from: u32,
        is_final: bool,
        ts: &'t [Token],
    ) -> Result<(Parameter, &'t [Token]), Fault>
        requires { Nests self.now.depth (E.pre self.now.expr) (E.post self.now.expr) (S.pre self.now.stmt) (S.post self.now.stmt) (P.pre self.now.parameters) (P.post self.now.parameters) }
        ensures { Gives (λ x. (x.0, x.1.now)) result (spec.declared_parameter (inner_at self.now.depth) from is_final ts.now) }
    {
        let after = past_result(self.alloc, ts)?;
        let (this, after) = this_at(after)?;
        let (name, after) = name_at(after)?;
        let (to, rest) = self.nested_at(name.span.to, after)?;
        let span = Span { from, to };
        let parameter = Parameter {
            span,
            is_final,
            this,
            name,
        };
        Ok((parameter, rest))
    }

    #[tactic(auto, unfolding(crate::specs::Parameters::parameter))]
    pub fn parameter<'t>(&self, ts: &'t [Token]) -> Result<(Parameter, &'t [Token]), Fault>
        requires { Nests self.now.depth (E.pre self.now.expr) (E.post self.now.expr) (S.pre self.now.stmt) (S.post self.now.stmt) (P.pre self.now.parameters) (P.post self.now.parameters) }
        ensures { Gives (λ x. (x.0, x.1.now)) result (spec.parameter (inner_at self.now.depth) ts.now) }
    {
        let (is_final, after) = finality(self.past_metadata(ts)?);
        self.declared_parameter(start(ts), is_final, after)
    }

    #[tactic(auto, unfolding(crate::specs::Parameters::optional_parameter))]
    fn optional_parameter<'t>(
        &self,
        ts: &'t [Token],
    ) -> Result<(OptionalParameter, &'t [Token]), Fault>
        requires { Nests self.now.depth (E.pre self.now.expr) (E.post self.now.expr) (S.pre self.now.stmt) (S.post self.now.stmt) (P.pre self.now.parameters) (P.post self.now.parameters) }
        ensures { Gives (λ x. (x.0, x.1.now)) result (spec.optional_parameter (inner_at self.now.depth) ts.now) }
    {
        let (parameter, after) = self.parameter(ts)?;
        if !next_sign(Sign::Assign, after) {
            return Ok((OptionalParameter::WithoutDefault(parameter), after));
        }
        let (value, rest) = self.expr(behind(after))?;
        Ok((OptionalParameter::WithDefault(parameter, value), rest))
    }

    #[tactic(auto, using(crate::proofs::Turns::one_turn, crate::proofs::Turns::no_turn), unfolding(crate::specs::Parameters::optional_from))]
    fn optional_items<'t>(
        &self,
        ts: &'t [Token],
    ) -> Result<(Items<OptionalParameter>, &'t [Token]), Fault>
        requires { Nests self.now.depth (E.pre self.now.expr) (E.post self.now.expr) (S.pre self.now.stmt) (S.post self.now.stmt) (P.pre self.now.parameters) (P.post self.now.parameters) }
        ensures { Gives (λ x. (x.0, x.1.now)) result (spec.optional_from (inner_at self.now.depth) (length ts.now) [] ts.now) }
    {
        let mut found = Items::new(self.alloc);
        let mut rest = ts;
        for _turn in 0..ts.len() {
            let (item, after) = self.optional_parameter(rest)?;
            found.push(item)?;
            if !next_sign(Sign::Comma, after) {
                return Ok((found, after));
            }
            rest = behind(after);
        }
        Err(Fault::NotDerived)
    }

    // Optional parameters in their brackets.
    #[tactic(auto, unfolding(crate::specs::Parameters::optional))]
    fn optional<'t>(
        &self,
        ts: &'t [Token],
    ) -> Result<(Items<OptionalParameter>, &'t [Token]), Fault>
        requires { Nests self.now.depth (E.pre self.now.expr) (E.post self.now.expr) (S.pre self.now.stmt) (S.post self.now.stmt) (P.pre self.now.parameters) (P.post self.now.parameters) }
        ensures { Gives (λ x. (x.0, x.1.now)) result (spec.optional (inner_at self.now.depth) ts.now) }
    {
        let (_, after) = sign_at(Sign::OpenBracket, ts)?;
        let (items, after) = self.optional_items(after)?;
        let (_, rest) = sign_at(Sign::CloseBracket, after)?;
        Ok((items, rest))
    }

    // Required parameters, and the optional ones behind them.
    #[tactic(auto, using(crate::proofs::Turns::one_turn, crate::proofs::Turns::no_turn), unfolding(crate::specs::Parameters::parameters_from))]
    fn items<'t>(
        &self,
        ts: &'t [Token],
    ) -> Result<((Items<Parameter>, Items<OptionalParameter>), &'t [Token]), Fault>
        requires { Nests self.now.depth (E.pre self.now.expr) (E.post self.now.expr) (S.pre self.now.stmt) (S.post self.now.stmt) (P.pre self.now.parameters) (P.post self.now.parameters) }
        ensures { Gives (λ x. ((x.0.0, x.0.1), x.1.now)) result (spec.parameters_from (inner_at self.now.depth) (length ts.now) [] ts.now) }
    {
        let mut found = Items::new(self.alloc);
        let mut rest = ts;
        for _turn in 0..ts.len() {
            if next_sign(Sign::OpenBracket, rest) {
                let (optional, after) = self.optional(rest)?;
                return Ok(((found, optional), after));
            }
            let (item, after) = self.parameter(rest)?;
            found.push(item)?;
            if !next_sign(Sign::Comma, after) {
                return Ok(((found, Items::new(self.alloc)), after));
            }
            rest = behind(after);
        }
        Err(Fault::NotDerived)
    }

    /// Parameters in their brackets.
    #[tactic(auto, unfolding(crate::specs::Parameters::parameters))]
    pub fn all_parameters<'t>(&self, ts: &'t [Token]) -> Result<(Parameters, &'t [Token]), Fault>
        requires { Nests self.now.depth (E.pre self.now.expr) (E.post self.now.expr) (S.pre self.now.stmt) (S.post self.now.stmt) (P.pre self.now.parameters) (P.post self.now.parameters) }
        ensures { Gives (λ x. (x.0, x.1.now)) result (spec.parameters (inner_at self.now.depth) ts.now) }
    {
        let (open, after) = sign_at(Sign::OpenParen, ts)?;
        if next_sign(Sign::CloseParen, after) {
            let (close, rest) = sign_at(Sign::CloseParen, after)?;
            let parameters = Parameters {
                span: Span {
                    from: open.from,
                    to: close.to,
                },
                required: Items::new(self.alloc),
                optional: Items::new(self.alloc),
            };
            return Ok((parameters, rest));
        }
        let ((required, optional), after) = self.items(after)?;
        let (close, rest) = sign_at(Sign::CloseParen, after)?;
        let parameters = Parameters {
            span: Span {
                from: open.from,
                to: close.to,
            },
            required,
            optional,
        };
        Ok((parameters, rest))
    }
}
