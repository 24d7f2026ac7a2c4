//! Bodies, functions, accessors and operators, from behind their metadata; `from` is where that begins.
ghost use Rattle.dart_grammar.specs.Declarations.{spelling, native_word};
ghost use Rattle.decl_parser.specs.Bodies as spec;
ghost use Rattle.expr_parser.specs.Cursor.{Gives};
ghost use Rattle.expr_parser.specs.Knot.{inner_at};

use crate::context::Context;
use dart_grammar::begins::{is_variables, kind_at, next_built_in};
use dart_grammar::declarations::{Function, Getter, OperatorMethod, OperatorName, Setter};
use dart_grammar::kinds::BuiltIn;
use dart_grammar::marks::{behind, next, next_named, next_sign};
use dart_grammar::trees::{Body, Span};
use dart_syntax::{Form, Sign, Token};
use expr_parser::Fault;
use expr_parser::cursor::{name_at, sign_at};
use expr_parser::parts::{block, expr, parameter, parameters};
use expr_parser::types::past_result;
use std::alloc::Global;

/// The name of these units, and where it stands.
#[tactic(auto, unfolding(crate::specs::Bodies::named_at))]
pub fn named_at<'t>(units: &[u16], ts: &'t [Token]) -> Result<(Span, &'t [Token]), Fault>
    ensures { Gives (λ x. (x.0, x.1.now)) result (spec.named_at units.now ts.now) }
{
    if !next_named(units, ts) {
        return Err(Fault::NotDerived);
    }
    let (name, rest) = name_at(ts)?;
    Ok((name.span, rest))
}

/// The built-in identifier, and where it stands.
#[tactic(auto, unfolding(crate::specs::Bodies::named_at))]
pub fn built_in_at(word: BuiltIn, ts: &[Token]) -> Result<(Span, &[Token]), Fault>
    ensures { Gives (λ x. (x.0, x.1.now)) result (spec.named_at (spelling word) ts.now) }
{
    if !next_built_in(word, ts) {
        return Err(Fault::NotDerived);
    }
    let (name, rest) = name_at(ts)?;
    Ok((name.span, rest))
}

// Behind a type or `void`, where one stands before `get`, `set` or `operator`.
#[tactic(auto, unfolding(crate::specs::Bodies::past_type_before))]
fn past_type_before(alloc: Global, ts: &[Token]) -> Result<&[Token], Fault>
    ensures { Gives (λ x. x.now) result (spec.past_type_before ts.now) }
{
    if !is_variables(kind_at(ts)) {
        return Ok(ts);
    }
    past_result(alloc, ts)
}

// `native name;`, and where it ends.
#[tactic(auto, unfolding(crate::specs::Bodies::native_body))]
fn native_body(ts: &[Token]) -> Result<((Body, u32), &[Token]), Fault>
    ensures { Gives (λ x. ((x.0.0, x.0.1), x.1.now)) result (spec.native_body ts.now) }
{
    let (_, after) = built_in_at(BuiltIn::Native, ts)?;
    let (name, after) = name_at(after)?;
    let (close, rest) = sign_at(Sign::Semicolon, after)?;
    Ok(((Body::Native(name), close.to), rest))
}

// `[]` or `[]=` from behind its first bracket, which begins at `from`.
#[tactic(auto, unfolding(crate::specs::Bodies::index_name))]
fn index_name(from: u32, ts: &[Token]) -> Result<((OperatorName, Span), &[Token]), Fault>
    ensures { Gives (λ x. ((x.0.0, x.0.1), x.1.now)) result (spec.index_name from ts.now) }
{
    let (close, after) = sign_at(Sign::CloseBracket, ts)?;
    if !next_sign(Sign::Assign, after) {
        let span = Span { from, to: close.to };
        return Ok(((OperatorName::Index, span), after));
    }
    let (assign, rest) = sign_at(Sign::Assign, after)?;
    let span = Span {
        from,
        to: assign.to,
    };
    Ok(((OperatorName::SetIndex, span), rest))
}

// The operator that this sign begins, from behind the sign, which stands at `at`.
fn operator_by<'t>(
    sign: &Form,
    at: Span,
    ts: &'t [Token],
) -> Result<((OperatorName, Span), &'t [Token]), Fault>
    ensures { Gives (λ x. ((x.0.0, x.0.1), x.1.now)) result (spec.operator_by sign.now at ts.now) }
{
    match sign {
        Form::Sign(Sign::Plus) => Ok(((OperatorName::Plus, at), ts)),
        Form::Sign(Sign::Minus) => Ok(((OperatorName::Minus, at), ts)),
        Form::Sign(Sign::Times) => Ok(((OperatorName::Times, at), ts)),
        Form::Sign(Sign::Divide) => Ok(((OperatorName::Divide, at), ts)),
        Form::Sign(Sign::Modulo) => Ok(((OperatorName::Modulo, at), ts)),
        Form::Sign(Sign::Less) => Ok(((OperatorName::Less, at), ts)),
        Form::Sign(Sign::Greater) => Ok(((OperatorName::Greater, at), ts)),
        Form::Sign(Sign::LessEqual) => Ok(((OperatorName::LessEqual, at), ts)),
        Form::Sign(Sign::GreaterEqual) => Ok(((OperatorName::GreaterEqual, at), ts)),
        Form::Sign(Sign::OpenBracket) => index_name(at.from, ts),
        _ => Err(Fault::NotDerived),
    }
}

// The name of an operator that a class can declare, and where it stands.
#[tactic(auto, unfolding(crate::specs::Bodies::operator_name))]
fn operator_name(ts: &[Token]) -> Result<((OperatorName, Span), &[Token]), Fault>
    ensures { Gives (λ x. ((x.0.0, x.0.1), x.1.now)) result (spec.operator_name ts.now) }
{
    match next(ts) {
        Some((first, rest)) => {
            let at = Span {
                from: first.from,
                to: first.to,
            };
            operator_by(&first.form, at, rest)
        }
        None => Err(Fault::NotDerived),
    }
}

impl Context {
    /// What a function does, and where it ends.
    #[tactic(auto, unfolding(crate::specs::Bodies::body))]
    pub fn body(self, in_class: bool, ts: &[Token]) -> Result<((Body, u32), &[Token]), Fault>
        ensures { Gives (λ x. ((x.0.0, x.0.1), x.1.now)) result (spec.body (inner_at self.depth) self.native in_class ts.now) }
    {
        if next_sign(Sign::Arrow, ts) {
            let (value, after) = expr(self.alloc, behind(ts), self.depth)?;
            let (close, rest) = sign_at(Sign::Semicolon, after)?;
            return Ok(((Body::Gives(value), close.to), rest));
        }
        if next_sign(Sign::OpenBrace, ts) {
            let ((items, to), rest) = block(self.alloc, ts, self.depth)?;
            return Ok(((Body::Block(items), to), rest));
        }
        if next_sign(Sign::Semicolon, ts) {
            if !in_class {
                return Err(Fault::NotDerived);
            }
            let (close, rest) = sign_at(Sign::Semicolon, ts)?;
            return Ok(((Body::Abstract, close.to), rest));
        }
        if !self.native {
            return Err(Fault::NotDerived);
        }
        native_body(ts)
    }

    /// A function.
    #[tactic(auto, unfolding(crate::specs::Bodies::function))]
    pub fn function(
        self,
        in_class: bool,
        from: u32,
        ts: &[Token],
    ) -> Result<(Function, &[Token]), Fault>
        ensures { Gives (λ x. (x.0, x.1.now)) result (spec.function (inner_at self.depth) self.native in_class from ts.now) }
    {
        let after = past_result(self.alloc, ts)?;
        let (name, after) = name_at(after)?;
        let (parameters, after) = parameters(self.alloc, after, self.depth)?;
        let ((body, to), rest) = self.body(in_class, after)?;
        let function = Function {
            span: Span { from, to },
            name,
            parameters,
            body,
        };
        Ok((function, rest))
    }

    /// A getter.
    #[tactic(auto, unfolding(crate::specs::Bodies::getter))]
    pub fn getter(
        self,
        in_class: bool,
        from: u32,
        ts: &[Token],
    ) -> Result<(Getter, &[Token]), Fault>
        ensures { Gives (λ x. (x.0, x.1.now)) result (spec.getter (inner_at self.depth) self.native in_class from ts.now) }
    {
        let after = past_type_before(self.alloc, ts)?;
        let (_, after) = built_in_at(BuiltIn::Get, after)?;
        let (name, after) = name_at(after)?;
        let ((body, to), rest) = self.body(in_class, after)?;
        let getter = Getter {
            span: Span { from, to },
            name,
            body,
        };
        Ok((getter, rest))
    }

    /// A setter.
    #[tactic(auto, unfolding(crate::specs::Bodies::setter))]
    pub fn setter(
        self,
        in_class: bool,
        from: u32,
        ts: &[Token],
    ) -> Result<(Setter, &[Token]), Fault>
        ensures { Gives (λ x. (x.0, x.1.now)) result (spec.setter (inner_at self.depth) self.native in_class from ts.now) }
    {
        let after = past_type_before(self.alloc, ts)?;
        let (_, after) = built_in_at(BuiltIn::Set, after)?;
        let (name, after) = name_at(after)?;
        let (_, after) = sign_at(Sign::OpenParen, after)?;
        let (parameter, after) = parameter(self.alloc, after, self.depth)?;
        let (_, after) = sign_at(Sign::CloseParen, after)?;
        let ((body, to), rest) = self.body(in_class, after)?;
        let setter = Setter {
            span: Span { from, to },
            name,
            parameter,
            body,
        };
        Ok((setter, rest))
    }

    /// An operator.
    #[tactic(auto, unfolding(crate::specs::Bodies::operator_method))]
    pub fn operator_method(
        self,
        from: u32,
        ts: &[Token],
    ) -> Result<(OperatorMethod, &[Token]), Fault>
        ensures { Gives (λ x. (x.0, x.1.now)) result (spec.operator_method (inner_at self.depth) self.native from ts.now) }
    {
        let after = past_type_before(self.alloc, ts)?;
        let (_, after) = built_in_at(BuiltIn::Operator, after)?;
        let ((operator, sign), after) = operator_name(after)?;
        let (parameters, after) = parameters(self.alloc, after, self.depth)?;
        let ((body, to), rest) = self.body(true, after)?;
        let method = OperatorMethod {
            span: Span { from, to },
            operator,
            sign,
            parameters,
            body,
        };
        Ok((method, rest))
    }
}
