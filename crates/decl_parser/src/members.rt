//! Members of a class; `name` is the class's.
ghost use Rattle.std.specs.Prelude.{[]};
ghost use Rattle.decl_parser.specs.Members as spec;
ghost use Rattle.expr_parser.specs.Cursor.{Gives};
ghost use Rattle.expr_parser.specs.Knot.{inner_at};

use crate::bodies::named_at;
use crate::context::Context;
use code_units::Text;
use dart_grammar::DeclarationKind;
use dart_grammar::begins::{begins_constructor, begins_static, declaration_kind};
use dart_grammar::declarations::{Constructor, Initialiser, Member};
use dart_grammar::marks::{behind, next_sign, next_word};
use dart_grammar::spans::span_of;
use dart_grammar::trees::{Body, Name, Names, Span};
use dart_syntax::{Sign, Token, Word};
use expr_parser::Fault;
use expr_parser::cursor::{name_at, sign_at, start, word_at};
use expr_parser::parts::{arguments, expr, parameters, past_metadata, variables};
use sqlite_items::Items;
use std::alloc::Global;

// The name of a constructor: that of its class, and its own if it has one.
#[tactic(auto, unfolding(crate::specs::Members::constructor_names))]
fn constructor_names<'t>(
    alloc: Global,
    name: &[u16],
    ts: &'t [Token],
) -> Result<(Names, &'t [Token]), Fault>
    ensures { Gives (λ x. (x.0, x.1.now)) result (spec.constructor_names name.now ts.now) }
{
    let (span, after) = named_at(name, ts)?;
    let mut names = Items::new(alloc);
    let text = Text::from_slice(alloc, name)?;
    names.push(Name { text, span })?;
    if !next_sign(Sign::Dot, after) {
        return Ok((names, after));
    }
    let (own, rest) = name_at(behind(after))?;
    names.push(own)?;
    Ok((names, rest))
}

impl Context {
    // `name = value`; the initialiser begins at `from`.
    #[tactic(auto, unfolding(crate::specs::Members::field))]
    fn field(self, from: u32, ts: &[Token]) -> Result<(Initialiser, &[Token]), Fault>
        ensures { Gives (λ x. (x.0, x.1.now)) result (spec.field (inner_at self.depth) from ts.now) }
    {
        let (name, after) = name_at(ts)?;
        let (_, after) = sign_at(Sign::Assign, after)?;
        let (value, rest) = expr(self.alloc, after, self.depth)?;
        let span = Span {
            from,
            to: span_of(value.get()).to,
        };
        Ok((Initialiser::Field(span, name, value), rest))
    }

    // `this.name = value`
    #[tactic(auto, unfolding(crate::specs::Members::field_of_this))]
    fn field_of_this(self, ts: &[Token]) -> Result<(Initialiser, &[Token]), Fault>
        ensures { Gives (λ x. (x.0, x.1.now)) result (spec.field_of_this (inner_at self.depth) ts.now) }
    {
        let (this, after) = word_at(Word::This, ts)?;
        let (_, after) = sign_at(Sign::Dot, after)?;
        self.field(this.from, after)
    }

    // `super(arguments)` or `super.name(arguments)`
    #[tactic(auto, unfolding(crate::specs::Members::super_call))]
    fn super_call(self, ts: &[Token]) -> Result<(Initialiser, &[Token]), Fault>
        ensures { Gives (λ x. (x.0, x.1.now)) result (spec.super_call (inner_at self.depth) ts.now) }
    {
        let (word, after) = word_at(Word::Super, ts)?;
        if !next_sign(Sign::Dot, after) {
            let (arguments, rest) = arguments(self.alloc, after, self.depth)?;
            let span = Span {
                from: word.from,
                to: arguments.span.to,
            };
            return Ok((Initialiser::Super(span, None, arguments), rest));
        }
        let (name, after) = name_at(behind(after))?;
        let (arguments, rest) = arguments(self.alloc, after, self.depth)?;
        let span = Span {
            from: word.from,
            to: arguments.span.to,
        };
        Ok((Initialiser::Super(span, Some(name), arguments), rest))
    }

    #[tactic(auto, unfolding(crate::specs::Members::initialiser))]
    fn initialiser(self, ts: &[Token]) -> Result<(Initialiser, &[Token]), Fault>
        ensures { Gives (λ x. (x.0, x.1.now)) result (spec.initialiser (inner_at self.depth) ts.now) }
    {
        if next_word(Word::This, ts) {
            self.field_of_this(ts)
        } else if next_word(Word::Super, ts) {
            self.super_call(ts)
        } else {
            self.field(start(ts), ts)
        }
    }

    // Initialisers from behind the colon, in so many turns at most.
    #[tactic(auto, using(expr_parser::proofs::Turns::one_turn, expr_parser::proofs::Turns::no_turn), unfolding(crate::specs::Members::initialisers_from))]
    fn initialisers(
        self,
        turns: usize,
        ts: &[Token],
    ) -> Result<(Items<Initialiser>, &[Token]), Fault>
        ensures { Gives (λ x. (x.0, x.1.now)) result (spec.initialisers_from (inner_at self.depth) turns [] ts.now) }
    {
        let mut found = Items::new(self.alloc);
        let mut rest = ts;
        for _turn in 0..turns {
            let (item, after) = self.initialiser(rest)?;
            found.push(item)?;
            if !next_sign(Sign::Comma, after) {
                return Ok((found, after));
            }
            rest = behind(after);
        }
        Err(Fault::NotDerived)
    }

    // Initialisers, if there are some.
    #[tactic(auto, unfolding(crate::specs::Members::may_initialise))]
    fn may_initialise(self, ts: &[Token]) -> Result<(Items<Initialiser>, &[Token]), Fault>
        ensures { Gives (λ x. (x.0, x.1.now)) result (spec.may_initialise (inner_at self.depth) ts.now) }
    {
        if !next_sign(Sign::Colon, ts) {
            return Ok((Items::new(self.alloc), ts));
        }
        self.initialisers(ts.len(), behind(ts))
    }

    // A body that is no `=>`, and where it ends.
    #[tactic(auto, unfolding(crate::specs::Members::constructor_body))]
    fn constructor_body(self, ts: &[Token]) -> Result<((Body, u32), &[Token]), Fault>
        ensures { Gives (λ x. ((x.0.0, x.0.1), x.1.now)) result (spec.constructor_body (inner_at self.depth) self.native ts.now) }
    {
        if next_sign(Sign::Arrow, ts) {
            return Err(Fault::NotDerived);
        }
        self.body(true, ts)
    }

    // A constructor, from behind its metadata, which begins at `from`.
    #[tactic(auto, unfolding(crate::specs::Members::constructor))]
    fn constructor<'t>(
        self,
        name: &[u16],
        from: u32,
        ts: &'t [Token],
    ) -> Result<(Constructor, &'t [Token]), Fault>
        ensures { Gives (λ x. (x.0, x.1.now)) result (spec.constructor (inner_at self.depth) self.native name.now from ts.now) }
    {
        let (names, after) = constructor_names(self.alloc, name, ts)?;
        let (parameters, after) = parameters(self.alloc, after, self.depth)?;
        let (initialisers, after) = self.may_initialise(after)?;
        let ((body, to), rest) = self.constructor_body(after)?;
        let constructor = Constructor {
            span: Span { from, to },
            names,
            parameters,
            initialisers,
            body,
        };
        Ok((constructor, rest))
    }

    // A function, accessor or fields by what it is, from behind metadata and `static`; the metadata begins at `from`.
    #[tactic(auto, unfolding(crate::specs::Members::plain_member_by))]
    fn plain_member(
        self,
        kind: DeclarationKind,
        is_static: bool,
        from: u32,
        ts: &[Token],
    ) -> Result<(Member, &[Token]), Fault>
        ensures { Gives (λ x. (x.0, x.1.now)) result (spec.plain_member_by (inner_at self.depth) self.native kind is_static from ts.now) }
    {
        match kind {
            DeclarationKind::Function => {
                let (function, rest) = self.function(true, from, ts)?;
                Ok((Member::Function(is_static, function), rest))
            }
            DeclarationKind::Getter => {
                let (getter, rest) = self.getter(true, from, ts)?;
                Ok((Member::Getter(is_static, getter), rest))
            }
            DeclarationKind::Setter => {
                let (setter, rest) = self.setter(true, from, ts)?;
                Ok((Member::Setter(is_static, setter), rest))
            }
            DeclarationKind::Variables => {
                let ((variables, to), rest) = variables(self.alloc, ts, self.depth)?;
                let span = Span { from, to };
                Ok((Member::Fields(is_static, span, variables), rest))
            }
            DeclarationKind::Operator => Err(Fault::NotDerived),
        }
    }

    // A member that is no constructor and not static, by what it is.
    #[tactic(auto, unfolding(crate::specs::Members::own_member_by))]
    fn own_member(
        self,
        kind: DeclarationKind,
        from: u32,
        ts: &[Token],
    ) -> Result<(Member, &[Token]), Fault>
        ensures { Gives (λ x. (x.0, x.1.now)) result (spec.own_member_by (inner_at self.depth) self.native kind from ts.now) }
    {
        match kind {
            DeclarationKind::Operator => {
                let (operator, rest) = self.operator_method(from, ts)?;
                Ok((Member::Operator(operator), rest))
            }
            _ => self.plain_member(kind, false, from, ts),
        }
    }

    // A member from behind its metadata, which begins at `from`.
    #[tactic(auto, unfolding(crate::specs::Members::member_behind))]
    fn member_behind<'t>(
        self,
        name: &[u16],
        from: u32,
        ts: &'t [Token],
    ) -> Result<(Member, &'t [Token]), Fault>
        ensures { Gives (λ x. (x.0, x.1.now)) result (spec.member_behind (inner_at self.depth) self.native name.now from ts.now) }
    {
        if begins_static(name, ts) {
            let after = behind(ts);
            return self.plain_member(declaration_kind(after), true, from, after);
        }
        if begins_constructor(name, ts) {
            let (constructor, rest) = self.constructor(name, from, ts)?;
            return Ok((Member::Constructor(constructor), rest));
        }
        self.own_member(declaration_kind(ts), from, ts)
    }

    #[tactic(auto, unfolding(crate::specs::Members::member))]
    fn member<'t>(self, name: &[u16], ts: &'t [Token]) -> Result<(Member, &'t [Token]), Fault>
        ensures { Gives (λ x. (x.0, x.1.now)) result (spec.member (inner_at self.depth) self.native name.now ts.now) }
    {
        let after = past_metadata(self.alloc, ts, self.depth)?;
        self.member_behind(name, start(ts), after)
    }

    /// Members up to a `}`.
    #[tactic(auto, using(expr_parser::proofs::Turns::one_turn, expr_parser::proofs::Turns::no_turn), unfolding(crate::specs::Members::members, crate::specs::Members::members_from))]
    pub fn members<'t>(
        self,
        name: &[u16],
        ts: &'t [Token],
    ) -> Result<(Items<Member>, &'t [Token]), Fault>
        ensures { Gives (λ x. (x.0, x.1.now)) result (spec.members (inner_at self.depth) self.native name.now ts.now) }
    {
        let mut found = Items::new(self.alloc);
        let mut rest = ts;
        for _turn in 0..ts.len() {
            if next_sign(Sign::CloseBrace, rest) {
                return Ok((found, rest));
            }
            let (item, after) = self.member(name, rest)?;
            found.push(item)?;
            rest = after;
        }
        Err(Fault::NotDerived)
    }
}
