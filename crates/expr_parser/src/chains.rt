//! Heads, selectors and targets.
ghost use Rattle.std.specs.Prelude.{◌≡◌, length, [], IfOk};
ghost use Rattle.dart_grammar.specs.Trees as trees;
ghost use Rattle.dart_grammar.specs.declared.trees.Head.{out-Head};
ghost use Rattle.dart_grammar.specs.declared.trees.Selector.{out-Selector};
ghost use Rattle.expr_parser.specs.Chains as spec;
ghost use Rattle.expr_parser.specs.Cursor.{Gives};
ghost use Rattle.expr_parser.specs.Knot.{inner_at};
ghost use Rattle.expr_parser.specs.Nests.{Nests};

use crate::cursor::{name_at, sign_at, start};
use crate::fault::Fault;
use crate::grammar::Grammar;
use crate::lists::last_comma;
use crate::types::{new_names, past_type_arguments};
use dart_grammar::marks::{behind, next, next_sign};
use dart_grammar::shapes::opens_function;
use dart_grammar::spans::{head_span, selectors_end};
use dart_grammar::trees::{Chain, Expr, Head, Name, Parameters, Selector, Span, Stmt, Target};
use dart_syntax::{Form, Sign, Token, Word};
use sqlite_items::{Boxed, Items};
use std::alloc::{AllocError, Global};

// A head and selectors, from the head's beginning to the last selector's end.
fn chain_of(
    alloc: Global,
    head: Head,
    selectors: Items<Selector>,
) -> Result<Boxed<Chain>, AllocError>
    ensures { IfOk result (λ chain. chain ≡ trees.chain_of head selectors) }
{
    let span = head_span(&head);
    let to = selectors_end(span.to, selectors.as_slice());
    let span = Span {
        from: span.from,
        to,
    };
    Boxed::new(
        alloc,
        Chain {
            span,
            head,
            selectors,
        },
    )
}

fn bare(alloc: Global, head: Head) -> Result<Boxed<Target>, Fault>
    ensures { Gives (λ x. x) result (spec.bare_at (out-Head head)) }
{
    match head {
        Head::Named(name) => Ok(Boxed::new(alloc, Target::Bare(name))?),
        _ => Err(Fault::NotDerived),
    }
}

fn selected(
    alloc: Global,
    head: Head,
    selectors: Items<Selector>,
    last: Selector,
) -> Result<Boxed<Target>, Fault>
    ensures { Gives (λ x. x) result (spec.selected_at head selectors (out-Selector last)) }
{
    match last {
        Selector::Member(_, name) => {
            let chain = chain_of(alloc, head, selectors)?;
            Ok(Boxed::new(alloc, Target::MemberOf(chain, name))?)
        }
        Selector::Index(span, index) => {
            let chain = chain_of(alloc, head, selectors)?;
            Ok(Boxed::new(alloc, Target::IndexOf(chain, span, index))?)
        }
        _ => Err(Fault::NotDerived),
    }
}

/// The target that a chain is: its last selector is a member or an index, or it is a name alone.
#[tactic(auto, using(crate::proofs::Targets::target_last), unfolding(crate::specs::Chains::target_of))]
pub fn target_of(alloc: Global, chain: Boxed<Chain>) -> Result<Boxed<Target>, Fault>
    ensures { Gives (λ x. x) result (spec.target_of chain) }
{
    let Chain {
        span: _,
        head,
        mut selectors,
    } = chain.into_inner();
    match selectors.pop() {
        Some(last) => selected(alloc, head, selectors, last),
        None => bare(alloc, head),
    }
}

/// The chain that an expression is.
#[tactic(auto, unfolding(crate::specs::Chains::chain_in))]
pub fn chain_in(expr: Boxed<Expr>) -> Result<Boxed<Chain>, Fault>
    ensures { Gives (λ x. x) result (spec.chain_in expr) }
{
    match expr.into_inner() {
        Expr::Chained(chain) => Ok(chain),
        _ => Err(Fault::NotDerived),
    }
}

fn begins_selector(ts: &[Token]) -> bool
    ensures { result ≡ spec.begins_selector ts.now }
{
    next_sign(Sign::Dot, ts) || next_sign(Sign::OpenBracket, ts) || next_sign(Sign::OpenParen, ts)
}

impl<
    E: Fn(Global, &[Token], usize) -> Result<(Boxed<Expr>, &[Token]), Fault>,
    S: Fn(Global, &[Token], usize) -> Result<(Boxed<Stmt>, &[Token]), Fault>,
    P: Fn(Global, &[Token], usize) -> Result<(Parameters, &[Token]), Fault>,
> Grammar<E, S, P> {
    // What is made by `new`, which begins at `from`, from behind it.
    #[tactic(auto, unfolding(crate::specs::Chains::new))]
    fn creation<'t>(&self, from: u32, ts: &'t [Token]) -> Result<(Head, &'t [Token]), Fault>
        requires { Nests self.now.depth (E.pre self.now.expr) (E.post self.now.expr) (S.pre self.now.stmt) (S.post self.now.stmt) (P.pre self.now.parameters) (P.post self.now.parameters) }
        ensures { Gives (λ x. (x.0, x.1.now)) result (spec.new (inner_at self.now.depth) from ts.now) }
    {
        let (names, after) = new_names(self.alloc, ts)?;
        let (arguments, rest) = self.arguments(after)?;
        let span = Span {
            from,
            to: arguments.span.to,
        };
        Ok((Head::New(span, names, arguments), rest))
    }

    #[tactic(auto, unfolding(crate::specs::Chains::parenthesised))]
    fn parenthesised<'t>(&self, ts: &'t [Token]) -> Result<(Head, &'t [Token]), Fault>
        requires { Nests self.now.depth (E.pre self.now.expr) (E.post self.now.expr) (S.pre self.now.stmt) (S.post self.now.stmt) (P.pre self.now.parameters) (P.post self.now.parameters) }
        ensures { Gives (λ x. (x.0, x.1.now)) result (spec.parenthesised (inner_at self.now.depth) ts.now) }
    {
        let (open, after) = sign_at(Sign::OpenParen, ts)?;
        let (inner, after) = self.expr(after)?;
        let (close, rest) = sign_at(Sign::CloseParen, after)?;
        let span = Span {
            from: open.from,
            to: close.to,
        };
        Ok((Head::Parenthesised(span, inner), rest))
    }

    #[tactic(auto, unfolding(crate::specs::Chains::literal))]
    fn literal<'t>(&self, ts: &'t [Token]) -> Result<(Head, &'t [Token]), Fault>
        requires { Nests self.now.depth (E.pre self.now.expr) (E.post self.now.expr) (S.pre self.now.stmt) (S.post self.now.stmt) (P.pre self.now.parameters) (P.post self.now.parameters) }
        ensures { Gives (λ x. (x.0, x.1.now)) result (spec.literal (inner_at self.now.depth) ts.now) }
    {
        let (parameters, after) = self.parameters(ts)?;
        let ((body, to), rest) = self.literal_body(after)?;
        let span = Span {
            from: start(ts),
            to,
        };
        Ok((Head::Literal(span, parameters, body), rest))
    }

    // A list, which begins at `from`, from behind its bracket.
    #[tactic(auto, unfolding(crate::specs::Chains::list))]
    fn list<'t>(&self, from: u32, ts: &'t [Token]) -> Result<(Head, &'t [Token]), Fault>
        requires { Nests self.now.depth (E.pre self.now.expr) (E.post self.now.expr) (S.pre self.now.stmt) (S.post self.now.stmt) (P.pre self.now.parameters) (P.post self.now.parameters) }
        ensures { Gives (λ x. (x.0, x.1.now)) result (spec.list (inner_at self.now.depth) from ts.now) }
    {
        if next_sign(Sign::CloseBracket, ts) {
            let (close, rest) = sign_at(Sign::CloseBracket, ts)?;
            let span = Span { from, to: close.to };
            return Ok((Head::List(span, Items::new(self.alloc)), rest));
        }
        let (items, after) = self.exprs(Sign::CloseBracket, ts)?;
        let (to, rest) = last_comma(Sign::CloseBracket, after)?;
        Ok((Head::List(Span { from, to }, items), rest))
    }

    // A map, which begins at `from`, from behind its brace.
    #[tactic(auto, unfolding(crate::specs::Chains::map))]
    fn map<'t>(&self, from: u32, ts: &'t [Token]) -> Result<(Head, &'t [Token]), Fault>
        requires { Nests self.now.depth (E.pre self.now.expr) (E.post self.now.expr) (S.pre self.now.stmt) (S.post self.now.stmt) (P.pre self.now.parameters) (P.post self.now.parameters) }
        ensures { Gives (λ x. (x.0, x.1.now)) result (spec.map (inner_at self.now.depth) from ts.now) }
    {
        if next_sign(Sign::CloseBrace, ts) {
            let (close, rest) = sign_at(Sign::CloseBrace, ts)?;
            let span = Span { from, to: close.to };
            return Ok((Head::Map(span, Items::new(self.alloc)), rest));
        }
        let (entries, after) = self.entries(ts)?;
        let (to, rest) = last_comma(Sign::CloseBrace, after)?;
        Ok((Head::Map(Span { from, to }, entries), rest))
    }

    // A list or a map, with its type arguments.
    #[tactic(auto, unfolding(crate::specs::Chains::collection))]
    fn collection<'t>(&self, ts: &'t [Token]) -> Result<(Head, &'t [Token]), Fault>
        requires { Nests self.now.depth (E.pre self.now.expr) (E.post self.now.expr) (S.pre self.now.stmt) (S.post self.now.stmt) (P.pre self.now.parameters) (P.post self.now.parameters) }
        ensures { Gives (λ x. (x.0, x.1.now)) result (spec.collection (inner_at self.now.depth) ts.now) }
    {
        let after = past_type_arguments(self.alloc, ts)?;
        if next_sign(Sign::OpenBracket, after) {
            return self.list(start(ts), behind(after));
        }
        let (_, after) = sign_at(Sign::OpenBrace, after)?;
        self.map(start(ts), after)
    }

    #[tactic(auto, unfolding(crate::specs::Chains::text_head))]
    fn text_head<'t>(&self, ts: &'t [Token]) -> Result<(Head, &'t [Token]), Fault>
        requires { Nests self.now.depth (E.pre self.now.expr) (E.post self.now.expr) (S.pre self.now.stmt) (S.post self.now.stmt) (P.pre self.now.parameters) (P.post self.now.parameters) }
        ensures { Gives (λ x. (x.0, x.1.now)) result (spec.text_head (inner_at self.now.depth) ts.now) }
    {
        let (texts, rest) = self.texts(ts)?;
        let span = Span {
            from: start(ts),
            to: texts.to,
        };
        Ok((Head::Texts(span, texts.first, texts.parts), rest))
    }

    fn word_head<'t>(
        &self,
        word: Word,
        span: Span,
        rest: &'t [Token],
    ) -> Result<(Head, &'t [Token]), Fault>
        requires { Nests self.now.depth (E.pre self.now.expr) (E.post self.now.expr) (S.pre self.now.stmt) (S.post self.now.stmt) (P.pre self.now.parameters) (P.post self.now.parameters) }
        ensures { Gives (λ x. (x.0, x.1.now)) result (spec.word_head (inner_at self.now.depth) word span rest.now) }
    {
        match word {
            Word::This => Ok((Head::This(span), rest)),
            Word::Super if !next_sign(Sign::OpenParen, rest) => Ok((Head::Super(span), rest)),
            Word::Null => Ok((Head::Null(span), rest)),
            Word::True => Ok((Head::True(span), rest)),
            Word::False => Ok((Head::False(span), rest)),
            Word::New => self.creation(span.from, rest),
            _ => Err(Fault::NotDerived),
        }
    }

    fn sign_head<'t>(
        &self,
        sign: Sign,
        ts: &'t [Token],
        rest: &'t [Token],
    ) -> Result<(Head, &'t [Token]), Fault>
        requires { Nests self.now.depth (E.pre self.now.expr) (E.post self.now.expr) (S.pre self.now.stmt) (S.post self.now.stmt) (P.pre self.now.parameters) (P.post self.now.parameters) }
        ensures { Gives (λ x. (x.0, x.1.now)) result (spec.sign_head (inner_at self.now.depth) sign ts.now rest.now) }
    {
        match sign {
            Sign::OpenParen if opens_function(rest) => self.literal(ts),
            Sign::OpenParen => self.parenthesised(ts),
            Sign::OpenBracket | Sign::OpenBrace | Sign::Less => self.collection(ts),
            _ => Err(Fault::NotDerived),
        }
    }

    // By the first token.
    #[tactic(auto, unfolding(crate::specs::Chains::head))]
    fn head<'t>(&self, ts: &'t [Token]) -> Result<(Head, &'t [Token]), Fault>
        requires { Nests self.now.depth (E.pre self.now.expr) (E.post self.now.expr) (S.pre self.now.stmt) (S.post self.now.stmt) (P.pre self.now.parameters) (P.post self.now.parameters) }
        ensures { Gives (λ x. (x.0, x.1.now)) result (spec.head (inner_at self.now.depth) ts.now) }
    {
        let Some((first, rest)) = next(ts) else {
            return Err(Fault::NotDerived);
        };
        let span = Span {
            from: first.from,
            to: first.to,
        };
        match &first.form {
            Form::Name(text) => {
                let text = text.copy()?;
                Ok((Head::Named(Name { text, span }), rest))
            }
            Form::Word(word) => self.word_head(*word, span, rest),
            Form::Number(value) => Ok((Head::Number(span, *value), rest)),
            Form::Sign(sign) => self.sign_head(*sign, ts, rest),
            Form::TextOpen => self.text_head(ts),
            _ => Err(Fault::NotDerived),
        }
    }

    #[tactic(auto, unfolding(crate::specs::Chains::member))]
    fn member<'t>(&self, ts: &'t [Token]) -> Result<(Selector, &'t [Token]), Fault>
        requires { Nests self.now.depth (E.pre self.now.expr) (E.post self.now.expr) (S.pre self.now.stmt) (S.post self.now.stmt) (P.pre self.now.parameters) (P.post self.now.parameters) }
        ensures { Gives (λ x. (x.0, x.1.now)) result (spec.member (inner_at self.now.depth) ts.now) }
    {
        let (dot, after) = sign_at(Sign::Dot, ts)?;
        let (name, after) = name_at(after)?;
        if !next_sign(Sign::OpenParen, after) {
            let span = Span {
                from: dot.from,
                to: name.span.to,
            };
            return Ok((Selector::Member(span, name), after));
        }
        let (arguments, rest) = self.arguments(after)?;
        let span = Span {
            from: dot.from,
            to: arguments.span.to,
        };
        Ok((Selector::Invoke(span, name, arguments), rest))
    }

    #[tactic(auto, unfolding(crate::specs::Chains::index))]
    fn index<'t>(&self, ts: &'t [Token]) -> Result<(Selector, &'t [Token]), Fault>
        requires { Nests self.now.depth (E.pre self.now.expr) (E.post self.now.expr) (S.pre self.now.stmt) (S.post self.now.stmt) (P.pre self.now.parameters) (P.post self.now.parameters) }
        ensures { Gives (λ x. (x.0, x.1.now)) result (spec.index (inner_at self.now.depth) ts.now) }
    {
        let (open, after) = sign_at(Sign::OpenBracket, ts)?;
        let (index, after) = self.expr(after)?;
        let (close, rest) = sign_at(Sign::CloseBracket, after)?;
        let span = Span {
            from: open.from,
            to: close.to,
        };
        Ok((Selector::Index(span, index), rest))
    }

    #[tactic(auto, unfolding(crate::specs::Chains::selector))]
    fn selector<'t>(&self, ts: &'t [Token]) -> Result<(Selector, &'t [Token]), Fault>
        requires { Nests self.now.depth (E.pre self.now.expr) (E.post self.now.expr) (S.pre self.now.stmt) (S.post self.now.stmt) (P.pre self.now.parameters) (P.post self.now.parameters) }
        ensures { Gives (λ x. (x.0, x.1.now)) result (spec.selector (inner_at self.now.depth) ts.now) }
    {
        if next_sign(Sign::Dot, ts) {
            return self.member(ts);
        }
        if next_sign(Sign::OpenBracket, ts) {
            return self.index(ts);
        }
        let (arguments, rest) = self.arguments(ts)?;
        Ok((Selector::Call(arguments), rest))
    }

    #[tactic(auto, using(crate::proofs::Turns::one_turn, crate::proofs::Turns::no_turn), unfolding(crate::specs::Chains::selectors_from))]
    fn selectors<'t>(&self, ts: &'t [Token]) -> Result<(Items<Selector>, &'t [Token]), Fault>
        requires { Nests self.now.depth (E.pre self.now.expr) (E.post self.now.expr) (S.pre self.now.stmt) (S.post self.now.stmt) (P.pre self.now.parameters) (P.post self.now.parameters) }
        ensures { Gives (λ x. (x.0, x.1.now)) result (spec.selectors_from (inner_at self.now.depth) (length ts.now) [] ts.now) }
    {
        let mut found = Items::new(self.alloc);
        let mut rest = ts;
        for _turn in 0..ts.len() {
            if !begins_selector(rest) {
                return Ok((found, rest));
            }
            let (item, after) = self.selector(rest)?;
            found.push(item)?;
            rest = after;
        }
        Ok((found, rest))
    }

    /// A head, and the selectors behind it.
    #[tactic(auto, unfolding(crate::specs::Chains::chain))]
    pub fn chain<'t>(&self, ts: &'t [Token]) -> Result<(Boxed<Chain>, &'t [Token]), Fault>
        requires { Nests self.now.depth (E.pre self.now.expr) (E.post self.now.expr) (S.pre self.now.stmt) (S.post self.now.stmt) (P.pre self.now.parameters) (P.post self.now.parameters) }
        ensures { Gives (λ x. (x.0, x.1.now)) result (spec.chain (inner_at self.now.depth) ts.now) }
    {
        let (head, after) = self.head(ts)?;
        let (selectors, rest) = self.selectors(after)?;
        Ok((chain_of(self.alloc, head, selectors)?, rest))
    }

    /// What can take a new value.
    #[tactic(auto, unfolding(crate::specs::Chains::target))]
    pub fn target<'t>(&self, ts: &'t [Token]) -> Result<(Boxed<Target>, &'t [Token]), Fault>
        requires { Nests self.now.depth (E.pre self.now.expr) (E.post self.now.expr) (S.pre self.now.stmt) (S.post self.now.stmt) (P.pre self.now.parameters) (P.post self.now.parameters) }
        ensures { Gives (λ x. (x.0, x.1.now)) result (spec.target (inner_at self.now.depth) ts.now) }
    {
        let (chain, rest) = self.chain(ts)?;
        Ok((target_of(self.alloc, chain)?, rest))
    }
}
