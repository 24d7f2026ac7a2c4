//! The rules. Those that stand inside brackets take the parsers of expressions and of statements as parameters, so that
//! each is proved by itself.

ghost use Rattle.std.specs.Prelude.{◌≡◌, ◌∷◌, [], ℕ, suc, List, length, Ok, Err};
ghost use Rattle.js_tree.specs.Tokens.{Tokens};
ghost use Rattle.js_reader.specs.Scanning.{tokens_of};
ghost use Rattle.js_reader.specs.Taking.{Gives, sign_of, word_of, operator_of as spec_operator_of};
ghost use Rattle.js_reader.specs.Parsing as spec;
ghost use Rattle.js_reader.specs.Nests.{Nests};

use crate::fault::JsFault;
use crate::growing::Growing;
use crate::names::{Declared, is_name};
use crate::source::Source;
use crate::targets::{Target, target_of};
use crate::words::operator_of;
use js_tree::{
    JsEntry, JsExpr, JsFunction, JsHead, JsItem, JsItems, JsPrimary, JsSelector, JsStmt,
};
use sqlite_items::{Boxed, Items};

/// The parameters of a function, and the names that they declare.
#[tactic(auto, unfolding(crate::specs::Parsing::parameters))]
fn parameters<'t>(
    source: Source,
    turns: usize,
    bytes: &'t [u8],
) -> Result<((Items<Items<u8>>, Declared<'t>), &'t [u8]), JsFault>
    ensures { Gives (λ x. ((x.0.0, x.0.1), tokens_of source.size x.1.now)) result (spec.parameters source.size turns (tokens_of source.size bytes.now)) }
{
    let after = source.expect(b"(", bytes)?;
    let (sign, rest) = source.sign(after);
    if sign == b")".as_slice() {
        return Ok((
            (Items::new(source.alloc), Declared::new(source.alloc)),
            rest,
        ));
    }
    let (found, after) = parameter_names(source, turns, after)?;
    let rest = source.expect(b")", after)?;
    Ok((found, rest))
}

#[tactic(auto, using(crate::proofs::Turns::one_turn, crate::proofs::Turns::no_turn), unfolding(crate::specs::Parsing::names_from))]
fn parameter_names<'t>(
    source: Source,
    turns: usize,
    bytes: &'t [u8],
) -> Result<((Items<Items<u8>>, Declared<'t>), &'t [u8]), JsFault>
    ensures { Gives (λ x. ((x.0.0, x.0.1), tokens_of source.size x.1.now)) result (spec.names_from source.size turns [] [] (tokens_of source.size bytes.now)) }
{
    let mut found = Growing::new(source.alloc);
    let mut names = Declared::new(source.alloc);
    let mut rest = bytes;
    for _turn in 0..turns {
        let (name, after) = source.fresh_name(&mut names, rest)?;
        found.push(name)?;
        let (sign, more) = source.sign(after);
        if sign != b",".as_slice() {
            return Ok(((found.into_items(), names), after));
        }
        rest = more;
    }
    Err(source.fault(rest))
}

/// The head that is this word alone.
fn literal_of(word: &[u8]) -> Option<JsHead>
    ensures { result ≡ spec.literal_of word.now }
{
    if word == b"null".as_slice() {
        Some(JsHead::Null)
    } else if word == b"undefined".as_slice() {
        Some(JsHead::Undefined)
    } else if word == b"true".as_slice() {
        Some(JsHead::True)
    } else if word == b"false".as_slice() {
        Some(JsHead::False)
    } else {
        None
    }
}

fn selects(sign: &[u8]) -> bool
    ensures { result ≡ spec.selects sign.now }
{
    sign == b"[".as_slice() || sign == b"(".as_slice() || sign == b".".as_slice()
}

/// What stands in brackets is parsed by `expr` and `stmt`.
#[derive(Clone, Copy)]
pub struct Grammar<E, S> {
    pub source: Source,
    /// How often a list may go on.
    pub turns: usize,
    /// How deep brackets may still nest.
    pub depth: usize,
    pub expr: E,
    pub stmt: S,
}

impl<
    E: Fn(Source, &[u8], usize) -> Result<(JsExpr, &[u8]), JsFault>,
    S: Fn(Source, &[u8], usize) -> Result<(JsStmt, &[u8]), JsFault>,
> Grammar<E, S> {
    #[tactic(auto)]
    fn expr<'t>(&self, bytes: &'t [u8]) -> Result<(JsExpr, &'t [u8]), JsFault>
        requires { Nests self.now.depth (E.pre self.now.expr) (E.post self.now.expr) (S.pre self.now.stmt) (S.post self.now.stmt) }
        ensures { Gives (λ x. (x.0, tokens_of self.now.source.size x.1.now)) result (spec.expr_at self.now.source.size self.now.depth (tokens_of self.now.source.size bytes.now)) }
    {
        (self.expr)(self.source, bytes, self.depth)
    }

    #[tactic(auto)]
    fn stmt<'t>(&self, bytes: &'t [u8]) -> Result<(JsStmt, &'t [u8]), JsFault>
        requires { Nests self.now.depth (E.pre self.now.expr) (E.post self.now.expr) (S.pre self.now.stmt) (S.post self.now.stmt) }
        ensures { Gives (λ x. (x.0, tokens_of self.now.source.size x.1.now)) result (spec.stmt_at self.now.source.size self.now.depth (tokens_of self.now.source.size bytes.now)) }
    {
        (self.stmt)(self.source, bytes, self.depth)
    }

    #[tactic(auto, using(crate::proofs::Turns::one_turn, crate::proofs::Turns::no_turn), unfolding(crate::specs::Parsing::exprs_from))]
    fn exprs<'t>(&self, bytes: &'t [u8]) -> Result<(Items<JsExpr>, &'t [u8]), JsFault>
        requires { Nests self.now.depth (E.pre self.now.expr) (E.post self.now.expr) (S.pre self.now.stmt) (S.post self.now.stmt) }
        ensures { Gives (λ x. (x.0, tokens_of self.now.source.size x.1.now)) result (spec.exprs_from self.now.source.size self.now.turns (spec.expr_at self.now.source.size self.now.depth) (spec.stmt_at self.now.source.size self.now.depth) self.now.turns [] (tokens_of self.now.source.size bytes.now)) }
    {
        let mut found = Growing::new(self.source.alloc);
        let mut rest = bytes;
        for _turn in 0..self.turns {
            let (item, after) = self.expr(rest)?;
            found.push(item)?;
            let (sign, more) = self.source.sign(after);
            if sign != b",".as_slice() {
                return Ok((found.into_items(), after));
            }
            rest = more;
        }
        Err(self.source.fault(rest))
    }

    /// Expressions, and the sign that closes them.
    #[tactic(auto, unfolding(crate::specs::Parsing::listed))]
    fn listed<'t>(
        &self,
        close: &[u8],
        bytes: &'t [u8],
    ) -> Result<(Items<JsExpr>, &'t [u8]), JsFault>
        requires { Nests self.now.depth (E.pre self.now.expr) (E.post self.now.expr) (S.pre self.now.stmt) (S.post self.now.stmt) }
        ensures { Gives (λ x. (x.0, tokens_of self.now.source.size x.1.now)) result (spec.listed self.now.source.size self.now.turns (spec.expr_at self.now.source.size self.now.depth) (spec.stmt_at self.now.source.size self.now.depth) close.now (tokens_of self.now.source.size bytes.now)) }
    {
        let (sign, rest) = self.source.sign(bytes);
        if sign == close {
            return Ok((Items::new(self.source.alloc), rest));
        }
        let (items, after) = self.exprs(bytes)?;
        let rest = self.source.expect(close, after)?;
        Ok((items, rest))
    }

    #[tactic(auto, unfolding(crate::specs::Parsing::arguments))]
    fn arguments<'t>(&self, bytes: &'t [u8]) -> Result<(Items<JsExpr>, &'t [u8]), JsFault>
        requires { Nests self.now.depth (E.pre self.now.expr) (E.post self.now.expr) (S.pre self.now.stmt) (S.post self.now.stmt) }
        ensures { Gives (λ x. (x.0, tokens_of self.now.source.size x.1.now)) result (spec.arguments self.now.source.size self.now.turns (spec.expr_at self.now.source.size self.now.depth) (spec.stmt_at self.now.source.size self.now.depth) (tokens_of self.now.source.size bytes.now)) }
    {
        let after = self.source.expect(b"(", bytes)?;
        self.listed(b")", after)
    }

    #[tactic(auto, unfolding(crate::specs::Parsing::negative))]
    fn negative<'t>(&self, bytes: &'t [u8]) -> Result<(JsHead, &'t [u8]), JsFault>
        requires { Nests self.now.depth (E.pre self.now.expr) (E.post self.now.expr) (S.pre self.now.stmt) (S.post self.now.stmt) }
        ensures { Gives (λ x. (x.0, tokens_of self.now.source.size x.1.now)) result (spec.negative self.now.source.size self.now.turns (spec.expr_at self.now.source.size self.now.depth) (spec.stmt_at self.now.source.size self.now.depth) (tokens_of self.now.source.size bytes.now)) }
    {
        let (_, after) = self.source.sign(bytes);
        let (number, rest) = self.source.number(after)?;
        Ok((JsHead::Negative(number), rest))
    }

    #[tactic(auto, unfolding(crate::specs::Parsing::digits))]
    fn digits<'t>(&self, bytes: &'t [u8]) -> Result<(JsHead, &'t [u8]), JsFault>
        requires { Nests self.now.depth (E.pre self.now.expr) (E.post self.now.expr) (S.pre self.now.stmt) (S.post self.now.stmt) }
        ensures { Gives (λ x. (x.0, tokens_of self.now.source.size x.1.now)) result (spec.digits self.now.source.size self.now.turns (spec.expr_at self.now.source.size self.now.depth) (spec.stmt_at self.now.source.size self.now.depth) (tokens_of self.now.source.size bytes.now)) }
    {
        let (number, rest) = self.source.number(bytes)?;
        Ok((JsHead::Digits(number), rest))
    }

    #[tactic(auto, unfolding(crate::specs::Parsing::string))]
    fn string<'t>(&self, bytes: &'t [u8]) -> Result<(JsHead, &'t [u8]), JsFault>
        requires { Nests self.now.depth (E.pre self.now.expr) (E.post self.now.expr) (S.pre self.now.stmt) (S.post self.now.stmt) }
        ensures { Gives (λ x. (x.0, tokens_of self.now.source.size x.1.now)) result (spec.string self.now.source.size self.now.turns (spec.expr_at self.now.source.size self.now.depth) (spec.stmt_at self.now.source.size self.now.depth) (tokens_of self.now.source.size bytes.now)) }
    {
        let (units, rest) = self.source.string(bytes)?;
        Ok((JsHead::Str(units), rest))
    }

    #[tactic(auto, unfolding(crate::specs::Parsing::named))]
    fn named<'t>(&self, bytes: &'t [u8]) -> Result<(JsHead, &'t [u8]), JsFault>
        requires { Nests self.now.depth (E.pre self.now.expr) (E.post self.now.expr) (S.pre self.now.stmt) (S.post self.now.stmt) }
        ensures { Gives (λ x. (x.0, tokens_of self.now.source.size x.1.now)) result (spec.named self.now.source.size self.now.turns (spec.expr_at self.now.source.size self.now.depth) (spec.stmt_at self.now.source.size self.now.depth) (tokens_of self.now.source.size bytes.now)) }
    {
        let (name, rest) = self.source.name(bytes)?;
        Ok((JsHead::Name(name), rest))
    }

    #[tactic(auto, unfolding(crate::specs::Parsing::string_of))]
    fn string_of<'t>(&self, bytes: &'t [u8]) -> Result<(JsHead, &'t [u8]), JsFault>
        requires { Nests self.now.depth (E.pre self.now.expr) (E.post self.now.expr) (S.pre self.now.stmt) (S.post self.now.stmt) }
        ensures { Gives (λ x. (x.0, tokens_of self.now.source.size x.1.now)) result (spec.string_of self.now.source.size self.now.turns (spec.expr_at self.now.source.size self.now.depth) (spec.stmt_at self.now.source.size self.now.depth) (tokens_of self.now.source.size bytes.now)) }
    {
        let (_, after) = self.source.word(bytes);
        let (items, rest) = self.arguments(after)?;
        Ok((JsHead::StringOf(items), rest))
    }

    #[tactic(auto, unfolding(crate::specs::Parsing::of_array))]
    fn of_array<'t>(&self, bytes: &'t [u8]) -> Result<(JsHead, &'t [u8]), JsFault>
        requires { Nests self.now.depth (E.pre self.now.expr) (E.post self.now.expr) (S.pre self.now.stmt) (S.post self.now.stmt) }
        ensures { Gives (λ x. (x.0, tokens_of self.now.source.size x.1.now)) result (spec.of_array self.now.source.size self.now.turns (spec.expr_at self.now.source.size self.now.depth) (spec.stmt_at self.now.source.size self.now.depth) (tokens_of self.now.source.size bytes.now)) }
    {
        let (_, after) = self.source.word(bytes);
        let after = self.source.expect(b".", after)?;
        let (word, more) = self.source.word(after);
        if word == b"isArray".as_slice() {
            let (items, rest) = self.arguments(more)?;
            return Ok((JsHead::IsArray(items), rest));
        }
        let after = self.source.expect_word(b"from", after)?;
        let (items, rest) = self.arguments(after)?;
        Ok((JsHead::ArrayFrom(items), rest))
    }

    /// A head that begins with a word.
    #[tactic(auto)]
    fn worded<'t>(&self, bytes: &'t [u8]) -> Result<(JsHead, &'t [u8]), JsFault>
        requires { Nests self.now.depth (E.pre self.now.expr) (E.post self.now.expr) (S.pre self.now.stmt) (S.post self.now.stmt) }
        ensures { Gives (λ x. (x.0, tokens_of self.now.source.size x.1.now)) result (spec.worded self.now.source.size self.now.turns (spec.expr_at self.now.source.size self.now.depth) (spec.stmt_at self.now.source.size self.now.depth) (spec.literal_of (word_of (tokens_of self.now.source.size bytes.now))) (word_of (tokens_of self.now.source.size bytes.now)) (tokens_of self.now.source.size bytes.now)) }
    {
        let (word, rest) = self.source.word(bytes);
        if let Some(head) = literal_of(word) {
            return Ok((head, rest));
        }
        if word == b"String".as_slice() {
            self.string_of(bytes)
        } else if word == b"Array".as_slice() {
            self.of_array(bytes)
        } else if is_name(word) {
            self.named(bytes)
        } else {
            self.digits(bytes)
        }
    }

    #[tactic(auto, unfolding(crate::specs::Parsing::head))]
    fn head<'t>(&self, bytes: &'t [u8]) -> Result<(JsHead, &'t [u8]), JsFault>
        requires { Nests self.now.depth (E.pre self.now.expr) (E.post self.now.expr) (S.pre self.now.stmt) (S.post self.now.stmt) }
        ensures { Gives (λ x. (x.0, tokens_of self.now.source.size x.1.now)) result (spec.head self.now.source.size self.now.turns (spec.expr_at self.now.source.size self.now.depth) (spec.stmt_at self.now.source.size self.now.depth) (tokens_of self.now.source.size bytes.now)) }
    {
        let (sign, _) = self.source.sign(bytes);
        if sign == b"-".as_slice() {
            return self.negative(bytes);
        }
        let (word, _) = self.source.word(bytes);
        if word == b"".as_slice() {
            self.string(bytes)
        } else {
            self.worded(bytes)
        }
    }

    #[tactic(auto, unfolding(crate::specs::Parsing::index))]
    fn index<'t>(&self, bytes: &'t [u8]) -> Result<(JsSelector, &'t [u8]), JsFault>
        requires { Nests self.now.depth (E.pre self.now.expr) (E.post self.now.expr) (S.pre self.now.stmt) (S.post self.now.stmt) }
        ensures { Gives (λ x. (x.0, tokens_of self.now.source.size x.1.now)) result (spec.index self.now.source.size self.now.turns (spec.expr_at self.now.source.size self.now.depth) (spec.stmt_at self.now.source.size self.now.depth) (tokens_of self.now.source.size bytes.now)) }
    {
        let (_, after) = self.source.sign(bytes);
        let (index, after) = self.expr(after)?;
        let rest = self.source.expect(b"]", after)?;
        let index = Boxed::new(self.source.alloc, index)?;
        Ok((JsSelector::Index(index), rest))
    }

    #[tactic(auto, unfolding(crate::specs::Parsing::call))]
    fn call<'t>(&self, bytes: &'t [u8]) -> Result<(JsSelector, &'t [u8]), JsFault>
        requires { Nests self.now.depth (E.pre self.now.expr) (E.post self.now.expr) (S.pre self.now.stmt) (S.post self.now.stmt) }
        ensures { Gives (λ x. (x.0, tokens_of self.now.source.size x.1.now)) result (spec.call self.now.source.size self.now.turns (spec.expr_at self.now.source.size self.now.depth) (spec.stmt_at self.now.source.size self.now.depth) (tokens_of self.now.source.size bytes.now)) }
    {
        let (items, rest) = self.arguments(bytes)?;
        Ok((JsSelector::Call(items), rest))
    }

    #[tactic(auto, unfolding(crate::specs::Parsing::member))]
    fn member<'t>(&self, bytes: &'t [u8]) -> Result<(JsSelector, &'t [u8]), JsFault>
        requires { Nests self.now.depth (E.pre self.now.expr) (E.post self.now.expr) (S.pre self.now.stmt) (S.post self.now.stmt) }
        ensures { Gives (λ x. (x.0, tokens_of self.now.source.size x.1.now)) result (spec.member self.now.source.size self.now.turns (spec.expr_at self.now.source.size self.now.depth) (spec.stmt_at self.now.source.size self.now.depth) (tokens_of self.now.source.size bytes.now)) }
    {
        let (_, after) = self.source.sign(bytes);
        let (member, after) = self.source.member(after)?;
        let (sign, _) = self.source.sign(after);
        if sign == b"(".as_slice() {
            let (items, rest) = self.arguments(after)?;
            return Ok((JsSelector::Method(member, items), rest));
        }
        Ok((JsSelector::Member(member), after))
    }

    #[tactic(auto, unfolding(crate::specs::Parsing::selector))]
    fn selector<'t>(&self, bytes: &'t [u8]) -> Result<(JsSelector, &'t [u8]), JsFault>
        requires { Nests self.now.depth (E.pre self.now.expr) (E.post self.now.expr) (S.pre self.now.stmt) (S.post self.now.stmt) }
        ensures { Gives (λ x. (x.0, tokens_of self.now.source.size x.1.now)) result (spec.selector self.now.source.size self.now.turns (spec.expr_at self.now.source.size self.now.depth) (spec.stmt_at self.now.source.size self.now.depth) (tokens_of self.now.source.size bytes.now)) }
    {
        let (sign, _) = self.source.sign(bytes);
        if sign == b"[".as_slice() {
            self.index(bytes)
        } else if sign == b"(".as_slice() {
            self.call(bytes)
        } else {
            self.member(bytes)
        }
    }

    #[tactic(auto, using(crate::proofs::Turns::one_turn, crate::proofs::Turns::no_turn), unfolding(crate::specs::Parsing::selectors_from))]
    fn selectors<'t>(&self, bytes: &'t [u8]) -> Result<(Items<JsSelector>, &'t [u8]), JsFault>
        requires { Nests self.now.depth (E.pre self.now.expr) (E.post self.now.expr) (S.pre self.now.stmt) (S.post self.now.stmt) }
        ensures { Gives (λ x. (x.0, tokens_of self.now.source.size x.1.now)) result (spec.selectors_from self.now.source.size self.now.turns (spec.expr_at self.now.source.size self.now.depth) (spec.stmt_at self.now.source.size self.now.depth) self.now.turns [] (tokens_of self.now.source.size bytes.now)) }
    {
        let mut found = Growing::new(self.source.alloc);
        let mut rest = bytes;
        for _turn in 0..self.turns {
            let (sign, _) = self.source.sign(rest);
            if !selects(sign) {
                return Ok((found.into_items(), rest));
            }
            let (item, after) = self.selector(rest)?;
            found.push(item)?;
            rest = after;
        }
        Err(self.source.fault(rest))
    }

    #[tactic(auto, unfolding(crate::specs::Parsing::primary))]
    fn primary<'t>(&self, bytes: &'t [u8]) -> Result<(JsPrimary, &'t [u8]), JsFault>
        requires { Nests self.now.depth (E.pre self.now.expr) (E.post self.now.expr) (S.pre self.now.stmt) (S.post self.now.stmt) }
        ensures { Gives (λ x. (x.0, tokens_of self.now.source.size x.1.now)) result (spec.primary self.now.source.size self.now.turns (spec.expr_at self.now.source.size self.now.depth) (spec.stmt_at self.now.source.size self.now.depth) (tokens_of self.now.source.size bytes.now)) }
    {
        let (head, after) = self.head(bytes)?;
        let (selectors, rest) = self.selectors(after)?;
        Ok((JsPrimary { head, selectors }, rest))
    }

    #[tactic(auto)]
    fn operated<'t>(&self, left: JsPrimary, bytes: &'t [u8]) -> Result<(JsExpr, &'t [u8]), JsFault>
        requires { Nests self.now.depth (E.pre self.now.expr) (E.post self.now.expr) (S.pre self.now.stmt) (S.post self.now.stmt) }
        ensures { Gives (λ x. (x.0, tokens_of self.now.source.size x.1.now)) result (spec.operated self.now.source.size self.now.turns (spec.expr_at self.now.source.size self.now.depth) (spec.stmt_at self.now.source.size self.now.depth) (spec_operator_of (sign_of (tokens_of self.now.source.size bytes.now))) left (tokens_of self.now.source.size bytes.now)) }
    {
        let (sign, after) = self.source.sign(bytes);
        let Some(operator) = operator_of(sign) else {
            return Ok((JsExpr::Primary(left), bytes));
        };
        let (right, rest) = self.primary(after)?;
        let left = Boxed::new(self.source.alloc, left)?;
        let right = Boxed::new(self.source.alloc, right)?;
        Ok((JsExpr::Binary(operator, left, right), rest))
    }

    #[tactic(auto, unfolding(crate::specs::Parsing::plain))]
    fn plain<'t>(&self, bytes: &'t [u8]) -> Result<(JsExpr, &'t [u8]), JsFault>
        requires { Nests self.now.depth (E.pre self.now.expr) (E.post self.now.expr) (S.pre self.now.stmt) (S.post self.now.stmt) }
        ensures { Gives (λ x. (x.0, tokens_of self.now.source.size x.1.now)) result (spec.plain self.now.source.size self.now.turns (spec.expr_at self.now.source.size self.now.depth) (spec.stmt_at self.now.source.size self.now.depth) (tokens_of self.now.source.size bytes.now)) }
    {
        let (left, after) = self.primary(bytes)?;
        self.operated(left, after)
    }

    #[tactic(auto, unfolding(crate::specs::Parsing::type_of))]
    fn type_of<'t>(&self, bytes: &'t [u8]) -> Result<(JsExpr, &'t [u8]), JsFault>
        requires { Nests self.now.depth (E.pre self.now.expr) (E.post self.now.expr) (S.pre self.now.stmt) (S.post self.now.stmt) }
        ensures { Gives (λ x. (x.0, tokens_of self.now.source.size x.1.now)) result (spec.type_of self.now.source.size self.now.turns (spec.expr_at self.now.source.size self.now.depth) (spec.stmt_at self.now.source.size self.now.depth) (tokens_of self.now.source.size bytes.now)) }
    {
        let (_, after) = self.source.word(bytes);
        let (operand, rest) = self.primary(after)?;
        Ok((JsExpr::TypeOf(operand), rest))
    }

    #[tactic(auto, unfolding(crate::specs::Parsing::new_map))]
    fn new_map<'t>(&self, bytes: &'t [u8]) -> Result<(JsExpr, &'t [u8]), JsFault>
        requires { Nests self.now.depth (E.pre self.now.expr) (E.post self.now.expr) (S.pre self.now.stmt) (S.post self.now.stmt) }
        ensures { Gives (λ x. (x.0, tokens_of self.now.source.size x.1.now)) result (spec.new_map self.now.source.size self.now.turns (spec.expr_at self.now.source.size self.now.depth) (spec.stmt_at self.now.source.size self.now.depth) (tokens_of self.now.source.size bytes.now)) }
    {
        let (_, after) = self.source.word(bytes);
        let after = self.source.expect_word(b"Map", after)?;
        let after = self.source.expect(b"(", after)?;
        let rest = self.source.expect(b")", after)?;
        Ok((JsExpr::NewMap, rest))
    }

    #[tactic(auto, unfolding(crate::specs::Parsing::array))]
    fn array<'t>(&self, bytes: &'t [u8]) -> Result<(JsExpr, &'t [u8]), JsFault>
        requires { Nests self.now.depth (E.pre self.now.expr) (E.post self.now.expr) (S.pre self.now.stmt) (S.post self.now.stmt) }
        ensures { Gives (λ x. (x.0, tokens_of self.now.source.size x.1.now)) result (spec.array self.now.source.size self.now.turns (spec.expr_at self.now.source.size self.now.depth) (spec.stmt_at self.now.source.size self.now.depth) (tokens_of self.now.source.size bytes.now)) }
    {
        let (_, after) = self.source.sign(bytes);
        let (items, rest) = self.listed(b"]", after)?;
        Ok((JsExpr::Array(items), rest))
    }

    #[tactic(auto, unfolding(crate::specs::Parsing::entry))]
    fn entry<'t>(&self, bytes: &'t [u8]) -> Result<(JsEntry, &'t [u8]), JsFault>
        requires { Nests self.now.depth (E.pre self.now.expr) (E.post self.now.expr) (S.pre self.now.stmt) (S.post self.now.stmt) }
        ensures { Gives (λ x. (x.0, tokens_of self.now.source.size x.1.now)) result (spec.entry self.now.source.size self.now.turns (spec.expr_at self.now.source.size self.now.depth) (spec.stmt_at self.now.source.size self.now.depth) (tokens_of self.now.source.size bytes.now)) }
    {
        let (key, after) = self.source.string(bytes)?;
        let after = self.source.expect(b":", after)?;
        let (value, rest) = self.expr(after)?;
        Ok((JsEntry { key, value }, rest))
    }

    #[tactic(auto, using(crate::proofs::Turns::one_turn, crate::proofs::Turns::no_turn), unfolding(crate::specs::Parsing::entries_from))]
    fn entries<'t>(&self, bytes: &'t [u8]) -> Result<(Items<JsEntry>, &'t [u8]), JsFault>
        requires { Nests self.now.depth (E.pre self.now.expr) (E.post self.now.expr) (S.pre self.now.stmt) (S.post self.now.stmt) }
        ensures { Gives (λ x. (x.0, tokens_of self.now.source.size x.1.now)) result (spec.entries_from self.now.source.size self.now.turns (spec.expr_at self.now.source.size self.now.depth) (spec.stmt_at self.now.source.size self.now.depth) self.now.turns [] (tokens_of self.now.source.size bytes.now)) }
    {
        let mut found = Growing::new(self.source.alloc);
        let mut rest = bytes;
        for _turn in 0..self.turns {
            let (item, after) = self.entry(rest)?;
            found.push(item)?;
            let (sign, more) = self.source.sign(after);
            if sign != b",".as_slice() {
                return Ok((found.into_items(), after));
            }
            rest = more;
        }
        Err(self.source.fault(rest))
    }

    #[tactic(auto, unfolding(crate::specs::Parsing::object))]
    fn object<'t>(&self, bytes: &'t [u8]) -> Result<(JsExpr, &'t [u8]), JsFault>
        requires { Nests self.now.depth (E.pre self.now.expr) (E.post self.now.expr) (S.pre self.now.stmt) (S.post self.now.stmt) }
        ensures { Gives (λ x. (x.0, tokens_of self.now.source.size x.1.now)) result (spec.object self.now.source.size self.now.turns (spec.expr_at self.now.source.size self.now.depth) (spec.stmt_at self.now.source.size self.now.depth) (tokens_of self.now.source.size bytes.now)) }
    {
        let (_, after) = self.source.sign(bytes);
        let (sign, rest) = self.source.sign(after);
        if sign == b"}".as_slice() {
            return Ok((JsExpr::Object(Items::new(self.source.alloc)), rest));
        }
        let (items, after) = self.entries(after)?;
        let rest = self.source.expect(b"}", after)?;
        Ok((JsExpr::Object(items), rest))
    }

    /// A statement, and the name that it declares.
    #[tactic(auto, unfolding(crate::specs::Parsing::named_stmt))]
    fn named_stmt<'t>(
        &self,
        names: &mut Declared<'t>,
        bytes: &'t [u8],
    ) -> Result<(JsStmt, &'t [u8]), JsFault>
        requires { Nests self.now.depth (E.pre self.now.expr) (E.post self.now.expr) (S.pre self.now.stmt) (S.post self.now.stmt) }
        ensures { Gives (λ x. ((x.0, names.new), tokens_of self.now.source.size x.1.now)) result (spec.named_stmt self.now.source.size self.now.turns (spec.expr_at self.now.source.size self.now.depth) (spec.stmt_at self.now.source.size self.now.depth) names.old (tokens_of self.now.source.size bytes.now)) }
    {
        let (word, after) = self.source.word(bytes);
        if word != b"let".as_slice() {
            return self.stmt(bytes);
        }
        let at = self.source.place(bytes);
        let (name, after) = self.source.fresh_name(names, after)?;
        let after = self.source.expect(b"=", after)?;
        let (value, after) = self.expr(after)?;
        let rest = self.source.expect(b";", after)?;
        Ok((JsStmt::Let { at, name, value }, rest))
    }

    #[tactic(auto, using(crate::proofs::Turns::one_turn, crate::proofs::Turns::no_turn), unfolding(crate::specs::Parsing::stmts_from))]
    fn stmts<'t>(
        &self,
        names: Declared<'t>,
        bytes: &'t [u8],
    ) -> Result<(Items<JsStmt>, &'t [u8]), JsFault>
        requires { Nests self.now.depth (E.pre self.now.expr) (E.post self.now.expr) (S.pre self.now.stmt) (S.post self.now.stmt) }
        ensures { Gives (λ x. (x.0, tokens_of self.now.source.size x.1.now)) result (spec.stmts_from self.now.source.size self.now.turns (spec.expr_at self.now.source.size self.now.depth) (spec.stmt_at self.now.source.size self.now.depth) self.now.turns names.entry [] (tokens_of self.now.source.size bytes.now)) }
    {
        let mut found = Growing::new(self.source.alloc);
        let mut names = names;
        let mut rest = bytes;
        for _turn in 0..self.turns {
            let (sign, more) = self.source.sign(rest);
            if sign == b"}".as_slice() {
                return Ok((found.into_items(), more));
            }
            let (item, after) = self.named_stmt(&mut names, rest)?;
            found.push(item)?;
            rest = after;
        }
        Err(self.source.fault(rest))
    }

    #[tactic(auto, unfolding(crate::specs::Parsing::block))]
    fn block<'t>(
        &self,
        names: Declared<'t>,
        bytes: &'t [u8],
    ) -> Result<(Items<JsStmt>, &'t [u8]), JsFault>
        requires { Nests self.now.depth (E.pre self.now.expr) (E.post self.now.expr) (S.pre self.now.stmt) (S.post self.now.stmt) }
        ensures { Gives (λ x. (x.0, tokens_of self.now.source.size x.1.now)) result (spec.block self.now.source.size self.now.turns (spec.expr_at self.now.source.size self.now.depth) (spec.stmt_at self.now.source.size self.now.depth) names.entry (tokens_of self.now.source.size bytes.now)) }
    {
        let after = self.source.expect(b"{", bytes)?;
        self.stmts(names, after)
    }

    /// A block where no name is declared before.
    #[tactic(auto)]
    fn plain_block<'t>(&self, bytes: &'t [u8]) -> Result<(Items<JsStmt>, &'t [u8]), JsFault>
        requires { Nests self.now.depth (E.pre self.now.expr) (E.post self.now.expr) (S.pre self.now.stmt) (S.post self.now.stmt) }
        ensures { Gives (λ x. (x.0, tokens_of self.now.source.size x.1.now)) result (spec.block self.now.source.size self.now.turns (spec.expr_at self.now.source.size self.now.depth) (spec.stmt_at self.now.source.size self.now.depth) [] (tokens_of self.now.source.size bytes.now)) }
    {
        self.block(Declared::new(self.source.alloc), bytes)
    }

    #[tactic(auto, unfolding(crate::specs::Parsing::function))]
    fn function<'t>(&self, bytes: &'t [u8]) -> Result<(JsFunction, &'t [u8]), JsFault>
        requires { Nests self.now.depth (E.pre self.now.expr) (E.post self.now.expr) (S.pre self.now.stmt) (S.post self.now.stmt) }
        ensures { Gives (λ x. (x.0, tokens_of self.now.source.size x.1.now)) result (spec.function self.now.source.size self.now.turns (spec.expr_at self.now.source.size self.now.depth) (spec.stmt_at self.now.source.size self.now.depth) (tokens_of self.now.source.size bytes.now)) }
    {
        let ((parameters, names), after) = parameters(self.source, self.turns, bytes)?;
        let (body, rest) = self.block(names, after)?;
        Ok((JsFunction { parameters, body }, rest))
    }

    #[tactic(auto, unfolding(crate::specs::Parsing::function_value))]
    fn function_value<'t>(&self, bytes: &'t [u8]) -> Result<(JsExpr, &'t [u8]), JsFault>
        requires { Nests self.now.depth (E.pre self.now.expr) (E.post self.now.expr) (S.pre self.now.stmt) (S.post self.now.stmt) }
        ensures { Gives (λ x. (x.0, tokens_of self.now.source.size x.1.now)) result (spec.function_value self.now.source.size self.now.turns (spec.expr_at self.now.source.size self.now.depth) (spec.stmt_at self.now.source.size self.now.depth) (tokens_of self.now.source.size bytes.now)) }
    {
        let (_, after) = self.source.word(bytes);
        let (function, rest) = self.function(after)?;
        Ok((JsExpr::Function(function), rest))
    }

    #[tactic(auto, unfolding(crate::specs::Parsing::expression))]
    pub fn expression<'t>(&self, bytes: &'t [u8]) -> Result<(JsExpr, &'t [u8]), JsFault>
        requires { Nests self.now.depth (E.pre self.now.expr) (E.post self.now.expr) (S.pre self.now.stmt) (S.post self.now.stmt) }
        ensures { Gives (λ x. (x.0, tokens_of self.now.source.size x.1.now)) result (spec.expression self.now.source.size self.now.turns (spec.expr_at self.now.source.size self.now.depth) (spec.stmt_at self.now.source.size self.now.depth) (tokens_of self.now.source.size bytes.now)) }
    {
        let (sign, _) = self.source.sign(bytes);
        let (word, _) = self.source.word(bytes);
        if sign == b"[".as_slice() {
            self.array(bytes)
        } else if sign == b"{".as_slice() {
            self.object(bytes)
        } else if word == b"typeof".as_slice() {
            self.type_of(bytes)
        } else if word == b"function".as_slice() {
            self.function_value(bytes)
        } else if word == b"new".as_slice() {
            self.new_map(bytes)
        } else {
            self.plain(bytes)
        }
    }

    /// What follows the target of an assignment.
    #[tactic(auto, unfolding(crate::specs::Parsing::assigned))]
    fn assigned<'t>(
        &self,
        at: u64,
        target: Target,
        bytes: &'t [u8],
    ) -> Result<(JsStmt, &'t [u8]), JsFault>
        requires { Nests self.now.depth (E.pre self.now.expr) (E.post self.now.expr) (S.pre self.now.stmt) (S.post self.now.stmt) }
        ensures { Gives (λ x. (x.0, tokens_of self.now.source.size x.1.now)) result (spec.assigned self.now.source.size self.now.turns (spec.expr_at self.now.source.size self.now.depth) (spec.stmt_at self.now.source.size self.now.depth) at target (tokens_of self.now.source.size bytes.now)) }
    {
        let (_, after) = self.source.sign(bytes);
        match target {
            Target::Name(name) => {
                let (value, after) = self.expr(after)?;
                let rest = self.source.expect(b";", after)?;
                Ok((JsStmt::Assign { at, name, value }, rest))
            }
            Target::Slot(object, index) => {
                let (value, after) = self.expr(after)?;
                let rest = self.source.expect(b";", after)?;
                let object = Boxed::new(self.source.alloc, object)?;
                Ok((
                    JsStmt::Store {
                        at,
                        object,
                        index,
                        value,
                    },
                    rest,
                ))
            }
            Target::Other => Err(self.source.fault(bytes)),
        }
    }

    /// What follows a label.
    #[tactic(auto, unfolding(crate::specs::Parsing::labelled))]
    fn labelled<'t>(
        &self,
        at: u64,
        target: Target,
        bytes: &'t [u8],
    ) -> Result<(JsStmt, &'t [u8]), JsFault>
        requires { Nests self.now.depth (E.pre self.now.expr) (E.post self.now.expr) (S.pre self.now.stmt) (S.post self.now.stmt) }
        ensures { Gives (λ x. (x.0, tokens_of self.now.source.size x.1.now)) result (spec.labelled self.now.source.size self.now.turns (spec.expr_at self.now.source.size self.now.depth) (spec.stmt_at self.now.source.size self.now.depth) at target (tokens_of self.now.source.size bytes.now)) }
    {
        let (_, after) = self.source.sign(bytes);
        match target {
            Target::Name(label) => {
                let (body, rest) = self.plain_block(after)?;
                Ok((JsStmt::Labelled { at, label, body }, rest))
            }
            _ => Err(self.source.fault(bytes)),
        }
    }

    #[tactic(auto, unfolding(crate::specs::Parsing::performed))]
    fn performed<'t>(
        &self,
        at: u64,
        primary: JsPrimary,
        bytes: &'t [u8],
    ) -> Result<(JsStmt, &'t [u8]), JsFault>
        requires { Nests self.now.depth (E.pre self.now.expr) (E.post self.now.expr) (S.pre self.now.stmt) (S.post self.now.stmt) }
        ensures { Gives (λ x. (x.0, tokens_of self.now.source.size x.1.now)) result (spec.performed self.now.source.size self.now.turns (spec.expr_at self.now.source.size self.now.depth) (spec.stmt_at self.now.source.size self.now.depth) at primary (tokens_of self.now.source.size bytes.now)) }
    {
        let rest = self.source.expect(b";", bytes)?;
        Ok((JsStmt::Perform { at, primary }, rest))
    }

    /// A statement that begins with a primary expression.
    #[tactic(auto, unfolding(crate::specs::Parsing::simple))]
    fn simple<'t>(&self, bytes: &'t [u8]) -> Result<(JsStmt, &'t [u8]), JsFault>
        requires { Nests self.now.depth (E.pre self.now.expr) (E.post self.now.expr) (S.pre self.now.stmt) (S.post self.now.stmt) }
        ensures { Gives (λ x. (x.0, tokens_of self.now.source.size x.1.now)) result (spec.simple self.now.source.size self.now.turns (spec.expr_at self.now.source.size self.now.depth) (spec.stmt_at self.now.source.size self.now.depth) (tokens_of self.now.source.size bytes.now)) }
    {
        let at = self.source.place(bytes);
        let (primary, after) = self.primary(bytes)?;
        let (sign, _) = self.source.sign(after);
        if sign == b"=".as_slice() {
            self.assigned(at, target_of(primary), after)
        } else if sign == b":".as_slice() {
            self.labelled(at, target_of(primary), after)
        } else {
            self.performed(at, primary, after)
        }
    }

    #[tactic(auto, unfolding(crate::specs::Parsing::condition))]
    fn condition<'t>(&self, bytes: &'t [u8]) -> Result<(Boxed<JsExpr>, &'t [u8]), JsFault>
        requires { Nests self.now.depth (E.pre self.now.expr) (E.post self.now.expr) (S.pre self.now.stmt) (S.post self.now.stmt) }
        ensures { Gives (λ x. (x.0, tokens_of self.now.source.size x.1.now)) result (spec.condition self.now.source.size self.now.turns (spec.expr_at self.now.source.size self.now.depth) (spec.stmt_at self.now.source.size self.now.depth) (tokens_of self.now.source.size bytes.now)) }
    {
        let after = self.source.expect(b"(", bytes)?;
        let (test, after) = self.expr(after)?;
        let rest = self.source.expect(b")", after)?;
        let test = Boxed::new(self.source.alloc, test)?;
        Ok((test, rest))
    }

    #[tactic(auto, unfolding(crate::specs::Parsing::when))]
    fn when<'t>(&self, bytes: &'t [u8]) -> Result<(JsStmt, &'t [u8]), JsFault>
        requires { Nests self.now.depth (E.pre self.now.expr) (E.post self.now.expr) (S.pre self.now.stmt) (S.post self.now.stmt) }
        ensures { Gives (λ x. (x.0, tokens_of self.now.source.size x.1.now)) result (spec.when self.now.source.size self.now.turns (spec.expr_at self.now.source.size self.now.depth) (spec.stmt_at self.now.source.size self.now.depth) (tokens_of self.now.source.size bytes.now)) }
    {
        let at = self.source.place(bytes);
        let (_, after) = self.source.word(bytes);
        let (test, after) = self.condition(after)?;
        let (holds, after) = self.plain_block(after)?;
        let (word, more) = self.source.word(after);
        if word == b"else".as_slice() {
            let (fails, rest) = self.plain_block(more)?;
            return Ok((
                JsStmt::IfElse {
                    at,
                    test,
                    holds,
                    fails,
                },
                rest,
            ));
        }
        Ok((JsStmt::If { at, test, holds }, after))
    }

    #[tactic(auto, unfolding(crate::specs::Parsing::repeat))]
    fn repeat<'t>(&self, bytes: &'t [u8]) -> Result<(JsStmt, &'t [u8]), JsFault>
        requires { Nests self.now.depth (E.pre self.now.expr) (E.post self.now.expr) (S.pre self.now.stmt) (S.post self.now.stmt) }
        ensures { Gives (λ x. (x.0, tokens_of self.now.source.size x.1.now)) result (spec.repeat self.now.source.size self.now.turns (spec.expr_at self.now.source.size self.now.depth) (spec.stmt_at self.now.source.size self.now.depth) (tokens_of self.now.source.size bytes.now)) }
    {
        let at = self.source.place(bytes);
        let (_, after) = self.source.word(bytes);
        let after = self.source.expect(b"(", after)?;
        let after = self.source.expect_word(b"true", after)?;
        let after = self.source.expect(b")", after)?;
        let (body, rest) = self.plain_block(after)?;
        Ok((JsStmt::Loop { at, body }, rest))
    }

    #[tactic(auto, unfolding(crate::specs::Parsing::leave))]
    fn leave<'t>(&self, bytes: &'t [u8]) -> Result<(JsStmt, &'t [u8]), JsFault>
        requires { Nests self.now.depth (E.pre self.now.expr) (E.post self.now.expr) (S.pre self.now.stmt) (S.post self.now.stmt) }
        ensures { Gives (λ x. (x.0, tokens_of self.now.source.size x.1.now)) result (spec.leave self.now.source.size self.now.turns (spec.expr_at self.now.source.size self.now.depth) (spec.stmt_at self.now.source.size self.now.depth) (tokens_of self.now.source.size bytes.now)) }
    {
        let at = self.source.place(bytes);
        let (_, after) = self.source.word(bytes);
        let after = self.source.on_line(after)?;
        let (label, after) = self.source.name(after)?;
        let rest = self.source.expect(b";", after)?;
        Ok((JsStmt::Break { at, label }, rest))
    }

    #[tactic(auto, unfolding(crate::specs::Parsing::returned))]
    fn returned<'t>(&self, bytes: &'t [u8]) -> Result<(JsStmt, &'t [u8]), JsFault>
        requires { Nests self.now.depth (E.pre self.now.expr) (E.post self.now.expr) (S.pre self.now.stmt) (S.post self.now.stmt) }
        ensures { Gives (λ x. (x.0, tokens_of self.now.source.size x.1.now)) result (spec.returned self.now.source.size self.now.turns (spec.expr_at self.now.source.size self.now.depth) (spec.stmt_at self.now.source.size self.now.depth) (tokens_of self.now.source.size bytes.now)) }
    {
        let at = self.source.place(bytes);
        let (_, after) = self.source.word(bytes);
        let after = self.source.on_line(after)?;
        let (value, after) = self.expr(after)?;
        let rest = self.source.expect(b";", after)?;
        Ok((JsStmt::Return { at, value }, rest))
    }

    #[tactic(auto, unfolding(crate::specs::Parsing::thrown))]
    fn thrown<'t>(&self, bytes: &'t [u8]) -> Result<(JsStmt, &'t [u8]), JsFault>
        requires { Nests self.now.depth (E.pre self.now.expr) (E.post self.now.expr) (S.pre self.now.stmt) (S.post self.now.stmt) }
        ensures { Gives (λ x. (x.0, tokens_of self.now.source.size x.1.now)) result (spec.thrown self.now.source.size self.now.turns (spec.expr_at self.now.source.size self.now.depth) (spec.stmt_at self.now.source.size self.now.depth) (tokens_of self.now.source.size bytes.now)) }
    {
        let at = self.source.place(bytes);
        let (_, after) = self.source.word(bytes);
        let after = self.source.on_line(after)?;
        let (value, after) = self.expr(after)?;
        let rest = self.source.expect(b";", after)?;
        Ok((JsStmt::Throw { at, value }, rest))
    }

    /// What follows the block of a `try` that has a `catch`.
    #[tactic(auto, unfolding(crate::specs::Parsing::caught))]
    fn caught<'t>(
        &self,
        at: u64,
        body: Items<JsStmt>,
        bytes: &'t [u8],
    ) -> Result<(JsStmt, &'t [u8]), JsFault>
        requires { Nests self.now.depth (E.pre self.now.expr) (E.post self.now.expr) (S.pre self.now.stmt) (S.post self.now.stmt) }
        ensures { Gives (λ x. (x.0, tokens_of self.now.source.size x.1.now)) result (spec.caught self.now.source.size self.now.turns (spec.expr_at self.now.source.size self.now.depth) (spec.stmt_at self.now.source.size self.now.depth) at body (tokens_of self.now.source.size bytes.now)) }
    {
        let (_, after) = self.source.word(bytes);
        let after = self.source.expect(b"(", after)?;
        let mut names = Declared::new(self.source.alloc);
        let (name, after) = self.source.fresh_name(&mut names, after)?;
        let after = self.source.expect(b")", after)?;
        let (handler, rest) = self.block(names, after)?;
        Ok((
            JsStmt::TryCatch {
                at,
                body,
                name,
                handler,
            },
            rest,
        ))
    }

    /// What follows the block of a `try` that has a `finally`.
    #[tactic(auto, unfolding(crate::specs::Parsing::finished))]
    fn finished<'t>(
        &self,
        at: u64,
        body: Items<JsStmt>,
        bytes: &'t [u8],
    ) -> Result<(JsStmt, &'t [u8]), JsFault>
        requires { Nests self.now.depth (E.pre self.now.expr) (E.post self.now.expr) (S.pre self.now.stmt) (S.post self.now.stmt) }
        ensures { Gives (λ x. (x.0, tokens_of self.now.source.size x.1.now)) result (spec.finished self.now.source.size self.now.turns (spec.expr_at self.now.source.size self.now.depth) (spec.stmt_at self.now.source.size self.now.depth) at body (tokens_of self.now.source.size bytes.now)) }
    {
        let after = self.source.expect_word(b"finally", bytes)?;
        let (last, rest) = self.plain_block(after)?;
        Ok((JsStmt::TryFinally { at, body, last }, rest))
    }

    #[tactic(auto, unfolding(crate::specs::Parsing::tried))]
    fn tried<'t>(&self, bytes: &'t [u8]) -> Result<(JsStmt, &'t [u8]), JsFault>
        requires { Nests self.now.depth (E.pre self.now.expr) (E.post self.now.expr) (S.pre self.now.stmt) (S.post self.now.stmt) }
        ensures { Gives (λ x. (x.0, tokens_of self.now.source.size x.1.now)) result (spec.tried self.now.source.size self.now.turns (spec.expr_at self.now.source.size self.now.depth) (spec.stmt_at self.now.source.size self.now.depth) (tokens_of self.now.source.size bytes.now)) }
    {
        let at = self.source.place(bytes);
        let (_, after) = self.source.word(bytes);
        let (body, after) = self.plain_block(after)?;
        let (word, _) = self.source.word(after);
        if word == b"catch".as_slice() {
            self.caught(at, body, after)
        } else {
            self.finished(at, body, after)
        }
    }

    /// A statement that declares nothing.
    #[tactic(auto, unfolding(crate::specs::Parsing::statement))]
    pub fn statement<'t>(&self, bytes: &'t [u8]) -> Result<(JsStmt, &'t [u8]), JsFault>
        requires { Nests self.now.depth (E.pre self.now.expr) (E.post self.now.expr) (S.pre self.now.stmt) (S.post self.now.stmt) }
        ensures { Gives (λ x. (x.0, tokens_of self.now.source.size x.1.now)) result (spec.statement self.now.source.size self.now.turns (spec.expr_at self.now.source.size self.now.depth) (spec.stmt_at self.now.source.size self.now.depth) (tokens_of self.now.source.size bytes.now)) }
    {
        let (word, _) = self.source.word(bytes);
        if word == b"if".as_slice() {
            self.when(bytes)
        } else if word == b"return".as_slice() {
            self.returned(bytes)
        } else if word == b"while".as_slice() {
            self.repeat(bytes)
        } else if word == b"break".as_slice() {
            self.leave(bytes)
        } else if word == b"throw".as_slice() {
            self.thrown(bytes)
        } else if word == b"try".as_slice() {
            self.tried(bytes)
        } else {
            self.simple(bytes)
        }
    }

    #[tactic(auto, unfolding(crate::specs::Parsing::declared_function))]
    fn declared_function<'t>(
        &self,
        names: &mut Declared<'t>,
        bytes: &'t [u8],
    ) -> Result<(JsItem, &'t [u8]), JsFault>
        requires { Nests self.now.depth (E.pre self.now.expr) (E.post self.now.expr) (S.pre self.now.stmt) (S.post self.now.stmt) }
        ensures { Gives (λ x. ((x.0, names.new), tokens_of self.now.source.size x.1.now)) result (spec.declared_function self.now.source.size self.now.turns (spec.expr_at self.now.source.size self.now.depth) (spec.stmt_at self.now.source.size self.now.depth) names.old (tokens_of self.now.source.size bytes.now)) }
    {
        let (_, after) = self.source.word(bytes);
        let (name, after) = self.source.fresh_name(names, after)?;
        let (function, rest) = self.function(after)?;
        Ok((JsItem::Declared { name, function }, rest))
    }

    #[tactic(auto, unfolding(crate::specs::Parsing::variable))]
    fn variable<'t>(
        &self,
        names: &mut Declared<'t>,
        bytes: &'t [u8],
    ) -> Result<(JsItem, &'t [u8]), JsFault>
        requires { Nests self.now.depth (E.pre self.now.expr) (E.post self.now.expr) (S.pre self.now.stmt) (S.post self.now.stmt) }
        ensures { Gives (λ x. ((x.0, names.new), tokens_of self.now.source.size x.1.now)) result (spec.variable self.now.source.size self.now.turns (spec.expr_at self.now.source.size self.now.depth) (spec.stmt_at self.now.source.size self.now.depth) names.old (tokens_of self.now.source.size bytes.now)) }
    {
        let at = self.source.place(bytes);
        let (_, after) = self.source.word(bytes);
        let (name, after) = self.source.fresh_name(names, after)?;
        let after = self.source.expect(b"=", after)?;
        let (value, after) = self.expr(after)?;
        let rest = self.source.expect(b";", after)?;
        Ok((JsItem::Var { at, name, value }, rest))
    }

    #[tactic(auto, unfolding(crate::specs::Parsing::item_stmt))]
    fn item_stmt<'t>(
        &self,
        names: &mut Declared<'t>,
        bytes: &'t [u8],
    ) -> Result<(JsItem, &'t [u8]), JsFault>
        requires { Nests self.now.depth (E.pre self.now.expr) (E.post self.now.expr) (S.pre self.now.stmt) (S.post self.now.stmt) }
        ensures { Gives (λ x. ((x.0, names.new), tokens_of self.now.source.size x.1.now)) result (spec.item_stmt self.now.source.size self.now.turns (spec.expr_at self.now.source.size self.now.depth) (spec.stmt_at self.now.source.size self.now.depth) names.old (tokens_of self.now.source.size bytes.now)) }
    {
        let (stmt, rest) = self.named_stmt(names, bytes)?;
        Ok((JsItem::Statement(stmt), rest))
    }

    #[tactic(auto, unfolding(crate::specs::Parsing::item))]
    fn item<'t>(
        &self,
        names: &mut Declared<'t>,
        bytes: &'t [u8],
    ) -> Result<(JsItem, &'t [u8]), JsFault>
        requires { Nests self.now.depth (E.pre self.now.expr) (E.post self.now.expr) (S.pre self.now.stmt) (S.post self.now.stmt) }
        ensures { Gives (λ x. ((x.0, names.new), tokens_of self.now.source.size x.1.now)) result (spec.item self.now.source.size self.now.turns (spec.expr_at self.now.source.size self.now.depth) (spec.stmt_at self.now.source.size self.now.depth) names.old (tokens_of self.now.source.size bytes.now)) }
    {
        let (word, _) = self.source.word(bytes);
        if word == b"function".as_slice() {
            self.declared_function(names, bytes)
        } else if word == b"var".as_slice() {
            self.variable(names, bytes)
        } else {
            self.item_stmt(names, bytes)
        }
    }

    /// The items of a file, to its end.
    #[tactic(auto, using(crate::proofs::Turns::one_turn, crate::proofs::Turns::no_turn), unfolding(crate::specs::Parsing::items_from))]
    pub fn items(&self, bytes: &[u8]) -> Result<JsItems, JsFault>
        requires { Nests self.now.depth (E.pre self.now.expr) (E.post self.now.expr) (S.pre self.now.stmt) (S.post self.now.stmt) }
        ensures { Gives (λ x. x) result (spec.items_from self.now.source.size self.now.turns (spec.expr_at self.now.source.size self.now.depth) (spec.stmt_at self.now.source.size self.now.depth) self.now.turns [] [] (tokens_of self.now.source.size bytes.now)) }
    {
        let mut found = Growing::new(self.source.alloc);
        let mut names = Declared::new(self.source.alloc);
        let mut rest = bytes;
        for _turn in 0..self.turns {
            if self.source.is_end(rest) {
                return Ok(found.into_items());
            }
            let (item, after) = self.item(&mut names, rest)?;
            found.push(item)?;
            rest = after;
        }
        Err(self.source.fault(rest))
    }
}

/// An expression, with brackets nested less deep than `depth`.
#[cycle(parser)]
#[tactic(auto, unfolding(crate::specs::Parsing::expr_at), using(crate::proofs::Turns::one_up))]
pub fn expr(source: Source, bytes: &[u8], depth: usize) -> Result<(JsExpr, &[u8]), JsFault>
    ensures { Gives (λ x. (x.0, tokens_of source.size x.1.now)) result (spec.expr_at source.size depth (tokens_of source.size bytes.now)) }
{
    if depth == 0 {
        return Err(source.fault(bytes));
    }
    Grammar {
        source,
        turns: depth,
        depth: depth - 1,
        expr,
        stmt,
    }
    .expression(bytes)
}

/// A statement that declares nothing, with brackets nested less deep than `depth`.
#[cycle(parser)]
#[tactic(auto, unfolding(crate::specs::Parsing::stmt_at), using(crate::proofs::Turns::one_up))]
pub fn stmt(source: Source, bytes: &[u8], depth: usize) -> Result<(JsStmt, &[u8]), JsFault>
    ensures { Gives (λ x. (x.0, tokens_of source.size x.1.now)) result (spec.stmt_at source.size depth (tokens_of source.size bytes.now)) }
{
    if depth == 0 {
        return Err(source.fault(bytes));
    }
    Grammar {
        source,
        turns: depth,
        depth: depth - 1,
        expr,
        stmt,
    }
    .statement(bytes)
}
