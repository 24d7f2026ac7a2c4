//! Calls, whose step has begun.

ghost use Rattle.std.specs.Prelude.{◌≡◌, [], IfOk};
ghost use Rattle.js_meaning.specs.Operators as operators;
ghost use Rattle.js_meaning.specs.Prog as prog;
ghost use Rattle.js_meaning.specs.Statements as statements;
ghost use Rattle.js_meaning.specs.Stored as stored;
ghost use Rattle.js_meaning.specs.Calls as spec;
ghost use Rattle.js_meaning.specs.Nests.{IsOutcome, Nests, at};

use crate::forms::{Forms, Level, settled, stuck};
use crate::state::{Around, Callee, Here, Jump, Leave, Spot, State};
use crate::statements::with_lets;
use bumpalo::Bump;
use js_store::{Closure, Env, Name, Pairs, Scope, Share, SharedText, Slots, Value};
use js_tree::{JsExpr, JsMember, JsStmt};
use sqlite_items::Items;
use std::alloc::AllocError;

/// The argument of this number; undefined where it is absent.
#[inline(never)]
pub fn argument<'a>(vs: &[Value<'a>], i: usize) -> Value<'a>
    ensures { result ≡ spec.argument i vs.now }
{
    match vs.get(i) {
        Some(v) => v.share(),
        None => Value::Undefined,
    }
}

/// The scope with each parameter, and its argument as its value.
#[inline(never)]
fn with_parameters<'a>(
    scope: Scope<'a>,
    names: &'a [Items<u8>],
    vs: &[Value<'a>],
) -> Result<Scope<'a>, AllocError>
    ensures { IfOk result (λ made. made ≡ spec.with_parameters scope.entry 0 names.now vs.now) }
{
    let mut scope = scope;
    for i in 0..names.len() {
        scope.put(Name::new(names[i].as_slice()), Some(argument(vs, i)))?;
    }
    Ok(scope)
}

fn inside<'a>(file: u32, env: Env<'a>) -> Around<'a>
    ensures { result ≡ spec.inside file env.entry }
{
    Around {
        file,
        env,
        in_function: true,
    }
}

/// The string of a value, for `String`.
fn text_of<'a>(arena: &'a Bump, v: &Value<'a>) -> Result<Option<SharedText<'a>>, AllocError>
    ensures { IfOk result (λ text. text ≡ spec.text_of v.now) }
{
    match v {
        Value::Null => Ok(Some(SharedText::new(&[110, 117, 108, 108]))),
        Value::Bool(true) => Ok(Some(SharedText::new(&[116, 114, 117, 101]))),
        Value::Bool(false) => Ok(Some(SharedText::new(&[102, 97, 108, 115, 101]))),
        Value::Number(z) => Ok(Some(SharedText::decimal(arena, *z)?)),
        Value::Str(t) => Ok(Some(t.share())),
        _ => Ok(None),
    }
}

fn is_array(v: &Value) -> bool
    ensures { result ≡ stored.is_array v.now }
{
    match v {
        Value::Array(_) => true,
        _ => false,
    }
}

impl<'a> Level<'a> {
    #[inline(never)]
    pub(crate) fn returned(
        &self,
        state: &mut State<'a>,
        outcome: Result<(), Leave<'a>>,
    ) -> Result<Value<'a>, Jump<'a>>
        ensures { IsOutcome (at (spec.returned outcome.entry) self.now.depth state.old) result state.new }
    {
        match outcome {
            Ok(()) => Ok(Value::Undefined),
            Err(Leave::Return(v)) => Ok(v),
            Err(Leave::Throw(v, from)) => Err(Jump::Leave(Leave::Throw(v, from))),
            Err(Leave::Break(label)) => Err(Jump::Leave(Leave::Break(label))),
        }
    }

    #[inline(never)]
    #[tactic(auto, unfolding(crate::specs::Stored::closure))]
    pub(crate) fn closure(
        &self,
        spot: Spot,
        state: &mut State<'a>,
        f: &Value<'a>,
    ) -> Result<Closure<'a>, Jump<'a>>
        ensures { IsOutcome (at (stored.closure spot f.now) self.now.depth state.old) result state.new }
    {
        let Value::Function(a) = f else {
            return Err(stuck(spot));
        };
        match state.realm.store.closure(*a) {
            Some(c) => Ok(Closure::new(c.function(), c.around().share(), c.file())),
            None => Err(stuck(spot)),
        }
    }

    /// The scopes of a call: the parameters and the `let`s of the body, within what is around the function.
    #[inline(never)]
    pub(crate) fn scopes_of(
        &self,
        state: &mut State<'a>,
        c: &Closure<'a>,
        vs: &[Value<'a>],
    ) -> Result<Env<'a>, Jump<'a>>
        ensures { IsOutcome (at (stored.enter c.now.around (statements.with_lets (spec.with_parameters [] 0 c.now.function.parameters vs.now) c.now.function.body)) self.now.depth state.old) result state.new }
    {
        let function = c.function();
        let named = with_parameters(Pairs::new(self.alloc), function.parameters.as_slice(), vs)?;
        let scope = with_lets(named, function.body.as_slice())?;
        self.enter(c.around(), state, scope)
    }

    #[inline(never)]
    #[tactic(auto, unfolding(crate::specs::Calls::string_of))]
    pub(crate) fn string_of(
        &self,
        spot: Spot,
        state: &mut State<'a>,
        v: &Value<'a>,
    ) -> Result<Value<'a>, Jump<'a>>
        ensures { IsOutcome (at (spec.string_of spot v.now) self.now.depth state.old) result state.new }
    {
        match text_of(self.arena, v)? {
            Some(t) => Ok(Value::Str(t)),
            None => Err(stuck(spot)),
        }
    }

    // What is called without scopes of its own stands apart, so that the frames of calls in one another stay small.

    #[inline(never)]
    fn string_of_first(
        &self,
        spot: Spot,
        state: &mut State<'a>,
        vs: &[Value<'a>],
    ) -> Result<Value<'a>, Jump<'a>>
        ensures { IsOutcome (at (spec.string_of spot (spec.argument 0 vs.now)) self.now.depth state.old) result state.new }
    {
        self.string_of(spot, state, &argument(vs, 0))
    }

    #[inline(never)]
    fn is_array_first(&self, state: &mut State<'a>, vs: &[Value<'a>]) -> Result<Value<'a>, Jump<'a>>
        ensures { IsOutcome (at (operators.truth (stored.is_array (spec.argument 0 vs.now))) self.now.depth state.old) result state.new }
    {
        Ok(Value::Bool(is_array(&argument(vs, 0))))
    }

    #[inline(never)]
    fn array_from_first(
        &self,
        spot: Spot,
        state: &mut State<'a>,
        vs: &[Value<'a>],
    ) -> Result<Value<'a>, Jump<'a>>
        ensures { IsOutcome (at (stored.array_from spot (spec.argument 0 vs.now)) self.now.depth state.old) result state.new }
    {
        self.array_from(spot, state, &argument(vs, 0))
    }

    #[tactic(auto, unfolding(crate::specs::Calls::unit_at))]
    pub(crate) fn unit_at(
        &self,
        spot: Spot,
        state: &mut State<'a>,
        t: &SharedText<'a>,
        i: i64,
    ) -> Result<Value<'a>, Jump<'a>>
        ensures { IsOutcome (at (spec.unit_at spot t.now i) self.now.depth state.old) result state.new }
    {
        match t.unit(i) {
            Some(unit) => Ok(Value::Number(i64::from(unit))),
            None => Err(stuck(spot)),
        }
    }

    #[tactic(auto, unfolding(crate::specs::Calls::char_code_at))]
    pub(crate) fn char_code_at(
        &self,
        spot: Spot,
        state: &mut State<'a>,
        v: &Value<'a>,
        i: &Value<'a>,
    ) -> Result<Value<'a>, Jump<'a>>
        ensures { IsOutcome (at (spec.char_code_at spot v.now i.now) self.now.depth state.old) result state.new }
    {
        match (v, i) {
            (Value::Str(t), Value::Number(i)) => self.unit_at(spot, state, t, *i),
            _ => Err(stuck(spot)),
        }
    }

    #[tactic(auto, unfolding(crate::specs::Calls::part_of))]
    pub(crate) fn part_of(
        &self,
        spot: Spot,
        state: &mut State<'a>,
        t: &SharedText<'a>,
        from: i64,
        to: i64,
    ) -> Result<Value<'a>, Jump<'a>>
        ensures { IsOutcome (at (spec.part_of spot t.now from to) self.now.depth state.old) result state.new }
    {
        match t.part(self.arena, from, to)? {
            Some(part) => Ok(Value::Str(part)),
            None => Err(stuck(spot)),
        }
    }

    #[tactic(auto, unfolding(crate::specs::Calls::substring))]
    pub(crate) fn substring(
        &self,
        spot: Spot,
        state: &mut State<'a>,
        v: &Value<'a>,
        from: &Value<'a>,
        to: &Value<'a>,
    ) -> Result<Value<'a>, Jump<'a>>
        ensures { IsOutcome (at (spec.substring spot v.now from.now to.now) self.now.depth state.old) result state.new }
    {
        match (v, from, to) {
            (Value::Str(t), Value::Number(from), Value::Number(to)) => self.part_of(
                spot, state, t, *from, *to,
            ),
            _ => Err(stuck(spot)),
        }
    }

    pub(crate) fn printed(
        &self,
        spot: Spot,
        state: &mut State<'a>,
        v: &Value<'a>,
        t: &Value<'a>,
    ) -> Result<Value<'a>, Jump<'a>>
        ensures { IsOutcome (at (spec.printed spot v.now t.now) self.now.depth state.old) result state.new }
    {
        match (v, t) {
            (Value::Host, Value::Str(_)) => Ok(Value::Undefined),
            _ => Err(stuck(spot)),
        }
    }

    #[inline(never)]
    pub(crate) fn method(
        &self,
        spot: Spot,
        state: &mut State<'a>,
        m: JsMember,
        v: &Value<'a>,
        vs: &[Value<'a>],
    ) -> Result<Value<'a>, Jump<'a>>
        ensures { IsOutcome (at (spec.method spot m v.now vs.now) self.now.depth state.old) result state.new }
    {
        match m {
            JsMember::Push => self.pushed(spot, state, v, vs),
            JsMember::Pop => self.popped(spot, state, v),
            JsMember::CharCodeAt => self.char_code_at(spot, state, v, &argument(vs, 0)),
            JsMember::Substring => self.substring(
                spot,
                state,
                v,
                &argument(vs, 0),
                &argument(vs, 1),
            ),
            JsMember::Get => self.value_at(spot, state, v, &argument(vs, 0)),
            JsMember::Set => self.put(spot, state, v, argument(vs, 0), argument(vs, 1)),
            JsMember::Has => self.has(spot, state, v, &argument(vs, 0)),
            JsMember::Delete => self.removed(spot, state, v, &argument(vs, 0)),
            JsMember::Keys => self.keys(spot, state, v),
            JsMember::Print => self.printed(spot, state, v, &argument(vs, 0)),
            JsMember::Load => self.ask(spot, state, v, &argument(vs, 0), argument(vs, 1)),
            JsMember::Length => Err(stuck(spot)),
            JsMember::Size => Err(stuck(spot)),
        }
    }
}

impl<
    'a,
    E: Fn(Level<'a>, usize, &Here<'a>, &mut State<'a>, &'a JsExpr) -> Result<Value<'a>, Jump<'a>>,
    X: Fn(
        Level<'a>,
        usize,
        &Around<'a>,
        &[Name<'a>],
        &mut State<'a>,
        &'a JsStmt,
    ) -> Result<(), Jump<'a>>,
    W: Fn(
        Level<'a>,
        usize,
        &Around<'a>,
        &[Name<'a>],
        &mut State<'a>,
        &'a [JsStmt],
    ) -> Result<(), Jump<'a>>,
    C: Fn(
        Level<'a>,
        usize,
        Spot,
        &mut State<'a>,
        Callee<'a>,
        Slots<Value<'a>>,
    ) -> Result<Value<'a>, Jump<'a>>,
> Forms<'a, E, X, W, C> {
    #[tactic(auto, using(crate::proofs::Settle::settles))]
    fn body(
        &self,
        around: &Around<'a>,
        state: &mut State<'a>,
        body: &'a [JsStmt],
    ) -> Result<Result<(), Leave<'a>>, Jump<'a>>
        requires { Nests self.now.room self.now.level (E.pre self.now.eval) (E.post self.now.eval) (X.pre self.now.exec) (X.post self.now.exec) (W.pre self.now.turn) (W.post self.now.turn) (C.pre self.now.call) (C.post self.now.call) }
        ensures { IsOutcome (at (prog.attempt (statements.statements around.now [] body.now)) self.now.level.depth state.old) result state.new }
    {
        settled(self.statements(around, &[], state, body))
    }

    #[tactic(auto, unfolding(crate::specs::Calls::entered))]
    fn entered(
        &self,
        state: &mut State<'a>,
        c: Closure<'a>,
        vs: &[Value<'a>],
    ) -> Result<Value<'a>, Jump<'a>>
        requires { Nests self.now.room self.now.level (E.pre self.now.eval) (E.post self.now.eval) (X.pre self.now.exec) (X.post self.now.exec) (W.pre self.now.turn) (W.post self.now.turn) (C.pre self.now.call) (C.post self.now.call) }
        ensures { IsOutcome (at (spec.entered c.entry vs.now) self.now.level.depth state.old) result state.new }
    {
        let env = self.level.scopes_of(state, &c, vs)?;
        let outcome = self.body(&inside(c.file(), env), state, c.function().body.as_slice())?;
        self.level.returned(state, outcome)
    }

    #[inline(never)]
    #[tactic(auto, unfolding(crate::specs::Calls::applied))]
    fn applied(
        &self,
        spot: Spot,
        state: &mut State<'a>,
        f: &Value<'a>,
        vs: &[Value<'a>],
    ) -> Result<Value<'a>, Jump<'a>>
        requires { Nests self.now.room self.now.level (E.pre self.now.eval) (E.post self.now.eval) (X.pre self.now.exec) (X.post self.now.exec) (W.pre self.now.turn) (W.post self.now.turn) (C.pre self.now.call) (C.post self.now.call) }
        ensures { IsOutcome (at (spec.applied spot f.now vs.now) self.now.level.depth state.old) result state.new }
    {
        let c = self.level.closure(spot, state, f)?;
        self.entered(state, c, vs)
    }

    #[tactic(auto, unfolding(crate::specs::Calls::called))]
    pub fn called(
        &self,
        spot: Spot,
        state: &mut State<'a>,
        f: &Callee<'a>,
        vs: &[Value<'a>],
    ) -> Result<Value<'a>, Jump<'a>>
        requires { Nests self.now.room self.now.level (E.pre self.now.eval) (E.post self.now.eval) (X.pre self.now.exec) (X.post self.now.exec) (W.pre self.now.turn) (W.post self.now.turn) (C.pre self.now.call) (C.post self.now.call) }
        ensures { IsOutcome (at (spec.called spot f.now vs.now) self.now.level.depth state.old) result state.new }
    {
        match f {
            Callee::Applied(f) => self.applied(spot, state, f, vs),
            Callee::StringOf => self.level.string_of_first(spot, state, vs),
            Callee::IsArray => self.level.is_array_first(state, vs),
            Callee::ArrayFrom => self.level.array_from_first(spot, state, vs),
            Callee::Method(v, m) => self.level.method(spot, state, *m, v, vs),
        }
    }
}
