//! Statements.

ghost use Rattle.std.specs.Prelude.{◌≡◌, [], ◌∷◌, Some, IfOk};
ghost use Rattle.js_tree.specs.declared.tree.JsStmt.{out-JsStmt};
ghost use Rattle.std.specs.List.{list_any};
ghost use Rattle.js_store.specs.Names.{same_name};
ghost use Rattle.js_store.specs.Scopes.{bind};
ghost use Rattle.js_meaning.specs.Prog as prog;
ghost use Rattle.js_meaning.specs.Statements as spec;
ghost use Rattle.js_meaning.specs.Stored as stored;
ghost use Rattle.js_meaning.specs.Nests.{IsOutcome, Nests, at};

use crate::forms::{Forms, Level, settled, stuck};
use crate::state::{Around, Callee, Here, Jump, Leave, Spot, State, Stop};
use js_store::{Env, Name, Pairs, Scope, Share, Slots, Value};
use js_tree::{JsExpr, JsPrimary, JsStmt};
use std::alloc::{AllocError, Global};

fn spot<'a>(around: &Around<'a>, place: u64) -> Spot
    ensures { result ≡ spec.spot around.now place }
{
    Spot {
        file: around.file,
        at: place,
    }
}

fn here<'a>(around: &Around<'a>, place: u64) -> Here<'a>
    ensures { result ≡ spec.here around.now place }
{
    Here {
        spot: spot(around, place),
        env: around.env.share(),
    }
}

fn within<'a>(around: &Around<'a>, env: Env<'a>) -> Around<'a>
    ensures { result ≡ spec.within around.now env.entry }
{
    Around {
        file: around.file,
        env,
        in_function: around.in_function,
    }
}

fn with_let<'a>(scope: Scope<'a>, c: &'a JsStmt) -> Result<Scope<'a>, AllocError>
    ensures { IfOk result (λ made. made ≡ spec.with_let scope.entry (out-JsStmt c.now)) }
{
    let mut scope = scope;
    match c {
        JsStmt::Let { name, .. } => {
            scope.put(Name::new(name.as_slice()), None)?;
            Ok(scope)
        }
        _ => Ok(scope),
    }
}

/// The scope with the names of the `let`s of a block, which have no value yet.
#[inline(never)]
pub fn with_lets<'a>(scope: Scope<'a>, body: &'a [JsStmt]) -> Result<Scope<'a>, AllocError>
    ensures { IfOk result (λ made. made ≡ spec.with_lets scope.entry body.now) }
{
    let mut scope = scope;
    for c in body {
        scope = with_let(scope, c)?;
    }
    Ok(scope)
}

/// A scope with a name that has a value.
#[inline(never)]
fn with_value<'a>(alloc: Global, x: &'a [u8], v: Value<'a>) -> Result<Scope<'a>, AllocError>
    ensures { IfOk result (λ made. made ≡ bind [] x.now (Some v.entry)) }
{
    let mut scope = Pairs::new(alloc);
    scope.put(Name::new(x), Some(v))?;
    Ok(scope)
}

/// The labels with one more, the innermost.
#[inline(never)]
fn with_label<'a>(
    alloc: Global,
    label: &'a [u8],
    labels: &[Name<'a>],
) -> Result<Slots<Name<'a>>, AllocError>
    ensures { IfOk result (λ all. all ≡ label.now ∷ labels.now) }
{
    let mut all = Slots::new(alloc);
    all.push(Name::new(label))?;
    for outer in labels {
        all.push(outer.share())?;
    }
    Ok(all)
}

fn is_among(label: &[u8], labels: &[Name]) -> bool
    ensures { result ≡ list_any (λ other. same_name other label.now) labels.now }
{
    for other in labels {
        if other.is(label) {
            return true;
        }
    }
    false
}

impl<'a> Level<'a> {
    /// The scopes of a block, within those around it.
    #[inline(never)]
    pub(crate) fn block_scopes(
        &self,
        around: &Around<'a>,
        state: &mut State<'a>,
        body: &'a [JsStmt],
    ) -> Result<Env<'a>, Jump<'a>>
        ensures { IsOutcome (at (stored.enter around.now.env (spec.with_lets [] body.now)) self.now.depth state.old) result state.new }
    {
        let scope = with_lets(Pairs::new(self.alloc), body)?;
        self.enter(&around.env, state, scope)
    }

    /// The scopes of a catch clause, with its name.
    #[inline(never)]
    pub(crate) fn handler_scopes(
        &self,
        around: &Around<'a>,
        state: &mut State<'a>,
        x: &'a [u8],
        handler: &'a [JsStmt],
        v: Value<'a>,
    ) -> Result<Env<'a>, Jump<'a>>
        ensures { IsOutcome (at (stored.enter around.now.env (spec.with_lets (bind [] x.now (Some v.entry)) handler.now)) self.now.depth state.old) result state.new }
    {
        let named = with_value(self.alloc, x, v)?;
        let scope = with_lets(named, handler)?;
        self.enter(&around.env, state, scope)
    }

    #[inline(never)]
    pub(crate) fn broken(
        &self,
        state: &mut State<'a>,
        label: &'a [u8],
        outcome: Result<(), Leave<'a>>,
    ) -> Result<(), Jump<'a>>
        ensures { IsOutcome (at (spec.broken label.now outcome.entry) self.now.depth state.old) result state.new }
    {
        match outcome {
            Ok(()) => Ok(()),
            Err(Leave::Break(other)) => self.broken_by(state, label, other),
            Err(Leave::Return(v)) => Err(Jump::Leave(Leave::Return(v))),
            Err(Leave::Throw(v, from)) => Err(Jump::Leave(Leave::Throw(v, from))),
        }
    }

    pub(crate) fn broken_by(
        &self,
        state: &mut State<'a>,
        label: &'a [u8],
        other: Name<'a>,
    ) -> Result<(), Jump<'a>>
        ensures { IsOutcome (at (spec.broken_by label.now other.entry) self.now.depth state.old) result state.new }
    {
        if Name::new(label) == other {
            Ok(())
        } else {
            Err(Jump::Leave(Leave::Break(other)))
        }
    }

    #[inline(never)]
    #[tactic(auto, unfolding(crate::specs::Statements::break_to))]
    pub(crate) fn break_to(
        &self,
        around: &Around<'a>,
        labels: &[Name<'a>],
        place: u64,
        state: &mut State<'a>,
        label: &'a [u8],
    ) -> Result<(), Jump<'a>>
        ensures { IsOutcome (at (spec.break_to around.now labels.now place label.now) self.now.depth state.old) result state.new }
    {
        if is_among(label, labels) {
            Err(Jump::Leave(Leave::Break(Name::new(label))))
        } else {
            Err(stuck(spot(around, place)))
        }
    }

    #[inline(never)]
    pub(crate) fn resumed(
        &self,
        state: &mut State<'a>,
        outcome: Result<(), Leave<'a>>,
    ) -> Result<(), Jump<'a>>
        ensures { IsOutcome (at (spec.resumed outcome.entry) self.now.depth state.old) result state.new }
    {
        match outcome {
            Ok(()) => Ok(()),
            Err(leave) => Err(Jump::Leave(leave)),
        }
    }
}

impl<
    'a,
    E: Fn(Level<'a>, usize, &Here<'a>, &mut State<'a>, &'a JsExpr) -> Result<Value<'a>, Jump<'a>>,
    X: Fn(
        Level<'a>,
        usize,
        &Around<'a>,
        &[Name<'a>],
        &mut State<'a>,
        &'a JsStmt,
    ) -> Result<(), Jump<'a>>,
    W: Fn(
        Level<'a>,
        usize,
        &Around<'a>,
        &[Name<'a>],
        &mut State<'a>,
        &'a [JsStmt],
    ) -> Result<(), Jump<'a>>,
    C: Fn(
        Level<'a>,
        usize,
        Spot,
        &mut State<'a>,
        Callee<'a>,
        Slots<Value<'a>>,
    ) -> Result<Value<'a>, Jump<'a>>,
> Forms<'a, E, X, W, C> {
    #[tactic(auto, unfolding(crate::specs::Statements::statements))]
    pub fn statements(
        &self,
        around: &Around<'a>,
        labels: &[Name<'a>],
        state: &mut State<'a>,
        body: &'a [JsStmt],
    ) -> Result<(), Jump<'a>>
        requires { Nests self.now.room self.now.level (E.pre self.now.eval) (E.post self.now.eval) (X.pre self.now.exec) (X.post self.now.exec) (W.pre self.now.turn) (W.post self.now.turn) (C.pre self.now.call) (C.post self.now.call) }
        ensures { IsOutcome (at (spec.statements around.now labels.now body.now) self.now.level.depth state.old) result state.new }
    {
        for c in body {
            self.exec(around, labels, state, c)?;
        }
        Ok(())
    }

    #[tactic(auto, unfolding(crate::specs::Statements::block))]
    pub fn block(
        &self,
        around: &Around<'a>,
        labels: &[Name<'a>],
        state: &mut State<'a>,
        body: &'a [JsStmt],
    ) -> Result<(), Jump<'a>>
        requires { Nests self.now.room self.now.level (E.pre self.now.eval) (E.post self.now.eval) (X.pre self.now.exec) (X.post self.now.exec) (W.pre self.now.turn) (W.post self.now.turn) (C.pre self.now.call) (C.post self.now.call) }
        ensures { IsOutcome (at (spec.block around.now labels.now body.now) self.now.level.depth state.old) result state.new }
    {
        let env = self.level.block_scopes(around, state, body)?;
        self.statements(&within(around, env), labels, state, body)
    }

    #[tactic(auto, using(crate::proofs::Settle::settles))]
    fn attempted(
        &self,
        around: &Around<'a>,
        labels: &[Name<'a>],
        state: &mut State<'a>,
        body: &'a [JsStmt],
    ) -> Result<Result<(), Leave<'a>>, Jump<'a>>
        requires { Nests self.now.room self.now.level (E.pre self.now.eval) (E.post self.now.eval) (X.pre self.now.exec) (X.post self.now.exec) (W.pre self.now.turn) (W.post self.now.turn) (C.pre self.now.call) (C.post self.now.call) }
        ensures { IsOutcome (at (prog.attempt (spec.block around.now labels.now body.now)) self.now.level.depth state.old) result state.new }
    {
        settled(self.block(around, labels, state, body))
    }

    #[tactic(auto, unfolding(crate::specs::Statements::let_value))]
    fn let_value(
        &self,
        around: &Around<'a>,
        place: u64,
        state: &mut State<'a>,
        x: &'a [u8],
        e: &'a JsExpr,
    ) -> Result<(), Jump<'a>>
        requires { Nests self.now.room self.now.level (E.pre self.now.eval) (E.post self.now.eval) (X.pre self.now.exec) (X.post self.now.exec) (W.pre self.now.turn) (W.post self.now.turn) (C.pre self.now.call) (C.post self.now.call) }
        ensures { IsOutcome (at (spec.let_value around.now place x.now e.now) self.now.level.depth state.old) result state.new }
    {
        let v = self.eval(&here(around, place), state, e)?;
        self.level.give(&around.env, state, x, v)
    }

    #[tactic(auto, unfolding(crate::specs::Statements::assigned))]
    fn assigned(
        &self,
        around: &Around<'a>,
        place: u64,
        state: &mut State<'a>,
        x: &'a [u8],
        e: &'a JsExpr,
    ) -> Result<(), Jump<'a>>
        requires { Nests self.now.room self.now.level (E.pre self.now.eval) (E.post self.now.eval) (X.pre self.now.exec) (X.post self.now.exec) (W.pre self.now.turn) (W.post self.now.turn) (C.pre self.now.call) (C.post self.now.call) }
        ensures { IsOutcome (at (spec.assigned around.now place x.now e.now) self.now.level.depth state.old) result state.new }
    {
        let here = here(around, place);
        let v = self.eval(&here, state, e)?;
        self.level.assign(&here, state, x, v)
    }

    #[tactic(auto, unfolding(crate::specs::Statements::stored))]
    fn stored(
        &self,
        around: &Around<'a>,
        place: u64,
        state: &mut State<'a>,
        p: &'a JsPrimary,
        i: &'a JsExpr,
        e: &'a JsExpr,
    ) -> Result<(), Jump<'a>>
        requires { Nests self.now.room self.now.level (E.pre self.now.eval) (E.post self.now.eval) (X.pre self.now.exec) (X.post self.now.exec) (W.pre self.now.turn) (W.post self.now.turn) (C.pre self.now.call) (C.post self.now.call) }
        ensures { IsOutcome (at (spec.stored around.now place p.now i.now e.now) self.now.level.depth state.old) result state.new }
    {
        let here = here(around, place);
        let o = self.primary(&here, state, p)?;
        let k = self.eval(&here, state, i)?;
        let v = self.eval(&here, state, e)?;
        self.level.set_element(here.spot, state, &o, &k, v)
    }

    #[tactic(auto, unfolding(crate::specs::Statements::performed))]
    fn performed(
        &self,
        around: &Around<'a>,
        place: u64,
        state: &mut State<'a>,
        p: &'a JsPrimary,
    ) -> Result<(), Jump<'a>>
        requires { Nests self.now.room self.now.level (E.pre self.now.eval) (E.post self.now.eval) (X.pre self.now.exec) (X.post self.now.exec) (W.pre self.now.turn) (W.post self.now.turn) (C.pre self.now.call) (C.post self.now.call) }
        ensures { IsOutcome (at (spec.performed around.now place p.now) self.now.level.depth state.old) result state.new }
    {
        self.primary(&here(around, place), state, p)?;
        Ok(())
    }

    #[tactic(auto, unfolding(crate::specs::Statements::tested))]
    fn tested(
        &self,
        around: &Around<'a>,
        place: u64,
        state: &mut State<'a>,
        e: &'a JsExpr,
    ) -> Result<bool, Jump<'a>>
        requires { Nests self.now.room self.now.level (E.pre self.now.eval) (E.post self.now.eval) (X.pre self.now.exec) (X.post self.now.exec) (W.pre self.now.turn) (W.post self.now.turn) (C.pre self.now.call) (C.post self.now.call) }
        ensures { IsOutcome (at (spec.tested around.now place e.now) self.now.level.depth state.old) result state.new }
    {
        let v = self.eval(&here(around, place), state, e)?;
        match v.truth() {
            Some(b) => Ok(b),
            None => Err(stuck(spot(around, place))),
        }
    }

    #[tactic(auto, unfolding(crate::specs::Statements::if_holds))]
    fn if_holds(
        &self,
        around: &Around<'a>,
        labels: &[Name<'a>],
        place: u64,
        state: &mut State<'a>,
        e: &'a JsExpr,
        holds: &'a [JsStmt],
    ) -> Result<(), Jump<'a>>
        requires { Nests self.now.room self.now.level (E.pre self.now.eval) (E.post self.now.eval) (X.pre self.now.exec) (X.post self.now.exec) (W.pre self.now.turn) (W.post self.now.turn) (C.pre self.now.call) (C.post self.now.call) }
        ensures { IsOutcome (at (spec.if_holds around.now labels.now place e.now holds.now) self.now.level.depth state.old) result state.new }
    {
        if self.tested(around, place, state, e)? {
            self.block(around, labels, state, holds)
        } else {
            Ok(())
        }
    }

    #[tactic(auto, unfolding(crate::specs::Statements::if_else))]
    fn if_else(
        &self,
        around: &Around<'a>,
        labels: &[Name<'a>],
        place: u64,
        state: &mut State<'a>,
        e: &'a JsExpr,
        holds: &'a [JsStmt],
        fails: &'a [JsStmt],
    ) -> Result<(), Jump<'a>>
        requires { Nests self.now.room self.now.level (E.pre self.now.eval) (E.post self.now.eval) (X.pre self.now.exec) (X.post self.now.exec) (W.pre self.now.turn) (W.post self.now.turn) (C.pre self.now.call) (C.post self.now.call) }
        ensures { IsOutcome (at (spec.if_else around.now labels.now place e.now holds.now fails.now) self.now.level.depth state.old) result state.new }
    {
        if self.tested(around, place, state, e)? {
            self.block(around, labels, state, holds)
        } else {
            self.block(around, labels, state, fails)
        }
    }

    #[tactic(auto, using(crate::proofs::Loops::next_turn, crate::proofs::Loops::no_more_turns), unfolding(crate::specs::Statements::forever))]
    fn forever(
        &self,
        around: &Around<'a>,
        labels: &[Name<'a>],
        state: &mut State<'a>,
        body: &'a [JsStmt],
    ) -> Result<(), Jump<'a>>
        requires { Nests self.now.room self.now.level (E.pre self.now.eval) (E.post self.now.eval) (X.pre self.now.exec) (X.post self.now.exec) (W.pre self.now.turn) (W.post self.now.turn) (C.pre self.now.call) (C.post self.now.call) }
        ensures { IsOutcome (at (spec.forever around.now labels.now body.now) self.now.level.depth state.old) result state.new }
    {
        let steps = state.steps;
        for turn in 0..steps {
            self.turn(around, labels, state, body)?;
        }
        Err(Jump::Stop(Stop::Steps))
    }

    #[tactic(auto, unfolding(crate::specs::Statements::labelled))]
    fn labelled(
        &self,
        around: &Around<'a>,
        labels: &[Name<'a>],
        state: &mut State<'a>,
        label: &'a [u8],
        body: &'a [JsStmt],
    ) -> Result<(), Jump<'a>>
        requires { Nests self.now.room self.now.level (E.pre self.now.eval) (E.post self.now.eval) (X.pre self.now.exec) (X.post self.now.exec) (W.pre self.now.turn) (W.post self.now.turn) (C.pre self.now.call) (C.post self.now.call) }
        ensures { IsOutcome (at (spec.labelled around.now labels.now label.now body.now) self.now.level.depth state.old) result state.new }
    {
        let all = with_label(self.level.alloc, label, labels)?;
        let outcome = self.attempted(around, all.as_slice(), state, body)?;
        self.level.broken(state, label, outcome)
    }

    #[tactic(auto, unfolding(crate::specs::Statements::return_value))]
    fn return_value(
        &self,
        around: &Around<'a>,
        place: u64,
        state: &mut State<'a>,
        e: &'a JsExpr,
    ) -> Result<(), Jump<'a>>
        requires { Nests self.now.room self.now.level (E.pre self.now.eval) (E.post self.now.eval) (X.pre self.now.exec) (X.post self.now.exec) (W.pre self.now.turn) (W.post self.now.turn) (C.pre self.now.call) (C.post self.now.call) }
        ensures { IsOutcome (at (spec.return_value around.now place e.now) self.now.level.depth state.old) result state.new }
    {
        if !around.in_function {
            return Err(stuck(spot(around, place)));
        }
        let v = self.eval(&here(around, place), state, e)?;
        Err(Jump::Leave(Leave::Return(v)))
    }

    #[tactic(auto, unfolding(crate::specs::Statements::throw_value))]
    fn throw_value(
        &self,
        around: &Around<'a>,
        place: u64,
        state: &mut State<'a>,
        e: &'a JsExpr,
    ) -> Result<(), Jump<'a>>
        requires { Nests self.now.room self.now.level (E.pre self.now.eval) (E.post self.now.eval) (X.pre self.now.exec) (X.post self.now.exec) (W.pre self.now.turn) (W.post self.now.turn) (C.pre self.now.call) (C.post self.now.call) }
        ensures { IsOutcome (at (spec.throw_value around.now place e.now) self.now.level.depth state.old) result state.new }
    {
        let v = self.eval(&here(around, place), state, e)?;
        Err(Jump::Leave(Leave::Throw(v, spot(around, place))))
    }

    #[inline(never)]
    #[tactic(auto, unfolding(crate::specs::Statements::handled))]
    fn handled(
        &self,
        around: &Around<'a>,
        labels: &[Name<'a>],
        state: &mut State<'a>,
        x: &'a [u8],
        handler: &'a [JsStmt],
        v: Value<'a>,
    ) -> Result<(), Jump<'a>>
        requires { Nests self.now.room self.now.level (E.pre self.now.eval) (E.post self.now.eval) (X.pre self.now.exec) (X.post self.now.exec) (W.pre self.now.turn) (W.post self.now.turn) (C.pre self.now.call) (C.post self.now.call) }
        ensures { IsOutcome (at (spec.handled around.now labels.now x.now handler.now v.entry) self.now.level.depth state.old) result state.new }
    {
        let env = self.level.handler_scopes(around, state, x, handler, v)?;
        self.statements(&within(around, env), labels, state, handler)
    }

    #[tactic(auto, unfolding(crate::specs::Statements::try_catch))]
    fn try_catch(
        &self,
        around: &Around<'a>,
        labels: &[Name<'a>],
        state: &mut State<'a>,
        body: &'a [JsStmt],
        x: &'a [u8],
        handler: &'a [JsStmt],
    ) -> Result<(), Jump<'a>>
        requires { Nests self.now.room self.now.level (E.pre self.now.eval) (E.post self.now.eval) (X.pre self.now.exec) (X.post self.now.exec) (W.pre self.now.turn) (W.post self.now.turn) (C.pre self.now.call) (C.post self.now.call) }
        ensures { IsOutcome (at (spec.try_catch around.now labels.now body.now x.now handler.now) self.now.level.depth state.old) result state.new }
    {
        match self.attempted(around, labels, state, body)? {
            Ok(()) => Ok(()),
            Err(Leave::Break(label)) => Err(Jump::Leave(Leave::Break(label))),
            Err(Leave::Return(v)) => Err(Jump::Leave(Leave::Return(v))),
            Err(Leave::Throw(v, _)) => self.handled(around, labels, state, x, handler, v),
        }
    }

    #[tactic(auto, unfolding(crate::specs::Statements::try_finally))]
    fn try_finally(
        &self,
        around: &Around<'a>,
        labels: &[Name<'a>],
        state: &mut State<'a>,
        body: &'a [JsStmt],
        last: &'a [JsStmt],
    ) -> Result<(), Jump<'a>>
        requires { Nests self.now.room self.now.level (E.pre self.now.eval) (E.post self.now.eval) (X.pre self.now.exec) (X.post self.now.exec) (W.pre self.now.turn) (W.post self.now.turn) (C.pre self.now.call) (C.post self.now.call) }
        ensures { IsOutcome (at (spec.try_finally around.now labels.now body.now last.now) self.now.level.depth state.old) result state.new }
    {
        let outcome = self.attempted(around, labels, state, body)?;
        self.block(around, labels, state, last)?;
        self.level.resumed(state, outcome)
    }

    #[tactic(auto, unfolding(crate::specs::Statements::statement))]
    pub fn statement(
        &self,
        around: &Around<'a>,
        labels: &[Name<'a>],
        state: &mut State<'a>,
        c: &'a JsStmt,
    ) -> Result<(), Jump<'a>>
        requires { Nests self.now.room self.now.level (E.pre self.now.eval) (E.post self.now.eval) (X.pre self.now.exec) (X.post self.now.exec) (W.pre self.now.turn) (W.post self.now.turn) (C.pre self.now.call) (C.post self.now.call) }
        ensures { IsOutcome (at (spec.statement around.now labels.now c.now) self.now.level.depth state.old) result state.new }
    {
        match c {
            JsStmt::Let { at, name, value } => self.let_value(
                around,
                *at,
                state,
                name.as_slice(),
                value,
            ),
            JsStmt::Assign { at, name, value } => self.assigned(
                around,
                *at,
                state,
                name.as_slice(),
                value,
            ),
            JsStmt::Store {
                at,
                object,
                index,
                value,
            } => self.stored(around, *at, state, object.get(), index.get(), value),
            JsStmt::Perform { at, primary } => self.performed(around, *at, state, primary),
            JsStmt::If { at, test, holds } => self.if_holds(
                around,
                labels,
                *at,
                state,
                test.get(),
                holds.as_slice(),
            ),
            JsStmt::IfElse {
                at,
                test,
                holds,
                fails,
            } => self.if_else(
                around,
                labels,
                *at,
                state,
                test.get(),
                holds.as_slice(),
                fails.as_slice(),
            ),
            JsStmt::Loop { body, .. } => self.forever(around, labels, state, body.as_slice()),
            JsStmt::Labelled { label, body, .. } => self.labelled(
                around,
                labels,
                state,
                label.as_slice(),
                body.as_slice(),
            ),
            JsStmt::Break { at, label } => self
                .level
                .break_to(around, labels, *at, state, label.as_slice()),
            JsStmt::Return { at, value } => self.return_value(around, *at, state, value),
            JsStmt::Throw { at, value } => self.throw_value(around, *at, state, value),
            JsStmt::TryCatch {
                body,
                name,
                handler,
                ..
            } => self.try_catch(
                around,
                labels,
                state,
                body.as_slice(),
                name.as_slice(),
                handler.as_slice(),
            ),
            JsStmt::TryFinally { body, last, .. } => self.try_finally(
                around,
                labels,
                state,
                body.as_slice(),
                last.as_slice(),
            ),
        }
    }
}
