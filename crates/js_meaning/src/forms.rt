//! The functions that a form is passed for what is nested in it, so that each form is proved by itself.

ghost use Rattle.std.specs.Prelude.{◌≡◌};
ghost use Rattle.js_meaning.specs.Machine as machine;
ghost use Rattle.js_meaning.specs.Prog as prog;
ghost use Rattle.js_meaning.specs.Trees as trees;
ghost use Rattle.js_meaning.specs.Nests.{IsOutcome, Nests, at, settled};

use crate::state::{Around, Callee, Here, Jump, Leave, Spot, State, Stop};
use bumpalo::Bump;
use js_store::{Name, Slots, Value};
use js_tree::{JsExpr, JsStmt};
use std::alloc::Global;

/// Where a part of the run gets its memory, and how many steps may still be nested in it.
#[derive(Clone, Copy)]
pub struct Level<'a> {
    pub alloc: Global,
    /// What lives as long as the run.
    pub arena: &'a Bump,
    pub depth: usize,
}

/// Where forms are, and what begins what is nested in them: expressions, statements, turns of loops, and calls.
#[derive(Clone, Copy)]
pub struct Forms<'a, E, X, W, C> {
    pub level: Level<'a>,
    /// How deep the code may still go.
    pub room: usize,
    pub eval: E,
    pub exec: X,
    pub turn: W,
    pub call: C,
}

/// The run ends where no rule applies.
pub fn stuck<'a>(spot: Spot) -> Jump<'a>
    ensures { result ≡ Jump.Stop (Stop.NoRule spot) }
{
    Jump::Stop(Stop::NoRule(spot))
}

/// The run ends, since a result left the range of whole numbers.
pub fn left<'a>() -> Jump<'a>
    ensures { result ≡ Jump.Stop Stop.Range }
{
    Jump::Stop(Stop::Range)
}

/// What leaves a part is caught, and what stops the run goes on.
pub fn settled<'a>(outcome: Result<(), Jump<'a>>) -> Result<Result<(), Leave<'a>>, Jump<'a>>
    ensures { result ≡ settled outcome.entry }
{
    match outcome {
        Ok(value) => Ok(Ok(value)),
        Err(Jump::Leave(leave)) => Ok(Err(leave)),
        Err(Jump::Stop(stop)) => Err(Jump::Stop(stop)),
    }
}

impl<
    'a,
    E: Fn(Level<'a>, usize, &Here<'a>, &mut State<'a>, &'a JsExpr) -> Result<Value<'a>, Jump<'a>>,
    X: Fn(
        Level<'a>,
        usize,
        &Around<'a>,
        &[Name<'a>],
        &mut State<'a>,
        &'a JsStmt,
    ) -> Result<(), Jump<'a>>,
    W: Fn(
        Level<'a>,
        usize,
        &Around<'a>,
        &[Name<'a>],
        &mut State<'a>,
        &'a [JsStmt],
    ) -> Result<(), Jump<'a>>,
    C: Fn(
        Level<'a>,
        usize,
        Spot,
        &mut State<'a>,
        Callee<'a>,
        Slots<Value<'a>>,
    ) -> Result<Value<'a>, Jump<'a>>,
> Forms<'a, E, X, W, C> {
    pub fn eval(
        &self,
        here: &Here<'a>,
        state: &mut State<'a>,
        e: &'a JsExpr,
    ) -> Result<Value<'a>, Jump<'a>>
        requires { Nests self.now.room self.now.level (E.pre self.now.eval) (E.post self.now.eval) (X.pre self.now.exec) (X.post self.now.exec) (W.pre self.now.turn) (W.post self.now.turn) (C.pre self.now.call) (C.post self.now.call) }
        ensures { IsOutcome (at ((trees.expr e.now).does here.now) self.now.level.depth state.old) result state.new }
    {
        (self.eval)(self.level, self.room, here, state, e)
    }

    pub fn exec(
        &self,
        around: &Around<'a>,
        labels: &[Name<'a>],
        state: &mut State<'a>,
        c: &'a JsStmt,
    ) -> Result<(), Jump<'a>>
        requires { Nests self.now.room self.now.level (E.pre self.now.eval) (E.post self.now.eval) (X.pre self.now.exec) (X.post self.now.exec) (W.pre self.now.turn) (W.post self.now.turn) (C.pre self.now.call) (C.post self.now.call) }
        ensures { IsOutcome (at (prog.perform around.now labels.now c.now) self.now.level.depth state.old) result state.new }
    {
        (self.exec)(self.level, self.room, around, labels, state, c)
    }

    pub fn turn(
        &self,
        around: &Around<'a>,
        labels: &[Name<'a>],
        state: &mut State<'a>,
        body: &'a [JsStmt],
    ) -> Result<(), Jump<'a>>
        requires { Nests self.now.room self.now.level (E.pre self.now.eval) (E.post self.now.eval) (X.pre self.now.exec) (X.post self.now.exec) (W.pre self.now.turn) (W.post self.now.turn) (C.pre self.now.call) (C.post self.now.call) }
        ensures { IsOutcome (at (prog.does (machine.Turn around.now labels.now body.now)) self.now.level.depth state.old) result state.new }
    {
        (self.turn)(self.level, self.room, around, labels, state, body)
    }

    pub fn call(
        &self,
        spot: Spot,
        state: &mut State<'a>,
        f: Callee<'a>,
        vs: Slots<Value<'a>>,
    ) -> Result<Value<'a>, Jump<'a>>
        requires { Nests self.now.room self.now.level (E.pre self.now.eval) (E.post self.now.eval) (X.pre self.now.exec) (X.post self.now.exec) (W.pre self.now.turn) (W.post self.now.turn) (C.pre self.now.call) (C.post self.now.call) }
        ensures { IsOutcome (at (prog.call spot f.entry vs.entry) self.now.level.depth state.old) result state.new }
    {
        (self.call)(self.level, self.room, spot, state, f, vs)
    }
}
