//! Expressions.

ghost use Rattle.std.specs.Prelude.{◌≡◌, map};
ghost use Rattle.js_meaning.specs.Parts as parts;
ghost use Rattle.js_meaning.specs.Expressions as spec;
ghost use Rattle.js_meaning.specs.Trees as trees;
ghost use Rattle.js_meaning.specs.Nests.{IsOutcome, Nests, at};

use crate::forms::{Forms, Level};
use crate::state::{Around, Callee, Here, Jump, Spot, State};
use js_store::{Name, Pairs, Properties, SharedText, Slots, Value};
use js_tree::{
    JsEntry, JsExpr, JsFunction, JsHead, JsMember, JsOperator, JsPrimary, JsSelector, JsStmt,
};

impl<'a> Level<'a> {
    #[inline(never)]
    #[tactic(auto, unfolding(crate::specs::Expressions::name))]
    pub(crate) fn name(
        &self,
        here: &Here<'a>,
        state: &mut State<'a>,
        x: &'a [u8],
    ) -> Result<Value<'a>, Jump<'a>>
        ensures { IsOutcome (at (spec.name here.now x.now) self.now.depth state.old) result state.new }
    {
        self.read(here, state, x)
    }

    #[inline(never)]
    #[tactic(auto, unfolding(crate::specs::Expressions::digits))]
    pub(crate) fn digits(&self, state: &mut State<'a>, number: u64) -> Result<Value<'a>, Jump<'a>>
        ensures { IsOutcome (at (spec.digits number) self.now.depth state.old) result state.new }
    {
        self.number(state, i128::from(number))
    }

    #[inline(never)]
    #[tactic(auto, unfolding(crate::specs::Expressions::negative))]
    pub(crate) fn negative(&self, state: &mut State<'a>, number: u64) -> Result<Value<'a>, Jump<'a>>
        ensures { IsOutcome (at (spec.negative number) self.now.depth state.old) result state.new }
    {
        self.number(state, -i128::from(number))
    }

    #[inline(never)]
    #[tactic(auto, unfolding(crate::specs::Expressions::member))]
    pub(crate) fn member(
        &self,
        here: &Here<'a>,
        state: &mut State<'a>,
        v: Value<'a>,
        member: JsMember,
    ) -> Result<Value<'a>, Jump<'a>>
        ensures { IsOutcome (at (spec.member here.now v.entry member) self.now.depth state.old) result state.new }
    {
        self.counted(here.spot, state, member, &v)
    }

    #[inline(never)]
    #[tactic(auto, unfolding(crate::specs::Expressions::function))]
    pub(crate) fn function(
        &self,
        here: &Here<'a>,
        state: &mut State<'a>,
        f: &'a JsFunction,
    ) -> Result<Value<'a>, Jump<'a>>
        ensures { IsOutcome (at (spec.function here.now f.now) self.now.depth state.old) result state.new }
    {
        self.function_value(here.spot.file, &here.env, state, f)
    }
}

impl<
    'a,
    E: Fn(Level<'a>, usize, &Here<'a>, &mut State<'a>, &'a JsExpr) -> Result<Value<'a>, Jump<'a>>,
    X: Fn(
        Level<'a>,
        usize,
        &Around<'a>,
        &[Name<'a>],
        &mut State<'a>,
        &'a JsStmt,
    ) -> Result<(), Jump<'a>>,
    W: Fn(
        Level<'a>,
        usize,
        &Around<'a>,
        &[Name<'a>],
        &mut State<'a>,
        &'a [JsStmt],
    ) -> Result<(), Jump<'a>>,
    C: Fn(
        Level<'a>,
        usize,
        Spot,
        &mut State<'a>,
        Callee<'a>,
        Slots<Value<'a>>,
    ) -> Result<Value<'a>, Jump<'a>>,
> Forms<'a, E, X, W, C> {
    #[inline(never)]
    #[tactic(auto, unfolding(crate::specs::Parts::values))]
    fn values(
        &self,
        here: &Here<'a>,
        state: &mut State<'a>,
        es: &'a [JsExpr],
    ) -> Result<Slots<Value<'a>>, Jump<'a>>
        requires { Nests self.now.room self.now.level (E.pre self.now.eval) (E.post self.now.eval) (X.pre self.now.exec) (X.post self.now.exec) (W.pre self.now.turn) (W.post self.now.turn) (C.pre self.now.call) (C.post self.now.call) }
        ensures { IsOutcome (at (parts.values here.now (map trees.expr es.now)) self.now.level.depth state.old) result state.new }
    {
        let mut done = Slots::new(self.level.alloc);
        for e in es {
            let v = self.eval(here, state, e)?;
            done.push(v)?;
        }
        Ok(done)
    }

    #[tactic(auto, unfolding(crate::specs::Expressions::calls))]
    fn calls(
        &self,
        here: &Here<'a>,
        state: &mut State<'a>,
        f: Callee<'a>,
        es: &'a [JsExpr],
    ) -> Result<Value<'a>, Jump<'a>>
        requires { Nests self.now.room self.now.level (E.pre self.now.eval) (E.post self.now.eval) (X.pre self.now.exec) (X.post self.now.exec) (W.pre self.now.turn) (W.post self.now.turn) (C.pre self.now.call) (C.post self.now.call) }
        ensures { IsOutcome (at (spec.calls here.now f.entry (map trees.expr es.now)) self.now.level.depth state.old) result state.new }
    {
        let vs = self.values(here, state, es)?;
        self.call(here.spot, state, f, vs)
    }

    #[inline(never)]
    #[tactic(auto, using(crate::proofs::Layers::name_layer, crate::proofs::Layers::digits_layer, crate::proofs::Layers::negative_layer, crate::proofs::Layers::str_layer, crate::proofs::Layers::null_layer, crate::proofs::Layers::undefined_layer, crate::proofs::Layers::true_layer, crate::proofs::Layers::false_layer, crate::proofs::Layers::string_of_layer, crate::proofs::Layers::is_array_layer, crate::proofs::Layers::array_from_layer))]
    fn head(
        &self,
        here: &Here<'a>,
        state: &mut State<'a>,
        head: &'a JsHead,
    ) -> Result<Value<'a>, Jump<'a>>
        requires { Nests self.now.room self.now.level (E.pre self.now.eval) (E.post self.now.eval) (X.pre self.now.exec) (X.post self.now.exec) (W.pre self.now.turn) (W.post self.now.turn) (C.pre self.now.call) (C.post self.now.call) }
        ensures { IsOutcome (at ((trees.head head.now).does here.now) self.now.level.depth state.old) result state.new }
    {
        match head {
            JsHead::Name(x) => self.level.name(here, state, x.as_slice()),
            JsHead::Digits(number) => self.level.digits(state, *number),
            JsHead::Negative(number) => self.level.negative(state, *number),
            JsHead::Str(units) => Ok(Value::Str(SharedText::new(units.as_slice()))),
            JsHead::Null => Ok(Value::Null),
            JsHead::Undefined => Ok(Value::Undefined),
            JsHead::True => Ok(Value::Bool(true)),
            JsHead::False => Ok(Value::Bool(false)),
            JsHead::StringOf(es) => self.calls(here, state, Callee::StringOf, es.as_slice()),
            JsHead::IsArray(es) => self.calls(here, state, Callee::IsArray, es.as_slice()),
            JsHead::ArrayFrom(es) => self.calls(here, state, Callee::ArrayFrom, es.as_slice()),
        }
    }

    #[inline(never)]
    #[tactic(auto, unfolding(crate::specs::Expressions::index))]
    fn index(
        &self,
        here: &Here<'a>,
        state: &mut State<'a>,
        v: Value<'a>,
        e: &'a JsExpr,
    ) -> Result<Value<'a>, Jump<'a>>
        requires { Nests self.now.room self.now.level (E.pre self.now.eval) (E.post self.now.eval) (X.pre self.now.exec) (X.post self.now.exec) (W.pre self.now.turn) (W.post self.now.turn) (C.pre self.now.call) (C.post self.now.call) }
        ensures { IsOutcome (at (spec.index here.now v.entry ((trees.expr e.now).does here.now)) self.now.level.depth state.old) result state.new }
    {
        let i = self.eval(here, state, e)?;
        self.level.element(here.spot, state, &v, &i)
    }

    #[tactic(auto, using(crate::proofs::Layers::index_layer, crate::proofs::Layers::call_layer, crate::proofs::Layers::member_layer, crate::proofs::Layers::method_layer))]
    fn selector(
        &self,
        here: &Here<'a>,
        state: &mut State<'a>,
        v: Value<'a>,
        selector: &'a JsSelector,
    ) -> Result<Value<'a>, Jump<'a>>
        requires { Nests self.now.room self.now.level (E.pre self.now.eval) (E.post self.now.eval) (X.pre self.now.exec) (X.post self.now.exec) (W.pre self.now.turn) (W.post self.now.turn) (C.pre self.now.call) (C.post self.now.call) }
        ensures { IsOutcome (at ((trees.selector selector.now).does here.now v.entry) self.now.level.depth state.old) result state.new }
    {
        match selector {
            JsSelector::Index(e) => self.index(here, state, v, e.get()),
            JsSelector::Call(es) => self.calls(here, state, Callee::Applied(v), es.as_slice()),
            JsSelector::Member(m) => self.level.member(here, state, v, *m),
            JsSelector::Method(m, es) => self.calls(
                here,
                state,
                Callee::Method(v, *m),
                es.as_slice(),
            ),
        }
    }

    #[tactic(auto, unfolding(crate::specs::Parts::selected))]
    fn selected(
        &self,
        here: &Here<'a>,
        state: &mut State<'a>,
        from: Value<'a>,
        selectors: &'a [JsSelector],
    ) -> Result<Value<'a>, Jump<'a>>
        requires { Nests self.now.room self.now.level (E.pre self.now.eval) (E.post self.now.eval) (X.pre self.now.exec) (X.post self.now.exec) (W.pre self.now.turn) (W.post self.now.turn) (C.pre self.now.call) (C.post self.now.call) }
        ensures { IsOutcome (at (parts.selected here.now from.entry (map trees.selector selectors.now)) self.now.level.depth state.old) result state.new }
    {
        let mut v = from;
        for selector in selectors {
            v = self.selector(here, state, v, selector)?;
        }
        Ok(v)
    }

    #[tactic(auto, using(crate::proofs::Layers::parts_layer))]
    pub fn primary(
        &self,
        here: &Here<'a>,
        state: &mut State<'a>,
        primary: &'a JsPrimary,
    ) -> Result<Value<'a>, Jump<'a>>
        requires { Nests self.now.room self.now.level (E.pre self.now.eval) (E.post self.now.eval) (X.pre self.now.exec) (X.post self.now.exec) (W.pre self.now.turn) (W.post self.now.turn) (C.pre self.now.call) (C.post self.now.call) }
        ensures { IsOutcome (at ((trees.primary primary.now).does here.now) self.now.level.depth state.old) result state.new }
    {
        let v = self.head(here, state, &primary.head)?;
        self.selected(here, state, v, primary.selectors.as_slice())
    }

    #[inline(never)]
    #[tactic(auto, unfolding(crate::specs::Expressions::binary))]
    fn binary(
        &self,
        here: &Here<'a>,
        state: &mut State<'a>,
        operator: JsOperator,
        a: &'a JsPrimary,
        b: &'a JsPrimary,
    ) -> Result<Value<'a>, Jump<'a>>
        requires { Nests self.now.room self.now.level (E.pre self.now.eval) (E.post self.now.eval) (X.pre self.now.exec) (X.post self.now.exec) (W.pre self.now.turn) (W.post self.now.turn) (C.pre self.now.call) (C.post self.now.call) }
        ensures { IsOutcome (at (spec.binary here.now operator ((trees.primary a.now).does here.now) ((trees.primary b.now).does here.now)) self.now.level.depth state.old) result state.new }
    {
        let x = self.primary(here, state, a)?;
        let y = self.primary(here, state, b)?;
        self.level.operated(here.spot, state, operator, &x, &y)
    }

    #[inline(never)]
    #[tactic(auto, unfolding(crate::specs::Expressions::type_of))]
    fn type_of(
        &self,
        here: &Here<'a>,
        state: &mut State<'a>,
        p: &'a JsPrimary,
    ) -> Result<Value<'a>, Jump<'a>>
        requires { Nests self.now.room self.now.level (E.pre self.now.eval) (E.post self.now.eval) (X.pre self.now.exec) (X.post self.now.exec) (W.pre self.now.turn) (W.post self.now.turn) (C.pre self.now.call) (C.post self.now.call) }
        ensures { IsOutcome (at (spec.type_of ((trees.primary p.now).does here.now)) self.now.level.depth state.old) result state.new }
    {
        let v = self.primary(here, state, p)?;
        Ok(Value::Str(v.type_word()))
    }

    #[inline(never)]
    #[tactic(auto, unfolding(crate::specs::Expressions::array))]
    fn array(
        &self,
        here: &Here<'a>,
        state: &mut State<'a>,
        es: &'a [JsExpr],
    ) -> Result<Value<'a>, Jump<'a>>
        requires { Nests self.now.room self.now.level (E.pre self.now.eval) (E.post self.now.eval) (X.pre self.now.exec) (X.post self.now.exec) (W.pre self.now.turn) (W.post self.now.turn) (C.pre self.now.call) (C.post self.now.call) }
        ensures { IsOutcome (at (spec.array here.now (map trees.expr es.now)) self.now.level.depth state.old) result state.new }
    {
        let vs = self.values(here, state, es)?;
        self.level.array_value(state, vs)
    }

    #[inline(never)]
    #[tactic(auto, unfolding(crate::specs::Expressions::entries_from))]
    fn entries_from(
        &self,
        here: &Here<'a>,
        state: &mut State<'a>,
        made: Properties<'a>,
        es: &'a [JsEntry],
    ) -> Result<Properties<'a>, Jump<'a>>
        requires { Nests self.now.room self.now.level (E.pre self.now.eval) (E.post self.now.eval) (X.pre self.now.exec) (X.post self.now.exec) (W.pre self.now.turn) (W.post self.now.turn) (C.pre self.now.call) (C.post self.now.call) }
        ensures { IsOutcome (at (spec.entries_from here.now made.entry (map trees.entry es.now)) self.now.level.depth state.old) result state.new }
    {
        let mut made = made;
        for e in es {
            let v = self.eval(here, state, &e.value)?;
            made.put(SharedText::new(e.key.as_slice()), v)?;
        }
        Ok(made)
    }

    #[inline(never)]
    #[tactic(auto, unfolding(crate::specs::Expressions::object))]
    fn object(
        &self,
        here: &Here<'a>,
        state: &mut State<'a>,
        es: &'a [JsEntry],
    ) -> Result<Value<'a>, Jump<'a>>
        requires { Nests self.now.room self.now.level (E.pre self.now.eval) (E.post self.now.eval) (X.pre self.now.exec) (X.post self.now.exec) (W.pre self.now.turn) (W.post self.now.turn) (C.pre self.now.call) (C.post self.now.call) }
        ensures { IsOutcome (at (spec.object here.now (map trees.entry es.now)) self.now.level.depth state.old) result state.new }
    {
        let made = self.entries_from(here, state, Pairs::new(self.level.alloc), es)?;
        self.level.object_value(state, made)
    }

    #[tactic(auto, using(crate::proofs::Layers::primary_layer, crate::proofs::Layers::binary_layer, crate::proofs::Layers::type_of_layer, crate::proofs::Layers::function_layer, crate::proofs::Layers::new_map_layer, crate::proofs::Layers::array_layer, crate::proofs::Layers::object_layer))]
    pub fn expr(
        &self,
        here: &Here<'a>,
        state: &mut State<'a>,
        e: &'a JsExpr,
    ) -> Result<Value<'a>, Jump<'a>>
        requires { Nests self.now.room self.now.level (E.pre self.now.eval) (E.post self.now.eval) (X.pre self.now.exec) (X.post self.now.exec) (W.pre self.now.turn) (W.post self.now.turn) (C.pre self.now.call) (C.post self.now.call) }
        ensures { IsOutcome (at ((trees.expr e.now).does here.now) self.now.level.depth state.old) result state.new }
    {
        match e {
            JsExpr::Primary(p) => self.primary(here, state, p),
            JsExpr::Binary(operator, a, b) => self.binary(here, state, *operator, a.get(), b.get()),
            JsExpr::TypeOf(p) => self.type_of(here, state, p),
            JsExpr::Function(f) => self.level.function(here, state, f),
            JsExpr::NewMap => self.level.map_value(state),
            JsExpr::Array(es) => self.array(here, state, es.as_slice()),
            JsExpr::Object(es) => self.object(here, state, es.as_slice()),
        }
    }
}
