//! What looks into the store and changes it.

ghost use Rattle.std.specs.Prelude.{◌≡◌, [], IfOk};
ghost use Rattle.js_store.specs.Store.{elements};
ghost use Rattle.js_meaning.specs.Stored as spec;
ghost use Rattle.js_meaning.specs.Nests.{IsOutcome, at};

use crate::forms::{Level, left, stuck};
use crate::state::{Here, Jump, Spot, State};
use js_store::{
    Closure, Env, Load, Name, Properties, Scope, Share, SharedText, Slots, Store, Value, is_length,
};
use js_tree::{JsFunction, JsMember};
use std::alloc::{AllocError, Global};

/// Copies of values.
fn shared<'a>(alloc: Global, values: &[Value<'a>]) -> Result<Slots<Value<'a>>, AllocError>
    ensures { IfOk result (λ list. list ≡ values.now) }
{
    let mut list = Slots::new(alloc);
    for value in values {
        list.push(value.share())?;
    }
    Ok(list)
}

/// The elements of the array at an address.
fn elements<'a>(
    alloc: Global,
    store: &Store<'a>,
    array: usize,
) -> Result<Slots<Value<'a>>, AllocError>
    ensures { IfOk result (λ list. list ≡ elements store.now array) }
{
    match store.arrays.get(array) {
        Some(list) => shared(alloc, list.as_slice()),
        None => Ok(Slots::new(alloc)),
    }
}

/// The texts of values that have nothing else, behind others.
fn texts_from<'a>(
    alloc: Global,
    values: &[Value<'a>],
) -> Result<Option<Slots<SharedText<'a>>>, AllocError>
    ensures { IfOk result (λ texts. texts ≡ spec.texts_from [] values.now) }
{
    let mut texts = Slots::new(alloc);
    for value in values {
        match value {
            Value::Str(text) => texts.push(text.share())?,
            _ => return Ok(None),
        }
    }
    Ok(Some(texts))
}

impl<'a> Level<'a> {
    #[tactic(auto, unfolding(crate::specs::Stored::read))]
    pub(crate) fn read(
        &self,
        here: &Here<'a>,
        state: &mut State<'a>,
        x: &'a [u8],
    ) -> Result<Value<'a>, Jump<'a>>
        ensures { IsOutcome (at (spec.read here.now x.now) self.now.depth state.old) result state.new }
    {
        match state.realm.store.look_up(&here.env, &Name::new(x)) {
            Some(value) => Ok(value),
            None => Err(stuck(here.spot)),
        }
    }

    #[inline(never)]
    #[tactic(auto, unfolding(crate::specs::Stored::enter))]
    pub(crate) fn enter(
        &self,
        env: &Env<'a>,
        state: &mut State<'a>,
        scope: Scope<'a>,
    ) -> Result<Env<'a>, Jump<'a>>
        ensures { IsOutcome (at (spec.enter env.now scope.entry) self.now.depth state.old) result state.new }
    {
        Ok(state.realm.store.enter(self.arena, env, scope)?)
    }

    #[inline(never)]
    #[tactic(auto, unfolding(crate::specs::Stored::give))]
    pub(crate) fn give(
        &self,
        env: &Env<'a>,
        state: &mut State<'a>,
        x: &'a [u8],
        v: Value<'a>,
    ) -> Result<(), Jump<'a>>
        ensures { IsOutcome (at (spec.give env.now x.now v.entry) self.now.depth state.old) result state.new }
    {
        Ok(state.realm.store.initialise(env, &Name::new(x), v)?)
    }

    #[inline(never)]
    #[tactic(auto, unfolding(crate::specs::Stored::assign))]
    pub(crate) fn assign(
        &self,
        here: &Here<'a>,
        state: &mut State<'a>,
        x: &'a [u8],
        v: Value<'a>,
    ) -> Result<(), Jump<'a>>
        ensures { IsOutcome (at (spec.assign here.now x.now v.entry) self.now.depth state.old) result state.new }
    {
        if state.realm.store.assign(&here.env, &Name::new(x), v)? {
            Ok(())
        } else {
            Err(stuck(here.spot))
        }
    }

    #[tactic(auto, unfolding(crate::specs::Stored::function_value))]
    pub(crate) fn function_value(
        &self,
        file: u32,
        env: &Env<'a>,
        state: &mut State<'a>,
        f: &'a JsFunction,
    ) -> Result<Value<'a>, Jump<'a>>
        ensures { IsOutcome (at (spec.function_value file env.now f.now) self.now.depth state.old) result state.new }
    {
        Ok(
            state
                .realm
                .store
                .make_function(Closure::new(f, env.share(), file))?,
        )
    }

    #[inline(never)]
    #[tactic(auto, unfolding(crate::specs::Stored::array_value))]
    pub(crate) fn array_value(
        &self,
        state: &mut State<'a>,
        vs: Slots<Value<'a>>,
    ) -> Result<Value<'a>, Jump<'a>>
        ensures { IsOutcome (at (spec.array_value vs.entry) self.now.depth state.old) result state.new }
    {
        if !is_length(vs.len() as u64) {
            return Err(left());
        }
        Ok(state.realm.store.make_array(vs)?)
    }

    #[inline(never)]
    #[tactic(auto, unfolding(crate::specs::Stored::object_value))]
    pub(crate) fn object_value(
        &self,
        state: &mut State<'a>,
        made: Properties<'a>,
    ) -> Result<Value<'a>, Jump<'a>>
        ensures { IsOutcome (at (spec.object_value made.entry) self.now.depth state.old) result state.new }
    {
        Ok(state.realm.store.make_object(made)?)
    }

    #[inline(never)]
    #[tactic(auto, unfolding(crate::specs::Stored::map_value))]
    pub(crate) fn map_value(&self, state: &mut State<'a>) -> Result<Value<'a>, Jump<'a>>
        ensures { IsOutcome (at (spec.map_value) self.now.depth state.old) result state.new }
    {
        Ok(state.realm.store.make_map(self.alloc)?)
    }

    #[tactic(auto, unfolding(crate::specs::Stored::item))]
    pub(crate) fn item(
        &self,
        spot: Spot,
        state: &mut State<'a>,
        a: usize,
        i: i64,
    ) -> Result<Value<'a>, Jump<'a>>
        ensures { IsOutcome (at (spec.item spot a i) self.now.depth state.old) result state.new }
    {
        match state.realm.store.read_element(a, i) {
            Some(value) => Ok(value),
            None => Err(stuck(spot)),
        }
    }

    #[inline(never)]
    #[tactic(auto, unfolding(crate::specs::Stored::element))]
    pub(crate) fn element(
        &self,
        spot: Spot,
        state: &mut State<'a>,
        o: &Value<'a>,
        k: &Value<'a>,
    ) -> Result<Value<'a>, Jump<'a>>
        ensures { IsOutcome (at (spec.element spot o.now k.now) self.now.depth state.old) result state.new }
    {
        match (o, k) {
            (Value::Array(a), Value::Number(i)) => self.item(spot, state, *a, *i),
            (Value::Object(a), Value::Str(key)) => Ok(state.realm.store.read_property(*a, key)),
            _ => Err(stuck(spot)),
        }
    }

    #[tactic(auto, unfolding(crate::specs::Stored::set_item))]
    pub(crate) fn set_item(
        &self,
        spot: Spot,
        state: &mut State<'a>,
        a: usize,
        i: i64,
        v: Value<'a>,
    ) -> Result<(), Jump<'a>>
        ensures { IsOutcome (at (spec.set_item spot a i v.entry) self.now.depth state.old) result state.new }
    {
        if state.realm.store.write_element(a, i, v) {
            Ok(())
        } else {
            Err(stuck(spot))
        }
    }

    #[inline(never)]
    #[tactic(auto, unfolding(crate::specs::Stored::set_element))]
    pub(crate) fn set_element(
        &self,
        spot: Spot,
        state: &mut State<'a>,
        o: &Value<'a>,
        k: &Value<'a>,
        v: Value<'a>,
    ) -> Result<(), Jump<'a>>
        ensures { IsOutcome (at (spec.set_element spot o.now k.now v.entry) self.now.depth state.old) result state.new }
    {
        match (o, k) {
            (Value::Array(a), Value::Number(i)) => self.set_item(spot, state, *a, *i, v),
            (Value::Object(a), Value::Str(key)) => Ok(
                state.realm.store.write_property(*a, key.share(), v)?,
            ),
            _ => Err(stuck(spot)),
        }
    }

    #[tactic(auto, unfolding(crate::specs::Stored::array_length))]
    pub(crate) fn array_length(
        &self,
        state: &mut State<'a>,
        a: usize,
    ) -> Result<Value<'a>, Jump<'a>>
        ensures { IsOutcome (at (spec.array_length a) self.now.depth state.old) result state.new }
    {
        let count = state.realm.store.array_length(a);
        self.number(state, i128::from(count))
    }

    #[tactic(auto, unfolding(crate::specs::Stored::map_size))]
    pub(crate) fn map_size(&self, state: &mut State<'a>, a: usize) -> Result<Value<'a>, Jump<'a>>
        ensures { IsOutcome (at (spec.map_size a) self.now.depth state.old) result state.new }
    {
        let count = state.realm.store.map_size(a);
        self.number(state, i128::from(count))
    }

    #[tactic(auto, unfolding(crate::specs::Stored::counted))]
    pub(crate) fn counted(
        &self,
        spot: Spot,
        state: &mut State<'a>,
        member: JsMember,
        v: &Value<'a>,
    ) -> Result<Value<'a>, Jump<'a>>
        ensures { IsOutcome (at (spec.counted spot member v.now) self.now.depth state.old) result state.new }
    {
        match (member, v) {
            (JsMember::Length, Value::Array(a)) => self.array_length(state, *a),
            (JsMember::Length, Value::Str(t)) => self.number(state, i128::from(t.len())),
            (JsMember::Size, Value::Map(a)) => self.map_size(state, *a),
            _ => Err(stuck(spot)),
        }
    }

    #[tactic(auto, unfolding(crate::specs::Stored::copied))]
    pub(crate) fn copied(&self, state: &mut State<'a>, a: usize) -> Result<Value<'a>, Jump<'a>>
        ensures { IsOutcome (at (spec.copied a) self.now.depth state.old) result state.new }
    {
        let vs = elements(self.alloc, &state.realm.store, a)?;
        self.array_value(state, vs)
    }

    #[inline(never)]
    #[tactic(auto, unfolding(crate::specs::Stored::array_from))]
    pub(crate) fn array_from(
        &self,
        spot: Spot,
        state: &mut State<'a>,
        v: &Value<'a>,
    ) -> Result<Value<'a>, Jump<'a>>
        ensures { IsOutcome (at (spec.array_from spot v.now) self.now.depth state.old) result state.new }
    {
        match v {
            Value::Array(a) => self.copied(state, *a),
            _ => Err(stuck(spot)),
        }
    }

    #[tactic(auto, unfolding(crate::specs::Stored::push_all))]
    pub(crate) fn push_all(
        &self,
        state: &mut State<'a>,
        a: usize,
        vs: &[Value<'a>],
    ) -> Result<(), Jump<'a>>
        ensures { IsOutcome (at (spec.push_all a vs.now) self.now.depth state.old) result state.new }
    {
        for v in vs {
            state.realm.store.push_element(a, v.share())?;
        }
        Ok(())
    }

    #[tactic(auto, unfolding(crate::specs::Stored::pushed_to))]
    pub(crate) fn pushed_to(
        &self,
        state: &mut State<'a>,
        a: usize,
        vs: &[Value<'a>],
    ) -> Result<Value<'a>, Jump<'a>>
        ensures { IsOutcome (at (spec.pushed_to a vs.now) self.now.depth state.old) result state.new }
    {
        self.push_all(state, a, vs)?;
        self.array_length(state, a)
    }

    #[tactic(auto, unfolding(crate::specs::Stored::pushed))]
    pub(crate) fn pushed(
        &self,
        spot: Spot,
        state: &mut State<'a>,
        v: &Value<'a>,
        vs: &[Value<'a>],
    ) -> Result<Value<'a>, Jump<'a>>
        ensures { IsOutcome (at (spec.pushed spot v.now vs.now) self.now.depth state.old) result state.new }
    {
        match v {
            Value::Array(a) => self.pushed_to(state, *a, vs),
            _ => Err(stuck(spot)),
        }
    }

    #[tactic(auto, unfolding(crate::specs::Stored::popped_from))]
    pub(crate) fn popped_from(&self, state: &mut State<'a>, a: usize) -> Result<Value<'a>, Jump<'a>>
        ensures { IsOutcome (at (spec.popped_from a) self.now.depth state.old) result state.new }
    {
        match state.realm.store.pop_element(a) {
            Some(v) => Ok(v),
            None => Ok(Value::Undefined),
        }
    }

    #[tactic(auto, unfolding(crate::specs::Stored::popped))]
    pub(crate) fn popped(
        &self,
        spot: Spot,
        state: &mut State<'a>,
        v: &Value<'a>,
    ) -> Result<Value<'a>, Jump<'a>>
        ensures { IsOutcome (at (spec.popped spot v.now) self.now.depth state.old) result state.new }
    {
        match v {
            Value::Array(a) => self.popped_from(state, *a),
            _ => Err(stuck(spot)),
        }
    }

    #[tactic(auto, unfolding(crate::specs::Stored::value_at))]
    pub(crate) fn value_at(
        &self,
        spot: Spot,
        state: &mut State<'a>,
        v: &Value<'a>,
        k: &Value<'a>,
    ) -> Result<Value<'a>, Jump<'a>>
        ensures { IsOutcome (at (spec.value_at spot v.now k.now) self.now.depth state.old) result state.new }
    {
        match v {
            Value::Map(a) => Ok(state.realm.store.read_entry(*a, k)),
            _ => Err(stuck(spot)),
        }
    }

    #[tactic(auto, unfolding(crate::specs::Stored::put_in))]
    pub(crate) fn put_in(
        &self,
        state: &mut State<'a>,
        a: usize,
        k: Value<'a>,
        w: Value<'a>,
    ) -> Result<Value<'a>, Jump<'a>>
        ensures { IsOutcome (at (spec.put_in a k.entry w.entry) self.now.depth state.old) result state.new }
    {
        state.realm.store.write_entry(self.alloc, a, k, w)?;
        if is_length(state.realm.store.map_size(a)) {
            Ok(Value::Map(a))
        } else {
            Err(left())
        }
    }

    #[tactic(auto, unfolding(crate::specs::Stored::put))]
    pub(crate) fn put(
        &self,
        spot: Spot,
        state: &mut State<'a>,
        v: &Value<'a>,
        k: Value<'a>,
        w: Value<'a>,
    ) -> Result<Value<'a>, Jump<'a>>
        ensures { IsOutcome (at (spec.put spot v.now k.entry w.entry) self.now.depth state.old) result state.new }
    {
        match v {
            Value::Map(a) => self.put_in(state, *a, k, w),
            _ => Err(stuck(spot)),
        }
    }

    #[tactic(auto, unfolding(crate::specs::Stored::has))]
    pub(crate) fn has(
        &self,
        spot: Spot,
        state: &mut State<'a>,
        v: &Value<'a>,
        k: &Value<'a>,
    ) -> Result<Value<'a>, Jump<'a>>
        ensures { IsOutcome (at (spec.has spot v.now k.now) self.now.depth state.old) result state.new }
    {
        match v {
            Value::Map(a) => Ok(Value::Bool(state.realm.store.has_entry(*a, k))),
            _ => Err(stuck(spot)),
        }
    }

    #[tactic(auto, unfolding(crate::specs::Stored::removed))]
    pub(crate) fn removed(
        &self,
        spot: Spot,
        state: &mut State<'a>,
        v: &Value<'a>,
        k: &Value<'a>,
    ) -> Result<Value<'a>, Jump<'a>>
        ensures { IsOutcome (at (spec.removed spot v.now k.now) self.now.depth state.old) result state.new }
    {
        match v {
            Value::Map(a) => Ok(Value::Bool(state.realm.store.remove_key(*a, k))),
            _ => Err(stuck(spot)),
        }
    }

    #[tactic(auto, unfolding(crate::specs::Stored::keys_in))]
    pub(crate) fn keys_in(&self, state: &mut State<'a>, a: usize) -> Result<Value<'a>, Jump<'a>>
        ensures { IsOutcome (at (spec.keys_in a) self.now.depth state.old) result state.new }
    {
        let vs = state.realm.store.map_keys(self.alloc, a)?;
        self.array_value(state, vs)
    }

    #[tactic(auto, unfolding(crate::specs::Stored::keys))]
    pub(crate) fn keys(
        &self,
        spot: Spot,
        state: &mut State<'a>,
        v: &Value<'a>,
    ) -> Result<Value<'a>, Jump<'a>>
        ensures { IsOutcome (at (spec.keys spot v.now) self.now.depth state.old) result state.new }
    {
        match v {
            Value::Map(a) => self.keys_in(state, *a),
            _ => Err(stuck(spot)),
        }
    }

    #[tactic(auto, unfolding(crate::specs::Stored::is_declared))]
    pub(crate) fn is_declared(&self, state: &mut State<'a>, x: &Name<'a>) -> Result<bool, Jump<'a>>
        ensures { IsOutcome (at (spec.is_declared x.now) self.now.depth state.old) result state.new }
    {
        Ok(state.realm.store.is_declared(x))
    }

    #[tactic(auto, unfolding(crate::specs::Stored::declare))]
    pub(crate) fn declare(
        &self,
        state: &mut State<'a>,
        x: Name<'a>,
        v: Option<Value<'a>>,
    ) -> Result<(), Jump<'a>>
        ensures { IsOutcome (at (spec.declare x.entry v.entry) self.now.depth state.old) result state.new }
    {
        Ok(state.realm.store.declare(x, v)?)
    }

    #[tactic(auto, unfolding(crate::specs::Stored::asked))]
    pub(crate) fn asked(
        &self,
        spot: Spot,
        state: &mut State<'a>,
        a: usize,
        done: Value<'a>,
    ) -> Result<Value<'a>, Jump<'a>>
        ensures { IsOutcome (at (spec.asked spot a done.entry) self.now.depth state.old) result state.new }
    {
        let vs = elements(self.alloc, &state.realm.store, a)?;
        match texts_from(self.alloc, vs.as_slice())? {
            Some(names) => {
                state
                    .realm
                    .host
                    .ask(Load::new(names, done, spot.file, spot.at))?;
                Ok(Value::Undefined)
            }
            None => Err(stuck(spot)),
        }
    }

    #[tactic(auto, unfolding(crate::specs::Stored::ask))]
    pub(crate) fn ask(
        &self,
        spot: Spot,
        state: &mut State<'a>,
        v: &Value<'a>,
        names: &Value<'a>,
        done: Value<'a>,
    ) -> Result<Value<'a>, Jump<'a>>
        ensures { IsOutcome (at (spec.ask spot v.now names.now done.entry) self.now.depth state.old) result state.new }
    {
        match (v, names) {
            (Value::Host, Value::Array(a)) => self.asked(spot, state, *a, done),
            _ => Err(stuck(spot)),
        }
    }

    #[tactic(auto, unfolding(crate::specs::Stored::file_number))]
    pub(crate) fn file_number(
        &self,
        state: &mut State<'a>,
        name: &SharedText<'a>,
    ) -> Result<Option<usize>, Jump<'a>>
        ensures { IsOutcome (at (spec.file_number name.now) self.now.depth state.old) result state.new }
    {
        Ok(state.realm.host.file_number(name))
    }

    #[tactic(auto, unfolding(crate::specs::Stored::has_run))]
    pub(crate) fn has_run(
        &self,
        state: &mut State<'a>,
        name: &SharedText<'a>,
    ) -> Result<bool, Jump<'a>>
        ensures { IsOutcome (at (spec.has_run name.now) self.now.depth state.old) result state.new }
    {
        Ok(state.realm.host.has_run(name))
    }

    #[tactic(auto, unfolding(crate::specs::Stored::starts))]
    pub(crate) fn starts(&self, state: &mut State<'a>, name: SharedText<'a>) -> Result<(), Jump<'a>>
        ensures { IsOutcome (at (spec.starts name.entry) self.now.depth state.old) result state.new }
    {
        Ok(state.realm.host.note_run(name)?)
    }

    #[tactic(auto, unfolding(crate::specs::Stored::completes))]
    pub(crate) fn completes(&self, state: &mut State<'a>) -> Result<Option<Load<'a>>, Jump<'a>>
        ensures { IsOutcome (at (spec.completes) self.now.depth state.old) result state.new }
    {
        Ok(state.realm.host.complete())
    }
}
