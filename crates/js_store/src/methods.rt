//! The calls of the store. An address that leads to nothing is as one that leads to something empty.

ghost use Rattle.std.specs.Prelude.{◌≡◌, length, OnOk, IfOk};
ghost use Rattle.std.specs.Option.{option_copied, is_some, unwrap_or};
ghost use Rattle.js_store.specs.declared.value.Value.TheVariants.{Object, Array, Map, Function};
ghost use Rattle.js_store.specs.Store.{empty, properties, with_object, read_property, write_property, elements, with_array, read_element, write_element, push_element, popped_element, pop_element, entries, with_map, read_entry, has_entry, write_entry, remove_key, keys, closure, with_function};
ghost use Rattle.js_store.specs.Scopes.{enter, inside, look_up, assign, initialise, set_top, is_declared};

use crate::closure::{Closure, Env};
use crate::names::Name;
use crate::scopes;
use crate::store::{Properties, Scope, Store};
use crate::value::Value;
use bumpalo::Bump;
use std::alloc::{AllocError, Global};
use store_lists::{Entries, Pairs, Share, SharedText, Slots, changes};

impl<'a> Store<'a> {
    /// A store with nothing in it.
    pub fn new(alloc: Global) -> Store<'a>
        ensures { result ≡ empty }
    {
        Store {
            objects: Slots::new(alloc),
            arrays: Slots::new(alloc),
            maps: Slots::new(alloc),
            functions: Slots::new(alloc),
            scopes: Slots::new(alloc),
            top: Pairs::new(alloc),
        }
    }

    /// A new object with these properties.
    pub fn make_object(&mut self, made: Properties<'a>) -> Result<Value<'a>, AllocError>
        ensures value { IfOk result (λ value. value ≡ Object (length self.old.objects)) }
        ensures store { OnOk result (self.new ≡ with_object self.old made.entry) }
    {
        let address = self.objects.len();
        self.objects.push(made)?;
        Ok(Value::Object(address))
    }

    /// The value of a property of the object at an address; undefined where it has none.
    pub fn read_property(&self, object: usize, key: &SharedText<'a>) -> Value<'a>
        ensures { result ≡ read_property self.now object key.now }
    {
        match self.objects.get(object) {
            Some(made) => match made.get(key) {
                Some(value) => value.share(),
                None => Value::Undefined,
            },
            None => Value::Undefined,
        }
    }

    /// Gives a property of the object at an address a value.
    pub fn write_property(
        &mut self,
        object: usize,
        key: SharedText<'a>,
        value: Value<'a>,
    ) -> Result<(), AllocError>
        ensures { OnOk result (self.new ≡ write_property self.old object key.entry value.entry) }
    {
        changes::put_at(&mut self.objects, object, key, value)
    }

    /// A new array with these elements.
    pub fn make_array(&mut self, made: Slots<Value<'a>>) -> Result<Value<'a>, AllocError>
        ensures value { IfOk result (λ value. value ≡ Array (length self.old.arrays)) }
        ensures store { OnOk result (self.new ≡ with_array self.old made.entry) }
    {
        let address = self.arrays.len();
        self.arrays.push(made)?;
        Ok(Value::Array(address))
    }

    /// How many elements the array at an address has.
    pub fn array_length(&self, array: usize) -> u64
        ensures { result ≡ length (elements self.now array) }
    {
        match self.arrays.get(array) {
            Some(made) => made.len() as u64,
            None => 0,
        }
    }

    /// The element at an index of the array at an address, where the index is in range.
    pub fn read_element(&self, array: usize, index: i64) -> Option<Value<'a>>
        ensures { result ≡ read_element self.now array index }
    {
        let at = usize::try_from(index).ok()?;
        Some(self.arrays.get(array)?.get(at)?.share())
    }

    /// Puts a value at an index of the array at an address, and tells whether the index is in range; where it is not,
    /// nothing changes.
    pub fn write_element(&mut self, array: usize, index: i64, value: Value<'a>) -> bool
        ensures result { result ≡ is_some (read_element self.old array index) }
        ensures store { self.new ≡ write_element self.old array index value.entry }
    {
        changes::set_at(&mut self.arrays, array, index, value)
    }

    /// Adds an element behind all others of the array at an address.
    pub fn push_element(&mut self, array: usize, value: Value<'a>) -> Result<(), AllocError>
        ensures { OnOk result (self.new ≡ push_element self.old array value.entry) }
    {
        changes::push_at(&mut self.arrays, array, value)
    }

    /// Takes the last element off the array at an address, where there is one.
    pub fn pop_element(&mut self, array: usize) -> Option<Value<'a>>
        ensures value { result ≡ popped_element self.old array }
        ensures store { self.new ≡ pop_element self.old array }
    {
        changes::pop_at(&mut self.arrays, array)
    }

    /// A new map without a key.
    pub fn make_map(&mut self, alloc: Global) -> Result<Value<'a>, AllocError>
        ensures value { IfOk result (λ value. value ≡ Map (length self.old.maps)) }
        ensures store { OnOk result (self.new ≡ with_map self.old) }
    {
        let address = self.maps.len();
        self.maps.push(Entries::new(alloc))?;
        Ok(Value::Map(address))
    }

    /// How many keys the map at an address has.
    pub fn map_size(&self, map: usize) -> u64
        ensures { result ≡ length (entries self.now map) }
    {
        match self.maps.get(map) {
            Some(made) => made.len() as u64,
            None => 0,
        }
    }

    /// The value of a key of the map at an address; undefined where the key is absent.
    pub fn read_entry(&self, map: usize, key: &Value<'a>) -> Value<'a>
        ensures { result ≡ read_entry self.now map key.now }
    {
        match self.maps.get(map) {
            Some(made) => match made.get(key) {
                Some(value) => value.share(),
                None => Value::Undefined,
            },
            None => Value::Undefined,
        }
    }

    /// Whether the map at an address has a key.
    pub fn has_entry(&self, map: usize, key: &Value<'a>) -> bool
        ensures { result ≡ has_entry self.now map key.now }
    {
        match self.maps.get(map) {
            Some(made) => made.get(key).is_some(),
            None => false,
        }
    }

    /// Gives a key of the map at an address a value.
    pub fn write_entry(
        &mut self,
        alloc: Global,
        map: usize,
        key: Value<'a>,
        value: Value<'a>,
    ) -> Result<(), AllocError>
        ensures { OnOk result (self.new ≡ write_entry self.old map key.entry value.entry) }
    {
        changes::put_entry_at(&mut self.maps, alloc, map, key, value)
    }

    /// Takes a key off the map at an address, and tells whether it was there.
    pub fn remove_key(&mut self, map: usize, key: &Value<'a>) -> bool
        ensures result { result ≡ has_entry self.old map key.now }
        ensures store { self.new ≡ remove_key self.old map key.now }
    {
        changes::remove_entry_at(&mut self.maps, map, key).is_some()
    }

    /// The keys of the map at an address, in the order in which they came.
    pub fn map_keys(&self, alloc: Global, map: usize) -> Result<Slots<Value<'a>>, AllocError>
        ensures { IfOk result (λ list. list ≡ keys self.now map) }
    {
        match self.maps.get(map) {
            Some(made) => made.keys(alloc),
            None => Ok(Slots::new(alloc)),
        }
    }

    /// A new function.
    pub fn make_function(&mut self, made: Closure<'a>) -> Result<Value<'a>, AllocError>
        ensures value { IfOk result (λ value. value ≡ Function (length self.old.functions)) }
        ensures store { OnOk result (self.new ≡ with_function self.old made.entry) }
    {
        let address = self.functions.len();
        self.functions.push(made)?;
        Ok(Value::Function(address))
    }

    /// The function at an address.
    pub fn closure(&self, function: usize) -> Option<&Closure<'a>>
        ensures { option_copied result ≡ closure self.now function }
    {
        self.functions.get(function)
    }

    /// Enters a block, a call or a catch with the names that it declares, and gives the scopes around what then runs.
    pub fn enter(
        &mut self,
        arena: &'a Bump,
        env: &Env<'a>,
        scope: Scope<'a>,
    ) -> Result<Env<'a>, AllocError>
        ensures env { IfOk result (λ env'. env' ≡ inside self.old env.now scope.entry) }
        ensures store { OnOk result (self.new ≡ enter self.old scope.entry) }
    {
        if scope.len() == 0 {
            return Ok(env.share());
        }
        let inner = env.with(arena, self.scopes.len())?;
        self.scopes.push(scope)?;
        Ok(inner)
    }

    /// The value of a name, looked for outwards; nothing where the name is absent or its `let` has not run.
    pub fn look_up(&self, env: &Env<'a>, name: &Name<'a>) -> Option<Value<'a>>
        ensures { result ≡ look_up self.now env.now name.now }
    {
        scopes::look_up_in(self, env.scopes(), name)
    }

    /// Gives a name another value, and tells whether it did; where the name is absent or its `let` has not run, nothing
    /// changes.
    pub fn assign(
        &mut self,
        env: &Env<'a>,
        name: &Name<'a>,
        value: Value<'a>,
    ) -> Result<bool, AllocError>
        ensures result { IfOk result (λ done. done ≡ is_some (assign self.old env.now name.now value.entry)) }
        ensures store { OnOk result (self.new ≡ unwrap_or (assign self.old env.now name.now value.entry) self.old) }
    {
        scopes::assign_in(self, env.scopes(), name, value)
    }

    /// Gives a name of the innermost scope the value of its `let`, or of its `var`.
    pub fn initialise(
        &mut self,
        env: &Env<'a>,
        name: &Name<'a>,
        value: Value<'a>,
    ) -> Result<(), AllocError>
        ensures { OnOk result (self.new ≡ initialise self.old env.now name.now value.entry) }
    {
        match env.scopes().first() {
            Some(innermost) => changes::put_at(
                &mut self.scopes,
                *innermost,
                name.share(),
                Some(value),
            ),
            None => self.top.put(name.share(), Some(value)),
        }
    }

    /// Declares a name of the top scope; with no value, its `let` has not run.
    pub fn declare(&mut self, name: Name<'a>, bound: Option<Value<'a>>) -> Result<(), AllocError>
        ensures { OnOk result (self.new ≡ set_top self.old name.entry bound.entry) }
    {
        self.top.put(name, bound)
    }

    /// Whether a file that ran declared a name at its top.
    pub fn is_declared(&self, name: &Name<'a>) -> bool
        ensures { result ≡ is_declared self.now name.now }
    {
        self.top.get(name).is_some()
    }
}
