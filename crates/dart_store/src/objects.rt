//! Objects, variables and classes of the store. An address that leads to nothing is as one that leads to something empty.

ghost use Rattle.std.specs.Prelude.{◌≡◌, length, OnOk, IfOk};
ghost use Rattle.std.specs.Option.{option_copied};
ghost use Rattle.dart_store.specs.declared.value.Value.TheVariants as v;
ghost use Rattle.dart_store.specs.Store.{starts, with_object, class_of, class_name, read_field, write_field};
ghost use Rattle.dart_store.specs.Variables.{with_cell, read_cell, write_cell, state, begin_static, write_static};

use crate::store::{Static, Store};
use crate::value::Value;
use std::alloc::{AllocError, Global};
use store_lists::{Order, Pairs, Share, SharedText, Slots, Waiting, changes};

impl<'a> Share for Static<'a> {
    fn share(&self) -> Static<'a> {
        match self {
            Static::Waits => Static::Waits,
            Static::Runs => Static::Runs,
            Static::Has(value) => Static::Has(value.share()),
        }
    }
}

impl<'a> Store<'a> {
    /// The store that a run begins with: the names of the classes by their numbers, and the order in which loads complete.
    pub fn new(alloc: Global, names: Slots<SharedText<'a>>, order: &'a [u32]) -> Store<'a>
        ensures { result ≡ starts names.entry order.now }
    {
        Store {
            names,
            classes: Slots::new(alloc),
            fields: Slots::new(alloc),
            lists: Slots::new(alloc),
            maps: Slots::new(alloc),
            cells: Slots::new(alloc),
            statics: Pairs::new(alloc),
            ready: Waiting::new(alloc),
            readied: 0,
            asked: Waiting::new(alloc),
            order: Order::new(order),
            loaded: Pairs::new(alloc),
        }
    }

    /// A new object of a class, with all fields null.
    pub fn make_object(&mut self, alloc: Global, class: u32) -> Result<Value<'a>, AllocError>
        ensures value { IfOk result (λ value. value ≡ v.Object (length self.old.classes)) }
        ensures store { OnOk result (self.new ≡ with_object self.old class) }
    {
        let address = self.classes.len();
        self.classes.push(class)?;
        self.fields.push(Pairs::new(alloc))?;
        Ok(Value::Object(address))
    }

    /// The number of a value's class. Those of the prelude are numbered in its order, from 0 on.
    pub fn class_of(&self, value: &Value<'a>) -> u32
        ensures { result ≡ class_of self.now value.now }
    {
        match value {
            Value::Null => 1,
            Value::Bool(_) => 2,
            Value::Int(_) => 4,
            Value::Text(_) => 5,
            Value::Object(a) => self.object_class(*a),
            Value::List(_) => 6,
            Value::Map(_) => 8,
            Value::Function(_) => 9,
            Value::Static(_) => 9,
        }
    }

    fn object_class(&self, object: usize) -> u32
        ensures { result ≡ class_of self.now (v.Object object) }
    {
        match self.classes.get(object) {
            Some(class) => *class,
            None => 0,
        }
    }

    /// The name of a class.
    pub fn class_name(&self, class: u32) -> SharedText<'a>
        ensures { result ≡ class_name self.now class }
    {
        match self.names.get(class as usize) {
            Some(name) => name.share(),
            None => SharedText::new(&[]),
        }
    }

    /// What the object at an address has in a field.
    pub fn read_field(&self, object: usize, field: u32) -> Value<'a>
        ensures { result ≡ read_field self.now object field }
    {
        match self.fields.get(object) {
            Some(fields) => match fields.get(&field) {
                Some(value) => value.share(),
                None => Value::Null,
            },
            None => Value::Null,
        }
    }

    /// Puts a value in a field of the object at an address.
    pub fn write_field(
        &mut self,
        object: usize,
        field: u32,
        value: Value<'a>,
    ) -> Result<(), AllocError>
        ensures { OnOk result (self.new ≡ write_field self.old object field value.entry) }
    {
        changes::put_at(&mut self.fields, object, field, value)
    }

    /// A new cell with a value, and its address.
    pub fn make_cell(&mut self, value: Value<'a>) -> Result<usize, AllocError>
        ensures address { IfOk result (λ address. address ≡ length self.old.cells) }
        ensures store { OnOk result (self.new ≡ with_cell self.old value.entry) }
    {
        let address = self.cells.len();
        self.cells.push(value)?;
        Ok(address)
    }

    /// The value in a cell.
    pub fn read_cell(&self, cell: usize) -> Value<'a>
        ensures { result ≡ read_cell self.now cell }
    {
        match self.cells.get(cell) {
            Some(value) => value.share(),
            None => Value::Null,
        }
    }

    /// Puts a value in a cell.
    pub fn write_cell(&mut self, cell: usize, value: Value<'a>)
        ensures { self.new ≡ write_cell self.old cell value.entry }
    {
        self.cells.put_at(cell, value);
    }

    /// The state of a top-level or static variable.
    pub fn state(&self, member: u32) -> Static<'a>
        ensures { result ≡ state self.now member }
    {
        match self.statics.get(&member) {
            Some(now) => now.share(),
            None => Static::Waits,
        }
    }

    /// Notes that the initialiser of a variable runs.
    pub fn begin_static(&mut self, member: u32) -> Result<(), AllocError>
        ensures { OnOk result (self.new ≡ begin_static self.old member) }
    {
        self.statics.put(member, Static::Runs)
    }

    /// Gives a variable a value, which initialises it.
    pub fn write_static(&mut self, member: u32, value: Value<'a>) -> Result<(), AllocError>
        ensures { OnOk result (self.new ≡ write_static self.old member value.entry) }
    {
        self.statics.put(member, Static::Has(value))
    }
}
