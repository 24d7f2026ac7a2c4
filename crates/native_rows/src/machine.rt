//! The calls of natives and of the store.

use crate::arguments::Arguments;
use crate::functions::{function_at, literal, method};
use crate::values::{shown, shown_text};
use crate::{events, objects};
use anyhow::{Context, Result, bail};
use bumpalo::Bump;
use dart_store::natives::NATIVES;
use dart_store::{Applied, Functions, Native, Store, Thrower, apply_native, printed};
use std::alloc::{AllocError, Global};
use store_lists::{SharedText, Slots};

/// A store and the function values of a run, and where they are made.
#[derive(Drop)]
pub struct Machine<'a> {
    alloc: Global,
    arena: &'a Bump,
    store: Store<'a>,
    functions: Functions<'a, u32>,
}

fn thrower_name(thrower: Thrower) -> &'static str {
    match thrower {
        Thrower::Argument => "argument",
        Thrower::Range => "range",
        Thrower::Divide => "divide",
    }
}

fn applied_text(alloc: Global, applied: &Applied) -> Result<String, AllocError> {
    match applied {
        Applied::Gives(value) => shown(alloc, value),
        Applied::Throws(thrower) => format!(in alloc; "throws {}", thrower_name(*thrower)),
        Applied::Leaves => format!(in alloc; "leaves"),
    }
}

// The name of the native at this place of the table.
fn native_at(args: &Arguments) -> Result<String> {
    let native = NATIVES
        .get(args.number(0)? as usize)
        .context("there is no such native")?;
    Ok(String::from_str(args.alloc, native.name())?)
}

// Whether a native has the name.
fn is_native(args: &Arguments) -> Result<String> {
    let found = Native::of_name(args.word(0)?).is_some();
    Ok(format!(in args.alloc; "{found}")?)
}

impl<'a> Machine<'a> {
    /// An empty store: the names of the classes by their numbers, and the order in which loads complete.
    pub fn new(
        alloc: Global,
        arena: &'a Bump,
        names: Slots<SharedText<'a>>,
        order: &'a [u32],
    ) -> Machine<'a> {
        Machine {
            alloc,
            arena,
            store: Store::new(alloc, names, order),
            functions: Slots::new(alloc),
        }
    }

    // The answer of a native, behind what it prints.
    fn native(&mut self, native: Native, args: &Arguments<'a, '_>) -> Result<String> {
        let values = args.values()?;
        let args = values.as_slice();
        let applied = apply_native(self.alloc, self.arena, &mut self.store, native, args)?;
        let answer = applied_text(self.alloc, &applied)?;
        match printed(native, args) {
            Some(text) => {
                let text = shown_text(self.alloc, &text)?;
                Ok(format!(in self.alloc; "prints {text}, {answer}")?)
            }
            None => Ok(answer),
        }
    }

    fn other(&mut self, name: &str, args: &Arguments<'a, '_>) -> Result<String> {
        let store = &mut self.store;
        match name {
            "native" => native_at(args),
            "isNative" => is_native(args),
            "list" => objects::make_list(store, args),
            "items" => objects::items(store, args),
            "makeObject" => objects::make_object(store, args),
            "classOf" => objects::class_of(store, args),
            "readField" => objects::read_field(store, args),
            "writeField" => objects::write_field(store, args),
            "makeCell" => objects::make_cell(store, args),
            "readCell" => objects::read_cell(store, args),
            "writeCell" => objects::write_cell(store, args),
            "state" => objects::state(store, args),
            "beginStatic" => objects::begin_static(store, args),
            "writeStatic" => objects::write_static(store, args),
            "setReadied" => events::set_readied(store, args),
            "takeReady" => events::take_ready(store, args),
            "ask" => events::ask(store, args),
            "complete" => events::complete(store, args),
            "isLoaded" => events::is_loaded(store, args),
            "makeLiteral" => literal(&mut self.functions, args),
            "makeMethod" => method(&mut self.functions, args),
            "function" => function_at(&self.functions, args),
            _ => bail!("no call has this name"),
        }
    }

    /// The answer of the call on a line: a name, and words behind it.
    pub fn answer(&mut self, line: &str) -> Result<String> {
        let words: Vec<&str> = line.split(' ').collect(self.alloc)?;
        let (name, words) = words.as_slice().split_first().context("a line is a call")?;
        let args = Arguments {
            alloc: self.alloc,
            arena: self.arena,
            words,
        };
        match Native::of_name(*name) {
            Some(native) => self.native(native, &args),
            None => self.other(*name, &args),
        }
    }
}
