//! The host: loads that are asked for, and files that have run.

ghost use Rattle.std.specs.Prelude.{◌≡◌};

use crate::value::Value;
use std::marker::Model;
use store_lists::{Order, Pairs, SharedText, Slots, Waiting};

/// The printed texts, each behind all before it.
pub type Printed<'a> = Slots<SharedText<'a>>;

/// A load that is asked for: the names of its files, what is called when it completes, and the file and the place of the
/// statement that asked.
#[derive(Drop)]
pub struct Load<'a> {
    names: Slots<SharedText<'a>>,
    done: Value<'a>,
    file: u32,
    at: u64,
}

impl<'a> Model for Load<'a> {
    ghost use Rattle.js_store.specs.Load.{Load};

    ghost Value = { Load };

    ghost view = { λ load. record { names = load.names; done = load.done; file = load.file; at = load.at } };
}

/// The loads that are asked for, the order in which they complete, and the files with whether each has run.
#[derive(Drop)]
pub struct Host<'a> {
    pub asked: Waiting<Load<'a>>,
    pub order: Order<'a>,
    pub files: Pairs<SharedText<'a>, bool>,
}

impl<'a> Load<'a> {
    /// A load of these parts.
    pub fn new(names: Slots<SharedText<'a>>, done: Value<'a>, file: u32, at: u64) -> Load<'a>
        ensures { result ≡ record { names = names.entry; done = done.entry; file = file; at = at } }
    {
        Load {
            names,
            done,
            file,
            at,
        }
    }

    /// The names of its files.
    pub fn names(&self) -> &[SharedText<'a>]
        ensures { result.now ≡ self.now.names }
    {
        self.names.as_slice()
    }

    /// What is called when it completes.
    pub fn done(&self) -> &Value<'a>
        ensures { result.now ≡ self.now.done }
    {
        &self.done
    }

    /// The number of the file of the statement that asked.
    pub fn file(&self) -> u32
        ensures { result ≡ self.now.file }
    {
        self.file
    }

    /// The place of the statement that asked.
    pub fn at(&self) -> u64
        ensures { result ≡ self.now.at }
    {
        self.at
    }
}
