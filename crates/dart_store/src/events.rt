//! Ready callbacks and loads of the store.

ghost use Rattle.std.specs.Prelude.{◌≡◌, ◌<◌, ◌-◌, ◌^◌, OnOk, IfOk};
ghost use Rattle.dart_store.specs.Events.{make_ready, next_ready, take_ready, ask, turn, next_load, is_loaded, marked, complete};

use crate::store::{Asked, Store};
use crate::value::Value;
use std::alloc::AllocError;
use store_lists::Pairs;

impl<'a> Store<'a> {
    /// Makes a callback ready, behind all that are.
    pub fn make_ready(&mut self, callback: Value<'a>) -> Result<(), AllocError>
        requires { self.old.readied < 2 ^ 64 - 1 }
        ensures { OnOk result (self.new ≡ make_ready self.old callback.entry) }
    {
        self.ready.push(callback)?;
        self.readied += 1;
        Ok(())
    }

    /// Takes the callback that is ready first, where one is.
    pub fn take_ready(&mut self) -> Option<Value<'a>>
        ensures callback { result ≡ next_ready self.old }
        ensures store { self.new ≡ take_ready self.old }
    {
        self.ready.take_first()
    }

    /// Asks for a load.
    pub fn ask(&mut self, load: Asked<'a>) -> Result<(), AllocError>
        ensures { OnOk result (self.new ≡ ask self.old load.entry) }
    {
        self.asked.push(load)
    }

    /// Completes the load whose turn it is, where one is asked for.
    pub fn complete(&mut self) -> Result<Option<Asked<'a>>, AllocError>
        ensures load { IfOk result (λ load. load ≡ next_load self.old) }
        ensures store { OnOk result (self.new ≡ complete self.old) }
    {
        let count = self.asked.len();
        if count == 0 {
            return Ok(None);
        }
        let number = self.order.take() as usize;
        let load = self.asked.take(number % count);
        mark(&mut self.loaded, &load)?;
        Ok(load)
    }

    /// Whether a load through an import has completed.
    pub fn is_loaded(&self, import: u32) -> bool
        ensures { result ≡ is_loaded self.now import }
    {
        match self.loaded.get(&import) {
            Some(done) => *done,
            None => false,
        }
    }
}

/// Notes that a load through an import has completed.
fn mark(loaded: &mut Pairs<u32, bool>, load: &Option<Asked>) -> Result<(), AllocError>
    ensures { OnOk result (loaded.new ≡ marked loaded.old load.now) }
{
    match load {
        Some(load) => loaded.put(load.import, true),
        None => Ok(()),
    }
}
