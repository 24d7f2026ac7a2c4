//! The calls of the host.

ghost use Rattle.std.specs.Prelude.{◌≡◌, OnOk};
ghost use Rattle.js_store.specs.Host.{starts, ask, next_load, complete, file_number, has_run, note_run};

use crate::host::{Host, Load};
use std::alloc::{AllocError, Global};
use store_lists::{Order, Pairs, SharedText, Waiting};

impl<'a> Host<'a> {
    /// No load is asked for, and these are the files, of which none has run.
    pub fn new(alloc: Global, files: Pairs<SharedText<'a>, bool>, order: &'a [u32]) -> Host<'a>
        ensures { result ≡ starts files.entry order.now }
    {
        Host {
            asked: Waiting::new(alloc),
            order: Order::new(order),
            files,
        }
    }

    /// Asks for a load.
    pub fn ask(&mut self, load: Load<'a>) -> Result<(), AllocError>
        ensures { OnOk result (self.new ≡ ask self.old load.entry) }
    {
        self.asked.push(load)
    }

    /// Takes the load that completes next, where one is asked for.
    pub fn complete(&mut self) -> Option<Load<'a>>
        ensures load { result ≡ next_load self.old }
        ensures host { self.new ≡ complete self.old }
    {
        let count = self.asked.len();
        if count == 0 {
            return None;
        }
        let number = self.order.take() as usize;
        self.asked.take(number % count)
    }

    /// The number of the file of a name.
    pub fn file_number(&self, name: &SharedText<'a>) -> Option<usize>
        ensures { result ≡ file_number self.now name.now }
    {
        self.files.position(name)
    }

    /// Whether the file of a name has run.
    pub fn has_run(&self, name: &SharedText<'a>) -> bool
        ensures { result ≡ has_run self.now name.now }
    {
        match self.files.get(name) {
            Some(done) => *done,
            None => false,
        }
    }

    /// Notes that the file of a name has run.
    pub fn note_run(&mut self, name: SharedText<'a>) -> Result<(), AllocError>
        ensures { OnOk result (self.new ≡ note_run self.old name.entry) }
    {
        self.files.put(name, true)
    }
}
