//! The names of files, in order and by name.
ghost use Rattle.std.specs.Prelude.{◌≡◌, IfOk};
ghost use Rattle.selectors.specs.Tables.{number_by};
ghost use Rattle.selectors.specs.Collecting as spec;

use crate::collecting::{Collector, is_public, number_behind};
use crate::numbers::Numbers;
use crate::selector::Selector;
use dart_program::SourceFile;
use dart_sites::visit_file;
use sqlite_items::Items;
use std::alloc::{AllocError, Global};

/// The selectors of files in order, with the numbers of public names, and for each file of those that it alone has.
#[derive(Drop)]
pub struct Tables {
    pub listed: Items<Selector>,
    pub public: Numbers,
    pub private: Items<Numbers>,
}

impl Tables {
    /// Those of no files.
    pub fn new(alloc: Global) -> Tables
        ensures { result ≡ spec.no_tables }
    {
        Tables {
            listed: Items::new(alloc),
            public: Numbers::new(alloc),
            private: Items::new(alloc),
        }
    }

    /// With one more file.
    pub fn with_file(self, alloc: Global, file: &SourceFile) -> Result<Tables, AllocError>
        ensures { IfOk result (λ tables. tables ≡ spec.with_file self file.now) }
    {
        let Tables {
            listed,
            public,
            mut private,
        } = self;
        let number = number_behind(private.len())?;
        let collector = Collector {
            file: number,
            listed,
            public,
            private: Numbers::new(alloc),
        };
        let collector = visit_file(alloc, &file.tree, collector)?;
        let Collector {
            listed,
            public,
            private: own,
            ..
        } = collector;
        private.push(own)?;
        Ok(Tables {
            listed,
            public,
            private,
        })
    }

    /// The number of a name as a file sees it.
    pub fn number(&self, file: u32, name: &[u16]) -> Option<u32>
        ensures { result ≡ number_by self.now file name.now }
    {
        if is_public(name) {
            self.public.find(name)
        } else {
            self.private.get(file as usize)?.find(name)
        }
    }
}
