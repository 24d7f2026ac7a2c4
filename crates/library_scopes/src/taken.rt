//! Names that are taken by declarations.
ghost use Rattle.std.specs.Prelude.{◌≡◌, OnOk};
ghost use Rattle.library_scopes.specs.Taken as spec;

use crate::names::NameSet;
use std::alloc::{AllocError, Global};

/// What takes a name.
#[derive(Clone, Copy, Debug, PartialEq, Eq)]
pub enum Claimant {
    Getter,
    Setter,
    Constructor,
    /// A class, a function, a method, an operator, a variable, a field or a prefix.
    Other,
}

/// The names that are taken: those that are read, those that are set, and those by which objects are made.
#[derive(Drop)]
pub struct Taken {
    pub reads: NameSet,
    pub sets: NameSet,
    pub makes: NameSet,
}

impl Claimant {
    fn is_read(self) -> bool
        ensures { result ≡ spec.is_read self }
    {
        matches!(self, Claimant::Getter | Claimant::Other)
    }

    fn is_set(self) -> bool
        ensures { result ≡ spec.is_set self }
    {
        matches!(self, Claimant::Setter | Claimant::Other)
    }

    fn is_made(self) -> bool
        ensures { result ≡ spec.is_made self }
    {
        matches!(self, Claimant::Constructor)
    }
}

fn put_if(flag: bool, names: &mut NameSet, name: &[u16]) -> Result<(), AllocError>
    ensures { OnOk result (names.new ≡ spec.with_if flag name.now names.old) }
{
    if flag { names.put(name) } else { Ok(()) }
}

impl Taken {
    /// No name.
    pub fn new(alloc: Global) -> Taken
        ensures { result ≡ spec.none_taken }
    {
        Taken {
            reads: NameSet::new(alloc),
            sets: NameSet::new(alloc),
            makes: NameSet::new(alloc),
        }
    }

    /// Whether this name is taken for what takes it.
    pub fn has(&self, name: &[u16], by_what: Claimant) -> bool
        ensures { result ≡ spec.is_taken self.now name.now by_what }
    {
        by_what.is_read() && self.reads.has(name)
            || by_what.is_set() && self.sets.has(name)
            || by_what.is_made() && self.makes.has(name)
    }

    /// Takes this name.
    pub fn put(&mut self, name: &[u16], by_what: Claimant) -> Result<(), AllocError>
        ensures { OnOk result (self.new ≡ spec.with_taken self.old name.now by_what) }
    {
        put_if(by_what.is_read(), &mut self.reads, name)?;
        put_if(by_what.is_set(), &mut self.sets, name)?;
        put_if(by_what.is_made(), &mut self.makes, name)
    }
}
