//! Where a deferred prefix is used by another import.
ghost use Rattle.std.specs.Prelude.{◌≡◌, OnOk, IfOk};
ghost use Rattle.library_scopes.specs.Rules as spec;
ghost use Rattle.library_scopes.specs.Least.{least};

use crate::least::lesser;
use crate::names::NameSet;
use dart_grammar::declarations::{FileTree, Import};
use dart_grammar::trees::Name;
use std::alloc::{AllocError, Global};

/// The prefixes of the imports so far, and those of the deferred ones.
#[derive(Drop)]
pub struct Used {
    pub all: NameSet,
    pub deferred: NameSet,
}

impl Used {
    fn is_reused(&self, is_deferred: bool, name: &Name) -> bool
        ensures { result ≡ spec.is_reused self.now is_deferred name.now }
    {
        let text = name.text.as_slice();
        self.deferred.has(text) || is_deferred && self.all.has(text)
    }

    fn put(&mut self, is_deferred: bool, name: &Name) -> Result<(), AllocError>
        ensures { OnOk result (self.new ≡ spec.with_use self.old is_deferred name.now) }
    {
        let text = name.text.as_slice();
        self.all.put(text)?;
        if is_deferred {
            self.deferred.put(text)?;
        }
        Ok(())
    }
}

#[tactic(auto, using(crate::proofs::Steps::least_placed))]
fn reuse(alloc: Global, imports: &[Import]) -> Result<Option<u32>, AllocError>
    ensures { IfOk result (λ place. place ≡ least (spec.reuses spec.none_used imports.now)) }
{
    let mut used = Used {
        all: NameSet::new(alloc),
        deferred: NameSet::new(alloc),
    };
    let mut first = None;
    for import in imports {
        if let Some(name) = &import.prefix {
            if used.is_reused(import.is_deferred, name) {
                first = lesser(first, import.span.from);
            }
            used.put(import.is_deferred, name)?;
        }
    }
    Ok(first)
}

/// The first import that has the prefix of an earlier one, where either is deferred.
#[tactic(auto, unfolding(crate::specs::Rules::reused_places))]
pub fn reused(alloc: Global, file: &FileTree) -> Result<Option<u32>, AllocError>
    ensures { IfOk result (λ place. place ≡ least (spec.reused_places file.now)) }
{
    reuse(alloc, file.imports.as_slice())
}
