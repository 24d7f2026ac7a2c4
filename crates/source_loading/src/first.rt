//! File 0.
ghost use Rattle.std.specs.Prelude.{◌≡◌, map, IfOk};
ghost use Rattle.dart_grammar.specs.declared.declarations.Import.{Import};
ghost use Rattle.source_loading.specs.First.{PreludeTells};

use crate::programs::LoadFault;
use crate::texts::{TextFault, tree_of};
use code_units::{NumberList, Text};
use core_prelude::prelude;
use dart_grammar::declarations::Import;
use dart_program::SourceFile;
use dart_syntax::Refusal;
use std::alloc::{AllocError, Global};

// The links of the imports of file 0, which would mean itself.
fn own_links(alloc: Global, imports: &[Import]) -> Result<NumberList, AllocError>
    ensures { IfOk result (λ links. links ≡ map (λ (i : Import). 0) imports.now) }
{
    let mut links = NumberList::new(alloc);
    for _import in imports {
        links.push(0)?;
    }
    Ok(links)
}

/// File 0, which is looked at as any other.
pub fn prelude_file(alloc: Global) -> Result<SourceFile, LoadFault>
    ensures { PreludeTells result }
{
    let name = Text::from_str(alloc, "dart:core")?;
    match tree_of(alloc, 0, prelude().as_bytes()) {
        Ok(tree) => {
            let links = own_links(alloc, tree.imports.as_slice())?;
            Ok(SourceFile { name, tree, links })
        }
        Err(TextFault::Broken { rule, at }) => Err(LoadFault::Refused {
            refusal: Refusal { rule, file: 0, at },
            name,
        }),
        Err(TextFault::Memory) => Err(LoadFault::Memory),
    }
}
