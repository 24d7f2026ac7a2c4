//! Whether the entry has a function `main` that can be called.
ghost use Rattle.std.specs.Prelude.{◌≡◌, flat_map};
ghost use Rattle.std.specs.List.{list_any};
ghost use Rattle.dart_program.specs.Declares.{declared_by, AFunction};
ghost use Rattle.library_scopes.specs.Rules as spec;
ghost use Rattle.library_scopes.specs.Least.{least};

use dart_grammar::declarations::{Declaration, FileTree, Function};

const MAIN: [u16; 4] = [109, 97, 105, 110];

fn is_main(function: &Function) -> bool
    ensures { result ≡ spec.is_main (AFunction function.now) }
{
    function.name.text.as_slice() == MAIN.as_slice()
}

fn is_long_main(function: &Function) -> bool
    ensures { result ≡ spec.is_long_main (AFunction function.now) }
{
    is_main(function) && function.parameters.required.len() > 1
}

fn declares_main(declaration: &Declaration) -> bool
    ensures { result ≡ list_any spec.is_main (declared_by declaration.now) }
{
    match declaration {
        Declaration::Class(_) => false,
        Declaration::Alias(_) => false,
        Declaration::Function(function) => is_main(function),
        Declaration::Getter(_) => false,
        Declaration::Setter(_) => false,
        Declaration::Variables(_, _) => false,
    }
}

fn declares_long_main(declaration: &Declaration) -> bool
    ensures { result ≡ list_any spec.is_long_main (declared_by declaration.now) }
{
    match declaration {
        Declaration::Class(_) => false,
        Declaration::Alias(_) => false,
        Declaration::Function(function) => is_long_main(function),
        Declaration::Getter(_) => false,
        Declaration::Setter(_) => false,
        Declaration::Variables(_, _) => false,
    }
}

fn has_main(declarations: &[Declaration]) -> bool
    ensures { result ≡ list_any spec.is_main (flat_map declared_by declarations.now) }
{
    for declaration in declarations {
        if declares_main(declaration) {
            return true;
        }
    }
    false
}

fn has_long_main(declarations: &[Declaration]) -> bool
    ensures { result ≡ list_any spec.is_long_main (flat_map declared_by declarations.now) }
{
    for declaration in declarations {
        if declares_long_main(declaration) {
            return true;
        }
    }
    false
}

fn lacks_main(file: &FileTree) -> bool
    ensures { result ≡ spec.lacks_main file.now }
{
    let declarations = file.declarations.as_slice();
    !has_main(declarations) || has_long_main(declarations)
}

/// The beginning of the entry, where it has no function `main` or one with more than one required parameter.
#[tactic(auto, unfolding(crate::specs::Rules::entry_places))]
pub fn entry_fault(number: u32, file: &FileTree) -> Option<u32>
    ensures { result ≡ least (spec.entry_places number file.now) }
{
    if number == 1 && lacks_main(file) {
        Some(0)
    } else {
        None
    }
}
