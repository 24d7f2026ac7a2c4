//! What classes may not declare.
ghost use Rattle.std.specs.Prelude.{◌≡◌};
ghost use Rattle.dart_program.specs.Declares.{parameter_count};
ghost use Rattle.library_scopes.specs.Names.{is_among};
ghost use Rattle.body_rules.specs.Declarations as spec;

use dart_grammar::declarations::{OperatorMethod, OperatorName};
use dart_grammar::trees::{Name, Parameters};
use dart_sites::{Site, Surroundings};

fn parameter_count(parameters: &Parameters) -> usize
    ensures { result ≡ parameter_count parameters.now }
{
    let required = parameters.required.as_slice();
    let optional = parameters.optional.as_slice();
    required.len() + optional.len()
}

fn fits(operator: OperatorName, count: usize) -> bool
    ensures { result ≡ spec.fits operator count }
{
    match operator {
        OperatorName::Minus => count <= 1,
        OperatorName::SetIndex => count == 2,
        _ => count == 1,
    }
}

fn miscounted(method: &OperatorMethod) -> Option<u32>
    ensures { result ≡ spec.miscounted method.now }
{
    let count = parameter_count(&method.parameters);
    (!fits(method.operator, count)).then_some(method.sign.from)
}

const HASH_CODE: [u16; 8] = [104, 97, 115, 104, 67, 111, 100, 101];

const NO_SUCH_METHOD: [u16; 12] = [110, 111, 83, 117, 99, 104, 77, 101, 116, 104, 111, 100];

const CALL: [u16; 4] = [99, 97, 108, 108];

fn is_kept(text: &[u16]) -> bool
    ensures { result ≡ is_among text.now spec.kept_names }
{
    text == HASH_CODE.as_slice() || text == NO_SUCH_METHOD.as_slice() || text == CALL.as_slice()
}

fn kept_name(name: &Name) -> Option<u32>
    ensures { result ≡ spec.kept_name name.now }
{
    is_kept(name.text.as_slice()).then_some(name.span.from)
}

fn wrong_declaration(site: &Site<'_>) -> Option<u32>
    ensures { result ≡ spec.wrong_declaration site.now }
{
    match site {
        Site::Function(function) => kept_name(&function.get().name),
        Site::Getter(getter) => kept_name(&getter.get().name),
        Site::Setter(setter) => kept_name(&setter.get().name),
        Site::Variable(_, name) => kept_name(name.get()),
        Site::Operator(method) => miscounted(method.get()),
        _ => None,
    }
}

/// In a class, an operator with another number of parameters than it takes, or a name that no class may declare.
pub fn declared_at(around: &Surroundings<'_, '_>, site: &Site<'_>) -> Option<u32>
    ensures { result ≡ spec.declared_at around.now site.now }
{
    match around.class.get() {
        Some(_) => wrong_declaration(site),
        None => None,
    }
}
