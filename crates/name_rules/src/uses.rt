//! Where a site breaks the rule of names.
ghost use Rattle.std.specs.Prelude.{◌≡◌};
ghost use Rattle.std.specs.Bool.{then_some};
ghost use Rattle.library_scopes.specs.declared.named.Side.TheVariants as side_variants;
ghost use Rattle.library_scopes.specs.Uses as names_spec;
ghost use Rattle.name_meanings.specs.Meanings as meanings_spec;
ghost use Rattle.name_rules.specs.Uses as spec;

use dart_grammar::trees::Name;
use dart_sites::sites::{Receiver, Use};
use dart_sites::{Site, Surroundings};
use library_scopes::Named;
use library_scopes::named::Side;
use name_meanings::imports::behind_on;
use name_meanings::{Meaning, Meanings, NameMeaning};

// `call`
const CALL: [u16; 4] = [99, 97, 108, 108];

// `dynamic`
const DYNAMIC: [u16; 7] = [100, 121, 110, 97, 109, 105, 99];

// ---- a prefix that no dot stands behind; a class or a type parameter in the place of a value

fn is_misused(meaning: Meaning, how: Use) -> bool
    ensures { result ≡ spec.is_misused meaning how }
{
    match meaning {
        Meaning::Named(Named::Prefix(_)) => how != Use::ReadBeforeDot,
        Meaning::Named(Named::Class(_)) => how != Use::ReadBeforeDot && how != Use::Assigned,
        Meaning::TypeParameter => how != Use::Assigned,
        _ => false,
    }
}

fn is_misused_alone(meaning: &NameMeaning<'_, '_>, how: Use) -> bool
    ensures { result ≡ spec.is_misused_alone meaning.now how }
{
    match meaning {
        NameMeaning::Beyond(meaning) => is_misused(*meaning, how),
        NameMeaning::Local(_) => false,
    }
}

fn named_wrongly_at(
    meanings: &Meanings<'_>,
    file: u32,
    around: &Surroundings<'_, '_>,
    name: &Name,
    how: Use,
) -> Option<u32>
    ensures { result ≡ then_some (spec.is_misused_alone (meanings_spec.meaning meanings.now file around.now side_variants.Value name.now.text) how) name.now.span.from }
{
    let meaning = meanings.meaning(file, around, Side::Value, name.text.as_slice());
    is_misused_alone(&meaning, how).then_some(name.span.from)
}

fn selected_wrongly_at(
    meanings: &Meanings<'_>,
    file: u32,
    around: &Surroundings<'_, '_>,
    receiver: &Receiver<'_>,
    name: &Name,
    how: Use,
) -> Option<u32>
    ensures { result ≡ spec.selected_wrongly_at meanings.now file around.now receiver.now name.now how }
{
    match receiver {
        Receiver::Named(first) => {
            let text = name.text.as_slice();
            let meaning = meanings.selected(file, around, receiver, Side::Value, text);
            is_misused(meaning, how).then_some(first.get().span.from)
        }
        _ => None,
    }
}

/// The place where a site has a prefix that no dot stands behind, or a class or a type parameter in the place of a value.
pub fn misused_at(
    meanings: &Meanings<'_>,
    file: u32,
    around: &Surroundings<'_, '_>,
    site: &Site<'_>,
) -> Option<u32>
    ensures { result ≡ spec.misused_at meanings.now file around.now site.now }
{
    match site {
        Site::Named(name, how) => named_wrongly_at(meanings, file, around, name.get(), *how),
        Site::Selected(receiver, name, how) => {
            selected_wrongly_at(meanings, file, around, receiver, name.get(), *how)
        }
        _ => None,
    }
}

// ---- types behind `is`, `as` and `on`

fn is_class(named: Option<Named>) -> bool
    ensures { result ≡ spec.is_class named }
{
    matches!(named, Some(Named::Class(_)))
}

fn is_class_behind(meanings: &Meanings<'_>, name: &Name, named: Option<Named>) -> bool
    ensures { result ≡ spec.is_class_behind meanings.now name.now named }
{
    match named {
        Some(Named::Prefix(prefix)) => {
            let scopes = meanings.scopes();
            scopes.deferred(prefix).is_none()
                && is_class(behind_on(scopes, prefix, Side::Value, name.text.as_slice()))
        }
        _ => false,
    }
}

fn is_type(
    meanings: &Meanings<'_>,
    file: u32,
    around: &Surroundings<'_, '_>,
    names: &[Name],
) -> bool
    ensures { result ≡ spec.is_type meanings.now file around.now names.now }
{
    let Some((first, rest)) = names.split_first() else {
        return false;
    };
    let named = meanings.named_alone(file, around, first.text.as_slice());
    match rest.split_first() {
        None => is_class(named),
        Some((name, more)) => more.is_empty() && is_class_behind(meanings, name, named),
    }
}

fn is_dynamic(names: &[Name]) -> bool
    ensures { result ≡ names_spec.is_dynamic names.now }
{
    match names.split_first() {
        Some((name, rest)) => rest.is_empty() && DYNAMIC.as_slice() == name.text.as_slice(),
        None => false,
    }
}

fn start(names: &[Name]) -> Option<u32>
    ensures { result ≡ spec.start names.now }
{
    Some(names.first()?.span.from)
}

/// The place where a site tests a type that is no class and not `dynamic`, or that a deferred prefix stands before.
pub fn tested_at(
    meanings: &Meanings<'_>,
    file: u32,
    around: &Surroundings<'_, '_>,
    site: &Site<'_>,
) -> Option<u32>
    ensures { result ≡ spec.tested_at meanings.now file around.now site.now }
{
    match site {
        Site::TypeTested(names) => {
            let names = names.get();
            if is_dynamic(names) || is_type(meanings, file, around, names) {
                None
            } else {
                start(names)
            }
        }
        _ => None,
    }
}

// ---- `loadLibrary` and `.call`

fn is_only_called(
    meanings: &Meanings<'_>,
    file: u32,
    around: &Surroundings<'_, '_>,
    receiver: &Receiver<'_>,
    name: &[u16],
) -> bool
    ensures { result ≡ spec.is_only_called meanings.now file around.now receiver.now name.now }
{
    name == CALL.as_slice()
        || matches!(
            meanings.selected(file, around, receiver, Side::Value, name),
            Meaning::Load(_)
        )
}

fn is_read(how: Use) -> bool
    ensures { result ≡ spec.is_read how }
{
    match how {
        Use::Read => true,
        Use::ReadBeforeDot => true,
        Use::Changed => true,
        _ => false,
    }
}

/// The place where a site reads `loadLibrary` of a deferred prefix, or `.call`, without a call.
pub fn read_wrongly_at(
    meanings: &Meanings<'_>,
    file: u32,
    around: &Surroundings<'_, '_>,
    site: &Site<'_>,
) -> Option<u32>
    ensures { result ≡ spec.read_wrongly_at meanings.now file around.now site.now }
{
    match site {
        Site::Selected(receiver, name, how) => {
            let name = name.get();
            let text = name.text.as_slice();
            (is_read(*how) && is_only_called(meanings, file, around, receiver, text)).then_some(
                name.span.from,
            )
        }
        _ => None,
    }
}
