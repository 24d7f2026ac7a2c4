//! The natives of the library, and what of it every program holds.
ghost use Rattle.std.specs.Prelude.{◌≡◌, Some, IfSome, map};
ghost use Rattle.dart_store.specs.declared.natives.Native as native;
ghost use Rattle.dart_store.specs.Natives.{name_of};
ghost use Rattle.core_prelude.specs.Roots as roots;

use dart_store::Native;

/// The members of the library that are live in every program: those that throw what the language's own rules throw, and
/// the one that ends a load.
const ROOT_MEMBERS: [&str; 10] = [
    "_argument",
    "_range",
    "_divide",
    "_noSuch",
    "_cast",
    "_cyclic",
    "_notLoaded",
    "_abstract",
    "_nullThrown",
    "_loaded",
];

/// The classes of the library that every program has: those of values that come from no `new`, and those that the root
/// members throw.
const ROOT_CLASSES: [&str; 17] = [
    "Object",
    "Null",
    "bool",
    "int",
    "String",
    "List",
    "Map",
    "Function",
    "ArgumentError",
    "RangeError",
    "IntegerDivisionByZeroException",
    "NoSuchMethodError",
    "CastError",
    "CyclicInitializationError",
    "DeferredNotLoadedError",
    "AbstractClassInstantiationError",
    "NullThrownError",
];

/// The native of that name; none where no native has it.
pub fn native_of(name: &str) -> Option<Native>
    ensures named { IfSome result (λ native. name_of native ≡ name.now) }
    ensures each { (native : native.Native) → name_of native ≡ name.now → result ≡ Some native }
{
    Native::of_name(name)
}

/// The names of the members of the library that are live in every program.
pub fn root_members() -> &'static [&'static str]
    ensures { map (λ name. name.now) result.now ≡ roots.members }
{
    &ROOT_MEMBERS
}

/// The names of the classes of the library that every program has.
pub fn root_classes() -> &'static [&'static str]
    ensures { map (λ name. name.now) result.now ≡ roots.classes }
{
    &ROOT_CLASSES
}
