//! What the prelude's bodies can do that the language can't: one native for each name behind `native`.
ghost use Rattle.std.specs.Prelude.{◌≡◌, Some, IfSome};
ghost use Rattle.dart_store.specs.Natives.{name_of, native_of};

/// A native. The first value is the receiver, or the argument of `print` and `soon`.
#[derive(Clone, Copy, Debug, PartialEq, Eq)]
pub enum Native {
    /// Prints a text; gives null.
    Print,
    /// Makes a function a ready callback; gives null.
    Soon,
    /// The text of an object: `Instance of 'C'`.
    ObjectText,
    /// The sum.
    IntAdd,
    /// The difference.
    IntSub,
    /// The product.
    IntMul,
    /// The negative.
    IntNeg,
    /// The quotient, towards zero.
    IntDiv,
    /// The remainder, which is never negative.
    IntMod,
    /// Whether it is less.
    IntLess,
    /// Whether it is greater.
    IntMore,
    /// Whether it is less or equal.
    IntUpTo,
    /// Whether it is greater or equal.
    IntFrom,
    /// The decimal text.
    IntText,
    /// One text and then another.
    TextJoin,
    /// The number of units.
    TextLength,
    /// The unit at a place.
    TextUnit,
    /// The units from one place to another.
    TextPart,
    /// -1, 0 or 1, by the units.
    TextOrder,
    /// An empty list.
    ListNew,
    /// The number of items.
    ListLength,
    /// The item at a place.
    ListAt,
    /// Puts an item at a place; gives null.
    ListPut,
    /// Adds an item at the end; gives null.
    ListAdd,
    /// The last item, which is taken off.
    ListDrop,
    /// An empty map.
    MapNew,
    /// The number of keys.
    MapLength,
    /// The value of a key, or null.
    MapAt,
    /// Gives a key a value; gives null.
    MapPut,
    /// Whether a key is there.
    MapHas,
    /// The value of a key, or null; the key is gone.
    MapDrop,
    /// A new list of the keys.
    MapKeys,
}

/// All natives.
pub const NATIVES: [Native; 32] = [
    Native::Print,
    Native::Soon,
    Native::ObjectText,
    Native::IntAdd,
    Native::IntSub,
    Native::IntMul,
    Native::IntNeg,
    Native::IntDiv,
    Native::IntMod,
    Native::IntLess,
    Native::IntMore,
    Native::IntUpTo,
    Native::IntFrom,
    Native::IntText,
    Native::TextJoin,
    Native::TextLength,
    Native::TextUnit,
    Native::TextPart,
    Native::TextOrder,
    Native::ListNew,
    Native::ListLength,
    Native::ListAt,
    Native::ListPut,
    Native::ListAdd,
    Native::ListDrop,
    Native::MapNew,
    Native::MapLength,
    Native::MapAt,
    Native::MapPut,
    Native::MapHas,
    Native::MapDrop,
    Native::MapKeys,
];

impl Native {
    /// The name that stands behind `native`.
    pub fn name(self) -> &'static str
        ensures { result.now ≡ name_of self }
    {
        match self {
            Native::Print => "print",
            Native::Soon => "soon",
            Native::ObjectText => "objectText",
            Native::IntAdd => "intAdd",
            Native::IntSub => "intSub",
            Native::IntMul => "intMul",
            Native::IntNeg => "intNeg",
            Native::IntDiv => "intDiv",
            Native::IntMod => "intMod",
            Native::IntLess => "intLess",
            Native::IntMore => "intMore",
            Native::IntUpTo => "intUpTo",
            Native::IntFrom => "intFrom",
            Native::IntText => "intText",
            Native::TextJoin => "textJoin",
            Native::TextLength => "textLength",
            Native::TextUnit => "textUnit",
            Native::TextPart => "textPart",
            Native::TextOrder => "textOrder",
            Native::ListNew => "listNew",
            Native::ListLength => "listLength",
            Native::ListAt => "listAt",
            Native::ListPut => "listPut",
            Native::ListAdd => "listAdd",
            Native::ListDrop => "listDrop",
            Native::MapNew => "mapNew",
            Native::MapLength => "mapLength",
            Native::MapAt => "mapAt",
            Native::MapPut => "mapPut",
            Native::MapHas => "mapHas",
            Native::MapDrop => "mapDrop",
            Native::MapKeys => "mapKeys",
        }
    }

    /// The native of that name; none where no native has it.
    pub fn of_name(name: &str) -> Option<Native>
        ensures named { IfSome result (λ native. name_of native ≡ name.now) }
        ensures each { (native : Native) → name_of native ≡ name.now → result ≡ Some native }
    {
        find(name)
    }
}

fn find(name: &str) -> Option<Native>
    ensures { result ≡ native_of name.now }
{
    NATIVES.iter().copied().find(|native| native.name() == name)
}
