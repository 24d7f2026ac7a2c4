//! The rules that a program must keep, and how one is refused.
ghost use Rattle.std.specs.Prelude.{◌≡◌};
ghost use Rattle.dart_syntax.specs.Rules.{name_of};

/// A rule. A program that breaks one is refused.
#[derive(Clone, Copy, Debug, PartialEq, Eq)]
pub enum Rule {
    /// A file is not there, or `..` has nothing to remove.
    U1,
    /// There are more than 256 files besides the prelude.
    N1,
    /// A file has more than 1,048,576 bytes.
    N2,
    /// The files so far, besides the prelude, have more than 4,194,304 bytes.
    N3,
    /// The bytes are not UTF-8.
    S1,
    /// A character begins no token.
    S2,
    /// A text is not closed on its line.
    S3,
    /// A comment is not closed.
    S4,
    /// A `\x`, `\u` or `$` in a text is bad.
    S5,
    /// A whole number is above 9007199254740991.
    S6,
    /// A literal that the profile leaves out: a double, or text in three quotes.
    S7,
    /// A token's load is above 200.
    G2,
    /// The tokens are not derivable.
    G1,
    /// A library or a class declares a name twice, or a prefix has the name of a declaration.
    L1,
    /// A deferred prefix is used by another import.
    L2,
    /// The entry has no function `main`, or one with more than one required parameter.
    L3,
    /// A used name comes from two imports as two declarations.
    L4,
    /// A supertype names no class.
    C1,
    /// A class is its own superclass, mixin or interface through some steps.
    C2,
    /// A mixin has a superclass, a constructor or `super`, or has a field and is mixed in twice.
    C3,
    /// A supertype is a class that cannot be one.
    C4,
    /// A supertype is named through a deferred prefix.
    C5,
    /// There are more than 4,096 kinds.
    N4,
    /// There are more than 65,536 shared slots.
    N5,
    /// There are more than 16,384 members.
    N6,
    /// There are more than 262,144 table entries.
    N7,
    /// There are more than 64 deferred imports.
    N8,
    /// A block or parameter list declares a name twice.
    B1,
    /// A local is named in its block before its declaration ends.
    B2,
    /// `break` stands in no loop of its function.
    B3,
    /// `continue` stands in no loop of its function.
    B4,
    /// `this` stands outside of instance members and constructor bodies.
    B5,
    /// `super` stands outside of instance members and constructor bodies.
    B6,
    /// A constructor returns a value.
    B7,
    /// `rethrow` stands in no catch of its function.
    B8,
    /// An initialiser or `this.x` sets no field of its class, or one that is set already.
    B9,
    /// A super call is not the last initialiser, or not the only one.
    B10,
    /// The superclass has no constructor that a super call can mean.
    B11,
    /// An operator has a wrong number of parameters, or a class declares a member that it may not.
    B12,
    /// A prefix, a class or a type parameter stands where it may not, or `loadLibrary` or `call` is not called.
    B13,
    /// There are more than 255 parameters or arguments, or a default is no constant.
    B14,
}

/// The first broken rule of a program, and where it is broken: the number of the file, and the offset there in bytes.
#[derive(Clone, Copy, Debug, PartialEq, Eq)]
pub struct Refusal {
    pub rule: Rule,
    pub file: u32,
    pub at: u32,
}

impl Rule {
    /// The name by which a refusal says the rule.
    pub fn name(self) -> &'static str
        ensures { result.now ≡ name_of self }
    {
        match self {
            Rule::U1 => "U1",
            Rule::N1 => "N1",
            Rule::N2 => "N2",
            Rule::N3 => "N3",
            Rule::S1 => "S1",
            Rule::S2 => "S2",
            Rule::S3 => "S3",
            Rule::S4 => "S4",
            Rule::S5 => "S5",
            Rule::S6 => "S6",
            Rule::S7 => "S7",
            Rule::G2 => "G2",
            Rule::G1 => "G1",
            Rule::L1 => "L1",
            Rule::L2 => "L2",
            Rule::L3 => "L3",
            Rule::L4 => "L4",
            Rule::C1 => "C1",
            Rule::C2 => "C2",
            Rule::C3 => "C3",
            Rule::C4 => "C4",
            Rule::C5 => "C5",
            Rule::N4 => "N4",
            Rule::N5 => "N5",
            Rule::N6 => "N6",
            Rule::N7 => "N7",
            Rule::N8 => "N8",
            Rule::B1 => "B1",
            Rule::B2 => "B2",
            Rule::B3 => "B3",
            Rule::B4 => "B4",
            Rule::B5 => "B5",
            Rule::B6 => "B6",
            Rule::B7 => "B7",
            Rule::B8 => "B8",
            Rule::B9 => "B9",
            Rule::B10 => "B10",
            Rule::B11 => "B11",
            Rule::B12 => "B12",
            Rule::B13 => "B13",
            Rule::B14 => "B14",
        }
    }
}
