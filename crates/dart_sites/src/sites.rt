//! What stands at a place where a rule can break or a name is looked up.

use crate::lent::{Lent, LentSlice};
use dart_grammar::declarations::{
    Alias, Class, Constructor, Function, Getter, OperatorMethod, OperatorName, Setter,
};
use dart_grammar::trees::{Name, Span};

/// What is done with what a name stands for.
#[derive(Clone, Copy, Debug, PartialEq, Eq)]
pub enum Use {
    /// Its value is taken.
    Read,
    /// Its value is taken, and `.name` stands behind it.
    ReadBeforeDot,
    /// It is called with so many arguments.
    Called(usize),
    /// It is given a value.
    Assigned,
    /// Its value is taken, and it is given another one.
    Changed,
}

/// What a selector stands behind.
#[derive(Drop)]
pub enum Receiver<'a> {
    /// `super`
    Super,
    /// A name alone.
    Named(Lent<'a, Name>),
    /// Two names with a dot between.
    Dotted(Lent<'a, Name>, Lent<'a, Name>),
    /// Any other value.
    Other,
}

/// Where a class names another one.
#[derive(Clone, Copy, Debug, PartialEq, Eq)]
pub enum SupertypeKind {
    Superclass,
    Mixin,
    Interface,
}

/// What stands at a place. Type annotations, type arguments, metadata, the names of imports, the condition of `assert` and
/// the parameters of a parameter are no places.
#[derive(Drop)]
pub enum Site<'a> {
    // ---- names
    /// `name`
    Named(Lent<'a, Name>, Use),
    /// `.name` behind a receiver
    Selected(Receiver<'a>, Lent<'a, Name>, Use),
    /// `new names(..)` with so many arguments
    Made(Span, LentSlice<'a, Name>, usize),
    /// The type behind `is`, `is!`, `as` or `on`.
    TypeTested(LentSlice<'a, Name>),
    /// A type that a class names before its members.
    Supertype(SupertypeKind, LentSlice<'a, Name>),

    // ---- values
    /// `this`
    This(Span),
    /// `super`, but for that of a constructor's initialisers
    Super(Span),
    /// `(..)` with so many arguments, behind what is no name
    ValueCalled(Span, usize),
    /// The method of an operator between operands, in brackets, or in an assignment; whether its receiver is `super`.
    Operated(Span, OperatorName, bool),
    /// `-` before an operand
    Negated(Span),
    /// A function literal with so many parameters.
    Literal(Span, usize),
    /// `(..)` with so many arguments
    ArgumentList(Span, usize),

    // ---- statements
    /// `for (name in values)`: `iterator`, `moveNext` and `current` are asked for.
    ForIn(Span),
    Break(Span),
    Continue(Span),
    /// `return;`
    Return(Span),
    /// `return value;`
    ReturnValue(Span),
    Rethrow(Span),
    /// A local function with so many parameters, from the first token of its statement.
    LocalFunction(Span, Lent<'a, Name>, usize),

    // ---- what scopes declare
    /// A name that the innermost scope declares.
    Local(Lent<'a, Name>),
    /// `(..)` with so many parameters
    ParameterList(Span, usize),
    /// `this.name` among parameters; where `this` stands
    FieldParameter(Span, Lent<'a, Name>),
    /// The default of a parameter; whether it is null, a truth value, a whole number, one behind `-`, or a text without
    /// interpolation.
    Default(Span, bool),

    // ---- what constructors do before their bodies
    /// `name = value` or `this.name = value`
    FieldInitialiser(Span, Lent<'a, Name>),
    /// `super(..)` or `super.name(..)` with so many arguments; whether nothing stands behind it
    SuperInitialiser(Span, Option<Lent<'a, Name>>, usize, bool),

    // ---- what libraries and classes declare
    Class(Lent<'a, Class>),
    Alias(Lent<'a, Alias>),
    Function(Lent<'a, Function>),
    Getter(Lent<'a, Getter>),
    Setter(Lent<'a, Setter>),
    /// A variable or field; whether `final` or `const` stands before it.
    Variable(bool, Lent<'a, Name>),
    Operator(Lent<'a, OperatorMethod>),
    Constructor(Lent<'a, Constructor>),
}
