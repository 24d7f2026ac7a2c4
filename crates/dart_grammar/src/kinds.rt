//! What a statement, a `for` and a declaration are, as the tokens at their beginning tell.

/// What a statement is that begins with no word or sign of its own.
#[derive(Clone, Copy, Debug, PartialEq, Eq)]
pub enum Kind {
    /// Variables that are declared.
    Variables,
    /// A local function with a type, or `void`, before its name.
    Typed,
    /// A local function with no type before its name.
    Untyped,
    /// An expression.
    Expression,
}

/// What stands behind the `(` of a `for`.
#[derive(Clone, Copy, Debug, PartialEq, Eq)]
pub enum ForKind {
    /// A name and `in`.
    In,
    /// A declared name and `in`.
    DeclaredIn,
    /// Variables that are declared.
    Declared,
    /// Expressions, or none.
    Expressions,
}

/// What a declaration is that begins no class and no constructor.
#[derive(Clone, Copy, Debug, PartialEq, Eq)]
pub enum DeclarationKind {
    /// Variables, or fields.
    Variables,
    /// A function, or a method.
    Function,
    /// A getter.
    Getter,
    /// A setter.
    Setter,
    /// An operator.
    Operator,
}

/// A built-in identifier that the grammar of files uses: a name, and where it stands so a word of the grammar.
#[derive(Clone, Copy, Debug, PartialEq, Eq)]
pub enum BuiltIn {
    Library,
    Import,
    Deferred,
    As,
    Show,
    Hide,
    Abstract,
    Implements,
    Static,
    Get,
    Set,
    Operator,
    Native,
}
