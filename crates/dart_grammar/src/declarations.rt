//! Trees of files: imports, and what a library and a class declare. Metadata, the library's name, type annotations and
//! bounds are read and not kept.

use crate::trees::{Arguments, Body, Expr, Name, Names, Parameter, Parameters, Span, Variables};
use code_units::Text;
use sqlite_items::{Boxed, Items};

/// A file.
#[derive(Drop)]
pub struct FileTree {
    pub imports: Items<Import>,
    pub declarations: Items<Declaration>,
}

/// `import 'uri' deferred as prefix show a, b hide c;`. The span begins with its metadata.
#[derive(Drop)]
pub struct Import {
    pub span: Span,
    /// What the text between the quotes stands for, and where it stands with its quotes.
    pub uri: Text,
    pub uri_span: Span,
    pub is_deferred: bool,
    pub prefix: Option<Name>,
    pub combinators: Items<Combinator>,
}

/// `show names` or `hide names`.
#[derive(Drop)]
pub struct Combinator {
    pub hides: bool,
    pub names: Names,
}

/// What a library declares. A span begins with the metadata.
#[derive(Drop)]
pub enum Declaration {
    Class(Class),
    Alias(Alias),
    Function(Function),
    Getter(Getter),
    Setter(Setter),
    Variables(Span, Variables),
}

/// `name parameters body`
#[derive(Drop)]
pub struct Function {
    pub span: Span,
    pub name: Name,
    pub parameters: Parameters,
    pub body: Body,
}

/// `get name body`
#[derive(Drop)]
pub struct Getter {
    pub span: Span,
    pub name: Name,
    pub body: Body,
}

/// `set name(parameter) body`
#[derive(Drop)]
pub struct Setter {
    pub span: Span,
    pub name: Name,
    pub parameter: Parameter,
    pub body: Body,
}

/// `class name extends superclass with mixins implements interfaces { members }`
#[derive(Drop)]
pub struct Class {
    pub span: Span,
    pub is_abstract: bool,
    pub name: Name,
    pub type_parameters: Names,
    pub superclass: Option<Names>,
    pub mixins: Items<Names>,
    pub interfaces: Items<Names>,
    pub members: Items<Member>,
}

/// `class name = superclass with mixins implements interfaces;`
#[derive(Drop)]
pub struct Alias {
    pub span: Span,
    pub is_abstract: bool,
    pub name: Name,
    pub type_parameters: Names,
    pub superclass: Names,
    pub mixins: Items<Names>,
    pub interfaces: Items<Names>,
}

/// What a class declares. The flag says whether `static` stands before it; a span begins with the metadata.
#[derive(Drop)]
pub enum Member {
    Function(bool, Function),
    Getter(bool, Getter),
    Setter(bool, Setter),
    Fields(bool, Span, Variables),
    Operator(OperatorMethod),
    Constructor(Constructor),
}

/// The name of an operator that a class declares.
#[derive(Clone, Copy, Debug, PartialEq, Eq)]
pub enum OperatorName {
    /// `+`
    Plus,
    /// `-`, also the one before an operand
    Minus,
    /// `*`
    Times,
    /// `~/`
    Divide,
    /// `%`
    Modulo,
    /// `<`
    Less,
    /// `>`
    Greater,
    /// `<=`
    LessEqual,
    /// `>=`
    GreaterEqual,
    /// `[]`
    Index,
    /// `[]=`
    SetIndex,
}

/// `operator sign parameters body`
#[derive(Drop)]
pub struct OperatorMethod {
    pub span: Span,
    pub operator: OperatorName,
    /// Where the sign stands.
    pub sign: Span,
    pub parameters: Parameters,
    pub body: Body,
}

/// `name.name parameters : initialisers body`
#[derive(Drop)]
pub struct Constructor {
    pub span: Span,
    /// The class's name, and the constructor's own where it has one.
    pub names: Names,
    pub parameters: Parameters,
    pub initialisers: Items<Initialiser>,
    pub body: Body,
}

/// What a constructor does before its body.
#[derive(Drop)]
pub enum Initialiser {
    /// `this.name = value` or `name = value`
    Field(Span, Name, Boxed<Expr>),
    /// `super(arguments)` or `super.name(arguments)`
    Super(Span, Option<Name>, Arguments),
}
