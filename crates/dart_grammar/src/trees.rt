//! Trees of expressions and statements. What has no meaning is read and not kept: type annotations, type arguments,
//! metadata, and the condition of `assert`.

use code_units::Text;
use sqlite_items::{Boxed, Items};

/// The bytes of a file from `from` up to, and without, `to`.
#[derive(Clone, Copy, Debug, PartialEq, Eq)]
pub struct Span {
    pub from: u32,
    pub to: u32,
}

/// A name where it stands.
#[derive(Drop)]
pub struct Name {
    pub text: Text,
    pub span: Span,
}

/// One to three names with dots between: of a type its prefix and its class; behind `new` also a constructor's.
pub type Names = Items<Name>;

/// What stands between two operands.
#[derive(Clone, Copy, Debug, PartialEq, Eq)]
pub enum Operator {
    /// `||`
    Or,
    /// `&&`
    And,
    /// `==`
    Equal,
    /// `!=`
    NotEqual,
    /// `<`
    Less,
    /// `>`
    Greater,
    /// `<=`
    LessEqual,
    /// `>=`
    GreaterEqual,
    /// `+`
    Plus,
    /// `-`
    Minus,
    /// `*`
    Times,
    /// `%`
    Modulo,
    /// `~/`
    Divide,
}

/// What stands before an operand.
#[derive(Clone, Copy, Debug, PartialEq, Eq)]
pub enum PrefixOperator {
    /// `-`
    Negate,
    /// `!`
    Not,
}

/// How a target takes a new value.
#[derive(Clone, Copy, Debug, PartialEq, Eq)]
pub enum Assignment {
    /// `=`
    Set,
    /// `+=`
    Plus,
    /// `-=`
    Minus,
    /// `*=`
    Times,
    /// `~/=`
    Divide,
    /// `%=`
    Modulo,
}

/// `++` or `--`.
#[derive(Clone, Copy, Debug, PartialEq, Eq)]
pub enum Step {
    Increment,
    Decrement,
}

/// An expression.
#[cycle(tree)]
#[derive(Drop)]
pub enum Expr {
    /// A head, and the selectors behind it.
    Chained(Boxed<Chain>),
    /// `++target`, `--target`
    StepBefore(Span, Step, Boxed<Target>),
    /// `target++`, `target--`
    StepBehind(Span, Step, Boxed<Target>),
    /// `-operand`, `!operand`
    Prefixed(Span, PrefixOperator, Boxed<Expr>),
    /// `left operator right`
    Operated(Span, Operator, Boxed<Expr>, Boxed<Expr>),
    /// `operand is type`
    Is(Span, Boxed<Expr>, Names),
    /// `operand is! type`
    IsNot(Span, Boxed<Expr>, Names),
    /// `operand as type`
    As(Span, Boxed<Expr>, Names),
    /// `test ? holds : fails`
    Conditional(Span, Boxed<Expr>, Boxed<Expr>, Boxed<Expr>),
    /// `target = value`, `target += value`, ..
    Assigned(Span, Boxed<Target>, Assignment, Boxed<Expr>),
    /// `throw value`
    Throw(Span, Boxed<Expr>),
}

/// A head, and the selectors behind it in order.
#[cycle(tree)]
#[derive(Drop)]
pub struct Chain {
    pub span: Span,
    pub head: Head,
    pub selectors: Items<Selector>,
}

/// What a chain begins with.
#[cycle(tree)]
#[derive(Drop)]
pub enum Head {
    /// A name.
    Named(Name),
    /// `this`
    This(Span),
    /// `super`
    Super(Span),
    /// `null`
    Null(Span),
    /// `true`
    True(Span),
    /// `false`
    False(Span),
    /// A whole number.
    Number(Span, u64),
    /// Texts one behind another, as one: the first units, and the parts behind them.
    Texts(Span, Text, Items<Interpolation>),
    /// `new names(arguments)`
    New(Span, Names, Arguments),
    /// `(inner)`
    Parenthesised(Span, Boxed<Expr>),
    /// `parameters => value`, `parameters { .. }`
    Literal(Span, Parameters, Body),
    /// `[items]`
    List(Span, Items<Expr>),
    /// `{entries}`
    Map(Span, Items<Entry>),
}

/// An interpolated expression in a text, and the units behind it.
#[cycle(tree)]
#[derive(Drop)]
pub struct Interpolation {
    pub value: Boxed<Expr>,
    pub behind: Text,
}

/// `key: value` in a map.
#[cycle(tree)]
#[derive(Drop)]
pub struct Entry {
    pub key: Boxed<Expr>,
    pub value: Boxed<Expr>,
}

/// `(items)`
#[cycle(tree)]
#[derive(Drop)]
pub struct Arguments {
    pub span: Span,
    pub items: Items<Expr>,
}

/// What selects from the value before it.
#[cycle(tree)]
#[derive(Drop)]
pub enum Selector {
    /// `.name`, with no arguments behind it.
    Member(Span, Name),
    /// `.name(arguments)`
    Invoke(Span, Name, Arguments),
    /// `[index]`
    Index(Span, Boxed<Expr>),
    /// `(arguments)`
    Call(Arguments),
}

/// What can take a new value.
#[cycle(tree)]
#[derive(Drop)]
pub enum Target {
    /// A name.
    Bare(Name),
    /// `object.name`
    MemberOf(Boxed<Chain>, Name),
    /// `object[index]`; the span is that of the index with its brackets.
    IndexOf(Boxed<Chain>, Span, Boxed<Expr>),
}

/// `(required, [optional])`
#[cycle(tree)]
#[derive(Drop)]
pub struct Parameters {
    pub span: Span,
    pub required: Items<Parameter>,
    pub optional: Items<OptionalParameter>,
}

/// A parameter. The span has its metadata and its type too.
#[derive(Drop)]
pub struct Parameter {
    pub span: Span,
    /// Whether `final` stands before it.
    pub is_final: bool,
    /// Where `this` stands, if it is written `this.name`.
    pub this: Option<Span>,
    pub name: Name,
}

/// An optional parameter.
#[cycle(tree)]
#[derive(Drop)]
pub enum OptionalParameter {
    /// `parameter`
    WithoutDefault(Parameter),
    /// `parameter = default`
    WithDefault(Parameter, Boxed<Expr>),
}

/// What a function does.
#[cycle(tree)]
#[derive(Drop)]
pub enum Body {
    /// `=> value`
    Gives(Boxed<Expr>),
    /// `{ statements }`
    Block(Items<Stmt>),
    /// `;`
    Abstract,
    /// `native name;`
    Native(Name),
}

/// A statement. The span ends with its last token.
#[cycle(tree)]
#[derive(Drop)]
pub enum Stmt {
    /// `{ statements }`
    Nested(Span, Items<Stmt>),
    /// `var a = e, b;`, ..
    Declare(Span, Variables),
    /// `name parameters body`
    LocalFunction(Span, Name, Parameters, Body),
    /// `;`
    Empty(Span),
    /// `value;`
    Evaluate(Span, Boxed<Expr>),
    /// `if (test) holds`
    If(Span, Boxed<Expr>, Boxed<Stmt>),
    /// `if (test) holds else fails`
    IfElse(Span, Boxed<Expr>, Boxed<Stmt>, Boxed<Stmt>),
    /// `while (test) body`
    While(Span, Boxed<Expr>, Boxed<Stmt>),
    /// `do body while (test);`
    Do(Span, Boxed<Stmt>, Boxed<Expr>),
    /// `for (var a = e; test; updates) body`
    ForDeclared(Span, Variables, Option<Boxed<Expr>>, Items<Expr>, Boxed<Stmt>),
    /// `for (firsts; test; updates) body`
    For(Span, Items<Expr>, Option<Boxed<Expr>>, Items<Expr>, Boxed<Stmt>),
    /// `for (var name in values) body`; whether `final` stands there.
    ForInDeclared(Span, bool, Name, Boxed<Expr>, Boxed<Stmt>),
    /// `for (name in values) body`
    ForIn(Span, Name, Boxed<Expr>, Boxed<Stmt>),
    /// `break;`
    Break(Span),
    /// `continue;`
    Continue(Span),
    /// `return;`
    Return(Span),
    /// `return value;`
    ReturnValue(Span, Boxed<Expr>),
    /// `rethrow;`
    Rethrow(Span),
    /// `assert(..);`
    Assert(Span),
    /// `try { body } catches`
    Try(Span, Items<Stmt>, Items<Catch>),
    /// `try { body } catches finally { last }`
    TryFinally(Span, Items<Stmt>, Items<Catch>, Items<Stmt>),
}

/// Variables that are declared together.
#[cycle(tree)]
#[derive(Drop)]
pub struct Variables {
    /// Whether `final` or `const` stands before them.
    pub is_final: bool,
    pub items: Items<Variable>,
}

/// A variable that is declared.
#[cycle(tree)]
#[derive(Drop)]
pub enum Variable {
    /// `name`
    Unset(Name),
    /// `name = value`
    Initialised(Name, Boxed<Expr>),
}

/// `on type catch (name) { body }`
#[cycle(tree)]
#[derive(Drop)]
pub struct Catch {
    pub span: Span,
    /// The type behind `on`, if it is there.
    pub type_names: Option<Names>,
    /// The name that the thrown object gets, if there is one.
    pub name: Option<Name>,
    pub body: Items<Stmt>,
}
