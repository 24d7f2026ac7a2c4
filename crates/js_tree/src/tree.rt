//! Trees of files of the subset. What would make an expression or a statement large stands in a box of its own.

use crate::words::{JsMember, JsOperator};
use code_units::Text;
use sqlite_items::{Boxed, Items};

/// An expression.
#[cycle(tree)]
#[derive(Drop)]
pub enum JsExpr {
    /// A primary expression alone.
    Primary(JsPrimary),
    /// `left operator right`
    Binary(JsOperator, Boxed<JsPrimary>, Boxed<JsPrimary>),
    /// `typeof operand`
    TypeOf(JsPrimary),
    /// `function (parameters) { body }`
    Function(JsFunction),
    /// `new Map()`
    NewMap,
    /// `[items]`
    Array(Items<JsExpr>),
    /// `{entries}`
    Object(Items<JsEntry>),
}

/// What a primary expression begins with.
#[cycle(tree)]
#[derive(Drop)]
pub enum JsHead {
    /// A name, as its bytes.
    Name(Items<u8>),
    /// A whole number.
    Digits(u64),
    /// `-` and a whole number.
    Negative(u64),
    /// A string, as its UTF-16 units.
    Str(Items<u16>),
    /// `null`
    Null,
    /// `undefined`
    Undefined,
    /// `true`
    True,
    /// `false`
    False,
    /// `String(arguments)`
    StringOf(Items<JsExpr>),
    /// `Array.isArray(arguments)`
    IsArray(Items<JsExpr>),
    /// `Array.from(arguments)`
    ArrayFrom(Items<JsExpr>),
}

/// What stands behind a part of a primary expression and selects from it.
#[cycle(tree)]
#[derive(Drop)]
pub enum JsSelector {
    /// `[index]`
    Index(Boxed<JsExpr>),
    /// `(arguments)`
    Call(Items<JsExpr>),
    /// `.word`
    Member(JsMember),
    /// `.word(arguments)`
    Method(JsMember, Items<JsExpr>),
}

/// A head, and the selectors behind it in order.
#[cycle(tree)]
#[derive(Drop)]
pub struct JsPrimary {
    pub head: JsHead,
    pub selectors: Items<JsSelector>,
}

/// The parameters of a function, and its body.
#[cycle(tree)]
#[derive(Drop)]
pub struct JsFunction {
    pub parameters: Items<Items<u8>>,
    pub body: Items<JsStmt>,
}

/// An entry of an object: a string, as its UTF-16 units, and a value.
#[cycle(tree)]
#[derive(Drop)]
pub struct JsEntry {
    pub key: Items<u16>,
    pub value: JsExpr,
}

/// A statement. `at` is the offset in bytes of its first token in the file; printing ignores it.
#[cycle(tree)]
#[derive(Drop)]
pub enum JsStmt {
    /// `let name = value;`
    Let {
        at: u64,
        name: Items<u8>,
        value: JsExpr,
    },
    /// `name = value;`
    Assign {
        at: u64,
        name: Items<u8>,
        value: JsExpr,
    },
    /// `object[index] = value;`
    Store {
        at: u64,
        object: Boxed<JsPrimary>,
        index: Boxed<JsExpr>,
        value: JsExpr,
    },
    /// `primary;`
    Perform {
        at: u64,
        primary: JsPrimary,
    },
    /// `if (test) { holds }`
    If {
        at: u64,
        test: Boxed<JsExpr>,
        holds: Items<JsStmt>,
    },
    /// `if (test) { holds } else { fails }`
    IfElse {
        at: u64,
        test: Boxed<JsExpr>,
        holds: Items<JsStmt>,
        fails: Items<JsStmt>,
    },
    /// `while (true) { body }`
    Loop {
        at: u64,
        body: Items<JsStmt>,
    },
    /// `label: { body }`
    Labelled {
        at: u64,
        label: Items<u8>,
        body: Items<JsStmt>,
    },
    /// `break label;`
    Break {
        at: u64,
        label: Items<u8>,
    },
    /// `return value;`
    Return {
        at: u64,
        value: JsExpr,
    },
    /// `throw value;`
    Throw {
        at: u64,
        value: JsExpr,
    },
    /// `try { body } catch (name) { handler }`
    TryCatch {
        at: u64,
        body: Items<JsStmt>,
        name: Items<u8>,
        handler: Items<JsStmt>,
    },
    /// `try { body } finally { last }`
    TryFinally {
        at: u64,
        body: Items<JsStmt>,
        last: Items<JsStmt>,
    },
}

/// An item of a file.
#[derive(Drop)]
pub enum JsItem {
    /// `function name(parameters) { body }`
    Declared {
        name: Items<u8>,
        function: JsFunction,
    },
    /// `var name = value;`; `at` is the offset in bytes of `var`, and printing ignores it.
    Var {
        at: u64,
        name: Items<u8>,
        value: JsExpr,
    },
    /// A statement.
    Statement(JsStmt),
}

/// Items, one after another.
pub type JsItems = Items<JsItem>;

/// A file.
#[derive(Drop)]
pub struct JsFile {
    pub items: JsItems,
}

/// A file: its name and its tree.
#[derive(Drop)]
pub struct NamedTree {
    pub name: Text,
    pub tree: JsFile,
}

/// Files; the last one is the main file.
pub type TreeList = Items<NamedTree>;
