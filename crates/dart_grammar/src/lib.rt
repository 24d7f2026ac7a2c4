//! The grammar of the Dart profile: its trees, which tokens spell which tree, and what tells its forms apart before they
//! are parsed.
//!
//! - [`trees`]: the trees of expressions and statements.
//! - [`declarations`]: the trees of files.
//! - [`marks`]: the next token, and what it means beside an expression.
//! - [`kinds`]: what a statement, a `for` and a declaration are.
//! - [`shapes`]: choices that look ahead in statements and expressions.
//! - [`begins`]: choices that look ahead in files and classes.
//! - [`spans`]: where trees stand in the file, and parts of trees that the grammar asks for.
//! - [`loads`]: where the first token stands that is nested too deep.
//!
//! What looks ahead takes time linear in the tokens that it looks at, and recurs only on parameters in parameters.
#![tactic(auto)]

pub mod begins;
pub mod declarations;
mod defaults;
pub mod kinds;
pub mod loads;
pub mod marks;
mod parameters;
mod runs;
pub mod shapes;
pub mod spans;
pub mod trees;
mod types;

pub use declarations::FileTree;
pub use kinds::{BuiltIn, DeclarationKind, ForKind, Kind};
pub use trees::{Expr, Stmt};
