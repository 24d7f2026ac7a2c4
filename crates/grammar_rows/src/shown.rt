//! Trees in words, fully bracketed.
//!
//! `<a>` is a parenthesised expression, `~` stands before a target, selectors stand in braces, `(fn ..)` is a function
//! literal. Where places are wanted, `from-to:` stands before expressions, selectors, statements, parameters and clauses.

use code_units::Text;
use dart_grammar::spans::{selector_span, span_of, stmt_span};
use dart_grammar::trees::{
    Arguments, Assignment, Body, Catch, Chain, Entry, Expr, Head, Interpolation, Name, Operator,
    OptionalParameter, Parameter, Parameters, PrefixOperator, Selector, Span, Step, Stmt, Target,
    Variable, Variables,
};
use sqlite_items::Boxed;
use std::alloc::{AllocError, Global};

// A part of a tree, or what is shown between parts.
#[derive(Clone, Copy)]
enum Piece<'t> {
    Word(&'t str),
    At(Span),
    Number(u64),
    Units(&'t Text),
    Expr(&'t Expr),
    Exprs(&'t [Expr]),
    Chain(&'t Chain),
    Head(&'t Head),
    Names(&'t [Name]),
    Selectors(&'t [Selector]),
    Target(&'t Target),
    Parts(&'t [Interpolation]),
    Entries(&'t [Entry]),
    Arguments(&'t Arguments),
    Parameters(&'t Parameters),
    Parameter(&'t Parameter),
    Required(&'t [Parameter]),
    Optional(&'t [OptionalParameter]),
    Body(&'t Body),
    Stmt(&'t Stmt),
    Stmts(&'t [Stmt]),
    Variables(&'t Variables),
    Declared(&'t [Variable]),
    Catches(&'t [Catch]),
}

// What is still to be shown, the last first.
type Left<'t> = Vec<Piece<'t>>;

// Before what is left, these pieces.
fn later<'t>(left: &mut Left<'t>, pieces: &[Piece<'t>]) -> Result<(), AllocError> {
    for piece in pieces.iter().rev() {
        left.push(*piece)?;
    }
    Ok(())
}

// Before what is left, the word.
fn say(left: &mut Left<'_>, word: &'static str) -> Result<(), AllocError> {
    left.push(Piece::Word(word))?;
    Ok(())
}

fn operator_word(operator: Operator) -> &'static str {
    match operator {
        Operator::Or => " || ",
        Operator::And => " && ",
        Operator::Equal => " == ",
        Operator::NotEqual => " != ",
        Operator::Less => " < ",
        Operator::Greater => " > ",
        Operator::LessEqual => " <= ",
        Operator::GreaterEqual => " >= ",
        Operator::Plus => " + ",
        Operator::Minus => " - ",
        Operator::Times => " * ",
        Operator::Modulo => " % ",
        Operator::Divide => " ~/ ",
    }
}

fn prefix_word(operator: PrefixOperator) -> &'static str {
    match operator {
        PrefixOperator::Negate => "(- ",
        PrefixOperator::Not => "(! ",
    }
}

fn step_word(step: Step) -> &'static str {
    match step {
        Step::Increment => "++",
        Step::Decrement => "--",
    }
}

fn assignment_word(assignment: Assignment) -> &'static str {
    match assignment {
        Assignment::Set => " = ",
        Assignment::Plus => " += ",
        Assignment::Minus => " -= ",
        Assignment::Times => " *= ",
        Assignment::Divide => " ~/= ",
        Assignment::Modulo => " %= ",
    }
}

fn final_word(is_final: bool) -> &'static str {
    if is_final { "final " } else { "var " }
}

// A comma where more items follow.
fn comma<T>(rest: &[T]) -> &'static str {
    if rest.is_empty() { "" } else { "," }
}

fn expr_pieces<'t>(left: &mut Left<'t>, expr: &'t Expr) -> Result<(), AllocError> {
    match expr {
        Expr::Chained(chain) => later(left, [Piece::Chain(chain.get())].as_slice()),
        Expr::StepBefore(_, step, target) => later(
            left,
            [
                Piece::Word("("),
                Piece::Word(step_word(*step)),
                Piece::Word(" "),
                Piece::Target(target.get()),
                Piece::Word(")"),
            ]
            .as_slice(),
        ),
        Expr::StepBehind(_, step, target) => later(
            left,
            [
                Piece::Word("("),
                Piece::Target(target.get()),
                Piece::Word(" "),
                Piece::Word(step_word(*step)),
                Piece::Word(")"),
            ]
            .as_slice(),
        ),
        Expr::Prefixed(_, operator, operand) => later(
            left,
            [
                Piece::Word(prefix_word(*operator)),
                Piece::Expr(operand.get()),
                Piece::Word(")"),
            ]
            .as_slice(),
        ),
        Expr::Operated(_, operator, first, second) => later(
            left,
            [
                Piece::Word("("),
                Piece::Expr(first.get()),
                Piece::Word(operator_word(*operator)),
                Piece::Expr(second.get()),
                Piece::Word(")"),
            ]
            .as_slice(),
        ),
        Expr::Is(_, operand, names) => tested(left, operand.get(), " is ", names.as_slice()),
        Expr::IsNot(_, operand, names) => tested(left, operand.get(), " is! ", names.as_slice()),
        Expr::As(_, operand, names) => tested(left, operand.get(), " as ", names.as_slice()),
        Expr::Conditional(_, test, holds, fails) => later(
            left,
            [
                Piece::Word("("),
                Piece::Expr(test.get()),
                Piece::Word(" ? "),
                Piece::Expr(holds.get()),
                Piece::Word(" : "),
                Piece::Expr(fails.get()),
                Piece::Word(")"),
            ]
            .as_slice(),
        ),
        Expr::Assigned(_, target, assignment, value) => later(
            left,
            [
                Piece::Word("("),
                Piece::Target(target.get()),
                Piece::Word(assignment_word(*assignment)),
                Piece::Expr(value.get()),
                Piece::Word(")"),
            ]
            .as_slice(),
        ),
        Expr::Throw(_, value) => later(
            left,
            [
                Piece::Word("(throw "),
                Piece::Expr(value.get()),
                Piece::Word(")"),
            ]
            .as_slice(),
        ),
    }
}

fn tested<'t>(
    left: &mut Left<'t>,
    operand: &'t Expr,
    word: &'static str,
    names: &'t [Name],
) -> Result<(), AllocError> {
    later(
        left,
        [
            Piece::Word("("),
            Piece::Expr(operand),
            Piece::Word(word),
            Piece::Names(names),
            Piece::Word(")"),
        ]
        .as_slice(),
    )
}

fn head_pieces<'t>(left: &mut Left<'t>, head: &'t Head) -> Result<(), AllocError> {
    match head {
        Head::Named(name) => later(left, [Piece::Units(&name.text)].as_slice()),
        Head::This(_) => say(left, "this"),
        Head::Super(_) => say(left, "super"),
        Head::Null(_) => say(left, "null"),
        Head::True(_) => say(left, "true"),
        Head::False(_) => say(left, "false"),
        Head::Number(_, value) => later(left, [Piece::Number(*value)].as_slice()),
        Head::Texts(_, first, parts) => later(
            left,
            [
                Piece::Word("'"),
                Piece::Units(first),
                Piece::Parts(parts.as_slice()),
                Piece::Word("'"),
            ]
            .as_slice(),
        ),
        Head::New(_, names, arguments) => later(
            left,
            [
                Piece::Word("(new "),
                Piece::Names(names.as_slice()),
                Piece::Word(" "),
                Piece::Arguments(arguments),
                Piece::Word(")"),
            ]
            .as_slice(),
        ),
        Head::Parenthesised(_, inner) => later(
            left,
            [Piece::Word("<"), Piece::Expr(inner.get()), Piece::Word(">")].as_slice(),
        ),
        Head::Literal(_, parameters, body) => later(
            left,
            [
                Piece::Word("(fn "),
                Piece::Parameters(parameters),
                Piece::Word(" "),
                Piece::Body(body),
                Piece::Word(")"),
            ]
            .as_slice(),
        ),
        Head::List(_, items) => later(
            left,
            [
                Piece::Word("["),
                Piece::Exprs(items.as_slice()),
                Piece::Word("]"),
            ]
            .as_slice(),
        ),
        Head::Map(_, entries) => later(
            left,
            [
                Piece::Word("{"),
                Piece::Entries(entries.as_slice()),
                Piece::Word("}"),
            ]
            .as_slice(),
        ),
    }
}

fn selector_pieces<'t>(
    left: &mut Left<'t>,
    selector: &'t Selector,
    rest: &'t [Selector],
) -> Result<(), AllocError> {
    let at = Piece::At(selector_span(selector));
    match selector {
        Selector::Member(_, name) => later(
            left,
            [
                Piece::Word("{"),
                at,
                Piece::Word("."),
                Piece::Units(&name.text),
                Piece::Word("}"),
                Piece::Selectors(rest),
            ]
            .as_slice(),
        ),
        Selector::Invoke(_, name, arguments) => later(
            left,
            [
                Piece::Word("{"),
                at,
                Piece::Word("."),
                Piece::Units(&name.text),
                Piece::Arguments(arguments),
                Piece::Word("}"),
                Piece::Selectors(rest),
            ]
            .as_slice(),
        ),
        Selector::Index(_, index) => later(
            left,
            [
                Piece::Word("{"),
                at,
                Piece::Word("["),
                Piece::Expr(index.get()),
                Piece::Word("]}"),
                Piece::Selectors(rest),
            ]
            .as_slice(),
        ),
        Selector::Call(arguments) => later(
            left,
            [
                Piece::Word("{"),
                at,
                Piece::Arguments(arguments),
                Piece::Word("}"),
                Piece::Selectors(rest),
            ]
            .as_slice(),
        ),
    }
}

fn target_pieces<'t>(left: &mut Left<'t>, target: &'t Target) -> Result<(), AllocError> {
    match target {
        Target::Bare(name) => later(
            left,
            [Piece::Word("~"), Piece::Units(&name.text)].as_slice(),
        ),
        Target::MemberOf(chain, name) => later(
            left,
            [
                Piece::Word("~"),
                Piece::Chain(chain.get()),
                Piece::Word("{."),
                Piece::Units(&name.text),
                Piece::Word("}"),
            ]
            .as_slice(),
        ),
        Target::IndexOf(chain, span, index) => later(
            left,
            [
                Piece::Word("~"),
                Piece::Chain(chain.get()),
                Piece::Word("{"),
                Piece::At(*span),
                Piece::Word("["),
                Piece::Expr(index.get()),
                Piece::Word("]}"),
            ]
            .as_slice(),
        ),
    }
}

fn parameter_pieces<'t>(left: &mut Left<'t>, parameter: &'t Parameter) -> Result<(), AllocError> {
    later(
        left,
        [
            Piece::At(parameter.span),
            Piece::Word(if parameter.is_final { "final " } else { "" }),
            Piece::Word(if parameter.this.is_some() {
                "this."
            } else {
                ""
            }),
            Piece::Units(&parameter.name.text),
        ]
        .as_slice(),
    )
}

fn parameters_pieces<'t>(
    left: &mut Left<'t>,
    parameters: &'t Parameters,
) -> Result<(), AllocError> {
    let required = parameters.required.as_slice();
    let optional = parameters.optional.as_slice();
    later(
        left,
        [
            Piece::At(parameters.span),
            Piece::Word("("),
            Piece::Required(required),
            Piece::Word(if required.is_empty() {
                ""
            } else {
                comma(optional)
            }),
            Piece::Word(if optional.is_empty() { "" } else { "[" }),
            Piece::Optional(optional),
            Piece::Word(if optional.is_empty() { ")" } else { "])" }),
        ]
        .as_slice(),
    )
}

fn optional_pieces<'t>(
    left: &mut Left<'t>,
    first: &'t OptionalParameter,
    rest: &'t [OptionalParameter],
) -> Result<(), AllocError> {
    match first {
        OptionalParameter::WithoutDefault(parameter) => later(
            left,
            [
                Piece::Parameter(parameter),
                Piece::Word(comma(rest)),
                Piece::Optional(rest),
            ]
            .as_slice(),
        ),
        OptionalParameter::WithDefault(parameter, value) => later(
            left,
            [
                Piece::Parameter(parameter),
                Piece::Word("="),
                Piece::Expr(value.get()),
                Piece::Word(comma(rest)),
                Piece::Optional(rest),
            ]
            .as_slice(),
        ),
    }
}

fn body_pieces<'t>(left: &mut Left<'t>, body: &'t Body) -> Result<(), AllocError> {
    match body {
        Body::Gives(value) => later(
            left,
            [Piece::Word("=> "), Piece::Expr(value.get())].as_slice(),
        ),
        Body::Block(items) => block_pieces(left, items.as_slice()),
        Body::Abstract => say(left, "abstract"),
        Body::Native(name) => later(
            left,
            [Piece::Word("native "), Piece::Units(&name.text)].as_slice(),
        ),
    }
}

fn block_pieces<'t>(left: &mut Left<'t>, items: &'t [Stmt]) -> Result<(), AllocError> {
    later(
        left,
        [Piece::Word("{"), Piece::Stmts(items), Piece::Word("}")].as_slice(),
    )
}

fn stmt_pieces<'t>(left: &mut Left<'t>, stmt: &'t Stmt) -> Result<(), AllocError> {
    match stmt {
        Stmt::Nested(_, items) => block_pieces(left, items.as_slice()),
        Stmt::Declare(_, variables) => later(
            left,
            [Piece::Variables(variables), Piece::Word(";")].as_slice(),
        ),
        Stmt::LocalFunction(_, name, parameters, body) => later(
            left,
            [
                Piece::Units(&name.text),
                Piece::Parameters(parameters),
                Piece::Word(" "),
                Piece::Body(body),
            ]
            .as_slice(),
        ),
        Stmt::Empty(_) => say(left, ";"),
        Stmt::Evaluate(_, value) => later(
            left,
            [Piece::Expr(value.get()), Piece::Word(";")].as_slice(),
        ),
        Stmt::Break(_) => say(left, "break;"),
        Stmt::Continue(_) => say(left, "continue;"),
        Stmt::Return(_) => say(left, "return;"),
        Stmt::ReturnValue(_, value) => later(
            left,
            [
                Piece::Word("return "),
                Piece::Expr(value.get()),
                Piece::Word(";"),
            ]
            .as_slice(),
        ),
        Stmt::Rethrow(_) => say(left, "rethrow;"),
        Stmt::Assert(_) => say(left, "assert;"),
        _ => larger_pieces(left, stmt),
    }
}

fn larger_pieces<'t>(left: &mut Left<'t>, stmt: &'t Stmt) -> Result<(), AllocError> {
    match stmt {
        Stmt::If(_, test, holds) => later(
            left,
            [
                Piece::Word("(if "),
                Piece::Expr(test.get()),
                Piece::Word(" "),
                Piece::Stmt(holds.get()),
                Piece::Word(")"),
            ]
            .as_slice(),
        ),
        Stmt::IfElse(_, test, holds, fails) => later(
            left,
            [
                Piece::Word("(if "),
                Piece::Expr(test.get()),
                Piece::Word(" "),
                Piece::Stmt(holds.get()),
                Piece::Word(" else "),
                Piece::Stmt(fails.get()),
                Piece::Word(")"),
            ]
            .as_slice(),
        ),
        Stmt::While(_, test, body) => later(
            left,
            [
                Piece::Word("(while "),
                Piece::Expr(test.get()),
                Piece::Word(" "),
                Piece::Stmt(body.get()),
                Piece::Word(")"),
            ]
            .as_slice(),
        ),
        Stmt::Do(_, body, test) => later(
            left,
            [
                Piece::Word("(do "),
                Piece::Stmt(body.get()),
                Piece::Word(" while "),
                Piece::Expr(test.get()),
                Piece::Word(")"),
            ]
            .as_slice(),
        ),
        Stmt::Try(_, items, catches) => later(
            left,
            [
                Piece::Word("(try {"),
                Piece::Stmts(items.as_slice()),
                Piece::Word("}"),
                Piece::Catches(catches.as_slice()),
                Piece::Word(")"),
            ]
            .as_slice(),
        ),
        Stmt::TryFinally(_, items, catches, last) => later(
            left,
            [
                Piece::Word("(try {"),
                Piece::Stmts(items.as_slice()),
                Piece::Word("}"),
                Piece::Catches(catches.as_slice()),
                Piece::Word(" finally {"),
                Piece::Stmts(last.as_slice()),
                Piece::Word("})"),
            ]
            .as_slice(),
        ),
        _ => loop_pieces(left, stmt),
    }
}

fn test_piece(test: &Option<Boxed<Expr>>) -> Piece<'_> {
    match test {
        Some(test) => Piece::Expr(test.get()),
        None => Piece::Word(""),
    }
}

fn loop_pieces<'t>(left: &mut Left<'t>, stmt: &'t Stmt) -> Result<(), AllocError> {
    match stmt {
        Stmt::ForDeclared(_, variables, test, updates, body) => later(
            left,
            [
                Piece::Word("(for "),
                Piece::Variables(variables),
                Piece::Word(";"),
                test_piece(test),
                Piece::Word(";"),
                Piece::Exprs(updates.as_slice()),
                Piece::Word(" "),
                Piece::Stmt(body.get()),
                Piece::Word(")"),
            ]
            .as_slice(),
        ),
        Stmt::For(_, firsts, test, updates, body) => later(
            left,
            [
                Piece::Word("(for "),
                Piece::Exprs(firsts.as_slice()),
                Piece::Word(";"),
                test_piece(test),
                Piece::Word(";"),
                Piece::Exprs(updates.as_slice()),
                Piece::Word(" "),
                Piece::Stmt(body.get()),
                Piece::Word(")"),
            ]
            .as_slice(),
        ),
        Stmt::ForInDeclared(_, is_final, name, values, body) => later(
            left,
            [
                Piece::Word("(for "),
                Piece::Word(final_word(*is_final)),
                Piece::Units(&name.text),
                Piece::Word(" in "),
                Piece::Expr(values.get()),
                Piece::Word(" "),
                Piece::Stmt(body.get()),
                Piece::Word(")"),
            ]
            .as_slice(),
        ),
        Stmt::ForIn(_, name, values, body) => later(
            left,
            [
                Piece::Word("(for "),
                Piece::Units(&name.text),
                Piece::Word(" in "),
                Piece::Expr(values.get()),
                Piece::Word(" "),
                Piece::Stmt(body.get()),
                Piece::Word(")"),
            ]
            .as_slice(),
        ),
        _ => say(left, "other"),
    }
}

fn variable_pieces<'t>(
    left: &mut Left<'t>,
    variable: &'t Variable,
    rest: &'t [Variable],
) -> Result<(), AllocError> {
    match variable {
        Variable::Unset(name) => later(
            left,
            [
                Piece::Units(&name.text),
                Piece::Word(comma(rest)),
                Piece::Declared(rest),
            ]
            .as_slice(),
        ),
        Variable::Initialised(name, value) => later(
            left,
            [
                Piece::Units(&name.text),
                Piece::Word("="),
                Piece::Expr(value.get()),
                Piece::Word(comma(rest)),
                Piece::Declared(rest),
            ]
            .as_slice(),
        ),
    }
}

fn catch_pieces<'t>(
    left: &mut Left<'t>,
    clause: &'t Catch,
    rest: &'t [Catch],
) -> Result<(), AllocError> {
    let (on, names) = match &clause.type_names {
        Some(names) => ("on ", Piece::Names(names.as_slice())),
        None => ("", Piece::Word("")),
    };
    let (word, name) = match &clause.name {
        Some(name) if on.is_empty() => ("catch ", Piece::Units(&name.text)),
        Some(name) => (" catch ", Piece::Units(&name.text)),
        None => ("", Piece::Word("")),
    };
    later(
        left,
        [
            Piece::Word(" "),
            Piece::At(clause.span),
            Piece::Word(on),
            names,
            Piece::Word(word),
            name,
            Piece::Word(" {"),
            Piece::Stmts(clause.body.as_slice()),
            Piece::Word("}"),
            Piece::Catches(rest),
        ]
        .as_slice(),
    )
}

// ---- the first item of a list, and the rest

fn exprs_pieces<'t>(left: &mut Left<'t>, items: &'t [Expr]) -> Result<(), AllocError> {
    match items.split_first() {
        Some((first, rest)) => later(
            left,
            [
                Piece::Expr(first),
                Piece::Word(comma(rest)),
                Piece::Exprs(rest),
            ]
            .as_slice(),
        ),
        None => Ok(()),
    }
}

fn names_pieces<'t>(left: &mut Left<'t>, names: &'t [Name]) -> Result<(), AllocError> {
    match names.split_first() {
        Some((first, rest)) => later(
            left,
            [
                Piece::Units(&first.text),
                Piece::Word(if rest.is_empty() { "" } else { "." }),
                Piece::Names(rest),
            ]
            .as_slice(),
        ),
        None => Ok(()),
    }
}

fn parts_pieces<'t>(left: &mut Left<'t>, parts: &'t [Interpolation]) -> Result<(), AllocError> {
    match parts.split_first() {
        Some((first, rest)) => later(
            left,
            [
                Piece::Word("${"),
                Piece::Expr(first.value.get()),
                Piece::Word("}"),
                Piece::Units(&first.behind),
                Piece::Parts(rest),
            ]
            .as_slice(),
        ),
        None => Ok(()),
    }
}

fn entries_pieces<'t>(left: &mut Left<'t>, entries: &'t [Entry]) -> Result<(), AllocError> {
    match entries.split_first() {
        Some((first, rest)) => later(
            left,
            [
                Piece::Expr(first.key.get()),
                Piece::Word(":"),
                Piece::Expr(first.value.get()),
                Piece::Word(comma(rest)),
                Piece::Entries(rest),
            ]
            .as_slice(),
        ),
        None => Ok(()),
    }
}

fn required_pieces<'t>(left: &mut Left<'t>, parameters: &'t [Parameter]) -> Result<(), AllocError> {
    match parameters.split_first() {
        Some((first, rest)) => later(
            left,
            [
                Piece::Parameter(first),
                Piece::Word(comma(rest)),
                Piece::Required(rest),
            ]
            .as_slice(),
        ),
        None => Ok(()),
    }
}

fn stmts_pieces<'t>(left: &mut Left<'t>, items: &'t [Stmt]) -> Result<(), AllocError> {
    match items.split_first() {
        Some((first, rest)) => later(left, [Piece::Stmt(first), Piece::Stmts(rest)].as_slice()),
        None => Ok(()),
    }
}

fn list_pieces<'t>(left: &mut Left<'t>, piece: &Piece<'t>) -> Result<(), AllocError> {
    match piece {
        Piece::Exprs(items) => exprs_pieces(left, *items),
        Piece::Names(names) => names_pieces(left, *names),
        Piece::Parts(parts) => parts_pieces(left, *parts),
        Piece::Entries(entries) => entries_pieces(left, *entries),
        Piece::Required(parameters) => required_pieces(left, *parameters),
        Piece::Stmts(items) => stmts_pieces(left, *items),
        Piece::Selectors(selectors) => match selectors.split_first() {
            Some((first, rest)) => selector_pieces(left, first, rest),
            None => Ok(()),
        },
        Piece::Optional(parameters) => match parameters.split_first() {
            Some((first, rest)) => optional_pieces(left, first, rest),
            None => Ok(()),
        },
        Piece::Declared(variables) => match variables.split_first() {
            Some((first, rest)) => variable_pieces(left, first, rest),
            None => Ok(()),
        },
        Piece::Catches(clauses) => match clauses.split_first() {
            Some((first, rest)) => catch_pieces(left, first, rest),
            None => Ok(()),
        },
        _ => Ok(()),
    }
}

// What a piece is made of; nothing where it is shown at once.
fn pieces<'t>(left: &mut Left<'t>, piece: &Piece<'t>) -> Result<(), AllocError> {
    match piece {
        Piece::Expr(expr) => expr_pieces(left, *expr),
        Piece::Head(head) => head_pieces(left, *head),
        Piece::Chain(chain) => later(
            left,
            [
                Piece::Head(&chain.head),
                Piece::Selectors(chain.selectors.as_slice()),
            ]
            .as_slice(),
        ),
        Piece::Target(target) => target_pieces(left, *target),
        Piece::Arguments(arguments) => later(
            left,
            [
                Piece::Word("("),
                Piece::Exprs(arguments.items.as_slice()),
                Piece::Word(")"),
            ]
            .as_slice(),
        ),
        Piece::Parameters(parameters) => parameters_pieces(left, *parameters),
        Piece::Parameter(parameter) => parameter_pieces(left, *parameter),
        Piece::Body(body) => body_pieces(left, *body),
        Piece::Stmt(stmt) => stmt_pieces(left, *stmt),
        Piece::Variables(variables) => later(
            left,
            [
                Piece::Word(final_word(variables.is_final)),
                Piece::Declared(variables.items.as_slice()),
            ]
            .as_slice(),
        ),
        _ => list_pieces(left, piece),
    }
}

fn show_units(alloc: Global, text: &mut String, units: &Text) -> Result<(), AllocError> {
    let bytes = units.to_utf8()?;
    text.push_str(String::from_utf8_lossy(alloc, bytes.as_slice())?.as_str())
}

fn show_span(alloc: Global, text: &mut String, span: Span) -> Result<(), AllocError> {
    text.push_str(format!(in alloc; "{}-{}:", span.from, span.to)?.as_str())
}

// What is shown at once.
fn show(
    alloc: Global,
    is_placed: bool,
    text: &mut String,
    piece: &Piece<'_>,
) -> Result<(), AllocError> {
    match piece {
        Piece::Word(word) => text.push_str(*word),
        Piece::Number(value) => text.push_str(format!(in alloc; "{value}")?.as_str()),
        Piece::Units(units) => show_units(alloc, text, *units),
        Piece::At(span) if is_placed => show_span(alloc, text, *span),
        Piece::Expr(expr) if is_placed => show_span(alloc, text, span_of(*expr)),
        Piece::Stmt(stmt) if is_placed => show_span(alloc, text, stmt_span(*stmt)),
        _ => Ok(()),
    }
}

fn in_words(alloc: Global, is_placed: bool, piece: Piece<'_>) -> Result<String, AllocError> {
    let mut text = String::new(alloc);
    let mut left = vec![in alloc; piece]?;
    for _turn in 0..10_000 {
        let Some(piece) = left.pop() else {
            return Ok(text);
        };
        show(alloc, is_placed, &mut text, &piece)?;
        pieces(&mut left, &piece)?;
    }
    Ok(text)
}

/// The tree in words; with places if they are wanted.
pub fn shown(alloc: Global, is_placed: bool, expr: &Expr) -> Result<String, AllocError> {
    in_words(alloc, is_placed, Piece::Expr(expr))
}

/// The statements in words.
pub fn shown_statements(alloc: Global, items: &[Stmt]) -> Result<String, AllocError> {
    in_words(alloc, false, Piece::Stmts(items))
}
