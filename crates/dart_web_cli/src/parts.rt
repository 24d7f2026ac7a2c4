//! The parts of the trees that are emitted, without places.
ghost use Rattle.std.specs.Prelude.{◌≡◌, [], ◌∷◌, ◌++◌, IfOk, OnOk};
ghost use Rattle.std.specs.Fmt.{decimal};
ghost use Rattle.dart_web_cli.specs.Translation.{numbered_name, alone, operation, variable, selected, host_print, string_of, operation_let, variable_let, last_statement, printed_of, print_of, main_call, main_function, file_with};

use code_units::Bytes;
use itoa::Buffer;
use js_tree::{
    JsExpr, JsFile, JsFunction, JsHead, JsItem, JsMember, JsOperator, JsPrimary, JsSelector, JsStmt,
};
use sqlite_items::{Boxed, Items};
use std::alloc::{AllocError, Global};

// ---- names

fn push_number(out: &mut Bytes, number: u64) -> Result<(), AllocError>
    ensures { OnOk result (out.new ≡ out.old ++ decimal number) }
{
    let mut buffer = Buffer::new();
    out.extend(buffer.format(number).as_bytes())
}

fn numbered_name(alloc: Global, letter: u8, number: u64) -> Result<Items<u8>, AllocError>
    ensures { IfOk result (λ name. name ≡ numbered_name letter number) }
{
    let mut name = Bytes::new(alloc);
    name.push(letter)?;
    push_number(&mut name, number)?;
    name.extend(b"$")?;
    Ok(Items::from_vec(name.into_vec()))
}

// ---- expressions

/// A head that nothing is selected from.
pub fn alone(alloc: Global, head: JsHead) -> JsPrimary
    ensures { result ≡ alone head }
{
    JsPrimary {
        head,
        selectors: Items::new(alloc),
    }
}

/// The value of the operator of this number.
pub fn operation(alloc: Global, number: u64) -> Result<JsPrimary, AllocError>
    ensures { IfOk result (λ value. value ≡ operation number) }
{
    let name = numbered_name(alloc, b'a', number)?;
    Ok(alone(alloc, JsHead::Name(name)))
}

/// The name of the program of this number.
pub fn variable(alloc: Global, number: u64) -> Result<JsPrimary, AllocError>
    ensures { IfOk result (λ value. value ≡ variable number) }
{
    let name = numbered_name(alloc, b'v', number)?;
    Ok(alone(alloc, JsHead::Name(name)))
}

fn one_argument(alloc: Global, argument: JsExpr) -> Result<Items<JsExpr>, AllocError>
    ensures { IfOk result (λ arguments. arguments ≡ argument ∷ []) }
{
    let mut arguments = Items::new(alloc);
    arguments.push(argument)?;
    Ok(arguments)
}

fn string_of(alloc: Global, value: JsPrimary) -> Result<JsExpr, AllocError>
    ensures { IfOk result (λ string. string ≡ string_of value) }
{
    let arguments = one_argument(alloc, JsExpr::Primary(value))?;
    Ok(JsExpr::Primary(alone(alloc, JsHead::StringOf(arguments))))
}

fn selected(alloc: Global, name: &[u8], selector: JsSelector) -> Result<JsPrimary, AllocError>
    ensures { IfOk result (λ primary. primary ≡ selected name.now selector) }
{
    let name = Items::from_slice(alloc, name)?;
    let mut selectors = Items::new(alloc);
    selectors.push(selector)?;
    Ok(JsPrimary {
        head: JsHead::Name(name),
        selectors,
    })
}

fn host_print(alloc: Global, value: JsExpr) -> Result<JsPrimary, AllocError>
    ensures { IfOk result (λ primary. primary ≡ host_print value) }
{
    let arguments = one_argument(alloc, value)?;
    selected(
        alloc,
        b"host$".as_slice(),
        JsSelector::Method(JsMember::Print, arguments),
    )
}

// ---- statements

/// `let ak$ = left operator right;`, where k is the number.
pub fn operation_let(
    alloc: Global,
    number: u64,
    operator: JsOperator,
    left: JsPrimary,
    right: JsPrimary,
) -> Result<JsStmt, AllocError>
    ensures { IfOk result (λ statement. statement ≡ operation_let number operator left right) }
{
    let name = numbered_name(alloc, b'a', number)?;
    let left = Boxed::new(alloc, left)?;
    let right = Boxed::new(alloc, right)?;
    Ok(JsStmt::Let {
        at: 0,
        name,
        value: JsExpr::Binary(operator, left, right),
    })
}

/// `let vi$ = value;`, where i is the number.
pub fn variable_let(alloc: Global, number: u64, value: JsPrimary) -> Result<JsStmt, AllocError>
    ensures { IfOk result (λ statement. statement ≡ variable_let number value) }
{
    let name = numbered_name(alloc, b'v', number)?;
    Ok(JsStmt::Let {
        at: 0,
        name,
        value: JsExpr::Primary(value),
    })
}

fn printed_of(alloc: Global, is_text: bool, value: JsPrimary) -> Result<JsExpr, AllocError>
    ensures { IfOk result (λ printed. printed ≡ printed_of is_text value) }
{
    if is_text {
        Ok(JsExpr::Primary(value))
    } else {
        string_of(alloc, value)
    }
}

/// The print of a value.
pub fn print_of(alloc: Global, is_text: bool, value: JsPrimary) -> Result<JsStmt, AllocError>
    ensures { IfOk result (λ statement. statement ≡ print_of is_text value) }
{
    let printed = printed_of(alloc, is_text, value)?;
    let primary = host_print(alloc, printed)?;
    Ok(JsStmt::Perform { at: 0, primary })
}

/// `return null;`
pub fn last_statement(alloc: Global) -> JsStmt
    ensures { result ≡ last_statement }
{
    JsStmt::Return {
        at: 0,
        value: JsExpr::Primary(alone(alloc, JsHead::Null)),
    }
}

// ---- the file

fn main_call(alloc: Global) -> Result<JsItem, AllocError>
    ensures { IfOk result (λ item. item ≡ main_call) }
{
    let primary = selected(
        alloc,
        b"main$".as_slice(),
        JsSelector::Call(Items::new(alloc)),
    )?;
    Ok(JsItem::Statement(JsStmt::Perform { at: 0, primary }))
}

fn main_function(alloc: Global, body: Items<JsStmt>) -> Result<JsItem, AllocError>
    ensures { IfOk result (λ item. item ≡ main_function body) }
{
    let name = Items::from_slice(alloc, b"main$".as_slice())?;
    Ok(JsItem::Declared {
        name,
        function: JsFunction {
            parameters: Items::new(alloc),
            body,
        },
    })
}

/// The function of these statements, and its call.
pub fn file_with(alloc: Global, body: Items<JsStmt>) -> Result<JsFile, AllocError>
    ensures { IfOk result (λ file. file ≡ file_with body) }
{
    let mut items = Items::new(alloc);
    items.push(main_function(alloc, body)?)?;
    items.push(main_call(alloc)?)?;
    Ok(JsFile { items })
}
