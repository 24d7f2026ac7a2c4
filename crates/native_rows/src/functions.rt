//! Calls on function values; the code of a literal is a number here.

use crate::arguments::Arguments;
use crate::values::shown;
use anyhow::Result;
use dart_store::{Function, Functions, make_function};

/// A new function of this code.
pub fn literal<'a>(made: &mut Functions<'a, u32>, args: &Arguments<'a, '_>) -> Result<String> {
    let function = make_function(made, Function::Literal(args.number(0)?))?;
    Ok(shown(args.alloc, &function)?)
}

/// A new function: a method, read from a value.
pub fn method<'a>(made: &mut Functions<'a, u32>, args: &Arguments<'a, '_>) -> Result<String> {
    let function = make_function(made, Function::Method(args.number(0)?, args.value(1)?))?;
    Ok(shown(args.alloc, &function)?)
}

/// What a function holds.
pub fn function_at<'a>(made: &Functions<'a, u32>, args: &Arguments<'a, '_>) -> Result<String> {
    let alloc = args.alloc;
    let text = match made.get(args.address(0, "function:")?) {
        Some(Function::Literal(code)) => format!(in alloc; "literal {code}")?,
        Some(Function::Method(member, value)) => {
            format!(in alloc; "method {member} {}", shown(alloc, value)?)?
        }
        None => format!(in alloc; "none")?,
    };
    Ok(text)
}
