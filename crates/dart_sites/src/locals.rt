//! The names that statements and parameter lists declare.

ghost use Rattle.std.specs.Prelude.{◌≡◌, [], ◌∷◌, ◌++◌, map, OnOk, IfOk};
ghost use Rattle.std.specs.List.{flat_map};
ghost use Rattle.dart_sites.specs.Functions as functions;
ghost use Rattle.dart_sites.specs.Statements as statements;
ghost use Rattle.dart_sites.specs.Trees.{stmt_in, variable_in, variables_in, parameters_in, optional_in};

use crate::asked::span_in;
use crate::lent::Lent;
use crate::scopes::{Local, LocalKind, Locals};
use dart_grammar::trees::{
    Name, OptionalParameter, Parameter, Parameters, Stmt, Variable, Variables,
};
use std::alloc::{AllocError, Global};

/// A name that is declared without a value.
pub fn push_name<'a>(
    locals: &mut Locals<'a>,
    kind: LocalKind,
    is_final: bool,
    name: &'a Name,
) -> Result<(), AllocError>
    ensures { OnOk result (locals.new ≡ locals.old ++ statements.name_local kind is_final name.now ∷ []) }
{
    locals.push(Local {
        name: Lent::new(name),
        ends: name.span.to,
        kind,
        is_final,
    })
}

fn push_variable<'a>(
    locals: &mut Locals<'a>,
    kind: LocalKind,
    is_final: bool,
    variable: &'a Variable,
) -> Result<(), AllocError>
    ensures { OnOk result (locals.new ≡ locals.old ++ statements.variable_local kind is_final (variable_in variable.now) ∷ []) }
{
    match variable {
        Variable::Unset(name) => push_name(locals, kind, is_final, name),
        Variable::Initialised(name, value) => locals.push(Local {
            name: Lent::new(name),
            ends: span_in(value.get()).to,
            kind,
            is_final,
        }),
    }
}

/// Variables that are declared together.
#[tactic(auto, using(crate::proofs::Parts::variables_parts))]
pub fn push_variables<'a>(
    locals: &mut Locals<'a>,
    kind: LocalKind,
    variables: &'a Variables,
) -> Result<(), AllocError>
    ensures { OnOk result (locals.new ≡ locals.old ++ statements.variable_locals kind (variables_in variables.now)) }
{
    for variable in variables.items.as_slice() {
        push_variable(locals, kind, variables.is_final, variable)?;
    }
    Ok(())
}

/// The names that a statement declares in the scope that it stands in.
pub fn push_stmt<'a>(locals: &mut Locals<'a>, stmt: &'a Stmt) -> Result<(), AllocError>
    ensures { OnOk result (locals.new ≡ locals.old ++ (stmt_in stmt.now).locals) }
{
    match stmt {
        Stmt::Declare(_, variables) => push_variables(locals, LocalKind::Variable, variables),
        Stmt::LocalFunction(_, name, _, _) => push_name(locals, LocalKind::Function, false, name),
        Stmt::Nested(_, _) => Ok(()),
        Stmt::Empty(_) => Ok(()),
        Stmt::Evaluate(_, _) => Ok(()),
        Stmt::If(_, _, _) => Ok(()),
        Stmt::IfElse(_, _, _, _) => Ok(()),
        Stmt::While(_, _, _) => Ok(()),
        Stmt::Do(_, _, _) => Ok(()),
        Stmt::ForDeclared(_, _, _, _, _) => Ok(()),
        Stmt::For(_, _, _, _, _) => Ok(()),
        Stmt::ForInDeclared(_, _, _, _, _) => Ok(()),
        Stmt::ForIn(_, _, _, _) => Ok(()),
        Stmt::Break(_) => Ok(()),
        Stmt::Continue(_) => Ok(()),
        Stmt::Return(_) => Ok(()),
        Stmt::ReturnValue(_, _) => Ok(()),
        Stmt::Rethrow(_) => Ok(()),
        Stmt::Assert(_) => Ok(()),
        Stmt::Try(_, _, _) => Ok(()),
        Stmt::TryFinally(_, _, _, _) => Ok(()),
    }
}

/// The names that the statements of a block declare in it.
pub fn block_locals<'a>(alloc: Global, stmts: &'a [Stmt]) -> Result<Locals<'a>, AllocError>
    ensures { IfOk result (λ locals. locals ≡ flat_map (λ y. y.locals) (map stmt_in stmts.now)) }
{
    let mut locals = Locals::new(alloc);
    for stmt in stmts {
        push_stmt(&mut locals, stmt)?;
    }
    Ok(locals)
}

/// A parameter's name, unless `this` stands before it.
pub fn push_parameter<'a>(
    locals: &mut Locals<'a>,
    parameter: &'a Parameter,
) -> Result<(), AllocError>
    ensures { OnOk result (locals.new ≡ locals.old ++ functions.parameter_locals parameter.now) }
{
    match parameter.this {
        Some(_) => Ok(()),
        None => push_name(
            locals,
            LocalKind::Parameter,
            parameter.is_final,
            &parameter.name,
        ),
    }
}

/// The parameter of an optional one.
pub fn parameter_of(optional: &OptionalParameter) -> &Parameter
    ensures { result.now ≡ (optional_in optional.now).parameter }
{
    match optional {
        OptionalParameter::WithoutDefault(parameter) => parameter,
        OptionalParameter::WithDefault(parameter, _) => parameter,
    }
}

fn push_required<'a>(locals: &mut Locals<'a>, required: &'a [Parameter]) -> Result<(), AllocError>
    ensures { OnOk result (locals.new ≡ locals.old ++ flat_map functions.parameter_locals required.now) }
{
    for parameter in required {
        push_parameter(locals, parameter)?;
    }
    Ok(())
}

fn push_optional<'a>(
    locals: &mut Locals<'a>,
    optional: &'a [OptionalParameter],
) -> Result<(), AllocError>
    ensures { OnOk result (locals.new ≡ locals.old ++ flat_map (λ y. functions.parameter_locals y.parameter) (map optional_in optional.now)) }
{
    for parameter in optional {
        push_parameter(locals, parameter_of(parameter))?;
    }
    Ok(())
}

/// The names that a parameter list declares.
#[tactic(auto, using(crate::proofs::Parts::parameters_locals))]
pub fn list_locals<'a>(alloc: Global, parameters: &'a Parameters) -> Result<Locals<'a>, AllocError>
    ensures { IfOk result (λ locals. locals ≡ (parameters_in parameters.now).locals) }
{
    let mut locals = Locals::new(alloc);
    push_required(&mut locals, parameters.required.as_slice())?;
    push_optional(&mut locals, parameters.optional.as_slice())?;
    Ok(locals)
}
