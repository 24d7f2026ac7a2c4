//! What files declare, in words. `from-to` are the bytes in which it stands; what expressions and statements are is not
//! shown.

use code_units::Text;
use dart_grammar::declarations::{
    Alias, Class, Combinator, Constructor, Declaration, FileTree, Function, Getter, Import,
    Initialiser, Member, OperatorMethod, OperatorName, Setter,
};
use dart_grammar::trees::{
    Body, Name, Names, OptionalParameter, Parameter, Parameters, Span, Variable, Variables,
};
use std::alloc::{AllocError, Global};

type Shown = Result<String, AllocError>;

fn units(alloc: Global, text: &Text) -> Shown {
    let bytes = text.to_utf8()?;
    String::from_utf8_lossy(alloc, bytes.as_slice())
}

fn place(alloc: Global, span: Span) -> Shown {
    format!(in alloc; "{}-{}", span.from, span.to)
}

// The names with this between.
fn named(alloc: Global, between: &str, names: &Names) -> Shown {
    let mut text = String::new(alloc);
    for name in names.as_slice() {
        if !text.is_empty() {
            text.push_str(between)?;
        }
        text.push_str(units(alloc, &name.text)?.as_str())?;
    }
    Ok(text)
}

// Types, each behind the words.
fn types(alloc: Global, words: &str, items: &[Names]) -> Shown {
    let mut text = String::new(alloc);
    for names in items {
        text.push_str(words)?;
        text.push_str(named(alloc, ".", names)?.as_str())?;
    }
    Ok(text)
}

fn superclass(alloc: Global, names: &Option<Names>) -> Shown {
    match names {
        Some(names) => { format!(in alloc; " extends {}", named(alloc, ".", names)?.as_str()) }
        None => Ok(String::new(alloc)),
    }
}

fn type_parameters(alloc: Global, names: &Names) -> Shown {
    if names.is_empty() {
        return Ok(String::new(alloc));
    }
    format!(in alloc; "<{}>", named(alloc, ",", names)?.as_str())
}

fn parameter(alloc: Global, parameter: &Parameter) -> Shown {
    let finality = if parameter.is_final { "final " } else { "" };
    let this = if parameter.this.is_some() {
        "this."
    } else {
        ""
    };
    let name = units(alloc, &parameter.name.text)?;
    format!(in alloc; "{finality}{this}{}", name.as_str())
}

fn optional(alloc: Global, item: &OptionalParameter) -> Shown {
    match item {
        OptionalParameter::WithoutDefault(inner) => parameter(alloc, inner),
        OptionalParameter::WithDefault(inner, _) => {
            format!(in alloc; "{}=", parameter(alloc, inner)?.as_str())
        }
    }
}

// The parameters, each with a blank behind it, and the optional ones behind a bracket.
fn parameters(alloc: Global, parameters: &Parameters) -> Shown {
    let mut text = String::from_str(alloc, "(")?;
    for item in parameters.required.as_slice() {
        text.push_str(parameter(alloc, item)?.as_str())?;
        text.push_str(" ")?;
    }
    for item in parameters.optional.as_slice() {
        text.push_str("[")?;
        text.push_str(optional(alloc, item)?.as_str())?;
    }
    text.push_str(")")?;
    Ok(text)
}

fn body(alloc: Global, body: &Body) -> Shown {
    match body {
        Body::Gives(_) => String::from_str(alloc, "=>"),
        Body::Block(items) => format!(in alloc; "{} statements", items.len()),
        Body::Abstract => String::from_str(alloc, "abstract"),
        Body::Native(name) => format!(in alloc; "native {}", units(alloc, &name.text)?.as_str()),
    }
}

fn function(alloc: Global, function: &Function) -> Shown {
    let name = units(alloc, &function.name.text)?;
    let parameters = parameters(alloc, &function.parameters)?;
    let body = body(alloc, &function.body)?;
    let at = place(alloc, function.span)?;
    format!(in alloc;
        "{} {}{} {}",
        at.as_str(),
        name.as_str(),
        parameters.as_str(),
        body.as_str()
    )
}

fn getter(alloc: Global, getter: &Getter) -> Shown {
    let name = units(alloc, &getter.name.text)?;
    let body = body(alloc, &getter.body)?;
    let at = place(alloc, getter.span)?;
    format!(in alloc; "{} get {} {}", at.as_str(), name.as_str(), body.as_str())
}

fn setter(alloc: Global, setter: &Setter) -> Shown {
    let name = units(alloc, &setter.name.text)?;
    let parameter = parameter(alloc, &setter.parameter)?;
    let body = body(alloc, &setter.body)?;
    let at = place(alloc, setter.span)?;
    format!(in alloc;
        "{} set {}({}) {}",
        at.as_str(),
        name.as_str(),
        parameter.as_str(),
        body.as_str()
    )
}

fn variable(alloc: Global, item: &Variable) -> Shown {
    match item {
        Variable::Unset(name) => units(alloc, &name.text),
        Variable::Initialised(name, _) => {
            format!(in alloc; "{}=", units(alloc, &name.text)?.as_str())
        }
    }
}

fn variables(alloc: Global, span: Span, variables: &Variables) -> Shown {
    let mut text = place(alloc, span)?;
    text.push_str(if variables.is_final { " final" } else { " var" })?;
    for item in variables.items.as_slice() {
        text.push_str(" ")?;
        text.push_str(variable(alloc, item)?.as_str())?;
    }
    Ok(text)
}

fn operator_word(operator: OperatorName) -> &'static str {
    match operator {
        OperatorName::Plus => "+",
        OperatorName::Minus => "-",
        OperatorName::Times => "*",
        OperatorName::Divide => "~/",
        OperatorName::Modulo => "%",
        OperatorName::Less => "<",
        OperatorName::Greater => ">",
        OperatorName::LessEqual => "<=",
        OperatorName::GreaterEqual => ">=",
        OperatorName::Index => "[]",
        OperatorName::SetIndex => "[]=",
    }
}

fn operator(alloc: Global, method: &OperatorMethod) -> Shown {
    let word = operator_word(method.operator);
    let parameters = parameters(alloc, &method.parameters)?;
    let body = body(alloc, &method.body)?;
    let sign = place(alloc, method.sign)?;
    let at = place(alloc, method.span)?;
    format!(in alloc;
        "{} operator {} {word}{} {}",
        at.as_str(),
        sign.as_str(),
        parameters.as_str(),
        body.as_str()
    )
}

fn own_name(alloc: Global, name: &Option<Name>) -> Shown {
    match name {
        Some(name) => format!(in alloc; ".{}", units(alloc, &name.text)?.as_str()),
        None => Ok(String::new(alloc)),
    }
}

fn initialiser(alloc: Global, item: &Initialiser) -> Shown {
    match item {
        Initialiser::Field(span, name, _) => {
            let at = place(alloc, *span)?;
            format!(in alloc; "{} {}=", at.as_str(), units(alloc, &name.text)?.as_str())
        }
        Initialiser::Super(span, name, arguments) => {
            let at = place(alloc, *span)?;
            let own = own_name(alloc, name)?;
            format!(in alloc;
                "{} super{}({})",
                at.as_str(),
                own.as_str(),
                arguments.items.len()
            )
        }
    }
}

fn constructor(alloc: Global, constructor: &Constructor) -> Shown {
    let mut text = place(alloc, constructor.span)?;
    text.push_str(" new ")?;
    text.push_str(named(alloc, ".", &constructor.names)?.as_str())?;
    text.push_str(parameters(alloc, &constructor.parameters)?.as_str())?;
    for item in constructor.initialisers.as_slice() {
        text.push_str(" : ")?;
        text.push_str(initialiser(alloc, item)?.as_str())?;
    }
    text.push_str(" ")?;
    text.push_str(body(alloc, &constructor.body)?.as_str())?;
    Ok(text)
}

fn behind_static(alloc: Global, is_static: bool, rest: String) -> Shown {
    if is_static {
        format!(in alloc; "static {}", rest.as_str())
    } else {
        Ok(rest)
    }
}

fn member(alloc: Global, item: &Member) -> Shown {
    match item {
        Member::Function(is_static, inner) => {
            behind_static(alloc, *is_static, function(alloc, inner)?)
        }
        Member::Getter(is_static, inner) => behind_static(alloc, *is_static, getter(alloc, inner)?),
        Member::Setter(is_static, inner) => behind_static(alloc, *is_static, setter(alloc, inner)?),
        Member::Fields(is_static, span, inner) => {
            behind_static(alloc, *is_static, variables(alloc, *span, inner)?)
        }
        Member::Operator(inner) => operator(alloc, inner),
        Member::Constructor(inner) => constructor(alloc, inner),
    }
}

// The members, each in braces.
fn members(alloc: Global, items: &[Member]) -> Shown {
    let mut text = String::new(alloc);
    for item in items {
        text.push_str(" {")?;
        text.push_str(member(alloc, item)?.as_str())?;
        text.push_str("}")?;
    }
    Ok(text)
}

fn abstract_word(is_abstract: bool) -> &'static str {
    if is_abstract { "abstract " } else { "" }
}

fn class(alloc: Global, class: &Class) -> Shown {
    let mut text = place(alloc, class.span)?;
    text.push_str(" class ")?;
    text.push_str(abstract_word(class.is_abstract))?;
    text.push_str(units(alloc, &class.name.text)?.as_str())?;
    text.push_str(type_parameters(alloc, &class.type_parameters)?.as_str())?;
    text.push_str(superclass(alloc, &class.superclass)?.as_str())?;
    text.push_str(types(alloc, " with ", class.mixins.as_slice())?.as_str())?;
    text.push_str(types(alloc, " implements ", class.interfaces.as_slice())?.as_str())?;
    text.push_str(members(alloc, class.members.as_slice())?.as_str())?;
    Ok(text)
}

fn alias(alloc: Global, alias: &Alias) -> Shown {
    let mut text = place(alloc, alias.span)?;
    text.push_str(" alias ")?;
    text.push_str(abstract_word(alias.is_abstract))?;
    text.push_str(units(alloc, &alias.name.text)?.as_str())?;
    text.push_str(type_parameters(alloc, &alias.type_parameters)?.as_str())?;
    text.push_str(" = ")?;
    text.push_str(named(alloc, ".", &alias.superclass)?.as_str())?;
    text.push_str(types(alloc, " with ", alias.mixins.as_slice())?.as_str())?;
    text.push_str(types(alloc, " implements ", alias.interfaces.as_slice())?.as_str())?;
    Ok(text)
}

fn combinator(alloc: Global, item: &Combinator) -> Shown {
    let word = if item.hides { "hide" } else { "show" };
    format!(in alloc; " {word} {}", named(alloc, ",", &item.names)?.as_str())
}

fn prefix(alloc: Global, name: &Option<Name>) -> Shown {
    match name {
        Some(name) => format!(in alloc; " as {}", units(alloc, &name.text)?.as_str()),
        None => Ok(String::new(alloc)),
    }
}

fn import(alloc: Global, import: &Import) -> Shown {
    let mut text = place(alloc, import.span)?;
    text.push_str(" import ")?;
    text.push_str(place(alloc, import.uri_span)?.as_str())?;
    text.push_str(" ")?;
    text.push_str(units(alloc, &import.uri)?.as_str())?;
    text.push_str(if import.is_deferred { " deferred" } else { "" })?;
    text.push_str(prefix(alloc, &import.prefix)?.as_str())?;
    for item in import.combinators.as_slice() {
        text.push_str(combinator(alloc, item)?.as_str())?;
    }
    Ok(text)
}

fn declaration(alloc: Global, item: &Declaration) -> Shown {
    match item {
        Declaration::Class(inner) => class(alloc, inner),
        Declaration::Alias(inner) => alias(alloc, inner),
        Declaration::Function(inner) => function(alloc, inner),
        Declaration::Getter(inner) => getter(alloc, inner),
        Declaration::Setter(inner) => setter(alloc, inner),
        Declaration::Variables(span, inner) => variables(alloc, *span, inner),
    }
}

// Behind what is declared before.
fn append(text: &mut String, item: &str) -> Result<(), AllocError> {
    if !text.is_empty() {
        text.push_str("; ")?;
    }
    text.push_str(item)
}

/// The imports and the declarations of a file, with `; ` between.
pub fn outline(alloc: Global, tree: &FileTree) -> Shown {
    let mut text = String::new(alloc);
    for item in tree.imports.as_slice() {
        append(&mut text, import(alloc, item)?.as_str())?;
    }
    for item in tree.declarations.as_slice() {
        append(&mut text, declaration(alloc, item)?.as_str())?;
    }
    Ok(text)
}
