//! The numbers of the names under which a member is found.
ghost use Rattle.std.specs.Prelude.{◌≡◌, ◌==◌, [], if◌then◌else◌, map, slice_get, IfOk};
ghost use Rattle.dart_program.specs.Declares.{AField, declared_by_member, setter_text};
ghost use Rattle.selectors.specs.Selectors.{number_of, with_setter};
ghost use Rattle.member_tables.specs.Keys.{declared_keys, keys_in, numbers_of};
ghost use Rattle.member_tables.specs.Lookup as spec;

use dart_grammar::declarations::Member;
use dart_grammar::trees::{Body, Name, Variables};
use library_scopes::doubles::operator_text;
use library_scopes::reading::name_of_variable;
use selectors::Selectors;
use sqlite_items::at;
use std::alloc::AllocError;

const EQUALS: u16 = 61;

/// The numbers of the names under which a member is found, each where it has one.
#[derive(Clone, Copy)]
pub enum Keys {
    Nothing,
    One(Option<u32>),
    /// Of a variable that can be set.
    Two(Option<u32>, Option<u32>),
}

fn setter_number(selectors: &Selectors, file: u32, name: &Name) -> Result<Option<u32>, AllocError>
    ensures { IfOk result (λ number. number ≡ number_of file (setter_text name.now.text) selectors.now) }
{
    let mut text = name.text.copy()?;
    text.push(EQUALS)?;
    Ok(selectors.number(file, text.as_slice()))
}

fn has_body(body: &Body) -> bool
    ensures { result ≡ spec.has_body body.now }
{
    match body {
        Body::Abstract => false,
        _ => true,
    }
}

/// Of a method, an operator or a getter.
fn method_keys(selectors: &Selectors, file: u32, is_static: bool, body: &Body, name: &[u16]) -> Keys
    ensures { keys_in result ≡ numbers_of selectors.now file (spec.if_found is_static body.now name.now) }
{
    if !is_static && has_body(body) {
        Keys::One(selectors.number(file, name))
    } else {
        Keys::Nothing
    }
}

fn setter_keys(
    selectors: &Selectors,
    file: u32,
    is_static: bool,
    body: &Body,
    name: &Name,
) -> Result<Keys, AllocError>
    ensures { IfOk result (λ keys. keys_in keys ≡ numbers_of selectors.now file (spec.if_found is_static body.now (setter_text name.now.text))) }
{
    if !is_static && has_body(body) {
        Ok(Keys::One(setter_number(selectors, file, name)?))
    } else {
        Ok(Keys::Nothing)
    }
}

fn variable_keys(
    selectors: &Selectors,
    file: u32,
    is_static: bool,
    is_final: bool,
    name: &Name,
) -> Result<Keys, AllocError>
    ensures { IfOk result (λ keys. keys_in keys ≡ numbers_of selectors.now file (if is_static then [] else with_setter is_final name.now.text)) }
{
    if is_static {
        return Ok(Keys::Nothing);
    }
    let number = selectors.number(file, name.text.as_slice());
    if is_final {
        Ok(Keys::One(number))
    } else {
        Ok(Keys::Two(number, setter_number(selectors, file, name)?))
    }
}

/// Of the field of this number among those that are declared together.
#[tactic(auto, using(crate::proofs::Named::no_field))]
fn field_keys(
    selectors: &Selectors,
    file: u32,
    is_static: bool,
    fields: &Variables,
    number: u32,
) -> Result<Keys, AllocError>
    ensures { IfOk result (λ keys. keys_in keys ≡ declared_keys selectors.now file (slice_get (map (AField is_static fields.now.is_final) fields.now.items) number)) }
{
    match at(fields.items.as_slice(), number as usize) {
        Some(field) => {
            let name = name_of_variable(field);
            variable_keys(selectors, file, is_static, fields.is_final, name)
        }
        None => Ok(Keys::Nothing),
    }
}

/// What is declared alone has number 0.
fn if_first(number: u32, keys: Keys) -> Keys
    ensures { keys_in result ≡ (if number == 0 then keys_in keys else []) }
{
    if number == 0 { keys } else { Keys::Nothing }
}

/// Of what a member of a body declares under this number.
pub fn keys_of(
    selectors: &Selectors,
    file: u32,
    member: &Member,
    number: u32,
) -> Result<Keys, AllocError>
    ensures { IfOk result (λ keys. keys_in keys ≡ declared_keys selectors.now file (slice_get (declared_by_member member.now) number)) }
{
    match member {
        Member::Function(is_static, function) => {
            let name = function.name.text.as_slice();
            let keys = method_keys(selectors, file, *is_static, &function.body, name);
            Ok(if_first(number, keys))
        }
        Member::Getter(is_static, getter) => {
            let name = getter.name.text.as_slice();
            let keys = method_keys(selectors, file, *is_static, &getter.body, name);
            Ok(if_first(number, keys))
        }
        Member::Setter(is_static, setter) => {
            let keys = setter_keys(selectors, file, *is_static, &setter.body, &setter.name)?;
            Ok(if_first(number, keys))
        }
        Member::Fields(is_static, _, fields) => {
            field_keys(selectors, file, *is_static, fields, number)
        }
        Member::Operator(operator) => {
            let name = operator_text(operator);
            let keys = method_keys(selectors, file, false, &operator.body, name);
            Ok(if_first(number, keys))
        }
        Member::Constructor(_) => Ok(Keys::Nothing),
    }
}
