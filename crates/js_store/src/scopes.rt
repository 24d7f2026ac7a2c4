//! Names, looked for outwards through scopes.

ghost use Rattle.std.specs.Prelude.{◌≡◌, [], OnOk, IfOk};
ghost use Rattle.std.specs.Option.{is_some, unwrap_or, option_copied};
ghost use Rattle.std.specs.Map.{lookup};
ghost use Rattle.js_store.specs.Names.{same_name};
ghost use Rattle.js_store.specs.Scopes.{look_up, assign, given_by_host, scope_at};

use crate::names::Name;
use crate::store::Store;
use crate::value::Value;
use std::alloc::AllocError;
use store_lists::{Share, changes};

/// The value of a name, looked for outwards through these scopes.
#[tactic(auto, unfolding(crate::specs::Scopes::look_up))]
pub(crate) fn look_up_in<'a>(store: &Store<'a>, env: &[usize], name: &Name<'a>) -> Option<Value<'a>>
    ensures { result ≡ look_up store.now env.now name.now }
{
    for address in env {
        match bound_at(store, *address, name) {
            Some(bound) => return shared(bound),
            None => {}
        }
    }
    top_value(store, name)
}

/// What a name has in the scope at an address, where that declares it.
fn bound_at<'a, 's>(
    store: &'s Store<'a>,
    address: usize,
    name: &Name<'a>,
) -> Option<&'s Option<Value<'a>>>
    ensures { option_copied result ≡ lookup (same_name name.now) (scope_at store.now address) }
{
    match store.scopes.get(address) {
        Some(scope) => scope.get(name),
        None => None,
    }
}

/// The value of a name that no scope but the top scope declares.
fn top_value<'a>(store: &Store<'a>, name: &Name<'a>) -> Option<Value<'a>>
    ensures { result ≡ look_up store.now [] name.now }
{
    match store.top.get(name) {
        Some(bound) => shared(bound),
        None => given_by_host(name),
    }
}

/// What the host gives for a name that no file declares.
fn given_by_host<'a>(name: &Name<'a>) -> Option<Value<'a>>
    ensures { result ≡ given_by_host name.now }
{
    if name.is(b"host$") {
        Some(Value::Host)
    } else {
        None
    }
}

/// The value that a name has in the scope that declares it.
fn shared<'a>(bound: &Option<Value<'a>>) -> Option<Value<'a>>
    ensures { result ≡ bound.now }
{
    match bound {
        Some(value) => Some(value.share()),
        None => None,
    }
}

/// Gives a name another value in the scope that decides, looked for outwards through these scopes.
#[tactic(auto, unfolding(crate::specs::Scopes::assign))]
pub(crate) fn assign_in<'a>(
    store: &mut Store<'a>,
    env: &[usize],
    name: &Name<'a>,
    value: Value<'a>,
) -> Result<bool, AllocError>
    ensures result { IfOk result (λ done. done ≡ is_some (assign store.old env.now name.now value.entry)) }
    ensures store { OnOk result (store.new ≡ unwrap_or (assign store.old env.now name.now value.entry) store.old) }
{
    for address in env {
        match bound_at(store, *address, name) {
            None => {}
            Some(None) => return Ok(false),
            Some(Some(_)) => {
                changes::put_at(&mut store.scopes, *address, name.share(), Some(value))?;
                return Ok(true);
            }
        }
    }
    assign_top(store, name, value)
}

/// Gives a name that no scope but the top scope declares another value.
fn assign_top<'a>(
    store: &mut Store<'a>,
    name: &Name<'a>,
    value: Value<'a>,
) -> Result<bool, AllocError>
    ensures result { IfOk result (λ done. done ≡ is_some (assign store.old [] name.now value.entry)) }
    ensures store { OnOk result (store.new ≡ unwrap_or (assign store.old [] name.now value.entry) store.old) }
{
    match store.top.get(name) {
        None => Ok(false),
        Some(None) => Ok(false),
        Some(Some(_)) => {
            store.top.put(name.share(), Some(value))?;
            Ok(true)
        }
    }
}
