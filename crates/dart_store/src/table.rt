//! What each native does.

ghost use Rattle.std.specs.Prelude.{◌≡◌, IfOk, OnOk, slice_get};
ghost use Rattle.dart_store.specs.Table.{soon, number_at, text_at, list_of, map_of, native_gives, printed};

use crate::answers::{Applied, Thrower, has_room};
use crate::natives::Native;
use crate::store::Store;
use crate::value::{Value, list_in, map_in, number_in, text_in};
use crate::{lists, maps, numbers, texts};
use bumpalo::Bump;
use std::alloc::{AllocError, Global};
use store_lists::{Share, SharedText};

fn number_at(args: &[Value], at: usize) -> Option<i64>
    ensures { result ≡ number_at args.now at }
{
    number_in(args.get(at))
}

fn text_at<'a>(args: &[Value<'a>], at: usize) -> Option<SharedText<'a>>
    ensures { result ≡ text_at args.now at }
{
    text_in(args.get(at))
}

fn list_of(args: &[Value]) -> Option<usize>
    ensures { result ≡ list_of args.now }
{
    list_in(args.get(0))
}

fn map_of(args: &[Value]) -> Option<usize>
    ensures { result ≡ map_of args.now }
{
    map_in(args.get(0))
}

fn value_at<'a>(args: &[Value<'a>], at: usize) -> Option<Value<'a>>
    ensures { result ≡ slice_get args.now at }
{
    match args.get(at) {
        Some(value) => Some(value.share()),
        None => None,
    }
}

/// Makes a callback ready.
fn soon<'a>(store: &mut Store<'a>, a: Option<Value<'a>>) -> Result<Applied<'a>, AllocError>
    ensures applied { IfOk result (λ applied. applied ≡ (soon store.old a.entry).0) }
    ensures store { OnOk result (store.new ≡ (soon store.old a.entry).1) }
{
    match a {
        Some(a) => {
            if has_room(store.readied) {
                store.make_ready(a)?;
                Ok(Applied::Gives(Value::Null))
            } else {
                Ok(Applied::Leaves)
            }
        }
        None => Ok(Applied::Throws(Thrower::Argument)),
    }
}

/// What the call of a native prints: the text of `print`.
pub fn printed<'a>(native: Native, args: &[Value<'a>]) -> Option<SharedText<'a>>
    ensures { result ≡ printed native args.now }
{
    match native {
        Native::Print => text_at(args, 0),
        _ => None,
    }
}

/// Calls a native on its arguments, the receiver first. Where it throws or leaves the whole numbers, the store is as it was.
/// Texts that it makes lie in the arena. After want of memory the store may only be dropped.
pub fn apply_native<'a>(
    alloc: Global,
    arena: &'a Bump,
    store: &mut Store<'a>,
    native: Native,
    args: &[Value<'a>],
) -> Result<Applied<'a>, AllocError>
    ensures applied { IfOk result (λ applied. applied ≡ (native_gives store.old native args.now).0) }
    ensures store { OnOk result (store.new ≡ (native_gives store.old native args.now).1) }
{
    match native {
        Native::Print => Ok(texts::printing(text_at(args, 0))),
        Native::Soon => soon(store, value_at(args, 0)),
        Native::ObjectText => texts::object_text(arena, store, args.get(0)),
        Native::IntAdd => Ok(numbers::sum(number_at(args, 0), number_at(args, 1))),
        Native::IntSub => Ok(numbers::difference(number_at(args, 0), number_at(args, 1))),
        Native::IntMul => Ok(numbers::product(number_at(args, 0), number_at(args, 1))),
        Native::IntNeg => Ok(numbers::negative(number_at(args, 0))),
        Native::IntDiv => Ok(numbers::quotient(number_at(args, 0), number_at(args, 1))),
        Native::IntMod => Ok(numbers::remainder(number_at(args, 0), number_at(args, 1))),
        Native::IntLess => Ok(numbers::less(number_at(args, 0), number_at(args, 1))),
        Native::IntMore => Ok(numbers::more(number_at(args, 0), number_at(args, 1))),
        Native::IntUpTo => Ok(numbers::up_to(number_at(args, 0), number_at(args, 1))),
        Native::IntFrom => Ok(numbers::from(number_at(args, 0), number_at(args, 1))),
        Native::IntText => numbers::digits(arena, number_at(args, 0)),
        Native::TextJoin => texts::joined(arena, text_at(args, 0), text_at(args, 1)),
        Native::TextLength => Ok(texts::units_in(text_at(args, 0))),
        Native::TextUnit => Ok(texts::unit(text_at(args, 0), number_at(args, 1))),
        Native::TextPart => texts::part_of(
            arena,
            text_at(args, 0),
            number_at(args, 1),
            args.get(2),
        ),
        Native::TextOrder => Ok(texts::order(text_at(args, 0), text_at(args, 1))),
        Native::ListNew => lists::new_list(alloc, store),
        Native::ListLength => Ok(lists::items_in(store, list_of(args))),
        Native::ListAt => Ok(lists::item(store, list_of(args), number_at(args, 1))),
        Native::ListPut => Ok(lists::put_item(
            store,
            list_of(args),
            number_at(args, 1),
            value_at(args, 2),
        )),
        Native::ListAdd => lists::add_item(store, list_of(args), value_at(args, 1)),
        Native::ListDrop => Ok(lists::drop_item(store, list_of(args))),
        Native::MapNew => maps::new_map(alloc, store),
        Native::MapLength => Ok(maps::keys_in(store, map_of(args))),
        Native::MapAt => Ok(maps::entry(store, map_of(args), args.get(1))),
        Native::MapPut => maps::put_entry(
            alloc,
            store,
            map_of(args),
            value_at(args, 1),
            value_at(args, 2),
        ),
        Native::MapHas => Ok(maps::has_key(store, map_of(args), args.get(1))),
        Native::MapDrop => Ok(maps::drop_entry(store, map_of(args), args.get(1))),
        Native::MapKeys => maps::list_keys(alloc, store, map_of(args)),
    }
}
