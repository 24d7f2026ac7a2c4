//! Lists among many, what waits, and orders.

use std::alloc::{AllocError, Global};
use store_lists::{Order, Pairs, Slots, Waiting, changes};

// An empty list, and one of 7 and 8.
fn two_lists(alloc: Global) -> Result<Slots<Slots<u32>>, AllocError> {
    let mut all = Slots::new(alloc);
    all.push(Slots::new(alloc))?;
    all.push(Slots::new(alloc))?;
    changes::push_at(&mut all, 1, 7)?;
    changes::push_at(&mut all, 1, 8)?;
    Ok(all)
}

pub fn one_list_among_many(alloc: Global) -> Result<String, AllocError> {
    let mut all = two_lists(alloc)?;
    let mut answers = String::new(alloc);
    writeln!(answers, "9 at 0: {}", changes::set_at(&mut all, 1, 0, 9))?;
    writeln!(answers, "9 at 2: {}", changes::set_at(&mut all, 1, 2, 9))?;
    writeln!(answers, "the last: {:?}", changes::pop_at(&mut all, 1))?;
    writeln!(answers, "then the last: {:?}", changes::pop_at(&mut all, 1))?;
    writeln!(
        answers,
        "of the other list: {:?}",
        changes::pop_at(&mut all, 0)
    )?;
    Ok(answers)
}

// The second map is not there.
pub fn pairs_among_many(alloc: Global) -> Result<String, AllocError> {
    let mut all: Slots<Pairs<u32, u32>> = Slots::new(alloc);
    all.push(Pairs::new(alloc))?;
    changes::put_at(&mut all, 0, 5, 50)?;
    changes::put_at(&mut all, 1, 5, 51)?;
    match all.get(0) {
        Some(pairs) => {
            let value = pairs.get(&5);
            let place = pairs.position(&5);
            format!(in alloc; "the value of 5: {value:?}\nthe place of 5: {place:?}\n")
        }
        None => format!(in alloc; "none\n"),
    }
}

pub fn what_waits(alloc: Global) -> Result<String, AllocError> {
    let mut waiting = Waiting::new(alloc);
    for item in 1..4u32 {
        waiting.push(item)?;
    }
    let second = waiting.take(1);
    let first = waiting.take_first();
    let left = waiting.len();
    format!(in alloc; "at 1: {second:?}\nthe first: {first:?}\nleft: {left}\n")
}

pub fn an_order_ends(alloc: Global) -> Result<String, AllocError> {
    let mut order = Order::new(&[3]);
    let first = order.take();
    let second = order.take();
    format!(in alloc; "the first: {first}\nthe second: {second}\n")
}
