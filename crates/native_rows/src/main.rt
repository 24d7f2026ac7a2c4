//! What runs of both languages work on, row by row of its input: each line is a call on the store of its row, and is printed
//! with its answer.
//!
//! - [`rows`]: the rows of a text.
//! - [`values`]: how values stand in lines.
//! - [`arguments`]: the words behind the name of a call.
//! - [`machine`]: the calls of natives and of the store; [`objects`], [`events`] and [`functions`] have the store's.
//! - [`texts`], [`lists`], [`scopes`]: rows that the program has, on what no call of a native reaches.
#![tactic(auto)]

mod arguments;
mod events;
mod functions;
mod lists;
mod machine;
mod objects;
mod rows;
mod scopes;
mod texts;
mod values;

use anyhow::{Result, bail};
use bumpalo::Bump;
use machine::Machine;
use rows::{Row, names_in, order_in, rows};
use std::alloc::Global;
use std::io;

// The lines of a row with their answers.
fn called(alloc: Global, row: &Row) -> Result<String> {
    let arena = Bump::new(alloc);
    let order = order_in(alloc, row.asks)?;
    let names = names_in(alloc, &arena, row.asks)?;
    let mut machine = Machine::new(alloc, &arena, names, order.as_slice());
    let mut answers = String::new(alloc);
    for line in row.body.split('\n') {
        writeln!(answers, "{line} -> {}", machine.answer(line)?)?;
    }
    Ok(answers)
}

// A row that the program has.
fn built(alloc: Global, name: &str) -> Result<String> {
    let answers = match name {
        "numbers in range" => texts::numbers_in_range(alloc)?,
        "digits of a number" => texts::digits(alloc)?,
        "parts of a text" => texts::parts(alloc)?,
        "a long text" => texts::long_text(alloc)?,
        "a part of a long text" => texts::part_of_long_text(alloc)?,
        "one list among many" => lists::one_list_among_many(alloc)?,
        "pairs among many" => lists::pairs_among_many(alloc)?,
        "what waits" => lists::what_waits(alloc)?,
        "an order ends" => lists::an_order_ends(alloc)?,
        "keys of a map of JavaScript" => scopes::keys_of_a_map(alloc)?,
        "keys of each kind of JavaScript" => scopes::keys_of_each_kind(alloc)?,
        "a let that has not run" => scopes::a_let_that_has_not_run(alloc)?,
        "an outer name is assigned" => scopes::an_outer_name_is_assigned(alloc)?,
        "the name of the host" => scopes::the_name_of_the_host(alloc)?,
        _ => bail!("the program has no row of this name"),
    };
    Ok(answers)
}

fn answers(alloc: Global, row: &Row) -> Result<String> {
    match row.asks {
        "built" => built(alloc, row.name),
        _ => called(alloc, row),
    }
}

fn main(rt: HostRuntime) -> Result<()> {
    let input = io::read_to_string(rt.alloc(), rt.reader())?;
    for row in rows(rt.alloc(), input.as_str())?.as_slice() {
        println!(rt; "--- {}", row.heading)?;
        print!(rt; "{}", answers(rt.alloc(), row)?)?;
    }
    Ok(())
}
