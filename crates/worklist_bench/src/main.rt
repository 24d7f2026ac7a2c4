//! Closes a world over drawn rules, and prints how many members are live and how many kinds the slots have.
//!
//! The words are how many members, slots and kinds there are, how many copies a member makes, and how many workers: one,
//! or two to sixteen. The first hundred members are live from the start. It ends with status 2 for other words, 4 where
//! nothing can be printed, 5 for want of memory.
#![tactic(auto)]

use copy_rules::draw_rules;
use enqueuer::{close_world, close_world_alone};
use outside::NoGate;
use std::alloc::{AllocError, Global};
use std::env;
use std::process::ExitCode;
use std::sync::Wait;
use std::thread::Threads;
use type_masks::Shape;
use world_state::World;

fn main(rt: HostRuntime) -> ExitCode {
    let Ok(words) = env::args(&rt) else {
        return ExitCode::from(2);
    };
    let mut numbers = Vec::new(rt.alloc());
    for word in words.skip(1) {
        let Ok(number) = word.parse::<u32>() else {
            return ExitCode::from(2);
        };
        if numbers.push(number).is_err() {
            return ExitCode::from(5);
        }
    }
    let Some(sizes) = sizes_of(numbers.as_slice()) else {
        return ExitCode::from(2);
    };
    match closed(&rt, rt.alloc(), &sizes) {
        Ok(Some(world)) => {
            let live = live_count(&world);
            let kinds = kind_count(&world);
            match println!(&rt; "live {live} kinds {kinds}") {
                Ok(()) => ExitCode::SUCCESS,
                Err(_) => ExitCode::from(4),
            }
        }
        Ok(None) => ExitCode::from(2),
        Err(_) => ExitCode::from(5),
    }
}

// What is drawn, and how many workers close it.
#[derive(Drop)]
struct Sizes {
    shape: Shape,
    copies: u32,
    workers: u32,
}

// The sizes that five numbers are, in the order of the words.
fn sizes_of(numbers: &[u32]) -> Option<Sizes> {
    if numbers.len() != 5 {
        return None;
    }
    let shape = Shape {
        members: numbers[0],
        slots: numbers[1],
        kinds: numbers[2],
    };
    Some(Sizes {
        shape,
        copies: numbers[3],
        workers: numbers[4],
    })
}

// The least world, or `None` where nobody can have so many workers.
fn closed<Rt: Threads + Wait + Sync>(
    rt: &Rt,
    alloc: Global,
    sizes: &Sizes,
) -> Result<Option<World>, AllocError> {
    let rules = draw_rules(alloc, sizes.shape, 100, sizes.copies, 1)?;
    let workers = sizes.workers;
    if workers == 1 {
        Ok(Some(close_world_alone(alloc, &rules)?))
    } else if workers >= 2 && workers <= 16 {
        Ok(Some(close_world(rt, alloc, &rules, &NoGate, workers)?))
    } else {
        Ok(None)
    }
}

fn live_count(world: &World) -> u32 {
    let mut count = 0u32;
    for member in 0..world.shape().members {
        if world.is_live(member) {
            count = count.saturating_add(1);
        }
    }
    count
}

fn kind_count(world: &World) -> u64 {
    let mut count = 0u64;
    for slot in 0..world.shape().slots {
        for _ in world.mask(slot).iter() {
            count = count.saturating_add(1);
        }
    }
    count
}
