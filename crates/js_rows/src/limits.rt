//! What a heading says of its run.

use anyhow::{Context, Result, bail};
use js_meaning::MAX_DEPTH;
use std::alloc::Global;

/// How many steps a run may take, where its heading doesn't tell.
const STEPS: u64 = 10_000;

/// How many steps a run may take, how many of them may be nested, and which of its loads complete.
#[derive(Drop)]
pub struct Limits {
    pub steps: u64,
    pub depth: usize,
    pub order: Vec<u32>,
}

impl Limits {
    /// Those behind the name of the row, as `; steps 5`, `; depth 7` and `; order 2 1 0`.
    pub fn read(alloc: Global, heading: &str) -> Result<Limits> {
        let mut limits = Limits {
            steps: STEPS,
            depth: MAX_DEPTH,
            order: Vec::new(alloc),
        };
        for limit in heading.split("; ").skip(1) {
            limits.set(limit)?;
        }
        Ok(limits)
    }

    fn set(&mut self, limit: &str) -> Result<()> {
        let (word, value) = limit.split_once(' ').context("a limit has no value")?;
        match word {
            "steps" => self.steps = value.parse::<u64>()?,
            "depth" => self.depth = value.parse::<usize>()?,
            "order" => self.set_order(value)?,
            _ => bail!("no limit is called so"),
        }
        Ok(())
    }

    fn set_order(&mut self, numbers: &str) -> Result<()> {
        for number in numbers.split(' ') {
            self.order.push(number.parse::<u32>()?)?;
        }
        Ok(())
    }
}
