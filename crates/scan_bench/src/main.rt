//! Scans the file that the one argument names, and prints how many tokens it has.
//!
//! It ends with status 1 and the reason where there are none: the file can't be read, has more than 1,048,576 bytes,
//! or breaks a rule on tokens.
#![tactic(auto)]

use anyhow::{Context, Result, bail};
use dart_tokens::scan;
use std::{env, fs};

fn main(rt: HostRuntime) -> Result<()> {
    let name = env::args(&rt)?.nth(1).context("no file is named")?;
    let bytes = fs::read(&rt, name.as_str())?;
    if bytes.len() > 1_048_576 {
        bail!("the file has more than 1,048,576 bytes");
    }
    let tokens = scan(rt.alloc(), 1, bytes.as_slice())?;
    println!(rt; "{} tokens", tokens.items.len())?;
    Ok(())
}
