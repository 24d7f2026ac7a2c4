//! Reads the JavaScript file that the second argument names, by `read`, and by `print` prints its tree too.
//!
//! `read` says how many items the file has. `print` says whether the canonical text of the tree is the file. It ends with
//! status 1 and the reason where the words are others, the file can't be read, or it has no tree.
#![tactic(auto)]

use anyhow::{Context, Result, bail};
use js_reader::read_file;
use js_tree::print_file;
use std::{env, fs};

fn main(rt: HostRuntime) -> Result<()> {
    let mut words = env::args(&rt)?.skip(1);
    let command = words.next().context("no command is given")?;
    let name = words.next().context("no file is named")?;
    let bytes = fs::read(&rt, name.as_str())?;
    let file = read_file(rt.alloc(), bytes.as_slice())?;
    match command.as_str() {
        "read" => println!(rt; "{} items", file.items.len())?,
        "print" => {
            let text = print_file(rt.alloc(), &file)?;
            let same = text.as_slice() == bytes.as_slice();
            println!(rt; "{}", if same { "the same" } else { "another text" })?;
        }
        _ => bail!("the commands are `read` and `print`"),
    }
    Ok(())
}
