//! Scans the file that the first argument names, and parses it as the second one says.
//!
//! `scan` says how many tokens it has, and parses nothing. `expressions` parses expressions, each with a `;` behind it,
//! and says how many there are. `file` parses a file of the language and says how many declarations it has. It ends with
//! status 1 and the reason where the words are others, the file can't be read, it has no tokens, or they are not parsed.
#![tactic(auto)]

ghost use Rattle.std.specs.Prelude.{◌≡◌, ◌<◌, None, length};
ghost use Rattle.dart_grammar.specs.Loads.{first_overload};

use anyhow::{Context, Result, bail};
use dart_grammar::loads::first_overload;
use dart_syntax::{Form, Sign, Tokens};
use dart_tokens::scan;
use decl_parser::parse_file;
use expr_parser::parse_expression;
use std::alloc::Global;
use std::{env, fs};

// Whether the token of this number is a `;`.
fn is_semicolon(tokens: &Tokens, number: u64) -> bool
    requires { number < length tokens.now.items }
{
    matches!(&tokens.items.get(number).form, Form::Sign(Sign::Semicolon))
}

// How many expressions the tokens are, each with a `;` behind it.
fn count_expressions(alloc: Global, tokens: &Tokens) -> Result<u64>
    requires { first_overload tokens.now.items ≡ None }
{
    let size = tokens.items.len();
    let mut from = 0;
    for count in 0..=size {
        if from >= size {
            return Ok(count);
        }
        let (_, behind) = parse_expression(alloc, tokens, from)?;
        if behind >= size || !is_semicolon(tokens, behind) {
            bail!("no `;` stands behind expression {count}");
        }
        from = behind + 1;
    }
    Ok(0)
}

// How many expressions the tokens are, none of which is nested too deep.
fn expressions(alloc: Global, tokens: &Tokens) -> Result<u64> {
    if let Some(at) = first_overload(alloc, tokens.items.as_slice())? {
        bail!("nested too deep at byte {at}");
    }
    count_expressions(alloc, tokens)
}

fn main(rt: HostRuntime) -> Result<()> {
    let mut words = env::args(&rt)?.skip(1);
    let name = words.next().context("no file is named")?;
    let command = words.next().context("no command is given")?;
    let bytes = fs::read(&rt, name.as_str())?;
    if bytes.len() > 100_000_000 {
        bail!("the file has more than 100,000,000 bytes");
    }
    let tokens = scan(rt.alloc(), 1, bytes.as_slice())?;
    let size = tokens.items.len();
    match command.as_str() {
        "scan" => println!(rt; "{size} tokens")?,
        "expressions" => {
            let count = expressions(rt.alloc(), &tokens)?;
            println!(rt; "{count} expressions, {size} tokens")?;
        }
        "file" => {
            let file = parse_file(rt.alloc(), &tokens)?;
            println!(rt; "{} declarations, {size} tokens", file.declarations.len())?;
        }
        _ => bail!("the commands are `scan`, `expressions` and `file`"),
    }
    Ok(())
}
