//! The words of a command line.
ghost use Rattle.std.specs.Prelude.{◌≡◌, ◌≢◌, ◌↔◌, ℕ, List, All, IsTrue, MatchOption, MatchResult};
ghost use Rattle.dart_web_cli.specs.Words.{IsFileWord, IsFlat, IsCompile, IsRunJs, IsNoCommand};
ghost use Rattle.dart_web_cli.specs.Commands.{IsCommand, Refuses, OneMeaning};

use crate::options::{Options, read_options};
use code_units::{NumberList, Words};
use std::alloc::{AllocError, Global};

/// A command and what it names.
#[derive(Debug, Drop)]
pub enum Command<'a> {
    /// Translates the file `entry` of the source and puts the translation as the file `out` of the sink.
    Compile {
        entry: &'a str,
        out: &'a str,
    },
    /// Runs the script `out` and its shards, for so many steps at most; the order tells which load completes.
    RunJs {
        out: &'a str,
        steps: u64,
        order: NumberList,
    },
}

/// Why words gave no command.
#[derive(Clone, Copy, Debug, PartialEq, Eq)]
pub enum WordsFault {
    /// They are in no row of the table of commands.
    Usage,
    /// Memory was wanting.
    Memory,
}

impl From<AllocError> for WordsFault {
    ghost use Rattle.std.specs.Prelude.{◌≡◌};
    ghost use Rattle.dart_web_cli.specs.declared.words.WordsFault.TheVariants.{Memory};

    ghost from_gives = { λ _ fault. fault ≡ Memory };

    fn from(_error: AllocError) -> WordsFault {
        WordsFault::Memory
    }
}

/// Words are at most one command, and it has one meaning.
pub fn commands_have_one_meaning()
    ensures { OneMeaning }
{}

fn is_file_word(word: &[u8]) -> bool
    ensures { IsTrue result ↔ IsFileWord word.now }
{
    match word.first() {
        None => false,
        Some(b) => *b != b'-',
    }
}

fn has_no_slash(word: &[u8]) -> bool
    ensures { IsTrue result ↔ All (λ b. b ≢ 47) word.now }
{
    word.iter().all(|b| *b != b'/')
}

fn is_flat(word: &[u8]) -> bool
    ensures { IsTrue result ↔ IsFlat word.now }
{
    has_no_slash(word) && word != b".".as_slice() && word != b"..".as_slice()
}

fn names_entry(word: &[u8]) -> bool
    ensures { IsTrue result ↔ (IsFileWord word.now × IsFlat word.now) }
{
    is_file_word(word) && is_flat(word)
}

// compile ENTRY OUT
fn read_compile(words: &Words) -> Option<Command<'_>>
    ensures { MatchOption result ((entry out : List ℕ) → IsCompile words.now entry out → ⊥) (IsCommand words.now) }
{
    if words.len() != 3 {
        return None;
    }
    let entry = words.get(1);
    let out = words.get(2);
    if words.get(0) == "compile" && names_entry(entry.as_bytes()) && is_file_word(out.as_bytes()) {
        Some(Command::Compile { entry, out })
    } else {
        None
    }
}

// runjs OUT and options
#[tactic(auto, using(crate::proofs::Meanings::is_run_js, crate::proofs::Meanings::begins_run, crate::proofs::Meanings::long_run))]
fn read_run_js(alloc: Global, words: &Words) -> Result<Command<'_>, WordsFault>
    ensures { MatchResult result (IsCommand words.now) (λ fault. Refuses fault ((out : List ℕ) (steps : ℕ) (order : List ℕ) → IsRunJs words.now out steps order → ⊥)) }
{
    if words.len() < 2 {
        return Err(WordsFault::Usage);
    }
    let out = words.get(1);
    if words.get(0) != "runjs" || !is_file_word(out.as_bytes()) {
        return Err(WordsFault::Usage);
    }
    match read_options(alloc, words) {
        Ok(Options { steps, order }) => Ok(Command::RunJs { out, steps, order }),
        Err(fault) => Err(fault),
    }
}

/// The command that the words are. Usage comes exactly where they are none, Memory only where memory was wanting.
pub fn read_words(alloc: Global, words: &Words) -> Result<Command<'_>, WordsFault>
    ensures { MatchResult result (IsCommand words.now) (λ fault. Refuses fault (IsNoCommand words.now)) }
{
    match read_compile(words) {
        Some(command) => Ok(command),
        None => read_run_js(alloc, words),
    }
}
