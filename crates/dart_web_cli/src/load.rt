//! From an entry to its translation.
ghost use Rattle.std.specs.Prelude.{◌≡◌};
ghost use Rattle.dart_web_cli.specs.declared.load.Loaded.TheVariants.{Broken};
ghost use Rattle.dart_web_cli.specs.Answers.{JudgesTokens, Judges, LoadTells, LoadCause};
ghost use Rattle.dart_web_cli.specs.RefusalLaws.{OneRefusal, FineBreaksNone, FineOrBroken, FirstProgramsAreFiles};

use crate::translate::compile_first;
use code_units::Bytes;
use dart_syntax::{Rule, Tokens};
use dart_tokens::{ScanError, scan};
use decl_parser::parse_file;
use expr_parser::SyntaxFault;
use outside::{Read, Source};
use std::alloc::Global;

/// The greatest length of a file, in bytes.
pub const MAX_FILE: u64 = 1048576;

/// The number of the entry. File 0 is the prelude.
pub const ENTRY: u32 = 1;

/// What an entry comes to.
#[derive(Debug, Drop)]
pub enum Loaded {
    /// It breaks no rule; the bytes of its translation.
    Translated(Bytes),
    /// The first rule that it breaks, and the offset in bytes at which it does.
    Broken { rule: Rule, at: u32 },
    /// A read failed.
    Failed,
    /// Memory was wanting.
    Memory,
}

/// At most one rule is the first that an entry breaks, at one place.
pub fn refusals_are_one()
    ensures { OneRefusal }
{}

/// An entry that has a program breaks no rule.
pub fn fine_entries_break_none()
    ensures { FineBreaksNone }
{}

/// An entry has a program, or it breaks a rule.
pub fn entries_are_fine_or_broken()
    ensures { FineOrBroken }
{}

/// The tokens of a first program have a tree.
pub fn first_programs_are_files()
    ensures { FirstProgramsAreFiles }
{}

// The entry as a whole breaks a rule.
fn broken_at_start(rule: Rule) -> Loaded
    ensures { result ≡ Broken rule 0 }
{
    Loaded::Broken { rule, at: 0 }
}

// What the entry comes to if these are its tokens: the rules on the grammar come before what is translated so far.
#[tactic(auto, using(crate::proofs::Judging::tokens_unread, crate::proofs::Judging::tokens_deep, crate::proofs::Judging::tokens_underived))]
fn judge_tokens(alloc: Global, tokens: &Tokens) -> Loaded
    requires { tokens.now.file ≡ ENTRY }
    ensures { JudgesTokens tokens.now.items result }
{
    match parse_file(alloc, tokens) {
        Ok(_) => match compile_first(alloc, tokens.items.as_slice()) {
            Ok(Some(out)) => Loaded::Translated(out),
            Ok(None) => broken_at_start(Rule::G1),
            Err(_) => Loaded::Memory,
        },
        Err(SyntaxFault::TooDeep { at }) => Loaded::Broken { rule: Rule::G2, at },
        Err(SyntaxFault::NotDerived { at }) => Loaded::Broken { rule: Rule::G1, at },
        Err(SyntaxFault::Memory) => Loaded::Memory,
    }
}

// What the entry comes to if it has these bytes.
#[tactic(auto, using(crate::proofs::Judging::bytes_too_long, crate::proofs::Judging::bytes_faulty, crate::proofs::Judging::bytes_scanned))]
fn judge(alloc: Global, bytes: &[u8]) -> Loaded
    ensures { Judges bytes.now result }
{
    if bytes.len() as u64 > MAX_FILE {
        return broken_at_start(Rule::N2);
    }
    match scan(alloc, ENTRY, bytes) {
        Ok(tokens) => judge_tokens(alloc, &tokens),
        Err(ScanError::Fault { at, rule }) => Loaded::Broken { rule, at },
        Err(ScanError::Memory) => Loaded::Memory,
    }
}

/// Reads an entry and translates it. One byte more than a file may have is asked for, which shows that it is too long.
#[tactic(auto, using(crate::proofs::Loads::load_absent))]
pub fn load<S: Source>(alloc: Global, source: &mut S, entry: &str) -> Loaded
    ensures unchanged { S.files source.new ≡ S.files source.old }
    ensures told { LoadTells (S.files source.old) entry.now result }
    ensures cause { LoadCause (S.faults source.old) (S.faults source.new) result }
{
    match source.read(alloc, entry, MAX_FILE + 1) {
        Read::Got(bytes) => judge(alloc, bytes.as_slice()),
        Read::Absent => broken_at_start(Rule::U1),
        Read::Failed => Loaded::Failed,
        Read::Memory => Loaded::Memory,
    }
}
