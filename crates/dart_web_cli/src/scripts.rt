//! The scripts that `runjs` reads.
ghost use Rattle.std.specs.Prelude.{◌≡◌, ◌<◌, ◌≤◌, ◌++◌, [], ◌∷◌, length, IfOk, IfErr, MatchResult, string_bytes};
ghost use Rattle.js_meaning.specs.Laws.{HaveOwnNames};
ghost use Rattle.dart_web_cli.specs.Scripts.{shard_name, named};
ghost use Rattle.dart_web_cli.specs.ScriptAnswers.{JudgesScript, ReadsScript, ScriptCause, ReadsMain, ReadsShard, ReadsShards, FaultCause, ReadsScripts};
ghost use Rattle.dart_web_cli.specs.ScriptLaws.{OneRun, OneOutside, RunOrOutside};

use code_units::{Bytes, Text};
use itoa::Buffer;
use js_reader::{JsFault, read_file};
use js_tree::{JsFile, NamedTree, TreeList};
use outside::{Read, Source};
use sqlite_items::Items;
use std::alloc::{AllocError, Global};

/// The greatest length of a script, in bytes.
pub const MAX_SCRIPT: u64 = 268435456;

/// How many shards are read at most.
pub const MAX_SHARDS: u64 = 20480;

/// What the name of a script comes to.
#[derive(Drop)]
pub enum Script {
    /// The tree that its bytes spell.
    Tree(JsFile),
    /// There is none of that name.
    Absent,
    /// It is not in the subset, as shows at this offset in bytes.
    Outside { at: u64 },
    /// The read failed.
    Failed,
    /// Memory was wanting.
    Memory,
}

/// Why there is nothing to run.
#[derive(Debug, Drop)]
pub enum ScriptFault {
    /// OUT isn't there.
    Absent,
    /// The first file that is not in the subset, and the offset in bytes at which that shows.
    Outside { name: String, at: u64 },
    /// The read of this file failed.
    Failed { name: String },
    /// Memory was wanting.
    Memory,
}

impl From<AllocError> for ScriptFault {
    ghost use Rattle.std.specs.Prelude.{◌≡◌};
    ghost use Rattle.dart_web_cli.specs.declared.scripts.ScriptFault.TheVariants.{Memory};

    ghost from_gives = { λ _ fault. fault ≡ Memory };

    fn from(_error: AllocError) -> ScriptFault {
        ScriptFault::Memory
    }
}

/// OUT has one list of trees at most.
pub fn scripts_are_one()
    ensures { OneRun }
{}

/// At most one file is the first that is not in the subset, at one place, and then OUT has no list of trees.
pub fn outside_is_one()
    ensures { OneOutside }
{}

/// OUT is absent, or it has a list of trees, or some file is the first that is not in the subset.
pub fn scripts_run_or_are_outside()
    ensures { RunOrOutside }
{}

/// The name of the shard of this number.
fn shard_name(alloc: Global, out: &str, i: u64) -> Result<String, AllocError>
    ensures { IfOk result (λ name. string_bytes name ≡ shard_name out.now i) }
{
    let mut digits = Buffer::new();
    let mut name = String::from_str(alloc, out)?;
    name.push_str("_")?;
    name.push_str(digits.format(i))?;
    name.push_str(".part.js")?;
    Ok(name)
}

// What a script of these bytes comes to.
#[tactic(auto, using(crate::proofs::Shards::script_too_long, crate::proofs::Shards::script_unspelled))]
fn judge_script(alloc: Global, bytes: &[u8]) -> Script
    ensures { JudgesScript bytes.now result }
{
    if bytes.len() as u64 > MAX_SCRIPT {
        return Script::Outside { at: MAX_SCRIPT };
    }
    match read_file(alloc, bytes) {
        Ok(tree) => Script::Tree(tree),
        Err(JsFault::NotInProfile { at }) => Script::Outside { at },
        Err(JsFault::Memory) => Script::Memory,
    }
}

/// Reads a script. One byte more than a script may have is asked for, which shows that it is too long.
fn read_script<S: Source>(alloc: Global, source: &mut S, name: &str) -> Script
    ensures unchanged { S.files source.new ≡ S.files source.old }
    ensures told { ReadsScript (S.files source.old) name.now result }
    ensures cause { ScriptCause (S.faults source.old) (S.faults source.new) result }
{
    match source.read(alloc, name, MAX_SCRIPT + 1) {
        Read::Got(bytes) => judge_script(alloc, bytes.as_slice()),
        Read::Absent => Script::Absent,
        Read::Failed => Script::Failed,
        Read::Memory => Script::Memory,
    }
}

// A tree by its name.
fn named(alloc: Global, name: &str, tree: JsFile) -> Result<NamedTree, AllocError>
    ensures { IfOk result (λ made. made ≡ named name.now tree) }
{
    let name = Text::from_str(alloc, name)?;
    Ok(NamedTree { name, tree })
}

// The shard of this number, where there is one.
fn read_shard<S: Source>(
    alloc: Global,
    source: &mut S,
    out: &str,
    i: u64,
) -> Result<Option<NamedTree>, ScriptFault>
    ensures unchanged { S.files source.new ≡ S.files source.old }
    ensures told { ReadsShard (S.files source.old) out.now i result }
    ensures cause { FaultCause (S.faults source.old) (S.faults source.new) result }
{
    let name = shard_name(alloc, out, i)?;
    match read_script(alloc, source, name.as_str()) {
        Script::Tree(tree) => {
            let shard = named(alloc, name.as_str(), tree)?;
            Ok(Some(shard))
        }
        Script::Absent => Ok(None),
        Script::Outside { at } => Err(ScriptFault::Outside { name, at }),
        Script::Failed => Err(ScriptFault::Failed { name }),
        Script::Memory => Err(ScriptFault::Memory),
    }
}

// The shards, up to the first that is absent.
fn read_shards<S: Source>(alloc: Global, source: &mut S, out: &str) -> Result<TreeList, ScriptFault>
    ensures unchanged { S.files source.new ≡ S.files source.old }
    ensures told { ReadsShards (S.files source.old) out.now result }
    ensures cause { FaultCause (S.faults source.old) (S.faults source.new) result }
{
    let mut shards = Items::new(alloc);
    for i in 0..MAX_SHARDS {
        match read_shard(alloc, source, out, i + 1)? {
            Some(shard) => shards.push(shard)?,
            None => return Ok(shards),
        }
    }
    Ok(shards)
}

// OUT, as the main file.
fn read_main<S: Source>(alloc: Global, source: &mut S, out: &str) -> Result<NamedTree, ScriptFault>
    ensures unchanged { S.files source.new ≡ S.files source.old }
    ensures told { ReadsMain (S.files source.old) out.now result }
    ensures cause { FaultCause (S.faults source.old) (S.faults source.new) result }
{
    match read_script(alloc, source, out) {
        Script::Tree(tree) => {
            let main = named(alloc, out, tree)?;
            Ok(main)
        }
        Script::Absent => Err(ScriptFault::Absent),
        Script::Outside { at } => {
            let name = String::from_str(alloc, out)?;
            Err(ScriptFault::Outside { name, at })
        }
        Script::Failed => {
            let name = String::from_str(alloc, out)?;
            Err(ScriptFault::Failed { name })
        }
        Script::Memory => Err(ScriptFault::Memory),
    }
}

/// Reads OUT and its shards, each of which is checked before the next one is read.
pub fn read_scripts<S: Source>(
    alloc: Global,
    source: &mut S,
    out: &str,
) -> Result<TreeList, ScriptFault>
    ensures unchanged { S.files source.new ≡ S.files source.old }
    ensures told { ReadsScripts (S.files source.old) out.now result }
    ensures cause { FaultCause (S.faults source.old) (S.faults source.new) result }
    ensures names { IfOk result HaveOwnNames }
    ensures some { IfOk result (λ trees. 0 < length trees) }
{
    let main = read_main(alloc, source, out)?;
    let mut trees = read_shards(alloc, source, out)?;
    trees.push(main)?;
    Ok(trees)
}
