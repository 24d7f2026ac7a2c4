//! The top call.
ghost use Rattle.std.specs.Prelude.{◌≡◌};
ghost use Rattle.dart_web_cli.specs.Words.{IsCompile, IsRunJs};
ghost use Rattle.dart_web_cli.specs.TopCall.{code_of, Means, IsComplete, Finishes};

use crate::lines::{cannot_line, outside_line, refused_line, usage_line};
use crate::load::{Loaded, load};
use crate::runs::run_scripts;
use crate::scripts::{ScriptFault, read_scripts};
use crate::words::{Command, WordsFault, read_words};
use code_units::{Bytes, Words};
use dart_syntax::Rule;
use outside::{Sink, Source};
use std::alloc::{AllocError, Global};

/// How a command ends.
#[derive(Clone, Copy, Debug, PartialEq, Eq)]
pub enum Status {
    /// It is done.
    Ok,
    /// A rule is broken.
    Refused,
    /// The words are no command.
    Usage,
    /// A read failed.
    ReadFault,
    /// A put or a say failed.
    WriteFault,
    /// Memory was wanting.
    Memory,
    /// The run ended by a throw that nothing caught.
    Threw,
    /// All steps were taken with no end.
    Spent,
    /// The run left the range of whole numbers.
    Left,
    /// Evaluations were nested too deep.
    Deep,
    /// A file is not in the JavaScript subset.
    NotInProfile,
    /// No rule of the JavaScript meaning applied.
    Stuck,
}

impl Status {
    /// The number that the program ends with.
    pub fn code(self) -> u8
        ensures { result ≡ code_of self }
    {
        match self {
            Status::Ok => 0,
            Status::Refused => 1,
            Status::Usage => 2,
            Status::ReadFault => 3,
            Status::WriteFault => 4,
            Status::Memory => 5,
            Status::Threw => 6,
            Status::Spent => 7,
            Status::Left => 8,
            Status::Deep => 9,
            Status::NotInProfile => 10,
            Status::Stuck => 11,
        }
    }
}

// Says a line and ends with a status.
fn finish<K: Sink>(sink: &mut K, line: Result<Bytes, AllocError>, status: Status) -> Status
    ensures { Finishes status line
        (record { files = K.files sink.old; said = K.said sink.old; faults = K.faults sink.old })
        (record { files = K.files sink.new; said = K.said sink.new; faults = K.faults sink.new }) result }
{
    match line {
        Err(_) => Status::Memory,
        Ok(text) => match sink.say(text.as_slice()) {
            Ok(()) => status,
            Err(_) => Status::WriteFault,
        },
    }
}

// compile ENTRY OUT, which the words are.
fn compile<S: Source, K: Sink>(
    alloc: Global,
    words: &Words,
    entry: &str,
    out: &str,
    source: &mut S,
    sink: &mut K,
) -> Status
    requires { IsCompile words.now entry.now out.now }
    ensures { Means (record {
      words = words.now;
      old = record { files = S.files source.old; faults = S.faults source.old };
      new = record { files = S.files source.new; faults = S.faults source.new };
      before = record { files = K.files sink.old; said = K.said sink.old; faults = K.faults sink.old };
      now = record { files = K.files sink.new; said = K.said sink.new; faults = K.faults sink.new };
    }) result }
{
    match load(alloc, source, entry) {
        Loaded::Translated(bytes) => match sink.put(out, bytes.as_slice()) {
            Ok(()) => Status::Ok,
            Err(_) => Status::WriteFault,
        },
        Loaded::Broken { rule, at } => {
            finish(sink, refused_line(alloc, rule, entry, at), Status::Refused)
        }
        Loaded::Failed => finish(sink, cannot_line(alloc, entry), Status::ReadFault),
        Loaded::Memory => Status::Memory,
    }
}

// runjs OUT with these options, which the words are.
fn run_js<S: Source, K: Sink>(
    alloc: Global,
    words: &Words,
    out: &str,
    steps: u64,
    order: &[u32],
    source: &mut S,
    sink: &mut K,
) -> Status
    requires { IsRunJs words.now out.now steps order.now }
    ensures { Means (record {
      words = words.now;
      old = record { files = S.files source.old; faults = S.faults source.old };
      new = record { files = S.files source.new; faults = S.faults source.new };
      before = record { files = K.files sink.old; said = K.said sink.old; faults = K.faults sink.old };
      now = record { files = K.files sink.new; said = K.said sink.new; faults = K.faults sink.new };
    }) result }
{
    match read_scripts(alloc, source, out) {
        Ok(trees) => run_scripts(alloc, sink, &trees, order, steps),
        Err(ScriptFault::Absent) => finish(
            sink,
            refused_line(alloc, Rule::U1, out, 0),
            Status::Refused,
        ),
        Err(ScriptFault::Outside { name, at }) => finish(
            sink,
            outside_line(alloc, name.as_str(), at),
            Status::NotInProfile,
        ),
        Err(ScriptFault::Failed { name }) => finish(
            sink,
            cannot_line(alloc, name.as_str()),
            Status::ReadFault,
        ),
        Err(ScriptFault::Memory) => Status::Memory,
    }
}

// The command that the words are.
fn carry_out<S: Source, K: Sink>(
    alloc: Global,
    words: &Words,
    source: &mut S,
    sink: &mut K,
) -> Status
    ensures { Means (record {
      words = words.now;
      old = record { files = S.files source.old; faults = S.faults source.old };
      new = record { files = S.files source.new; faults = S.faults source.new };
      before = record { files = K.files sink.old; said = K.said sink.old; faults = K.faults sink.old };
      now = record { files = K.files sink.new; said = K.said sink.new; faults = K.faults sink.new };
    }) result }
{
    match read_words(alloc, words) {
        Err(WordsFault::Usage) => finish(sink, usage_line(alloc), Status::Usage),
        Err(WordsFault::Memory) => Status::Memory,
        Ok(Command::Compile { entry, out }) => compile(alloc, words, entry, out, source, sink),
        Ok(Command::RunJs { out, steps, order }) => {
            run_js(alloc, words, out, steps, order.as_slice(), source, sink)
        }
    }
}

/// Carries out the command that the words are, on one thread: it waits for nobody and always returns.
///
/// Ok: what the command puts is put, and what it says is said. Each other status comes with its cause: Usage and
/// Refused exactly where the words or the files say so, ReadFault and WriteFault only where the count of the source or
/// of the sink rose in this call, Memory freely. After Refused, Usage, ReadFault and Memory no file was put.
pub fn dart_web_alone<S: Source, K: Sink>(
    alloc: Global,
    words: &Words,
    source: &mut S,
    sink: &mut K,
) -> Status
    ensures means { Means (record {
      words = words.now;
      old = record { files = S.files source.old; faults = S.faults source.old };
      new = record { files = S.files source.new; faults = S.faults source.new };
      before = record { files = K.files sink.old; said = K.said sink.old; faults = K.faults sink.old };
      now = record { files = K.files sink.new; said = K.said sink.new; faults = K.faults sink.new };
    }) result }
    ensures complete { IsComplete (record {
      words = words.now;
      old = record { files = S.files source.old; faults = S.faults source.old };
      new = record { files = S.files source.new; faults = S.faults source.new };
      before = record { files = K.files sink.old; said = K.said sink.old; faults = K.faults sink.old };
      now = record { files = K.files sink.new; said = K.said sink.new; faults = K.faults sink.new };
    }) result }
{
    carry_out(alloc, words, source, sink)
}
