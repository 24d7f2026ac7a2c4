//! What is said of a run.
ghost use Rattle.std.specs.Prelude.{◌≡◌, ◌<◌, length, map};
ghost use Rattle.code_units.specs.Text.{utf8_of};
ghost use Rattle.js_meaning.specs.Laws.{HaveOwnNames};
ghost use Rattle.dart_web_cli.specs.RunLines.{line, printed, end_line, run_text, end_status};
ghost use Rattle.dart_web_cli.specs.RunAnswers.{Saying, IsToldOf, IsToldOfRun};

use crate::lines::{end_line, text_line};
use crate::top::Status;
use code_units::{End, RunEnd, Text};
use js_meaning::run_js;
use js_tree::{NamedTree, TreeList};
use outside::Sink;
use std::alloc::{AllocError, Global};

/// Why not all was said.
#[derive(Clone, Copy, Debug, PartialEq, Eq)]
pub enum SayFault {
    /// The sink failed.
    Sink,
    /// Memory was wanting.
    Memory,
}

impl From<AllocError> for SayFault {
    ghost use Rattle.std.specs.Prelude.{◌≡◌};
    ghost use Rattle.dart_web_cli.specs.declared.runs.SayFault.TheVariants.{Memory};

    ghost from_gives = { λ _ fault. fault ≡ Memory };

    fn from(_error: AllocError) -> SayFault {
        SayFault::Memory
    }
}

fn say<K: Sink>(sink: &mut K, text: &[u8]) -> Result<(), SayFault>
    ensures { Saying text.now result
        (record { files = K.files sink.old; said = K.said sink.old; faults = K.faults sink.old })
        (record { files = K.files sink.new; said = K.said sink.new; faults = K.faults sink.new }) }
{
    match sink.say(text) {
        Ok(()) => Ok(()),
        Err(_) => Err(SayFault::Sink),
    }
}

#[tactic(auto, using(crate::proofs::Sayings::says_none_of))]
fn say_text<K: Sink>(sink: &mut K, text: &Text) -> Result<(), SayFault>
    ensures { Saying (line (utf8_of text.now)) result
        (record { files = K.files sink.old; said = K.said sink.old; faults = K.faults sink.old })
        (record { files = K.files sink.new; said = K.said sink.new; faults = K.faults sink.new }) }
{
    let line = text_line(text)?;
    say(sink, line.as_slice())
}

// Each text is one call of the sink.
#[tactic(auto, using(crate::proofs::Sayings::all_left))]
fn say_output<K: Sink>(sink: &mut K, output: &[Text]) -> Result<(), SayFault>
    ensures { Saying (printed output.now) result
        (record { files = K.files sink.old; said = K.said sink.old; faults = K.faults sink.old })
        (record { files = K.files sink.new; said = K.said sink.new; faults = K.faults sink.new }) }
{
    for text in output {
        say_text(sink, text)?;
    }
    Ok(())
}

// The line of an end is one call, and where nothing is said of it there is none.
#[tactic(auto, using(crate::proofs::Sayings::says_none_of, crate::proofs::Sayings::says_empty))]
fn say_end<K: Sink>(
    alloc: Global,
    sink: &mut K,
    steps: u64,
    files: &[NamedTree],
    end: &End,
) -> Result<(), SayFault>
    ensures { Saying (end_line steps (map (λ tree. tree.name) files.now) end.now) result
        (record { files = K.files sink.old; said = K.said sink.old; faults = K.faults sink.old })
        (record { files = K.files sink.new; said = K.said sink.new; faults = K.faults sink.new }) }
{
    let line = end_line(alloc, steps, files, end)?;
    if line.is_empty() {
        Ok(())
    } else {
        say(sink, line.as_slice())
    }
}

fn say_run<K: Sink>(
    alloc: Global,
    sink: &mut K,
    steps: u64,
    files: &[NamedTree],
    run: &RunEnd,
) -> Result<(), SayFault>
    ensures { Saying (run_text steps (map (λ tree. tree.name) files.now) run.now) result
        (record { files = K.files sink.old; said = K.said sink.old; faults = K.faults sink.old })
        (record { files = K.files sink.new; said = K.said sink.new; faults = K.faults sink.new }) }
{
    say_output(sink, run.output.as_slice())?;
    say_end(alloc, sink, steps, files, &run.end)
}

/// The status of an end.
fn end_status(end: &End) -> Status
    ensures { result ≡ end_status end.now }
{
    match end {
        End::Done => Status::Ok,
        End::Threw(_) => Status::Threw,
        End::Spent => Status::Spent,
        End::Left => Status::Left,
        End::Deep => Status::Deep,
        End::Stuck { .. } => Status::Stuck,
    }
}

// Says what there is to be said of a run, and ends as it did.
#[tactic(auto, using(crate::proofs::Sayings::told_as))]
fn tell<K: Sink>(
    alloc: Global,
    sink: &mut K,
    steps: u64,
    files: &[NamedTree],
    run: &RunEnd,
) -> Status
    ensures { IsToldOf (run_text steps (map (λ tree. tree.name) files.now) run.now) (end_status run.now.end)
        (record { files = K.files sink.old; said = K.said sink.old; faults = K.faults sink.old })
        (record { files = K.files sink.new; said = K.said sink.new; faults = K.faults sink.new }) result }
{
    match say_run(alloc, sink, steps, files, run) {
        Ok(()) => end_status(&run.end),
        Err(SayFault::Sink) => Status::WriteFault,
        Err(SayFault::Memory) => Status::Memory,
    }
}

/// Runs scripts of names that differ, of which there is one at least, and says what there is to be said of it.
pub fn run_scripts<K: Sink>(
    alloc: Global,
    sink: &mut K,
    files: &TreeList,
    order: &[u32],
    steps: u64,
) -> Status
    requires some { 0 < length files.now }
    requires own_names { HaveOwnNames files.now }
    ensures { IsToldOfRun files.now order.now steps
        (record { files = K.files sink.old; said = K.said sink.old; faults = K.faults sink.old })
        (record { files = K.files sink.new; said = K.said sink.new; faults = K.faults sink.new }) result }
{
    match run_js(alloc, files, order, steps) {
        Ok(run) => tell(alloc, sink, steps, files.as_slice(), &run),
        Err(_) => Status::Memory,
    }
}
