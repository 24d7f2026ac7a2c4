//! What holds of the runs of any files. Each function does nothing: its contract is the law.
ghost use Rattle.js_meaning.specs.Laws.{RunsAreOfAMeaning, MeantOrTooDeep};

/// The runs of each list of files begin with nothing printed, print at most one text a step, and keep their end.
pub fn runs_are_of_a_meaning()
    ensures { RunsAreOfAMeaning }
{}

/// Where so few steps may be nested, a run is what the files mean, or it is too deep.
#[tactic(auto, using(crate::proofs::Runs::meant_or_too_deep))]
pub fn meant_or_too_deep()
    ensures { MeantOrTooDeep }
{}
