//! The options of a run: how many steps it may take, and by which order loads complete.
ghost use Rattle.std.specs.Prelude.{◌≡◌, ◌<◌, ◌≤◌, ℕ, [], ◌∷◌, List, IfOk, MatchOption, MatchResult, decimal, drop, length};
ghost use Rattle.dart_web_cli.specs.Words.{IsSteps, IsOrder, IsOptions};
ghost use Rattle.dart_web_cli.specs.Commands.{Refuses, IsNumbers, HasNoNumber, IsNumberOf};

use crate::words::WordsFault;
use code_units::{NumberList, Words};
use itoa::Buffer;
use std::alloc::Global;

/// How many steps a run may take where no option says so.
pub const USUAL_STEPS: u64 = 10_000_000;

/// How many numbers an order may have.
const MOST_NUMBERS: usize = 1024;

/// 10 ^ 19: a number of steps is less, so that it has at most 19 digits.
const STEPS_END: u64 = 10_000_000_000_000_000_000;

/// 10 ^ 9: a number of an order is less.
const NUMBER_END: u64 = 1_000_000_000;

/// How many steps a run may take, and the numbers by which its loads complete.
#[derive(Debug, Drop)]
pub struct Options {
    pub steps: u64,
    pub order: NumberList,
}

// The number, less than `end`, of which this is the decimal text.
fn number_of(text: &str, end: u64) -> Option<u64>
    ensures { MatchOption result ((n : ℕ) → n < end → text.now ≡ decimal n → ⊥) (λ n. (text.now ≡ decimal n) × (n < end)) }
{
    let Ok(n) = text.parse::<u64>() else {
        return None;
    };
    if n >= end {
        return None;
    }
    let mut digits = Buffer::new();
    if digits.format(n) == text {
        Some(n)
    } else {
        None
    }
}

// The first number of an order.
fn small(text: &str) -> Option<u32>
    ensures { MatchOption result ((n : ℕ) → n < NUMBER_END → text.now ≡ decimal n → ⊥) (λ n. (text.now ≡ decimal n) × (n < NUMBER_END)) }
{
    let n = number_of(text, NUMBER_END)?;
    Some(n as u32)
}

// The number before the first comma, and what stands behind that comma, where there is one.
fn next_number<'a>(text: &'a str) -> Option<(u32, Option<&'a str>)>
    ensures { MatchOption result (HasNoNumber text.now) (λ x. IsNumberOf text.now x.0 x.1) }
{
    match text.split_once(',') {
        None => match small(text) {
            None => None,
            Some(last) => Some((last, None)),
        },
        Some((digits, more)) => match small(digits) {
            None => None,
            Some(number) => Some((number, Some(more))),
        },
    }
}

// The numbers with commas between; none where there are more than an order may have.
#[tactic(auto, using(crate::proofs::Orders::at_first, crate::proofs::Orders::with_next, crate::proofs::Orders::no_more, crate::proofs::Orders::whole_order, crate::proofs::Orders::too_many))]
fn order_of(alloc: Global, word: &str) -> Result<NumberList, WordsFault>
    ensures { MatchResult result (IsOrder word.now) (λ fault. Refuses fault ((order : List ℕ) → IsOrder word.now order → ⊥)) }
{
    let mut order = NumberList::new(alloc);
    let mut text = word;
    for turn in 0..MOST_NUMBERS {
        let Some((number, more)) = next_number(text) else {
            return Err(WordsFault::Usage);
        };
        order.push(number)?;
        let Some(rest) = more else {
            return Ok(order);
        };
        text = rest;
    }
    Err(WordsFault::Usage)
}

fn steps_of(word: &str) -> Result<u64, WordsFault>
    ensures { MatchResult result (IsSteps word.now) (λ fault. Refuses fault ((steps : ℕ) → IsSteps word.now steps → ⊥)) }
{
    match number_of(word, STEPS_END) {
        Some(steps) => Ok(steps),
        None => Err(WordsFault::Usage),
    }
}

// `--steps` or `--order`, and its word.
fn one_option(alloc: Global, name: &str, word: &str) -> Result<Options, WordsFault>
    ensures { MatchResult result (λ options. IsOptions (name.now ∷ word.now ∷ []) options.steps options.order)
        (λ fault. Refuses fault ((steps : ℕ) (order : List ℕ) → IsOptions (name.now ∷ word.now ∷ []) steps order → ⊥)) }
{
    if name == "--steps" {
        let steps = steps_of(word)?;
        Ok(Options {
            steps,
            order: NumberList::new(alloc),
        })
    } else if name == "--order" {
        let order = order_of(alloc, word)?;
        Ok(Options {
            steps: USUAL_STEPS,
            order,
        })
    } else {
        Err(WordsFault::Usage)
    }
}

// The words of both options.
fn both(alloc: Global, steps: &str, order: &str) -> Result<Options, WordsFault>
    ensures { MatchResult result (λ options. IsSteps steps.now options.steps × IsOrder order.now options.order)
        (λ fault. Refuses fault ((n : ℕ) (a : List ℕ) → IsSteps steps.now n → IsOrder order.now a → ⊥)) }
{
    let steps = steps_of(steps)?;
    let order = order_of(alloc, order)?;
    Ok(Options { steps, order })
}

// Both options, in any order.
fn two_options(
    alloc: Global,
    name: &str,
    word: &str,
    second: &str,
    other: &str,
) -> Result<Options, WordsFault>
    ensures { MatchResult result (λ options. IsOptions (name.now ∷ word.now ∷ second.now ∷ other.now ∷ []) options.steps options.order)
        (λ fault. Refuses fault ((steps : ℕ) (order : List ℕ) → IsOptions (name.now ∷ word.now ∷ second.now ∷ other.now ∷ []) steps order → ⊥)) }
{
    if name == "--steps" && second == "--order" {
        both(alloc, word, other)
    } else if name == "--order" && second == "--steps" {
        both(alloc, other, word)
    } else {
        Err(WordsFault::Usage)
    }
}

/// The options that stand behind the first two words.
pub fn read_options(alloc: Global, words: &Words) -> Result<Options, WordsFault>
    requires { 2 ≤ length words.now }
    ensures { MatchResult result (λ options. IsOptions (drop 2 words.now) options.steps options.order)
        (λ fault. Refuses fault ((steps : ℕ) (order : List ℕ) → IsOptions (drop 2 words.now) steps order → ⊥)) }
{
    match words.len() {
        2 => Ok(Options {
            steps: USUAL_STEPS,
            order: NumberList::new(alloc),
        }),
        4 => one_option(alloc, words.get(2), words.get(3)),
        6 => two_options(
            alloc,
            words.get(2),
            words.get(3),
            words.get(4),
            words.get(5),
        ),
        _ => Err(WordsFault::Usage),
    }
}
