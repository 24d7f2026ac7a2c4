//! What a primary expression is as the target of an assignment.

ghost use Rattle.std.specs.Prelude.{◌≡◌};
ghost use Rattle.js_reader.specs.Parsing as spec;

use js_tree::{JsExpr, JsHead, JsPrimary, JsSelector};
use sqlite_items::{Boxed, Items};

/// What a primary expression is as the target of an assignment.
#[derive(Drop)]
pub enum Target {
    /// A name alone.
    Name(Items<u8>),
    /// `primary[index]`
    Slot(JsPrimary, Boxed<JsExpr>),
    /// No target.
    Other,
}

fn bare(head: JsHead) -> Target
    ensures { result ≡ spec.bare head }
{
    match head {
        JsHead::Name(name) => Target::Name(name),
        _ => Target::Other,
    }
}

fn slot(head: JsHead, selectors: Items<JsSelector>, last: JsSelector) -> Target
    ensures { result ≡ spec.slot head selectors last }
{
    match last {
        JsSelector::Index(index) => Target::Slot(JsPrimary { head, selectors }, index),
        _ => Target::Other,
    }
}

/// The target that is this primary expression.
#[tactic(auto, using(crate::proofs::Aimed::last_one), unfolding(crate::specs::Parsing::target_of))]
pub fn target_of(primary: JsPrimary) -> Target
    ensures { result ≡ spec.target_of primary }
{
    let JsPrimary {
        head,
        mut selectors,
    } = primary;
    match selectors.pop() {
        Some(last) => slot(head, selectors, last),
        None => bare(head),
    }
}
