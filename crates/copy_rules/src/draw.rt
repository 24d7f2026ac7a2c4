//! Rules by lot.
ghost use Rattle.std.specs.Prelude.{◌≡◌, ◌<◌, IfOk};

use crate::rules::{CopyRules, Rule, SlotCopy};
use std::alloc::{AllocError, Global};
use type_masks::Shape;
use world_state::{Fact, FactList};

// The numbers of a linear congruence.
#[derive(Drop)]
struct Lots {
    state: u64,
}

impl Lots {
    // A number below the bound, or 0 where there is none.
    fn below(&mut self, bound: u32) -> u32 {
        self.state = self
            .state
            .wrapping_mul(6_364_136_223_846_793_005)
            .wrapping_add(1_442_695_040_888_963_407);
        if bound == 0 {
            return 0;
        }
        ((self.state >> 33) % u64::from(bound)) as u32
    }
}

/// Rules that a seed determines: each member has so many copies, gives one kind and makes two members live.
pub fn draw_rules(
    alloc: Global,
    shape: Shape,
    first: u32,
    copies: u32,
    seed: u64,
) -> Result<CopyRules, AllocError>
    ensures { IfOk result (λ rules. rules.shape ≡ shape) }
{
    let mut lots = Lots { state: seed };
    let mut rules = Vec::new(alloc);
    for _ in 0..shape.members {
        rules.push(draw_rule(alloc, shape, copies, &mut lots)?)?;
    }
    Ok(CopyRules {
        alloc,
        shape,
        first,
        rules,
    })
}

fn draw_rule(
    alloc: Global,
    shape: Shape,
    copies: u32,
    lots: &mut Lots,
) -> Result<Rule, AllocError> {
    let mut drawn = Vec::new(alloc);
    for _ in 0..copies {
        let from = lots.below(shape.slots);
        let to = lots.below(shape.slots);
        drawn.push(SlotCopy { from, to })?;
    }
    let mut facts = FactList::new(alloc);
    let slot = lots.below(shape.slots);
    let kind = lots.below(shape.kinds);
    facts.push(Fact::In { slot, kind })?;
    for _ in 0..2 {
        let member = lots.below(shape.members);
        facts.push(Fact::Live { member })?;
    }
    Ok(Rule {
        copies: drawn,
        facts,
    })
}
