//! What copying rules give.
ghost use Rattle.std.specs.Prelude.{◌≡◌, ◌++◌, IfOk, OnOk, IfNone, IfSome, None, Some, slice_get, if◌then◌else◌};
ghost use Rattle.world_state.specs.Reads.{is_read, with_read};
ghost use Rattle.copy_rules.specs.Copying.{first_of, facts_inside, is_fact_inside, kinds_in, read_copy, copy_facts, impact_of};

use crate::rules::{CopyRules, Rule, SlotCopy};
use enqueuer_core::Impacts;
use std::alloc::{AllocError, Global};
use type_masks::{Mask, Shape};
use world_state::{Fact, FactList, Impact, ReadList, SlotRead, Snapshot};

impl Impacts for CopyRules {
    ghost use Rattle.copy_rules.specs.Copying.{meaning_of};
    ghost use Rattle.copy_rules.specs.Laws.{copying_lawful};

    ghost meaning = { λ r. meaning_of r.shape r.first r.rules.items };

    fn shape(&self) -> Shape {
        self.shape
    }

    fn root_count(&self) -> u32 {
        self.live_count()
    }

    fn root(&self, i: u32) -> Fact {
        Fact::Live { member: i }
    }

    fn impact(&self, member: u32, at: &Snapshot) -> Result<Impact, AllocError> {
        match self.rule_of(member) {
            Some(rule) => rule_impact(self.alloc, self.shape, rule, member, at),
            None => Ok(Impact {
                member,
                reads: ReadList::new(self.alloc),
                facts: FactList::new(self.alloc),
            }),
        }
    }

    ghost lawful = { λ r. copying_lawful r.shape r.first r.rules.items };
}

impl CopyRules {
    // How many members are live from the start.
    fn live_count(&self) -> u32
        ensures { result ≡ first_of self.now.shape self.now.first }
    {
        if self.first < self.shape.members {
            self.first
        } else {
            self.shape.members
        }
    }

    fn rule_of(&self, member: u32) -> Option<&Rule>
        ensures none { IfNone result (slice_get self.now.rules.items member ≡ None) }
        ensures some { IfSome result (λ rule. slice_get self.now.rules.items member ≡ Some rule.now) }
    {
        if (member as usize) < self.rules.len() {
            Some(&self.rules[member as usize])
        } else {
            None
        }
    }
}

// What the member of the rule gives.
fn rule_impact(
    alloc: Global,
    shape: Shape,
    rule: &Rule,
    member: u32,
    at: &Snapshot,
) -> Result<Impact, AllocError>
    requires { at.now.shape ≡ shape }
    ensures { IfOk result (λ impact. impact ≡ impact_of shape (Some rule.now) member at.now) }
{
    let mut reads = ReadList::new(alloc);
    let mut facts = inside_of(alloc, shape, rule.facts.as_slice())?;
    for copy in rule.copies.as_slice() {
        apply(shape, *copy, at, &mut reads, &mut facts)?;
    }
    Ok(Impact {
        member,
        reads,
        facts,
    })
}

// The facts that lie in the shape.
fn inside_of(alloc: Global, shape: Shape, facts: &[Fact]) -> Result<FactList, AllocError>
    ensures { IfOk result (λ inside. inside ≡ facts_inside shape facts.now) }
{
    let mut inside = FactList::new(alloc);
    for fact in facts {
        if is_inside(shape, *fact) {
            inside.push(*fact)?;
        }
    }
    Ok(inside)
}

fn is_inside(shape: Shape, fact: Fact) -> bool
    ensures { result ≡ is_fact_inside shape fact }
{
    match fact {
        Fact::In { slot, kind } => slot < shape.slots && kind < shape.kinds,
        Fact::Live { member } => member < shape.members,
    }
}

// Adds what the copy reads and what it gives.
fn apply(
    shape: Shape,
    copy: SlotCopy,
    at: &Snapshot,
    reads: &mut ReadList,
    facts: &mut FactList,
) -> Result<(), AllocError>
    requires { at.now.shape ≡ shape }
    ensures reads { OnOk result (reads.new ≡ read_copy shape at.now reads.old copy) }
    ensures facts { OnOk result (facts.new ≡ facts.old ++ copy_facts shape at.now copy) }
{
    if copy.from < shape.slots && copy.to < shape.slots {
        let mask = at.mask(copy.from);
        read(reads, copy.from, mask)?;
        give(facts, mask, copy.to, shape.kinds)?;
    }
    Ok(())
}

fn read(reads: &mut ReadList, slot: u32, mask: &Mask) -> Result<(), AllocError>
    ensures { OnOk result (reads.new ≡ (if is_read reads.old slot then reads.old else with_read reads.old (record { slot = slot; mask = mask.now }))) }
{
    if !reads.has(slot) {
        let mask = mask.copy()?;
        reads.push(SlotRead { slot, mask })?;
    }
    Ok(())
}

fn give(facts: &mut FactList, mask: &Mask, slot: u32, kinds: u32) -> Result<(), AllocError>
    ensures { OnOk result (facts.new ≡ facts.old ++ kinds_in mask.now slot kinds) }
{
    for kind in 0..kinds {
        if mask.has(kind) {
            facts.push(Fact::In { slot, kind })?;
        }
    }
    Ok(())
}
