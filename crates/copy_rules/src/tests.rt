use crate::draw_rules;
use enqueuer_core::Impacts;
use std::test::Fail;
use type_masks::Shape;
use world_state::World;

#[test]
fn drawn_rules_give_impacts(rt: HostRuntime) -> Result<(), Fail> {
    let shape = Shape {
        members: 7,
        slots: 5,
        kinds: 3,
    };
    let rules = draw_rules(rt.alloc(), shape, 2, 4, 1)?;
    assert_eq!(rt; rules.root_count(), 2);
    let world = World::new(rt.alloc(), shape)?;
    let snapshot = world.snapshot()?;
    assert!(rt; snapshot.shape() == rules.shape());
    let impact = rules.impact(6, &snapshot)?;
    assert_eq!(rt; impact.member, 6);
    assert!(rt; impact.reads.len() > 0);
    assert!(rt; impact.reads.len() <= 4);
    assert_eq!(rt; impact.facts.len(), 3);
    Ok(())
}
