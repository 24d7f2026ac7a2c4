use crate::{Fact, FactList, Impact, ReadList, SlotRead, Snapshot, World};
use std::alloc::{AllocError, Global};
use std::test::Fail;
use type_masks::{Mask, Shape};

#[test]
fn a_snapshot_stays(rt: HostRuntime) -> Result<(), Fail> {
    let shape = Shape {
        members: 3,
        slots: 2,
        kinds: 4,
    };
    let mut world = World::new(rt.alloc(), shape)?;
    let before = world.snapshot()?;
    let mut facts = FactList::new(rt.alloc());
    facts.push(Fact::In { slot: 1, kind: 3 })?;
    facts.push(Fact::Live { member: 2 })?;
    facts.push(Fact::In { slot: 1, kind: 3 })?;
    let added = world.add_facts(&facts)?;
    assert_eq!(rt;
        added.as_slice(),
        [Fact::In { slot: 1, kind: 3 }, Fact::Live { member: 2 }].as_slice()
    );
    assert_eq!(rt; world.shape(), shape);
    assert!(rt; world.mask(1).has(3) && world.is_live(2));
    assert_eq!(rt; world.add_facts(&facts)?.len(), 0);
    assert_eq!(rt; before.shape(), shape);
    assert!(rt; !before.mask(1).has(3) && !before.is_live(2));
    Ok(())
}

fn two_tables(alloc: Global) -> Result<World, AllocError> {
    let shape = Shape {
        members: 65,
        slots: 4_097,
        kinds: 2,
    };
    World::new(alloc, shape)
}

fn add(alloc: Global, world: &mut World, slot: u32, member: u32) -> Result<u64, AllocError> {
    let shape = world.shape();
    if slot >= shape.slots || member >= shape.members || shape.kinds < 2 {
        return Ok(0);
    }
    let mut facts = FactList::new(alloc);
    facts.push(Fact::In { slot, kind: 1 })?;
    facts.push(Fact::Live { member })?;
    Ok(world.add_facts(&facts)?.len())
}

fn has(world: &World, slot: u32, member: u32) -> bool {
    slot < world.shape().slots && world.mask(slot).has(1) && world.is_live(member)
}

fn had(before: &Snapshot, slot: u32, member: u32) -> bool {
    slot < before.shape().slots && before.mask(slot).has(1) || before.is_live(member)
}

// Slots 3 and 4 stand in one page, slot 64 in the next one and slot 4,096 in one of another table.
#[test]
fn a_snapshot_stays_in_every_page(rt: HostRuntime) -> Result<(), Fail> {
    let mut world = two_tables(rt.alloc())?;
    assert_eq!(rt; add(rt.alloc(), &mut world, 3, 0)?, 2);
    let before = world.snapshot()?;
    for (slot, member) in [(4, 1), (64, 63), (4_096, 64)] {
        assert_eq!(rt; add(rt.alloc(), &mut world, slot, member)?, 2);
        assert!(rt; has(&world, slot, member) && !had(&before, slot, member));
    }
    assert!(rt; has(&world, 3, 0) && had(&before, 3, 0));
    Ok(())
}

#[test]
fn reads_stand_by_slot(rt: HostRuntime) -> Result<(), Fail> {
    let mut reads = ReadList::new(rt.alloc());
    for slot in [5, 2, 9] {
        if !reads.has(slot) {
            let mask = Mask::new(rt.alloc(), 1);
            reads.push(SlotRead { slot, mask })?;
        }
    }
    let facts = FactList::new(rt.alloc());
    let impact = Impact {
        member: 0,
        reads,
        facts,
    };
    let copy = impact.copy()?;
    let mut slots = copy.reads.as_slice().iter().map(|read| read.slot);
    assert_eq!(rt; slots.next(), Some(2));
    assert_eq!(rt; slots.next(), Some(5));
    assert_eq!(rt; slots.next(), Some(9));
    assert!(rt; copy.reads.has(9) && !copy.reads.has(3));
    Ok(())
}
